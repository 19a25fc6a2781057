/// Which ages are meant.
#[derive(Clone, Copy, Debug, PartialEq, Eq)]
pub enum Kind {
    /// A block's place is at most its must age.
    Must,
    /// A block's place is at least its may age.
    May,
}
