use crate::tickets::TicketSeat;

// The result of a job, with its number.
#[derive(Drop)]
pub(crate) struct Numbered<D> {
    pub(crate) number: u32,
    pub(crate) done: D,
}

// Where one worker works.
pub(crate) struct Station<S, D> {
    pub(crate) worker: u32,
    pub(crate) seat: TicketSeat,
    pub(crate) state: S,
    pub(crate) results: Vec<Numbered<D>>,
    pub(crate) failed: bool,
}
