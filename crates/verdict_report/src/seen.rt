// What is read of a line before its choices are copied.

/// A way whose choices stand in the text.
#[derive(Clone, Copy)]
pub(crate) struct SeenWay<'a> {
    pub(crate) steps: u64,
    pub(crate) choices: &'a [u8],
}

/// A verdict whose choices stand in the text.
#[derive(Clone, Copy)]
pub(crate) enum SeenVerdict<'a> {
    AlwaysHit,
    AlwaysMiss,
    Unknown { hit: SeenWay<'a>, miss: SeenWay<'a> },
}

/// What a line with a verdict speaks of.
#[derive(Clone, Copy)]
pub(crate) enum Subject {
    Address {
        at: u32,
    },
    Configuration {
        node: u32,
        at: u32,
        depth: u32,
        back: Option<u32>,
    },
}
