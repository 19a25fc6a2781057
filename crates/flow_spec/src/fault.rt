//! What is wrong with a program. The program prints `top_words::text_of` of it; the messages here are for callers of the
//! crates.
use std::alloc::AllocError;
use thiserror::Error;

/// Why a program isn't accepted. Addresses are in bytes.
#[derive(Clone, Copy, Debug, PartialEq, Eq, Error)]
pub enum FlowFault {
    /// The entry isn't in the text, or is the second half of a pair.
    #[error("the program can't begin at {entry:#010x}")]
    BadEntry { entry: u32 },
    /// An instruction of no kind, and its bytes as a number.
    #[error("{word:#010x} at {at:#010x} is no instruction")]
    Illegal { at: u32, word: u32 },
    /// A jump whose target isn't known, or a return that matches no open call.
    #[error("where the jump at {at:#010x} leads isn't known")]
    ComputedJump { at: u32 },
    /// The next instruction isn't in the text, or a target isn't, or it is the second half of a pair that control would
    /// enter in its middle.
    #[error("the instruction at {at:#010x} leads to {target:#010x}, where control can't go")]
    BadTarget { at: u32, target: u32 },
    /// A call of a function that is open, or of the entry.
    #[error("the call at {at:#010x} is recursive")]
    Recursion { at: u32 },
    /// More configurations than the limit.
    #[error("the program has more than {limit} fetches")]
    TooManyFetches { limit: u32 },
    #[error("out of memory")]
    OutOfMemory,
}

impl From<AllocError> for FlowFault {
    ghost use Rattle.std.specs.Prelude.{◌≡◌};
    ghost use Rattle.flow_spec.specs.declared.fault.FlowFault.TheVariants.{OutOfMemory};

    ghost from_gives = { λ _ fault. fault ≡ OutOfMemory };

    fn from(_: AllocError) -> Self {
        FlowFault::OutOfMemory
    }
}
