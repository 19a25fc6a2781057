//! Where bytes come from and go to.
//!
//! A `Source` gives bytes and a `Sink` takes them, piece by piece. Each counts its faults, and a sink its refusals for
//! memory, so that a caller can see from the counts alone whether an answer came from the outside. Where their bytes are
//! known, the contracts say which bytes are left and which were sent. `ReadPort` and `WritePort` make them
//! of any reader and writer of std, and are the edge that is trusted. `SureSource` and `SureSink` keep theirs in memory
//! and never fail; `MemSource` and `MemSink` keep theirs there too, and fail at just the calls that their maker names.
//! `read_all` and `send_all` are the loops over them. Stands on std alone.
#![tactic(auto)]

ghost use Rattle.std.specs.Prelude.{◌≡◌, List, ℕ, [], Option, Some, Result, IfOk};
ghost use Rattle.std.specs.Io.{ReadsAtMost};
ghost use Rattle.std.specs.Io.KnownBytes.{ReadConsumes, WriteAppends};
ghost use Rattle.byte_port.specs.Count.{CountsReads, CountsFaults, CountsRefusals};
ghost use Rattle.byte_port.specs.Piece.{KeepsRest, TakesSome};
ghost use Rattle.byte_port.specs.declared.Failed.{Failed};
ghost use Rattle.byte_port.specs.declared.SinkFault.{SinkFault};

mod failing;
mod memory;
mod port;
mod streams;

pub use failing::{MemSink, MemSource};
pub use memory::{SureSink, SureSource};
pub use port::{ReadPort, WritePort};
use std::alloc::AllocError;
pub use streams::{ReadStop, read_all, send_all};

/// A read that failed. The count of faults rose.
#[derive(Clone, Copy, Debug, PartialEq, Eq)]
pub struct Failed;

/// Why a write failed, or a sending of several.
#[derive(Clone, Copy, Debug, PartialEq, Eq)]
pub enum SinkFault {
    /// The outside failed, or took nothing of a piece that has bytes. The count of faults rose.
    Failed,
    /// The sink had no memory for the bytes, and the count of refusals rose; or the sender had none for its own.
    OutOfMemory,
}

impl From<AllocError> for SinkFault {
    ghost use Rattle.std.specs.Prelude.{◌≡◌};
    ghost use Rattle.byte_port.specs.declared.SinkFault.TheVariants as faults;

    ghost from_gives = { λ _ fault. fault ≡ faults.OutOfMemory };

    fn from(_: AllocError) -> Self {
        SinkFault::OutOfMemory
    }
}

/// What gives bytes, up to its end.
///
/// `left` is the bytes that are left, or `None` where they aren't known. `faults` counts the reads that failed; it never
/// falls, and stops at the greatest `u64`. `reads` is what one read does: the source before, the answer, and the source
/// after. A loop over a source says by it which reads it made.
pub trait Source {
    ghost left: { Self → Option (List ℕ) };

    ghost faults: { Self → ℕ };

    ghost reads: { Self → Result ℕ Failed → Self → Type 0 };

    /// Reads into the beginning of `buf` and says how many bytes it gave: none only into an empty `buf` or at the end.
    /// After `Failed` the bytes left and `buf` are as before, and the next read may succeed.
    fn read(&mut self, buf: &mut [u8]) -> Result<usize, Failed>
        ensures bound { ReadsAtMost result buf.new }

        // The first `n` bytes of `buf` are taken from those left, and `Ok(0)` into a nonempty `buf` means the end.
        ensures bytes { ReadConsumes (left self.old) (left self.new) result buf.new }
        ensures ended { left self.old ≡ Some [] → IfOk result (λ n. n ≡ 0) }
        ensures rest { KeepsRest result buf.old buf.new }
        ensures faults { CountsReads result (faults self.old) (faults self.new) }
        ensures step { reads self.old result self.new };
}

/// What takes bytes.
///
/// `sent` is the bytes that it took, or `None` where they aren't known. `faults` and `refusals` count the writes that
/// failed and those that were refused since memory ran out; they never fall, and stop at the greatest `u64`. `writes` is
/// what one write does: the sink before, the answer, and the sink after.
pub trait Sink {
    ghost sent: { Self → Option (List ℕ) };

    ghost faults: { Self → ℕ };

    ghost refusals: { Self → ℕ };

    ghost writes: { Self → Result ℕ SinkFault → Self → Type 0 };

    /// Sends a prefix of `piece` and says how many bytes that was: at least one, unless `piece` is empty.
    /// After an error the bytes sent are as before, and the next write may succeed.
    fn write(&mut self, piece: &[u8]) -> Result<usize, SinkFault>
        ensures some { TakesSome result piece.now }
        ensures bytes { WriteAppends (sent self.old) (sent self.new) result piece.now }
        ensures faults { CountsFaults result (faults self.old) (faults self.new) }
        ensures refusals { CountsRefusals result (refusals self.old) (refusals self.new) }
        ensures step { writes self.old result self.new };
}
