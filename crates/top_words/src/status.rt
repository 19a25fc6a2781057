ghost use Rattle.std.specs.Prelude.{◌≡◌};
ghost use Rattle.top_words.specs.Status.{code_of};

use byte_port::{ReadStop, SinkFault};
use elf_spec::ElfFault;
use flow_spec::FlowFault;
use std::alloc::AllocError;

/// How a run ends. `Elf` and `Flow` never hold out of memory, which is a status of its own.
#[derive(Clone, Copy, Debug, PartialEq, Eq)]
pub enum Status {
    /// The answer was sent whole.
    Done,
    /// The arguments give no settings. Nothing was read.
    Usage,
    /// No memory was left.
    OutOfMemory,
    /// The source failed.
    ReadFault,
    /// The sink of the answer failed.
    WriteFault,
    /// The source has more than 16,777,216 bytes.
    FileTooBig,
    /// The file isn't read as an executable.
    Elf(ElfFault),
    /// The program isn't accepted.
    Flow(FlowFault),
    /// A cache set, the first such one, with more than 1,024 fetched blocks.
    TooManyBlocks { set: u32, count: u32 },
}

impl Status {
    /// The exit code of the process.
    pub fn code(&self) -> u8
        ensures { result ≡ code_of self.now }
    {
        match self {
            Status::Done => 0,
            Status::Usage => 2,
            Status::OutOfMemory => 3,
            Status::ReadFault => 4,
            Status::WriteFault => 5,
            Status::Elf(_) => 6,
            Status::FileTooBig
            | Status::TooManyBlocks { .. }
            | Status::Flow(FlowFault::TooManyFetches { .. }) => 8,
            Status::Flow(_) => 7,
        }
    }
}

impl From<AllocError> for Status {
    ghost use Rattle.std.specs.Prelude.{◌≡◌};
    ghost use Rattle.top_words.specs.declared.status.Status.TheVariants.{OutOfMemory};

    ghost from_gives = { λ _ status. status ≡ OutOfMemory };

    fn from(_: AllocError) -> Self {
        Status::OutOfMemory
    }
}

impl From<ReadStop> for Status {
    ghost use Rattle.std.specs.Prelude.{◌≡◌};
    ghost use Rattle.top_words.specs.Status.{of_stop};

    ghost from_gives = { λ stop status. status ≡ of_stop stop };

    fn from(stop: ReadStop) -> Self {
        match stop {
            ReadStop::Failed => Status::ReadFault,
            ReadStop::TooBig => Status::FileTooBig,
            ReadStop::OutOfMemory => Status::OutOfMemory,
        }
    }
}

impl From<ElfFault> for Status {
    ghost use Rattle.std.specs.Prelude.{◌≡◌};
    ghost use Rattle.top_words.specs.Status.{of_elf};

    ghost from_gives = { λ fault status. status ≡ of_elf fault };

    fn from(fault: ElfFault) -> Self {
        match fault {
            ElfFault::OutOfMemory => Status::OutOfMemory,
            _ => Status::Elf(fault),
        }
    }
}

impl From<FlowFault> for Status {
    ghost use Rattle.std.specs.Prelude.{◌≡◌};
    ghost use Rattle.top_words.specs.Status.{of_flow};

    ghost from_gives = { λ fault status. status ≡ of_flow fault };

    fn from(fault: FlowFault) -> Self {
        match fault {
            FlowFault::OutOfMemory => Status::OutOfMemory,
            _ => Status::Flow(fault),
        }
    }
}

impl From<SinkFault> for Status {
    ghost use Rattle.std.specs.Prelude.{◌≡◌};
    ghost use Rattle.top_words.specs.Status.{of_sink};

    ghost from_gives = { λ fault status. status ≡ of_sink fault };

    fn from(fault: SinkFault) -> Self {
        match fault {
            SinkFault::Failed => Status::WriteFault,
            SinkFault::OutOfMemory => Status::OutOfMemory,
        }
    }
}
