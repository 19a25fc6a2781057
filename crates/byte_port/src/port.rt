//! Readers and writers of std as a source and a sink: the edge that is trusted to say what the outside did.
ghost use Rattle.std.specs.Prelude.{◌≡◌, ◌↔◌, ◌≤◌, Ok, false, IfOk, IfErr, IsErr, IsOkAnd};
ghost use Rattle.byte_port.specs.Count.{CountsReads, CountsFaults};

use crate::{Failed, Sink, SinkFault, Source};
use std::io::{self, Read, Write};

/// How many bytes one read asks a reader for at most.
const PIECE: usize = 8192;

/// A source over a reader of std. The bytes left are known where the reader's are. Each error of the reader is a fault,
/// also an interrupted read, which isn't tried again. Of what one read does no more is known than its count of faults.
#[derive(Drop)]
pub struct ReadPort<R> {
    inner: R,
    failed_reads: u64,
}

impl<R: Read> ReadPort<R> {
    pub fn new(inner: R) -> ReadPort<R>
        ensures left { ⟦<ReadPort<R> as Source>⟧.left result ≡ R.remaining inner }
        ensures faults { ⟦<ReadPort<R> as Source>⟧.faults result ≡ 0 }
    {
        ReadPort {
            inner,
            failed_reads: 0,
        }
    }

    /// The reader's answer as the port's: an error where that is one, which is counted.
    fn answered(&mut self, answer: io::Result<usize>) -> Result<usize, Failed>
        ensures given { IfOk answer (λ n. result ≡ Ok n) }
        ensures failed { IsErr result ↔ IsErr answer }
        ensures faults { CountsReads result self.old.failed_reads self.new.failed_reads }
        ensures inner { self.new.inner ≡ self.old.inner }
    {
        match answer {
            Ok(count) => Ok(count),
            Err(_) => {
                self.failed_reads = self.failed_reads.saturating_add(1);
                Err(Failed)
            }
        }
    }
}

impl<R: Read> Source for ReadPort<R> {
    ghost left = { λ port. R.remaining port.inner };

    ghost faults = { λ port. port.failed_reads };

    ghost reads = { λ old result new. CountsReads result old.failed_reads new.failed_reads };

    fn read(&mut self, buf: &mut [u8]) -> Result<usize, Failed> {
        // A reader may write past the bytes that it gives, so it reads into a buffer of the port's own.
        let mut piece = [0u8; PIECE];
        let most = buf.len().min(PIECE);
        let answer = self.inner.read(&mut piece[..most]);
        let count = self.answered(answer)?;
        buf[..count].copy_from_slice(&piece[..count]);
        Ok(count)
    }
}

/// A sink over a writer of std. The bytes sent are known where what the writer holds is, and are all of that. Each error
/// of the writer is a fault, and so is a write that takes nothing of a nonempty piece: neither is tried again. It is never
/// out of memory. Of what one write does no more is known than its count of faults.
#[derive(Drop)]
pub struct WritePort<W> {
    inner: W,
    failed_writes: u64,
}

impl<W: Write> WritePort<W> {
    pub fn new(inner: W) -> WritePort<W>
        ensures sent { ⟦<WritePort<W> as Sink>⟧.sent result ≡ W.contents inner }
        ensures faults { ⟦<WritePort<W> as Sink>⟧.faults result ≡ 0 }
        ensures refusals { ⟦<WritePort<W> as Sink>⟧.refusals result ≡ 0 }
    {
        WritePort {
            inner,
            failed_writes: 0,
        }
    }

    /// The writer's answer as the port's: an error where that is one or nothing was taken of a nonempty piece, and it is
    /// counted.
    fn answered(&mut self, answer: io::Result<usize>, is_empty: bool) -> Result<usize, SinkFault>
        ensures taken { IfOk result (λ n. IsOkAnd answer (λ taken. taken ≡ n)) }
        ensures failed { IsErr result ↔ IfOk answer (λ taken. (taken ≡ 0) × (is_empty ≡ false)) }
        ensures only { IfErr result (λ fault. fault ≡ SinkFault.Failed) }
        ensures faults { CountsFaults result self.old.failed_writes self.new.failed_writes }
        ensures inner { self.new.inner ≡ self.old.inner }
    {
        match answer {
            Ok(count) if count > 0 || is_empty => Ok(count),
            _ => {
                self.failed_writes = self.failed_writes.saturating_add(1);
                Err(SinkFault::Failed)
            }
        }
    }
}

impl<W: Write> Sink for WritePort<W> {
    ghost sent = { λ port. W.contents port.inner };

    ghost faults = { λ port. port.failed_writes };

    ghost refusals = { λ _. 0 };

    ghost writes = { λ old result new. CountsFaults result old.failed_writes new.failed_writes };

    fn write(&mut self, piece: &[u8]) -> Result<usize, SinkFault> {
        let answer = self.inner.write(piece);
        self.answered(answer, piece.is_empty())
    }
}

#[cfg(test)]
mod tests {
    use super::*;
    use std::io::{Cursor, ErrorKind};
    use std::test::Fail;

    #[derive(Drop)]
    struct Broken;

    impl Read for Broken {
        fn read(&mut self, _: &mut [u8]) -> io::Result<usize> {
            Err(io::Error::from(ErrorKind::UnexpectedEof))
        }
    }

    /// A reader and writer whose first call fails, or else takes nothing; each later one would go well.
    #[derive(Drop)]
    struct Stumbling {
        fails: bool,
        calls: u32,
    }

    impl Stumbling {
        fn called(&mut self, room: usize) -> io::Result<usize>
            ensures { IfOk result (λ n. n ≤ room) }
        {
            self.calls = self.calls.saturating_add(1);
            if self.calls > 1 {
                Ok(room)
            } else if self.fails {
                Err(io::Error::from(ErrorKind::Interrupted))
            } else {
                Ok(0)
            }
        }
    }

    impl Read for Stumbling {
        fn read(&mut self, buf: &mut [u8]) -> io::Result<usize> {
            self.called(buf.len())
        }
    }

    impl Write for Stumbling {
        fn write(&mut self, piece: &[u8]) -> io::Result<usize> {
            self.called(piece.len())
        }

        fn flush(&mut self) -> io::Result<()> {
            Ok(())
        }
    }

    #[test]
    fn a_failed_read_is_not_tried_again(rt: HostRuntime) -> Result<(), Fail> {
        let mut source = ReadPort::new(Stumbling {
            fails: true,
            calls: 0,
        });
        assert_eq!(rt; source.read(&mut [0u8; 4]), Err(Failed));
        assert_eq!(rt; source.inner.calls, 1);
        Ok(())
    }

    #[test]
    fn an_end_is_not_asked_for_again(rt: HostRuntime) -> Result<(), Fail> {
        let mut source = ReadPort::new(Stumbling {
            fails: false,
            calls: 0,
        });
        assert_eq!(rt; source.read(&mut [0u8; 4]), Ok(0));
        assert_eq!(rt; source.inner.calls, 1);
        Ok(())
    }

    #[test]
    fn a_failed_write_and_one_that_takes_nothing_are_not_tried_again(
        rt: HostRuntime,
    ) -> Result<(), Fail> {
        for fails in [true, false] {
            let mut sink = WritePort::new(Stumbling { fails, calls: 0 });
            assert_eq!(rt; sink.write(&[1, 2]), Err(SinkFault::Failed));
            assert_eq!(rt; sink.inner.calls, 1);
        }
        Ok(())
    }

    #[test]
    fn a_reader_gives_its_bytes_and_then_its_fault(rt: HostRuntime) -> Result<(), Fail> {
        let bytes = [1u8, 2, 3];
        let mut source = ReadPort::new(bytes.as_slice().chain(Broken));
        let mut buf = [0u8; 2];
        assert_eq!(rt; source.read(&mut buf), Ok(2));
        assert_eq!(rt; buf.as_slice(), [1, 2].as_slice());
        assert_eq!(rt; source.read(&mut buf), Ok(1));
        assert_eq!(rt; buf.as_slice(), [3, 2].as_slice());
        assert_eq!(rt; source.read(&mut buf), Err(Failed));
        assert_eq!(rt; source.read(&mut []), Err(Failed));
        assert_eq!(rt; buf.as_slice(), [3, 2].as_slice());
        Ok(())
    }

    #[test]
    fn a_full_writer_is_a_fault(rt: HostRuntime) -> Result<(), Fail> {
        let mut room = [0u8; 3];
        let mut sink = WritePort::new(Cursor::new(room.as_mut_slice()));
        assert_eq!(rt; sink.write(&[1, 2]), Ok(2));
        assert_eq!(rt; sink.write(&[3, 4]), Ok(1));
        assert_eq!(rt; sink.write(&[4]), Err(SinkFault::Failed));
        assert_eq!(rt; sink.write(&[]), Ok(0));
        Ok(())
    }
}
