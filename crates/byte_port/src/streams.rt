//! The loops over a source and over a sink.
ghost use Rattle.std.specs.Prelude.{◌≡◌, ◌<◌, ◌≤◌, ◌+◌, length, IfOk, IfSome, OnOk, OnErr, IsErrOf};
ghost use Rattle.std.specs.Io.KnownBytes.{Consumes, IsAtEnd};
ghost use Rattle.byte_port.specs.Count.{CountsFaults, CountsRefusals};
ghost use Rattle.byte_port.specs.Calls.{ReadsBy, SendsBy};
ghost use Rattle.byte_port.specs.Sent.{Sends, SendsPrefixOf};
ghost use Rattle.byte_port.specs.Stream.{CountsStop, Takes, TakesAtMost};

use crate::{Failed, Sink, SinkFault, Source};
use std::alloc::{AllocError, Global};

/// How many bytes one read asks a source for at most.
const PIECE: usize = 8192;

/// Why reading stopped before the end.
#[derive(Clone, Copy, Debug, PartialEq, Eq)]
pub enum ReadStop {
    /// The source failed.
    Failed,
    /// More bytes came than the limit allows.
    TooBig,
    /// No memory was left for the bytes.
    OutOfMemory,
}

impl From<Failed> for ReadStop {
    ghost use Rattle.std.specs.Prelude.{◌≡◌};
    ghost use Rattle.byte_port.specs.declared.streams.ReadStop.TheVariants as stops;

    ghost from_gives = { λ _ stop. stop ≡ stops.Failed };

    fn from(_: Failed) -> Self {
        ReadStop::Failed
    }
}

impl From<AllocError> for ReadStop {
    ghost use Rattle.std.specs.Prelude.{◌≡◌};
    ghost use Rattle.byte_port.specs.declared.streams.ReadStop.TheVariants as stops;

    ghost from_gives = { λ _ stop. stop ≡ stops.OutOfMemory };

    fn from(_: AllocError) -> Self {
        ReadStop::OutOfMemory
    }
}

/// Reads to the end, at most `limit` bytes. Stops as soon as one byte more has come.
pub fn read_all<S: Source>(alloc: Global, source: &mut S, limit: usize) -> Result<Vec<u8>, ReadStop>
    ensures bytes { IfOk result (λ bytes. Consumes (S.left source.old) (S.left source.new) bytes.items) }
    ensures end { OnOk result (IsAtEnd (S.left source.new)) }
    ensures within { IfOk result (λ bytes. length bytes.items ≤ limit) }
    ensures part { OnErr result (TakesAtMost (S.left source.old) (S.left source.new) (limit + 1)) }
    ensures one_more { IsErrOf result ReadStop.TooBig → Takes (S.left source.old) (S.left source.new) (limit + 1) }

    // Where the bytes of the source are known, their number decides between `Ok` and `TooBig`.
    ensures fits { OnOk result (IfSome (S.left source.old) (λ all. length all ≤ limit)) }
    ensures too_big { IsErrOf result ReadStop.TooBig → IfSome (S.left source.old) (λ all. limit < length all) }
    ensures faults { CountsStop result (S.faults source.old) (S.faults source.new) }

    // Which reads were made: none after the first that failed or gave nothing.
    ensures reads { ReadsBy S.reads S.left S.faults result source.old source.new }
{
    let mut bytes = Vec::new(alloc);
    let mut piece = [0u8; PIECE];
    while bytes.len() <= limit {
        // One byte past the limit is asked for too: a text of just that length and a longer one differ in it.
        let most = (limit - bytes.len()).min(PIECE - 1) + 1;
        let count = source.read(&mut piece[..most])?;
        if count == 0 {
            return Ok(bytes);
        }
        bytes.extend_from_slice(&piece[..count])?;
    }
    Err(ReadStop::TooBig)
}

/// Sends a whole text, piece after piece. The first error ends it, and the sink then has a prefix of the text.
pub fn send_all<O: Sink>(out: &mut O, text: &[u8]) -> Result<(), SinkFault>
    ensures whole { OnOk result (Sends O.Sink out.old out.new text.now) }
    ensures part { OnErr result (SendsPrefixOf O.Sink out.old out.new text.now) }
    ensures faults { CountsFaults result (O.faults out.old) (O.faults out.new) }
    ensures refusals { CountsRefusals result (O.refusals out.old) (O.refusals out.new) }

    // Which writes were made: none after the first that failed or was refused.
    ensures writes { SendsBy O.writes result out.old out.new }
{
    let mut at = 0;
    while at < text.len() {
        at += out.write(&text[at..])?;
    }
    Ok(())
}

#[cfg(test)]
mod tests {
    use super::*;
    use crate::{ReadPort, SureSink, SureSource, WritePort};
    use std::test::Fail;

    const TEXT: &str = "bytes that come in small pieces";

    #[test]
    fn small_pieces_make_the_whole(rt: HostRuntime) -> Result<(), Fail> {
        for piece in 1..9 {
            let mut source = SureSource::new(TEXT.as_bytes().to_vec(rt.alloc())?, piece);
            let bytes = read_all(rt.alloc(), &mut source, TEXT.len())?;
            assert_eq!(rt; bytes.as_slice(), TEXT.as_bytes());

            let mut sink = SureSink::new(rt.alloc(), piece);
            send_all(&mut sink, &bytes)?;
            assert_eq!(rt; sink.sent(), TEXT.as_bytes());
        }
        Ok(())
    }

    #[test]
    fn one_byte_past_the_limit_is_too_big(rt: HostRuntime) -> Result<(), Fail> {
        let mut source = SureSource::new(TEXT.as_bytes().to_vec(rt.alloc())?, 4);
        let result = read_all(rt.alloc(), &mut source, TEXT.len() - 1);
        assert_eq!(rt; result.err(), Some(ReadStop::TooBig));
        Ok(())
    }

    #[test]
    fn a_reader_is_copied_to_a_writer(rt: HostRuntime) -> Result<(), Fail> {
        let long = [7u8; 20000];
        let bytes = read_all(rt.alloc(), &mut ReadPort::new(long.as_slice()), 20000)?;
        let mut held = Vec::new(rt.alloc());
        send_all(&mut WritePort::new(&mut held), &bytes)?;
        assert_eq!(rt; held.as_slice(), long.as_slice());
        Ok(())
    }
}
