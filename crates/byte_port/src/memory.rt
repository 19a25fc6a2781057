//! Sources and sinks that keep their bytes in memory.
ghost use Rattle.std.specs.Prelude.{◌≡◌, ◌<◌, ◌≤◌, [], length, Ok, Some, IfOk, IfErr, OnOk, OnErr};
ghost use Rattle.byte_port.specs.Count.{greatest_count};
ghost use Rattle.byte_port.specs.Sure.{IsRead, IsWrite, given_count, without, filled, taken_count, with_sent, with_refusal};

use crate::{Failed, Sink, SinkFault, Source};
use std::alloc::Global;
use std::marker::Model;

/// A source over bytes in memory. One read gives at most `piece` bytes, and none fails.
#[derive(Drop)]
pub struct SureSource {
    bytes: Vec<u8>,
    at: usize,
    piece: usize,
}

impl Model for SureSource {
    ghost use Rattle.std.specs.Prelude.{◌<◌, ◌≤◌, drop, length};
    ghost use Rattle.byte_port.specs.Sure.{Supply};

    ghost Value = { Supply };

    ghost view = { λ s. record { left = drop s.at s.bytes.items; piece = s.piece } };

    ghost invariant = { λ s. (s.at ≤ length s.bytes.items) × (0 < s.piece) };
}

impl SureSource {
    pub fn new(bytes: Vec<u8>, piece: usize) -> SureSource
        requires { 0 < piece }
        ensures left { result.left ≡ bytes.items }
        ensures piece { result.piece ≡ piece }
    {
        SureSource {
            bytes,
            at: 0,
            piece,
        }
    }
}

impl Source for SureSource {
    ghost left = { λ s. Some s.left };

    ghost faults = { λ _. 0 };

    ghost reads = { IsRead };

    fn read(&mut self, buf: &mut [u8]) -> Result<usize, Failed>
        ensures positive { 0 < self.old.piece }
        ensures given { result ≡ Ok (given_count self.old (length buf.old)) }
        ensures left { self.new ≡ without self.old (given_count self.old (length buf.old)) }
        ensures buffer { buf.new ≡ filled self.old buf.old }
    {
        let count = self.piece.min(buf.len()).min(self.bytes.len() - self.at);
        buf[..count].copy_from_slice(&self.bytes[self.at..self.at + count]);
        self.at += count;
        Ok(count)
    }
}

/// A sink into memory. One write takes at most `piece` bytes, and none fails but where memory runs out.
#[derive(Drop)]
pub struct SureSink {
    bytes: Vec<u8>,
    piece: usize,
    refusals: u64,
}

impl Model for SureSink {
    ghost use Rattle.std.specs.Prelude.{◌<◌};
    ghost use Rattle.byte_port.specs.Sure.{Store};

    ghost Value = { Store };

    ghost view = { λ s. record { sent = s.bytes.items; piece = s.piece; refusals = s.refusals } };

    ghost invariant = { λ s. 0 < s.piece };
}

impl SureSink {
    pub fn new(alloc: Global, piece: usize) -> SureSink
        requires { 0 < piece }
        ensures sent { result.sent ≡ [] }
        ensures piece { result.piece ≡ piece }
        ensures refusals { result.refusals ≡ 0 }
    {
        SureSink {
            bytes: Vec::new(alloc),
            piece,
            refusals: 0,
        }
    }

    pub fn sent(&self) -> &[u8]
        ensures { result.now ≡ self.now.sent }
    {
        &self.bytes
    }
}

impl Sink for SureSink {
    ghost sent = { λ s. Some s.sent };

    ghost faults = { λ _. 0 };

    ghost refusals = { λ s. s.refusals };

    ghost writes = { IsWrite };

    fn write(&mut self, piece: &[u8]) -> Result<usize, SinkFault>
        ensures positive { 0 < self.old.piece }
        ensures counted { self.old.refusals ≤ greatest_count }
        ensures taken { IfOk result (λ n. n ≡ taken_count self.old (length piece.now)) }
        ensures ok { OnOk result (self.new ≡ with_sent self.old piece.now) }
        ensures memory_only { IfErr result (λ fault. fault ≡ SinkFault.OutOfMemory) }
        ensures refused { OnErr result (self.new ≡ with_refusal self.old) }
    {
        let count = self.piece.min(piece.len());
        match self.bytes.extend_from_slice(&piece[..count]) {
            Ok(()) => Ok(count),
            Err(_) => {
                self.refusals = self.refusals.saturating_add(1);
                Err(SinkFault::OutOfMemory)
            }
        }
    }
}

#[cfg(test)]
mod tests {
    use super::*;
    use std::test::Fail;

    #[test]
    fn bytes_come_and_go_in_pieces(rt: HostRuntime) -> Result<(), Fail> {
        let mut source = SureSource::new([1, 2, 3, 4, 5].to_vec(rt.alloc())?, 3);
        let mut sink = SureSink::new(rt.alloc(), 2);
        let mut buf = [0u8; 8];
        for (given, taken) in [(3, 2), (2, 2), (0, 0)] {
            let count = source.read(&mut buf)?;
            assert_eq!(rt; count, given);
            assert_eq!(rt; sink.write(&buf[..count]), Ok(taken));
        }
        assert_eq!(rt; sink.sent(), [1, 2, 4, 5].as_slice());
        Ok(())
    }
}
