//! A source and a sink in memory that fail at named calls: they stand in for an outside that fails in mid-stream.
ghost use Rattle.std.specs.Prelude.{◌≡◌, ◌<◌, ◌≤◌, ◌↔◌, [], length, Some, IsTrue, IsErr, IfOk, OnOk, OnErr, IsErrOf};
ghost use Rattle.std.specs.Bool.{OnTrue, OnFalse};
ghost use Rattle.byte_port.specs.Count.{greatest_count};
ghost use Rattle.byte_port.specs.Sure.{given_count, filled, taken_count};
ghost use Rattle.byte_port.specs.Failing.{IsRead, IsWrite, FailsNext, after_call, after_failure, after_read, after_failed_read};
ghost use Rattle.byte_port.specs.Failing.{after_write, after_refusal, after_failed_write};

use crate::{Failed, Sink, SinkFault, Source, SureSink, SureSource};
use std::alloc::Global;
use std::marker::Model;

/// Which calls fail, and how many there were and failed. Calls are numbered from 0; from the greatest `u64` on each has
/// that number.
#[derive(Drop)]
struct Calls {
    failing: Vec<u64>,
    next_call: u64,
    faults: u64,
}

impl Model for Calls {
    ghost use Rattle.std.specs.Prelude.{◌≤◌};
    ghost use Rattle.byte_port.specs.Count.{greatest_count};
    ghost use Rattle.byte_port.specs.Failing.{Schedule};

    ghost Value = { Schedule };

    ghost view = { λ c. record { failing = c.failing.items; next_call = c.next_call; faults = c.faults } };

    ghost invariant = { λ c. c.faults ≤ greatest_count };
}

impl Calls {
    fn new(failing: Vec<u64>) -> Calls
        ensures failing { result.failing ≡ failing.items }
        ensures first { result.next_call ≡ 0 }
        ensures faults { result.faults ≡ 0 }
    {
        Calls {
            failing,
            next_call: 0,
            faults: 0,
        }
    }

    /// Counts the next call and says whether it fails.
    fn next_fails(&mut self) -> bool
        ensures within { self.old.faults ≤ greatest_count }
        ensures fails { IsTrue result ↔ FailsNext self.old }
        ensures failed { OnTrue result (self.new ≡ after_failure self.old) }
        ensures passed { OnFalse result (self.new ≡ after_call self.old) }
    {
        let fails = self.failing.contains(&self.next_call);
        self.next_call = self.next_call.saturating_add(1);
        if fails {
            self.faults = self.faults.saturating_add(1);
            return true;
        }
        false
    }
}

/// A source over bytes in memory. One read gives at most `piece` bytes, and just the reads whose numbers are in
/// `failing` fail. Reads are numbered from 0; from the greatest `u64` on each has that number.
#[derive(Drop)]
pub struct MemSource {
    inner: SureSource,
    calls: Calls,
}

impl Model for MemSource {
    ghost use Rattle.std.specs.Prelude.{◌<◌};
    ghost use Rattle.byte_port.specs.Failing.{FailingSupply};

    ghost Value = { FailingSupply };

    ghost view = { λ s. record { supply = s.inner; calls = s.calls } };

    ghost invariant = { λ s. 0 < s.inner.piece };
}

impl MemSource {
    pub fn new(bytes: Vec<u8>, piece: usize, failing: Vec<u64>) -> MemSource
        requires { 0 < piece }
        ensures left { result.supply.left ≡ bytes.items }
        ensures piece { result.supply.piece ≡ piece }
        ensures failing { result.calls.failing ≡ failing.items }
        ensures first { result.calls.next_call ≡ 0 }
        ensures faults { result.calls.faults ≡ 0 }
    {
        MemSource {
            inner: SureSource::new(bytes, piece),
            calls: Calls::new(failing),
        }
    }
}

impl Source for MemSource {
    ghost left = { λ s. Some s.supply.left };

    ghost faults = { λ s. s.calls.faults };

    ghost reads = { IsRead };

    fn read(&mut self, buf: &mut [u8]) -> Result<usize, Failed>
        ensures positive { 0 < self.old.supply.piece }
        ensures counted { self.old.calls.faults ≤ greatest_count }
        ensures fails { IsErr result ↔ FailsNext self.old.calls }
        ensures given { IfOk result (λ n. n ≡ given_count self.old.supply (length buf.old)) }
        ensures ok { IfOk result (λ n. self.new ≡ after_read self.old n) }
        ensures filled { OnOk result (buf.new ≡ filled self.old.supply buf.old) }
        ensures failed { OnErr result (self.new ≡ after_failed_read self.old) }
        ensures unfilled { OnErr result (buf.new ≡ buf.old) }
    {
        if self.calls.next_fails() {
            return Err(Failed);
        }
        self.inner.read(buf)
    }
}

/// A sink into memory. One write takes at most `piece` bytes, and just the writes whose numbers are in `failing` fail;
/// others may be refused where memory runs out. Writes are numbered from 0; from the greatest `u64` on each has that
/// number.
#[derive(Drop)]
pub struct MemSink {
    inner: SureSink,
    calls: Calls,
}

impl Model for MemSink {
    ghost use Rattle.std.specs.Prelude.{◌<◌, ◌≤◌};
    ghost use Rattle.byte_port.specs.Count.{greatest_count};
    ghost use Rattle.byte_port.specs.Failing.{FailingStore};

    ghost Value = { FailingStore };

    ghost view = { λ s. record { store = s.inner; calls = s.calls } };

    ghost invariant = { λ s. (0 < s.inner.piece) × (s.inner.refusals ≤ greatest_count) };
}

impl MemSink {
    pub fn new(alloc: Global, piece: usize, failing: Vec<u64>) -> MemSink
        requires { 0 < piece }
        ensures sent { result.store.sent ≡ [] }
        ensures piece { result.store.piece ≡ piece }
        ensures refusals { result.store.refusals ≡ 0 }
        ensures failing { result.calls.failing ≡ failing.items }
        ensures first { result.calls.next_call ≡ 0 }
        ensures faults { result.calls.faults ≡ 0 }
    {
        MemSink {
            inner: SureSink::new(alloc, piece),
            calls: Calls::new(failing),
        }
    }

    pub fn sent(&self) -> &[u8]
        ensures { result.now ≡ self.now.store.sent }
    {
        self.inner.sent()
    }
}

impl Sink for MemSink {
    ghost sent = { λ s. Some s.store.sent };

    ghost faults = { λ s. s.calls.faults };

    ghost refusals = { λ s. s.store.refusals };

    ghost writes = { IsWrite };

    fn write(&mut self, piece: &[u8]) -> Result<usize, SinkFault>
        ensures positive { 0 < self.old.store.piece }
        ensures faults_counted { self.old.calls.faults ≤ greatest_count }
        ensures refusals_counted { self.old.store.refusals ≤ greatest_count }
        ensures fails { IsErrOf result SinkFault.Failed ↔ FailsNext self.old.calls }
        ensures taken { IfOk result (λ n. n ≡ taken_count self.old.store (length piece.now)) }
        ensures ok { OnOk result (self.new ≡ after_write self.old piece.now) }
        ensures failed { IsErrOf result SinkFault.Failed → self.new ≡ after_failed_write self.old }
        ensures refused { IsErrOf result SinkFault.OutOfMemory → self.new ≡ after_refusal self.old }
    {
        if self.calls.next_fails() {
            return Err(SinkFault::Failed);
        }
        self.inner.write(piece)
    }
}

#[cfg(test)]
mod tests {
    use super::*;
    use crate::{ReadStop, read_all, send_all};
    use std::test::Fail;

    #[test]
    fn a_read_that_fails_takes_no_bytes(rt: HostRuntime) -> Result<(), Fail> {
        let bytes = [1, 2, 3, 4, 5].to_vec(rt.alloc())?;
        let mut source = MemSource::new(bytes, 2, [1].to_vec(rt.alloc())?);
        let mut buf = [0u8; 4];
        assert_eq!(rt; source.read(&mut buf), Ok(2));
        assert_eq!(rt; source.read(&mut buf), Err(Failed));
        assert_eq!(rt; buf.as_slice(), [1, 2, 0, 0].as_slice());
        assert_eq!(rt; source.read(&mut buf), Ok(2));
        assert_eq!(rt; source.read(&mut buf), Ok(1));
        assert_eq!(rt; buf.as_slice(), [5, 4, 0, 0].as_slice());
        assert_eq!(rt; source.read(&mut buf), Ok(0));
        Ok(())
    }

    #[test]
    fn a_write_that_fails_sends_no_bytes(rt: HostRuntime) -> Result<(), Fail> {
        let mut sink = MemSink::new(rt.alloc(), 2, [2, 0].to_vec(rt.alloc())?);
        assert_eq!(rt; sink.write(&[1, 2, 3]), Err(SinkFault::Failed));
        assert_eq!(rt; sink.write(&[1, 2, 3]), Ok(2));
        assert_eq!(rt; sink.write(&[3]), Err(SinkFault::Failed));
        assert_eq!(rt; sink.write(&[3]), Ok(1));
        assert_eq!(rt; sink.sent(), [1, 2, 3].as_slice());
        Ok(())
    }

    #[test]
    fn sending_into_a_failing_sink_leaves_a_prefix(rt: HostRuntime) -> Result<(), Fail> {
        let mut sink = MemSink::new(rt.alloc(), 2, [1].to_vec(rt.alloc())?);
        assert_eq!(rt;
            send_all(&mut sink, &[1, 2, 3, 4, 5]),
            Err(SinkFault::Failed)
        );
        assert_eq!(rt; sink.sent(), [1, 2].as_slice());
        Ok(())
    }

    #[test]
    fn reading_from_a_failing_source_is_a_failure(rt: HostRuntime) -> Result<(), Fail> {
        let bytes = [1, 2, 3, 4, 5].to_vec(rt.alloc())?;
        let mut source = MemSource::new(bytes, 2, [1].to_vec(rt.alloc())?);
        let result = read_all(rt.alloc(), &mut source, 5);
        assert_eq!(rt; result.err(), Some(ReadStop::Failed));
        Ok(())
    }
}
