ghost use Rattle.std.specs.Prelude.{◌<◌};

use crate::{Gate, IdleGate, Outcome, Status, run};
use byte_port::{Failed, MemSink, MemSource, Sink, Source, SureSink, SureSource};
use elf_image::ElfFault;
use flow_spec::FlowFault;
use std::alloc::{AllocError, Global};
use std::process::Abort;
use std::test::Fail;
use std::thread::Threads;

mod compressed;
mod graphs;
mod hostile;
mod reports;
mod workers;

/// The file up to the program header's sizes.
const START: [u8; 68] = [
    0x7f, 0x45, 0x4c, 0x46, 1, 1, 1, 0, 0, 0, 0, 0, 0, 0, 0, 0, 2, 0, 0xf3, 0, 1, 0, 0, 0, 0, 0, 1,
    0, 0x34, 0, 0, 0, 0, 0, 0, 0, 0, 0, 0, 0, 0x34, 0, 0x20, 0, 1, 0, 0, 0, 0, 0, 0, 0, 1, 0, 0, 0,
    0x54, 0, 0, 0, 0, 0, 1, 0, 0, 0, 1, 0,
];

const FLAGS: [u8; 8] = [5, 0, 0, 0, 4, 0, 0, 0];

const USAGE: &str = "icache: usage
  icache classify [--line N] [--sets N] [--ways N] [--workers N] [--nodes N] [--entry 0xN] [--contexts] [--start empty|any] [--isa rv32i|rv32ic]
  icache graph [--entry 0xN] [--line N] [--isa rv32i|rv32ic]
  icache sample --number N [--size N] [--line N] [--sets N] [--ways N] [--workers N] [--nodes N]
";

/// The executable of some words at 0x10000, as many as a u32 counts.
pub(crate) fn wrap(alloc: Global, words: &[u32]) -> Result<Vec<u8>, AllocError> {
    let size = (words.len() as u64).wrapping_mul(4).to_le_bytes();
    let [a, b, c, d, ..] = size;
    let mut file = START.to_vec(alloc)?;
    file.extend_from_slice(&[a, b, c, d])?;
    file.extend_from_slice(&[a, b, c, d])?;
    file.extend_from_slice(&FLAGS)?;
    for word in words {
        file.extend_from_slice(&word.to_le_bytes())?;
    }
    Ok(file)
}

/// `count` `nop`s, and then the given word.
pub(crate) fn nops(alloc: Global, count: usize, last: u32) -> Result<Vec<u32>, AllocError> {
    let mut words = vec![in alloc; 0x13; count]?;
    words.push(last)?;
    Ok(words)
}

/// What a run gave, and what standard output and standard error got.
#[derive(Drop)]
pub(crate) struct Ran {
    pub(crate) outcome: Outcome,
    pub(crate) out: SureSink,
    pub(crate) err: SureSink,
}

pub(crate) fn words_of(alloc: Global, line: &str) -> Result<Vec<String>, AllocError> {
    let mut words = Vec::new(alloc);
    for word in line.split_whitespace() {
        words.push(String::from_str(alloc, word)?)?;
    }
    Ok(words)
}

pub(crate) fn run_on(
    rt: &(impl Threads + Sync),
    alloc: Global,
    line: &str,
    file: Vec<u8>,
) -> Result<Ran, AllocError> {
    run_with(rt, alloc, line, file, &IdleGate)
}

/// The same with a gate.
pub(crate) fn run_with(
    rt: &(impl Threads + Sync),
    alloc: Global,
    line: &str,
    file: Vec<u8>,
    gate: &(impl Gate + Sync),
) -> Result<Ran, AllocError> {
    let words = words_of(alloc, line)?;
    let mut source = SureSource::new(file, 1000);
    let mut out = SureSink::new(alloc, 100000);
    let mut err = SureSink::new(alloc, 7);
    let outcome = run(rt, alloc, &words, &mut source, &mut out, &mut err, gate);
    Ok(Ran { outcome, out, err })
}

/// One row of a table of runs: the geometry, the words, the status, and the one text that is sent. There are no jobs.
pub(crate) fn check<R: Threads + Sync + Abort>(
    rt: &R,
    alloc: Global,
    line: &str,
    words: &[u32],
    status: Status,
    text: &str,
) -> Result<(), AllocError> {
    check_jobs(rt, alloc, line, words, status, text, &[])
}

/// The same with the jobs.
pub(crate) fn check_jobs<R: Threads + Sync + Abort>(
    rt: &R,
    alloc: Global,
    line: &str,
    words: &[u32],
    status: Status,
    text: &str,
    jobs: &[u32],
) -> Result<(), AllocError> {
    let Ran { outcome, out, err } = run_on(rt, alloc, line, wrap(alloc, words)?)?;
    assert_eq!(rt; outcome.status, status, "{line}");
    assert!(rt; outcome.table.as_slice().is_empty());
    assert!(rt; has_jobs(&outcome, jobs), "{line}");
    let (reported, silent) = if status == Status::Done {
        (out, err)
    } else {
        (err, out)
    };
    assert_eq!(rt; reported.sent(), text.as_bytes());
    assert!(rt; silent.sent().is_empty());
    Ok(())
}

/// Whether an outcome's jobs are these blocks, without places.
pub(crate) fn has_jobs(outcome: &Outcome, blocks: &[u32]) -> bool {
    let jobs = outcome.jobs.as_slice();
    jobs.len() == blocks.len()
        && jobs
            .iter()
            .zip(blocks)
            .all(|(job, block)| job.block == *block && job.places.is_none())
}

pub(crate) const SMALL: &str = "classify --line 16 --sets 1 --ways 1";

#[test]
fn faulty_words_get_the_usage_text(rt: HostRuntime) -> Result<(), Fail> {
    for line in [
        "",
        "--help",
        "classify --line 12",
        "classify --ways 0",
        "classify --contexts --contexts",
        "classify --contexts 1",
        "classify --entry 10000",
        "classify --entry 0x",
        "classify --entry 0x123456789",
        "classify --entry 0x1000g",
        "classify --entry 0x10000 --entry 0x10000",
        "graph --line 3",
        "graph --contexts",
        "graph --entry",
    ] {
        check(
            &rt,
            rt.alloc(),
            line,
            &[0x13, 0x100073],
            Status::Usage,
            USAGE,
        )?;
    }
    Ok(())
}

#[test]
fn the_words_may_say_where_a_program_begins(rt: HostRuntime) -> Result<(), Fail> {
    let alloc = rt.alloc();
    let words = [0x13, 0x13, 0x100073];
    let later = "0x00010000-0x00010004 unreachable\n0x00010008 always-miss\n";
    for line in [
        "classify --line 4 --sets 1 --ways 1 --entry 0x10008",
        "classify --entry 0x00010008 --line 4 --sets 1 --ways 1",
        "classify --line 16 --sets 1 --ways 1 --entry 0x10008",
    ] {
        check(&rt, alloc, line, &words, Status::Done, later)?;
    }
    Ok(())
}

#[test]
fn a_bad_entry_is_refused(rt: HostRuntime) -> Result<(), Fail> {
    let alloc = rt.alloc();
    for (line, entry, text) in [
        (
            "classify --line 16 --sets 1 --ways 1 --entry 0x10008",
            0x10008,
            "icache: bad entry 0x00010008\n",
        ),
        (
            "classify --entry 0x10002",
            0x10002,
            "icache: bad entry 0x00010002\n",
        ),
        (
            "classify --entry 0xFFFFfffc",
            0xfffffffc,
            "icache: bad entry 0xfffffffc\n",
        ),
    ] {
        let bad = Status::Flow(FlowFault::BadEntry { entry });
        check(&rt, alloc, line, &[0x13, 0x100073], bad, text)?;
    }
    // The second half of a pair.
    let pair = [0x00000097, 0x00c080e7, 0x00100073];
    let bad = Status::Flow(FlowFault::BadEntry { entry: 0x10004 });
    let line = "classify --entry 0x10004";
    check(
        &rt,
        alloc,
        line,
        &pair,
        bad,
        "icache: bad entry 0x00010004\n",
    )?;
    Ok(())
}

#[test]
fn a_file_that_is_empty_or_too_big_is_refused(rt: HostRuntime) -> Result<(), Fail> {
    let alloc = rt.alloc();
    let none = ElfFault::Truncated { need: 52, have: 0 };
    for (size, status, text) in [
        (0, Status::Elf(none), "icache: truncated: need 52, have 0\n"),
        (16777216, Status::Elf(ElfFault::NotElf), "icache: not ELF\n"),
        (
            16777217,
            Status::FileTooBig,
            "icache: file above 16777216 bytes\n",
        ),
    ] {
        let zeros = vec![in alloc; 0; size]?;
        let Ran { outcome, out, err } = run_on(&rt, alloc, SMALL, zeros)?;
        assert_eq!(rt; outcome.status, status);
        assert!(rt; out.sent().is_empty());
        assert_eq!(rt; err.sent(), text.as_bytes());
    }
    Ok(())
}

/// The status of a run over ports of one's own.
fn status_over<S: Source, O: Sink, E: Sink>(
    rt: &(impl Threads + Sync),
    alloc: Global,
    line: &str,
    source: &mut S,
    out: &mut O,
    err: &mut E,
) -> Result<Status, AllocError> {
    let words = words_of(alloc, line)?;
    Ok(run(rt, alloc, &words, source, out, err, &IdleGate).status)
}

const TWO: &str = "0x00010000 always-miss\n0x00010004 always-hit\n";

/// A source that counts its reads, those that fail included.
#[derive(Drop)]
struct Counting<S> {
    inner: S,
    reads: u64,
}

impl<S: Source> Source for Counting<S> {
    ghost left = { λ source. S.left source.inner };

    ghost faults = { λ source. S.faults source.inner };

    ghost reads = { λ old result new. S.reads old.inner result new.inner };

    fn read(&mut self, buf: &mut [u8]) -> Result<usize, Failed> {
        self.reads = self.reads.saturating_add(1);
        self.inner.read(buf)
    }
}

/// Reads the file of two words in pieces, of which it takes `reads` to the end, where the read `call` fails.
fn check_reads<R: Threads + Sync + Abort>(
    rt: &R,
    alloc: Global,
    piece: usize,
    reads: u64,
    call: u64,
) -> Result<(), AllocError>
    requires { 0 < piece }
{
    let file = wrap(alloc, &[0x13, 0x100073])?;
    let inner = MemSource::new(file, piece, vec![in alloc; call]?);
    let mut source = Counting { inner, reads: 0 };
    let mut out = SureSink::new(alloc, 1000);
    let mut err = SureSink::new(alloc, 1000);
    let status = status_over(rt, alloc, SMALL, &mut source, &mut out, &mut err)?;
    let (wanted, fault, report, made) = if call < reads {
        (Status::ReadFault, "icache: read fault\n", "", call + 1)
    } else {
        (Status::Done, "", TWO, reads)
    };
    assert_eq!(rt; status, wanted, "at {call}");
    assert_eq!(rt; err.sent(), fault.as_bytes());
    assert_eq!(rt; out.sent(), report.as_bytes());
    assert_eq!(rt; source.reads, made, "at {call}");
    Ok(())
}

#[test]
fn a_failed_read_is_a_read_fault_and_the_last_read(rt: HostRuntime) -> Result<(), Fail> {
    for call in 0..94 {
        check_reads(&rt, rt.alloc(), 1, 93, call)?;
    }
    for call in 0..7 {
        check_reads(&rt, rt.alloc(), 20, 6, call)?;
    }
    Ok(())
}

#[test]
fn each_failed_write_is_a_write_fault(rt: HostRuntime) -> Result<(), Fail> {
    let alloc = rt.alloc();
    for call in 0..45 {
        let mut source = SureSource::new(wrap(alloc, &[0x13, 0x100073])?, 1000);
        let mut out = MemSink::new(alloc, 1, vec![in alloc; call]?);
        let mut err = SureSink::new(alloc, 1000);
        let status = status_over(&rt, alloc, SMALL, &mut source, &mut out, &mut err)?;
        assert_eq!(rt; status, Status::WriteFault, "at {call}");
        assert_eq!(rt; err.sent(), b"icache: write fault\n".as_slice());
        assert_eq!(rt; out.sent().len() as u64, call);
        assert!(rt; TWO.as_bytes().starts_with(out.sent()));
    }
    Ok(())
}

#[test]
fn a_failing_standard_error_changes_no_status(rt: HostRuntime) -> Result<(), Fail> {
    let alloc = rt.alloc();
    let left = FlowFault::BadTarget {
        at: 0x10000,
        target: 0x10004,
    };
    // Each with how many reads were made.
    for (line, wanted, reads) in [
        (SMALL, Status::Flow(left), 2),
        ("classify --ways 0", Status::Usage, 0),
    ] {
        let inner = SureSource::new(wrap(alloc, &[0x13])?, 1000);
        let mut source = Counting { inner, reads: 0 };
        let mut out = SureSink::new(alloc, 1000);
        let mut err = MemSink::new(alloc, 1000, vec![in alloc; 0]?);
        let status = status_over(&rt, alloc, line, &mut source, &mut out, &mut err)?;
        assert_eq!(rt; status, wanted, "{line}");
        assert_eq!(rt; source.reads, reads, "{line}");
        assert!(rt; err.sent().is_empty());
        assert!(rt; out.sent().is_empty());
    }
    Ok(())
}

#[test]
fn the_cut_of_the_bytes_changes_nothing(rt: HostRuntime) -> Result<(), Fail> {
    let alloc = rt.alloc();
    for piece in [1, 20, 4096] {
        let mut source = SureSource::new(wrap(alloc, &[0x13, 0x100073])?, piece);
        let mut out = SureSink::new(alloc, piece);
        let mut err = SureSink::new(alloc, piece);
        let status = status_over(&rt, alloc, SMALL, &mut source, &mut out, &mut err)?;
        assert_eq!(rt; status, Status::Done, "in pieces of {piece}");
        assert_eq!(rt; out.sent(), TWO.as_bytes());
        assert!(rt; err.sent().is_empty());
    }
    Ok(())
}
