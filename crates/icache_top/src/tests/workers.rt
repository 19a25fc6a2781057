// Reports that several workers work out.
ghost use Rattle.std.specs.Prelude.{◌≤◌, length};

use crate::tests::graphs::{TWO_WAYS, two_ways};
use crate::tests::reports::{NESTED, linked};
use crate::tests::{Ran, has_jobs, run_on, run_with, wrap};
use crate::{Gate, Status};
use std::alloc::{AllocError, Global};
use std::process::Abort;
use std::sync::atomic::{AtomicBool, Ordering};
use std::test::Fail;
use std::thread::Threads;

/// The loop of two ways at 0x10000, which then goes on to the same loop 32 bytes further on.
fn two_ways_twice(alloc: Global) -> Result<Vec<u32>, AllocError> {
    let mut words = two_ways(alloc)?;
    words.resize(74, 0x13)?;
    for (place, word) in TWO_WAYS {
        put(&mut words, place / 4 + 8, word);
    }
    put(&mut words, 1, 0x01c0006f);
    Ok(words)
}

fn put(words: &mut Vec<u32>, place: usize, word: u32) {
    if let Some(there) = words.get_mut(place) {
        *there = word;
    }
}

/// The lines of a report without their ways.
fn without_ways(alloc: Global, report: &[u8]) -> Result<Vec<u8>, AllocError> {
    let mut kept = Vec::new(alloc);
    for line in report.split(|byte| *byte == b'\n') {
        kept.extend_from_slice(&line[..verdict_end(line)])?;
        kept.push(b'\n')?;
    }
    Ok(kept)
}

/// Where a line's verdict ends.
fn verdict_end(line: &[u8]) -> usize
    ensures { result ≤ length line.now }
{
    if line.len() > 18 && line[11..].starts_with(b"unknown") {
        18
    } else {
        line.len()
    }
}

/// Holds job 0 until job 1 has begun, and notes where that takes too long.
#[derive(Drop)]
struct Meeting {
    second_began: AtomicBool,
    gave_up: AtomicBool,
}

impl Meeting {
    fn second_comes(&self) -> bool {
        for _ in 0..1_000_000_000u32 {
            if self.second_began.load(Ordering::SeqCst) {
                return true;
            }
        }
        false
    }
}

impl Gate for Meeting {
    fn began(&self, _worker: u32, job: u32) {
        if job == 1 {
            self.second_began.store(true, Ordering::SeqCst);
        }
        if job == 0 && !self.second_comes() {
            self.gave_up.store(true, Ordering::SeqCst);
        }
    }
}

const TWICE: &str = "classify --line 8 --sets 16 --ways 3 --workers 4";

const TWICE_VERDICTS: &str = "0x00010000 always-miss
0x00010004 always-hit
0x00010008 always-miss
0x0001000c always-hit
0x00010010 always-miss
0x00010014-0x0001001c unreachable
0x00010020 always-miss
0x00010024 always-hit
0x00010028 always-miss
0x0001002c always-hit
0x00010030 always-miss
0x00010034-0x0001007c unreachable
0x00010080 always-miss
0x00010084 unknown
0x00010088-0x0001009c unreachable
0x000100a0 always-miss
0x000100a4 unknown
0x000100a8-0x000100fc unreachable
0x00010100 always-miss
0x00010104 unknown
0x00010108-0x0001011c unreachable
0x00010120 always-miss
0x00010124 unknown

";

#[test]
fn two_jobs_of_a_run_run_beside_each_other(rt: HostRuntime) -> Result<(), Fail> {
    let alloc = rt.alloc();
    let gate = Meeting {
        second_began: AtomicBool::new(false),
        gave_up: AtomicBool::new(false),
    };
    let file = wrap(alloc, &two_ways_twice(alloc)?)?;
    let Ran { outcome, out, err } = run_with(&rt, alloc, TWICE, file, &gate)?;
    assert_eq!(rt; outcome.status, Status::Done);
    assert!(rt; has_jobs(&outcome, &[0x2000, 0x2004]));
    let verdicts = without_ways(alloc, out.sent())?;
    assert_eq!(rt; verdicts.as_slice(), TWICE_VERDICTS.as_bytes());
    assert!(rt; err.sent().is_empty());
    assert!(rt; !gate.gave_up.load(Ordering::SeqCst));
    Ok(())
}

/// The verdicts and the jobs of a run, which ends well.
fn verdicts_by<R: Threads + Sync + Abort>(
    rt: &R,
    alloc: Global,
    line: &str,
    file: &[u8],
    jobs: &[u32],
) -> Result<Vec<u8>, AllocError> {
    let Ran { outcome, out, err } = run_on(rt, alloc, line, file.to_vec(alloc)?)?;
    assert_eq!(rt; outcome.status, Status::Done, "{line}");
    assert!(rt; has_jobs(&outcome, jobs), "{line}");
    assert!(rt; err.sent().is_empty());
    without_ways(alloc, out.sent())
}

#[test]
fn the_number_of_workers_changes_no_verdict(rt: HostRuntime) -> Result<(), Fail> {
    let alloc = rt.alloc();
    let cases: [(&str, Vec<u8>, &[u32]); 3] = [
        ("--line 16 --sets 2 --ways 1", linked(alloc)?, &[]),
        (
            "--line 8 --sets 16 --ways 3",
            wrap(alloc, &two_ways_twice(alloc)?)?,
            &[0x2000, 0x2004],
        ),
        (
            "--line 4 --sets 2 --ways 2",
            wrap(alloc, &NESTED)?,
            &[0x4003, 0x4004],
        ),
    ];
    for (options, file, jobs) in cases {
        let line = format!(in alloc; "classify --workers 1 {options}")?;
        let one = verdicts_by(&rt, alloc, &line, &file, jobs)?;
        for workers in [2, 4, 64] {
            let line = format!(in alloc; "classify --workers {workers} {options}")?;
            let more = verdicts_by(&rt, alloc, &line, &file, jobs)?;
            assert_eq!(rt; more, one, "{line}");
        }
    }
    Ok(())
}
