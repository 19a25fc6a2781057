// The reports of programs that are classified.
use crate::tests::graphs::{doubling, two_ways};
use crate::tests::{SMALL, check, check_jobs, has_jobs, nops, run_on, words_of, wrap};
use crate::{IdleGate, Status, run};
use byte_port::{MemSink, SureSink, SureSource};
use flow_spec::FlowFault;
use std::alloc::{AllocError, Global};
use std::test::Fail;

const LEAST: &str = "classify --line 4 --sets 1 --ways 1";

const LOOP: [u32; 3] = [0x13, 0xfe051ee3, 0x100073];

const CALLED_TWICE: [u32; 4] = [0x00c000ef, 0x008000ef, 0x100073, 0x8067];

const TWO_WAYS: &str = "classify --line 8 --sets 16 --ways 3";

const TWO_WAYS_REPORT: &str = "0x00010000 always-miss
0x00010004 always-hit
0x00010008 always-miss
0x0001000c always-hit
0x00010010 always-miss
0x00010014-0x0001007c unreachable
0x00010080 always-miss
0x00010084 unknown hit 5 t miss 6 n
0x00010088-0x000100fc unreachable
0x00010100 always-miss
0x00010104 unknown hit 7 n miss 6 t
";

#[test]
fn programs_without_branches_are_classified(rt: HostRuntime) -> Result<(), Fail> {
    let one = "0x00010000 always-miss\n";
    let two = "0x00010000 always-miss\n0x00010004 always-hit\n";
    let three = "0x00010000 always-miss\n0x00010004 always-hit\n0x00010008 always-hit\n";
    let later = "0x00010000 always-miss\n0x00010004-0x00010004 unreachable\n";
    let far = "0x00010000 always-miss\n0x00010004-0x0001000c unreachable\n";
    let passed_over =
        "0x00010000 always-miss\n0x00010004-0x00010004 unreachable\n0x00010008 always-miss\n";
    let paired = "0x00010000 always-miss\n0x00010004 always-hit
0x00010008 always-hit\n0x0001000c always-hit\n";
    let endless = "0x00010000 unknown hit 2 - miss 1 -\n";
    let cases: [(&str, &[u32], &str); 11] = [
        (SMALL, &[0x13, 0x100073], two),
        ("classify --ways 16 --sets 4096", &[0x13, 0x100073], two),
        (LEAST, &[0x100073], one),
        // A return with no call open.
        (LEAST, &[0x8067], one),
        (LEAST, &[0x100073, 0x100073], later),
        (LEAST, &[0x100073, 0, 1, 2], far),
        (SMALL, &[0x02a58533, 0x73, 0x30200073], three),
        (LEAST, &[0x0080006f, 0x100073, 0x100073], passed_over),
        (SMALL, &[0x6f], endless),
        (SMALL, &[0x97, 0x00c080e7, 0x100073, 0x8067], paired),
        // A call and a return by the other register.
        (SMALL, &[0x008002ef, 0x100073, 0x28067], three),
    ];
    for (line, words, text) in cases {
        check(&rt, rt.alloc(), line, words, Status::Done, text)?;
    }
    Ok(())
}

#[test]
fn branches_and_calls_are_classified(rt: HostRuntime) -> Result<(), Fail> {
    let alloc = rt.alloc();
    let misses = "0x00010000 always-miss\n0x00010004 always-miss\n0x00010008 always-miss\n";
    let kept = "0x00010000 unknown hit 3 t miss 1 -
0x00010004 unknown hit 4 t miss 2 -
0x00010008 always-miss
";
    let called = "0x00010000 always-miss
0x00010004 always-miss
0x00010008 always-miss
0x0001000c unknown hit 4 - miss 2 -
";
    let onto_next = "0x00010000 always-miss\n0x00010004 always-miss\n";
    let cases: [(&str, &[u32], &str); 4] = [
        (LEAST, &LOOP, misses),
        ("classify --line 4 --sets 1 --ways 2", &LOOP, kept),
        ("classify --line 4 --sets 1 --ways 4", &CALLED_TWICE, called),
        (LEAST, &[0x263, 0x100073], onto_next),
    ];
    for (line, words, text) in cases {
        check(&rt, alloc, line, words, Status::Done, text)?;
    }
    let words = two_ways(alloc)?;
    let done = Status::Done;
    check_jobs(
        &rt,
        alloc,
        TWO_WAYS,
        &words,
        done,
        TWO_WAYS_REPORT,
        &[0x2000],
    )?;
    Ok(())
}

/// A loop of two instructions within a loop of six.
pub(crate) const NESTED: [u32; 7] = [0x13, 0x13, 0xfe051ee3, 0x13, 0x13, 0xfedff06f, 0x100073];

#[test]
fn the_blocks_that_ages_leave_unclear_are_the_jobs(rt: HostRuntime) -> Result<(), Fail> {
    let alloc = rt.alloc();
    let cases: [(&str, &[u32]); 7] = [
        ("classify --line 4 --sets 2 --ways 2", &[0x4003, 0x4004]),
        (
            "classify --line 4 --sets 2 --ways 2 --contexts",
            &[0x4003, 0x4004],
        ),
        ("classify --line 4 --sets 2 --ways 2 --start any", &[0x4004]),
        ("classify --line 4 --sets 1 --ways 3", &[]),
        ("classify --line 4 --sets 1 --ways 3 --start any", &[0x4003]),
        ("classify --line 4 --sets 2 --ways 3", &[]),
        ("graph", &[]),
    ];
    for (line, jobs) in cases {
        let ran = run_on(&rt, alloc, line, wrap(alloc, &NESTED)?)?;
        assert_eq!(rt; ran.outcome.status, Status::Done, "{line}");
        assert!(rt; has_jobs(&ran.outcome, jobs), "{line}");
    }
    Ok(())
}

#[test]
fn with_any_cache_at_the_start_a_first_fetch_can_hit(rt: HostRuntime) -> Result<(), Fail> {
    let one_block = "0x00010000 unknown hit 1 - miss 1 -\n0x00010004 always-hit\n";
    let emptied = "0x00010000 always-miss\n0x00010004 always-hit\n";
    let two_ways = "0x00010000 unknown hit 1 - miss 1 -
0x00010004 unknown hit 2 - miss 2 -
0x00010008 always-miss
";
    let one_way = "0x00010000 unknown hit 1 - miss 1 -
0x00010004 always-miss
0x00010008 always-miss
";
    let called = "#0 0x00010000 depth 0 back none unknown hit 1 - miss 1 -
#1 0x0001000c depth 1 back 0x00010004 unknown hit 2 - miss 2 -
#2 0x00010004 depth 0 back none unknown hit 3 - miss 3 -
#3 0x0001000c depth 1 back 0x00010008 always-hit
#4 0x00010008 depth 0 back none unknown hit 5 - miss 5 -
";
    let three: [u32; 3] = [0x13, 0x13, 0x100073];
    let cases: [(&str, &[u32], &str); 5] = [
        (
            "classify --line 16 --sets 1 --ways 1 --start any",
            &[0x13, 0x100073],
            one_block,
        ),
        (
            "classify --start empty --line 16 --sets 1 --ways 1",
            &[0x13, 0x100073],
            emptied,
        ),
        (
            "classify --line 4 --start any --sets 1 --ways 2",
            &three,
            two_ways,
        ),
        (
            "classify --line 4 --sets 1 --ways 1 --start any",
            &three,
            one_way,
        ),
        (
            "classify --contexts --line 4 --sets 1 --ways 4 --start any",
            &CALLED_TWICE,
            called,
        ),
    ];
    for (line, words, text) in cases {
        check(&rt, rt.alloc(), line, words, Status::Done, text)?;
    }
    Ok(())
}

#[test]
fn reports_with_contexts_have_a_line_for_each_configuration(rt: HostRuntime) -> Result<(), Fail> {
    let called = "#0 0x00010000 depth 0 back none always-miss
#1 0x0001000c depth 1 back 0x00010004 always-miss
#2 0x00010004 depth 0 back none always-miss
#3 0x0001000c depth 1 back 0x00010008 always-hit
#4 0x00010008 depth 0 back none always-miss
";
    let kept = "#0 0x00010000 depth 0 back none unknown hit 3 t miss 1 -
#1 0x00010004 depth 0 back none unknown hit 4 t miss 2 -
#2 0x00010008 depth 0 back none always-miss
";
    let passed_over = "#0 0x00010000 depth 0 back none always-miss
#1 0x00010008 depth 0 back none always-miss
";
    let cases: [(&str, &[u32], &str); 3] = [
        (
            "classify --contexts --line 4 --sets 1 --ways 4",
            &CALLED_TWICE,
            called,
        ),
        (
            "classify --line 4 --sets 1 --ways 2 --contexts",
            &LOOP,
            kept,
        ),
        (
            "classify --line 4 --contexts --sets 1 --ways 1",
            &[0x0080006f, 0x100073, 0x100073],
            passed_over,
        ),
    ];
    for (line, words, text) in cases {
        check(&rt, rt.alloc(), line, words, Status::Done, text)?;
    }
    Ok(())
}

#[test]
fn a_report_is_cut_short_where_a_write_fails(rt: HostRuntime) -> Result<(), Fail> {
    let alloc = rt.alloc();
    let words = words_of(alloc, TWO_WAYS)?;
    let mut source = SureSource::new(wrap(alloc, &two_ways(alloc)?)?, 1000);
    let mut out = MemSink::new(alloc, 16, vec![in alloc; 1]?);
    let mut err = SureSink::new(alloc, 1000);
    let outcome = run(
        &rt,
        alloc,
        &words,
        &mut source,
        &mut out,
        &mut err,
        &IdleGate,
    );
    assert_eq!(rt; outcome.status, Status::WriteFault);
    assert!(rt; out.sent().len() <= 16);
    assert!(rt; TWO_WAYS_REPORT.as_bytes().starts_with(out.sent()));
    Ok(())
}

/// How many lines end in a text.
fn lines_with(text: &[u8], end: &str) -> usize {
    text.split(|byte| *byte == b'\n')
        .filter(|line| line.ends_with(end.as_bytes()))
        .count()
}

#[test]
fn the_greatest_programs_are_classified(rt: HostRuntime) -> Result<(), Fail> {
    let alloc = rt.alloc();
    let wide = nops(alloc, 1023, 0x100073)?;
    let deep = doubling(alloc, 14)?;
    // Each with an ending, how many lines have it, and how many words always hit.
    for (line, words, end, count, hits) in [
        (
            "classify --line 4 --sets 1 --ways 4",
            wide,
            " always-miss",
            1024,
            0,
        ),
        (
            "classify --line 256 --sets 1 --ways 1",
            deep,
            "0x00010000 always-miss",
            1,
            44,
        ),
    ] {
        let ran = run_on(&rt, alloc, line, wrap(alloc, &words)?)?;
        assert_eq!(rt; ran.outcome.status, Status::Done, "{line}");
        assert_eq!(rt; lines_with(ran.out.sent(), end), count);
        assert_eq!(rt; lines_with(ran.out.sent(), "always-hit"), hits);
    }
    Ok(())
}

// About a second as built, and minutes where `rt try` checks each step.
#[test]
fn as_many_configurations_as_the_limit_are_classified(rt: HostRuntime) -> Result<(), Fail> {
    let alloc = rt.alloc();
    let file = wrap(alloc, &nops(alloc, 65535, 0x100073)?)?;
    let line = "classify --line 256 --sets 16 --ways 1";
    let ran = run_on(&rt, alloc, line, file)?;
    assert_eq!(rt; ran.outcome.status, Status::Done);
    assert_eq!(rt; lines_with(ran.out.sent(), " always-miss"), 1024);
    assert_eq!(rt; lines_with(ran.out.sent(), " always-hit"), 64512);
    Ok(())
}

#[test]
fn greater_programs_are_refused(rt: HostRuntime) -> Result<(), Fail> {
    let alloc = rt.alloc();
    let wide = nops(alloc, 1024, 0x100073)?;
    let long = nops(alloc, 65536, 0x100073)?;
    let deep = doubling(alloc, 15)?;
    let blocks = Status::TooManyBlocks {
        set: 0,
        count: 1025,
    };
    let fetches = Status::Flow(FlowFault::TooManyFetches { limit: 65536 });
    let set_text = "icache: set 0 has 1025 blocks\n";
    let limit_text = "icache: fetches above 65536\n";
    for (line, words, status, text) in [
        (
            "classify --line 4 --sets 1 --ways 4",
            wide,
            blocks,
            set_text,
        ),
        (
            "classify --line 256 --sets 16 --ways 1",
            long,
            fetches,
            limit_text,
        ),
        (
            "classify --line 256 --sets 1 --ways 1",
            deep,
            fetches,
            limit_text,
        ),
    ] {
        assert_eq!(rt; status.code(), 8);
        check(&rt, alloc, line, &words, status, text)?;
    }
    Ok(())
}

/// The 200 bytes of an executable as a linker lays it out: its headers lie in its executable segment, with two functions
/// that call and branch, and what is never reached; a second segment has no bytes in the file.
pub(crate) fn linked(alloc: Global) -> Result<Vec<u8>, AllocError> {
    let words = [
        0x464c457f, 0x00010101, 0, 0, 0x00f30002, 1, 0x10074, 0x34, 0, 0, 0x00200034, 2, 0, 1, 0,
        0x10000, 0x10000, 0xc8, 0xc8, 5, 0x1000, 1, 0xc8, 0x110c8, 0x110c8, 0, 0x100, 6, 0x1000,
        0x008000ef, 0x00100073, 0xff010113, 0x00112623, 0x00a00413, 0x018000ef, 0xfff40413,
        0xfe041ce3, 0x00c12083, 0x01010113, 0x00008067, 0x00147513, 0x00050663, 0x00158593,
        0x00008067, 0x00159593, 0x00008067, 0x00000513, 0x00050067, 0x6c6c6568, 0x0000006f,
    ];
    let mut file = Vec::new(alloc);
    for word in words {
        let word: u32 = word;
        file.extend_from_slice(&word.to_le_bytes())?;
    }
    Ok(file)
}

const LINKED_REPORT: &str = "0x00010000-0x00010070 unreachable
0x00010074 always-miss
0x00010078 always-miss
0x0001007c always-hit
0x00010080 always-miss
0x00010084 always-hit
0x00010088 always-hit
0x0001008c always-miss
0x00010090 unknown hit 18 ntn miss 11 n
0x00010094 always-hit
0x00010098 always-hit
0x0001009c always-hit
0x000100a0 always-miss
0x000100a4 always-hit
0x000100a8 always-hit
0x000100ac always-hit
0x000100b0 always-miss
0x000100b4 always-hit
0x000100b8-0x000100c4 unreachable
";

#[test]
fn a_file_laid_out_as_by_a_linker_is_classified(rt: HostRuntime) -> Result<(), Fail> {
    let alloc = rt.alloc();
    let file = linked(alloc)?;
    assert_eq!(rt; file.len(), 200);
    let ran = run_on(&rt, alloc, "classify --line 16 --sets 2 --ways 1", file)?;
    assert_eq!(rt; ran.outcome.status, Status::Done);
    assert_eq!(rt; ran.out.sent(), LINKED_REPORT.as_bytes());
    assert!(rt; ran.err.sent().is_empty());
    Ok(())
}
