// The texts of small graphs, and the programs that have neither a graph nor a report.
use crate::Status;
use crate::tests::{SMALL, check, run_on, wrap};
use flow_spec::FlowFault;
use std::alloc::{AllocError, Global};
use std::test::Fail;

/// The instructions, by offset; all other words are `nop`s. A jump leads into a loop, both branches of which come back
/// through 0x10010.
pub(crate) const TWO_WAYS: [(usize, u32); 9] = [
    (0x00, 0x0080006f),
    (0x04, 0x00100073),
    (0x08, 0x06050c63),
    (0x0c, 0x0f40006f),
    (0x10, 0x0740006f),
    (0x80, 0xf91ff06f),
    (0x84, 0x0800006f),
    (0x100, 0xf11ff06f),
    (0x104, 0xf01ff06f),
];

/// The loop of two ways, up to 0x10104.
pub(crate) fn two_ways(alloc: Global) -> Result<Vec<u32>, AllocError> {
    let mut words = vec![in alloc; 0x13; 66]?;
    for (place, word) in TWO_WAYS {
        if let Some(old) = words.get_mut(place / 4) {
            *old = word;
        }
    }
    Ok(words)
}

/// So many functions, each of which calls the next one twice, and a last one that returns at once.
pub(crate) fn doubling(alloc: Global, levels: usize) -> Result<Vec<u32>, AllocError> {
    let mut words = Vec::new(alloc);
    words.extend_from_slice(&[0x008000ef, 0x00100073])?;
    for _ in 0..levels {
        words.extend_from_slice(&[0x00c000ef, 0x008000ef, 0x00008067])?;
    }
    words.push(0x00008067)?;
    Ok(words)
}

#[test]
fn graphs_have_a_line_for_each_configuration(rt: HostRuntime) -> Result<(), Fail> {
    let alloc = rt.alloc();
    let loops = "#0 0x00010000 depth 0 back none next 1
#1 0x00010004 depth 0 back none next 2 taken 0
#2 0x00010008 depth 0 back none stop
";
    let calls = "#0 0x00010000 depth 0 back none next 1
#1 0x0001000c depth 1 back 0x00010004 next 2
#2 0x00010004 depth 0 back none next 3
#3 0x0001000c depth 1 back 0x00010008 next 4
#4 0x00010008 depth 0 back none stop
";
    let other_link = "#0 0x00010000 depth 0 back none next 1
#1 0x00010008 depth 1 back 0x00010004 next 2
#2 0x00010004 depth 0 back none stop
";
    let paired = "#0 0x00010000 depth 0 back none next 1
#1 0x00010004 depth 0 back none next 2
#2 0x0001000c depth 1 back 0x00010008 next 3
#3 0x00010008 depth 0 back none stop
";
    let onto_next = "#0 0x00010000 depth 0 back none next 1
#1 0x00010004 depth 0 back none stop
";
    // The last word calls, and what it calls doesn't return.
    let last_call = "#0 0x00010000 depth 0 back none next 1
#1 0x00010008 depth 0 back none next 2
#2 0x00010004 depth 1 back 0x0001000c stop
";
    let cases: [(&[u32], &str); 7] = [
        (&[0x6f], "#0 0x00010000 depth 0 back none next 0\n"),
        (&[0x13, 0xfe051ee3, 0x100073], loops),
        (&[0x00c000ef, 0x008000ef, 0x100073, 0x8067], calls),
        (&[0x008002ef, 0x100073, 0x28067], other_link),
        (&[0x97, 0x00c080e7, 0x100073, 0x8067], paired),
        (&[0x263, 0x100073], onto_next),
        (&[0x0080006f, 0x100073, 0xffdff0ef], last_call),
    ];
    for (words, text) in cases {
        check(&rt, alloc, "graph", words, Status::Done, text)?;
    }
    let from = "#0 0x00010004 depth 0 back none stop\n";
    let line = "graph --entry 0x10004";
    check(&rt, alloc, line, &[0x6f, 0x100073], Status::Done, from)?;
    Ok(())
}

#[test]
fn two_ways_meet_again(rt: HostRuntime) -> Result<(), Fail> {
    let alloc = rt.alloc();
    let words = two_ways(alloc)?;
    let text = "#0 0x00010000 depth 0 back none next 1
#1 0x00010008 depth 0 back none next 2 taken 3
#2 0x0001000c depth 0 back none next 5
#3 0x00010080 depth 0 back none next 4
#4 0x00010010 depth 0 back none next 6
#5 0x00010100 depth 0 back none next 4
#6 0x00010084 depth 0 back none next 7
#7 0x00010104 depth 0 back none next 8
#8 0x00010004 depth 0 back none stop
";
    check(&rt, alloc, "graph", &words, Status::Done, text)?;
    Ok(())
}

#[test]
fn a_program_that_is_refused_has_its_fault(rt: HostRuntime) -> Result<(), Fail> {
    let alloc = rt.alloc();
    let first = 0x10000;
    let cases: [(&[u32], FlowFault, &str); 8] = [
        (
            &[0xef],
            FlowFault::Recursion { at: first },
            "icache: recursion at 0x00010000\n",
        ),
        // Two functions that call each other.
        (
            &[0x008000ef, 0x100073, 0x004000ef, 0xffdff0ef],
            FlowFault::Recursion { at: 0x1000c },
            "icache: recursion at 0x0001000c\n",
        ),
        (
            &[0x50067],
            FlowFault::ComputedJump { at: first },
            "icache: computed jump at 0x00010000\n",
        ),
        (
            &[0xffffffff],
            FlowFault::Illegal {
                at: first,
                word: 0xffffffff,
            },
            "icache: illegal word 0xffffffff at 0x00010000\n",
        ),
        (
            &[0x13],
            FlowFault::BadTarget {
                at: first,
                target: 0x10004,
            },
            "icache: bad target 0x00010004 at 0x00010000\n",
        ),
        // A branch onto the second half of a pair.
        (
            &[0x463, 0x97, 0x00c080e7],
            FlowFault::BadTarget {
                at: first,
                target: 0x10008,
            },
            "icache: bad target 0x00010008 at 0x00010000\n",
        ),
        // A return by the other register.
        (
            &[0x008002ef, 0x100073, 0x8067],
            FlowFault::ComputedJump { at: 0x10008 },
            "icache: computed jump at 0x00010008\n",
        ),
        // A return by x5 with no call open.
        (
            &[0x28067],
            FlowFault::ComputedJump { at: first },
            "icache: computed jump at 0x00010000\n",
        ),
    ];
    for (words, fault, text) in cases {
        for line in ["graph", SMALL] {
            check(&rt, alloc, line, words, Status::Flow(fault), text)?;
        }
    }
    Ok(())
}

#[test]
fn the_greatest_graphs_are_sent(rt: HostRuntime) -> Result<(), Fail> {
    let alloc = rt.alloc();
    let file = wrap(alloc, &doubling(alloc, 14)?)?;
    let most = run_on(&rt, alloc, "graph", file)?;
    assert_eq!(rt; most.outcome.status, Status::Done);
    let lines = most
        .out
        .sent()
        .iter()
        .filter(|byte| **byte == b'\n')
        .count();
    assert_eq!(rt; lines, 65535);
    let file = wrap(alloc, &doubling(alloc, 15)?)?;
    let more = run_on(&rt, alloc, "graph", file)?;
    let many = FlowFault::TooManyFetches { limit: 65536 };
    assert_eq!(rt; more.outcome.status, Status::Flow(many));
    assert!(rt; more.out.sent().is_empty());
    Ok(())
}
