// Programs with compressed instructions.
use crate::Status;
use crate::tests::{check, run_on, wrap};
use flow_spec::FlowFault;
use std::test::Fail;

/// c.nop; nop, from 0x10002 on; c.ebreak.
const ACROSS: [u32; 2] = [0x0013_0001, 0x9002_0000];

/// c.jal to 0x10004; c.ebreak; c.jr ra; and a parcel that nothing leads to.
const CALL: [u32; 2] = [0x9002_2011, 0x0001_8082];

#[test]
fn an_instruction_may_lie_in_two_lines(rt: HostRuntime) -> Result<(), Fail> {
    let alloc = rt.alloc();
    let parts = "#0 0x00010000 depth 0 back none next 1
#1 0x00010002 depth 0 back none next 2
#2 0x00010004 depth 0 back none next 3
#3 0x00010006 depth 0 back none stop
";
    let cut = "0x00010000 always-miss
0x00010002 always-hit
0x00010004 always-miss
0x00010006 always-hit
";
    let line = "classify --line 4 --sets 1 --ways 4 --isa rv32ic";
    check(&rt, alloc, line, &ACROSS, Status::Done, cut)?;
    let line = "graph --line 4 --isa rv32ic";
    check(&rt, alloc, line, &ACROSS, Status::Done, parts)?;
    Ok(())
}

#[test]
fn an_address_inside_an_instruction_has_no_line(rt: HostRuntime) -> Result<(), Fail> {
    let alloc = rt.alloc();
    let whole = "0x00010000 always-miss
0x00010002 always-hit
0x00010006 always-hit
";
    let called = "0x00010000 always-miss
0x00010002 always-hit
0x00010004 always-hit
0x00010006-0x00010006 unreachable
";
    let line = "classify --line 16 --sets 1 --ways 1 --isa rv32ic";
    check(&rt, alloc, line, &ACROSS, Status::Done, whole)?;
    check(&rt, alloc, line, &CALL, Status::Done, called)?;
    Ok(())
}

#[test]
fn parcels_that_begin_no_instruction_are_illegal(rt: HostRuntime) -> Result<(), Fail> {
    let alloc = rt.alloc();
    let line = "classify --isa rv32ic";
    for (word, text) in [
        (0, "icache: illegal word 0x00000000 at 0x00010000\n"),
        (0x1f, "icache: illegal word 0x0000001f at 0x00010000\n"),
    ] {
        let fault = FlowFault::Illegal { at: 0x10000, word };
        check(&rt, alloc, line, &[word], Status::Flow(fault), text)?;
    }
    // A nop of which the segment has two bytes, as its size in the file says.
    let mut file = wrap(alloc, &[0x13])?;
    if let Some(size) = file.get_mut(68) {
        *size = 2;
    }
    let ran = run_on(&rt, alloc, line, file)?;
    let fault = FlowFault::Illegal {
        at: 0x10000,
        word: 0x13,
    };
    assert_eq!(rt; ran.outcome.status, Status::Flow(fault));
    Ok(())
}
