use crate::{Status, text_of};
use byte_port::{ReadStop, SinkFault};
use elf_spec::ElfFault;
use flow_spec::FlowFault;
use std::alloc::AllocError;

mod command_lines;

#[test]
fn each_status_has_its_code_and_its_text(rt: HostRuntime) {
    let blocks = Status::TooManyBlocks {
        set: 0,
        count: 1025,
    };
    for (status, code, text) in [
        (Status::OutOfMemory, 3, "icache: out of memory\n"),
        (Status::ReadFault, 4, "icache: read fault\n"),
        (Status::WriteFault, 5, "icache: write fault\n"),
        (Status::FileTooBig, 8, "icache: file above 16777216 bytes\n"),
        (blocks, 8, "icache: set 0 has 1025 blocks\n"),
    ] {
        assert_eq!(rt; status.code(), code, "at {text}");
        assert_eq!(rt; text_of(&status).as_bytes(), text.as_bytes(), "at {text}");
    }
    assert_eq!(rt; Status::Done.code(), 0);
}

#[test]
fn the_usage_has_a_line_for_each_command(rt: HostRuntime) {
    let usage = "icache: usage
  icache classify [--line N] [--sets N] [--ways N] [--workers N] [--nodes N] [--entry 0xN] [--contexts] [--start empty|any] [--isa rv32i|rv32ic]
  icache graph [--entry 0xN] [--line N] [--isa rv32i|rv32ic]
  icache sample --number N [--size N] [--line N] [--sets N] [--ways N] [--workers N] [--nodes N]
";
    assert_eq!(rt; text_of(&Status::Usage).as_bytes(), usage.as_bytes());
    assert_eq!(rt; Status::Usage.code(), 2);
}

#[test]
fn a_file_that_is_not_read_has_code_6_and_its_reason(rt: HostRuntime) {
    for (fault, text) in [
        (
            ElfFault::Truncated { need: 52, have: 0 },
            "icache: truncated: need 52, have 0\n",
        ),
        (ElfFault::NotElf, "icache: not ELF\n"),
        (ElfFault::NotClass32, "icache: not ELF class 32\n"),
        (ElfFault::NotLittle, "icache: not little endian\n"),
        (ElfFault::BadVersion, "icache: bad ELF version\n"),
        (
            ElfFault::NotExecutable { kind: 3 },
            "icache: not an executable: type 3\n",
        ),
        (
            ElfFault::NotRiscv { machine: 62 },
            "icache: not RISC-V: machine 62\n",
        ),
        (
            ElfFault::BadEntrySize { size: 56 },
            "icache: program header size 56\n",
        ),
        (
            ElfFault::TooManySegments { count: 65535 },
            "icache: program headers above 64: 65535\n",
        ),
        (
            ElfFault::SegmentOutside { index: 1 },
            "icache: segment 1 outside the file\n",
        ),
        (
            ElfFault::SegmentWraps { index: 2 },
            "icache: segment 2 wraps\n",
        ),
        (
            ElfFault::SegmentsOverlap { index: 63 },
            "icache: segment 63 overlaps\n",
        ),
        (ElfFault::NoText, "icache: no executable segment\n"),
    ] {
        let status = Status::from(fault);
        assert_eq!(rt; status.code(), 6, "at {text}");
        assert_eq!(rt; text_of(&status).as_bytes(), text.as_bytes(), "at {text}");
    }
}

#[test]
fn a_program_that_is_not_accepted_has_code_7_and_its_reason(rt: HostRuntime) {
    let at = 0x10000;
    for (fault, code, text) in [
        (
            FlowFault::BadEntry { entry: 0x10002 },
            7,
            "icache: bad entry 0x00010002\n",
        ),
        (
            FlowFault::Illegal {
                at,
                word: 0xffffffff,
            },
            7,
            "icache: illegal word 0xffffffff at 0x00010000\n",
        ),
        (
            FlowFault::ComputedJump { at },
            7,
            "icache: computed jump at 0x00010000\n",
        ),
        (
            FlowFault::BadTarget {
                at,
                target: 0x10004,
            },
            7,
            "icache: bad target 0x00010004 at 0x00010000\n",
        ),
        (
            FlowFault::Recursion { at },
            7,
            "icache: recursion at 0x00010000\n",
        ),
        (
            FlowFault::TooManyFetches { limit: 65536 },
            8,
            "icache: fetches above 65536\n",
        ),
    ] {
        let status = Status::from(fault);
        assert_eq!(rt; status.code(), code, "at {text}");
        assert_eq!(rt; text_of(&status).as_bytes(), text.as_bytes(), "at {text}");
    }
}

#[test]
fn want_of_memory_is_one_status(rt: HostRuntime) {
    for status in [
        Status::from(AllocError),
        Status::from(ElfFault::OutOfMemory),
        Status::from(FlowFault::OutOfMemory),
        Status::from(ReadStop::OutOfMemory),
        Status::from(SinkFault::OutOfMemory),
    ] {
        assert_eq!(rt; status, Status::OutOfMemory);
    }
    assert_eq!(rt; Status::from(ReadStop::Failed), Status::ReadFault);
    assert_eq!(rt; Status::from(ReadStop::TooBig), Status::FileTooBig);
    assert_eq!(rt; Status::from(SinkFault::Failed), Status::WriteFault);
}
