ghost use Rattle.std.specs.Prelude.{◌≡◌, ◌++◌, ◌+◌, ◌≤◌, length};
ghost use Rattle.byte_port.specs.Sent.{Reports};
ghost use Rattle.top_words.specs.FaultText.{cause_text, elf_text, fault_text, flow_text, met_text, segment_text};

use crate::{ShortText, Status};
use byte_port::{Sink, send_all};
use elf_spec::ElfFault;
use flow_spec::FlowFault;

const USAGE: &[u8] = b"usage
  icache classify [--line N] [--sets N] [--ways N] [--workers N] [--nodes N] [--entry 0xN] [--contexts] [--start empty|any] [--isa rv32i|rv32ic]
  icache graph [--entry 0xN] [--line N] [--isa rv32i|rv32ic]
  icache sample --number N [--size N] [--line N] [--sets N] [--ways N] [--workers N] [--nodes N]";

/// What standard error gets at a status, the line end included. Takes no memory.
pub fn text_of(status: &Status) -> ShortText
    ensures { result ≡ fault_text status.now }
{
    let mut text = ShortText::new();
    text.push(b"icache: ");
    push_cause(&mut text, status);
    text.push(b"\n");
    text
}

/// Sends the text of a status, line end included, to where faults are explained. Where that fails it stays at a prefix of the
/// text, and nothing is sent again.
pub fn explain<E: Sink>(err: &mut E, status: &Status)
    ensures { Reports E.Sink (fault_text status.now) err.old err.new }
{
    let _ = send_all(err, text_of(status).as_bytes());
}

#[tactic(auto, unfolding(crate::specs::FaultText::cause_text))]
fn push_cause(text: &mut ShortText, status: &Status)
    requires { length text.old ≤ 8 }
    ensures text { text.new ≡ text.old ++ cause_text status.now }
    ensures length { length text.new ≤ 400 }
{
    match status {
        Status::Done => text.push(b"done"),
        Status::Usage => text.push(USAGE),
        Status::OutOfMemory => text.push(b"out of memory"),
        Status::ReadFault => text.push(b"read fault"),
        Status::WriteFault => text.push(b"write fault"),
        Status::FileTooBig => text.push(b"file above 16777216 bytes"),
        Status::Elf(fault) => push_elf(text, fault),
        Status::Flow(fault) => push_flow(text, fault),
        Status::TooManyBlocks { set, count } => {
            text.push_counted(b"set ", *set as u64);
            text.push_counted(b" has ", *count as u64);
            text.push(b" blocks");
        }
    }
}

#[tactic(auto, unfolding(crate::specs::FaultText::elf_text))]
fn push_elf(text: &mut ShortText, fault: &ElfFault)
    requires { length text.old ≤ 8 }
    ensures text { text.new ≡ text.old ++ elf_text fault.now }
    ensures length { length text.new ≤ 100 }
{
    match fault {
        ElfFault::Truncated { need, have } => {
            text.push_counted(b"truncated: need ", *need);
            text.push_counted(b", have ", *have);
        }
        ElfFault::NotElf => text.push(b"not ELF"),
        ElfFault::NotClass32 => text.push(b"not ELF class 32"),
        ElfFault::NotLittle => text.push(b"not little endian"),
        ElfFault::BadVersion => text.push(b"bad ELF version"),
        ElfFault::NotExecutable { kind } => {
            text.push_counted(b"not an executable: type ", *kind as u64)
        }
        ElfFault::NotRiscv { machine } => {
            text.push_counted(b"not RISC-V: machine ", *machine as u64)
        }
        ElfFault::BadEntrySize { size } => text.push_counted(b"program header size ", *size as u64),
        ElfFault::TooManySegments { count } => {
            text.push_counted(b"program headers above 64: ", *count as u64)
        }
        ElfFault::SegmentOutside { index } => push_segment(text, *index, b" outside the file"),
        ElfFault::SegmentWraps { index } => push_segment(text, *index, b" wraps"),
        ElfFault::SegmentsOverlap { index } => push_segment(text, *index, b" overlaps"),
        ElfFault::NoText => text.push(b"no executable segment"),
        ElfFault::OutOfMemory => text.push(b"out of memory"),
    }
}

/// A segment, and what is wrong with it.
fn push_segment(text: &mut ShortText, index: u16, wrong: &[u8])
    requires old { length text.old ≤ 8 }
    requires wrong { length wrong.now ≤ 20 }
    ensures text { text.new ≡ text.old ++ segment_text index wrong.now }
    ensures length { length text.new ≤ 100 }
{
    text.push_counted(b"segment ", index as u64);
    text.push(wrong);
}

#[tactic(auto, unfolding(crate::specs::FaultText::flow_text))]
fn push_flow(text: &mut ShortText, fault: &FlowFault)
    requires { length text.old ≤ 8 }
    ensures text { text.new ≡ text.old ++ flow_text fault.now }
    ensures length { length text.new ≤ 100 }
{
    match fault {
        FlowFault::BadEntry { entry } => text.push_placed(b"bad entry ", *entry),
        FlowFault::Illegal { at, word } => push_both(text, b"illegal word ", *word, *at),
        FlowFault::ComputedJump { at } => text.push_placed(b"computed jump at ", *at),
        FlowFault::BadTarget { at, target } => push_both(text, b"bad target ", *target, *at),
        FlowFault::Recursion { at } => text.push_placed(b"recursion at ", *at),
        FlowFault::TooManyFetches { limit } => {
            text.push_counted(b"fetches above ", *limit as u64)
        }
        FlowFault::OutOfMemory => text.push(b"out of memory"),
    }
}

/// A name with a target or a word, and where it was met.
fn push_both(text: &mut ShortText, name: &[u8], what: u32, at: u32)
    requires old { length text.old ≤ 8 }
    requires name { length name.now ≤ 20 }
    ensures text { text.new ≡ text.old ++ met_text name.now what at }
    ensures length { length text.new ≤ 100 }
{
    text.push_placed(name, what);
    text.push_placed(b" at ", at);
}
