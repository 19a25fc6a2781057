ghost use Rattle.std.specs.Prelude.{◌≡◌, ◌+◌, ◌^◌, ◌<◌, ◌≤◌, IfSome};
ghost use Rattle.riscv_spec.specs.Parcel.{length_of};
ghost use Rattle.flow_spec.specs.Instruction.{IsText, instruction_at, instruction_of, bytes_of, code_of, instruction_kind, parts_at};
ghost use Rattle.flow_spec.specs.Transfer.{word_of};
ghost use Rattle.flow_graph.specs.Read.{IsRead};

use elf_image::Image;
use flow_spec::{Instruction, Isa};
use rv_decode::{Kind, Length, decode, decode_parcel, length_of, widen};

/// The instruction at an address. None exactly where the address isn't in the text.
pub fn instruction_at(image: &Image, isa: Isa, p: u32) -> Option<Instruction>
    ensures instruction { result ≡ instruction_at isa image.now p }
    ensures read { IfSome result IsRead }
    ensures end { IfSome result (λ instruction. p + bytes_of instruction ≤ 2 ^ 32) }
{
    match isa {
        Isa::Rv32i => Some(Instruction::Word(image.word(p)?)),
        Isa::Rv32ic => Some(instruction_of(image.parcel(p)?, image.long(p))),
    }
}

// The instruction that begins with a parcel; `long` is the four bytes from the parcel's address on, where one segment has
// them.
fn instruction_of(parcel: u16, long: Option<u32>) -> Instruction
    ensures instruction { result ≡ instruction_of parcel long (length_of parcel) }
    ensures read { IsRead result }
{
    match (length_of(parcel), long) {
        (Length::Two, _) => Instruction::Parcel(parcel),
        (Length::Four, Some(long)) => Instruction::Word(long),
        (Length::Four, None) | (Length::Longer, _) => Instruction::Cut(parcel),
    }
}

/// How many bytes an instruction has.
pub(crate) fn bytes_of(instruction: Instruction) -> u32
    ensures { result ≡ bytes_of instruction }
{
    match instruction {
        Instruction::Word(_) => 4,
        Instruction::Parcel(_) | Instruction::Cut(_) => 2,
    }
}

/// These bytes as a number, little endian.
pub(crate) fn code_of(instruction: Instruction) -> u32
    ensures { result ≡ code_of instruction }
{
    match instruction {
        Instruction::Word(code) => code,
        Instruction::Parcel(code) | Instruction::Cut(code) => code.into(),
    }
}

/// Its kind by itself.
pub(crate) fn kind_of(instruction: Instruction) -> Kind
    requires { IsRead instruction }
    ensures { result ≡ instruction_kind instruction }
{
    match instruction {
        Instruction::Word(code) => decode(code),
        Instruction::Parcel(code) => decode_parcel(code),
        Instruction::Cut(_) => Kind::Illegal,
    }
}

/// The word that may be the second half of a pair: of two bytes, the JALR that they stand for.
pub(crate) fn word_of(instruction: Instruction) -> Option<u32>
    ensures { result ≡ word_of instruction }
{
    match instruction {
        Instruction::Word(code) => Some(code),
        Instruction::Parcel(code) => widen(code),
        Instruction::Cut(_) => None,
    }
}

/// In how many parts the instruction at an address of the text is fetched: in two where it is one of four bytes that
/// aren't a word of RV32I, and a cache line of this many bytes begins in its middle.
pub fn parts(image: &Image, isa: Isa, line: u32, at: u32) -> u32
    requires text { IsText isa image.now at }
    requires some { 0 < line }
    ensures parts { result ≡ parts_at isa image.now line at }
    ensures end { result ≡ 2 → at + 4 ≤ 2 ^ 32 }
{
    match (isa, instruction_at(image, isa, at)) {
        (Isa::Rv32ic, Some(Instruction::Word(_))) if (at + 2) % line == 0 => 2,
        _ => 1,
    }
}
