ghost use Rattle.std.specs.Prelude.{◌≡◌, ◌+◌, ◌<◌, ◌≤◌, ◌^◌};
ghost use Rattle.riscv_spec.specs.Field.{field, opcode, rd, funct3, rs1, funct7, imm12};

/// So many bits of a word, from the bit `low` on.
pub(crate) fn field(low: u32, count: u32, word: u32) -> u32
    requires some { 0 < count }
    requires within { low + count ≤ 32 }
    requires not_whole { count < 32 }
    ensures value { result ≡ field low count word }
    ensures range { result < 2 ^ count }
{
    word >> low & ((1 << count) - 1)
}

pub(crate) fn opcode(word: u32) -> u32
    ensures value { result ≡ opcode word }
    ensures range { result < 2 ^ 7 }
{
    field(0, 7, word)
}

pub(crate) fn rd(word: u32) -> u32
    ensures value { result ≡ rd word }
    ensures range { result < 2 ^ 5 }
{
    field(7, 5, word)
}

pub(crate) fn funct3(word: u32) -> u32
    ensures value { result ≡ funct3 word }
    ensures range { result < 2 ^ 3 }
{
    field(12, 3, word)
}

pub(crate) fn rs1(word: u32) -> u32
    ensures value { result ≡ rs1 word }
    ensures range { result < 2 ^ 5 }
{
    field(15, 5, word)
}

pub(crate) fn funct7(word: u32) -> u32
    ensures value { result ≡ funct7 word }
    ensures range { result < 2 ^ 7 }
{
    field(25, 7, word)
}

/// The immediate of a JALR as a number of 12 bits, without its sign.
pub(crate) fn imm12(word: u32) -> u32
    ensures value { result ≡ imm12 word }
    ensures range { result < 2 ^ 12 }
{
    field(20, 12, word)
}
