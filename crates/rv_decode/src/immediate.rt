ghost use Rattle.std.specs.Prelude.{◌≡◌, ◌<◌, ◌^◌};
ghost use Rattle.riscv_spec.specs.Immediate.{signed, jal_bits, branch_bits, jal_offset, branch_offset, jalr_immediate, auipc_immediate};

use crate::field::{field, imm12};

/// A number of `bits` bits, read as two's complement.
pub(crate) fn sign_extended(bits: u32, number: u32) -> i32
    requires some { 0 < bits }
    requires few { bits < 31 }
    requires fits { number < 2 ^ bits }
    ensures { result ≡ signed bits number }
{
    let half: u32 = 1 << (bits - 1);
    if number < half {
        return number.cast_signed();
    }
    number.cast_signed() - (2 * half).cast_signed()
}

// The offset of a JAL as a number of 21 bits, without its sign.
fn jal_bits(word: u32) -> u32
    ensures value { result ≡ jal_bits word }
    ensures range { result < 2 ^ 21 }
{
    field(31, 1, word) << 20
        | (field(12, 8, word) << 12 | (field(20, 1, word) << 11 | field(21, 10, word) << 1))
}

// The offset of a BRANCH as a number of 13 bits, without its sign.
fn branch_bits(word: u32) -> u32
    ensures value { result ≡ branch_bits word }
    ensures range { result < 2 ^ 13 }
{
    field(31, 1, word) << 12
        | (field(7, 1, word) << 11 | (field(25, 6, word) << 5 | field(8, 4, word) << 1))
}

/// Where a JAL leads, in bytes from its own address.
pub(crate) fn jal_offset(word: u32) -> i32
    ensures { result ≡ jal_offset word }
{
    sign_extended(21, jal_bits(word))
}

/// Where a BRANCH leads if it is taken, in bytes from its own address.
pub(crate) fn branch_offset(word: u32) -> i32
    ensures { result ≡ branch_offset word }
{
    sign_extended(13, branch_bits(word))
}

/// What a JALR adds to its register.
pub(crate) fn jalr_immediate(word: u32) -> i32
    ensures { result ≡ jalr_immediate word }
{
    sign_extended(12, imm12(word))
}

/// What an AUIPC adds to its own address.
pub(crate) fn auipc_immediate(word: u32) -> i32
    ensures { result ≡ auipc_immediate word }
{
    (field(12, 20, word) << 12).cast_signed()
}
