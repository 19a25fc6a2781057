ghost use Rattle.std.specs.Prelude.{◌≡◌, ◌+◌, ◌*◌, ◌<◌, ◌^◌};
ghost use Rattle.riscv_spec.specs.Field.{field};
ghost use Rattle.riscv_spec.specs.Parcel.{length_of, quadrant, parcel_funct3, cj_bits, cb_bits, cj_offset, cb_offset, is_register_jump, widened_jump, widened};

use crate::field::field;
use crate::immediate::sign_extended;
use crate::opcodes::JALR;
use riscv_spec::Length;

/// How long an instruction of the C extension's encoding is that begins with this parcel.
pub fn length_of(parcel: u16) -> Length
    ensures { result ≡ length_of parcel }
{
    match parcel & 0b1_1111 {
        0b1_1111 => Length::Longer,
        low if low & 0b11 == 0b11 => Length::Four,
        _ => Length::Two,
    }
}

/// Bits 1 and 0 of a parcel, which name a quadrant of the encodings.
pub(crate) fn quadrant(parcel: u16) -> u32
    ensures value { result ≡ quadrant parcel }
    ensures range { result < 2 ^ 2 }
{
    field(0, 2, u32::from(parcel))
}

pub(crate) fn funct3(parcel: u16) -> u32
    ensures value { result ≡ parcel_funct3 parcel }
    ensures range { result < 2 ^ 3 }
{
    field(13, 3, u32::from(parcel))
}

// Bits 11 to 7 of the offset of a C.J or C.JAL.
fn cj_high_bits(word: u32) -> u32
    ensures value { result ≡ 16 * field 12 1 word + (8 * field 8 1 word + (2 * field 9 2 word + field 6 1 word)) }
    ensures range { result < 2 ^ 5 }
{
    field(12, 1, word) << 4
        | (field(8, 1, word) << 3 | (field(9, 2, word) << 1 | field(6, 1, word)))
}

// Bits 6 to 0 of such an offset.
fn cj_low_bits(word: u32) -> u32
    ensures value { result ≡ 64 * field 7 1 word + (32 * field 2 1 word + (16 * field 11 1 word + 2 * field 3 3 word)) }
    ensures range { result < 2 ^ 7 }
{
    field(7, 1, word) << 6
        | (field(2, 1, word) << 5 | (field(11, 1, word) << 4 | field(3, 3, word) << 1))
}

// The offset of a C.J or C.JAL as a number of 12 bits, without its sign.
fn cj_bits(parcel: u16) -> u32
    ensures value { result ≡ cj_bits parcel }
    ensures range { result < 2 ^ 12 }
{
    let word = u32::from(parcel);
    cj_high_bits(word) << 7 | cj_low_bits(word)
}

// The offset of a C.BEQZ or C.BNEZ as a number of 9 bits, without its sign.
fn cb_bits(parcel: u16) -> u32
    ensures value { result ≡ cb_bits parcel }
    ensures range { result < 2 ^ 9 }
{
    let word = u32::from(parcel);
    field(12, 1, word) << 8
        | (field(5, 2, word) << 6
            | (field(2, 1, word) << 5 | (field(10, 2, word) << 3 | field(3, 2, word) << 1)))
}

/// Where a C.J or C.JAL leads, in bytes from its own address.
pub(crate) fn cj_offset(parcel: u16) -> i32
    ensures { result ≡ cj_offset parcel }
{
    sign_extended(12, cj_bits(parcel))
}

/// Where a C.BEQZ or C.BNEZ leads if it is taken, in bytes from its own address.
pub(crate) fn cb_offset(parcel: u16) -> i32
    ensures { result ≡ cb_offset parcel }
{
    sign_extended(9, cb_bits(parcel))
}

/// The parcel is a C.JR or a C.JALR.
pub(crate) fn is_register_jump(parcel: u16) -> bool
    ensures { result ≡ is_register_jump parcel }
{
    let word = u32::from(parcel);
    let is_cr = quadrant(parcel) == 0b10 && funct3(parcel) == 0b100;
    is_cr && field(2, 5, word) == 0 && field(7, 5, word) != 0
}

/// The JALR that such a parcel stands for.
pub(crate) fn widened_jump(parcel: u16) -> u32
    ensures { result ≡ widened_jump parcel }
{
    let word = u32::from(parcel);
    field(7, 5, word) << 15 | (field(12, 1, word) << 7 | JALR)
}

/// The JALR without offset that a C.JR or a C.JALR stands for: with `x0` as its `rd` for a C.JR and `x1` for a C.JALR.
/// None where the parcel is neither.
#[tactic(auto, unfolding(riscv_spec::specs::Parcel::widened))]
pub fn widen(parcel: u16) -> Option<u32>
    ensures { result ≡ widened parcel }
{
    if is_register_jump(parcel) {
        Some(widened_jump(parcel))
    } else {
        None
    }
}
