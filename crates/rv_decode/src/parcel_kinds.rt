ghost use Rattle.std.specs.Prelude.{◌≡◌};
ghost use Rattle.riscv_spec.specs.CompressedTable.{parcel_kind_of};
ghost use Rattle.riscv_spec.specs.Parcel.{length_of, quadrant, cj_offset};
ghost use Rattle.riscv_spec.specs.declared.kind.Link.TheVariants.{X1};
ghost use Rattle.riscv_spec.specs.declared.parcel.Length.TheVariants.{Two};

use crate::kinds::decode;
use crate::parcel::{cb_offset, cj_offset, funct3, is_register_jump, quadrant, widened_jump};
use riscv_spec::{Kind, Link};

// Whole parcels: the defined illegal instruction, and C.EBREAK.
const ILLEGAL: u16 = 0x0000;

const C_EBREAK: u16 = 0x9002;

/// What a parcel of length Two by itself does to the flow of control. A C.JR or C.JALR is read without the AUIPC that
/// may stand before it, for which see `pair` and `widen`. Reserved encodings are Plain, but for the parcel of zeros.
#[tactic(auto, using(crate::proofs::ParcelRows::other_row))]
pub fn decode_parcel(parcel: u16) -> Kind
    requires { length_of parcel ≡ Two }
    ensures { result ≡ parcel_kind_of parcel }
{
    match quadrant(parcel) {
        1 => quadrant_1_kind(parcel),
        2 => quadrant_2_kind(parcel),
        _ if parcel == ILLEGAL => Kind::Illegal,
        _ => Kind::Plain,
    }
}

#[tactic(auto, using(crate::proofs::ParcelRows::quadrant_1_row))]
fn quadrant_1_kind(parcel: u16) -> Kind
    requires { quadrant parcel ≡ 1 }
    ensures { result ≡ parcel_kind_of parcel }
{
    match funct3(parcel) {
        0b001 => call_kind(parcel),
        0b101 => Kind::Jump {
            offset: cj_offset(parcel),
        },
        0b110 | 0b111 => Kind::Branch {
            offset: cb_offset(parcel),
        },
        _ => Kind::Plain,
    }
}

// A C.JAL links by `x1`.
fn call_kind(parcel: u16) -> Kind
    ensures { result ≡ Kind.Call (cj_offset parcel) X1 }
{
    Kind::Call {
        offset: cj_offset(parcel),
        link: Link::X1,
    }
}

#[tactic(auto, using(crate::proofs::ParcelRows::quadrant_2_row))]
fn quadrant_2_kind(parcel: u16) -> Kind
    requires { quadrant parcel ≡ 2 }
    ensures { result ≡ parcel_kind_of parcel }
{
    if is_register_jump(parcel) {
        return decode(widened_jump(parcel));
    }
    match parcel {
        C_EBREAK => Kind::Stop,
        _ => Kind::Plain,
    }
}
