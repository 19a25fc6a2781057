ghost use Rattle.std.specs.Prelude.{◌≡◌, ◌+◌, ◌<◌, ◌%◌, map, pos, Some, IsTrue, unsigned_abs};
ghost use Rattle.riscv_spec.specs.CompressedTable.{parcel_kind_of};
ghost use Rattle.riscv_spec.specs.Encode.{IsSigned, encode_jalr};
ghost use Rattle.riscv_spec.specs.EncodeParcel.{encode_cj, encode_cb, encode_cr};
ghost use Rattle.riscv_spec.specs.Field.{field};
ghost use Rattle.riscv_spec.specs.Parcel.{length_of, quadrant, parcel_funct3, bit_12, parcel_rs1, cj_offset, cb_offset, is_register_jump, widened};
ghost use Rattle.riscv_spec.specs.WorkedParcels.{worked_lengths, worked_parcels, worked_widenings};

use riscv_spec::{Kind, Length, Link};

// Each law is the contract of a function that does nothing, so that a caller has the law at the values that it passes.

/// A C.JAL, of `funct3` 1, and a C.J, of 5, are read back as they were put together, with an offset that is even and
/// has 12 bits with its sign.
#[tactic(auto, using(crate::proofs::ParcelRows::quadrant_1_row))]
pub fn cj_round_trip(funct3: u32, offset: i32)
    requires format { funct3 < 8 }
    requires even { unsigned_abs offset % 2 ≡ 0 }
    requires in_range { IsSigned 12 offset }
    ensures length { length_of (encode_cj funct3 offset) ≡ Length.Two }
    ensures offset { cj_offset (encode_cj funct3 offset) ≡ offset }
    ensures call { parcel_kind_of (encode_cj 1 offset) ≡ Kind.Call offset Link.X1 }
    ensures jump { parcel_kind_of (encode_cj 5 offset) ≡ Kind.Jump offset }
{}

/// A C.BEQZ, of `funct3` 6, and a C.BNEZ, of 7, are read back as they were put together, with an offset that is even
/// and has 9 bits with its sign.
#[tactic(auto, using(crate::proofs::ParcelRows::quadrant_1_row))]
pub fn cb_round_trip(funct3: u32, register: u32, offset: i32)
    requires format { funct3 < 8 }
    requires register { register < 8 }
    requires even { unsigned_abs offset % 2 ≡ 0 }
    requires in_range { IsSigned 9 offset }
    ensures length { length_of (encode_cb funct3 register offset) ≡ Length.Two }
    ensures offset { cb_offset (encode_cb funct3 register offset) ≡ offset }
    ensures zero { parcel_kind_of (encode_cb 6 register offset) ≡ Kind.Branch offset }
    ensures other { parcel_kind_of (encode_cb 7 register offset) ≡ Kind.Branch offset }
{}

/// A C.JR, with 0 as `rd`, and a C.JALR, with 1, stand for the JALR that is put together with this register and the
/// immediate 0.
#[tactic(auto, unfolding(riscv_spec::specs::Parcel::widened))]
pub fn cr_round_trip(rd: u32, rs1: u32)
    requires link { rd < 2 }
    requires register { (0 < rs1) × (rs1 < 32) }
    ensures length { length_of (encode_cr (8 + rd) rs1 0) ≡ Length.Two }
    ensures word { widened (encode_cr (8 + rd) rs1 0) ≡ Some (encode_jalr rd rs1 (pos 0)) }
{}

/// A parcel of quadrant 1 is what its `funct3` and the offset that is read of it encode in the CJ format.
pub fn cj_encoded_again(parcel: u16)
    requires { quadrant parcel ≡ 1 }
    ensures { encode_cj (parcel_funct3 parcel) (cj_offset parcel) ≡ parcel }
{}

/// A parcel of quadrant 1 is what its `funct3`, its register and the offset that is read of it encode in the CB format.
pub fn cb_encoded_again(parcel: u16)
    requires { quadrant parcel ≡ 1 }
    ensures { encode_cb (parcel_funct3 parcel) (field 7 3 parcel) (cb_offset parcel) ≡ parcel }
{}

/// A C.JR or C.JALR is what its register and its bit 12 encode in the CR format.
pub fn cr_encoded_again(parcel: u16)
    requires { IsTrue (is_register_jump parcel) }
    ensures { encode_cr (8 + bit_12 parcel) (parcel_rs1 parcel) 0 ≡ parcel }
{}

/// The definitions give each parcel that was worked out by hand its length, its kind, and the JALR that it stands for.
pub fn worked_parcels()
    ensures lengths { map (λ p. length_of p.0) worked_lengths ≡ map (λ p. p.1) worked_lengths }
    ensures kinds { map (λ p. parcel_kind_of p.0) worked_parcels ≡ map (λ p. p.1) worked_parcels }
    ensures widenings { map (λ p. widened p.0) worked_widenings ≡ map (λ p. p.1) worked_widenings }
{}
