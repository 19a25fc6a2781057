ghost use Rattle.std.specs.Prelude.{◌≡◌, ◌≢◌, ◌<◌, ◌%◌, ◌+ℤ◌, map, unsigned_abs};
ghost use Rattle.riscv_spec.specs.Encode.{IsSigned, encode_jal, encode_branch, encode_jalr, encode_auipc};
ghost use Rattle.riscv_spec.specs.Immediate.{jal_offset, branch_offset, jalr_immediate, auipc_immediate};
ghost use Rattle.riscv_spec.specs.Pair.{pair_of};
ghost use Rattle.riscv_spec.specs.Table.{kind_of, link_named};
ghost use Rattle.riscv_spec.specs.Worked.{worked_kinds, worked_pairs};

use riscv_spec::{Kind, Link};

// Each law is the contract of a function that does nothing, so that a caller has the law at the values that it passes.

/// A JAL is read back as it was put together, with an offset that is even and has 21 bits with its sign.
#[tactic(auto, using(crate::proofs::Rows::jal_row))]
pub fn jal_round_trip(rd: u32, offset: i32)
    requires register { rd < 32 }
    requires even { unsigned_abs offset % 2 ≡ 0 }
    requires in_range { IsSigned 21 offset }
    ensures offset { jal_offset (encode_jal rd offset) ≡ offset }
    ensures jump { link_named rd ≡ None → kind_of (encode_jal rd offset) ≡ Kind.Jump offset }
    ensures call { (link : Link) → link_named rd ≡ Some link → kind_of (encode_jal rd offset) ≡ Kind.Call offset link }
{}

/// A BRANCH is read back as it was put together, with an offset that is even and has 13 bits with its sign.
#[tactic(auto, using(crate::proofs::Rows::branch_row))]
pub fn branch_round_trip(funct3: u32, rs1: u32, rs2: u32, offset: i32)
    requires comparison { (funct3 < 8) × (funct3 ≢ 2) × (funct3 ≢ 3) }
    requires registers { (rs1 < 32) × (rs2 < 32) }
    requires even { unsigned_abs offset % 2 ≡ 0 }
    requires in_range { IsSigned 13 offset }
    ensures offset { branch_offset (encode_branch funct3 rs1 rs2 offset) ≡ offset }
    ensures kind { kind_of (encode_branch funct3 rs1 rs2 offset) ≡ Kind.Branch offset }
{}

/// A JALR's immediate is read back from the word that it was put into: of 12 bits with its sign.
pub fn jalr_round_trip(rd: u32, rs1: u32, immediate: i32)
    requires registers { (rd < 32) × (rs1 < 32) }
    requires in_range { IsSigned 12 immediate }
    ensures { jalr_immediate (encode_jalr rd rs1 immediate) ≡ immediate }
{}

/// An AUIPC's immediate is read back from the word that it was put into: any multiple of 4096.
pub fn auipc_round_trip(rd: u32, immediate: i32)
    requires register { rd < 32 }
    requires multiple { unsigned_abs immediate % 4096 ≡ 0 }
    ensures { auipc_immediate (encode_auipc rd immediate) ≡ immediate }
{}

/// An AUIPC and a JALR through its register are read back as a pair, which leads to the sum of their immediates.
#[tactic(auto, unfolding(riscv_spec::specs::Pair::pair_of))]
pub fn pair_round_trip(register: u32, rd: u32, upper: i32, lower: i32)
    requires registers { (0 < register) × (register < 32) × (rd < 32) }
    requires multiple { unsigned_abs upper % 4096 ≡ 0 }
    requires in_range { IsSigned 12 lower }
    ensures { pair_of (encode_auipc register upper) (encode_jalr rd register lower) ≡ Some (upper +ℤ lower) }
{}

/// The definitions give each word and each pair that was worked out by hand its kind and its place.
pub fn worked_words()
    ensures kinds { map (λ w. kind_of w.0) worked_kinds ≡ map (λ w. w.1) worked_kinds }
    ensures pairs { map (λ p. pair_of p.0 p.1) worked_pairs ≡ map (λ p. p.2) worked_pairs }
{}
