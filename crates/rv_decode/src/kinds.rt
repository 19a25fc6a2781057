ghost use Rattle.std.specs.Prelude.{◌≡◌, [], ◌∷◌};
ghost use Rattle.riscv_spec.specs.Field.{opcode, rd};
ghost use Rattle.riscv_spec.specs.Table.{kind_of, link_named, has_funct3};

use crate::field::{funct3, funct7, imm12, opcode, rd, rs1};
use crate::immediate::{branch_offset, jal_offset};
use crate::opcodes::{AUIPC, BRANCH, JAL, JALR, LOAD, LUI, MISC_MEM, OP, OP_IMM, STORE, SYSTEM};
use riscv_spec::{Kind, Link};

// Values of funct7: OP and the shifts of OP-IMM, the M extension, and SUB, SRA and SRAI.
const BASE: u32 = 0b000_0000;

const MULTIPLY: u32 = 0b000_0001;

const ALTERNATE: u32 = 0b010_0000;

// Whole words of SYSTEM.
const ECALL: u32 = 0x0000_0073;

const EBREAK: u32 = 0x0010_0073;

const MRET: u32 = 0x3020_0073;

const WFI: u32 = 0x1050_0073;

/// What a word by itself does to the flow of control. A JALR is read without the AUIPC that may stand before it, for
/// which see `pair`. The encodings are those of RV32I with the M extension, FENCE.I, the CSR instructions, MRET and WFI.
#[tactic(auto, using(crate::proofs::Rows::lui_row, crate::proofs::Rows::auipc_row, crate::proofs::Rows::no_row))]
pub fn decode(word: u32) -> Kind
    ensures { result ≡ kind_of word }
{
    match opcode(word) {
        LUI | AUIPC => Kind::Plain,
        JAL => jal_kind(word),
        JALR => jalr_kind(word),
        BRANCH => branch_kind(word),
        LOAD => load_kind(word),
        STORE => store_kind(word),
        OP_IMM => op_imm_kind(word),
        OP => op_kind(word),
        MISC_MEM => misc_mem_kind(word),
        SYSTEM => system_kind(word),
        _ => Kind::Illegal,
    }
}

/// The link register that bits 11 to 7 of a word name: `x1` or `x5`; None where they name another register.
pub fn link_of(word: u32) -> Option<Link>
    ensures { result ≡ link_named (rd word) }
{
    link_named(rd(word))
}

fn link_named(register: u32) -> Option<Link>
    ensures { result ≡ link_named register }
{
    match register {
        1 => Some(Link::X1),
        5 => Some(Link::X5),
        _ => None,
    }
}

#[tactic(auto, using(crate::proofs::Rows::jal_row))]
fn jal_kind(word: u32) -> Kind
    requires { opcode word ≡ JAL }
    ensures { result ≡ kind_of word }
{
    let offset = jal_offset(word);
    match link_of(word) {
        Some(link) => Kind::Call { offset, link },
        None => Kind::Jump { offset },
    }
}

#[tactic(auto, using(crate::proofs::Rows::jalr_row))]
fn jalr_kind(word: u32) -> Kind
    requires { opcode word ≡ JALR }
    ensures { result ≡ kind_of word }
{
    if funct3(word) != 0 {
        return Kind::Illegal;
    }
    if rd(word) != 0 || imm12(word) != 0 {
        return Kind::Computed;
    }
    match link_named(rs1(word)) {
        Some(link) => Kind::Return { link },
        None => Kind::Computed,
    }
}

#[tactic(auto, using(crate::proofs::Rows::branch_row))]
fn branch_kind(word: u32) -> Kind
    requires { opcode word ≡ BRANCH }
    ensures { result ≡ kind_of word }
{
    if !is_comparison(word) {
        return Kind::Illegal;
    }
    Kind::Branch {
        offset: branch_offset(word),
    }
}

fn is_comparison(word: u32) -> bool
    ensures { result ≡ has_funct3 (0 ∷ 1 ∷ 4 ∷ 5 ∷ 6 ∷ 7 ∷ []) word }
{
    !matches!(funct3(word), 2 | 3)
}

#[tactic(auto, using(crate::proofs::Rows::load_row))]
fn load_kind(word: u32) -> Kind
    requires { opcode word ≡ LOAD }
    ensures { result ≡ kind_of word }
{
    match funct3(word) {
        0 | 1 | 2 | 4 | 5 => Kind::Plain,
        _ => Kind::Illegal,
    }
}

#[tactic(auto, using(crate::proofs::Rows::store_row))]
fn store_kind(word: u32) -> Kind
    requires { opcode word ≡ STORE }
    ensures { result ≡ kind_of word }
{
    match funct3(word) {
        0..=2 => Kind::Plain,
        _ => Kind::Illegal,
    }
}

#[tactic(auto, using(crate::proofs::Rows::op_imm_row))]
fn op_imm_kind(word: u32) -> Kind
    requires { opcode word ≡ OP_IMM }
    ensures { result ≡ kind_of word }
{
    match (funct3(word), funct7(word)) {
        (1, BASE) | (5, BASE | ALTERNATE) => Kind::Plain,
        (1 | 5, _) => Kind::Illegal,
        _ => Kind::Plain,
    }
}

#[tactic(auto, using(crate::proofs::Rows::op_row))]
fn op_kind(word: u32) -> Kind
    requires { opcode word ≡ OP }
    ensures { result ≡ kind_of word }
{
    match (funct7(word), funct3(word)) {
        (BASE | MULTIPLY, _) | (ALTERNATE, 0 | 5) => Kind::Plain,
        _ => Kind::Illegal,
    }
}

#[tactic(auto, using(crate::proofs::Rows::misc_mem_row))]
fn misc_mem_kind(word: u32) -> Kind
    requires { opcode word ≡ MISC_MEM }
    ensures { result ≡ kind_of word }
{
    match funct3(word) {
        0 | 1 => Kind::Plain,
        _ => Kind::Illegal,
    }
}

#[tactic(auto, using(crate::proofs::Rows::system_row))]
fn system_kind(word: u32) -> Kind
    requires { opcode word ≡ SYSTEM }
    ensures { result ≡ kind_of word }
{
    match word {
        ECALL => Kind::Plain,
        EBREAK | MRET | WFI => Kind::Stop,
        _ if is_csr(word) => Kind::Plain,
        _ => Kind::Illegal,
    }
}

fn is_csr(word: u32) -> bool
    ensures { result ≡ has_funct3 (1 ∷ 2 ∷ 3 ∷ 5 ∷ 6 ∷ 7 ∷ []) word }
{
    !matches!(funct3(word), 0 | 4)
}
