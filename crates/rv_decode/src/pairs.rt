ghost use Rattle.std.specs.Prelude.{◌≡◌};
ghost use Rattle.riscv_spec.specs.Pair.{is_pair, pair_of};

use crate::field::{funct3, opcode, rd, rs1};
use crate::immediate::{auipc_immediate, jalr_immediate};
use crate::opcodes::{AUIPC, JALR};

/// The word is a JALR through the register that the AUIPC before it set.
fn is_pair(previous: u32, word: u32) -> bool
    ensures { result ≡ is_pair previous word }
{
    let is_set = opcode(previous) == AUIPC && rd(previous) != 0;
    is_set && opcode(word) == JALR && funct3(word) == 0 && rs1(word) == rd(previous)
}

/// Where an AUIPC and the JALR in the next word lead together, in bytes from the AUIPC's address; None where the words
/// are no such pair. Bit 0 of the sum stands as it is, since the JALR clears it of the address alone.
#[tactic(auto, unfolding(riscv_spec::specs::Pair::pair_of))]
pub fn pair(previous: u32, word: u32) -> Option<i64>
    ensures { result ≡ pair_of previous word }
{
    if !is_pair(previous, word) {
        return None;
    }
    Some(i64::from(auipc_immediate(previous)) + i64::from(jalr_immediate(word)))
}
