ghost use Rattle.std.specs.Prelude.{◌≡◌, IfSome, option_map};
ghost use Rattle.riscv_spec.specs.Pair.{pair_of};
ghost use Rattle.flow_spec.specs.Instruction.{is_text};
ghost use Rattle.flow_spec.specs.Transfer.{plus, before, evened, linking, first_half, pair_at, pair_by, is_good_target, is_good_next};
ghost use Rattle.flow_graph.specs.Offset.{IsNear};

use crate::instruction::{instruction_at, word_of};
use elf_image::Image;
use flow_spec::{Isa, Link};
use rv_decode::{link_of, pair};

/// Bytes of the first half of a pair.
const WORD: u32 = 4;

/// Addresses are modulo 2^32.
const ADDRESSES: i64 = 1 << 32;

/// Where a pair leads, and the register by which it links, if it does.
#[derive(Clone, Copy, Debug, PartialEq, Eq)]
pub(crate) struct Pair {
    pub(crate) target: u32,
    pub(crate) link: Option<Link>,
}

/// Whether a jump, a branch, a call or a return may lead to an address: it is in the text, and isn't the second half of
/// a pair.
pub fn is_target(image: &Image, isa: Isa, p: u32) -> bool
    ensures { result ≡ is_good_target isa image.now p }
{
    is_text(image, isa, p) && pair_at(image, isa, p).is_none()
}

/// Whether control may go on to `next` from the instruction before it, at `at`: it is in the text, and isn't the second
/// half of a pair whose first half stands elsewhere.
pub(crate) fn is_next(image: &Image, isa: Isa, at: u32, next: u32) -> bool
    ensures { result ≡ is_good_next isa image.now at next }
{
    is_text(image, isa, next) && (pair_at(image, isa, next).is_none() || before(next) == at)
}

/// Whether an address is in the text.
fn is_text(image: &Image, isa: Isa, p: u32) -> bool
    ensures { result ≡ is_text isa image.now p }
{
    match isa {
        Isa::Rv32i => image.word(p).is_some(),
        Isa::Rv32ic => image.parcel(p).is_some(),
    }
}

/// The pair whose second half is at an address.
pub(crate) fn pair_at(image: &Image, isa: Isa, p: u32) -> Option<Pair>
    ensures { option_map (λ (pair : Pair). linking pair.target pair.link) result ≡ pair_at isa image.now p }
{
    let first = first_half(image, isa, p)?;
    let second = word_of(instruction_at(image, isa, p)?)?;
    pair_of(p, first, second)
}

/// The word that may be the first half of a pair whose second half is at an address.
fn first_half(image: &Image, isa: Isa, p: u32) -> Option<u32>
    ensures { result ≡ first_half isa image.now p }
{
    match isa {
        Isa::Rv32i => image.word(before(p)),
        Isa::Rv32ic => image.long(before(p)),
    }
}

/// The pair of these two halves, of which the second is at an address.
fn pair_of(p: u32, first: u32, second: u32) -> Option<Pair>
    ensures { option_map (λ (pair : Pair). linking pair.target pair.link) result ≡ pair_by p first second }
{
    let number = number_of(first, second)?;
    Some(Pair {
        target: pair_target(p, number),
        link: link_of(second),
    })
}

/// Where the pair of these two halves leads, in bytes from its first half.
#[tactic(auto, using(crate::proofs::Near::pair_is_near))]
fn number_of(first: u32, second: u32) -> Option<i64>
    ensures number { result ≡ pair_of first second }
    ensures range { IfSome result IsNear }
{
    pair(first, second)
}

/// The address of the four bytes before.
fn before(at: u32) -> u32
    ensures { result ≡ before at }
{
    at.wrapping_sub(WORD)
}

/// The address that lies this many bytes further on.
pub(crate) fn plus(address: u32, offset: i64) -> u32
    requires { IsNear offset }
    ensures { result ≡ plus address offset }
{
    (i64::from(address) + offset).rem_euclid(ADDRESSES) as u32
}

/// Where a pair leads: the sum with bit 0 cleared, as a JALR clears it.
fn pair_target(at: u32, number: i64) -> u32
    requires { IsNear number }
    ensures { result ≡ evened (plus (before at) number) }
{
    plus(before(at), number) & !1
}
