// Which addresses of a program have a line.
ghost use Rattle.std.specs.Prelude.{◌≡◌, ◌↔◌, ℕ, ◌+◌, ◌^◌, ◌≤◌, Some, IsTrue, IfSome, IfNone, Contains};
ghost use Rattle.elf_spec.specs.Word.{IsNext};
ghost use Rattle.flow_spec.specs.declared.instruction.Instruction.TheVariants.{Word};
ghost use Rattle.flow_spec.specs.Instruction.{is_text, IsText, instruction_at};
ghost use Rattle.report_spec.specs.Inner.{step_of};
ghost use Rattle.node_spec.specs.Plan.{HasLineIn, IsBare, IsBareOf, IsBareRange, IsBegun, IsInnerIn, IsNextLine, IsNodeAt};
ghost use Rattle.report_plan.specs.Kept.{AreFetched, AreInOrder};

use crate::order::nodes_at;
use call_expand::{Expanded, Isa};
use elf_image::Image;
use flow_graph::{Instruction, instruction_at};
use std::marker::Model;

/// An expanded program whose instructions are those of `isa`, with the numbers of its nodes in order of address.
#[derive(Drop)]
pub(crate) struct Layout<'a> {
    pub(crate) image: &'a Image,
    pub(crate) isa: Isa,
    pub(crate) expanded: &'a Expanded,
    pub(crate) order: &'a [u32],
}

impl<'a> Model for Layout<'a> {
    ghost use Rattle.node_spec.specs.Plan.{Layout as Kept, layout};
    ghost use Rattle.report_plan.specs.Kept.{AreInOrder};

    ghost Value = { Kept };

    ghost view = { λ l. layout l.image.now l.isa l.expanded.now.configurations l.expanded.now.nodes };

    ghost invariant = { λ l. AreInOrder l.expanded.now.nodes l.order.now };
}

// How many bytes the addresses of the text stand apart, at the least.
fn step(layout: &Layout) -> u32
    ensures { result ≡ step_of layout.now.isa }
{
    match layout.isa {
        Isa::Rv32i => 4,
        Isa::Rv32ic => 2,
    }
}

// The least address of the text at or above one.
fn text_from(layout: &Layout, from: u32) -> Option<u32>
    ensures { IsNext (is_text layout.now.isa layout.now.image) from result }
{
    match layout.isa {
        Isa::Rv32i => layout.image.word_from(from),
        Isa::Rv32ic => layout.image.parcel_from(from),
    }
}

/// The numbers of the nodes at an address. A node's address is the one that its configuration fetches.
pub(crate) fn nodes_of<'a>(layout: &Layout<'a>, address: u32) -> &'a [u32]
    ensures here { (n : ℕ) → Contains result.now n ↔ IsNodeAt layout.now.nodes address n }
    ensures fetched { AreFetched layout.now.configurations layout.now.nodes }
{
    nodes_at(layout.order, layout.expanded.graph().nodes(), address)
}

// Whether a configuration fetches the first part of the instruction at an address.
fn is_begun(layout: &Layout, address: u32) -> bool
    ensures { IsTrue result ↔ IsBegun layout.now.configurations address }
{
    for node in nodes_of(layout, address) {
        if layout.expanded.config(*node).part == 0 {
            return true;
        }
    }
    false
}

// Whether an instruction of four bytes begins at an address.
fn has_four_bytes(layout: &Layout, address: u32) -> bool
    ensures code { IsTrue result ↔
        ((code : ℕ) × (instruction_at layout.now.isa layout.now.image address ≡ Some (Word code))) }
    ensures end { IsTrue result → address + 4 ≤ 2 ^ 32 }
{
    matches!(
        instruction_at(layout.image, layout.isa, address),
        Some(Instruction::Word(_))
    )
}

// Whether an address of the text lies in the middle of an instruction that is fetched at once: nothing fetches it, and
// two bytes before it an instruction of four bytes is begun.
fn is_inner(layout: &Layout, address: u32) -> bool
    requires { IsText layout.now.isa layout.now.image address }
    ensures inner { IsTrue result ↔ IsInnerIn layout.now address }
    ensures end { IsTrue result → address + 2 ≤ 2 ^ 32 }
{
    match address.checked_sub(2) {
        Some(begins) => {
            nodes_of(layout, address).is_empty()
                && has_four_bytes(layout, begins)
                && is_begun(layout, begins)
        }
        None => false,
    }
}

/// The least address with a line at or above one. None exactly where there is none.
pub(crate) fn line_from(layout: &Layout, from: u32) -> Option<u32>
    ensures { IsNextLine layout.now from result }
{
    let mut next = text_from(layout, from);
    while let Some(address) = next {
        if !is_inner(layout, address) {
            return Some(address);
        }
        next = text_from(layout, address + 1);
    }
    None
}

// The address this many bytes above one. Where that is past the last one, no text is left, as the segments say.
fn above(layout: &Layout, address: u32, bytes: u32) -> Option<u32>
    ensures some { IfSome result (λ next. next ≡ address + bytes) }
    ensures none { IfNone result ((a : ℕ) → address + bytes ≤ a → IsText layout.now.isa layout.now.image a → ⊥) }
{
    let _ = layout.image.segments();
    address.checked_add(bytes)
}

/// The least address with a line after one.
pub(crate) fn line_after(layout: &Layout, address: u32) -> Option<u32>
    ensures { IsNextLine layout.now (address + 1) result }
{
    line_from(layout, above(layout, address, 1)?)
}

// Whether an address has a line, and no node is at it.
fn is_bare(layout: &Layout, address: u32) -> bool
    ensures { IsTrue result ↔ IsBare layout.now address }
{
    text_from(layout, address) == Some(address)
        && nodes_of(layout, address).is_empty()
        && !is_inner(layout, address)
}

// The address after one in a range, where that is bare.
fn bare_after(layout: &Layout, address: u32) -> Option<u32>
    ensures some { IfSome result (λ next. (next ≡ address + step_of layout.now.isa) × IsBare layout.now next) }
    ensures none { IfNone result (IsBare layout.now (address + step_of layout.now.isa) → ⊥) }
{
    let next = above(layout, address, step(layout))?;
    is_bare(layout, next).then_some(next)
}

/// The last address of the range of bare addresses that begins at one. Takes time in the order of the range.
pub(crate) fn range_end(layout: &Layout, first: u32) -> u32
    requires { IsBare layout.now first }
    ensures order { first ≤ result }
    ensures range { IsBareRange layout.now first result }
{
    let mut last = first;
    while let Some(next) = bare_after(layout, last) {
        last = next;
    }
    last
}
