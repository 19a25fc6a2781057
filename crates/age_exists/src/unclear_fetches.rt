// The blocks whose fetches the four systems together don't settle.
ghost use Rattle.std.specs.Prelude.{◌≡◌, ◌↔◌, ◌<◌, ◌≤◌, ℕ, length, IfOk, IfSome};
ghost use Rattle.std.specs.List.{Contains};
ghost use Rattle.std.specs.List.Sorted.{IsStrictlyIncreasing};
ghost use Rattle.focus_spec.specs.Younger.{fetch_at};
ghost use Rattle.age_spec.specs.Ages.{AreMustAges, AreMayAges, AreRows};
ghost use Rattle.age_spec.specs.Settled.{HasUnclear};
ghost use Rattle.age_exists.specs.Columns.{AreHitColumns, AreMissColumns, HaveBounds};
ghost use Rattle.age_exists.specs.Unclear.{is_unclear, numbers_of, unclear_fetch, AreMarks, AreMarked};

use crate::all_blocks::{HitBounds, MissBounds};
use age_must_may::Ages;
use set_view::SetView;
use std::alloc::{AllocError, Global};

/// The local numbers of the blocks with an unclear fetch, rising: one that is neither always-hit by must nor
/// always-miss by may, and for which not both bounds show a path. The bounds are those over these ages. The error is
/// out of memory.
pub fn unclear(
    alloc: Global,
    view: &SetView,
    must: &Ages,
    may: &Ages,
    hit: &HitBounds,
    miss: &MissBounds,
) -> Result<Vec<u16>, AllocError>
    requires must { AreMustAges view.now must.now }
    requires may { AreMayAges view.now hit.now.start may.now }
    requires hit { AreHitColumns view.now hit.now.start must.now hit.now.columns }
    requires miss { AreMissColumns view.now may.now miss.now.columns }
    ensures rising { IfOk result (λ locals. IsStrictlyIncreasing locals.items) }
    ensures members { IfOk result (λ locals. (local : ℕ) →
        Contains locals.items local ↔ HasUnclear view.now hit.now.start local) }
{
    let _blocks = view.blocks();
    let marks = marks_of(alloc, view, must, may, hit, miss)?;
    let locals = marked(alloc, &marks)?;
    Ok(locals)
}

// Whether these four numbers leave a fetch unclear.
fn is_unclear(ways: u32, must: u32, may: u32, hit: u32, miss: u32) -> bool
    ensures { result ≡ is_unclear ways must may hit miss }
{
    must == ways && may < ways && !(hit < ways && miss == ways)
}

// The block that a node fetches, where its fetch is unclear.
fn unclear_at(
    view: &SetView,
    must: &Ages,
    may: &Ages,
    hit: &HitBounds,
    miss: &MissBounds,
    node: u32,
) -> Option<u16>
    requires node { node < length view.now.nodes }
    requires must { AreRows view.now must.now }
    requires may { AreRows view.now may.now }
    requires hit { HaveBounds view.now hit.now.columns }
    requires miss { HaveBounds view.now miss.now.columns }
    ensures value { result ≡ unclear_fetch view.now
        (numbers_of must.now may.now hit.now.columns miss.now.columns) node }
    ensures known { IfSome result (λ local. local < length view.now.blocks) }
{
    let blocks = view.blocks();
    let local = view.fetch(node)?;
    prove!((local as usize) < blocks.len());
    let unclear = is_unclear(
        view.ways(),
        must.age(node, local),
        may.age(node, local),
        hit.bound(node, local),
        miss.bound(node, local),
    );
    if unclear { Some(local) } else { None }
}

// A mark for each local block that has an unclear fetch.
fn marks_of(
    alloc: Global,
    view: &SetView,
    must: &Ages,
    may: &Ages,
    hit: &HitBounds,
    miss: &MissBounds,
) -> Result<Vec<bool>, AllocError>
    requires must { AreRows view.now must.now }
    requires may { AreRows view.now may.now }
    requires hit { HaveBounds view.now hit.now.columns }
    requires miss { HaveBounds view.now miss.now.columns }
    ensures few { IfOk result (λ marks. length marks.items ≤ 1024) }
    ensures marks { IfOk result (λ marks. AreMarks view.now
        (numbers_of must.now may.now hit.now.columns miss.now.columns) (length view.now.nodes) marks.items) }
{
    let blocks = view.blocks();
    prove!(blocks.len() <= 1024);
    let mut marks = vec![in alloc; false; blocks.len()]?;
    for node in 0..view.graph().nodes().len() as u32 {
        if let Some(local) = unclear_at(view, must, may, hit, miss, node) {
            marks[local as usize] = true;
        }
    }
    Ok(marks)
}

// The places of the marks, rising.
fn marked(alloc: Global, marks: &[bool]) -> Result<Vec<u16>, AllocError>
    requires { length marks.now ≤ 1024 }
    ensures { IfOk result (λ locals. AreMarked marks.now (length marks.now) locals.items) }
{
    let mut locals = Vec::new(alloc);
    for place in 0..marks.len() {
        if marks[place] {
            locals.push(place as u16)?;
        }
    }
    Ok(locals)
}
