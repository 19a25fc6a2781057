// How it is known what the paths can do that end in the open fetches of a block.
ghost use Rattle.std.specs.Prelude.{◌≡◌, ◌<◌, length, reverse, IfOk, IfSome, IfNone};
ghost use Rattle.age_spec.specs.Settled.{HasUnclear};
ghost use Rattle.node_verdicts.specs.Judged.{IsEnds, IsSpared};
ghost use Rattle.node_verdicts.specs.Open.{AreOpenOf};
ghost use Rattle.node_verdicts.specs.Witnesses.{aged_of, IsShownFirst, AreShownAt, AreWitnesses, IsKnownAt, view_of, start_of};

use crate::aged::SetAges;
use crate::bounds::{are_shown, shown_path};
use crate::judged::{Ends, Paths};
use age_exists::{BlockBounds, BlockSolver};
use std::alloc::{AllocError, Global};

/// The exists-hit bounds of a block, and the solver with the first paths to the nodes.
#[derive(Drop)]
pub(crate) struct FirstMisses<'s, 'v, 'g> {
    hit: BlockBounds<'v, 'g>,
    solver: &'s BlockSolver<'v, 'g>,
}

/// Exists-hit and exists-miss bounds of a block.
#[derive(Drop)]
pub(crate) struct BothBounds<'v, 'g> {
    hit: BlockBounds<'v, 'g>,
    miss: BlockBounds<'v, 'g>,
}

/// Where the paths to the open fetches of a block come from that the ages settle.
#[derive(Drop)]
pub(crate) enum Witnesses<'s, 'v, 'g> {
    /// The exists-hit bounds have a path to a hit for each of the fetches, and the first path to each of them can miss.
    Firsts(FirstMisses<'s, 'v, 'g>),
    /// The bounds have a path to a hit and one to a miss for each of the fetches.
    Bounds(BothBounds<'v, 'g>),
}

/// Where the paths come from to the open fetches of a block, which are given; or none, where the block has an unclear
/// fetch.
///
/// The exists-miss bounds are found over the whole graph, so they are asked last: a fetch that isn't shown to hit is
/// unclear already, and mostly the first paths miss.
pub(crate) fn find_witnesses<'s, 'v, 'g>(
    alloc: Global,
    ages: &SetAges<'v, 'g>,
    solver: &'s BlockSolver<'v, 'g>,
    block: u16,
    nodes: &[u32],
) -> Result<Option<Witnesses<'s, 'v, 'g>>, AllocError>
    requires block { block < length ages.now.view.blocks }
    requires solver { aged_of solver.now ≡ ages.now }
    requires nodes { AreOpenOf ages.now block nodes.now }
    ensures some { IfOk result (λ found. IfSome found (AreWitnesses ages.now block)) }
    ensures none { IfOk result (λ found. IfNone found (HasUnclear ages.now.view ages.now.start block)) }
{
    let ways = ages.view.ways();
    let hit = solver.hit_bounds(alloc, block)?;
    if !are_shown(&hit, true, ways, nodes) {
        return Ok(None);
    }
    if solver.miss_first(alloc, block, nodes)? {
        return Ok(Some(Witnesses::Firsts(FirstMisses { hit, solver })));
    }
    let miss = solver.miss_bounds(alloc, block)?;
    if !are_shown(&miss, false, ways, nodes) {
        return Ok(None);
    }
    Ok(Some(Witnesses::Bounds(BothBounds { hit, miss })))
}

/// What the paths can do that end in a node, whose fetch of the block is open, with paths of both kinds if they are
/// wanted.
pub(crate) fn ends_at(
    alloc: Global,
    witnesses: &Witnesses,
    node: u32,
    wanted: bool,
) -> Result<Ends, AllocError>
    requires { IsKnownAt witnesses.now node }
    ensures ends { IfOk result
        (IsEnds (view_of witnesses.now).nodes (view_of witnesses.now).geometry (start_of witnesses.now) node) }
    ensures spared { IfOk result (IsSpared wanted) }
{
    match witnesses {
        Witnesses::Firsts(firsts) => first_ends(alloc, firsts, node, wanted),
        Witnesses::Bounds(bounds) => shown_ends(alloc, bounds, node, wanted),
    }
}

// The same where the first path misses.
fn first_ends(
    alloc: Global,
    firsts: &FirstMisses,
    node: u32,
    wanted: bool,
) -> Result<Ends, AllocError>
    requires { IsShownFirst firsts.now node }
    ensures ends { IfOk result
        (IsEnds firsts.now.hit.view.nodes firsts.now.hit.view.geometry firsts.now.hit.start node) }
    ensures spared { IfOk result (IsSpared wanted) }
{
    if !wanted {
        return Ok(Ends::Both(None));
    }
    Ok(Ends::Both(Some(Paths {
        hit: shown_path(alloc, &firsts.hit, node)?,
        miss: firsts.solver.first_path(alloc, node)?,
    })))
}

// The same where both bounds show a path.
fn shown_ends(
    alloc: Global,
    bounds: &BothBounds,
    node: u32,
    wanted: bool,
) -> Result<Ends, AllocError>
    requires { AreShownAt bounds.now node }
    ensures ends { IfOk result
        (IsEnds bounds.now.hit.view.nodes bounds.now.hit.view.geometry bounds.now.hit.start node) }
    ensures spared { IfOk result (IsSpared wanted) }
{
    if !wanted {
        return Ok(Ends::Both(None));
    }
    Ok(Ends::Both(Some(Paths {
        hit: shown_path(alloc, &bounds.hit, node)?,
        miss: shown_path(alloc, &bounds.miss, node)?,
    })))
}
