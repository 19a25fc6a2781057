// What the nodes do that fetch one set.
ghost use Rattle.std.specs.Prelude.{◌≡◌, ◌+◌, ◌++◌, ◌∷◌, [], ◌<◌, ℕ, false, length, map, IfOk, IfErr, IfSome, IfNone, OnOk};
ghost use Rattle.std.specs.List.{Contains};
ghost use Rattle.cache_spec.specs.Blocks.{HaveFew};
ghost use Rattle.focus_spec.specs.Younger.{named};
ghost use Rattle.node_spec.specs.declared.verdict.Kept.TheVariants.{EachAddress};
ghost use Rattle.path_model.specs.Graph.{address_of, addresses_of};
ghost use Rattle.set_view.specs.View.{IsFault, IsView};
ghost use Rattle.age_spec.specs.Settled.{HasUnclear};
ghost use Rattle.node_verdicts.specs.Judged.{AreJudged, IsFetcherOf, addresses_with};
ghost use Rattle.node_verdicts.specs.Aged.{IsOpen, IsSettled};
ghost use Rattle.node_verdicts.specs.Open.{AreOpen, AreOpenOf, AreUnclear, IsClearFetch, IsClearOpen, judged_in, unclear_with};
ghost use Rattle.node_verdicts.specs.Witnesses.{AreWitnesses, aged_of};
ghost use Rattle.node_verdicts.specs.Found.{AreJobsWithin, AreJobsOf, IsClearWithin};

use crate::aged::SetAges;
use crate::judged::{Ends, Found, Judged};
use crate::open_fetches::OpenFetches;
use crate::witnesses::{Witnesses, ends_at, find_witnesses};
use age_exists::BlockSolver;
use cache_geom::Geometry;
use node_spec::Kept;
use path_model::{Graph, Start};
use set_view::{SetView, ViewFault, view};
use std::alloc::{AllocError, Global};

/// What is judged of the open fetches of some blocks of a set, and which of these blocks have an unclear fetch.
#[derive(Drop)]
struct OpenFound {
    judged: Vec<Judged>,
    unclear: Vec<u16>,
}

/// What the paths can do that end in each node which fetches a block of the set that the ages settle, and the blocks that
/// they leave unclear. The error has the number of the set's fetched blocks where they are too many.
pub(crate) fn judge_set(
    alloc: Global,
    graph: &Graph,
    geometry: &Geometry,
    start: Start,
    kept: Kept,
    set: u32,
) -> Result<Found, ViewFault>
    requires { set < geometry.now.sets }
    ensures judged { IfOk result (λ found. AreJudged graph.now geometry.now start kept
        (IsFetcherOf graph.now geometry.now (IsClearWithin graph.now geometry.now start set (set + 1)))
        found.judged.items) }
    ensures jobs { IfOk result (λ found. AreJobsWithin graph.now geometry.now start set (set + 1) found.jobs.items) }
    ensures few { IfOk result (λ found. HaveFew (addresses_of graph.now) geometry.now set) }
    ensures fault { IfErr result (λ fault. IsFault graph.now geometry.now set fault) }
{
    let view = view(alloc, graph, geometry, set)?;
    let found = judge_view(alloc, &view, start, kept)?;
    Ok(found)
}

// The same of each node that fetches a block of the view.
fn judge_view(alloc: Global, view: &SetView, start: Start, kept: Kept) -> Result<Found, AllocError>
    requires { IsView view.now }
    ensures judged { IfOk result (λ found. AreJudged view.now.nodes view.now.geometry start kept
        (IsClearFetch view.now start) found.judged.items) }
    ensures jobs { IfOk result (λ found. AreJobsOf view.now start (length view.now.blocks) found.jobs.items) }
{
    let ages = SetAges::of(alloc, view, start)?;
    let fetches = OpenFetches::of(alloc, &ages)?;
    judge_aged(alloc, &ages, &fetches, kept)
}

// What the ages settle: must and may ages by themselves, and the bounds of each block whose fetches these leave open.
fn judge_aged(
    alloc: Global,
    ages: &SetAges,
    fetches: &OpenFetches,
    kept: Kept,
) -> Result<Found, AllocError>
    requires { AreOpen ages.now fetches.now }
    ensures judged { IfOk result (λ found. AreJudged ages.now.view.nodes ages.now.view.geometry ages.now.start kept
        (IsClearFetch ages.now.view ages.now.start) found.judged.items) }
    ensures jobs { IfOk result (λ found.
        AreJobsOf ages.now.view ages.now.start (length ages.now.view.blocks) found.jobs.items) }
{
    let blocks = ages.view.blocks();
    let open = judge_opened(alloc, ages, fetches, kept)?;
    let mut judged = judge_settled(alloc, ages, &open.unclear)?;
    let jobs = numbers_of(alloc, blocks, &open.unclear)?;
    let mut opened = open.judged;
    judged.append(&mut opened)?;
    Ok(Found { judged, jobs })
}

// What is judged of the open fetches of all blocks. Where there are none, no bounds are asked for.
fn judge_opened(
    alloc: Global,
    ages: &SetAges,
    fetches: &OpenFetches,
    kept: Kept,
) -> Result<OpenFound, AllocError>
    requires { AreOpen ages.now fetches.now }
    ensures judged { IfOk result (λ found. AreJudged ages.now.view.nodes ages.now.view.geometry ages.now.start kept
        (IsClearOpen ages.now (length ages.now.view.blocks)) found.judged.items) }
    ensures unclear { IfOk result (λ found.
        AreUnclear ages.now (length ages.now.view.blocks) found.unclear.items) }
{
    let view = ages.view;
    if fetches.are_none() {
        return Ok(OpenFound::none(alloc));
    }
    let solver = BlockSolver::new(alloc, view, ages.start, &ages.must, &ages.may)?;
    judge_blocks(alloc, ages, &solver, fetches, kept)
}

// The same of each block with a fetch that must and may ages leave open.
fn judge_blocks(
    alloc: Global,
    ages: &SetAges,
    solver: &BlockSolver,
    fetches: &OpenFetches,
    kept: Kept,
) -> Result<OpenFound, AllocError>
    requires solver { aged_of solver.now ≡ ages.now }
    requires fetches { AreOpen ages.now fetches.now }
    ensures judged { IfOk result (λ found. AreJudged ages.now.view.nodes ages.now.view.geometry ages.now.start kept
        (IsClearOpen ages.now (length ages.now.view.blocks)) found.judged.items) }
    ensures unclear { IfOk result (λ found.
        AreUnclear ages.now (length ages.now.view.blocks) found.unclear.items) }
{
    let blocks = ages.view.blocks();
    let mut found = OpenFound::none(alloc);
    for block in 0..blocks.len() as u16 {
        let nodes = fetches.of_block(block);
        if !nodes.is_empty() {
            found.add(block, judge_block(alloc, ages, solver, block, nodes, kept)?)?;
        }
    }
    Ok(found)
}

impl OpenFound {
    // Nothing yet.
    fn none(alloc: Global) -> Self
        ensures judged { result.judged.items ≡ [] }
        ensures unclear { result.unclear.items ≡ [] }
    {
        OpenFound {
            judged: Vec::new(alloc),
            unclear: Vec::new(alloc),
        }
    }

    // Adds what is judged of one more block, or that it has an unclear fetch.
    fn add(&mut self, block: u16, judged: Option<Vec<Judged>>) -> Result<(), AllocError>
        ensures judged { OnOk result (self.new.judged.items ≡ self.old.judged.items ++ judged_in judged) }
        ensures unclear { OnOk result (self.new.unclear.items ≡ unclear_with judged block self.old.unclear.items) }
    {
        match judged {
            Some(mut more) => self.judged.append(&mut more)?,
            None => self.unclear.push(block)?,
        }
        Ok(())
    }
}

// What must and may ages settle of the blocks that aren't unclear.
fn judge_settled(alloc: Global, ages: &SetAges, unclear: &[u16]) -> Result<Vec<Judged>, AllocError>
    ensures { IfOk result (λ judged. (kept : Kept) → AreJudged ages.now.view.nodes ages.now.view.geometry ages.now.start kept
        (IsSettled ages.now unclear.now) judged.items) }
{
    let mut judged = Vec::new(alloc);
    for node in 0..ages.view.graph().nodes().len() as u32 {
        if let Some(ends) = ages.settled_at(node, unclear) {
            judged.push(Judged { node, ends })?;
        }
    }
    Ok(judged)
}

// The numbers of some of these blocks, by their places.
fn numbers_of(alloc: Global, blocks: &[u32], places: &[u16]) -> Result<Vec<u32>, AllocError>
    requires { (place : ℕ) → Contains places.now place → place < length blocks.now }
    ensures { IfOk result (λ numbers. numbers.items ≡ map (named blocks.now) places.now) }
{
    let mut numbers = Vec::with_capacity(alloc, places.len())?;
    for &place in places {
        numbers.push(blocks[place as usize])?;
    }
    Ok(numbers)
}

// What is judged of the open fetches of a block, in these nodes; none where one of them is unclear.
fn judge_block(
    alloc: Global,
    ages: &SetAges,
    solver: &BlockSolver,
    block: u16,
    nodes: &[u32],
    kept: Kept,
) -> Result<Option<Vec<Judged>>, AllocError>
    requires block { block < length ages.now.view.blocks }
    requires solver { aged_of solver.now ≡ ages.now }
    requires nodes { AreOpenOf ages.now block nodes.now }
    ensures judged { IfOk result (λ found. IfSome found (λ judged.
        AreJudged ages.now.view.nodes ages.now.view.geometry ages.now.start kept (IsOpen ages.now block) judged.items)) }
    ensures clear { IfOk result (λ found. IfSome found (λ judged. HasUnclear ages.now.view ages.now.start block → ⊥)) }
    ensures unclear { IfOk result (λ found. IfNone found (HasUnclear ages.now.view ages.now.start block)) }
{
    let Some(witnesses) = find_witnesses(alloc, ages, solver, block, nodes)? else {
        return Ok(None);
    };
    let judged = judge_open(alloc, ages, block, nodes, &witnesses, kept)?;
    Ok(Some(judged))
}

// What the paths can do that end in each node whose fetch of the block is open: these nodes.
fn judge_open(
    alloc: Global,
    ages: &SetAges,
    block: u16,
    nodes: &[u32],
    witnesses: &Witnesses,
    kept: Kept,
) -> Result<Vec<Judged>, AllocError>
    requires nodes { AreOpenOf ages.now block nodes.now }
    requires witnesses { AreWitnesses ages.now block witnesses.now }
    ensures { IfOk result (λ judged. AreJudged ages.now.view.nodes ages.now.view.geometry ages.now.start kept
        (IsOpen ages.now block) judged.items) }
{
    let mut addresses = Vec::new(alloc);
    let mut judged = Vec::new(alloc);
    for &node in nodes {
        let at = address_of(ages.view, node);
        let ends = ends_at(alloc, witnesses, node, wants(kept, &addresses, at))?;
        add(&mut addresses, &mut judged, at, Judged { node, ends })?;
    }
    Ok(judged)
}

/// The address of a node.
pub(crate) fn address_of(view: &SetView, node: u32) -> u32
    requires { node < length view.now.nodes }
    ensures { result ≡ address_of view.now.nodes node }
{
    view.graph().nodes()[node as usize].at
}

/// Adds one more node, and its address where its paths are kept.
pub(crate) fn add(
    addresses: &mut Vec<u32>,
    judged: &mut Vec<Judged>,
    at: u32,
    one: Judged,
) -> Result<(), AllocError>
    ensures judged { OnOk result (judged.new.items ≡ judged.old.items ++ one ∷ []) }
    ensures addresses { OnOk result (addresses.new.items ≡ addresses_with one.ends at addresses.old.items) }
{
    if let Ends::Both(Some(_)) = &one.ends {
        addresses.push(at)?;
    }
    judged.push(one)?;
    Ok(())
}

/// Whether paths are kept at one more node, whose address this is; they are kept at nodes of these addresses.
pub(crate) fn wants(kept: Kept, addresses: &[u32], at: u32) -> bool
    ensures { result ≡ false → (kept ≡ EachAddress) × Contains addresses.now at }
{
    match kept {
        Kept::EachNode => true,
        Kept::EachAddress => !addresses.contains(&at),
    }
}
