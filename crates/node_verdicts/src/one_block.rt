// What the nodes do that fetch one block, by a search over all paths.
ghost use Rattle.std.specs.Prelude.{◌≡◌, ◌↔◌, ◌<◌, ◌≤◌, not, length, reverse, IsTrue, Some, IfOk, IfSome, IfNone, slice_get};
ghost use Rattle.std.specs.List.{Contains};
ghost use Rattle.cache_spec.specs.Blocks.{HaveFew};
ghost use Rattle.cache_spec.specs.Geometry.{set_of};
ghost use Rattle.focus_spec.specs.Younger.{fetch_at};
ghost use Rattle.focus_spec.specs.Fate.{AllEnd};
ghost use Rattle.focus_plain.specs.Judged.{IsPathTo};
ghost use Rattle.path_model.specs.Graph.{addresses_of};
ghost use Rattle.node_verdicts.specs.Judged.{AreJudged, IsEnds, IsFetcherOf, IsSpared};

use crate::judged::{Ends, Judged, Paths};
use crate::lift::lift_all;
use crate::one_set::{add, address_of, wants};
use cache_geom::Geometry;
use focus_plain::{Classification, Judgement, judge};
use node_spec::Kept;
use path_model::{Graph, Start};
use set_view::{SetView, ViewFault, view};
use sparse_graph::sparse_for;
use std::alloc::{AllocError, Global};

/// What the paths can do that end in each node which fetches the block, found on a graph that is made smaller for its set.
pub(crate) fn search_block(
    alloc: Global,
    graph: &Graph,
    geometry: &Geometry,
    start: Start,
    kept: Kept,
    block: u32,
) -> Result<Vec<Judged>, AllocError>
    requires { HaveFew (addresses_of graph.now) geometry.now (set_of geometry.now block) }
    ensures { IfOk result (λ judged. AreJudged graph.now geometry.now start kept
        (IsFetcherOf graph.now geometry.now (λ other. other ≡ block)) judged.items) }
{
    let set = geometry.set_of(block);
    // The sets of a cache have numbers of 32 bits, and so has the one after this one.
    let sets = geometry.sets();
    prove!(set < sets);
    match sparse_for(alloc, graph, geometry, set, set + 1)? {
        Some(sparse) => {
            let judged = search_whole(alloc, sparse.graph(), geometry, start, kept, block)?;
            lift_all(alloc, &sparse, judged)
        }
        None => search_whole(alloc, graph, geometry, start, kept, block),
    }
}

// The same, found on the graph itself.
fn search_whole(
    alloc: Global,
    graph: &Graph,
    geometry: &Geometry,
    start: Start,
    kept: Kept,
    block: u32,
) -> Result<Vec<Judged>, AllocError>
    requires { HaveFew (addresses_of graph.now) geometry.now (set_of geometry.now block) }
    ensures { IfOk result (λ judged. AreJudged graph.now geometry.now start kept
        (IsFetcherOf graph.now geometry.now (λ other. other ≡ block)) judged.items) }
{
    let view = match view(alloc, graph, geometry, geometry.set_of(block)) {
        Ok(view) => view,
        Err(ViewFault::TooManyBlocks { .. }) => unreachable!(),
        Err(ViewFault::OutOfMemory) => return Err(AllocError),
    };
    match local_of(view.blocks(), block) {
        Some(local) => search_local(alloc, &view, local, start, kept),
        None => Ok(Vec::new(alloc)),
    }
}

// The place of a block among these.
fn local_of(blocks: &[u32], block: u32) -> Option<u16>
    requires { length blocks.now ≤ 1024 }
    ensures some { IfSome result (λ local. slice_get blocks.now local ≡ Some block) }
    ensures none { IfNone result (Contains blocks.now block → ⊥) }
{
    for local in 0..blocks.len() as u16 {
        if blocks[local as usize] == block {
            return Some(local);
        }
    }
    None
}

// The same of each node that fetches a block of a view.
fn search_local(
    alloc: Global,
    view: &SetView,
    block: u16,
    start: Start,
    kept: Kept,
) -> Result<Vec<Judged>, AllocError>
    requires { block < length view.now.blocks }
    ensures { IfOk result (λ judged. AreJudged view.now.nodes view.now.geometry start kept
        (λ node. fetch_at view.now.fetches node ≡ Some block) judged.items) }
{
    let found = judge(alloc, view, block, start)?;
    let mut addresses = Vec::new(alloc);
    let mut judged = Vec::new(alloc);
    for node in 0..view.graph().nodes().len() as u32 {
        if fetches(view, node, block) {
            let at = address_of(view, node);
            let ends = searched_ends(alloc, &found, node, wants(kept, &addresses, at))?;
            add(&mut addresses, &mut judged, at, Judged { node, ends })?;
        }
    }
    Ok(judged)
}

// Whether the node fetches the block.
fn fetches(view: &SetView, node: u32, block: u16) -> bool
    requires { node < length view.now.nodes }
    ensures { IsTrue result ↔ (fetch_at view.now.fetches node ≡ Some block) }
{
    match view.fetch(node) {
        Some(local) => local == block,
        None => false,
    }
}

// What a search has found of a node that fetches the block, with paths of both kinds if they are wanted.
fn searched_ends(
    alloc: Global,
    found: &Judgement,
    node: u32,
    wanted: bool,
) -> Result<Ends, AllocError>
    requires { fetch_at found.now.view.fetches node ≡ Some found.now.block }
    ensures ends { IfOk result (IsEnds found.now.view.nodes found.now.view.geometry found.now.start node) }
    ensures spared { IfOk result (IsSpared wanted) }
{
    match found.classification(node) {
        Classification::Hits => Ok(Ends::Hits),
        Classification::Misses => Ok(Ends::Misses),
        Classification::Both if wanted => Ok(Ends::Both(Some(Paths {
            hit: path_to(alloc, found, node, true)?,
            miss: path_to(alloc, found, node, false)?,
        }))),
        Classification::Both => Ok(Ends::Both(None)),
    }
}

// A path to the node that can hit there, or miss, where some path can.
fn path_to(alloc: Global, found: &Judgement, node: u32, hits: bool) -> Result<Vec<u32>, AllocError>
    requires fetches { fetch_at found.now.view.fetches node ≡ Some found.now.block }
    requires some { AllEnd found.now.view.nodes found.now.view.geometry found.now.start node (not hits) → ⊥ }
    ensures { IfOk result (λ path.
        IsPathTo found.now.view.nodes found.now.view.geometry found.now.start node hits (reverse path.items)) }
{
    match found.path(alloc, node, hits)? {
        Some(path) => Ok(path),
        None => unreachable!(),
    }
}
