// Which cache sets a sparse graph serves.
ghost use Rattle.std.specs.Prelude.{◌≡◌, ◌↔◌, ◌<◌, ◌≤◌, IsTrue, IfOk, IfSome};
ghost use Rattle.cache_spec.specs.Geometry.{block_of, set_of};
ghost use Rattle.path_model.specs.Graph.{address_of};
ghost use Rattle.sparse_graph.specs.Plan.{IsKept};
ghost use Rattle.sparse_graph.specs.Sparse.{IsSparse, KeepsSets};

use crate::build::{SparseGraph, sparse};
use crate::drafting::draft_of;
use cache_geom::Geometry;
use path_model::{Graph, Node};
use std::alloc::{AllocError, Global};

/// A sparse graph that keeps each node that fetches a block of one of these sets: `low` and those above it, below `high`.
///
/// `None` where the draft of its plan isn't one, so that the graph itself must serve. It takes room in the order of the
/// nodes.
pub fn sparse_for<'g>(
    alloc: Global,
    whole: &'g Graph,
    geometry: &Geometry,
    low: u32,
    high: u32,
) -> Result<Option<SparseGraph<'g>>, AllocError>
    ensures nodes { IfOk result (λ found. IfSome found (λ made. made.nodes ≡ whole.now)) }
    ensures sparse { IfOk result (λ found. IfSome found (λ made. IsSparse made)) }
    ensures keeps { IfOk result (λ found. IfSome found (λ made. KeepsSets made geometry.now low high)) }
{
    let draft = draft_of(alloc, whole, geometry, low, high)?;
    match sparse(alloc, whole, draft.kept, draft.leads, draft.ranks)? {
        Some(made) if keeps_sets(&made, geometry, low, high) => Ok(Some(made)),
        _ => Ok(None),
    }
}

/// Tells whether each node that fetches a block of one of these sets is kept: `low` and those above it, below `high`. It
/// goes over the nodes once.
pub fn keeps_sets(sparse: &SparseGraph, geometry: &Geometry, low: u32, high: u32) -> bool
    ensures { IsTrue result ↔ KeepsSets sparse.now geometry.now low high }
{
    for number in 0..sparse.whole().nodes().len() as u32 {
        let set = set_at(sparse.whole().nodes(), geometry, number);
        if low <= set && set < high && !sparse.is_kept(number) {
            return false;
        }
    }
    true
}

fn set_at(nodes: &[Node], geometry: &Geometry, number: u32) -> u32
    ensures { result ≡ set_of geometry.now (block_of geometry.now (address_of nodes.now number)) }
{
    geometry.set_of(geometry.block(address_of(nodes, number)))
}

fn address_of(nodes: &[Node], number: u32) -> u32
    ensures { result ≡ address_of nodes.now number }
{
    match nodes.get(number as usize) {
        Some(node) => node.at,
        None => 0,
    }
}
