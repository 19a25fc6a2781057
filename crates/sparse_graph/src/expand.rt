// Paths of the whole graph for those of the sparse graph.
ghost use Rattle.std.specs.Prelude.{◌≡◌, ℕ, ◌<◌, ◌∷◌, length, reverse, Some, slice_get, IfOk};
ghost use Rattle.transition_spec.specs.Path.{IsPath, IsSuccessor};
ghost use Rattle.path_model.specs.Graph.{graph_step};
ghost use Rattle.sparse_graph.specs.Plan.{IsKept, lead_of, rank_of, origin_of};
ghost use Rattle.sparse_graph.specs.Expand.{IsExpanded, HasArrived, toward_by, nearer_by};

use crate::build::SparseGraph;
use std::alloc::{AllocError, Global};

/// The path of the whole graph for a path of the sparse graph, both with their first member first: it ends in the same
/// node, and fetches the same before it. It takes time in the order of its length.
pub fn expand_path(
    alloc: Global,
    sparse: &SparseGraph,
    path: &[u32],
) -> Result<Vec<u32>, AllocError>
    requires { IsPath (graph_step sparse.now.small) 0 (reverse path.now) }
    ensures { IfOk result (λ whole. IsExpanded sparse.now (reverse path.now) (reverse whole.items)) }
{
    let mut whole = Vec::new(alloc);
    whole.push(sparse.origin(0))?;
    for place in 1..path.len() {
        let next = toward(sparse, path[place - 1], path[place]);
        walk(sparse, &mut whole, next)?;
    }
    Ok(whole)
}

// Goes on to the kept node that this one leads to.
fn walk(sparse: &SparseGraph, whole: &mut Vec<u32>, next: u32) -> Result<(), AllocError>
    requires { IsPath (graph_step sparse.now.nodes) 0 (next ∷ reverse whole.old.items) }
    ensures { IfOk result (λ done.
        HasArrived sparse.now (lead_of sparse.now.leads next) (reverse whole.old.items) (reverse whole.new.items)) }
{
    // All the nodes on the way lead to the same kept node, so that being kept is being this one.
    let end = sparse.origin(sparse.lead(next));
    let mut at = next;
    while at != end {
        whole.push(at)?;
        at = nearer(sparse, at);
    }
    whole.push(at)?;
    Ok(())
}

// The successor of a kept node that leads to another.
fn toward(sparse: &SparseGraph, from: u32, to: u32) -> u32
    requires { IsSuccessor (graph_step sparse.now.small) from to }
    ensures node { slice_get sparse.now.kept from ≡ Some (origin_of sparse.now.kept from) }
    ensures edge { IsSuccessor (graph_step sparse.now.nodes) (origin_of sparse.now.kept from) result }
    ensures lead { lead_of sparse.now.leads result ≡ to }
{
    let here = sparse.node(sparse.origin(from));
    toward_by(sparse, to, here.first, here.second)
}

// The successor of a dropped node that is nearer to where both lead.
fn nearer(sparse: &SparseGraph, node: u32) -> u32
    requires inside { node < length sparse.now.nodes }
    requires dropped { IsKept sparse.now.kept sparse.now.leads node → ⊥ }
    ensures edge { IsSuccessor (graph_step sparse.now.nodes) node result }
    ensures lead { lead_of sparse.now.leads result ≡ lead_of sparse.now.leads node }
    ensures nearer { rank_of sparse.now.ranks result < rank_of sparse.now.ranks node }
{
    let here = sparse.node(node);
    nearer_by(sparse, node, here.first, here.second)
}

// With one successor there is nothing to look up: it is that one.
fn toward_by(sparse: &SparseGraph, to: u32, first: Option<u32>, second: Option<u32>) -> u32
    ensures { result ≡ toward_by sparse.now.leads to first second }
{
    match (first, second) {
        (Some(first), Some(second)) if sparse.lead(first) != to => second,
        (Some(first), _) => first,
        (None, second) => second.unwrap_or(0),
    }
}

// Only where there are two does it compare ranks: one of a dropped node's successors is nearer.
fn nearer_by(sparse: &SparseGraph, node: u32, first: Option<u32>, second: Option<u32>) -> u32
    ensures { result ≡ nearer_by sparse.now.ranks node first second }
{
    match (first, second) {
        (Some(first), Some(second)) if sparse.rank(first) >= sparse.rank(node) => second,
        (Some(first), _) => first,
        (None, second) => second.unwrap_or(0),
    }
}
