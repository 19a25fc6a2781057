// What the bounds of a block show of nodes that fetch it.
ghost use Rattle.std.specs.Prelude.{◌≡◌, ◌↔◌, ◌<◌, false, true, length, reverse, Some, IfOk, IsTrue};
ghost use Rattle.focus_spec.specs.Younger.{fetch_at};
ghost use Rattle.age_spec.specs.Sound.{IsWitness};
ghost use Rattle.node_verdicts.specs.Witnesses.{HasWitness, IsBoundShown, AreFetches, AreAllShown, IsSomeNotShown};

use age_exists::BlockBounds;
use std::alloc::{AllocError, Global};

/// Whether the bounds show at each of the nodes that it can hit, or that it can miss where `hits` is false.
pub(crate) fn are_shown(bounds: &BlockBounds, hits: bool, ways: u32, nodes: &[u32]) -> bool
    requires hits { bounds.now.hits ≡ hits }
    requires ways { bounds.now.view.geometry.ways ≡ ways }
    requires fetches { AreFetches bounds.now nodes.now }
    ensures all { result ≡ true → AreAllShown bounds.now nodes.now }
    ensures some { result ≡ false → IsSomeNotShown bounds.now nodes.now }
{
    for &node in nodes {
        if !is_shown(bounds, hits, ways, node) {
            return false;
        }
    }
    true
}

// The same at one node.
fn is_shown(bounds: &BlockBounds, hits: bool, ways: u32, node: u32) -> bool
    requires hits { bounds.now.hits ≡ hits }
    requires ways { bounds.now.view.geometry.ways ≡ ways }
    requires inside { node < length bounds.now.view.nodes }
    requires fetches { fetch_at bounds.now.view.fetches node ≡ Some bounds.now.block }
    ensures shown { IsTrue result ↔ IsBoundShown bounds.now node }
    ensures some { result ≡ true → HasWitness bounds.now.view bounds.now.start node bounds.now.hits }
{
    let bound = bounds.bound(node);
    if hits { bound < ways } else { bound == ways }
}

/// The path that is shown at a node.
pub(crate) fn shown_path(
    alloc: Global,
    bounds: &BlockBounds,
    node: u32,
) -> Result<Vec<u32>, AllocError>
    requires fetches { fetch_at bounds.now.view.fetches node ≡ Some bounds.now.block }
    requires shown { IsBoundShown bounds.now node }
    ensures { IfOk result (λ path.
        IsWitness bounds.now.view bounds.now.start node bounds.now.hits (reverse path.items)) }
{
    match bounds.path(alloc, node)? {
        Some(path) => Ok(path),
        None => unreachable!(),
    }
}
