// The bounds of a block that are moved along the first paths.
ghost use Rattle.std.specs.Prelude.{◌≡◌, ◌↔◌, ◌<◌, ℕ, length, slice_index, IfOk, IfSome, IsTrue};
ghost use Rattle.std.specs.List.{Contains};
ghost use Rattle.age_exists.specs.Equations.{framework_of, setting_with};
ghost use Rattle.age_exists.specs.Firsts.{AreFirsts};
ghost use Rattle.age_exists.specs.FirstBounds.{AreFirstBounds, moved_from};
ghost use Rattle.age_exists.specs.Seen.{entries_seen};

use crate::retracing::Step;
use crate::system::BoundSystem;
use std::alloc::{AllocError, Global};

/// For each node the bound of the block, moved along the first path to it. The error is out of memory.
pub(crate) fn first_bounds(
    alloc: Global,
    system: &BoundSystem,
    firsts: &[Step],
) -> Result<Vec<u8>, AllocError>
    requires { AreFirsts system.now.view.now.nodes (entries_seen firsts.now) }
    ensures { IfOk result (λ bounds. AreFirstBounds
        (framework_of (setting_with system.now.hits system.now.view.now system.now.start system.now.own.now
        system.now.block))
        (entries_seen firsts.now) (length firsts.now) bounds.items) }
{
    let mut bounds = Vec::with_capacity(alloc, firsts.len())?;
    for step in firsts {
        bounds.push(moved_from(system, &bounds, step.earlier))?;
    }
    Ok(bounds)
}

// The bound after the node of an entry; at node 0 where there is none.
fn moved_from(system: &BoundSystem, bounds: &[u8], earlier: Option<u32>) -> u8
    requires { IfSome earlier (λ entry. entry < length bounds.now) }
    ensures { result ≡ moved_from (framework_of (setting_with system.now.hits system.now.view.now system.now.start
        system.now.own.now system.now.block)) bounds.now earlier }
{
    match earlier {
        Some(entry) => system.moved(entry, bounds[entry as usize]),
        None => system.first(),
    }
}

/// Whether this is the bound before each of the nodes.
pub(crate) fn are_all(bounds: &[u8], nodes: &[u32], bound: u8) -> bool
    requires { (n : ℕ) → Contains nodes.now n → n < length bounds.now }
    ensures { IsTrue result ↔ ((n : ℕ) → Contains nodes.now n → slice_index bounds.now n ≡ bound) }
{
    for node in nodes {
        if bounds[*node as usize] != bound {
            return false;
        }
    }
    true
}
