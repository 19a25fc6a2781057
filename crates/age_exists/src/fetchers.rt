// The nodes that fetch each block of a set.
ghost use Rattle.std.specs.Prelude.{◌≡◌, length, replicate, [], IfOk};
ghost use Rattle.age_exists.specs.Fetchers.{HaveFetchers};
ghost use Rattle.age_exists.specs.Rows.{columns_seen};

use set_view::SetView;
use std::alloc::{AllocError, Global};

/// For each local block of a view the nodes that fetch it, rising. It goes over the nodes once. The error is out of
/// memory.
pub(crate) fn fetchers_of(alloc: Global, view: &SetView) -> Result<Vec<Vec<u32>>, AllocError>
    ensures { IfOk result (λ fetchers. HaveFetchers view.now (length view.now.nodes) (columns_seen fetchers.items)) }
{
    let blocks = view.blocks();
    let mut fetchers = no_fetchers(alloc, blocks.len())?;
    for node in 0..view.graph().nodes().len() as u32 {
        if let Some(block) = view.fetch(node) {
            prove!((block as usize) < blocks.len());
            fetchers[block as usize].push(node)?;
        }
    }
    Ok(fetchers)
}

// No nodes yet.
fn no_fetchers(alloc: Global, count: usize) -> Result<Vec<Vec<u32>>, AllocError>
    ensures { IfOk result (λ fetchers. columns_seen fetchers.items ≡ replicate count []) }
{
    let mut fetchers = Vec::with_capacity(alloc, count)?;
    for _block in 0..count {
        fetchers.push(Vec::new(alloc))?;
    }
    Ok(fetchers)
}
