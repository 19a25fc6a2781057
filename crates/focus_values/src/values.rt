// The warm sets and the younger sets of a block before each node of a graph.
ghost use Rattle.std.specs.Prelude.{◌≡◌, ◌<◌, length, IfOk};
ghost use Rattle.focus_values.specs.Exact.{AreExact, AreCopies};

use crate::lists::{Lists, copy_of_both};
use cache_spec::Start;
use lattice_fix::{Solution, SolveFault, solution_laws, solve};
use plain_family::PlainFamily;
use set_view::SetView;
use std::alloc::{AllocError, Global};

/// The least warm sets and the most younger sets of a block before a node, over all paths that end there.
#[derive(Drop)]
pub struct YoungerSets {
    /// The warm sets with fewer blocks than the set has ways that include no other.
    pub least: PlainFamily,
    /// The younger sets that no other includes; `None` exactly where some path leaves one of as many blocks as the set
    /// has ways, or hasn't fetched the block.
    pub most: Option<PlainFamily>,
}

/// The least warm sets and the most younger sets of the block with this local number, before each node in order,
/// exactly. An error is out of memory.
///
/// A path's younger set has the other blocks that it fetched since it fetched the block itself. That is its warm set
/// too; with `Start::Any` a path that hasn't fetched the block has a warm set as well, of all blocks that it fetched.
///
/// The families can have as many sets as there are sets of other blocks that are small enough: this is meant for what
/// cheaper analyses leave open. Each node is worked off once where all edges lead to greater numbers.
pub fn younger_sets(
    alloc: Global,
    view: &SetView,
    block: u16,
    start: Start,
) -> Result<Vec<YoungerSets>, AllocError>
    requires { block < length view.now.blocks }
    ensures one_each { IfOk result (λ sets. length sets.items ≡ length view.now.nodes) }
    ensures exact { IfOk result (λ sets. AreExact view.now start block sets.items) }
{
    let blocks = view.blocks();
    prove!((block as usize) < blocks.len());
    let mut lists = Lists {
        alloc,
        view,
        start,
        block,
    };
    let solution = match solve(alloc, view.graph(), &mut lists) {
        Ok(solution) => solution,
        Err(SolveFault::Stopped(stop)) => return Err(stop),
        Err(SolveFault::OutOfMemory) => return Err(AllocError),
    };
    solution_laws(&lists);
    copies(alloc, &solution, view.graph().nodes().len() as u32)
}

// The values of a solution in memory of their own.
fn copies(
    alloc: Global,
    solution: &Solution<YoungerSets>,
    count: u32,
) -> Result<Vec<YoungerSets>, AllocError>
    requires { length solution.now.values ≡ count }
    ensures { IfOk result (λ copies. AreCopies solution.now.values copies.items) }
{
    let mut copies = Vec::with_capacity(alloc, count as usize)?;
    for node in 0..count {
        copies.push(copy_of_both(alloc, solution.before(node))?)?;
    }
    Ok(copies)
}
