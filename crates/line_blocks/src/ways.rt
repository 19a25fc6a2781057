// The way of the path of the whole graph that a path of the runs stands for.
ghost use Rattle.std.specs.Prelude.{◌≡◌, ◌+◌, reverse, IfOk};
ghost use Rattle.transition_spec.specs.Path.{IsPath};
ghost use Rattle.path_model.specs.Graph.{graph_step};
ghost use Rattle.line_blocks.specs.Ways.{IsWayFor};

use crate::making::LineBlocks;
use path_model::choices_of;
use std::alloc::{AllocError, Global};
use transition_spec::{Choices, Way};

/// The way of the path of the whole graph that a path of the runs stands for, which has its first member first. That path
/// isn't made: there is no choice within a run, and between two runs the choice is that of their nodes. It takes time in
/// the order of the runs on the path, and memory in the order of its choices. A path with more members than a `u64` counts
/// is out of memory too.
pub fn way_of(alloc: Global, blocks: &LineBlocks, path: &[u32]) -> Result<Way, AllocError>
    requires { IsPath (graph_step blocks.now.small) 0 (reverse path.now) }
    ensures { IfOk result (IsWayFor blocks.now (reverse path.now)) }
{
    let letters = choices_of(alloc, blocks.small(), path)?;
    let mut steps = 1;
    for place in 1..path.len() {
        steps = steps_after(steps, blocks.moves(path[place - 1]))?;
    }
    Ok(Way {
        steps,
        choices: Choices::from_letters(letters),
    })
}

// The steps after the moves within a run and the one to the next run.
fn steps_after(steps: u64, moves: u32) -> Result<u64, AllocError>
    ensures { IfOk result (λ more. more ≡ steps + moves + 1) }
{
    match steps.checked_add(moves as u64 + 1) {
        Some(more) => Ok(more),
        None => Err(AllocError),
    }
}
