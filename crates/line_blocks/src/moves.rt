// How far it is from the first node of each run to its last one.
ghost use Rattle.std.specs.Prelude.{◌<◌, length, IfOk};
ghost use Rattle.line_blocks.specs.Ways.{HasMoves, AreMoves, AllMoveOn, AreHeads};

use crate::plan::{Run, is_last, next};
use path_model::Node;
use std::alloc::{AllocError, Global};

/// The number of moves from the first node of each run to its last one. It goes over the nodes of the runs once.
pub(crate) fn moves_of(
    alloc: Global,
    nodes: &[Node],
    numbers: &[u32],
    runs: &[Run],
) -> Result<Vec<u32>, AllocError>
    requires heads { AreHeads nodes.now runs.now }
    requires on { AllMoveOn nodes.now numbers.now runs.now }
    ensures { IfOk result (λ moves. AreMoves nodes.now numbers.now runs.now moves.items) }
{
    let mut moves = Vec::with_capacity(alloc, runs.len())?;
    for run in 0..runs.len() {
        moves.push(moves_from(nodes, numbers, runs, runs[run].head))?;
    }
    Ok(moves)
}

// The number of moves from a node to the last one of its run.
fn moves_from(nodes: &[Node], numbers: &[u32], runs: &[Run], node: u32) -> u32
    requires inside { node < length nodes.now }
    requires on { AllMoveOn nodes.now numbers.now runs.now }
    ensures { HasMoves nodes.now numbers.now runs.now node result }
{
    let mut at = node;
    let mut moves = 0;
    while !is_last(numbers, runs, at) {
        at = next(nodes, at);
        moves += 1;
    }
    moves
}
