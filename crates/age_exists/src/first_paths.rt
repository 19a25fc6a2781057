// The first path to each node of a graph.
ghost use Rattle.std.specs.Prelude.{◌≡◌, ◌≤◌, length, IfOk};
ghost use Rattle.age_exists.specs.Firsts.{AreFirsts};
ghost use Rattle.age_exists.specs.FirstSteps.{AreApart, AreFound, NotesFirst};
ghost use Rattle.age_exists.specs.Seen.{entries_seen};

use crate::retracing::Step;
use path_model::{Graph, Node};
use std::alloc::{AllocError, Global};

/// An entry for each node: after that of the least node that it follows. The error is out of memory.
pub(crate) fn first_paths(alloc: Global, graph: &Graph) -> Result<Vec<Step>, AllocError>
    ensures { IfOk result (λ firsts. AreFirsts graph.now (entries_seen firsts.items)) }
{
    let nodes = graph.nodes();
    let mut steps = apart(alloc, nodes.len() as u32)?;
    note_all(&mut steps, nodes);
    Ok(steps)
}

// A step for each node, after no other.
fn apart(alloc: Global, count: u32) -> Result<Vec<Step>, AllocError>
    ensures { IfOk result (λ steps. AreApart count (entries_seen steps.items)) }
{
    let mut steps = Vec::with_capacity(alloc, count as usize)?;
    for node in 0..count {
        steps.push(Step {
            node,
            earlier: None,
        })?;
    }
    Ok(steps)
}

// Notes the first edge to each node from a smaller one.
fn note_all(steps: &mut [Step], nodes: &[Node])
    requires few { length nodes.now ≤ 65536 }
    requires apart { AreApart (length nodes.now) (entries_seen steps.old) }
    ensures { AreFound nodes.now (length nodes.now) (entries_seen steps.new) }
{
    for index in 0..nodes.len() {
        note_first(steps, index as u32, nodes[index].first);
        note_first(steps, index as u32, nodes[index].second);
    }
}

// Notes an edge to a greater node, unless one to it is noted.
fn note_first(steps: &mut [Step], from: u32, to: Option<u32>)
    ensures { NotesFirst (entries_seen steps.old) (entries_seen steps.new) from to }
{
    let Some(to) = to else {
        return;
    };
    let place = to as usize;
    if from < to && place < steps.len() && steps[place].earlier.is_none() {
        steps[place].earlier = Some(from);
    }
}
