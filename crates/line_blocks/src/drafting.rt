// A draft of a plan, of which nothing is proved, since the test of the plan decides. And a run for each node, which is a
// plan for every graph.
ghost use Rattle.std.specs.Prelude.{◌≡◌, ◌≤◌, length, IfOk};
ghost use Rattle.line_blocks.specs.Alone.{AreAlone};

use crate::plan::{Run, block_at, head_of, run_of};
use cache_geom::Geometry;
use path_model::Node;
use std::alloc::{AllocError, Global};

/// The run of each node, and each run.
#[derive(Drop)]
pub(crate) struct Draft {
    pub(crate) numbers: Vec<u32>,
    pub(crate) runs: Vec<Run>,
    // As many as there are runs.
    count: u32,
}

// The edges into a node: none, one from this node, or more.
#[derive(Clone, Copy)]
enum Entry {
    Never,
    From(u32),
    Often,
}

impl Draft {
    fn begin(&mut self, node: u32) -> Result<(), AllocError> {
        self.numbers.push(self.count)?;
        self.runs.push(Run {
            head: node,
            last: node,
        })?;
        self.count = self.count.saturating_add(1);
        Ok(())
    }

    // Adds a node to the run of the one before it.
    fn join(&mut self, node: u32, before: u32) -> Result<(), AllocError> {
        let number = run_of(&self.numbers, before);
        self.numbers.push(number)?;
        let place = number as usize;
        let head = head_of(&self.runs, place);
        if place < self.runs.len() {
            self.runs[place] = Run { head, last: node };
        }
        Ok(())
    }
}

fn enter(entries: &mut [Entry], from: u32, to: Option<u32>)
    ensures { length entries.new ≡ length entries.old }
{
    if let Some(to) = to {
        let place = to as usize;
        if place < entries.len() {
            entries[place] = match entries[place] {
                Entry::Never => Entry::From(from),
                _ => Entry::Often,
            };
        }
    }
}

// The edges into each node.
fn entries_of(alloc: Global, nodes: &[Node]) -> Result<Vec<Entry>, AllocError>
    requires { length nodes.now ≤ 65536 }
{
    let mut entries = vec![in alloc; Entry::Never; nodes.len()]?;
    for node in 0..nodes.len() as u32 {
        let here = nodes[node as usize];
        enter(&mut entries, node, here.first);
        enter(&mut entries, node, here.second);
    }
    Ok(entries)
}

// The node whose run this one can join: the only one that leads here, if it leads nowhere else and fetches the same block.
fn before(nodes: &[Node], geometry: &Geometry, entries: &[Entry], node: u32) -> Option<u32> {
    let Entry::From(from) = *entries.get(node as usize)? else {
        return None;
    };
    let alone = nodes.get(from as usize)?.second.is_none();
    let same = block_at(nodes, geometry, from) == block_at(nodes, geometry, node);
    (node > from && alone && same).then_some(from)
}

/// A draft of a plan: the nodes in order, each in the run of the one before it where it can be.
pub(crate) fn draft_of(
    alloc: Global,
    nodes: &[Node],
    geometry: &Geometry,
) -> Result<Draft, AllocError>
    requires { length nodes.now ≤ 65536 }
{
    let entries = entries_of(alloc, nodes)?;
    let mut draft = Draft {
        numbers: Vec::new(alloc),
        runs: Vec::new(alloc),
        count: 0,
    };
    for node in 0..nodes.len() as u32 {
        match before(nodes, geometry, &entries, node) {
            Some(from) => draft.join(node, from)?,
            None => draft.begin(node)?,
        }
    }
    Ok(draft)
}

/// A run for each node.
pub(crate) fn alone(alloc: Global, count: usize) -> Result<Draft, AllocError>
    requires { count ≤ 65536 }
    ensures { IfOk result (λ draft. AreAlone count draft.numbers.items draft.runs.items) }
{
    let mut numbers = Vec::new(alloc);
    let mut runs = Vec::new(alloc);
    for node in 0..count as u32 {
        numbers.push(node)?;
        runs.push(Run {
            head: node,
            last: node,
        })?;
    }
    Ok(Draft {
        numbers,
        runs,
        count: count as u32,
    })
}
