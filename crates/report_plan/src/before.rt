// Smaller nodes that lead to each node, and the paths that they make.
ghost use Rattle.std.specs.Prelude.{◌≡◌, ◌<◌, length, IfOk};
ghost use Rattle.std.specs.List.{range_with_len};
ghost use Rattle.path_model.specs.Graph.{IsGraph};
ghost use Rattle.node_spec.specs.Plan.{NamesPathTo};
ghost use Rattle.report_plan.specs.Kept.{AreBefore, AreNoted, noted};

use crate::order::numbers;
use path_model::{Graph, Node};
use path_trail::{Trail, way_of};
use report_spec::Way;
use std::alloc::{AllocError, Global};
use std::marker::Model;

/// For each node but the first the number of a smaller one that it follows. As a trail it has an entry for each node.
#[derive(Drop)]
pub(crate) struct Befores(Vec<u32>);

impl Model for Befores {
    ghost use Rattle.std.specs.Prelude.{List, ℕ};

    ghost Value = { List ℕ };

    ghost view = { λ before. before.0.items };
}

impl Befores {
    /// Those of a graph. Goes over the nodes once.
    pub(crate) fn new(alloc: Global, nodes: &[Node]) -> Result<Self, AllocError>
        requires { IsGraph nodes.now }
        ensures { IfOk result (AreBefore nodes.now) }
    {
        let mut before = numbers(alloc, nodes.len())?;
        note_all(&mut before, nodes);
        Ok(Befores(before))
    }
}

impl Trail for Befores {
    ghost use Rattle.report_plan.specs.Befores.{entries_of};

    ghost entries = { entries_of };

    fn node(&self, entry: u32) -> u32 {
        entry
    }

    fn earlier(&self, entry: u32) -> Option<u32> {
        if entry == 0 {
            return None;
        }
        Some(self.0[entry as usize])
    }
}

// Notes each node at the greater ones that it leads to.
fn note_all(before: &mut [u32], nodes: &[Node])
    requires graph { IsGraph nodes.now }
    requires none { before.old ≡ range_with_len 0 (length nodes.now) }
    ensures { AreNoted nodes.now (length nodes.now) before.new }
{
    for index in 0..nodes.len() {
        note(before, index as u32, nodes[index].first);
        note(before, index as u32, nodes[index].second);
    }
}

// Notes a node at one that it leads to, where that is greater.
fn note(before: &mut [u32], from: u32, to: Option<u32>)
    ensures { before.new ≡ noted before.old from to }
{
    if let Some(to) = to {
        let to = to as usize;
        if (from as usize) < to && to < before.len() {
            before[to] = from;
        }
    }
}

/// The way that names a path to a node: from each node back to the smaller one before it.
pub(crate) fn way_to(
    alloc: Global,
    graph: &Graph,
    before: &Befores,
    node: u32,
) -> Result<Way, AllocError>
    requires before { AreBefore graph.now before.now }
    requires inside { node < length graph.now }
    ensures { IfOk result (NamesPathTo graph.now node) }
{
    way_of(alloc, graph, before, node)
}
