ghost use Rattle.std.specs.Prelude.{◌≡◌, ℕ, ◌<◌, ◌≤◌, length, slice_get};
ghost use Rattle.flow_spec.specs.Configuration.{fetched};
ghost use Rattle.flow_spec.specs.Successors.{newest};
ghost use Rattle.path_model.specs.Graph.{IsGraph, address_of};
ghost use Rattle.frame_stacks.specs.Stacks.{AreCells, frames_of};
ghost use Rattle.call_expand.specs.Expansion.{numbered};
ghost use Rattle.call_expand.specs.Point.{configurations_at, AreExpanded};

use crate::point::Point;
use flow_spec::Frame;
use frame_stacks::{StackCell, Stacks};
use path_model::Graph;
use std::marker::Model;

/// The configuration of a node: the address of its instruction, the part of that instruction that it fetches, 0 or 1,
/// the number of its stack of open calls, and how many of them are open. Two configurations have one stack exactly
/// where the same calls are open in both.
#[derive(Clone, Copy, Debug, PartialEq, Eq)]
pub struct Config {
    pub at: u32,
    pub part: u8,
    pub stack: u32,
    pub depth: u32,
}

/// The graph of an accepted program, with the configuration of each node. Its calls take no memory.
#[derive(Drop)]
pub struct Expanded {
    graph: Graph,
    points: Vec<Point>,
    stacks: Stacks,
}

impl Model for Expanded {
    ghost use Rattle.std.specs.Prelude.{map};
    ghost use Rattle.call_expand.specs.Expansion.{Expansion};
    ghost use Rattle.call_expand.specs.Point.{configurations_at, AreExpanded};

    ghost Value = { Expansion };

    ghost view = { λ e. record {
      configurations = configurations_at e.stacks e.points.items;
      nodes = e.graph;
      cells = e.stacks;
      stacks = map (λ point. point.stack) e.points.items;
    } };

    ghost invariant = { λ e. AreExpanded e.stacks e.points.items e.graph };
}

impl Expanded {
    pub(crate) fn new(graph: Graph, points: Vec<Point>, stacks: Stacks) -> Self
        requires { AreExpanded stacks points.items graph }
        ensures configurations { result.configurations ≡ configurations_at stacks points.items }
        ensures nodes { result.nodes ≡ graph }
    {
        Expanded {
            graph,
            points,
            stacks,
        }
    }

    /// The graph. Its nodes have the numbers of the configurations and the addresses that they fetch, and node 0 is the
    /// entry.
    pub fn graph(&self) -> &Graph
        ensures same { result.now ≡ self.now.nodes }
        ensures graph { IsGraph self.now.nodes }
        ensures one_each { length self.now.configurations ≡ length self.now.nodes }
        ensures fetches { (n : ℕ) → n < length self.now.nodes
            → address_of self.now.nodes n ≡ fetched (numbered self.now.configurations n) }
    {
        &self.graph
    }

    /// The configuration of a node, whose number is below the number of nodes.
    pub fn config(&self, node: u32) -> Config
        requires { node < length self.now.nodes }
        ensures at { result.at ≡ (numbered self.now.configurations node).at }
        ensures part { result.part ≡ (numbered self.now.configurations node).part }
        ensures frames { frames_of self.now.cells result.stack ≡ (numbered self.now.configurations node).frames }
        ensures depth { result.depth ≡ length (numbered self.now.configurations node).frames }
        ensures stack { slice_get self.now.stacks node ≡ Some result.stack }
        ensures known { result.stack ≤ length self.now.cells }
    {
        let point = self.points[node as usize];
        Config {
            at: point.at,
            part: point.part,
            stack: point.stack,
            depth: self.stacks.depth(point.stack),
        }
    }

    /// The newest open call of a node's configuration. `None` exactly where none is open. The node's number is below
    /// the number of nodes.
    pub fn top(&self, node: u32) -> Option<Frame>
        requires { node < length self.now.nodes }
        ensures { result ≡ newest (numbered self.now.configurations node).frames }
    {
        let point = self.points[node as usize];
        self.stacks.top(point.stack)
    }

    /// The cells of the stacks. The cell at index k puts its frame on the stack `below`, and makes stack k + 1. Equal
    /// lists of open calls have equal stack numbers.
    pub fn cells(&self) -> &[StackCell]
        ensures same { result.now ≡ self.now.cells }
        ensures cells { AreCells self.now.cells }
    {
        self.stacks.cells()
    }
}
