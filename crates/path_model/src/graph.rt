// Flow graphs: nodes with up to two successors.
ghost use Rattle.std.specs.Prelude.{◌≡◌, ℕ, ◌<◌, ◌≤◌, ◌↔◌, List, ◌∷◌, length, slice_index_or, true, false, IsTrue, IfSome, OnSome, IfNone};
ghost use Rattle.std.specs.List.{list_all};
ghost use Rattle.transition_spec.specs.Path.{IsPath, IsSuccessor};
ghost use Rattle.path_model.specs.Graph.{IsGraph, graph_step, are_fit, is_fit};
ghost use Rattle.path_model.specs.Marks.{AreMarked, MarksOne, IsMarked};

use std::marker::Model;

// As many nodes as a graph can have.
const LIMIT: usize = 65_536;

/// The address that a node fetches, and the numbers of its successors in order.
#[derive(Clone, Copy, Debug, PartialEq, Eq)]
pub struct Node {
    pub at: u32,
    pub first: Option<u32>,
    pub second: Option<u32>,
}

/// A flow graph: 1 to 65,536 nodes, numbered from 0 on, each of them reached from node 0.
#[derive(Debug, Drop)]
pub struct Graph {
    nodes: Vec<Node>,
}

impl Model for Graph {
    ghost use Rattle.std.specs.Prelude.{List};
    ghost use Rattle.path_model.specs.declared.graph.Node.{Node};
    ghost use Rattle.path_model.specs.Graph.{IsGraph};

    ghost Value = { List Node };

    ghost view = { λ g. g.nodes.items };

    ghost invariant = { λ g. IsGraph g.nodes.items };
}

impl Graph {
    /// The graph of these nodes.
    ///
    /// `None` where there is no node or more than 65,536, where a successor isn't the number of a node, where a second
    /// successor is there without a first or equals it, or where a node other than 0 follows no node with a smaller
    /// number. Takes no memory, and time in the order of the nodes.
    pub fn new(nodes: Vec<Node>) -> Option<Self>
        ensures same { IfSome result (λ graph. graph ≡ nodes.items) }
        ensures graph { OnSome result (IsGraph nodes.items) }
        ensures none { IfNone result (IsGraph nodes.items → ⊥) }
    {
        if is_graph(&nodes) {
            Some(Graph { nodes })
        } else {
            None
        }
    }

    /// The nodes, in the order of their numbers.
    pub fn nodes(&self) -> &[Node]
        ensures same { result.now ≡ self.now }
        ensures graph { IsGraph self.now }
    {
        &self.nodes
    }
}

/// What holds of each graph: its successors are numbers of nodes, and some path from node 0 ends in each node.
pub fn graph_laws()
    ensures inside { (nodes : List Node) (n m : ℕ) →
        IsGraph nodes → IsSuccessor (graph_step nodes) n m → m < length nodes }
    ensures reached { (nodes : List Node) (n : ℕ) →
        IsGraph nodes → n < length nodes → (earlier : List ℕ) × IsPath (graph_step nodes) 0 (n ∷ earlier) }
{}

fn are_fit(count: usize, first: Option<u32>, second: Option<u32>) -> bool
    ensures { result ≡ are_fit count first second }
{
    let inside = |node: u32| (node as usize) < count;
    match (first, second) {
        (None, None) => true,
        (None, Some(_)) => false,
        (Some(first), None) => inside(first),
        (Some(first), Some(second)) => inside(first) && inside(second) && first != second,
    }
}

fn all_fit(nodes: &[Node]) -> bool
    ensures { result ≡ list_all (is_fit (length nodes.now)) nodes.now }
{
    let count = nodes.len();
    nodes
        .iter()
        .all(|node| are_fit(count, node.first, node.second))
}

// Marks the successor of the node with the number `from` where it is greater.
fn mark(marks: &mut [bool], from: usize, to: Option<u32>)
    ensures { MarksOne marks.old marks.new from to }
{
    if let Some(to) = to {
        let to = to as usize;
        if from < to && to < marks.len() {
            marks[to] = true;
        }
    }
}

// Marks each successor that is greater than its node.
fn mark_all(marks: &mut [bool], nodes: &[Node])
    requires { (k : ℕ) → slice_index_or marks.old k false ≡ false }
    ensures { AreMarked nodes.now (length nodes.now) marks.new }
{
    for index in 0..nodes.len() {
        mark(marks, index, nodes[index].first);
        mark(marks, index, nodes[index].second);
    }
}

// Each number from 1 to below the count is marked.
fn all_marked(marks: &[bool], count: usize) -> bool
    requires some { 1 ≤ count }
    requires long { count ≤ length marks.now }
    ensures { IsTrue result ↔ ((m : ℕ) → 1 ≤ m → m < count → IsMarked marks.now m) }
{
    let from_one = &marks[1..count];
    all_set(from_one)
}

fn all_set(marks: &[bool]) -> bool
    ensures { result ≡ list_all (λ marked. marked) marks.now }
{
    marks.iter().all(|&marked| marked)
}

// Each node but 0 follows one with a smaller number.
fn all_reached(nodes: &[Node]) -> bool
    requires some { 1 ≤ length nodes.now }
    requires few { length nodes.now ≤ 65536 }
    ensures { IsTrue result ↔ ((m : ℕ) → 1 ≤ m → m < length nodes.now
        → (n : ℕ) × (n < m) × IsSuccessor (graph_step nodes.now) n m) }
{
    let mut marks = [false; LIMIT];
    mark_all(&mut marks, nodes);
    all_marked(&marks, nodes.len())
}

fn is_graph(nodes: &[Node]) -> bool
    ensures { IsTrue result ↔ IsGraph nodes.now }
{
    if nodes.is_empty() || nodes.len() > LIMIT {
        return false;
    }
    if !all_fit(nodes) {
        return false;
    }
    all_reached(nodes)
}
