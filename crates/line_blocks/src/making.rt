// A graph, and that of its runs.
ghost use Rattle.std.specs.Prelude.{◌≡◌, ◌↔◌, ◌<◌, length, map, Some, IsTrue, IfOk, IfSome, IfNone};
ghost use Rattle.path_model.specs.Graph.{address_of};
ghost use Rattle.line_blocks.specs.Runs.{AreRuns, AreRising, IsHead, IsPlan, node_by, run_node, run_of, head_of, second_by};
ghost use Rattle.line_blocks.specs.Ways.{HasMoves};

use crate::drafting::{alone, draft_of};
use crate::moves::moves_of;
use crate::plan::{Run, address_of, head_of, is_head, is_plan, run_of};
use cache_geom::Geometry;
use path_model::{Graph, Node};
use std::alloc::{AllocError, Global};
use std::marker::Model;

/// A graph, and the smaller graph of its runs.
#[derive(Drop)]
pub struct LineBlocks<'g> {
    whole: &'g Graph,
    geometry: Geometry,
    small: Graph,
    numbers: Vec<u32>,
    runs: Vec<Run>,
    // The number of moves from the first node of each run to its last one.
    moves: Vec<u32>,
}

impl<'g> Model for LineBlocks<'g> {
    ghost use Rattle.line_blocks.specs.Runs.{Runs, AreRuns};
    ghost use Rattle.line_blocks.specs.Ways.{AreMoves};

    ghost Value = { Runs };

    ghost view = { λ b. record {
      nodes = b.whole.now;
      shape = b.geometry;
      small = b.small;
      numbers = b.numbers.items;
      runs = b.runs.items;
    } };

    ghost invariant = { λ b. AreRuns (record {
      nodes = b.whole.now;
      shape = b.geometry;
      small = b.small;
      numbers = b.numbers.items;
      runs = b.runs.items;
    }) × AreMoves b.whole.now b.numbers.items b.runs.items b.moves.items };
}

impl<'g> LineBlocks<'g> {
    /// The graph whose runs these are.
    pub fn whole(&self) -> &Graph
        ensures same { result.now ≡ self.now.nodes }
        ensures runs { AreRuns self.now }
    {
        self.whole
    }

    /// The graph of the runs, which `run_laws` speaks of.
    pub fn small(&self) -> &Graph
        ensures same { result.now ≡ self.now.small }
        ensures runs { AreRuns self.now }
    {
        &self.small
    }

    /// The runs: the first node of each and its last one.
    pub fn runs(&self) -> &[Run]
        ensures same { result.now ≡ self.now.runs }
        ensures runs { AreRuns self.now }
    {
        &self.runs
    }

    /// The number of the run that a node is in.
    pub fn run_of(&self, node: u32) -> u32
        ensures run { result ≡ run_of self.now.numbers node }
        ensures runs { AreRuns self.now }
    {
        run_of(&self.numbers, node)
    }

    /// Tells that a node is the first of its run. Each other one always hits.
    pub fn is_head(&self, node: u32) -> bool
        ensures head { IsTrue result ↔ IsHead self.now.numbers self.now.runs node }
        ensures runs { AreRuns self.now }
    {
        is_head(&self.numbers, &self.runs, node)
    }

    /// The first node of a run.
    pub fn origin(&self, run: u32) -> u32
        ensures head { result ≡ head_of self.now.runs run }
        ensures runs { AreRuns self.now }
    {
        head_of(&self.runs, run as usize)
    }

    // The number of moves from the first node of a run to its last one.
    pub(crate) fn moves(&self, run: u32) -> u32
        ensures moves { run < length self.now.runs →
            HasMoves self.now.nodes self.now.numbers self.now.runs (head_of self.now.runs run) result }
    {
        self.moves.get(run as usize).copied().unwrap_or(0)
    }
}

// The runs of a graph, where these are a plan for them.
pub(crate) fn of_plan<'g>(
    alloc: Global,
    whole: &'g Graph,
    geometry: &Geometry,
    numbers: Vec<u32>,
    runs: Vec<Run>,
) -> Result<Option<LineBlocks<'g>>, AllocError>
    ensures nodes { IfOk result (λ found. IfSome found (λ made. made.nodes ≡ whole.now)) }
    ensures shape { IfOk result (λ found. IfSome found (λ made. made.shape ≡ geometry.now)) }
    ensures runs { IfOk result (λ found. IfSome found (λ made. AreRuns made)) }
    ensures none { IfOk result (λ found. IfNone found (
        IsPlan whole.now geometry.now numbers.items runs.items → AreRising runs.items → ⊥)) }
{
    // Each geometry has room for a block.
    let ways = geometry.ways();
    prove!(ways >= 1);
    if !is_plan(whole.nodes(), geometry, &numbers, &runs) {
        return Ok(None);
    }
    let nodes = small_nodes(alloc, whole.nodes(), &numbers, &runs)?;
    match Graph::new(nodes) {
        Some(small) => {
            let moves = moves_of(alloc, whole.nodes(), &numbers, &runs)?;
            Ok(Some(LineBlocks {
                whole,
                geometry: *geometry,
                small,
                numbers,
                runs,
                moves,
            }))
        }
        None => Ok(None),
    }
}

/// The runs of a graph for the lines of a cache, and the graph of the runs, for all sets. It goes over the nodes a few
/// times, and takes time and memory in the order of the nodes.
pub fn line_blocks<'g>(
    alloc: Global,
    graph: &'g Graph,
    geometry: &Geometry,
) -> Result<LineBlocks<'g>, AllocError>
    ensures nodes { IfOk result (λ made. made.nodes ≡ graph.now) }
    ensures shape { IfOk result (λ made. made.shape ≡ geometry.now) }
    ensures runs { IfOk result (λ made. AreRuns made) }
{
    let draft = draft_of(alloc, graph.nodes(), geometry)?;
    match of_plan(alloc, graph, geometry, draft.numbers, draft.runs)? {
        Some(made) => Ok(made),
        None => each_alone(alloc, graph, geometry),
    }
}

// A run for each node, should a draft be wrong.
pub(crate) fn each_alone<'g>(
    alloc: Global,
    graph: &'g Graph,
    geometry: &Geometry,
) -> Result<LineBlocks<'g>, AllocError>
    ensures nodes { IfOk result (λ made. made.nodes ≡ graph.now) }
    ensures shape { IfOk result (λ made. made.shape ≡ geometry.now) }
    ensures runs { IfOk result (λ made. AreRuns made) }
{
    let draft = alone(alloc, graph.nodes().len())?;
    match of_plan(alloc, graph, geometry, draft.numbers, draft.runs)? {
        Some(made) => Ok(made),
        None => unreachable!(),
    }
}

// The second of two successors, unless it is the first.
fn second_by(first: Option<u32>, second: Option<u32>) -> Option<u32>
    ensures { result ≡ second_by first second }
{
    match (first, second) {
        (Some(first), Some(second)) if second != first => Some(second),
        _ => None,
    }
}

// The successors of a node, by their runs.
fn passed_on(numbers: &[u32], at: u32, node: &Node) -> Node
    ensures { result ≡ node_by numbers.now at (Some node.now) }
{
    let first = node.first.map(|to| run_of(numbers, to));
    let second = node.second.map(|to| run_of(numbers, to));
    Node {
        at,
        first,
        second: second_by(first, second),
    }
}

// A run as a node.
fn run_node(nodes: &[Node], numbers: &[u32], run: &Run) -> Node
    ensures { result ≡ run_node nodes.now numbers.now run.now }
{
    let at = address_of(nodes, run.head);
    match nodes.get(run.last as usize) {
        Some(node) => passed_on(numbers, at, node),
        None => Node {
            at,
            first: None,
            second: None,
        },
    }
}

// The nodes of the graph of the runs.
fn small_nodes(
    alloc: Global,
    nodes: &[Node],
    numbers: &[u32],
    runs: &[Run],
) -> Result<Vec<Node>, AllocError>
    ensures { IfOk result (λ small. small.items ≡ map (run_node nodes.now numbers.now) runs.now) }
{
    runs.iter()
        .map(|run| run_node(nodes, numbers, run))
        .collect(alloc)
}
