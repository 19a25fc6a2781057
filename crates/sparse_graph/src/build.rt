// A flow graph and its sparse graph.
ghost use Rattle.std.specs.Prelude.{◌≡◌, ◌↔◌, ◌<◌, IsTrue, length, map, Some, slice_get, IfOk, IfSome, IfNone};
ghost use Rattle.sparse_graph.specs.Plan.{IsKept, IsPlan, lead_of, rank_of, origin_of};
ghost use Rattle.sparse_graph.specs.Sparse.{IsSparse, another, moved, moved_at};

use crate::plan::{is_kept, is_plan, lead_of, rank_of};
use path_model::{Graph, Node};
use std::alloc::{AllocError, Global};
use std::marker::Model;

/// A flow graph and the sparse graph of its kept nodes.
#[derive(Drop)]
pub struct SparseGraph<'g> {
    whole: &'g Graph,
    small: Graph,
    kept: Vec<u32>,
    leads: Vec<u32>,
    ranks: Vec<u32>,
}

impl<'g> Model for SparseGraph<'g> {
    ghost use Rattle.sparse_graph.specs.Sparse.{Sparse, IsSparse};

    ghost Value = { Sparse };

    ghost view = { λ s. record {
      nodes = s.whole.now;
      small = s.small;
      kept = s.kept.items;
      leads = s.leads.items;
      ranks = s.ranks.items;
    } };

    ghost invariant = { λ s. IsSparse (record {
      nodes = s.whole.now;
      small = s.small;
      kept = s.kept.items;
      leads = s.leads.items;
      ranks = s.ranks.items;
    }) };
}

impl<'g> SparseGraph<'g> {
    /// The sparse graph.
    pub fn graph(&self) -> &Graph
        ensures same { result.now ≡ self.now.small }
        ensures sparse { IsSparse self.now }
    {
        &self.small
    }

    /// The graph that it stands for.
    pub fn whole(&self) -> &Graph
        ensures same { result.now ≡ self.now.nodes }
        ensures sparse { IsSparse self.now }
    {
        self.whole
    }

    /// The number in the whole graph of a node of the sparse one, or 0 where there is no such node.
    pub fn origin(&self, place: u32) -> u32
        ensures origin { result ≡ origin_of self.now.kept place }
        ensures sparse { IsSparse self.now }
    {
        self.kept.get(place as usize).copied().unwrap_or(0)
    }

    /// The number in the sparse graph of the node that a node of the whole one leads to.
    pub fn lead(&self, node: u32) -> u32
        ensures lead { result ≡ lead_of self.now.leads node }
        ensures sparse { IsSparse self.now }
    {
        lead_of(&self.leads, node)
    }

    /// Tells whether a node of the whole graph is one of the sparse graph.
    pub fn is_kept(&self, node: u32) -> bool
        ensures kept { IsTrue result ↔ IsKept self.now.kept self.now.leads node }
        ensures sparse { IsSparse self.now }
    {
        is_kept(&self.kept, &self.leads, node)
    }

    // A node of the whole graph.
    pub(crate) fn node(&self, node: u32) -> &Node
        requires { node < length self.now.nodes }
        ensures node { slice_get self.now.nodes node ≡ Some result.now }
        ensures sparse { IsSparse self.now }
    {
        &self.whole.nodes()[node as usize]
    }

    // How far a node is at most from the one that it leads to.
    pub(crate) fn rank(&self, node: u32) -> u32
        ensures { result ≡ rank_of self.now.ranks node }
    {
        rank_of(&self.ranks, node)
    }
}

/// The sparse graph of the kept nodes, whose numbers are given, rising; `leads` has for each node of the graph the place
/// in `kept` of the node that it leads to, and `ranks` a bound for each node on its way there.
///
/// `None` where these aren't a plan. It tests that in time in the order of the nodes, so that whoever drafts plans need
/// not be trusted.
pub fn sparse<'g>(
    alloc: Global,
    whole: &'g Graph,
    kept: Vec<u32>,
    leads: Vec<u32>,
    ranks: Vec<u32>,
) -> Result<Option<SparseGraph<'g>>, AllocError>
    ensures nodes { IfOk result (λ found. IfSome found (λ made. made.nodes ≡ whole.now)) }
    ensures kept { IfOk result (λ found. IfSome found (λ made. made.kept ≡ kept.items)) }
    ensures leads { IfOk result (λ found. IfSome found (λ made. made.leads ≡ leads.items)) }
    ensures sparse { IfOk result (λ found. IfSome found (λ made. IsSparse made)) }
    ensures none { IfOk result (λ found. IfNone found (IsPlan whole.now kept.items leads.items ranks.items → ⊥)) }
{
    if !is_plan(whole.nodes(), &kept, &leads, &ranks) {
        return Ok(None);
    }
    let nodes = small_nodes(alloc, whole.nodes(), &kept, &leads)?;
    match Graph::new(nodes) {
        Some(small) => Ok(Some(SparseGraph {
            whole,
            small,
            kept,
            leads,
            ranks,
        })),
        None => Ok(None),
    }
}

fn another(first: Option<u32>, second: Option<u32>) -> Option<u32>
    ensures { result ≡ another first second }
{
    match (first, second) {
        (Some(first), Some(second)) if second != first => Some(second),
        _ => None,
    }
}

// A node whose successors are the places that its own lead to.
fn moved(leads: &[u32], node: &Node) -> Node
    ensures { result ≡ moved leads.now node.now }
{
    let first = node.first.map(|to| lead_of(leads, to));
    let second = node.second.map(|to| lead_of(leads, to));
    Node {
        at: node.at,
        first,
        second: another(first, second),
    }
}

fn moved_at(nodes: &[Node], leads: &[u32], node: u32) -> Node
    ensures { result ≡ moved_at nodes.now leads.now node }
{
    match nodes.get(node as usize) {
        Some(node) => moved(leads, node),
        None => Node {
            at: 0,
            first: None,
            second: None,
        },
    }
}

fn small_nodes(
    alloc: Global,
    nodes: &[Node],
    kept: &[u32],
    leads: &[u32],
) -> Result<Vec<Node>, AllocError>
    ensures { IfOk result (λ small. small.items ≡ map (moved_at nodes.now leads.now) kept.now) }
{
    kept.iter()
        .map(|&node| moved_at(nodes, leads, node))
        .collect(alloc)
}
