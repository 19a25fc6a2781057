// The fetched blocks of a set, and who fetches them.
ghost use Rattle.std.specs.Prelude.{◌≡◌, ◌<◌, ◌≤◌, length, map, vec_len, IfOk, IfErr};
ghost use Rattle.std.specs.List.{filter_map};
ghost use Rattle.std.specs.List.Sorted.{IsStrictlyIncreasing};
ghost use Rattle.path_model.specs.Graph.{addresses_of};
ghost use Rattle.focus_spec.specs.Younger.{fetch_at};
ghost use Rattle.cache_spec.specs.Blocks.{block_in, AreBlocks};
ghost use Rattle.set_view.specs.View.{IsView, IsFault};
ghost use Rattle.set_view.specs.Places.{place_of, local_at};

use cache_geom::Geometry;
use path_model::{Graph, Node};
use std::alloc::{AllocError, Global};
use std::marker::Model;

// As many blocks of a set as an analysis takes.
const BLOCK_LIMIT: usize = 1024;

/// Why there is no view of a set.
#[derive(Debug, Drop, PartialEq, Eq)]
pub enum ViewFault {
    /// The graph fetches more than 1,024 blocks of the set: this many.
    TooManyBlocks { set: u32, count: u32 },
    OutOfMemory,
}

impl From<AllocError> for ViewFault {
    ghost use Rattle.std.specs.Prelude.{◌≡◌};
    ghost use Rattle.set_view.specs.declared.fetched.ViewFault.TheVariants.{OutOfMemory};

    ghost from_gives = { λ _ fault. fault ≡ OutOfMemory };

    fn from(_: AllocError) -> Self {
        ViewFault::OutOfMemory
    }
}

/// The fetched blocks of one set, and what each node of a graph fetches of them.
#[derive(Drop)]
pub struct SetView<'g> {
    graph: &'g Graph,
    geometry: Geometry,
    set: u32,
    blocks: Vec<u32>,
    // For each node the place of its block among the blocks; none where it fetches another set.
    fetches: Vec<Option<u16>>,
}

impl<'g> Model for SetView<'g> {
    ghost use Rattle.set_view.specs.View.{View, IsView};

    ghost Value = { View };

    ghost view = { λ v. record {
      nodes = v.graph.now;
      geometry = v.geometry;
      set = v.set;
      blocks = v.blocks.items;
      fetches = v.fetches.items;
    } };

    ghost invariant = { λ v. IsView (record {
      nodes = v.graph.now;
      geometry = v.geometry;
      set = v.set;
      blocks = v.blocks.items;
      fetches = v.fetches.items;
    }) };
}

impl<'g> SetView<'g> {
    /// The graph that is viewed. Takes no memory.
    pub fn graph(&self) -> &Graph
        ensures same { result.now ≡ self.now.nodes }
    {
        self.graph
    }

    /// How many blocks the set has room for: 1 to 16. Takes no memory.
    pub fn ways(&self) -> u32
        ensures same { result ≡ self.now.geometry.ways }
        ensures least { 1 ≤ result }
        ensures most { result ≤ 16 }
    {
        self.geometry.ways()
    }

    /// The fetched blocks of the set, rising: a block's place among them is its local number. Takes no memory.
    pub fn blocks(&self) -> &[u32]
        ensures same { result.now ≡ self.now.blocks }
        ensures view { IsView self.now }
    {
        &self.blocks
    }

    /// The local number of the block that a node fetches; `None` exactly where it fetches another set. The node's
    /// number is below the number of nodes. Takes no memory.
    pub fn fetch(&self, node: u32) -> Option<u16>
        requires { node < length self.now.nodes }
        ensures { result ≡ fetch_at self.now.fetches node }
    {
        self.fetches[node as usize]
    }
}

/// The view of a set, whose number is below the number of sets. It goes over the nodes once and sorts their blocks.
///
/// `TooManyBlocks` comes exactly where the graph fetches more than 1,024 blocks of the set, and has their count.
pub fn view<'g>(
    alloc: Global,
    graph: &'g Graph,
    geometry: &Geometry,
    set: u32,
) -> Result<SetView<'g>, ViewFault>
    requires { set < geometry.now.sets }
    ensures nodes { IfOk result (λ view. view.nodes ≡ graph.now) }
    ensures geometry { IfOk result (λ view. view.geometry ≡ geometry.now) }
    ensures set { IfOk result (λ view. view.set ≡ set) }
    ensures view { IfOk result (λ view. IsView view) }
    ensures fault { IfErr result (λ fault. IsFault graph.now geometry.now set fault) }
{
    // A view keeps that its set has 1 to 16 ways.
    let ways = geometry.ways();
    prove!(ways <= 16);
    let blocks = fetched_blocks(alloc, graph.nodes(), geometry, set)?;
    if blocks.len() > BLOCK_LIMIT {
        return Err(ViewFault::TooManyBlocks {
            set,
            count: blocks.len() as u32,
        });
    }
    let fetches = local_numbers(alloc, graph.nodes(), geometry, set, &blocks)?;
    Ok(SetView {
        graph,
        geometry: *geometry,
        set,
        blocks,
        fetches,
    })
}

// The block of the set that an address lies in.
fn block_in(geometry: &Geometry, set: u32, at: u32) -> Option<u32>
    ensures { result ≡ block_in geometry.now set at }
{
    let block = geometry.block(at);
    (geometry.set_of(block) == set).then_some(block)
}

// The block of the set that each node fetches, in the order of the nodes.
fn blocks_of(
    alloc: Global,
    nodes: &[Node],
    geometry: &Geometry,
    set: u32,
) -> Result<Vec<u32>, AllocError>
    ensures { IfOk result (λ blocks. blocks.items ≡ filter_map (λ node. block_in geometry.now set node.at) nodes.now) }
{
    nodes
        .iter()
        .filter_map(|node| block_in(geometry, set, node.at))
        .collect(alloc)
}

// The blocks of the set that the nodes fetch, each once and rising.
fn fetched_blocks(
    alloc: Global,
    nodes: &[Node],
    geometry: &Geometry,
    set: u32,
) -> Result<Vec<u32>, AllocError>
    ensures fetched { IfOk result (λ blocks. AreBlocks (addresses_of nodes.now) geometry.now set blocks.items) }
    ensures few { IfOk result (λ blocks. vec_len blocks ≤ length nodes.now) }
{
    let mut blocks = blocks_of(alloc, nodes, geometry, set)?;
    blocks.sort()?;
    blocks.dedup();
    Ok(blocks)
}

// The place of a block among blocks that rise.
fn place_of(blocks: &[u32], block: u32) -> Option<u16>
    requires rising { IsStrictlyIncreasing blocks.now }
    requires few { length blocks.now ≤ 1024 }
    ensures { result ≡ place_of blocks.now block }
{
    let place = blocks.binary_search(&block).ok()?;
    Some(place as u16)
}

// For each node the place of its block among the blocks.
fn local_numbers(
    alloc: Global,
    nodes: &[Node],
    geometry: &Geometry,
    set: u32,
    blocks: &[u32],
) -> Result<Vec<Option<u16>>, AllocError>
    requires rising { IsStrictlyIncreasing blocks.now }
    requires few { length blocks.now ≤ 1024 }
    ensures { IfOk result (λ fetches.
        fetches.items ≡ map (λ node. local_at blocks.now geometry.now set node) nodes.now) }
{
    nodes
        .iter()
        .map(|node| place_of(blocks, block_in(geometry, set, node.at)?))
        .collect(alloc)
}
