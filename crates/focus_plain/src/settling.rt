// The least warm and the most younger sets where a block is fetched, with the ways that bear out its fate there.
ghost use Rattle.std.specs.Prelude.{◌≡◌, ◌<◌, length, map, [], ◌∷◌, ◌++◌, if◌then◌else◌, Some, IfOk, OnOk};
ghost use Rattle.std.specs.List.{All};
ghost use Rattle.focus_spec.specs.Younger.{fetch_at};
ghost use Rattle.set_view.specs.View.{IsView};
ghost use Rattle.focus_values.specs.Exact.{AreExact};
ghost use Rattle.focus_plain.specs.Ends.{IsFound};
ghost use Rattle.focus_plain.specs.Judged.{AreFetchers, IsEnd};
ghost use Rattle.focus_plain.specs.Settled.{IsFate, IsPlainPlace, AreAlike};

use crate::ends::{Found, find};
use crate::search::Focus;
use focus_values::{YoungerSets, younger_sets};
use path_model::Start;
use path_trail::{Way, way_of};
use plain_family::PlainFamily;
use set_view::{SetView, view_laws};
use std::alloc::{AllocError, Global};

/// A node that fetches a block, with a way of a path that can hit there and one of a path that can miss, each exactly
/// where some path can.
#[derive(Debug, Drop)]
pub struct Fate {
    pub node: u32,
    pub hit: Option<Way>,
    pub miss: Option<Way>,
}

/// A node that fetches a block, with the block's least warm and most younger sets before it.
#[derive(Drop)]
pub struct PlainPlace {
    pub node: u32,
    /// The warm sets with fewer blocks than the set has ways that include no other.
    pub least: PlainFamily,
    /// The younger sets that no other includes; `None` exactly where some path that ends in the node can miss.
    pub most: Option<PlainFamily>,
}

/// What is settled of a block, at each node that fetches it, rising by node.
#[derive(Drop)]
pub struct PlainSettled {
    pub places: Vec<PlainPlace>,
    pub fates: Vec<Fate>,
}

/// The least warm and the most younger sets of a block, and the fates that ways bear out, at each node that fetches it,
/// rising by node, from all that the cache may start with. The block is given by its local number.
///
/// It solves for the sets (`focus_values::younger_sets` says what they cost), and searches the graph once as `judge`
/// does. The error is out of memory.
pub fn settle(
    alloc: Global,
    view: &SetView,
    block: u16,
    start: Start,
) -> Result<PlainSettled, AllocError>
    requires { block < length view.now.blocks }
    ensures places { IfOk result (λ settled.
        AreFetchers view.now.fetches block (map (λ place. place.node) settled.places.items)) }
    ensures fates { IfOk result (λ settled.
        AreFetchers view.now.fetches block (map (λ fate. fate.node) settled.fates.items)) }
    ensures sets { IfOk result (λ settled. All (IsPlainPlace view.now start block) settled.places.items) }
    ensures ends { IfOk result (λ settled. All (IsFate view.now start) settled.fates.items) }
    ensures alike { IfOk result (λ settled. AreAlike settled.places.items settled.fates.items) }
{
    view_laws();
    let blocks = view.blocks();
    prove!((block as usize) < blocks.len());
    let focus = Focus { view, block, start };
    let found = find(alloc, &focus)?;
    let fates = fates(alloc, view, &found)?;
    let sets = younger_sets(alloc, view, block, start)?;
    let places = places(alloc, &focus, sets)?;
    Ok(PlainSettled { places, fates })
}

// The sets at the nodes that fetch the block.
fn places(
    alloc: Global,
    focus: &Focus,
    sets: Vec<YoungerSets>,
) -> Result<Vec<PlainPlace>, AllocError>
    requires view { IsView focus.now.view.now }
    requires one_each { length sets.items ≡ length focus.now.view.now.nodes }
    requires exact { AreExact focus.now.view.now focus.now.start focus.now.block sets.items }
    ensures nodes { IfOk result (λ places.
        AreFetchers focus.now.view.now.fetches focus.now.block (map (λ place. place.node) places.items)) }
    ensures sets { IfOk result (λ places. All (IsPlainPlace focus.now.view.now focus.now.start focus.now.block) places.items) }
{
    let mut places = Vec::new(alloc);
    let mut node = 0;
    for younger in sets {
        let fetches = focus.view.fetch(node) == Some(focus.block);
        keep(&mut places, fetches, node, younger)?;
        node += 1;
    }
    Ok(places)
}

// Keeps the younger sets before this node, if it fetches the block.
fn keep(
    places: &mut Vec<PlainPlace>,
    fetches: bool,
    node: u32,
    younger: YoungerSets,
) -> Result<(), AllocError>
    ensures { OnOk result (places.new.items
        ≡ (if fetches
        then places.old.items ++ record { node = node; least = younger.least; most = younger.most } ∷ []
        else places.old.items)) }
{
    if fetches {
        places.push(placed(node, younger))?;
    }
    Ok(())
}

// The younger sets before this node.
fn placed(node: u32, younger: YoungerSets) -> PlainPlace
    ensures { result ≡ record { node = node; least = younger.least; most = younger.most } }
{
    let YoungerSets { least, most } = younger;
    PlainPlace { node, least, most }
}

// The fates at the nodes that fetch the block.
fn fates(alloc: Global, view: &SetView, found: &Found) -> Result<Vec<Fate>, AllocError>
    requires view { IsView view.now }
    requires found { IsFound view.now found.now }
    ensures nodes { IfOk result (λ fates.
        AreFetchers view.now.fetches found.now.block (map (λ fate. fate.node) fates.items)) }
    ensures ends { IfOk result (λ fates. All (IsFate view.now found.now.start) fates.items) }
{
    let mut fates = Vec::new(alloc);
    for node in 0..view.graph().nodes().len() as u32 {
        if view.fetch(node) == Some(found.block) {
            fates.push(fate_at(alloc, view, found, node)?)?;
        }
    }
    Ok(fates)
}

// The fate at a node that fetches the block.
fn fate_at(alloc: Global, view: &SetView, found: &Found, node: u32) -> Result<Fate, AllocError>
    requires view { IsView view.now }
    requires found { IsFound view.now found.now }
    requires fetches { fetch_at view.now.fetches node ≡ Some found.now.block }
    requires inside { node < length view.now.nodes }
    ensures node { IfOk result (λ fate. fate.node ≡ node) }
    ensures fate { IfOk result (λ fate. IsFate view.now found.now.start fate) }
{
    Ok(Fate {
        node,
        hit: way_at(alloc, view, found, node, true)?,
        miss: way_at(alloc, view, found, node, false)?,
    })
}

// A way to a hit at a node that fetches the block, or to a miss, if some path is one.
fn way_at(
    alloc: Global,
    view: &SetView,
    found: &Found,
    node: u32,
    hits: bool,
) -> Result<Option<Way>, AllocError>
    requires view { IsView view.now }
    requires found { IsFound view.now found.now }
    requires fetches { fetch_at view.now.fetches node ≡ Some found.now.block }
    requires inside { node < length view.now.nodes }
    ensures { IfOk result (λ way. IsEnd view.now found.now.start node hits way) }
{
    view_laws();
    match found.end_at(node, hits) {
        Some(entry) => Ok(Some(way_of(alloc, view.graph(), &found.search, entry)?)),
        None => Ok(None),
    }
}
