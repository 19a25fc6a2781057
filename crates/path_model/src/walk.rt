// The paths of a graph from node 0, first member first.
ghost use Rattle.std.specs.Prelude.{◌≡◌, ◌==◌, ◌++◌, ◌<◌, ◌↔◌, true, if◌then◌else◌, map, reverse, slice_get, IsTrue, IfOk, OnOk};
ghost use Rattle.std.specs.Option.{option_to_list};
ghost use Rattle.transition_spec.specs.Path.{IsPath, HasChoices};
ghost use Rattle.cache_spec.specs.Geometry.{block_of, set_of};
ghost use Rattle.cache_spec.specs.Lru.{touch};
ghost use Rattle.cache_spec.specs.Contents.{contents, ends_in_hit};
ghost use Rattle.path_model.specs.Graph.{graph_step, address_of};
ghost use Rattle.cache_spec.specs.Start.{CanEnd};
ghost use Rattle.path_model.specs.Best.{best_list, ends_in_best_hit};
ghost use Rattle.path_model.specs.Letters.{letter_to};

use crate::{Graph, Node};
use cache_geom::{Geometry, LruSet};
use cache_spec::{Start, start_laws};
use std::alloc::{AllocError, Global};

/// Tells whether the last fetch of a path hits, where the cache is empty at first. A path of no members has no hit, and
/// a number that no node has fetches address 0.
///
/// It runs one LRU set over the fetches of the last member's set. Takes no memory.
pub fn ends_in_hit(graph: &Graph, geometry: &Geometry, path: &[u32]) -> bool
    ensures { result ≡ ends_in_hit geometry.now (map (address_of graph.now) (reverse path.now)) }
{
    hits_from(graph.nodes(), geometry, Start::Empty, path)
}

/// Tells whether the last fetch of a path can hit, where the cache starts so: whether there are blocks that its set may
/// hold at first with which it hits. A path of no members can't hit, and a number that no node has fetches address 0.
///
/// It runs one LRU set over the fetches of the last member's set. Takes no memory.
pub fn can_hit(graph: &Graph, geometry: &Geometry, start: Start, path: &[u32]) -> bool
    ensures { IsTrue result ↔ CanEnd geometry.now start (map (address_of graph.now) (reverse path.now)) true }
{
    start_laws();
    // The law asks for room for a block, which each geometry has.
    let ways = geometry.ways();
    prove!(ways >= 1);
    hits_from(graph.nodes(), geometry, start, path)
}

// Tells whether the last fetch hits, where its set starts with what is best for a hit.
fn hits_from(nodes: &[Node], geometry: &Geometry, start: Start, path: &[u32]) -> bool
    ensures { result ≡ ends_in_best_hit geometry.now start (map (address_of nodes.now) (reverse path.now)) }
{
    match path.split_last() {
        None => false,
        Some((last, earlier)) => {
            let block = geometry.block(address_of(nodes, *last));
            let first = best_set(geometry, start, block);
            let mut kept = kept_after(first, nodes, geometry, earlier, geometry.set_of(block));
            kept.touch(block)
        }
    }
}

// The set to start with for a hit of this block. Where a set may hold anything that is the block alone: it stays until
// `ways` other blocks are fetched, and no block that the set held too could make it stay longer.
fn best_set(geometry: &Geometry, start: Start, block: u32) -> LruSet
    ensures blocks { result.blocks ≡ best_list start block }
    ensures ways { result.ways ≡ geometry.now.ways }
{
    let mut set = LruSet::empty(geometry);
    match start {
        Start::Empty => {}
        Start::Any => {
            set.touch(block);
        }
    }
    set
}

fn address_of(nodes: &[Node], number: u32) -> u32
    ensures { result ≡ address_of nodes.now number }
{
    match nodes.get(number as usize) {
        Some(node) => node.at,
        None => 0,
    }
}

// What the set keeps after the fetches of these nodes.
fn kept_after(
    mut kept: LruSet,
    nodes: &[Node],
    geometry: &Geometry,
    path: &[u32],
    set: u32,
) -> LruSet
    requires { kept.ways ≡ geometry.now.ways }
    ensures { result.blocks ≡ contents geometry.now set kept.blocks (map (address_of nodes.now) (reverse path.now)) }
{
    for number in path {
        fetch(&mut kept, geometry, address_of(nodes, *number), set);
    }
    kept
}

// Fetches an address, where its block is one of this set's.
fn fetch(kept: &mut LruSet, geometry: &Geometry, address: u32, set: u32)
    ensures blocks { kept.new.blocks ≡ (let block = block_of geometry.now address in
        if set_of geometry.now block == set then touch kept.old.ways kept.old.blocks block else kept.old.blocks) }
    ensures ways { kept.new.ways ≡ kept.old.ways }
{
    let block = geometry.block(address);
    if geometry.set_of(block) == set {
        kept.touch(block);
    }
}

/// The choices of a path from node 0: a letter at each member but the last that has two successors, `n` where the next
/// member is the first of them and `t` where it is the second.
pub fn choices_of(alloc: Global, graph: &Graph, path: &[u32]) -> Result<Vec<u8>, AllocError>
    requires { IsPath (graph_step graph.now) 0 (reverse path.now) }
    ensures { IfOk result (λ choices.
        HasChoices (graph_step graph.now) (reverse path.now) choices.items) }
{
    let nodes = graph.nodes();
    let mut letters = Vec::new(alloc);
    for index in 1..path.len() {
        push_letter(&mut letters, letter_to(nodes, path[index - 1], path[index]))?;
    }
    Ok(letters)
}

fn push_letter(letters: &mut Vec<u8>, letter: Option<u8>) -> Result<(), AllocError>
    ensures { OnOk result (letters.new.items ≡ letters.old.items ++ option_to_list letter) }
{
    match letter {
        Some(letter) => Ok(letters.push(letter)?),
        None => Ok(()),
    }
}

// The letter of the move from one node to another, where the one has two successors.
fn letter_to(nodes: &[Node], from: u32, to: u32) -> Option<u8>
    ensures { option_to_list result ≡ letter_to (slice_get nodes.now from) to }
{
    let node = nodes.get(from as usize)?;
    match (node.first, node.second) {
        (Some(first), Some(_)) if first == to => Some(b'n'),
        (Some(_), Some(_)) => Some(b't'),
        _ => None,
    }
}
