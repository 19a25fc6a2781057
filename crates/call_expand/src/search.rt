ghost use Rattle.std.specs.Prelude.{◌≡◌, true, ◌⊎◌, ◌+◌, ◌*◌, ◌^◌, ◌<◌, ◌≤◌, List, ◌++◌, length, drop, flat_map, IsFalse, Err, IfOk, IfErr, OnOk};
ghost use Rattle.std.specs.Option.{option_to_list};
ghost use Rattle.std.specs.List.{AllByRecursion};
ghost use Rattle.std.specs.List.Sorted.{IsPermutation, IsSorted};
ghost use Rattle.transition_spec.specs.Layer.{all_of};
ghost use Rattle.flow_spec.specs.Configuration.{Configuration};
ghost use Rattle.flow_spec.specs.Instruction.{IsText};
ghost use Rattle.flow_spec.specs.Program.{program};
ghost use Rattle.flow_spec.specs.Successors.{successors};
ghost use Rattle.flow_spec.specs.Transfer.{is_good_target};
ghost use Rattle.flow_spec.specs.Acceptance.{IsAccepted, IsRefused, is_good_entry};
ghost use Rattle.frame_stacks.specs.Stacks.{AreCells, frames_of};
ghost use Rattle.call_expand.specs.Expansion.{IsGraphOf};
ghost use Rattle.call_expand.specs.Point.{fetched_by, point_cmp, points_of};
ghost use Rattle.call_expand.specs.Numbers.{AreNodesFor, IsNodeFor, HasNumber, AreAmong, AreNumbered};
ghost use Rattle.call_expand.specs.Search.{IsSearchAt};

use crate::Expanded;
use crate::follow::follow_from;
use crate::known::Known;
use crate::point::{Edges, Point};
use crate::program::Program;
use elf_image::Image;
use flow_spec::{FlowFault, Isa};
use frame_stacks::Stacks;
use path_model::{Graph, Node};
use std::alloc::{AllocError, Global};
use std::cmp::Ordering;

// As many configurations as an accepted program can have.
const LIMIT: u32 = 65_536;

// The configurations so far, and the edges of those that were followed.
#[derive(Drop)]
struct Search {
    stacks: Stacks,
    known: Known,
    edges: Vec<Edges>,
}

/// All configurations of the program that begins at the entry, and their graph. Its instructions are those of `isa`,
/// and are fetched from cache lines of `line` bytes.
///
/// The configurations are numbered by layer, then address, then frames, then part. The errors are those of a refused
/// program: first `BadEntry`; then, layer by layer, the fault of the first faulty configuration of the layer, else
/// `TooManyFetches` where this layer, those before it and the next have more than 65,536 configurations together.
/// Besides these, `OutOfMemory`.
pub fn expand(
    alloc: Global,
    image: &Image,
    entry: u32,
    isa: Isa,
    line: u32,
) -> Result<Expanded, FlowFault>
    requires { 0 < line }
    ensures accepted { IfOk result (λ expanded. (layers : List (List Configuration))
        × IsAccepted (successors (program image.now isa line entry)) (program image.now isa line entry) layers
        × (expanded.configurations ≡ all_of layers)) }
    ensures graph { IfOk result (λ expanded.
        IsGraphOf (successors (program image.now isa line entry)) entry expanded.configurations expanded.nodes) }
    ensures text { IfOk result (λ expanded. AllByRecursion (λ c. IsText isa image.now c.at) expanded.configurations) }
    ensures bad_entry { IsFalse (is_good_target isa image.now entry) → result ≡ Err (FlowFault.BadEntry entry) }
    ensures refused { IfErr result (λ fault. (fault ≡ FlowFault.OutOfMemory)
        ⊎ IsRefused (successors (program image.now isa line entry)) (program image.now isa line entry) fault) }
{
    let program = Program {
        image,
        isa,
        line,
        entry,
    };
    if !program.has_good_entry() {
        return Err(FlowFault::BadEntry { entry });
    }
    let mut search = begin(alloc, &program)?;
    let mut start = 0;
    while start < search.known.points().len() {
        let end = search.known.points().len();
        next_layer(alloc, &program, &mut search, start)?;
        start = end;
    }
    Ok(finish(alloc, &program, search)?)
}

fn begin(alloc: Global, program: &Program) -> Result<Search, AllocError>
    requires { is_good_entry program.now ≡ true }
    ensures { IfOk result (λ search. IsSearchAt program.now search 0) }
{
    let mut known = Known::empty(alloc);
    known.add(Point {
        at: program.entry(),
        part: 0,
        stack: 0,
    })?;
    Ok(Search {
        stacks: Stacks::empty(alloc),
        known,
        edges: Vec::new(alloc),
    })
}

// Follows the layer that begins with the number `start`, and numbers the next one.
fn next_layer(
    alloc: Global,
    program: &Program,
    search: &mut Search,
    start: usize,
) -> Result<(), FlowFault>
    requires at { IsSearchAt program.now search.old start }
    requires some { start < length search.old.known }
    ensures at { OnOk result (IsSearchAt program.now search.new (length search.old.known)) }
    ensures refused { IfErr result (λ fault. (fault ≡ FlowFault.OutOfMemory)
        ⊎ IsRefused (successors program.now) program.now fault) }
{
    let Search {
        stacks,
        known,
        edges,
    } = search;
    follow_from(program, stacks, known.points(), start, edges)?;
    number_from(alloc, stacks, edges, start, known)?;
    if known.points().len() > LIMIT as usize {
        return Err(FlowFault::TooManyFetches { limit: LIMIT });
    }
    Ok(())
}

// Numbers the new points that the edges from index `start` on lead to.
fn number_from(
    alloc: Global,
    stacks: &Stacks,
    edges: &[Edges],
    start: usize,
    known: &mut Known,
) -> Result<(), AllocError>
    requires within { start ≤ length edges.now }
    requires room { length known.old + 2 * length edges.now < 2 ^ 32 }
    ensures numbered { OnOk result (AreNumbered stacks.now (drop start edges.now) known.old known.new) }
    ensures cells { OnOk result (AreCells stacks.now) }
{
    let mut found = found_from(alloc, edges, start)?;
    sort(stacks, &mut found);
    known.add_new(&found)
}

// The points that the edges from index `start` on lead to.
fn found_from(alloc: Global, edges: &[Edges], start: usize) -> Result<Vec<Point>, AllocError>
    requires { start ≤ length edges.now }
    ensures { IfOk result (λ found. found.items ≡ flat_map points_of (drop start edges.now)) }
{
    found_by(alloc, &edges[start..])
}

fn found_by(alloc: Global, edges: &[Edges]) -> Result<Vec<Point>, AllocError>
    ensures { IfOk result (λ found. found.items ≡ flat_map points_of edges.now) }
{
    let mut found = Vec::new(alloc);
    for edge in edges {
        push_some(&mut found, edge.first)?;
        push_some(&mut found, edge.second)?;
    }
    Ok(found)
}

fn push_some(found: &mut Vec<Point>, point: Option<Point>) -> Result<(), AllocError>
    ensures { OnOk result (found.new.items ≡ found.old.items ++ option_to_list point) }
{
    match point {
        Some(point) => Ok(found.push(point)?),
        None => Ok(()),
    }
}

// By address, then by frames, then by part.
fn sort(stacks: &Stacks, found: &mut Vec<Point>)
    ensures same { IsPermutation found.old.items found.new.items }
    ensures sorted { IsSorted (point_cmp stacks.now) found.new.items }
    ensures cells { AreCells stacks.now }
{
    // What the cells keep is what makes the order tell any two points apart.
    let _cells = stacks.cells();
    found.sort_unstable_by(|a, b| compare(stacks, *a, *b));
}

fn compare(stacks: &Stacks, a: Point, b: Point) -> Ordering
    ensures { result ≡ point_cmp stacks.now a b }
{
    let by_place = match a.at.cmp(&b.at) {
        Ordering::Equal => stacks.compare(stack_of(stacks, a), stack_of(stacks, b)),
        other => other,
    };
    by_place.then(a.part.cmp(&b.part))
}

// The point's stack, or the one without frames where there is no such stack.
fn stack_of(stacks: &Stacks, point: Point) -> u32
    ensures known { result ≤ length stacks.now }
    ensures frames { frames_of stacks.now result ≡ frames_of stacks.now point.stack }
{
    if point.stack as usize <= stacks.cells().len() {
        point.stack
    } else {
        0
    }
}

fn finish(alloc: Global, program: &Program, search: Search) -> Result<Expanded, AllocError>
    requires { IsSearchAt program.now search (length search.known) }
    ensures accepted { IfOk result (λ expanded. (layers : List (List Configuration))
        × IsAccepted (successors program.now) program.now layers
        × (expanded.configurations ≡ all_of layers)) }
    ensures graph { IfOk result (λ expanded.
        IsGraphOf (successors program.now) program.now.entry expanded.configurations expanded.nodes) }
    ensures text { IfOk result (λ expanded.
        AllByRecursion (λ c. IsText program.now.isa program.now.image c.at) expanded.configurations) }
{
    let Search {
        stacks,
        known,
        edges,
    } = search;
    let nodes = nodes_of(alloc, &known, &edges)?;
    let points = known.into_points();
    let graph = Graph::new(nodes).unwrap();
    Ok(Expanded::new(graph, points, stacks))
}

fn nodes_of(alloc: Global, known: &Known, edges: &[Edges]) -> Result<Vec<Node>, AllocError>
    requires each { length edges.now ≡ length known.now }
    requires among { AreAmong known.now (flat_map points_of edges.now) }
    requires fit { AllByRecursion (λ point. fetched_by point < 2 ^ 32) known.now }
    ensures { IfOk result (λ nodes. AreNodesFor known.now known.now edges.now nodes.items) }
{
    let points = known.points();
    let mut nodes = Vec::with_capacity(alloc, edges.len())?;
    for index in 0..edges.len() {
        nodes.push(node_of(known, points[index], edges[index]))?;
    }
    Ok(nodes)
}

fn node_of(known: &Known, point: Point, edges: Edges) -> Node
    requires among { AreAmong known.now (points_of edges) }
    requires fits { fetched_by point < 2 ^ 32 }
    ensures { IsNodeFor known.now point edges result }
{
    Node {
        at: point.at + 2 * u32::from(point.part),
        first: number_of(known, edges.first),
        second: number_of(known, edges.second),
    }
}

fn number_of(known: &Known, point: Option<Point>) -> Option<u32>
    requires among { AreAmong known.now (option_to_list point) }
    ensures { HasNumber known.now point result }
{
    known.number_of(point?)
}
