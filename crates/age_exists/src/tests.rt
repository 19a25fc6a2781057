// Bounds on graphs whose numbers are found by hand.
ghost use Rattle.std.specs.Prelude.{◌≡◌, ◌<◌, true, length, Some};
ghost use Rattle.focus_spec.specs.Younger.{fetch_at};
ghost use Rattle.age_spec.specs.Ages.{AreRows};
ghost use Rattle.age_exists.specs.Columns.{HaveBounds};

use crate::first_paths::first_paths;
use crate::{BlockSolver, HitBounds, MissBounds, exists_hit, exists_miss, unclear};
use age_must_may::{Ages, may, must};
use cache_geom::Geometry;
use cache_spec::Start;
use path_model::{Graph, Node};
use path_trail::Way;
use set_view::{SetView, view};
use std::alloc::{AllocError, Global};
use std::process::Abort;
use std::test::Fail;

pub(crate) fn node(at: u32, first: Option<u32>, second: Option<u32>) -> Node {
    Node { at, first, second }
}

// With lines of 8 bytes and 16 sets, the blocks of set 0 are 0x2000, 0x2010 and 0x2020, with the numbers 0 to 2.
// Block 0 is fetched by nodes 0 and 8. Nodes 3 and 5 are two arms that fetch blocks 1 and 2; then nodes 6 and 7 fetch
// blocks 1 and 2, which a short cut from node 4 can pass by.
pub(crate) fn arms(short_cut: Option<u32>) -> [Node; 9] {
    [
        node(0x10000, Some(1), None),
        node(0x10008, Some(2), Some(3)),
        node(0x1000c, Some(5), None),
        node(0x10080, Some(4), None),
        node(0x10010, Some(6), short_cut),
        node(0x10100, Some(4), None),
        node(0x10084, Some(7), None),
        node(0x10104, Some(8), None),
        node(0x10004, None, None),
    ]
}

// Block 0, then block 1 on one of two ways, then block 2, and block 0 again.
pub(crate) fn detour() -> [Node; 6] {
    [
        node(0x10000, Some(1), None),
        node(0x10008, Some(2), Some(3)),
        node(0x1000c, Some(4), None),
        node(0x10080, Some(4), None),
        node(0x10100, Some(5), None),
        node(0x10004, None, None),
    ]
}

// Three blocks, one after another.
pub(crate) fn line() -> [Node; 3] {
    [
        node(0x10000, Some(1), None),
        node(0x10004, Some(2), None),
        node(0x10008, None, None),
    ]
}

fn letters_of(way: &Option<Way>) -> Option<(u64, &[u8])> {
    match way {
        Some(way) => Some((way.steps, way.choices.letters())),
        None => None,
    }
}

// The must and may ages of a block before a node, and its bounds.
fn numbers_of(
    rt: &impl Abort,
    seen: &SetView,
    must: &Ages,
    may: &Ages,
    hit: &HitBounds,
    miss: &MissBounds,
    node: u32,
    local: u16,
) -> [u32; 4]
    requires must { AreRows seen.now must.now }
    requires may { AreRows seen.now may.now }
    requires hit { HaveBounds seen.now hit.now.columns }
    requires miss { HaveBounds seen.now miss.now.columns }
{
    assert!(rt; (node as usize) < seen.graph().nodes().len());
    assert!(rt; (local as usize) < seen.blocks().len());
    [
        must.age(node, local),
        may.age(node, local),
        hit.bound(node, local),
        miss.bound(node, local),
    ]
}

// The numbers of these nodes and blocks are these, and these blocks are unclear.
fn check(
    rt: &impl Abort,
    alloc: Global,
    seen: &SetView,
    start: Start,
    rows: &[(u32, u16, [u32; 4])],
    jobs: &[u16],
) -> Result<(), AllocError> {
    let must = must(alloc, seen)?;
    let may = may(alloc, seen, start)?;
    let hit = exists_hit(alloc, seen, &must, start)?;
    let miss = exists_miss(alloc, seen, &may, start)?;
    for (node, local, numbers) in rows {
        let found = numbers_of(rt, seen, &must, &may, &hit, &miss, *node, *local);
        assert_eq!(rt; found, *numbers);
    }
    let locals = unclear(alloc, seen, &must, &may, &hit, &miss)?;
    assert_eq!(rt; locals.as_slice(), jobs);
    Ok(())
}

// The way of a hit in a node, from the empty set.
fn hit_way(
    rt: &impl Abort,
    alloc: Global,
    seen: &SetView,
    node: u32,
) -> Result<Option<Way>, AllocError> {
    assert!(rt; (node as usize) < seen.graph().nodes().len());
    assert!(rt; seen.fetch(node).is_some());
    let must = must(alloc, seen)?;
    exists_hit(alloc, seen, &must, Start::Empty)?.way(alloc, seen, node)
}

// The way of a miss in a node, from the empty set.
fn miss_way(
    rt: &impl Abort,
    alloc: Global,
    seen: &SetView,
    node: u32,
) -> Result<Option<Way>, AllocError> {
    assert!(rt; (node as usize) < seen.graph().nodes().len());
    assert!(rt; seen.fetch(node).is_some());
    let may = may(alloc, seen, Start::Empty)?;
    exists_miss(alloc, seen, &may, Start::Empty)?.way(alloc, seen, node)
}

// The path of a hit in a node that fetches a block, from the empty set.
fn hit_path(
    rt: &impl Abort,
    alloc: Global,
    seen: &SetView,
    block: u16,
    node: u32,
) -> Result<Option<Vec<u32>>, AllocError> {
    assert!(rt; (node as usize) < seen.graph().nodes().len());
    assert!(rt; (block as usize) < seen.blocks().len());
    assert!(rt; seen.fetch(node) == Some(block));
    let must = must(alloc, seen)?;
    let may = may(alloc, seen, Start::Empty)?;
    let solver = BlockSolver::new(alloc, seen, Start::Empty, &must, &may)?;
    solver.hit_bounds(alloc, block)?.path(alloc, node)
}

// The path of a miss in a node that fetches a block, from the empty set.
fn miss_path(
    rt: &impl Abort,
    alloc: Global,
    seen: &SetView,
    block: u16,
    node: u32,
) -> Result<Option<Vec<u32>>, AllocError> {
    assert!(rt; (node as usize) < seen.graph().nodes().len());
    assert!(rt; (block as usize) < seen.blocks().len());
    assert!(rt; seen.fetch(node) == Some(block));
    let must = must(alloc, seen)?;
    let may = may(alloc, seen, Start::Empty)?;
    let solver = BlockSolver::new(alloc, seen, Start::Empty, &must, &may)?;
    solver.miss_bounds(alloc, block)?.path(alloc, node)
}

// Whether a node fetches a block.
fn fetches(seen: &SetView, node: u32, block: u16) -> bool
    requires { node < length seen.now.nodes }
    ensures { result ≡ true → fetch_at seen.now.fetches node ≡ Some block }
{
    match seen.fetch(node) {
        Some(other) => other == block,
        None => false,
    }
}

// The first path to a node that fetches a block, from the empty set, where the first paths to this node and to another
// that fetches it attest that it can miss in both.
fn first_missing_path(
    rt: &impl Abort,
    alloc: Global,
    seen: &SetView,
    block: u16,
    other: u32,
    node: u32,
) -> Result<Option<Vec<u32>>, AllocError> {
    assert!(rt; (node as usize) < seen.graph().nodes().len());
    assert!(rt; (other as usize) < seen.graph().nodes().len());
    assert!(rt; (block as usize) < seen.blocks().len());
    assert!(rt; fetches(seen, node, block));
    assert!(rt; fetches(seen, other, block));
    let must = must(alloc, seen)?;
    let may = may(alloc, seen, Start::Empty)?;
    let solver = BlockSolver::new(alloc, seen, Start::Empty, &must, &may)?;
    if !solver.miss_first(alloc, block, &[other, node])? {
        return Ok(None);
    }
    Ok(Some(solver.first_path(alloc, node)?))
}

// The entries of the first paths, as the node before each node.
fn earlier_nodes(alloc: Global, graph: &Graph) -> Result<Vec<Option<u32>>, AllocError> {
    first_paths(alloc, graph)?
        .iter()
        .map(|step| step.earlier)
        .collect(alloc)
}

#[test]
fn arms_leave_one_block_unclear(rt: HostRuntime) -> Result<(), Fail> {
    let alloc = rt.alloc();
    let graph = Graph::new(arms(None).to_vec(alloc)?).expect(&rt, "a graph");
    let geometry = Geometry::new(8, 16, 3).expect(&rt, "in range");
    let seen = view(alloc, &graph, &geometry, 0)?;
    let rows = [
        (6, 0, [1, 1, 1, 1]),
        (7, 0, [2, 1, 2, 1]),
        (8, 0, [3, 2, 3, 2]),
    ];
    check(&rt, alloc, &seen, Start::Empty, &rows, &[0])?;
    Ok(())
}

#[test]
fn both_bounds_settle_a_fetch(rt: HostRuntime) -> Result<(), Fail> {
    let alloc = rt.alloc();
    let graph = Graph::new(detour().to_vec(alloc)?).expect(&rt, "a graph");
    let geometry = Geometry::new(8, 16, 2).expect(&rt, "in range");
    let seen = view(alloc, &graph, &geometry, 0)?;
    check(
        &rt,
        alloc,
        &seen,
        Start::Empty,
        &[(5, 0, [2, 1, 1, 2])],
        &[],
    )?;
    let hit = hit_way(&rt, alloc, &seen, 5)?;
    let miss = miss_way(&rt, alloc, &seen, 5)?;
    assert_eq!(rt; letters_of(&hit), Some((5, b"n".as_slice())));
    assert_eq!(rt; letters_of(&miss), Some((5, b"t".as_slice())));
    Ok(())
}

#[test]
fn one_bound_alone_settles_nothing(rt: HostRuntime) -> Result<(), Fail> {
    let alloc = rt.alloc();
    let graph = Graph::new(arms(Some(8)).to_vec(alloc)?).expect(&rt, "a graph");
    let geometry = Geometry::new(8, 16, 3).expect(&rt, "in range");
    let seen = view(alloc, &graph, &geometry, 0)?;
    check(
        &rt,
        alloc,
        &seen,
        Start::Empty,
        &[(8, 0, [3, 1, 1, 2])],
        &[0],
    )?;
    let path = hit_path(&rt, alloc, &seen, 0, 8)?.expect(&rt, "a path that hits");
    assert_eq!(rt; path.as_slice(), [0, 1, 3, 4, 8].as_slice());
    assert!(rt; miss_path(&rt, alloc, &seen, 0, 8)?.is_none());
    Ok(())
}

#[test]
fn a_first_path_comes_from_the_least_node_that_leads_on(rt: HostRuntime) -> Result<(), Fail> {
    let alloc = rt.alloc();
    let graph = Graph::new(arms(Some(8)).to_vec(alloc)?).expect(&rt, "a graph");
    let earlier = [
        None,
        Some(0),
        Some(1),
        Some(1),
        Some(3),
        Some(2),
        Some(4),
        Some(6),
        Some(4),
    ];
    assert_eq!(rt;
        earlier_nodes(alloc, &graph)?.as_slice(),
        earlier.as_slice()
    );
    Ok(())
}

#[test]
fn an_edge_back_is_on_no_first_path(rt: HostRuntime) -> Result<(), Fail> {
    let alloc = rt.alloc();
    let nodes = [
        node(0x10000, Some(2), Some(1)),
        node(0x10004, Some(0), Some(1)),
        node(0x10008, Some(1), Some(0)),
    ];
    let graph = Graph::new(nodes.to_vec(alloc)?).expect(&rt, "a graph");
    let earlier = [None, Some(0), Some(0)];
    assert_eq!(rt;
        earlier_nodes(alloc, &graph)?.as_slice(),
        earlier.as_slice()
    );
    Ok(())
}

#[test]
fn a_block_that_the_first_path_evicts_misses_again(rt: HostRuntime) -> Result<(), Fail> {
    let alloc = rt.alloc();
    let graph = Graph::new(arms(None).to_vec(alloc)?).expect(&rt, "a graph");
    let geometry = Geometry::new(8, 16, 2).expect(&rt, "in range");
    let seen = view(alloc, &graph, &geometry, 0)?;
    let path = first_missing_path(&rt, alloc, &seen, 0, 0, 8)?.expect(&rt, "a path that misses");
    assert_eq!(rt; path.as_slice(), [0, 1, 3, 4, 6, 7, 8].as_slice());
    let path = first_missing_path(&rt, alloc, &seen, 0, 8, 0)?.expect(&rt, "a path that misses");
    assert_eq!(rt; path.as_slice(), [0].as_slice());
    Ok(())
}

#[test]
fn a_first_path_that_hits_says_nothing_of_others(rt: HostRuntime) -> Result<(), Fail> {
    let alloc = rt.alloc();
    let graph = Graph::new(detour().to_vec(alloc)?).expect(&rt, "a graph");
    let geometry = Geometry::new(8, 16, 2).expect(&rt, "in range");
    let seen = view(alloc, &graph, &geometry, 0)?;
    assert!(rt; first_missing_path(&rt, alloc, &seen, 0, 5, 5)?.is_none());
    assert!(rt; first_missing_path(&rt, alloc, &seen, 0, 0, 5)?.is_none());
    assert!(rt; first_missing_path(&rt, alloc, &seen, 0, 5, 0)?.is_none());
    let path = miss_path(&rt, alloc, &seen, 0, 5)?.expect(&rt, "a path that misses");
    assert_eq!(rt; path.as_slice(), [0, 1, 3, 4, 5].as_slice());
    Ok(())
}

#[test]
fn a_set_that_may_hold_anything_may_hit_at_first(rt: HostRuntime) -> Result<(), Fail> {
    let alloc = rt.alloc();
    let graph = Graph::new(line().to_vec(alloc)?).expect(&rt, "a graph");
    let geometry = Geometry::new(4, 1, 2).expect(&rt, "in range");
    let seen = view(alloc, &graph, &geometry, 0)?;
    let rows = [
        (0, 0, [2, 0, 0, 2]),
        (1, 1, [2, 1, 1, 2]),
        (2, 2, [2, 2, 2, 2]),
    ];
    check(&rt, alloc, &seen, Start::Any, &rows, &[])?;
    Ok(())
}
