// Exists-hit bounds that are found from the fetches of a block on, against numbers found by hand and the solver's.
ghost use Rattle.std.specs.Prelude.{◌≡◌, ◌≤◌, length};

use crate::one_block::{found_bounds, own_ages};
use crate::tests::{arms, detour, line, node};
use crate::{BlockBounds, BlockSolver};
use age_must_may::{may, must};
use cache_geom::Geometry;
use cache_spec::Start;
use path_model::{Graph, Node};
use set_view::{SetView, view};
use std::alloc::{AllocError, Global};
use std::process::Abort;
use std::test::Fail;

// Block 0, and block 0 again after block 1 on the way of fewer nodes, or after none of the set.
fn late() -> [Node; 6] {
    [
        node(0x10000, Some(1), Some(2)),
        node(0x10080, Some(4), None),
        node(0x10008, Some(3), None),
        node(0x10010, Some(4), None),
        node(0x10018, Some(5), None),
        node(0x10004, None, None),
    ]
}

// Block 0, then block 1 any number of times, and block 0 again.
fn round() -> [Node; 4] {
    [
        node(0x10000, Some(1), None),
        node(0x10008, Some(2), Some(3)),
        node(0x10080, Some(1), None),
        node(0x10004, None, None),
    ]
}

// The bounds are these.
fn are_bounds(rt: &impl Abort, near: &BlockBounds, bounds: &[u8])
    requires few { length bounds.now ≤ 65536 }
    requires one_each { length bounds.now ≡ length near.now.view.nodes }
{
    for (node, bound) in bounds.iter().enumerate() {
        assert_eq!(rt; near.bound(node as u32), u32::from(*bound));
    }
}

// The bounds of a block are these.
fn check(
    rt: &impl Abort,
    alloc: Global,
    seen: &SetView,
    start: Start,
    block: u16,
    bounds: &[u8],
) -> Result<(), AllocError> {
    assert!(rt; (block as usize) < seen.blocks().len());
    assert!(rt; bounds.len() == seen.graph().nodes().len());
    let must = must(alloc, seen)?;
    let may = may(alloc, seen, start)?;
    let solver = BlockSolver::new(alloc, seen, start, &must, &may)?;
    let near = solver.hit_bounds(alloc, block)?;
    are_bounds(rt, &near, bounds);
    Ok(())
}

// The bounds of each block are those that the solver of all nodes finds.
fn check_each(
    rt: &impl Abort,
    alloc: Global,
    seen: &SetView,
    start: Start,
) -> Result<(), AllocError> {
    let must = must(alloc, seen)?;
    let own = own_ages(alloc, seen, &must)?;
    for block in 0..seen.blocks().len() as u16 {
        let found = found_bounds(alloc, seen, &own, true, start, block)?;
        check(rt, alloc, seen, start, block, &found.bounds)?;
    }
    Ok(())
}

// The same for each start, and for 1 to 4 ways.
fn check_all(rt: &impl Abort, alloc: Global, nodes: &[Node]) -> Result<(), Fail> {
    let graph = Graph::new(nodes.to_vec(alloc)?).expect(rt, "a graph");
    for ways in 1..5 {
        let geometry = Geometry::new(8, 16, ways).expect(rt, "in range");
        let seen = view(alloc, &graph, &geometry, 0)?;
        check_each(rt, alloc, &seen, Start::Empty)?;
        check_each(rt, alloc, &seen, Start::Any)?;
    }
    Ok(())
}

#[test]
fn a_longer_path_lowers_a_bound_again(rt: HostRuntime) -> Result<(), Fail> {
    let alloc = rt.alloc();
    let graph = Graph::new(late().to_vec(alloc)?).expect(&rt, "a graph");
    let geometry = Geometry::new(8, 16, 2).expect(&rt, "in range");
    let seen = view(alloc, &graph, &geometry, 0)?;
    check(&rt, alloc, &seen, Start::Empty, 0, &[2, 0, 0, 0, 0, 0])?;
    check(&rt, alloc, &seen, Start::Any, 0, &[0, 0, 0, 0, 0, 0])?;
    check(&rt, alloc, &seen, Start::Empty, 1, &[2, 2, 2, 2, 0, 0])?;
    check(&rt, alloc, &seen, Start::Any, 1, &[0, 1, 1, 1, 0, 0])?;
    Ok(())
}

#[test]
fn a_loop_leads_back_to_its_fetch(rt: HostRuntime) -> Result<(), Fail> {
    let alloc = rt.alloc();
    let graph = Graph::new(round().to_vec(alloc)?).expect(&rt, "a graph");
    let geometry = Geometry::new(8, 16, 2).expect(&rt, "in range");
    let seen = view(alloc, &graph, &geometry, 0)?;
    check(&rt, alloc, &seen, Start::Empty, 0, &[2, 0, 0, 0])?;
    check(&rt, alloc, &seen, Start::Empty, 1, &[2, 0, 0, 0])?;
    check(&rt, alloc, &seen, Start::Any, 1, &[0, 0, 0, 0])?;
    Ok(())
}

#[test]
fn bounds_near_the_fetches_are_those_of_all_nodes(rt: HostRuntime) -> Result<(), Fail> {
    let alloc = rt.alloc();
    check_all(&rt, alloc, &arms(None))?;
    check_all(&rt, alloc, &arms(Some(8)))?;
    check_all(&rt, alloc, &detour())?;
    check_all(&rt, alloc, &line())?;
    check_all(&rt, alloc, &late())?;
    check_all(&rt, alloc, &round())?;
    Ok(())
}
