// Ages on graphs whose numbers are found by hand.
ghost use Rattle.age_spec.specs.Ages.{AreRows};

use crate::{Ages, may, must};
use cache_geom::Geometry;
use cache_spec::Start;
use path_model::{Graph, Node};
use set_view::{SetView, view};
use std::process::Abort;
use std::test::Fail;

fn node(at: u32, first: Option<u32>, second: Option<u32>) -> Node {
    Node { at, first, second }
}

// With lines of 8 bytes and 16 sets, the blocks of set 0 are 0x2000, 0x2010 and 0x2020, with the numbers 0 to 2. Nodes 3
// and 5 are two arms that fetch blocks 1 and 2; then blocks 1, 2 and 0 are fetched by nodes 6, 7 and 8.
fn arms() -> [Node; 9] {
    [
        node(0x10000, Some(1), None),
        node(0x10008, Some(2), Some(3)),
        node(0x1000c, Some(5), None),
        node(0x10080, Some(4), None),
        node(0x10010, Some(6), None),
        node(0x10100, Some(4), None),
        node(0x10084, Some(7), None),
        node(0x10104, Some(8), None),
        node(0x10004, None, None),
    ]
}

// Three blocks, one after another, and from the last one back to the second.
fn lap() -> [Node; 3] {
    [
        node(0x00, Some(1), None),
        node(0x04, Some(2), None),
        node(0x08, Some(1), None),
    ]
}

// The ages of the three blocks of a view before a node.
fn ages_before(rt: &impl Abort, seen: &SetView, ages: &Ages, node: u32) -> [u32; 3]
    requires { AreRows seen.now ages.now }
{
    assert!(rt; (node as usize) < seen.graph().nodes().len());
    assert!(rt; seen.blocks().len() == 3);
    [ages.age(node, 0), ages.age(node, 1), ages.age(node, 2)]
}

#[test]
fn ages_bound_where_arms_meet(rt: HostRuntime) -> Result<(), Fail> {
    let alloc = rt.alloc();
    let graph = Graph::new(arms().to_vec(alloc)?).expect(&rt, "a graph");
    let geometry = Geometry::new(8, 16, 3).expect(&rt, "in range");
    let seen = view(alloc, &graph, &geometry, 0)?;
    let must = must(alloc, &seen)?;
    let may = may(alloc, &seen, Start::Empty)?;
    for (node, must_ages, may_ages) in [
        (0, [3, 3, 3], [3, 3, 3]),
        (3, [0, 3, 3], [0, 3, 3]),
        (5, [0, 3, 3], [0, 3, 3]),
        (4, [1, 3, 3], [1, 0, 0]),
        (6, [1, 3, 3], [1, 0, 0]),
        (7, [2, 0, 3], [1, 0, 1]),
        (8, [3, 1, 0], [2, 1, 0]),
    ] {
        assert_eq!(rt; ages_before(&rt, &seen, &must, node), must_ages);
        assert_eq!(rt; ages_before(&rt, &seen, &may, node), may_ages);
    }
    Ok(())
}

#[test]
fn any_block_may_be_kept_at_first(rt: HostRuntime) -> Result<(), Fail> {
    let alloc = rt.alloc();
    let graph = Graph::new(arms().to_vec(alloc)?).expect(&rt, "a graph");
    let geometry = Geometry::new(8, 16, 3).expect(&rt, "in range");
    let seen = view(alloc, &graph, &geometry, 0)?;
    let may = may(alloc, &seen, Start::Any)?;
    for (node, may_ages) in [
        (0, [0, 0, 0]),
        (3, [0, 1, 1]),
        (5, [0, 1, 1]),
        (4, [1, 0, 0]),
        (7, [1, 0, 1]),
        (8, [2, 1, 0]),
    ] {
        assert_eq!(rt; ages_before(&rt, &seen, &may, node), may_ages);
    }
    Ok(())
}

#[test]
fn ages_meet_at_a_way_back(rt: HostRuntime) -> Result<(), Fail> {
    let alloc = rt.alloc();
    let graph = Graph::new(lap().to_vec(alloc)?).expect(&rt, "a graph");
    let geometry = Geometry::new(4, 1, 2).expect(&rt, "in range");
    let seen = view(alloc, &graph, &geometry, 0)?;
    let must = must(alloc, &seen)?;
    let empty = may(alloc, &seen, Start::Empty)?;
    let any = may(alloc, &seen, Start::Any)?;
    for (node, must_ages, empty_ages, any_ages) in [
        (0, [2, 2, 2], [2, 2, 2], [0, 0, 0]),
        (1, [2, 2, 2], [0, 1, 0], [0, 1, 0]),
        (2, [2, 0, 2], [1, 0, 1], [1, 0, 1]),
    ] {
        assert_eq!(rt; ages_before(&rt, &seen, &must, node), must_ages);
        assert_eq!(rt; ages_before(&rt, &seen, &empty, node), empty_ages);
        assert_eq!(rt; ages_before(&rt, &seen, &any, node), any_ages);
    }
    Ok(())
}
