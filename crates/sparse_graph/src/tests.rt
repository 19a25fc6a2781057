use crate::{SparseGraph, expand_path, keeps_sets, sparse, sparse_for, sparse_laws};
use cache_geom::Geometry;
use path_model::{Graph, Node, follow};
use std::alloc::{AllocError, Global};
use std::test::Fail;

fn node(at: u32, first: Option<u32>, second: Option<u32>) -> Node {
    Node { at, first, second }
}

fn numbers(alloc: Global, from: &[u32]) -> Result<Vec<u32>, AllocError> {
    from.to_vec(alloc)
}

fn sparse_of<'g>(
    alloc: Global,
    whole: &'g Graph,
    kept: &[u32],
    leads: &[u32],
    ranks: &[u32],
) -> Result<Option<SparseGraph<'g>>, AllocError> {
    sparse(
        alloc,
        whole,
        numbers(alloc, kept)?,
        numbers(alloc, leads)?,
        numbers(alloc, ranks)?,
    )
}

// A branch at node 0 to 1 or 2, which meet at 3; a loop of 3 and 4 without an event of set 1; then 5, and 6 ends.
const NODES: [Node; 7] = [
    Node {
        at: 0x00,
        first: Some(1),
        second: Some(2),
    },
    Node {
        at: 0x04,
        first: Some(3),
        second: None,
    },
    Node {
        at: 0x10,
        first: Some(3),
        second: None,
    },
    Node {
        at: 0x20,
        first: Some(4),
        second: None,
    },
    Node {
        at: 0x24,
        first: Some(5),
        second: Some(3),
    },
    Node {
        at: 0x14,
        first: Some(6),
        second: None,
    },
    Node {
        at: 0x28,
        first: None,
        second: None,
    },
];

#[test]
fn dropped_nodes_lead_to_the_next_kept_one(rt: HostRuntime) -> Result<(), Fail> {
    let alloc = rt.alloc();
    sparse_laws();
    let whole = Graph::new(NODES.to_vec(alloc)?).expect(&rt, "a graph");
    let geometry = Geometry::new(16, 2, 4).expect(&rt, "in range");
    // Nodes 2 and 5 fetch set 1; the loop of 3 and 4 leads to 5 alone, and the end is kept for itself.
    let small = sparse_of(
        alloc,
        &whole,
        &[0, 2, 5, 6],
        &[0, 2, 1, 2, 2, 2, 3],
        &[0, 3, 0, 2, 1, 0, 0],
    )?
    .expect(&rt, "a plan");
    let nodes = [
        node(0x00, Some(2), Some(1)),
        node(0x10, Some(2), None),
        node(0x14, Some(3), None),
        node(0x28, None, None),
    ];
    assert_eq!(rt; small.graph().nodes(), nodes.as_slice());
    assert!(rt; keeps_sets(&small, &geometry, 1, 1 + 1));
    assert!(rt; !keeps_sets(&small, &geometry, 0, 0 + 1));
    assert_eq!(rt; small.origin(2), 5);
    assert_eq!(rt; small.lead(4), 2);
    assert!(rt; small.is_kept(6));
    assert!(rt; !small.is_kept(4));
    Ok(())
}

#[test]
fn what_is_no_plan_is_refused(rt: HostRuntime) -> Result<(), Fail> {
    let alloc = rt.alloc();
    let whole = Graph::new(NODES.to_vec(alloc)?).expect(&rt, "a graph");
    let ranks = [0, 3, 0, 2, 1, 0, 0].as_slice();
    for (kept, leads) in [
        // Node 0 is dropped; kept nodes fall; a lead past the kept node 5; one to a node that no path from there meets;
        // the two successors of node 4 lead apart; too few leads.
        ([2, 5, 6, 6].as_slice(), [0, 1, 0, 1, 1, 1, 2].as_slice()),
        ([0, 5, 2, 6].as_slice(), [0, 1, 2, 1, 1, 1, 3].as_slice()),
        ([0, 2, 5, 6].as_slice(), [0, 2, 1, 3, 3, 2, 3].as_slice()),
        ([0, 2, 5, 6].as_slice(), [0, 1, 1, 2, 2, 2, 3].as_slice()),
        ([0, 2, 3, 5, 6].as_slice(), [0, 2, 1, 2, 3, 3, 4].as_slice()),
        ([0, 2, 5, 6].as_slice(), [0, 2, 1, 2, 2, 2].as_slice()),
    ] {
        assert!(rt; sparse_of(alloc, &whole, kept, leads, ranks)?.is_none());
    }
    // No way out of the loop is nearer.
    let flat = [0; 7].as_slice();
    let leads = [0, 2, 1, 2, 2, 2, 3].as_slice();
    assert!(rt; sparse_of(alloc, &whole, &[0, 2, 5, 6], leads, flat)?.is_none());
    Ok(())
}

#[test]
fn a_loop_that_never_ends_keeps_a_node(rt: HostRuntime) -> Result<(), Fail> {
    let alloc = rt.alloc();
    let geometry = Geometry::new(16, 2, 4).expect(&rt, "in range");
    // Node 0 is an event that nothing follows but a loop of 1 and itself.
    let nodes = [node(0x10, Some(1), None), node(0x20, Some(1), None)];
    let whole = Graph::new(nodes.to_vec(alloc)?).expect(&rt, "a graph");
    assert!(rt; sparse_of(alloc, &whole, &[0], &[0, 0], &[0, 1])?.is_none());
    let small = sparse_of(alloc, &whole, &[0, 1], &[0, 1], &[0, 0])?.expect(&rt, "a plan");
    assert_eq!(rt; small.graph().nodes(), nodes.as_slice());
    assert!(rt; keeps_sets(&small, &geometry, 1, 1 + 1));
    Ok(())
}

#[test]
fn a_loop_over_dropped_nodes_becomes_a_self_loop(rt: HostRuntime) -> Result<(), Fail> {
    let alloc = rt.alloc();
    // Nodes 0 and 1 fetch one block next to each other, 2 leads back to 1, and only 3 fetches set 1.
    let nodes = [
        node(0x00, Some(1), None),
        node(0x04, Some(2), None),
        node(0x08, Some(1), Some(3)),
        node(0x10, None, None),
    ];
    let whole = Graph::new(nodes.to_vec(alloc)?).expect(&rt, "a graph");
    let geometry = Geometry::new(16, 2, 4).expect(&rt, "in range");
    let last = sparse_of(alloc, &whole, &[0, 3], &[0, 1, 1, 1], &[0, 2, 1, 0])?.expect(
        &rt, "a plan",
    );
    let ends = [node(0x00, Some(1), None), node(0x10, None, None)];
    assert_eq!(rt; last.graph().nodes(), ends.as_slice());
    assert!(rt; keeps_sets(&last, &geometry, 1, 1 + 1));
    let both = sparse_of(alloc, &whole, &[0, 1, 2, 3], &[0, 1, 2, 3], &[0; 4])?.expect(
        &rt, "a plan",
    );
    assert_eq!(rt; both.graph().nodes(), nodes.as_slice());
    assert!(rt; keeps_sets(&both, &geometry, 0, 0 + 1));
    Ok(())
}

#[test]
fn a_path_is_expanded_over_dropped_nodes(rt: HostRuntime) -> Result<(), Fail> {
    let alloc = rt.alloc();
    let whole = Graph::new(NODES.to_vec(alloc)?).expect(&rt, "a graph");
    let leads = [0, 2, 1, 2, 2, 2, 3].as_slice();
    let ranks = [0, 3, 0, 2, 1, 0, 0].as_slice();
    let small = sparse_of(alloc, &whole, &[0, 2, 5, 6], leads, ranks)?.expect(&rt, "a plan");
    for (choices, steps, members) in [
        (b"n".as_slice(), 3, [0, 1, 3, 4, 5, 6].as_slice()),
        (b"t".as_slice(), 4, [0, 2, 3, 4, 5, 6].as_slice()),
    ] {
        let path = follow(alloc, small.graph(), choices, steps)?.expect(&rt, "a path");
        assert_eq!(rt; expand_path(alloc, &small, &path)?.as_slice(), members);
    }
    Ok(())
}

#[test]
fn a_graph_for_a_range_of_sets_keeps_what_fetches_them(rt: HostRuntime) -> Result<(), Fail> {
    let alloc = rt.alloc();
    let geometry = Geometry::new(16, 2, 4).expect(&rt, "in range");
    let whole = Graph::new(NODES.to_vec(alloc)?).expect(&rt, "a graph");
    // All but nodes 2 and 5 fetch set 0; those two fetch set 1.
    for (low, high, count) in [(0, 0, 2), (0, 1, 5), (1, 2, 4), (0, 2, 7), (2, 1, 2)] {
        let made = sparse_for(alloc, &whole, &geometry, low, high)?.expect(&rt, "a plan");
        assert_eq!(rt; made.graph().nodes().len(), count);
        assert!(rt; keeps_sets(&made, &geometry, low, high));
    }
    Ok(())
}

#[test]
fn a_set_of_the_last_node_leaves_the_first_and_that(rt: HostRuntime) -> Result<(), Fail> {
    let alloc = rt.alloc();
    let geometry = Geometry::new(16, 4, 4).expect(&rt, "in range");
    let nodes = [
        node(0x00, Some(1), Some(2)),
        node(0x04, Some(3), None),
        node(0x10, Some(3), None),
        node(0x20, None, None),
    ];
    let whole = Graph::new(nodes.to_vec(alloc)?).expect(&rt, "a graph");
    let made = sparse_for(alloc, &whole, &geometry, 2, 4)?.expect(&rt, "a plan");
    let ends = [node(0x00, Some(1), None), node(0x20, None, None)];
    assert_eq!(rt; made.graph().nodes(), ends.as_slice());
    // Node 2 alone fetches set 1; it ends no path, so that its successor is kept too.
    let made = sparse_for(alloc, &whole, &geometry, 1, 2)?.expect(&rt, "a plan");
    let kept = [
        node(0x00, Some(2), Some(1)),
        node(0x10, Some(2), None),
        node(0x20, None, None),
    ];
    assert_eq!(rt; made.graph().nodes(), kept.as_slice());
    Ok(())
}

#[test]
fn loops_that_nothing_leaves_are_drafted(rt: HostRuntime) -> Result<(), Fail> {
    let alloc = rt.alloc();
    let geometry = Geometry::new(16, 2, 4).expect(&rt, "in range");
    // Node 1 leads to itself, and the loop of 2 and 3 leads nowhere else; set 1 is fetched by none.
    let nodes = [
        node(0x00, Some(1), Some(2)),
        node(0x04, Some(1), None),
        node(0x08, Some(3), None),
        node(0x0c, Some(2), None),
    ];
    let whole = Graph::new(nodes.to_vec(alloc)?).expect(&rt, "a graph");
    let made = sparse_for(alloc, &whole, &geometry, 1, 2)?.expect(&rt, "a plan");
    let kept = [
        node(0x00, Some(1), Some(2)),
        node(0x04, Some(1), None),
        node(0x0c, Some(2), None),
    ];
    assert_eq!(rt; made.graph().nodes(), kept.as_slice());
    let both = sparse_for(alloc, &whole, &geometry, 0, 1)?.expect(&rt, "a plan");
    assert_eq!(rt; both.graph().nodes(), nodes.as_slice());
    Ok(())
}

#[test]
fn a_loop_with_two_ways_out_to_one_place_is_dropped(rt: HostRuntime) -> Result<(), Fail> {
    let alloc = rt.alloc();
    let geometry = Geometry::new(16, 2, 4).expect(&rt, "in range");
    // The loop of 1, 2 and 3 is left from 1 and from 2, both times to 4, which alone fetches set 1. From 4 on, 5 goes
    // back to the loop or to the end.
    let nodes = [
        node(0x00, Some(1), None),
        node(0x04, Some(2), Some(4)),
        node(0x08, Some(3), Some(4)),
        node(0x0c, Some(1), None),
        node(0x10, Some(5), None),
        node(0x20, Some(1), Some(6)),
        node(0x24, None, None),
    ];
    let whole = Graph::new(nodes.to_vec(alloc)?).expect(&rt, "a graph");
    let made = sparse_for(alloc, &whole, &geometry, 1, 2)?.expect(&rt, "a plan");
    let kept = [
        node(0x00, Some(1), None),
        node(0x10, Some(2), None),
        node(0x20, Some(1), Some(3)),
        node(0x24, None, None),
    ];
    assert_eq!(rt; made.graph().nodes(), kept.as_slice());
    Ok(())
}
