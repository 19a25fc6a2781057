use crate::{
    Graph, Node, Start, can_hit, choice_laws, choices_of, ends_in_hit, follow, graph_laws,
};
use cache_geom::Geometry;
use std::alloc::{AllocError, Global};
use std::test::Fail;

fn node(at: u32, first: Option<u32>, second: Option<u32>) -> Node {
    Node { at, first, second }
}

// Three words: after the second stands the third or the first again, and the third has none.
const LOOP: [Node; 3] = [
    Node {
        at: 0x10000,
        first: Some(1),
        second: None,
    },
    Node {
        at: 0x10004,
        first: Some(2),
        second: Some(0),
    },
    Node {
        at: 0x10008,
        first: None,
        second: None,
    },
];

fn graph_of(alloc: Global, nodes: &[Node]) -> Result<Option<Graph>, AllocError> {
    Ok(Graph::new(nodes.to_vec(alloc)?))
}

// Each node leads to the next one.
fn chain(alloc: Global, count: u32) -> Result<Vec<Node>, AllocError> {
    let mut nodes = Vec::new(alloc);
    for next in 1..count {
        nodes.push(node(0, Some(next), None))?;
    }
    nodes.push(node(0, None, None))?;
    Ok(nodes)
}

#[test]
fn each_fault_makes_no_graph(rt: HostRuntime) -> Result<(), Fail> {
    let alloc = rt.alloc();
    let end = node(0, None, None);
    for nodes in [
        [].as_slice(),
        [node(0, Some(1), None)].as_slice(),
        [node(0, Some(0), Some(1))].as_slice(),
        [node(0, None, Some(0))].as_slice(),
        [node(0, Some(0), Some(0))].as_slice(),
        [end, end].as_slice(),
        [node(0, Some(2), None), end, node(0, Some(1), None)].as_slice(),
    ] {
        assert!(rt; graph_of(alloc, nodes)?.is_none(), "{nodes:?}");
    }
    Ok(())
}

#[test]
fn a_graph_has_at_most_65536_nodes(rt: HostRuntime) -> Result<(), Fail> {
    let alloc = rt.alloc();
    assert!(rt; Graph::new(chain(alloc, 65_536)?).is_some());
    assert!(rt; Graph::new(chain(alloc, 65_537)?).is_none());
    Ok(())
}

#[test]
fn a_graph_keeps_its_nodes(rt: HostRuntime) -> Result<(), Fail> {
    let graph = graph_of(rt.alloc(), &LOOP)?.expect(&rt, "a graph");
    assert_eq!(rt; graph.nodes(), LOOP.as_slice());
    graph_laws();
    Ok(())
}

#[test]
fn a_path_ends_in_a_hit_where_its_block_is_still_kept(rt: HostRuntime) -> Result<(), Fail> {
    let graph = graph_of(rt.alloc(), &LOOP)?.expect(&rt, "a graph");
    let geometry = Geometry::new(4, 1, 2).expect(&rt, "in range");
    assert!(rt; ends_in_hit(&graph, &geometry, &[0, 1, 0]));
    assert!(rt; !ends_in_hit(&graph, &geometry, &[0, 1, 2]));
    assert!(rt; !ends_in_hit(&graph, &geometry, &[]));
    Ok(())
}

#[test]
fn a_path_can_hit_where_its_block_may_still_be_kept(rt: HostRuntime) -> Result<(), Fail> {
    let graph = graph_of(rt.alloc(), &LOOP)?.expect(&rt, "a graph");
    let geometry = Geometry::new(4, 1, 2).expect(&rt, "in range");
    for (path, from_empty, from_any) in [
        ([].as_slice(), false, false),
        ([0].as_slice(), false, true),
        ([0, 1].as_slice(), false, true),
        ([0, 1, 0].as_slice(), true, true),
        // The two blocks fetched before fill the set.
        ([0, 1, 2].as_slice(), false, false),
    ] {
        assert_eq!(rt;
            can_hit(&graph, &geometry, Start::Empty, path),
            from_empty,
            "{path:?}"
        );
        assert_eq!(rt;
            can_hit(&graph, &geometry, Start::Any, path),
            from_any,
            "{path:?}"
        );
    }
    Ok(())
}

#[test]
fn only_fetches_of_its_set_push_a_block_out(rt: HostRuntime) -> Result<(), Fail> {
    let graph = graph_of(rt.alloc(), &LOOP)?.expect(&rt, "a graph");
    // The words at 0x10000 and 0x10008 share a set of one way.
    let geometry = Geometry::new(4, 2, 1).expect(&rt, "in range");
    assert!(rt; can_hit(&graph, &geometry, Start::Any, &[0, 1]));
    assert!(rt; !can_hit(&graph, &geometry, Start::Any, &[0, 1, 2]));
    Ok(())
}

#[test]
fn choices_and_steps_name_a_path_that_has_those_choices(rt: HostRuntime) -> Result<(), Fail> {
    let alloc = rt.alloc();
    let graph = graph_of(alloc, &LOOP)?.expect(&rt, "a graph");
    for (choices, steps, members) in [
        (b"t".as_slice(), 4, [0, 1, 0, 1].as_slice()),
        (b"n".as_slice(), 3, [0, 1, 2].as_slice()),
    ] {
        match follow(alloc, &graph, choices, steps)? {
            None => assert!(rt; false, "a path of {steps} members"),
            Some(path) => {
                assert_eq!(rt; path.as_slice(), members);
                assert_eq!(rt; choices_of(alloc, &graph, &path)?.as_slice(), choices);
            }
        }
    }
    Ok(())
}

#[test]
fn some_choices_and_steps_name_no_path(rt: HostRuntime) -> Result<(), Fail> {
    let alloc = rt.alloc();
    let graph = graph_of(alloc, &LOOP)?.expect(&rt, "a graph");
    for (choices, steps) in [
        (b"".as_slice(), 0),
        (b"n".as_slice(), 4),
        (b"tt".as_slice(), 4),
        (b"".as_slice(), 3),
        (b"x".as_slice(), 3),
        (b"t".as_slice(), u64::MAX),
    ] {
        assert!(rt;
            follow(alloc, &graph, choices, steps)?.is_none(),
            "{choices:?} {steps}"
        );
    }
    Ok(())
}

// Two loops that meet: words at eight addresses, with branches at the second and a long way round by each.
fn two_ways(alloc: Global) -> Result<Vec<Node>, AllocError> {
    let mut nodes = Vec::new(alloc);
    for (at, first, second) in [
        (0x10000, Some(1), None),
        (0x10008, Some(2), Some(3)),
        (0x1000c, Some(5), None),
        (0x10080, Some(4), None),
        (0x10010, Some(6), None),
        (0x10100, Some(4), None),
        (0x10084, Some(7), None),
        (0x10104, Some(8), None),
        (0x10004, None, None),
    ] {
        nodes.push(node(at, first, second))?;
    }
    Ok(nodes)
}

#[test]
fn the_choices_of_a_followed_path_are_those_that_it_was_followed_by(
    rt: HostRuntime,
) -> Result<(), Fail> {
    let alloc = rt.alloc();
    let graph = graph_of(alloc, &two_ways(alloc)?)?.expect(&rt, "a graph");
    for (letters, steps) in [(b"n", 6), (b"t", 5), (b"n", 7), (b"t", 7)] {
        let path = follow(alloc, &graph, letters, steps)?.expect(&rt, "a path");
        assert_eq!(rt;
            choices_of(alloc, &graph, &path)?.as_slice(),
            letters.as_slice()
        );
    }
    let hit = follow(alloc, &graph, b"t", 5)?.expect(&rt, "a path");
    assert_eq!(rt; hit.as_slice(), [0, 1, 3, 4, 6].as_slice());
    let miss = follow(alloc, &graph, b"n", 6)?.expect(&rt, "a path");
    assert_eq!(rt; miss.as_slice(), [0, 1, 2, 5, 4, 6].as_slice());
    let geometry = Geometry::new(8, 16, 3).expect(&rt, "in range");
    assert!(rt; ends_in_hit(&graph, &geometry, &hit));
    assert!(rt; !ends_in_hit(&graph, &geometry, &miss));
    choice_laws();
    Ok(())
}
