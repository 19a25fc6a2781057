ghost use Rattle.std.specs.Prelude.{◌<◌, ◌^◌};

use crate::{SetView, ViewFault, view, view_laws};
use cache_geom::Geometry;
use path_model::{Graph, Node};
use std::alloc::{AllocError, Global};
use std::test::Fail;

fn node(at: u32, first: Option<u32>) -> Node {
    Node {
        at,
        first,
        second: None,
    }
}

// So many nodes, each at the address 4 above the one before, and each leads to the next one.
fn line_of(alloc: Global, count: u32) -> Result<Vec<Node>, AllocError>
    requires { count < 2 ^ 16 }
{
    let mut nodes = Vec::new(alloc);
    for next in 1..count {
        nodes.push(node(4 * next, Some(next)))?;
    }
    nodes.push(node(4 * count, None))?;
    Ok(nodes)
}

// What each node fetches.
fn fetches_of(alloc: Global, view: &SetView) -> Result<Vec<Option<u16>>, AllocError> {
    let mut fetches = Vec::new(alloc);
    for number in 0..view.graph().nodes().len() {
        fetches.push(view.fetch(number as u32))?;
    }
    Ok(fetches)
}

#[test]
fn a_view_has_the_blocks_of_its_set_and_who_fetches_them(rt: HostRuntime) -> Result<(), Fail> {
    let alloc = rt.alloc();
    // Blocks 8, 3, 3, 5, 0 and 8: those of set 0 are even, those of set 1 odd.
    let nodes = [
        node(0x80, Some(1)),
        node(0x30, Some(2)),
        node(0x3c, Some(3)),
        node(0x50, Some(4)),
        node(0x00, Some(5)),
        node(0x84, None),
    ];
    let graph = Graph::new(nodes.to_vec(alloc)?).expect(&rt, "a graph");
    let geometry = Geometry::new(16, 2, 4).expect(&rt, "in range");
    for (set, blocks, fetches) in [
        (0, [0, 8], [Some(1), None, None, None, Some(0), Some(1)]),
        (1, [3, 5], [None, Some(0), Some(0), Some(1), None, None]),
    ] {
        assert!(rt; set < geometry.sets());
        let seen = view(alloc, &graph, &geometry, set)?;
        assert_eq!(rt; seen.blocks(), blocks.as_slice());
        assert_eq!(rt; fetches_of(alloc, &seen)?.as_slice(), fetches.as_slice());
        assert_eq!(rt; seen.ways(), 4);
    }
    view_laws();
    Ok(())
}

#[test]
fn a_view_has_at_most_1024_blocks(rt: HostRuntime) -> Result<(), Fail> {
    let alloc = rt.alloc();
    let geometry = Geometry::new(4, 1, 1).expect(&rt, "in range");
    assert_eq!(rt; geometry.sets(), 1);
    let most = Graph::new(line_of(alloc, 1024)?).expect(&rt, "a graph");
    assert_eq!(rt; view(alloc, &most, &geometry, 0)?.blocks().len(), 1024);
    let more = Graph::new(line_of(alloc, 1025)?).expect(&rt, "a graph");
    match view(alloc, &more, &geometry, 0) {
        Ok(_) => assert!(rt; false, "a view of 1,025 blocks"),
        Err(fault) => assert_eq!(rt;
            fault,
            ViewFault::TooManyBlocks {
                set: 0,
                count: 1025
            }
        ),
    }
    Ok(())
}
