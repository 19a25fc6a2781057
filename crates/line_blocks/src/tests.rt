use crate::making::{each_alone, of_plan};
use crate::{LineBlocks, Run, line_blocks, run_laws, way_of};
use cache_geom::Geometry;
use path_model::{Graph, Node, follow};
use std::alloc::{AllocError, Global};
use std::test::Fail;

// Two nodes, and a loop of two.
const LOOP: [(u32, Option<u32>, Option<u32>); 5] = [
    (0, Some(1), None),
    (4, Some(2), None),
    (8, Some(3), None),
    (12, Some(4), Some(2)),
    (16, None, None),
];

fn graph_of(
    alloc: Global,
    nodes: &[(u32, Option<u32>, Option<u32>)],
) -> Result<Option<Graph>, AllocError> {
    let mut list = Vec::new(alloc);
    for (at, first, second) in nodes {
        list.push(Node {
            at: *at,
            first: *first,
            second: *second,
        })?;
    }
    Ok(Graph::new(list))
}

fn span(head: u32, last: u32) -> Run {
    Run { head, last }
}

// The nodes of the small graph, without their addresses.
fn edges(blocks: &LineBlocks, number: usize) -> (Option<u32>, Option<u32>) {
    match blocks.small().nodes().get(number) {
        Some(node) => (node.first, node.second),
        None => (None, None),
    }
}

#[test]
fn a_branch_into_a_line_begins_a_run(rt: HostRuntime) -> Result<(), Fail> {
    let alloc = rt.alloc();
    let geometry = Geometry::new(16, 1, 1).expect(&rt, "in range");
    let graph = graph_of(alloc, &LOOP)?.expect(&rt, "a graph");
    let blocks = line_blocks(alloc, &graph, &geometry)?;
    let wanted = [span(0, 1), span(2, 3), span(4, 4)];
    assert_eq!(rt; blocks.runs(), wanted.as_slice());
    assert_eq!(rt; edges(&blocks, 0), (Some(1), None));
    assert_eq!(rt; edges(&blocks, 1), (Some(2), Some(1)));
    assert_eq!(rt; blocks.run_of(3), 1);
    assert_eq!(rt; blocks.origin(1), 2);
    assert!(rt; blocks.is_head(2) && !blocks.is_head(3));
    assert_eq!(rt; blocks.whole().nodes().len(), 5);
    run_laws();
    Ok(())
}

#[test]
fn runs_end_where_a_line_does_or_a_loop_begins(rt: HostRuntime) -> Result<(), Fail> {
    let alloc = rt.alloc();
    let geometry = Geometry::new(16, 1, 1).expect(&rt, "in range");
    for (nodes, wanted) in [
        // Two lines, one after the other.
        (
            [(0, Some(1), None), (16, Some(2), None), (4, None, None)],
            [span(0, 0), span(1, 1), span(2, 2)].as_slice(),
        ),
        // Node 1 follows itself.
        (
            [(0, Some(1), None), (4, Some(2), Some(1)), (8, None, None)],
            [span(0, 0), span(1, 1), span(2, 2)].as_slice(),
        ),
        // Node 0 is in a loop.
        (
            [(0, Some(1), None), (4, Some(2), None), (8, Some(0), None)],
            [span(0, 2)].as_slice(),
        ),
        // Both sides of a branch are in its line.
        (
            [(0, Some(1), Some(2)), (4, Some(2), None), (8, None, None)],
            [span(0, 0), span(1, 1), span(2, 2)].as_slice(),
        ),
    ] {
        let graph = graph_of(alloc, &nodes)?.expect(&rt, "a graph");
        let blocks = line_blocks(alloc, &graph, &geometry)?;
        assert_eq!(rt; blocks.runs(), wanted);
    }
    Ok(())
}

#[test]
fn the_way_of_a_path_of_runs_names_that_of_their_nodes(rt: HostRuntime) -> Result<(), Fail> {
    let alloc = rt.alloc();
    let geometry = Geometry::new(8, 1, 1).expect(&rt, "in range");
    let graph = graph_of(alloc, &LOOP)?.expect(&rt, "a graph");
    let blocks = line_blocks(alloc, &graph, &geometry)?;
    for (choices, steps, members) in [
        (b"".as_slice(), 1, [0].as_slice()),
        (b"n".as_slice(), 3, [0, 1, 2, 3, 4].as_slice()),
        (b"t".as_slice(), 3, [0, 1, 2, 3, 2].as_slice()),
        (b"tn".as_slice(), 4, [0, 1, 2, 3, 2, 3, 4].as_slice()),
    ] {
        let path = follow(alloc, blocks.small(), choices, steps)?.expect(&rt, "a path");
        let way = way_of(alloc, &blocks, &path)?;
        let whole = follow(alloc, &graph, way.choices.letters(), way.steps)?;
        assert_eq!(rt; whole.expect(&rt, "a path").as_slice(), members);
    }
    Ok(())
}

#[test]
fn each_node_alone_is_a_plan(rt: HostRuntime) -> Result<(), Fail> {
    let alloc = rt.alloc();
    let geometry = Geometry::new(8, 1, 1).expect(&rt, "in range");
    let graph = graph_of(alloc, &LOOP)?.expect(&rt, "a graph");
    let each = [span(0, 0), span(1, 1), span(2, 2), span(3, 3), span(4, 4)];
    let alone = each_alone(alloc, &graph, &geometry)?;
    assert_eq!(rt; alone.runs(), each.as_slice());
    Ok(())
}

#[test]
fn a_wrong_plan_is_none(rt: HostRuntime) -> Result<(), Fail> {
    let alloc = rt.alloc();
    let graph = graph_of(alloc, &LOOP)?.expect(&rt, "a graph");
    for (line, numbers, runs, wanted) in [
        (
            8,
            [0, 0, 1, 1, 2],
            [span(0, 1), span(2, 3), span(4, 4)].as_slice(),
            true,
        ),
        // Two lines in one run.
        (
            8,
            [0, 0, 0, 0, 1],
            [span(0, 3), span(4, 4)].as_slice(),
            false,
        ),
        // The same in one line: node 3 leads into the middle of the run.
        (
            16,
            [0, 0, 0, 0, 1],
            [span(0, 3), span(4, 4)].as_slice(),
            false,
        ),
        // A node of no run.
        (
            8,
            [0, 0, 1, 1, 2],
            [span(0, 1), span(2, 3)].as_slice(),
            false,
        ),
    ] {
        let geometry = Geometry::new(line, 1, 1).expect(&rt, "in range");
        let numbers = numbers.to_vec(alloc)?;
        let made = of_plan(alloc, &graph, &geometry, numbers, runs.to_vec(alloc)?)?;
        assert_eq!(rt; made.is_some(), wanted);
    }
    Ok(())
}
