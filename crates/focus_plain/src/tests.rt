ghost use Rattle.std.specs.Prelude.{◌<◌, length};

use crate::{Classification, judge, settle};
use cache_geom::Geometry;
use path_model::{Graph, Node, Start, can_hit, ends_in_hit, follow};
use path_trail::Way;
use plain_family::PlainFamily;
use set_view::{SetView, view};
use std::alloc::Global;
use std::test::Fail;

// Blocks 0 and 1, then back to the first node or on to block 0 again.
const LOOP: [Node; 3] = [
    Node {
        at: 0,
        first: Some(1),
        second: None,
    },
    Node {
        at: 4,
        first: Some(2),
        second: Some(0),
    },
    Node {
        at: 0,
        first: None,
        second: None,
    },
];

// Block 0, then block 1, or blocks 2 and 3, and then block 0 again.
const FORK: [Node; 5] = [
    Node {
        at: 0,
        first: Some(1),
        second: Some(2),
    },
    Node {
        at: 4,
        first: Some(3),
        second: None,
    },
    Node {
        at: 8,
        first: Some(4),
        second: None,
    },
    Node {
        at: 0,
        first: None,
        second: None,
    },
    Node {
        at: 12,
        first: Some(3),
        second: None,
    },
];

// Whether this way leads to the node, and can hit there, or miss, as it should.
fn leads(
    alloc: Global,
    graph: &Graph,
    geometry: &Geometry,
    start: Start,
    way: &Way,
    node: u32,
    hits: bool,
) -> Result<bool, Fail> {
    let Some(path) = follow(alloc, graph, way.choices.letters(), way.steps)? else {
        return Ok(false);
    };
    let can = if hits {
        can_hit(graph, geometry, start, &path)
    } else {
        !ends_in_hit(graph, geometry, &path)
    };
    Ok(can && path.last() == Some(&node))
}

// Whether this path ends in the node, and can hit there, or miss, as it should.
fn ends(
    graph: &Graph,
    geometry: &Geometry,
    start: Start,
    path: &[u32],
    node: u32,
    hits: bool,
) -> bool {
    let can = if hits {
        can_hit(graph, geometry, start, path)
    } else {
        !ends_in_hit(graph, geometry, path)
    };
    can && path.last() == Some(&node)
}

// The classification that has this letter.
fn of_letter(letter: char) -> Classification {
    match letter {
        'h' => Classification::Hits,
        'm' => Classification::Misses,
        _ => Classification::Both,
    }
}

// Whether the node is judged as this letter says, with a path to a hit and one to a miss exactly where there should be
// one.
fn is_judged(
    alloc: Global,
    seen: &SetView,
    geometry: &Geometry,
    block: u16,
    start: Start,
    expected: (u32, char),
) -> Result<bool, Fail>
    requires { block < length seen.now.blocks }
{
    let (node, kind) = expected;
    let judged = judge(alloc, seen, block, start)?;
    if node as usize >= seen.graph().nodes().len() || seen.fetch(node) != Some(block) {
        return Ok(false);
    }
    let mut right = judged.classification(node) == of_letter(kind);
    for (hits, never) in [(true, 'm'), (false, 'h')] {
        right = right
            && match judged.path(alloc, node, hits)? {
                Some(path) => kind != never
                    && ends(seen.graph(), geometry, start, &path, node, hits),
                None => kind == never,
            };
    }
    Ok(right)
}

#[test]
fn a_node_is_judged_by_all_paths_that_end_there(rt: HostRuntime) -> Result<(), Fail> {
    let alloc = rt.alloc();
    let empty = Start::Empty;
    let any = Start::Any;
    for (nodes, ways, block, start, first, last) in [
        (LOOP.as_slice(), 1, 0, empty, (0, 'm'), (2, 'm')),
        (LOOP.as_slice(), 1, 0, any, (0, 'b'), (2, 'm')),
        (LOOP.as_slice(), 1, 1, any, (1, 'm'), (1, 'm')),
        (LOOP.as_slice(), 2, 0, empty, (0, 'b'), (2, 'h')),
        (LOOP.as_slice(), 2, 0, any, (0, 'b'), (2, 'h')),
        (LOOP.as_slice(), 2, 1, empty, (1, 'b'), (1, 'b')),
        (FORK.as_slice(), 1, 0, empty, (0, 'm'), (3, 'm')),
        (FORK.as_slice(), 2, 0, empty, (0, 'm'), (3, 'b')),
        (FORK.as_slice(), 3, 0, empty, (0, 'm'), (3, 'h')),
        (FORK.as_slice(), 3, 0, any, (0, 'b'), (3, 'h')),
        // Only block 0 is fetched before block 2.
        (FORK.as_slice(), 2, 2, empty, (2, 'm'), (2, 'm')),
        (FORK.as_slice(), 2, 2, any, (2, 'b'), (2, 'b')),
        (FORK.as_slice(), 1, 2, any, (2, 'm'), (2, 'm')),
    ] {
        let graph = Graph::new(Vec::from_slice(alloc, nodes)?).expect(&rt, "a graph");
        let geometry = Geometry::new(4, 1, ways).expect(&rt, "in range");
        assert!(rt; 0 < geometry.sets());
        let seen = view(alloc, &graph, &geometry, 0)?;
        assert!(rt; (block as usize) < seen.blocks().len());
        assert!(rt; is_judged(alloc, &seen, &geometry, block, start, first)?);
        assert!(rt; is_judged(alloc, &seen, &geometry, block, start, last)?);
    }
    Ok(())
}

#[test]
fn what_is_settled_has_ways_and_sets_where_paths_are(rt: HostRuntime) -> Result<(), Fail> {
    let alloc = rt.alloc();
    let graph = Graph::new(Vec::from_slice(alloc, &LOOP)?).expect(&rt, "a graph");
    let geometry = Geometry::new(4, 1, 2).expect(&rt, "in range");
    assert!(rt; 0 < geometry.sets());
    let seen = view(alloc, &graph, &geometry, 0)?;
    assert!(rt; 0 < seen.blocks().len());
    // With any cache the first fetch can hit at once.
    for (start, first) in [(Start::Empty, (3, "t")), (Start::Any, (1, ""))] {
        let settled = settle(alloc, &seen, 0, start)?;
        let expected = [(0, first, Some((1, "")), false), (2, (3, "n"), None, true)];
        assert_eq!(rt; settled.fates.len(), expected.len());
        for (fate, (node, hit, miss, _)) in settled.fates.iter().zip(&expected) {
            assert_eq!(rt; fate.node, *node);
            assert_eq!(rt;
                steps_and_letters(&fate.hit),
                Some((hit.0, hit.1.as_bytes()))
            );
            assert_eq!(rt;
                steps_and_letters(&fate.miss),
                miss.map(|way| (way.0, way.1.as_bytes()))
            );
        }
        assert_eq!(rt; settled.places.len(), expected.len());
        for (place, (node, _, _, kept)) in settled.places.iter().zip(&expected) {
            assert_eq!(rt; place.node, *node);
            assert_eq!(rt; place.least.sets().len(), 1);
            assert_eq!(rt; place.most.is_some(), *kept);
        }
    }
    Ok(())
}

fn node(at: u32, first: Option<u32>, second: Option<u32>) -> Node {
    Node { at, first, second }
}

#[test]
fn two_arms_that_meet_leave_one_set(rt: HostRuntime) -> Result<(), Fail> {
    let alloc = rt.alloc();
    let nodes = [
        node(0x10000, Some(1), None),
        node(0x10008, Some(2), Some(3)),
        node(0x1000c, Some(5), None),
        node(0x10080, Some(4), None),
        node(0x10010, Some(6), None),
        node(0x10100, Some(4), None),
        node(0x10084, Some(7), None),
        node(0x10104, Some(8), None),
        node(0x10004, None, None),
    ];
    let graph = Graph::new(Vec::from_slice(alloc, &nodes)?).expect(&rt, "a graph");
    let geometry = Geometry::new(8, 16, 3).expect(&rt, "in range");
    assert!(rt; 0 < geometry.sets());
    let seen = view(alloc, &graph, &geometry, 0)?;
    assert_eq!(rt; seen.blocks(), [0x2000, 0x2010, 0x2020].as_slice());
    assert!(rt; 0 < seen.blocks().len());
    let both: &[u16] = &[1, 2];
    let none: &[u16] = &[];
    for (start, first) in [(Start::Empty, None), (Start::Any, Some(none))] {
        let settled = settle(alloc, &seen, 0, start)?;
        let expected = [(0, first, None), (8, Some(both), Some(both))];
        assert_eq!(rt; settled.places.len(), expected.len());
        for (place, (node, least, most)) in settled.places.iter().zip(&expected) {
            assert_eq!(rt; place.node, *node);
            assert_eq!(rt; only_set(&place.least), *least);
            assert_eq!(rt; place.most.as_ref().and_then(only_set), *most);
        }
    }
    Ok(())
}

// The numbers of the family's set, if it has just one.
fn only_set(family: &PlainFamily) -> Option<&[u16]> {
    match family.sets() {
        [set] => Some(set.items()),
        _ => None,
    }
}

// The steps and the choices of a way, if there is one.
fn steps_and_letters(way: &Option<Way>) -> Option<(u64, &[u8])> {
    match way {
        None => None,
        Some(way) => Some((way.steps, way.choices.letters())),
    }
}
