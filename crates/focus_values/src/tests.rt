// Warm sets and younger sets on graphs whose families are found by hand: arms of one fetch and of two, which meet, and
// ways back.
use crate::younger_sets;
use cache_geom::Geometry;
use cache_spec::Start;
use path_model::{Graph, Node};
use plain_family::PlainFamily;
use set_view::view;
use std::alloc::{AllocError, Global};
use std::process::Abort;
use std::test::Fail;

fn node(at: u32, first: Option<u32>, second: Option<u32>) -> Node {
    Node { at, first, second }
}

// With lines of 16 bytes and two sets, the blocks of set 0 are 0x00, 0x20, 0x40, 0x60 and 0x80, with the numbers 0 to
// 4, and 0x10 is of set 1. Only the last node fetches block 4.
fn arms() -> [Node; 8] {
    [
        node(0x00, Some(1), Some(2)),
        node(0x20, Some(4), None),
        node(0x40, Some(3), None),
        node(0x60, Some(4), None),
        node(0x10, Some(5), None),
        node(0x24, Some(6), Some(0)),
        node(0x08, Some(7), None),
        node(0x80, None, None),
    ]
}

// Blocks 0 to 3, one after another, and from the last one back to block 1.
fn lap() -> [Node; 4] {
    [
        node(0x00, Some(1), None),
        node(0x20, Some(2), None),
        node(0x40, Some(3), None),
        node(0x60, Some(1), None),
    ]
}

fn digit(number: u16) -> &'static str {
    match number {
        0 => "0",
        1 => "1",
        2 => "2",
        3 => "3",
        4 => "4",
        _ => "?",
    }
}

// The sets in order, each as its digits.
fn text_of(alloc: Global, sets: &PlainFamily) -> Result<String, AllocError> {
    let mut text = String::new(alloc);
    for set in sets.sets() {
        text.push_str("{")?;
        for &number in set.items() {
            text.push_str(digit(number))?;
        }
        text.push_str("}")?;
    }
    Ok(text)
}

// The same, where the sets may be absent.
fn text_of_most(alloc: Global, most: &Option<PlainFamily>) -> Result<String, AllocError> {
    match most {
        Some(sets) => text_of(alloc, sets),
        None => String::from_str(alloc, "absent"),
    }
}

// The least warm sets and the most younger sets before each node are these.
fn assert_sets(
    rt: &impl Abort,
    alloc: Global,
    nodes: &[Node],
    ways: u32,
    start: Start,
    block: u16,
    rows: &[(&str, &str)],
) -> Result<(), Fail> {
    let graph = Graph::new(nodes.to_vec(alloc)?).expect(rt, "a graph");
    let geometry = Geometry::new(16, 2, ways).expect(rt, "in range");
    assert_eq!(rt; geometry.sets(), 2);
    let seen = view(alloc, &graph, &geometry, 0)?;
    assert!(rt; (block as usize) < seen.blocks().len());
    let sets = younger_sets(alloc, &seen, block, start)?;
    assert_eq!(rt; sets.len(), rows.len());
    for (younger, row) in sets.iter().zip(rows) {
        assert_eq!(rt; text_of(alloc, &younger.least)?.as_str(), row.0);
        assert_eq!(rt; text_of_most(alloc, &younger.most)?.as_str(), row.1);
    }
    Ok(())
}

#[test]
fn sets_that_arms_leave_are_kept_until_one_is_large(rt: HostRuntime) -> Result<(), Fail> {
    let rows = [
        ("{1}", "absent"),
        ("{}", "{}"),
        ("{}", "{}"),
        ("{2}", "{2}"),
        ("{1}{23}", "{1}{23}"),
        ("{1}{23}", "{1}{23}"),
        ("{1}", "absent"),
        ("{}", "{}"),
    ];
    assert_sets(&rt, rt.alloc(), &arms(), 3, Start::Empty, 0, &rows)
}

#[test]
fn a_wider_set_keeps_its_most(rt: HostRuntime) -> Result<(), Fail> {
    let rows = [
        ("{1}", "absent"),
        ("{}", "{}"),
        ("{}", "{}"),
        ("{2}", "{2}"),
        ("{1}{23}", "{1}{23}"),
        ("{1}{23}", "{1}{23}"),
        ("{1}", "{123}"),
        ("{}", "{}"),
    ];
    assert_sets(&rt, rt.alloc(), &arms(), 4, Start::Empty, 0, &rows)
}

#[test]
fn a_block_that_the_entry_does_not_fetch_is_absent(rt: HostRuntime) -> Result<(), Fail> {
    let rows = [
        ("{}", "absent"),
        ("{0}", "absent"),
        ("{0}", "absent"),
        ("{02}", "absent"),
        ("{}", "absent"),
        ("{}", "absent"),
        ("{}", "{}"),
        ("{0}", "{0}"),
    ];
    assert_sets(&rt, rt.alloc(), &arms(), 3, Start::Empty, 1, &rows)
}

// The way back leaves {1} before node 0, and the start the empty set, which {1} includes.
#[test]
fn any_cache_may_have_the_block_before_its_first_fetch(rt: HostRuntime) -> Result<(), Fail> {
    let rows = [
        ("{}", "absent"),
        ("{}", "{}"),
        ("{}", "{}"),
        ("{2}", "{2}"),
        ("{1}{23}", "{1}{23}"),
        ("{1}{23}", "{1}{23}"),
        ("{1}", "absent"),
        ("{}", "{}"),
    ];
    assert_sets(&rt, rt.alloc(), &arms(), 3, Start::Any, 0, &rows)
}

// Each arm leaves all blocks that it fetched; with block 1 after them the set of the second arm includes the first's.
#[test]
fn an_unfetched_block_has_a_warm_set_only_from_any_cache(rt: HostRuntime) -> Result<(), Fail> {
    let rows = [
        ("{}", "absent"),
        ("{0}", "absent"),
        ("{0}", "absent"),
        ("{02}", "absent"),
        ("{01}{023}", "absent"),
        ("{01}{023}", "absent"),
        ("{01}", "absent"),
        ("{01}", "absent"),
    ];
    assert_sets(&rt, rt.alloc(), &arms(), 4, Start::Any, 4, &rows)?;
    let none = [("", "absent"); 8];
    assert_sets(&rt, rt.alloc(), &arms(), 4, Start::Empty, 4, &none)
}

// Before node 1 the start leaves {0} of block 2, and the way back {3}.
#[test]
fn a_way_back_adds_to_what_the_start_leaves(rt: HostRuntime) -> Result<(), Fail> {
    let rows = [
        ("{}", "absent"),
        ("{0}{3}", "absent"),
        ("{01}{13}", "absent"),
        ("{}", "{}"),
    ];
    assert_sets(&rt, rt.alloc(), &lap(), 3, Start::Any, 2, &rows)?;
    let rows = [
        ("", "absent"),
        ("{3}", "absent"),
        ("{13}", "absent"),
        ("{}", "{}"),
    ];
    assert_sets(&rt, rt.alloc(), &lap(), 3, Start::Empty, 2, &rows)
}
