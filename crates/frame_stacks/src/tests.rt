use crate::{Frame, Link, StackCell, Stacks};
use std::cmp::Ordering;
use std::test::Fail;

fn frame(back: u32, link: Link, callee: u32) -> Frame {
    Frame { back, link, callee }
}

const FIRST: Frame = Frame {
    back: 0x10004,
    link: Link::X1,
    callee: 0x10010,
};

const SECOND: Frame = Frame {
    back: 0x10014,
    link: Link::X5,
    callee: 0x10020,
};

#[test]
fn equal_frames_have_one_number(rt: HostRuntime) -> Result<(), Fail> {
    let mut stacks = Stacks::empty(rt.alloc());
    assert_eq!(rt; stacks.cells().len(), 0);
    let first = stacks.push(0, FIRST)?;
    assert_eq!(rt; first, 1);
    assert_eq!(rt; stacks.cells().len(), 1);
    let deep = stacks.push(first, SECOND)?;
    assert_eq!(rt; deep, 2);
    assert_eq!(rt; stacks.cells().len(), 2);
    let again = stacks.push(0, FIRST)?;
    assert_eq!(rt; again, first);
    let cells = [
        StackCell {
            below: 0,
            frame: FIRST,
        },
        StackCell {
            below: 1,
            frame: SECOND,
        },
    ];
    assert_eq!(rt; stacks.cells(), cells.as_slice());
    Ok(())
}

#[test]
fn a_stack_tells_of_its_frames(rt: HostRuntime) -> Result<(), Fail> {
    let mut stacks = Stacks::empty(rt.alloc());
    let first = stacks.push(0, FIRST)?;
    assert!(rt; stacks.cells().len() < 2);
    let deep = stacks.push(first, SECOND)?;
    assert_eq!(rt; stacks.top(0), None);
    assert_eq!(rt; stacks.top(deep), Some(SECOND));
    assert_eq!(rt; stacks.below(0), 0);
    assert_eq!(rt; stacks.below(deep), first);
    assert_eq!(rt; stacks.depth(0), 0);
    assert_eq!(rt; stacks.depth(deep), 2);
    for (target, is_open) in [(0x10010, true), (0x10020, true), (0x10004, false)] {
        assert_eq!(rt;
            stacks.has_callee(deep, target),
            is_open,
            "at {target:#010x}"
        );
    }
    assert!(rt; !stacks.has_callee(0, 0x10010));
    Ok(())
}

#[test]
fn frames_are_compared_from_the_oldest_on(rt: HostRuntime) -> Result<(), Fail> {
    let mut stacks = Stacks::empty(rt.alloc());
    let greater = stacks.push(0, frame(8, Link::X1, 4))?;
    assert!(rt; stacks.cells().len() < 2);
    let lesser = stacks.push(0, frame(4, Link::X5, 8))?;
    assert!(rt; stacks.cells().len() < 3);
    let above_lesser = stacks.push(lesser, frame(16, Link::X1, 4))?;
    assert!(rt; stacks.cells().len() < 4);
    let by_link = stacks.push(0, frame(4, Link::X1, 12))?;
    assert!(rt; stacks.cells().len() < 5);
    let by_callee = stacks.push(0, frame(4, Link::X5, 12))?;
    for (a, b, order) in [
        (0, 0, Ordering::Equal),
        (lesser, lesser, Ordering::Equal),
        (0, lesser, Ordering::Less),
        (above_lesser, lesser, Ordering::Greater),
        (lesser, greater, Ordering::Less),
        (above_lesser, greater, Ordering::Less),
        (greater, above_lesser, Ordering::Greater),
        (by_link, lesser, Ordering::Less),
        (by_callee, lesser, Ordering::Greater),
        (by_callee, above_lesser, Ordering::Greater),
    ] {
        assert!(rt; a as usize <= stacks.cells().len());
        assert!(rt; b as usize <= stacks.cells().len());
        assert_eq!(rt; stacks.compare(a, b), order, "at {a} and {b}");
    }
    Ok(())
}
