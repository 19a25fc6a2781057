// The family {1}, {1, 2}, {2, 3} under each operation.
use super::*;

fn set_of(alloc: Global, numbers: &[u16]) -> Result<SetList, AllocError> {
    let mut set = SetList::empty(alloc);
    for &x in numbers {
        set = set.insert(x)?;
    }
    Ok(set)
}

// {1}, {1, 2}, {2, 3}, put together out of order.
fn sample(alloc: Global) -> Result<PlainFamily, AllocError> {
    let late = PlainFamily::of(alloc, &set_of(alloc, &[2, 3])?)?;
    let early = PlainFamily::of(alloc, &set_of(alloc, &[1])?)?;
    let long = PlainFamily::of(alloc, &set_of(alloc, &[1, 2])?)?;
    late.union(&long)?.union(&early)
}

// Whether the family's sets are these, in this order.
fn has_sets(family: &PlainFamily, sets: &[&[u16]]) -> bool {
    let mut same = family.sets().len() == sets.len();
    for (set, &numbers) in family.sets().iter().zip(sets) {
        same = same && set.items() == numbers;
    }
    same
}

#[test]
fn the_empty_family_has_no_set(rt: HostRuntime) -> Result<(), AllocError> {
    let family = PlainFamily::empty(rt.alloc());
    assert!(rt; family.sets().is_empty());
    assert!(rt; !family.member(&SetList::empty(rt.alloc())));
    Ok(())
}

#[test]
fn sets_stand_in_order(rt: HostRuntime) -> Result<(), AllocError> {
    let family = sample(rt.alloc())?;
    assert!(rt; has_sets(&family, &[&[1], &[1, 2], &[2, 3]]));
    assert!(rt; family.member(&set_of(rt.alloc(), &[2, 3])?));
    assert!(rt; !family.member(&set_of(rt.alloc(), &[2])?));
    Ok(())
}

#[test]
fn a_union_has_the_sets_of_both(rt: HostRuntime) -> Result<(), AllocError> {
    let family = sample(rt.alloc())?;
    let more = family.union(&PlainFamily::of(rt.alloc(), &set_of(rt.alloc(), &[3])?)?)?;
    assert!(rt; has_sets(&more, &[&[1], &[1, 2], &[2, 3], &[3]]));
    assert!(rt; has_sets(&more.union(&family)?, &[&[1], &[1, 2], &[2, 3], &[3]]));
    Ok(())
}

#[test]
fn sets_of_fewer_numbers_are_below(rt: HostRuntime) -> Result<(), AllocError> {
    let family = sample(rt.alloc())?;
    assert!(rt; has_sets(&family.below(2)?, &[&[1]]));
    assert!(rt; has_sets(&family.below(1)?, &[]));
    Ok(())
}

#[test]
fn sets_that_a_number_makes_equal_merge(rt: HostRuntime) -> Result<(), AllocError> {
    let family = sample(rt.alloc())?;
    assert!(rt; has_sets(&family.insert_each(2)?, &[&[1, 2], &[2, 3]]));
    assert!(rt; has_sets(&family.insert_each(0)?, &[&[0, 1], &[0, 1, 2], &[0, 2, 3]]));
    Ok(())
}

#[test]
fn minimal_and_maximal_sets_differ(rt: HostRuntime) -> Result<(), AllocError> {
    let family = sample(rt.alloc())?;
    assert!(rt; has_sets(&family.minimal()?, &[&[1], &[2, 3]]));
    assert!(rt; has_sets(&family.maximal()?, &[&[1, 2], &[2, 3]]));
    Ok(())
}
