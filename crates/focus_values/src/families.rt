// What a fetch and a meeting of paths make of the least warm sets and of the most younger sets.
ghost use Rattle.std.specs.Prelude.{ℕ, ◌↔◌, ◌<◌, ◌≤◌, List, length, IfOk, IsTrue, IsFalse};
ghost use Rattle.std.specs.List.{Contains};
ghost use Rattle.plain_family.specs.Family.{IsMinimal, IsMaximal};
ghost use Rattle.set_list.specs.SetList.{IsSubset};
ghost use Rattle.focus_values.specs.Families.{SameSets, SameMost, IsLeastAfter, IsMostAfter, IsLeastJoined, IsMostJoined, AllOver, AllUnder, MostUnder};

use plain_family::PlainFamily;
use set_list::SetList;
use std::alloc::{AllocError, Global};

// The same sets in memory of their own.
pub(crate) fn copy_of(alloc: Global, sets: &PlainFamily) -> Result<PlainFamily, AllocError>
    ensures { IfOk result (λ copy. SameSets sets.now copy) }
{
    sets.union(&PlainFamily::empty(alloc))
}

// The same, where the sets may be absent.
pub(crate) fn copy_of_most(
    alloc: Global,
    most: &Option<PlainFamily>,
) -> Result<Option<PlainFamily>, AllocError>
    ensures { IfOk result (λ copy. SameMost most.now copy) }
{
    match most {
        Some(sets) => Ok(Some(copy_of(alloc, sets)?)),
        None => Ok(None),
    }
}

// The least of the sets.
fn least_of(sets: &PlainFamily) -> Result<PlainFamily, AllocError>
    ensures { IfOk result (λ least. (s : List ℕ) → Contains least s ↔ (Contains sets.now s × IsMinimal sets.now s)) }
{
    sets.minimal()
}

// The most of the sets.
fn most_of(sets: &PlainFamily) -> Result<PlainFamily, AllocError>
    ensures { IfOk result (λ most. (s : List ℕ) → Contains most s ↔ (Contains sets.now s × IsMaximal sets.now s)) }
{
    sets.maximal()
}

// The least warm sets after a fetch of another block: with it, as far as they stay small.
pub(crate) fn least_after(
    least: &PlainFamily,
    other: u16,
    ways: u32,
) -> Result<PlainFamily, AllocError>
    ensures { IfOk result (IsLeastAfter other ways least.now) }
{
    least_of(&least.insert_each(other)?.below(ways)?)
}

// The most younger sets after a fetch of another block: with it, and absent as soon as one gets large.
pub(crate) fn most_after(
    most: &Option<PlainFamily>,
    other: u16,
    ways: u32,
) -> Result<Option<PlainFamily>, AllocError>
    ensures { IfOk result (IsMostAfter other ways most.now) }
{
    let Some(sets) = most else {
        return Ok(None);
    };
    let more = sets.insert_each(other)?;
    if !are_small(more.sets(), ways) {
        return Ok(None);
    }
    Ok(Some(most_of(&more)?))
}

// Whether each set has fewer numbers than there are ways.
fn are_small(sets: &[SetList], ways: u32) -> bool
    ensures small { IsTrue result → (s : List ℕ) → Contains sets.now s → length s < ways }
    ensures large { IsFalse result → (s : List ℕ) × Contains sets.now s × (ways ≤ length s) }
{
    for set in sets {
        if set.len() >= ways as usize {
            return false;
        }
    }
    true
}

// The least warm sets where paths meet.
pub(crate) fn least_joined(one: &PlainFamily, two: &PlainFamily) -> Result<PlainFamily, AllocError>
    ensures { IfOk result (IsLeastJoined one.now two.now) }
{
    least_of(&one.union(two)?)
}

// The most younger sets where paths meet: absent where either are.
pub(crate) fn most_joined(
    one: &Option<PlainFamily>,
    two: &Option<PlainFamily>,
) -> Result<Option<PlainFamily>, AllocError>
    ensures { IfOk result (IsMostJoined one.now two.now) }
{
    let Some(first) = one else {
        return Ok(None);
    };
    let Some(second) = two else {
        return Ok(None);
    };
    Ok(Some(most_of(&first.union(second)?)?))
}

// Whether each of the sets includes one of the others.
pub(crate) fn are_over(sets: &PlainFamily, others: &PlainFamily) -> bool
    ensures { IsTrue result ↔ AllOver sets.now others.now }
{
    for set in sets.sets() {
        if !includes_one(set, others.sets()) {
            return false;
        }
    }
    true
}

// Whether the set includes one of the others.
fn includes_one(set: &SetList, others: &[SetList]) -> bool
    ensures { IsTrue result ↔ ((t : List ℕ) × Contains others.now t × IsSubset t set.now) }
{
    for other in others {
        if other.is_subset(set) {
            return true;
        }
    }
    false
}

// Whether each of the sets is included in one of the others.
fn are_under(sets: &PlainFamily, others: &PlainFamily) -> bool
    ensures { IsTrue result ↔ AllUnder sets.now others.now }
{
    for set in sets.sets() {
        if !is_in_one(set, others.sets()) {
            return false;
        }
    }
    true
}

// Whether the set is included in one of the others.
fn is_in_one(set: &SetList, others: &[SetList]) -> bool
    ensures { IsTrue result ↔ ((t : List ℕ) × Contains others.now t × IsSubset set.now t) }
{
    for other in others {
        if set.is_subset(other) {
            return true;
        }
    }
    false
}

// The same, where absent others are above all sets.
pub(crate) fn is_most_under(sets: &Option<PlainFamily>, others: &Option<PlainFamily>) -> bool
    ensures { IsTrue result ↔ MostUnder sets.now others.now }
{
    let Some(larger) = others else {
        return true;
    };
    match sets {
        Some(smaller) => are_under(smaller, larger),
        None => false,
    }
}
