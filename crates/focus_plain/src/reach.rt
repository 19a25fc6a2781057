// What a node makes of a younger set, over the sets of a table, and its order with them.
ghost use Rattle.std.specs.Prelude.{◌≡◌, ◌<◌, ◌≤◌, ◌⊎◌, ◌↔◌, ℕ, [], length, slice_get, slice_index_or, Some, None, IsTrue, IfOk};
ghost use Rattle.std.specs.List.{Contains};
ghost use Rattle.std.specs.List.Sorted.{IsStrictlyIncreasing};
ghost use Rattle.focus_spec.specs.Younger.{after, with_number};
ghost use Rattle.focus_plain.specs.Cut.{cut, IsBelow};
ghost use Rattle.focus_plain.specs.Entries.{set_at, reached_set, IsIndex, IsReachable};

use set_list::SetList;
use std::alloc::AllocError;

/// A set of a table, and perhaps one more number.
#[derive(Clone, Copy)]
pub(crate) struct Reach {
    pub index: u32,
    pub more: Option<u16>,
}

/// What a node that fetches this makes of the block's younger set, where that is small afterwards. The first set of the
/// table is the one without numbers.
pub(crate) fn moved(
    sets: &[SetList],
    ways: u32,
    block: u16,
    fetch: Option<u16>,
    younger: Option<u32>,
) -> Option<Reach>
    requires some_ways { 1 ≤ ways }
    requires first { slice_get sets.now 0 ≡ Some [] }
    requires index { IsIndex sets.now younger }
    requires small { cut ways (set_at sets.now younger) ≡ set_at sets.now younger }
    ensures index { IsReachable sets.now result }
    ensures value { reached_set sets.now result ≡ cut ways (after block fetch (set_at sets.now younger)) }
{
    let Some(other) = fetch else {
        return alone(younger?);
    };
    if other == block {
        return alone(0);
    }
    with_other(sets, ways, other, younger?)
}

// The set of the table alone.
fn alone(index: u32) -> Option<Reach>
    ensures { result ≡ Some (record { index = index; more = None }) }
{
    Some(Reach { index, more: None })
}

// The set of the table with one more number, if that is small.
fn with_other(sets: &[SetList], ways: u32, other: u16, index: u32) -> Option<Reach>
    requires inside { index < length sets.now }
    requires small { length (slice_index_or sets.now index []) < ways }
    ensures index { IsReachable sets.now result }
    ensures value { reached_set sets.now result
        ≡ cut ways (Some (with_number other (slice_index_or sets.now index []))) }
{
    let numbers = sets[index as usize].items();
    if has(numbers, other) {
        return alone(index);
    }
    if numbers.len() + 1 < ways as usize {
        return Some(Reach {
            index,
            more: Some(other),
        });
    }
    None
}

fn has(numbers: &[u16], number: u16) -> bool
    ensures { IsTrue result ↔ Contains numbers.now number }
{
    numbers.contains(&number)
}

// Whether each of the numbers is one of the others, or the one more.
fn all_in(numbers: &[u16], others: &[u16], more: Option<u16>) -> bool
    ensures { IsTrue result → (x : ℕ) → Contains numbers.now x → Contains others.now x ⊎ (more ≡ Some x) }
{
    for &number in numbers {
        if !has(others, number) && more != Some(number) {
            return false;
        }
    }
    true
}

/// Tells that the set at an index is below what is reached.
pub(crate) fn is_below(sets: &[SetList], younger: Option<u32>, reach: Option<Reach>) -> bool
    requires index { IsIndex sets.now younger }
    requires reach { IsReachable sets.now reach }
    ensures { IsTrue result → IsBelow (set_at sets.now younger) (reached_set sets.now reach) }
{
    let Some(reach) = reach else {
        return true;
    };
    let Some(index) = younger else {
        return false;
    };
    index == reach.index || is_below_set(sets, index, reach)
}

// The same where both are sets.
fn is_below_set(sets: &[SetList], index: u32, reach: Reach) -> bool
    requires index { index < length sets.now }
    requires reach { reach.index < length sets.now }
    ensures { IsTrue result → IsBelow (set_at sets.now (Some index)) (reached_set sets.now (Some reach)) }
{
    let numbers = sets[index as usize].items();
    all_in(numbers, sets[reach.index as usize].items(), reach.more)
}

/// Tells that the set at an index is above what is reached.
pub(crate) fn is_above(sets: &[SetList], younger: Option<u32>, reach: Option<Reach>) -> bool
    requires index { IsIndex sets.now younger }
    requires reach { IsReachable sets.now reach }
    ensures { IsTrue result → IsBelow (reached_set sets.now reach) (set_at sets.now younger) }
{
    let Some(index) = younger else {
        return true;
    };
    let Some(reach) = reach else {
        return false;
    };
    match reach.more {
        None => index == reach.index || is_above_set(sets, index, reach.index),
        Some(number) => {
            has(sets[index as usize].items(), number) && is_above_set(sets, index, reach.index)
        }
    }
}

// The same where both are sets of the table.
fn is_above_set(sets: &[SetList], index: u32, reached: u32) -> bool
    requires index { index < length sets.now }
    requires reached { reached < length sets.now }
    ensures { IsTrue result → IsBelow (set_at sets.now (Some reached)) (set_at sets.now (Some index)) }
{
    let numbers = sets[reached as usize].items();
    all_in(numbers, sets[index as usize].items(), None)
}

/// The set with one more number, in memory of its own. The error is out of memory.
pub(crate) fn longer(set: &SetList, number: u16) -> Result<SetList, AllocError>
    requires { IsStrictlyIncreasing set.now }
    ensures value { IfOk result (λ longer. longer ≡ with_number number set.now) }
    ensures rising { IfOk result (λ longer. IsStrictlyIncreasing longer) }
{
    set.insert(number)
}
