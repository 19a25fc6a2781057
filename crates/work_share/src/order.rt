// Results put in order of their numbers.
ghost use Rattle.std.specs.Prelude.{◌≡◌, ◌<◌, ℕ, All, Contains, IfOk, IsSome, Some, None, slice_set, map};
ghost use Rattle.std.specs.Prelude.{slice_index_or, vec_len};
ghost use Rattle.work_share.specs.Counts.{IsEachBelow};
ghost use Rattle.work_share.specs.Station.{numbered, numbers_of};

use crate::station::Numbered;
use std::alloc::{AllocError, Global};

// The results in order of their numbers, which are those below `jobs`. The error is out of memory.
pub(crate) fn in_order<D: Drop>(
    alloc: Global,
    jobs: u32,
    results: Vec<Numbered<D>>,
) -> Result<Vec<D>, AllocError>
    requires { IsEachBelow jobs (numbers_of results.items) }
    ensures len { IfOk result (λ all. vec_len all ≡ jobs) }
    ensures each { IfOk result (λ all. (i : ℕ) (d : D) → i < jobs
        → Contains results.items (numbered i (slice_index_or all.items i d))) }
{
    let slots = in_slots(alloc, jobs, results)?;
    unwrapped(alloc, slots)
}

// Each result in the slot of its number.
fn in_slots<D: Drop>(
    alloc: Global,
    jobs: u32,
    mut results: Vec<Numbered<D>>,
) -> Result<Vec<Option<D>>, AllocError>
    requires { IsEachBelow jobs (numbers_of results.items) }
    ensures len { IfOk result (λ slots. vec_len slots ≡ jobs) }
    ensures each { IfOk result (λ slots. (i : ℕ) → i < jobs
        → (done : D) × (slice_index_or slots.items i None ≡ Some done)
        × Contains results.items (numbered i done)) }
{
    let mut slots = empty_slots(alloc, jobs as usize)?;
    while let Some(entry) = results.pop() {
        put(&mut slots, entry);
    }
    Ok(slots)
}

fn put<D: Drop>(slots: &mut Vec<Option<D>>, entry: Numbered<D>)
    requires { entry.number < vec_len slots.old }
    ensures { slots.new.items ≡ slice_set slots.old.items entry.number (Some entry.done) }
{
    let Numbered { number, done } = entry;
    slots[number as usize] = Some(done);
}

fn empty_slots<D: Drop>(alloc: Global, count: usize) -> Result<Vec<Option<D>>, AllocError>
    ensures len { IfOk result (λ slots. vec_len slots ≡ count) }
    ensures none { IfOk result (λ slots. All (λ slot. slot ≡ None) slots.items) }
{
    let mut slots = Vec::with_capacity(alloc, count)?;
    for _ in 0..count {
        slots.push(None)?;
    }
    Ok(slots)
}

fn unwrapped<D: Drop>(alloc: Global, slots: Vec<Option<D>>) -> Result<Vec<D>, AllocError>
    requires { All (λ slot. IsSome slot) slots.items }
    ensures { IfOk result (λ all. map Some all.items ≡ slots.items) }
{
    let mut all = Vec::with_capacity(alloc, slots.len())?;
    for slot in slots {
        let Some(done) = slot else { unreachable!() };
        all.push(done)?;
    }
    Ok(all)
}
