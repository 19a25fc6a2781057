// The nodes that wait to be worked off, each at most once.
ghost use Rattle.std.specs.Prelude.{◌≡◌, ℕ, ◌+◌, ◌*◌, ◌/◌, ◌<◌, ◌≤◌, length, min, true, false, replicate, slice_set, IfOk, IfNone, IfSome};
ghost use Rattle.lattice_fix.specs.Waits.{Waits, IsDone, AreMarked, block_end};

use std::alloc::{AllocError, Global};
use std::marker::Model;

// So many flags have a mark together.
const BLOCK: usize = 256;

/// A flag for each node, a mark for each block of flags of which some may be set, and a number below which no node waits.
/// So the next node is found without a look at each flag before it.
#[derive(Drop)]
pub(crate) struct Waiting {
    flags: Vec<bool>,
    marks: Vec<bool>,
    least: usize,
}

impl Model for Waiting {
    ghost use Rattle.std.specs.Prelude.{Bool, List};
    ghost use Rattle.lattice_fix.specs.Waits.{IsSwept};

    ghost Value = { List Bool };

    ghost view = { λ waiting. waiting.flags.items };

    ghost invariant = { λ waiting. IsSwept waiting.flags.items waiting.marks.items waiting.least };
}

impl Waiting {
    /// None of `count` nodes waits.
    pub(crate) fn none(alloc: Global, count: usize) -> Result<Self, AllocError>
        ensures { IfOk result (λ waiting. waiting ≡ replicate count false) }
    {
        let flags = vec![in alloc; false; count]?;
        let marks = vec![in alloc; false; count / BLOCK + 1]?;
        Ok(Waiting {
            flags,
            marks,
            least: count,
        })
    }

    /// The node waits, if it didn't before.
    pub(crate) fn add(&mut self, node: u32)
        requires inside { node < length self.old }
        ensures { self.new ≡ slice_set self.old node true }
    {
        let node = node as usize;
        self.flags[node] = true;
        self.marks[node / BLOCK] = true;
        self.least = self.least.min(node);
    }

    /// The least node that waits, which then waits no more.
    pub(crate) fn take(&mut self) -> Option<u32>
        requires few { length self.old ≤ 65536 }
        ensures none { IfNone result ((n : ℕ) → IsDone self.old n) }
        ensures kept { IfNone result (self.new ≡ self.old) }
        ensures inside { IfSome result (λ node. node < length self.old) }
        ensures waited { IfSome result (λ node. Waits self.old node) }
        ensures least { IfSome result (λ node. (n : ℕ) → n < node → IsDone self.old n) }
        ensures taken { IfSome result (λ node. self.new ≡ slice_set self.old node false) }
    {
        let node = next_set(&self.flags, &mut self.marks, self.least);
        self.least = node;
        if node == self.flags.len() {
            return None;
        }
        self.flags[node] = false;
        Some(node as u32)
    }
}

// The first place from a number on whose flag is set, or the length where there is none.
fn next_set(flags: &[bool], marks: &mut [bool], from: usize) -> usize
    requires within { from ≤ length flags.now }
    requires done { (n : ℕ) → n < from → IsDone flags.now n }
    requires marked { AreMarked flags.now marks.old }
    requires few { length flags.now ≤ 65536 }
    ensures within { result ≤ length flags.now }
    ensures done { (n : ℕ) → n < result → IsDone flags.now n }
    ensures set { result < length flags.now → Waits flags.now result }
    ensures marked { AreMarked flags.now marks.new }
{
    let mut place = from;
    while place < flags.len() {
        let end = ((place / BLOCK + 1) * BLOCK).min(flags.len());
        let found = set_in_block(flags, marks, place, end);
        if found < end {
            return found;
        }
        place = end;
    }
    place
}

// The same up to the end of the block. A mark goes where no flag of its block is set.
fn set_in_block(flags: &[bool], marks: &mut [bool], from: usize, end: usize) -> usize
    requires within { from < end }
    requires end { end ≡ block_end from (length flags.now) }
    requires done { (n : ℕ) → n < from → IsDone flags.now n }
    requires marked { AreMarked flags.now marks.old }
    ensures within { result ≤ end }
    ensures done { (n : ℕ) → n < result → IsDone flags.now n }
    ensures set { result < end → Waits flags.now result }
    ensures marked { AreMarked flags.now marks.new }
{
    if !marks[from / BLOCK] {
        return end;
    }
    let found = first_set(flags, from, end);
    if found == end {
        marks[from / BLOCK] = false;
    }
    found
}

// The same up to an end.
fn first_set(flags: &[bool], from: usize, end: usize) -> usize
    requires within { from ≤ end }
    requires inside { end ≤ length flags.now }
    requires done { (n : ℕ) → n < from → IsDone flags.now n }
    ensures within { result ≤ end }
    ensures done { (n : ℕ) → n < result → IsDone flags.now n }
    ensures set { result < end → Waits flags.now result }
{
    for place in from..end {
        if flags[place] {
            return place;
        }
    }
    end
}
