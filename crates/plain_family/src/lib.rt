//! A finite family of finite sets of numbers of 16 bits, as a list of sets in order.
//!
//! `PlainFamily` is seen as the list of its sets in the order of `SetList::compare`, and so without repeats. It stands
//! on `set_list`. Its contract gives the layer above each operation as a fact on which sets the result has.
#![tactic(auto)]

ghost use Rattle.std.specs.Prelude.{◌≡◌, ℕ, ◌<◌, ◌↔◌, ◌⊎◌, List, [], ◌∷◌, length, IfOk, OnOk, IsTrue};
ghost use Rattle.std.specs.List.{Contains, AllPairs};
ghost use Rattle.std.specs.List.Sorted.{IsStrictlyIncreasing};
ghost use Rattle.set_list.specs.SetList.{IsSubset};
ghost use Rattle.plain_family.specs.Family.{IsBefore, AreRising, IsFamily, IsWith, IsMinimal, IsMaximal, IsPlaceOf};

use set_list::SetList;
use std::alloc::{AllocError, Global};
use std::marker::Model;

/// A finite family of finite sets of numbers of 16 bits.
#[derive(Drop)]
pub struct PlainFamily {
    // Each set once, in the order of `SetList::compare`.
    sets: Vec<SetList>,
}

impl Model for PlainFamily {
    ghost use Rattle.std.specs.Prelude.{ℕ, List};
    ghost use Rattle.plain_family.specs.Family.{IsFamily};

    ghost Value = { List (List ℕ) };

    ghost view = { λ family. family.sets.items };

    ghost invariant = { λ family. IsFamily family.sets.items };
}

impl PlainFamily {
    /// The family without sets, which takes no memory until it grows.
    pub fn empty(alloc: Global) -> Self
        ensures sets { result ≡ [] }
        ensures order { IsFamily result }
    {
        PlainFamily {
            sets: Vec::new(alloc),
        }
    }

    /// The family of this one set. The error is out of memory.
    pub fn of(alloc: Global, set: &SetList) -> Result<Self, AllocError>
        ensures sets { IfOk result (λ family. family ≡ set.now ∷ []) }
        ensures order { IfOk result (λ family. IsFamily family) }
    {
        let copy = set.try_clone()?;
        let mut sets = Vec::new(alloc);
        sets.push(copy)?;
        Ok(PlainFamily { sets })
    }

    /// Whether `set` is one of the sets.
    pub fn member(&self, set: &SetList) -> bool
        ensures { IsTrue result ↔ Contains self.now set.now }
    {
        find(self.sets(), set).is_ok()
    }

    /// The sets, in the order of `SetList::compare`.
    pub fn sets(&self) -> &[SetList]
        ensures value { result.now ≡ self.now }
        ensures order { IsFamily result.now }
    {
        &self.sets
    }

    /// The sets of both families. The error is out of memory.
    pub fn union(&self, other: &PlainFamily) -> Result<Self, AllocError>
        ensures sets { IfOk result (λ family. (s : List ℕ) → Contains family s ↔ (Contains self.now s ⊎ Contains other.now s)) }
        ensures order { IfOk result (λ family. IsFamily family) }
    {
        let mut family = self.without_sets();
        family.add_all(self.sets())?;
        family.add_all(other.sets())?;
        Ok(family)
    }

    /// The sets with fewer than `k` numbers. The error is out of memory.
    pub fn below(&self, k: u32) -> Result<Self, AllocError>
        ensures sets { IfOk result (λ family. (s : List ℕ) → Contains family s ↔ (Contains self.now s × (length s < k))) }
        ensures order { IfOk result (λ family. IsFamily family) }
    {
        let mut family = self.without_sets();
        let sets = self.sets();
        for set in sets {
            if set.len() < k as usize {
                family.add(set.try_clone()?)?;
            }
        }
        Ok(family)
    }

    /// Each set with `x` added to it, which may make sets equal. The error is out of memory.
    pub fn insert_each(&self, x: u16) -> Result<Self, AllocError>
        ensures sets { IfOk result (λ family. (s : List ℕ) → Contains family s ↔ ((t : List ℕ) × Contains self.now t × IsWith x t s)) }
        ensures order { IfOk result (λ family. IsFamily family) }
    {
        let mut family = self.without_sets();
        let sets = self.sets();
        for set in sets {
            family.add(set.insert(x)?)?;
        }
        Ok(family)
    }

    /// The sets in which no other set of the family is included. The error is out of memory. It takes as many tests for
    /// a subset as there are pairs of sets.
    pub fn minimal(&self) -> Result<Self, AllocError>
        ensures sets { IfOk result (λ family. (s : List ℕ) → Contains family s ↔ (Contains self.now s × IsMinimal self.now s)) }
        ensures order { IfOk result (λ family. IsFamily family) }
    {
        let mut family = self.without_sets();
        let sets = self.sets();
        for set in sets {
            if is_minimal(sets, set) {
                family.add(set.try_clone()?)?;
            }
        }
        Ok(family)
    }

    /// The sets that no other set of the family includes. The error is out of memory. It takes as many tests for a
    /// subset as there are pairs of sets.
    pub fn maximal(&self) -> Result<Self, AllocError>
        ensures sets { IfOk result (λ family. (s : List ℕ) → Contains family s ↔ (Contains self.now s × IsMaximal self.now s)) }
        ensures order { IfOk result (λ family. IsFamily family) }
    {
        let mut family = self.without_sets();
        let sets = self.sets();
        for set in sets {
            if is_maximal(sets, set) {
                family.add(set.try_clone()?)?;
            }
        }
        Ok(family)
    }

    // A family without sets, in the same memory.
    fn without_sets(&self) -> Self
        ensures sets { result ≡ [] }
        ensures order { IsFamily result }
    {
        PlainFamily::empty(*self.sets.allocator())
    }

    // Puts `set` in its place, unless it is there.
    fn add(&mut self, set: SetList) -> Result<(), AllocError>
        requires { IsStrictlyIncreasing set }
        ensures sets { OnOk result ((s : List ℕ) → Contains self.new s ↔ (Contains self.old s ⊎ (s ≡ set))) }
        ensures order { IsFamily self.new }
    {
        let place = match find(&self.sets, &set) {
            Ok(_) => return Ok(()),
            Err(place) => place,
        };
        self.sets.insert(place, set)?;
        Ok(())
    }

    // Puts each of `sets` in its place.
    fn add_all(&mut self, sets: &[SetList]) -> Result<(), AllocError>
        requires order { IsFamily self.old }
        requires rising { AreRising sets.now }
        ensures sets { OnOk result ((s : List ℕ) → Contains self.new s ↔ (Contains self.old s ⊎ Contains sets.now s)) }
        ensures order { IsFamily self.new }
    {
        for set in sets {
            self.add(set.try_clone()?)?;
        }
        Ok(())
    }
}

// Where `set` is among `sets`, or between which of them it belongs.
fn find(sets: &[SetList], set: &SetList) -> Result<usize, usize>
    requires { AllPairs IsBefore sets.now }
    ensures { IsPlaceOf sets.now set.now result }
{
    sets.binary_search_by(|other| other.compare(set))
}

// Whether no other of `sets` is included in `set`.
fn is_minimal(sets: &[SetList], set: &SetList) -> bool
    requires sets { AreRising sets.now }
    requires set { IsStrictlyIncreasing set.now }
    ensures { IsTrue result ↔ IsMinimal sets.now set.now }
{
    for other in sets {
        if is_smaller_subset(other, set) {
            return false;
        }
    }
    true
}

// Whether no other of `sets` includes `set`.
fn is_maximal(sets: &[SetList], set: &SetList) -> bool
    requires sets { AreRising sets.now }
    requires set { IsStrictlyIncreasing set.now }
    ensures { IsTrue result ↔ IsMaximal sets.now set.now }
{
    for other in sets {
        if is_smaller_subset(set, other) {
            return false;
        }
    }
    true
}

// Whether `large` has the numbers of `small`, and more; the lengths are compared first, as most pairs end there.
fn is_smaller_subset(small: &SetList, large: &SetList) -> bool
    ensures { IsTrue result ↔ ((length small.now < length large.now) × IsSubset small.now large.now) }
{
    small.len() < large.len() && small.is_subset(large)
}

#[cfg(test)]
mod tests;
