//! A finite set of numbers of 16 bits, as a list that rises.
//!
//! `SetList` is seen as the list of its numbers, rising and so without repeats. It stands on std alone, and its proofs on
//! `list_lemmas`. Its contract gives the layer above each operation on sets as a fact on what the lists contain, and an
//! order in which sets can be kept, where a prefix of a set comes before it.
#![tactic(auto)]

ghost use Rattle.std.specs.Prelude.{◌≡◌, ℕ, ◌↔◌, ◌⊎◌, List, [], length, ◌<◌, ◌≤◌, slice_index, IfOk, OnOk, IsTrue};
ghost use Rattle.std.specs.Cmp.Lexicographic.{slice_cmp};
ghost use Rattle.std.specs.List.{Contains};
ghost use Rattle.std.specs.List.Sorted.{IsStrictlyIncreasing};
ghost use Rattle.std.specs.Ordering.{nat_cmp};
ghost use Rattle.set_list.specs.SetList.{IsSubset};

use std::alloc::{AllocError, Global};
use std::cmp::Ordering;
use std::marker::Model;

/// A finite set of numbers of 16 bits.
#[derive(Drop)]
pub struct SetList {
    // Each number once, rising.
    items: Vec<u16>,
}

impl Model for SetList {
    ghost use Rattle.std.specs.Prelude.{ℕ, List};
    ghost use Rattle.std.specs.List.Sorted.{IsStrictlyIncreasing};

    ghost Value = { List ℕ };

    ghost view = { λ set. set.items.items };

    ghost invariant = { λ set. IsStrictlyIncreasing set.items.items };
}

impl SetList {
    /// The set without numbers, which takes no memory until it grows.
    pub fn empty(alloc: Global) -> Self
        ensures { result ≡ [] }
    {
        SetList {
            items: Vec::new(alloc),
        }
    }

    /// The same set in memory of its own. The error is out of memory.
    pub fn try_clone(&self) -> Result<Self, AllocError>
        ensures value { IfOk result (λ set. set ≡ self.now) }
        ensures rising { IfOk result (λ set. IsStrictlyIncreasing set) }
    {
        Ok(SetList {
            items: self.items.clone()?,
        })
    }

    /// A new set with these numbers and `x`, which may be one of them. The error is out of memory.
    pub fn insert(&self, x: u16) -> Result<Self, AllocError>
        ensures rising { IfOk result (λ set. IsStrictlyIncreasing set) }
        ensures members { IfOk result (λ set. (y : ℕ) → Contains set y ↔ (Contains self.now y ⊎ (y ≡ x))) }
    {
        let mut set = self.try_clone()?;
        set.add(x)?;
        Ok(set)
    }

    // Puts `x` in its place, unless it is there.
    fn add(&mut self, x: u16) -> Result<(), AllocError>
        ensures rising { IsStrictlyIncreasing self.new }
        ensures members { OnOk result ((y : ℕ) → Contains self.new y ↔ (Contains self.old y ⊎ (y ≡ x))) }
    {
        let place = match self.items.binary_search(&x) {
            Ok(_) => return Ok(()),
            Err(place) => place,
        };
        self.items.insert(place, x)?;
        Ok(())
    }

    /// Whether each number of this set is in `other`. It takes time in the order of the length of `other`.
    pub fn is_subset(&self, other: &SetList) -> bool
        ensures { IsTrue result ↔ IsSubset self.now other.now }
    {
        let wanted = self.items();
        count_found(wanted, other.items()) == wanted.len()
    }

    /// The order of the first numbers that differ; where one set is a prefix of the other, that one comes first.
    pub fn compare(&self, other: &SetList) -> Ordering
        ensures { result ≡ slice_cmp nat_cmp self.now other.now }
    {
        self.items.cmp(&other.items)
    }

    /// The numbers, rising.
    pub fn items(&self) -> &[u16]
        ensures value { result.now ≡ self.now }
        ensures rising { IsStrictlyIncreasing result.now }
    {
        &self.items
    }

    /// How many numbers the set has.
    pub fn len(&self) -> usize
        ensures { result ≡ length self.now }
    {
        self.items.len()
    }

    /// Whether the set has no numbers.
    pub fn is_empty(&self) -> bool
        ensures { IsTrue result ↔ (self.now ≡ []) }
    {
        self.items.is_empty()
    }
}

// How many numbers at the beginning of `wanted` are found in `items`, where both rise; the next is not there.
fn count_found(wanted: &[u16], items: &[u16]) -> usize
    requires wanted { IsStrictlyIncreasing wanted.now }
    requires items { IsStrictlyIncreasing items.now }
    ensures within { result ≤ length wanted.now }
    ensures found { (k : ℕ) → k < result → Contains items.now (slice_index wanted.now k) }
    ensures missing { result < length wanted.now → Contains items.now (slice_index wanted.now result) → ⊥ }
{
    let mut found = 0;
    for &item in items {
        if found < wanted.len() && wanted[found] == item {
            found += 1;
        }
    }
    found
}

#[cfg(test)]
mod tests {
    use super::*;

    // The set of these numbers, in whatever order they come.
    fn set_of(alloc: Global, numbers: &[u16]) -> Result<SetList, AllocError> {
        let mut set = SetList::empty(alloc);
        for &x in numbers {
            set = set.insert(x)?;
        }
        Ok(set)
    }

    #[test]
    fn numbers_stand_once_and_rise(rt: HostRuntime) -> Result<(), AllocError> {
        let set = set_of(rt.alloc(), &[3, 1, 65535, 3, 0])?;
        assert_eq!(rt; set.items(), [0, 1, 3, 65535].as_slice());
        assert_eq!(rt; set.len(), 4);
        assert!(rt; SetList::empty(rt.alloc()).is_empty());
        Ok(())
    }

    #[test]
    fn insert_leaves_the_set(rt: HostRuntime) -> Result<(), AllocError> {
        let set = set_of(rt.alloc(), &[2])?;
        let more = set.insert(1)?;
        assert_eq!(rt; set.items(), [2].as_slice());
        assert_eq!(rt; more.items(), [1, 2].as_slice());
        assert_eq!(rt; more.try_clone()?.items(), more.items());
        Ok(())
    }

    #[test]
    fn a_subset_has_no_number_of_its_own(rt: HostRuntime) -> Result<(), AllocError> {
        let whole = set_of(rt.alloc(), &[1, 2, 4])?;
        assert!(rt; SetList::empty(rt.alloc()).is_subset(&whole));
        assert!(rt; set_of(rt.alloc(), &[1, 4])?.is_subset(&whole));
        assert!(rt; whole.is_subset(&whole));
        assert!(rt; !set_of(rt.alloc(), &[1, 3])?.is_subset(&whole));
        assert!(rt; !whole.is_subset(&set_of(rt.alloc(), &[1, 2])?));
        Ok(())
    }

    #[test]
    fn a_prefix_comes_first(rt: HostRuntime) -> Result<(), AllocError> {
        let short = set_of(rt.alloc(), &[1])?;
        let long = set_of(rt.alloc(), &[1, 2])?;
        let late = set_of(rt.alloc(), &[2])?;
        assert_eq!(rt; short.compare(&long), Ordering::Less);
        assert_eq!(rt; late.compare(&long), Ordering::Greater);
        assert_eq!(rt; long.compare(&long), Ordering::Equal);
        Ok(())
    }
}
