// One set of a cache with least-recently-used replacement.
ghost use Rattle.std.specs.Prelude.{◌≡◌, ℕ, ◌+◌, ◌<◌, ◌≤◌, ◌==◌, List, [], ◌∷◌, ◌++◌, length, take, drop, slice_get, position};
ghost use Rattle.cache_spec.specs.Lru.{touch, is_in};
ghost use Rattle.cache_spec.specs.Distinct.{AreDistinct};

use crate::Geometry;
use std::marker::Model;

// As many slots as a geometry can have ways.
const SLOTS: usize = 16;

/// The blocks that one set of a cache keeps, the most recently fetched first: at most `ways`, no two the same.
#[derive(Clone, Copy, Debug, PartialEq, Eq)]
pub struct LruSet {
    // The blocks, and 0 in each slot past them.
    slots: [u32; SLOTS],
    len: usize,
    ways: u32,
}

impl Model for LruSet {
    ghost use Rattle.std.specs.Prelude.{◌-◌, ◌++◌, length, take, replicate};
    ghost use Rattle.cache_geom.specs.LruSet.{LruSet as Recent, IsSound};
    ghost use Rattle.cache_geom.specs.Slots.{length-blocks, slots_from_blocks};

    ghost Value = { Recent };

    ghost view = { λ s. record { blocks = take s.len s.slots; ways = s.ways } };

    ghost invariant = { λ s. IsSound s.slots s.len s.ways };

    ghost inverse = { λ s. record {
      slots = s.blocks ++ replicate (16 - length s.blocks) 0;
      len = length s.blocks;
      ways = s.ways;
    } };

    ghost inverse_ok = { λ s sound i. record {
      slots = slots_from_blocks s.slots s.len s.ways sound i;
      len = length-blocks s.slots s.len s.ways sound i;
      ways = s.ways;
    } };
}

// The place of `block` among `blocks`.
fn place_of(blocks: &[u32], block: u32) -> Option<usize>
    ensures { result ≡ position (λ other. other == block) blocks.now }
{
    blocks.iter().position(|&other| other == block)
}

// Puts `block` first and moves each slot before `place` back by one, over the slot at `place`.
fn put_first(slots: &mut [u32], place: usize, block: u32)
    requires { place < length slots.old }
    ensures { slots.new ≡ block ∷ (take place slots.old ++ drop (place + 1) slots.old) }
{
    slots.copy_within(..place, 1);
    slots[0] = block;
}

impl LruSet {
    /// A set of this geometry that keeps no block yet.
    pub fn empty(geometry: &Geometry) -> Self
        ensures blocks { result.blocks ≡ [] }
        ensures ways { result.ways ≡ geometry.now.ways }
    {
        LruSet {
            slots: [0; SLOTS],
            len: 0,
            ways: geometry.ways(),
        }
    }

    /// Fetches `block`, and tells whether it hit: the block was among those kept.
    ///
    /// The block then stands first, and the others after it in their order; where that is one more than `ways`, the
    /// last is dropped. This is the textbook's LRU replacement. It takes time in the order of `ways`.
    pub fn touch(&mut self, block: u32) -> bool
        ensures hit { result ≡ is_in self.old.blocks block }
        ensures blocks { self.new.blocks ≡ touch self.old.ways self.old.blocks block }
        ensures ways { self.new.ways ≡ self.old.ways }
    {
        let found = place_of(self.blocks(), block);
        let last = self.ways as usize - 1;
        let place = found.unwrap_or(self.len).min(last);
        put_first(&mut self.slots, place, block);
        self.len = self.len.max(place + 1);
        found.is_some()
    }

    /// The blocks that the set keeps, the most recently fetched first.
    pub fn blocks(&self) -> &[u32]
        ensures value { result.now ≡ self.now.blocks }
        ensures few { length self.now.blocks ≤ self.now.ways }
        ensures distinct { AreDistinct self.now.blocks }
    {
        &self.slots[..self.len]
    }

    /// How many blocks the set has room for: 1 to 16.
    pub fn ways(&self) -> u32
        ensures value { result ≡ self.now.ways }
        ensures least { 1 ≤ result }
        ensures most { result ≤ 16 }
    {
        self.ways
    }
}

/// What a fetch makes of any list of blocks: blocks of which no two are the same stay so, the fetched block stands
/// first, and there are at most `ways`.
pub fn touch_keeps_sets()
    ensures distinct { (ways block : ℕ) (blocks : List ℕ) →
        AreDistinct blocks → AreDistinct (touch ways blocks block) }
    ensures first { (ways block : ℕ) (blocks : List ℕ) →
        1 ≤ ways → slice_get (touch ways blocks block) 0 ≡ Some block }
    ensures few { (ways block : ℕ) (blocks : List ℕ) → length (touch ways blocks block) ≤ ways }
{}

#[cfg(test)]
mod tests {
    use super::*;

    #[test]
    fn the_block_not_fetched_for_longest_is_dropped(rt: HostRuntime) {
        let geometry = Geometry::new(16, 1, 2).expect(&rt, "in range");
        let mut set = LruSet::empty(&geometry);
        assert_eq!(rt; set.ways(), 2);
        assert!(rt; set.blocks().is_empty());
        for (block, hits) in [(1, false), (2, false), (1, true), (3, false), (2, false)] {
            assert_eq!(rt; set.touch(block), hits, "at {block}");
        }
        assert_eq!(rt; set.blocks(), [2, 3].as_slice());
    }

    #[test]
    fn a_full_set_of_sixteen_ways_keeps_the_last_sixteen(rt: HostRuntime) {
        let geometry = Geometry::new(16, 1, 16).expect(&rt, "in range");
        let mut set = LruSet::empty(&geometry);
        for block in 0..17 {
            assert!(rt; !set.touch(block));
        }
        assert!(rt; set.touch(1));
        assert!(rt; !set.touch(0));
        assert_eq!(rt;
            set.blocks(),
            [0, 1, 16, 15, 14, 13, 12, 11, 10, 9, 8, 7, 6, 5, 4, 3].as_slice()
        );
        touch_keeps_sets();
    }
}
