// The shape of a cache.
ghost use Rattle.std.specs.Prelude.{◌≡◌, ◌<◌, ◌≤◌, is_some, IsTrue, IfSome};
ghost use Rattle.cache_spec.specs.Geometry.{is_in_range, is_line, is_set_count, is_way_count, block_of, set_of};

use std::marker::Model;

/// The shape of a set-associative cache: the bytes of a line, the number of sets, and the ways of each set.
#[derive(Clone, Copy, Debug, PartialEq, Eq)]
pub struct Geometry {
    line: u32,
    sets: u32,
    ways: u32,
}

impl Model for Geometry {
    ghost use Rattle.std.specs.Prelude.{IsTrue};
    ghost use Rattle.cache_spec.specs.Geometry.{Geometry as Shape, is_in_range};

    ghost Value = { Shape };

    ghost view = { λ g. record { line = g.line; sets = g.sets; ways = g.ways } };

    ghost invariant = { λ g.
        IsTrue (is_in_range (record { line = g.line; sets = g.sets; ways = g.ways })) };

    ghost inverse = { λ g. record { line = g.line; sets = g.sets; ways = g.ways } };
}

// A power of two from 4 to 256.
fn is_line(line: u32) -> bool
    ensures { result ≡ is_line line }
{
    line.is_power_of_two() && (4..=256).contains(&line)
}

// A power of two from 1 to 4,096.
fn is_set_count(sets: u32) -> bool
    ensures { result ≡ is_set_count sets }
{
    sets.is_power_of_two() && sets <= 4096
}

fn is_way_count(ways: u32) -> bool
    ensures { result ≡ is_way_count ways }
{
    (1..=16).contains(&ways)
}

impl Geometry {
    /// The geometry of these three numbers, where `line` is a power of two from 4 to 256, `sets` a power of two from 1
    /// to 4,096, and `ways` from 1 to 16.
    pub fn new(line: u32, sets: u32, ways: u32) -> Option<Self>
        ensures in_range { is_some result ≡
            is_in_range (record { line = line; sets = sets; ways = ways }) }
        ensures numbers { IfSome result (λ g. (g.line ≡ line) × (g.sets ≡ sets) × (g.ways ≡ ways)) }
    {
        if is_line(line) && is_set_count(sets) && is_way_count(ways) {
            Some(Geometry { line, sets, ways })
        } else {
            None
        }
    }

    /// The bytes of a line: a power of two from 4 to 256. Each geometry is in the ranges that `new` takes.
    pub fn line(&self) -> u32
        ensures value { result ≡ self.now.line }
        ensures in_range { IsTrue (is_in_range self.now) }
        ensures least { 4 ≤ result }
        ensures most { result ≤ 256 }
    {
        self.line
    }

    /// The number of sets: a power of two from 1 to 4,096.
    pub fn sets(&self) -> u32
        ensures value { result ≡ self.now.sets }
        ensures least { 1 ≤ result }
        ensures most { result ≤ 4096 }
    {
        self.sets
    }

    /// How many blocks each set has room for: 1 to 16.
    pub fn ways(&self) -> u32
        ensures value { result ≡ self.now.ways }
        ensures least { 1 ≤ result }
        ensures most { result ≤ 16 }
    {
        self.ways
    }

    /// The block that the address `p` lies in, numbered from address 0 on.
    pub fn block(&self, p: u32) -> u32
        ensures { result ≡ block_of self.now p }
    {
        p / self.line
    }

    /// The set that keeps this block.
    pub fn set_of(&self, block: u32) -> u32
        ensures value { result ≡ set_of self.now block }
        ensures below { result < self.now.sets }
    {
        block % self.sets
    }
}

#[cfg(test)]
mod tests {
    use super::*;

    #[test]
    fn numbers_out_of_range_make_no_geometry(rt: HostRuntime) {
        for (line, sets, ways) in [
            (12, 1, 1),
            (2, 1, 1),
            (512, 1, 1),
            (4, 0, 1),
            (4, 3, 1),
            (4, 8192, 1),
            (4, 1, 0),
            (4, 1, 17),
        ] {
            assert_eq!(rt;
                Geometry::new(line, sets, ways),
                None,
                "at {line} {sets} {ways}"
            );
        }
    }

    #[test]
    fn numbers_at_the_ends_of_their_ranges_are_taken(rt: HostRuntime) {
        for (line, sets, ways) in [(4, 1, 1), (16, 1, 1), (256, 4096, 16)] {
            let geometry = Geometry::new(line, sets, ways).expect(&rt, "in range");
            assert_eq!(rt;
                (geometry.line(), geometry.sets(), geometry.ways()),
                (line, sets, ways)
            );
        }
    }

    #[test]
    fn an_address_has_a_block_and_a_block_a_set(rt: HostRuntime) {
        let geometry = Geometry::new(16, 16, 4).expect(&rt, "in range");
        assert_eq!(rt; geometry.block(0x10004), 0x1000);
        assert_eq!(rt; geometry.set_of(0x2001), 1);
    }
}
