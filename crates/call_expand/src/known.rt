ghost use Rattle.std.specs.Prelude.{◌≡◌, ◌+◌, ◌^◌, ◌<◌, List, [], ◌∷◌, ◌++◌, length, slice_get, Contains, MatchOption, OnOk};
ghost use Rattle.call_expand.specs.declared.point.Point.{Point};
ghost use Rattle.call_expand.specs.Numbers.{AreApart, AreNew, IsAdded};

use crate::point::Point;
use std::alloc::{AllocError, Global};
use std::collections::BTreeMap;
use std::marker::Model;

// The points so far in the order of their numbers, and the number of each. Its value is the list of the points.
#[derive(Drop)]
pub(crate) struct Known {
    points: Vec<Point>,
    numbers: BTreeMap<(u32, u8, u32), u32>,
}

impl Model for Known {
    ghost use Rattle.std.specs.Prelude.{List};
    ghost use Rattle.call_expand.specs.declared.point.Point.{Point};
    ghost use Rattle.call_expand.specs.Numbers.{AreNumbers};

    ghost Value = { List Point };

    ghost view = { λ known. known.points.items };

    ghost invariant = { λ known. AreNumbers known.points.items known.numbers };
}

impl Known {
    pub(crate) fn empty(alloc: Global) -> Self
        ensures { result ≡ [] }
    {
        Known {
            points: Vec::new(alloc),
            numbers: BTreeMap::new(alloc),
        }
    }

    pub(crate) fn points(&self) -> &[Point]
        ensures { result.now ≡ self.now }
    {
        &self.points
    }

    pub(crate) fn into_points(self) -> Vec<Point>
        ensures same { result.items ≡ self }
        ensures apart { AreApart self }
    {
        self.points
    }

    // The number of a point, where it has one.
    pub(crate) fn number_of(&self, point: Point) -> Option<u32>
        ensures { MatchOption result (Contains self.now point → ⊥)
            (λ number. slice_get self.now number ≡ Some point) }
    {
        self.numbers
            .get(&(point.at, point.part, point.stack))
            .copied()
    }

    // Gives a point the next number.
    pub(crate) fn add(&mut self, point: Point) -> Result<(), AllocError>
        requires new { Contains self.old point → ⊥ }
        requires room { length self.old < 2 ^ 32 }
        ensures { OnOk result (self.new ≡ self.old ++ point ∷ []) }
    {
        let number = self.points.len() as u32;
        // Takes the room first, so that the map numbers listed points alone, even where memory runs out.
        self.points.reserve(1)?;
        self.numbers
            .insert((point.at, point.part, point.stack), number)?;
        self.points.push_reserved(point);
        Ok(())
    }

    // Numbers a point that has no number yet.
    fn add_if_new(&mut self, point: Point) -> Result<(), AllocError>
        requires { length self.old < 2 ^ 32 }
        ensures { OnOk result (IsAdded self.old point self.new) }
    {
        match self.number_of(point) {
            Some(_) => Ok(()),
            None => self.add(point),
        }
    }

    // Numbers those points that have no number yet, in their order.
    pub(crate) fn add_new(&mut self, points: &[Point]) -> Result<(), AllocError>
        requires { length self.old + length points.now < 2 ^ 32 }
        ensures { OnOk result ((more : List Point) × (self.new ≡ self.old ++ more) × AreNew self.old points.now more) }
    {
        for point in points {
            self.add_if_new(*point)?;
        }
        Ok(())
    }
}
