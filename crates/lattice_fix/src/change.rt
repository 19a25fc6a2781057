// What a solver hands back.
ghost use Rattle.std.specs.Prelude.{◌≡◌, ◌<◌, length, map, slice_get, Some};
ghost use Rattle.lattice_fix.specs.Solved.{somes, solved_of};

use std::marker::Model;

/// A raise of the value before `node`: by what `from` made of the value that it then had, or where there is no `from`
/// by the start.
#[derive(Clone, Copy, Debug, PartialEq, Eq)]
pub struct Change {
    pub node: u32,
    pub from: Option<u32>,
}

/// Why there is no solution.
#[derive(Debug, Drop, PartialEq, Eq)]
pub enum SolveFault<S> {
    /// The domain stopped.
    Stopped(S),
    OutOfMemory,
}

/// The value before each node, and the changes that led to them, in order.
#[derive(Drop)]
pub struct Solution<V> {
    // Each of them is there.
    values: Vec<Option<V>>,
    changes: Vec<Change>,
}

impl<V> Model for Solution<V> {
    ghost use Rattle.std.specs.Prelude.{◌≡◌, Some, map};
    ghost use Rattle.lattice_fix.specs.Solved.{Solved, somes, solved_of};

    ghost Value = { Solved V };

    ghost view = { λ solution. solved_of solution.values.items solution.changes.items };

    ghost invariant = { λ solution. map Some (somes solution.values.items) ≡ solution.values.items };
}

impl<V> Solution<V> {
    // The solution with these values, one in each slot.
    pub(crate) fn of(values: Vec<Option<V>>, changes: Vec<Change>) -> Self
        requires filled { map Some (somes values.items) ≡ values.items }
        ensures { result ≡ solved_of values.items changes.items }
    {
        Solution { values, changes }
    }

    /// The value before the node. Takes no memory.
    pub fn before(&self, node: u32) -> &V
        requires inside { node < length self.now.values }
        ensures value { slice_get self.now.values node ≡ Some result.now }
    {
        match &self.values[node as usize] {
            Some(value) => value,
            None => unreachable!(),
        }
    }

    /// Each raise, in order. Takes no memory.
    pub fn changes(&self) -> &[Change]
        ensures same { result.now ≡ self.now.changes }
    {
        &self.changes
    }
}
