// The must and may ages.
ghost use Rattle.std.specs.Prelude.{◌≡◌, ◌<◌, [], length, IfOk, slice_index_or};
ghost use Rattle.cache_spec.specs.declared.start.Start.{Start};
ghost use Rattle.lattice_fix.specs.Solution.{IsLeast};
ghost use Rattle.age_spec.specs.declared.kind.Kind.{Kind};
ghost use Rattle.age_spec.specs.Ages.{age_framework, setting_of, AreMustAges, AreMayAges, age_of, AreRows};
ghost use Rattle.age_spec.specs.Sound.{BoundPlaces};

use crate::system::AgeSystem;
use age_spec::Kind;
use cache_spec::Start;
use lattice_fix::{Solution, SolveFault, solve};
use set_view::SetView;
use std::alloc::{AllocError, Global};
use std::marker::Model;

/// The ages of one kind: a byte for each local block before each node of a view's graph.
#[derive(Drop)]
pub struct Ages {
    solution: Solution<Vec<u8>>,
}

impl Model for Ages {
    ghost use Rattle.std.specs.Prelude.{List, ℕ, map};

    ghost Value = { List (List ℕ) };

    ghost view = { λ ages. map (λ row. row.items) ages.solution.values };
}

impl Ages {
    /// The age of a local block before a node: 0 to the ways. The node's number is below the number of nodes, and
    /// `local` is a place among the blocks of the view. Takes no memory.
    pub fn age(&self, node: u32, local: u16) -> u32
        requires node { node < length self.now }
        requires local { local < length (slice_index_or self.now node []) }
        ensures { result ≡ age_of self.now node local }
    {
        u32::from(self.solution.before(node)[local as usize])
    }
}

/// The must ages of a view, the least solution of their equations. An error is out of memory.
///
/// On each path to a node, from each list that the set may start with, a block's place is at most its must age; the
/// number of ways says nothing, since it is the place of a block that isn't kept. A fetch always hits where the must age
/// of its block is below the ways (Ferdinand and Wilhelm 1999).
pub fn must(alloc: Global, view: &SetView) -> Result<Ages, AllocError>
    ensures least { IfOk result (AreMustAges view.now) }
    ensures rows { IfOk result (AreRows view.now) }
    ensures above { IfOk result (λ ages. (start : Start) → BoundPlaces view.now Kind.Must start ages) }
{
    let _blocks = view.blocks();
    ages_of(alloc, view, Kind::Must, Start::Empty)
}

/// The may ages of a view, the least solution of their equations, for a set that starts so. An error is out of memory.
///
/// On each path to a node, from each list that the set may start with, a block's place is at least its may age. A fetch
/// always misses where the may age of its block is the number of ways (Ferdinand and Wilhelm 1999).
pub fn may(alloc: Global, view: &SetView, start: Start) -> Result<Ages, AllocError>
    ensures least { IfOk result (AreMayAges view.now start) }
    ensures rows { IfOk result (AreRows view.now) }
    ensures below { IfOk result (BoundPlaces view.now Kind.May start) }
{
    ages_of(alloc, view, Kind::May, start)
}

// The ages of a kind.
fn ages_of(alloc: Global, view: &SetView, kind: Kind, start: Start) -> Result<Ages, AllocError>
    ensures least { IfOk result (λ ages. IsLeast (age_framework (setting_of view.now kind start)) view.now.nodes ages) }
    ensures rows { IfOk result (AreRows view.now) }
    ensures bounds { IfOk result (BoundPlaces view.now kind start) }
{
    let _blocks = view.blocks();
    let mut system = AgeSystem {
        alloc,
        view,
        kind,
        start,
    };
    match solve(alloc, view.graph(), &mut system) {
        Ok(solution) => Ok(Ages { solution }),
        Err(SolveFault::Stopped(stop)) => Err(stop),
        Err(SolveFault::OutOfMemory) => Err(AllocError),
    }
}
