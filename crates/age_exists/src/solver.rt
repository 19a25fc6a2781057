// The bounds of one block after another of a set.
ghost use Rattle.std.specs.Prelude.{◌≡◌, ◌<◌, ℕ, true, false, length, reverse, Some, IfOk};
ghost use Rattle.std.specs.List.{Contains};
ghost use Rattle.focus_spec.specs.Younger.{fetch_at};
ghost use Rattle.age_spec.specs.Ages.{AreMustAges, AreMayAges, AreRows};
ghost use Rattle.age_spec.specs.Exists.{AreHitBounds, AreMissBounds};
ghost use Rattle.age_spec.specs.Sound.{IsWitness};
ghost use Rattle.age_exists.specs.Solving.{IsSolving, MissesFirst};

use crate::fetchers::fetchers_of;
use crate::first_bounds::{are_all, first_bounds};
use crate::first_paths::first_paths;
use crate::near::near_bounds;
use crate::one_block::{BlockBounds, own_ages, solved};
use crate::retracing::{Entries, Step};
use crate::system::BoundSystem;
use age_must_may::Ages;
use cache_spec::Start;
use path_trail::trace;
use set_view::SetView;
use std::alloc::{AllocError, Global};
use std::marker::Model;

/// Finds the bounds of one block after another of a set. What they have in common is made once: the first path to each
/// node, and the nodes that fetch each block.
#[derive(Drop)]
pub struct BlockSolver<'v, 'g> {
    view: &'v SetView<'g>,
    start: Start,
    must: &'v Ages,
    may: &'v Ages,
    // The may ages of what each node fetches.
    own: Vec<u8>,
    // For each local block the nodes that fetch it.
    fetchers: Vec<Vec<u32>>,
    firsts: Vec<Step>,
}

impl<'v, 'g> Model for BlockSolver<'v, 'g> {
    ghost use Rattle.age_exists.specs.Solving.{Solving, solving_with};
    ghost use Rattle.age_exists.specs.Prepared.{IsPrepared};
    ghost use Rattle.age_exists.specs.Rows.{columns_seen};
    ghost use Rattle.age_exists.specs.Seen.{entries_seen};

    ghost Value = { Solving };

    ghost view = { λ s. solving_with s.view.now s.start s.must.now s.may.now (entries_seen s.firsts.items) };

    ghost invariant = { λ s.
        IsPrepared (solving_with s.view.now s.start s.must.now s.may.now (entries_seen s.firsts.items)) s.own.items
        (columns_seen s.fetchers.items) };
}

impl<'v, 'g> BlockSolver<'v, 'g> {
    /// The solver of the blocks of a view, over its must and may ages, for a set that starts so. It goes over the nodes
    /// a few times. The error is out of memory.
    pub fn new(
        alloc: Global,
        view: &'v SetView<'g>,
        start: Start,
        must: &'v Ages,
        may: &'v Ages,
    ) -> Result<Self, AllocError>
        requires must { AreMustAges view.now must.now }
        requires must_rows { AreRows view.now must.now }
        requires may { AreMayAges view.now start may.now }
        requires may_rows { AreRows view.now may.now }
        ensures view { IfOk result (λ solver. solver.view ≡ view.now) }
        ensures start { IfOk result (λ solver. solver.start ≡ start) }
        ensures must { IfOk result (λ solver. solver.must ≡ must.now) }
        ensures may { IfOk result (λ solver. solver.may ≡ may.now) }
    {
        let _blocks = view.blocks();
        let own = own_ages(alloc, view, may)?;
        let fetchers = fetchers_of(alloc, view)?;
        let firsts = first_paths(alloc, view.graph())?;
        Ok(BlockSolver {
            view,
            start,
            must,
            may,
            own,
            fetchers,
            firsts,
        })
    }

    /// The exists-hit bounds of a local block.
    ///
    /// Some path that ends in a node, from some list that the set may start with, leaves the block at most at the place
    /// that its bound says (after Touzeau, Maïza, Monniaux and Reineke 2017; the equations are this project's own). A
    /// fetch of the block can hit where its bound is below the number of ways. The error is out of memory.
    pub fn hit_bounds(&self, alloc: Global, block: u16) -> Result<BlockBounds<'v, 'g>, AllocError>
        requires { block < length self.now.view.blocks }
        ensures view { IfOk result (λ found. found.view ≡ self.now.view) }
        ensures start { IfOk result (λ found. found.start ≡ self.now.start) }
        ensures block { IfOk result (λ found. found.block ≡ block) }
        ensures hits { IfOk result (λ found. found.hits ≡ true) }
        ensures bounds { IfOk result (λ found.
            AreHitBounds self.now.view self.now.start self.now.must block found.bounds) }
    {
        let fetchers = &self.fetchers[block as usize];
        let (view, start) = (self.view, self.start);
        let found = near_bounds(alloc, view, self.must, start, block, fetchers, &self.firsts)?;
        Ok(BlockBounds::attested(view, start, block, true, found))
    }

    /// The exists-miss bounds of a local block.
    ///
    /// Some path that ends in a node, from some list that the set may start with, leaves the block at least at the
    /// place that its bound says (after Touzeau, Maïza, Monniaux and Reineke 2017; the equations are this project's
    /// own). A fetch of the block can miss where its bound is the number of ways. It goes over all nodes. The error is
    /// out of memory, also where the solver made more than 4,294,967,295 changes.
    pub fn miss_bounds(&self, alloc: Global, block: u16) -> Result<BlockBounds<'v, 'g>, AllocError>
        requires { block < length self.now.view.blocks }
        ensures view { IfOk result (λ found. found.view ≡ self.now.view) }
        ensures start { IfOk result (λ found. found.start ≡ self.now.start) }
        ensures block { IfOk result (λ found. found.block ≡ block) }
        ensures hits { IfOk result (λ found. found.hits ≡ false) }
        ensures bounds { IfOk result (λ found. AreMissBounds self.now.view self.now.may block found.bounds) }
    {
        let found = solved(alloc, self.view, &self.own, false, self.start, block)?;
        Ok(found)
    }

    /// Whether the first path to each of some nodes, which fetch the local block, attests that it can miss there. Where
    /// it is so, the exists-miss bounds needn't be found. `false` says nothing of other paths. It goes over the nodes
    /// once. The error is out of memory.
    pub fn miss_first(&self, alloc: Global, block: u16, nodes: &[u32]) -> Result<bool, AllocError>
        requires block { block < length self.now.view.blocks }
        requires fetch { (n : ℕ) → Contains nodes.now n → fetch_at self.now.view.fetches n ≡ Some block }
        ensures { IfOk result (λ all. all ≡ true → (n : ℕ) → Contains nodes.now n → MissesFirst self.now n) }
    {
        let system = BoundSystem {
            view: self.view,
            own: &self.own,
            hits: false,
            start: self.start,
            block,
        };
        let bounds = first_bounds(alloc, &system, &self.firsts)?;
        Ok(are_all(&bounds, nodes, self.view.ways() as u8))
    }

    /// The first path to a node, with its first member first. The error is out of memory. It takes time and memory in
    /// the order of the path's length.
    pub fn first_path(&self, alloc: Global, node: u32) -> Result<Vec<u32>, AllocError>
        requires { MissesFirst self.now node }
        ensures { IfOk result (λ path. IsWitness self.now.view self.now.start node false (reverse path.items)) }
    {
        let trail = Entries {
            steps: &self.firsts,
        };
        let path = trace(alloc, self.view.graph(), &trail, node)?;
        Ok(path)
    }
}
