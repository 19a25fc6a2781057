// The bounds of all local blocks, and the ways that they show.
ghost use Rattle.std.specs.Prelude.{◌≡◌, ◌↔◌, ◌<◌, ℕ, true, false, length, Some, IfOk, IfSome, IsSome};
ghost use Rattle.lattice_fix.specs.Solution.{IsLeast};
ghost use Rattle.focus_spec.specs.Fate.{NamesEnd};
ghost use Rattle.focus_spec.specs.Younger.{fetch_at};
ghost use Rattle.age_spec.specs.Ages.{AreMustAges, AreMayAges, AreRows};
ghost use Rattle.age_spec.specs.Settled.{IsShown, CanHitByBound, CanMissByBound};
ghost use Rattle.age_exists.specs.Equations.{own_ages, framework_of, setting_with};
ghost use Rattle.age_exists.specs.Bounded.{AreOwn};
ghost use Rattle.age_exists.specs.Columns.{AreColumns, AreHitColumns, AreMissColumns, AreHitsOf, AreMissesOf, bound_at, column_at};
ghost use Rattle.age_exists.specs.Rows.{columns_seen, rows_seen};

use crate::one_block::{is_shown, own_ages, solved, values_of};
use crate::system::BoundSystem;
use age_must_may::Ages;
use cache_spec::Start;
use lattice_fix::{SolveFault, solve};
use path_trail::Way;
use set_view::SetView;
use std::alloc::{AllocError, Global};
use std::marker::Model;

// What the set may hold at first, the ages of what each node fetches, and for each local block a byte before each node.
#[derive(Drop)]
struct BoundRows {
    start: Start,
    own: Vec<u8>,
    columns: Vec<Vec<u8>>,
}

/// The exists-hit bounds of a view: a byte for each local block before each node, and what it takes to find a way
/// again.
#[derive(Drop)]
pub struct HitBounds {
    rows: BoundRows,
}

impl Model for HitBounds {
    ghost use Rattle.age_exists.specs.Columns.{Columns};
    ghost use Rattle.age_exists.specs.Rows.{rows_seen};

    ghost Value = { Columns };

    ghost view = { λ hit. rows_seen hit.rows };
}

/// The exists-miss bounds of a view: a byte for each local block before each node, and what it takes to find a way
/// again.
#[derive(Drop)]
pub struct MissBounds {
    rows: BoundRows,
}

impl Model for MissBounds {
    ghost use Rattle.age_exists.specs.Columns.{Columns};
    ghost use Rattle.age_exists.specs.Rows.{rows_seen};

    ghost Value = { Columns };

    ghost view = { λ miss. rows_seen miss.rows };
}

/// The exists-hit bounds of each local block, over the must ages of the view, for a set that starts so: each block's
/// least solution of its equations.
///
/// Some path that ends in a node, from some list that the set may start with, leaves the block at most at the place
/// that its bound says (after Touzeau, Maïza, Monniaux and Reineke 2017; the equations are this project's own). It
/// solves block by block, in time of the nodes for each of them. The error is out of memory.
pub fn exists_hit(
    alloc: Global,
    view: &SetView,
    must: &Ages,
    start: Start,
) -> Result<HitBounds, AllocError>
    requires must { AreMustAges view.now must.now }
    ensures start { IfOk result (λ hit. hit.start ≡ start) }
    ensures columns { IfOk result (λ hit. AreHitColumns view.now start must.now hit.columns) }
    ensures of_view { IfOk result (AreHitsOf view.now) }
{
    let _blocks = view.blocks();
    let rows = bound_rows(alloc, view, must, true, start)?;
    Ok(HitBounds { rows })
}

/// The exists-miss bounds of each local block, over the may ages of the view, for a set that starts so: each block's
/// least solution of its equations.
///
/// Some path that ends in a node, from some list that the set may start with, leaves the block at least at the place
/// that its bound says (after Touzeau, Maïza, Monniaux and Reineke 2017; the equations are this project's own). It
/// solves block by block, in time of the nodes for each of them. The error is out of memory.
pub fn exists_miss(
    alloc: Global,
    view: &SetView,
    may: &Ages,
    start: Start,
) -> Result<MissBounds, AllocError>
    requires may { AreMayAges view.now start may.now }
    ensures start { IfOk result (λ miss. miss.start ≡ start) }
    ensures columns { IfOk result (λ miss. AreMissColumns view.now may.now miss.columns) }
    ensures of_view { IfOk result (AreMissesOf view.now) }
{
    let _blocks = view.blocks();
    let rows = bound_rows(alloc, view, may, false, start)?;
    Ok(MissBounds { rows })
}

impl HitBounds {
    /// The bound of a local block before a node: 0 to the number of ways. `local` is a place among the blocks of the
    /// view, and the node's number is below the number of nodes. Takes no memory.
    pub fn bound(&self, node: u32, local: u16) -> u32
        requires local { local < length self.now.columns }
        requires node { node < length (column_at self.now.columns local) }
        ensures { result ≡ bound_at self.now node local }
    {
        u32::from(self.rows.columns[local as usize][node as usize])
    }

    /// A way of a path that ends in a node, which fetches the set, and can hit there. `None` exactly where the bound
    /// of the fetched block is the number of ways. It solves the block again: for many nodes of one block take
    /// `BlockSolver::hit_bounds`. The error is out of memory, also where the solver made more than 4,294,967,295
    /// changes.
    pub fn way(&self, alloc: Global, view: &SetView, node: u32) -> Result<Option<Way>, AllocError>
        requires fetches { IsSome (fetch_at view.now.fetches node) }
        requires of_view { AreHitsOf view.now self.now }
        ensures variant { IfOk result (λ found. (local : ℕ) → fetch_at view.now.fetches node ≡ Some local →
            (IsSome found ↔ CanHitByBound view.now.geometry.ways (bound_at self.now node local))) }
        ensures way { IfOk result (λ found. IfSome found (λ way.
            NamesEnd view.now.nodes view.now.geometry self.now.start node way true)) }
    {
        let _blocks = view.blocks();
        way_to(alloc, view, &self.rows, true, node)
    }
}

impl MissBounds {
    /// The bound of a local block before a node: 0 to the number of ways. `local` is a place among the blocks of the
    /// view, and the node's number is below the number of nodes. Takes no memory.
    pub fn bound(&self, node: u32, local: u16) -> u32
        requires local { local < length self.now.columns }
        requires node { node < length (column_at self.now.columns local) }
        ensures { result ≡ bound_at self.now node local }
    {
        u32::from(self.rows.columns[local as usize][node as usize])
    }

    /// A way of a path that ends in a node, which fetches the set, and can miss there. `None` exactly where the bound
    /// of the fetched block is below the number of ways. It solves the block again: for many nodes of one block take
    /// `BlockSolver::miss_bounds`. The error is out of memory, also where the solver made more than 4,294,967,295
    /// changes.
    pub fn way(&self, alloc: Global, view: &SetView, node: u32) -> Result<Option<Way>, AllocError>
        requires fetches { IsSome (fetch_at view.now.fetches node) }
        requires of_view { AreMissesOf view.now self.now }
        ensures variant { IfOk result (λ found. (local : ℕ) → fetch_at view.now.fetches node ≡ Some local →
            (IsSome found ↔ CanMissByBound view.now.geometry.ways (bound_at self.now node local))) }
        ensures way { IfOk result (λ found. IfSome found (λ way.
            NamesEnd view.now.nodes view.now.geometry self.now.start node way false)) }
    {
        let _blocks = view.blocks();
        way_to(alloc, view, &self.rows, false, node)
    }
}

// The way that the bound of the block shows that a node fetches.
fn way_to(
    alloc: Global,
    view: &SetView,
    rows: &BoundRows,
    hits: bool,
    node: u32,
) -> Result<Option<Way>, AllocError>
    requires fetches { IsSome (fetch_at view.now.fetches node) }
    requires own { AreOwn view.now rows.now.start hits rows.now.own.items }
    requires columns { AreColumns view.now rows.now.start hits rows.now.own.items
        (columns_seen rows.now.columns.items) }
    ensures variant { IfOk result (λ found. (local : ℕ) → fetch_at view.now.fetches node ≡ Some local →
        (IsSome found ↔ IsShown hits view.now.geometry.ways (bound_at (rows_seen rows.now) node local))) }
    ensures way { IfOk result (λ found. IfSome found (λ way.
        NamesEnd view.now.nodes view.now.geometry rows.now.start node way hits)) }
{
    let blocks = view.blocks();
    let Some(block) = view.fetch(node) else {
        return Ok(None);
    };
    prove!((block as usize) < blocks.len());
    let found = solved(alloc, view, &rows.own, hits, rows.start, block)?;
    let way = found.way(alloc, node)?;
    Ok(way)
}

// The bounds of all local blocks over these ages.
fn bound_rows(
    alloc: Global,
    view: &SetView,
    ages: &Ages,
    hits: bool,
    start: Start,
) -> Result<BoundRows, AllocError>
    requires { AreRows view.now ages.now }
    ensures start { IfOk result (λ rows. rows.start ≡ start) }
    ensures own { IfOk result (λ rows. rows.own.items ≡ own_ages view.now.fetches ages.now) }
    ensures columns { IfOk result (λ rows.
        AreColumns view.now start hits rows.own.items (columns_seen rows.columns.items)) }
{
    let own = own_ages(alloc, view, ages)?;
    let columns = columns(alloc, view, &own, hits, start)?;
    Ok(BoundRows {
        start,
        own,
        columns,
    })
}

// The bounds of all local blocks over the ages of what each node fetches.
fn columns(
    alloc: Global,
    view: &SetView,
    own: &[u8],
    hits: bool,
    start: Start,
) -> Result<Vec<Vec<u8>>, AllocError>
    ensures { IfOk result (λ columns. AreColumns view.now start hits own.now (columns_seen columns.items)) }
{
    let mut columns = Vec::new(alloc);
    let blocks = view.blocks();
    prove!(blocks.len() <= 1024);
    for block in 0..blocks.len() as u16 {
        columns.push(column(alloc, view, own, hits, start, block)?)?;
    }
    Ok(columns)
}

// The bounds of one local block.
fn column(
    alloc: Global,
    view: &SetView,
    own: &[u8],
    hits: bool,
    start: Start,
    block: u16,
) -> Result<Vec<u8>, AllocError>
    ensures { IfOk result (λ column.
        IsLeast (framework_of (setting_with hits view.now start own.now block)) view.now.nodes column.items) }
{
    let mut system = BoundSystem {
        view,
        own,
        hits,
        start,
        block,
    };
    match solve(alloc, view.graph(), &mut system) {
        Ok(solution) => values_of(alloc, &solution, view.graph().nodes().len() as u32),
        Err(SolveFault::Stopped(stop)) => Err(stop),
        Err(SolveFault::OutOfMemory) => Err(AllocError),
    }
}
