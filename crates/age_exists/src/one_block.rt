// The bounds of one block, and the paths that attest them.
ghost use Rattle.std.specs.Prelude.{◌≡◌, ◌↔◌, ℕ, ◌<◌, true, false, List, length, reverse, Some, IfOk, IfSome, IsSome, IsTrue};
ghost use Rattle.std.specs.List.{All};
ghost use Rattle.lattice_fix.specs.Solution.{IsLeast};
ghost use Rattle.focus_spec.specs.Fate.{NamesEnd};
ghost use Rattle.focus_spec.specs.Younger.{fetch_at};
ghost use Rattle.age_spec.specs.Ages.{AreRows, age_at};
ghost use Rattle.age_spec.specs.Settled.{IsShown};
ghost use Rattle.age_spec.specs.Sound.{IsWitness};
ghost use Rattle.age_exists.specs.Equations.{own_age, own_ages, framework_of, setting_with};
ghost use Rattle.age_exists.specs.Bounded.{AreOwn, AreAttested, IsFoundOver, bounded_with};
ghost use Rattle.age_exists.specs.Retraced.{with_changes, no_entries};
ghost use Rattle.age_exists.specs.Seen.{seen_as};

use crate::retracing::{Entries, Steps, retrace};
use crate::system::BoundSystem;
use age_must_may::Ages;
use cache_spec::Start;
use lattice_fix::{Solution, SolveFault, solve};
use path_model::choices_of;
use path_trail::{Choices, Way, trace};
use set_view::SetView;
use std::alloc::{AllocError, Global};
use std::marker::Model;

/// The exists-hit or exists-miss bounds of one local block before each node of a view, and for each node the path that
/// attests its bound.
#[derive(Drop)]
pub struct BlockBounds<'v, 'g> {
    view: &'v SetView<'g>,
    start: Start,
    block: u16,
    hits: bool,
    bounds: Vec<u8>,
    steps: Steps,
}

impl<'v, 'g> Model for BlockBounds<'v, 'g> {
    ghost use Rattle.age_exists.specs.Bounded.{Bounded, AreAttested, bounded_with};
    ghost use Rattle.age_exists.specs.Seen.{seen_as};

    ghost Value = { Bounded };

    ghost view = { λ b. bounded_with b.view.now b.start b.block b.hits b.bounds.items };

    ghost invariant = { λ b.
        AreAttested (bounded_with b.view.now b.start b.block b.hits b.bounds.items) (seen_as b.steps) };
}

impl<'v, 'g> BlockBounds<'v, 'g> {
    /// Bounds that were found for a local block, each attested by the last entry of its node.
    pub(crate) fn attested(
        view: &'v SetView<'g>,
        start: Start,
        block: u16,
        hits: bool,
        found: FoundBounds,
    ) -> Self
        requires { AreAttested (bounded_with view.now start block hits found.bounds.items) (seen_as found.steps) }
        ensures { result ≡ bounded_with view.now start block hits found.bounds.items }
    {
        BlockBounds {
            view,
            start,
            block,
            hits,
            bounds: found.bounds,
            steps: found.steps,
        }
    }

    /// The bound before a node: 0 to the number of ways. The node's number is below the number of nodes. Takes no
    /// memory. Where the node fetches the block and the bound shows that it can hit, or can miss, some path attests
    /// this, even if `path` isn't called.
    pub fn bound(&self, node: u32) -> u32
        requires { node < length self.now.view.nodes }
        ensures bound { result ≡ age_at self.now.bounds node }
        ensures attested { fetch_at self.now.view.fetches node ≡ Some self.now.block
            → IsShown self.now.hits self.now.view.geometry.ways result
            → (members : List ℕ) × IsWitness self.now.view self.now.start node self.now.hits members }
    {
        u32::from(self.bounds[node as usize])
    }

    /// The path that attests the bound before a node, which fetches the block, with its first member first: it can
    /// hit there, or can miss where these are exists-miss bounds. `None` exactly where the bound doesn't show that
    /// some path does. The error is out of memory. It takes time and memory in the order of the path's length.
    pub fn path(&self, alloc: Global, node: u32) -> Result<Option<Vec<u32>>, AllocError>
        requires fetches { fetch_at self.now.view.fetches node ≡ Some self.now.block }
        ensures variant { IfOk result (λ found.
            IsSome found ↔ IsShown self.now.hits self.now.view.geometry.ways (age_at self.now.bounds node)) }
        ensures path { IfOk result (λ found. IfSome found (λ path.
            IsWitness self.now.view self.now.start node self.now.hits (reverse path.items))) }
    {
        let view = self.view;
        if !is_shown(self.hits, view.ways(), self.bound(node)) {
            return Ok(None);
        }
        let Some(entry) = self.steps.last[node as usize] else {
            unreachable!()
        };
        let trail = Entries {
            steps: &self.steps.entries,
        };
        let path = trace(alloc, view.graph(), &trail, entry)?;
        Ok(Some(path))
    }

    /// The way of that path: its number of members, and its choices. `None` exactly where the bound doesn't show that
    /// some path can hit in a node, which fetches the block, or can miss there where these are exists-miss bounds.
    /// The error is out of memory. It takes time and memory in the order of the path's length.
    pub fn way(&self, alloc: Global, node: u32) -> Result<Option<Way>, AllocError>
        requires fetches { fetch_at self.now.view.fetches node ≡ Some self.now.block }
        ensures variant { IfOk result (λ found.
            IsSome found ↔ IsShown self.now.hits self.now.view.geometry.ways (age_at self.now.bounds node)) }
        ensures way { IfOk result (λ found. IfSome found (λ way.
            NamesEnd self.now.view.nodes self.now.view.geometry self.now.start node way self.now.hits)) }
    {
        let Some(path) = self.path(alloc, node)? else {
            return Ok(None);
        };
        let letters = choices_of(alloc, self.view.graph(), &path)?;
        Ok(Some(Way {
            steps: path.len() as u64,
            choices: Choices::from_letters(letters),
        }))
    }
}

/// The bounds of a local block over the ages of what each node fetches: its exists-hit bounds, or its exists-miss
/// bounds where `hits` is false. The error is out of memory, also where the solver made more than 4,294,967,295
/// changes.
pub(crate) fn solved<'v, 'g>(
    alloc: Global,
    view: &'v SetView<'g>,
    own: &[u8],
    hits: bool,
    start: Start,
    block: u16,
) -> Result<BlockBounds<'v, 'g>, AllocError>
    requires own { AreOwn view.now start hits own.now }
    requires block { block < length view.now.blocks }
    ensures view { IfOk result (λ found. found.view ≡ view.now) }
    ensures start { IfOk result (λ found. found.start ≡ start) }
    ensures block { IfOk result (λ found. found.block ≡ block) }
    ensures hits { IfOk result (λ found. found.hits ≡ hits) }
    ensures least { IfOk result (λ found. IsLeast (framework_of (setting_with hits view.now start own.now block))
        view.now.nodes found.bounds) }
{
    let _blocks = view.blocks();
    let found = found_bounds(alloc, view, own, hits, start, block)?;
    Ok(BlockBounds::attested(view, start, block, hits, found))
}

// Whether a bound shows that some path can hit, or that some path can miss where `hits` is false.
pub(crate) fn is_shown(hits: bool, ways: u32, bound: u32) -> bool
    ensures { IsTrue result ↔ IsShown hits ways bound }
{
    if hits { bound < ways } else { bound == ways }
}

// The age of the block that a node fetches, or 0.
fn own_age(view: &SetView, ages: &Ages, node: u32) -> u8
    requires inside { node < length view.now.nodes }
    requires rows { AreRows view.now ages.now }
    ensures { result ≡ own_age ages.now node (fetch_at view.now.fetches node) }
{
    let blocks = view.blocks();
    match view.fetch(node) {
        Some(local) => {
            prove!((local as usize) < blocks.len());
            ages.age(node, local) as u8
        }
        None => 0,
    }
}

/// The ages of the blocks that the nodes fetch; 0 for one that fetches another set. The error is out of memory.
pub(crate) fn own_ages(alloc: Global, view: &SetView, ages: &Ages) -> Result<Vec<u8>, AllocError>
    requires { AreRows view.now ages.now }
    ensures { IfOk result (λ own. own.items ≡ own_ages view.now.fetches ages.now) }
{
    let mut own = Vec::new(alloc);
    let blocks = view.blocks();
    for node in 0..view.graph().nodes().len() as u32 {
        own.push(own_age(view, ages, node))?;
    }
    prove!(blocks.len() <= 1024);
    Ok(own)
}

/// The bounds of a block before each node, and the trail whose last entry of a node moves the bound there.
#[derive(Drop)]
pub(crate) struct FoundBounds {
    pub bounds: Vec<u8>,
    pub steps: Steps,
}

/// Solves one block, over the ages of what each node fetches. The error is out of memory, also where the solver made
/// more than 4,294,967,295 changes.
pub(crate) fn found_bounds(
    alloc: Global,
    view: &SetView,
    own: &[u8],
    hits: bool,
    start: Start,
    block: u16,
) -> Result<FoundBounds, AllocError>
    ensures { IfOk result (IsFoundOver (setting_with hits view.now start own.now block)) }
{
    let mut system = BoundSystem {
        view,
        own,
        hits,
        start,
        block,
    };
    match solve(alloc, view.graph(), &mut system) {
        Ok(solution) => found_in(alloc, view, &solution),
        Err(SolveFault::Stopped(stop)) => Err(stop),
        Err(SolveFault::OutOfMemory) => Err(AllocError),
    }
}

// The bounds and the trail of a solution.
fn found_in(
    alloc: Global,
    view: &SetView,
    solution: &Solution<u8>,
) -> Result<FoundBounds, AllocError>
    requires one_each { length solution.now.values ≡ length view.now.nodes }
    requires inside { All (λ change. change.node < length view.now.nodes) solution.now.changes }
    ensures bounds { IfOk result (λ found. found.bounds.items ≡ solution.now.values) }
    ensures steps { IfOk result (λ found.
        seen_as found.steps ≡ with_changes (no_entries (length view.now.nodes)) solution.now.changes) }
{
    let count = view.graph().nodes().len();
    Ok(FoundBounds {
        bounds: values_of(alloc, solution, count as u32)?,
        steps: retrace(alloc, count, solution.changes())?,
    })
}

/// The values of a solution. The error is out of memory.
pub(crate) fn values_of(
    alloc: Global,
    solution: &Solution<u8>,
    count: u32,
) -> Result<Vec<u8>, AllocError>
    requires { length solution.now.values ≡ count }
    ensures { IfOk result (λ values. values.items ≡ solution.now.values) }
{
    let mut values = Vec::with_capacity(alloc, count as usize)?;
    for node in 0..count {
        values.push(*solution.before(node))?;
    }
    Ok(values)
}
