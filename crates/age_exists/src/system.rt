// The equations of one block's bounds as a domain of the solver: a byte.
ghost use Rattle.std.specs.Prelude.{◌≡◌, ◌<◌, ◌≤◌, ℕ, Bool, true, false, length, slice_index, IfSome, refl};
ghost use Rattle.std.proofs.Common.{◌∙◌, sym, subst};
ghost use Rattle.focus_spec.specs.Younger.{fetch_at};
ghost use Rattle.lattice_fix.specs.Framework.{IsMonotone};
ghost use Rattle.age_spec.specs.Ages.{grown};
ghost use Rattle.age_spec.proofs.Reaching.{hit_monotone, miss_monotone};
ghost use Rattle.age_spec.specs.Exists.{bound_after, hit_bound_after, miss_bound_after};
ghost use Rattle.age_exists.specs.Equations.{Setting, setting_with, framework_of, exists_framework, rows_of, first_bound, bound_changed, bounds_met};

use cache_spec::Start;
use lattice_fix::Domain;
use set_view::SetView;
use std::alloc::AllocError;

/// The view of a set and what it may hold at first, the ages of what each node fetches, the local block, and whether
/// its exists-hit bounds are meant or its exists-miss bounds.
#[derive(Clone, Copy)]
pub(crate) struct BoundSystem<'a, 'g> {
    pub view: &'a SetView<'g>,
    pub own: &'a [u8],
    pub hits: bool,
    pub start: Start,
    pub block: u16,
}

/// The bound at node 0.
pub(crate) fn first_bound(hits: bool, start: Start, ways: u8) -> u8
    ensures { result ≡ first_bound hits start ways }
{
    match (hits, start) {
        (false, _) => ways,
        (true, Start::Empty) => ways,
        (true, Start::Any) => 0,
    }
}

// A number that grows by 1, but not past the ways.
fn grown(ways: u8, bound: u8) -> u8
    requires { ways ≤ 16 }
    ensures { result ≡ grown ways bound }
{
    bound.saturating_add(1).min(ways)
}

/// An exists-hit bound after the fetch of another block, which has this must age.
pub(crate) fn hit_bound_after(ways: u8, must: u8, bound: u8) -> u8
    requires { ways ≤ 16 }
    ensures { result ≡ hit_bound_after ways must bound }
{
    if must <= bound {
        bound
    } else {
        grown(ways, bound)
    }
}

// An exists-miss bound after the fetch of another block, which has this may age.
fn miss_bound_after(ways: u8, may: u8, bound: u8) -> u8
    requires { ways ≤ 16 }
    ensures { result ≡ miss_bound_after ways may bound }
{
    if bound <= may {
        grown(ways, bound)
    } else {
        bound
    }
}

// A bound after the fetch of another block, which has this age.
fn bound_changed(hits: bool, ways: u8, age: u8, bound: u8) -> u8
    requires { ways ≤ 16 }
    ensures { result ≡ bound_changed hits ways age bound }
{
    if hits {
        hit_bound_after(ways, age, bound)
    } else {
        miss_bound_after(ways, age, bound)
    }
}

// The bound where paths of these two bounds meet.
fn bounds_met(hits: bool, one: u8, two: u8) -> u8
    ensures { result ≡ bounds_met hits one two }
{
    if hits { one.min(two) } else { one.max(two) }
}

// The age of what a node fetches; 0 for a number that no node has.
fn own_age(own: &[u8], node: u32) -> u8
    ensures { result ≡ slice_index own.now node }
{
    if (node as usize) < own.len() {
        own[node as usize]
    } else {
        0
    }
}

impl<'a, 'g> BoundSystem<'a, 'g> {
    // The local block that a node fetches; none for a number that no node has.
    fn fetched(&self, node: u32) -> Option<u16>
        ensures value { result ≡ fetch_at self.now.view.now.fetches node }
        ensures known { IfSome result (λ block. block < length self.now.view.now.blocks) }
    {
        let blocks = self.view.blocks();
        if node as usize >= self.view.graph().nodes().len() {
            return None;
        }
        let block = self.view.fetch(node)?;
        prove!((block as usize) < blocks.len());
        Some(block)
    }

    /// The bound at node 0.
    pub(crate) fn first(&self) -> u8
        ensures { result ≡ (framework_of (setting_with self.now.hits self.now.view.now self.now.start self.now.own.now
            self.now.block)).start }
    {
        first_bound(self.hits, self.start, self.view.ways() as u8)
    }

    /// The bound after a node.
    pub(crate) fn moved(&self, node: u32, bound: u8) -> u8
        ensures { result ≡ (framework_of (setting_with self.now.hits self.now.view.now self.now.start self.now.own.now
            self.now.block)).transfer node bound }
    {
        let ways = self.view.ways() as u8;
        let Some(other) = self.fetched(node) else {
            return bound;
        };
        if other == self.block {
            return 0;
        }
        bound_changed(self.hits, ways, own_age(self.own, node), bound)
    }
}

impl<'a, 'g> Domain for BoundSystem<'a, 'g> {
    type Value = u8;

    type Stop = AllocError;

    ghost State = { Setting };

    ghost Setting = { Setting };

    ghost Data = { ℕ };

    ghost state = { λ system. setting_with system.hits system.view.now system.start system.own.now system.block };

    ghost goes_on = { λ before after. after ≡ before };

    ghost fits = { λ s bound. bound ≤ s.view.geometry.ways };

    ghost stands = { λ s bound. bound };

    ghost licensed = { λ s stop. Unit {0} };

    ghost setting = { λ s. s };

    ghost framework = { framework_of };

    fn start(&mut self) -> Result<u8, AllocError> {
        Ok(self.first())
    }

    fn transfer(&mut self, node: u32, bound: &u8) -> Result<u8, AllocError> {
        Ok(self.moved(node, *bound))
    }

    fn join_into(&mut self, into: &mut u8, other: &u8) -> Result<bool, AllocError> {
        let met = bounds_met(self.hits, *into, *other);
        if met == *into {
            return Ok(false);
        }
        *into = met;
        Ok(true)
    }

    ghost reflexive = { λ s. refl };

    ghost transitive = { λ s t u one two. two ∙ one };

    ghost same_setting = { λ s t goes. goes };

    ghost still_fits = { λ s t bound goes fit. subst (λ (g : Setting). bound ≤ g.view.geometry.ways) (sym goes) fit };

    ghost still_stands = { λ s t bound goes fit. refl };

    ghost still_licensed = { λ s t stop goes is. is };

    ghost within = { λ s bound fit. fit };

    ghost monotone = { λ system. let view = system.view.now in let rows = rows_of (length view.blocks) system.own.now in
        elim system.hits as (λ (hits : Bool). IsMonotone (exists_framework hits view system.start rows system.block)) [
          | true ↦ hit_monotone view system.start rows system.block
          | false ↦ miss_monotone view rows system.block
        ] };
}
