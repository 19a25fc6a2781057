// The age equations as a domain of the solver: a byte for each local block.
ghost use Rattle.std.specs.Prelude.{◌≡◌, ◌≢◌, ℕ, ◌<◌, ◌≤◌, ◌↔◌, List, length, map, IfOk, IfSome, IsTrue, refl, true, false};
ghost use Rattle.std.proofs.Common.{◌∙◌, sym, ap, subst};
ghost use Rattle.focus_spec.specs.Younger.{fetch_at};
ghost use Rattle.age_spec.specs.Ages.{Setting, setting_of, AreAges, age_framework, all_met, ages_after_block, ages_after};
ghost use Rattle.age_spec.proofs.Monotone.{ages_monotone};

use crate::step::{aged, first_age, met};
use age_spec::Kind;
use cache_spec::Start;
use lattice_fix::Domain;
use set_view::SetView;
use std::alloc::{AllocError, Global};

// The view of a set, which ages are meant, and what the set may hold at first.
#[derive(Drop)]
pub(crate) struct AgeSystem<'a, 'g> {
    pub(crate) alloc: Global,
    pub(crate) view: &'a SetView<'g>,
    pub(crate) kind: Kind,
    pub(crate) start: Start,
}

// The ages after the fetch of a local block.
fn ages_after_block(
    alloc: Global,
    kind: Kind,
    ways: u8,
    block: u16,
    ages: &[u8],
) -> Result<Vec<u8>, AllocError>
    requires few { ways ≤ 16 }
    requires inside { block < length ages.now }
    ensures { IfOk result (λ after. after.items ≡ ages_after_block kind ways block ages.now) }
{
    let fetched = ages[block as usize];
    ages.iter()
        .enumerate()
        .map(|(local, age)| {
            if local == block as usize {
                0
            } else {
                aged(kind, ways, fetched, *age)
            }
        })
        .collect(alloc)
}

// Other ages meet these. Answers whether one of these changed.
fn meet(kind: Kind, ages: &mut [u8], others: &[u8]) -> bool
    requires { length ages.old ≡ length others.now }
    ensures ages { ages.new ≡ all_met kind ages.old others.now }
    ensures raised { (result ≡ false) ↔ (ages.new ≡ ages.old) }
{
    let mut raised = false;
    for local in 0..ages.len() {
        let age = met(kind, ages[local], others[local]);
        if age != ages[local] {
            ages[local] = age;
            raised = true;
        }
    }
    raised
}

impl<'a, 'g> AgeSystem<'a, 'g> {
    // The local block that a node fetches; none for a number that no node has.
    fn fetched(&self, node: u32) -> Option<u16>
        ensures value { result ≡ fetch_at self.now.view.now.fetches node }
        ensures known { IfSome result (λ block. block < length self.now.view.now.blocks) }
    {
        let blocks = self.view.blocks();
        if node as usize >= self.view.graph().nodes().len() {
            return None;
        }
        let block = self.view.fetch(node)?;
        prove!((block as usize) < blocks.len());
        Some(block)
    }

    // The ages after a node.
    fn moved(&self, node: u32, ages: &[u8]) -> Result<Vec<u8>, AllocError>
        requires { length ages.now ≡ length self.now.view.now.blocks }
        ensures { IfOk result (λ after. after.items
            ≡ ages_after self.now.kind self.now.view.now.geometry.ways (fetch_at self.now.view.now.fetches node) ages.now) }
    {
        let ways = self.view.ways() as u8;
        match self.fetched(node) {
            Some(block) => ages_after_block(self.alloc, self.kind, ways, block, ages),
            None => Vec::from_slice(self.alloc, ages),
        }
    }
}

impl<'a, 'g> Domain for AgeSystem<'a, 'g> {
    type Value = Vec<u8>;

    type Stop = AllocError;

    ghost State = { Setting };

    ghost Setting = { Setting };

    ghost Data = { List ℕ };

    ghost state = { λ system. setting_of system.view.now system.kind system.start };

    ghost goes_on = { λ before after. after ≡ before };

    ghost fits = { λ g ages. AreAges g.count g.ways ages.items };

    ghost stands = { λ g ages. ages.items };

    ghost licensed = { λ g stop. Unit {0} };

    ghost setting = { λ g. g };

    ghost framework = { age_framework };

    fn start(&mut self) -> Result<Vec<u8>, AllocError> {
        let ways = self.view.ways() as u8;
        vec![in self.alloc; first_age(self.kind, self.start, ways); self.view.blocks().len()]
    }

    fn transfer(&mut self, node: u32, ages: &Vec<u8>) -> Result<Vec<u8>, AllocError> {
        self.moved(node, ages)
    }

    fn join_into(&mut self, into: &mut Vec<u8>, other: &Vec<u8>) -> Result<bool, AllocError> {
        Ok(meet(self.kind, into, other))
    }

    ghost reflexive = { λ s. refl };

    ghost transitive = { λ s t u one two. two ∙ one };

    ghost same_setting = { λ s t goes. goes };

    ghost still_fits = { λ s t ages goes fit. subst (λ (g : Setting). AreAges g.count g.ways ages.items) (sym goes) fit };

    ghost still_stands = { λ s t ages goes fit. refl };

    ghost still_licensed = { λ s t stop goes is. is };

    ghost within = { λ g ages fit. fit };

    ghost monotone = { λ system. ages_monotone (setting_of system.view.now system.kind system.start) };
}
