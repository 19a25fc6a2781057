// The focused analysis of one block, over plain families.
ghost use Rattle.std.specs.Prelude.{◌≡◌, ◌↔◌, ◌<◌, Bool, length, IfOk, IfSome, IsTrue, refl};
ghost use Rattle.std.proofs.Common.{◌∙◌, sym, ap, subst};
ghost use Rattle.focus_spec.specs.Younger.{fetch_at};
ghost use Rattle.focus_values.specs.Marks.{Setting, Mark, framework_of};
ghost use Rattle.focus_values.specs.MarkLaws.{marks_within, framework_monotone};
ghost use Rattle.focus_values.specs.Families.{AllOver, MostUnder, IsLeastAfter, IsMostAfter, IsLeastJoined, IsMostJoined};
ghost use Rattle.focus_values.specs.Exact.{setting_of, IsFit, marks_in, AreBegun, AreFresh, IsCopy};

use crate::families::{
    are_over, copy_of, copy_of_most, is_most_under, least_after, least_joined, most_after,
    most_joined,
};
use crate::values::YoungerSets;
use cache_spec::Start;
use lattice_fix::Domain;
use plain_family::PlainFamily;
use set_list::SetList;
use set_view::SetView;
use std::alloc::{AllocError, Global};

// The view of a set, what the cache starts with, and the block whose sets are looked for.
#[derive(Drop)]
pub(crate) struct Lists<'a, 'g> {
    pub(crate) alloc: Global,
    pub(crate) view: &'a SetView<'g>,
    pub(crate) start: Start,
    pub(crate) block: u16,
}

impl<'a, 'g> Lists<'a, 'g> {
    // What a node fetches of the set; a number that no node has fetches nothing.
    fn fetched(&self, node: u32) -> Option<u16>
        ensures value { result ≡ fetch_at self.now.view.now.fetches node }
        ensures known { IfSome result (λ other. other < length self.now.view.now.blocks) }
    {
        let blocks = self.view.blocks();
        if node as usize >= self.view.graph().nodes().len() {
            return None;
        }
        let other = self.view.fetch(node)?;
        prove!((other as usize) < blocks.len());
        Some(other)
    }

    // Whether the block is the one that is looked at.
    fn is_own(&self, other: u16) -> bool
        ensures { IsTrue result ↔ (other ≡ self.now.block) }
    {
        other == self.block
    }

    // Before the first fetch there is no younger set, and an empty warm set only where the cache may hold anything.
    fn begun(&self) -> Result<YoungerSets, AllocError>
        ensures { IfOk result (AreBegun self.now.start) }
    {
        let least = match self.start {
            Start::Empty => PlainFamily::empty(self.alloc),
            Start::Any => PlainFamily::of(self.alloc, &SetList::empty(self.alloc))?,
        };
        Ok(YoungerSets { least, most: None })
    }

    // After a fetch of the block its warm set and its younger set are empty.
    fn fresh(&self) -> Result<YoungerSets, AllocError>
        ensures { IfOk result AreFresh }
    {
        let set = SetList::empty(self.alloc);
        let least = PlainFamily::of(self.alloc, &set)?;
        let most = PlainFamily::of(self.alloc, &set)?;
        Ok(YoungerSets {
            least,
            most: Some(most),
        })
    }

    // What a node makes of the sets before it.
    fn moved(&self, node: u32, younger: &YoungerSets) -> Result<YoungerSets, AllocError>
        requires { IsFit (setting_of self.now.view.now self.now.start self.now.block) younger.now }
        ensures fits { IfOk result (IsFit (setting_of self.now.view.now self.now.start self.now.block)) }
        ensures value { IfOk result (λ moved. let g = setting_of self.now.view.now self.now.start self.now.block in
            marks_in g moved ≡ (framework_of g).transfer node (marks_in g younger.now)) }
    {
        let ways = self.view.ways();
        let Some(other) = self.fetched(node) else {
            return copy_of_both(self.alloc, younger);
        };
        if self.is_own(other) {
            return self.fresh();
        }
        both_after(younger, other, ways)
    }
}

// The same families in memory of their own.
pub(crate) fn copy_of_both(alloc: Global, younger: &YoungerSets) -> Result<YoungerSets, AllocError>
    ensures { IfOk result (IsCopy younger.now) }
{
    let least = copy_of(alloc, &younger.least)?;
    let most = copy_of_most(alloc, &younger.most)?;
    Ok(YoungerSets { least, most })
}

// What a fetch of another block makes of the sets.
fn both_after(younger: &YoungerSets, other: u16, ways: u32) -> Result<YoungerSets, AllocError>
    ensures { IfOk result (λ next. IsLeastAfter other ways younger.now.least next.least
        × IsMostAfter other ways younger.now.most next.most) }
{
    let least = least_after(&younger.least, other, ways)?;
    let most = most_after(&younger.most, other, ways)?;
    Ok(YoungerSets { least, most })
}

// The sets where paths meet.
fn both_joined(one: &YoungerSets, two: &YoungerSets) -> Result<YoungerSets, AllocError>
    ensures { IfOk result (λ both. IsLeastJoined one.now.least two.now.least both.least
        × IsMostJoined one.now.most two.now.most both.most) }
{
    let least = least_joined(&one.least, &two.least)?;
    let most = most_joined(&one.most, &two.most)?;
    Ok(YoungerSets { least, most })
}

// Whether the sets say nothing that the others don't.
fn are_within(younger: &YoungerSets, others: &YoungerSets) -> bool
    ensures { IsTrue result ↔ (AllOver younger.now.least others.now.least
        × MostUnder younger.now.most others.now.most) }
{
    are_over(&younger.least, &others.least) && is_most_under(&younger.most, &others.most)
}

impl<'a, 'g> Domain for Lists<'a, 'g> {
    type Value = YoungerSets;

    type Stop = AllocError;

    ghost State = { Setting };

    ghost Setting = { Setting };

    ghost Data = { Mark → Bool };

    ghost state = { λ lists. setting_of lists.view.now lists.start lists.block };

    ghost goes_on = { λ before after. after ≡ before };

    ghost fits = { IsFit };

    ghost stands = { marks_in };

    ghost licensed = { λ g stop. Unit {0} };

    ghost setting = { λ g. g };

    ghost framework = { framework_of };

    fn start(&mut self) -> Result<YoungerSets, AllocError> {
        // The set has room for a block, so that the empty set is small.
        let ways = self.view.ways();
        prove!(ways > 0);
        self.begun()
    }

    fn transfer(&mut self, node: u32, younger: &YoungerSets) -> Result<YoungerSets, AllocError> {
        self.moved(node, younger)
    }

    fn join_into(
        &mut self,
        into: &mut YoungerSets,
        other: &YoungerSets,
    ) -> Result<bool, AllocError> {
        if are_within(other, into) {
            return Ok(false);
        }
        *into = both_joined(into, other)?;
        Ok(true)
    }

    ghost reflexive = { λ s. refl };

    ghost transitive = { λ s t u one two. two ∙ one };

    ghost same_setting = { λ s t goes. goes };

    ghost still_fits = { λ s t younger goes fit. subst (λ (g : Setting). IsFit g younger) (sym goes) fit };

    ghost still_stands = { λ s t younger goes fit. ap (λ (g : Setting). marks_in g younger) goes };

    ghost still_licensed = { λ s t stop goes is. is };

    ghost within = { λ g younger fit. marks_within g younger.least younger.most };

    ghost monotone = { λ lists. framework_monotone (setting_of lists.view.now lists.start lists.block) };
}
