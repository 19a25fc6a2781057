// The ages of the blocks of one set, and the fetches that they settle.
ghost use Rattle.std.specs.Prelude.{◌≡◌, ◌<◌, ℕ, ◌↔◌, Some, IfOk, IfSome, IfNone, length};
ghost use Rattle.focus_spec.specs.Younger.{fetch_at};
ghost use Rattle.node_verdicts.specs.Aged.{IsOpen, IsDecided, IsSettled};

use crate::judged::Ends;
use age_must_may::{Ages, may, must};
use age_spec::age_laws;
use path_model::Start;
use set_view::SetView;
use std::alloc::{AllocError, Global};
use std::marker::Model;

/// The must and may ages of the blocks of a set.
#[derive(Drop)]
pub(crate) struct SetAges<'v, 'g> {
    pub(crate) view: &'v SetView<'g>,
    pub(crate) start: Start,
    pub(crate) must: Ages,
    pub(crate) may: Ages,
}

impl<'v, 'g> Model for SetAges<'v, 'g> {
    ghost use Rattle.node_verdicts.specs.Aged.{Aged, AreAges};

    ghost Value = { Aged };

    ghost view = { λ a. record { view = a.view.now; start = a.start; must = a.must; may = a.may } };

    ghost invariant = { λ a. AreAges (record { view = a.view.now; start = a.start; must = a.must; may = a.may }) };
}

impl<'v, 'g> SetAges<'v, 'g> {
    /// The ages over a view of a set that may start so.
    pub(crate) fn of(alloc: Global, view: &'v SetView<'g>, start: Start) -> Result<Self, AllocError>
        ensures view { IfOk result (λ ages. ages.view ≡ view.now) }
        ensures start { IfOk result (λ ages. ages.start ≡ start) }
    {
        let _blocks = view.blocks();
        let must = must(alloc, view)?;
        let may = may(alloc, view, start)?;
        Ok(SetAges {
            view,
            start,
            must,
            may,
        })
    }

    /// What the paths can do that end in a node, where it fetches another block of the set than the unclear ones, and the
    /// ages settle that.
    pub(crate) fn settled_at(&self, node: u32, unclear: &[u16]) -> Option<Ends>
        requires { node < length self.now.view.nodes }
        ensures some { IfSome result (λ ends. IsSettled self.now unclear.now node × IsDecided self.now node ends) }
        ensures none { IfNone result (IsSettled self.now unclear.now node → ⊥) }
    {
        let block = self.view.fetch(node)?;
        if unclear.contains(&block) {
            return None;
        }
        self.settled(node, block)
    }

    /// The block that a node fetches, where the ages leave open what the paths can do that end there.
    pub(crate) fn open_at(&self, node: u32) -> Option<u16>
        requires { node < length self.now.view.nodes }
        ensures { (block : ℕ) → (result ≡ Some block) ↔ IsOpen self.now block node }
    {
        let block = self.view.fetch(node)?;
        match self.settled(node, block) {
            Some(_) => None,
            None => Some(block),
        }
    }

    // What the paths can do that end in a node which fetches the block, where the ages settle that.
    fn settled(&self, node: u32, block: u16) -> Option<Ends>
        requires inside { node < length self.now.view.nodes }
        requires fetches { fetch_at self.now.view.fetches node ≡ Some block }
        ensures some { IfSome result (λ ends. IsDecided self.now node ends × (IsOpen self.now block node → ⊥)) }
        ensures none { IfNone result (IsOpen self.now block node) }
    {
        age_laws();
        let ways = self.view.ways();
        let _blocks = self.view.blocks();
        if self.must.age(node, block) < ways {
            Some(Ends::Hits)
        } else if self.may.age(node, block) == ways {
            Some(Ends::Misses)
        } else {
            None
        }
    }
}
