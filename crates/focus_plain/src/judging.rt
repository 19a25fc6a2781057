// What the paths that end in a node do where it fetches a block.
ghost use Rattle.std.specs.Prelude.{◌≡◌, ◌<◌, length, not, reverse, Some, IfOk, IfSome, IfNone};
ghost use Rattle.focus_spec.specs.Younger.{fetch_at};
ghost use Rattle.set_view.specs.View.{IsView};
ghost use Rattle.focus_spec.specs.Fate.{AllEnd};
ghost use Rattle.focus_plain.specs.Judged.{IsClassification, IsPathTo};

use crate::ends::{Found, find};
use crate::search::Focus;
use path_model::Start;
use path_trail::trace;
use set_view::{SetView, view_laws};
use std::alloc::{AllocError, Global};
use std::marker::Model;

/// What the paths that end in a node can do there: only hit, only miss, or both.
#[derive(Clone, Copy, Debug, PartialEq, Eq)]
pub enum Classification {
    Hits,
    Misses,
    Both,
}

/// The paths that a search for a block of a cache set has found: for each node that fetches the block it says what all
/// paths can do that end there, and has a path for each.
#[derive(Drop)]
pub struct Judgement<'v, 'g> {
    view: &'v SetView<'g>,
    found: Found,
}

impl<'v, 'g> Model for Judgement<'v, 'g> {
    ghost use Rattle.focus_plain.specs.Judged.{Judged, IsJudgedBy};

    ghost Value = { Judged };

    ghost view = { λ j. record { view = j.view.now; start = j.found.start; block = j.found.block } };

    ghost invariant = { λ j. IsJudgedBy j.view.now j.found };
}

/// Searches all paths to the nodes that fetch a block of the set, from all that the cache may start with. The block is
/// given by its local number.
///
/// It goes over the graph once: a path is left out where the younger set that it leaves lies between those of two paths
/// to its node that were found before. Each of the others is compared with those that were found at the nodes that it
/// leads to, in time and memory of their number. An error is out of memory, also where more than 4,294,967,295 paths
/// were kept, which take more than 64 GiB.
pub fn judge<'v, 'g>(
    alloc: Global,
    view: &'v SetView<'g>,
    block: u16,
    start: Start,
) -> Result<Judgement<'v, 'g>, AllocError>
    requires { block < length view.now.blocks }
    ensures view { IfOk result (λ judged. judged.view ≡ view.now) }
    ensures block { IfOk result (λ judged. judged.block ≡ block) }
    ensures start { IfOk result (λ judged. judged.start ≡ start) }
{
    let blocks = view.blocks();
    prove!((block as usize) < blocks.len());
    let found = find(alloc, &Focus { view, block, start })?;
    Ok(Judgement { view, found })
}

impl<'v, 'g> Judgement<'v, 'g> {
    /// What the paths can do that end in a node, which fetches the block. Takes no memory.
    pub fn classification(&self, node: u32) -> Classification
        requires { fetch_at self.now.view.fetches node ≡ Some self.now.block }
        ensures { IsClassification self.now node result }
    {
        view_laws();
        let view = self.view;
        let found = &self.found;
        match (found.end_at(node, true), found.end_at(node, false)) {
            (Some(_), Some(_)) => Classification::Both,
            (Some(_), None) => Classification::Hits,
            (None, _) => Classification::Misses,
        }
    }

    /// A path that ends in a node, which fetches the block, and can hit there, or can miss where `hits` is false, with
    /// its first member first. `None` exactly where no path can. The error is out of memory. It takes time and memory in
    /// the order of the path's length, which should be the shortest; that is not proved.
    pub fn path(&self, alloc: Global, node: u32, hits: bool) -> Result<Option<Vec<u32>>, AllocError>
        requires { fetch_at self.now.view.fetches node ≡ Some self.now.block }
        ensures some { IfOk result (λ found. IfSome found (λ path.
            IsPathTo self.now.view.nodes self.now.view.geometry self.now.start node hits (reverse path.items))) }
        ensures none { IfOk result (λ found. IfNone found (
            AllEnd self.now.view.nodes self.now.view.geometry self.now.start node (not hits))) }
    {
        view_laws();
        let found = &self.found;
        match found.end_at(node, hits) {
            Some(entry) => Ok(Some(trace(alloc, self.view.graph(), &found.search, entry)?)),
            None => Ok(None),
        }
    }
}
