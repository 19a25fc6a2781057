// Where a search found hits and misses.
ghost use Rattle.std.specs.Prelude.{◌≡◌, ◌<◌, ◌^◌, ℕ, length, Some, IfOk};
ghost use Rattle.path_trail.specs.Trail.{node_at};
ghost use Rattle.set_view.specs.View.{IsView};
ghost use Rattle.focus_plain.specs.Entries.{trail_of, latest_at};
ghost use Rattle.focus_plain.specs.Ends.{AreEnds, IsNoted, IsFound, ends_of};

use crate::search::{Entry, Focus, Search, find_entries};
use path_model::Start;
use std::alloc::{AllocError, Global};

/// A search for a block that is done, and for each node the first entry with a small younger set and the first with
/// none.
#[derive(Drop)]
pub(crate) struct Found {
    pub block: u16,
    pub start: Start,
    pub search: Search,
    pub hits: Vec<Option<u32>>,
    pub misses: Vec<Option<u32>>,
}

impl Found {
    /// The entry for a hit at a node, or for a miss.
    pub(crate) fn end_at(&self, node: u32, hits: bool) -> Option<u32>
        requires { node < length (ends_of self.now hits) }
        ensures { result ≡ latest_at (ends_of self.now hits) node }
    {
        if hits {
            self.hits[node as usize]
        } else {
            self.misses[node as usize]
        }
    }
}

/// Searches for the block. The error is out of memory.
pub(crate) fn find(alloc: Global, focus: &Focus) -> Result<Found, AllocError>
    requires { IsView focus.now.view.now }
    ensures block { IfOk result (λ found. found.block ≡ focus.now.block) }
    ensures start { IfOk result (λ found. found.start ≡ focus.now.start) }
    ensures found { IfOk result (λ found. IsFound focus.now.view.now found) }
{
    let search = find_entries(alloc, focus)?;
    let count = focus.view.graph().nodes().len();
    let hits = ends(alloc, &search.entries, count, true)?;
    let misses = ends(alloc, &search.entries, count, false)?;
    Ok(Found {
        block: focus.block,
        start: focus.start,
        search,
        hits,
        misses,
    })
}

// For each node the first of its entries with a small younger set, or the first with none.
fn ends(
    alloc: Global,
    entries: &[Entry],
    count: usize,
    small: bool,
) -> Result<Vec<Option<u32>>, AllocError>
    requires inside { (number : ℕ) → number < length entries.now → node_at (trail_of entries.now) number < count }
    requires few { length entries.now < 2 ^ 32 }
    ensures ends { IfOk result (λ ends. AreEnds entries.now (length entries.now) small ends.items) }
    ensures one_each { IfOk result (λ ends. length ends.items ≡ count) }
{
    let mut ends = vec![in alloc; None; count]?;
    for index in 0..entries.len() {
        let entry = entries[index];
        if entry.younger.is_some() == small {
            note(&mut ends, entry.node, index as u32);
        }
    }
    Ok(ends)
}

// Notes the number for the node, unless there is one before it.
fn note(ends: &mut [Option<u32>], node: u32, number: u32)
    requires { node < length ends.old }
    ensures { IsNoted ends.old ends.new node number }
{
    let end = &mut ends[node as usize];
    if end.is_none() {
        *end = Some(number);
    }
}
