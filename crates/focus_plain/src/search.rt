// The search: entries are made and worked off in order, each for what one path leaves of the block's younger set.
ghost use Rattle.std.specs.Prelude.{◌≡◌, ◌<◌, ◌≤◌, ◌^◌, ◌-◌, ℕ, [], ◌∷◌, length, slice_set, replicate, Some, None, IsTrue, IfOk, OnOk};
ghost use Rattle.transition_spec.specs.Path.{IsSuccessor};
ghost use Rattle.path_model.specs.Graph.{graph_step};
ghost use Rattle.path_trail.specs.Trail.{node_at};
ghost use Rattle.set_view.specs.View.{IsView};
ghost use Rattle.focus_plain.specs.Cut.{IsBelow, cut_after};
ghost use Rattle.focus_plain.specs.Entries.{set_at, reached_set, IsIndex, IsReachable, IsBetween, IsSpread, trail_of, seen_of, seen_at};
ghost use Rattle.focus_plain.specs.Search.{Grows, AreRising, IsAdded, IsFollowed, AreLinked, IsSearch, Extends, first_entry, first_entries};

use crate::reach::{Reach, is_above, is_below, longer, moved};
use path_model::{Start, graph_laws};
use path_trail::Trail;
use set_list::SetList;
use set_view::SetView;
use std::alloc::{AllocError, Global};

// One more entry than this would have no number.
const LIMIT: usize = u32::MAX as usize;

/// What is looked at: a block of a cache set, by its local number, over all paths of the view's graph, from all that the
/// cache may start with.
#[derive(Clone, Copy)]
pub(crate) struct Focus<'v, 'g> {
    pub view: &'v SetView<'g>,
    pub block: u16,
    pub start: Start,
}

/// A path that was found, as its last node and the entry of the path before it.
#[derive(Clone, Copy)]
pub(crate) struct Entry {
    pub node: u32,
    /// The index in the table of the younger set that the path leaves before its last node; none where that is large or
    /// not there.
    pub younger: Option<u32>,
    pub earlier: Option<u32>,
    /// The entry at the same node that was made before this one.
    pub next: Option<u32>,
}

/// Entries in the order in which they were made, the table of their younger sets, and the last entry at each node.
#[derive(Drop)]
pub(crate) struct Search {
    pub entries: Vec<Entry>,
    pub sets: Vec<SetList>,
    pub latest: Vec<Option<u32>>,
}

impl Trail for Search {
    ghost use Rattle.focus_plain.specs.Entries.{trail_of};

    ghost entries = { λ search. trail_of search.entries.items };

    fn node(&self, entry: u32) -> u32 {
        self.entries[entry as usize].node
    }

    fn earlier(&self, entry: u32) -> Option<u32> {
        self.entries[entry as usize].earlier
    }
}

/// Entries such that what each path leaves of the block's younger set and of its warm set lies between what two entries
/// at its last node have seen.
///
/// A path is left out where what it leaves lies between what two entries of its node have seen. The entries stand in
/// the order of their paths' lengths, so that the first one at a node with a small younger set, or with a large one,
/// should stand for a shortest path; that is not proved. The error is out of memory, also where there were more than
/// 4,294,967,295 entries, which take more than 64 GiB.
pub(crate) fn find_entries(alloc: Global, focus: &Focus) -> Result<Search, AllocError>
    requires { IsView focus.now.view.now }
    ensures search { IfOk result (λ search. IsSearch focus.now.view.now focus.now.start focus.now.block search) }
    ensures spread { IfOk result (λ search. IsSpread focus.now.view.now focus.now.block (trail_of search.entries.items)
        (seen_of search.sets.items search.entries.items) (length search.entries.items)) }
{
    let mut search = begin(alloc, focus.view.graph().nodes().len(), focus.start)?;
    let mut index = 0;
    while (index as usize) < search.entries.len() {
        spread(&mut search, focus, index)?;
        index += 1;
    }
    Ok(search)
}

// Only the path of node 0 alone.
fn begin(alloc: Global, count: usize, start: Start) -> Result<Search, AllocError>
    requires { 1 ≤ count }
    ensures entries { IfOk result (λ search. search.entries.items ≡ first_entries start) }
    ensures sets { IfOk result (λ search. search.sets.items ≡ [] ∷ []) }
    ensures latest { IfOk result (λ search. search.latest.items
        ≡ slice_set (replicate count None) 0 (Some (length (first_entries start) - 1))) }
{
    let entries = first_entries(alloc, start)?;
    let mut sets = Vec::new(alloc);
    sets.push(SetList::empty(alloc))?;
    let mut latest = vec![in alloc; None; count]?;
    latest[0] = Some(entries.len() as u32 - 1);
    Ok(Search {
        entries,
        sets,
        latest,
    })
}

// The path of node 0 alone has no younger set before that node. Where the cache may hold anything, no block is younger
// there than one that it holds.
fn first_entries(alloc: Global, start: Start) -> Result<Vec<Entry>, AllocError>
    ensures { IfOk result (λ entries. entries.items ≡ first_entries start) }
{
    let mut entries = Vec::new(alloc);
    entries.push(first_entry(None, None))?;
    match start {
        Start::Empty => {}
        Start::Any => entries.push(first_entry(Some(0), Some(0)))?,
    }
    Ok(entries)
}

fn first_entry(younger: Option<u32>, next: Option<u32>) -> Entry
    ensures { result ≡ first_entry younger next }
{
    Entry {
        node: 0,
        younger,
        earlier: None,
        next,
    }
}

// Follows both edges of an entry's node.
fn spread(search: &mut Search, focus: &Focus, index: u32) -> Result<(), AllocError>
    requires search { IsSearch focus.now.view.now focus.now.start focus.now.block search.old }
    requires inside { index < length search.old.entries.items }
    ensures search { OnOk result (IsSearch focus.now.view.now focus.now.start focus.now.block search.new) }
    ensures extends { OnOk result (Extends search.old search.new) }
    ensures spread { OnOk result ((m : ℕ) →
        let node = node_at (trail_of search.old.entries.items) index in
        let seen = seen_of search.old.sets.items search.old.entries.items in
        IsSuccessor (graph_step focus.now.view.now.nodes) node m
        → IsBetween (trail_of search.new.entries.items) (seen_of search.new.sets.items search.new.entries.items) m
        (cut_after focus.now.view.now focus.now.block node (seen_at seen index))) }
{
    graph_laws();
    let view = focus.view;
    let entry = search.entries[index as usize];
    let reached = moved(
        &search.sets,
        view.ways(),
        focus.block,
        view.fetch(entry.node),
        entry.younger,
    );
    let node = view.graph().nodes()[entry.node as usize];
    try_edge(search, index, node.first, reached)?;
    try_edge(search, index, node.second, reached)
}

// Adds an entry at the node that an edge leads to, unless the node has entries below and above.
fn try_edge(
    search: &mut Search,
    from: u32,
    to: Option<u32>,
    reached: Option<Reach>,
) -> Result<(), AllocError>
    requires linked { AreLinked search.old }
    requires inside { (m : ℕ) → to ≡ Some m → m < length search.old.latest.items }
    requires reached { IsReachable search.old.sets.items reached }
    ensures { OnOk result (IsFollowed search.old search.new from to (reached_set search.old.sets.items reached)) }
{
    let Some(to) = to else {
        return Ok(());
    };
    if is_between(search, to, reached) {
        return Ok(());
    }
    add(search, from, to, reached)
}

// Tells that the node has an entry below what is reached, and one above it.
fn is_between(search: &Search, to: u32, reached: Option<Reach>) -> bool
    requires linked { AreLinked search.now }
    requires inside { to < length search.now.latest.items }
    requires reached { IsReachable search.now.sets.items reached }
    ensures { IsTrue result → IsBetween (trail_of search.now.entries.items)
        (seen_of search.now.sets.items search.now.entries.items) to (reached_set search.now.sets.items reached) }
{
    let mut below = false;
    let mut above = false;
    let mut next = search.latest[to as usize];
    while let Some(number) = next {
        below = below || lies_below(search, number, reached);
        above = above || lies_above(search, number, reached);
        if below && above {
            return true;
        }
        next = search.entries[number as usize].next;
    }
    false
}

// Tells that what the entry has seen is below what is reached.
fn lies_below(search: &Search, number: u32, reached: Option<Reach>) -> bool
    requires linked { AreLinked search.now }
    requires inside { number < length search.now.entries.items }
    requires reached { IsReachable search.now.sets.items reached }
    ensures { IsTrue result → IsBelow (seen_at (seen_of search.now.sets.items search.now.entries.items) number)
        (reached_set search.now.sets.items reached) }
{
    is_below(
        &search.sets,
        search.entries[number as usize].younger,
        reached,
    )
}

// Tells that what the entry has seen is above what is reached.
fn lies_above(search: &Search, number: u32, reached: Option<Reach>) -> bool
    requires linked { AreLinked search.now }
    requires inside { number < length search.now.entries.items }
    requires reached { IsReachable search.now.sets.items reached }
    ensures { IsTrue result → IsBelow (reached_set search.now.sets.items reached)
        (seen_at (seen_of search.now.sets.items search.now.entries.items) number) }
{
    is_above(
        &search.sets,
        search.entries[number as usize].younger,
        reached,
    )
}

// One more entry.
fn add(search: &mut Search, from: u32, to: u32, reached: Option<Reach>) -> Result<(), AllocError>
    requires linked { AreLinked search.old }
    requires inside { to < length search.old.latest.items }
    requires reached { IsReachable search.old.sets.items reached }
    ensures { OnOk result (IsAdded search.old search.new from to (reached_set search.old.sets.items reached)) }
{
    let number = search.entries.len();
    if number >= LIMIT {
        return Err(AllocError);
    }
    let younger = keep(&mut search.sets, reached)?;
    search.entries.push(Entry {
        node: to,
        younger,
        earlier: Some(from),
        next: search.latest[to as usize],
    })?;
    search.latest[to as usize] = Some(number as u32);
    Ok(())
}

// The index of what is reached in the table, to which it is added where it has one more number.
fn keep(sets: &mut Vec<SetList>, reached: Option<Reach>) -> Result<Option<u32>, AllocError>
    requires reached { IsReachable sets.old.items reached }
    requires few { length sets.old.items < 2 ^ 32 }
    requires rising { AreRising sets.old.items }
    ensures grows { OnOk result (Grows sets.old.items sets.new.items) }
    ensures rising { OnOk result (AreRising sets.new.items) }
    ensures index { IfOk result (λ younger. IsIndex sets.new.items younger) }
    ensures value { IfOk result (λ younger. set_at sets.new.items younger ≡ reached_set sets.old.items reached) }
{
    let Some(Reach { index, more }) = reached else {
        return Ok(None);
    };
    let Some(number) = more else {
        return Ok(Some(index));
    };
    let longer = longer(&sets[index as usize], number)?;
    let kept = sets.len() as u32;
    sets.push(longer)?;
    Ok(Some(kept))
}
