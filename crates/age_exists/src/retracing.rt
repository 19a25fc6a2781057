// The recorded changes of a solution, read as a trail.
ghost use Rattle.std.specs.Prelude.{◌≡◌, ◌<◌, [], length, replicate, slice_index_or, IfOk, OnOk, None};
ghost use Rattle.std.specs.List.{All};
ghost use Rattle.age_exists.specs.Retraced.{with_changes, with_change, no_entries};
ghost use Rattle.age_exists.specs.Seen.{seen_as};

use lattice_fix::Change;
use path_trail::Trail;
use std::alloc::{AllocError, Global};

// One more entry than this would have no number.
const LIMIT: usize = u32::MAX as usize;

/// A node, and the entry of the path before it.
#[derive(Clone, Copy)]
pub(crate) struct Step {
    pub node: u32,
    pub earlier: Option<u32>,
}

/// An entry for each change, and for each node the number of its last one.
#[derive(Drop)]
pub(crate) struct Steps {
    pub entries: Vec<Step>,
    pub last: Vec<Option<u32>>,
}

/// Steps as a trail: the entry with a number is the step there.
#[derive(Clone, Copy)]
pub(crate) struct Entries<'s> {
    pub steps: &'s [Step],
}

impl<'s> Trail for Entries<'s> {
    ghost use Rattle.age_exists.specs.Seen.{entries_seen};

    ghost entries = { λ trail. entries_seen trail.steps.now };

    fn node(&self, entry: u32) -> u32 {
        self.steps[entry as usize].node
    }

    fn earlier(&self, entry: u32) -> Option<u32> {
        self.steps[entry as usize].earlier
    }
}

/// The trail of the changes over this many nodes. The error is out of memory, also where there are more than
/// 4,294,967,295 changes.
pub(crate) fn retrace(alloc: Global, count: usize, changes: &[Change]) -> Result<Steps, AllocError>
    requires { All (λ change. change.node < count) changes.now }
    ensures { IfOk result (λ steps. seen_as steps ≡ with_changes (no_entries count) changes.now) }
{
    let mut steps = Steps {
        entries: Vec::new(alloc),
        last: no_last(alloc, count)?,
    };
    for change in changes {
        note(&mut steps, *change)?;
    }
    Ok(steps)
}

// No node has an entry.
fn no_last(alloc: Global, count: usize) -> Result<Vec<Option<u32>>, AllocError>
    ensures { IfOk result (λ last. last.items ≡ replicate count None) }
{
    vec![in alloc; None; count]
}

/// One change more. The error is out of memory, also where there are 4,294,967,296 changes already.
pub(crate) fn note(steps: &mut Steps, change: Change) -> Result<(), AllocError>
    requires { change.node < length steps.old.last.items }
    ensures { OnOk result (seen_as steps.new ≡ with_change (seen_as steps.old) change) }
{
    let number = steps.entries.len();
    if number > LIMIT {
        return Err(AllocError);
    }
    let earlier = match change.from {
        Some(from) => last_of(&steps.last, from),
        None => None,
    };
    steps.entries.push(Step {
        node: change.node,
        earlier,
    })?;
    steps.last[change.node as usize] = Some(number as u32);
    Ok(())
}

// The last entry of a node.
fn last_of(last: &[Option<u32>], node: u32) -> Option<u32>
    ensures { result ≡ slice_index_or last.now node None }
{
    if (node as usize) < last.len() {
        last[node as usize]
    } else {
        None
    }
}
