// The exists-hit bounds of a block, found from the nodes that fetch it on.
ghost use Rattle.std.specs.Prelude.{◌≡◌, ◌<◌, true, length, map, Some, IfOk, IfSome, OnOk};
ghost use Rattle.std.specs.List.{range_with_len};
ghost use Rattle.age_spec.specs.Ages.{AreRows};
ghost use Rattle.age_exists.specs.Equations.{own_ages, setting_with};
ghost use Rattle.age_exists.specs.Bounded.{IsFoundOver};
ghost use Rattle.age_exists.specs.Firsts.{AreFirsts, AreFetchers};
ghost use Rattle.age_exists.specs.Seen.{entries_seen};
ghost use Rattle.age_exists.specs.Spread.{IsBegun, IsSpread, IsUnderWay, SpreadsFrom, equations_of, hits_seen, lowered_at, spread_seen};

use crate::one_block::FoundBounds;
use crate::retracing::{Step, Steps, note};
use crate::system::{first_bound, hit_bound_after};
use age_must_may::Ages;
use cache_spec::Start;
use lattice_fix::Change;
use set_view::SetView;
use std::alloc::{AllocError, Global};

/// The exists-hit bounds of a local block before each node, over must ages. They are the number of ways but near the
/// nodes that fetch the block (and near node 0 where the set may hold anything), and only there it looks. The error is
/// out of memory.
pub(crate) fn near_bounds(
    alloc: Global,
    view: &SetView,
    must: &Ages,
    start: Start,
    block: u16,
    fetchers: &[u32],
    firsts: &[Step],
) -> Result<FoundBounds, AllocError>
    requires rows { AreRows view.now must.now }
    requires fetchers { AreFetchers view.now block fetchers.now }
    requires firsts { AreFirsts view.now.nodes (entries_seen firsts.now) }
    ensures { IfOk result (IsFoundOver
        (setting_with true view.now start (own_ages view.now.fetches must.now) block)) }
{
    let system = HitSystem {
        view,
        must,
        start,
        block,
    };
    let mut found = system.begun(alloc, firsts)?;
    let head = found.steps.entries.len();
    system.spread_each(&mut found, fetchers)?;
    system.work_off(&mut found, head)?;
    Ok(found)
}

// The equations of the exists-hit bounds of a block.
#[derive(Clone, Copy)]
struct HitSystem<'a, 'g> {
    view: &'a SetView<'g>,
    must: &'a Ages,
    start: Start,
    block: u16,
}

impl<'a, 'g> HitSystem<'a, 'g> {
    // The bound after a node.
    fn after(&self, node: u32, bound: u8) -> u8
        requires rows { AreRows self.now.view.now self.now.must.now }
        requires inside { node < length self.now.view.now.nodes }
        ensures { result ≡ (equations_of (hits_seen self.now)).transfer node bound }
    {
        let blocks = self.view.blocks();
        let Some(other) = self.view.fetch(node) else {
            return bound;
        };
        if other == self.block {
            return 0;
        }
        prove!((other as usize) < blocks.len());
        let age = self.must.age(node, other) as u8;
        hit_bound_after(self.view.ways() as u8, age, bound)
    }

    // What is known before any path is followed: the start at node 0, and nothing of the other nodes.
    fn begun(&self, alloc: Global, firsts: &[Step]) -> Result<FoundBounds, AllocError>
        requires { AreFirsts self.now.view.now.nodes (entries_seen firsts.now) }
        ensures { IfOk result (λ found. IsBegun (hits_seen self.now) (spread_seen found)) }
    {
        let _blocks = self.view.blocks();
        let count = firsts.len();
        let ways = self.view.ways() as u8;
        let mut bounds = vec![in alloc; ways; count]?;
        bounds[0] = first_bound(true, self.start, ways);
        Ok(FoundBounds {
            bounds,
            steps: Steps {
                entries: Vec::from_slice(alloc, firsts)?,
                last: own_numbers(alloc, count as u32)?,
            },
        })
    }

    // Lowers the bounds of the successors of node 0 and of each of these nodes.
    fn spread_each(&self, found: &mut FoundBounds, nodes: &[u32]) -> Result<(), AllocError>
        requires rows { AreRows self.now.view.now self.now.must.now }
        requires fetchers { AreFetchers self.now.view.now self.now.block nodes.now }
        requires begun { IsBegun (hits_seen self.now) (spread_seen found.old) }
        ensures { OnOk result (IsUnderWay (hits_seen self.now) (length found.old.steps.entries.items)
            (spread_seen found.new)) }
    {
        self.spread(found, 0)?;
        for node in nodes {
            self.spread(found, *node)?;
        }
        Ok(())
    }

    // Lowers the bounds of the successors of the node of each entry from `head` on, those that this adds among them.
    fn work_off(&self, found: &mut FoundBounds, mut head: usize) -> Result<(), AllocError>
        requires rows { AreRows self.now.view.now self.now.must.now }
        requires under_way { IsUnderWay (hits_seen self.now) head (spread_seen found.old) }
        ensures { OnOk result (IsUnderWay (hits_seen self.now) (length found.new.steps.entries.items)
            (spread_seen found.new)) }
    {
        while head < found.steps.entries.len() {
            let node = found.steps.entries[head].node;
            head += 1;
            self.spread(found, node)?;
        }
        Ok(())
    }

    // Lowers the bound of each successor of a node to what comes after the node, where that is less.
    fn spread(&self, found: &mut FoundBounds, node: u32) -> Result<(), AllocError>
        requires rows { AreRows self.now.view.now self.now.must.now }
        requires inside { node < length self.now.view.now.nodes }
        requires spread { IsSpread (hits_seen self.now) (spread_seen found.old) }
        ensures { OnOk result (SpreadsFrom (hits_seen self.now) node (spread_seen found.old) (spread_seen found.new)) }
    {
        let bound = self.after(node, found.bounds[node as usize]);
        let here = self.view.graph().nodes()[node as usize];
        lower(found, node, here.first, bound)?;
        lower(found, node, here.second, bound)
    }
}

// The number of each node.
fn own_numbers(alloc: Global, count: u32) -> Result<Vec<Option<u32>>, AllocError>
    ensures { IfOk result (λ numbers. numbers.items ≡ map Some (range_with_len 0 count)) }
{
    let mut numbers = Vec::with_capacity(alloc, count as usize)?;
    for number in 0..count {
        numbers.push(Some(number))?;
    }
    Ok(numbers)
}

// Lowers the bound of a successor of a node, if there is one, where this bound is less.
fn lower(found: &mut FoundBounds, from: u32, to: Option<u32>, bound: u8) -> Result<(), AllocError>
    requires bounds { IfSome to (λ node. node < length found.old.bounds.items) }
    requires last { IfSome to (λ node. node < length found.old.steps.last.items) }
    ensures { OnOk result (spread_seen found.new ≡ lowered_at (spread_seen found.old) from to bound) }
{
    let Some(node) = to else {
        return Ok(());
    };
    if bound >= found.bounds[node as usize] {
        return Ok(());
    }
    note(
        &mut found.steps,
        Change {
            node,
            from: Some(from),
        },
    )?;
    found.bounds[node as usize] = bound;
    Ok(())
}
