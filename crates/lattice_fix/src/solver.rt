// The solver: a node that waits is worked off, least number first, until none waits.
ghost use Rattle.std.specs.Prelude.{◌≡◌, ◌≢◌, ℕ, ◌<◌, ◌≤◌, ◌∷◌, [], length, vec_len, map, replicate, slice_set, IfOk, IfErr, OnOk, IsTrue, IsSome, Some, None, true, false};
ghost use Rattle.std.specs.List.{All};
ghost use Rattle.transition_spec.specs.Path.{IsSuccessor};
ghost use Rattle.path_model.specs.Graph.{IsGraph, graph_step};
ghost use Rattle.lattice_fix.specs.Solution.{IsLeast};
ghost use Rattle.lattice_fix.specs.Replay.{Replays, nothing, value_at};
ghost use Rattle.lattice_fix.specs.Solved.{IsCause};
ghost use Rattle.lattice_fix.specs.declared.change.SolveFault.TheVariants.{OutOfMemory};
ghost use Rattle.lattice_fix.specs.Course.{IsNoted};
ghost use Rattle.lattice_fix.specs.UnderWay.{IsUnderWay, IsClearAt, AllAreClear, OthersAreClear, IsMovedFrom, Receives, GoesOn, Advances, IsOtherWithValue, OthersStay};
ghost use Rattle.lattice_fix.specs.Waits.{IsDone};

use crate::change::{Change, Solution, SolveFault};
use crate::domain::Domain;
use crate::waiting::Waiting;
use path_model::{Graph, Node};
use std::alloc::{AllocError, Global};

/// The least solution of "the value before node 0 is at least the start, and the value before a successor is at least
/// the transfer at the node", with the changes that led to it.
///
/// Of the nodes that wait the least number is worked off first (the worklist algorithm of Nielson, Nielson and Hankin
/// 1999), so that each node is worked off once where all edges lead to greater numbers. There are at most as many
/// visits as changes. A visit transfers the value once, and a second time where the node has two successors and none
/// that is another node has a value yet. `Stopped` hands on a stop of the domain.
pub fn solve<D: Domain>(
    alloc: Global,
    graph: &Graph,
    domain: &mut D,
) -> Result<Solution<D::Value>, SolveFault<D::Stop>>
    ensures goes_on { D.goes_on (D.state domain.old) (D.state domain.new) }
    ensures least { IfOk result (λ solution. let s = D.state domain.new in
        IsLeast (D.framework (D.setting s)) graph.now (map (D.stands s) solution.values)) }
    ensures one_each { IfOk result (λ solution. length solution.values ≡ length graph.now) }
    ensures fits { IfOk result (λ solution. All (D.fits (D.state domain.new)) solution.values) }
    ensures replay { IfOk result (λ solution. let s = D.state domain.new in Replays (D.framework (D.setting s))
        graph.now (nothing graph.now) solution.changes (map Some (map (D.stands s) solution.values))) }
    ensures stop { IfErr result (λ fault. IsCause (D.licensed (D.state domain.new)) fault) }
{
    let nodes = graph.nodes();
    let mut work = begin(alloc, nodes, domain)?;
    work_off(nodes, domain, &mut work)?;
    let Work {
        values,
        changes,
        waiting: _,
    } = work;
    Ok(Solution::of(values, changes))
}

// What the solver has: a value for each node that has one, the changes so far, and the nodes that wait.
#[derive(Drop)]
struct Work<V> {
    values: Vec<Option<V>>,
    changes: Vec<Change>,
    waiting: Waiting,
}

// The start is before node 0, which waits.
fn begin<D: Domain>(
    alloc: Global,
    nodes: &[Node],
    domain: &mut D,
) -> Result<Work<D::Value>, SolveFault<D::Stop>>
    requires graph { IsGraph nodes.now }
    ensures domain { GoesOn D.Domain domain.old domain.new result }
    ensures under_way { IfOk result (IsUnderWay D.Domain nodes.now domain.new) }
    ensures settled { IfOk result (AllAreClear D.Domain nodes.now domain.new) }
{
    let start = match domain.start() {
        Ok(start) => start,
        Err(stop) => return Err(SolveFault::Stopped(stop)),
    };
    match first_work(alloc, nodes.len(), start) {
        Ok(work) => Ok(work),
        Err(_) => Err(SolveFault::OutOfMemory),
    }
}

// Only node 0 has a value, and waits.
fn first_work<V: Drop>(alloc: Global, count: usize, start: V) -> Result<Work<V>, AllocError>
    requires { 1 ≤ count }
    ensures values { IfOk result (λ work. work.values.items ≡ slice_set (replicate count None) 0 (Some start)) }
    ensures changes { IfOk result (λ work. work.changes.items ≡ record { node = 0; from = None } ∷ []) }
    ensures waiting { IfOk result (λ work. work.waiting ≡ slice_set (replicate count false) 0 true) }
{
    let mut values = empty_slots(alloc, count)?;
    values[0] = Some(start);
    let mut changes = Vec::new(alloc);
    changes.push(Change {
        node: 0,
        from: None,
    })?;
    let mut waiting = Waiting::none(alloc, count)?;
    waiting.add(0);
    Ok(Work {
        values,
        changes,
        waiting,
    })
}

// `count` slots without a value.
fn empty_slots<V: Drop>(alloc: Global, count: usize) -> Result<Vec<Option<V>>, AllocError>
    ensures { IfOk result (λ slots. slots.items ≡ replicate count None) }
{
    let mut slots = Vec::with_capacity(alloc, count)?;
    for _ in 0..count {
        slots.push(None)?;
    }
    Ok(slots)
}

// Works off nodes until none waits.
fn work_off<D: Domain>(
    nodes: &[Node],
    domain: &mut D,
    work: &mut Work<D::Value>,
) -> Result<(), SolveFault<D::Stop>>
    requires under_way { IsUnderWay D.Domain nodes.now domain.old work.old }
    requires settled { AllAreClear D.Domain nodes.now domain.old work.old }
    ensures domain { GoesOn D.Domain domain.old domain.new result }
    ensures under_way { OnOk result (IsUnderWay D.Domain nodes.now domain.new work.new) }
    ensures settled { OnOk result (AllAreClear D.Domain nodes.now domain.new work.new) }
    ensures done { OnOk result ((n : ℕ) → IsDone work.new.waiting n) }
{
    while let Some(node) = work.waiting.take() {
        spread(nodes, domain, work, node)?;
    }
    Ok(())
}

// Moves the value before the node along its edges.
fn spread<D: Domain>(
    nodes: &[Node],
    domain: &mut D,
    work: &mut Work<D::Value>,
    node: u32,
) -> Result<(), SolveFault<D::Stop>>
    requires under_way { IsUnderWay D.Domain nodes.now domain.old work.old }
    requires inside { node < length nodes.now }
    requires others { OthersAreClear D.Domain nodes.now domain.old work.old node }
    ensures domain { GoesOn D.Domain domain.old domain.new result }
    ensures advances { OnOk result (Advances D.Domain nodes.now domain.old work.old domain.new work.new) }
    ensures settled { OnOk result (AllAreClear D.Domain nodes.now domain.new work.new) }
{
    let here = nodes[node as usize];
    let Some(first) = here.first else {
        return Ok(());
    };
    match here.second {
        Some(second) => fork(nodes, domain, work, node, first, second),
        None => follow(nodes, domain, work, node, first),
    }
}

// Moves the value before the node along both edges. It is transferred once, unless no other node there has a value yet:
// each of the two then keeps one of its own.
fn fork<D: Domain>(
    nodes: &[Node],
    domain: &mut D,
    work: &mut Work<D::Value>,
    from: u32,
    first: u32,
    second: u32,
) -> Result<(), SolveFault<D::Stop>>
    requires under_way { IsUnderWay D.Domain nodes.now domain.old work.old }
    requires first { IsSuccessor (graph_step nodes.now) from first }
    requires second { IsSuccessor (graph_step nodes.now) from second }
    ensures domain { GoesOn D.Domain domain.old domain.new result }
    ensures advances { OnOk result (Advances D.Domain nodes.now domain.old work.old domain.new work.new) }
    ensures first { OnOk result (IsClearAt D.Domain domain.new work.new from first) }
    ensures second { OnOk result (IsClearAt D.Domain domain.new work.new from second) }
{
    if is_other_with_value(&work.values, from, first) {
        return share(nodes, domain, work, from, first, second);
    }
    if is_other_with_value(&work.values, from, second) {
        return share(nodes, domain, work, from, second, first);
    }
    follow(nodes, domain, work, from, first)?;
    follow(nodes, domain, work, from, second)
}

// The node is another one, and has a value.
fn is_other_with_value<V>(values: &[Option<V>], from: u32, node: u32) -> bool
    requires { node < length values.now }
    ensures { IsTrue result → IsOtherWithValue values.now from node }
{
    node != from && values[node as usize].is_some()
}

// Moves the value along two edges, transferred once. What came last may change the value that it was made of.
fn share<D: Domain>(
    nodes: &[Node],
    domain: &mut D,
    work: &mut Work<D::Value>,
    from: u32,
    other: u32,
    last: u32,
) -> Result<(), SolveFault<D::Stop>>
    requires under_way { IsUnderWay D.Domain nodes.now domain.old work.old }
    requires to_other { IsSuccessor (graph_step nodes.now) from other }
    requires to_last { IsSuccessor (graph_step nodes.now) from last }
    requires held { IsOtherWithValue work.old.values.items from other }
    ensures domain { GoesOn D.Domain domain.old domain.new result }
    ensures advances { OnOk result (Advances D.Domain nodes.now domain.old work.old domain.new work.new) }
    ensures other { OnOk result (IsClearAt D.Domain domain.new work.new from other) }
    ensures last { OnOk result (IsClearAt D.Domain domain.new work.new from last) }
{
    let Some(value) = &work.values[from as usize] else {
        return Ok(());
    };
    let moved = match domain.transfer(from, value) {
        Ok(moved) => moved,
        Err(stop) => return Err(SolveFault::Stopped(stop)),
    };
    lend(nodes, domain, work, from, other, &moved)?;
    give(nodes, domain, work, from, last, moved)
}

// Moves the value before a node along one edge.
fn follow<D: Domain>(
    nodes: &[Node],
    domain: &mut D,
    work: &mut Work<D::Value>,
    from: u32,
    to: u32,
) -> Result<(), SolveFault<D::Stop>>
    requires under_way { IsUnderWay D.Domain nodes.now domain.old work.old }
    requires edge { IsSuccessor (graph_step nodes.now) from to }
    ensures domain { GoesOn D.Domain domain.old domain.new result }
    ensures advances { OnOk result (Advances D.Domain nodes.now domain.old work.old domain.new work.new) }
    ensures clear { OnOk result (IsClearAt D.Domain domain.new work.new from to) }
{
    let Some(value) = &work.values[from as usize] else {
        return Ok(());
    };
    let moved = match domain.transfer(from, value) {
        Ok(moved) => moved,
        Err(stop) => return Err(SolveFault::Stopped(stop)),
    };
    give(nodes, domain, work, from, to, moved)
}

// Joins what was moved into the value that is there, and keeps it.
fn lend<D: Domain>(
    nodes: &[Node],
    domain: &mut D,
    work: &mut Work<D::Value>,
    from: u32,
    to: u32,
    moved: &D::Value,
) -> Result<(), SolveFault<D::Stop>>
    requires under_way { IsUnderWay D.Domain nodes.now domain.old work.old }
    requires edge { IsSuccessor (graph_step nodes.now) from to }
    requires moved { IsMovedFrom D.Domain domain.old work.old from moved.now }
    requires held { (v : D.Value) × (value_at work.old.values.items to ≡ Some v) }
    ensures domain { GoesOn D.Domain domain.old domain.new result }
    ensures advances { OnOk result (Advances D.Domain nodes.now domain.old work.old domain.new work.new) }
    ensures clear { OnOk result (IsClearAt D.Domain domain.new work.new from to) }
    ensures others { OnOk result (OthersStay work.old.values.items to work.new.values.items) }
{
    match join(domain, &mut work.values[to as usize], moved) {
        Ok(raised) => note(work, from, to, raised),
        Err(stop) => Err(SolveFault::Stopped(stop)),
    }
}

// Joins what was moved into the value that is there, or puts it where there is none.
fn give<D: Domain>(
    nodes: &[Node],
    domain: &mut D,
    work: &mut Work<D::Value>,
    from: u32,
    to: u32,
    moved: D::Value,
) -> Result<(), SolveFault<D::Stop>>
    requires under_way { IsUnderWay D.Domain nodes.now domain.old work.old }
    requires edge { IsSuccessor (graph_step nodes.now) from to }
    requires moved { IsMovedFrom D.Domain domain.old work.old from moved }
    ensures domain { GoesOn D.Domain domain.old domain.new result }
    ensures advances { OnOk result (Advances D.Domain nodes.now domain.old work.old domain.new work.new) }
    ensures clear { OnOk result (IsClearAt D.Domain domain.new work.new from to) }
{
    match receive(domain, &mut work.values[to as usize], moved) {
        Ok(raised) => note(work, from, to, raised),
        Err(stop) => Err(SolveFault::Stopped(stop)),
    }
}

// Notes that the value before a node was raised from another, if so: the node then waits.
fn note<V, S>(work: &mut Work<V>, from: u32, to: u32, raised: bool) -> Result<(), SolveFault<S>>
    requires { to < length work.old.waiting }
    ensures values { work.new.values ≡ work.old.values }
    ensures noted { OnOk result (IsNoted raised from to
        work.old.changes.items work.old.waiting work.new.changes.items work.new.waiting) }
    ensures stop { IfErr result (λ fault. fault ≡ OutOfMemory) }
{
    if !raised {
        return Ok(());
    }
    let change = Change {
        node: to,
        from: Some(from),
    };
    if work.changes.push(change).is_err() {
        return Err(SolveFault::OutOfMemory);
    }
    work.waiting.add(to);
    Ok(())
}

// Joins what was moved into the slot's value, or puts it there. Answers whether the slot then stands for something
// else.
fn receive<D: Domain>(
    domain: &mut D,
    slot: &mut Option<D::Value>,
    moved: D::Value,
) -> Result<bool, D::Stop>
    requires slot { (v : D.Value) → slot.old ≡ Some v → D.fits (D.state domain.old) v }
    requires moved { D.fits (D.state domain.old) moved }
    ensures goes_on { D.goes_on (D.state domain.old) (D.state domain.new) }
    ensures received { IfOk result (λ raised. Receives D.Domain domain.new slot.old moved raised slot.new) }
    ensures stop { IfErr result (D.licensed (D.state domain.new)) }
{
    match slot {
        Some(into) => domain.join_into(into, &moved),
        None => {
            *slot = Some(moved);
            Ok(true)
        }
    }
}

// Joins what was moved into the slot's value.
fn join<D: Domain>(
    domain: &mut D,
    slot: &mut Option<D::Value>,
    moved: &D::Value,
) -> Result<bool, D::Stop>
    requires held { IsSome slot.old }
    requires slot { (v : D.Value) → slot.old ≡ Some v → D.fits (D.state domain.old) v }
    requires moved { D.fits (D.state domain.old) moved.now }
    ensures goes_on { D.goes_on (D.state domain.old) (D.state domain.new) }
    ensures received { IfOk result (λ raised. Receives D.Domain domain.new slot.old moved.now raised slot.new) }
    ensures stop { IfErr result (D.licensed (D.state domain.new)) }
{
    match slot {
        Some(into) => domain.join_into(into, moved),
        None => unreachable!(),
    }
}
