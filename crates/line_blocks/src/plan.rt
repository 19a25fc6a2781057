// The test of a plan: runs, and the run of each node.
ghost use Rattle.std.specs.Prelude.{◌≡◌, ◌↔◌, ℕ, ◌<◌, ◌≤◌, length, slice_get, IsTrue};
ghost use Rattle.cache_spec.specs.Geometry.{block_of};
ghost use Rattle.path_model.specs.Graph.{address_of};
ghost use Rattle.line_blocks.specs.Runs.{run_of, head_of, last_of, IsHead, IsHeadIf, IsInner, IsPassedBy, IsPassed, IsLed, IsLeft, IsRun, IsPlan};
ghost use Rattle.line_blocks.specs.Expand.{next_in};
ghost use Rattle.line_blocks.specs.Ways.{IsLast};

use cache_geom::Geometry;
use path_model::Node;

/// The first node of a run and its last one.
#[derive(Clone, Copy, Debug, PartialEq, Eq)]
pub struct Run {
    pub head: u32,
    pub last: u32,
}

pub(crate) fn run_of(numbers: &[u32], node: u32) -> u32
    ensures { result ≡ run_of numbers.now node }
{
    numbers.get(node as usize).copied().unwrap_or(0)
}

pub(crate) fn head_of(runs: &[Run], run: usize) -> u32
    ensures { result ≡ head_of runs.now run }
{
    match runs.get(run) {
        Some(run) => run.head,
        None => 0,
    }
}

pub(crate) fn last_of(runs: &[Run], run: usize) -> u32
    ensures { result ≡ last_of runs.now run }
{
    match runs.get(run) {
        Some(run) => run.last,
        None => 0,
    }
}

// The first successor of a node.
pub(crate) fn next(nodes: &[Node], node: u32) -> u32
    ensures { result ≡ next_in (slice_get nodes.now node) }
{
    match nodes.get(node as usize) {
        Some(node) => node.first.unwrap_or(0),
        None => 0,
    }
}

// The node is the last of its run.
pub(crate) fn is_last(numbers: &[u32], runs: &[Run], node: u32) -> bool
    ensures { IsTrue result ↔ IsLast numbers.now runs.now node }
{
    last_of(runs, run_of(numbers, node) as usize) == node
}

// The node is the first of its run.
pub(crate) fn is_head(numbers: &[u32], runs: &[Run], node: u32) -> bool
    ensures { IsTrue result ↔ IsHead numbers.now runs.now node }
{
    head_of(runs, run_of(numbers, node) as usize) == node
}

// A successor, if there is one, is the first of its run.
fn is_head_if(numbers: &[u32], runs: &[Run], to: Option<u32>) -> bool
    ensures { IsTrue result ↔ IsHeadIf numbers.now runs.now to }
{
    match to {
        Some(to) => is_head(numbers, runs, to),
        None => true,
    }
}

pub(crate) fn address_of(nodes: &[Node], number: u32) -> u32
    ensures { result ≡ address_of nodes.now number }
{
    match nodes.get(number as usize) {
        Some(node) => node.at,
        None => 0,
    }
}

// The block that a node fetches.
pub(crate) fn block_at(nodes: &[Node], geometry: &Geometry, node: u32) -> u32
    ensures { result ≡ block_of geometry.now (address_of nodes.now node) }
{
    geometry.block(address_of(nodes, node))
}

// The next node is in the run of this one, not as its first, fetches the same block, and is a later node.
fn is_inner(
    nodes: &[Node],
    geometry: &Geometry,
    numbers: &[u32],
    runs: &[Run],
    node: u32,
    next: u32,
) -> bool
    ensures { IsTrue result ↔ IsInner nodes.now geometry.now numbers.now runs.now node next }
{
    !is_head(numbers, runs, next)
        && run_of(numbers, next) == run_of(numbers, node)
        && block_at(nodes, geometry, next) == block_at(nodes, geometry, node)
        && node < next
}

// There is one successor, and it goes on with the run of the node.
fn is_passed_by(
    nodes: &[Node],
    geometry: &Geometry,
    numbers: &[u32],
    runs: &[Run],
    node: u32,
    here: &Node,
) -> bool
    ensures { IsTrue result ↔ IsPassedBy nodes.now geometry.now numbers.now runs.now node here.now.first here.now.second }
{
    match (here.first, here.second) {
        (Some(next), None) => is_inner(nodes, geometry, numbers, runs, node, next),
        (Some(_), Some(_)) => false,
        (None, _) => false,
    }
}

// The node goes on with its run.
fn is_passed(nodes: &[Node], geometry: &Geometry, numbers: &[u32], runs: &[Run], node: u32) -> bool
    ensures { IsTrue result ↔ IsPassed nodes.now geometry.now numbers.now runs.now node (slice_get nodes.now node) }
{
    match nodes.get(node as usize) {
        Some(here) => is_passed_by(nodes, geometry, numbers, runs, node, here),
        None => false,
    }
}

// The node is in a run, as its last or going on with it.
fn is_led(nodes: &[Node], geometry: &Geometry, numbers: &[u32], runs: &[Run], node: u32) -> bool
    ensures { IsTrue result ↔ IsLed nodes.now geometry.now numbers.now runs.now node }
{
    let run = run_of(numbers, node) as usize;
    run < runs.len()
        && (last_of(runs, run) == node || is_passed(nodes, geometry, numbers, runs, node))
}

// All successors of the node are the first ones of their runs.
fn is_left(nodes: &[Node], numbers: &[u32], runs: &[Run], node: u32) -> bool
    ensures { IsTrue result ↔ IsLeft numbers.now runs.now (slice_get nodes.now node) }
{
    match nodes.get(node as usize) {
        Some(here) => {
            is_head_if(numbers, runs, here.first) && is_head_if(numbers, runs, here.second)
        }
        None => false,
    }
}

// The run has its first node and its last one, and is left from that one.
fn is_run(nodes: &[Node], numbers: &[u32], runs: &[Run], run: usize) -> bool
    ensures { IsTrue result ↔ IsRun nodes.now numbers.now runs.now run }
{
    let head = head_of(runs, run);
    let last = last_of(runs, run);
    (head as usize) < nodes.len()
        && run_of(numbers, head) as usize == run
        && run_of(numbers, last) as usize == run
        && is_left(nodes, numbers, runs, last)
}

fn all_led(nodes: &[Node], geometry: &Geometry, numbers: &[u32], runs: &[Run]) -> bool
    requires { length nodes.now ≤ 65536 }
    ensures { IsTrue result ↔ ((n : ℕ) → n < length nodes.now
        → IsLed nodes.now geometry.now numbers.now runs.now n) }
{
    for node in 0..nodes.len() as u32 {
        if !is_led(nodes, geometry, numbers, runs, node) {
            return false;
        }
    }
    true
}

fn all_runs(nodes: &[Node], numbers: &[u32], runs: &[Run]) -> bool
    ensures { IsTrue result ↔ ((p : ℕ) → p < length runs.now → IsRun nodes.now numbers.now runs.now p) }
{
    for run in 0..runs.len() {
        if !is_run(nodes, numbers, runs, run) {
            return false;
        }
    }
    true
}

// These numbers and runs are a plan. It goes over the nodes once, and over the runs.
pub(crate) fn is_plan(nodes: &[Node], geometry: &Geometry, numbers: &[u32], runs: &[Run]) -> bool
    requires { length nodes.now ≤ 65536 }
    ensures { IsTrue result ↔ IsPlan nodes.now geometry.now numbers.now runs.now }
{
    head_of(runs, 0) == 0
        && all_led(nodes, geometry, numbers, runs)
        && all_runs(nodes, numbers, runs)
}
