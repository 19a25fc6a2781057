// What the nodes do that fetch some sets: on smaller and smaller graphs, for fewer and fewer of the sets.
ghost use Rattle.std.specs.Prelude.{◌≡◌, ◌+◌, ◌++◌, ◌-◌, ◌<◌, ◌≤◌, ℕ, length, IfOk, IfErr, IfSome, IfNone, OnOk};
ghost use Rattle.node_verdicts.specs.Judged.{AreJudged, IsFetcher, IsFetcherOf};
ghost use Rattle.node_verdicts.specs.Found.{AreJobsWithin, IsClearWithin};
ghost use Rattle.node_verdicts.specs.Ranges.{IsSpan, IsSpanGraph, AreFew, IsFaultWithin, widened};

use crate::judged::Found;
use crate::lift::lift_all;
use crate::one_set::judge_set;
use age_graphs::job_laws;
use cache_geom::Geometry;
use node_spec::Kept;
use path_model::{Graph, Node, Start};
use set_view::ViewFault;
use sparse_graph::{SparseGraph, sparse_for};
use std::alloc::{AllocError, Global};

/// The number of parts into which the sets of a graph are divided, each with a smaller graph. More parts make more
/// graphs out of one, fewer parts a longer way back to the whole graph.
const PARTS: u32 = 8;

/// Sets, from the first of them to the last.
#[derive(Clone, Copy)]
pub(crate) struct Span {
    pub first: u32,
    pub last: u32,
}

/// A graph that was made smaller for the sets of a span.
#[derive(Drop)]
pub(crate) struct SpanGraph<'g> {
    pub span: Span,
    pub sparse: SparseGraph<'g>,
}

/// What is found of some sets, and the graph that was made smaller for them, if one was.
#[derive(Drop)]
pub(crate) struct SetsFound<'g> {
    pub found: Found,
    pub graph: Option<SpanGraph<'g>>,
}

/// What the paths can do that end in each node which fetches a block of one of these sets that the ages settle, of `low`
/// and those above it, below `high`; and which of their blocks the ages leave unclear.
///
/// It goes on from a sparse graph for these sets with one part of them after another, down to single sets. An error has
/// the first set with too many fetched blocks.
#[cycle(ranges)]
pub(crate) fn judge_sets<'g>(
    alloc: Global,
    graph: &'g Graph,
    geometry: &Geometry,
    start: Start,
    kept: Kept,
    low: u32,
    high: u32,
) -> Result<SetsFound<'g>, ViewFault>
    requires { high ≤ geometry.now.sets }
    ensures judged { IfOk result (λ sets. AreJudged graph.now geometry.now start kept
        (IsFetcherOf graph.now geometry.now (IsClearWithin graph.now geometry.now start low high))
        sets.found.judged.items) }
    ensures jobs { IfOk result (λ sets. AreJobsWithin graph.now geometry.now start low high sets.found.jobs.items) }
    ensures few { IfOk result (λ sets. AreFew graph.now geometry.now low high) }
    ensures graph { IfOk result (λ sets. IfSome sets.graph (IsSpanGraph graph.now geometry.now)) }
    ensures fault { IfErr result (λ fault. IsFaultWithin graph.now geometry.now low high fault) }
{
    job_laws();
    let Some(span) = fetched_within(graph.nodes(), geometry, low, high) else {
        return Ok(SetsFound {
            found: Found::none(alloc),
            graph: None,
        });
    };
    match sparse_for(alloc, graph, geometry, span.first, span.last + 1)? {
        Some(sparse) => {
            let small = judge_span(alloc, sparse.graph(), geometry, start, kept, span)?;
            let judged = lift_all(alloc, &sparse, small.judged)?;
            Ok(SetsFound {
                found: Found {
                    judged,
                    jobs: small.jobs,
                },
                graph: Some(SpanGraph { span, sparse }),
            })
        }
        None => {
            let found = judge_span(alloc, graph, geometry, start, kept, span)?;
            Ok(SetsFound { found, graph: None })
        }
    }
}

// The same of a span: one set, or part after part of them.
#[cycle(ranges)]
fn judge_span(
    alloc: Global,
    graph: &Graph,
    geometry: &Geometry,
    start: Start,
    kept: Kept,
    span: Span,
) -> Result<Found, ViewFault>
    requires some { span.first ≤ span.last }
    requires inside { span.last < geometry.now.sets }
    ensures judged { IfOk result (λ found. AreJudged graph.now geometry.now start kept
        (IsFetcherOf graph.now geometry.now (IsClearWithin graph.now geometry.now start span.first (span.last + 1)))
        found.judged.items) }
    ensures jobs { IfOk result (λ found.
        AreJobsWithin graph.now geometry.now start span.first (span.last + 1) found.jobs.items) }
    ensures few { IfOk result (λ found. AreFew graph.now geometry.now span.first (span.last + 1)) }
    ensures fault { IfErr result (λ fault. IsFaultWithin graph.now geometry.now span.first (span.last + 1) fault) }
{
    let Span { first, last } = span;
    if first == last {
        return judge_set(alloc, graph, geometry, start, kept, first);
    }
    // The sets of a cache have numbers of 32 bits, and so has the one after the last of these.
    let sets = geometry.sets();
    prove!(last < sets);
    let mut found = Found::none(alloc);
    let mut low = first;
    while low <= last {
        let high = part_end(low, first, last);
        let part = judge_sets(alloc, graph, geometry, start, kept, low, high)?;
        add(&mut found, part)?;
        low = high;
    }
    Ok(found)
}

// Adds what is found of one part more.
fn add(found: &mut Found, part: SetsFound) -> Result<(), AllocError>
    ensures judged { OnOk result (found.new.judged.items
        ≡ found.old.judged.items ++ part.entry.found.judged.items) }
    ensures jobs { OnOk result (found.new.jobs.items ≡ found.old.jobs.items ++ part.entry.found.jobs.items) }
{
    found.append(part.found)
}

// The end of the part of these sets that begins at `low`: an eighth of them, or what is left.
fn part_end(low: u32, first: u32, last: u32) -> u32
    requires first { first ≤ last }
    requires low { low ≤ last }
    requires last { last < 4294967295 }
    ensures more { low < result }
    ensures fits { result ≤ last + 1 }
    ensures smaller { first < last → result - low < last + 1 - first }
{
    let size = (last - first) / PARTS + 1;
    low + size.min(last + 1 - low)
}

// The span of the fetched sets among these: `low` and those above it, below `high`. It goes over the nodes once.
fn fetched_within(nodes: &[Node], geometry: &Geometry, low: u32, high: u32) -> Option<Span>
    ensures some { IfSome result (IsSpan nodes.now geometry.now low high) }
    ensures none { IfNone result ((n : ℕ) → IsFetcher nodes.now geometry.now low high n → ⊥) }
{
    let mut span = None;
    for node in nodes {
        let set = geometry.set_of(geometry.block(node.at));
        if low <= set && set < high {
            span = Some(widened(span, set));
        }
    }
    span
}

// The span with one more set.
fn widened(span: Option<Span>, set: u32) -> Span
    ensures { result ≡ widened span set }
{
    match span {
        Some(Span { first, last }) => Span {
            first: first.min(set),
            last: last.max(set),
        },
        None => Span {
            first: set,
            last: set,
        },
    }
}
