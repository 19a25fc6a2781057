// The line of a place: its ways are copied, or made where none is kept.
ghost use Rattle.std.specs.Prelude.{◌≡◌, if◌then◌else◌, length, IfOk};
ghost use Rattle.node_spec.specs.Plan.{IsNodeWay};
ghost use Rattle.report_plan.specs.Kept.{AreBefore};
ghost use Rattle.report_plan.specs.Sources.{GivesLine, GivesWay, GiveWays, IsLineFrom, IsVerdictFrom};

use crate::before::{Befores, way_to};
use crate::copies::copy_way;
use crate::place::{Ends, Place};
use node_spec::{NodeVerdict, Ways};
use path_model::Graph;
use report_spec::{Line, Verdict, Way};
use std::alloc::{AllocError, Global};

// The way to a hit, or to a miss.
fn one_of<'a>(ways: &'a Ways, hits: bool) -> &'a Way
    ensures { result.now ≡ (if hits then ways.now.hit else ways.now.miss) }
{
    if hits { &ways.hit } else { &ways.miss }
}

// The way to a hit that comes from a node, or to a miss where `hits` is false: its own where it keeps them. Takes time
// in the order of the nodes where the way has to be made.
fn way_of(
    alloc: Global,
    graph: &Graph,
    before: &Befores,
    verdicts: &[NodeVerdict],
    node: u32,
    hits: bool,
) -> Result<Way, AllocError>
    requires before { AreBefore graph.now before.now }
    requires one_each { length verdicts.now ≡ length graph.now }
    requires gives { GivesWay verdicts.now hits node }
    ensures { IfOk result (IsNodeWay graph.now verdicts.now node hits) }
{
    match &verdicts[node as usize] {
        NodeVerdict::Both(Some(ways)) => copy_way(alloc, one_of(ways, hits)),
        _ => way_to(alloc, graph, before, node),
    }
}

// The verdict of a line with ways of the nodes that are named.
fn verdict_of(
    alloc: Global,
    graph: &Graph,
    before: &Befores,
    verdicts: &[NodeVerdict],
    ends: Ends,
) -> Result<Verdict, AllocError>
    requires before { AreBefore graph.now before.now }
    requires one_each { length verdicts.now ≡ length graph.now }
    requires give { GiveWays verdicts.now ends }
    ensures { IfOk result (IsVerdictFrom graph.now verdicts.now ends) }
{
    match ends {
        Ends::AllHit => Ok(Verdict::AlwaysHit),
        Ends::AllMiss => Ok(Verdict::AlwaysMiss),
        Ends::Either { hit, miss } => Ok(Verdict::Unknown {
            hit: way_of(alloc, graph, before, verdicts, hit, true)?,
            miss: way_of(alloc, graph, before, verdicts, miss, false)?,
        }),
    }
}

/// The line of a place.
pub(crate) fn line_of(
    alloc: Global,
    graph: &Graph,
    before: &Befores,
    verdicts: &[NodeVerdict],
    place: Place,
) -> Result<Line, AllocError>
    requires before { AreBefore graph.now before.now }
    requires one_each { length verdicts.now ≡ length graph.now }
    requires gives { GivesLine verdicts.now place }
    ensures { IfOk result (IsLineFrom graph.now verdicts.now place) }
{
    match place {
        Place::OfAddress { at, ends } => Ok(Line::At {
            at,
            verdict: verdict_of(alloc, graph, before, verdicts, ends)?,
        }),
        Place::OfNode {
            node,
            at,
            depth,
            back,
            ends,
        } => Ok(Line::Context {
            node,
            at,
            depth,
            back,
            verdict: verdict_of(alloc, graph, before, verdicts, ends)?,
        }),
        Place::OfRange { first, last } => Ok(Line::Unreachable { first, last }),
    }
}
