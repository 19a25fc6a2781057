ghost use Rattle.std.specs.Prelude.{◌≡◌, ◌⊎◌, ◌+◌, ◌-◌, ◌^◌, ◌<◌, ◌≤◌, [], ◌∷◌, ◌++◌, length, drop, IfOk, IfErr, OnOk};
ghost use Rattle.flow_spec.specs.Successors.{successors, leads_to};
ghost use Rattle.frame_stacks.specs.Stacks.{frames_of};
ghost use Rattle.call_expand.specs.Point.{configuration_at, configurations_at, ArePoints, IsPoint, GoesOn, IsEdge, FailsAt, Opens, AreAllFollowed};

use crate::point::{Edges, Point};
use crate::program::Program;
use flow_spec::{FlowFault, Frame, Next};
use frame_stacks::Stacks;
use std::alloc::AllocError;

// Where control goes from a point, or the fault of its configuration.
fn edges_of(program: &Program, stacks: &mut Stacks, point: Point) -> Result<Edges, FlowFault>
    requires point { IsPoint program.now stacks.old point }
    requires room { length stacks.old < 2 ^ 32 - 1 }
    ensures edge { IfOk result (λ edges.
        IsEdge (successors program.now) program.now stacks.new point edges) }
    ensures goes_on { OnOk result (GoesOn stacks.old stacks.new) }
    ensures one { OnOk result (length stacks.new ≤ length stacks.old + 1) }
    ensures fault { IfErr result (λ fault. (fault ≡ FlowFault.OutOfMemory)
        ⊎ (successors program.now (configuration_at stacks.old point) ≡ Err fault)) }
{
    // What the instruction does counts after its last part.
    if u32::from(point.part) + 1 < program.parts(point.at) {
        return Ok(Edges {
            first: Some(Point {
                part: point.part + 1,
                ..point
            }),
            second: None,
        });
    }
    match program.next_of(point.at, stacks.top(point.stack))? {
        Next::Ends => Ok(Edges {
            first: None,
            second: None,
        }),
        Next::Go(target) => Ok(one(target, point.stack)),
        Next::Fork(next, target) => Ok(Edges {
            first: Some(Point {
                at: next,
                part: 0,
                stack: point.stack,
            }),
            second: Some(Point {
                at: target,
                part: 0,
                stack: point.stack,
            }),
        }),
        Next::Enter { target, frame } => enter(program.entry(), stacks, point, target, frame),
        Next::Back(target) => Ok(one(target, stacks.below(point.stack))),
    }
}

// Control comes to one instruction, at its first part.
fn one(at: u32, stack: u32) -> Edges
    ensures { result ≡ record { first = Some (record { at = at; part = 0; stack = stack }); second = None } }
{
    Edges {
        first: Some(Point { at, part: 0, stack }),
        second: None,
    }
}

fn enter(
    entry: u32,
    stacks: &mut Stacks,
    point: Point,
    target: u32,
    frame: Frame,
) -> Result<Edges, FlowFault>
    requires known { point.stack ≤ length stacks.old }
    requires room { length stacks.old < 2 ^ 32 - 1 }
    ensures goes { IfOk result (λ edges. Opens entry stacks.old stacks.new point target frame edges) }
    ensures goes_on { OnOk result (GoesOn stacks.old stacks.new) }
    ensures one { OnOk result (length stacks.new ≤ length stacks.old + 1) }
    ensures fault { IfErr result (λ fault. (fault ≡ FlowFault.OutOfMemory)
        ⊎ (leads_to entry (frames_of stacks.old point.stack) point.at (Next.Enter target frame) ≡ Err fault)) }
{
    if target == entry || stacks.has_callee(point.stack, target) {
        return Err(FlowFault::Recursion { at: point.at });
    }
    Ok(one(target, stacks.push(point.stack, frame)?))
}

// Follows each point, and adds its edges after the others.
fn follow_all(
    program: &Program,
    stacks: &mut Stacks,
    points: &[Point],
    edges: &mut Vec<Edges>,
) -> Result<(), FlowFault>
    requires points { ArePoints program.now stacks.old points.now }
    requires room { length stacks.old + length points.now < 2 ^ 32 - 1 }
    ensures followed { OnOk result (AreAllFollowed (successors program.now) program.now stacks.old stacks.new points.now
        edges.old.items edges.new.items) }
    ensures fault { IfErr result (λ fault. (fault ≡ FlowFault.OutOfMemory)
        ⊎ FailsAt (successors program.now) (configurations_at stacks.old points.now) fault) }
{
    for point in points {
        let next = edges_of(program, stacks, *point)?;
        push(edges, next)?;
    }
    Ok(())
}

// Follows the points from index `start` on.
pub(crate) fn follow_from(
    program: &Program,
    stacks: &mut Stacks,
    points: &[Point],
    start: usize,
    edges: &mut Vec<Edges>,
) -> Result<(), FlowFault>
    requires within { start ≤ length points.now }
    requires points { ArePoints program.now stacks.old (drop start points.now) }
    requires room { length stacks.old + length points.now < 2 ^ 32 - 1 }
    ensures followed { OnOk result (AreAllFollowed (successors program.now) program.now stacks.old stacks.new
        (drop start points.now) edges.old.items edges.new.items) }
    ensures fault { IfErr result (λ fault. (fault ≡ FlowFault.OutOfMemory)
        ⊎ FailsAt (successors program.now) (configurations_at stacks.old (drop start points.now)) fault) }
{
    follow_all(program, stacks, &points[start..], edges)
}

fn push(edges: &mut Vec<Edges>, next: Edges) -> Result<(), AllocError>
    ensures { OnOk result (edges.new.items ≡ edges.old.items ++ next ∷ []) }
{
    edges.push(next)?;
    Ok(())
}
