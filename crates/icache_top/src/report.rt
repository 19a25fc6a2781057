// The report of a program, line by line.
ghost use Rattle.std.specs.Prelude.{◌<◌, Some, IfOk, OnOk, OnErr};
ghost use Rattle.byte_port.specs.Count.{CountsFaults};
ghost use Rattle.byte_port.specs.Sent.{Sends, SendsPrefixOf};
ghost use Rattle.line_sender.specs.Pending.{IsPending, MayRefuse, WritesBy};
ghost use Rattle.report_plan.specs.Kept.{IsPlanOf};
ghost use Rattle.icache_top.specs.Lines.{HaveFound, SendsNext, SendsPart, SendsReport, StandsIn, left_from};

use byte_port::{Sink, SinkFault};
use call_expand::{Expanded, Isa};
use elf_image::Image;
use line_sender::{PIECE, finish, send_line};
use node_spec::NodeVerdict;
use report_plan::Plan;
use std::alloc::Global;

/// What was found of an accepted program, whose instructions are those of `isa`: its configurations as a graph, and the
/// verdict of each, with the ways that its lines need.
#[derive(Clone, Copy)]
pub(crate) struct Findings<'p> {
    pub(crate) image: &'p Image,
    pub(crate) isa: Isa,
    pub(crate) expanded: &'p Expanded,
    pub(crate) verdicts: &'p [NodeVerdict],
}

/// Sends the report of a program, by address or with a line for each configuration. After an error the sink has a
/// prefix of it.
pub(crate) fn send_report<O: Sink>(
    alloc: Global,
    out: &mut O,
    found: &Findings,
    contexts: bool,
) -> Result<(), SinkFault>
    requires { HaveFound contexts found.now }
    ensures whole { OnOk result (SendsReport contexts found.now (Sends O.Sink out.old out.new)) }
    ensures part { OnErr result (SendsReport contexts found.now (SendsPrefixOf O.Sink out.old out.new)) }
    ensures faults { CountsFaults result (O.faults out.old) (O.faults out.new) }
    ensures refusals { MayRefuse result (O.refusals out.old) (O.refusals out.new) }
    ensures writes { WritesBy O.writes result out.old out.new }
{
    let plan = Plan::new(alloc, found.expanded)?;
    let mut buffer = Vec::with_capacity(alloc, PIECE)?;
    let mut cursor = Some(0);
    while let Some(from) = cursor {
        cursor = send_from(alloc, out, &mut buffer, found, &plan, contexts, from)?;
    }
    finish(out, &mut buffer)
}

/// Sends the line at a cursor, and gives the cursor after it.
fn send_from<O: Sink>(
    alloc: Global,
    out: &mut O,
    buffer: &mut Vec<u8>,
    found: &Findings,
    plan: &Plan,
    contexts: bool,
    from: u32,
) -> Result<Option<u32>, SinkFault>
    requires plan { IsPlanOf found.now.expanded.now.nodes plan.now }
    requires found { HaveFound contexts found.now }
    ensures order { IfOk result (λ next. left_from next < left_from (Some from)) }
    ensures pending { IfOk result (SendsNext (StandsIn contexts found.now) from
        (IsPending O.Sink out.old out.new buffer.new.items) buffer.old.items) }
    ensures part { OnErr result (SendsPart (StandsIn contexts found.now) from
        (SendsPrefixOf O.Sink out.old out.new) buffer.old.items) }
    ensures faults { CountsFaults result (O.faults out.old) (O.faults out.new) }
    ensures refusals { MayRefuse result (O.refusals out.old) (O.refusals out.new) }
    ensures writes { WritesBy O.writes result out.old out.new }
{
    let Findings {
        image,
        isa,
        expanded,
        verdicts,
    } = found;
    match plan.line(alloc, image, *isa, expanded, verdicts, contexts, from)? {
        None => Ok(None),
        Some((line, next)) => {
            send_line(out, buffer, &line)?;
            Ok(next)
        }
    }
}
