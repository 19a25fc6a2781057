// The text of a program's graph, line by line.
ghost use Rattle.std.specs.Prelude.{◌≡◌, ◌<◌, length, slice_get, Some, OnOk, OnErr};
ghost use Rattle.byte_port.specs.Count.{CountsFaults};
ghost use Rattle.byte_port.specs.Sent.{Sends, SendsPrefixOf};
ghost use Rattle.line_sender.specs.Pending.{MayRefuse, WritesBy};
ghost use Rattle.icache_top.specs.GraphLines.{graph_lines_of, graph_text_of};

use byte_port::{Sink, SinkFault};
use call_expand::Expanded;
use line_sender::{PIECE, finish, send_graph_line};
use std::alloc::Global;
use verdict_report::GraphLine;

/// Sends the text of a graph: a line for each configuration. After an error the sink has a prefix of it.
pub(crate) fn send_graph<O: Sink>(
    alloc: Global,
    out: &mut O,
    expanded: &Expanded,
) -> Result<(), SinkFault>
    requires { length expanded.now.configurations ≡ length expanded.now.nodes }
    ensures whole { OnOk result (Sends O.Sink out.old out.new (graph_text_of expanded.now)) }
    ensures part { OnErr result (SendsPrefixOf O.Sink out.old out.new (graph_text_of expanded.now)) }
    ensures faults { CountsFaults result (O.faults out.old) (O.faults out.new) }
    ensures refusals { MayRefuse result (O.refusals out.old) (O.refusals out.new) }
    ensures writes { WritesBy O.writes result out.old out.new }
{
    let mut buffer = Vec::with_capacity(alloc, PIECE)?;
    for node in 0..expanded.graph().nodes().len() as u32 {
        send_graph_line(out, &mut buffer, &line_of(expanded, node))?;
    }
    finish(out, &mut buffer)
}

/// The line of the configuration with a number.
fn line_of(expanded: &Expanded, node: u32) -> GraphLine
    requires inside { node < length expanded.now.nodes }
    requires one_each { length expanded.now.configurations ≡ length expanded.now.nodes }
    ensures { slice_get (graph_lines_of expanded.now) node ≡ Some result }
{
    let config = expanded.config(node);
    let fetch = expanded.graph().nodes()[node as usize];
    GraphLine {
        node,
        at: fetch.at,
        depth: config.depth,
        back: expanded.top(node).map(|frame| frame.back),
        next: fetch.first,
        taken: fetch.second,
    }
}
