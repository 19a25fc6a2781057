ghost use Rattle.std.specs.Prelude.{◌≡◌, ◌++◌, decimal, OnOk, OnErr};
ghost use Rattle.report_spec.specs.Graph.{edges_text, graph_line_text};
ghost use Rattle.verdict_report.specs.Extends.{Extends};

use crate::GraphLine;
use crate::write::{push_context, push_number};
use std::alloc::AllocError;

/// Appends the text of a line of the graph, its line end included. Out of memory, the text is as before.
pub fn write_graph_line(line: &GraphLine, into: &mut Vec<u8>) -> Result<(), AllocError>
    ensures ok { OnOk result (into.new.items ≡ into.old.items ++ graph_line_text line.now) }
    ensures err { OnErr result (into.new.items ≡ into.old.items) }
{
    let before = into.len();
    match push_graph_line(into, line) {
        Ok(()) => Ok(()),
        Err(error) => {
            into.truncate(before);
            Err(error)
        }
    }
}

fn push_graph_line(into: &mut Vec<u8>, line: &GraphLine) -> Result<(), AllocError>
    ensures ok { OnOk result (into.new.items ≡ into.old.items ++ graph_line_text line.now) }
    ensures err { OnErr result (Extends into.old.items into.new.items) }
{
    push_context(into, line.node, line.at, line.depth, line.back)?;
    push_edges(into, line.next, line.taken)
}

fn push_edges(into: &mut Vec<u8>, next: Option<u32>, taken: Option<u32>) -> Result<(), AllocError>
    ensures ok { OnOk result (into.new.items ≡ into.old.items ++ edges_text next taken) }
    ensures err { OnErr result (Extends into.old.items into.new.items) }
{
    let Some(next) = next else {
        return into.extend_from_slice(b" stop\n");
    };
    push_edge(into, b" next ", next)?;
    if let Some(taken) = taken {
        push_edge(into, b" taken ", taken)?;
    }
    into.extend_from_slice(b"\n")
}

/// The name of an edge, and the number that it leads to.
fn push_edge(into: &mut Vec<u8>, name: &[u8], to: u32) -> Result<(), AllocError>
    ensures ok { OnOk result (into.new.items ≡ into.old.items ++ (name.now ++ decimal to)) }
    ensures err { OnErr result (Extends into.old.items into.new.items) }
{
    into.extend_from_slice(name)?;
    push_number(into, to as u64)
}
