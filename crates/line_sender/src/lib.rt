//! Report lines on their way to a sink.
//!
//! The lines' texts are gathered in one reused buffer, which the caller holds, and handed on in pieces of about 64 KiB:
//! there is no write for each line, and a report is never held whole. Each contract says what is pending, as one word:
//! since the sink stood at some bytes, what was sent and then the buffer are a text. The laws in `proofs/Pending.antt`
//! carry that from line to line; `send_lines` is the loop over a slice, and shows their use. Stands on `byte_port` and
//! on `verdict_report`.
#![tactic(auto)]

ghost use Rattle.std.specs.Prelude.{◌≡◌, ◌<◌, ◌++◌, [], length, vec_capacity, IsTrue, IsOk, OnOk, OnErr};
ghost use Rattle.std.specs.List.{list_all};
ghost use Rattle.byte_port.specs.Count.{CountsFaults};
ghost use Rattle.byte_port.specs.Sent.{Sends, SendsPrefixOf};
ghost use Rattle.report_spec.specs.Graph.{graph_line_text};
ghost use Rattle.report_spec.specs.Text.{line_text, text_of};
ghost use Rattle.report_spec.specs.Valid.{is_valid};
ghost use Rattle.line_sender.specs.Pending.{IsPending, MayRefuse, WritesBy};

use byte_port::{Sink, SinkFault, send_all};
use std::alloc::Global;
use verdict_report::{GraphLine, Line, write_graph_line, write_line};

#[cfg(test)]
mod tests;

/// How many bytes are gathered before they are handed on.
pub const PIECE: usize = 65536;

/// Adds the text of a valid line to what the buffer has, and hands the buffer on once it has a piece.
/// After an error a prefix of that was sent, and the buffer is of no more use.
pub fn send_line<O: Sink>(out: &mut O, buffer: &mut Vec<u8>, line: &Line) -> Result<(), SinkFault>
    requires { IsTrue (is_valid line.now) }
    ensures pending { OnOk result (IsPending O.Sink out.old out.new buffer.new.items (buffer.old.items ++ line_text line.now)) }
    ensures part { OnErr result (SendsPrefixOf O.Sink out.old out.new (buffer.old.items ++ line_text line.now)) }

    // Less than a piece is left in the buffer, and less than a piece is not sent.
    ensures below_piece { OnOk result (length buffer.new.items < PIECE) }
    ensures held { length (buffer.old.items ++ line_text line.now) < PIECE → out.new ≡ out.old }
    ensures faults { CountsFaults result (O.faults out.old) (O.faults out.new) }
    ensures refusals { MayRefuse result (O.refusals out.old) (O.refusals out.new) }
    ensures writes { WritesBy O.writes result out.old out.new }
{
    write_line(line, buffer)?;
    hand_on(out, buffer)
}

/// Adds the text of a line of the graph to what the buffer has, and hands the buffer on once it has a piece.
/// After an error a prefix of that was sent, and the buffer is of no more use.
pub fn send_graph_line<O: Sink>(
    out: &mut O,
    buffer: &mut Vec<u8>,
    line: &GraphLine,
) -> Result<(), SinkFault>
    ensures pending { OnOk result (IsPending O.Sink out.old out.new buffer.new.items (buffer.old.items ++ graph_line_text line.now)) }
    ensures part { OnErr result (SendsPrefixOf O.Sink out.old out.new (buffer.old.items ++ graph_line_text line.now)) }
    ensures below_piece { OnOk result (length buffer.new.items < PIECE) }
    ensures held { length (buffer.old.items ++ graph_line_text line.now) < PIECE → out.new ≡ out.old }
    ensures faults { CountsFaults result (O.faults out.old) (O.faults out.new) }
    ensures refusals { MayRefuse result (O.refusals out.old) (O.refusals out.new) }
    ensures writes { WritesBy O.writes result out.old out.new }
{
    write_graph_line(line, buffer)?;
    hand_on(out, buffer)
}

/// Hands the buffer on where it has a piece.
fn hand_on<O: Sink>(out: &mut O, buffer: &mut Vec<u8>) -> Result<(), SinkFault>
    ensures pending { OnOk result (IsPending O.Sink out.old out.new buffer.new.items buffer.old.items) }
    ensures part { OnErr result (SendsPrefixOf O.Sink out.old out.new buffer.old.items) }
    ensures below_piece { OnOk result (length buffer.new.items < PIECE) }
    ensures held { length buffer.old.items < PIECE → (out.new ≡ out.old) × IsOk result }
    ensures faults { CountsFaults result (O.faults out.old) (O.faults out.new) }
    ensures refusals { MayRefuse result (O.refusals out.old) (O.refusals out.new) }
    ensures writes { WritesBy O.writes result out.old out.new }
{
    if buffer.len() < PIECE {
        return Ok(());
    }
    finish(out, buffer)
}

/// Hands on what the buffer has, which then is empty and keeps its room.
/// After an error a prefix of that was sent, and the buffer is of no more use.
pub fn finish<O: Sink>(out: &mut O, buffer: &mut Vec<u8>) -> Result<(), SinkFault>
    ensures whole { OnOk result (Sends O.Sink out.old out.new buffer.old.items) }
    ensures empty { OnOk result (buffer.new.items ≡ []) }
    ensures room { OnOk result (vec_capacity buffer.new ≡ vec_capacity buffer.old) }
    ensures part { OnErr result (SendsPrefixOf O.Sink out.old out.new buffer.old.items) }
    ensures faults { CountsFaults result (O.faults out.old) (O.faults out.new) }
    ensures refusals { MayRefuse result (O.refusals out.old) (O.refusals out.new) }
    ensures writes { WritesBy O.writes result out.old out.new }
{
    send_all(out, buffer)?;
    buffer.clear();
    Ok(())
}

/// Sends valid lines, one after another. After an error the sink has a prefix of their text.
pub fn send_lines<O: Sink>(alloc: Global, out: &mut O, lines: &[Line]) -> Result<(), SinkFault>
    requires { IsTrue (list_all is_valid lines.now) }
    ensures whole { OnOk result (Sends O.Sink out.old out.new (text_of lines.now)) }
    ensures part { OnErr result (SendsPrefixOf O.Sink out.old out.new (text_of lines.now)) }
    ensures faults { CountsFaults result (O.faults out.old) (O.faults out.new) }
    ensures refusals { MayRefuse result (O.refusals out.old) (O.refusals out.new) }
    ensures writes { WritesBy O.writes result out.old out.new }
{
    let mut buffer = Vec::with_capacity(alloc, PIECE)?;
    for line in lines {
        send_line(out, &mut buffer, line)?;
    }
    finish(out, &mut buffer)
}
