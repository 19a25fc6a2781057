ghost use Rattle.std.specs.Prelude.{IsTrue};
ghost use Rattle.report_spec.specs.Valid.{is_valid};

use super::*;
use byte_port::{SureSink, WritePort};
use std::io::Cursor;
use std::test::Fail;
use verdict_report::Verdict;

const TEXT: &str = "0x00010000 always-hit\n0x00010004 always-hit\n0x00010008 always-hit\n";

fn hit(at: u32) -> Line
    ensures { IsTrue (is_valid result) }
{
    Line::At {
        at,
        verdict: Verdict::AlwaysHit,
    }
}

#[test]
fn small_pieces_make_the_whole(rt: HostRuntime) -> Result<(), Fail> {
    let lines = [hit(0x10000), hit(0x10004), hit(0x10008)];
    for piece in 1..9 {
        let mut sink = SureSink::new(rt.alloc(), piece);
        send_lines(rt.alloc(), &mut sink, &lines)?;
        assert_eq!(rt; sink.sent(), TEXT.as_bytes());
    }
    Ok(())
}

#[test]
fn a_text_of_more_than_a_piece_goes_over_whole(rt: HostRuntime) -> Result<(), Fail> {
    let mut sink = SureSink::new(rt.alloc(), 1000);
    let mut buffer = Vec::with_capacity(rt.alloc(), PIECE)?;
    let mut text = Vec::new(rt.alloc());
    for word in 0..4000u32 {
        let line = hit(word * 4);
        send_line(&mut sink, &mut buffer, &line)?;
        write_line(&line, &mut text)?;
    }
    assert!(rt; sink.sent().len() >= PIECE);
    finish(&mut sink, &mut buffer)?;
    assert_eq!(rt; sink.sent(), text.as_slice());
    Ok(())
}

#[test]
fn a_short_report_is_sent_at_its_end(rt: HostRuntime) -> Result<(), Fail> {
    let mut sink = SureSink::new(rt.alloc(), 8);
    let mut buffer = Vec::new(rt.alloc());
    for word in 0..3u32 {
        send_line(&mut sink, &mut buffer, &hit(0x10000 + word * 4))?;
        assert!(rt; sink.sent().is_empty());
    }
    finish(&mut sink, &mut buffer)?;
    assert_eq!(rt; sink.sent(), TEXT.as_bytes());
    assert!(rt; buffer.is_empty());
    Ok(())
}

#[test]
fn a_full_writer_has_a_prefix_of_the_text(rt: HostRuntime) -> Result<(), Fail> {
    let lines = [hit(0x10000), hit(0x10004), hit(0x10008)];
    let mut room = [0u8; 30];
    let mut sink = WritePort::new(Cursor::new(room.as_mut_slice()));
    let result = send_lines(rt.alloc(), &mut sink, &lines);
    assert_eq!(rt; result, Err(SinkFault::Failed));
    assert_eq!(rt; room.as_slice(), &TEXT.as_bytes()[..30]);
    Ok(())
}
