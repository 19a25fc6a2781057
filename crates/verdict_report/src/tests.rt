use crate::{Choices, Line, Verdict, Way, read_line, write_line};
use std::alloc::{AllocError, Global};
use std::process::Abort;
use std::test::Fail;

fn way(alloc: Global, steps: u64, letters: &[u8]) -> Result<Way, AllocError> {
    Ok(Way {
        steps,
        choices: Choices::from_letters(letters.to_vec(alloc)?),
    })
}

/// The line has this text, and the line of this text has it again.
fn check(rt: &impl Abort, alloc: Global, line: Line, text: &str) -> Result<(), AllocError> {
    assert!(rt; line.is_valid());
    let mut written = vec![in alloc; b'>']?;
    write_line(&line, &mut written)?;
    assert_eq!(rt; written.first().copied(), Some(b'>'));
    assert_eq!(rt; written.get(1..), Some(text.as_bytes()));
    check_read(rt, alloc, text)
}

fn check_read(rt: &impl Abort, alloc: Global, text: &str) -> Result<(), AllocError> {
    let found = read_line(alloc, text.as_bytes())?;
    assert!(rt; found.is_some(), "{text:?}");
    if let Some(line) = found {
        assert!(rt; line.is_valid());
        let mut again = Vec::new(alloc);
        write_line(&line, &mut again)?;
        assert_eq!(rt; again.as_slice(), text.as_bytes());
    }
    Ok(())
}

#[test]
fn each_line_has_its_text(rt: HostRuntime) -> Result<(), Fail> {
    let alloc = rt.alloc();
    let reached = Line::At {
        at: 0x10004,
        verdict: Verdict::AlwaysHit,
    };
    check(&rt, alloc, reached, "0x00010004 always-hit\n")?;
    let unknown = Line::At {
        at: 0xabcdef08,
        verdict: Verdict::Unknown {
            hit: way(alloc, 18, b"ntn")?,
            miss: way(alloc, u64::MAX, b"")?,
        },
    };
    let text = "0xabcdef08 unknown hit 18 ntn miss 18446744073709551615 -\n";
    check(&rt, alloc, unknown, text)?;
    let range = Line::Unreachable {
        first: 0x10014,
        last: 0x1007c,
    };
    check(&rt, alloc, range, "0x00010014-0x0001007c unreachable\n")?;
    Ok(())
}

#[test]
fn a_configuration_has_its_number_and_its_newest_return_address(
    rt: HostRuntime,
) -> Result<(), Fail> {
    let alloc = rt.alloc();
    let start = Line::Context {
        node: 0,
        at: 0x10000,
        depth: 0,
        back: None,
        verdict: Verdict::AlwaysMiss,
    };
    check(
        &rt,
        alloc,
        start,
        "#0 0x00010000 depth 0 back none always-miss\n",
    )?;
    let called = Line::Context {
        node: 65535,
        at: 0x1000c,
        depth: 1,
        back: Some(0x10004),
        verdict: Verdict::AlwaysMiss,
    };
    let text = "#65535 0x0001000c depth 1 back 0x00010004 always-miss\n";
    check(&rt, alloc, called, text)?;
    Ok(())
}

#[test]
fn an_unknown_line_is_read_with_both_ways(rt: HostRuntime) -> Result<(), Fail> {
    let text = b"0x00010000 unknown hit 2 - miss 3 nt\n";
    let found = read_line(rt.alloc(), text)?;
    let Some(
        Line::At {
            at,
            verdict: Verdict::Unknown { hit, miss },
        },
    ) = found
    else {
        return Err("an unknown line")?;
    };
    assert_eq!(rt; at, 0x10000);
    assert_eq!(rt; (hit.steps, miss.steps), (2, 3));
    assert_eq!(rt; hit.choices.letters(), b"".as_slice());
    assert_eq!(rt; miss.choices.letters(), b"nt".as_slice());
    Ok(())
}

#[test]
fn a_line_is_read_where_it_is_written_so(rt: HostRuntime) -> Result<(), Fail> {
    let alloc = rt.alloc();
    for text in [
        "0x00010000 unknown hit 2 - miss 1 -\n",
        "0x00010000 unknown hit 18446744073709551615 - miss 1 -\n",
        "0x00010000 unknown hit 10 tnt miss 1 n\n",
        "0xffffffff always-miss\n",
        "0x00010000-0x00010000 unreachable\n",
        "#0 0x00010000 depth 0 back none always-hit\n",
        "#4294967295 0x0001000c depth 10 back 0x00010004 unknown hit 1 - miss 2 t\n",
    ] {
        check_read(&rt, alloc, text)?;
    }
    Ok(())
}

#[test]
fn no_line_is_read_where_none_is_written_so(rt: HostRuntime) -> Result<(), Fail> {
    for text in [
        "0x00010000 unknown hit 02 - miss 1 -\n",
        "0x00010000 unknown hit 0 - miss 1 -\n",
        "0x00010000 unknown hit +2 - miss 1 -\n",
        "0x00010000 unknown hit 18446744073709551616 - miss 1 -\n",
        "0x00010000 unknown hit 2  miss 1 -\n",
        "0x00010000 unknown hit 2 n- miss 1 -\n",
        "0x0001000C always-hit\n",
        "0X00010000 always-hit\n",
        "0x00010000  always-hit\n",
        "0x00010000 always-hit",
        "0x00010000 always-hit\n\n",
        "0x00010004-0x00010000 unreachable\n",
        "#1 0x0001000c depth 0 back 0x00010004 always-hit\n",
        "#1 0x0001000c depth 1 back none always-hit\n",
        "#4294967296 0x0001000c depth 0 back none always-hit\n",
        "",
    ] {
        let found = read_line(rt.alloc(), text.as_bytes())?;
        assert!(rt; found.is_none(), "{text:?}");
    }
    Ok(())
}

#[test]
fn lines_without_a_text_are_not_valid(rt: HostRuntime) -> Result<(), Fail> {
    let alloc = rt.alloc();
    let no_step = Line::At {
        at: 0,
        verdict: Verdict::Unknown {
            hit: way(alloc, 0, b"")?,
            miss: way(alloc, 1, b"")?,
        },
    };
    assert!(rt; !no_step.is_valid());
    let no_letter = Line::At {
        at: 0,
        verdict: Verdict::Unknown {
            hit: way(alloc, 1, b"n")?,
            miss: way(alloc, 1, b"-")?,
        },
    };
    assert!(rt; !no_letter.is_valid());
    let backwards = Line::Unreachable { first: 4, last: 0 };
    assert!(rt; !backwards.is_valid());
    let no_frame = Line::Context {
        node: 0,
        at: 0,
        depth: 0,
        back: Some(0),
        verdict: Verdict::AlwaysHit,
    };
    assert!(rt; !no_frame.is_valid());
    Ok(())
}
