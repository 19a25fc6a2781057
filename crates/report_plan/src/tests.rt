ghost use Rattle.std.specs.Prelude.{◌≡◌, ◌<◌, ◌≤◌, length, IfOk};
ghost use Rattle.report_plan.specs.Tests.{KeepAll};

use crate::{Ends, Place, Plan};
use call_expand::{Isa, expand};
use elf_image::Image;
use node_spec::{NodeVerdict, Ways};
use report_spec::{Choices, Line, Verdict, Way};
use std::alloc::{AllocError, Global};
use std::process::Abort;
use std::test::Fail;

const STOP: u32 = 0x00100073;

// A branch over a word to two calls of the function at 0x10018, and words after each that nothing leads to.
const WORDS: [u32; 9] = [
    0x00000463, STOP, 0x010000ef, 0x00c000ef, STOP, STOP, 0x00008067, STOP, STOP,
];

// An executable of these words at 0x10000, where it begins.
fn wrap(alloc: Global, words: &[u32]) -> Result<Vec<u8>, AllocError>
    requires { length words.now ≤ 64 }
{
    let mut file = [
        0x7f, 0x45, 0x4c, 0x46, 1, 1, 1, 0, 0, 0, 0, 0, 0, 0, 0, 0, 2, 0, 0xf3, 0, 1, 0, 0, 0, 0,
        0, 1, 0, 0x34, 0, 0, 0, 0, 0, 0, 0, 0, 0, 0, 0, 0x34, 0, 0x20, 0, 1, 0, 0, 0, 0, 0, 0, 0,
        1, 0, 0, 0, 0x54, 0, 0, 0, 0, 0, 1, 0, 0, 0, 1, 0,
    ]
    .to_vec(alloc)?;
    let size = (words.len() as u32 * 4).to_le_bytes();
    file.extend_from_slice(&size)?;
    file.extend_from_slice(&size)?;
    file.extend_from_slice(&[5, 0, 0, 0, 4, 0, 0, 0])?;
    for word in words {
        file.extend_from_slice(&word.to_le_bytes())?;
    }
    Ok(file)
}

fn image_of(rt: &(impl Abort + AllocGlobal), words: &[u32]) -> Result<Image, Fail>
    requires { length words.now ≤ 64 }
{
    let file = wrap(rt.alloc(), words)?;
    assert!(rt; file.len() <= 16_777_216);
    Ok(elf_image::read(rt.alloc(), file)?)
}

fn way(alloc: Global, steps: u64, letters: &[u8]) -> Result<Way, AllocError> {
    Ok(Way {
        steps,
        choices: Choices::from_letters(letters.to_vec(alloc)?),
    })
}

// A verdict for each of the seven nodes.
fn verdicts_of(alloc: Global) -> Result<Vec<NodeVerdict>, AllocError>
    ensures { IfOk result (λ verdicts. KeepAll verdicts.items) }
{
    let hit = way(alloc, 3, b"n")?;
    let miss = way(alloc, 5, b"")?;
    Ok(Vec::from_array(
        alloc,
        [
            NodeVerdict::Misses,
            NodeVerdict::Both(Some(Ways { hit, miss })),
            NodeVerdict::Hits,
            NodeVerdict::Misses,
            NodeVerdict::Misses,
            NodeVerdict::Hits,
            NodeVerdict::Hits,
        ],
    )?)
}

// This many verdicts of nodes that always hit.
fn all_hit(alloc: Global, count: usize) -> Result<Vec<NodeVerdict>, AllocError>
    ensures all { IfOk result (λ verdicts. KeepAll verdicts.items) }
    ensures count { IfOk result (λ verdicts. length verdicts.items ≡ count) }
{
    let mut verdicts = Vec::new(alloc);
    for _ in 0..count {
        verdicts.push(NodeVerdict::Hits)?;
    }
    Ok(verdicts)
}

fn way_text(alloc: Global, way: &Way) -> Result<String, AllocError> {
    let mut text = format!(in alloc; "{}", way.steps)?;
    for letter in way.choices.letters() {
        text.push(char::from(*letter))?;
    }
    Ok(text)
}

fn verdict_text(alloc: Global, verdict: &Verdict) -> Result<String, AllocError> {
    match verdict {
        Verdict::AlwaysHit => String::from_str(alloc, "hit"),
        Verdict::AlwaysMiss => String::from_str(alloc, "miss"),
        Verdict::Unknown { hit, miss } => {
            let hit = way_text(alloc, hit)?;
            let miss = way_text(alloc, miss)?;
            format!(in alloc; "{hit} or {miss}")
        }
    }
}

fn line_text(alloc: Global, line: &Line) -> Result<String, AllocError> {
    match line {
        Line::At { at, verdict } => {
            let verdict = verdict_text(alloc, verdict)?;
            format!(in alloc; "{at:x} {verdict}")
        }
        Line::Context {
            node,
            at,
            depth,
            back,
            verdict,
        } => {
            let verdict = verdict_text(alloc, verdict)?;
            let back = back.unwrap_or(0);
            format!(in alloc; "{node}: {at:x} {depth} {back:x} {verdict}")
        }
        Line::Unreachable { first, last } => format!(in alloc; "{first:x} to {last:x}"),
    }
}

fn check(
    rt: &(impl Abort + AllocGlobal),
    contexts: bool,
    from: u32,
    expected: Option<(&str, Option<u32>)>,
) -> Result<(), Fail> {
    let alloc = rt.alloc();
    let image = image_of(rt, &WORDS)?;
    let expanded = expand(alloc, &image, image.entry(), Isa::Rv32i, 32)?;
    let plan = Plan::new(alloc, &expanded)?;
    let verdicts = verdicts_of(alloc)?;
    assert!(rt; verdicts.len() == expanded.graph().nodes().len());
    let found = plan.line(
        alloc,
        &image,
        Isa::Rv32i,
        &expanded,
        &verdicts,
        contexts,
        from,
    )?;
    match (found, expected) {
        (Some((line, next)), Some((text, cursor))) => {
            let shown = line_text(alloc, &line)?;
            assert!(rt; shown.as_str() == text, "at {from:x}: {shown}");
            assert!(rt; next == cursor, "after {from:x}");
        }
        (None, None) => {}
        _ => assert!(rt; false, "at {from:x}"),
    }
    Ok(())
}

// What the place at a cursor says of the ends of paths.
fn check_ends(
    rt: &(impl Abort + AllocGlobal),
    contexts: bool,
    from: u32,
    expected: Ends,
) -> Result<(), Fail> {
    let alloc = rt.alloc();
    let image = image_of(rt, &WORDS)?;
    let expanded = expand(alloc, &image, image.entry(), Isa::Rv32i, 32)?;
    let plan = Plan::new(alloc, &expanded)?;
    let verdicts = verdicts_of(alloc)?;
    assert!(rt; verdicts.len() == expanded.graph().nodes().len());
    let found = plan.place(&image, Isa::Rv32i, &expanded, &verdicts, contexts, from);
    let (place, _) = found.expect(rt, "a place");
    match place {
        Place::OfAddress { ends, .. } | Place::OfNode { ends, .. } => {
            assert!(rt; ends == expected, "at {from:x}");
        }
        Place::OfRange { .. } => assert!(rt; false, "at {from:x}"),
    }
    Ok(())
}

// The lines by address of a program with compressed instructions, one after another, where each node always hits.
fn check_compressed(
    rt: &(impl Abort + AllocGlobal),
    words: &[u32],
    line: u32,
    expected: &[&str],
) -> Result<(), Fail>
    requires few { length words.now ≤ 64 }
    requires some { 0 < line }
{
    let alloc = rt.alloc();
    let image = image_of(rt, words)?;
    let expanded = expand(alloc, &image, image.entry(), Isa::Rv32ic, line)?;
    let plan = Plan::new(alloc, &expanded)?;
    let verdicts = all_hit(alloc, expanded.graph().nodes().len())?;
    let mut cursor = Some(0);
    for text in expected {
        let from = cursor.expect(rt, "a cursor");
        let found = plan.line(
            alloc,
            &image,
            Isa::Rv32ic,
            &expanded,
            &verdicts,
            false,
            from,
        )?;
        let (found, next) = found.expect(rt, "a line");
        let shown = line_text(alloc, &found)?;
        assert!(rt; shown.as_str() == *text, "at {from:x}: {shown}");
        cursor = next;
    }
    assert!(rt; cursor.is_none());
    Ok(())
}

#[test]
fn nodes_at_one_address_have_one_line(rt: HostRuntime) -> Result<(), Fail> {
    for (from, line) in [
        (0, Some(("10000 miss", Some(0x10004)))),
        (0x10001, Some(("10004 3n or 5", Some(0x10008)))),
        (0x10008, Some(("10008 hit", Some(0x1000c)))),
        (0x1000c, Some(("1000c miss", Some(0x10010)))),
        (0x10018, Some(("10018 5t or 3t", Some(0x1001c)))),
    ] {
        check(&rt, false, from, line)?;
    }
    Ok(())
}

#[test]
fn words_without_nodes_have_one_line(rt: HostRuntime) -> Result<(), Fail> {
    for (from, line) in [
        (0x10014, Some(("10014 to 10014", Some(0x10018)))),
        (0x1001c, Some(("1001c to 10020", None))),
        (0x1001d, Some(("10020 to 10020", None))),
        (0x10021, None),
    ] {
        check(&rt, false, from, line)?;
    }
    Ok(())
}

#[test]
fn each_node_has_its_own_line_among_contexts(rt: HostRuntime) -> Result<(), Fail> {
    for (from, line) in [
        (0, Some(("0: 10000 0 0 miss", Some(1)))),
        (1, Some(("1: 10004 0 0 3n or 5", Some(2)))),
        (3, Some(("3: 10018 1 1000c miss", Some(4)))),
        (5, Some(("5: 10018 1 10010 hit", Some(6)))),
        (6, Some(("6: 10010 0 0 hit", None))),
        (7, None),
    ] {
        check(&rt, true, from, line)?;
    }
    Ok(())
}

#[test]
fn ways_come_from_the_nodes_that_a_place_names(rt: HostRuntime) -> Result<(), Fail> {
    for (contexts, from, ends) in [
        (false, 0x10000, Ends::AllMiss),
        (false, 0x10004, Ends::Either { hit: 1, miss: 1 }),
        (false, 0x10018, Ends::Either { hit: 5, miss: 3 }),
        (true, 1, Ends::Either { hit: 1, miss: 1 }),
        (true, 3, Ends::AllMiss),
        (true, 5, Ends::AllHit),
    ] {
        check_ends(&rt, contexts, from, ends)?;
    }
    Ok(())
}

// Two bytes, then four, then a stop.
#[test]
fn middle_of_four_bytes_has_a_line_where_it_is_fetched(rt: HostRuntime) -> Result<(), Fail> {
    let words = [0x00130001, 0x90020000];
    check_compressed(&rt, &words, 16, &["10000 hit", "10002 hit", "10006 hit"])?;
    let split = ["10000 hit", "10002 hit", "10004 hit", "10006 hit"];
    check_compressed(&rt, &words, 4, &split)
}

// A call of the third two bytes, a stop, a return, and two bytes that nothing leads to.
#[test]
fn ranges_of_parcels_end_at_a_parcel(rt: HostRuntime) -> Result<(), Fail> {
    let expected = ["10000 hit", "10002 hit", "10004 hit", "10006 to 10006"];
    check_compressed(&rt, &[0x90022011, 0x00018082], 16, &expected)
}
