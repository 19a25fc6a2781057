ghost use Rattle.std.specs.Prelude.{◌≡◌, ◌++◌, decimal, IsTrue, OnOk, OnErr};
ghost use Rattle.report_spec.specs.Text.{address_text, way_text, unknown_text, verdict_text, said_text, back_text, choices_text, context_text, place_text, open_text, range_text, line_text};
ghost use Rattle.report_spec.specs.Valid.{is_valid};
ghost use Rattle.verdict_report.specs.Extends.{Extends};

use crate::{Line, Verdict, Way};
use hex::encode_to_slice;
use itoa::Buffer;
use std::alloc::AllocError;

/// Appends the text of a valid line, its line end included. Out of memory, the text is as before.
pub fn write_line(line: &Line, into: &mut Vec<u8>) -> Result<(), AllocError>
    requires { IsTrue (is_valid line.now) }
    ensures ok { OnOk result (into.new.items ≡ into.old.items ++ line_text line.now) }
    ensures err { OnErr result (into.new.items ≡ into.old.items) }
{
    let before = into.len();
    match push_line(into, line) {
        Ok(()) => Ok(()),
        Err(error) => {
            into.truncate(before);
            Err(error)
        }
    }
}

fn push_line(into: &mut Vec<u8>, line: &Line) -> Result<(), AllocError>
    ensures ok { OnOk result (into.new.items ≡ into.old.items ++ line_text line.now) }
    ensures err { OnErr result (Extends into.old.items into.new.items) }
{
    match line {
        Line::At { at, verdict } => {
            into.extend_from_slice(&address_text(*at))?;
            push_said(into, verdict)
        }
        Line::Context {
            node,
            at,
            depth,
            back,
            verdict,
        } => {
            push_context(into, *node, *at, *depth, *back)?;
            push_said(into, verdict)
        }
        Line::Unreachable { first, last } => push_range(into, *first, *last),
    }
}

fn push_range(into: &mut Vec<u8>, first: u32, last: u32) -> Result<(), AllocError>
    ensures ok { OnOk result (into.new.items ≡ into.old.items ++ range_text first last) }
    ensures err { OnErr result (Extends into.old.items into.new.items) }
{
    push_address(into, first, b"-")?;
    push_address(into, last, b" unreachable\n")
}

/// An address, and what follows it.
fn push_address(into: &mut Vec<u8>, p: u32, rest: &[u8]) -> Result<(), AllocError>
    ensures ok { OnOk result (into.new.items ≡ into.old.items ++ (address_text p ++ rest.now)) }
    ensures err { OnErr result (Extends into.old.items into.new.items) }
{
    into.extend_from_slice(&address_text(p))?;
    into.extend_from_slice(rest)
}

/// A space, the verdict and the line end.
fn push_said(into: &mut Vec<u8>, verdict: &Verdict) -> Result<(), AllocError>
    ensures ok { OnOk result (into.new.items ≡ into.old.items ++ said_text verdict.now) }
    ensures err { OnErr result (Extends into.old.items into.new.items) }
{
    into.extend_from_slice(b" ")?;
    push_verdict(into, verdict)?;
    into.extend_from_slice(b"\n")
}

fn push_verdict(into: &mut Vec<u8>, verdict: &Verdict) -> Result<(), AllocError>
    ensures ok { OnOk result (into.new.items ≡ into.old.items ++ verdict_text verdict.now) }
    ensures err { OnErr result (Extends into.old.items into.new.items) }
{
    match verdict {
        Verdict::AlwaysHit => into.extend_from_slice(b"always-hit"),
        Verdict::AlwaysMiss => into.extend_from_slice(b"always-miss"),
        Verdict::Unknown { hit, miss } => push_unknown(into, hit, miss),
    }
}

fn push_unknown(into: &mut Vec<u8>, hit: &Way, miss: &Way) -> Result<(), AllocError>
    ensures ok { OnOk result (into.new.items ≡ into.old.items ++ unknown_text hit.now miss.now) }
    ensures err { OnErr result (Extends into.old.items into.new.items) }
{
    push_fate(into, b"unknown hit ", hit)?;
    push_fate(into, b" miss ", miss)
}

/// The name of a fate, and a way that has it.
fn push_fate(into: &mut Vec<u8>, name: &[u8], way: &Way) -> Result<(), AllocError>
    ensures ok { OnOk result (into.new.items ≡ into.old.items ++ (name.now ++ way_text way.now)) }
    ensures err { OnErr result (Extends into.old.items into.new.items) }
{
    into.extend_from_slice(name)?;
    push_way(into, way)
}

fn push_way(into: &mut Vec<u8>, way: &Way) -> Result<(), AllocError>
    ensures ok { OnOk result (into.new.items ≡ into.old.items ++ way_text way.now) }
    ensures err { OnErr result (Extends into.old.items into.new.items) }
{
    push_number(into, way.steps)?;
    into.extend_from_slice(b" ")?;
    push_choices(into, way.choices.letters())
}

fn push_choices(into: &mut Vec<u8>, letters: &[u8]) -> Result<(), AllocError>
    ensures ok { OnOk result (into.new.items ≡ into.old.items ++ choices_text letters.now) }
    ensures err { OnErr result (into.new.items ≡ into.old.items) }
{
    if letters.is_empty() {
        into.extend_from_slice(b"-")
    } else {
        into.extend_from_slice(letters)
    }
}

/// The fields of a configuration before its verdict.
pub(crate) fn push_context(
    into: &mut Vec<u8>,
    node: u32,
    at: u32,
    depth: u32,
    back: Option<u32>,
) -> Result<(), AllocError>
    ensures ok { OnOk result (into.new.items ≡ into.old.items ++ context_text node at depth back) }
    ensures err { OnErr result (Extends into.old.items into.new.items) }
{
    push_place(into, node, at)?;
    push_open(into, depth, back)
}

#[tactic(auto, using(std::proofs::Common::append_assoc))]
fn push_place(into: &mut Vec<u8>, node: u32, at: u32) -> Result<(), AllocError>
    ensures ok { OnOk result (into.new.items ≡ into.old.items ++ place_text node at) }
    ensures err { OnErr result (Extends into.old.items into.new.items) }
{
    into.extend_from_slice(b"#")?;
    push_number(into, node as u64)?;
    into.extend_from_slice(b" ")?;
    into.extend_from_slice(&address_text(at))
}

#[tactic(auto, using(std::proofs::Common::append_assoc))]
fn push_open(into: &mut Vec<u8>, depth: u32, back: Option<u32>) -> Result<(), AllocError>
    ensures ok { OnOk result (into.new.items ≡ into.old.items ++ open_text depth back) }
    ensures err { OnErr result (Extends into.old.items into.new.items) }
{
    into.extend_from_slice(b" depth ")?;
    push_number(into, depth as u64)?;
    into.extend_from_slice(b" back ")?;
    push_back(into, back)
}

fn push_back(into: &mut Vec<u8>, back: Option<u32>) -> Result<(), AllocError>
    ensures ok { OnOk result (into.new.items ≡ into.old.items ++ back_text back) }
    ensures err { OnErr result (into.new.items ≡ into.old.items) }
{
    match back {
        None => into.extend_from_slice(b"none"),
        Some(back) => into.extend_from_slice(&address_text(back)),
    }
}

pub(crate) fn push_number(into: &mut Vec<u8>, n: u64) -> Result<(), AllocError>
    ensures ok { OnOk result (into.new.items ≡ into.old.items ++ decimal n) }
    ensures err { OnErr result (into.new.items ≡ into.old.items) }
{
    let mut buffer = Buffer::new();
    into.extend_from_slice(buffer.format(n).as_bytes())
}

/// The text of an address or a word: `0x` and eight lower-case hexadecimal digits.
#[tactic(auto, unfolding(report_spec::specs::Text::address_text))]
pub fn address_text(p: u32) -> [u8; 10]
    ensures { result ≡ address_text p }
{
    let mut digits = [0u8; 8];
    let _ = encode_to_slice(p.to_be_bytes(), &mut digits);
    let [a, b, c, d, e, f, g, h] = digits;
    [b'0', b'x', a, b, c, d, e, f, g, h]
}
