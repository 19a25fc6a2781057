ghost use Rattle.std.specs.Prelude.{◌≡◌, ◌↔◌, Option, Some, IfOk};
ghost use Rattle.report_spec.specs.declared.line.Line.{Line};
ghost use Rattle.report_spec.specs.HasText.{IsTextOf};
ghost use Rattle.verdict_report.specs.Seen.{way_seen, verdict_seen, line_with};
ghost use Rattle.verdict_report.specs.Reading.{Gives, way_at, unknown_at, verdict_at, said_at, configuration_at, subject_at, range_at, line_of};

use crate::fields::{address_at, after, back_at, choices_of, field_at, number_at, small_at};
use crate::seen::{SeenVerdict, SeenWay, Subject};
use crate::{Choices, Line, Verdict, Way};
use std::alloc::{AllocError, Global};

/// The valid line that has this text, its line end included. None exactly where no valid line has this text.
pub fn read_line(alloc: Global, text: &[u8]) -> Result<Option<Line>, AllocError>
    ensures { IfOk result (λ found. (line : Line) → (found ≡ Some line) ↔ IsTextOf line text.now) }
{
    line_of(alloc, text)
}

#[tactic(auto, unfolding(crate::specs::Reading::line_of, crate::specs::Reading::line_at, crate::specs::Reading::verdict_line_at))]
fn line_of(alloc: Global, text: &[u8]) -> Result<Option<Line>, AllocError>
    ensures { IfOk result (λ found. found ≡ line_of text.now) }
{
    if let Some((range, rest)) = range_at(text) {
        return Ok(if rest.is_empty() { Some(range) } else { None });
    }
    let Some((subject, rest)) = subject_at(text) else {
        return Ok(None);
    };
    let Some((said, rest)) = said_at(rest) else {
        return Ok(None);
    };
    if !rest.is_empty() {
        return Ok(None);
    }
    let verdict = verdict_of(alloc, &said)?;
    Ok(Some(line_with(subject, verdict)))
}

/// The line that says this of its subject.
fn line_with(subject: Subject, verdict: Verdict) -> Line
    ensures { result ≡ line_with subject verdict }
{
    match subject {
        Subject::Address { at } => Line::At { at, verdict },
        Subject::Configuration {
            node,
            at,
            depth,
            back,
        } => Line::Context {
            node,
            at,
            depth,
            back,
            verdict,
        },
    }
}

/// The verdict, with its choices copied.
fn verdict_of(alloc: Global, verdict: &SeenVerdict) -> Result<Verdict, AllocError>
    ensures { IfOk result (λ copied. copied ≡ verdict_seen verdict.now) }
{
    match verdict {
        SeenVerdict::AlwaysHit => Ok(Verdict::AlwaysHit),
        SeenVerdict::AlwaysMiss => Ok(Verdict::AlwaysMiss),
        SeenVerdict::Unknown { hit, miss } => Ok(Verdict::Unknown {
            hit: way_of(alloc, hit)?,
            miss: way_of(alloc, miss)?,
        }),
    }
}

fn way_of(alloc: Global, way: &SeenWay) -> Result<Way, AllocError>
    ensures { IfOk result (λ copied. copied ≡ way_seen way.now) }
{
    let letters = way.choices.to_vec(alloc)?;
    Ok(Way {
        steps: way.steps,
        choices: Choices::from_letters(letters),
    })
}

/// A range and the line end.
#[tactic(auto, unfolding(crate::specs::Reading::range_at))]
fn range_at(text: &[u8]) -> Option<(Line, &[u8])>
    ensures { Gives (λ read. (read.0, read.1.now)) result (range_at text.now) }
{
    let (first, rest) = address_at(text)?;
    let (last, rest) = address_at(after(rest, b"-")?)?;
    let rest = after(rest, b" unreachable\n")?;
    if first <= last {
        Some((Line::Unreachable { first, last }, rest))
    } else {
        None
    }
}

/// What a line with a verdict speaks of.
#[tactic(auto, unfolding(crate::specs::Reading::subject_at))]
fn subject_at(text: &[u8]) -> Option<(Subject, &[u8])>
    ensures { Gives (λ read. (read.0, read.1.now)) result (subject_at text.now) }
{
    if let Some(configuration) = configuration_at(text) {
        return Some(configuration);
    }
    let (at, rest) = address_at(text)?;
    Some((Subject::Address { at }, rest))
}

/// A configuration's number, address and open calls.
#[tactic(auto, unfolding(crate::specs::Reading::configuration_at, crate::specs::Reading::place_at, crate::specs::Reading::calls_at))]
fn configuration_at(text: &[u8]) -> Option<(Subject, &[u8])>
    ensures { Gives (λ read. (read.0, read.1.now)) result (configuration_at text.now) }
{
    let (node, rest) = small_at(after(text, b"#")?)?;
    let (at, rest) = address_at(rest)?;
    let (depth, rest) = small_at(after(rest, b" depth ")?)?;
    let (back, rest) = back_at(after(rest, b"back ")?)?;
    if (depth == 0) != back.is_none() {
        return None;
    }
    let configuration = Subject::Configuration {
        node,
        at,
        depth,
        back,
    };
    Some((configuration, rest))
}

/// A space, a verdict and the line end.
#[tactic(auto, unfolding(crate::specs::Reading::said_at, crate::specs::Reading::verdict_at))]
fn said_at(text: &[u8]) -> Option<(SeenVerdict<'_>, &[u8])>
    ensures { Gives (λ read. (verdict_seen read.0, read.1.now)) result (said_at text.now) }
{
    let text = after(text, b" ")?;
    if let Some(rest) = after(text, b"always-hit\n") {
        return Some((SeenVerdict::AlwaysHit, rest));
    }
    if let Some(rest) = after(text, b"always-miss\n") {
        return Some((SeenVerdict::AlwaysMiss, rest));
    }
    unknown_at(text)
}

/// Both ways of an unknown line, and the line end.
#[tactic(auto, unfolding(crate::specs::Reading::unknown_at))]
fn unknown_at(text: &[u8]) -> Option<(SeenVerdict<'_>, &[u8])>
    ensures { Gives (λ read. (verdict_seen read.0, read.1.now)) result (unknown_at text.now) }
{
    let (hit, rest) = way_at(after(text, b"unknown hit ")?, b' ')?;
    let (miss, rest) = way_at(after(rest, b"miss ")?, b'\n')?;
    Some((SeenVerdict::Unknown { hit, miss }, rest))
}

/// A way, and the byte at which it ends.
#[tactic(auto, unfolding(crate::specs::Reading::way_at))]
fn way_at(text: &[u8], end: u8) -> Option<(SeenWay<'_>, &[u8])>
    ensures { Gives (λ read. (way_seen read.0, read.1.now)) result (way_at end text.now) }
{
    let (steps, rest) = number_at(text)?;
    let (letters, rest) = field_at(rest, end)?;
    let choices = choices_of(letters)?;
    if steps > 0 {
        Some((SeenWay { steps, choices }, rest))
    } else {
        None
    }
}
