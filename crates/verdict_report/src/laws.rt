ghost use Rattle.std.specs.Prelude.{◌≡◌, ℕ, ◌^◌, ◌<◌, List, [], ◌++◌, IsTrue, IfSome};
ghost use Rattle.report_spec.specs.declared.line.Line.{Line};
ghost use Rattle.report_spec.specs.Text.{line_text};
ghost use Rattle.report_spec.specs.Valid.{is_valid};
ghost use Rattle.report_spec.specs.HasText.{FitsVerdict, FitsWay, HasText};

use crate::{Line, Verdict, Way};

// A law ranges over lines of any numbers. Those that have a text are valid, and their numbers fit the fields of `Line`.

/// Each valid line of the code has a text.
pub fn each_valid_line_has_a_text(line: &Line)
    requires { IsTrue (is_valid line.now) }
    ensures { HasText line.now }
{
    match line {
        Line::At { at, verdict } => {
            let _at = *at;
            verdict_fits(verdict);
        }
        Line::Context {
            node,
            at,
            depth,
            back,
            verdict,
        } => {
            let _place = (*node, *at, *depth);
            back_fits(back);
            verdict_fits(verdict);
        }
        Line::Unreachable { first, last } => {
            let _range = (*first, *last);
        }
    }
}

fn verdict_fits(verdict: &Verdict)
    ensures { FitsVerdict verdict.now }
{
    if let Verdict::Unknown { hit, miss } = verdict {
        way_fits(hit);
        way_fits(miss);
    }
}

fn way_fits(way: &Way)
    ensures { FitsWay way.now }
{
    let _steps = way.steps;
}

fn back_fits(back: &Option<u32>)
    ensures { IfSome back.now (λ address. address < 2 ^ 32) }
{
    if let Some(address) = back {
        let _address = *address;
    }
}

/// Two lines with the same text are the same line.
pub fn texts_are_unique()
    ensures { (line other : Line) → HasText line → HasText other → line_text line ≡ line_text other → line ≡ other }
{}

/// No line's text is a proper prefix of another's.
pub fn no_text_begins_another()
    ensures { (line other : Line) (more : List ℕ) → HasText line → HasText other → line_text line ≡ line_text other ++ more → more ≡ [] }
{}
