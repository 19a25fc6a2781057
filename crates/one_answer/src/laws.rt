// What is the same of every answer to a program.
ghost use Rattle.std.specs.Prelude.{◌≡◌, ◌↔◌, ◌⊎◌, ℕ, Bool, IsTrue, IsFalse, List};
ghost use Rattle.std.specs.List.{AllByRecursion};
ghost use Rattle.cache_spec.specs.declared.start.Start.{Start};
ghost use Rattle.cache_spec.specs.Contents.{ends_in_hit};
ghost use Rattle.cache_spec.specs.Geometry.{Geometry};
ghost use Rattle.cache_spec.specs.Verdict.{IsAlwaysHit, IsAlwaysMiss};
ghost use Rattle.transition_spec.specs.declared.way.Way.{Way};
ghost use Rattle.transition_spec.specs.Layer.{all_of};
ghost use Rattle.transition_spec.specs.Named.{Names};
ghost use Rattle.transition_spec.specs.Path.{IsPath};
ghost use Rattle.flow_spec.specs.declared.fault.FlowFault.{FlowFault};
ghost use Rattle.flow_spec.specs.Acceptance.{Step, IsAccepted, IsRefused};
ghost use Rattle.flow_spec.specs.Configuration.{Configuration, start_of};
ghost use Rattle.flow_spec.specs.Program.{Program};
ghost use Rattle.flow_spec.specs.Successors.{successors};
ghost use Rattle.cache_spec.specs.Blocks.{HaveFewInAll, HaveMany};
ghost use Rattle.report_spec.specs.declared.line.Line.{Line};
ghost use Rattle.report_spec.specs.Graph.{IsGraphText};
ghost use Rattle.report_spec.specs.HasText.{HasText};
ghost use Rattle.report_spec.specs.Report.{IsReport};
ghost use Rattle.report_spec.specs.Text.{text_of};
ghost use Rattle.one_answer.specs.Alike.{AreAlike, AreAlikeTexts};

use cache_spec::start_laws;

/// A program is accepted or refused, and not both, with one numbering or one fault; and no set has too many blocks, or
/// one set is the first that has, and not both.
pub fn one_answer()
    ensures accepted_or_refused { (step : Step) (program : Program)
        → ((layers : List (List Configuration)) × IsAccepted step program layers)
        ⊎ ((fault : FlowFault) × IsRefused step program fault) }
    ensures either { (step : Step) (program : Program) (layers : List (List Configuration)) (fault : FlowFault)
        → IsAccepted step program layers → IsRefused step program fault → ⊥ }
    ensures numbering { (step : Step) (program : Program) (layers others : List (List Configuration))
        → IsAccepted step program layers → IsAccepted step program others → all_of layers ≡ all_of others }
    ensures fault { (step : Step) (program : Program) (fault other : FlowFault)
        → IsRefused step program fault → IsRefused step program other → fault ≡ other }
    ensures few_or_many { (addresses : List ℕ) (g : Geometry)
        → HaveFewInAll addresses g ⊎ ((set : ℕ) × (count : ℕ) × HaveMany addresses g set count) }
    ensures few { (addresses : List ℕ) (g : Geometry) (set count : ℕ)
        → HaveFewInAll addresses g → HaveMany addresses g set count → ⊥ }
    ensures many { (addresses : List ℕ) (g : Geometry) (set count other number : ℕ)
        → HaveMany addresses g set count → HaveMany addresses g other number → (set ≡ other) × (count ≡ number) }
{}

/// A way names at most one path of a program, so that an unknown line tells which path can hit and which one can miss.
pub fn one_path()
    ensures { (program : Program) (way : Way) (path other : List Configuration)
        → IsPath (successors program) (start_of program.entry) path
        → IsPath (successors program) (start_of program.entry) other
        → Names (successors program) way path → Names (successors program) way other → path ≡ other }
{}

/// The program, the geometry and the start determine all of a report but the ways of its unknown lines, and the program
/// all of the text of a graph.
pub fn one_text()
    ensures report { (program : Program) (g : Geometry) (start : Start) (contexts : Bool) (text other : List ℕ)
        → IsReport program g start contexts text → IsReport program g start contexts other
        → AreAlikeTexts text other }
    ensures graph { (program : Program) (text other : List ℕ)
        → IsGraphText program text → IsGraphText program other → text ≡ other }
{}

/// A set of paths, each given as the addresses that it fetches. It is a trait since no clause can range over all sets.
pub trait Paths {
    ghost fetches: { List ℕ → Type 0 };
}

/// With an empty cache at the start, a set of paths always hits, or always misses, exactly where it has a path and each
/// of its paths hits, or misses: each can only do what it does there.
pub fn empty_start<P: Paths>()
    ensures always_hit { (g : Geometry) → IsAlwaysHit g Start.Empty P.fetches
        ↔ (((addresses : List ℕ) × P.fetches addresses)
        × ((addresses : List ℕ) → P.fetches addresses → IsTrue (ends_in_hit g addresses))) }
    ensures always_miss { (g : Geometry) → IsAlwaysMiss g Start.Empty P.fetches
        ↔ (((addresses : List ℕ) × P.fetches addresses)
        × ((addresses : List ℕ) → P.fetches addresses → IsFalse (ends_in_hit g addresses))) }
{
    start_laws();
}

/// Lines are read from their text in one way, where they are valid and their numbers fit, as those of the code do. So
/// two texts are alike exactly where the lines that are read from them agree in all but their ways.
pub fn one_reading()
    ensures lines { (lines others : List Line) → AllByRecursion HasText lines → AllByRecursion HasText others
        → text_of lines ≡ text_of others → lines ≡ others }
    ensures alike { (lines others : List Line) → AllByRecursion HasText lines → AllByRecursion HasText others
        → AreAlikeTexts (text_of lines) (text_of others) ↔ AreAlike lines others }
{}
