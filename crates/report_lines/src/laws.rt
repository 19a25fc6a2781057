// What holds of the lines of a report.
ghost use Rattle.std.specs.Prelude.{ℕ, Bool, List, Option, Some};
ghost use Rattle.cache_spec.specs.declared.start.Start.{Start};
ghost use Rattle.cache_spec.specs.Geometry.{Geometry};
ghost use Rattle.flow_spec.specs.Program.{Program};
ghost use Rattle.flow_spec.specs.Configuration.{Configuration};
ghost use Rattle.node_spec.specs.declared.verdict.NodeVerdict.{NodeVerdict};
ghost use Rattle.node_spec.specs.Plan.{layout};
ghost use Rattle.node_spec.specs.Valid.{AreValid};
ghost use Rattle.path_model.specs.declared.graph.Node.{Node};
ghost use Rattle.report_spec.specs.declared.line.Line.{Line};
ghost use Rattle.report_spec.specs.Report.{IsReport};
ghost use Rattle.report_spec.specs.Text.{text_of};
ghost use Rattle.report_lines.specs.Findings.{AreFindings};
ghost use Rattle.report_lines.specs.Lines.{Stands, AreAllFrom};

/// What holds of the lines that stand at the cursors of a program: all of them make a report of it, by address or with
/// contexts; from each cursor on there are such lines; and the verdicts are valid.
pub fn report_laws()
    ensures report { (program : Program) (g : Geometry) (start : Start) (contexts : Bool)
        (configurations : List Configuration) (nodes : List Node) (verdicts : List NodeVerdict) (lines : List Line)
        → AreFindings program g start contexts configurations nodes verdicts
        → AreAllFrom (Stands contexts (layout program.image program.isa configurations nodes) verdicts) (Some 0) lines
        → IsReport program g start contexts (text_of lines) }
    ensures rest { (program : Program) (g : Geometry) (start : Start) (contexts : Bool)
        (configurations : List Configuration) (nodes : List Node) (verdicts : List NodeVerdict) (cursor : Option ℕ)
        → AreFindings program g start contexts configurations nodes verdicts
        → (lines : List Line)
        × AreAllFrom (Stands contexts (layout program.image program.isa configurations nodes) verdicts) cursor lines }
    ensures valid { (program : Program) (g : Geometry) (start : Start) (contexts : Bool)
        (configurations : List Configuration) (nodes : List Node) (verdicts : List NodeVerdict)
        → AreFindings program g start contexts configurations nodes verdicts
        → AreValid verdicts }
{}
