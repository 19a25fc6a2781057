ghost use Rattle.std.specs.Prelude.{◌≡◌, ◌≢◌, ◌↔◌, ℕ, ◌<◌, ◌≤◌, List, [], Some, IsNone, IsSome, IfSome, IfOk, IfErr, length};
ghost use Rattle.byte_port.specs.Count.{Rose};
ghost use Rattle.byte_port.specs.Sent.{Reports};
ghost use Rattle.command_spec.specs.Settings.{settings_of, IsInRange};
ghost use Rattle.top_words.specs.Views.{bytes_of};
ghost use Rattle.top_words.specs.FaultText.{fault_text};
ghost use Rattle.top_words.specs.Status.{KeepsMemoryApart};
ghost use Rattle.node_spec.specs.Verdict.{kept_for};
ghost use Rattle.report_lines.specs.Findings.{IsWithin};
ghost use Rattle.icache_top.specs.Answer.{Answers, CountsOut, CountsOutRefusals, CountsSource, Decides, IsAcceptedWith, ReadsFor, SaysOf, SaysOfProgram, Tells, TouchesNeither, WritesFor, program_for, settled_as, status_of, file_limit};
ghost use Rattle.icache_top.specs.JobRecords.{AreReadRecords, AreRecordsFrom, AreRecordsOf, HasRecords, HasRecordsOf};

use crate::graph::send_graph;
use crate::report::{Findings, send_report};
use crate::{Jobs, NodeWords, Outcome, Status};
use byte_port::{Sink, Source, read_all};
use call_expand::expand;
use command_spec::{Ask, GraphAsk, ReportAsk, Settings};
use elf_image::Image;
use node_spec::Kept;
use node_verdicts::{Settled, ViewFault, node_verdicts};
use std::alloc::Global;
use std::thread::Threads;
use top_words::{explain, read_words};
use work_share::Gate;

/// The most bytes that a file may have.
const FILE_LIMIT: usize = 16777216;

/// All that the program does: reads the arguments, reads the source to its end, and sends the answer to `out`. At every
/// status but `Done` the fault's text goes to `err`. The arguments lack the program's name.
///
/// A report is worked out by as many workers as the arguments say. The gate is told of each job before a worker begins it.
#[tactic(auto, using(crate::proofs::Complete::says, crate::proofs::Complete::decides, crate::proofs::Recorded::known_records, crate::proofs::Recorded::none_but_done))]
pub fn run<R: Threads + Sync, S: Source, O: Sink, E: Sink, G: Gate + Sync>(
    rt: &R,
    alloc: Global,
    words: &[String],
    source: &mut S,
    out: &mut O,
    err: &mut E,
    gate: &G,
) -> Outcome
    // Which arguments are refused, and that nothing else is answered to them, unless memory runs out while they are read.
    ensures usage { result.status ≡ Status.Usage → IsNone (settings_of (bytes_of words.now)) }
    ensures refused { IsNone (settings_of (bytes_of words.now))
        → TouchesNeither result.status source.old source.new out.old out.new }

    // What each status says of the file, and of what was sent.
    ensures answer { Answers (bytes_of words.now) result.status
        (S.left source.old) (S.left source.new) (O.sent out.old) (O.sent out.new) }

    // The same of the bytes that the source tells at the start, and that one of these answers comes where no port fails.
    ensures says { IfSome (S.left source.old) (λ file. SaysOf (bytes_of words.now) file result.status
        (O.sent out.old) (O.sent out.new)) }
    ensures complete { (file : List ℕ) → S.left source.old ≡ Some file → IsSome (settings_of (bytes_of words.now))
        → (Rose (S.faults source.old) (S.faults source.new) → ⊥) → (Rose (O.faults out.old) (O.faults out.new) → ⊥)
        → Decides (bytes_of words.now) file result.status (O.sent out.old) (O.sent out.new) }

    // A fault only where its count rose, and no fault passed over.
    ensures reads { CountsSource result.status (S.faults source.old) (S.faults source.new) }
    ensures writes { CountsOut result.status (O.faults out.old) (O.faults out.new) }
    ensures refusals { CountsOutRefusals result.status (O.refusals out.old) (O.refusals out.new) }

    // Which calls of the ports were made: none after the first that failed or gave nothing. Faulty arguments touch no port
    // but `err`, and no refusal touches the sink.
    ensures reading { ReadsFor S.reads S.left S.faults result.status source.old source.new }
    ensures writing { WritesFor O.writes result.status out.old out.new }

    // Out of memory is a status of its own.
    ensures memory { KeepsMemoryApart result.status }

    // What standard error gets.
    ensures silent { result.status ≡ Status.Done → err.new ≡ err.old }
    ensures reported { result.status ≢ Status.Done → Reports E.Sink
        (fault_text result.status) err.old err.new }

    // Nothing is settled over the table today.
    ensures table { result.table ≡ [] }

    // The blocks that the ages leave unclear: those of the file that was read, and the same of the bytes that the source
    // tells at the start.
    ensures jobs { HasRecords (bytes_of words.now) result.status
        (S.left source.old) (S.left source.new) result.jobs }
    ensures known_jobs { IfSome (S.left source.old) (λ file. HasRecordsOf (bytes_of words.now) file result.status
        result.jobs) }
{
    match answer(rt, alloc, words, source, out, gate) {
        Ok(jobs) => Outcome {
            status: Status::Done,
            table: NodeWords::none(alloc),
            jobs,
        },
        Err(status) => {
            explain(err, &status);
            Outcome {
                status,
                table: NodeWords::none(alloc),
                jobs: Jobs::none(alloc),
            }
        }
    }
}

/// Sends what the arguments ask for of the file that is read, and gives the jobs.
fn answer<R: Threads + Sync, S: Source, O: Sink, G: Gate + Sync>(
    rt: &R,
    alloc: Global,
    words: &[String],
    source: &mut S,
    out: &mut O,
    gate: &G,
) -> Result<Jobs, Status>
    ensures usage { result ≡ Err Status.Usage → IsNone (settings_of (bytes_of words.now)) }
    ensures refused { IsNone (settings_of (bytes_of words.now))
        → TouchesNeither (status_of result) source.old source.new out.old out.new }
    ensures not_done { IfErr result (λ status. status ≢ Status.Done) }
    ensures answer { Answers (bytes_of words.now) (status_of result)
        (S.left source.old) (S.left source.new) (O.sent out.old) (O.sent out.new) }
    ensures jobs { IfOk result (AreReadRecords (bytes_of words.now) (S.left source.old) (S.left source.new)) }
    ensures reads { CountsSource (status_of result) (S.faults source.old) (S.faults source.new) }
    ensures writes { CountsOut (status_of result) (O.faults out.old) (O.faults out.new) }
    ensures refusals { CountsOutRefusals (status_of result) (O.refusals out.old) (O.refusals out.new) }
    ensures reading { ReadsFor S.reads S.left S.faults (status_of result) source.old source.new }
    ensures writing { WritesFor O.writes (status_of result) out.old out.new }
    ensures memory { KeepsMemoryApart (status_of result) }
{
    let Some(settings) = read_words(alloc, words)? else {
        return Err(Status::Usage);
    };
    let file = read_all(alloc, source, FILE_LIMIT)?;
    answer_file(rt, alloc, file, &settings, out, gate)
}

/// Sends what the settings ask for of a file, and gives the jobs.
fn answer_file<R: Threads + Sync, O: Sink, G: Gate + Sync>(
    rt: &R,
    alloc: Global,
    file: Vec<u8>,
    settings: &Settings,
    out: &mut O,
    gate: &G,
) -> Result<Jobs, Status>
    requires limit { length file.items ≤ file_limit }
    requires ranges { IsInRange settings.now.ask }
    ensures not_done { IfErr result (λ status. status ≢ Status.Done) }
    ensures reported { Tells settings.now file.items (status_of result) (O.sent out.old) (O.sent out.new) }
    ensures jobs { IfOk result (AreRecordsOf settings.now file.items) }
    ensures writes { CountsOut (status_of result) (O.faults out.old) (O.faults out.new) }
    ensures refusals { CountsOutRefusals (status_of result) (O.refusals out.old) (O.refusals out.new) }
    ensures writing { WritesFor O.writes (status_of result) out.old out.new }
    ensures memory { KeepsMemoryApart (status_of result) }
{
    let image = elf_image::read(alloc, file)?;
    let entry = settings.entry.unwrap_or(image.entry());
    match &settings.ask {
        Ask::Report(ask) => classify(rt, alloc, out, &image, entry, ask, gate),
        Ask::Graph(ask) => graph(alloc, out, &image, entry, ask),
    }
}

/// Sends the report of a program, and gives its jobs.
fn classify<R: Threads + Sync, O: Sink, G: Gate + Sync>(
    rt: &R,
    alloc: Global,
    out: &mut O,
    image: &Image,
    entry: u32,
    ask: &ReportAsk,
    gate: &G,
) -> Result<Jobs, Status>
    requires within { IsWithin ask.now.isa image.now }
    requires ranges { IsInRange (Ask.Report ask.now) }
    ensures not_done { IfErr result (λ status. status ≢ Status.Done) }
    ensures reported { SaysOfProgram (Ask.Report ask.now) (program_for (Ask.Report ask.now) image.now entry) (status_of result) (O.sent out.old) (O.sent out.new) }
    ensures jobs { IfOk result (λ jobs. IsAcceptedWith (program_for (Ask.Report ask.now) image.now entry)
        (λ layers. AreRecordsFrom (Ask.Report ask.now) (program_for (Ask.Report ask.now) image.now entry) layers jobs)) }
    ensures writes { CountsOut (status_of result) (O.faults out.old) (O.faults out.new) }
    ensures refusals { CountsOutRefusals (status_of result) (O.refusals out.old) (O.refusals out.new) }
    ensures writing { WritesFor O.writes (status_of result) out.old out.new }
    ensures memory { KeepsMemoryApart (status_of result) }
{
    let expanded = expand(alloc, image, entry, ask.isa, ask.geometry.line())?;
    let kept = kept_for(ask.contexts);
    let settled = settled(node_verdicts(
        rt,
        alloc,
        expanded.graph(),
        &ask.geometry,
        ask.start,
        kept,
        ask.workers,
        gate,
    ))?;
    let jobs = Jobs::of_blocks(alloc, &settled.jobs)?;
    let found = Findings {
        image,
        isa: ask.isa,
        expanded: &expanded,
        verdicts: &settled.verdicts,
    };
    send_report(alloc, out, &found, ask.contexts)?;
    Ok(jobs)
}

/// Sends the text of a program's graph, which has no jobs.
fn graph<O: Sink>(
    alloc: Global,
    out: &mut O,
    image: &Image,
    entry: u32,
    ask: &GraphAsk,
) -> Result<Jobs, Status>
    requires { 0 < ask.now.line }
    ensures not_done { IfErr result (λ status. status ≢ Status.Done) }
    ensures reported { SaysOfProgram (Ask.Graph ask.now) (program_for (Ask.Graph ask.now) image.now entry) (status_of result) (O.sent out.old) (O.sent out.new) }
    ensures jobs { IfOk result (λ jobs. IsAcceptedWith (program_for (Ask.Graph ask.now) image.now entry)
        (λ layers. AreRecordsFrom (Ask.Graph ask.now) (program_for (Ask.Graph ask.now) image.now entry) layers jobs)) }
    ensures writes { CountsOut (status_of result) (O.faults out.old) (O.faults out.new) }
    ensures refusals { CountsOutRefusals (status_of result) (O.refusals out.old) (O.refusals out.new) }
    ensures writing { WritesFor O.writes (status_of result) out.old out.new }
    ensures memory { KeepsMemoryApart (status_of result) }
{
    let expanded = expand(alloc, image, entry, ask.isa, ask.line)?;
    send_graph(alloc, out, &expanded)?;
    Ok(Jobs::none(alloc))
}

/// Where the lines of a report need ways.
fn kept_for(contexts: bool) -> Kept
    ensures { result ≡ kept_for contexts }
{
    if contexts {
        Kept::EachNode
    } else {
        Kept::EachAddress
    }
}

/// What is settled of the nodes, or why nothing is, as a status.
fn settled(found: Result<Settled, ViewFault>) -> Result<Settled, Status>
    ensures { result ≡ settled_as found }
{
    match found {
        Ok(settled) => Ok(settled),
        Err(ViewFault::TooManyBlocks { set, count }) => {
            Err(Status::TooManyBlocks { set, count })
        }
        Err(ViewFault::OutOfMemory) => Err(Status::OutOfMemory),
    }
}
