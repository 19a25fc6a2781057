// The verdicts of all nodes.
ghost use Rattle.std.specs.Prelude.{◌≡◌, ◌↔◌, ◌++◌, ◌<◌, ◌≤◌, ℕ, length, OnOk, IfOk, IfErr};
ghost use Rattle.std.specs.List.{All, Contains};
ghost use Rattle.std.specs.List.Sorted.{IsStrictlyIncreasing};
ghost use Rattle.cache_spec.specs.Blocks.{HaveFewInAll};
ghost use Rattle.line_blocks.specs.Runs.{AreRuns};
ghost use Rattle.node_spec.specs.Verdict.{HaveWays};
ghost use Rattle.path_model.specs.Graph.{addresses_of};
ghost use Rattle.node_verdicts.specs.Verdicts.{AreRight, IsFault};
ghost use Rattle.node_verdicts.specs.Ranges.{AreFew, IsFaultWithin, IsSpanGraph};
ghost use Rattle.node_verdicts.specs.Noted.{IsNoted, with_heads};
ghost use Rattle.node_verdicts.specs.Found.{AreJobsWithin, IsClearWithin};
ghost use Rattle.node_verdicts.specs.Judged.{IsFetcher, IsFetcherOf};
ghost use Rattle.node_verdicts.specs.Parts.{runs_of, graphs_with};
ghost use Rattle.age_spec.specs.Jobs.{AreJobs};

use crate::block_jobs::BlockJob;
use crate::noting::{HeadVerdict, hits, note_all};
use crate::parts::SetParts;
use crate::ranges::SpanGraph;
use crate::set_parts::{Part, PartFound, SetsJob};
use age_graphs::job_laws;
use cache_geom::Geometry;
use line_blocks::{LineBlocks, line_blocks, run_laws};
use node_spec::{Kept, NodeVerdict};
use path_model::{Graph, Start};
use set_view::ViewFault;
use std::alloc::{AllocError, Global};
use std::thread::Threads;
use work_share::{Gate, IdleGate, run_all};

/// What is settled of the nodes of a graph.
#[derive(Drop)]
pub struct Settled {
    /// The verdict of each node.
    pub verdicts: Vec<NodeVerdict>,
    /// The blocks with a fetch that the ages leave unclear, rising.
    pub jobs: Vec<u32>,
}

// What the ages settle, the blocks that they leave unclear, and graphs that were made smaller for the sets of these.
#[derive(Drop)]
struct Sifted<'g> {
    verdicts: Vec<NodeVerdict>,
    jobs: Vec<u32>,
    graphs: Vec<SpanGraph<'g>>,
}

/// The verdict of each node: that of all paths that end in it, from all that the cache may start with. Where the paths
/// to a node can do both, ways are kept as `kept` says.
///
/// Workers, 1 to 64 of them, judge part after part of the sets, on graphs that are made smaller for fewer and fewer sets.
/// On the last of them the ages of the set's blocks settle what they can. Then the workers search each block with a fetch
/// that the ages leave unclear; before each of these the gate is told of its place among the jobs. A set that no node
/// fetches costs nothing.
///
/// `TooManyBlocks` comes exactly where more than 1,024 blocks of some set are fetched, and has the first such set.
pub fn node_verdicts<R: Threads + Sync, G: Gate + Sync>(
    rt: &R,
    alloc: Global,
    graph: &Graph,
    geometry: &Geometry,
    start: Start,
    kept: Kept,
    workers: u32,
    gate: &G,
) -> Result<Settled, ViewFault>
    requires { (0 < workers) × (workers ≤ 64) }
    ensures one_each { IfOk result (λ settled. length settled.verdicts.items ≡ length graph.now) }
    ensures right { IfOk result (λ settled. AreRight graph.now geometry.now start settled.verdicts.items) }
    ensures ways { IfOk result (λ settled. HaveWays graph.now settled.verdicts.items kept) }
    ensures few { IfOk result (λ settled. HaveFewInAll (addresses_of graph.now) geometry.now) }
    ensures jobs { IfOk result (λ settled. AreJobs graph.now geometry.now start settled.jobs.items) }
    ensures fault { IfErr result (λ fault. IsFault graph.now geometry.now fault) }
{
    run_laws();
    job_laws();
    // Each cache has a set.
    let sets = geometry.sets();
    prove!(sets >= 1);
    let blocks = line_blocks(alloc, graph, geometry)?;
    let settled = settle(rt, alloc, &blocks, geometry, start, kept, workers, gate)?;
    Ok(settled)
}

// The same, by the graph of the runs.
fn settle<R: Threads + Sync, G: Gate + Sync>(
    rt: &R,
    alloc: Global,
    blocks: &LineBlocks,
    geometry: &Geometry,
    start: Start,
    kept: Kept,
    workers: u32,
    gate: &G,
) -> Result<Settled, ViewFault>
    requires workers { (0 < workers) × (workers ≤ 64) }
    requires runs { AreRuns blocks.now }
    ensures noted { IfOk result (λ settled. IsNoted blocks.now geometry.now start kept
        (IsFetcher blocks.now.small geometry.now 0 geometry.now.sets) settled.verdicts.items) }
    ensures rising { IfOk result (λ settled. IsStrictlyIncreasing settled.jobs.items) }
    ensures jobs { IfOk result (λ settled.
        AreJobsWithin blocks.now.small geometry.now start 0 geometry.now.sets settled.jobs.items) }
    ensures few { IfOk result (λ settled. AreFew blocks.now.small geometry.now 0 geometry.now.sets) }
    ensures fault { IfErr result (λ fault. IsFaultWithin blocks.now.small geometry.now 0 geometry.now.sets fault) }
{
    let ages = SetsJob {
        alloc,
        blocks,
        parts: SetParts::new(geometry.sets(), workers),
        geometry: *geometry,
        start,
        kept,
    };
    let Sifted {
        verdicts,
        jobs,
        graphs,
    } = sift(rt, &ages, workers)?;
    let jobs = rising(jobs)?;
    let searches = BlockJob {
        alloc,
        blocks,
        graphs: &graphs,
        jobs: &jobs,
        geometry: *geometry,
        start,
        kept,
    };
    let verdicts = search(rt, &searches, workers, gate, verdicts)?;
    Ok(Settled { verdicts, jobs })
}

// What the ages settle of the sets. An error has the first set with too many fetched blocks.
fn sift<'a, R: Threads + Sync>(
    rt: &R,
    job: &SetsJob<'a>,
    workers: u32,
) -> Result<Sifted<'a>, ViewFault>
    requires workers { (0 < workers) × (workers ≤ 64) }
    requires parts { job.now.parts.sets ≡ job.now.geometry.sets }
    ensures noted { IfOk result (λ sifted. IsNoted job.now.blocks.now job.now.geometry job.now.start job.now.kept
        (IsFetcherOf (runs_of job.now) job.now.geometry
        (IsClearWithin (runs_of job.now) job.now.geometry job.now.start 0 job.now.geometry.sets))
        sifted.verdicts.items) }
    ensures jobs { IfOk result (λ sifted.
        AreJobsWithin (runs_of job.now) job.now.geometry job.now.start 0 job.now.geometry.sets sifted.jobs.items) }
    ensures few { IfOk result (λ sifted. AreFew (runs_of job.now) job.now.geometry 0 job.now.geometry.sets) }
    ensures graphs { IfOk result (λ sifted.
        All (IsSpanGraph (runs_of job.now) job.now.geometry) sifted.graphs.items) }
    ensures fault { IfErr result (λ fault.
        IsFaultWithin (runs_of job.now) job.now.geometry 0 job.now.geometry.sets fault) }
{
    let mut states = idle(job.alloc, workers)?;
    let parts = run_all(
        rt,
        job.alloc,
        job.parts.count(),
        &mut states,
        job,
        &IdleGate,
    )?;
    let mut sifted = Sifted {
        verdicts: hits(job.alloc, job.blocks.whole().nodes().len())?,
        jobs: Vec::new(job.alloc),
        graphs: Vec::new(job.alloc),
    };
    for part in parts {
        match part {
            Part::Found(found) => sifted.add(found)?,
            Part::TooManyBlocks { set, count } => {
                return Err(ViewFault::TooManyBlocks { set, count });
            }
        }
    }
    Ok(sifted)
}

impl<'g> Sifted<'g> {
    // Adds what is found of one more part.
    fn add(&mut self, part: PartFound<'g>) -> Result<(), AllocError>
        requires { (head : HeadVerdict) → Contains part.verdicts.items head → head.node < length self.old.verdicts.items }
        ensures verdicts { OnOk result (self.new.verdicts.items ≡ with_heads part.entry.verdicts.items self.old.verdicts.items) }
        ensures jobs { OnOk result (self.new.jobs.items ≡ self.old.jobs.items ++ part.entry.jobs.items) }
        ensures graphs { OnOk result (self.new.graphs.items ≡ graphs_with part.entry.graph self.old.graphs.items) }
    {
        let PartFound {
            verdicts,
            mut jobs,
            graph,
        } = part;
        note_all(verdicts, &mut self.verdicts);
        self.jobs.append(&mut jobs)?;
        match graph {
            Some(graph) => self.graphs.push(graph)?,
            None => {}
        }
        Ok(())
    }
}

// The verdicts, with those of the nodes that fetch one of the jobs.
fn search<R: Threads + Sync, G: Gate + Sync>(
    rt: &R,
    job: &BlockJob,
    workers: u32,
    gate: &G,
    verdicts: Vec<NodeVerdict>,
) -> Result<Vec<NodeVerdict>, AllocError>
    requires workers { (0 < workers) × (workers ≤ 64) }
    requires runs { AreRuns job.now.blocks.now }
    requires rising { IsStrictlyIncreasing job.now.jobs.now }
    requires jobs { AreJobsWithin job.now.blocks.now.small job.now.geometry job.now.start 0 job.now.geometry.sets
        job.now.jobs.now }
    requires few { AreFew job.now.blocks.now.small job.now.geometry 0 job.now.geometry.sets }
    requires graphs { All (IsSpanGraph job.now.blocks.now.small job.now.geometry) job.now.graphs.now }
    requires noted { IsNoted job.now.blocks.now job.now.geometry job.now.start job.now.kept
        (IsFetcherOf job.now.blocks.now.small job.now.geometry
        (IsClearWithin job.now.blocks.now.small job.now.geometry job.now.start 0 job.now.geometry.sets))
        verdicts.items }
    ensures { IfOk result (λ all. IsNoted job.now.blocks.now job.now.geometry job.now.start job.now.kept
        (IsFetcher job.now.blocks.now.small job.now.geometry 0 job.now.geometry.sets) all.items) }
{
    let mut states = idle(job.alloc, workers)?;
    // No more blocks of a set are fetched than 1,024, and a cache has at most 4,096 sets.
    let sets = job.geometry.sets();
    prove!(sets <= 4096);
    let jobs = job.jobs.len() as u32;
    let searched = run_all(rt, job.alloc, jobs, &mut states, job, gate)?;
    let mut all = verdicts;
    for heads in searched {
        note_all(heads, &mut all);
    }
    Ok(all)
}

// A state for each worker. A job needs nothing of it.
fn idle(alloc: Global, workers: u32) -> Result<Vec<()>, AllocError>
    ensures { IfOk result (λ states. length states.items ≡ workers) }
{
    let mut states = Vec::with_capacity(alloc, workers as usize)?;
    for _ in 0..workers {
        states.push(())?;
    }
    Ok(states)
}

// The same blocks, each once and rising.
fn rising(blocks: Vec<u32>) -> Result<Vec<u32>, AllocError>
    ensures rising { IfOk result (λ sorted. IsStrictlyIncreasing sorted.items) }
    ensures same { IfOk result (λ sorted. (block : ℕ) → Contains sorted.items block ↔ Contains blocks.items block) }
    ensures most { IfOk result (λ sorted. length sorted.items ≤ length blocks.items) }
{
    let mut sorted = blocks;
    sorted.sort()?;
    sorted.dedup();
    Ok(sorted)
}
