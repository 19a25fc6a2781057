// The verdicts of the nodes, by what is judged of the runs.
ghost use Rattle.std.specs.Prelude.{◌≡◌, ◌<◌, length, replicate, slice_set, IfOk};
ghost use Rattle.std.specs.List.{Contains};
ghost use Rattle.node_spec.specs.declared.verdict.NodeVerdict.TheVariants.{Hits};
ghost use Rattle.node_verdicts.specs.Lifted.{HavePaths};
ghost use Rattle.node_verdicts.specs.Noted.{AreVerdictsOf, IsHeadVerdict, IsVerdictFor, with_heads};

use crate::judged::{Ends, Judged, Paths};
use line_blocks::{LineBlocks, way_of};
use node_spec::{NodeVerdict, Ways};
use std::alloc::{AllocError, Global};

/// The verdict of the first node of a run.
#[derive(Drop)]
pub(crate) struct HeadVerdict {
    pub node: u32,
    pub verdict: NodeVerdict,
}

/// Hits for each node. Where no judgement of a run is noted, the node isn't the first of one, and always hits.
pub(crate) fn hits(alloc: Global, count: usize) -> Result<Vec<NodeVerdict>, AllocError>
    ensures { IfOk result (λ verdicts. verdicts.items ≡ replicate count Hits) }
{
    let mut verdicts = Vec::with_capacity(alloc, count)?;
    for _ in 0..count {
        verdicts.push(NodeVerdict::Hits)?;
    }
    Ok(verdicts)
}

/// The verdicts of the first nodes of runs, by what is judged of the runs: the first node does what its run does.
pub(crate) fn verdicts_of(
    alloc: Global,
    blocks: &LineBlocks,
    judged: Vec<Judged>,
) -> Result<Vec<HeadVerdict>, AllocError>
    requires { (one : Judged) → Contains judged.items one → HavePaths blocks.now.small one.ends }
    ensures { IfOk result (λ heads. AreVerdictsOf blocks.now judged.items heads.items) }
{
    let mut left = judged;
    let mut heads = Vec::with_capacity(alloc, left.len())?;
    while let Some(one) = left.pop() {
        heads.push(head_verdict(alloc, blocks, one)?)?;
    }
    Ok(heads)
}

fn head_verdict(alloc: Global, blocks: &LineBlocks, one: Judged) -> Result<HeadVerdict, AllocError>
    requires { HavePaths blocks.now.small one.ends }
    ensures { IfOk result (IsHeadVerdict blocks.now one) }
{
    Ok(HeadVerdict {
        node: blocks.origin(one.node),
        verdict: verdict_of(alloc, blocks, one.ends)?,
    })
}

/// Notes the verdicts of some nodes.
pub(crate) fn note_all(heads: Vec<HeadVerdict>, verdicts: &mut Vec<NodeVerdict>)
    requires { (head : HeadVerdict) → Contains heads.items head → head.node < length verdicts.old.items }
    ensures { verdicts.new.items ≡ with_heads heads.items verdicts.old.items }
{
    for head in heads {
        note(verdicts, head);
    }
}

// Notes the verdict of a node.
fn note(verdicts: &mut Vec<NodeVerdict>, head: HeadVerdict)
    requires { head.node < length verdicts.old.items }
    ensures { verdicts.new.items ≡ slice_set verdicts.old.items head.node head.verdict }
{
    let HeadVerdict { node, verdict } = head;
    verdicts[node as usize] = verdict;
}

// The verdict of the first node of a run, by what the paths to the run can do.
fn verdict_of(alloc: Global, blocks: &LineBlocks, ends: Ends) -> Result<NodeVerdict, AllocError>
    requires { HavePaths blocks.now.small ends }
    ensures { IfOk result (IsVerdictFor blocks.now ends) }
{
    match ends {
        Ends::Hits => Ok(NodeVerdict::Hits),
        Ends::Misses => Ok(NodeVerdict::Misses),
        Ends::Both(None) => Ok(NodeVerdict::Both(None)),
        Ends::Both(Some(Paths { hit, miss })) => Ok(NodeVerdict::Both(Some(Ways {
            hit: way_of(alloc, blocks, &hit)?,
            miss: way_of(alloc, blocks, &miss)?,
        }))),
    }
}
