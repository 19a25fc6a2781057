// The ages of the sets, found by workers for one part of the sets after another.
ghost use Rattle.std.specs.Prelude.{◌≡◌, ◌⊎◌, None, IfOk};
ghost use Rattle.node_verdicts.specs.Parts.{AreSetsFound, IsPartFound};

use crate::judged::Found;
use crate::noting::{HeadVerdict, verdicts_of};
use crate::parts::SetParts;
use crate::ranges::{SetsFound, SpanGraph, judge_sets};
use cache_geom::Geometry;
use line_blocks::LineBlocks;
use node_spec::Kept;
use path_model::Start;
use set_view::ViewFault;
use std::alloc::{AllocError, Global};
use work_share::Job;

/// What is found of the nodes that fetch the sets of a part.
#[derive(Drop)]
pub(crate) struct PartFound<'g> {
    /// The verdicts of the first nodes of runs that fetch a block which the ages settle.
    pub verdicts: Vec<HeadVerdict>,
    /// The blocks that the ages leave unclear.
    pub jobs: Vec<u32>,
    /// The graph that was made smaller for the part, kept where it has jobs.
    pub graph: Option<SpanGraph<'g>>,
}

/// What is found of a part, or its first set with too many fetched blocks.
#[derive(Drop)]
pub(crate) enum Part<'g> {
    Found(PartFound<'g>),
    TooManyBlocks { set: u32, count: u32 },
}

/// The ages of the sets of each part.
#[derive(Drop)]
pub(crate) struct SetsJob<'a> {
    pub alloc: Global,
    pub blocks: &'a LineBlocks<'a>,
    pub parts: SetParts,
    pub geometry: Geometry,
    pub start: Start,
    pub kept: Kept,
}

impl<'a> Job for SetsJob<'a> {
    type State = ();

    type Done = Part<'a>;

    ghost use Rattle.node_verdicts.specs.Parts.{IsPartNumber, IsPart};

    ghost is_job = { IsPartNumber };

    ghost is_fit = { λ _ _. Unit {0} };

    ghost goes_on = { λ _ _ _. Unit {0} };

    ghost is_right = { λ job number _ part. IsPart job number part };

    fn run(&self, number: u32, _state: &mut ()) -> Result<Part<'a>, AllocError> {
        let low = self.parts.low(number);
        let high = self.parts.low(number + 1);
        match judge_sets(
            self.alloc,
            self.blocks.small(),
            &self.geometry,
            self.start,
            self.kept,
            low,
            high,
        ) {
            Ok(sets) => Ok(Part::Found(self.found(number, sets)?)),
            Err(ViewFault::TooManyBlocks { set, count }) => Ok(Part::TooManyBlocks { set, count }),
            Err(ViewFault::OutOfMemory) => Err(AllocError),
        }
    }

    ghost stays = { λ _ _. tt };

    ghost further = { λ _ _ _ _ _ _. tt };

    ghost lasts = { λ _ _ _ _ _ right _. right };
}

impl<'a> SetsJob<'a> {
    // What is found of the sets of a part, as verdicts of nodes.
    fn found(&self, number: u32, sets: SetsFound<'a>) -> Result<PartFound<'a>, AllocError>
        requires { AreSetsFound self.now number sets }
        ensures { IfOk result (IsPartFound self.now number) }
    {
        let SetsFound { found, graph } = sets;
        let Found { judged, jobs } = found;
        let verdicts = verdicts_of(self.alloc, self.blocks, judged)?;
        let graph = kept_for(&jobs, graph);
        Ok(PartFound {
            verdicts,
            jobs,
            graph,
        })
    }
}

// The graph of a part, where it has jobs.
fn kept_for<'g>(jobs: &[u32], graph: Option<SpanGraph<'g>>) -> Option<SpanGraph<'g>>
    ensures { (result ≡ graph.entry) ⊎ (result ≡ None) }
{
    if jobs.is_empty() { None } else { graph }
}
