// The blocks that the ages leave unclear, each searched by a worker.
ghost use Rattle.std.specs.Prelude.{◌≡◌, ◌≤◌, IfOk, IfSome};
ghost use Rattle.std.specs.List.{All, Contains};
ghost use Rattle.node_verdicts.specs.Judged.{AreJudged, IsFetcherOf};
ghost use Rattle.node_verdicts.specs.Ranges.{AreFew, IsSpanGraph};

use crate::judged::Judged;
use crate::lift::lift_all;
use crate::noting::{HeadVerdict, verdicts_of};
use crate::one_block::search_block;
use crate::ranges::SpanGraph;
use cache_geom::Geometry;
use line_blocks::LineBlocks;
use node_spec::Kept;
use path_model::{Graph, Start};
use std::alloc::{AllocError, Global};
use work_share::Job;

/// The search of each of some blocks.
#[derive(Drop)]
pub(crate) struct BlockJob<'a> {
    pub alloc: Global,
    pub blocks: &'a LineBlocks<'a>,
    /// Graphs that were made smaller for the sets of some of the blocks.
    pub graphs: &'a [SpanGraph<'a>],
    pub jobs: &'a [u32],
    pub geometry: Geometry,
    pub start: Start,
    pub kept: Kept,
}

impl<'a> Job for BlockJob<'a> {
    type State = ();

    type Done = Vec<HeadVerdict>;

    ghost use Rattle.node_verdicts.specs.Searches.{IsBlockJob, IsSearched};

    ghost is_job = { IsBlockJob };

    ghost is_fit = { λ _ _. Unit {0} };

    ghost goes_on = { λ _ _ _. Unit {0} };

    ghost is_right = { λ job number _ heads. IsSearched job number heads.items };

    fn run(&self, number: u32, _state: &mut ()) -> Result<Vec<HeadVerdict>, AllocError> {
        let judged = search_on(
            self.alloc,
            self.blocks.small(),
            self.graphs,
            &self.geometry,
            self.start,
            self.kept,
            self.jobs[number as usize],
        )?;
        verdicts_of(self.alloc, self.blocks, judged)
    }

    ghost stays = { λ _ _. tt };

    ghost further = { λ _ _ _ _ _ _. tt };

    ghost lasts = { λ _ _ _ _ _ right _. right };
}

// What the paths can do that end in each node which fetches the block, found on the graph for its set if there is one.
fn search_on(
    alloc: Global,
    graph: &Graph,
    graphs: &[SpanGraph],
    geometry: &Geometry,
    start: Start,
    kept: Kept,
    block: u32,
) -> Result<Vec<Judged>, AllocError>
    requires few { AreFew graph.now geometry.now 0 geometry.now.sets }
    requires graphs { All (IsSpanGraph graph.now geometry.now) graphs.now }
    ensures { IfOk result (λ judged. AreJudged graph.now geometry.now start kept
        (IsFetcherOf graph.now geometry.now (λ other. other ≡ block)) judged.items) }
{
    match graph_for(graphs, geometry.set_of(block)) {
        Some(smaller) => {
            let sparse = &smaller.sparse;
            let judged = search_block(alloc, sparse.graph(), geometry, start, kept, block)?;
            lift_all(alloc, sparse, judged)
        }
        None => search_block(alloc, graph, geometry, start, kept, block),
    }
}

// The graph that was made smaller for a set, if there is one.
fn graph_for<'a, 'g>(graphs: &'a [SpanGraph<'g>], set: u32) -> Option<&'a SpanGraph<'g>>
    ensures { IfSome result (λ graph. Contains graphs.now graph.now
        × (graph.now.span.first ≤ set) × (set ≤ graph.now.span.last)) }
{
    for graph in graphs {
        if graph.span.first <= set && set <= graph.span.last {
            return Some(graph);
        }
    }
    None
}
