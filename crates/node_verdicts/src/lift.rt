// What is judged on a sparse graph, of the graph that it stands for.
ghost use Rattle.std.specs.Prelude.{ℕ, reverse, IfOk};
ghost use Rattle.std.specs.List.{Contains};
ghost use Rattle.transition_spec.specs.Path.{IsPath};
ghost use Rattle.path_model.specs.Graph.{graph_step};
ghost use Rattle.sparse_graph.specs.Expand.{IsExpanded};
ghost use Rattle.node_verdicts.specs.Lifted.{AreLifted, IsLifted, IsLiftedEnds, HavePaths};

use crate::judged::{Ends, Judged, Paths};
use sparse_graph::{SparseGraph, expand_path};
use std::alloc::{AllocError, Global};

/// The same judgements by the numbers of the graph that the sparse one stands for, and with paths of that graph.
pub(crate) fn lift_all(
    alloc: Global,
    sparse: &SparseGraph,
    judged: Vec<Judged>,
) -> Result<Vec<Judged>, AllocError>
    requires { (one : Judged) → Contains judged.items one → HavePaths sparse.now.small one.ends }
    ensures { IfOk result (λ lifted. AreLifted sparse.now judged.items lifted.items) }
{
    let mut left = judged;
    let mut lifted = Vec::with_capacity(alloc, left.len())?;
    while let Some(one) = left.pop() {
        lifted.push(lift(alloc, sparse, one)?)?;
    }
    Ok(lifted)
}

fn lift(alloc: Global, sparse: &SparseGraph, one: Judged) -> Result<Judged, AllocError>
    requires { HavePaths sparse.now.small one.ends }
    ensures { IfOk result (IsLifted sparse.now one) }
{
    Ok(Judged {
        node: sparse.origin(one.node),
        ends: lift_ends(alloc, sparse, one.ends)?,
    })
}

fn lift_ends(alloc: Global, sparse: &SparseGraph, ends: Ends) -> Result<Ends, AllocError>
    requires { HavePaths sparse.now.small ends }
    ensures { IfOk result (IsLiftedEnds sparse.now ends) }
{
    match ends {
        Ends::Both(Some(Paths { hit, miss })) => Ok(Ends::Both(Some(Paths {
            hit: expand_path(alloc, sparse, &hit)?,
            miss: expand_path(alloc, sparse, &miss)?,
        }))),
        other => Ok(other),
    }
}
