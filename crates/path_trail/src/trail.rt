// Paths that are kept as entries, each with the entry before it.
ghost use Rattle.std.specs.Prelude.{◌≡◌, ◌<◌, length, reverse, Some, IfOk};
ghost use Rattle.transition_spec.specs.Path.{IsPath};
ghost use Rattle.path_model.specs.Graph.{graph_step};
ghost use Rattle.path_trail.specs.Trail.{IsTrail, IsChain};
ghost use Rattle.path_trail.specs.Ways.{IsWayOf};

use path_model::{Graph, choices_of};
use std::alloc::{AllocError, Global};
use transition_spec::{Choices, Way};

/// Entries by number, each at a node of a graph, and each with the entry before it, if there is one.
pub trait Trail {
    ghost use Rattle.std.specs.Prelude.{List};
    ghost use Rattle.path_trail.specs.Trail.{TrailEntry, node_at, earlier_at};

    ghost entries: { Self → List TrailEntry };

    /// The node of an entry, whose number is below the number of entries.
    fn node(&self, entry: u32) -> u32
        requires { entry < length (entries self.now) }
        ensures { result ≡ node_at (entries self.now) entry };

    /// The entry before an entry, whose number is below the number of entries.
    fn earlier(&self, entry: u32) -> Option<u32>
        requires { entry < length (entries self.now) }
        ensures { result ≡ earlier_at (entries self.now) entry };
}

/// The path that leads to an entry: the nodes of the entries before it, the first of them first, and then its own.
///
/// Each entry before another has a smaller number and leads to the other's node, and one without an entry before it is
/// at node 0. The error is out of memory. It takes time in the order of the path's length.
pub fn trace<T: Trail>(
    alloc: Global,
    graph: &Graph,
    trail: &T,
    entry: u32,
) -> Result<Vec<u32>, AllocError>
    requires trail { IsTrail graph.now (T.entries trail.now) }
    requires inside { entry < length (T.entries trail.now) }
    ensures chain { IfOk result (λ path. IsChain (T.entries trail.now) (Some entry) (reverse path.items)) }
    ensures path { IfOk result (λ path. IsPath (graph_step graph.now) 0 (reverse path.items)) }
{
    let mut path = Vec::new(alloc);
    let mut next = Some(entry);
    while let Some(number) = next {
        path.push(trail.node(number))?;
        next = trail.earlier(number);
    }
    path.reverse();
    Ok(path)
}

/// The way of the path that leads to an entry: its number of members, and its choices.
///
/// An error means that it ran out of memory. It takes time and memory in the order of the path's length.
pub fn way_of<T: Trail>(
    alloc: Global,
    graph: &Graph,
    trail: &T,
    entry: u32,
) -> Result<Way, AllocError>
    requires trail { IsTrail graph.now (T.entries trail.now) }
    requires inside { entry < length (T.entries trail.now) }
    ensures { IfOk result (IsWayOf graph.now (T.entries trail.now) entry) }
{
    let path = trace(alloc, graph, trail, entry)?;
    let letters = choices_of(alloc, graph, &path)?;
    Ok(Way {
        steps: path.len() as u64,
        choices: Choices::from_letters(letters),
    })
}
