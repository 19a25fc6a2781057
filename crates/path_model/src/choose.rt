// The path that some choices name.
ghost use Rattle.std.specs.Prelude.{◌≡◌, ℕ, ◌≤◌, List, [], ◌∷◌, reverse, slice_get, IfOk, IfSome, IfNone};
ghost use Rattle.transition_spec.specs.Path.{HasChoices};
ghost use Rattle.path_model.specs.Graph.{IsGraph, graph_step};
ghost use Rattle.path_model.specs.Follow.{IsFollowed, next_to};

use crate::{Graph, Node};
use std::alloc::{AllocError, Global};

/// The path from node 0 with `steps` members that takes these choices at the nodes with two successors: `n` the first of
/// them, `t` the second. Its first member stands first.
///
/// `None` where there is no such path: `steps` is 0, a choice is another byte, a node without successors is met before
/// the last member, or choices lack or are left over. The path takes room as it grows, so that `None` costs no more memory
/// than the members before the one that has no next.
pub fn follow(
    alloc: Global,
    graph: &Graph,
    choices: &[u8],
    steps: u64,
) -> Result<Option<Vec<u32>>, AllocError>
    ensures some { IfOk result (λ found. IfSome found (λ path.
        IsFollowed graph.now steps choices.now (reverse path.items))) }
    ensures none { IfOk result (λ found. IfNone found (
        (path : List ℕ) → IsFollowed graph.now steps choices.now path → ⊥)) }
{
    if steps == 0 {
        return Ok(None);
    }
    let mut path = Vec::new(alloc);
    path.push(0)?;
    // A usize has 64 bits here, so no number of steps is cut.
    walk(graph.nodes(), choices, steps as usize, path)
}

/// What holds of steps and choices: they name at most one path, and a path has one list of choices. So `follow` leads back
/// to a path by its number of members and what `choices_of` gives of it.
pub fn choice_laws()
    ensures one_path { (nodes : List Node) (steps : ℕ) (choices one two : List ℕ) → IsGraph nodes →
        IsFollowed nodes steps choices one → IsFollowed nodes steps choices two → one ≡ two }
    ensures one_list { (nodes : List Node) (path one two : List ℕ) → IsGraph nodes →
        HasChoices (graph_step nodes) path one → HasChoices (graph_step nodes) path two → one ≡ two }
{}

// Goes on from node 0 until the path has its steps.
fn walk(
    nodes: &[Node],
    choices: &[u8],
    steps: usize,
    mut path: Vec<u32>,
) -> Result<Option<Vec<u32>>, AllocError>
    requires graph { IsGraph nodes.now }
    requires some { 1 ≤ steps }
    requires begun { path.items ≡ 0 ∷ [] }
    ensures some { IfOk result (λ found. IfSome found (λ path.
        IsFollowed nodes.now steps choices.now (reverse path.items))) }
    ensures none { IfOk result (λ found. IfNone found (
        (path : List ℕ) → IsFollowed nodes.now steps choices.now path → ⊥)) }
{
    let mut last = 0;
    let mut used = 0;
    while path.len() < steps {
        let Some((to, letters)) = next(nodes, last, choice_at(choices, used)) else {
            return Ok(None);
        };
        path.push(to)?;
        last = to;
        used += letters;
    }
    if used < choices.len() {
        return Ok(None);
    }
    Ok(Some(path))
}

fn choice_at(choices: &[u8], place: usize) -> Option<u8>
    ensures { result ≡ slice_get choices.now place }
{
    choices.get(place).copied()
}

// The node that the next choice leads to, and how many choices the move takes.
fn next(nodes: &[Node], from: u32, choice: Option<u8>) -> Option<(u32, usize)>
    ensures { result ≡ next_to (slice_get nodes.now from) choice }
{
    let node = nodes.get(from as usize)?;
    match (node.first, node.second, choice) {
        (Some(first), None, _) => Some((first, 0)),
        (Some(first), Some(_), Some(b'n')) => Some((first, 1)),
        (Some(_), Some(second), Some(b't')) => Some((second, 1)),
        _ => None,
    }
}
