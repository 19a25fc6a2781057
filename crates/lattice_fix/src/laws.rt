// What holds of solutions and paths.
ghost use Rattle.std.specs.Prelude.{◌≡◌, ℕ, List, ◌∷◌, map, slice_get, Some};
ghost use Rattle.transition_spec.specs.Path.{IsPath};
ghost use Rattle.path_model.specs.declared.graph.Node.{Node};
ghost use Rattle.path_model.specs.Graph.{IsGraph, graph_step};
ghost use Rattle.lattice_fix.specs.declared.change.Change.{Change};
ghost use Rattle.lattice_fix.specs.Solution.{IsSolution, IsLeast};
ghost use Rattle.lattice_fix.specs.Replay.{Replays, nothing};
ghost use Rattle.lattice_fix.specs.Along.{along, IsDistributive};

use crate::Domain;

/// What holds of the solutions of a domain's framework: what is moved along a path lies below each solution; two least
/// solutions are the same; and where transfers distribute over joins, what changes lead to before a node is below each
/// bound of what is moved along all paths that end in the node (Kam and Ullman 1977).
pub fn solution_laws<D: Domain>(domain: &D)
    ensures above { let F = D.framework (D.setting (D.state domain.now)) in
        (nodes : List Node) (before : List D.Data) (n : ℕ) (earlier : List ℕ) (x : D.Data) →
        IsGraph nodes → IsSolution F nodes before → IsPath (graph_step nodes) 0 (n ∷ earlier) →
        slice_get before n ≡ Some x → F.below (along F (n ∷ earlier)) x }
    ensures unique { let F = D.framework (D.setting (D.state domain.now)) in
        (nodes : List Node) (one two : List D.Data) → IsLeast F nodes one → IsLeast F nodes two → one ≡ two }
    ensures over_paths { let F = D.framework (D.setting (D.state domain.now)) in
        (nodes : List Node) (changes : List Change) (before : List D.Data) (n : ℕ) (x bound : D.Data) →
        IsDistributive F → Replays F nodes (nothing nodes) changes (map Some before) →
        slice_get before n ≡ Some x → F.carrier bound →
        ((earlier : List ℕ) → IsPath (graph_step nodes) 0 (n ∷ earlier) → F.below (along F (n ∷ earlier)) bound) →
        F.below x bound }
{}
