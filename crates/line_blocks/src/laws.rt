// What holds of runs.
ghost use Rattle.std.specs.Prelude.{◌≡◌, ◌<◌, ◌↔◌, ℕ, Bool, true, List, ◌∷◌, length, Some, slice_get};
ghost use Rattle.transition_spec.specs.Path.{IsPath};
ghost use Rattle.cache_spec.specs.declared.start.Start.{Start};
ghost use Rattle.cache_spec.specs.Geometry.{block_of};
ghost use Rattle.cache_spec.specs.Blocks.{AreBlocks};
ghost use Rattle.path_model.specs.Graph.{graph_step, address_of, addresses_of};
ghost use Rattle.focus_spec.specs.Fate.{AllEnd, PathCanEnd};
ghost use Rattle.line_blocks.specs.Runs.{Runs, AreRuns, IsHead, run_of, head_of, SomeEnds};
ghost use Rattle.line_blocks.specs.Expand.{IsExpanded, EndsIn};
ghost use Rattle.line_blocks.specs.Alike.{MoveAlike, head_data};
ghost use Rattle.lattice_fix.specs.Solution.{IsLeast};

use lattice_fix::Domain;

/// What holds of the runs of a graph, in each set of the cache and with each start: what paths can do at the first node of
/// a run, they can do at the run in the graph of the runs, and each other node always hits. Each node is in a run, and the
/// run fetches the address of its first node, in the block of all its nodes; so both graphs fetch the same blocks of a
/// set. The path of the whole graph that a path of the runs stands for ends in the first node of the last run, and can do
/// the same there.
pub fn run_laws()
    ensures heads { (r : Runs) (start : Start) (p : ℕ) (hits : Bool) → AreRuns r → p < length r.runs →
        AllEnd r.nodes r.shape start (head_of r.runs p) hits ↔ AllEnd r.small r.shape start p hits }
    ensures some { (r : Runs) (start : Start) (p : ℕ) (hits : Bool) → AreRuns r → p < length r.runs →
        SomeEnds r.nodes r.shape start (head_of r.runs p) hits ↔ SomeEnds r.small r.shape start p hits }
    ensures inner { (r : Runs) (start : Start) (n : ℕ) → AreRuns r → n < length r.nodes →
        (IsHead r.numbers r.runs n → ⊥) → AllEnd r.nodes r.shape start n true }
    ensures numbers { (r : Runs) (n : ℕ) → AreRuns r → n < length r.nodes → run_of r.numbers n < length r.runs }
    ensures inside { (r : Runs) (p : ℕ) → AreRuns r → p < length r.runs → head_of r.runs p < length r.nodes }
    ensures own { (r : Runs) (p : ℕ) → AreRuns r → p < length r.runs → run_of r.numbers (head_of r.runs p) ≡ p }
    ensures origins { (r : Runs) (p : ℕ) → AreRuns r → p < length r.runs →
        IsHead r.numbers r.runs (head_of r.runs p) }
    ensures as_many { (r : Runs) → AreRuns r → length r.small ≡ length r.runs }
    ensures addresses { (r : Runs) (p : ℕ) → AreRuns r → p < length r.runs →
        address_of r.small p ≡ address_of r.nodes (head_of r.runs p) }
    ensures lines { (r : Runs) (n : ℕ) → AreRuns r → n < length r.nodes →
        block_of r.shape (address_of r.nodes n) ≡ block_of r.shape (address_of r.small (run_of r.numbers n)) }
    ensures blocks { (r : Runs) (set : ℕ) (blocks : List ℕ) → AreRuns r →
        AreBlocks (addresses_of r.nodes) r.shape set blocks ↔ AreBlocks (addresses_of r.small) r.shape set blocks }
    ensures whole { (r : Runs) (path whole : List ℕ) → AreRuns r → IsExpanded r path whole →
        IsPath (graph_step r.nodes) 0 whole }
    ensures ends { (r : Runs) (run : ℕ) (others whole : List ℕ) → AreRuns r → IsExpanded r (run ∷ others) whole →
        EndsIn (head_of r.runs run) whole }
    ensures paths { (r : Runs) (start : Start) (path whole : List ℕ) (hits : Bool) → AreRuns r →
        IsExpanded r path whole →
        PathCanEnd r.small r.shape start path hits ↔ PathCanEnd r.nodes r.shape start whole hits }
{}

/// What holds of least solutions over both graphs, where each node of a run but the first leaves what that one makes of
/// data as it is, and the run makes the same: that of the whole graph, at the first nodes of the runs, is the least one of
/// the graph of the runs; so any two agree at the first nodes of the runs; and each other node of a run has what its first
/// node makes.
pub fn least_laws<D: Domain>(whole: &D, small: &D)
    ensures least { let F = D.framework (D.setting (D.state whole.now)) in
        let G = D.framework (D.setting (D.state small.now)) in
        (r : Runs) (before : List D.Data) → AreRuns r → MoveAlike r F G → IsLeast F r.nodes before →
        IsLeast G r.small (head_data before r.runs) }
    ensures agree { let F = D.framework (D.setting (D.state whole.now)) in
        let G = D.framework (D.setting (D.state small.now)) in
        (r : Runs) (before after : List D.Data) (p : ℕ) → AreRuns r → MoveAlike r F G → IsLeast F r.nodes before →
        IsLeast G r.small after → p < length r.runs →
        slice_get after p ≡ slice_get before (head_of r.runs p) }
    ensures inner { let F = D.framework (D.setting (D.state whole.now)) in
        let G = D.framework (D.setting (D.state small.now)) in
        (r : Runs) (before : List D.Data) (m : ℕ) (x y : D.Data) → AreRuns r → MoveAlike r F G →
        IsLeast F r.nodes before → (IsHead r.numbers r.runs m → ⊥) →
        slice_get before (head_of r.runs (run_of r.numbers m)) ≡ Some x → slice_get before m ≡ Some y →
        y ≡ F.transfer (head_of r.runs (run_of r.numbers m)) x }
{}
