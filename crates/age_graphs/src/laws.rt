// What holds of ages over smaller graphs.
ghost use Rattle.std.specs.Prelude.{◌≡◌, ◌↔◌, ℕ, ◌<◌, List, length, Some, slice_get};
ghost use Rattle.cache_spec.specs.declared.start.Start.{Start};
ghost use Rattle.cache_spec.specs.Geometry.{Geometry, set_of};
ghost use Rattle.focus_spec.specs.Younger.{fetch_at};
ghost use Rattle.set_view.specs.View.{View, IsView};
ghost use Rattle.line_blocks.specs.Runs.{Runs, AreRuns, IsHead, head_of};
ghost use Rattle.sparse_graph.specs.Sparse.{Sparse, IsSparse, KeepsSet};
ghost use Rattle.age_spec.specs.Ages.{AreMustAges, age_of};
ghost use Rattle.age_spec.specs.Jobs.{IsJob};
ghost use Rattle.age_graphs.specs.Numbers.{Four, IsFour, HasSame, ShowOneSet};

/// What holds of the four numbers of a fetch, the ages and bounds of its block before it. Where a sparse graph keeps
/// each node that fetches of a set, a kept node has the same numbers in both graphs. A run has the numbers of its first
/// node; and each other node of a run fetches a block whose must age is 0 there, so that its fetch is always-hit.
pub fn number_laws()
    ensures kept { (sparse : Sparse) (one other : View) (start : Start) (local p n : ℕ)
        (four small_four : Four) → IsSparse sparse → KeepsSet sparse one.geometry one.set →
        ShowOneSet sparse.nodes sparse.small one other →
        IsFour one start local four → IsFour other start local small_four → slice_get sparse.kept p ≡ Some n →
        HasSame local four n small_four p }
    ensures heads { (r : Runs) (one other : View) (start : Start) (local p : ℕ) (four small_four : Four) →
        AreRuns r → one.geometry ≡ r.shape → ShowOneSet r.nodes r.small one other →
        IsFour one start local four → IsFour other start local small_four → p < length r.runs →
        HasSame local four (head_of r.runs p) small_four p }
    ensures inner { (r : Runs) (view : View) (must : List (List ℕ)) (n local : ℕ) → AreRuns r → IsView view →
        view.nodes ≡ r.nodes → view.geometry ≡ r.shape → AreMustAges view must →
        (IsHead r.numbers r.runs n → ⊥) → fetch_at view.fetches n ≡ Some local → age_of must n local ≡ 0 }
{}

/// What holds of the blocks that ages leave unclear. Over a sparse graph that keeps each node that fetches of a block's
/// set, the block is a job exactly where it is one over the whole graph; and so it is over the graph of the runs.
pub fn job_laws()
    ensures sparse { (sparse : Sparse) (g : Geometry) (start : Start) (block : ℕ) → IsSparse sparse →
        KeepsSet sparse g (set_of g block) →
        IsJob sparse.nodes g start block ↔ IsJob sparse.small g start block }
    ensures runs { (r : Runs) (start : Start) (block : ℕ) → AreRuns r →
        IsJob r.nodes r.shape start block ↔ IsJob r.small r.shape start block }
{}
