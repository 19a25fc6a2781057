// What holds of ages.
ghost use Rattle.std.specs.Prelude.{◌≡◌, ℕ, true, false, List, Some};
ghost use Rattle.cache_spec.specs.declared.start.Start.{Start};
ghost use Rattle.focus_spec.specs.Younger.{fetch_at};
ghost use Rattle.lattice_fix.specs.Solution.{IsSolution};
ghost use Rattle.set_view.specs.View.{View, IsView};
ghost use Rattle.age_spec.specs.declared.kind.Kind.{Kind};
ghost use Rattle.age_spec.specs.Ages.{age_framework, setting_of, age_of, AreRows};
ghost use Rattle.age_spec.specs.Settled.{AreFour, HitsByMust, MissesByMay};
ghost use Rattle.age_spec.specs.Sound.{BoundPlaces, NoneEnds};

/// What holds of ages: each solution has an age for each local block before each node, and bounds the places of blocks
/// along each path, from each list that the set may start with. A fetch that is always-hit by ages that bound so can't
/// miss, and one that is always-miss can't hit. Each view has the least solutions of all four systems, for each block.
pub fn age_laws()
    ensures rows { (view : View) (kind : Kind) (start : Start) (ages : List (List ℕ)) → IsView view →
        IsSolution (age_framework (setting_of view kind start)) view.nodes ages → AreRows view ages }
    ensures bounds { (view : View) (kind : Kind) (start : Start) (ages : List (List ℕ)) → IsView view →
        IsSolution (age_framework (setting_of view kind start)) view.nodes ages → BoundPlaces view kind start ages }
    ensures hits { (view : View) (start : Start) (ages : List (List ℕ)) (n local : ℕ) → IsView view →
        BoundPlaces view Kind.Must start ages → fetch_at view.fetches n ≡ Some local →
        HitsByMust view.geometry.ways (age_of ages n local) → NoneEnds view start n false }
    ensures misses { (view : View) (start : Start) (ages : List (List ℕ)) (n local : ℕ) → IsView view →
        BoundPlaces view Kind.May start ages → fetch_at view.fetches n ≡ Some local →
        MissesByMay view.geometry.ways (age_of ages n local) → NoneEnds view start n true }
    ensures four { (view : View) (start : Start) (local : ℕ) → IsView view →
        (must : List (List ℕ)) × (may : List (List ℕ)) × (hit : List ℕ) × (miss : List ℕ) ×
        AreFour view start local must may hit miss }
{}
