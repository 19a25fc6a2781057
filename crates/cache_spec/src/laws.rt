// What holds of the ends of fetches.
ghost use Rattle.std.specs.Prelude.{◌≡◌, ◌↔◌, ◌⊎◌, ℕ, ◌≤◌, Bool, true, false, IsTrue, IsFalse, List, [], ◌∷◌};
ghost use Rattle.cache_spec.specs.declared.start.Start.{Start};
ghost use Rattle.cache_spec.specs.Geometry.{Geometry, block_of};
ghost use Rattle.cache_spec.specs.Contents.{ends_in_hit, ends_in_hit_from};
ghost use Rattle.cache_spec.specs.Start.{CanEnd};

/// What the last of some fetches can do: from an empty cache it does what it does there; it can miss exactly where it
/// misses from an empty cache; it can hit, where the cache may hold anything, exactly where it hits with its own block
/// held alone, if a set has room for a block; and it can hit or can miss.
pub fn start_laws()
    ensures empty { (g : Geometry) (addresses : List ℕ) (hits : Bool) →
        CanEnd g Start.Empty addresses hits ↔ (ends_in_hit g addresses ≡ hits) }
    ensures misses { (g : Geometry) (start : Start) (addresses : List ℕ) →
        CanEnd g start addresses false ↔ IsFalse (ends_in_hit g addresses) }
    ensures hits { (g : Geometry) (address : ℕ) (earlier : List ℕ) → 1 ≤ g.ways →
        CanEnd g Start.Any (address ∷ earlier) true
        ↔ IsTrue (ends_in_hit_from g (block_of g address ∷ []) (address ∷ earlier)) }
    ensures either { (g : Geometry) (start : Start) (addresses : List ℕ) →
        CanEnd g start addresses true ⊎ CanEnd g start addresses false }
{}
