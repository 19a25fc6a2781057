// What holds of younger sets and of warm sets.
ghost use Rattle.std.specs.Prelude.{◌≡◌, ℕ, ◌<◌, ◌↔◌, true, false, IsTrue, IsFalse, List, ◌∷◌, ◌++◌, length, map, Option, Some, None, option_map};
ghost use Rattle.std.specs.List.{Contains};
ghost use Rattle.std.specs.List.Sorted.{IsStrictlyIncreasing};
ghost use Rattle.cache_spec.specs.Geometry.{Geometry, block_of, set_of};
ghost use Rattle.cache_spec.specs.Contents.{ends_in_hit};
ghost use Rattle.cache_spec.specs.declared.start.Start.{Start};
ghost use Rattle.cache_spec.specs.Start.{CanEnd};
ghost use Rattle.focus_spec.specs.Younger.{younger, warm, is_small, named};
ghost use Rattle.cache_spec.specs.Blocks.{block_in};

/// What holds of younger sets: a list of fetches ends in a hit exactly where the younger set of its last block has fewer
/// blocks than a set has ways; a younger set rises; it names the same blocks, whether they are given by themselves or by
/// their places in a list that rises; it has the blocks that were fetched since its own block's last fetch; and there is
/// none exactly where its block was never fetched.
pub fn younger_laws()
    ensures hits { (g : Geometry) (address : ℕ) (earlier : List ℕ) → ends_in_hit g (address ∷ earlier)
        ≡ is_small g.ways (younger (block_of g address) (map (block_in g (set_of g (block_of g address))) earlier)) }
    ensures rising { (block : ℕ) (fetches : List (Option ℕ)) (set : List ℕ) → younger block fetches ≡ Some set
        → IsStrictlyIncreasing set }
    ensures renamed { (blocks : List ℕ) (block : ℕ) (fetches : List (Option ℕ)) → IsStrictlyIncreasing blocks
        → block < length blocks → ((local : ℕ) → Contains fetches (Some local) → local < length blocks)
        → younger (named blocks block) (map (option_map (named blocks)) fetches)
        ≡ option_map (map (named blocks)) (younger block fetches) }
    ensures since { (block : ℕ) (newer older : List (Option ℕ)) (set : List ℕ) (other : ℕ) →
        (Contains newer (Some block) → ⊥) → younger block (newer ++ Some block ∷ older) ≡ Some set →
        Contains set other ↔ Contains newer (Some other) }
    ensures none { (block : ℕ) (fetches : List (Option ℕ)) →
        (younger block fetches ≡ None) ↔ (Contains fetches (Some block) → ⊥) }
{}

/// What holds of warm sets: the last of some fetches can hit exactly where the warm set of its block has fewer blocks
/// than a set has ways, and can miss exactly where its younger set hasn't, or isn't there; where there is a younger set
/// the warm set is the same; with any cache at the start, the warm set of a block that was never fetched has all blocks
/// that were; with an empty one it is the younger set; and it rises and is renamed as a younger set is.
pub fn warm_laws()
    ensures hits { (g : Geometry) (start : Start) (address : ℕ) (earlier : List ℕ) →
        CanEnd g start (address ∷ earlier) true ↔ IsTrue (is_small g.ways
        (warm start (block_of g address) (map (block_in g (set_of g (block_of g address))) earlier))) }
    ensures misses { (g : Geometry) (start : Start) (address : ℕ) (earlier : List ℕ) →
        CanEnd g start (address ∷ earlier) false ↔ IsFalse (is_small g.ways
        (younger (block_of g address) (map (block_in g (set_of g (block_of g address))) earlier))) }
    ensures younger { (start : Start) (block : ℕ) (fetches : List (Option ℕ)) (set : List ℕ) →
        younger block fetches ≡ Some set → warm start block fetches ≡ Some set }
    ensures unfetched { (block : ℕ) (fetches : List (Option ℕ)) → (Contains fetches (Some block) → ⊥) →
        (set : List ℕ) × (warm Start.Any block fetches ≡ Some set)
        × ((other : ℕ) → Contains set other ↔ Contains fetches (Some other)) }
    ensures empty { (block : ℕ) (fetches : List (Option ℕ)) → warm Start.Empty block fetches ≡ younger block fetches }
    ensures rising { (start : Start) (block : ℕ) (fetches : List (Option ℕ)) (set : List ℕ) →
        warm start block fetches ≡ Some set → IsStrictlyIncreasing set }
    ensures renamed { (start : Start) (blocks : List ℕ) (block : ℕ) (fetches : List (Option ℕ)) →
        IsStrictlyIncreasing blocks → block < length blocks
        → ((local : ℕ) → Contains fetches (Some local) → local < length blocks)
        → warm start (named blocks block) (map (option_map (named blocks)) fetches)
        ≡ option_map (map (named blocks)) (warm start block fetches) }
{}
