// What holds of sparse graphs.
ghost use Rattle.std.specs.Prelude.{◌≡◌, ◌↔◌, ℕ, ◌<◌, Bool, List, ◌∷◌, length, map, Option, Some, slice_get};
ghost use Rattle.std.specs.List.{filter_map};
ghost use Rattle.transition_spec.specs.Path.{IsPath};
ghost use Rattle.cache_spec.specs.declared.start.Start.{Start};
ghost use Rattle.cache_spec.specs.Geometry.{Geometry, block_of, set_of};
ghost use Rattle.cache_spec.specs.Blocks.{AreBlocks};
ghost use Rattle.path_model.specs.Graph.{graph_step, address_of, addresses_of};
ghost use Rattle.focus_spec.specs.Younger.{younger, warm};
ghost use Rattle.focus_spec.specs.Fate.{AllEnd, PathCanEnd};
ghost use Rattle.sparse_graph.specs.Plan.{lead_of, origin_of, IsKept};
ghost use Rattle.sparse_graph.specs.Sparse.{Sparse, IsSparse, FetchAlike, KeepsSet};
ghost use Rattle.sparse_graph.specs.Expand.{IsExpanded};
ghost use Rattle.sparse_graph.specs.Alike.{MoveAlike, data_at};
ghost use Rattle.lattice_fix.specs.Solution.{IsLeast};

use lattice_fix::Domain;

/// What holds of a sparse graph. Each path of the whole graph has one of the sparse graph that ends where its last node
/// leads, and each path of the sparse graph has one of the whole graph that ends in its last node; both fetch the same
/// before, for whatever only kept nodes fetch. The same fetches leave the same younger set and the same warm set. For a
/// set whose nodes are all kept, the paths to a node can do the same in both graphs, a path that is expanded can do what
/// it could, and the blocks of the set are the same. The nodes of the sparse graph are the kept ones: each of them has an
/// origin, which fetches the same address and leads to it.
pub fn sparse_laws()
    ensures down { (sparse : Sparse) (fetch small_fetch : ℕ → Option ℕ) (m : ℕ) (earlier : List ℕ) →
        IsSparse sparse → FetchAlike sparse fetch small_fetch → IsPath (graph_step sparse.nodes) 0 (m ∷ earlier) →
        (other : List ℕ) × IsPath (graph_step sparse.small) 0 (lead_of sparse.leads m ∷ other)
        × (filter_map fetch earlier ≡ filter_map small_fetch other) }
    ensures up { (sparse : Sparse) (fetch small_fetch : ℕ → Option ℕ) (p n : ℕ) (other : List ℕ) →
        IsSparse sparse → FetchAlike sparse fetch small_fetch → slice_get sparse.kept p ≡ Some n →
        IsPath (graph_step sparse.small) 0 (p ∷ other) →
        (earlier : List ℕ) × IsPath (graph_step sparse.nodes) 0 (n ∷ earlier)
        × (filter_map fetch earlier ≡ filter_map small_fetch other) }
    ensures younger { (block : ℕ) (one two : ℕ → Option ℕ) (members others : List ℕ) →
        filter_map one members ≡ filter_map two others →
        younger block (map one members) ≡ younger block (map two others) }
    ensures warm { (start : Start) (block : ℕ) (one two : ℕ → Option ℕ) (members others : List ℕ) →
        filter_map one members ≡ filter_map two others →
        warm start block (map one members) ≡ warm start block (map two others) }
    ensures fates { (sparse : Sparse) (g : Geometry) (start : Start) (p n : ℕ) (hits : Bool) → IsSparse sparse →
        KeepsSet sparse g (set_of g (block_of g (address_of sparse.nodes n))) → slice_get sparse.kept p ≡ Some n →
        AllEnd sparse.nodes g start n hits ↔ AllEnd sparse.small g start p hits }
    ensures blocks { (sparse : Sparse) (g : Geometry) (set : ℕ) (blocks : List ℕ) → IsSparse sparse →
        KeepsSet sparse g set →
        AreBlocks (addresses_of sparse.nodes) g set blocks ↔ AreBlocks (addresses_of sparse.small) g set blocks }
    ensures ends { (sparse : Sparse) (path whole others : List ℕ) (p n : ℕ) →
        IsExpanded sparse path whole → path ≡ p ∷ others → slice_get sparse.kept p ≡ Some n →
        (earlier : List ℕ) × IsPath (graph_step sparse.nodes) 0 (n ∷ earlier) × (whole ≡ n ∷ earlier) }
    ensures paths { (sparse : Sparse) (g : Geometry) (start : Start) (path whole others : List ℕ) (p n : ℕ)
        (hits : Bool) → IsSparse sparse → KeepsSet sparse g (set_of g (block_of g (address_of sparse.nodes n))) →
        IsExpanded sparse path whole → path ≡ p ∷ others → slice_get sparse.kept p ≡ Some n →
        PathCanEnd sparse.small g start path hits → PathCanEnd sparse.nodes g start whole hits }
    ensures count { (sparse : Sparse) → IsSparse sparse → length sparse.small ≡ length sparse.kept }
    ensures inside { (sparse : Sparse) (p : ℕ) → IsSparse sparse → p < length sparse.kept →
        origin_of sparse.kept p < length sparse.nodes }
    ensures origins { (sparse : Sparse) (p : ℕ) → IsSparse sparse → p < length sparse.kept →
        slice_get sparse.kept p ≡ Some (origin_of sparse.kept p) }
    ensures addresses { (sparse : Sparse) (p : ℕ) → IsSparse sparse → p < length sparse.kept →
        address_of sparse.small p ≡ address_of sparse.nodes (origin_of sparse.kept p) }
    ensures leads { (sparse : Sparse) (p : ℕ) → IsSparse sparse → p < length sparse.kept →
        lead_of sparse.leads (origin_of sparse.kept p) ≡ p }
    ensures kept { (sparse : Sparse) (n : ℕ) → IsKept sparse.kept sparse.leads n →
        (lead_of sparse.leads n < length sparse.kept) × (origin_of sparse.kept (lead_of sparse.leads n) ≡ n) }
{}

/// What holds of least solutions over both graphs, where only kept nodes change data, and do the same in both: that of
/// the whole graph, at its kept nodes, is the least one of the sparse graph; and so any two agree at the kept nodes.
pub fn least_laws<D: Domain>(whole: &D, small: &D)
    ensures least { let F = D.framework (D.setting (D.state whole.now)) in
        let G = D.framework (D.setting (D.state small.now)) in
        (sparse : Sparse) (before : List D.Data) → IsSparse sparse → MoveAlike sparse F G →
        IsLeast F sparse.nodes before → IsLeast G sparse.small (data_at before sparse.kept) }
    ensures agree { let F = D.framework (D.setting (D.state whole.now)) in
        let G = D.framework (D.setting (D.state small.now)) in
        (sparse : Sparse) (before after : List D.Data) (p n : ℕ) → IsSparse sparse → MoveAlike sparse F G →
        IsLeast F sparse.nodes before → IsLeast G sparse.small after → slice_get sparse.kept p ≡ Some n →
        slice_get after p ≡ slice_get before n }
{}
