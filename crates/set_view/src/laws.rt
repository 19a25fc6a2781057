// What holds of views and paths.
ghost use Rattle.std.specs.Prelude.{◌≡◌, ◌↔◌, ℕ, true, false, IsTrue, IsFalse, List, ◌∷◌, map, Some};
ghost use Rattle.transition_spec.specs.Path.{IsPath};
ghost use Rattle.cache_spec.specs.declared.start.Start.{Start};
ghost use Rattle.cache_spec.specs.Start.{CanEnd};
ghost use Rattle.path_model.specs.Graph.{graph_step, address_of};
ghost use Rattle.focus_spec.specs.Younger.{is_small, fetch_at};
ghost use Rattle.focus_spec.specs.Focus.{younger_after, warm_after};
ghost use Rattle.set_view.specs.View.{View, IsView};

use focus_spec::warm_laws;
use path_model::graph_laws;

/// A path whose last node fetches a block of the set can hit exactly where the block's warm set, in local numbers, has
/// fewer blocks than the set has ways. It can miss exactly where the block's younger set hasn't, or isn't there.
pub fn view_laws()
    ensures hits { (view : View) (start : Start) (n block : ℕ) (earlier : List ℕ) → IsView view →
        IsPath (graph_step view.nodes) 0 (n ∷ earlier) → fetch_at view.fetches n ≡ Some block →
        CanEnd view.geometry start (map (address_of view.nodes) (n ∷ earlier)) true
        ↔ IsTrue (is_small view.geometry.ways (warm_after view.fetches start block earlier)) }
    ensures misses { (view : View) (start : Start) (n block : ℕ) (earlier : List ℕ) → IsView view →
        IsPath (graph_step view.nodes) 0 (n ∷ earlier) → fetch_at view.fetches n ≡ Some block →
        CanEnd view.geometry start (map (address_of view.nodes) (n ∷ earlier)) false
        ↔ IsFalse (is_small view.geometry.ways (younger_after view.fetches block earlier)) }
{
    warm_laws();
    graph_laws();
}
