ghost use Rattle.std.specs.Prelude.{◌≡◌, ◌↔◌, ℕ, List, map};
ghost use Rattle.transition_spec.specs.Path.{IsPath, HasChoices};
ghost use Rattle.flow_spec.specs.Acceptance.{Step};
ghost use Rattle.flow_spec.specs.Configuration.{Configuration, start_of, fetched};
ghost use Rattle.path_model.specs.declared.graph.Node.{Node};
ghost use Rattle.path_model.specs.Graph.{graph_step, address_of};
ghost use Rattle.call_expand.specs.Expansion.{numbered, IsGraphOf};

/// The paths of the graph are those of the configurations, member by member: each path of the graph is one of the
/// configurations with its numbers, and each path of the configurations is so numbered by one of the graph. Both have
/// the same choices and fetch the same addresses.
pub fn path_laws()
    ensures path { (step : Step) (entry : ℕ) (configurations : List Configuration) (nodes : List Node) (members : List ℕ)
        → IsGraphOf step entry configurations nodes → IsPath (graph_step nodes) 0 members
        → IsPath step (start_of entry) (map (numbered configurations) members) }
    ensures members { (step : Step) (entry : ℕ) (configurations : List Configuration) (nodes : List Node) (path : List Configuration)
        → IsGraphOf step entry configurations nodes → IsPath step (start_of entry) path
        → (members : List ℕ) × IsPath (graph_step nodes) 0 members × (map (numbered configurations) members ≡ path) }
    ensures choices { (step : Step) (entry : ℕ) (configurations : List Configuration) (nodes : List Node) (members choices : List ℕ)
        → IsGraphOf step entry configurations nodes → IsPath (graph_step nodes) 0 members
        → HasChoices (graph_step nodes) members choices ↔ HasChoices step (map (numbered configurations) members) choices }
    ensures addresses { (step : Step) (entry : ℕ) (configurations : List Configuration) (nodes : List Node) (members : List ℕ)
        → IsGraphOf step entry configurations nodes → IsPath (graph_step nodes) 0 members
        → map (address_of nodes) members ≡ map fetched (map (numbered configurations) members) }
{}
