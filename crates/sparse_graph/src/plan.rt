// The test of a plan.
ghost use Rattle.std.specs.Prelude.{◌≡◌, ◌↔◌, ◌⊎◌, ℕ, ◌<◌, ◌≤◌, length, Some, slice_get, IsTrue};
ghost use Rattle.std.specs.List.Sorted.{IsStrictlyIncreasing};
ghost use Rattle.path_model.specs.Graph.{IsGraph};
ghost use Rattle.sparse_graph.specs.Plan.{IsPlan, lead_of, rank_of, IsKept, PassesOn, AreOwn, IsLed, LeadsTo, IsNearer};

use path_model::Node;

pub(crate) fn lead_of(leads: &[u32], node: u32) -> u32
    ensures { result ≡ lead_of leads.now node }
{
    leads.get(node as usize).copied().unwrap_or(0)
}

pub(crate) fn rank_of(ranks: &[u32], node: u32) -> u32
    ensures { result ≡ rank_of ranks.now node }
{
    ranks.get(node as usize).copied().unwrap_or(0)
}

pub(crate) fn is_kept(kept: &[u32], leads: &[u32], node: u32) -> bool
    ensures { IsTrue result ↔ IsKept kept.now leads.now node }
{
    kept.get(lead_of(leads, node) as usize).copied() == Some(node)
}

fn leads_to(leads: &[u32], to: Option<u32>, place: u32) -> bool
    ensures { IsTrue result ↔ LeadsTo leads.now to place }
{
    match to {
        Some(to) => lead_of(leads, to) == place,
        None => true,
    }
}

fn is_nearer(ranks: &[u32], to: Option<u32>, rank: u32) -> bool
    ensures { IsTrue result ↔ IsNearer ranks.now to rank }
{
    match to {
        Some(to) => rank_of(ranks, to) < rank,
        None => false,
    }
}

fn both_lead_to(leads: &[u32], here: &Node, place: u32) -> bool
    ensures { IsTrue result ↔ (LeadsTo leads.now here.now.first place × LeadsTo leads.now here.now.second place) }
{
    leads_to(leads, here.first, place) && leads_to(leads, here.second, place)
}

fn one_is_nearer(ranks: &[u32], here: &Node, rank: u32) -> bool
    ensures { IsTrue result ↔ (IsNearer ranks.now here.now.first rank ⊎ IsNearer ranks.now here.now.second rank) }
{
    is_nearer(ranks, here.first, rank) || is_nearer(ranks, here.second, rank)
}

fn passes_on(nodes: &[Node], leads: &[u32], ranks: &[u32], node: u32) -> bool
    requires { node < length nodes.now }
    ensures { IsTrue result ↔ PassesOn nodes.now leads.now ranks.now node }
{
    let here = &nodes[node as usize];
    both_lead_to(leads, here, lead_of(leads, node))
        && one_is_nearer(ranks, here, rank_of(ranks, node))
}

fn is_led(nodes: &[Node], kept: &[u32], leads: &[u32], ranks: &[u32], node: u32) -> bool
    requires { node < length nodes.now }
    ensures { IsTrue result ↔ IsLed nodes.now kept.now leads.now ranks.now node }
{
    (lead_of(leads, node) as usize) < kept.len()
        && (is_kept(kept, leads, node) || passes_on(nodes, leads, ranks, node))
}

fn are_led(nodes: &[Node], kept: &[u32], leads: &[u32], ranks: &[u32]) -> bool
    requires { length nodes.now ≤ 65536 }
    ensures { IsTrue result ↔ ((n : ℕ) → n < length nodes.now → IsLed nodes.now kept.now leads.now ranks.now n) }
{
    for node in 0..nodes.len() as u32 {
        if !is_led(nodes, kept, leads, ranks, node) {
            return false;
        }
    }
    true
}

fn are_own(count: usize, kept: &[u32], leads: &[u32]) -> bool
    ensures { IsTrue result ↔ AreOwn count kept.now leads.now (length kept.now) }
{
    for place in 0..kept.len() {
        let node = kept[place];
        if node as usize >= count || lead_of(leads, node) as usize != place {
            return false;
        }
    }
    true
}

fn rises(kept: &[u32]) -> bool
    ensures { IsTrue result ↔ IsStrictlyIncreasing kept.now }
{
    for place in 1..kept.len() {
        if kept[place] <= kept[place - 1] {
            return false;
        }
    }
    true
}

fn starts_with_0(kept: &[u32]) -> bool
    ensures { IsTrue result ↔ (slice_get kept.now 0 ≡ Some 0) }
{
    kept.get(0).copied() == Some(0)
}

/// Tells whether these numbers are a plan for the nodes of a graph. It goes over each list once.
pub(crate) fn is_plan(nodes: &[Node], kept: &[u32], leads: &[u32], ranks: &[u32]) -> bool
    requires { IsGraph nodes.now }
    ensures { IsTrue result ↔ IsPlan nodes.now kept.now leads.now ranks.now }
{
    if leads.len() != nodes.len() {
        return false;
    }
    if !starts_with_0(kept) {
        return false;
    }
    if !rises(kept) {
        return false;
    }
    if !are_own(nodes.len(), kept, leads) {
        return false;
    }
    are_led(nodes, kept, leads, ranks)
}
