// How the paths to the nodes at an address end.
ghost use Rattle.std.specs.Prelude.{◌≡◌, ℕ, ◌<◌, length, IfSome, IfNone};
ghost use Rattle.std.specs.List.{Contains};
ghost use Rattle.node_spec.specs.declared.verdict.Kept.TheVariants.{EachAddress};
ghost use Rattle.node_spec.specs.Plan.{IsBareOf};
ghost use Rattle.node_spec.specs.Verdict.{HaveWays};
ghost use Rattle.report_plan.specs.Place.{AreEndsAt, ends_of};
ghost use Rattle.report_plan.specs.Sources.{is_sought, IsSought};

use crate::layout::{Layout, nodes_of};
use crate::place::Ends;
use node_spec::NodeVerdict;

/// Which verdicts are sought among those of some nodes.
#[derive(Clone, Copy)]
pub(crate) enum Sought {
    Hitting,
    Missing,
    /// Of a node that keeps its ways.
    Keeping,
}

// Whether a verdict is sought.
fn is_sought(verdict: &NodeVerdict, sought: Sought) -> bool
    ensures { result ≡ is_sought sought verdict.now }
{
    match verdict {
        NodeVerdict::Hits => matches!(sought, Sought::Hitting),
        NodeVerdict::Misses => matches!(sought, Sought::Missing),
        NodeVerdict::Both(None) => false,
        NodeVerdict::Both(Some(_)) => matches!(sought, Sought::Keeping),
    }
}

// The first of some nodes whose verdict is sought.
fn first_of(verdicts: &[NodeVerdict], here: &[u32], sought: Sought) -> Option<u32>
    requires { (n : ℕ) → Contains here.now n → n < length verdicts.now }
    ensures some { IfSome result (λ n. Contains here.now n × IsSought verdicts.now sought n) }
    ensures none { IfNone result ((n : ℕ) → Contains here.now n → IsSought verdicts.now sought n → ⊥) }
{
    for node in here {
        if is_sought(&verdicts[*node as usize], sought) {
            return Some(*node);
        }
    }
    None
}

/// How the paths to the nodes at an address end. Where they can do both, the two ways come from a node there that keeps
/// them; where none does, from one that always hits and one that always misses. `None` exactly where no node is there.
/// Takes time in the order of the nodes there.
pub(crate) fn ends_at(layout: &Layout, verdicts: &[NodeVerdict], address: u32) -> Option<Ends>
    requires one_each { length verdicts.now ≡ length layout.now.nodes }
    requires ways { HaveWays layout.now.nodes verdicts.now EachAddress }
    ensures some { IfSome result (AreEndsAt layout.now.nodes verdicts.now address) }
    ensures none { IfNone result (IsBareOf layout.now.nodes address) }
{
    let here = nodes_of(layout, address);
    if let Some(node) = first_of(verdicts, here, Sought::Keeping) {
        return Some(Ends::Either {
            hit: node,
            miss: node,
        });
    }
    let hit = first_of(verdicts, here, Sought::Hitting);
    let miss = first_of(verdicts, here, Sought::Missing);
    match (hit, miss) {
        (None, None) => None,
        (Some(_), None) => Some(Ends::AllHit),
        (None, Some(_)) => Some(Ends::AllMiss),
        (Some(hit), Some(miss)) => Some(Ends::Either { hit, miss }),
    }
}

/// How the paths to a node end. Where they can do both, both ways come from the node.
pub(crate) fn ends_of(verdict: &NodeVerdict, node: u32) -> Ends
    ensures { result ≡ ends_of node verdict.now }
{
    match verdict {
        NodeVerdict::Hits => Ends::AllHit,
        NodeVerdict::Misses => Ends::AllMiss,
        NodeVerdict::Both(_) => Ends::Either {
            hit: node,
            miss: node,
        },
    }
}
