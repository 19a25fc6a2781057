// The numbers of the nodes, in order of address.
ghost use Rattle.std.specs.Prelude.{◌≡◌, ◌↔◌, ℕ, ◌<◌, ◌≤◌, length, IfOk};
ghost use Rattle.std.specs.List.{AllWithin, Contains, range_with_len};
ghost use Rattle.path_model.specs.Graph.{address_of};
ghost use Rattle.node_spec.specs.Plan.{IsNodeAt};
ghost use Rattle.report_plan.specs.Kept.{AreInOrder};

use path_model::Node;
use std::alloc::{AllocError, Global};

// The closure of a sort can carry no condition, so any number has an address: 0 where there is no node.
fn address_of(nodes: &[Node], number: u32) -> u32
    ensures { result ≡ address_of nodes.now number }
{
    match nodes.get(number as usize) {
        Some(node) => node.at,
        None => 0,
    }
}

/// The numbers below `count`, in order.
pub(crate) fn numbers(alloc: Global, count: usize) -> Result<Vec<u32>, AllocError>
    requires { count ≤ 65536 }
    ensures { IfOk result (λ numbers. numbers.items ≡ range_with_len 0 count) }
{
    (0..count as u32).collect(alloc)
}

/// The numbers of all nodes, in order of address.
pub(crate) fn in_order(alloc: Global, nodes: &[Node]) -> Result<Vec<u32>, AllocError>
    requires { length nodes.now ≤ 65536 }
    ensures { IfOk result (λ order. AreInOrder nodes.now order.items) }
{
    let mut order = numbers(alloc, nodes.len())?;
    order.sort_by_key(|number| address_of(nodes, *number))?;
    Ok(order)
}

/// The numbers of the nodes at an address. Takes time in the order of the logarithm of the nodes.
pub(crate) fn nodes_at<'a>(order: &'a [u32], nodes: &[Node], address: u32) -> &'a [u32]
    requires { AreInOrder nodes.now order.now }
    ensures { (n : ℕ) → Contains result.now n ↔ IsNodeAt nodes.now address n }
{
    let first = count_below(order, nodes, address);
    let last = count_up_to(order, nodes, address);
    &order[first..last]
}

// How many nodes are below an address: these are the first ones.
fn count_below(order: &[u32], nodes: &[Node], address: u32) -> usize
    requires { AreInOrder nodes.now order.now }
    ensures below { AllWithin (λ n. address_of nodes.now n < address) order.now 0 result }
    ensures others { AllWithin (λ n. address ≤ address_of nodes.now n) order.now result (length order.now) }
    ensures within { result ≤ length order.now }
{
    order.partition_point(|number| address_of(nodes, *number) < address)
}

// How many nodes are at or below an address: these are the first ones.
fn count_up_to(order: &[u32], nodes: &[Node], address: u32) -> usize
    requires { AreInOrder nodes.now order.now }
    ensures up_to { AllWithin (λ n. address_of nodes.now n ≤ address) order.now 0 result }
    ensures others { AllWithin (λ n. address < address_of nodes.now n) order.now result (length order.now) }
    ensures within { result ≤ length order.now }
{
    order.partition_point(|number| address_of(nodes, *number) <= address)
}
