ghost use Rattle.std.specs.Prelude.{◌≡◌, ℕ, ◌≤◌, IfErr, IfOk, IsErr, length, map, refl};
ghost use Rattle.std.proofs.Common.{◌∙◌, sym, subst};
ghost use Rattle.lattice_fix.specs.Solution.{IsLeast};
ghost use Rattle.lattice_fix.specs.Solved.{IsCause};
ghost use Rattle.lattice_fix.specs.Capped.{capped, tank_of, Tank, Spends, capped_monotone, spends_refl, spends_trans, spent};

use crate::{Change, Domain, Solution, SolveFault, solution_laws, solve};
use path_model::{Graph, Node};
use std::alloc::{AllocError, Global};
use std::test::Fail;

/// Why a number that is capped isn't given: no reason.
#[derive(Debug, Drop, PartialEq, Eq)]
struct Never;

/// Numbers up to a cap: each node adds its own number, and the greater counts where paths meet.
#[derive(Drop)]
struct Capped {
    cap: u32,
}

impl Domain for Capped {
    type Value = u32;

    type Stop = Never;

    ghost State = { ℕ };

    ghost Setting = { ℕ };

    ghost Data = { ℕ };

    ghost state = { λ domain. domain.cap };

    ghost goes_on = { λ before after. after ≡ before };

    ghost fits = { λ cap value. value ≤ cap };

    ghost stands = { λ cap value. value };

    ghost licensed = { λ cap stop. ⊥ };

    ghost setting = { λ cap. cap };

    ghost framework = { capped };

    fn start(&mut self) -> Result<u32, Never> {
        Ok(0)
    }

    fn transfer(&mut self, node: u32, value: &u32) -> Result<u32, Never> {
        let value = *value;
        Ok(value.saturating_add(node).min(self.cap))
    }

    fn join_into(&mut self, into: &mut u32, other: &u32) -> Result<bool, Never> {
        if *into < *other {
            *into = *other;
            Ok(true)
        } else {
            Ok(false)
        }
    }

    ghost reflexive = { λ s. refl };

    ghost transitive = { λ s t u one two. two ∙ one };

    ghost same_setting = { λ s t goes. goes };

    ghost still_fits = { λ s t value goes fit. subst (λ (cap : ℕ). value ≤ cap) (sym goes) fit };

    ghost still_stands = { λ s t value goes fit. refl };

    ghost still_licensed = { λ s t stop goes never. never };

    ghost within = { λ s value fit. fit };

    ghost monotone = { λ domain. capped_monotone domain.cap };
}

/// Why a number isn't given: no call is left.
#[derive(Debug, Drop, PartialEq, Eq)]
struct Empty;

/// What a domain is called for.
#[derive(Clone, Copy, Debug, PartialEq, Eq)]
enum Call {
    Start,
    Transfer,
    Join,
}

/// The same numbers, with `left` calls of one kind before a stop.
#[derive(Drop)]
struct Metered {
    cap: u32,
    kind: Call,
    left: u32,
}

impl Metered {
    fn spend(&mut self, call: Call) -> Result<(), Empty>
        ensures spends { Spends (tank_of self.old.cap self.old.left) (tank_of self.new.cap self.new.left) }
        ensures empty { IsErr result → self.new.left ≡ 0 }
    {
        if call != self.kind {
            return Ok(());
        }
        if self.left == 0 {
            return Err(Empty);
        }
        self.left -= 1;
        Ok(())
    }
}

impl Domain for Metered {
    type Value = u32;

    type Stop = Empty;

    ghost State = { Tank };

    ghost Setting = { ℕ };

    ghost Data = { ℕ };

    ghost state = { λ domain. tank_of domain.cap domain.left };

    ghost goes_on = { Spends };

    ghost fits = { λ tank value. value ≤ tank.cap };

    ghost stands = { λ tank value. value };

    ghost licensed = { λ tank stop. tank.left ≡ 0 };

    ghost setting = { λ tank. tank.cap };

    ghost framework = { capped };

    fn start(&mut self) -> Result<u32, Empty> {
        self.spend(Call::Start)?;
        Ok(0)
    }

    fn transfer(&mut self, node: u32, value: &u32) -> Result<u32, Empty> {
        let value = *value;
        self.spend(Call::Transfer)?;
        Ok(value.saturating_add(node).min(self.cap))
    }

    fn join_into(&mut self, into: &mut u32, other: &u32) -> Result<bool, Empty> {
        self.spend(Call::Join)?;
        if *into < *other {
            *into = *other;
            Ok(true)
        } else {
            Ok(false)
        }
    }

    ghost reflexive = { spends_refl };

    ghost transitive = { spends_trans };

    ghost same_setting = { λ s t goes. goes.cap };

    ghost still_fits = { λ s t value goes fit. subst (λ (cap : ℕ). value ≤ cap) (sym goes.cap) fit };

    ghost still_stands = { λ s t value goes fit. refl };

    ghost still_licensed = { λ s t stop goes empty. spent s t goes empty };

    ghost within = { λ s value fit. fit };

    ghost monotone = { λ domain. capped_monotone domain.cap };
}

// The least numbers before the nodes, through the contract at a concrete type.
fn capped_numbers(
    alloc: Global,
    graph: &Graph,
    cap: u32,
) -> Result<Solution<u32>, SolveFault<Never>>
    ensures least { IfOk result (λ solution.
        IsLeast (capped cap) graph.now (map (λ value. value) solution.values)) }
{
    let mut domain = Capped { cap };
    solution_laws(&domain);
    solve(alloc, graph, &mut domain)
}

// The same, with how many calls are left; a stop comes only where none is.
fn metered_numbers(
    alloc: Global,
    graph: &Graph,
    domain: &mut Metered,
) -> Result<Solution<u32>, SolveFault<Empty>>
    ensures spends { Spends (tank_of domain.old.cap domain.old.left) (tank_of domain.new.cap domain.new.left) }
    ensures least { IfOk result (λ solution.
        IsLeast (capped domain.new.cap) graph.now (map (λ value. value) solution.values)) }
    ensures stop { IfErr result (λ fault. IsCause (λ stop. domain.new.left ≡ 0) fault) }
{
    solve(alloc, graph, domain)
}

fn node(first: Option<u32>, second: Option<u32>) -> Node {
    Node {
        at: 0,
        first,
        second,
    }
}

fn change(node: u32, from: Option<u32>) -> Change {
    Change { node, from }
}

// Two arms that meet, and a way back to the first of them.
fn meeting() -> [Node; 5] {
    [
        node(Some(1), Some(2)),
        node(Some(3), None),
        node(Some(3), None),
        node(Some(4), Some(1)),
        node(None, None),
    ]
}

// A node that leads to itself and on.
fn turning() -> [Node; 3] {
    [
        node(Some(1), None),
        node(Some(1), Some(2)),
        node(None, None),
    ]
}

fn graph_of(nodes: Vec<Node>) -> Result<Graph, Fail> {
    Ok(Graph::new(nodes).ok_or("these nodes are no graph")?)
}

// Each node leads to the next one.
fn line(alloc: Global, count: u32) -> Result<Vec<Node>, AllocError> {
    let mut nodes = Vec::new(alloc);
    for next in 1..count {
        nodes.push(node(Some(next), None))?;
    }
    nodes.push(node(None, None))?;
    Ok(nodes)
}

// Node n leads to 2 n + 1 and to 2 n + 2.
fn fan(alloc: Global, inner: u32) -> Result<Vec<Node>, AllocError>
    requires { inner ≤ 32767 }
{
    let mut nodes = Vec::new(alloc);
    for number in 0..inner {
        nodes.push(node(Some(2 * number + 1), Some(2 * number + 2)))?;
    }
    for _ in 0..inner + 1 {
        nodes.push(node(None, None))?;
    }
    Ok(nodes)
}

// The numbers before the nodes, read one by one.
fn numbers_of(
    alloc: Global,
    graph: &Graph,
    solution: &Solution<u32>,
) -> Result<Vec<u32>, AllocError>
    requires { length solution.now.values ≡ length graph.now }
{
    let mut numbers = Vec::new(alloc);
    for number in 0..graph.nodes().len() {
        numbers.push(*solution.before(number as u32))?;
    }
    Ok(numbers)
}

// The numbers that the changes lead to, made again one after another; none where a change raises nothing.
fn replayed(
    alloc: Global,
    count: usize,
    changes: &[Change],
    cap: u32,
) -> Result<Vec<Option<u32>>, Fail> {
    let mut held: Vec<Option<u32>> = vec![in alloc; None; count]?;
    for change in changes {
        let brought: u32 = match change.from {
            None => 0,
            Some(from) => {
                let value = held
                    .get(from as usize)
                    .copied()
                    .flatten()
                    .ok_or("nothing to move")?;
                value.saturating_add(from).min(cap)
            }
        };
        let slot = held.get_mut(change.node as usize).ok_or("no such node")?;
        if slot.is_some_and(|value| brought <= value) {
            return Err(Fail::from("a change that raises nothing"));
        }
        *slot = Some(brought);
    }
    Ok(held)
}

#[test]
fn the_greater_number_counts_where_arms_meet(rt: HostRuntime) -> Result<(), Fail> {
    let alloc = rt.alloc();
    let graph = graph_of(meeting().to_vec(alloc)?)?;
    for (cap, wanted) in [(5, [0, 5, 0, 5, 5]), (20, [0, 20, 0, 20, 20])] {
        let Ok(solution) = capped_numbers(alloc, &graph, cap) else {
            return Err(Fail::from("no solution"));
        };
        let numbers = numbers_of(alloc, &graph, &solution)?;
        assert_eq!(rt; numbers.as_slice(), wanted.as_slice(), "up to {cap}");
    }
    Ok(())
}

#[test]
fn changes_lead_to_the_numbers_again(rt: HostRuntime) -> Result<(), Fail> {
    let alloc = rt.alloc();
    for nodes in [
        meeting().to_vec(alloc)?,
        turning().to_vec(alloc)?,
        fan(alloc, 31)?,
    ] {
        let graph = graph_of(nodes)?;
        let Ok(solution) = capped_numbers(alloc, &graph, 20) else {
            return Err(Fail::from("no solution"));
        };
        let numbers = numbers_of(alloc, &graph, &solution)?;
        let held = replayed(alloc, numbers.len(), solution.changes(), 20)?;
        for (slot, number) in held.iter().zip(numbers.iter()) {
            assert_eq!(rt; *slot, Some(*number));
        }
    }
    Ok(())
}

#[test]
fn a_change_names_the_node_that_it_comes_from(rt: HostRuntime) -> Result<(), Fail> {
    let alloc = rt.alloc();
    let graph = graph_of(turning().to_vec(alloc)?)?;
    let Ok(solution) = capped_numbers(alloc, &graph, 2) else {
        return Err(Fail::from("no solution"));
    };
    let wanted = [
        change(0, None),
        change(1, Some(0)),
        change(1, Some(1)),
        change(2, Some(1)),
        change(1, Some(1)),
    ];
    assert_eq!(rt; solution.changes(), wanted.as_slice());
    Ok(())
}

#[test]
fn one_visit_a_node_where_edges_lead_on(rt: HostRuntime) -> Result<(), Fail> {
    let alloc = rt.alloc();
    for (nodes, moves) in [(line(alloc, 1_000)?, 999), (fan(alloc, 500)?, 1_000)] {
        let graph = graph_of(nodes)?;
        let mut domain = Metered {
            cap: 100,
            kind: Call::Transfer,
            left: moves,
        };
        assert!(rt; metered_numbers(alloc, &graph, &mut domain).is_ok());
        assert_eq!(rt; domain.left, 0);
    }
    Ok(())
}

// The calls, in order: the start; transfers from node 0 along each edge, from 1, from 2, from 3 along both edges, from 1
// and from 3 again; joins of what came from 2, of what 3 lends to 1, of what came from 1, and of what 3 lends to 4 and
// gives to 1.
#[test]
fn each_stop_of_the_domain_is_handed_on(rt: HostRuntime) -> Result<(), Fail> {
    let alloc = rt.alloc();
    let graph = graph_of(meeting().to_vec(alloc)?)?;
    for (kind, calls) in [(Call::Start, 1), (Call::Transfer, 7), (Call::Join, 5)] {
        for left in 0..calls {
            let mut domain = Metered { cap: 5, kind, left };
            let result = metered_numbers(alloc, &graph, &mut domain);
            let stopped = matches!(result, Err(SolveFault::Stopped(Empty)));
            assert!(rt; stopped, "{kind:?} {left}");
        }
        let mut domain = Metered {
            cap: 5,
            kind,
            left: calls,
        };
        assert!(rt; metered_numbers(alloc, &graph, &mut domain).is_ok());
        assert_eq!(rt; domain.left, 0);
    }
    Ok(())
}
