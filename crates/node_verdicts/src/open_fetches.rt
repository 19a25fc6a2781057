// The fetches of a set that its ages leave open, by block.
ghost use Rattle.std.specs.Prelude.{◌≡◌, ◌↔◌, ◌++◌, ◌∷◌, ◌<◌, [], ℕ, length, replicate, slice_set, IfOk, OnOk, IsTrue};
ghost use Rattle.node_verdicts.specs.Open.{AreEmpty, AreOpen, lists_seen, nodes_of};

use crate::aged::SetAges;
use std::alloc::{AllocError, Global};
use std::marker::Model;

/// For each local block of a set the nodes whose fetch of it the ages leave open, rising.
#[derive(Drop)]
pub(crate) struct OpenFetches {
    by_block: Vec<Vec<u32>>,
}

impl Model for OpenFetches {
    ghost use Rattle.std.specs.Prelude.{List, ℕ};
    ghost use Rattle.node_verdicts.specs.Open.{lists_seen};

    ghost Value = { List (List ℕ) };

    ghost view = { λ o. lists_seen o.by_block.items };
}

impl OpenFetches {
    /// Those of a set. It goes over the nodes once.
    pub(crate) fn of(alloc: Global, ages: &SetAges) -> Result<Self, AllocError>
        ensures { IfOk result (AreOpen ages.now) }
    {
        let mut by_block = none_each(alloc, ages.view.blocks().len())?;
        for node in 0..ages.view.graph().nodes().len() as u32 {
            if let Some(block) = ages.open_at(node) {
                add_to(&mut by_block, block, node)?;
            }
        }
        Ok(OpenFetches { by_block })
    }

    /// Whether no block has one.
    pub(crate) fn are_none(&self) -> bool
        ensures { IsTrue result ↔ AreEmpty self.now }
    {
        for nodes in &self.by_block {
            if !nodes.is_empty() {
                return false;
            }
        }
        true
    }

    /// Those of a local block.
    pub(crate) fn of_block(&self, block: u16) -> &[u32]
        requires { block < length self.now }
        ensures { result.now ≡ nodes_of self.now block }
    {
        &self.by_block[block as usize]
    }
}

// No nodes for each of some blocks.
fn none_each(alloc: Global, count: usize) -> Result<Vec<Vec<u32>>, AllocError>
    ensures { IfOk result (λ lists. lists_seen lists.items ≡ replicate count []) }
{
    let mut lists = Vec::with_capacity(alloc, count)?;
    for _ in 0..count {
        lists.push(Vec::new(alloc))?;
    }
    Ok(lists)
}

// One more node of a block.
fn add_to(lists: &mut Vec<Vec<u32>>, block: u16, node: u32) -> Result<(), AllocError>
    requires { block < length lists.old.items }
    ensures { OnOk result (lists_seen lists.new.items
        ≡ slice_set (lists_seen lists.old.items) block (nodes_of (lists_seen lists.old.items) block ++ node ∷ [])) }
{
    lists[block as usize].push(node)?;
    Ok(())
}
