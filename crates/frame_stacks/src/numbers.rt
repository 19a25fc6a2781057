ghost use Rattle.std.specs.Prelude.{◌≡◌, OnOk, OnErr};
ghost use Rattle.frame_stacks.specs.declared.stacks.StackCell.{StackCell};

use crate::order::cell_numbers;
use crate::stacks::StackCell;
use std::alloc::{AllocError, Global};
use std::collections::BTreeMap;

/// The numbers of the stacks that cells make.
#[derive(Drop)]
pub(crate) struct Numbers {
    by_cell: BTreeMap<[u32; 4], u32>,
}

impl Numbers {
    ghost use Rattle.frame_stacks.specs.Numbers.{number_of, Gives, IsSame};

    /// No cell has a number. Takes no memory.
    pub(crate) fn new(alloc: Global) -> Self
        ensures { (cell : StackCell) → number_of result cell ≡ None }
    {
        Numbers {
            by_cell: BTreeMap::new(alloc),
        }
    }

    /// The number of the stack that a cell makes.
    pub(crate) fn get(&self, cell: StackCell) -> Option<u32>
        ensures { result ≡ number_of self.now cell }
    {
        self.by_cell.get(&cell_numbers(cell)).copied()
    }

    /// Gives a cell its number. After an error each cell has the number that it had.
    pub(crate) fn insert(&mut self, cell: StackCell, number: u32) -> Result<(), AllocError>
        ensures ok { OnOk result (Gives self.old self.new cell number) }
        ensures err { OnErr result (IsSame self.old self.new) }
    {
        self.by_cell.insert(cell_numbers(cell), number)?;
        Ok(())
    }
}
