ghost use Rattle.std.specs.Prelude.{◌≡◌, ℕ, ◌+◌, ◌-◌, ◌^◌, ◌<◌, ◌≤◌, ◌==◌, [], ◌∷◌, ◌++◌, length, IfOk, OnOk, OnErr};
ghost use Rattle.std.specs.List.{list_any};
ghost use Rattle.flow_spec.specs.Successors.{newest, older};
ghost use Rattle.frame_stacks.specs.Stacks.{AreCells, frames_of, frames_cmp};
ghost use Rattle.frame_stacks.specs.Parting.{Part};

use crate::numbers::Numbers;
use crate::order::compare_tops;
use flow_spec::Frame;
use std::alloc::{AllocError, Global};
use std::cmp::Ordering;
use std::marker::Model;

/// One frame on the stack with the number `below`.
#[derive(Clone, Copy, Debug, PartialEq, Eq)]
pub struct StackCell {
    pub below: u32,
    pub frame: Frame,
}

/// Numbered stacks of frames. Number 0 is the stack without frames.
#[derive(Drop)]
pub struct Stacks {
    cells: Vec<StackCell>,
    numbers: Numbers,
}

impl Model for Stacks {
    ghost use Rattle.std.specs.Prelude.{List};
    ghost use Rattle.frame_stacks.specs.declared.stacks.StackCell.{StackCell};
    ghost use Rattle.frame_stacks.specs.Numbers.{AreNumbered};

    ghost Value = { List StackCell };

    ghost view = { λ s. s.cells.items };

    ghost invariant = { λ s. AreNumbered s.cells.items s.numbers };
}

impl Stacks {
    /// The stack without frames alone. Takes no memory.
    pub fn empty(alloc: Global) -> Self
        ensures { result ≡ [] }
    {
        Stacks {
            cells: Vec::new(alloc),
            numbers: Numbers::new(alloc),
        }
    }

    /// The cells: that at place k makes stack k + 1.
    pub fn cells(&self) -> &[StackCell]
        ensures same { result.now ≡ self.now }
        ensures cells { AreCells self.now }
    {
        &self.cells
    }

    /// The number of the stack that a frame makes on another one. It is new only where no stack has these frames.
    pub fn push(&mut self, stack: u32, frame: Frame) -> Result<u32, AllocError>
        requires known { stack ≤ length self.old }
        requires room { length self.old < 2 ^ 32 - 1 }
        ensures known { IfOk result (λ pushed. pushed ≤ length self.new) }
        ensures frames { IfOk result (λ pushed.
            frames_of self.new pushed ≡ frames_of self.old stack ++ frame ∷ []) }
        ensures kept { OnOk result ((s : ℕ) → s ≤ length self.old → frames_of self.new s ≡ frames_of self.old s) }
        ensures longer { OnOk result (length self.old ≤ length self.new) }
        ensures one { OnOk result (length self.new ≤ length self.old + 1) }
        ensures only_new { IfOk result (λ pushed. pushed ≤ length self.old → self.new ≡ self.old) }
        ensures unchanged { OnErr result (self.new ≡ self.old) }
    {
        let cell = StackCell {
            below: stack,
            frame,
        };
        if let Some(number) = self.numbers.get(cell) {
            return Ok(number);
        }
        self.cells.push(cell)?;
        let number = self.cells.len() as u32;
        if let Err(error) = self.numbers.insert(cell, number) {
            self.cells.pop();
            return Err(error);
        }
        Ok(number)
    }

    /// The newest frame of a stack.
    #[tactic(auto, using(crate::proofs::Made::frames_of_zero, crate::proofs::Ends::newest_push))]
    pub fn top(&self, stack: u32) -> Option<Frame>
        requires { stack ≤ length self.now }
        ensures { result ≡ newest (frames_of self.now stack) }
    {
        if stack == 0 {
            return None;
        }
        Some(cell(self.cells(), stack).frame)
    }

    /// The stack without the newest frame of this one, or number 0 where it has none.
    #[tactic(auto, using(crate::proofs::Made::frames_of_zero, crate::proofs::Ends::older_push))]
    pub fn below(&self, stack: u32) -> u32
        requires { stack ≤ length self.now }
        ensures known { result ≤ length self.now }
        ensures frames { frames_of self.now result ≡ older (frames_of self.now stack) }
    {
        if stack == 0 {
            return 0;
        }
        cell(self.cells(), stack).below
    }

    /// The number of frames of a stack.
    #[tactic(auto, using(crate::proofs::Made::frames_of_zero))]
    pub fn depth(&self, stack: u32) -> u32
        requires { stack ≤ length self.now }
        ensures { result ≡ length (frames_of self.now stack) }
    {
        let cells = self.cells();
        let mut depth = 0;
        let mut at = stack;
        while at > 0 {
            at = cell(cells, at).below;
            depth += 1;
        }
        depth
    }

    /// Whether a frame of the stack is of a call of this function.
    #[tactic(auto, using(crate::proofs::Made::frames_of_zero, crate::proofs::Ends::any_push))]
    pub fn has_callee(&self, stack: u32, target: u32) -> bool
        requires { stack ≤ length self.now }
        ensures { result ≡ list_any (λ frame. frame.callee == target) (frames_of self.now stack) }
    {
        let cells = self.cells();
        let mut at = stack;
        while at > 0 {
            let top = cell(cells, at);
            if top.frame.callee == target {
                return true;
            }
            at = top.below;
        }
        false
    }

    /// The order of two stacks: by their frames from the oldest on, a prefix first. Frames are compared by return
    /// address, then link, then callee.
    #[tactic(auto, using(crate::proofs::Parted::parted_order))]
    pub fn compare(&self, a: u32, b: u32) -> Ordering
        requires a { a ≤ length self.now }
        requires b { b ≤ length self.now }
        ensures { result ≡ frames_cmp (frames_of self.now a) (frames_of self.now b) }
    {
        let (one, other) = self.parting(a, b);
        compare_tops(self.top(one), self.top(other))
    }

    /// What the two stacks have right above the newest stack that is below both; number 0 for one that is below the other.
    fn parting(&self, a: u32, b: u32) -> (u32, u32)
        requires a { a ≤ length self.now }
        requires b { b ≤ length self.now }
        ensures { Part self.now a b result.0 result.1 }
    {
        let cells = self.cells();
        let (mut left, mut right) = (a, b);
        let (mut one, mut other) = (0, 0);
        while left != right {
            // The stack with the greater number can't be below the other.
            if left > right {
                one = left;
                left = cell(cells, left).below;
            } else {
                other = right;
                right = cell(cells, right).below;
            }
        }
        (one, other)
    }
}

/// The cell that makes a stack with frames.
#[tactic(auto, using(crate::proofs::Made::frames_of_stack))]
fn cell(cells: &[StackCell], stack: u32) -> StackCell
    requires lawful { AreCells cells.now }
    requires some { 0 < stack }
    requires known { stack ≤ length cells.now }
    ensures below { result.below < stack }
    ensures frames { frames_of cells.now stack ≡ frames_of cells.now result.below ++ result.frame ∷ [] }
{
    cells[stack as usize - 1]
}
