// The rule of the counter, and what each step on it tells a seat.
use atomic_table::{Join, Play, Split, TableRule};
use std::collections::LinkedList;

// What the rule has of a seat. No value of it is made.
pub(crate) struct SeatView {
    pub(crate) jobs: u64,
    pub(crate) weight: u64,
    pub(crate) ended: bool,
    pub(crate) drawn: LinkedList<u64>,
}

pub(crate) struct CounterRule;

impl TableRule<(), SeatView, u64> for CounterRule {
    ghost use Rattle.work_share.specs.Rule.{AddsUp, first_view};

    ghost holds = { AddsUp };

    ghost first = { first_view };
}

// One number is drawn.
pub(crate) struct Draw;

impl Play<(), SeatView> for Draw {
    ghost use Rattle.work_share.specs.Rule.{HasDrawn};

    ghost then = { HasDrawn };
}

// The counter is looked at.
pub(crate) struct Look;

impl Play<(), SeatView> for Look {
    ghost use Rattle.work_share.specs.Rule.{HasLooked};

    ghost then = { HasLooked };
}

// A seat is made beside another.
pub(crate) struct Beside;

impl Split<SeatView> for Beside {
    ghost use Rattle.work_share.specs.Rule.{kept_view, new_view};

    ghost left = { kept_view };

    ghost right = { new_view };
}

// A seat takes in another.
pub(crate) struct Together;

impl Join<SeatView> for Together {
    ghost use Rattle.work_share.specs.Rule.{joined_view, spent_view};

    ghost both = { joined_view };

    ghost spent = { spent_view };
}
