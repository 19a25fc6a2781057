ghost use Rattle.std.specs.Prelude.{◌≡◌, ◌∷◌};
ghost use Rattle.std.specs.Option.{option_cmp};
ghost use Rattle.flow_spec.specs.Order.{link_number, frame_numbers};
ghost use Rattle.frame_stacks.specs.Parting.{frame_cmp};

use crate::stacks::StackCell;
use flow_spec::{Frame, Link};
use std::cmp::Ordering;

/// A cell as numbers, which no other cell has.
pub(crate) fn cell_numbers(cell: StackCell) -> [u32; 4]
    ensures { result ≡ cell.below ∷ frame_numbers cell.frame }
{
    let [back, link, callee] = frame_numbers(cell.frame);
    [cell.below, back, link, callee]
}

/// The order of two newest frames: none comes first, and others by return address, then link, then callee.
pub(crate) fn compare_tops(one: Option<Frame>, other: Option<Frame>) -> Ordering
    ensures { result ≡ option_cmp frame_cmp one other }
{
    match (one, other) {
        (Some(one), Some(other)) => frame_numbers(one).cmp(&frame_numbers(other)),
        (one, other) => one.is_some().cmp(&other.is_some()),
    }
}

fn frame_numbers(frame: Frame) -> [u32; 3]
    ensures { result ≡ frame_numbers frame }
{
    [frame.back, link_number(frame.link), frame.callee]
}

fn link_number(link: Link) -> u32
    ensures { result ≡ link_number link }
{
    match link {
        Link::X1 => 1,
        Link::X5 => 5,
    }
}
