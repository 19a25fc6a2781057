ghost use Rattle.std.specs.Prelude.{◌≡◌, ℕ, Option, IfErr};
ghost use Rattle.flow_spec.specs.declared.frame.Frame.{Frame};
ghost use Rattle.flow_spec.specs.Instruction.{IsText, code_of, instruction_kind};
ghost use Rattle.flow_spec.specs.Transfer.{plain, branch, jump, call, linking, transfer_by, is_good_target, is_good_next};
ghost use Rattle.flow_spec.specs.Next.{next_at, return_to};
ghost use Rattle.flow_graph.specs.Place.{Goes};
ghost use Rattle.flow_graph.specs.Read.{IsRead};
ghost use Rattle.flow_graph.specs.Refusal.{IsChecked, IsRefusalAt};

use crate::instruction::{bytes_of, code_of, instruction_at, kind_of};
use crate::places::{Pair, is_next, is_target, pair_at, plus};
use elf_image::Image;
use flow_spec::{FlowFault, Frame, Instruction, Isa, Link, Next};
use rv_decode::Kind;

/// Where control stands: at an address of an image whose text is of these instructions, with the instruction after it at
/// `next`.
#[derive(Clone, Copy)]
struct Place<'a> {
    image: &'a Image,
    isa: Isa,
    at: u32,
    next: u32,
}

/// Where control goes from an address of the text, with this newest open call. Of the faults it gives `Illegal`,
/// `ComputedJump` and `BadTarget`; the next instruction of a branch is looked at before its target.
#[tactic(auto, unfolding(flow_spec::specs::Next::next_at))]
pub fn next_of(image: &Image, isa: Isa, at: u32, top: Option<Frame>) -> Result<Next, FlowFault>
    requires { IsText isa image.now at }
    ensures next { result ≡ next_at isa image.now at top }
    ensures refusals { IfErr result (IsRefusalAt isa image.now at) }
{
    let instruction = instruction_at(image, isa, at).unwrap();
    let place = Place {
        image,
        isa,
        at,
        next: at.wrapping_add(bytes_of(instruction)),
    };
    match pair_at(image, isa, at) {
        Some(pair) => next_by_pair(&place, pair),
        None => next_by_kind(&place, instruction, top),
    }
}

/// Where the pair leads whose second half is at the place.
fn next_by_pair(place: &Place, pair: Pair) -> Result<Next, FlowFault>
    ensures { (code : ℕ) (top : Option Frame) → result ≡ Goes place.now code top (linking pair.target pair.link) }
{
    match pair.link {
        Some(link) => call_of(place, pair.target, link),
        None => jump_to(place, pair.target),
    }
}

/// Where an instruction leads by itself.
fn next_by_kind(
    place: &Place,
    instruction: Instruction,
    top: Option<Frame>,
) -> Result<Next, FlowFault>
    requires { IsRead instruction }
    ensures { result ≡ Goes place.now (code_of instruction) top (transfer_by place.now.at (instruction_kind instruction)) }
{
    let at = place.at;
    match kind_of(instruction) {
        Kind::Plain => to_next(place),
        Kind::Branch { offset } => branch_to(place, plus(at, offset.into())),
        Kind::Jump { offset } => jump_to(place, plus(at, offset.into())),
        Kind::Call { offset, link } => call_of(place, plus(at, offset.into()), link),
        Kind::Return { link } => return_to(place, link, top),
        Kind::Computed => Err(FlowFault::ComputedJump { at }),
        Kind::Stop => Ok(Next::Ends),
        Kind::Illegal => Err(FlowFault::Illegal {
            at,
            word: code_of(instruction),
        }),
    }
}

fn to_next(place: &Place) -> Result<Next, FlowFault>
    ensures { result ≡ Goes place.now 0 None plain }
{
    check_next(place)?;
    Ok(Next::Go(place.next))
}

fn branch_to(place: &Place, target: u32) -> Result<Next, FlowFault>
    ensures { result ≡ Goes place.now 0 None (branch target) }
{
    check_next(place)?;
    check_target(place, target)?;
    if target == place.next {
        return Ok(Next::Go(place.next));
    }
    Ok(Next::Fork(place.next, target))
}

fn jump_to(place: &Place, target: u32) -> Result<Next, FlowFault>
    ensures { result ≡ Goes place.now 0 None (jump target) }
{
    check_target(place, target)?;
    Ok(Next::Go(target))
}

fn call_of(place: &Place, target: u32, link: Link) -> Result<Next, FlowFault>
    ensures { result ≡ Goes place.now 0 None (call target link) }
{
    check_target(place, target)?;
    let frame = Frame {
        back: place.next,
        link,
        callee: target,
    };
    Ok(Next::Enter { target, frame })
}

/// A return closes the newest frame, which has to be one of its own register. Without a frame, one by `x1` is that of the
/// whole program.
fn return_to(place: &Place, link: Link, top: Option<Frame>) -> Result<Next, FlowFault>
    ensures { result ≡ return_to place.now.isa place.now.image.now place.now.at link top }
{
    match top {
        Some(frame) if frame.link == link => {
            check_target(place, frame.back)?;
            Ok(Next::Back(frame.back))
        }
        None if link == Link::X1 => Ok(Next::Ends),
        _ => Err(FlowFault::ComputedJump { at: place.at }),
    }
}

/// Refuses a next instruction that control may not go on to.
fn check_next(place: &Place) -> Result<(), FlowFault>
    ensures { IsChecked result (is_good_next place.now.isa place.now.image.now place.now.at place.now.next) place.now.at place.now.next }
{
    if is_next(place.image, place.isa, place.at, place.next) {
        Ok(())
    } else {
        Err(bad_target(place, place.next))
    }
}

/// Refuses a target to which no jump, branch, call or return may lead.
fn check_target(place: &Place, target: u32) -> Result<(), FlowFault>
    ensures { IsChecked result (is_good_target place.now.isa place.now.image.now target) place.now.at target }
{
    if is_target(place.image, place.isa, target) {
        Ok(())
    } else {
        Err(bad_target(place, target))
    }
}

fn bad_target(place: &Place, target: u32) -> FlowFault
    ensures { result ≡ FlowFault.BadTarget place.now.at target }
{
    FlowFault::BadTarget {
        at: place.at,
        target,
    }
}
