// The order of the nodes, and the place and the line at a cursor.
ghost use Rattle.std.specs.Prelude.{◌≡◌, ◌<◌, length, true, false, option_map, IfOk, IfSome};
ghost use Rattle.node_spec.specs.declared.verdict.Kept.TheVariants.{EachAddress};
ghost use Rattle.node_spec.specs.Plan.{HasLineIn, IsByAddress, IsByNumber, layout};
ghost use Rattle.node_spec.specs.Verdict.{HaveWays, kept_for};
ghost use Rattle.report_plan.specs.Kept.{IsPlanOf};
ghost use Rattle.report_plan.specs.Place.{IsPlaceAt, IsPlaceByAddress, IsPlaceByNumber, IsPlaceOf, last_in};
ghost use Rattle.report_plan.specs.Valid.{IsValidWith};

use crate::before::Befores;
use crate::layout::{Layout, line_after, line_from, range_end};
use crate::line::line_of;
use crate::merge::{ends_at, ends_of};
use crate::order::in_order;
use crate::place::Place;
use call_expand::{Expanded, Frame, Isa};
use elf_image::Image;
use node_spec::NodeVerdict;
use report_spec::Line;
use std::alloc::{AllocError, Global};
use std::marker::Model;

/// The nodes of an expanded program in order of address, and for each a smaller node before it.
#[derive(Drop)]
pub struct Plan {
    order: Vec<u32>,
    before: Befores,
}

impl Model for Plan {
    ghost use Rattle.report_plan.specs.Kept.{Kept};

    ghost Value = { Kept };

    ghost view = { λ p. record { order = p.order.items; before = p.before } };
}

impl Plan {
    /// The plan of an expanded program: two numbers for each node. The error is out of memory. Sorts the nodes once.
    pub fn new(alloc: Global, expanded: &Expanded) -> Result<Self, AllocError>
        ensures { IfOk result (IsPlanOf expanded.now.nodes) }
    {
        let nodes = expanded.graph().nodes();
        Ok(Plan {
            order: in_order(alloc, nodes)?,
            before: Befores::new(alloc, nodes)?,
        })
    }

    /// What the line at a cursor says without its ways, and the cursor after it, if there is one. The plan is of this
    /// program, whose instructions are those of `isa`, which has one verdict for each node and keeps the ways that its
    /// lines need. Makes no way and takes no memory.
    ///
    /// With `contexts` a cursor is the number of a node, and the line is that node's. Else it is an address, and the
    /// line is that of the least address with a line from it on, which is an address of the text that isn't in the
    /// middle of an instruction fetched at once: the one verdict of all nodes there, or the whole range of addresses
    /// without nodes that begins there. `None` exactly where no node, or no address with a line, is left.
    ///
    /// Where paths can do both, the two ways come from the node of a number; and by address from a node there that keeps
    /// its ways, or, where none does, from one that always hits and from one that always misses. Takes time in the order
    /// of the nodes at the address, or of the range.
    pub fn place(
        &self,
        image: &Image,
        isa: Isa,
        expanded: &Expanded,
        verdicts: &[NodeVerdict],
        contexts: bool,
        from: u32,
    ) -> Option<(Place, Option<u32>)>
        requires plan { IsPlanOf expanded.now.nodes self.now }
        requires one_each { length verdicts.now ≡ length expanded.now.nodes }
        requires ways { HaveWays expanded.now.nodes verdicts.now (kept_for contexts) }
        ensures by_address { contexts ≡ false →
            IsPlaceByAddress (layout image.now isa expanded.now.configurations expanded.now.nodes) verdicts.now from result }
        ensures by_number { contexts ≡ true →
            IsPlaceByNumber expanded.now.configurations verdicts.now from result }
    {
        if contexts {
            return place_by_number(expanded, verdicts, from);
        }
        let layout = Layout {
            image,
            isa,
            expanded,
            order: &self.order,
        };
        place_by_address(&layout, verdicts, from)
    }

    /// The line at a cursor, and the cursor after it, if there is one: that of `place`, with a copy of each way that its
    /// node keeps, and a new way where it keeps none. Where the verdicts are valid, so is the line.
    ///
    /// The error is out of memory for the ways of the line. Takes the time of `place`, and time in the order of the ways
    /// that are copied, or of all nodes where a way has to be made.
    pub fn line(
        &self,
        alloc: Global,
        image: &Image,
        isa: Isa,
        expanded: &Expanded,
        verdicts: &[NodeVerdict],
        contexts: bool,
        from: u32,
    ) -> Result<Option<(Line, Option<u32>)>, AllocError>
        requires plan { IsPlanOf expanded.now.nodes self.now }
        requires one_each { length verdicts.now ≡ length expanded.now.nodes }
        requires ways { HaveWays expanded.now.nodes verdicts.now (kept_for contexts) }
        ensures valid { IfOk result (λ found. IfSome found (λ at. IsValidWith verdicts.now at.0)) }
        ensures by_address { contexts ≡ false → IfOk result (λ found.
            IsByAddress (layout image.now isa expanded.now.configurations expanded.now.nodes) verdicts.now from found) }
        ensures by_number { contexts ≡ true → IfOk result (λ found.
            IsByNumber expanded.now.configurations verdicts.now from found) }
    {
        let Some((place, next)) = self.place(image, isa, expanded, verdicts, contexts, from) else {
            return Ok(None);
        };
        let line = line_of(alloc, expanded.graph(), &self.before, verdicts, place)?;
        Ok(Some((line, next)))
    }
}

// The place of the least address with a line from one on, and the next address with a line after it.
fn place_by_address(
    layout: &Layout,
    verdicts: &[NodeVerdict],
    from: u32,
) -> Option<(Place, Option<u32>)>
    requires one_each { length verdicts.now ≡ length layout.now.nodes }
    requires ways { HaveWays layout.now.nodes verdicts.now EachAddress }
    ensures { IsPlaceByAddress layout.now verdicts.now from result }
{
    let at = line_from(layout, from)?;
    let place = place_at(layout, verdicts, at);
    let next = line_after(layout, last_in(&place));
    Some((place, next))
}

// The place of the line that begins at an address that has one.
fn place_at(layout: &Layout, verdicts: &[NodeVerdict], at: u32) -> Place
    requires one_each { length verdicts.now ≡ length layout.now.nodes }
    requires ways { HaveWays layout.now.nodes verdicts.now EachAddress }
    requires line { HasLineIn layout.now at }
    ensures { IsPlaceAt layout.now verdicts.now at result }
{
    match ends_at(layout, verdicts, at) {
        Some(ends) => Place::OfAddress { at, ends },
        None => Place::OfRange {
            first: at,
            last: range_end(layout, at),
        },
    }
}

// The last address that a place speaks of.
fn last_in(place: &Place) -> u32
    ensures { result ≡ last_in place.now }
{
    match place {
        Place::OfAddress { at, .. } | Place::OfNode { at, .. } => *at,
        Place::OfRange { last, .. } => *last,
    }
}

// The place of a node, and the next number after its own.
fn place_by_number(
    expanded: &Expanded,
    verdicts: &[NodeVerdict],
    from: u32,
) -> Option<(Place, Option<u32>)>
    requires one_each { length verdicts.now ≡ length expanded.now.nodes }
    ensures { IsPlaceByNumber expanded.now.configurations verdicts.now from result }
{
    let count = expanded.graph().nodes().len() as u32;
    if from >= count {
        return None;
    }
    let place = node_place(expanded, verdicts, from);
    let next = (from + 1 < count).then_some(from + 1);
    Some((place, next))
}

// The place of a node.
fn node_place(expanded: &Expanded, verdicts: &[NodeVerdict], node: u32) -> Place
    requires inside { node < length expanded.now.nodes }
    requires one_each { length verdicts.now ≡ length expanded.now.nodes }
    ensures { IsPlaceOf expanded.now.configurations verdicts.now node result }
{
    Place::OfNode {
        node,
        at: expanded.graph().nodes()[node as usize].at,
        depth: expanded.config(node).depth,
        back: back_of(expanded.top(node)),
        ends: ends_of(&verdicts[node as usize], node),
    }
}

// The return address of an open call.
fn back_of(call: Option<Frame>) -> Option<u32>
    ensures { result ≡ option_map (λ frame. frame.back) call }
{
    call.map(|frame| frame.back)
}
