//! The link map of a program: the copies of functions, and the references between them.

ghost use Rattle.std.specs.Prelude.{◌≡◌, ◌+◌, ◌<◌, ◌≤◌, [], ◌∷◌, ◌++◌, length, map, IfOk, OnOk, All};
ghost use Rattle.ebpf_linker.specs.Copies.{Fit, body_at, linked_reference, references_of_copy, references_of_copies, IsReady, IsLaidOut};
ghost use Rattle.ebpf_linker.specs.LinkMap.{copies_from, numbered_copy, IsNumberedLinkMap};
ghost use Rattle.ebpf_linker.specs.Numbered.{IsWithin, functions_by_number};

use crate::bases::copy_bases;
use crate::body::Body;
use crate::functions::Functions;
use crate::layout::ProgramLayout;
use crate::reference::{Reference, Target};
use ebpf_base::Items;
use ebpf_parts::insn::bpf_insn;
use std::alloc::{AllocError, Global};

/// A copy of a function in a linked program.
#[derive(Clone, Copy, Debug, PartialEq, Eq)]
pub struct NumberedCopy {
    /// The function's number.
    pub function: usize,
    /// The base of the copy, in slots.
    pub base: usize,
    /// The number of slots of the copy.
    pub slots: usize,
}

/// A reference in a linked program.
#[derive(Clone, Copy, Debug, PartialEq, Eq)]
pub struct PlacedReference {
    /// The index of the slot that refers.
    pub place: usize,
    /// The base of the copy that the slot refers to, in slots.
    pub base: usize,
    /// Whether the slot is a call, or else the load of an address.
    pub is_call: bool,
}

/// A link map, by the numbers of functions.
#[derive(Debug, Drop)]
pub struct NumberedLinkMap {
    /// The program and the copies of functions, in order.
    pub copies: Items<NumberedCopy>,
    /// The references of all copies, in the order of their places.
    pub references: Items<PlacedReference>,
}

/// The program and the copies of these functions, one after the other.
#[tactic(auto, using(crate::proofs::Walks::room_more))]
fn copies_of(
    alloc: Global,
    bodies: &[Body<'_>],
    start: usize,
    reached: &[usize],
) -> Result<Vec<NumberedCopy>, AllocError>
    requires start { start < length bodies.now }
    requires reached { All (λ k. k < length bodies.now) reached.now }
    requires fit { Fit bodies.now (length (body_at bodies.now start)) reached.now }
    ensures { IfOk result (λ copies.
        copies.items
        ≡ map numbered_copy
        (copies_from (functions_by_number bodies.now []) 0 (start ∷ reached.now))) }
{
    let mut copies = Vec::new(alloc);
    let mut end = bodies[start].slots.len();
    copies.push(NumberedCopy {
        function: start,
        base: 0,
        slots: end,
    })?;
    for function in reached {
        let slots = bodies[*function].slots.len();
        copies.push(NumberedCopy {
            function: *function,
            base: end,
            slots,
        })?;
        end += slots;
    }
    Ok(copies)
}

/// The reference of a slot of a function whose copy begins at a base; none if the reference leads nowhere.
fn reference_at(
    body: &[bpf_insn],
    call: Reference,
    bases: &[usize],
    base: usize,
) -> Option<PlacedReference>
    requires within { IsWithin (length bases.now) call.target }
    requires room { base ≤ 2147483647 }
    ensures { result ≡ linked_reference bases.now base body.now call }
{
    let slot = body.get(call.slot)?;
    match call.target {
        Target::Nowhere(_) => None,
        Target::Function(callee) => Some(PlacedReference {
            place: base + call.slot,
            base: bases[callee],
            is_call: slot.is_pseudo_call(),
        }),
    }
}

/// Adds the references of a function whose copy begins at a base.
#[tactic(auto, using(crate::proofs::Walks::reference_here, crate::proofs::Walks::no_linked_reference, ebpf_base::proofs::Lists::rest_none))]
fn add_references(
    references: &mut Vec<PlacedReference>,
    body: &[bpf_insn],
    calls: &[Reference],
    bases: &[usize],
    base: usize,
) -> Result<(), AllocError>
    requires within { All (λ call. IsWithin (length bases.now) call.target) calls.now }
    requires room { base ≤ 2147483647 }
    ensures { OnOk result
        (references.new.items
        ≡ references.old.items ++ references_of_copy bases.now base body.now calls.now) }
{
    for call in calls {
        let Some(reference) = reference_at(body, *call, bases, base) else {
            continue;
        };
        references.push(reference)?;
    }
    Ok(())
}

/// The references of the program and of copies of these functions, one after the other.
#[tactic(auto, using(crate::proofs::Walks::room_more))]
fn references_of(
    alloc: Global,
    functions: &Functions<'_>,
    start: usize,
    reached: &[usize],
    bases: &[usize],
) -> Result<Vec<PlacedReference>, AllocError>
    requires bases { length bases.now ≡ length functions.now.bodies.now }
    requires start { start < length functions.now.bodies.now }
    requires reached { All (λ k. k < length functions.now.bodies.now) reached.now }
    requires fit { Fit functions.now.bodies.now (length (body_at functions.now.bodies.now start))
        reached.now }
    ensures { IfOk result (λ references.
        references.items
        ≡ references_of_copies functions.now.bodies.now functions.now.references.now bases.now 0
        (start ∷ reached.now)) }
{
    let mut references = Vec::new(alloc);
    add_references(
        &mut references,
        functions.bodies[start].slots,
        &functions.references[start],
        bases,
        0,
    )?;
    let mut base = functions.bodies[start].slots.len();
    for function in reached {
        let slots = functions.bodies[*function].slots;
        let own = &functions.references[*function];
        add_references(&mut references, slots, own, bases, base)?;
        base += slots.len();
    }
    Ok(references)
}

/// The copies and the references of the program with copies of these functions.
fn link_map_of(
    alloc: Global,
    functions: &Functions<'_>,
    start: usize,
    reached: &[usize],
) -> Result<NumberedLinkMap, AllocError>
    requires { IsReady functions.now.bodies.now functions.now.references.now start reached.now }
    ensures { IfOk result (λ m.
        IsNumberedLinkMap
        (functions_by_number functions.now.bodies.now functions.now.references.now) start
        m) }
{
    let bodies = functions.bodies;
    let bases = copy_bases(
        alloc,
        functions.tables,
        bodies,
        bodies[start].slots.len(),
        reached,
    )?;
    let copies = copies_of(alloc, bodies, start, reached)?;
    let references = references_of(alloc, functions, start, reached, &bases)?;
    functions.tables.keep_bases(bases);
    Ok(NumberedLinkMap {
        copies: Items::from_vec(copies),
        references: Items::from_vec(references),
    })
}

impl Functions<'_> {
    /// Lists the parts of the linked program of a layout: where its copies begin, and its references with the places that
    /// they lead to. No slot and no record is written.
    pub fn link_map(
        &self,
        alloc: Global,
        layout: &ProgramLayout,
    ) -> Result<NumberedLinkMap, AllocError>
        requires { IsLaidOut self.now.bodies.now self.now.references.now layout.now }
        ensures { IfOk result (λ m.
            IsNumberedLinkMap (functions_by_number self.now.bodies.now self.now.references.now)
            layout.now.start m) }
    {
        let reached = &layout.order[1..];
        link_map_of(alloc, self, layout.start, reached)
    }
}
