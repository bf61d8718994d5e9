//! The slots of a linked program.

ghost use Rattle.std.specs.Prelude.{◌≡◌, ℕ, ◌+◌, ◌<◌, ◌≤◌, ◌^◌, ◌++◌, length, IfOk, OnOk, All};
ghost use Rattle.ebpf_linker.specs.Functions.{Among};
ghost use Rattle.ebpf_linker.specs.Copies.{linked_slot, copied_slots, linked_copies, bodies_slot_count};
ghost use Rattle.ebpf_linker.specs.Numbered.{IsWithin, Rises, of_target, calls_at};

use crate::functions::Functions;
use crate::reference::{Reference, Target};
use crate::slot::{distance, relinked};
use ebpf_parts::insn::bpf_insn;
use std::alloc::{AllocError, Global};

/// A slot at a place, linked to the target of its reference.
fn linked_slot(slot: bpf_insn, place: usize, target: Target, bases: &[usize]) -> bpf_insn
    requires place { place < 2 ^ 31 }
    requires within { IsWithin (length bases.now) target }
    requires bases { All (λ base. base < 2 ^ 31) bases.now }
    ensures { result ≡ linked_slot bases.now place (of_target target) slot }
{
    match target {
        Target::Nowhere(_) => slot,
        Target::Function(callee) => relinked(slot, distance(place, bases[callee])),
    }
}

/// Appends a copy of a function.
fn append(
    out: &mut Vec<bpf_insn>,
    body: &[bpf_insn],
    calls: &[Reference],
    bases: &[usize],
) -> Result<(), AllocError>
    requires rises { Rises 0 calls.now }
    requires within { All (λ call. IsWithin (length bases.now) call.target) calls.now }
    requires short { 0 < length calls.now → length out.old.items + length body.now ≤ 2147483647 }
    requires bases { All (λ base. base < 2 ^ 31) bases.now }
    ensures { OnOk result
        (out.new.items
        ≡ out.old.items
        ++ copied_slots bases.now calls.now (length out.old.items) 0 body.now) }
{
    let mut next = 0;
    for (i, slot) in body.iter().enumerate() {
        let place = out.len();
        match calls.get(next) {
            Some(call) if call.slot == i => {
                next += 1;
                out.push(linked_slot(*slot, place, call.target, bases))?;
            }
            _ => out.push(*slot)?,
        }
    }
    Ok(())
}

/// Writes copies of these functions, one after the other. Each reference leads to the base of its function. Memory for
/// `size` slots is taken first.
pub fn write_copies(
    alloc: Global,
    size: usize,
    functions: &Functions<'_>,
    order: &[usize],
    bases: &[usize],
) -> Result<Vec<bpf_insn>, AllocError>
    requires bases { length bases.now ≡ length functions.now.bodies.now }
    requires order { All (λ k. k < length functions.now.bodies.now) order.now }
    requires short { (k : ℕ)
        → 0 < length (calls_at functions.now.references.now k)
        → Among order.now k
        → bodies_slot_count functions.now.bodies.now order.now ≤ 2147483647 }
    requires below { All (λ b. b < 2 ^ 31) bases.now }
    ensures { IfOk result (λ out.
        out.items
        ≡ linked_copies functions.now.bodies.now functions.now.references.now bases.now 0
        order.now) }
{
    let mut out = Vec::with_capacity(alloc, size)?;
    for function in order {
        append(
            &mut out,
            functions.bodies[*function].slots,
            &functions.references[*function],
            bases,
        )?;
    }
    Ok(out)
}
