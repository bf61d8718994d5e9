//! The reasons for which a finished program breaks on a kernel, slot by slot.

ghost use Rattle.std.specs.Prelude.{◌≡◌, IfOk, length, slice_get};
ghost use Rattle.std.specs.List.{filter_map, range_with_len};
ghost use Rattle.std.specs.Option.{option_copied};
ghost use Rattle.ebpf_verdict.specs.Causes.{map_cause, slot_cause};
ghost use Rattle.ebpf_verdict.specs.Reasons.{cause_if_reached, cause_of, is_reached, reason_at, reasons_of};

use crate::cause::{Cause, map_cause, slot_cause};
use ebpf_base::Items;
use ebpf_load_info::KernelNumbers;
use ebpf_parts::insn::bpf_insn;
use std::alloc::{AllocError, Global};

/// The reason for which a finished program breaks on a kernel.
#[derive(Clone, Copy, Debug, PartialEq, Eq)]
pub struct SlotReason {
    /// The slot of the program.
    pub slot: usize,
    /// The cause for which it fails.
    pub cause: Cause,
}

/// The kernel and the maps by which the slots of an object's programs are judged.
#[derive(Drop)]
pub struct Numbers<'a> {
    /// The numbers of helpers and map types that the kernel knows.
    pub kernel: KernelNumbers<'a>,
    /// The types of the object's maps, in byte order of the maps' names.
    pub map_types: &'a [u32],
}

/// Whether a slot is reached.
fn is_reached(reached: &[bool], slot: usize) -> bool
    ensures { result ≡ is_reached reached.now slot }
{
    match reached.get(slot) {
        Some(flag) => *flag,
        None => false,
    }
}

/// The cause for which a slot fails, where it is reached.
fn cause_if_reached(numbers: &Numbers<'_>, is_reached: bool, slot: bpf_insn) -> Option<Cause>
    ensures { result ≡ cause_if_reached numbers.now.kernel is_reached slot }
{
    if is_reached {
        return slot_cause(&numbers.kernel, slot);
    }
    None
}

/// The cause for which a slot fails, where it is reached, or for which its map can't be made.
fn cause_of(numbers: &Numbers<'_>, is_reached: bool, slot: bpf_insn) -> Option<Cause>
    ensures { result ≡ cause_of numbers.now.kernel numbers.now.map_types.now is_reached slot }
{
    match map_cause(&numbers.kernel, numbers.map_types, slot) {
        Some(cause) => Some(cause),
        None => cause_if_reached(numbers, is_reached, slot),
    }
}

/// The reason of a slot.
fn reason_at(
    numbers: &Numbers<'_>,
    reached: &[bool],
    slots: &[bpf_insn],
    slot: usize,
) -> Option<SlotReason>
    ensures { result
        ≡ reason_at numbers.now.kernel numbers.now.map_types.now reached.now slots.now slot }
{
    let instruction = *slots.get(slot)?;
    let cause = cause_of(numbers, is_reached(reached, slot), instruction)?;
    Some(SlotReason { slot, cause })
}

/// The reasons of a program's slots, in their order.
#[tactic(auto, using(crate::proofs::Kept::one_kept, crate::proofs::Kept::none_kept))]
pub fn reasons_of(
    alloc: Global,
    numbers: &Numbers<'_>,
    reached: &[bool],
    slots: &[bpf_insn],
) -> Result<Items<SlotReason>, AllocError>
    ensures { IfOk result (λ reasons.
        reasons
        ≡ reasons_of numbers.now.kernel numbers.now.map_types.now reached.now slots.now) }
{
    let mut reasons = Items::new(alloc);
    for slot in 0..slots.len() {
        let Some(reason) = reason_at(numbers, reached, slots, slot) else {
            continue;
        };
        reasons.push(reason)?;
    }
    Ok(reasons)
}
