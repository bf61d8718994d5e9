//! The calls of functions, which are found once before anything is linked.

ghost use Rattle.std.specs.Prelude.{◌≡◌, ◌+◌, ◌*◌, ◌++◌, [], length, map, IfOk, OnOk};
ghost use Rattle.std.specs.FinMap.{get};
ghost use Rattle.ebpf_reloc.specs.PrivateContracts.{numbered_target, calls_of, calls_of_slots, calls_from, with_call};
ghost use Rattle.ebpf_model.specs.Walks.{walked_relocations, IsBefore};
ghost use Rattle.ebpf_reloc.specs.SlotTargets.{slot_target_of, relocation_of, read};
ghost use Rattle.std.specs.List.Sorted.{IsStrictlySortedBy};
ghost use Rattle.ebpf_base.specs.Maps.{key_cmp};

use crate::linkable::Linkable;
use crate::numbers::KeyNumbers;
use crate::slot_target::{SlotTarget, callback_target, own_target, relocated_target};
use ebpf_linker::{Fault, Reference, Target};
use ebpf_model::{Function, Walk};
use ebpf_parts::Relocation;
use ebpf_parts::insn::bpf_insn;
use std::alloc::{AllocError, Global};

/// What a slot of a function refers to, by its relocation where that is usable, else by itself.
fn slot_target_of(
    parts: &Linkable<'_>,
    function: &Function,
    slot: usize,
    instruction: bpf_insn,
    relocation: Option<Relocation>,
) -> SlotTarget
    requires { relocation ≡ relocation_of (read parts.now) function.now slot }
    ensures { result ≡ slot_target_of (read parts.now) function.now slot instruction }
{
    match relocated_target(parts, instruction.imm, relocation) {
        Some(slot_target) => slot_target,
        None => own_target(function, slot, instruction),
    }
}

/// The target of a slot of the function with this number, by what it refers to.
fn numbered_target(
    numbers: &KeyNumbers<'_>,
    caller: usize,
    slot_target: SlotTarget,
) -> Option<Target>
    ensures { result ≡ numbered_target numbers.now.keys.now caller slot_target }
{
    let (section, address) = match slot_target {
        SlotTarget::Absent => return None,
        SlotTarget::Unsupported(index) => {
            return Some(Target::Nowhere(Fault::UnsupportedTextSymbol { index }));
        }
        SlotTarget::At(section, address) => (section, address),
    };
    match numbers.number_of(section, address) {
        Some(number) => Some(Target::Function(number)),
        None => Some(Target::Nowhere(Fault::UnknownFunction { address, caller })),
    }
}

/// How many slots call a function of the program, so that a list of these calls takes its memory once.
fn count_calls(slots: &[bpf_insn]) -> usize {
    slots.iter().filter(|slot| slot.is_pseudo_call()).count()
}

/// The calls of the slots of the function with this number, in order. The walk, which has not passed the function, goes
/// on to its last slot.
#[tactic(auto, using(crate::proofs::CallsRefer::call_here, crate::proofs::CallsRefer::no_call_here, crate::proofs::CallsRefer::calls_end, crate::proofs::CallsRefer::next_slot))]
fn calls_of_slots(
    alloc: Global,
    parts: &Linkable<'_>,
    numbers: &KeyNumbers<'_>,
    walk: &mut Walk<'_>,
    caller: usize,
    function: &Function,
) -> Result<Vec<Reference>, AllocError>
    requires section_relocations { walked_relocations walk.old
        ≡ get (read parts.now).relocations function.now.section_index.0 }
    requires before { IsBefore walk.old function.now.section_offset }
    ensures calls { IfOk result (λ calls.
        calls.items ≡ calls_of_slots (read parts.now) numbers.now.keys.now caller function.now) }
    ensures others { walk.new ≡ record walk.old { next = walk.new.next; ahead = walk.new.ahead } }
    ensures before { OnOk result
        (IsBefore walk.new
        (function.now.section_offset + 8 * length function.now.instructions)) }
{
    let slots = function.instructions.as_slice();
    let mut calls = Vec::with_capacity(alloc, count_calls(slots))?;
    for slot in 0..slots.len() {
        let relocation = walk.relocation_of(function, slot);
        let slot_target = slot_target_of(parts, function, slot, slots[slot], relocation);
        let Some(target) = numbered_target(numbers, caller, slot_target) else {
            continue;
        };
        calls.push(Reference { slot, target })?;
    }
    Ok(calls)
}

/// Adds the call of a target, if there is one.
fn add_call(
    calls: &mut Vec<Reference>,
    slot: usize,
    target: Option<Target>,
) -> Result<(), AllocError>
    ensures { OnOk result (calls.new.items ≡ calls.old.items ++ with_call slot target []) }
{
    let Some(target) = target else {
        return Ok(());
    };
    calls.push(Reference { slot, target })?;
    Ok(())
}

/// The calls of the function with this number, in the order of its slots, and behind its last slot that of its exception
/// callback. The walk, which has not passed the function, goes on to its last slot.
fn calls_of(
    alloc: Global,
    parts: &Linkable<'_>,
    numbers: &KeyNumbers<'_>,
    walk: &mut Walk<'_>,
    caller: usize,
    function: &Function,
) -> Result<Vec<Reference>, AllocError>
    requires section_relocations { walked_relocations walk.old
        ≡ get (read parts.now).relocations function.now.section_index.0 }
    requires before { IsBefore walk.old function.now.section_offset }
    ensures calls { IfOk result (λ calls.
        calls.items ≡ calls_of (read parts.now) numbers.now.keys.now caller function.now) }
    ensures others { walk.new ≡ record walk.old { next = walk.new.next; ahead = walk.new.ahead } }
    ensures before { OnOk result
        (IsBefore walk.new
        (function.now.section_offset + 8 * length function.now.instructions)) }
{
    let mut calls = calls_of_slots(alloc, parts, numbers, walk, caller, function)?;
    let callback = numbered_target(numbers, caller, callback_target(parts, function));
    add_call(&mut calls, function.instructions.len(), callback)?;
    Ok(calls)
}

/// The calls of each function, which are numbered from 0 on.
#[tactic(auto, using(crate::proofs::CallsRefer::function_here, crate::proofs::CallsRefer::functions_end))]
pub fn all_calls(
    alloc: Global,
    parts: &Linkable<'_>,
    keys: &[(usize, u64)],
    functions: &[&Function],
) -> Result<Vec<Vec<Reference>>, AllocError>
    requires { IsStrictlySortedBy key_cmp keys.now }
    ensures { IfOk result (λ calls.
        map (λ v. v.items) calls.items
        ≡ calls_from (read parts.now) keys.now 0 (map (λ f. f.now) functions.now)) }
{
    let numbers = KeyNumbers::new(keys);
    let mut calls = Vec::with_capacity(alloc, functions.len())?;
    let mut walk = Walk::new(parts.relocations);
    for number in 0..functions.len() {
        let function = functions[number];
        walk.go_to(parts.relocations, function);
        calls.push(calls_of(alloc, parts, &numbers, &mut walk, number, function)?)?;
    }
    Ok(calls)
}
