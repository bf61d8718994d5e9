//! Slots that carry the outcome of a record.

ghost use Rattle.std.specs.Prelude.{◌≡◌, ◌<◌, ◌≤◌, ⊤, MatchBool, [], length, Ok, Err, IfErr, IfOk, IfSome};
ghost use Rattle.ebpf_core.specs.Answers.{Tells, without_texts, is_record_memory};
ghost use Rattle.ebpf_core.specs.declared.error.RelocationError.TheVariants as errors;
ghost use Rattle.ebpf_core_relo.specs.PrivateContracts.{HasRoom, put_at};
ghost use Rattle.ebpf_core_relo.specs.Carried.{carrier_of, slot_with_value, patched_slot, patched_next_slot, high_half, low_half, may_resize, moved_code, poison, resized_code, code_for_target, size_bits, takes_next, with_offset, written};

use ebpf_base::Text;
use ebpf_core::{FieldClass, LoadedField, Outcome, RelocationError};
use ebpf_parts::insn::bpf_insn;
use ebpf_parts::insn::opcodes::{
    ALU, ALU64, BPF_B, BPF_DW, BPF_H, BPF_W, CALL, JMP, JMP32, LD, LD_IMM64, POISON_CALL,
};
use std::alloc::Global;

/// The greatest offset of a load or store.
const GREATEST_OFFSET: u64 = 32_767;

/// The part of a slot that carries a number.
#[derive(Clone, Copy)]
pub enum Carrier {
    /// The immediate of the slot.
    Immediate,
    /// The offset of the slot.
    Offset,
    /// The immediates of the slot and of the slot behind it.
    WideLoad,
    /// No part of the slot.
    Nothing,
}

/// The part of a slot that carries a number, by the class of the slot (RFC 9669, section 3.3).
fn carrier_of(slot: &bpf_insn) -> Carrier
    ensures { result ≡ carrier_of slot.now }
{
    match slot.code % 8 {
        LD => Carrier::WideLoad,
        ALU | ALU64 => Carrier::Immediate,
        JMP | JMP32 => Carrier::Nothing,
        _ => Carrier::Offset,
    }
}

/// The 32 low bits of a number.
fn low_half(number: u64) -> i32
    ensures { result ≡ low_half number }
{
    ((number % 0x1_0000_0000) as u32).cast_signed()
}

/// The 32 high bits of a number.
fn high_half(number: u64) -> i32
    ensures { result ≡ high_half number }
{
    ((number >> 32) as u32).cast_signed()
}

/// The bits of a load's or store's code for a number of bytes (RFC 9669, section 5.1).
fn size_bits(size: u32) -> Option<u8>
    ensures bits { result ≡ size_bits size }
    ensures small { IfSome result (λ bits. bits ≤ 24) }
{
    match size {
        8 => Some(BPF_DW),
        4 => Some(BPF_W),
        2 => Some(BPF_H),
        1 => Some(BPF_B),
        _ => None,
    }
}

/// A load's or store's code that moves a number of bytes.
fn resized_code(code: u8, size: u32) -> Option<u8>
    ensures { result ≡ resized_code code size }
{
    let bits = size_bits(size)?;
    Some(code / 32 * 32 + bits + code % 8)
}

/// Whether a load of the one may become a load of the other.
#[tactic(auto, unfolding(crate::specs::Carried::may_resize))]
fn may_resize(local: FieldClass, target: FieldClass) -> bool
    ensures { result ≡ may_resize local target }
{
    match (local, target) {
        (FieldClass::Pointer, FieldClass::Pointer) => true,
        (FieldClass::UnsignedInt, FieldClass::UnsignedInt) => true,
        _ => false,
    }
}

/// The code that moves the field that was found in place of the local one.
fn code_for_target(code: u8, local: LoadedField, target: LoadedField) -> Option<u8>
    ensures { result ≡ code_for_target code local target }
{
    if local.size == target.size {
        return Some(code);
    }
    if !may_resize(local.class, target.class) {
        return None;
    }
    resized_code(code, target.size)
}

/// The code that moves the field that was found in place of the local one; none where either has no size.
#[tactic(auto, unfolding(crate::specs::Carried::moved_code))]
fn moved_code(code: u8, local: Option<LoadedField>, target: Option<LoadedField>) -> Option<u8>
    ensures { result ≡ moved_code code local target }
{
    match (local, target) {
        (None, None) => Some(code),
        (Some(local), Some(target)) => code_for_target(code, local, target),
        _ => None,
    }
}

/// A load or store that carries a number in its offset.
fn with_offset(slot: bpf_insn, number: u64, outcome: &Outcome) -> Option<bpf_insn>
    ensures { result ≡ with_offset slot number outcome.now }
{
    if number > GREATEST_OFFSET {
        return None;
    }
    let code = moved_code(slot.code, outcome.local, outcome.target)?;
    Some(bpf_insn {
        code,
        off: number as i16,
        ..slot
    })
}

/// A slot that fails where it is executed.
fn poison() -> bpf_insn
    ensures { result ≡ poison }
{
    bpf_insn {
        code: CALL,
        regs: 0,
        off: 0,
        imm: POISON_CALL,
    }
}

/// A slot that carries a number, if it can.
#[tactic(auto, unfolding(crate::specs::Carried::slot_with_value))]
fn slot_with_value(slot: bpf_insn, number: u64, outcome: &Outcome) -> Option<bpf_insn>
    ensures { result ≡ slot_with_value (carrier_of slot) slot number outcome.now }
{
    match carrier_of(&slot) {
        Carrier::Immediate if slot.src_reg() != 0 => None,
        Carrier::Immediate | Carrier::WideLoad => Some(bpf_insn {
            imm: low_half(number),
            ..slot
        }),
        Carrier::Offset => with_offset(slot, number, outcome),
        Carrier::Nothing => None,
    }
}

/// A slot that carries an outcome, if it can.
fn patched_slot(slot: bpf_insn, outcome: &Outcome) -> Option<bpf_insn>
    ensures { result ≡ patched_slot outcome.now.value slot outcome.now }
{
    match outcome.value {
        Some(number) => slot_with_value(slot, number, outcome),
        None => Some(poison()),
    }
}

/// Whether the slot behind carries an outcome too.
fn takes_next(value: Option<u64>, slot: &bpf_insn) -> bool
    ensures { result ≡ takes_next value slot.now }
{
    match value {
        Some(_) => carrier_of(slot) == Carrier::WideLoad,
        None => slot.code == LD_IMM64,
    }
}

/// The slot behind one that carries an outcome, where the outcome takes both.
fn patched_next_slot(value: Option<u64>, next: bpf_insn) -> bpf_insn
    ensures { result ≡ patched_next_slot value next }
{
    match value {
        Some(number) => bpf_insn {
            imm: high_half(number),
            ..next
        },
        None => poison(),
    }
}

/// The error `InvalidInstructionIndex` of a slot that is missing.
fn missing_slot<X>(
    slots: &[bpf_insn],
    slot: usize,
    record_number: usize,
) -> Result<X, RelocationError>
    ensures { result ≡ Err (errors.InvalidInstructionIndex slot (length slots.now) record_number) }
{
    Err(RelocationError::InvalidInstructionIndex {
        index: slot,
        num_instructions: slots.len(),
        relocation_number: record_number,
    })
}

/// The error `InvalidInstruction` of a slot that can't carry a number.
fn no_carrier<X>(
    alloc: Global,
    slot: usize,
    record_number: usize,
    code: u8,
    number: u64,
) -> Result<X, RelocationError>
    ensures { Tells result (Err (errors.InvalidInstruction record_number slot [])) }
{
    let error = format!(in alloc; "code {code:#04x} can't carry {number}")?;
    Err(RelocationError::InvalidInstruction {
        relocation_number: record_number,
        index: slot,
        error: Text::from_string(error),
    })
}

/// The slot of a record with the record's outcome, and the slot behind it where the outcome takes both.
#[derive(Clone, Copy)]
pub struct PatchedSlots {
    pub slot: bpf_insn,
    pub next: Option<bpf_insn>,
}

/// Returns slot `at` of a function with the outcome of a record. Nothing is written.
///
/// # Errors
///
/// - `InvalidInstructionIndex`: the slot, or the second slot of a wide load, is missing.
/// - `InvalidInstruction`: the slot can't carry the number. It is one of these:
///   - A jump, or arithmetic with a source register.
///   - A load or store, where the number passes 32,767.
///   - A load or store of a field whose size differs between the two sides, where the kernel's field is not 1, 2, 4 or
///     8 bytes, or where a side is neither a pointer nor an unsigned integer.
/// - `OutOfMemory`: an allocation failed.
#[tactic(auto, unfolding(crate::specs::Carried::written))]
pub fn patched_slots(
    alloc: Global,
    slots: &[bpf_insn],
    at: usize,
    record_number: usize,
    outcome: &Outcome,
) -> Result<PatchedSlots, RelocationError>
    ensures slots { IfOk result (λ patched.
        written record_number slots.now at outcome.now ≡ Ok (put_at slots.now at patched)) }
    ensures there { IfOk result (λ patched.
        (at < length slots.now) × HasRoom slots.now at patched.next) }
    ensures fault { IfErr result (λ e.
        MatchBool (is_record_memory e) ⊤
        (written record_number slots.now at outcome.now ≡ Err (without_texts e))) }
{
    let Some(slot) = slots.get(at) else {
        return missing_slot(slots, at, record_number);
    };
    let Some(patched) = patched_slot(*slot, outcome) else {
        let number = outcome.value.unwrap_or(0);
        return no_carrier(alloc, at, record_number, slot.code, number);
    };
    if !takes_next(outcome.value, slot) {
        return Ok(PatchedSlots {
            slot: patched,
            next: None,
        });
    }
    let Some(next) = slots.get(at + 1) else {
        return missing_slot(slots, at + 1, record_number);
    };
    Ok(PatchedSlots {
        slot: patched,
        next: Some(patched_next_slot(outcome.value, *next)),
    })
}

/// Writes the outcome of a record to slot `at` of a function.
pub fn put_slots_at(slots: &mut [bpf_insn], at: usize, patched: PatchedSlots)
    requires slot { at < length slots.old }
    requires next { HasRoom slots.old at patched.next }
    ensures { slots.new ≡ put_at slots.old at patched }
{
    slots[at] = patched.slot;
    let Some(next) = patched.next else {
        return;
    };
    slots[at + 1] = next;
}
