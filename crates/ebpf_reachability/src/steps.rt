//! To which slots a slot goes on, and what is known of the registers there.

ghost use Rattle.std.specs.Prelude.{◌≡◌, ◌+◌, ◌<◌, pos, length, IfSome, slice_get};
ghost use Rattle.std.specs.Option.{option_to_list};
ghost use Rattle.ebpf_linker.specs.Functions.{flow, is_branch};
ghost use Rattle.ebpf_reachability.specs.Effects.{decided};
ghost use Rattle.ebpf_reachability.specs.Steps.{next_index, callback, steps_at, steps_by_flow, target_index, steps_to, ways};
ghost use Rattle.ebpf_reachability.specs.PrivateContracts.{AreWithin, pair_to_list};

use crate::effects::{after, decided, wide_load_result};
use crate::registers::Registers;
use ebpf_parts::insn::bpf_insn;
use ebpf_parts::insn::opcodes::{BPF_PSEUDO_FUNC, EXIT, JA, JA32, JMP, JMP32, LD_IMM64};

/// A slot that is reached, and what is known of the registers there.
#[derive(Clone, Copy)]
pub struct SlotState {
    pub place: usize,
    pub registers: Registers,
}

/// The step to a place, if the program has it.
pub fn step_to(slots: &[bpf_insn], place: usize, registers: Registers) -> Option<SlotState>
    ensures steps_to { option_to_list result ≡ steps_to slots.now (pos place) registers }
    ensures within { IfSome result (λ step. step.place < length slots.now) }
{
    if place < slots.len() {
        Some(SlotState { place, registers })
    } else {
        None
    }
}

/// The step to the place so many slots behind the next one.
fn step_further(
    slots: &[bpf_insn],
    place: usize,
    by: i32,
    registers: Registers,
) -> Option<SlotState>
    requires { place < length slots.now }
    ensures steps_to { option_to_list result
        ≡ steps_to slots.now (target_index place by) registers }
    ensures within { IfSome result (λ step. step.place < length slots.now) }
{
    match (place + 1).checked_add_signed(by as isize) {
        Some(to) => step_to(slots, to, registers),
        None => None,
    }
}

/// The steps from a conditional jump.
fn ways(
    slots: &[bpf_insn],
    place: usize,
    slot: bpf_insn,
    registers: Registers,
) -> (Option<SlotState>, Option<SlotState>)
    requires { place < length slots.now }
    ensures ways { pair_to_list result
        ≡ ways (decided slot registers) (steps_to slots.now (next_index place) registers)
        (steps_to slots.now (target_index place slot.off) registers) }
    ensures within { AreWithin slots.now result }
{
    let here = step_to(slots, place + 1, registers);
    let there = step_further(slots, place, i32::from(slot.off), registers);
    match decided(slot, &registers) {
        None => (here, there),
        Some(true) => (None, there),
        Some(false) => (here, None),
    }
}

/// The step to the first slot of a callback, where a wide load has its address.
fn callback(slots: &[bpf_insn], place: usize, slot: bpf_insn) -> Option<SlotState>
    requires { place < length slots.now }
    ensures steps_to { option_to_list result ≡ callback slots.now place slot }
    ensures within { IfSome result (λ step. step.place < length slots.now) }
{
    if slot.src_reg() != BPF_PSEUDO_FUNC {
        return None;
    }
    step_further(slots, place, slot.imm, Registers::unknown())
}

/// Whether a code is a jump that a condition decides.
fn is_branch(code: u8) -> bool
    ensures { result ≡ is_branch code }
{
    (code % 8 == JMP || code % 8 == JMP32) && code / 16 != 0 && code / 16 != 8 && code / 16 != 9
}

/// The steps from a slot that stands at a place.
fn steps_of(
    slots: &[bpf_insn],
    place: usize,
    slot: bpf_insn,
    registers: Registers,
) -> (Option<SlotState>, Option<SlotState>)
    requires { place < length slots.now }
    ensures steps { pair_to_list result ≡ steps_by_flow slots.now place slot registers (flow slot) }
    ensures within { AreWithin slots.now result }
{
    if slot.code == EXIT {
        return (None, None);
    }
    if slot.is_pseudo_call() {
        return (
            step_to(slots, place + 1, registers.called()),
            step_further(slots, place, slot.imm, Registers::unknown()),
        );
    }
    if slot.code == LD_IMM64 {
        let known = registers.learned(slot.dst_reg(), wide_load_result(slots, place, slot));
        return (
            step_to(slots, place + 2, known),
            callback(slots, place, slot),
        );
    }
    if slot.code == JA {
        return (
            None,
            step_further(slots, place, i32::from(slot.off), registers),
        );
    }
    if slot.code == JA32 {
        return (None, step_further(slots, place, slot.imm, registers));
    }
    if is_branch(slot.code) {
        return ways(slots, place, slot, registers);
    }
    (None, step_to(slots, place + 1, after(slot, registers)))
}

/// The steps from a slot, but for those of an indirect jump to any slot. There are two at most.
pub fn steps_from(
    slots: &[bpf_insn],
    place: usize,
    registers: Registers,
) -> (Option<SlotState>, Option<SlotState>)
    requires { place < length slots.now }
    ensures steps { pair_to_list result
        ≡ steps_at slots.now place registers (slice_get slots.now place) }
    ensures within { AreWithin slots.now result }
{
    steps_of(slots, place, slots[place], registers)
}
