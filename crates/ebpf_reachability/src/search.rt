//! The search for the slots that are reached.

ghost use Rattle.std.specs.Prelude.{◌≡◌, ◌<◌, [], ◌∷◌, ◌++◌, length, vec_len, IfOk, IfSome, None, OnOk, Some, replicate, slice_get, slice_set};
ghost use Rattle.std.specs.Option.{option_to_list};
ghost use Rattle.ebpf_reachability.specs.Reached.{AreReached, IsLeast, reached, state_at, Searched, TakesIn, steps_if_reached};
ghost use Rattle.ebpf_reachability.specs.Steps.{first_slots, jumps_anywhere, steps, steps_at};

use crate::operations::INDIRECT_JUMP;
use crate::registers::Registers;
use crate::steps::{SlotState, step_to, steps_from};
use ebpf_base::Items;
use ebpf_parts::insn::bpf_insn;
use std::alloc::{AllocError, Global};

/// A search under way.
#[derive(Drop)]
struct Search {
    /// What is known so far of the registers at each slot that was reached.
    states: Vec<Option<Registers>>,
    /// The slots that are to be followed, since what is known there has changed.
    pending: Vec<usize>,
}

impl Search {
    /// Writes what is known at a slot, which is to be followed then.
    fn put(&mut self, place: usize, registers: Registers) -> Result<(), AllocError>
        requires { place < vec_len self.old.states }
        ensures states { OnOk result
            (self.new.states.items ≡ slice_set self.old.states.items place (Some registers)) }
        ensures pending { OnOk result
            (self.new.pending.items ≡ self.old.pending.items ++ place ∷ []) }
    {
        self.states[place] = Some(registers);
        self.pending.push(place)?;
        Ok(())
    }

    /// Reaches a slot once more. Where that forgets a number, the slot is to be followed once more.
    fn join_state(&mut self, step: SlotState, before: Registers) -> Result<(), AllocError>
        requires within { step.place < vec_len self.old.states }
        requires before { state_at self.old.states.items step.place ≡ Some before }
        ensures { OnOk result
            (TakesIn (step ∷ []) self.old.states.items self.new.states.items
            self.old.pending.items self.new.pending.items) }
    {
        let registers = before.least_upper_bound(&step.registers);
        if registers == before {
            return Ok(());
        }
        self.put(step.place, registers)
    }

    /// Reaches a slot with what is known of the registers.
    fn reach(&mut self, step: SlotState) -> Result<(), AllocError>
        requires { step.place < vec_len self.old.states }
        ensures { OnOk result
            (TakesIn (step ∷ []) self.old.states.items self.new.states.items
            self.old.pending.items self.new.pending.items) }
    {
        match self.states[step.place] {
            None => self.put(step.place, step.registers),
            Some(before) => self.join_state(step, before),
        }
    }

    /// Takes a step, if there is one.
    fn take(&mut self, step: Option<SlotState>) -> Result<(), AllocError>
        requires { IfSome step (λ step. step.place < vec_len self.old.states) }
        ensures { OnOk result
            (TakesIn (option_to_list step) self.old.states.items self.new.states.items
            self.old.pending.items self.new.pending.items) }
    {
        match step {
            Some(step) => self.reach(step),
            None => Ok(()),
        }
    }

    /// Takes the steps from a slot, but for those of an indirect jump to any slot.
    fn take_ways(
        &mut self,
        slots: &[bpf_insn],
        place: usize,
        registers: Registers,
    ) -> Result<(), AllocError>
        requires within { place < length slots.now }
        requires as_many { vec_len self.old.states ≡ length slots.now }
        ensures { OnOk result
            (TakesIn (steps_at slots.now place registers (slice_get slots.now place))
            self.old.states.items self.new.states.items self.old.pending.items
            self.new.pending.items) }
    {
        let (first, second) = steps_from(slots, place, registers);
        self.take(first)?;
        self.take(second)
    }

    /// Reaches every slot with nothing known of the registers.
    #[tactic(auto, using(crate::proofs::Visiting::none_taken))]
    fn reach_all(&mut self, count: usize) -> Result<(), AllocError>
        requires { vec_len self.old.states ≡ count }
        ensures { OnOk result
            (TakesIn (first_slots count) self.old.states.items self.new.states.items
            self.old.pending.items self.new.pending.items) }
    {
        for place in 0..count {
            self.reach(SlotState {
                place,
                registers: Registers::unknown(),
            })?;
        }
        Ok(())
    }

    /// Takes the steps of an indirect jump to any slot, if the slot is one.
    #[tactic(auto, using(crate::proofs::Visiting::none_taken))]
    fn take_targets(&mut self, slots: &[bpf_insn], place: usize) -> Result<(), AllocError>
        requires within { place < length slots.now }
        requires as_many { vec_len self.old.states ≡ length slots.now }
        ensures { OnOk result
            (TakesIn (jumps_anywhere slots.now (slice_get slots.now place))
            self.old.states.items self.new.states.items self.old.pending.items
            self.new.pending.items) }
    {
        if slots[place].code != INDIRECT_JUMP {
            return Ok(());
        }
        self.reach_all(slots.len())
    }

    /// Takes the steps from a slot, of which so much is known.
    fn take_steps(
        &mut self,
        slots: &[bpf_insn],
        place: usize,
        registers: Registers,
    ) -> Result<(), AllocError>
        requires within { place < length slots.now }
        requires as_many { vec_len self.old.states ≡ length slots.now }
        ensures { OnOk result
            (TakesIn (steps slots.now place registers) self.old.states.items
            self.new.states.items self.old.pending.items self.new.pending.items) }
    {
        self.take_ways(slots, place, registers)?;
        self.take_targets(slots, place)
    }

    /// Takes the steps from a slot, if it was reached.
    fn follow(&mut self, slots: &[bpf_insn], place: usize) -> Result<(), AllocError>
        requires { vec_len self.old.states ≡ length slots.now }
        ensures { OnOk result
            (TakesIn (steps_if_reached slots.now place (state_at self.old.states.items place))
            self.old.states.items self.new.states.items self.old.pending.items
            self.new.pending.items) }
    {
        let Some(Some(registers)) = self.states.get(place) else {
            return Ok(());
        };
        let registers = *registers;
        self.take_steps(slots, place, registers)
    }
}

/// So many slots, none of them reached.
fn unreached(alloc: Global, count: usize) -> Result<Vec<Option<Registers>>, AllocError>
    ensures { IfOk result (λ states. states.items ≡ replicate count None) }
{
    let mut states = Vec::with_capacity(alloc, count)?;
    for _ in 0..count {
        states.push(None)?;
    }
    Ok(states)
}

/// The search behind its first step: the first slot is reached with nothing known of the registers.
fn begun(alloc: Global, slots: &[bpf_insn]) -> Result<Search, AllocError>
    ensures { IfOk result (λ search. Searched slots.now search.states.items search.pending.items) }
{
    let mut search = Search {
        states: unreached(alloc, slots.len())?,
        pending: Vec::new(alloc),
    };
    search.take(step_to(slots, 0, Registers::unknown()))?;
    Ok(search)
}

/// What is known of the registers at each slot that is reached. Slots are followed until none is left.
fn searched(alloc: Global, slots: &[bpf_insn]) -> Result<Vec<Option<Registers>>, AllocError>
    ensures { IfOk result (λ states. IsLeast slots.now states.items) }
{
    let mut search = begun(alloc, slots)?;
    while let Some(place) = search.pending.pop() {
        search.follow(slots, place)?;
    }
    Ok(search.states)
}

/// Whether each slot is reached.
fn flags(alloc: Global, states: &[Option<Registers>]) -> Result<Vec<bool>, AllocError>
    ensures { IfOk result (λ flags. flags.items ≡ reached states.now) }
{
    states.iter().map(|state| state.is_some()).collect(alloc)
}

/// Which slots of a finished program, linked and relocated, can be reached from its first one: for each slot whether it
/// is. A jump whose test is decided by numbers that registers are known to hold goes one way, any other both. An indirect
/// jump reaches every slot. A slot that a CO-RE relocation poisoned is walked past. No clause states the time: a slot is
/// followed when it is reached, and again only when one of its eleven registers is forgotten.
///
/// # Errors
///
/// Out of memory.
pub fn reached_slots(alloc: Global, slots: &[bpf_insn]) -> Result<Items<bool>, AllocError>
    ensures { IfOk result (λ flags. AreReached slots.now flags) }
{
    let states = searched(alloc, slots)?;
    Ok(Items::from_vec(flags(alloc, states.as_slice())?))
}
