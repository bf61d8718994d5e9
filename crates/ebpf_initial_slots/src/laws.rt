//! Theorems about initial values.

ghost use Rattle.ebpf_initial_slots.specs.InitialSlots.{LastSlotsStand};

/// Each index of a map holds the last of the slots that relocations put there, and nothing where they put none.
#[tactic(auto, using(crate::proofs::InitialSlots::last_slots_stand))]
pub fn last_slots_stand()
    ensures { LastSlotsStand }
{}
