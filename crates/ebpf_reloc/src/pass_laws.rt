//! Laws of the passes.

ghost use Rattle.ebpf_reloc.specs.Maps.{OffsetsAddUp};
ghost use Rattle.ebpf_reloc.specs.Relocated.{PassesKeepShapes};
ghost use Rattle.ebpf_reloc.specs.SlotOutcomes.{EditsAsSaid, FirstRefusedOutcome};

/// The offset in a map's data that a slot is found with, slot by slot: where the slot before it is relocated to a map with
/// data, it is the immediate that this one is found with plus the address of its symbol, and else the slot's own. So the
/// addresses of slots in a row add up.
#[tactic(auto, using(crate::proofs::MapChains::offsets_add_up))]
pub fn offsets_add_up()
    ensures { OffsetsAddUp }
{}

/// A pass keeps all of a function but its slots, and as many of these.
#[tactic(auto, using(crate::proofs::Runs::shapes_stay))]
pub fn passes_keep_shapes()
    ensures { PassesKeepShapes }
{}

/// A pass refuses the functions exactly where an outcome of a relocation is a refusal, and then with the error of the first.
#[tactic(auto, using(crate::proofs::SlotOutcomes::first_refused))]
pub fn first_refused_outcome()
    ensures { FirstRefusedOutcome }
{}

/// A pass makes of each slot, as it is found, what the slot's outcome says, and nothing of a slot without an outcome.
#[tactic(auto, using(crate::proofs::SlotOutcomes::edits_as_said))]
pub fn edits_as_said()
    ensures { EditsAsSaid }
{}
