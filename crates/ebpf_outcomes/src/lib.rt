//! The outcomes of the passes over an object: of relocations, of maps and externs in slots, and of linking.
#![tactic(auto)]

pub mod laws;
mod linking;
mod outcomes;
mod slot_outcomes;
mod slot_passes;

pub use ebpf_reloc::{Edit, SlotFault, SlotOutcome};
pub use linking::{CallOutcome, call_outcomes};
pub use outcomes::{PreparedWithOutcomes, prepare_with_outcomes};
pub use slot_outcomes::{
    MapOutcome, extern_outcomes, extern_outcomes_with, map_outcomes, map_outcomes_with,
};
pub use slot_passes::AskedOutcomes;
