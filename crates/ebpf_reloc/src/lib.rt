//! Links the functions of an eBPF object by their keys.
#![tactic(auto)]

mod calls;
mod edit;
mod externs;
mod functions;
pub mod laws;
mod layout;
mod link_map;
mod linkable;
mod linking;
mod map_names;
mod maps;
mod named_slots;
mod numbered;
mod numbers;
pub mod pass_laws;
mod slot_outcomes;
mod slot_target;
mod slots;

pub use ebpf_model::{
    EbpfRelocationError, ExternDesc, Function, Relocation, RelocationError, Symbol,
};
pub use edit::{Edit, SlotFault};
pub use externs::relocate_externs;
pub use link_map::{CodeCopy, LinkMap, PlacedReference};
pub use linkable::Linkable;
pub use linking::{LinkedFunction, ProgramKey, number_functions, relocate_calls};
pub use map_names::MapNames;
pub use maps::relocate_maps;
pub use named_slots::{NamedSlot, maps_without_descriptors, unwritten_externs};
pub use numbered::NumberedFunctions;
pub use slot_outcomes::{SlotOutcome, extern_slot_outcomes, map_slot_outcomes};
