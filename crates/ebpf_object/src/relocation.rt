//! Relocation, and why it can refuse; what linked programs are made of.

pub use crate::link_map::ProgramMaps;
pub use crate::relocate_calls::{programs_in_order, take_places};
pub use ebpf_model::{EbpfRelocationError, RelocationError};
pub use ebpf_reloc::{
    CodeCopy, LinkMap, LinkedFunction, NamedSlot, NumberedFunctions, PlacedReference, ProgramKey,
};
