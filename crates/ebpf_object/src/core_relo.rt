//! Relocating slots to another kernel's types, and why it can refuse; what one relocation by types asks, and what comes
//! out.

pub use ebpf_btf_ext::{Relocation, RelocationKind};
pub use ebpf_core::{
    CoreSearch, FieldClass, FieldPlace, LoadedField, LocalPath, NamedPath, Outcome, PlaceEnd, Step,
    local_path, outcome_among,
};
pub use ebpf_core_relo::{
    Absence, BtfRelocationError, RecordOutcome, RecordOutcomes, RecordResult, RecordSlot,
    RelocationError,
};
