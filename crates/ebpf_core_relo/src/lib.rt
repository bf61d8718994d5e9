//! CO-RE relocations, written into the slots of functions.
#![tactic(auto)]

mod absence;
mod applied;
mod carried;
mod error;
pub mod laws;
mod outcomes;
mod record_search;
mod relocate;
mod spans;
mod walk;

pub use absence::Absence;
pub use ebpf_core::RelocationError;
pub use error::BtfRelocationError;
pub use outcomes::{
    RecordOutcome, RecordOutcomes, RecordResult, RecordSlot, record_outcomes,
    relocate_with_outcomes,
};
pub use relocate::{put_slots, relocate_slots};
