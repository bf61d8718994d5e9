//! The verdict of a kernel on an object as C reads it: its reasons as rows, and how many programs run.
#![tactic(auto)]

mod assumed;
pub mod checked;
pub mod laws;
mod object_reasons;
mod program_reasons;
mod reason;
mod slot_reasons;
mod summary;

pub use checked::{CheckedObject, check};
pub use reason::ebpf_reason;
pub use summary::ebpf_verdict_summary;
