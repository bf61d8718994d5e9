//! Reports of the linked programs of an eBPF object.
#![tactic(auto)]

mod inspection;
mod report;

pub use inspection::{inspect, inspect_object};
pub use report::ProgramReport;
