//! The verdict of a kernel on an object: which of its programs break there, and for which reasons.
#![tactic(auto)]

mod cause;
mod externs;
pub mod laws;
mod programs;
mod reasons;
mod targets;
mod verdict;
mod writing;

pub use cause::Cause;
pub use externs::LackingExtern;
pub use programs::{JudgedProgram, ProgramCode, ProgramVerdict};
pub use reasons::SlotReason;
pub use targets::{KernelTarget, find_target, kernel_target};
pub use verdict::{Verdict, judge};
