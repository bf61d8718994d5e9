//! Programs that are left out of an object before its passes.
#![tactic(auto)]

mod chosen;
mod error;
mod externs;
mod keys;
pub mod laws;
mod programs;
mod reached;
mod relocations;
mod search;

pub use chosen::leave_out;
pub use error::LeaveOutError;
