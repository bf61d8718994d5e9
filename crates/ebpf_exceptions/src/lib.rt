//! The exception callbacks of an object's programs.
#![tactic(auto)]

mod callbacks;
mod complete;
mod error;
mod functions;
pub mod laws;
mod tags;

pub use complete::complete_programs;
pub use error::ExceptionError;
