//! Which slots of a finished program can be reached, where registers that hold known numbers decide jumps.
#![tactic(auto)]

mod arithmetic;
mod effects;
pub mod laws;
mod operations;
mod registers;
mod search;
mod steps;

pub use search::reached_slots;
