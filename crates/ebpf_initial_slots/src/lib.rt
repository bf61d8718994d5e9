//! The initial values of maps of maps and of arrays of programs: the maps and programs that they hold before anything
//! runs.
#![tactic(auto)]

mod error;
pub mod laws;
mod slots;
mod target;
mod variables;

pub use error::InitialSlotError;
pub use slots::{InitialSlot, initial_slots};
pub use target::InitialTarget;
