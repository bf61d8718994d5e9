//! The linker of numbered functions: a program, followed by every function that its references reach.
#![tactic(auto)]

mod bases;
mod body;
mod copies;
mod functions;
mod layout;
pub mod link_map;
mod program;
mod records;
mod reference;
mod search;
pub mod slot;
mod soundness;
mod tables;

pub use body::{Body, LinkedProgram};
pub use functions::Functions;
pub use layout::ProgramLayout;
pub use reference::{Fault, Reference, Target};
pub use soundness::is_sound;
pub use tables::Tables;
