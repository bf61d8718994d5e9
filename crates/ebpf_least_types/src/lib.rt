//! The least types of a kernel that the CO-RE relocations of objects ask for.
#![tactic(auto)]

mod error;
mod id_uses;
pub mod laws;
mod least;
mod marks;
mod matched_types;
mod members;
mod paths;
mod same_faults;
mod same_outcomes;
mod select;
mod whole_types;
mod writer;

pub use error::LeastTypesError;
pub use id_uses::{KernelIdUse, kernel_id_uses};
pub use least::{least_types, least_types_despite_ids};
