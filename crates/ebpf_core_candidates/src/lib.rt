//! Finds the types of a kernel that match a type of an object: the candidates by name, and whether two types are compatible
//! (CO-RE; the kernel's tools/lib/bpf/relo_core.c).
#![tactic(auto)]

mod compatible;
mod kinds;
pub mod laws;
pub mod marks;
mod match_tests;
mod type_index;
mod type_match;
mod type_names;
mod type_row;

pub use compatible::{fields_are_compatible, types_are_compatible};
pub use match_tests::{NamedPart, part_at, part_count};
pub use type_index::{KindsIndex, TypeIndex};
pub use type_match::types_match;
