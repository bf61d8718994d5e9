//! The maps of struct_ops of an object as C reads them: rows of maps and of their programs, values, and numbers of refusals.
#![tactic(auto)]

mod found;
mod refusals;
mod rows;

pub use found::{map_rows, program_rows, value_bytes};
pub use rows::{ebpf_struct_ops_map, ebpf_struct_ops_program};
