//! The extern declarations of an eBPF object in `.ksyms`, and its BTF-defined maps in sections as `.maps`.
#![tactic(auto)]

mod btf_defined_maps;
mod data_sections;
mod distinct_maps;
mod externs;
mod known_structs;
pub mod laws;
mod map_types;
mod members;
mod numbered_names;

pub use btf_defined_maps::{BtfDefinedMaps, parse_error};
pub use externs::{collect_externs, may_declare_externs};
