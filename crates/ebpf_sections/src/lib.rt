//! The contents of the sections of an ELF file with eBPF programs: symbols, relocations, info entries, functions, license
//! and version.
#![tactic(auto)]

pub mod info_records;
pub mod license;
pub mod metadata;
pub mod programs;
pub mod relocations;
pub mod section_records;
pub mod sections;
pub mod symbols;
pub mod text;
