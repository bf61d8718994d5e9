//! The contents of an ELF file with eBPF programs, read from its bytes.
#![tactic(auto)]

mod file_contents;
mod file_types;
pub mod laws;
mod maps;
mod object_tables;

pub use ebpf_model::Program;
pub use ebpf_sections::metadata::FileMetadata;
pub use file_contents::FileContents;
pub use object_tables::ObjectTables;
