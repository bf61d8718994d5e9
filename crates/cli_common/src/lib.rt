//! Shared parts of the commands of `ebpf`: files, vmlinux BTF, names, tables, source lines, refusals.
#![tactic(auto)]

pub mod compressed;
pub mod embedded;
pub mod folders;
pub mod helper_calls;
pub mod json;
pub mod kconfig_externs;
pub mod kinds;
pub mod labels;
mod machines;
pub mod map_uses;
pub mod names;
pub mod object_file;
mod parse_help;
pub mod pass_names;
pub mod programs;
pub mod record_names;
pub mod refusal;
pub mod refuse;
pub mod slot_text;
pub mod source_lines;
pub mod table;
pub mod types;
pub mod unknown_externs;
pub mod variants;
pub mod visible;
pub mod vmlinux_btf;
