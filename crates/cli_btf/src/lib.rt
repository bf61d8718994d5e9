//! `ebpf btf`: the least types of kernels that the CO-RE relocations of objects ask for.
#![tactic(auto)]

mod json;
mod kernel_ids;
mod kernels;
mod least_file;
mod objects;
mod printing;
mod run;

pub use run::{BtfWords, btf};
