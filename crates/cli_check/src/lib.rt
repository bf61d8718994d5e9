//! `ebpf check`: the kernels on which each program of an object breaks.
#![tactic(auto)]

mod json;
mod kernel_files;
mod matrix;
mod matrix_files;
mod printing;
mod run;
mod session;
mod verdict;

pub use run::{CheckWords, check};
