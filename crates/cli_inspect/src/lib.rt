//! `ebpf inspect`: what an object's linked programs are made of.
#![tactic(auto)]

mod chain;
mod graphs;
mod json;
mod kernel_calls;
mod parts;
mod run;
mod text;
mod uses;

pub use run::{InspectWords, inspect};
