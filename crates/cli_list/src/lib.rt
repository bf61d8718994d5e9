//! `ebpf list`: what an object has.
#![tactic(auto)]

mod arena;
mod json;
mod layout;
mod listing;
mod page;
mod records;
mod run;
mod struct_ops;
mod tables;
mod text;
mod users;

pub use run::{ListWords, list};
