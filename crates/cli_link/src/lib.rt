//! `ebpf link`: the finished programs of an object, as instructions or as bytes.
#![tactic(auto)]

mod bytes;
mod instructions;
mod linked;
mod names;
mod notes;
mod origins;
mod record_words;
mod run;

pub use run::{LinkWords, link};
