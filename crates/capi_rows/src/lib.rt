//! C structs of an object's parts, numbers of refusals, and lists and texts in the caller's buffers.
#![tactic(auto)]

pub mod btf_maps;
pub mod buffers;
pub mod codes;
pub mod entries;
pub mod faults;
pub mod info;
pub mod laws;
pub mod least;
pub mod loading;
pub mod map_slots;
pub mod maps;
pub mod programs;
pub mod reads;
pub mod record_rows;
pub mod refusal;
pub mod refusals;
pub mod variables;
pub mod wanted;
