//! The further rules of libbpf on BTF-defined maps: the numbers of pinnings, and the arena with its data.
#![tactic(auto)]

mod arena;
mod complete;
mod error;
pub mod laws;
mod pinning;

pub use arena::{Arena, arena_of};
pub use complete::complete_maps;
pub use error::BtfMapError;
