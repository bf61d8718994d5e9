//! Objects that own at most a stated number of bytes; a file of which more would be made is refused.
#![tactic(auto)]

mod facts;
pub mod laws;
mod limits;
mod readable;
mod sizes;
mod symbols;

pub use limits::{Limits, parse_within};
