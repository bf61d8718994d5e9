//! Texts, lists, finite maps and numbers in either byte order, and the definitions about faults.
//!
//! Each kind of key has a map type of its own: a model cannot use the members of a type parameter, such as its order.
#![tactic(auto)]

mod by_index;
mod by_key;
mod by_name;
mod by_number;
mod endianness;
mod items;
pub mod numbers;
mod text;

pub use by_index::ByIndex;
pub use by_key::ByKey;
pub use by_name::ByName;
pub use by_number::{ByNumber, ByOffset, BySection};
pub use endianness::Endianness;
pub use items::Items;
pub use text::Text;
