//! What one CO-RE relocation asks of a kernel's types, and what they answer.
//!
//! A relocation names a type of the object and, by an access string, a field or a variant of it. It is looked for in
//! each type of the kernel that has the same kind and name, and all that are found have to agree.
#![tactic(auto)]

mod error;
mod field;
pub mod laws;
mod local_walk;
mod matches;
mod member_search;
mod outcome;
mod paths;
pub mod place_laws;
mod place_walk;
mod places;
mod search;

pub use error::RelocationError;
pub use field::{FieldClass, LoadedField};
pub use member_search::{FoundMember, find_member};
pub use outcome::{Outcome, outcome_among};
pub use paths::{LocalPath, NamedPath, local_path};
pub use place_walk::place_in;
pub use places::{
    FieldPlace, PlaceEnd, PlaceFault, Step, checked_place, element_place, is_last_of,
};
pub use search::{CoreSearch, Question, question_of};
