//! The maps of struct_ops: the variables of an object that declare them, their values by a kernel's types, and the
//! programs that stand at their members.
#![tactic(auto)]

mod bare;
mod created;
mod error;
mod faults;
mod kernel;
mod maps;
mod placement;
mod places;
mod relocations;
mod sections;
mod type_facts;
mod uses;
mod value;
mod variable;
mod variables;

pub use created::struct_ops_maps;
pub use error::StructOpsError;
pub use faults::{MemberFault, RelocationFault, VariableFault};
pub use maps::{StructOpsMap, StructOpsProgram, struct_ops_map};
pub use uses::check_uses;
pub use variable::{StructOpsMember, StructOpsVariable};
pub use variables::struct_ops_variables;
