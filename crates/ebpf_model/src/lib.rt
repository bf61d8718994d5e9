//! The types that an object's parts are: functions, symbols, externs, programs, what relocation of slots refuses, and a
//! walk over the relocations.
#![tactic(auto)]

mod error;
mod function;
mod symbol;
mod walk;

pub use ebpf_parts::Relocation;
pub use error::{EbpfRelocationError, RelocationError};
pub use function::{Function, Program};
pub use symbol::{ExternDesc, Symbol};
pub use walk::Walk;
