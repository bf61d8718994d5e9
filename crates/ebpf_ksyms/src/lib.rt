//! The externs of an eBPF object, found in a kernel: by its types, and by the addresses in its kallsyms.
#![tactic(auto)]

mod error;
mod extern_outcome;
mod externs;
mod ids;
pub mod laws;
mod lines;
mod named;
mod resolve;

pub use error::KsymsError;
pub use extern_outcome::{ExternOutcome, ExternResult, extern_outcomes, typed_outcomes};
pub use lines::TextLines;
pub use resolve::{SymbolSource, SymbolText, resolve_externs, resolve_lines, resolve_text};
