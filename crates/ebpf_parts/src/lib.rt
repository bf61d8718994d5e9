//! The parts of an eBPF object: slots, maps, kinds of sections and programs, and the errors of parsing.
#![tactic(auto)]

mod binding;
mod error;
pub mod insn;
pub mod laws;
pub mod maps;
mod parse_mode;
mod program_section;
pub mod programs;
mod section;
mod section_name;

pub use error::{ParseError, SymbolWords, Within};
pub use parse_mode::ParseMode;
pub use program_section::ProgramSection;
pub use section::{EbpfSectionKind, Relocation, Section};
