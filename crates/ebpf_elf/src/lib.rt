//! Reads ELF64 object files in either byte order (ELF-64 gABI).
//!
//! The crate allocates nothing: names and data are slices of the input.
#![tactic(auto)]

pub mod constants;
mod error;
mod file;
mod header;
mod relocation;
mod section;
mod string;
mod symbol;

pub use error::ElfReadError;
pub use file::ElfFile;
pub use relocation::{
    ElfRelocation, ElfRelocationSection, EntryExtent, RelocationEntries, RelocationSections,
    Relocations,
};
pub use section::{ElfSection, SectionIndex, Sections};
pub use symbol::{ElfSymbol, SymbolKind, Symbols};
