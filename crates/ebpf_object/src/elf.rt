//! ELF64 files.

pub use crate::queries::section_name;
pub use ebpf_elf::{
    ElfFile, ElfReadError, ElfRelocation, ElfRelocationSection, ElfSection, ElfSymbol, EntryExtent,
    RelocationEntries, RelocationSections, Relocations, SectionIndex, Sections, SymbolKind,
    Symbols,
};
