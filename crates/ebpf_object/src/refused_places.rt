//! Where a file has what parsing refuses, for errors that tell no place.

use ebpf_elf::{ElfFile, ElfRelocationSection, ElfSection, ElfSymbol, SymbolKind};
use ebpf_parts::EbpfSectionKind;
use ebpf_parts::insn::bpf_insn;

/// Whether a section is read in its turn by index: type information is read by name, before.
fn is_read_by_number(file: &ElfFile<'_>, number: usize) -> bool {
    let Some(section) = file.section_at(number) else {
        return false;
    };
    match section.name() {
        Ok(name) => name != ".BTF" && name != ".BTF.ext",
        Err(_) => true,
    }
}

/// Whether a relocation among these names no symbol.
fn lacks_symbol(table: &ElfRelocationSection<'_>) -> bool {
    for relocation in table.relocations() {
        if relocation.symbol_index == 0 {
            return true;
        }
    }
    false
}

/// The index of the first section of a name, where a relocation of it names no symbol.
fn lacking_of_name(file: &ElfFile<'_>, name: &str) -> Option<usize> {
    let number = file.section_by_name(name)?.index().0;
    for table in file.relocation_sections() {
        if table.target() == number && lacks_symbol(&table) {
            return Some(number);
        }
    }
    None
}

/// The index of the first section with such a relocation among those that are read by name. `.BTF.ext` is read only where
/// there is a section `.BTF`.
fn lacking_by_name(file: &ElfFile<'_>) -> Option<usize> {
    for name in ["license", "version", ".BTF"] {
        if let Some(number) = lacking_of_name(file, name) {
            return Some(number);
        }
    }
    file.section_by_name(".BTF")?;
    lacking_of_name(file, ".BTF.ext")
}

/// The least index of a section with such a relocation among those that are read by index.
fn lacking_by_number(file: &ElfFile<'_>) -> Option<usize> {
    let mut first = None;
    for table in file.relocation_sections() {
        let number = table.target();
        if first.is_none_or(|known| number < known)
            && lacks_symbol(&table)
            && is_read_by_number(file, number)
        {
            first = Some(number);
        }
    }
    first
}

/// The index of the first section, in the order of parsing, of which a relocation names no symbol.
pub fn section_without_symbol(file: &[u8]) -> Option<usize> {
    let file = ElfFile::parse(file).ok()?;
    match lacking_by_name(&file) {
        Some(number) => Some(number),
        None => lacking_by_number(&file),
    }
}

/// Whether a symbol is a function's in a section.
fn is_function_of(symbol: &ElfSymbol<'_>, section: usize) -> bool {
    symbol.section_index() == Some(section) && matches!(symbol.kind(), SymbolKind::Text)
}

/// Whether a symbol has a name that is not empty.
fn has_name(symbol: &ElfSymbol<'_>) -> bool {
    match symbol.name() {
        Ok(name) => !name.is_empty(),
        Err(_) => false,
    }
}

/// The first program of a Program section, by symbol, that is no whole slots.
fn uneven_program<'a>(file: &ElfFile<'a>, section: usize) -> Option<ElfSymbol<'a>> {
    for symbol in file.symbols() {
        if is_function_of(&symbol, section)
            && has_name(&symbol)
            && symbol.size() % bpf_insn::SIZE as u64 != 0
        {
            return Some(symbol);
        }
    }
    None
}

/// Whether a symbol is that of the function at an offset in a Text section.
fn is_at(symbol: &ElfSymbol<'_>, section: &ElfSection<'_>, offset: u64) -> bool {
    is_function_of(symbol, section.index().0)
        && symbol.is_definition()
        && symbol.address() == section.address().wrapping_add(offset)
}

/// The first function of a Text section, from offset 0 on, that is no whole slots, where the symbols up to it stand in the
/// order of their addresses.
fn uneven_text<'a>(file: &ElfFile<'a>, section: &ElfSection<'a>) -> Option<ElfSymbol<'a>> {
    let size = section.data().ok()?.len() as u64;
    let mut offset: u64 = 0;
    for symbol in file.symbols() {
        if offset >= size || !is_at(&symbol, section, offset) {
            continue;
        }
        if symbol.size() % bpf_insn::SIZE as u64 != 0 {
            return Some(symbol);
        }
        offset = offset.saturating_add(symbol.size());
    }
    None
}

/// The first function of a section that is no whole slots.
fn uneven_in<'a>(file: &ElfFile<'a>, section: &ElfSection<'a>) -> Option<ElfSymbol<'a>> {
    let name = section.name().ok()?;
    match EbpfSectionKind::from_elf(name, section) {
        EbpfSectionKind::Program => uneven_program(file, section.index().0),
        EbpfSectionKind::Text => uneven_text(file, section),
        _ => None,
    }
}

/// The symbol of the first function, in the order of parsing, that is no whole slots, and the index of its section.
pub fn uneven_function(file: &[u8]) -> Option<(usize, ElfSymbol<'_>)> {
    let file = ElfFile::parse(file).ok()?;
    for section in file.sections() {
        if let Some(symbol) = uneven_in(&file, &section) {
            return Some((section.index().0, symbol));
        }
    }
    None
}

/// The index of the first symbol whose name can't be read.
pub fn symbol_without_name(file: &[u8]) -> Option<usize> {
    let file = ElfFile::parse(file).ok()?;
    for symbol in file.symbols() {
        if symbol.name().is_err() {
            return Some(symbol.index());
        }
    }
    None
}
