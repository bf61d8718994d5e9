//! Symbols by binding, type and visibility (gABI, "Symbol Table"), and the functions that are hidden.

ghost use Rattle.std.specs.Prelude.{◌≡◌, ◌<◌, ◌==◌, ◌&&◌, IfOk};
ghost use Rattle.std.specs.List.{find};
ghost use Rattle.ebpf_elf.specs.Sections.{sections};
ghost use Rattle.ebpf_elf.specs.Symbols.{symbols};
ghost use Rattle.ebpf_btf_load.specs.TypeSources.{symbol_byte, entry_bytes, is_bound, is_hidden, is_object_symbol, is_function_symbol, has_btf_name, is_variable_symbol, variable_symbol, symbol_table_bytes, is_symbol_table, given_of};
ghost use Rattle.ebpf_btf_load.specs.KsymsSections.{hidden_func, function_word, hidden_words, hidden_words_in, is_function_of, is_global, is_hidden_function, text_index};

use crate::sections::{Sources, place_in, start_of};
use crate::words::WrittenWord;
use ebpf_base::Items;
use ebpf_base::numbers::read_u32;
use ebpf_btf::BtfType;
use ebpf_btf::strings::is_text_at;
use ebpf_elf::{ElfFile, ElfSection, ElfSymbol};
use std::alloc::{AllocError, Global};

/// The type of a section that is a symbol table.
const SHT_SYMTAB: u32 = 2;

/// The number of bytes of an entry of a symbol table.
const ENTRY_LENGTH: usize = 24;

/// The first section that is a symbol table.
fn table_section<'a>(file: &ElfFile<'a>) -> Option<ElfSection<'a>>
    ensures { result ≡ find (λ s. is_symbol_table s) (sections file.now) }
{
    for section in file.sections() {
        if section.kind_number() == SHT_SYMTAB {
            return Some(section);
        }
    }
    None
}

/// The bytes of a section; empty where they run past the end of the file.
fn section_bytes<'a>(section: &ElfSection<'a>) -> &'a [u8]
    ensures { result.now ≡ entry_bytes section.now }
{
    match section.data() {
        Ok(bytes) => bytes,
        Err(_) => &[],
    }
}

/// The bytes of the symbol table; empty without one.
pub fn symbol_table<'a>(file: &ElfFile<'a>) -> &'a [u8]
    ensures { result.now ≡ symbol_table_bytes file.now }
{
    match table_section(file) {
        Some(section) => section_bytes(&section),
        None => &[],
    }
}

/// A byte of a symbol's entry; 0 outside the table.
#[tactic(auto, unfolding(crate::specs::TypeSources::symbol_byte))]
fn symbol_byte(table: &[u8], index: usize, within: usize) -> u8
    requires { within < 24 }
    ensures { result ≡ symbol_byte table.now index within }
{
    if index >= table.len() / ENTRY_LENGTH {
        return 0;
    }
    table[ENTRY_LENGTH * index + within]
}

/// Whether the binding of a symbol is GLOBAL or WEAK.
fn is_bound(table: &[u8], symbol: &ElfSymbol<'_>) -> bool
    ensures { result ≡ is_bound table.now symbol.now }
{
    let binding = symbol_byte(table, symbol.index(), 4) / 16;
    binding == 1 || binding == 2
}

/// Whether the visibility of a symbol is INTERNAL or HIDDEN.
pub fn is_hidden(table: &[u8], symbol: &ElfSymbol<'_>) -> bool
    ensures { result ≡ is_hidden table.now symbol.now }
{
    let visibility = symbol_byte(table, symbol.index(), 5) % 4;
    visibility == 1 || visibility == 2
}

/// Whether a symbol is of type OBJECT and bound GLOBAL or WEAK.
fn is_object_symbol(table: &[u8], symbol: &ElfSymbol<'_>) -> bool
    ensures { result ≡ is_object_symbol table.now symbol.now }
{
    symbol_byte(table, symbol.index(), 4) % 16 == 1 && is_bound(table, symbol)
}

/// Whether a symbol is of type FUNC and bound GLOBAL or WEAK.
pub fn is_function_symbol(table: &[u8], symbol: &ElfSymbol<'_>) -> bool
    ensures { result ≡ is_function_symbol table.now symbol.now }
{
    symbol_byte(table, symbol.index(), 4) % 16 == 2 && is_bound(table, symbol)
}

/// Whether a symbol has the name at an offset of the strings of types.
pub fn has_btf_name(strings: &[u8], name_offset: u32, symbol: &ElfSymbol<'_>) -> bool
    ensures { result ≡ has_btf_name strings.now name_offset symbol.now }
{
    match symbol.name() {
        Ok(name) => is_text_at(strings, name_offset, name),
        Err(_) => false,
    }
}

/// Whether a symbol is that of a variable with the name at an offset of the strings of types.
fn is_variable_symbol(
    table: &[u8],
    strings: &[u8],
    name_offset: u32,
    symbol: &ElfSymbol<'_>,
) -> bool
    ensures { result ≡ is_variable_symbol table.now strings.now name_offset symbol.now }
{
    is_object_symbol(table, symbol) && has_btf_name(strings, name_offset, symbol)
}

/// The first symbol of a variable with the name at an offset of the strings of types.
pub fn variable_symbol<'a>(
    file: &ElfFile<'a>,
    table: &[u8],
    strings: &[u8],
    name_offset: u32,
) -> Option<ElfSymbol<'a>>
    ensures { result ≡ variable_symbol file.now table.now strings.now name_offset }
{
    for symbol in file.symbols() {
        if is_variable_symbol(table, strings, name_offset, &symbol) {
            return Some(symbol);
        }
    }
    None
}

/// The info word of a FUNC of static linkage.
const STATIC_FUNC: u32 = 0x0c00_0000;

/// Whether the FUNC with an id has global linkage, which its info word has in place of a count.
#[tactic(auto, unfolding(crate::specs::KsymsSections::is_global))]
fn is_global(sources: &Sources<'_>, type_id: u32) -> bool
    ensures { result ≡ is_global (given_of sources.now) type_id }
{
    let start = start_of(sources.starts, type_id) as usize;
    if sources.part.len() < 8 || start > sources.part.len() - 8 {
        return false;
    }
    read_u32(sources.order, sources.part, start + 4) % 0x1_0000 == 1
}

/// Whether a type with an id is a global FUNC that has the name of a symbol.
#[tactic(auto, unfolding(crate::specs::KsymsSections::is_function_of))]
fn is_function_of(
    sources: &Sources<'_>,
    symbol: &ElfSymbol<'_>,
    type_id: u32,
    ty: &BtfType<'_>,
) -> bool
    ensures { result ≡ is_function_of (given_of sources.now) symbol.now type_id ty.now }
{
    match ty {
        BtfType::Func { name_offset, .. } => {
            is_global(sources, type_id)
                && has_btf_name(sources.types.strings(), *name_offset, symbol)
        }
        _ => false,
    }
}

/// The id of the first global FUNC that has the name of a symbol.
fn hidden_func(sources: &Sources<'_>, symbol: &ElfSymbol<'_>) -> Option<u32>
    ensures { result ≡ hidden_func (given_of sources.now) symbol.now }
{
    let mut id = 0usize;
    for ty in sources.types.types() {
        if is_function_of(sources, symbol, id as u32, &ty) {
            return Some(id as u32);
        }
        id += 1;
    }
    None
}

/// The index of the section `.text`.
fn text_index(file: &ElfFile<'_>) -> Option<usize>
    ensures { result ≡ text_index file.now }
{
    let section = file.section_by_name(".text")?;
    Some(section.index().0)
}

/// Whether a symbol is that of a hidden function of a section.
fn is_hidden_function(table: &[u8], text: usize, symbol: &ElfSymbol<'_>) -> bool
    ensures { result ≡ is_hidden_function table.now text symbol.now }
{
    match symbol.section_index() {
        Some(section) => {
            section == text && is_function_symbol(table, symbol) && is_hidden(table, symbol)
        }
        None => false,
    }
}

/// The words of the FUNC of a symbol, where it is that of a hidden function.
fn function_word(sources: &Sources<'_>, text: usize, symbol: &ElfSymbol<'_>) -> Option<WrittenWord>
    ensures { result ≡ function_word (given_of sources.now) text symbol.now }
{
    if !is_hidden_function(sources.table, text, symbol) {
        return None;
    }
    let id = hidden_func(sources, symbol)?;
    Some(WrittenWord {
        offset: place_in(sources, id, 4),
        value: STATIC_FUNC,
    })
}

/// The words of the FUNCs of hidden functions of a section.
fn hidden_words_in(
    alloc: Global,
    sources: &Sources<'_>,
    text: usize,
) -> Result<Items<WrittenWord>, AllocError>
    ensures { IfOk result (λ words.
        words ≡ hidden_words_in (given_of sources.now) text (symbols sources.now.file.now)) }
{
    let mut words = Items::new(alloc);
    for symbol in sources.file.symbols() {
        let Some(word) = function_word(sources, text, &symbol) else {
            continue;
        };
        words.push(word)?;
    }
    Ok(words)
}

/// The words of the FUNCs of hidden functions, which make these static.
///
/// # Errors
///
/// - `AllocError`: an allocation failed.
pub fn hidden_words(alloc: Global, sources: &Sources<'_>) -> Result<Items<WrittenWord>, AllocError>
    ensures { IfOk result (λ words. words ≡ hidden_words (given_of sources.now)) }
{
    match text_index(sources.file) {
        Some(text) => hidden_words_in(alloc, sources, text),
        None => Ok(Items::new(alloc)),
    }
}
