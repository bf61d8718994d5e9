//! The functions of `.text`, by name.

ghost use Rattle.std.specs.Prelude.{◌≡◌, IfOk, OnOk};
ghost use Rattle.ebpf_btf_load.specs.KsymsSections.{text_index};
ghost use Rattle.ebpf_exceptions.specs.Callbacks.{functions_in, is_text_function, text_function, text_functions, with_symbol};

use ebpf_base::ByName;
use ebpf_btf_load::{is_function_symbol, is_hidden, symbol_table};
use ebpf_elf::{ElfFile, ElfSymbol, SymbolKind};
use std::alloc::{AllocError, Global};

/// A function of `.text`.
#[derive(Clone, Copy)]
pub struct TextFunction {
    /// The address of its symbol.
    pub address: u64,
    /// Whether its binding is GLOBAL or WEAK, and its visibility neither HIDDEN nor INTERNAL.
    pub is_global: bool,
}

/// Whether a symbol is that of a function of a section.
fn is_text_function(text: usize, symbol: &ElfSymbol<'_>) -> bool
    ensures { result ≡ is_text_function text symbol.now }
{
    match symbol.section_index() {
        Some(section) => section == text && matches!(symbol.kind(), SymbolKind::Text),
        None => false,
    }
}

/// The function of a symbol.
fn text_function(table: &[u8], symbol: &ElfSymbol<'_>) -> TextFunction
    ensures { result ≡ text_function table.now symbol.now }
{
    TextFunction {
        address: symbol.address(),
        is_global: is_function_symbol(table, symbol) && !is_hidden(table, symbol),
    }
}

/// Adds the function of a symbol, unless it has the name of one before.
fn add_symbol(
    alloc: Global,
    table: &[u8],
    text: usize,
    found: &mut ByName<TextFunction>,
    symbol: &ElfSymbol<'_>,
) -> Result<(), AllocError>
    ensures { OnOk result (found.new ≡ with_symbol table.now text found.old symbol.now) }
{
    if !is_text_function(text, symbol) {
        return Ok(());
    }
    let Ok(name) = symbol.name() else {
        return Ok(());
    };
    if found.contains_key(name) {
        return Ok(());
    }
    let name = String::from_str(alloc, name)?;
    found.insert(name, text_function(table, symbol))?;
    Ok(())
}

/// The functions of a section, by name: of several with one name the first symbol counts.
fn functions_in(
    alloc: Global,
    file: &ElfFile<'_>,
    text: usize,
) -> Result<ByName<TextFunction>, AllocError>
    ensures { IfOk result (λ found. found ≡ functions_in file.now text) }
{
    let table = symbol_table(file);
    let mut found = ByName::new(alloc);
    for symbol in file.symbols() {
        add_symbol(alloc, table, text, &mut found, &symbol)?;
    }
    Ok(found)
}

/// The index of the section `.text`.
pub fn text_index(file: &ElfFile<'_>) -> Option<usize>
    ensures { result ≡ text_index file.now }
{
    let section = file.section_by_name(".text")?;
    Some(section.index().0)
}

/// The functions of `.text`, none where there is no such section.
pub fn text_functions(
    alloc: Global,
    file: &ElfFile<'_>,
    text: Option<usize>,
) -> Result<ByName<TextFunction>, AllocError>
    ensures { IfOk result (λ found. found ≡ text_functions file.now text) }
{
    match text {
        Some(text) => functions_in(alloc, file, text),
        None => Ok(ByName::new(alloc)),
    }
}
