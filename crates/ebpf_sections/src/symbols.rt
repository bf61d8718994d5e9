//! The symbols of a file, and symbols by their names.

ghost use Rattle.std.specs.FinMap.{contains_key, get, insert};
ghost use Rattle.std.specs.FinMap as map;
ghost use Rattle.std.specs.Prelude.{◌≡◌, ◌∷◌, ◌++◌, [], ℕ, true, IfOk, OnOk, IfErr, Some, None, unwrap_or, if◌then◌else◌};
ghost use Rattle.ebpf_base.specs.Faults.{Refuses, fault_of};
ghost use Rattle.ebpf_base.specs.Maps.{lent_bytes};
ghost use Rattle.ebpf_elf.specs.Symbols.{symbol_name};
ghost use Rattle.ebpf_parts.specs.Memory.{is_parse_memory};
ghost use Rattle.ebpf_sections.specs.Sections.{group_at};
ghost use Rattle.ebpf_sections.specs.Symbols.{symbol_of, symbol_fault, symbols_fault, file_symbols, symbol_table, symbol_entry, names_of, SymbolValue, section_symbols, symbol_indices_by_name, weak_named};

use crate::sections::Groups;
use ebpf_base::{ByIndex, ByName, Text};
use ebpf_btf::BtfError;
use ebpf_elf::constants::SHT_SYMTAB;
use ebpf_elf::{ElfFile, ElfSymbol, SymbolKind};
use ebpf_model::Symbol;
use ebpf_parts::ParseError;
use std::alloc::Global;
use std::collections::HashMap;
use std::marker::Model;

/// The length in bytes of an entry of a symbol table.
const ENTRY: usize = 24;

/// A symbol with its name, which is borrowed from the file.
#[derive(Drop)]
pub struct NamedSymbol<'a> {
    pub index: usize,
    pub section_index: Option<usize>,
    pub name: &'a str,
    pub address: u64,
    pub size: u64,
    pub kind: SymbolKind,
    pub is_definition: bool,
    pub is_weak: bool,
}

impl<'a> Model for NamedSymbol<'a> {
    ghost Value = { SymbolValue };

    ghost view = { λ y.
        record {
          index = y.index;
          section_index = y.section_index;
          name = y.name.now;
          address = y.address;
          size = y.size;
          kind = y.kind;
          is_definition = y.is_definition;
          is_weak = y.is_weak;
        } };
}

impl<'a> NamedSymbol<'a> {
    /// A symbol of a file whose name is known.
    #[tactic(auto, unfolding(crate::specs::Symbols::symbol_of))]
    fn with_name(symbol: &ElfSymbol<'_>, name: &'a str) -> NamedSymbol<'a>
        ensures { name.now ≡ unwrap_or (symbol_name symbol.now) [] → result ≡ symbol_of symbol.now }
    {
        NamedSymbol {
            index: symbol.index(),
            section_index: symbol.section_index(),
            name,
            address: symbol.address(),
            size: symbol.size(),
            kind: symbol.kind(),
            is_definition: symbol.is_definition(),
            is_weak: symbol.is_weak(),
        }
    }

    /// Returns a symbol of a file, with its name.
    ///
    /// # Errors
    ///
    /// - `BtfError` with `InvalidSymbolName`: the name can't be read.
    pub fn from_elf(symbol: &ElfSymbol<'a>) -> Result<NamedSymbol<'a>, ParseError>
        ensures symbol { IfOk result (λ y. y ≡ symbol_of symbol.now) }
        ensures fault { fault_of result ≡ symbol_fault symbol.now }
    {
        match symbol.name() {
            Ok(name) => Ok(NamedSymbol::with_name(symbol, name)),
            Err(_) => Err(ParseError::BtfError(BtfError::InvalidSymbolName)),
        }
    }

    /// The symbol as an object keeps it.
    fn to_symbol(&self, alloc: Global) -> Result<Symbol, ParseError>
        ensures symbol { IfOk result (λ owned. owned ≡ (symbol_entry self.now).1) }
        ensures memory { IfErr result (λ e. is_parse_memory e ≡ true) }
    {
        Ok(Symbol {
            index: self.index,
            section_index: self.section_index,
            name: Some(Text::from_str(alloc, self.name)?),
            address: self.address,
            size: self.size,
            kind: self.kind,
            is_definition: self.is_definition,
            is_weak: self.is_weak,
        })
    }
}

/// The symbols of a file by their section, and the names of all in order.
#[derive(Drop)]
pub struct FileSymbols<'a> {
    pub names: Vec<&'a str>,
    pub groups: Groups<NamedSymbol<'a>>,
}

impl<'a> FileSymbols<'a> {
    /// Adds a symbol.
    #[tactic(auto, unfolding(crate::specs::Symbols::section_symbols))]
    fn add(&mut self, alloc: Global, symbol: NamedSymbol<'a>) -> Result<(), ParseError>
        ensures names { OnOk result
            (lent_bytes self.new.names.items
            ≡ lent_bytes self.old.names.items ++ symbol.entry.name ∷ []) }
        ensures groups { OnOk result
            ((q : ℕ)
            → group_at self.new.groups.groups q
            ≡ group_at self.old.groups.groups q ++ section_symbols (symbol.entry ∷ []) q) }
        ensures memory { IfErr result (λ e. is_parse_memory e ≡ true) }
    {
        self.names.push(symbol.name)?;
        match symbol.section_index {
            None => Ok(()),
            Some(section) => self.groups.add(alloc, section, symbol),
        }
    }
}

/// The number of entries of the first symbol table, so that a list of names takes its memory once.
fn count_of(file: &ElfFile<'_>) -> usize {
    for section in file.sections() {
        if section.kind_number() == SHT_SYMTAB {
            return section.size() as usize / ENTRY;
        }
    }
    0
}

/// Reads the symbols of a file, by their section (ELF-64 gABI, 'Symbol Table').
///
/// # Errors
///
/// - `BtfError` with `InvalidSymbolName`: the name of a symbol can't be read.
/// - `OutOfMemory`: an allocation fails.
#[tactic(auto, using(crate::proofs::NamedSymbols::group_more, crate::proofs::NamedSymbols::group_all, crate::proofs::NamedSymbols::names_more, crate::proofs::NamedSymbols::names_all))]
pub fn read_symbols<'a>(alloc: Global, file: &ElfFile<'a>) -> Result<FileSymbols<'a>, ParseError>
    ensures names { IfOk result (λ s. lent_bytes s.names.items ≡ names_of (file_symbols file.now)) }
    ensures groups { IfOk result (λ s.
        (q : ℕ) → group_at s.groups.groups q ≡ section_symbols (file_symbols file.now) q) }
    ensures fault { Refuses is_parse_memory result (symbols_fault file.now) }
{
    let mut symbols = FileSymbols {
        names: Vec::with_capacity(alloc, count_of(file))?,
        groups: Groups::new(alloc),
    };
    for symbol in file.symbols() {
        let symbol = NamedSymbol::from_elf(&symbol)?;
        symbols.add(alloc, symbol)?;
    }
    Ok(symbols)
}

/// Returns the symbols of a file as an object keeps them. The caller passes their names, so that each is read once.
///
/// # Errors
///
/// - `OutOfMemory`: an allocation fails.
#[tactic(auto, unfolding(crate::specs::Symbols::symbol_of))]
pub fn object_symbols(
    alloc: Global,
    file: &ElfFile<'_>,
    names: &[&str],
) -> Result<ByIndex<Symbol>, ParseError>
    requires names { lent_bytes names.now ≡ names_of (file_symbols file.now) }
    ensures table { IfOk result (λ table. table ≡ symbol_table (file_symbols file.now)) }
    ensures memory { IfErr result (λ e. is_parse_memory e ≡ true) }
{
    let mut table = ByIndex::from_map(HashMap::with_capacity(alloc, names.len())?);
    for (symbol, name) in file.symbols().zip(names) {
        let symbol = NamedSymbol::with_name(&symbol, *name);
        table.insert(symbol.index, symbol.to_symbol(alloc)?)?;
    }
    Ok(table)
}

/// Returns the indices of symbols by name; of equal names the last.
///
/// # Errors
///
/// - `OutOfMemory`: an allocation fails.
pub fn symbol_indices_by_name(
    alloc: Global,
    symbols: &[NamedSymbol<'_>],
) -> Result<ByName<usize>, ParseError>
    ensures numbers { IfOk result (λ numbers. numbers ≡ symbol_indices_by_name symbols.now) }
    ensures memory { IfErr result (λ e. is_parse_memory e ≡ true) }
{
    let mut numbers = ByName::new(alloc);
    for symbol in symbols {
        numbers.insert(String::from_str(alloc, symbol.name)?, symbol.index)?;
    }
    Ok(numbers)
}

/// Returns by name whether the symbols of a file are weak; of equal names the first counts.
///
/// # Errors
///
/// - `BtfError` with `InvalidSymbolName`: the name of a symbol can't be read.
/// - `OutOfMemory`: an allocation fails.
#[tactic(auto, using(crate::proofs::NamedSymbols::before_all, crate::proofs::NamedSymbols::one_more, crate::proofs::NamedSymbols::all_named))]
pub fn weak_by_name(alloc: Global, file: &ElfFile<'_>) -> Result<ByName<bool>, ParseError>
    ensures weak { IfOk result (λ weak. get weak ≡ weak_named (file_symbols file.now)) }
    ensures fault { Refuses is_parse_memory result (symbols_fault file.now) }
{
    let mut weak = ByName::new(alloc);
    for symbol in file.symbols() {
        let symbol = NamedSymbol::from_elf(&symbol)?;
        keep(alloc, &mut weak, &symbol)?;
    }
    Ok(weak)
}

/// Keeps whether a symbol is weak, if no symbol of its name came before.
fn keep(alloc: Global, weak: &mut ByName<bool>, symbol: &NamedSymbol<'_>) -> Result<(), ParseError>
    ensures kept { OnOk result
        (weak.new
        ≡ (if contains_key weak.old symbol.now.name
        then weak.old
        else insert weak.old symbol.now.name symbol.now.is_weak)) }
    ensures memory { IfErr result (λ e. is_parse_memory e ≡ true) }
{
    if weak.contains_key(symbol.name) {
        return Ok(());
    }
    weak.insert(String::from_str(alloc, symbol.name)?, symbol.is_weak)?;
    Ok(())
}
