//! The numbers of bytes of symbols, their names and sections.

ghost use Rattle.std.specs.Prelude.{◌≡◌, ◌+◌, ◌<◌, ◌^◌, ◌*◌, map, IfOk, IfSome};
ghost use Rattle.std.specs.Bool.{OnTrue, OnFalse};
ghost use Rattle.std.specs.Option.{option_copied};
ghost use Rattle.ebpf_elf.specs.Sections.{section_name, sections};
ghost use Rattle.ebpf_elf.specs.Symbols.{entry, symbols, symbol_name};
ghost use Rattle.ebpf_limits.specs.OwnedBytes.{total, facts_at, placed_in, symbol_bytes, name_bytes, section_entry_bytes, contents_bytes, facts_of, Took};

use crate::facts::{Facts, contents_bytes};
use crate::limits::Room;
use crate::sizes::{EXTERN, SECTION, SYMBOL};
use ebpf_elf::{ElfFile, ElfSection, ElfSymbol};
use ebpf_parts::EbpfSectionKind;
use ebpf_sections::section_records::FoundRecords;
use ebpf_sections::sections::name_or_empty;
use std::alloc::{AllocError, Global};

/// The facts of the section with an index, from 1 on.
pub fn facts_at<'f, 'e>(all: &'f [Facts<'e>], index: Option<usize>) -> Option<&'f Facts<'e>>
    ensures { option_copied result ≡ facts_at all.now index }
{
    all.get(index?.saturating_sub(1))
}

/// The number of bytes of a symbol in a section, without the symbol's own entry.
fn placed_bytes(
    facts: Option<&Facts<'_>>,
    license: usize,
    name: u128,
    symbol: &ElfSymbol<'_>,
) -> u128
    requires { name < 2 ^ 65 }
    ensures exact { result
        ≡ placed_in (option_copied facts.entry) license name (entry symbol.now) }
    ensures few { result < 2 ^ 90 }
{
    match facts {
        Some(facts) => facts.placed_bytes(license, name, symbol),
        None => 0,
    }
}

/// The number of bytes of a symbol.
#[tactic(auto, unfolding(crate::specs::OwnedBytes::symbol_bytes))]
fn symbol_bytes(bytes: &[u8], license: usize, all: &[Facts<'_>], symbol: &ElfSymbol<'_>) -> u128
    ensures { result ≡ symbol_bytes bytes.now license all.now symbol.now }
{
    let name = symbol_name_bytes(bytes, symbol);
    let facts = facts_at(all, symbol.section_index());
    SYMBOL + EXTERN + 2 * name + placed_bytes(facts, license, name, symbol)
}

/// Takes the bytes of the symbols. No name is read behind the one that passes the limit.
pub fn take_symbols(
    room: &mut Room,
    bytes: &[u8],
    file: &ElfFile<'_>,
    license: usize,
    all: &[Facts<'_>],
) -> bool
    ensures fits { OnTrue result
        (room.new.left + total (symbol_bytes bytes.now license all.now) (symbols file.now)
        ≡ room.old.left) }
    ensures over { OnFalse result
        (room.old.left < total (symbol_bytes bytes.now license all.now) (symbols file.now)) }
{
    for symbol in file.symbols() {
        if !room.take(symbol_bytes(bytes, license, all, &symbol)) {
            return false;
        }
    }
    true
}

/// The number of bytes of a section's name.
pub fn section_name_bytes(bytes: &[u8], section: &ElfSection<'_>) -> u128
    ensures exact { result ≡ name_bytes bytes.now (section_name section.now) }
    ensures few { result < 2 ^ 65 }
{
    match section.name() {
        Ok(name) => name.len() as u128,
        Err(_) => bytes.len() as u128,
    }
}

/// The number of bytes of a symbol's name.
pub fn symbol_name_bytes(bytes: &[u8], symbol: &ElfSymbol<'_>) -> u128
    ensures exact { result ≡ name_bytes bytes.now (symbol_name symbol.now) }
    ensures few { result < 2 ^ 65 }
{
    match symbol.name() {
        Ok(name) => name.len() as u128,
        Err(_) => bytes.len() as u128,
    }
}

/// The number of bytes of a section's index by its name.
#[tactic(auto, unfolding(crate::specs::OwnedBytes::section_entry_bytes))]
fn entry_bytes(bytes: &[u8], section: &ElfSection<'_>) -> u128
    ensures { result ≡ section_entry_bytes bytes.now section.now }
{
    SECTION + section_name_bytes(bytes, section)
}

/// Takes the sections' entries by their names. No name is read behind the one that passes the limit.
pub fn take_names(room: &mut Room, bytes: &[u8], file: &ElfFile<'_>) -> bool
    ensures fits { OnTrue result
        (room.new.left + total (section_entry_bytes bytes.now) (sections file.now)
        ≡ room.old.left) }
    ensures over { OnFalse result
        (room.old.left < total (section_entry_bytes bytes.now) (sections file.now)) }
{
    for section in file.sections() {
        if !room.take(entry_bytes(bytes, &section)) {
            return false;
        }
    }
    true
}

/// Takes the bytes of a section itself, and returns its facts. The info entries are counted afterwards.
#[tactic(auto, unfolding(crate::specs::OwnedBytes::contents_bytes, crate::specs::OwnedBytes::facts_of))]
fn take_section<'e>(
    room: &mut Room,
    bytes: &[u8],
    records: &FoundRecords<'e>,
    section: &ElfSection<'_>,
) -> Option<Facts<'e>>
    ensures taken { Took result room.old.left room.new.left
        (contents_bytes bytes.now records.now section.now) }
    ensures facts { IfSome result (λ facts. facts ≡ facts_of records.now section.now) }
{
    let name = name_or_empty(section);
    let kind = EbpfSectionKind::from_elf(name, section);
    let funcs = records.funcs(name).records;
    let lines = records.lines(name).records;
    let name_bytes = section_name_bytes(bytes, section);
    if !room.take(contents_bytes(kind, name_bytes, section, funcs, lines)) {
        return None;
    }
    Some(Facts::new(kind, section, funcs, lines))
}

/// Takes the bytes of the sections themselves, and returns the facts of each. `None` if they pass the limit.
pub fn take_sections<'e>(
    alloc: Global,
    room: &mut Room,
    bytes: &[u8],
    file: &ElfFile<'_>,
    records: &FoundRecords<'e>,
) -> Result<Option<Vec<Facts<'e>>>, AllocError>
    ensures taken { IfOk result (λ all.
        Took all room.old.left room.new.left
        (total (contents_bytes bytes.now records.now) (sections file.now))) }
    ensures facts { IfOk result (λ all.
        IfSome all (λ facts. facts.items ≡ map (facts_of records.now) (sections file.now))) }
{
    let mut all = Vec::new(alloc);
    for section in file.sections() {
        let Some(facts) = take_section(room, bytes, records, &section) else {
            return Ok(None);
        };
        all.push(facts)?;
    }
    Ok(Some(all))
}
