//! The maps of data sections, of sections of fixed structs, and those that types declare.

ghost use Rattle.std.specs.Prelude.{◌≡◌, IfOk, IfErr, OnOk, true, ◌≤◌, ◌<◌, ◌+◌, ◌*◌, length, slice_index};
ghost use Rattle.ebpf_base.specs.Faults.{Refuses, first_some};
ghost use Rattle.ebpf_base.specs.Maps.{put_all};
ghost use Rattle.ebpf_btf_decls.specs.Maps.{types_in_mode};
ghost use Rattle.ebpf_parts.specs.Memory.{is_parse_memory};
ghost use Rattle.ebpf_parsing.specs.Maps.{data_bytes, data_flags, data_map, data_map_fault, word_at, legacy_pinning, definition_of, legacy_map, legacy_fault, legacy_maps, legacy_maps_fault, btf_defined_maps, btf_defined_maps_fault};
ghost use Rattle.ebpf_parsing.specs.ObjectTables.{last_maps};

use ebpf_base::{ByName, Items, Text};
use ebpf_btf::Btf;
use ebpf_btf_decls::{BtfDefinedMaps, parse_error};
use ebpf_parts::maps::{LegacyMap, Map, PinningType, bpf_map_def};
use ebpf_parts::{EbpfSectionKind, ParseError, ParseMode, Section};
use ebpf_sections::sections::{SectionNames, is_index};
use ebpf_sections::symbols::{NamedSymbol, symbol_indices_by_name};
use std::alloc::Global;

/// The type of an array map (`BPF_MAP_TYPE_ARRAY`).
const ARRAY: u32 = 2;

/// The flag of a map that programs only read (`BPF_F_RDONLY_PROG`).
const READ_ONLY: u32 = 128;

/// The bytes that a data section begins with. Those of `.bss` are zeros, which the file has not.
fn bytes_of(alloc: Global, section: &Section<'_>) -> Result<Items<u8>, ParseError>
    ensures bytes { IfOk result (λ bytes. bytes ≡ data_bytes section.now.kind section.now) }
    ensures memory { IfErr result (λ e. is_parse_memory e ≡ true) }
{
    match section.kind {
        EbpfSectionKind::Bss => {
            let size = section.size as usize;
            Ok(Items::from_vec(vec![in alloc; 0u8; size]?))
        }
        _ => Ok(Items::from_vec(Vec::from_slice(alloc, section.bytes)?)),
    }
}

/// The flags of the map of a data section.
fn flags_of(kind: EbpfSectionKind) -> u32
    ensures { result ≡ data_flags kind }
{
    match kind {
        EbpfSectionKind::Rodata => READ_ONLY,
        _ => 0,
    }
}

/// The map of a data section: an array of one value.
#[tactic(auto, unfolding(crate::specs::Maps::data_map, crate::specs::Maps::data_map_fault))]
fn data_map(alloc: Global, section: &Section<'_>) -> Result<Map, ParseError>
    ensures map { IfOk result (λ map. map ≡ data_map section.now) }
    ensures fault { Refuses is_parse_memory result (data_map_fault section.now) }
{
    let Ok(value_size) = u32::try_from(section.size) else {
        return Err(ParseError::InvalidMapDefinition {
            name: Text::from_str(alloc, section.name)?,
        });
    };
    Ok(Map::Legacy(LegacyMap {
        def: bpf_map_def {
            map_type: ARRAY,
            key_size: 4,
            value_size,
            max_entries: 1,
            map_flags: flags_of(section.kind),
            id: 0,
            pinning: PinningType::None,
        },
        inner_def: None,
        section_index: section.index.0,
        section_kind: section.kind,
        symbol_index: None,
        bytes: bytes_of(alloc, section)?,
    }))
}

/// Checks a data section whose map is not made.
#[tactic(auto, unfolding(crate::specs::Maps::data_map_fault))]
fn check_data_map(alloc: Global, section: &Section<'_>) -> Result<(), ParseError>
    ensures fault { Refuses is_parse_memory result (data_map_fault section.now) }
{
    if section.size > u64::from(u32::MAX) {
        return Err(ParseError::InvalidMapDefinition {
            name: Text::from_str(alloc, section.name)?,
        });
    }
    Ok(())
}

/// Puts the map of a data section by the section's name, if the section is the last one of data with that name.
///
/// # Errors
///
/// - `InvalidMapDefinition`: the section has 4 GiB or more.
/// - `OutOfMemory`: an allocation fails.
pub fn put_data_map(
    alloc: Global,
    maps: &mut ByName<Map>,
    last: &ByName<usize>,
    section: &Section<'_>,
) -> Result<(), ParseError>
    ensures put { OnOk result (maps.new ≡ put_all maps.old (last_maps last.now section.now)) }
    ensures fault { Refuses is_parse_memory result (data_map_fault section.now) }
{
    if !is_index(section.index.0, last.get(section.name)) {
        return check_data_map(alloc, section);
    }
    let map = data_map(alloc, section)?;
    maps.insert(String::from_str(alloc, section.name)?, map)?;
    Ok(())
}

/// The minimum size of a map struct: its first five numbers.
const LEAST_SIZE: u64 = 20;

/// The offset of the pinning in a map struct.
const PINNING: usize = 24;

/// The byte at an offset, 0 where there is none.
fn byte_at(bytes: &[u8], offset: usize) -> u32
    ensures byte { result ≡ slice_index bytes.now offset }
    ensures small { result < 256 }
{
    match bytes.get(offset) {
        Some(byte) => u32::from(*byte),
        None => 0,
    }
}

/// The number in the four bytes from an offset on.
#[tactic(auto, using(crate::proofs::Words::word_by_bytes))]
fn word_at(bytes: &[u8], offset: usize) -> u32
    requires { offset ≤ 24 }
    ensures { result ≡ word_at bytes.now offset }
{
    let low = byte_at(bytes, offset) + 256 * byte_at(bytes, offset + 1);
    let high = byte_at(bytes, offset + 2) + 256 * byte_at(bytes, offset + 3);
    low + 65536 * high
}

/// The pinning of a number that is 0 or 1.
fn legacy_pinning(number: u32) -> PinningType
    ensures { result ≡ legacy_pinning number }
{
    match number {
        0 => PinningType::None,
        _ => PinningType::ByName,
    }
}

/// The map definition in the bytes of a struct.
#[tactic(auto, unfolding(crate::specs::Maps::definition_of))]
fn definition_of(bytes: &[u8]) -> bpf_map_def
    ensures { result ≡ definition_of bytes.now }
{
    bpf_map_def {
        map_type: word_at(bytes, 0),
        key_size: word_at(bytes, 4),
        value_size: word_at(bytes, 8),
        max_entries: word_at(bytes, 12),
        map_flags: word_at(bytes, 16),
        id: word_at(bytes, 20),
        pinning: legacy_pinning(word_at(bytes, PINNING)),
    }
}

/// The map that a symbol names.
#[tactic(auto, unfolding(crate::specs::Maps::legacy_map, crate::specs::Maps::legacy_fault))]
fn legacy_map(
    alloc: Global,
    section: &Section<'_>,
    symbol: &NamedSymbol<'_>,
) -> Result<Map, ParseError>
    ensures map { IfOk result (λ map. map ≡ legacy_map section.now symbol.now) }
    ensures fault { Refuses is_parse_memory result (legacy_fault section.now symbol.now) }
{
    let len = section.bytes.len() as u64;
    if symbol.size > len || symbol.address > len - symbol.size {
        return Err(ParseError::InvalidSymbol {
            index: symbol.index,
            name: Some(Text::from_str(alloc, symbol.name)?),
        });
    }
    let start = symbol.address as usize;
    let end = start + symbol.size as usize;
    let bytes = &section.bytes[start..end];
    if symbol.size < LEAST_SIZE || word_at(bytes, PINNING) > 1 {
        return Err(ParseError::InvalidMapDefinition {
            name: Text::from_str(alloc, symbol.name)?,
        });
    }
    Ok(Map::Legacy(LegacyMap {
        def: definition_of(bytes),
        inner_def: None,
        section_index: section.index.0,
        section_kind: section.kind,
        symbol_index: Some(symbol.index),
        bytes: Items::new(alloc),
    }))
}

/// Puts the maps of a section's symbols by name.
fn put_each(
    alloc: Global,
    maps: &mut ByName<Map>,
    section: &Section<'_>,
    symbols: &[NamedSymbol<'_>],
) -> Result<(), ParseError>
    ensures put { OnOk result (maps.new ≡ put_all maps.old (legacy_maps section.now symbols.now)) }
    ensures fault { Refuses is_parse_memory result
        (first_some (legacy_fault section.now) symbols.now) }
{
    for symbol in symbols {
        let map = legacy_map(alloc, section, symbol)?;
        maps.insert(String::from_str(alloc, symbol.name)?, map)?;
    }
    Ok(())
}

/// Puts the maps of a section of fixed structs by the names of its symbols.
///
/// # Errors
///
/// - `NoSymbolsForSection`: the section has no symbol.
/// - `InvalidSymbol`: the bytes of a symbol pass the section's end.
/// - `InvalidMapDefinition`: a struct has fewer than 20 bytes, or a pinning above 1.
/// - `OutOfMemory`: an allocation fails.
#[tactic(auto, unfolding(crate::specs::Maps::legacy_maps_fault))]
pub fn put_legacy_maps(
    alloc: Global,
    maps: &mut ByName<Map>,
    section: &Section<'_>,
    symbols: &[NamedSymbol<'_>],
) -> Result<(), ParseError>
    ensures put { OnOk result (maps.new ≡ put_all maps.old (legacy_maps section.now symbols.now)) }
    ensures fault { Refuses is_parse_memory result (legacy_maps_fault section.now symbols.now) }
{
    if symbols.is_empty() {
        return Err(ParseError::NoSymbolsForSection {
            section_name: Text::from_str(alloc, section.name)?,
        });
    }
    put_each(alloc, maps, section, symbols)
}

/// Finds the DATASECs of all sections of BTF-defined maps in one pass; `None` without types.
///
/// # Errors
///
/// - `OutOfMemory`: an allocation fails.
pub fn find_btf_defined_maps<'b>(
    alloc: Global,
    types: &'b Option<Btf>,
    mode: ParseMode,
    names: &SectionNames<'_>,
) -> Result<Option<BtfDefinedMaps<'b>>, ParseError>
    ensures types { IfOk result (λ declared. declared ≡ types_in_mode mode types.now) }
    ensures memory { IfErr result (λ e. is_parse_memory e ≡ true) }
{
    let Some(types) = types else {
        return Ok(None);
    };
    match BtfDefinedMaps::gather(alloc, types, mode, names.maps.as_slice()) {
        Ok(declared) => Ok(Some(declared)),
        Err(error) => Err(parse_error(error)),
    }
}

/// Puts the BTF-defined maps of a section by name.
///
/// # Errors
///
/// - `NoBTF`: the object has no types.
/// - `NoSymbolsForSection`: the section has no symbol.
/// - `BtfError`, `SymbolNotFound`: as in `BtfDefinedMaps::put`.
/// - `OutOfMemory`: an allocation fails.
#[tactic(auto, unfolding(crate::specs::Maps::btf_defined_maps, crate::specs::Maps::btf_defined_maps_fault))]
pub fn put_btf_defined_maps(
    alloc: Global,
    maps: &mut ByName<Map>,
    types: &mut Option<BtfDefinedMaps<'_>>,
    section: &Section<'_>,
    symbols: &[NamedSymbol<'_>],
) -> Result<(), ParseError>
    ensures stays { types.new ≡ types.old }
    ensures put { OnOk result
        (maps.new ≡ put_all maps.old (btf_defined_maps types.old section.now symbols.now)) }
    ensures fault { Refuses is_parse_memory result
        (btf_defined_maps_fault types.old section.now symbols.now) }
{
    let Some(types) = types else {
        return Err(ParseError::NoBTF);
    };
    if symbols.is_empty() {
        return Err(ParseError::NoSymbolsForSection {
            section_name: Text::from_str(alloc, section.name)?,
        });
    }
    let numbers = symbol_indices_by_name(alloc, symbols)?;
    types.put(alloc, maps, section, &numbers)
}
