//! The map and the offset in its data that the value of a global variable goes to.

ghost use Rattle.std.specs.Prelude.{◌≡◌, ℕ, ◌+◌, ◌∷◌, [], nat_le, length, IfOk, IfErr, MatchBool, ⊤, Ok, Err, Some};
ghost use Rattle.std.specs.FinMap as finite;
ghost use Rattle.std.specs.FinMap.{get};
ghost use Rattle.std.specs.List.{flat_map};
ghost use Rattle.std.specs.Option.{option_copied};
ghost use Rattle.ebpf_base.specs.Maps.{put_all, lent_bytes};
ghost use Rattle.ebpf_object.specs.Names.{with_map_names};
ghost use Rattle.ebpf_object.specs.Patches.{named_at, symbol_indices, symbol_named, first_map, map_in_section, in_map, of_symbol, patch_of};
ghost use Rattle.ebpf_object.specs.PrivateContracts.{value_of, values_of};
ghost use Rattle.ebpf_parts.specs.Memory.{is_parse_memory};
ghost use Rattle.ebpf_parts.specs.declared.error.ParseError.TheVariants.{InvalidGlobalData, SymbolNotFound, MapNotFound};

use crate::set_globals::write::Patch;
use ebpf_base::{ByIndex, ByName, Text};
use ebpf_model::Symbol;
use ebpf_parts::ParseError;
use ebpf_parts::maps::Map;
use std::alloc::{AllocError, Global};

/// The tables that a variable's map and offset are found by.
#[derive(Drop)]
pub struct VariableLookup<'a> {
    pub symbols: &'a ByIndex<Symbol>,
    pub maps: &'a ByName<Map>,
    pub numbers: &'a ByName<usize>,
    pub names: &'a ByIndex<Text>,
    ghost numbers_are: { numbers.now ≡ symbol_indices symbols.now },
    ghost names_are: { (section : ℕ) → get names.now section ≡ first_map maps.now section },
}

/// Puts the indices of symbols at their names, later ones over earlier ones.
fn put_indices(
    alloc: Global,
    numbers: ByName<usize>,
    symbols: &ByIndex<Symbol>,
    indices: &[usize],
) -> Result<ByName<usize>, AllocError>
    ensures { IfOk result (λ found.
        found
        ≡ put_all numbers
        (flat_map (λ number. named_at number (finite.get symbols.now number))
        indices.now)) }
{
    let mut numbers = numbers;
    for index in indices {
        let Some(symbol) = symbols.get(*index) else {
            continue;
        };
        let Some(name) = &symbol.name else {
            continue;
        };
        numbers.insert(String::from_str(alloc, name.as_str())?, *index)?;
    }
    Ok(numbers)
}

/// The indices of the symbols by their names: of equal names the greatest.
///
/// # Errors
///
/// `AllocError` where no memory is found.
pub fn symbol_indices(alloc: Global, symbols: &ByIndex<Symbol>) -> Result<ByName<usize>, AllocError>
    ensures { IfOk result (λ numbers. numbers ≡ symbol_indices symbols.now) }
{
    let indices = symbols.indices(alloc)?;
    put_indices(alloc, ByName::new(alloc), symbols, indices.as_slice())
}

/// Puts the names of maps at their sections, where none is there.
fn put_maps(
    alloc: Global,
    found: ByIndex<Text>,
    maps: &ByName<Map>,
    names: &[&str],
) -> Result<ByIndex<Text>, AllocError>
    ensures { IfOk result (λ all. all ≡ with_map_names maps.now found (lent_bytes names.now)) }
{
    let mut found = found;
    for name in names {
        let Some(map) = maps.get(*name) else {
            continue;
        };
        if found.contains_key(map.section_index()) {
            continue;
        }
        found.insert(map.section_index(), Text::from_str(alloc, *name)?)?;
    }
    Ok(found)
}

/// The name of the first map by name that each section has.
#[tactic(auto, using(crate::proofs::MapNames::first_maps))]
pub fn map_names(alloc: Global, maps: &ByName<Map>) -> Result<ByIndex<Text>, AllocError>
    ensures { IfOk result (λ names.
        (section : ℕ) → finite.get names section ≡ first_map maps.now section) }
{
    let names = maps.names(alloc)?;
    put_maps(alloc, ByIndex::new(alloc), maps, names.as_slice())
}

/// Whether a range lies inside.
fn fits(address: u64, length: usize, size: usize) -> bool
    ensures { result ≡ nat_le (address + length) size }
{
    match address.checked_add(length as u64) {
        Some(end) => end <= size as u64,
        None => false,
    }
}

fn invalid_data(alloc: Global, name: &str, sym_size: u64, data_size: usize) -> ParseError
    ensures { MatchBool (is_parse_memory result) ⊤
        (result ≡ InvalidGlobalData name.now sym_size data_size) }
{
    match Text::from_str(alloc, name) {
        Ok(name) => ParseError::InvalidGlobalData {
            name,
            sym_size,
            data_size,
        },
        Err(error) => error.into(),
    }
}

fn no_symbol(alloc: Global, name: &str) -> ParseError
    ensures { MatchBool (is_parse_memory result) ⊤ (result ≡ SymbolNotFound name.now) }
{
    match Text::from_str(alloc, name) {
        Ok(name) => ParseError::SymbolNotFound { name },
        Err(error) => error.into(),
    }
}

/// The patch that puts a value into the data of its map.
fn patch_in_map<'a>(
    alloc: Global,
    maps: &ByName<Map>,
    name: &str,
    bytes: &'a [u8],
    symbol: &Symbol,
    map_name: &Text,
) -> Result<Patch<'a>, ParseError>
    ensures patch { IfOk result (λ p.
        in_map maps.now name.now bytes.now symbol.now (Some map_name.now)
        ≡ Ok (value_of p ∷ [])) }
    ensures fault { IfErr result (λ e.
        MatchBool (is_parse_memory e) ⊤
        (in_map maps.now name.now bytes.now symbol.now (Some map_name.now) ≡ Err e)) }
{
    let size = match maps.get(map_name.as_str()) {
        Some(map) => map.data().len(),
        None => 0,
    };
    if !fits(symbol.address, bytes.len(), size) {
        return Err(invalid_data(alloc, name, symbol.size, bytes.len()));
    }
    match map_name.clone() {
        Ok(map_name) => Ok(Patch {
            map_name,
            offset: symbol.address as usize,
            bytes,
        }),
        Err(error) => Err(error.into()),
    }
}

/// The name of the map that holds a symbol.
fn map_of<'a>(lookup: &VariableLookup<'a>, symbol: &Symbol) -> Option<&'a Text>
    ensures { option_copied result ≡ map_in_section lookup.now.maps.now symbol.now.section_index }
{
    match symbol.section_index {
        Some(section) => lookup.names.get(section),
        None => None,
    }
}

/// The symbol with a name.
fn symbol_of<'a>(lookup: &VariableLookup<'a>, name: &str) -> Option<&'a Symbol>
    ensures { option_copied result ≡ symbol_named lookup.now.symbols.now name.now }
{
    match lookup.numbers.get(name) {
        Some(number) => lookup.symbols.get(*number),
        None => None,
    }
}

/// The patch of the value of a variable with a symbol.
fn patch_by_symbol<'a>(
    alloc: Global,
    lookup: &VariableLookup<'_>,
    name: &str,
    bytes: &'a [u8],
    symbol: &Symbol,
) -> Result<Patch<'a>, ParseError>
    ensures patch { IfOk result (λ p.
        of_symbol lookup.now.maps.now name.now bytes.now symbol.now ≡ Ok (value_of p ∷ [])) }
    ensures fault { IfErr result (λ e.
        MatchBool (is_parse_memory e) ⊤
        (of_symbol lookup.now.maps.now name.now bytes.now symbol.now ≡ Err e)) }
{
    if bytes.len() as u64 != symbol.size {
        return Err(invalid_data(alloc, name, symbol.size, bytes.len()));
    }
    match map_of(lookup, symbol) {
        Some(map_name) => patch_in_map(alloc, lookup.maps, name, bytes, symbol, map_name),
        None => Err(ParseError::MapNotFound {
            index: symbol.section_index.unwrap_or(0),
        }),
    }
}

/// The patch of the value of a variable. `None` where the variable has no symbol and needs none.
#[tactic(auto, unfolding(crate::specs::Patches::patch_of))]
pub fn patch_of<'a>(
    alloc: Global,
    lookup: &VariableLookup<'_>,
    name: &str,
    bytes: &'a [u8],
    must_exist: bool,
) -> Result<Option<Patch<'a>>, ParseError>
    ensures patch { IfOk result (λ p.
        patch_of lookup.now.symbols.now lookup.now.maps.now name.now (bytes.now, must_exist)
        ≡ Ok (values_of p)) }
    ensures fault { IfErr result (λ e.
        MatchBool (is_parse_memory e) ⊤
        (patch_of lookup.now.symbols.now lookup.now.maps.now name.now
        (bytes.now, must_exist)
        ≡ Err e)) }
{
    match symbol_of(lookup, name) {
        Some(symbol) => match patch_by_symbol(alloc, lookup, name, bytes, symbol) {
            Ok(patch) => Ok(Some(patch)),
            Err(error) => Err(error),
        },
        None => {
            if must_exist {
                return Err(no_symbol(alloc, name));
            }
            Ok(None)
        }
    }
}
