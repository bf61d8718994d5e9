//! What an entry of a DATASEC declares, and the maps of a section, each name once.

ghost use Rattle.std.specs.Prelude.{◌≡◌, ℕ, List, Ok, Err, ⊤, IfOk, IfErr, OnOk, []};
ghost use Rattle.std.specs.Bool.{MatchBool};
ghost use Rattle.ebpf_btf.specs.Memory.{is_btf_memory};
ghost use Rattle.ebpf_btf_decls.specs.SectionMaps.{Knows, AreNumbered, HasNumber, missing, distinct_maps, distinct_fault};
ghost use Rattle.ebpf_btf_decls.specs.Maps.{declared, map_at, map_with_symbol};
ghost use Rattle.ebpf_base.specs.Faults.{Refuses};
ghost use Rattle.ebpf_base.specs.Maps.{put_all};
ghost use Rattle.ebpf_btf_decls.specs.DataSections.{given};
ghost use Rattle.ebpf_parts.specs.Memory.{is_parse_memory};
ghost use Rattle.std.specs.FinMap as map;

use crate::known_structs::{KnownStructs, struct_definitions};
use crate::map_types::unexpected_type;
use crate::members::MapDefinitions;
use crate::numbered_names::NumberedNames;
use ebpf_base::{ByName, Items, Text};
use ebpf_btf::{Btf, BtfError, BtfType, DataSecEntry};
use ebpf_parts::maps::{BtfMap, Map};
use ebpf_parts::{ParseError, ParseMode, Section};
use std::alloc::Global;

/// What an entry declares, with the number of its name.
#[tactic(auto, unfolding(crate::specs::Maps::declared, crate::specs::Maps::variable))]
pub fn declared(
    alloc: Global,
    btf: &Btf,
    mode: ParseMode,
    known: &mut KnownStructs,
    names: &mut NumberedNames,
    entry: &DataSecEntry,
) -> Result<(usize, MapDefinitions), BtfError>
    requires known { Knows mode btf.now known.old }
    requires numbered { AreNumbered btf.now.strings names.old }
    ensures known { Knows mode btf.now known.new }
    ensures numbered { OnOk result (AreNumbered btf.now.strings names.new) }
    ensures declared { IfOk result (λ found.
        (name : List ℕ)
        × (declared mode btf.now entry.now ≡ Ok (name, found.1))
        × HasNumber names.old.names names.new.names name found.0) }
    ensures fault { IfErr result (λ e.
        MatchBool (is_btf_memory e) ⊤ (declared mode btf.now entry.now ≡ Err e)) }
{
    let ty = btf.type_by_id(entry.btf_type)?;
    let BtfType::Var { btf_type, .. } = ty else {
        return Err(unexpected_type(&ty));
    };
    let number = names.number_at(alloc, btf, ty.name_offset())?;
    let struct_id = btf.resolve_type(btf_type)?;
    let definitions = struct_definitions(alloc, btf, mode, known, names.name(number), struct_id)?;
    Ok((number, definitions))
}

/// The map with these definitions, of a section and a symbol with these indices.
pub fn map_at(
    alloc: Global,
    definitions: &MapDefinitions,
    section_index: usize,
    symbol_index: usize,
) -> Map
    ensures { result ≡ map_at definitions.now section_index symbol_index }
{
    Map::Btf(BtfMap {
        def: definitions.def,
        inner_def: definitions.inner_def,
        section_index,
        symbol_index,
        bytes: Items::new(alloc),
    })
}

/// Maps, of equal names only the later one.
#[derive(Drop)]
pub struct DistinctMaps {
    /// The names of maps.
    pub names: NumberedNames,
    /// What the last map of each name is defined by, by the numbers of the names.
    pub last: Items<MapDefinitions>,
}

impl DistinctMaps {
    /// No map.
    pub fn none(alloc: Global) -> DistinctMaps
        ensures names { result.names.names ≡ [] }
        ensures last { result.last ≡ [] }
        ensures numbered { (strings : List ℕ) → AreNumbered strings result.names }
    {
        DistinctMaps {
            names: NumberedNames::none(alloc),
            last: Items::new(alloc),
        }
    }

    /// Puts the maps by their names, as those of a section with these indices of symbols.
    ///
    /// # Errors
    ///
    /// - `SymbolNotFound`: the first name that is that of no symbol.
    /// - `OutOfMemory`: an allocation fails.
    pub fn put(
        &self,
        alloc: Global,
        maps: &mut ByName<Map>,
        section: &Section<'_>,
        symbols: &ByName<usize>,
    ) -> Result<(), ParseError>
        ensures put { OnOk result
            (maps.new
            ≡ put_all maps.old
            (distinct_maps (map.get symbols.now) section.now.index.0 self.now)) }
        ensures fault { Refuses is_parse_memory result
            (distinct_fault (map.get symbols.now) self.now) }
    {
        for number in 0..self.names.names.len() {
            let Some(name) = self.names.names.get(number) else {
                return Ok(());
            };
            let Some(definitions) = self.last.get(number) else {
                return Ok(());
            };
            put_last(alloc, maps, section, symbols, name.as_str(), definitions)?;
        }
        Ok(())
    }
}

/// Puts the last map of a name, which is copied where none is there.
fn put_last(
    alloc: Global,
    maps: &mut ByName<Map>,
    section: &Section<'_>,
    symbols: &ByName<usize>,
    name: &str,
    definitions: &MapDefinitions,
) -> Result<(), ParseError>
    ensures put { OnOk result
        (maps.new
        ≡ put_all maps.old
        (given
        (map_with_symbol (map.get symbols.now) section.now.index.0
        (Ok (name.now, definitions.now))))) }
    ensures fault { Refuses is_parse_memory result (missing (map.get symbols.now) name.now) }
{
    let Some(symbol_index) = symbols.get(name) else {
        return Err(ParseError::SymbolNotFound {
            name: Text::from_str(alloc, name)?,
        });
    };
    let declared = map_at(alloc, definitions, section.index.0, *symbol_index);
    let Err(declared) = maps.replace(name, declared) else {
        return Ok(());
    };
    maps.insert(String::from_str(alloc, name)?, declared)?;
    Ok(())
}
