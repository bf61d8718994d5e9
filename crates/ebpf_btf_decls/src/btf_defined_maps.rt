//! The BTF-defined maps of the sections of a file, those of each name read once.

ghost use Rattle.std.specs.Prelude.{◌≡◌, IfOk, IfErr, OnOk, true, ℕ, List, Ok, Some, None, ⊤, is_some, slice_get};
ghost use Rattle.std.specs.Bool.{MatchBool};
ghost use Rattle.std.specs.List.{AllZip, flat_map};
ghost use Rattle.ebpf_base.specs.Faults.{Refuses, fault_of};
ghost use Rattle.ebpf_base.specs.Maps.{put_all};
ghost use Rattle.ebpf_btf.specs.Memory.{is_btf_memory};
ghost use Rattle.ebpf_btf_decls.specs.SectionMaps.{AreMapsOf, AreSectionMaps, missing, HasSymbol, Knows, AreFound, put_at, AreNumbered, HasNumber, AreKept};
ghost use Rattle.ebpf_btf_decls.specs.Maps.{btf_maps, btf_maps_fault, declared, entry_map, entries_fault};
ghost use Rattle.ebpf_parts.specs.Memory.{is_parse_memory};
ghost use Rattle.ebpf_btf_decls.specs.DataSections.{given};
ghost use Rattle.ebpf_btf_decls.specs.declared.members.MapDefinitions.{MapDefinitions};
ghost use Rattle.std.specs.FinMap as map;
ghost use Rattle.ebpf_parts.specs.declared.error.ParseError.TheVariants as errors;

use crate::data_sections::NamedSections;
use crate::distinct_maps::{DistinctMaps, declared};
use crate::known_structs::KnownStructs;
use crate::members::MapDefinitions;
use crate::numbered_names::put_at;
use ebpf_base::{ByName, Items, Text};
use ebpf_btf::{Btf, BtfError, DataSecEntry};
use ebpf_parts::maps::Map;
use ebpf_parts::{ParseError, ParseMode, Section};
use std::alloc::Global;
use std::marker::Model;

/// Types that declare maps, and the maps that the DATASECs of the names of sections declare, each name of a map once.
/// Contracts see the types and how they are read.
#[derive(Drop)]
pub struct BtfDefinedMaps<'b> {
    btf: &'b Btf,
    mode: ParseMode,
    sections: NamedSections,
    known: KnownStructs,
    distinct: ByName<DistinctMaps>,
    ghost found: { AreFound btf.now sections },
    ghost structs: { Knows mode btf.now known },
    ghost kept: { AreSectionMaps mode btf.now distinct },
}

impl<'b> Model for BtfDefinedMaps<'b> {
    ghost use Rattle.ebpf_btf_decls.specs.Maps.{TypesInMode};

    ghost Value = { TypesInMode };

    ghost view = { λ d. record { mode = d.mode; types = d.btf.now } };
}

impl<'b> BtfDefinedMaps<'b> {
    /// Finds the DATASECs of these names in one pass over the types.
    ///
    /// Of each DATASEC's name no more bytes are read than the longest of these names has.
    ///
    /// # Errors
    ///
    /// - `OutOfMemory`: an allocation fails.
    #[tactic(auto, using(crate::proofs::SectionMaps::none_kept))]
    pub fn gather(
        alloc: Global,
        btf: &'b Btf,
        mode: ParseMode,
        names: &[&str],
    ) -> Result<BtfDefinedMaps<'b>, BtfError>
        ensures types { IfOk result (λ d. d ≡ record { mode = mode; types = btf.now }) }
        ensures memory { IfErr result (λ e. is_btf_memory e ≡ true) }
    {
        let sections = NamedSections::gather(alloc, btf, names)?;
        Ok(BtfDefinedMaps {
            btf,
            mode,
            sections,
            known: KnownStructs::none(alloc),
            distinct: ByName::new(alloc),
        })
    }

    /// Puts the BTF-defined maps of a section by their names (libbpf's BTF-defined maps).
    ///
    /// The DATASECs with the section's name and their entries count in order; of equal names the later one is kept. The
    /// declarations of a name are read at the first section of the name, and kept for the others.
    ///
    /// # Errors
    ///
    /// - `BtfError`: a type of a declaration can't be read, or declares no map.
    /// - `SymbolNotFound`: a map's name is that of no symbol of the section.
    /// - `OutOfMemory`: an allocation fails.
    pub fn put(
        &mut self,
        alloc: Global,
        maps: &mut ByName<Map>,
        section: &Section<'_>,
        symbols: &ByName<usize>,
    ) -> Result<(), ParseError>
        ensures stays { self.new ≡ self.old }
        ensures put { OnOk result
            (maps.new
            ≡ put_all maps.old
            (btf_maps self.old.mode self.old.types (map.get symbols.now)
            section.now.index.0 section.now.name)) }
        ensures fault { Refuses is_parse_memory result
            (btf_maps_fault self.old.mode self.old.types (map.get symbols.now)
            section.now.index.0 section.now.name) }
    {
        if let Some(distinct) = self.distinct.get(section.name) {
            return distinct.put(alloc, maps, section, symbols);
        }
        if let Err(error) = self.sections.look_for(alloc, self.btf, section.name) {
            return Err(parse_error(error));
        }
        let distinct = read_section_maps(
            self.btf,
            self.mode,
            &mut self.known,
            &self.sections,
            section.name,
            symbols,
        )?;
        distinct.put(alloc, maps, section, symbols)?;
        self.distinct
            .insert(String::from_str(alloc, section.name)?, distinct)?;
        Ok(())
    }
}

/// `SymbolNotFound` of a name that no symbol has, which is looked for at the first map of the name.
fn check_symbol(
    alloc: Global,
    symbols: &ByName<usize>,
    last: &Items<MapDefinitions>,
    number: usize,
    name: &str,
) -> Result<(), ParseError>
    requires { (d : MapDefinitions)
        → slice_get last.now number ≡ Some d
        → missing (map.get symbols.now) name.now ≡ None }
    ensures { Refuses is_parse_memory result (missing (map.get symbols.now) name.now) }
{
    if let Some(_before) = last.get(number) {
        return Ok(());
    }
    if let Some(_symbol) = symbols.get(name) {
        return Ok(());
    }
    Err(ParseError::SymbolNotFound {
        name: Text::from_str(alloc, name)?,
    })
}

/// Adds what an entry declares, unless it has a fault or a name that no symbol has.
#[tactic(auto, unfolding(crate::specs::Maps::entry_map))]
fn add_entry(
    distinct: &mut DistinctMaps,
    btf: &Btf,
    mode: ParseMode,
    known: &mut KnownStructs,
    symbols: &ByName<usize>,
    entry: &DataSecEntry,
) -> Result<(), ParseError>
    requires known { Knows mode btf.now known.old }
    requires numbered { AreNumbered btf.now.strings distinct.old.names }
    requires symbols { AllZip (HasSymbol (map.get symbols.now)) distinct.old.names.names
        distinct.old.last }
    ensures known { Knows mode btf.now known.new }
    ensures numbered { OnOk result (AreNumbered btf.now.strings distinct.new.names) }
    ensures added { OnOk result
        ((name : List ℕ)
        × (n : ℕ)
        × (d : MapDefinitions)
        × (declared mode btf.now entry.now ≡ Ok (name, d))
        × HasNumber distinct.old.names.names distinct.new.names.names name n
        × (distinct.new.last ≡ put_at distinct.old.last n d)
        × HasSymbol (map.get symbols.now) name d) }
    ensures fault { Refuses is_parse_memory result
        (fault_of (entry_map mode btf.now (map.get symbols.now) 0 entry.now)) }
{
    let alloc = *distinct.last.as_vec().allocator();
    let (number, definitions) = match declared(
        alloc,
        btf,
        mode,
        known,
        &mut distinct.names,
        entry,
    ) {
        Ok(found) => found,
        Err(error) => return Err(parse_error(error)),
    };
    check_symbol(
        alloc,
        symbols,
        &distinct.last,
        number,
        distinct.names.name(number),
    )?;
    put_at(&mut distinct.last, number, definitions)?;
    Ok(())
}

/// What entries declare, or the first fault or name that no symbol has.
fn read_entries(
    alloc: Global,
    btf: &Btf,
    mode: ParseMode,
    known: &mut KnownStructs,
    symbols: &ByName<usize>,
    entries: &[DataSecEntry],
) -> Result<DistinctMaps, ParseError>
    requires { Knows mode btf.now known.old }
    ensures known { Knows mode btf.now known.new }
    ensures kept { IfOk result (λ distinct.
        AreKept distinct.names.names distinct.last
        (flat_map (λ entry. given (declared mode btf.now entry)) entries.now)) }
    ensures fault { Refuses is_parse_memory result
        (entries_fault mode btf.now (map.get symbols.now) 0 entries.now) }
{
    let mut distinct = DistinctMaps::none(alloc);
    for entry in entries {
        add_entry(&mut distinct, btf, mode, known, symbols, entry)?;
    }
    Ok(distinct)
}

/// What the DATASECs of a name declare, which was looked for, or the first fault in a section of the name with these
/// symbols.
fn read_section_maps(
    btf: &Btf,
    mode: ParseMode,
    known: &mut KnownStructs,
    sections: &NamedSections,
    name: &str,
    symbols: &ByName<usize>,
) -> Result<DistinctMaps, ParseError>
    requires found { AreFound btf.now sections.now }
    requires there { is_some (map.get sections.now.by_name name.now) ≡ true }
    requires known { Knows mode btf.now known.old }
    ensures known { Knows mode btf.now known.new }
    ensures maps { IfOk result (λ distinct. AreMapsOf mode btf.now name.now distinct) }
    ensures fault { Refuses is_parse_memory result
        (btf_maps_fault mode btf.now (map.get symbols.now) 0 name.now) }
{
    let Some(entries) = sections.by_name.get(name) else {
        unreachable!()
    };
    let alloc = *entries.as_vec().allocator();
    let distinct = read_entries(alloc, btf, mode, known, symbols, entries.as_slice())?;
    match sections.unreadable {
        Some(offset) => Err(ParseError::BtfError(BtfError::InvalidStringOffset { offset })),
        None => Ok(distinct),
    }
}

/// Returns a fault of types as a fault of parsing; an allocation failure stays one.
pub fn parse_error(error: BtfError) -> ParseError
    ensures memory { is_parse_memory result ≡ is_btf_memory error }
    ensures other { MatchBool (is_btf_memory error) ⊤ (result ≡ errors.BtfError error) }
{
    match error {
        BtfError::OutOfMemory => ParseError::OutOfMemory,
        error => ParseError::BtfError(error),
    }
}
