//! The own maps of slots, by the names of an object's maps.

ghost use Rattle.std.specs.FinMap as map;
ghost use Rattle.std.specs.Option.{option_copied};
ghost use Rattle.std.specs.Prelude.{◌≡◌, IfOk, OnOk};
ghost use Rattle.ebpf_reloc.specs.NamedSlots.{map_names, map_naming, missing_in_section, missing_map, name_if_missing, own_map, with_map_name};

use ebpf_base::{ByIndex, ByName, Text};
use ebpf_model::Symbol;
use ebpf_parts::Relocation;
use ebpf_parts::insn::bpf_insn;
use ebpf_parts::maps::Map;
use std::alloc::{AllocError, Global};
use std::collections::HashSet;

/// The names of an object's maps by the index of the symbol that names them, and by that of their section.
#[derive(Drop)]
pub struct MapNames {
    /// The name of the last map of each symbol, in byte order.
    pub by_symbol: ByIndex<Text>,
    /// The name of the last map of each section, in byte order.
    pub by_section: ByIndex<Text>,
}

/// What is read to find the maps that slots refer to and that have no descriptor.
#[derive(Clone, Copy)]
pub struct MapNaming<'a> {
    /// The symbols by their index.
    pub symbols: &'a ByIndex<Symbol>,
    /// The names of the object's maps.
    pub names: &'a MapNames,
    /// The descriptors by the names of maps.
    pub descriptors: &'a ByName<i32>,
    /// The indexes of the sections that hold functions.
    pub text_sections: &'a HashSet<usize>,
}

impl MapNames {
    /// Puts a map's name over those of its symbol and its section.
    fn put(&mut self, alloc: Global, name: &str, map: &Map) -> Result<(), AllocError>
        ensures { OnOk result (self.new ≡ with_map_name self.old name.now map.now) }
    {
        if let Some(symbol) = map.symbol_index() {
            self.by_symbol.insert(symbol, Text::from_str(alloc, name)?)?;
        }
        self.by_section
            .insert(map.section_index(), Text::from_str(alloc, name)?)?;
        Ok(())
    }

    /// The names of maps, the later in byte order over the earlier.
    pub fn gather(alloc: Global, maps: &ByName<Map>) -> Result<MapNames, AllocError>
        ensures { IfOk result (λ names. names ≡ map_names maps.now) }
    {
        let mut names = MapNames {
            by_symbol: ByIndex::new(alloc),
            by_section: ByIndex::new(alloc),
        };
        for (name, map) in maps.iter() {
            names.put(alloc, name.as_str(), map)?;
        }
        Ok(names)
    }

    /// The name of a slot's own map, by the symbol of its relocation and the symbol's section.
    pub fn own_map(&self, symbol: usize, section: usize) -> Option<&Text>
        ensures { option_copied result ≡ own_map self.now symbol section }
    {
        match self.by_symbol.get(symbol) {
            Some(name) => Some(name),
            None => self.by_section.get(section),
        }
    }
}

/// A map's name, where the map has no descriptor.
fn name_if_missing<'a>(descriptors: &ByName<i32>, name: Option<&'a Text>) -> Option<&'a str>
    ensures { option_copied result ≡ name_if_missing descriptors.now (option_copied name.entry) }
{
    let Some(name) = name else {
        return None;
    };
    if descriptors.contains_key(name.as_str()) {
        return None;
    }
    Some(name.as_str())
}

impl<'a> MapNaming<'a> {
    /// The name of the own map of a slot with a symbol in this section, where the map has no descriptor.
    fn missing_in_section(
        &self,
        section: Option<usize>,
        relocation: Relocation,
        slot: bpf_insn,
    ) -> Option<&'a str>
        ensures { option_copied result
            ≡ missing_in_section (map_naming self.now) section relocation slot }
    {
        let Some(section) = section else {
            return None;
        };
        if slot.is_pseudo_call() || self.text_sections.contains(&section) {
            return None;
        }
        let own = self.names.own_map(relocation.symbol_index, section);
        name_if_missing(self.descriptors, own)
    }

    /// The name of a slot's own map, where the map has no descriptor.
    pub fn missing_map(&self, relocation: Relocation, slot: bpf_insn) -> Option<&'a str>
        ensures { option_copied result ≡ missing_map (map_naming self.now) relocation slot }
    {
        match self.symbols.get(relocation.symbol_index) {
            Some(symbol) => self.missing_in_section(symbol.section_index, relocation, slot),
            None => None,
        }
    }
}
