//! The global variables of an object: a list of them, and the value of one.

ghost use Rattle.std.specs.Prelude.{◌≡◌, ◌+◌, ◌==◌, nat_le, map, None, IfOk, OnOk, OnErr};
ghost use Rattle.std.specs.FinMap.{entries};
ghost use Rattle.std.specs.List.{filter_map, find};
ghost use Rattle.std.specs.Option.{option_copied, option_map, option_and_then};
ghost use Rattle.ebpf_base.specs.Faults.{Refuses};
ghost use Rattle.ebpf_object.specs.Patches.{patches_fault, with_values};
ghost use Rattle.ebpf_object.specs.PrivateContracts.{named_map, variable_in};
ghost use Rattle.ebpf_object.specs.Variables.{bytes_in, is_variable_memory, map_if_inside, map_of_section, one_value, symbol_bytes, value_fault, value_named, variable_at, variable_map, variable_value, variables};
ghost use Rattle.ebpf_object.specs.declared.variables.VariableError.TheVariants.{OutOfMemory};
ghost use Rattle.ebpf_parts.specs.Maps.{section_index_of};

use crate::object::Object;
use crate::set_globals::{one_value, symbol_indices};
use ebpf_base::{ByName, Items};
use ebpf_model::Symbol;
use ebpf_parts::maps::Map;
use std::alloc::{AllocError, Global};
use thiserror::Error;

/// A global variable: a symbol with at least one byte, all of them inside the data of a map.
#[derive(Clone, Copy, Debug)]
pub struct Variable<'a> {
    /// The name of the variable.
    pub name: &'a str,
    /// The name of the variable's map: the first map by name that the symbol's section has.
    pub map: &'a str,
    /// The offset of the variable in the data of its map, in bytes.
    pub offset: u64,
    /// The size of the variable in bytes.
    pub size: u64,
}

/// The reason why the value of a variable could not be written.
#[derive(Clone, Copy, Debug, Drop, Error)]
pub enum VariableError {
    /// No symbol has the name, or its bytes are not inside the data of a map.
    #[error("no variable in the data of a map has this name")]
    NotAVariable,
    /// The value has another size than the variable.
    #[error("a value of {given} bytes does not fit the variable of {size} bytes")]
    WrongSize {
        /// The size of the variable in bytes.
        size: u64,
        /// The size of the value in bytes.
        given: usize,
    },
    /// An allocation failed.
    #[error("out of memory")]
    OutOfMemory,
}

impl From<AllocError> for VariableError {
    ghost from_gives = { λ _ e. e ≡ OutOfMemory };

    fn from(_error: AllocError) -> VariableError {
        VariableError::OutOfMemory
    }
}

/// The bytes at an offset of a block. `None` where they are not all inside.
pub fn bytes_in(bytes: &[u8], at: usize, count: usize) -> Option<&[u8]>
    ensures { option_copied result ≡ bytes_in bytes.now at count }
{
    let Some(end) = at.checked_add(count) else {
        return None;
    };
    if end > bytes.len() {
        return None;
    }
    Some(&bytes[at..end])
}

/// The first map of a section, with its name.
fn first_of_section(maps: &ByName<Map>, section: usize) -> Option<(&str, &Map)>
    ensures { option_map named_map result
        ≡ find (λ e. section == section_index_of e.1) (entries maps.now) }
{
    for (name, map) in maps.iter() {
        if section == map.section_index() {
            return Some((name.as_str(), map));
        }
    }
    None
}

/// The first map whose section it is, with its name.
fn map_of_section(maps: &ByName<Map>, section: Option<usize>) -> Option<(&str, &Map)>
    ensures { option_map named_map result ≡ map_of_section (entries maps.now) section }
{
    match section {
        Some(section) => first_of_section(maps, section),
        None => None,
    }
}

/// The bytes that a symbol names in the data of a map.
fn symbol_bytes<'b>(maps: &'b ByName<Map>, symbol: &Symbol) -> Option<&'b [u8]>
    ensures { option_copied result ≡ symbol_bytes (entries maps.now) symbol.now }
{
    match map_of_section(maps, symbol.section_index) {
        Some((_, map)) => bytes_in(map.data(), symbol.address as usize, symbol.size as usize),
        None => None,
    }
}

/// Whether a range lies inside.
fn is_inside(address: u64, size: u64, len: usize) -> bool
    ensures { result ≡ nat_le (address + size) len }
{
    match address.checked_add(size) {
        Some(end) => end <= len as u64,
        None => false,
    }
}

/// The name of a map that has all of a symbol's bytes.
fn map_if_inside<'b>(symbol: &Symbol, name: &'b str, map: &Map) -> Option<&'b str>
    ensures { option_copied result ≡ map_if_inside symbol.now (name.now, map.now) }
{
    if is_inside(symbol.address, symbol.size, map.data().len()) {
        Some(name)
    } else {
        None
    }
}

/// The name of the map that holds a symbol's bytes. `None` where no map holds them.
pub fn variable_map<'b>(maps: &'b ByName<Map>, symbol: &Symbol) -> Option<&'b str>
    ensures { option_copied result ≡ variable_map (entries maps.now) symbol.now }
{
    if symbol.size == 0 {
        return None;
    }
    match map_of_section(maps, symbol.section_index) {
        Some((name, map)) => map_if_inside(symbol, name, map),
        None => None,
    }
}

/// The variable that a symbol is, where it is one.
fn variable_of<'a>(maps: &'a ByName<Map>, symbol: &'a Symbol) -> Option<Variable<'a>>
    ensures { option_map variable_value result
        ≡ option_and_then variable_in
        (option_map (λ map. (map, symbol.now)) (variable_map (entries maps.now) symbol.now)) }
{
    let Some(map) = variable_map(maps, symbol) else {
        return None;
    };
    let Some(name) = &symbol.name else {
        return None;
    };
    Some(Variable {
        name: name.as_str(),
        map,
        offset: symbol.address,
        size: symbol.size,
    })
}

/// The variable that the symbol with an index is, where it is one.
fn variable_at(object: &Object, index: usize) -> Option<Variable<'_>>
    ensures { option_map variable_value result
        ≡ option_and_then variable_in
        (variable_at object.now.symbol_table (entries object.now.maps) index) }
{
    match object.symbol_table.get(index) {
        Some(symbol) => variable_of(&object.maps, symbol),
        None => None,
    }
}

/// The variables among the symbols with these indices.
#[tactic(auto, using(crate::proofs::VariableValues::one_listed))]
fn variables_among<'a>(
    alloc: Global,
    object: &'a Object,
    indices: &ByName<usize>,
) -> Result<Items<Variable<'a>>, AllocError>
    ensures { IfOk result (λ all.
        map variable_value all
        ≡ filter_map
        (λ e.
        option_and_then variable_in
        (variable_at object.now.symbol_table (entries object.now.maps) e.1))
        (entries indices.now)) }
{
    let mut all = Items::new(alloc);
    for (_, index) in indices.iter() {
        let Some(variable) = variable_at(object, *index) else {
            continue;
        };
        all.push(variable)?;
    }
    Ok(all)
}

impl Object {
    /// Returns the global variables, in byte order of their names.
    ///
    /// A variable is a symbol with at least one byte, all of them inside the data of a map. Of symbols of one name the
    /// one with the greatest index counts.
    ///
    /// # Errors
    ///
    /// - `AllocError`: an allocation failed.
    pub fn variables(&self) -> Result<Items<Variable<'_>>, AllocError>
        ensures { IfOk result (λ all. map variable_value all ≡ variables self.now) }
    {
        let alloc = self.allocator();
        match symbol_indices(alloc, &self.symbol_table) {
            Ok(indices) => variables_among(alloc, self, &indices),
            Err(error) => Err(error),
        }
    }

    /// Returns the bytes of a variable, as they are in the data of its map.
    ///
    /// The result is `None` where no symbol has the name, or its bytes are not all inside the data of a map.
    ///
    /// # Errors
    ///
    /// - `AllocError`: an allocation failed.
    pub fn value(&self, name: &str) -> Result<Option<&[u8]>, AllocError>
        ensures { IfOk result (λ value. option_copied value ≡ value_named self.now name.now) }
    {
        let indices = symbol_indices(self.allocator(), &self.symbol_table)?;
        let Some(index) = indices.get(name) else {
            return Ok(None);
        };
        match self.symbol_table.get(*index) {
            Some(symbol) => Ok(symbol_bytes(&self.maps, symbol)),
            None => Ok(None),
        }
    }

    /// The fault of a variable's new value.
    fn check_value(&self, name: &str, value: &[u8]) -> Result<(), VariableError>
        ensures { Refuses is_variable_memory result
            (value_fault (value_named self.now name.now) value.now) }
    {
        let Ok(found) = self.value(name) else {
            return Err(VariableError::OutOfMemory);
        };
        let Some(bytes) = found else {
            return Err(VariableError::NotAVariable);
        };
        if value.len() != bytes.len() {
            return Err(VariableError::WrongSize {
                size: bytes.len() as u64,
                given: value.len(),
            });
        }
        Ok(())
    }

    /// Writes the value of a variable into the data of its map, as `patch_map_data` does for a variable that must
    /// exist.
    ///
    /// # Errors
    ///
    /// - `NotAVariable`: no symbol has the name, or the symbol's bytes are not all inside the data of a map. So it is
    ///   for the symbol of a program, a function or a map.
    /// - `WrongSize`: the value has another size than the variable.
    /// - `OutOfMemory`: an allocation failed.
    ///
    /// On error the object is unchanged.
    pub fn set_value(&mut self, name: &str, value: &[u8]) -> Result<(), VariableError>
        ensures maps { OnOk result
            (self.new.maps
            ≡ with_values self.old.symbol_table self.old.maps (one_value name.now value.now)) }
        ensures sound { OnOk result
            (patches_fault self.old.symbol_table self.old.maps (one_value name.now value.now)
            ≡ None) }
        ensures fault { Refuses is_variable_memory result
            (value_fault (value_named self.old name.now) value.now) }
        ensures others_stay { self.new ≡ record self.old { maps = self.new.maps } }
        ensures unchanged { OnErr result (self.new ≡ self.old) }
    {
        if let Err(error) = self.check_value(name, value) {
            return Err(error);
        }
        let Ok(globals) = one_value(self.allocator(), name, value) else {
            return Err(VariableError::OutOfMemory);
        };
        match self.patch_map_data(globals) {
            Ok(()) => Ok(()),
            // the value has its place: only an allocation fails there
            Err(_) => Err(VariableError::OutOfMemory),
        }
    }
}
