//! The variables of the section `.maps`.

ghost use Rattle.std.specs.Prelude.{◌≡◌, [], IfOk, IfErr, true};
ghost use Rattle.std.specs.FinMap as finite;
ghost use Rattle.std.specs.Option.{option_copied};
ghost use Rattle.std.specs.Result.{result_ok};
ghost use Rattle.ebpf_btf.specs.Strings.{id_of_name, text_at};
ghost use Rattle.ebpf_btf.specs.declared.kind.BtfKind.TheVariants as kinds;
ghost use Rattle.ebpf_initial_slots.specs.InitialSlots.{is_initial_slot_memory};
ghost use Rattle.ebpf_initial_slots.specs.MapVariables.{declared_in, lacks_offsets, map_variable, map_variables, maps_datasec, maps_entries, maps_section_name, name_and_type, named_variable, variable_offset, variables_of};

use crate::error::InitialSlotError;
use crate::slots::values_offset;
use ebpf_base::{Items, Text};
use ebpf_btf::{Btf, BtfError, BtfKind, BtfType, DataSecEntry, Rows};
use ebpf_model::Symbol;
use ebpf_object::Object;
use ebpf_parts::maps::{BtfMap, Map};
use std::alloc::{AllocError, Global};

/// The name of the section and of its DATASEC: `.maps`.
pub const MAPS: &str = ".maps";

/// A variable of the section `.maps`, which declares a map.
#[derive(Debug, Drop)]
pub struct MapVariable {
    /// The name of the variable, and of the map.
    pub name: Text,
    /// The offset in the section, in bytes.
    pub offset: u64,
    /// The size in bytes.
    pub size: u32,
    /// The number of the map's type.
    pub map_type: u32,
    /// The size of the map's keys in bytes.
    pub key_size: u32,
    /// The offset of `values` in the variable, in bytes. `None` where the variable's type does not end in `values`.
    pub values: Option<u32>,
}

/// The entries of a DATASEC.
#[tactic(auto, unfolding(crate::specs::MapVariables::maps_entries))]
fn maps_entries<'a>(ty: &BtfType<'a>) -> Rows<'a, DataSecEntry>
    ensures { result ≡ maps_entries ty.now }
{
    match ty {
        BtfType::DataSec { entries, .. } => entries.copy(),
        _ => Rows::of(&[]),
    }
}

/// Whether a DATASEC is as compilers write it, without the offsets of its variables.
fn lacks_offsets(ty: &BtfType<'_>) -> bool
    ensures { result ≡ lacks_offsets ty.now }
{
    ty.size().unwrap_or(0) == 0
}

/// The offset of a VAR's name, and the id of its type.
#[tactic(auto, unfolding(crate::specs::MapVariables::name_and_type))]
fn name_and_type(ty: &BtfType<'_>) -> Option<(u32, u32)>
    ensures { result ≡ name_and_type ty.now }
{
    match ty {
        BtfType::Var {
            name_offset,
            btf_type,
            ..
        } => Some((*name_offset, *btf_type)),
        _ => None,
    }
}

/// The name at an offset of the strings, where there is one.
fn name_at(alloc: Global, types: &Btf, offset: u32) -> Result<Option<Text>, InitialSlotError>
    ensures name { IfOk result (λ name. name ≡ result_ok (text_at types.now.strings offset)) }
    ensures memory { IfErr result (λ e. is_initial_slot_memory e ≡ true) }
{
    match types.string_at(offset) {
        Ok(name) => Ok(Some(Text::from_str(alloc, name.as_str())?)),
        Err(BtfError::OutOfMemory) => Err(InitialSlotError::OutOfMemory),
        Err(_) => Ok(None),
    }
}

/// The name of the VAR with an id, and the id of its type.
#[tactic(auto, unfolding(crate::specs::MapVariables::named_variable))]
fn named_variable(
    alloc: Global,
    types: &Btf,
    type_id: u32,
) -> Result<Option<(Text, u32)>, InitialSlotError>
    ensures named { IfOk result (λ named. named ≡ named_variable types.now type_id) }
    ensures memory { IfErr result (λ e. is_initial_slot_memory e ≡ true) }
{
    let Some(ty) = types.get(type_id as usize) else {
        return Ok(None);
    };
    let Some((name_offset, value_type)) = name_and_type(&ty) else {
        return Ok(None);
    };
    match name_at(alloc, types, name_offset)? {
        Some(name) => Ok(Some((name, value_type))),
        None => Ok(None),
    }
}

/// A map that the section with an index declares.
fn declared_in(section: usize, map: Option<&Map>) -> Option<&BtfMap>
    ensures { option_copied result ≡ declared_in section (option_copied map.entry) }
{
    match map {
        Some(Map::Btf(map)) if map.section_index == section => Some(map),
        _ => None,
    }
}

/// The offset of a variable in the section.
fn variable_offset(unplaced: bool, entry: &DataSecEntry, symbol: Option<&Symbol>) -> u64
    ensures { result ≡ variable_offset unplaced entry.now (option_copied symbol.entry) }
{
    if !unplaced {
        return u64::from(entry.offset);
    }
    match symbol {
        Some(symbol) => symbol.address,
        None => 0,
    }
}

/// The variable of an entry, where the section declares a map of its name.
#[tactic(auto, unfolding(crate::specs::MapVariables::map_variable))]
fn map_variable(
    alloc: Global,
    object: &Object,
    types: &Btf,
    section: usize,
    unplaced: bool,
    entry: &DataSecEntry,
) -> Result<Option<MapVariable>, InitialSlotError>
    ensures variable { IfOk result (λ v.
        v ≡ map_variable object.now types.now section unplaced entry.now) }
    ensures memory { IfErr result (λ e. is_initial_slot_memory e ≡ true) }
{
    let Some((name, value_type)) = named_variable(alloc, types, entry.btf_type)? else {
        return Ok(None);
    };
    let Some(map) = declared_in(section, object.maps.get(name.as_str())) else {
        return Ok(None);
    };
    let symbol = object.symbol_table.get(map.symbol_index);
    Ok(Some(MapVariable {
        name,
        offset: variable_offset(unplaced, entry, symbol),
        size: entry.size,
        map_type: map.def.map_type,
        key_size: map.def.key_size,
        values: values_offset(types, value_type),
    }))
}

/// The variables of a DATASEC.
fn variables_of(
    alloc: Global,
    object: &Object,
    types: &Btf,
    section: usize,
    ty: &BtfType<'_>,
) -> Result<Items<MapVariable>, InitialSlotError>
    ensures variables { IfOk result (λ all.
        all ≡ variables_of object.now types.now section ty.now) }
    ensures memory { IfErr result (λ e. is_initial_slot_memory e ≡ true) }
{
    let unplaced = lacks_offsets(ty);
    let mut variables = Items::new(alloc);
    for entry in maps_entries(ty).iter() {
        let Some(variable) = map_variable(alloc, object, types, section, unplaced, &entry)? else {
            continue;
        };
        variables.push(variable)?;
    }
    Ok(variables)
}

/// The id of the first DATASEC `.maps`.
fn maps_datasec_id(types: &Btf) -> Result<Option<u32>, InitialSlotError>
    ensures id { IfOk result (λ id. id ≡ id_of_name types.now maps_section_name kinds.DataSec) }
    ensures memory { IfErr result (λ e. is_initial_slot_memory e ≡ true) }
{
    match types.id_by_type_name_kind(MAPS, BtfKind::DataSec) {
        Ok(id) => Ok(Some(id)),
        Err(BtfError::OutOfMemory) => Err(InitialSlotError::OutOfMemory),
        Err(_) => Ok(None),
    }
}

/// The first DATASEC `.maps`.
fn maps_datasec(types: &Btf) -> Result<Option<BtfType<'_>>, InitialSlotError>
    ensures datasec { IfOk result (λ ty. ty ≡ maps_datasec types.now) }
    ensures memory { IfErr result (λ e. is_initial_slot_memory e ≡ true) }
{
    match maps_datasec_id(types)? {
        Some(id) => Ok(types.get(id as usize)),
        None => Ok(None),
    }
}

/// The variables that declare the maps of the section with an index, in the order of the DATASEC's entries.
///
/// # Errors
///
/// - `OutOfMemory`: an allocation failed.
pub fn map_variables(
    alloc: Global,
    object: &Object,
    section: usize,
) -> Result<Items<MapVariable>, InitialSlotError>
    ensures variables { IfOk result (λ all. all ≡ map_variables object.now section) }
    ensures memory { IfErr result (λ e. is_initial_slot_memory e ≡ true) }
{
    let Some(types) = &object.btf else {
        return Ok(Items::new(alloc));
    };
    match maps_datasec(types)? {
        Some(ty) => variables_of(alloc, object, types, section, &ty),
        None => Ok(Items::new(alloc)),
    }
}
