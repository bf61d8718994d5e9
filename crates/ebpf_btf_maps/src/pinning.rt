//! The numbers of pinnings that BTF-defined maps ask for.

ghost use Rattle.std.specs.Prelude.{◌≡◌, IfOk, IfErr, true};
ghost use Rattle.std.specs.Result.{result_ok};
ghost use Rattle.ebpf_base.specs.Faults.{Refuses, first_some};
ghost use Rattle.ebpf_btf.specs.Strings.{id_of_name};
ghost use Rattle.ebpf_btf.specs.declared.kind.BtfKind.TheVariants as kinds;
ghost use Rattle.ebpf_btf_decls.specs.MapMembers.{number, pointee};
ghost use Rattle.ebpf_btf_maps.specs.Memory.{is_btf_map_memory};
ghost use Rattle.ebpf_btf_maps.specs.Pinnings.{entry_fault, maps_datasec, maps_entries, maps_section_name, member_fault, name_and_type, pinning_fault, pinning_number, struct_members, text_or_empty, variable_fault};

use crate::error::BtfMapError;
use ebpf_base::Text;
use ebpf_btf::strings::is_text_at;
use ebpf_btf::{Btf, BtfError, BtfKind, BtfMember, BtfType, DataSecEntry, Rows};
use std::alloc::Global;

/// The name of the DATASEC of BTF-defined maps: `.maps`.
const MAPS: &str = ".maps";

/// What a PTR points to.
#[tactic(auto, unfolding(ebpf_btf_decls::specs::MapMembers::pointee))]
fn pointee(ty: &BtfType<'_>) -> Option<u32>
    ensures { result ≡ pointee ty.now }
{
    match ty {
        BtfType::Ptr { btf_type, .. } => Some(*btf_type),
        _ => None,
    }
}

/// The number that a member spells: the length of the array that its type points to.
#[tactic(auto, unfolding(ebpf_btf_decls::specs::MapMembers::number))]
fn number(types: &Btf, type_id: u32) -> Option<u32>
    ensures { result ≡ result_ok (number types.now.types type_id) }
{
    let Ok(pointer) = types.type_by_id(type_id) else {
        return None;
    };
    let Some(target) = pointee(&pointer) else {
        return None;
    };
    let Ok(target) = types.type_by_id(target) else {
        return None;
    };
    match target.array() {
        Some(array) => Some(array.len),
        None => None,
    }
}

/// The number of a member `pinning`.
fn pinning_number(types: &Btf, member: &BtfMember) -> Option<u32>
    ensures { result ≡ pinning_number types.now member.now }
{
    if is_text_at(types.strings(), member.name_offset, "pinning") {
        return number(types, member.btf_type);
    }
    None
}

/// The name at an offset of the strings, empty where it can't be read.
fn text_or_empty(alloc: Global, types: &Btf, offset: u32) -> Result<Text, BtfMapError>
    ensures name { IfOk result (λ name. name ≡ text_or_empty types.now offset) }
    ensures memory { IfErr result (λ e. is_btf_map_memory e ≡ true) }
{
    match types.string_at(offset) {
        Ok(name) => Ok(Text::from_str(alloc, name.as_str())?),
        Err(BtfError::OutOfMemory) => Err(BtfMapError::OutOfMemory),
        Err(_) => Ok(Text::empty(alloc)),
    }
}

/// Checks a member of the map with a name.
fn check_member(
    alloc: Global,
    types: &Btf,
    name_offset: u32,
    member: &BtfMember,
) -> Result<(), BtfMapError>
    ensures { Refuses is_btf_map_memory result (member_fault types.now name_offset member.now) }
{
    let Some(number) = pinning_number(types, member) else {
        return Ok(());
    };
    if number < 2 {
        return Ok(());
    }
    let map = text_or_empty(alloc, types, name_offset)?;
    Err(BtfMapError::UnknownPinning { map, number })
}

/// Checks the members of the map with a name.
fn check_members(
    alloc: Global,
    types: &Btf,
    name_offset: u32,
    members: &Rows<'_, BtfMember>,
) -> Result<(), BtfMapError>
    ensures { Refuses is_btf_map_memory result
        (first_some (member_fault types.now name_offset) members.now) }
{
    for member in members.iter() {
        check_member(alloc, types, name_offset, &member)?;
    }
    Ok(())
}

/// The members of a STRUCT.
#[tactic(auto, unfolding(crate::specs::Pinnings::struct_members))]
fn struct_members<'a>(ty: &BtfType<'a>) -> Rows<'a, BtfMember>
    ensures { result ≡ struct_members ty.now }
{
    match ty {
        BtfType::Struct { members, .. } => members.copy(),
        _ => Rows::of(&[]),
    }
}

/// The offset of a VAR's name, and the id of its type.
#[tactic(auto, unfolding(crate::specs::Pinnings::name_and_type))]
fn name_and_type(ty: &BtfType<'_>) -> Option<(u32, u32)>
    ensures { result ≡ name_and_type ty.now }
{
    match ty {
        BtfType::Var {
            name_offset,
            btf_type,
            ..
        } => Some((*name_offset, *btf_type)),
        _ => None,
    }
}

/// Checks the map that a variable declares.
fn check_variable(alloc: Global, types: &Btf, variable: (u32, u32)) -> Result<(), BtfMapError>
    ensures { Refuses is_btf_map_memory result (variable_fault types.now variable) }
{
    let Ok(ty) = types.resolved_type(variable.1) else {
        return Ok(());
    };
    check_members(alloc, types, variable.0, &struct_members(&ty))
}

/// Checks the map that an entry declares.
#[tactic(auto, unfolding(crate::specs::Pinnings::entry_fault))]
fn check_entry(alloc: Global, types: &Btf, entry: &DataSecEntry) -> Result<(), BtfMapError>
    ensures { Refuses is_btf_map_memory result (entry_fault types.now entry.now) }
{
    let Some(ty) = types.get(entry.btf_type as usize) else {
        return Ok(());
    };
    match name_and_type(&ty) {
        Some(variable) => check_variable(alloc, types, variable),
        None => Ok(()),
    }
}

/// Checks the maps that some entries declare.
fn check_entries(
    alloc: Global,
    types: &Btf,
    entries: &Rows<'_, DataSecEntry>,
) -> Result<(), BtfMapError>
    ensures { Refuses is_btf_map_memory result
        (first_some (entry_fault types.now) entries.now) }
{
    for entry in entries.iter() {
        check_entry(alloc, types, &entry)?;
    }
    Ok(())
}

/// The entries of a DATASEC.
#[tactic(auto, unfolding(crate::specs::Pinnings::maps_entries))]
fn maps_entries<'a>(ty: &BtfType<'a>) -> Rows<'a, DataSecEntry>
    ensures { result ≡ maps_entries ty.now }
{
    match ty {
        BtfType::DataSec { entries, .. } => entries.copy(),
        _ => Rows::of(&[]),
    }
}

/// The id of the first DATASEC `.maps`.
fn maps_datasec_id(types: &Btf) -> Result<Option<u32>, BtfMapError>
    ensures id { IfOk result (λ id. id ≡ id_of_name types.now maps_section_name kinds.DataSec) }
    ensures memory { IfErr result (λ e. is_btf_map_memory e ≡ true) }
{
    match types.id_by_type_name_kind(MAPS, BtfKind::DataSec) {
        Ok(id) => Ok(Some(id)),
        Err(BtfError::OutOfMemory) => Err(BtfMapError::OutOfMemory),
        Err(_) => Ok(None),
    }
}

/// The first DATASEC `.maps`.
fn maps_datasec(types: &Btf) -> Result<Option<BtfType<'_>>, BtfMapError>
    ensures datasec { IfOk result (λ ty. ty ≡ maps_datasec types.now) }
    ensures memory { IfErr result (λ e. is_btf_map_memory e ≡ true) }
{
    match maps_datasec_id(types)? {
        Some(id) => Ok(types.get(id as usize)),
        None => Ok(None),
    }
}

/// Checks the numbers of the pinnings that BTF-defined maps ask for.
///
/// # Errors
///
/// - `UnknownPinning`: the first map of the first DATASEC `.maps` with a member `pinning` of another number than 0
///   and 1.
/// - `OutOfMemory`: an allocation failed.
#[tactic(auto, unfolding(crate::specs::Pinnings::pinning_fault))]
pub fn check_pinnings(alloc: Global, types: &Option<Btf>) -> Result<(), BtfMapError>
    ensures { Refuses is_btf_map_memory result (pinning_fault types.now) }
{
    let Some(types) = types else {
        return Ok(());
    };
    match maps_datasec(types)? {
        Some(ty) => check_entries(alloc, types, &maps_entries(&ty)),
        None => Ok(()),
    }
}
