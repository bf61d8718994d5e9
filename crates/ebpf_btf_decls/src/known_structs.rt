//! What structs say of maps, member by member, remembered by the ids of the structs.

ghost use Rattle.std.specs.Prelude.{◌≡◌};
ghost use Rattle.ebpf_base.specs.Faults.{Gives};
ghost use Rattle.ebpf_btf.specs.Memory.{is_btf_memory};
ghost use Rattle.ebpf_btf.specs.TypeInfo.{TypeInfo};
ghost use Rattle.ebpf_btf_decls.specs.SectionMaps.{RemembersInner, Knows};
ghost use Rattle.ebpf_btf_decls.specs.Maps.{pinning_by_number, own_extra, number_value, are_programs, plain_value, inner_member_value_of, inner_member_value, inner_definition, inner_struct_definition, member_value_of, member_value, definitions, struct_definitions};
ghost use Rattle.ebpf_parts.specs.declared.parse_mode.ParseMode.{ParseMode};

use crate::map_types::{
    inner_map_struct, is_prototype_at, members_at, number, own_number, sized_type,
};
use crate::members::{MapDefinitions, MapMember, MapNumber, MemberValue, map_member_at};
use ebpf_base::Text;
use ebpf_btf::{Btf, BtfError, BtfMember, Rows};
use ebpf_parts::ParseMode;
use ebpf_parts::maps::{BtfMapDef, PinningType};
use std::alloc::Global;
use std::collections::BTreeMap;

fn pinning_by_number(number: u32) -> PinningType
    ensures { result ≡ pinning_by_number number }
{
    if number == 1 {
        return PinningType::ByName;
    }
    PinningType::None
}

/// What `map_extra` is itself, in lenient parsing.
fn own_extra(btf: &Btf, mode: ParseMode, of: MapNumber, type_id: u32) -> Option<u64>
    ensures { result ≡ own_extra mode btf.now.types of type_id }
{
    match (mode, of) {
        (ParseMode::Lenient, MapNumber::MapExtra) => own_number(btf, type_id),
        _ => None,
    }
}

/// What a member says that is about a number.
fn number_value(
    btf: &Btf,
    mode: ParseMode,
    of: MapNumber,
    type_id: u32,
) -> Result<MemberValue, BtfError>
    ensures { result ≡ number_value mode btf.now.types of type_id }
{
    if let Some(number) = own_extra(btf, mode, of, type_id) {
        return Ok(MemberValue::Extra(number));
    }
    let number = number(btf, type_id)?;
    Ok(MemberValue::Number { of, number })
}

/// Whether values are programs, by the type that an element points to, in lenient parsing.
fn are_programs(btf: &Btf, mode: ParseMode, type_id: u32) -> bool
    ensures { result ≡ are_programs mode btf.now.types type_id }
{
    match mode {
        ParseMode::Lenient => is_prototype_at(btf, type_id),
        ParseMode::Strict => false,
    }
}

/// What a member says that is about a number or a type; others say nothing.
#[tactic(auto, unfolding(crate::specs::Maps::plain_value))]
fn plain_value(
    btf: &Btf,
    mode: ParseMode,
    member: MapMember,
    type_id: u32,
) -> Result<MemberValue, BtfError>
    ensures { result ≡ plain_value mode btf.now.types member type_id }
{
    match member {
        MapMember::Number(of) => number_value(btf, mode, of, type_id),
        MapMember::Pinning => Ok(MemberValue::Pinning(pinning_by_number(number(btf, type_id)?))),
        MapMember::Key => {
            let (type_id, size) = sized_type(btf, type_id)?;
            Ok(MemberValue::Key { type_id, size })
        }
        MapMember::Value => {
            let (type_id, size) = sized_type(btf, type_id)?;
            Ok(MemberValue::Value { type_id, size })
        }
        MapMember::Values | MapMember::Other => Ok(MemberValue::Nothing),
    }
}

/// What the member with a name says of an inner map of the map with a name.
#[tactic(auto, unfolding(crate::specs::Maps::inner_member_value, crate::specs::Maps::inner_member_value_of))]
fn inner_member_value(
    alloc: Global,
    btf: &Btf,
    mode: ParseMode,
    name: &str,
    member: &BtfMember,
) -> Result<MemberValue, BtfError>
    ensures { Gives is_btf_memory result (inner_member_value mode btf.now name.now member.now) }
{
    match map_member_at(btf, member)? {
        MapMember::Pinning => Err(BtfError::InnerMapCannotBePinned {
            name: Text::from_str(alloc, name)?,
        }),
        MapMember::Values => Err(BtfError::MultiLevelMapInMapNotSupported {
            name: Text::from_str(alloc, name)?,
        }),
        about => plain_value(btf, mode, about, member.btf_type),
    }
}

/// What members say of an inner map of the map with a name.
#[tactic(auto, using(crate::proofs::MemberValues::fault_given, crate::proofs::MemberValues::all_are_given))]
fn inner_definition(
    alloc: Global,
    btf: &Btf,
    mode: ParseMode,
    name: &str,
    members: &Rows<'_, BtfMember>,
) -> Result<BtfMapDef, BtfError>
    ensures { Gives is_btf_memory result (inner_definition mode btf.now name.now members.now) }
{
    let mut all = MapDefinitions::none();
    for index in 0..members.len() {
        let member = members.at(index);
        all = all.with(inner_member_value(alloc, btf, mode, name, &member)?);
    }
    Ok(all.def)
}

/// What the struct with an id says of the maps that the map with a name holds.
fn read_inner_struct(
    alloc: Global,
    btf: &Btf,
    mode: ParseMode,
    name: &str,
    struct_id: u32,
) -> Result<BtfMapDef, BtfError>
    ensures { Gives is_btf_memory result (inner_struct_definition mode btf.now name.now struct_id) }
{
    let members = members_at(btf, struct_id)?;
    inner_definition(alloc, btf, mode, name, &members)
}

/// What the struct with an id says of the maps that the map with a name holds, read at the first map that holds such
/// maps.
fn inner_struct_definition(
    alloc: Global,
    btf: &Btf,
    mode: ParseMode,
    known: &mut BTreeMap<u32, BtfMapDef>,
    name: &str,
    struct_id: u32,
) -> Result<BtfMapDef, BtfError>
    requires { RemembersInner mode btf.now known.old }
    ensures says { Gives is_btf_memory result
        (inner_struct_definition mode btf.now name.now struct_id) }
    ensures known { RemembersInner mode btf.now known.new }
{
    if let Some(said) = known.get(&struct_id) {
        return Ok(*said);
    }
    let said = read_inner_struct(alloc, btf, mode, name, struct_id)?;
    known.insert(struct_id, said)?;
    Ok(said)
}

/// What the member with a name says of the map with a name.
#[tactic(auto, unfolding(crate::specs::Maps::member_value, crate::specs::Maps::member_value_of))]
fn member_value(
    alloc: Global,
    btf: &Btf,
    mode: ParseMode,
    known: &mut BTreeMap<u32, BtfMapDef>,
    name: &str,
    member: &BtfMember,
) -> Result<MemberValue, BtfError>
    requires { RemembersInner mode btf.now known.old }
    ensures says { Gives is_btf_memory result (member_value mode btf.now name.now member.now) }
    ensures known { RemembersInner mode btf.now known.new }
{
    let about = map_member_at(btf, member)?;
    if about != MapMember::Values {
        return plain_value(btf, mode, about, member.btf_type);
    }
    let struct_id = inner_map_struct(alloc, btf, name, member.btf_type)?;
    if are_programs(btf, mode, struct_id) {
        return Ok(MemberValue::Programs);
    }
    let inner = inner_struct_definition(alloc, btf, mode, known, name, struct_id)?;
    Ok(MemberValue::Values(inner))
}

/// What members say of the map with a name.
#[tactic(auto, using(crate::proofs::MemberValues::fault_given, crate::proofs::MemberValues::all_are_given))]
pub fn definitions(
    alloc: Global,
    btf: &Btf,
    mode: ParseMode,
    known: &mut BTreeMap<u32, BtfMapDef>,
    name: &str,
    members: &Rows<'_, BtfMember>,
) -> Result<MapDefinitions, BtfError>
    requires { RemembersInner mode btf.now known.old }
    ensures says { Gives is_btf_memory result (definitions mode btf.now name.now members.now) }
    ensures known { RemembersInner mode btf.now known.new }
{
    let mut all = MapDefinitions::none();
    for index in 0..members.len() {
        let member = members.at(index);
        all = all.with(member_value(alloc, btf, mode, known, name, &member)?);
    }
    Ok(all)
}

/// What structs say of maps, by the ids of the structs.
#[derive(Drop)]
pub struct KnownStructs {
    /// Of the maps that they declare.
    pub maps: BTreeMap<u32, MapDefinitions>,
    /// Of the maps that maps hold.
    pub inner_maps: BTreeMap<u32, BtfMapDef>,
}

impl KnownStructs {
    /// Where no struct was read.
    pub fn none(alloc: Global) -> KnownStructs
        ensures { (mode : ParseMode) (info : TypeInfo) → Knows mode info result }
    {
        KnownStructs {
            maps: BTreeMap::new(alloc),
            inner_maps: BTreeMap::new(alloc),
        }
    }
}

/// What the struct with an id says of the map with a name.
fn read_struct(
    alloc: Global,
    btf: &Btf,
    mode: ParseMode,
    inner_maps: &mut BTreeMap<u32, BtfMapDef>,
    name: &str,
    struct_id: u32,
) -> Result<MapDefinitions, BtfError>
    requires { RemembersInner mode btf.now inner_maps.old }
    ensures says { Gives is_btf_memory result (struct_definitions mode btf.now name.now struct_id) }
    ensures known { RemembersInner mode btf.now inner_maps.new }
{
    let members = members_at(btf, struct_id)?;
    definitions(alloc, btf, mode, inner_maps, name, &members)
}

/// What the struct with an id says of the map with a name, read at the first map that the struct declares.
pub fn struct_definitions(
    alloc: Global,
    btf: &Btf,
    mode: ParseMode,
    known: &mut KnownStructs,
    name: &str,
    struct_id: u32,
) -> Result<MapDefinitions, BtfError>
    requires { Knows mode btf.now known.old }
    ensures says { Gives is_btf_memory result (struct_definitions mode btf.now name.now struct_id) }
    ensures known { Knows mode btf.now known.new }
{
    if let Some(said) = known.maps.get(&struct_id) {
        return Ok(*said);
    }
    let said = read_struct(alloc, btf, mode, &mut known.inner_maps, name, struct_id)?;
    known.maps.insert(struct_id, said)?;
    Ok(said)
}
