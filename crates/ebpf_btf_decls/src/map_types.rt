//! The types that the members of a map's struct lead to, and the structs that declare maps.

ghost use Rattle.std.specs.Prelude.{◌≡◌, Some};
ghost use Rattle.ebpf_btf_decls.specs.MapMembers.{unexpected_type, pointee, number, extended_enum_value, sole_value, own_number, sized_type, is_prototype_at, members_at, pointee_struct, inner_map_struct};
ghost use Rattle.ebpf_base.specs.Faults.{Gives};
ghost use Rattle.ebpf_btf.specs.Memory.{is_btf_memory};

use ebpf_base::Text;
use ebpf_btf::{Btf, BtfError, BtfMember, BtfType, Rows};
use std::alloc::Global;

/// The error of a type that is of another kind than the wanted one.
pub fn unexpected_type(ty: &BtfType<'_>) -> BtfError
    ensures { result ≡ unexpected_type ty.now }
{
    BtfError::UnexpectedBtfType {
        type_id: ty.btf_type().unwrap_or(0),
    }
}

/// What a PTR points to.
#[tactic(auto, unfolding(crate::specs::MapMembers::pointee))]
pub fn pointee(ty: &BtfType<'_>) -> Option<u32>
    ensures { result ≡ pointee ty.now }
{
    match ty {
        BtfType::Ptr { btf_type, .. } => Some(*btf_type),
        _ => None,
    }
}

/// The number that a member spells: the length of the array that it points to.
#[tactic(auto, unfolding(crate::specs::MapMembers::number))]
pub fn number(btf: &Btf, type_id: u32) -> Result<u32, BtfError>
    ensures { result ≡ number btf.now.types type_id }
{
    let pointer = btf.type_by_id(type_id)?;
    let Some(target) = pointee(&pointer) else {
        return Err(unexpected_type(&pointer));
    };
    let target = btf.type_by_id(target)?;
    match target.array() {
        Some(array) => Ok(array.len),
        None => Err(unexpected_type(&target)),
    }
}

/// An ENUM's value with its sign extended.
fn extended_enum_value(value: u32) -> u64
    ensures { result ≡ extended_enum_value value }
{
    if value < 0x8000_0000 {
        return value as u64;
    }
    value as u64 + 0xFFFF_FFFF_0000_0000
}

/// The number that an ENUM or ENUM64 of one value is.
#[tactic(auto, unfolding(crate::specs::MapMembers::sole_value), using(crate::proofs::MemberValues::only_item))]
fn sole_value(ty: &BtfType<'_>) -> Option<u64>
    ensures { result ≡ sole_value ty.now }
{
    match ty {
        BtfType::Enum { variants, .. } => {
            if variants.len() != 1 {
                return None;
            }
            let only = variants.at(0);
            Some(extended_enum_value(only.value))
        }
        BtfType::Enum64 { variants, .. } => {
            if variants.len() != 1 {
                return None;
            }
            let only = variants.at(0);
            Some(only.value_high as u64 * 0x1_0000_0000 + only.value_low as u64)
        }
        _ => None,
    }
}

/// The number that a member is itself, modifiers followed.
#[tactic(auto, unfolding(crate::specs::MapMembers::own_number))]
pub fn own_number(btf: &Btf, type_id: u32) -> Option<u64>
    ensures { result ≡ own_number btf.now.types type_id }
{
    let Ok(ty) = btf.resolved_type(type_id) else {
        return None;
    };
    sole_value(&ty)
}

/// The type that a member spells, and its size in bytes.
#[tactic(auto, unfolding(crate::specs::MapMembers::sized_type))]
pub fn sized_type(btf: &Btf, type_id: u32) -> Result<(u32, u32), BtfError>
    ensures { result ≡ sized_type btf.now.types type_id }
{
    let pointer = btf.type_by_id(type_id)?;
    let Some(spelled) = pointee(&pointer) else {
        return Err(BtfError::UnexpectedBtfType { type_id });
    };
    let size = btf.type_size(spelled)?;
    Ok((spelled, size))
}

/// Whether the type with an id is one of functions.
#[tactic(auto, unfolding(crate::specs::MapMembers::is_prototype, crate::specs::MapMembers::is_prototype_at))]
pub fn is_prototype_at(btf: &Btf, type_id: u32) -> bool
    ensures { result ≡ is_prototype_at btf.now.types type_id }
{
    matches!(btf.type_by_id(type_id), Ok(BtfType::FuncProto { .. }))
}

/// The members of the STRUCT with an id.
#[tactic(auto, unfolding(crate::specs::MapMembers::members_at, crate::specs::MapMembers::struct_members))]
pub fn members_at(btf: &Btf, type_id: u32) -> Result<Rows<'_, BtfMember>, BtfError>
    ensures { result ≡ members_at btf.now.types type_id }
{
    let ty = btf.type_by_id(type_id)?;
    match &ty {
        BtfType::Struct { members, .. } => Ok(members.copy()),
        _ => Err(unexpected_type(&ty)),
    }
}

/// The id of what a pointer points to, modifiers followed before it and behind it.
#[tactic(auto, unfolding(crate::specs::MapMembers::pointee_struct))]
fn pointee_struct(btf: &Btf, type_id: u32) -> Result<u32, BtfError>
    ensures { result ≡ pointee_struct btf.now.types type_id }
{
    let pointer = btf.resolved_type(type_id)?;
    match pointee(&pointer) {
        Some(target) => btf.resolve_type(target),
        None => Err(unexpected_type(&pointer)),
    }
}

/// The id of the struct of the maps that the map with a name holds.
#[tactic(auto, unfolding(crate::specs::MapMembers::inner_map_struct))]
pub fn inner_map_struct(alloc: Global, btf: &Btf, name: &str, type_id: u32) -> Result<u32, BtfError>
    ensures { Gives is_btf_memory result (inner_map_struct btf.now.types name.now type_id) }
{
    let ty = btf.type_by_id(type_id)?;
    let Some(array) = ty.array() else {
        return Err(unexpected_type(&ty));
    };
    if array.len == 0 {
        return pointee_struct(btf, array.element_type);
    }
    Err(BtfError::InvalidValuesSpec {
        name: Text::from_str(alloc, name)?,
    })
}
