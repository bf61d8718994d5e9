//! The values of CO-RE relocations by the object's own types.

use cli_common::record_names::{no_answer, own_value_of};
use ebpf_btf::{Btf, BtfKind};
use ebpf_btf_ext::{Relocation, RelocationKind};
use ebpf_core::{FieldPlace, NamedPath, PlaceEnd, local_path};
use std::alloc::{AllocError, Global};

/// The id of the type of the member with a number.
fn member_type(local: &Btf, parent: u32, index: usize) -> Option<u32> {
    let ty = local.type_by_id(parent).ok()?;
    let member = ty.members()?.get(index)?;
    Some(member.btf_type)
}

/// The id of the type of the field at a place.
fn field_type(local: &Btf, place: FieldPlace) -> Option<u32> {
    match place.end {
        PlaceEnd::Element { type_id } => Some(type_id),
        PlaceEnd::Member { parent, index } => member_type(local, parent, index),
    }
}

/// The id of the type whose size a record asks for.
fn sized_type(local: &Btf, relocation: &Relocation, path: &NamedPath) -> Option<u32> {
    match (relocation.kind, path) {
        (RelocationKind::FieldByteSize, NamedPath::Field { place, .. }) => {
            field_type(local, *place)
        }
        (RelocationKind::TypeSize, _) => Some(relocation.type_id),
        _ => None,
    }
}

/// Whether a record asks for the size of an integer, an enumeration or a pointer.
fn asks_scalar_size(local: &Btf, relocation: &Relocation, path: &NamedPath) -> bool {
    let Some(type_id) = sized_type(local, relocation, path) else {
        return false;
    };
    let Ok(ty) = local.resolved_type(type_id) else {
        return false;
    };
    matches!(
        ty.kind(),
        BtfKind::Int | BtfKind::Enum | BtfKind::Enum64 | BtfKind::Ptr
    )
}

/// Whether a CO-RE relocation's value is reported where a kernel's differs: of an enumerator, and of the size of an integer, an
/// enumeration or a pointer; with `all` each that a kernel may change.
fn is_reported(local: &Btf, relocation: &Relocation, path: &NamedPath, all: bool) -> bool {
    match relocation.kind {
        RelocationKind::EnumVariantValue => true,
        RelocationKind::TypeIdLocal
        | RelocationKind::TypeIdTarget
        | RelocationKind::FieldExists
        | RelocationKind::TypeExists
        | RelocationKind::TypeMatches
        | RelocationKind::EnumVariantExists => false,
        _ => all || asks_scalar_size(local, relocation, path),
    }
}

/// The value of a CO-RE relocation by the object's own types, where a different one is reported. None where they give none.
pub fn own_value(
    alloc: Global,
    local: &Btf,
    relocation: &Relocation,
    all: bool,
) -> Result<Option<u64>, AllocError> {
    match local_path(alloc, local, relocation) {
        Ok(path) if is_reported(local, relocation, &path.path, all) => {
            own_value_of(alloc, local, relocation, &path)
        }
        Ok(_) => Ok(None),
        Err(error) => {
            no_answer(error)?;
            Ok(None)
        }
    }
}
