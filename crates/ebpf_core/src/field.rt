//! The values of a field that relocations ask for, and the bytes that a program loads for the field.

ghost use Rattle.std.specs.Prelude.{◌≡◌, ◌*◌, ◌<◌, ◌≤◌, ◌^◌, IfOk, IfSome};
ghost use Rattle.ebpf_btf.specs.Steps.{size_of};
ghost use Rattle.ebpf_core.specs.Fields.{member_number, class_of, element_value, field_value, member_extent, loaded_field, member_with_index, member_field_value, shift, value_of_member, value_with, container_start, bit_field_extent, container, container_holds, is_container, plain_extent};

use crate::{FieldPlace, PlaceEnd};
use ebpf_btf::{Btf, BtfError, BtfMember, BtfType};
use ebpf_btf_ext::RelocationKind;

/// The class of a field, by which a load of the field may change its size.
#[derive(Clone, Copy, Debug, PartialEq, Eq)]
pub enum FieldClass {
    /// A pointer.
    Pointer,
    /// An integer without a sign.
    UnsignedInt,
    /// Anything else.
    Other,
}

/// The load of a field that is no bit field.
#[derive(Clone, Copy, Debug, PartialEq, Eq)]
pub struct LoadedField {
    /// The number of bytes.
    pub size: u32,
    /// The class of the field's type.
    pub class: FieldClass,
}

/// The value of a field that a relocation asks for.
#[derive(Clone, Copy)]
pub struct FieldValue {
    /// The number that the relocation asks for.
    pub number: u64,
    /// The load of the field, where the relocation asks for the place of a field that is no bit field.
    pub loaded: Option<LoadedField>,
}

/// The reason why a field has no value for a relocation.
#[derive(Drop)]
pub enum FieldFault {
    /// The relocation's kind can't be asked of an element.
    OfElement,
    /// A type or size can't be read, or there is no container or no shift.
    Types(BtfError),
}

impl From<BtfError> for FieldFault {
    ghost use Rattle.ebpf_core.specs.declared.field.FieldFault.TheVariants.{Types};

    ghost from_gives = { λ error fault. fault ≡ Types error };

    fn from(error: BtfError) -> FieldFault {
        FieldFault::Types(error)
    }
}

/// The bytes that a program loads for a field, counted from the start of its root type.
#[derive(Clone, Copy)]
pub struct Extent {
    /// The first byte.
    pub start: u64,
    /// The number of bytes.
    pub size: u64,
    /// The number of bits that the field has.
    pub width: u64,
}

/// The class of a type.
#[tactic(auto, unfolding(crate::specs::Fields::class_of))]
fn class_of(ty: &BtfType<'_>) -> FieldClass
    ensures { result ≡ class_of ty.now }
{
    match ty {
        BtfType::Ptr { .. } => FieldClass::Pointer,
        BtfType::Int { .. } if !ty.is_signed() => FieldClass::UnsignedInt,
        _ => FieldClass::Other,
    }
}

/// The load of a field of a type and size.
fn loaded_field(ty: &BtfType<'_>, size: u32) -> LoadedField
    ensures { result ≡ loaded_field ty.now size }
{
    LoadedField {
        size,
        class: class_of(ty),
    }
}

/// The shift in 64 bits of a number of so many bits. `InvalidTypeInfo` where the number has more.
fn shift(bits: u64) -> Result<u64, BtfError>
    ensures { result ≡ shift bits }
{
    64u64.checked_sub(bits).ok_or(BtfError::InvalidTypeInfo)
}

/// The extent of a member whose resolved type has the id `type_id`, and its load where it is no bit field.
fn member_extent(
    btf: &Btf,
    parent: &BtfType<'_>,
    member: &BtfMember,
    bits: u32,
    type_id: u32,
    ty: &BtfType<'_>,
) -> Result<(Extent, Option<LoadedField>), BtfError>
    ensures value { result
        ≡ member_extent parent.now member.now bits ty.now (size_of btf.now.types type_id) }
    ensures low { IfOk result (λ place. place.0.start * 8 ≤ bits) }
    ensures narrow { IfOk result (λ place. place.0.width < 2 ^ 36) }
{
    let width = parent.member_bit_field_size(member);
    if width == 0 {
        let size = btf.type_size(type_id)?;
        return Ok((plain_extent(bits, size), Some(loaded_field(ty, size))));
    }
    let extent = bit_field_extent(bits, width, ty.size())?;
    Ok((extent, None))
}

/// The number of a member that a kind asks for.
fn member_number(
    kind: RelocationKind,
    is_signed: bool,
    bits: u32,
    extent: Extent,
) -> Result<u64, BtfError>
    requires low { extent.start * 8 ≤ bits }
    requires narrow { extent.width < 2 ^ 36 }
    ensures { result ≡ member_number kind is_signed bits extent }
{
    match kind {
        RelocationKind::FieldByteOffset => Ok(extent.start),
        RelocationKind::FieldByteSize => Ok(extent.size),
        RelocationKind::FieldSigned => Ok(u64::from(is_signed)),
        RelocationKind::FieldLShift64 => {
            shift(u64::from(bits) - extent.start * 8 + extent.width)
        }
        RelocationKind::FieldRShift64 => shift(extent.width),
        _ => Ok(1),
    }
}

/// A number with the load of the field, which matters where the offset is asked for.
fn value_with(kind: RelocationKind, number: u64, loaded: Option<LoadedField>) -> FieldValue
    ensures { result ≡ value_with kind number loaded }
{
    match kind {
        RelocationKind::FieldByteOffset => FieldValue { number, loaded },
        _ => FieldValue {
            number,
            loaded: None,
        },
    }
}

/// The value of a member of a type, at a bit, that a kind asks for.
#[tactic(auto, unfolding(crate::specs::Fields::member_field_value))]
fn member_field_value(
    btf: &Btf,
    kind: RelocationKind,
    bits: u32,
    parent: &BtfType<'_>,
    member: &BtfMember,
) -> Result<FieldValue, BtfError>
    ensures { result ≡ member_field_value btf.now kind bits parent.now member.now }
{
    let type_id = btf.resolve_type(member.btf_type)?;
    let ty = btf.type_by_id(type_id)?;
    let (extent, loaded) = member_extent(btf, parent, member, bits, type_id, &ty)?;
    let number = member_number(kind, ty.is_signed(), bits, extent)?;
    Ok(value_with(kind, number, loaded))
}

/// The value of an element, at a bit, that a kind asks for.
fn element_value(
    btf: &Btf,
    kind: RelocationKind,
    bits: u32,
    type_id: u32,
) -> Result<FieldValue, FieldFault>
    ensures { result ≡ element_value btf.now kind bits type_id }
{
    match kind {
        RelocationKind::FieldByteOffset => {
            let size = btf.type_size(type_id)?;
            let ty = btf.resolved_type(type_id)?;
            Ok(value_with(kind, u64::from(bits / 8), Some(loaded_field(&ty, size))))
        }
        RelocationKind::FieldByteSize => {
            let size = btf.type_size(type_id)?;
            Ok(value_with(kind, u64::from(size), None))
        }
        _ => Err(FieldFault::OfElement),
    }
}

/// The member of a type with a number.
fn member_with_index(ty: &BtfType<'_>, index: usize) -> Option<BtfMember>
    ensures { result ≡ member_with_index ty.now index }
{
    ty.members()?.get(index)
}

/// The value of the member of a type with a number that a kind asks for.
fn value_of_member(
    btf: &Btf,
    kind: RelocationKind,
    bits: u32,
    parent: u32,
    index: usize,
) -> Result<FieldValue, BtfError>
    ensures { result ≡ value_of_member btf.now kind bits parent index }
{
    let ty = btf.type_by_id(parent)?;
    match member_with_index(&ty, index) {
        Some(member) => member_field_value(btf, kind, bits, &ty, &member),
        None => Err(BtfError::InvalidTypeInfo),
    }
}

/// The value of the field at a place that a kind asks for: the first byte or the number of the bytes that are loaded,
/// whether its type is signed (1 or 0), the shift of the loaded bytes left or then right in 64 bits, or the 1 of a
/// field that exists.
///
/// A bit field is loaded by the smallest aligned container that holds it: the size of its type, doubled while it is
/// below 8.
///
/// # Errors
///
/// - `OfElement`: the place is an element, and the kind asks for neither offset, size nor existence.
/// - `UnknownBtfType`, `MaximumTypeDepth`, `UnexpectedBtfType`: the field's type can't be resolved or has no size.
/// - `InvalidTypeInfo`: a bit field has no container, or a shift is negative.
#[tactic(auto, unfolding(crate::specs::Fields::field_value))]
pub fn field_value(
    btf: &Btf,
    kind: RelocationKind,
    place: FieldPlace,
) -> Result<FieldValue, FieldFault>
    ensures { result ≡ field_value btf.now kind place }
{
    if kind == RelocationKind::FieldExists {
        return Ok(value_with(kind, 1, None));
    }
    match place.end {
        PlaceEnd::Element { type_id } => element_value(btf, kind, place.bits, type_id),
        PlaceEnd::Member { parent, index } => {
            Ok(value_of_member(btf, kind, place.bits, parent, index)?)
        }
    }
}

/// The first byte of the aligned container of `size` bytes that has the bit.
fn container_start(bit: u64, size: u64) -> u64
    requires few { bit < 2 ^ 32 }
    requires some { 0 < size }
    ensures value { result ≡ container_start bit size }
    ensures low { result * 8 ≤ bit }
{
    let byte = bit / 8;
    byte - byte % size
}

/// Whether the aligned container of `size` bytes that has a bit has all `width` bits of a field from there on.
fn container_holds(bit: u64, width: u64, size: u64) -> bool
    requires few { bit < 2 ^ 32 }
    requires narrow { width < 2 ^ 32 }
    requires small { size < 2 ^ 36 }
    requires some { 0 < size }
    ensures { result ≡ container_holds bit width size }
{
    bit + width <= (container_start(bit, size) + size) * 8
}

/// Whether a container of `doubled` bytes is one for a bit field whose type has `size`: a size is doubled while it is
/// below 8, and the container holds the field.
fn is_container(bit: u64, width: u64, size: u64, doubled: u64) -> bool
    requires few { bit < 2 ^ 32 }
    requires narrow { width < 2 ^ 32 }
    requires small { doubled < 2 ^ 36 }
    requires some { 0 < doubled }
    ensures { result ≡ is_container bit width size doubled }
{
    (doubled == size || doubled < 16) && container_holds(bit, width, doubled)
}

/// The size of the smallest container that holds a bit field.
#[tactic(auto, unfolding(crate::specs::Fields::container))]
fn container(bit: u32, width: u32, size: u32) -> Option<u64>
    ensures size { result ≡ container bit width size }
    ensures some { IfSome result (λ n. 0 < n) }
{
    if size == 0 {
        return None;
    }
    let (bit, width, size) = (u64::from(bit), u64::from(width), u64::from(size));
    if is_container(bit, width, size, size) {
        return Some(size);
    }
    if is_container(bit, width, size, size * 2) {
        return Some(size * 2);
    }
    if is_container(bit, width, size, size * 4) {
        return Some(size * 4);
    }
    if is_container(bit, width, size, size * 8) {
        return Some(size * 8);
    }
    None
}

/// The extent of a field that is no bit field.
pub fn plain_extent(bit: u32, size: u32) -> Extent
    ensures value { result ≡ plain_extent bit size }
    ensures low { result.start * 8 ≤ bit }
    ensures narrow { result.width < 2 ^ 36 }
{
    Extent {
        start: u64::from(bit / 8),
        size: u64::from(size),
        width: u64::from(size) * 8,
    }
}

/// The extent of a bit field of `width` bits, whose type states a size or none.
///
/// # Errors
///
/// - `InvalidTypeInfo`: no size or size 0 is stated, or no container that the field may have holds it.
pub fn bit_field_extent(bit: u32, width: u32, stated: Option<u32>) -> Result<Extent, BtfError>
    ensures value { result ≡ bit_field_extent bit width stated }
    ensures low { IfOk result (λ extent. extent.start * 8 ≤ bit) }
    ensures narrow { IfOk result (λ extent. extent.width < 2 ^ 36) }
{
    let Some(size) = stated else {
        return Err(BtfError::InvalidTypeInfo);
    };
    let Some(found) = container(bit, width, size) else {
        return Err(BtfError::InvalidTypeInfo);
    };
    Ok(Extent {
        start: container_start(u64::from(bit), found),
        size: found,
        width: u64::from(width),
    })
}
