//! The way to a field of a local type.

ghost use Rattle.std.specs.Prelude.{◌≡◌, Ok};
ghost use Rattle.ebpf_core.specs.Answers.{Tells};
ghost use Rattle.ebpf_core.specs.LocalPaths.{ends_struct, field_path, into_array, into_members, is_element, part_step, spot_at_element, spot_at_member, type_of_step, spot_after};

use crate::error::{
    RelocationError, Request, invalid_access_index, invalid_access_string, invalid_kind,
    kind_words, path_words,
};
use crate::paths::NamedPath;
use crate::{FieldPlace, PlaceEnd, Step, checked_place, element_place, is_last_of};
use ebpf_base::{Items, Text};
use ebpf_btf::{Btf, BtfArray, BtfMember, BtfType, Rows};
use std::alloc::Global;

/// The position of a path in a local type.
#[derive(Drop)]
pub struct LocalSpot {
    /// The steps: the root index, names and indices. A member without a name is none.
    pub steps: Items<Step>,
    /// The bits from the start of the root type, and the last step.
    pub place: FieldPlace,
    /// The number of the last step: that of the element, or of the member.
    pub index: usize,
    /// The type at the place.
    pub type_id: u32,
}

/// A STRUCT or UNION with its id and its members.
#[derive(Clone, Copy)]
struct ParentType<'a> {
    id: u32,
    ty: &'a BtfType<'a>,
    members: &'a Rows<'a, BtfMember>,
}

/// A path that goes on to an element of a type, of which the first is at a bit.
fn spot_at_element(
    local: &Btf,
    mut steps: Items<Step>,
    bits: u32,
    type_id: u32,
    index: usize,
) -> Result<LocalSpot, RelocationError>
    ensures { Tells result (spot_at_element local.now steps bits type_id index) }
{
    let place = element_place(local, bits, type_id, index)?;
    steps.push(Step::Index { index })?;
    Ok(LocalSpot {
        steps,
        place,
        index,
        type_id,
    })
}

/// The type of a step: the type of an element, or the one that a member stands in.
fn type_of_step(local: &Btf, end: PlaceEnd) -> Option<BtfType<'_>>
    ensures { result ≡ type_of_step local.now.types end }
{
    match end {
        PlaceEnd::Element { type_id } => local.resolved_type(type_id).ok(),
        PlaceEnd::Member { parent, .. } => local.type_by_id(parent).ok(),
    }
}

/// Whether the last step led to the last member of a STRUCT.
fn ends_struct(local: &Btf, from: &LocalSpot) -> bool
    ensures { result ≡ ends_struct local.now.types from.now }
{
    match type_of_step(local, from.place.end) {
        Some(ty) => is_last_of(from.index, &ty),
        None => false,
    }
}

/// Whether an index is that of an element: it is below their number, or there are none and the ARRAY ends a STRUCT.
fn is_element(local: &Btf, from: &LocalSpot, count: u32, index: usize) -> bool
    ensures { result ≡ is_element local.now.types from.now count index }
{
    index < count as usize || (count == 0 && ends_struct(local, from))
}

/// A path that goes on into an ARRAY.
fn into_array(
    alloc: Global,
    local: &Btf,
    request: Request<'_>,
    from: LocalSpot,
    array: BtfArray,
    index: usize,
) -> Result<LocalSpot, RelocationError>
    ensures { Tells result (into_array local.now request.entry.access.now from array index) }
{
    if !is_element(local, &from, array.len, index) {
        let place = path_words(alloc, request.type_name, from.steps.as_slice())?;
        let len = array.len as usize;
        return invalid_access_index(alloc, request.access, place, index, len, "elements");
    }
    spot_at_element(
        local,
        from.steps,
        from.place.bits,
        array.element_type,
        index,
    )
}

/// A path that goes on to a member of a type. A member without a name adds its bits and no step.
fn spot_at_member(
    alloc: Global,
    local: &Btf,
    from: LocalSpot,
    parent: ParentType<'_>,
    index: usize,
    member: &BtfMember,
) -> Result<LocalSpot, RelocationError>
    ensures { Tells result
        (spot_at_member local.now from parent.entry.id parent.entry.ty.now index member.now) }
{
    let bits = u128::from(from.place.bits) + u128::from(parent.ty.member_bit_offset(member));
    if member.name_offset == 0 {
        let place = checked_place(bits, from.place.end)?;
        return Ok(LocalSpot {
            place,
            type_id: member.btf_type,
            ..from
        });
    }
    let name = local.string_at(member.name_offset)?;
    let name = Text::from_str(alloc, name.as_str())?;
    let end = PlaceEnd::Member {
        parent: parent.id,
        index,
    };
    let place = checked_place(bits, end)?;
    let mut steps = from.steps;
    steps.push(Step::Name {
        name,
        local_type: member.btf_type,
    })?;
    Ok(LocalSpot {
        steps,
        place,
        index,
        type_id: member.btf_type,
    })
}

/// A path that goes on into the members of a type.
fn into_members(
    alloc: Global,
    local: &Btf,
    request: Request<'_>,
    from: LocalSpot,
    parent: ParentType<'_>,
    index: usize,
) -> Result<LocalSpot, RelocationError>
    ensures { Tells result
        (into_members local.now request.entry.access.now from parent.entry.id
        parent.entry.ty.now parent.entry.members.now index) }
{
    match parent.members.get(index) {
        Some(member) => spot_at_member(alloc, local, from, parent, index, &member),
        None => {
            let place = path_words(alloc, request.type_name, from.steps.as_slice())?;
            let len = parent.members.len();
            invalid_access_index(alloc, request.access, place, index, len, "members")
        }
    }
}

/// Where an accessor leads: to a member of a STRUCT or UNION, or to an element of an ARRAY.
#[tactic(auto, unfolding(crate::specs::LocalPaths::part_step))]
fn part_step(
    alloc: Global,
    local: &Btf,
    request: Request<'_>,
    from: LocalSpot,
    part: usize,
) -> Result<LocalSpot, RelocationError>
    ensures { Tells result
        (part_step local.now request.entry.number request.entry.access.now from part) }
{
    let type_id = local.resolve_type(from.type_id)?;
    let ty = local.type_by_id(type_id)?;
    if let Some(members) = ty.members() {
        let parent = ParentType {
            id: type_id,
            ty: &ty,
            members: &members,
        };
        return into_members(alloc, local, request, from, parent, part);
    }
    if let Some(array) = ty.array() {
        return into_array(alloc, local, request, from, array, part);
    }
    let place = path_words(alloc, request.type_name, from.steps.as_slice())?;
    invalid_kind(
        alloc,
        request.number,
        request.kind,
        place,
        kind_words(ty.kind()),
    )
}

/// Where accessors lead, one after the other.
#[tactic(auto, using(crate::proofs::LocalSides::parts_over))]
fn walk(
    alloc: Global,
    local: &Btf,
    request: Request<'_>,
    start: LocalSpot,
    parts: &[usize],
) -> Result<LocalSpot, RelocationError>
    ensures { Tells result
        (spot_after local.now request.entry.number request.entry.access.now parts.now start) }
{
    let mut from = start;
    for part in parts {
        let next = part_step(alloc, local, request, from, *part)?;
        from = next;
    }
    Ok(from)
}

/// The steps that the accessors of an access string mean in the resolved type `type_id`, and where they lead. The first
/// accessor counts in the type itself.
#[tactic(auto, unfolding(crate::specs::LocalPaths::field_path))]
pub fn field_path(
    alloc: Global,
    local: &Btf,
    request: Request<'_>,
    type_id: u32,
    parts: &[usize],
) -> Result<NamedPath, RelocationError>
    ensures { Tells result
        (field_path local.now request.entry.number request.entry.access.now type_id parts.now) }
{
    let Some((root, parts)) = parts.split_first() else {
        return invalid_access_string(alloc, request.access);
    };
    let start = spot_at_element(local, Items::new(alloc), 0, type_id, *root)?;
    let end = walk(alloc, local, request, start, parts)?;
    Ok(NamedPath::Field {
        steps: end.steps,
        place: end.place,
    })
}
