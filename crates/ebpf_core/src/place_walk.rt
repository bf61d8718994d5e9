//! The way along a path.

ghost use Rattle.std.specs.Prelude.{◌≡◌, ◌<◌, ◌≤◌};
ghost use Rattle.ebpf_base.specs.Faults.{Gives};
ghost use Rattle.ebpf_core.specs.Places.{MemoryAside, is_place_memory, PathLeads, root_spot, by_index, by_name, place_after, is_accepted, ends_in_last_member, place_of, next_spot, element_spot, member_spot};

use crate::member_search::{FoundMember, find_member};
use crate::places::{
    FieldPlace, PlaceEnd, PlaceFault, Step, checked_place, element_place, is_last_of, type_at,
};
use ebpf_btf::Btf;

/// The maximum number of parts of a path before a step.
const PATH_PARTS: u32 = 64;

/// The position of a path in a target type: a place, its type, and the number of steps and anonymous members up to it.
#[derive(Clone, Copy)]
pub struct TargetSpot {
    pub place: FieldPlace,
    pub type_id: u32,
    pub parts: u32,
}

/// Whether a path ends in the last member of a STRUCT.
fn ends_in_last_member(target: &Btf, end: PlaceEnd) -> bool
    ensures { result ≡ ends_in_last_member target.now.types end }
{
    match end {
        PlaceEnd::Element { .. } => false,
        PlaceEnd::Member { parent, index } => match type_at(target, parent) {
            Some(ty) => is_last_of(index, &ty),
            None => false,
        },
    }
}

/// Whether an index is accepted where there are so many elements.
fn is_accepted(target: &Btf, end: PlaceEnd, count: u32, index: usize) -> bool
    ensures { result ≡ is_accepted target.now.types end count index }
{
    index < count as usize || (count == 0 && ends_in_last_member(target, end))
}

/// The element with an index, of a type of which the first begins so many bits from the start.
fn element_spot(
    target: &Btf,
    bits: u32,
    parts: u32,
    type_id: u32,
    index: usize,
) -> Result<TargetSpot, PlaceFault>
    ensures { result ≡ element_spot target.now bits parts type_id index }
{
    let place = element_place(target, bits, type_id, index)?;
    Ok(TargetSpot {
        place,
        type_id,
        parts,
    })
}

/// The spot of the element with an index, in the type with an id.
fn by_index(
    target: &Btf,
    from: TargetSpot,
    type_id: u32,
    index: usize,
) -> Result<Option<TargetSpot>, PlaceFault>
    requires { from.parts < 64 }
    ensures { result ≡ by_index target.now from type_id index }
{
    let Some(ty) = type_at(target, type_id) else {
        return Ok(None);
    };
    let Some(array) = ty.array() else {
        return Ok(None);
    };
    if !is_accepted(target, from.place.end, array.len, index) {
        return Ok(None);
    }
    let spot = element_spot(
        target,
        from.place.bits,
        from.parts + 1,
        array.element_type,
        index,
    )?;
    Ok(Some(spot))
}

/// The spot of a member that was found from another spot.
fn member_spot(from: TargetSpot, member: FoundMember) -> Result<TargetSpot, PlaceFault>
    requires parts { from.parts < 64 }
    requires shallow { member.inside ≤ 64 }
    ensures { result ≡ member_spot from member }
{
    let bits = u128::from(from.place.bits) + u128::from(member.bits);
    let end = PlaceEnd::Member {
        parent: member.parent,
        index: member.index,
    };
    Ok(TargetSpot {
        place: checked_place(bits, end)?,
        type_id: member.type_id,
        parts: from.parts + member.inside + 1,
    })
}

/// The spot of the member with a name, in the type with an id.
fn by_name(
    local: &Btf,
    target: &Btf,
    from: TargetSpot,
    type_id: u32,
    name: &str,
    local_type: u32,
) -> Result<Option<TargetSpot>, PlaceFault>
    requires { from.parts < 64 }
    ensures { Gives is_place_memory result
        (by_name local.now target.now from type_id name.now local_type) }
{
    match find_member(local, target, type_id, name, local_type)? {
        Some(member) => Ok(Some(member_spot(from, member)?)),
        None => Ok(None),
    }
}

/// Follows a step from a spot.
fn follow(
    local: &Btf,
    target: &Btf,
    from: TargetSpot,
    by: &Step,
) -> Result<Option<TargetSpot>, PlaceFault>
    ensures { Gives is_place_memory result (next_spot local.now target.now from by.now) }
{
    if from.parts >= PATH_PARTS {
        return Err(PlaceFault::NestingLevel);
    }
    let type_id = target.resolve_type(from.type_id)?;
    match by {
        Step::Name { name, local_type } => {
            by_name(local, target, from, type_id, name.as_str(), *local_type)
        }
        Step::Index { index } => by_index(target, from, type_id, *index),
    }
}

/// Follows some steps from a spot.
fn follow_all(
    local: &Btf,
    target: &Btf,
    path: &[Step],
    from: TargetSpot,
) -> Result<Option<FieldPlace>, PlaceFault>
    ensures { Gives is_place_memory result (place_after local.now target.now path.now from) }
{
    let mut spot = from;
    for by in path {
        let Some(next) = follow(local, target, spot, by)? else {
            return Ok(None);
        };
        spot = next;
    }
    Ok(Some(spot.place))
}

/// The spot of the root index: its elements are of the type that the root type stands for.
fn begin(target: &Btf, root_type: u32, index: usize) -> Result<TargetSpot, PlaceFault>
    ensures { result ≡ root_spot target.now root_type index }
{
    let type_id = target.resolve_type(root_type)?;
    element_spot(target, 0, 1, type_id, index)
}

/// The place of a path whose first step is the root index; another path leads nowhere.
fn place(
    local: &Btf,
    target: &Btf,
    root_type: u32,
    path: &[Step],
) -> Result<Option<FieldPlace>, PlaceFault>
    ensures { Gives is_place_memory result (place_of local.now target.now root_type path.now) }
{
    let Some((first, path)) = path.split_first() else {
        return Ok(None);
    };
    let Step::Index { index } = first else {
        return Ok(None);
    };
    let start = begin(target, root_type, *index)?;
    follow_all(local, target, path, start)
}

/// Where a path leads in the target type `root_type`. None where it leads nowhere: where a name has no member, where an
/// index has no ARRAY or is not below its length, and where the first step is no index.
///
/// The first step is the root index: so many of the type that `root_type` stands for. Each further step begins in the
/// type that the last one led to, modifiers followed: an index in an ARRAY, whose length 0 accepts every
/// index where the ARRAY is the last member of a STRUCT; a name as in `find_member`, with the id of the local member's
/// type in `local`.
///
/// # Errors
///
/// The first fault on the way:
///
/// - `NestingLevel`: 64 steps and anonymous members were passed before a step, or as in `find_member`.
/// - `Btf`: a type or the size of an element (also for index 0) can't be read, or as in `find_member`.
/// - `Btf(InvalidTypeInfo)`: the bits are past 4,294,967,295 after a step.
pub fn place_in(
    local: &Btf,
    target: &Btf,
    root_type: u32,
    path: &[Step],
) -> Result<Option<FieldPlace>, PlaceFault>
    ensures leads { MemoryAside result (PathLeads local.now target.now root_type path.now) }
    ensures same { Gives is_place_memory result (place_of local.now target.now root_type path.now) }
{
    place(local, target, root_type, path)
}
