//! The reasons why records have no value, by the candidates that come furthest along the path of a field.

ghost use Rattle.std.specs.Prelude.{◌≡◌, IfOk, ◌≤◌, length, max};
ghost use Rattle.ebpf_btf.specs.Strings.{is_text, text_at};
ghost use Rattle.ebpf_core.specs.Places.{place_of};
ghost use Rattle.ebpf_core_relo.specs.Absences.{absence_among, field_absence, has_member, is_member_of, members_of_id, name_absence, type_of_end, furthest, leads, reach};

use crate::error::unless_memory_of_places;
use ebpf_btf::{Btf, BtfMember, Rows};
use ebpf_core::{NamedPath, PlaceEnd, Step, place_in};
use std::alloc::AllocError;

/// The maximum number of anonymous members around a name that is looked for.
const UNNAMED_LEVELS: u32 = 64;

/// The reason why a record has no value: the part that the kernel's types lack.
///
/// For a field, the candidate counts that has the maximum number of steps of the field's path. Of several such
/// candidates the one with the lowest id counts.
#[derive(Clone, Copy, Debug, PartialEq, Eq)]
pub enum Absence {
    /// No type has the kind and the name.
    NoType,
    /// Types have the kind and the name, and none is compatible with the local one, or matched by it.
    TypeOfAnotherKind,
    /// The path needs a member of a name that the types lack, or an element of a number that they lack.
    NoMember,
    /// A member has the name, and the member's type is not compatible with the type of the local one.
    MemberOfAnotherKind,
    /// No enumeration has a variant of the name.
    NoEnumerator,
    /// The field exists, and the value that the record asks for can't be computed.
    NoValue,
}

/// The candidate that comes furthest along a path, and the number of its steps.
#[derive(Clone, Copy)]
pub struct Furthest {
    /// The id of the candidate. `None` where no step leads anywhere.
    pub candidate: Option<u32>,
    /// The number of steps that lead somewhere in the candidate.
    pub steps: usize,
}

/// Whether a member has a name.
fn has_name(target: &Btf, name: &str, member: &BtfMember) -> bool
    ensures { result ≡ is_text name.now (text_at target.now.strings member.now.name_offset) }
{
    matches!(target.is_name_at(member.name_offset, name), Ok(true))
}

/// The members of the type that an id stands for; none where the type is no STRUCT or UNION.
fn members_of_id(target: &Btf, type_id: u32) -> Rows<'_, BtfMember>
    ensures { result ≡ members_of_id target.now type_id }
{
    let Ok(ty) = target.resolved_type(type_id) else {
        return Rows::of(&[]);
    };
    ty.members().unwrap_or(Rows::of(&[]))
}

/// Whether a type has a member of a name. Unnamed members are searched, up to `levels` deep.
fn has_member(target: &Btf, name: &str, type_id: u32, levels: u32) -> bool
    ensures { result ≡ has_member target.now name.now levels (members_of_id target.now type_id) }
{
    let members = members_of_id(target, type_id);
    for k in 0..members.len() {
        let member = members.at(k);
        if member.name_offset != 0 {
            if has_name(target, name, &member) {
                return true;
            }
            continue;
        }
        if levels == 0 {
            continue;
        }
        if has_member(target, name, member.btf_type, levels - 1) {
            return true;
        }
    }
    false
}

/// The id of the type at the end of a path.
fn type_of_end(target: &Btf, end: PlaceEnd) -> Option<u32>
    ensures { result ≡ type_of_end target.now.types end }
{
    match end {
        PlaceEnd::Element { type_id } => Some(type_id),
        PlaceEnd::Member { parent, index } => {
            let members = target.get(parent as usize)?.members()?;
            Some(members.get(index)?.btf_type)
        }
    }
}

/// Whether the type at the end of a path has a member of a name.
fn is_member_of(target: &Btf, name: &str, end: PlaceEnd) -> bool
    ensures { result ≡ is_member_of target.now name.now (type_of_end target.now.types end) }
{
    match type_of_end(target, end) {
        Some(type_id) => has_member(target, name, type_id, UNNAMED_LEVELS),
        None => false,
    }
}

/// The reason why a name leads nowhere from the end of a path in a candidate.
fn name_absence(
    local: &Btf,
    target: &Btf,
    candidate: u32,
    path: &[Step],
    name: &str,
) -> Result<Absence, AllocError>
    ensures { IfOk result (λ absence.
        absence
        ≡ name_absence target.now name.now (place_of local.now target.now candidate path.now)) }
{
    let place = match place_in(local, target, candidate, path) {
        Ok(place) => place,
        Err(fault) => {
            unless_memory_of_places(fault)?;
            return Ok(Absence::NoMember);
        }
    };
    match place {
        Some(place) if is_member_of(target, name, place.end) => Ok(Absence::MemberOfAnotherKind),
        _ => Ok(Absence::NoMember),
    }
}

/// The reason why a field has no value: what the candidate that comes furthest along the path lacks.
#[tactic(auto, unfolding(crate::specs::Absences::field_absence))]
fn field_absence(
    local: &Btf,
    target: &Btf,
    path: &[Step],
    candidates: &[u32],
) -> Result<Absence, AllocError>
    ensures { IfOk result (λ absence.
        absence ≡ field_absence local.now target.now path.now candidates.now) }
{
    let last = furthest_candidate(local, target, path, candidates)?;
    let Some(candidate) = last.candidate else {
        return Ok(Absence::NoMember);
    };
    match path.get(last.steps) {
        None => Ok(Absence::NoValue),
        Some(Step::Index { .. }) => Ok(Absence::NoMember),
        Some(Step::Name { name, .. }) => name_absence(
            local,
            target,
            candidate,
            &path[..last.steps],
            name.as_str(),
        ),
    }
}

/// The reason why a path of the local type has no value among its candidates, the target types of its kind and name.
pub fn absence_among(
    local: &Btf,
    target: &Btf,
    path: &NamedPath,
    candidates: &[u32],
) -> Result<Absence, AllocError>
    ensures { IfOk result (λ absence.
        absence ≡ absence_among local.now target.now path.now candidates.now) }
{
    if candidates.is_empty() {
        return Ok(Absence::NoType);
    }
    match path {
        NamedPath::WholeType | NamedPath::MatchedType => Ok(Absence::TypeOfAnotherKind),
        NamedPath::Variant { .. } => Ok(Absence::NoEnumerator),
        NamedPath::Field { steps, .. } => {
            field_absence(local, target, steps.as_slice(), candidates)
        }
    }
}

/// Whether `steps` steps of a path lead somewhere in a candidate.
fn leads(
    local: &Btf,
    target: &Btf,
    candidate: u32,
    path: &[Step],
    steps: usize,
) -> Result<bool, AllocError>
    requires { steps ≤ length path.now }
    ensures { IfOk result (λ there. there ≡ leads local.now target.now path.now candidate steps) }
{
    match place_in(local, target, candidate, &path[..steps]) {
        Ok(place) => Ok(place.is_some()),
        Err(fault) => {
            unless_memory_of_places(fault)?;
            Ok(false)
        }
    }
}

/// The number of steps of a path that lead somewhere in a candidate, or a known number that is greater.
#[tactic(auto, unfolding(crate::specs::Absences::reach))]
fn reach_past(
    local: &Btf,
    target: &Btf,
    candidate: u32,
    path: &[Step],
    known: usize,
) -> Result<usize, AllocError>
    requires { known ≤ length path.now }
    ensures { IfOk result (λ steps.
        steps ≡ max known (reach local.now target.now path.now candidate)) }
{
    for steps in known..path.len() {
        if !leads(local, target, candidate, path, steps + 1)? {
            return Ok(steps);
        }
    }
    Ok(path.len())
}

/// The candidate that comes furthest along a path. Of candidates with as many steps the first counts.
///
/// A candidate is tried with one step more than those before it had, and with further steps only while these lead
/// somewhere.
#[tactic(auto, unfolding(crate::specs::Absences::furthest))]
pub fn furthest_candidate(
    local: &Btf,
    target: &Btf,
    path: &[Step],
    candidates: &[u32],
) -> Result<Furthest, AllocError>
    ensures { IfOk result (λ last. last ≡ furthest local.now target.now path.now candidates.now) }
{
    let mut last = Furthest {
        candidate: None,
        steps: 0,
    };
    for candidate in candidates {
        let steps = reach_past(local, target, *candidate, path, last.steps)?;
        if steps <= last.steps {
            continue;
        }
        last = Furthest {
            candidate: Some(*candidate),
            steps,
        };
    }
    Ok(last)
}
