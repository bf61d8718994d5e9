//! The first member of a name, through anonymous members.

ghost use Rattle.std.specs.Prelude.{◌+◌, ◌-◌, ◌*◌, ◌<◌, ◌≤◌, ◌^◌, ◌≡◌};
ghost use Rattle.ebpf_base.specs.Faults.{Gives};
ghost use Rattle.ebpf_core.specs.Places.{IsFirstMember, MemoryAside, is_place_memory};
ghost use Rattle.ebpf_core.specs.Members.{member_search, members_in, named_role, role, anonymous_role, view, IsFoundSmall, run_search, search_entries, first_fitting, IsSmall};

use crate::places::{PlaceFault, type_at};
use ebpf_btf::{Btf, BtfMember};
use ebpf_core_candidates::fields_are_compatible;

/// The maximum number of entries that a search looks at.
const SEARCH_ENTRIES: u32 = 1_048_576;

/// A member that a search found.
#[derive(Clone, Copy, Debug, PartialEq, Eq)]
pub struct FoundMember {
    /// The bits from the start of the type that was searched.
    pub bits: u64,
    /// The number of anonymous members around it.
    pub inside: u32,
    /// The id of the STRUCT or UNION that it is a member of.
    pub parent: u32,
    /// Its index there.
    pub index: usize,
    /// The id of its type.
    pub type_id: u32,
}

/// The result of a search. Where the name is absent, `left` entries may still be looked at.
#[derive(Clone, Copy)]
pub enum Answer {
    Found(FoundMember),
    Absent { left: u32 },
}

/// The maximum number of anonymous members around an anonymous one that is looked into.
pub const ANONYMOUS_LEVELS: u32 = 64;

/// The role of a member in a search for a name.
#[derive(Clone, Copy)]
pub enum Role {
    /// A member without a name; the search goes on in the type that the member's own stands for.
    Anonymous { type_id: u32 },
    /// A member with another name.
    Other,
    /// The member that is searched for.
    Fitting,
    /// A member with the name whose type does not fit.
    Misfit,
}

/// A member that is searched for in the target: its name, and the type of the local member.
#[derive(Clone, Copy)]
pub struct WantedMember<'a> {
    pub local: &'a Btf,
    pub target: &'a Btf,
    pub name: &'a str,
    pub local_type: u32,
}

/// Looks through the members of a type that lies inside so many anonymous ones and begins at a bit, over so many
/// entries.
fn search(
    wanted: WantedMember<'_>,
    parent: u32,
    inside: u32,
    bits: u64,
    entries: u32,
) -> Result<Answer, PlaceFault>
    requires depth { inside ≤ 64 }
    requires room { bits ≤ inside * 2 ^ 32 }
    ensures gives { let name_search = member_search wanted.entry.local.now wanted.entry.target.now
        wanted.entry.name.now wanted.entry.local_type in Gives is_place_memory result
        (run_search name_search entries
        (view name_search (64 - inside) inside bits
        (members_in wanted.entry.target.now.types parent))) }
    ensures small { IsSmall result }
{
    let Some(ty) = type_at(wanted.target, parent) else {
        return Ok(Answer::Absent { left: entries });
    };
    let Some(members) = ty.members() else {
        return Ok(Answer::Absent { left: entries });
    };
    let mut left = entries;
    for index in 0..members.len() {
        let member = members.at(index);
        if left == 0 {
            return Err(PlaceFault::NestingLevel);
        }
        left -= 1;
        let role = role_of(wanted, inside, &member)?;
        let bits = bits + u64::from(ty.member_bit_offset(&member));
        match role {
            Role::Other => continue,
            Role::Misfit => return Ok(Answer::Absent { left }),
            Role::Fitting => {
                return Ok(Answer::Found(FoundMember {
                    bits,
                    inside,
                    parent,
                    index,
                    type_id: member.btf_type,
                }));
            }
            Role::Anonymous { type_id } => {
                let answer = search(wanted, type_id, inside + 1, bits, left)?;
                match answer {
                    Answer::Absent { left: rest } => left = rest,
                    Answer::Found(_) => return Ok(answer),
                }
            }
        }
    }
    Ok(Answer::Absent { left })
}

/// Looks through all members of a type.
#[tactic(auto, unfolding(crate::specs::Members::first_fitting))]
fn find(wanted: WantedMember<'_>, parent: u32) -> Result<Option<FoundMember>, PlaceFault>
    ensures same { let name_search = member_search wanted.entry.local.now wanted.entry.target.now
        wanted.entry.name.now wanted.entry.local_type in Gives is_place_memory result
        (first_fitting name_search search_entries
        (members_in wanted.entry.target.now.types parent)) }
    ensures small { IsFoundSmall result }
{
    match search(wanted, parent, 0, 0, SEARCH_ENTRIES)? {
        Answer::Found(member) => Ok(Some(member)),
        Answer::Absent { .. } => Ok(None),
    }
}

/// The first member of a name in the target type with the id `parent`, whose type is compatible with the local one.
/// None where there is none; a type that is no STRUCT or UNION has no members.
///
/// The members are met in order, each anonymous one followed by the members of the type that its own stands for. The
/// first member of the name in one type is found, if `fields_are_compatible` says that the local type fits it; else
/// that type's members end there, and the search goes on after the anonymous member that led to it.
///
/// # Errors
///
/// At each member that is met, in turn:
///
/// - `NestingLevel`: the member is number 1,048,577, or an anonymous one inside 64 anonymous ones.
/// - `Btf`: the member's name, or the type of an anonymous one, can't be read, or the types can't be compared.
/// - `Btf(OutOfMemory)`: as in `fields_are_compatible`.
pub fn find_member(
    local: &Btf,
    target: &Btf,
    parent: u32,
    name: &str,
    local_type: u32,
) -> Result<Option<FoundMember>, PlaceFault>
    ensures first { MemoryAside result (λ answer.
        IsFirstMember local.now target.now name.now local_type parent answer) }
    ensures same { Gives is_place_memory result
        (first_fitting (member_search local.now target.now name.now local_type) search_entries
        (members_in target.now.types parent)) }
    ensures small { IsFoundSmall result }
{
    let wanted = WantedMember {
        local,
        target,
        name,
        local_type,
    };
    find(wanted, parent)
}

/// The role of a member without a name, inside so many anonymous ones.
fn anonymous_role(target: &Btf, inside: u32, member: &BtfMember) -> Result<Role, PlaceFault>
    ensures { result ≡ anonymous_role target.now inside member.now.btf_type }
{
    if inside >= ANONYMOUS_LEVELS {
        return Err(PlaceFault::NestingLevel);
    }
    let type_id = target.resolve_type(member.btf_type)?;
    Ok(Role::Anonymous { type_id })
}

/// The role of a member with a name.
fn named_role(wanted: WantedMember<'_>, member: &BtfMember) -> Result<Role, PlaceFault>
    ensures { Gives is_place_memory result
        (named_role wanted.entry.local.now wanted.entry.target.now wanted.entry.name.now
        wanted.entry.local_type member.now.name_offset member.now.btf_type) }
{
    if !wanted.target.is_name_at(member.name_offset, wanted.name)? {
        return Ok(Role::Other);
    }
    if !fields_are_compatible(
        wanted.local,
        wanted.local_type,
        wanted.target,
        member.btf_type,
    )? {
        return Ok(Role::Misfit);
    }
    Ok(Role::Fitting)
}

/// The role of a member, inside so many anonymous ones.
pub fn role_of(
    wanted: WantedMember<'_>,
    inside: u32,
    member: &BtfMember,
) -> Result<Role, PlaceFault>
    ensures { Gives is_place_memory result
        (role wanted.entry.local.now wanted.entry.target.now wanted.entry.name.now
        wanted.entry.local_type inside member.now.name_offset member.now.btf_type) }
{
    if member.name_offset == 0 {
        return anonymous_role(wanted.target, inside, member);
    }
    named_role(wanted, member)
}
