//! Keeps the members that a search for a name meets.

use crate::marks::Marks;
use crate::whole_types::BothSides;
use ebpf_btf::{Btf, BtfError, BtfMember};
use ebpf_core_candidates::fields_are_compatible;
use std::alloc::AllocError;

/// The maximum number of entries that a search looks at.
const SEARCH_ENTRIES: u32 = 1_048_576;

/// The maximum number of anonymous members around a member.
const ANONYMOUS_LEVELS: u32 = 64;

/// The member that is searched for.
#[derive(Clone, Copy)]
struct WantedName<'a> {
    name: &'a str,
    local_type: u32,
}

/// The member that a search finds.
#[derive(Clone, Copy)]
pub struct KeptMember {
    /// The id of the STRUCT or UNION that has the member.
    pub parent: u32,
    /// The index of the member there.
    pub index: usize,
    /// The id of the member's type.
    pub type_id: u32,
}

/// The end of a search in one type.
#[derive(Clone, Copy)]
enum SearchEnd {
    /// The member is found.
    Found(KeptMember),
    /// The type has no such member. `met` says whether a member of the name was met whose type does not fit.
    Absent { met: bool, left: u32 },
    /// The search ends with an error.
    Refused,
}

/// What a member is to a search.
#[derive(Clone, Copy)]
enum MemberUse {
    /// A member without a name: the id of the type that its own stands for.
    Anonymous { type_id: u32 },
    /// A member with another name.
    Other,
    /// A member with the name.
    Named { fits: bool },
    /// Its name or its type can't be read.
    Unreadable,
}

/// Returns what a member with a name is to a search.
fn named_use(
    sides: BothSides<'_>,
    wanted: WantedName<'_>,
    member: &BtfMember,
) -> Result<MemberUse, AllocError> {
    match sides.kernel.is_name_at(member.name_offset, wanted.name) {
        Ok(true) => {}
        Ok(false) => return Ok(MemberUse::Other),
        Err(_) => return Ok(MemberUse::Unreadable),
    }
    let (local, kernel) = (sides.local, sides.kernel);
    match fields_are_compatible(local, wanted.local_type, kernel, member.btf_type) {
        Ok(fits) => Ok(MemberUse::Named { fits }),
        Err(BtfError::OutOfMemory) => Err(AllocError),
        Err(_) => Ok(MemberUse::Unreadable),
    }
}

/// Returns what a member is to a search.
fn member_use(
    sides: BothSides<'_>,
    wanted: WantedName<'_>,
    member: &BtfMember,
) -> Result<MemberUse, AllocError> {
    if member.name_offset != 0 {
        return named_use(sides, wanted, member);
    }
    match sides.kernel.resolve_type(member.btf_type) {
        Ok(type_id) => Ok(MemberUse::Anonymous { type_id }),
        Err(_) => Ok(MemberUse::Unreadable),
    }
}

/// Keeps a member of a type, and the member's type.
fn keep_member(
    kernel: &Btf,
    marks: &mut Marks,
    parent: u32,
    index: usize,
    type_id: u32,
) -> Result<(), AllocError> {
    marks.keep_row(parent, index)?;
    marks.keep_type(kernel, type_id)
}

/// Searches a type, and keeps the members of the name that the search meets, with the anonymous members around them.
fn keep_in(
    sides: BothSides<'_>,
    marks: &mut Marks,
    wanted: WantedName<'_>,
    parent: u32,
    levels: u32,
    entries: u32,
) -> Result<SearchEnd, AllocError> {
    let mut left = entries;
    let mut met = false;
    let Some(ty) = sides.kernel.get(parent as usize) else {
        return Ok(SearchEnd::Absent { met, left });
    };
    let Some(members) = ty.members() else {
        return Ok(SearchEnd::Absent { met, left });
    };
    for index in 0..members.len() {
        if left == 0 {
            return Ok(SearchEnd::Refused);
        }
        left -= 1;
        let member = members.at(index);
        match member_use(sides, wanted, &member)? {
            MemberUse::Other => continue,
            MemberUse::Unreadable => return Ok(SearchEnd::Refused),
            MemberUse::Named { fits } => {
                keep_member(sides.kernel, marks, parent, index, member.btf_type)?;
                if !fits {
                    return Ok(SearchEnd::Absent { met: true, left });
                }
                return Ok(SearchEnd::Found(KeptMember {
                    parent,
                    index,
                    type_id: member.btf_type,
                }));
            }
            MemberUse::Anonymous { type_id } => {
                if levels == 0 {
                    return Ok(SearchEnd::Refused);
                }
                let end = keep_in(sides, marks, wanted, type_id, levels - 1, left)?;
                match end {
                    SearchEnd::Refused => return Ok(end),
                    SearchEnd::Found(_) => {
                        keep_member(sides.kernel, marks, parent, index, member.btf_type)?;
                        return Ok(end);
                    }
                    SearchEnd::Absent {
                        met: met_inside,
                        left: rest,
                    } => {
                        left = rest;
                        if !met_inside {
                            continue;
                        }
                        met = true;
                        keep_member(sides.kernel, marks, parent, index, member.btf_type)?;
                    }
                }
            }
        }
    }
    Ok(SearchEnd::Absent { met, left })
}

/// Keeps the members that a search for a name meets in a type: those of the name up to the first that fits, and the
/// anonymous members around them. It returns the one that fits.
///
/// # Errors
///
/// - `AllocError`: out of memory.
pub fn keep_named(
    sides: BothSides<'_>,
    marks: &mut Marks,
    type_id: u32,
    name: &str,
    local_type: u32,
) -> Result<Option<KeptMember>, AllocError> {
    let wanted = WantedName { name, local_type };
    match keep_in(
        sides,
        marks,
        wanted,
        type_id,
        ANONYMOUS_LEVELS,
        SEARCH_ENTRIES,
    )? {
        SearchEnd::Found(member) => Ok(Some(member)),
        _ => Ok(None),
    }
}

/// Keeps the last member of a type. It returns whether the type is a STRUCT, and the member at an index is the last.
///
/// # Errors
///
/// - `AllocError`: out of memory.
pub fn keep_last(
    kernel: &Btf,
    marks: &mut Marks,
    parent: u32,
    index: usize,
) -> Result<bool, AllocError> {
    let Some(ty) = kernel.get(parent as usize) else {
        return Ok(false);
    };
    let Some(members) = ty.members() else {
        return Ok(false);
    };
    let Some(last) = members.len().checked_sub(1) else {
        return Ok(false);
    };
    let Some(member) = members.get(last) else {
        return Ok(false);
    };
    keep_member(kernel, marks, parent, last, member.btf_type)?;
    Ok(index == last && ty.kind() == ebpf_btf::BtfKind::Struct)
}
