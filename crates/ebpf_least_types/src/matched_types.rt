//! Keeps what a match of types looks at.

use crate::marks::Marks;
use crate::whole_types::{BothSides, ComparedTypes, both_inside, keep_params, params_of};
use ebpf_btf::{Btf, BtfError, BtfKind, BtfType};
use ebpf_core_candidates::{NamedPart, part_at, part_count};
use std::alloc::AllocError;

/// The maximum number of types that are followed below the first pair: members, parameters, pointers and elements.
const MATCHED_LEVELS: u32 = 64;

/// The maximum number of looks of a match.
const MATCH_LOOKS: u32 = 1_048_576;

/// The ids of two types that are matched, and whether a pointer leads to them.
#[derive(Clone, Copy)]
struct MatchedTypes {
    types: ComparedTypes,
    behind_pointer: bool,
}

/// Two types that are matched, modifiers followed.
#[derive(Drop)]
struct ResolvedTypes<'a> {
    local: BtfType<'a>,
    target: BtfType<'a>,
    target_id: u32,
}

/// Returns the two types of a pair; none where one cannot be read.
fn resolved_types<'a>(sides: BothSides<'a>, pair: MatchedTypes) -> Option<ResolvedTypes<'a>> {
    let Ok(local) = sides.local.resolved_type(pair.types.local) else {
        return None;
    };
    let Ok(target_id) = sides.kernel.resolve_type(pair.types.target) else {
        return None;
    };
    let target = sides.kernel.get(target_id as usize)?;
    Some(ResolvedTypes {
        local,
        target,
        target_id,
    })
}

/// Keeps a part of a type, and the type of a member.
fn keep_part(
    kernel: &Btf,
    marks: &mut Marks,
    type_id: u32,
    row: usize,
    part: NamedPart,
) -> Result<(), AllocError> {
    marks.keep_row(type_id, row)?;
    match part.btf_type {
        Some(member_type) => marks.keep_type(kernel, member_type),
        None => Ok(()),
    }
}

/// Keeps the first parts of a type, so many as the local type has: a type with fewer parts matches nothing.
fn keep_first_parts(
    kernel: &Btf,
    marks: &mut Marks,
    found: &ResolvedTypes<'_>,
) -> Result<(), AllocError> {
    for row in 0..part_count(&found.local) {
        if let Some(part) = part_at(&found.target, row) {
            keep_part(kernel, marks, found.target_id, row, part)?;
        }
    }
    Ok(())
}

/// Keeps the parts of a local part's name, and what their types are matched by. It returns the number of looks that are
/// left; none where the match ended.
#[cycle(keeping)]
fn keep_named_parts(
    sides: BothSides<'_>,
    marks: &mut Marks,
    below: u32,
    left: u32,
    part: NamedPart,
    found: &ResolvedTypes<'_>,
) -> Result<Option<u32>, AllocError> {
    let name = match sides.local.string_at(part.name_offset) {
        Ok(name) => name,
        Err(BtfError::OutOfMemory) => return Err(AllocError),
        Err(_) => return Ok(None),
    };
    let mut left = left;
    for row in 0..part_count(&found.target) {
        if left == 0 {
            return Ok(None);
        }
        left -= 1;
        let Some(other) = part_at(&found.target, row) else {
            return Ok(None);
        };
        match sides
            .kernel
            .is_essential_name_at(other.name_offset, name.as_str())
        {
            Ok(true) => keep_part(sides.kernel, marks, found.target_id, row, other)?,
            Ok(false) => continue,
            Err(_) => return Ok(None),
        }
        let (Some(local), Some(target)) = (part.btf_type, other.btf_type) else {
            continue;
        };
        let pair = MatchedTypes {
            types: ComparedTypes { local, target },
            behind_pointer: false,
        };
        match keep_match(sides, marks, below, left, pair)? {
            Some(rest) => left = rest,
            None => return Ok(None),
        }
    }
    Ok(Some(left))
}

/// Keeps the parts of a type that have the names of local parts.
#[cycle(keeping)]
fn keep_parts(
    sides: BothSides<'_>,
    marks: &mut Marks,
    below: u32,
    left: u32,
    found: &ResolvedTypes<'_>,
) -> Result<Option<u32>, AllocError> {
    let mut left = left;
    for k in 0..part_count(&found.local) {
        let Some(part) = part_at(&found.local, k) else {
            return Ok(None);
        };
        match keep_named_parts(sides, marks, below, left, part, found)? {
            Some(rest) => left = rest,
            None => return Ok(None),
        }
    }
    Ok(Some(left))
}

/// Keeps the parameters of a FUNC_PROTO, and what the types of the parameters are matched by.
#[cycle(keeping)]
fn keep_parameters(
    sides: BothSides<'_>,
    marks: &mut Marks,
    below: u32,
    left: u32,
    found: &ResolvedTypes<'_>,
    behind_pointer: bool,
) -> Result<Option<u32>, AllocError> {
    let (params, others) = (params_of(&found.local), params_of(&found.target));
    keep_params(marks, found.target_id, others.len())?;
    if params.len() != others.len() {
        return Ok(None);
    }
    let mut left = left;
    for k in 0..params.len() {
        let pair = MatchedTypes {
            types: ComparedTypes {
                local: params.at(k).btf_type,
                target: others.at(k).btf_type,
            },
            behind_pointer,
        };
        match keep_match(sides, marks, below, left, pair)? {
            Some(rest) => left = rest,
            None => return Ok(None),
        }
    }
    Ok(Some(left))
}

/// Keeps the target type of a pair, and what it is matched by.
#[cycle(keeping)]
fn keep_match(
    sides: BothSides<'_>,
    marks: &mut Marks,
    levels: u32,
    left: u32,
    pair: MatchedTypes,
) -> Result<Option<u32>, AllocError> {
    if levels == 0 || left == 0 {
        return Ok(None);
    }
    let (below, left) = (levels - 1, left - 1);
    marks.keep_type(sides.kernel, pair.types.target)?;
    let Some(found) = resolved_types(sides, pair) else {
        return Ok(None);
    };
    let is_looked_into = found.local.variant_count().is_some() || !pair.behind_pointer;
    if is_looked_into && part_count(&found.local) <= part_count(&found.target) {
        keep_first_parts(sides.kernel, marks, &found)?;
        let Some(rest) = keep_parts(sides, marks, below, left, &found)? else {
            return Ok(None);
        };
        return keep_inner(sides, marks, below, rest, &found, pair.behind_pointer);
    }
    keep_inner(sides, marks, below, left, &found, pair.behind_pointer)
}

/// Keeps what the parameters and the inner types of two types are matched by.
#[cycle(keeping)]
fn keep_inner(
    sides: BothSides<'_>,
    marks: &mut Marks,
    below: u32,
    left: u32,
    found: &ResolvedTypes<'_>,
    behind_pointer: bool,
) -> Result<Option<u32>, AllocError> {
    let Some(left) = keep_parameters(sides, marks, below, left, found, behind_pointer)? else {
        return Ok(None);
    };
    let Some(types) = both_inside(&found.local, &found.target) else {
        return Ok(Some(left));
    };
    let pair = MatchedTypes {
        types,
        behind_pointer: behind_pointer || found.local.kind() == BtfKind::Ptr,
    };
    keep_match(sides, marks, below, left, pair)
}

/// Keeps what the match of a local type with a candidate looks at.
///
/// # Errors
///
/// - `AllocError`: out of memory.
pub fn keep_matched(
    sides: BothSides<'_>,
    marks: &mut Marks,
    local_id: u32,
    candidate: u32,
) -> Result<(), AllocError> {
    let pair = MatchedTypes {
        types: ComparedTypes {
            local: local_id,
            target: candidate,
        },
        behind_pointer: false,
    };
    keep_match(sides, marks, MATCHED_LEVELS, MATCH_LOOKS, pair)?;
    Ok(())
}
