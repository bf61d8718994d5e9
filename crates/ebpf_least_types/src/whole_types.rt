//! Keeps what a comparison of whole types looks at.

use crate::marks::Marks;
use ebpf_btf::{Btf, BtfParam, BtfType, Rows};
use std::alloc::AllocError;

/// The maximum number of levels of pairs.
const TYPE_LEVELS: u32 = 33;

/// The maximum number of pairs of a comparison.
const TYPE_PAIRS: u32 = 1_048_576;

/// The types of an object, and those of a kernel.
#[derive(Clone, Copy)]
pub struct BothSides<'a> {
    pub local: &'a Btf,
    pub kernel: &'a Btf,
}

/// The ids of two types that are compared.
#[derive(Clone, Copy)]
pub struct ComparedTypes {
    pub local: u32,
    pub target: u32,
}

/// Returns the parameters of a FUNC_PROTO; no parameters for other types.
pub fn params_of<'a>(ty: &BtfType<'a>) -> Rows<'a, BtfParam> {
    match ty {
        BtfType::FuncProto { params, .. } => params.copy(),
        _ => Rows::of(&[]),
    }
}

/// Returns the type inside a PTR, an ARRAY or a FUNC_PROTO; none for other types.
fn compared_inside(ty: &BtfType<'_>) -> Option<u32> {
    match ty {
        BtfType::Ptr { btf_type, .. } | BtfType::FuncProto { btf_type, .. } => Some(*btf_type),
        BtfType::Array { element_type, .. } => Some(*element_type),
        _ => None,
    }
}

/// Returns the pair of the types inside two types; none where a side has none.
pub fn both_inside(local: &BtfType<'_>, target: &BtfType<'_>) -> Option<ComparedTypes> {
    let local = compared_inside(local)?;
    let target = compared_inside(target)?;
    Some(ComparedTypes { local, target })
}

/// Keeps as many parameters as a type has.
pub fn keep_params(marks: &mut Marks, type_id: u32, count: usize) -> Result<(), AllocError> {
    for row in 0..count {
        marks.keep_row(type_id, row)?;
    }
    Ok(())
}

/// Keeps the target type of a pair, and the pairs below it in the order of a comparison, up to the first that differs. It
/// returns the number of pairs that are left; none where the comparison ended.
fn keep_pair(
    sides: BothSides<'_>,
    marks: &mut Marks,
    levels: u32,
    left: u32,
    pair: ComparedTypes,
) -> Result<Option<u32>, AllocError> {
    if levels == 0 || left == 0 {
        return Ok(None);
    }
    marks.keep_type(sides.kernel, pair.target)?;
    let Ok(local) = sides.local.resolved_type(pair.local) else {
        return Ok(None);
    };
    let Ok(target_id) = sides.kernel.resolve_type(pair.target) else {
        return Ok(None);
    };
    let Some(target) = sides.kernel.get(target_id as usize) else {
        return Ok(None);
    };
    let (params, others) = (params_of(&local), params_of(&target));
    keep_params(marks, target_id, others.len())?;
    if local.kind() != target.kind() || params.len() != others.len() {
        return Ok(None);
    }
    let mut left = left - 1;
    for k in 0..params.len() {
        let types = ComparedTypes {
            local: params.at(k).btf_type,
            target: others.at(k).btf_type,
        };
        match keep_pair(sides, marks, levels - 1, left, types)? {
            Some(rest) => left = rest,
            None => return Ok(None),
        }
    }
    match both_inside(&local, &target) {
        Some(types) => keep_pair(sides, marks, levels - 1, left, types),
        None => Ok(Some(left)),
    }
}

/// Keeps what the comparison of a local type with a candidate looks at.
///
/// # Errors
///
/// - `AllocError`: out of memory.
pub fn keep_compared(
    sides: BothSides<'_>,
    marks: &mut Marks,
    local_id: u32,
    candidate: u32,
) -> Result<(), AllocError> {
    let pair = ComparedTypes {
        local: local_id,
        target: candidate,
    };
    keep_pair(sides, marks, TYPE_LEVELS, TYPE_PAIRS, pair)?;
    Ok(())
}
