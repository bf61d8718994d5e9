//! Keeps what the subjects of relocations are found by: variants and paths of fields.

use crate::marks::Marks;
use crate::matched_types::keep_matched;
use crate::members::{KeptMember, keep_last, keep_named};
use crate::whole_types::{BothSides, keep_compared};
use ebpf_btf::Btf;
use ebpf_core::{NamedPath, Step};
use std::alloc::AllocError;

/// A position on a path.
#[derive(Clone, Copy)]
struct KeptSpot {
    /// The id of the type there.
    type_id: u32,
    /// The member that the last step led to; none after an index.
    member: Option<KeptMember>,
}

/// Keeps the first variant of a candidate that has a name, flavors aside.
fn keep_variant(
    kernel: &Btf,
    marks: &mut Marks,
    name: &str,
    candidate: u32,
) -> Result<(), AllocError> {
    marks.keep_type(kernel, candidate)?;
    let Ok(type_id) = kernel.resolve_type(candidate) else {
        return Ok(());
    };
    let Some(ty) = kernel.get(type_id as usize) else {
        return Ok(());
    };
    for index in 0..ty.variant_count().unwrap_or(0) {
        let Some(variant) = ty.variant(index) else {
            return Ok(());
        };
        if let Ok(true) = kernel.is_essential_name_at(variant.name_offset, name) {
            return marks.keep_row(type_id, index);
        }
    }
    Ok(())
}

/// Follows an index from a spot, in the type with an id.
fn keep_element(
    kernel: &Btf,
    marks: &mut Marks,
    from: KeptSpot,
    type_id: u32,
    index: usize,
) -> Result<Option<KeptSpot>, AllocError> {
    let Some(ty) = kernel.get(type_id as usize) else {
        return Ok(None);
    };
    let Some(array) = ty.array() else {
        return Ok(None);
    };
    let spot = KeptSpot {
        type_id: array.element_type,
        member: None,
    };
    if index < array.len as usize {
        return Ok(Some(spot));
    }
    let Some(member) = from.member else {
        return Ok(None);
    };
    if array.len == 0 && keep_last(kernel, marks, member.parent, member.index)? {
        return Ok(Some(spot));
    }
    Ok(None)
}

/// Follows a step from a spot.
fn keep_step(
    sides: BothSides<'_>,
    marks: &mut Marks,
    from: KeptSpot,
    step: &Step,
) -> Result<Option<KeptSpot>, AllocError> {
    let Ok(type_id) = sides.kernel.resolve_type(from.type_id) else {
        return Ok(None);
    };
    match step {
        Step::Index { index } => keep_element(sides.kernel, marks, from, type_id, *index),
        Step::Name { name, local_type } => {
            let found = keep_named(sides, marks, type_id, name.as_str(), *local_type)?;
            Ok(found.map(|member| KeptSpot {
                type_id: member.type_id,
                member: Some(member),
            }))
        }
    }
}

/// Keeps what the steps of a path meet in a candidate, from the second step on. The first counts in the candidate itself.
fn keep_steps(
    sides: BothSides<'_>,
    marks: &mut Marks,
    steps: &[Step],
    candidate: u32,
) -> Result<(), AllocError> {
    marks.keep_type(sides.kernel, candidate)?;
    let mut spot = KeptSpot {
        type_id: candidate,
        member: None,
    };
    for step in steps.iter().skip(1) {
        match keep_step(sides, marks, spot, step)? {
            Some(next) => spot = next,
            None => return Ok(()),
        }
    }
    Ok(())
}

/// Keeps what a path of a local type is found by in a candidate.
///
/// # Errors
///
/// - `AllocError`: out of memory.
pub fn keep_path(
    sides: BothSides<'_>,
    marks: &mut Marks,
    local_id: u32,
    path: &NamedPath,
    candidate: u32,
) -> Result<(), AllocError> {
    match path {
        NamedPath::WholeType => keep_compared(sides, marks, local_id, candidate),
        NamedPath::MatchedType => keep_matched(sides, marks, local_id, candidate),
        NamedPath::Variant { name } => {
            keep_variant(sides.kernel, marks, name.as_str(), candidate)
        }
        NamedPath::Field { steps, .. } => keep_steps(sides, marks, steps.as_slice(), candidate),
    }
}
