//! The least types of a kernel that objects ask for.

ghost use Rattle.std.specs.Prelude.{◌≡◌, All, IfOk, IfSome};
ghost use Rattle.ebpf_base.specs.Faults.{Refuses};
ghost use Rattle.ebpf_least_types.specs.IdUses.{first_id_use};
ghost use Rattle.ebpf_least_types.specs.LeastTypes.{HasSameSlots, HaveSameOutcomes};
ghost use Rattle.ebpf_least_types.specs.Memory.{is_least_memory};

use crate::error::LeastTypesError;
use crate::id_uses::refuse_id_uses;
use crate::marks::Marks;
use crate::same_outcomes::same_for_all;
use crate::select::{ask_for_declarations, marks_for};
use crate::writer::written_types;
use ebpf_base::Endianness;
use ebpf_btf::{Btf, BtfError};
use ebpf_object::Object;
use std::alloc::{AllocError, Global};

/// Returns the byte order of the first object; little-endian without objects.
fn order_of(objects: &[Object]) -> Endianness {
    match objects.first() {
        Some(object) => object.endianness,
        None => Endianness::Little,
    }
}

/// Returns the types of a kernel that marks keep; none where they can't be written.
fn types_by(
    alloc: Global,
    objects: &[Object],
    kernel: &Btf,
    marks: &Marks,
) -> Result<Option<Btf>, AllocError> {
    let declares = !ask_for_declarations(objects);
    match written_types(alloc, order_of(objects), kernel, marks, declares) {
        Ok(types) => Ok(Some(types)),
        Err(BtfError::OutOfMemory) => Err(AllocError),
        Err(_) => Ok(None),
    }
}

/// Returns the types of a kernel that marks keep, where all relocations have the same outcomes over them.
fn checked_types(
    alloc: Global,
    objects: &[Object],
    kernel: &Btf,
    marks: &Marks,
) -> Result<Option<Btf>, AllocError>
    ensures { IfOk result (λ found.
        IfSome found (λ types. All (λ o. HaveSameOutcomes o kernel.now types) objects.now)) }
{
    let Some(types) = types_by(alloc, objects, kernel, marks)? else {
        return Ok(None);
    };
    if !same_for_all(alloc, objects, kernel, &types)? {
        return Ok(None);
    }
    Ok(Some(types))
}

/// Returns a copy of all types of a kernel.
fn all_types(objects: &[Object], kernel: &Btf) -> Result<Btf, AllocError>
    ensures { IfOk result (λ types. All (λ o. HaveSameOutcomes o kernel.now types) objects.now) }
{
    let _ = objects;
    let types = kernel.clone()?;
    Ok(types)
}

/// Returns the types that the relocations of objects ask for.
fn cut_types(alloc: Global, objects: &[Object], kernel: &Btf) -> Result<Btf, AllocError>
    ensures { IfOk result (λ types. All (λ o. HaveSameOutcomes o kernel.now types) objects.now) }
{
    let mut marks = marks_for(alloc, objects, kernel)?;
    if let Some(types) = checked_types(alloc, objects, kernel, &marks)? {
        return Ok(types);
    }
    marks.widen(kernel)?;
    if let Some(types) = checked_types(alloc, objects, kernel, &marks)? {
        return Ok(types);
    }
    all_types(objects, kernel)
}

/// Returns the types of a kernel that the CO-RE relocations of objects ask for. Their ids are new.
///
/// Each CO-RE relocation of each object has the same outcome over these types as over the kernel's. So
/// `Object::relocate_btf` writes the same slots over both, or is refused with the same error (`laws`). A type keeps its
/// name, its kind and its size; of its members, variants and parameters those that the relocations ask for.
///
/// The outcomes are compared before the types are returned. Where one differed, more of the kernel's types would be
/// kept, and at last all.
///
/// # Errors
///
/// - `NeedsKernelId`: an object needs an id of the kernel's own types: the first such use, object by object
///   (`kernel_id_uses`).
/// - `OutOfMemory`: out of memory.
#[tactic(auto, using(crate::proofs::NoUses::all_slots_are_alike))]
pub fn least_types(alloc: Global, objects: &[Object], kernel: &Btf) -> Result<Btf, LeastTypesError>
    ensures same { IfOk result (λ types.
        All (λ o. HaveSameOutcomes o kernel.now types) objects.now) }
    ensures slots { IfOk result (λ types. All (HasSameSlots kernel.now types) objects.now) }
    ensures fault { Refuses is_least_memory result (first_id_use objects.now) }
{
    refuse_id_uses(alloc, objects)?;
    let types = cut_types(alloc, objects, kernel)?;
    Ok(types)
}

/// Returns the types of a kernel that the CO-RE relocations of objects ask for, also where something needs the ids of
/// the kernel's own types (`kernel_id_uses`).
///
/// The types are those of `least_types`. A relocation of kind BPF_CORE_TYPE_ID_TARGET has the id of these types in place
/// of the kernel's.
///
/// # Errors
///
/// - `AllocError`: out of memory.
pub fn least_types_despite_ids(
    alloc: Global,
    objects: &[Object],
    kernel: &Btf,
) -> Result<Btf, AllocError>
    ensures { IfOk result (λ types.
        All (λ o. HaveSameOutcomes o kernel.now types) objects.now) }
{
    cut_types(alloc, objects, kernel)
}
