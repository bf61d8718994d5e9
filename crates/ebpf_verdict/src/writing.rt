//! An object, written for a kernel up to the linking of its programs.

ghost use Rattle.std.specs.Prelude.{◌≡◌, [], IfOk, OnOk, Some, None, true};
ghost use Rattle.ebpf_model.specs.Memory.{is_memory_at};
ghost use Rattle.ebpf_object.specs.Stages.{fds_fault, fds_written, given_fault, unwritten_fault};
ghost use Rattle.ebpf_object.specs.WrittenSlots.{externs_fault, with_externs};
ghost use Rattle.ebpf_verdict.specs.Writing.{HasSlots, IsUnstated, IsWritten, IsWrittenAs, own_descriptors};

use crate::externs::{LackingExtern, resolve};
use ebpf_base::{ByKey, Items};
use ebpf_btf::Btf;
use ebpf_core_relo::put_slots;
use ebpf_model::{EbpfRelocationError, RelocationError};
use ebpf_object::Object;
use ebpf_object::prepare::{
    PrepareError, check_descriptors, check_externs, numbered_descriptors, relocate_own_maps,
};
use ebpf_parts::insn::bpf_insn;
use std::alloc::{AllocError, Global};

/// An object that was written for a kernel.
#[derive(Drop)]
pub struct WrittenObject {
    /// The object, as linking begins.
    pub object: Object,
    /// The externs that the kernel lacks. They stand for a type's id in the slots.
    pub lacking: Items<LackingExtern>,
}

/// A copy of an object with the slots that CO-RE relocations write.
#[tactic(auto, using(crate::proofs::Written::has_slots))]
fn with_slots(object: &Object, written: ByKey<Items<bpf_insn>>) -> Result<Object, AllocError>
    ensures { IfOk result (λ copy. HasSlots written object.now copy) }
{
    let mut copy = object.clone()?;
    put_slots(&mut copy.functions, written);
    Ok(copy)
}

/// Refuses an object with a slot whose own map has none of the descriptors 1, 2, .. of the object's own maps.
fn check_maps(alloc: Global, object: &Object) -> Result<(), PrepareError>
    ensures { OnOk result
        (given_fault (Some (own_descriptors object.now)) true object.now ≡ None) }
{
    let names = object.map_names(alloc)?;
    let descriptors = numbered_descriptors(alloc, names.as_slice())?;
    check_descriptors(object, Some(descriptors.as_slice()), true)?;
    Ok(())
}

/// Writes the descriptors 1, 2, .. of the object's own maps, in byte order of their names.
fn write_maps(alloc: Global, object: &mut Object) -> Result<(), PrepareError>
    ensures written { OnOk result
        (object.new ≡ fds_written (Some (own_descriptors object.old)) object.old) }
    ensures sound { OnOk result
        (fds_fault (Some (own_descriptors object.old)) object.old ≡ None) }
{
    let names = object.map_names(alloc)?;
    let descriptors = numbered_descriptors(alloc, names.as_slice())?;
    relocate_own_maps(alloc, object, &descriptors)
}

/// Writes the externs.
fn relocate_externs(object: &mut Object) -> Result<(), PrepareError>
    ensures written { OnOk result (object.new ≡ with_externs object.old) }
    ensures sound { OnOk result (externs_fault object.old ≡ None) }
{
    match object.relocate_externs() {
        Ok(()) => Ok(()),
        Err(error) => Err(PrepareError::Externs(error)),
    }
}

/// Writes the externs. A call of one that is left unwritten is refused.
fn write_externs(object: &mut Object) -> Result<(), PrepareError>
    ensures written { OnOk result (object.new ≡ with_externs object.old) }
    ensures sound { OnOk result (externs_fault object.old ≡ None) }
    ensures complete { OnOk result (unwritten_fault true true object.new ≡ None) }
{
    relocate_externs(object)?;
    check_externs(object, true, true)?;
    Ok(())
}

/// Writes descriptors and externs into an object whose functions are relocated to a kernel's types. The externs that the
/// kernel lacks come back.
#[tactic(auto, using(crate::proofs::Written::written))]
fn write_passes(
    alloc: Global,
    object: &mut Object,
    kernel: &Btf,
) -> Result<Items<LackingExtern>, PrepareError>
    ensures { IfOk result (λ lacking.
        lacking ≡ [] → IsWritten kernel.now object.old object.new) }
{
    write_maps(alloc, object)?;
    let lacking = resolve(alloc, object, kernel)?;
    write_externs(object)?;
    Ok(lacking)
}

/// Writes descriptors and externs into a copy of an object whose functions are relocated to a kernel's types, as
/// `write_passes` does, where each slot's own map has a descriptor.
fn write_complete(
    alloc: Global,
    object: &Object,
    copy: &mut Object,
    kernel: &Btf,
) -> Result<Items<LackingExtern>, PrepareError>
    ensures given { IfOk result (λ lacking.
        given_fault (Some (own_descriptors object.now)) true object.now ≡ None) }
    ensures written { IfOk result (λ lacking.
        lacking ≡ [] → IsWritten kernel.now copy.old copy.new) }
{
    check_maps(alloc, object)?;
    let lacking = write_passes(alloc, copy, kernel)?;
    Ok(lacking)
}

/// Whether an allocation failed.
pub fn is_memory(error: &EbpfRelocationError) -> bool
    ensures { result ≡ is_memory_at error.now }
{
    matches!(error.error, RelocationError::OutOfMemory)
}

/// Whether an allocation failed in a pass.
fn is_pass_memory(error: &PrepareError) -> bool {
    match error {
        PrepareError::OutOfMemory => true,
        PrepareError::Maps(refusal)
        | PrepareError::Externs(refusal)
        | PrepareError::Calls(refusal) => is_memory(refusal),
        _ => false,
    }
}

/// The refusal of a pass, unless memory was refused.
pub fn refusal_of(error: PrepareError) -> Result<PrepareError, AllocError>
    ensures { IfOk result (λ refusal. refusal ≡ error) }
{
    if is_pass_memory(&error) {
        drop(error);
        return Err(AllocError);
    }
    Ok(error)
}

/// The object of a pass that refuses it.
fn refused(error: PrepareError) -> Result<Result<WrittenObject, PrepareError>, AllocError>
    ensures { IfOk result IsUnstated }
{
    let refusal = refusal_of(error)?;
    Ok(Err(refusal))
}

/// A copy of an object with the slots that CO-RE relocations write, descriptors of its own maps, and externs that are
/// resolved by a kernel's types.
///
/// # Errors
///
/// - outer: an allocation failed.
/// - inner: a pass refuses the object.
#[tactic(auto, using(crate::proofs::Written::written_as))]
pub fn written_object(
    alloc: Global,
    object: &Object,
    kernel: &Btf,
    slots: ByKey<Items<bpf_insn>>,
) -> Result<Result<WrittenObject, PrepareError>, AllocError>
    ensures { IfOk result (λ r. IsWrittenAs kernel.now slots object.now r) }
{
    let mut copy = with_slots(object, slots)?;
    match write_complete(alloc, object, &mut copy, kernel) {
        Ok(lacking) => Ok(Ok(WrittenObject {
            object: copy,
            lacking,
        })),
        Err(error) => {
            drop(copy);
            let refusal = refused(error)?;
            Ok(refusal)
        }
    }
}
