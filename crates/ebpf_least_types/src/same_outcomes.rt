//! Compares the outcomes of objects' CO-RE relocations over two kernels' types.

ghost use Rattle.std.specs.Prelude.{◌≡◌, All, IfOk};
ghost use Rattle.std.specs.Bool.{OnTrue};
ghost use Rattle.ebpf_core.specs.Searches.{outcome_of};
ghost use Rattle.ebpf_least_types.specs.LeastTypes.{asks_for_kernel_id, is_target_id, HaveOutcomesBySection, HaveSameOutcomes, HasSameOutcome, records_of};

use crate::same_faults::same_answer;
use ebpf_base::Items;
use ebpf_btf::Btf;
use ebpf_btf_ext::{Relocation, RelocationKind};
use ebpf_core::CoreSearch;
use ebpf_object::Object;
use std::alloc::{AllocError, Global};

/// Returns whether a relocation asks for the kernel's id of a type.
pub fn asks_for_kernel_id(relocation: &Relocation) -> bool
    ensures { result ≡ asks_for_kernel_id relocation.now }
{
    matches!(relocation.kind, RelocationKind::TypeIdTarget)
}

/// Returns whether a relocation has the same outcome in two searches for one object. One that asks for an id has.
fn same_outcome(
    alloc: Global,
    kernel: &mut CoreSearch<'_>,
    types: &mut CoreSearch<'_>,
    relocation: &Relocation,
) -> Result<bool, AllocError>
    requires { types.old.local ≡ kernel.old.local }
    ensures same { IfOk result (λ same.
        OnTrue same
        (HasSameOutcome kernel.old.local kernel.old.target types.old.target relocation.now)) }
    ensures kernel { kernel.new ≡ kernel.old }
    ensures types { types.new ≡ types.old }
{
    if asks_for_kernel_id(relocation) {
        return Ok(true);
    }
    let one = types.outcome(alloc, relocation);
    let other = kernel.outcome(alloc, relocation);
    same_answer(&one, &other)
}

/// Returns whether all relocations of a list have the same outcomes in two searches.
#[tactic(auto, using(crate::proofs::SameSoFar::record_more, crate::proofs::SameSoFar::records_all))]
fn same_in_section(
    alloc: Global,
    kernel: &mut CoreSearch<'_>,
    types: &mut CoreSearch<'_>,
    records: &[Relocation],
) -> Result<bool, AllocError>
    requires { types.old.local ≡ kernel.old.local }
    ensures same { IfOk result (λ same.
        OnTrue same
        (All (HasSameOutcome kernel.old.local kernel.old.target types.old.target)
        records.now)) }
    ensures kernel { kernel.new ≡ kernel.old }
    ensures types { types.new ≡ types.old }
{
    for relocation in records {
        if !same_outcome(alloc, kernel, types, relocation)? {
            return Ok(false);
        }
    }
    Ok(true)
}

/// Returns whether all relocations of some sections have the same outcomes in two searches.
#[tactic(auto, using(crate::proofs::SameSoFar::section_more, crate::proofs::SameSoFar::sections_all))]
fn same_in_sections(
    alloc: Global,
    kernel: &mut CoreSearch<'_>,
    types: &mut CoreSearch<'_>,
    sections: &[(u32, Items<Relocation>)],
) -> Result<bool, AllocError>
    requires { types.old.local ≡ kernel.old.local }
    ensures { IfOk result (λ same.
        OnTrue same
        (HaveOutcomesBySection kernel.old.local kernel.old.target types.old.target
        sections.now)) }
{
    for section in sections {
        if !same_in_section(alloc, kernel, types, section.1.as_slice())? {
            return Ok(false);
        }
    }
    Ok(true)
}

/// Returns whether all relocations of an object have the same outcomes over two kernels' types.
fn same_for_object(
    alloc: Global,
    object: &Object,
    kernel: &Btf,
    types: &Btf,
) -> Result<bool, AllocError>
    ensures { IfOk result (λ same.
        OnTrue same (HaveSameOutcomes object.now kernel.now types.now)) }
{
    let (Some(local), Some(ext)) = (&object.btf, &object.btf_ext) else {
        return Ok(true);
    };
    let mut over_kernel = CoreSearch::new(alloc, local, kernel);
    let mut over_types = CoreSearch::new(alloc, local, types);
    same_in_sections(alloc, &mut over_kernel, &mut over_types, ext.relocations())
}

/// Returns whether all relocations of objects, those that ask for the kernel's ids aside, have the same outcomes over the
/// types as over the kernel's.
///
/// # Errors
///
/// - `AllocError`: out of memory.
#[tactic(auto, using(crate::proofs::SameSoFar::object_more, crate::proofs::SameSoFar::objects_all))]
pub fn same_for_all(
    alloc: Global,
    objects: &[Object],
    kernel: &Btf,
    types: &Btf,
) -> Result<bool, AllocError>
    ensures { IfOk result (λ same.
        OnTrue same (All (λ o. HaveSameOutcomes o kernel.now types.now) objects.now)) }
{
    for object in objects {
        if !same_for_object(alloc, object, kernel, types)? {
            return Ok(false);
        }
    }
    Ok(true)
}
