//! The externs of an object that a kernel lacks.

ghost use Rattle.std.specs.Prelude.{◌≡◌, ◌<◌, [], IfOk, Some, length};
ghost use Rattle.ebpf_object.specs.Stages.{Resolves};
ghost use Rattle.ebpf_verdict.specs.Writing.{no_symbols};

use ebpf_base::{ByName, Items, Text};
use ebpf_btf::Btf;
use ebpf_ksyms::{ExternOutcome, ExternResult, KsymsError, typed_outcomes};
use ebpf_model::ExternDesc;
use ebpf_object::Object;
use std::alloc::{AllocError, Global};

/// An extern that has to be there, and that a kernel lacks.
#[derive(Debug, Drop)]
pub struct LackingExtern {
    /// The name of the extern.
    pub name: Text,
    /// The reason.
    pub error: KsymsError,
}

/// The externs of an object over a kernel, as they are written, and those that the kernel lacks.
#[derive(Drop)]
struct ResolvedApart {
    externs: ByName<ExternDesc>,
    lacking: Items<LackingExtern>,
}

/// An extern whose value isn't known: it stands for a type's id, so that nothing is said of its value.
fn unknown(known: ExternDesc) -> ExternDesc {
    ExternDesc {
        kernel_btf_id: Some(1),
        is_resolved: true,
        ..known
    }
}

/// The value of an extern that the kernel lacks, which is noted.
fn lack(
    alloc: Global,
    lacking: &mut Items<LackingExtern>,
    name: &str,
    known: ExternDesc,
    error: KsymsError,
) -> Result<ExternDesc, AllocError> {
    let name = Text::from_str(alloc, name)?;
    lacking.push(LackingExtern { name, error })?;
    Ok(unknown(known))
}

/// The refusal of an extern without a type and without a value.
fn without_value(alloc: Global, name: &str) -> Result<KsymsError, AllocError> {
    let name = Text::from_str(alloc, name)?;
    Ok(KsymsError::VariableNotFound { name })
}

/// The value of an extern by its outcome. One that the kernel lacks is noted.
fn value_of(
    alloc: Global,
    lacking: &mut Items<LackingExtern>,
    outcome: ExternOutcome<'_>,
) -> Result<ExternDesc, AllocError> {
    let known = outcome.desc;
    let name = outcome.name;
    match outcome.result {
        ExternResult::Refused(error) => lack(alloc, lacking, name, known, error),
        ExternResult::Untyped if !known.is_weak => {
            let error = without_value(alloc, name)?;
            lack(alloc, lacking, name, known, error)
        }
        result => Ok(result.apply_to(known)),
    }
}

/// Notes the value of an extern by its outcome.
fn add_outcome(
    alloc: Global,
    apart: &mut ResolvedApart,
    outcome: ExternOutcome<'_>,
) -> Result<(), AllocError> {
    let name = String::from_str(alloc, outcome.name)?;
    let value = value_of(alloc, &mut apart.lacking, outcome)?;
    apart.externs.insert(name, value)?;
    Ok(())
}

/// The externs of an object over a kernel, each with its outcome.
fn resolved_apart(
    alloc: Global,
    object: &Object,
    kernel: &Btf,
) -> Result<ResolvedApart, AllocError> {
    let outcomes = typed_outcomes(alloc, object.btf.as_ref(), &object.externs, Some(kernel))?;
    let mut apart = ResolvedApart {
        externs: ByName::new(alloc),
        lacking: Items::new(alloc),
    };
    for outcome in outcomes.into_vec() {
        add_outcome(alloc, &mut apart, outcome)?;
    }
    Ok(apart)
}

/// These externs, or where there are none the one of a refusal.
fn at_least(
    alloc: Global,
    lacking: Items<LackingExtern>,
    error: KsymsError,
) -> Result<Items<LackingExtern>, AllocError>
    ensures { IfOk result (λ all. 0 < length all) }
{
    if lacking.len() > 0 {
        drop(error);
        return Ok(lacking);
    }
    let mut all = lacking;
    let name = Text::from_str(alloc, "")?;
    all.push(LackingExtern { name, error })?;
    Ok(all)
}

/// The externs that a kernel lacks, at least the one of a refusal. They stand for a type's id in the object afterwards.
fn lacking(
    alloc: Global,
    object: &mut Object,
    kernel: &Btf,
    error: KsymsError,
) -> Result<Items<LackingExtern>, AllocError>
    ensures some { IfOk result (λ all. 0 < length all) }
{
    if matches!(error, KsymsError::OutOfMemory) {
        return Err(AllocError);
    }
    let apart = resolved_apart(alloc, object, kernel)?;
    object.externs = apart.externs;
    at_least(alloc, apart.lacking, error)
}

/// Resolves the externs of an object by a kernel's types, and lists those that it lacks.
#[tactic(auto, using(crate::proofs::Written::not_none))]
pub fn resolve(
    alloc: Global,
    object: &mut Object,
    kernel: &Btf,
) -> Result<Items<LackingExtern>, AllocError>
    ensures { IfOk result (λ found.
        found ≡ [] → Resolves (Some (Some kernel.now)) no_symbols object.old object.new) }
{
    match object.resolve_text(Some(kernel), &[]) {
        Ok(()) => Ok(Items::new(alloc)),
        Err(error) => {
            let found = lacking(alloc, object, kernel, error)?;
            Ok(found)
        }
    }
}
