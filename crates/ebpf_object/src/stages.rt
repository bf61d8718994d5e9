//! The stages of preparing an object, each after those before it.

ghost use Rattle.std.specs.Prelude.{◌≡◌, None, Some, option_map, is_some, OnOk, IfErr};
ghost use Rattle.std.specs.Option.{option_copied};
ghost use Rattle.ebpf_object.specs.UnchangedFields.{KeepsOthers};
ghost use Rattle.ebpf_object.specs.Prepared.{Stages, IsStageFault, RefusesPreparing};
ghost use Rattle.ebpf_object.specs.Stages.{RelocatesTypes, TypesFault, Resolves, ResolvingFault, with_externs_if, externs_fault_if, LinksPrograms, LinkingFault, fds_written, fds_fault, Wrapped, chosen, descriptors_of};
ghost use Rattle.ebpf_object.specs.declared.prepare_error.PrepareError.TheVariants.{Types, Maps, Ksyms, Externs, Calls};

use crate::missing::{check_descriptors, check_externs};
use crate::object::Object;
use crate::own_maps::relocate_own_maps;
use crate::prepare::Steps;
use crate::prepare_error::PrepareError;
use ebpf_btf::Btf;
use ebpf_ksyms::SymbolSource;
use std::alloc::Global;

/// Relocates the functions to a kernel's types.
#[tactic(auto, using(crate::proofs::Staging::wrapped))]
fn relocate_types(object: &mut Object, target: Option<&Btf>) -> Result<(), PrepareError>
    ensures ok { OnOk result (RelocatesTypes (option_copied target.entry) object.old object.new) }
    ensures fault { IfErr result
        (RefusesPreparing
        (Wrapped Types (TypesFault (option_copied target.entry) object.old))) }
    ensures others_stay { KeepsOthers object.old object.new }
{
    let Some(target) = target else {
        return Ok(());
    };
    match object.relocate_btf(target) {
        Ok(()) => Ok(()),
        Err(error) => Err(PrepareError::Types(error)),
    }
}

/// Writes the descriptors of the object's own maps, where these are given: the pass of `Steps::map_fds`.
///
/// # Errors
///
/// Those of `relocate_own_maps`.
pub fn write_map_fds(
    alloc: Global,
    object: &mut Object,
    descriptors: Option<&[(&str, i32)]>,
) -> Result<(), PrepareError>
    ensures ok { OnOk result
        (object.new ≡ fds_written (descriptors_of descriptors.entry) object.old) }
    ensures sound { OnOk result (fds_fault (descriptors_of descriptors.entry) object.old ≡ None) }
    ensures fault { IfErr result
        (RefusesPreparing
        (Wrapped Maps (λ e.
        fds_fault (descriptors_of descriptors.entry) object.old ≡ Some e))) }
    ensures others_stay { KeepsOthers object.old object.new }
{
    let Some(descriptors) = descriptors else {
        return Ok(());
    };
    relocate_own_maps(alloc, object, descriptors)
}

/// Resolves the externs, where `kernel` says how: as `Steps::externs` does.
///
/// # Errors
///
/// - `Ksyms`: with that of `Object::resolve_externs`.
#[tactic(auto, using(crate::proofs::Staging::wrapped))]
pub fn resolve<K: SymbolSource>(
    object: &mut Object,
    kernel: Option<Option<&Btf>>,
    kallsyms: K,
) -> Result<(), PrepareError>
    ensures ok { OnOk result
        (Resolves (option_map option_copied kernel.entry) (K.source kallsyms) object.old
        object.new) }
    ensures fault { IfErr result
        (RefusesPreparing
        (Wrapped Ksyms
        (ResolvingFault (option_map option_copied kernel.entry) (K.source kallsyms)
        object.old))) }
    ensures others_stay { KeepsOthers object.old object.new }
{
    let Some(kernel) = kernel else {
        return Ok(());
    };
    match object.resolve_from(kernel, kallsyms) {
        Ok(()) => Ok(()),
        Err(error) => Err(PrepareError::Ksyms(error)),
    }
}

/// Writes the externs into the slots that refer to them, where `kernel` is given: as `Steps::externs` chooses it.
///
/// # Errors
///
/// - `Externs`: with that of `Object::relocate_externs`.
#[tactic(auto, using(crate::proofs::Staging::wrapped))]
pub fn write_externs(object: &mut Object, kernel: Option<Option<&Btf>>) -> Result<(), PrepareError>
    ensures ok { OnOk result (object.new ≡ with_externs_if (is_some kernel.entry) object.old) }
    ensures sound { OnOk result (externs_fault_if (is_some kernel.entry) object.old ≡ None) }
    ensures fault { IfErr result
        (RefusesPreparing
        (Wrapped Externs (λ e.
        externs_fault_if (is_some kernel.entry) object.old ≡ Some e))) }
    ensures others_stay { KeepsOthers object.old object.new }
{
    if kernel.is_none() {
        return Ok(());
    }
    match object.relocate_externs() {
        Ok(()) => Ok(()),
        Err(error) => Err(PrepareError::Externs(error)),
    }
}

/// Links the programs with the functions that they reach.
#[tactic(auto, using(crate::proofs::Staging::wrapped))]
fn link_programs(alloc: Global, object: &mut Object, calls: bool) -> Result<(), PrepareError>
    ensures ok { OnOk result (LinksPrograms calls object.old object.new) }
    ensures fault { IfErr result
        (RefusesPreparing (Wrapped Calls (LinkingFault calls object.old))) }
    ensures others_stay { KeepsOthers object.old object.new }
{
    if !calls {
        return Ok(());
    }
    let sections = object.text_sections(alloc)?;
    match object.relocate_calls(&sections) {
        Ok(()) => Ok(()),
        Err(error) => Err(PrepareError::Calls(error)),
    }
}

/// The stages in order: first descriptors that have to be complete, at last programs.
pub fn run_stages<K: SymbolSource>(
    alloc: Global,
    object: &mut Object,
    steps: &Steps<'_>,
    kallsyms: K,
) -> Result<(), PrepareError>
    ensures ok { OnOk result (Stages (chosen steps.now) (K.source kallsyms) object.old object.new) }
    ensures others_stay { KeepsOthers object.old object.new }
    ensures fault { IfErr result
        (RefusesPreparing (IsStageFault (chosen steps.now) (K.source kallsyms) object.old)) }
{
    check_descriptors(object, steps.map_fds, steps.complete)?;
    relocate_types(object, steps.target_btf)?;
    write_map_fds(alloc, object, steps.map_fds)?;
    resolve(object, steps.externs, kallsyms)?;
    write_externs(object, steps.externs)?;
    check_externs(object, steps.calls, steps.complete)?;
    link_programs(alloc, object, steps.calls)
}
