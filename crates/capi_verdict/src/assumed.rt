//! An object as it is judged: externs that the kernel's types alone don't give count as found.

ghost use Rattle.std.specs.Prelude.{◌≡◌, IfOk, OnOk};
ghost use Rattle.std.specs.FinMap as finite;
ghost use Rattle.ebpf_base.specs.Maps.{mapped_entries, put_all};
ghost use Rattle.ebpf_kconfig.specs.KconfigExterns.{is_kconfig_memory};
ghost use Rattle.capi_verdict.specs.Assumed.{assumed_externs, found, found_setting, found_without_type, settings, settings_found};

use ebpf_base::{ByName, Items};
use ebpf_kconfig::{KconfigError, KconfigExtern, kconfig};
use ebpf_model::ExternDesc;
use ebpf_object::Object;
use std::alloc::{AllocError, Global};

/// An extern that the kernel has, as an id that says nothing.
fn found(known: ExternDesc) -> ExternDesc
    ensures { result ≡ found known }
{
    ExternDesc {
        kernel_btf_id: Some(1),
        is_resolved: true,
        ..known
    }
}

/// An extern with a type as it is; any other counts as found.
fn found_without_type(known: ExternDesc) -> ExternDesc
    ensures { result ≡ found_without_type known }
{
    if known.is_typed {
        return known;
    }
    found(known)
}

/// A kconfig extern, which counts as found.
fn found_setting() -> ExternDesc
    ensures { result ≡ found_setting }
{
    ExternDesc {
        btf_id: 0,
        is_typed: false,
        is_weak: false,
        kernel_btf_id: Some(1),
        ksym_addr: None,
        is_resolved: true,
    }
}

/// The externs of an object; those without a type count as found.
fn externs_without_types(
    alloc: Global,
    externs: &ByName<ExternDesc>,
) -> Result<ByName<ExternDesc>, AllocError>
    ensures { IfOk result (λ all.
        all
        ≡ put_all finite.empty
        (mapped_entries found_without_type (finite.entries externs.now))) }
{
    let mut all = ByName::new(alloc);
    for (name, known) in externs.iter() {
        all.insert(name.clone()?, found_without_type(*known))?;
    }
    Ok(all)
}

/// Whether an allocation failed.
fn is_memory(error: &KconfigError) -> bool
    ensures { result ≡ is_kconfig_memory error.now }
{
    matches!(error, KconfigError::OutOfMemory)
}

/// The kconfig externs of an object, none where they have a fault.
fn settings(alloc: Global, object: &Object) -> Result<Items<KconfigExtern>, AllocError>
    ensures { IfOk result (λ all. all ≡ settings object.now) }
{
    match kconfig(object) {
        Ok(externs) => Ok(externs),
        Err(error) => {
            if is_memory(&error) {
                return Err(AllocError);
            }
            Ok(Items::new(alloc))
        }
    }
}

/// Adds kconfig externs, which count as found.
fn add_settings(
    externs: &mut ByName<ExternDesc>,
    settings: &[KconfigExtern],
) -> Result<(), AllocError>
    ensures { OnOk result
        (externs.new ≡ put_all externs.old (settings_found settings.now)) }
{
    for setting in settings {
        let name = setting.name.clone()?;
        externs.insert(name.into_string(), found_setting())?;
    }
    Ok(())
}

/// The externs of an object as they are judged.
pub fn assumed_externs(alloc: Global, object: &Object) -> Result<ByName<ExternDesc>, AllocError>
    ensures { IfOk result (λ all. all ≡ assumed_externs object.now) }
{
    let settings = settings(alloc, object)?;
    let mut externs = externs_without_types(alloc, &object.externs)?;
    add_settings(&mut externs, settings.as_slice())?;
    Ok(externs)
}
