//! Externs of which nothing is known, as they are written where a kernel is still to come.

ghost use Rattle.std.specs.Prelude.{◌≡◌, OnOk};
ghost use Rattle.std.specs.FinMap as finite;
ghost use Rattle.ebpf_base.specs.Maps.{put_all, mapped_entries};
ghost use Rattle.cli_common.specs.HelperCalls.{put_firsts};
ghost use Rattle.cli_common.specs.ObjectPrograms.{settings_named, unknown};

use ebpf_base::{ByName, Text};
use ebpf_model::ExternDesc;
use std::alloc::AllocError;

/// An extern whose value isn't known.
pub fn unknown(known: ExternDesc) -> ExternDesc
    ensures { result ≡ unknown known }
{
    ExternDesc {
        kernel_btf_id: Some(1),
        is_resolved: true,
        ..known
    }
}

/// Notes the externs of which nothing is known yet.
pub fn add_unknown(
    all: &ByName<ExternDesc>,
    written: &mut ByName<ExternDesc>,
) -> Result<(), AllocError>
    ensures { OnOk result
        (written.new
        ≡ put_firsts written.old (mapped_entries unknown (finite.entries all.now))) }
{
    for (name, known) in all.iter() {
        if written.contains_key(name.as_str()) {
            continue;
        }
        written.insert(name.clone()?, unknown(*known))?;
    }
    Ok(())
}

/// An extern that the kernel's configuration gives, of which nothing is known.
const SETTING: ExternDesc = ExternDesc {
    btf_id: 0,
    is_typed: false,
    is_weak: false,
    kernel_btf_id: Some(1),
    ksym_addr: None,
    is_resolved: true,
};

/// Notes the externs that the kernel's configuration gives.
pub fn add_settings(names: &[Text], written: &mut ByName<ExternDesc>) -> Result<(), AllocError>
    ensures { OnOk result (written.new ≡ put_all written.old (settings_named names.now)) }
{
    for name in names {
        let name = name.clone()?;
        written.insert(name.into_string(), SETTING)?;
    }
    Ok(())
}
