//! Kconfig externs, defined by the configuration and the version of a kernel.

ghost use Rattle.std.specs.Prelude.{◌≡◌, [], IfOk, OnOk, Ok, Some, None, false};
ghost use Rattle.ebpf_base.specs.Faults.{Gives};
ghost use Rattle.ebpf_base.specs.Maps.{put_all};
ghost use Rattle.ebpf_btf.specs.Strings.{id_of_name};
ghost use Rattle.ebpf_btf.specs.declared.kind.BtfKind.TheVariants.{DataSec};
ghost use Rattle.ebpf_kconfig.specs.KconfigExterns.{is_kconfig_memory, kconfig_externs, kconfig_section};
ghost use Rattle.cli_prepare.specs.KernelValues.{defined_with, externs_of, kernel_value, kernel_values, number_by_version, number_of, number_value, since, value_entry, with_kconfig};

use crate::kernel::Kernel;
use ebpf_base::{ByName, Endianness, Items};
use ebpf_btf::{Btf, BtfError, BtfKind};
use ebpf_kconfig::{
    KconfigError, KconfigExtern, define_kconfig, kconfig, kconfig_number, kconfig_value,
};
use ebpf_object::Object;
use std::alloc::Global;

/// The first version whose kernels give attached programs a cookie: 5.15.
const FIRST_WITH_COOKIE: u32 = 0x5_0f00;

/// The first version whose kernels wrap system calls: 4.17.
const FIRST_WITH_WRAPPER: u32 = 0x4_1100;

/// Returns 1 for versions from the first one on, else 0.
fn since(first: u32, version: u32) -> u32
    ensures { result ≡ since first version }
{
    u32::from(version >= first)
}

/// Returns the number that an extern of a name has in kernels of a version; none where versions say nothing of it.
#[tactic(auto, unfolding(crate::specs::KernelValues::number_by_version))]
pub fn number_by_version(version: u32, name: &str) -> Option<u32>
    ensures { result ≡ number_by_version version name.now }
{
    match name {
        "LINUX_KERNEL_VERSION" => Some(version),
        "LINUX_HAS_BPF_COOKIE" => Some(since(FIRST_WITH_COOKIE, version)),
        "LINUX_HAS_SYSCALL_WRAPPER" => Some(since(FIRST_WITH_WRAPPER, version)),
        _ => None,
    }
}

/// Returns the number that an extern of a name has by the kernel's version, where that is known.
fn number_of(kernel: &Kernel, name: &str) -> Option<u32>
    ensures { result ≡ number_of kernel.now name.now }
{
    match kernel.version {
        Some(version) => number_by_version(version, name),
        None => None,
    }
}

/// Returns the value of a number for an extern.
fn number_value(
    alloc: Global,
    wanted: &KconfigExtern,
    order: Endianness,
    number: u32,
) -> Result<Option<Items<u8>>, KconfigError>
    ensures { Gives is_kconfig_memory result (number_value order wanted.now number) }
{
    Ok(Some(kconfig_number(alloc, u64::from(number), wanted, order)?))
}

/// Returns the value of an extern: by the kernel's version, else by its configuration; none where neither has one.
fn value_of(
    alloc: Global,
    kernel: &Kernel,
    wanted: &KconfigExtern,
    order: Endianness,
) -> Result<Option<Items<u8>>, KconfigError>
    ensures { Gives is_kconfig_memory result (kernel_value kernel.now order wanted.now) }
{
    match number_of(kernel, wanted.name.as_str()) {
        Some(number) => number_value(alloc, wanted, order, number),
        None => kconfig_value(alloc, &kernel.config, wanted, order),
    }
}

/// Adds the value of an extern, where it has one.
fn add_value(
    alloc: Global,
    values: &mut ByName<Items<u8>>,
    wanted: &KconfigExtern,
    value: Option<Items<u8>>,
) -> Result<(), KconfigError>
    ensures { OnOk result
        (values.new ≡ put_all values.old (value_entry wanted.now.name (Ok value))) }
{
    let Some(value) = value else {
        return Ok(());
    };
    values.insert(String::from_str(alloc, wanted.name.as_str())?, value)?;
    Ok(())
}

/// Returns the values of externs, by name.
fn values_of(
    alloc: Global,
    kernel: &Kernel,
    externs: &[KconfigExtern],
    order: Endianness,
) -> Result<ByName<Items<u8>>, KconfigError>
    ensures { IfOk result (λ values. values ≡ kernel_values kernel.now order externs.now) }
{
    let mut values = ByName::new(alloc);
    for wanted in externs {
        let value = value_of(alloc, kernel, wanted, order)?;
        add_value(alloc, &mut values, wanted, value)?;
    }
    Ok(values)
}

/// Defines the kconfig externs of an object by the values that a kernel gives to these externs.
fn define_externs(
    alloc: Global,
    object: &mut Object,
    kernel: &Kernel,
    externs: &[KconfigExtern],
) -> Result<(), KconfigError>
    ensures { OnOk result
        (object.new
        ≡ defined_with (kernel_values kernel.now object.old.endianness externs.now)
        (externs_of object.old) object.old) }
{
    let values = values_of(alloc, kernel, externs, object.endianness)?;
    match define_kconfig(object, &values) {
        Ok(()) => Ok(()),
        Err(error) => Err(error),
    }
}

/// Whether types may have the DATASEC of kconfig externs, as far as is known without memory.
fn may_have_section(types: &Btf) -> bool
    ensures { result ≡ false → id_of_name types.now kconfig_section DataSec ≡ None }
{
    match types.id_by_type_name_kind(".kconfig", BtfKind::DataSec) {
        Ok(_) => true,
        Err(error) => matches!(error, BtfError::OutOfMemory),
    }
}

/// Whether an object may have kconfig externs, as far as is known without memory.
#[tactic(auto, using(crate::proofs::OpenedObjects::without_section), unfolding(ebpf_kconfig::specs::KconfigExterns::kconfig_externs))]
fn may_have_settings(object: &Object) -> bool
    ensures { result ≡ false → kconfig_externs object.now.btf object.now.symbol_table ≡ [] }
{
    match &object.btf {
        Some(types) => may_have_section(types),
        None => false,
    }
}

/// Defines the kconfig externs of an object by the values of a kernel, where it has such.
///
/// # Errors
///
/// - Those of `kconfig`, `kconfig_value`, `kconfig_number` and `define_kconfig`.
#[tactic(auto, using(crate::proofs::OpenedObjects::without_externs))]
pub fn define_settings(
    alloc: Global,
    object: &mut Object,
    kernel: &Kernel,
) -> Result<(), KconfigError>
    ensures { OnOk result (object.new ≡ with_kconfig kernel.now object.old) }
{
    if !may_have_settings(object) {
        return Ok(());
    }
    let externs = kconfig(object)?;
    if externs.is_empty() {
        return Ok(());
    }
    define_externs(alloc, object, kernel, externs.as_slice())
}
