//! The order of externs in the value of the map, their offsets and their values.

ghost use Rattle.std.specs.Prelude.{◌≡◌, ◌<◌, ◌≤◌, ◌+◌, ◌^◌, ◌++◌, IfOk, OnOk, None, replicate, length};
ghost use Rattle.std.specs.List.{flat_map};
ghost use Rattle.std.specs.Option.{option_to_list};
ghost use Rattle.ebpf_base.specs.Faults.{fault_of, Refuses, first_some};
ghost use Rattle.ebpf_base.specs.Maps.{put_all, lent_bytes};
ghost use Rattle.ebpf_kconfig.specs.KconfigMaps.{extern_end, extern_groups, extern_offset, extern_offsets, group_externs, layout_end, layout_key, size_fault_from, bytes_from, given_fault, value_fault, value_or_zeros, lent_externs, with_extern_in};
ghost use Rattle.ebpf_kconfig.specs.KconfigExterns.{is_kconfig_memory};
ghost use Rattle.std.specs.FinMap as finite;

use crate::error::KconfigError;
use crate::externs::KconfigExtern;
use ebpf_base::{ByKey, ByName, Items};
use std::alloc::{AllocError, Global};

/// The key that externs are ordered by before their names: descending alignment, then ascending size.
fn layout_key(wanted: &KconfigExtern) -> (usize, u64)
    ensures { result ≡ layout_key wanted.now }
{
    let kind = wanted.kind;
    (8 - kind.alignment() as usize, u64::from(kind.size()))
}

/// A group of one extern.
fn group_of(alloc: Global, wanted: KconfigExtern) -> Result<ByName<KconfigExtern>, AllocError>
    ensures { IfOk result (λ group. group ≡ finite.insert finite.empty wanted.name wanted) }
{
    let mut group = ByName::new(alloc);
    let name = String::from_str(alloc, wanted.name.as_str())?;
    group.insert(name, wanted)?;
    Ok(group)
}

/// Adds an extern to its group.
fn add_extern(
    alloc: Global,
    groups: &mut ByKey<ByName<KconfigExtern>>,
    wanted: KconfigExtern,
) -> Result<(), AllocError>
    ensures { OnOk result
        (groups.new
        ≡ with_extern_in groups.old wanted (finite.get groups.old (layout_key wanted))) }
{
    let key = layout_key(&wanted);
    match groups.get_mut(key) {
        Some(group) => {
            let name = String::from_str(alloc, wanted.name.as_str())?;
            group.insert(name, wanted)?;
        }
        None => {
            groups.insert(key, group_of(alloc, wanted)?)?;
        }
    }
    Ok(())
}

/// Groups externs by alignment and size.
///
/// # Errors
///
/// - `AllocError`: an allocation failed.
pub fn extern_groups(
    alloc: Global,
    externs: Vec<KconfigExtern>,
) -> Result<ByKey<ByName<KconfigExtern>>, AllocError>
    ensures { IfOk result (λ groups. groups ≡ extern_groups externs.items) }
{
    let mut groups = ByKey::new(alloc);
    for wanted in externs {
        add_extern(alloc, &mut groups, wanted)?;
    }
    Ok(groups)
}

/// Adds the externs of some names.
fn add_names<'a>(
    alloc: Global,
    all: Vec<&'a KconfigExtern>,
    group: &'a ByName<KconfigExtern>,
    names: &[&str],
) -> Result<Vec<&'a KconfigExtern>, AllocError>
    ensures { IfOk result (λ more.
        lent_externs more.items
        ≡ lent_externs all.entry.items
        ++ flat_map (λ name. option_to_list (finite.get group.now name))
        (lent_bytes names.now)) }
{
    let mut all = all;
    for name in names {
        let Some(wanted) = group.get(*name) else {
            continue;
        };
        all.push(wanted)?;
    }
    Ok(all)
}

/// Adds the externs of a group, in the order of their names.
fn add_group<'a>(
    alloc: Global,
    all: Vec<&'a KconfigExtern>,
    group: &'a ByName<KconfigExtern>,
) -> Result<Vec<&'a KconfigExtern>, AllocError>
    ensures { IfOk result (λ more.
        lent_externs more.items ≡ lent_externs all.entry.items ++ group_externs group.now) }
{
    let names = group.names(alloc)?;
    add_names(alloc, all, group, names.as_slice())
}

/// The externs of groups: by descending alignment, then ascending size, then name.
pub fn in_order<'a>(
    alloc: Global,
    groups: &'a ByKey<ByName<KconfigExtern>>,
) -> Result<Vec<&'a KconfigExtern>, AllocError>
    ensures { IfOk result (λ all.
        lent_externs all.items
        ≡ flat_map (λ group. group_externs group.1) (finite.entries groups.now)) }
{
    let mut all = Vec::new(alloc);
    for (_, group) in groups.iter() {
        all = add_group(alloc, all, group)?;
    }
    Ok(all)
}

/// The offset of an extern behind data that end at an offset, in bytes.
pub fn extern_offset(end: u64, wanted: &KconfigExtern) -> u64
    requires { end < 2 ^ 32 }
    ensures value { result ≡ extern_offset end wanted.now }
    ensures near { result < end + 8 }
    ensures behind { end ≤ result }
{
    let alignment = u64::from(wanted.kind.alignment());
    (end + (alignment - 1)) / alignment * alignment
}

/// The end of an extern behind data that end at an offset, in bytes.
pub fn extern_end(end: u64, wanted: &KconfigExtern) -> u64
    requires { end < 2 ^ 32 }
    ensures value { result ≡ extern_end end wanted.now }
    ensures fits { result < 2 ^ 64 }
{
    extern_offset(end, wanted) + u64::from(wanted.kind.size())
}

/// The end of the last of some externs, one behind the other, in bytes.
///
/// # Errors
///
/// - `TooLarge`: the end passes 32 bits.
pub fn layout_end(externs: &[&KconfigExtern]) -> Result<u32, KconfigError>
    ensures end { IfOk result (λ end. end ≡ layout_end 0 (lent_externs externs.now)) }
    ensures fault { fault_of result ≡ size_fault_from 0 (lent_externs externs.now) }
{
    let mut end = 0;
    for wanted in externs {
        end = extern_end(end, *wanted);
        if end > u64::from(u32::MAX) {
            return Err(KconfigError::TooLarge);
        }
    }
    Ok(end as u32)
}

/// The offsets of some externs, one behind the other, by name.
///
/// # Errors
///
/// - `AllocError`: an allocation failed.
pub fn extern_offsets(alloc: Global, externs: &[&KconfigExtern]) -> Result<ByName<u64>, AllocError>
    requires { size_fault_from 0 (lent_externs externs.now) ≡ None }
    ensures { IfOk result (λ offsets.
        offsets ≡ put_all finite.empty (extern_offsets 0 (lent_externs externs.now))) }
{
    let mut offsets = ByName::new(alloc);
    let mut end = 0;
    for wanted in externs {
        let offset = extern_offset(end, *wanted);
        offsets.insert(String::from_str(alloc, wanted.name.as_str())?, offset)?;
        end = extern_end(end, *wanted);
    }
    Ok(offsets)
}

/// Checks an extern without a value: it must be weak.
fn check_without(wanted: &KconfigExtern) -> Result<(), KconfigError>
    ensures { Refuses is_kconfig_memory result (given_fault wanted.now None) }
{
    if wanted.is_weak {
        return Ok(());
    }
    let name = wanted.name.clone()?;
    Err(KconfigError::NoValue { name })
}

/// Checks that a value has the size of its extern.
fn check_given(wanted: &KconfigExtern, value: &[u8]) -> Result<(), KconfigError>
    ensures { Refuses is_kconfig_memory result (given_fault wanted.now (Some value.now)) }
{
    let size = wanted.kind.size();
    if value.len() == size as usize {
        return Ok(());
    }
    Err(KconfigError::WrongSize {
        name: wanted.name.clone()?,
        size,
        length: value.len(),
    })
}

/// Checks that an extern has a value that fits.
fn check_value(values: &ByName<Items<u8>>, wanted: &KconfigExtern) -> Result<(), KconfigError>
    ensures { Refuses is_kconfig_memory result (value_fault values.now wanted.now) }
{
    match values.get(wanted.name.as_str()) {
        Some(value) => check_given(wanted, value.as_slice()),
        None => check_without(wanted),
    }
}

/// Checks that each extern has a value that fits.
///
/// # Errors
///
/// - `NoValue`: an extern that is not weak has no value.
/// - `WrongSize`: a value has another size than its extern.
/// - `OutOfMemory`: an allocation for the name in the error failed.
pub fn check_values(
    values: &ByName<Items<u8>>,
    externs: &[KconfigExtern],
) -> Result<(), KconfigError>
    ensures { Refuses is_kconfig_memory result (first_some (value_fault values.now) externs.now) }
{
    for wanted in externs {
        check_value(values, wanted)?;
    }
    Ok(())
}

/// Adds `count` zeros.
fn add_zeros(bytes: &mut Items<u8>, count: usize) -> Result<(), AllocError>
    ensures { OnOk result (bytes.new ≡ bytes.old ++ replicate count 0) }
{
    let alloc = *bytes.as_vec().allocator();
    let zeros = vec![in alloc; 0u8; count]?;
    bytes.extend_from_slice(zeros.as_slice())
}

/// Adds the value of an extern, zeros where none is given.
fn add_value(
    bytes: &mut Items<u8>,
    values: &ByName<Items<u8>>,
    wanted: &KconfigExtern,
) -> Result<(), AllocError>
    ensures { OnOk result (bytes.new ≡ bytes.old ++ value_or_zeros values.now wanted.now) }
{
    match values.get(wanted.name.as_str()) {
        Some(value) => bytes.extend_from_slice(value.as_slice()),
        None => add_zeros(bytes, wanted.kind.size() as usize),
    }
}

/// The values of some externs, one behind the other. Zeros fill the bytes up to each offset.
///
/// # Errors
///
/// - `AllocError`: an allocation failed.
pub fn bytes_of(
    alloc: Global,
    values: &ByName<Items<u8>>,
    externs: &[&KconfigExtern],
) -> Result<Items<u8>, AllocError>
    requires { size_fault_from 0 (lent_externs externs.now) ≡ None }
    ensures { IfOk result (λ bytes. bytes ≡ bytes_from values.now 0 (lent_externs externs.now)) }
{
    let mut bytes = Items::new(alloc);
    let mut end = 0;
    for wanted in externs {
        add_zeros(&mut bytes, (extern_offset(end, *wanted) - end) as usize)?;
        add_value(&mut bytes, values, *wanted)?;
        end = extern_end(end, *wanted);
    }
    Ok(bytes)
}
