//! The externs that the kernel's configuration gives.

ghost use Rattle.std.specs.Prelude.{◌≡◌, ◌++◌, [], slice_get, IfOk};
ghost use Rattle.std.specs.Option.{option_map_or, option_to_list};
ghost use Rattle.std.specs.Result.{result_ok};
ghost use Rattle.ebpf_btf.specs.Strings.{id_of_name, type_name};
ghost use Rattle.ebpf_btf.specs.declared.kind.BtfKind.TheVariants as kinds;
ghost use Rattle.cli_common.specs.ObjectPrograms.{object_settings, section_entries, setting_name, setting_names, settings_entries, settings_section};

use ebpf_base::{Items, Text};
use ebpf_btf::{Btf, BtfError, BtfKind, BtfType, DataSecEntry, Rows};
use ebpf_object::Object;
use std::alloc::{AllocError, Global};

/// The DATASEC of the externs that the kernel's configuration gives.
const SETTINGS: &str = ".kconfig";

/// The entries of a DATASEC; other types have none.
#[tactic(auto, unfolding(crate::specs::ObjectPrograms::section_entries))]
fn section_entries<'a>(ty: &BtfType<'a>) -> Rows<'a, DataSecEntry>
    ensures { result ≡ section_entries ty.now }
{
    match ty {
        BtfType::DataSec { entries, .. } => entries.copy(),
        _ => Rows::of(&[]),
    }
}

/// The entries of the type of an id.
fn entries_at(types: &Btf, type_id: u32) -> Rows<'_, DataSecEntry>
    ensures { result ≡ option_map_or section_entries (slice_get types.now.types type_id) [] }
{
    match types.get(type_id as usize) {
        Some(ty) => section_entries(&ty),
        None => Rows::of(&[]),
    }
}

/// The id of the first DATASEC of settings.
fn settings_id(types: &Btf) -> Result<Option<u32>, AllocError>
    ensures { IfOk result (λ id. id ≡ id_of_name types.now settings_section kinds.DataSec) }
{
    match types.id_by_type_name_kind(SETTINGS, BtfKind::DataSec) {
        Ok(id) => Ok(Some(id)),
        Err(BtfError::OutOfMemory) => Err(AllocError),
        Err(_) => Ok(None),
    }
}

/// The entries of the first DATASEC of settings.
fn settings_entries(types: &Btf) -> Result<Rows<'_, DataSecEntry>, AllocError>
    ensures { IfOk result (λ entries. entries ≡ settings_entries types.now) }
{
    match settings_id(types) {
        Ok(Some(id)) => Ok(entries_at(types, id)),
        Ok(None) => Ok(Rows::of(&[])),
        Err(error) => Err(error),
    }
}

/// The name of a type, where it can be read.
fn type_name(alloc: Global, types: &Btf, ty: &BtfType<'_>) -> Result<Option<Text>, AllocError>
    ensures { IfOk result (λ name. name ≡ result_ok (type_name types.now ty.now)) }
{
    match types.type_name(ty) {
        Ok(name) => Ok(Some(Text::from_str(alloc, name.as_str())?)),
        Err(BtfError::OutOfMemory) => Err(AllocError),
        Err(_) => Ok(None),
    }
}

/// The name of the variable of an entry, where it can be read.
#[tactic(auto, unfolding(crate::specs::ObjectPrograms::setting_name))]
fn setting_name(
    alloc: Global,
    types: &Btf,
    entry: &DataSecEntry,
) -> Result<Option<Text>, AllocError>
    ensures { IfOk result (λ name. name ≡ setting_name types.now entry.now) }
{
    match types.get(entry.btf_type as usize) {
        Some(ty) => type_name(alloc, types, &ty),
        None => Ok(None),
    }
}

/// Adds a name, where there is one.
fn add_name(names: Items<Text>, name: Option<Text>) -> Result<Items<Text>, AllocError>
    ensures { IfOk result (λ all. all ≡ names ++ option_to_list name) }
{
    let mut names = names;
    match name {
        Some(name) => {
            names.push(name)?;
            Ok(names)
        }
        None => Ok(names),
    }
}

/// The names of the variables of some entries.
fn setting_names(
    alloc: Global,
    types: &Btf,
    entries: &Rows<'_, DataSecEntry>,
) -> Result<Items<Text>, AllocError>
    ensures { IfOk result (λ names. names ≡ setting_names types.now entries.now) }
{
    let mut names = Items::new(alloc);
    for entry in entries.iter() {
        let name = setting_name(alloc, types, &entry)?;
        names = add_name(names, name)?;
    }
    Ok(names)
}

/// The names of the externs that the kernel's configuration gives, in the order in which the object has them.
#[tactic(auto, unfolding(crate::specs::ObjectPrograms::object_settings))]
pub fn object_settings(alloc: Global, object: &Object) -> Result<Items<Text>, AllocError>
    ensures { IfOk result (λ names. names ≡ object_settings object.now.btf) }
{
    let Some(types) = &object.btf else {
        return Ok(Items::new(alloc));
    };
    let entries = settings_entries(types)?;
    setting_names(alloc, types, &entries)
}
