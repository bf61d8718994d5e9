//! The variables of a section of struct_ops, without their members.

ghost use Rattle.std.specs.Prelude.{◌≡◌, IfOk, Ok};
ghost use Rattle.ebpf_base.specs.Faults.{Gives, Refuses};
ghost use Rattle.ebpf_struct_ops.specs.KernelStructs.{is_struct_ops_memory};
ghost use Rattle.ebpf_struct_ops.specs.Variables.{bare_variables, bare_variables_fault, entry_fields, entry_variable, text_or_empty, var_variable};

use crate::error::StructOpsError;
use crate::faults::VariableFault;
use crate::places::{SectionFacts, VarFields, VariablePlace, var_fields, variable_place};
use crate::type_facts::type_behind;
use ebpf_base::{Items, Text};
use ebpf_btf::{Btf, BtfError, DataSecEntry, Rows};
use ebpf_elf::ElfFile;
use std::alloc::Global;

/// A variable of a section of struct_ops, without its members.
#[derive(Debug, Drop)]
pub struct BareVariable {
    /// Its name.
    pub name: Text,
    /// The name of its STRUCT.
    pub type_name: Text,
    /// Its place in the section.
    pub place: VariablePlace,
}

/// The text at an offset; empty where it can't be read.
pub fn text_or_empty(alloc: Global, types: &Btf, offset: u32) -> Result<Text, StructOpsError>
    ensures { Gives is_struct_ops_memory result (Ok (text_or_empty types.now offset)) }
{
    match types.string_at(offset) {
        Ok(text) => Ok(Text::from_str(alloc, text.as_str())?),
        Err(BtfError::OutOfMemory) => Err(StructOpsError::OutOfMemory),
        Err(_) => Ok(Text::empty(alloc)),
    }
}

/// The fields of the VAR that an entry names.
fn entry_fields(types: &Btf, entry: &DataSecEntry) -> Option<VarFields>
    ensures { result ≡ entry_fields types.now entry.now }
{
    let ty = types.get(entry.btf_type as usize)?;
    var_fields(&ty)
}

/// The variable of an entry that names a VAR.
#[tactic(auto, unfolding(crate::specs::Variables::var_variable))]
fn var_variable(
    alloc: Global,
    file: &ElfFile<'_>,
    types: &Btf,
    section: SectionFacts,
    entry: &DataSecEntry,
    fields: VarFields,
) -> Result<BareVariable, StructOpsError>
    ensures { Gives is_struct_ops_memory result
        (var_variable file.now types.now section entry.now fields) }
{
    let name = text_or_empty(alloc, types, fields.name_offset)?;
    let place = match variable_place(file, types, section, entry, fields, name.as_str()) {
        Ok(place) => place,
        Err(fault) => return Err(StructOpsError::Variable { name, fault }),
    };
    let name_offset = type_behind(types, place.type_id).name_offset();
    let type_name = text_or_empty(alloc, types, name_offset)?;
    Ok(BareVariable {
        name,
        type_name,
        place,
    })
}

/// The variable of an entry.
#[tactic(auto, unfolding(crate::specs::Variables::entry_variable))]
fn entry_variable(
    alloc: Global,
    file: &ElfFile<'_>,
    types: &Btf,
    section: SectionFacts,
    entry: &DataSecEntry,
) -> Result<BareVariable, StructOpsError>
    ensures { Gives is_struct_ops_memory result
        (entry_variable file.now types.now section entry.now) }
{
    match entry_fields(types, entry) {
        Some(fields) => var_variable(alloc, file, types, section, entry, fields),
        None => Err(StructOpsError::Variable {
            name: Text::empty(alloc),
            fault: VariableFault::NotAVariable,
        }),
    }
}

/// The variables of a section's entries, in order.
///
/// # Errors
///
/// - The fault of the first entry that declares no map.
/// - `OutOfMemory`: an allocation failed.
pub fn bare_variables(
    alloc: Global,
    file: &ElfFile<'_>,
    types: &Btf,
    section: SectionFacts,
    entries: &Rows<'_, DataSecEntry>,
) -> Result<Items<BareVariable>, StructOpsError>
    ensures variables { IfOk result (λ all.
        all ≡ bare_variables file.now types.now section entries.now) }
    ensures fault { Refuses is_struct_ops_memory result
        (bare_variables_fault file.now types.now section entries.now) }
{
    let mut all = Items::new(alloc);
    for entry in entries.iter() {
        all.push(entry_variable(alloc, file, types, section, &entry)?)?;
    }
    Ok(all)
}
