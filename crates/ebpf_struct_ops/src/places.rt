//! The places of variables in a section of struct_ops.

ghost use Rattle.std.specs.Prelude.{◌≡◌};
ghost use Rattle.ebpf_struct_ops.specs.Variables.{inside_section, names_variable, stands_in, struct_of, symbol_address, var_fields, variable_offset, variable_place};

use crate::faults::VariableFault;
use crate::kernel::value_size;
use crate::type_facts::{is_kind, type_behind};
use ebpf_btf::strings::is_text_at;
use ebpf_btf::{Btf, BtfKind, BtfType, DataSecEntry};
use ebpf_elf::{ElfFile, ElfSymbol};

/// What is asked of a section with variables.
#[derive(Clone, Copy, Debug, PartialEq, Eq)]
pub struct SectionFacts {
    /// Its index.
    pub index: usize,
    /// The number of its bytes.
    pub length: usize,
    /// Whether its DATASEC is as compilers write it, without the offsets of global variables.
    pub lacks_offsets: bool,
}

/// The fields of a VAR.
#[derive(Clone, Copy, Debug, PartialEq, Eq)]
pub struct VarFields {
    /// The offset of its name.
    pub name_offset: u32,
    /// The id of its type.
    pub type_id: u32,
    /// Whether compilers write its offset, too: it is static, or an extern.
    pub keeps_offset: bool,
}

/// The place of a variable in its section.
#[derive(Clone, Copy, Debug, PartialEq, Eq)]
pub struct VariablePlace {
    /// Its offset in bytes.
    pub offset: u32,
    /// The id of its STRUCT.
    pub type_id: u32,
    /// The size of its STRUCT in bytes.
    pub size: u32,
}

/// The fields of a VAR; `None` for other types.
#[tactic(auto, unfolding(crate::specs::Variables::var_fields))]
pub fn var_fields(ty: &BtfType<'_>) -> Option<VarFields>
    ensures { result ≡ var_fields ty.now }
{
    match ty {
        BtfType::Var {
            name_offset,
            btf_type,
            linkage,
        } => Some(VarFields {
            name_offset: *name_offset,
            type_id: *btf_type,
            keeps_offset: *linkage == 0 || *linkage == 2,
        }),
        _ => None,
    }
}

/// Whether a symbol is in the section with an index.
pub fn stands_in(section: usize, own: Option<usize>) -> bool
    ensures { result ≡ stands_in section own }
{
    match own {
        Some(own) => own == section,
        None => false,
    }
}

/// Whether a symbol of a section has a name.
fn names_variable(section: usize, name: &str, symbol: &ElfSymbol<'_>) -> bool
    ensures { result ≡ names_variable section name.now symbol.now }
{
    if !stands_in(section, symbol.section_index()) {
        return false;
    }
    match symbol.name() {
        Ok(own) => own == name,
        Err(_) => false,
    }
}

/// The address of the first symbol of a section with a name.
fn symbol_address(file: &ElfFile<'_>, section: usize, name: &str) -> Option<u64>
    ensures { result ≡ symbol_address file.now section name.now }
{
    for symbol in file.symbols() {
        if names_variable(section, name, &symbol) {
            return Some(symbol.address());
        }
    }
    None
}

/// The offset of a variable in its section.
fn variable_offset(
    file: &ElfFile<'_>,
    section: SectionFacts,
    entry: &DataSecEntry,
    fields: VarFields,
    name: &str,
) -> Option<u64>
    ensures { result ≡ variable_offset file.now section entry.now fields name.now }
{
    if section.lacks_offsets && !fields.keeps_offset {
        return symbol_address(file, section.index, name);
    }
    Some(u64::from(entry.offset))
}

/// The id of a STRUCT with a name, behind modifiers.
#[tactic(auto, unfolding(crate::specs::Variables::struct_of))]
fn struct_of(types: &Btf, type_id: u32) -> Result<u32, VariableFault>
    ensures { result ≡ struct_of types.now type_id }
{
    let ty = type_behind(types, type_id);
    if !is_kind(BtfKind::Struct, &ty) {
        return Err(VariableFault::NotAStruct);
    }
    if is_text_at(types.strings(), ty.name_offset(), "") {
        return Err(VariableFault::Anonymous);
    }
    match types.resolve_type(type_id) {
        Ok(id) => Ok(id),
        Err(_) => Err(VariableFault::NotAStruct),
    }
}

/// A place that is inside its section.
fn inside_section(
    section: SectionFacts,
    offset: u64,
    type_id: u32,
    size: u32,
) -> Result<VariablePlace, VariableFault>
    ensures { result ≡ inside_section section offset type_id size }
{
    let Ok(offset) = u32::try_from(offset) else {
        return Err(VariableFault::OutsideSection);
    };
    if section.length < offset as usize + size as usize {
        return Err(VariableFault::OutsideSection);
    }
    Ok(VariablePlace {
        offset,
        type_id,
        size,
    })
}

/// The place of a variable in its section.
#[tactic(auto, unfolding(crate::specs::Variables::variable_place))]
pub fn variable_place(
    file: &ElfFile<'_>,
    types: &Btf,
    section: SectionFacts,
    entry: &DataSecEntry,
    fields: VarFields,
    name: &str,
) -> Result<VariablePlace, VariableFault>
    ensures { result ≡ variable_place file.now types.now section entry.now fields name.now }
{
    let type_id = struct_of(types, fields.type_id)?;
    let Some(offset) = variable_offset(file, section, entry, fields, name) else {
        return Err(VariableFault::NoSymbol);
    };
    let size = value_size(&type_behind(types, type_id));
    inside_section(section, offset, type_id, size)
}
