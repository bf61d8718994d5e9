//! The programs that relocations put at the members of variables of struct_ops.

ghost use Rattle.std.specs.Prelude.{◌≡◌, ◌-◌, fold, IfOk, IfSome, IsTrue};
ghost use Rattle.std.specs.List.{find};
ghost use Rattle.std.specs.FinMap as finite;
ghost use Rattle.std.specs.Option.{option_copied};
ghost use Rattle.ebpf_base.specs.Faults.{Refuses, fault_of};
ghost use Rattle.ebpf_struct_ops.specs.KernelStructs.{is_struct_ops_memory};
ghost use Rattle.ebpf_struct_ops.specs.Relocations.{begins_at, holds_place, is_entry_point, member_fault, member_there, program_fault, programs_put, relocation_fault, relocations_fault, symbol_text, target_name, is_struct_ops_name, is_struct_ops_section, named_fault};

use crate::bare::BareVariable;
use crate::error::StructOpsError;
use crate::faults::RelocationFault;
use crate::places::stands_in;
use crate::type_facts::{is_function_pointer, members_in, type_behind};
use ebpf_base::{ByNumber, Text};
use ebpf_btf::{Btf, BtfMember, BtfType};
use ebpf_elf::{ElfFile, ElfRelocation, Relocations};
use ebpf_model::{Program, Symbol};
use ebpf_object::Object;
use ebpf_parts::programs::{bpf_prog_type, program_kind};
use std::alloc::{AllocError, Global};

/// Whether a variable holds an offset of the section.
fn holds_place(place: u64, variable: &BareVariable) -> bool
    ensures { result ≡ holds_place place variable.now }
{
    let offset = u64::from(variable.place.offset);
    offset <= place && place - offset < u64::from(variable.place.size)
}

/// The first variable that holds an offset of the section.
fn holder(place: u64, variables: &[BareVariable]) -> Option<&BareVariable>
    ensures first { option_copied result ≡ find (holds_place place) variables.now }
    ensures holds { IfSome result (λ v. IsTrue (holds_place place v.now)) }
{
    for variable in variables {
        if holds_place(place, variable) {
            return Some(variable);
        }
    }
    None
}

/// The offset in a variable of an offset of the section.
fn offset_in(place: u64, variable: &BareVariable) -> u64
    requires { IsTrue (holds_place place variable.now) }
    ensures { result ≡ place - variable.now.place.offset }
{
    place - u64::from(variable.place.offset)
}

/// Whether a member of a type begins at an offset in bytes.
fn begins_at(ty: &BtfType<'_>, offset: u64, member: &BtfMember) -> bool
    ensures { result ≡ begins_at ty.now offset member.now }
{
    u128::from(ty.member_bit_offset(member)) == 8 * u128::from(offset)
}

/// The first member of a type that begins at an offset in bytes.
fn member_there(ty: &BtfType<'_>, offset: u64) -> Option<BtfMember>
    ensures { result ≡ member_there ty.now offset }
{
    for member in members_in(ty).iter() {
        if begins_at(ty, offset, &member) {
            return Some(member);
        }
    }
    None
}

/// The fault of an offset of a variable at which a program is put.
fn member_fault(types: &Btf, type_id: u32, offset: u64) -> Option<RelocationFault>
    ensures { result ≡ member_fault types.now type_id offset }
{
    match member_there(&type_behind(types, type_id), offset) {
        Some(member) if is_function_pointer(types, member.btf_type) => None,
        Some(_) => Some(RelocationFault::NotAFunctionPointer),
        None => Some(RelocationFault::NoMember),
    }
}

/// The name of a symbol; empty where it has none.
fn symbol_text(symbol: &Symbol) -> &str
    ensures { result.now ≡ symbol_text symbol.now }
{
    match &symbol.name {
        Some(name) => name.as_str(),
        None => "",
    }
}

/// Whether the programs of a section are loaded for struct_ops, by the section's name.
#[tactic(auto, unfolding(crate::specs::Relocations::is_struct_ops_type))]
fn is_struct_ops_name(name: &str) -> bool
    ensures { result ≡ is_struct_ops_name name.now }
{
    match program_kind(name) {
        Some(kind) => matches!(kind.program_type, bpf_prog_type::BPF_PROG_TYPE_STRUCT_OPS),
        None => false,
    }
}

/// Whether the programs of the section with an index are loaded for struct_ops.
fn is_struct_ops_section(file: &ElfFile<'_>, index: usize) -> bool
    ensures { result ≡ is_struct_ops_section file.now index }
{
    let Some(section) = file.section_at(index) else {
        return false;
    };
    match section.name() {
        Ok(name) => is_struct_ops_name(name),
        Err(_) => false,
    }
}

/// Whether a program has the section and address of a symbol.
fn is_entry_point(symbol: &Symbol, program: &Program) -> bool
    ensures { result ≡ is_entry_point symbol.now program.now }
{
    stands_in(program.section_index, symbol.section_index) && program.address == symbol.address
}

/// The fault of a symbol at which a relocation finds a program.
fn program_fault(file: &ElfFile<'_>, object: &Object, symbol: &Symbol) -> Option<RelocationFault>
    ensures { result ≡ program_fault file.now object.now symbol.now }
{
    let Some(program) = object.programs.get(symbol_text(symbol)) else {
        return Some(RelocationFault::UnknownProgram);
    };
    if !is_entry_point(symbol, program) {
        return Some(RelocationFault::UnknownProgram);
    }
    if is_struct_ops_section(file, program.section_index) {
        return None;
    }
    Some(RelocationFault::NotStructOps)
}

/// The fault of a relocation.
#[tactic(auto, unfolding(crate::specs::Relocations::relocation_fault))]
fn relocation_fault(
    file: &ElfFile<'_>,
    object: &Object,
    types: &Btf,
    variables: &[BareVariable],
    relocation: &ElfRelocation,
) -> Option<RelocationFault>
    ensures { result
        ≡ relocation_fault file.now object.now types.now variables.now relocation.now }
{
    let place = relocation.offset;
    let Some(symbol) = object.symbol_table.get(relocation.symbol_index) else {
        return Some(RelocationFault::UnknownSymbol);
    };
    let Some(variable) = holder(place, variables) else {
        return Some(RelocationFault::OutsideVariables);
    };
    let offset = offset_in(place, variable);
    let fault = member_fault(types, variable.place.type_id, offset);
    if fault.is_some() {
        return fault;
    }
    program_fault(file, object, symbol)
}

/// The name of the symbol that a relocation names; empty where there is none.
fn target_name(
    alloc: Global,
    object: &Object,
    relocation: &ElfRelocation,
) -> Result<Text, AllocError>
    ensures { IfOk result (λ name. name ≡ target_name object.now relocation.now) }
{
    match object.symbol_table.get(relocation.symbol_index) {
        Some(symbol) => Text::from_str(alloc, symbol_text(symbol)),
        None => Ok(Text::empty(alloc)),
    }
}

/// Checks a relocation of the section with an index.
fn check_relocation(
    file: &ElfFile<'_>,
    object: &Object,
    types: &Btf,
    variables: &[BareVariable],
    relocation: &ElfRelocation,
) -> Result<(), StructOpsError>
    ensures { fault_of result
        ≡ named_fault (relocation_fault file.now object.now types.now variables.now relocation.now)
        relocation.now.offset }
{
    match relocation_fault(file, object, types, variables, relocation) {
        Some(fault) => Err(StructOpsError::Relocation {
            place: relocation.offset,
            fault,
        }),
        None => Ok(()),
    }
}

/// The names of the programs that relocations put at offsets of a section. At one offset the last counts.
///
/// # Errors
///
/// - The fault of the first relocation that has one.
/// - `OutOfMemory`: an allocation failed.
pub fn programs_put(
    alloc: Global,
    file: &ElfFile<'_>,
    object: &Object,
    types: &Btf,
    variables: &[BareVariable],
    relocations: Relocations<'_>,
) -> Result<ByNumber<Text>, StructOpsError>
    ensures programs { IfOk result (λ found.
        found ≡ programs_put object.now relocations.entry) }
    ensures fault { Refuses is_struct_ops_memory result
        (relocations_fault file.now object.now types.now variables.now relocations.entry) }
{
    let mut found = ByNumber::new(alloc);
    for relocation in relocations {
        check_relocation(file, object, types, variables, &relocation)?;
        found.insert(relocation.offset, target_name(alloc, object, &relocation)?)?;
    }
    Ok(found)
}
