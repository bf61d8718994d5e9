//! The externs of an object, and the variable that the types have in place of kernel functions among them.

ghost use Rattle.std.specs.Prelude.{◌≡◌, ℕ, List, Ok, Some, None, IfOk, IfErr, OnOk, OnErr, is_some, slice_get, true, ◌<◌, ◌^◌, IfSome};
ghost use Rattle.std.specs.List.{AllZip, zip, position};
ghost use Rattle.ebpf_base.specs.Faults.{Refuses, fault_of, or_else};
ghost use Rattle.ebpf_base.specs.Maps.{put_all};
ghost use Rattle.ebpf_btf.specs.Memory.{is_btf_memory};
ghost use Rattle.ebpf_btf_decls.specs.Externs.{is_function, func_or_var_type, IsWeak, extern_of, function_or_fault, first_function_or_fault, ksyms_datasec, types_with, types_fault, entries_externs, extern_entries_fault, extern_types, externs, extern_declarations_fault, Begins, is_word, word_id, with_word, word_fault, the_word, with_placeholder, placeholder_fault};
ghost use Rattle.ebpf_btf_decls.specs.SectionMaps.{AreNumbered, HasNumber};
ghost use Rattle.ebpf_model.specs.declared.symbol.ExternDesc.{ExternDesc};
ghost use Rattle.std.specs.FinMap as map;

use crate::data_sections::{copy_entries, first_entries};
use crate::numbered_names::{NumberedNames, put_at};
use ebpf_base::{ByName, Items, Text};
use ebpf_btf::{Btf, BtfError, BtfType, DataSecEntry};
use ebpf_model::ExternDesc;
use std::alloc::Global;

/// The DATASEC of externs.
const EXTERNS: &str = ".ksyms";

#[tactic(auto, unfolding(crate::specs::Externs::is_function))]
fn is_function(ty: &BtfType<'_>) -> bool
    ensures { result ≡ is_function ty.now }
{
    matches!(ty, BtfType::Func { .. })
}

/// The id of the type that a FUNC or VAR holds.
#[tactic(auto, unfolding(crate::specs::Externs::func_or_var_type))]
fn func_or_var_type(ty: &BtfType<'_>) -> Option<u32>
    ensures { result ≡ func_or_var_type ty.now }
{
    match ty {
        BtfType::Func { btf_type, .. } | BtfType::Var { btf_type, .. } => Some(*btf_type),
        _ => None,
    }
}

/// What a search for a function among entries meets.
#[derive(Drop)]
pub enum FunctionOrFault {
    /// A function.
    Function,
    /// An entry whose type can't be read.
    UnreadableType(BtfError),
}

/// What a search for a function meets at an entry.
#[tactic(auto, unfolding(crate::specs::Externs::function_or_fault))]
fn function_or_fault(btf: &Btf, entry: &DataSecEntry) -> Option<FunctionOrFault>
    ensures { result ≡ function_or_fault btf.now entry.now }
{
    match btf.type_by_id(entry.btf_type) {
        Ok(ty) if is_function(&ty) => Some(FunctionOrFault::Function),
        Ok(_) => None,
        Err(error) => Some(FunctionOrFault::UnreadableType(error)),
    }
}

/// What a search for a function meets first among entries.
#[tactic(auto, using(ebpf_base::proofs::Lists::rest_more, ebpf_base::proofs::Lists::rest_none))]
fn first_function_or_fault(btf: &Btf, entries: &[DataSecEntry]) -> Option<FunctionOrFault>
    ensures { result ≡ first_function_or_fault btf.now entries.now }
{
    for entry in entries {
        if let Some(first) = function_or_fault(btf, entry) {
            return Some(first);
        }
    }
    None
}

/// Adds a placeholder where there is a function among entries.
#[tactic(auto, unfolding(crate::specs::Externs::types_with, crate::specs::Externs::types_fault))]
fn prepare_types(btf: &mut Btf, entries: &[DataSecEntry]) -> Result<(), BtfError>
    ensures types { OnOk result
        (btf.new ≡ types_with btf.old (first_function_or_fault btf.old entries.now)) }
    ensures fault { Refuses is_btf_memory result
        (types_fault btf.old (first_function_or_fault btf.old entries.now)) }
    ensures begins { Begins btf.old btf.new }
{
    match first_function_or_fault(btf, entries) {
        None => Ok(()),
        Some(FunctionOrFault::Function) => add_placeholder(btf),
        Some(FunctionOrFault::UnreadableType(error)) => Err(error),
    }
}

/// Whether the symbol of a name is weak, which is looked for at the first extern of the name.
fn is_weak(weak: &ByName<bool>, last: &Items<ExternDesc>, number: usize, name: &str) -> Option<bool>
    requires { (d : ExternDesc)
        → slice_get last.now number ≡ Some d
        → map.get weak.now name.now ≡ Some d.is_weak }
    ensures { result ≡ map.get weak.now name.now }
{
    if let Some(before) = last.get(number) {
        return Some(before.is_weak);
    }
    Some(*weak.get(name)?)
}

/// What an entry declares, with the number of its name.
#[tactic(auto, unfolding(crate::specs::Externs::extern_of))]
fn extern_of(
    alloc: Global,
    btf: &Btf,
    weak: &ByName<bool>,
    names: &mut NumberedNames,
    last: &Items<ExternDesc>,
    entry: &DataSecEntry,
) -> Result<(usize, ExternDesc), BtfError>
    requires numbered { AreNumbered btf.now.strings names.old }
    requires weak { AllZip (IsWeak (map.get weak.now)) names.old.names last.now }
    ensures numbered { OnOk result (AreNumbered btf.now.strings names.new) }
    ensures declared { IfOk result (λ found.
        (name : List ℕ)
        × (extern_of btf.now (map.get weak.now) entry.now ≡ Ok (name, found.1))
        × HasNumber names.old.names names.new.names name found.0
        × IsWeak (map.get weak.now) name found.1) }
    ensures fault { Refuses is_btf_memory result
        (fault_of (extern_of btf.now (map.get weak.now) entry.now)) }
{
    let ty = btf.type_by_id(entry.btf_type)?;
    let Some(type_id) = func_or_var_type(&ty) else {
        return Err(BtfError::InvalidDatasec);
    };
    let number = names.number_at(alloc, btf, ty.name_offset())?;
    let Some(is_weak) = is_weak(weak, last, number, names.name(number)) else {
        return Err(BtfError::InvalidSymbolName);
    };
    let resolved = btf.resolve_type(type_id)?;
    let declared = ExternDesc {
        btf_id: entry.btf_type,
        is_typed: is_function(&ty) || resolved != 0,
        is_weak,
        kernel_btf_id: None,
        ksym_addr: None,
        is_resolved: false,
    };
    Ok((number, declared))
}

/// Externs by their names.
fn by_name(
    alloc: Global,
    names: &Items<Text>,
    last: &Items<ExternDesc>,
) -> Result<ByName<ExternDesc>, BtfError>
    ensures externs { IfOk result (λ externs.
        externs ≡ put_all map.empty (zip names.now last.now)) }
    ensures memory { IfErr result (λ e. is_btf_memory e ≡ true) }
{
    let mut externs = ByName::new(alloc);
    for number in 0..names.len() {
        let Some(name) = names.get(number) else {
            return Ok(externs);
        };
        let Some(declared) = last.get(number) else {
            return Ok(externs);
        };
        externs.insert(String::from_str(alloc, name.as_str())?, *declared)?;
    }
    Ok(externs)
}

/// The externs that entries declare, by name. Each name is read once.
fn entries_externs(
    alloc: Global,
    btf: &Btf,
    weak: &ByName<bool>,
    entries: &[DataSecEntry],
) -> Result<ByName<ExternDesc>, BtfError>
    ensures externs { IfOk result (λ found.
        found ≡ entries_externs btf.now (map.get weak.now) entries.now) }
    ensures fault { Refuses is_btf_memory result
        (extern_entries_fault btf.now (map.get weak.now) entries.now) }
{
    let mut names = NumberedNames::none(alloc);
    let mut last = Items::new(alloc);
    for entry in entries {
        let (number, declared) = extern_of(alloc, btf, weak, &mut names, &last, entry)?;
        put_at(&mut last, number, declared)?;
    }
    by_name(alloc, &names.names, &last)
}

/// The externs that entries declare, by name, and where one is a function a placeholder among the types. After a
/// refusal the types begin as before.
#[tactic(auto, unfolding(crate::specs::Externs::types_with, crate::specs::Externs::types_fault))]
fn add_externs(
    alloc: Global,
    btf: &mut Btf,
    weak: &ByName<bool>,
    entries: &[DataSecEntry],
) -> Result<ByName<ExternDesc>, BtfError>
    ensures types { OnOk result
        (btf.new ≡ types_with btf.old (first_function_or_fault btf.old entries.now)) }
    ensures externs { IfOk result (λ found.
        found
        ≡ entries_externs (types_with btf.old (first_function_or_fault btf.old entries.now))
        (map.get weak.now) entries.now) }
    ensures fault { Refuses is_btf_memory result
        (or_else (types_fault btf.old (first_function_or_fault btf.old entries.now))
        (extern_entries_fault
        (types_with btf.old (first_function_or_fault btf.old entries.now))
        (map.get weak.now) entries.now)) }
    ensures begins { Begins btf.old btf.new }
{
    prepare_types(btf, entries)?;
    entries_externs(alloc, btf, weak, entries)
}

/// Whether types may declare externs: they have a DATASEC `.ksyms`, or one before it whose name can't be read.
pub fn may_declare_externs(btf: &Btf) -> bool
    ensures { result ≡ is_some (ksyms_datasec btf.now) }
{
    !matches!(first_entries(btf, EXTERNS), Ok(None))
}

/// Returns the externs of an object by name: the entries of the first DATASEC `.ksyms` (libbpf's name).
///
/// `weak` says of each symbol name whether the first symbol with the name is weak. If an entry is a FUNC, a variable in
/// place of functions is added to the types, and before it an INT of 4 bytes if they have none.
///
/// # Errors
///
/// The first of these faults, in this order:
///
/// - `InvalidStringOffset`: the name of a DATASEC up to `.ksyms` can't be read.
/// - `UnknownBtfType`: an entry up to the first FUNC has no type.
/// - `TooLarge`: the types or strings have no room for the variable.
/// - Then for each entry `UnknownBtfType`, `InvalidDatasec` (it is neither FUNC nor VAR), `InvalidStringOffset` (of its
///   name), `InvalidSymbolName` (no symbol has its name), and the errors of resolving its type.
///
/// `OutOfMemory` is returned only if an allocation fails. On error the types are unchanged.
#[tactic(auto, unfolding(crate::specs::Externs::types_with, crate::specs::Externs::types_fault))]
pub fn collect_externs(
    alloc: Global,
    btf: &mut Btf,
    weak: &ByName<bool>,
) -> Result<ByName<ExternDesc>, BtfError>
    ensures types { OnOk result (btf.new ≡ extern_types btf.old) }
    ensures externs { IfOk result (λ found. found ≡ externs btf.old (map.get weak.now)) }
    ensures fault { Refuses is_btf_memory result
        (extern_declarations_fault btf.old (map.get weak.now)) }
    ensures unchanged { OnErr result (btf.new ≡ btf.old) }
{
    let entries = match first_entries(btf, EXTERNS)? {
        Some(entries) => copy_entries(alloc, &entries)?,
        None => return Ok(ByName::new(alloc)),
    };
    let types = btf.len();
    let strings = btf.string_len();
    let added = add_externs(alloc, btf, weak, &entries);
    if added.is_err() {
        btf.truncate(types, strings);
    }
    added
}

/// The size of a word in bytes.
const WORD: u32 = 4;

/// What an INT says of itself: signed, from bit 0 on, of 32 bits.
const SIGNED_WORD: u32 = 0x0100_0020;

/// The linkage of a global variable.
const GLOBAL: u32 = 1;

#[tactic(auto, unfolding(crate::specs::Externs::is_word))]
fn is_word(ty: &BtfType<'_>) -> bool
    ensures { result ≡ is_word ty.now }
{
    match ty {
        BtfType::Int { size, .. } => *size == WORD,
        _ => false,
    }
}

/// The number of the first INT of 4 bytes.
#[tactic(auto, using(ebpf_base::proofs::Lists::rest_more, ebpf_base::proofs::Lists::rest_none))]
fn word_id(btf: &Btf) -> Option<usize>
    ensures first { result ≡ position is_word btf.now.types }
    ensures few { IfSome result (λ id. id < 2 ^ 32) }
{
    for id in 0..btf.len() {
        let ty = btf.at(id);
        if is_word(&ty) {
            return Some(id);
        }
    }
    None
}

/// The id of the first INT of 4 bytes; where there is none, `int` is added.
#[tactic(auto, unfolding(crate::specs::Externs::with_word, crate::specs::Externs::word_fault, crate::specs::Externs::the_word))]
fn add_word(btf: &mut Btf) -> Result<u32, BtfError>
    ensures types { OnOk result (btf.new ≡ with_word btf.old) }
    ensures id { IfOk result (λ id. id ≡ the_word btf.old) }
    ensures fault { Refuses is_btf_memory result (word_fault btf.old) }
    ensures begins { Begins btf.old btf.new }
{
    if let Some(id) = word_id(btf) {
        return Ok(id as u32);
    }
    let name_offset = btf.add_string("int")?;
    btf.add_type(&BtfType::Int {
        name_offset,
        size: WORD,
        int_data: SIGNED_WORD,
    })
}

/// Adds the variable `ksym_func_placeholder`, of an INT of 4 bytes.
pub fn add_placeholder(btf: &mut Btf) -> Result<(), BtfError>
    ensures types { OnOk result (btf.new ≡ with_placeholder btf.old) }
    ensures fault { Refuses is_btf_memory result (placeholder_fault btf.old) }
    ensures begins { Begins btf.old btf.new }
{
    let word = add_word(btf)?;
    let name_offset = btf.add_string("ksym_func_placeholder")?;
    btf.add_type(&BtfType::Var {
        name_offset,
        btf_type: word,
        linkage: GLOBAL,
    })?;
    Ok(())
}
