//! The DATASEC of the kernel's symbols, and the types that replace the kernel's functions and variables in it.

ghost use Rattle.std.specs.Prelude.{◌≡◌, ◌++◌, ◌==◌, ◌<◌, ◌^◌, IfOk, OnOk, length, ◌+◌, ◌*◌};
ghost use Rattle.std.specs.List.{list_any, flat_map};
ghost use Rattle.ebpf_btf.specs.Words.{word_bytes};
ghost use Rattle.ebpf_btf_load.specs.KsymsSections.{all_strings, first_int, is_func, is_int_of_4, names_func, standin_bytes, standins_or_fault, takes_functions, takes_variables, extern_function_words, extern_variable_words, extern_words, ksyms_fault, externs_words, ksyms_rows, ksyms_words, params_or_fault, params_words, proto_words, standing_type};
ghost use Rattle.ebpf_base.specs.Faults.{Gives, Refuses};
ghost use Rattle.ebpf_btf_load.specs.KernelTypes.{is_kernel_types_memory};
ghost use Rattle.ebpf_btf_load.specs.TypeSources.{given_of};

use crate::error::KernelTypesError;
use crate::sections::{Sources, place_in, start_of};
use crate::words::{WrittenWord, section_words};
use ebpf_base::{Endianness, Items};
use ebpf_btf::strings::is_text_at;
use ebpf_btf::{Btf, BtfParam, BtfType, DataSecEntry, Rows};
use std::alloc::{AllocError, Global};

/// The types that replace the externs of `.ksyms`.
#[derive(Clone, Copy)]
pub struct Standins {
    /// The id of an INT of 4 bytes.
    pub int_id: u32,
    /// Whether the INT is appended.
    pub adds_int: bool,
    /// The id of the variable that replaces functions.
    pub variable_id: u32,
    /// The offset of the variable's name.
    pub name_offset: u32,
    /// Whether the variable is appended.
    pub adds_variable: bool,
}

/// Whether a type is an INT of 4 bytes.
#[tactic(auto, unfolding(crate::specs::KsymsSections::is_int_of_4))]
fn is_int_of_4(ty: &BtfType<'_>) -> bool
    ensures { result ≡ is_int_of_4 ty.now }
{
    match ty {
        BtfType::Int { size, .. } => *size == 4,
        _ => false,
    }
}

/// The id of the first INT of 4 bytes.
fn first_int(types: &Btf) -> Option<u32>
    ensures { result ≡ first_int types.now }
{
    for id in 0..types.len() {
        if is_int_of_4(&types.at(id)) {
            return Some(id as u32);
        }
    }
    None
}

/// Whether the type with an id is a FUNC.
#[tactic(auto, unfolding(crate::specs::KsymsSections::is_func))]
pub fn is_func(types: &Btf, type_id: u32) -> bool
    ensures { result ≡ is_func types.now type_id }
{
    match types.type_by_id(type_id) {
        Ok(BtfType::Func { .. }) => true,
        _ => false,
    }
}

/// Whether some entry names a FUNC.
fn names_func(types: &Btf, rows: &Rows<'_, DataSecEntry>) -> bool
    ensures { result ≡ names_func types.now rows.now }
{
    for row in rows.iter() {
        if is_func(types, row.btf_type) {
            return true;
        }
    }
    false
}

/// Whether a type is a DATASEC `.ksyms` with entries.
#[tactic(auto, unfolding(crate::specs::KsymsSections::takes_variables))]
fn takes_variables(types: &Btf, ty: &BtfType<'_>) -> bool
    ensures { result ≡ takes_variables types.now ty.now }
{
    match ty {
        BtfType::DataSec {
            name_offset,
            entries,
            ..
        } => is_text_at(types.strings(), *name_offset, ".ksyms") && !entries.is_empty(),
        _ => false,
    }
}

/// Whether a type is a DATASEC `.ksyms` that names a FUNC.
#[tactic(auto, unfolding(crate::specs::KsymsSections::takes_functions))]
fn takes_functions(types: &Btf, ty: &BtfType<'_>) -> bool
    ensures { result ≡ takes_functions types.now ty.now }
{
    match ty {
        BtfType::DataSec {
            name_offset,
            entries,
            ..
        } => is_text_at(types.strings(), *name_offset, ".ksyms") && names_func(types, entries),
        _ => false,
    }
}

/// Whether some DATASEC `.ksyms` has entries.
fn any_variables(types: &Btf) -> bool
    ensures { result ≡ list_any (takes_variables types.now) types.now.types }
{
    for ty in types.types() {
        if takes_variables(types, &ty) {
            return true;
        }
    }
    false
}

/// Whether some DATASEC `.ksyms` names a FUNC.
fn any_functions(types: &Btf) -> bool
    ensures { result ≡ list_any (takes_functions types.now) types.now.types }
{
    for ty in types.types() {
        if takes_functions(types, &ty) {
            return true;
        }
    }
    false
}

/// The types that replace the externs of `.ksyms` in some types.
///
/// # Errors
///
/// - `TooLarge`: an id or an offset of a string passes 32 bits.
pub fn standins_for(types: &Btf) -> Result<Standins, KernelTypesError>
    ensures standins { result ≡ standins_or_fault types.now }
    ensures small { IfOk result (λ _. length types.now.strings < 2 ^ 32) }
{
    let count = types.len();
    let strings = types.string_len();
    if count > 0xffff_fff0 || strings > 0xffff_ff00 {
        return Err(KernelTypesError::TooLarge);
    }
    let adds_variable = any_functions(types);
    match first_int(types) {
        Some(int_id) => Ok(Standins {
            int_id,
            adds_int: false,
            variable_id: count as u32,
            name_offset: strings as u32,
            adds_variable,
        }),
        None => {
            let adds_int = any_variables(types);
            Ok(Standins {
                int_id: count as u32,
                adds_int,
                variable_id: count as u32 + 1,
                name_offset: strings as u32 + 4,
                adds_variable,
            })
        }
    }
}

/// Appends the four bytes of a word.
#[tactic(auto, unfolding(ebpf_btf::specs::Words::word_bytes))]
fn append_word(order: Endianness, out: &mut Vec<u8>, word: u32) -> Result<(), AllocError>
    ensures { OnOk result (out.new.items ≡ out.old.items ++ word_bytes order word) }
{
    match order {
        Endianness::Little => out.extend_from_slice(&word.to_le_bytes()),
        Endianness::Big => out.extend_from_slice(&word.to_be_bytes()),
    }
}

/// Appends the bytes of words, 4 bytes each.
///
/// # Errors
///
/// - `AllocError`: an allocation failed.
pub fn append_words(order: Endianness, out: &mut Vec<u8>, words: &[u32]) -> Result<(), AllocError>
    ensures { OnOk result (out.new.items ≡ out.old.items ++ flat_map (word_bytes order) words.now) }
{
    for word in words {
        append_word(order, out, *word)?;
    }
    Ok(())
}

/// Appends the INT and the variable that replace externs. The name of the INT is at the offset.
///
/// # Errors
///
/// - `AllocError`: an allocation failed.
pub fn append_types(
    order: Endianness,
    int_name: u32,
    standins: Standins,
    part: &mut Vec<u8>,
) -> Result<(), AllocError>
    ensures { OnOk result
        (part.new.items ≡ part.old.items ++ standin_bytes order int_name standins) }
{
    if standins.adds_int {
        append_words(order, part, &[int_name, 0x0100_0000, 4, 0x0100_0020])?;
    }
    if standins.adds_variable {
        let name = standins.name_offset;
        append_words(order, part, &[name, 0x0e00_0000, standins.int_id, 1])?;
    }
    Ok(())
}

/// The strings of some types, with the names of the appended types behind them.
///
/// # Errors
///
/// - `AllocError`: an allocation failed.
pub fn all_strings(alloc: Global, types: &Btf, standins: Standins) -> Result<Vec<u8>, AllocError>
    ensures { IfOk result (λ strings. strings.items ≡ all_strings types.now standins) }
{
    let mut strings = Vec::from_slice(alloc, types.strings())?;
    if standins.adds_int {
        strings.extend_from_slice("int\0".as_bytes())?;
    }
    if standins.adds_variable {
        strings.extend_from_slice("ksym_func_placeholder\0".as_bytes())?;
    }
    Ok(strings)
}

/// The number of bytes of each entry.
const SIZE: u32 = 4;

/// The info word of a FUNC of global linkage.
const GLOBAL_FUNC: u32 = 0x0c00_0001;

/// The linkage of a global VAR.
const GLOBAL: u32 = 1;

/// The most parameters that a FUNC_PROTO of a file has.
const MOST: usize = 65_535;

/// The names of parameters that have none.
fn params_words(
    alloc: Global,
    name_offset: u32,
    start: usize,
    params: &Rows<'_, BtfParam>,
) -> Result<Items<WrittenWord>, AllocError>
    requires few { length params.now < 2 ^ 16 }
    requires near { start < 2 ^ 33 }
    ensures { IfOk result (λ words. words ≡ params_words name_offset start params.now) }
{
    let mut words = Items::new(alloc);
    let mut offset = start;
    for param in params.iter() {
        if param.btf_type != 0 && param.name_offset == 0 {
            words.push(WrittenWord {
                offset,
                value: name_offset,
            })?;
        }
        offset += 8;
    }
    Ok(words)
}

/// The words of a type, where it is a FUNC_PROTO.
#[tactic(auto, unfolding(crate::specs::KsymsSections::params_or_fault))]
fn params_or_fault(
    alloc: Global,
    sources: &Sources<'_>,
    name_offset: u32,
    proto: u32,
    ty: &BtfType<'_>,
) -> Result<Items<WrittenWord>, KernelTypesError>
    ensures { Gives is_kernel_types_memory result
        (params_or_fault (given_of sources.now) name_offset proto ty.now) }
{
    match ty {
        BtfType::FuncProto { params, .. } => {
            if params.len() > MOST {
                return Err(KernelTypesError::TooLarge);
            }
            let start = place_in(sources, proto, 12);
            Ok(params_words(alloc, name_offset, start, params)?)
        }
        _ => Ok(Items::new(alloc)),
    }
}

/// The words of the FUNC_PROTO of a FUNC.
fn proto_words(
    alloc: Global,
    sources: &Sources<'_>,
    name_offset: u32,
    proto: u32,
) -> Result<Items<WrittenWord>, KernelTypesError>
    ensures { Gives is_kernel_types_memory result
        (proto_words (given_of sources.now) name_offset proto) }
{
    match sources.types.get(proto as usize) {
        Some(ty) => params_or_fault(alloc, sources, name_offset, proto, &ty),
        None => Ok(Items::new(alloc)),
    }
}

/// The words of a FUNC, and of its FUNC_PROTO.
fn function_words(
    alloc: Global,
    sources: &Sources<'_>,
    name_offset: u32,
    type_id: u32,
    proto: u32,
) -> Result<Items<WrittenWord>, KernelTypesError>
    ensures { Gives is_kernel_types_memory result
        (extern_function_words (given_of sources.now) name_offset type_id proto) }
{
    let mut words = Items::new(alloc);
    words.push(WrittenWord {
        offset: place_in(sources, type_id, 4),
        value: GLOBAL_FUNC,
    })?;
    let others = proto_words(alloc, sources, name_offset, proto)?;
    words.extend_from_slice(others.as_slice())?;
    Ok(words)
}

/// The words of a VAR.
fn variable_words(
    alloc: Global,
    sources: &Sources<'_>,
    int_id: u32,
    type_id: u32,
) -> Result<Items<WrittenWord>, AllocError>
    ensures { IfOk result (λ words.
        words ≡ extern_variable_words (given_of sources.now) int_id type_id) }
{
    let mut words = Items::new(alloc);
    words.push(WrittenWord {
        offset: place_in(sources, type_id, 8),
        value: int_id,
    })?;
    words.push(WrittenWord {
        offset: place_in(sources, type_id, 12),
        value: GLOBAL,
    })?;
    Ok(words)
}

/// The words of the VAR or FUNC that an entry names.
#[tactic(auto, unfolding(crate::specs::KsymsSections::extern_words))]
fn extern_words(
    alloc: Global,
    sources: &Sources<'_>,
    standins: Standins,
    type_id: u32,
) -> Result<Items<WrittenWord>, KernelTypesError>
    ensures { Gives is_kernel_types_memory result
        (extern_words (given_of sources.now) standins type_id) }
{
    match sources.types.type_by_id(type_id) {
        Ok(BtfType::Func { btf_type, .. }) => {
            function_words(alloc, sources, standins.name_offset, type_id, btf_type)
        }
        Ok(BtfType::Var { .. }) => { Ok(variable_words(alloc, sources, standins.int_id, type_id)?) }
        _ => Err(KernelTypesError::NotAVariable { type_id }),
    }
}

/// The words of the VARs and FUNCs that the entries name.
fn externs_words(
    alloc: Global,
    sources: &Sources<'_>,
    standins: Standins,
    rows: &Rows<'_, DataSecEntry>,
) -> Result<Items<WrittenWord>, KernelTypesError>
    ensures words { IfOk result (λ words.
        words ≡ externs_words (given_of sources.now) standins rows.now) }
    ensures fault { Refuses is_kernel_types_memory result
        (ksyms_fault (given_of sources.now) standins rows.now) }
{
    let mut words = Items::new(alloc);
    for row in rows.iter() {
        let found = extern_words(alloc, sources, standins, row.btf_type)?;
        words.extend_from_slice(found.as_slice())?;
    }
    Ok(words)
}

/// The type that an entry names: the placeholder variable in place of a FUNC.
fn standing_type(types: &Btf, standins: Standins, type_id: u32) -> u32
    ensures { result ≡ standing_type types.now standins type_id }
{
    if is_func(types, type_id) {
        return standins.variable_id;
    }
    type_id
}

/// The entries, one behind the other.
fn ksyms_rows(
    alloc: Global,
    types: &Btf,
    standins: Standins,
    rows: &Rows<'_, DataSecEntry>,
) -> Result<Vec<DataSecEntry>, AllocError>
    requires { length rows.now < 2 ^ 16 }
    ensures rows { IfOk result (λ all. all.items ≡ ksyms_rows types.now standins 0 rows.now) }
    ensures count { IfOk result (λ all. length all.items ≡ length rows.now) }
{
    let mut all = Vec::new(alloc);
    let mut offset = 0u32;
    for row in rows.iter() {
        all.push(DataSecEntry {
            btf_type: standing_type(types, standins, row.btf_type),
            offset,
            size: SIZE,
        })?;
        offset += SIZE;
    }
    Ok(all)
}

/// The words of a DATASEC of the kernel's symbols.
///
/// # Errors
///
/// - `NotAVariable`: an entry names a type that is neither a VAR nor a FUNC.
/// - `OutOfMemory`: an allocation failed.
pub fn ksyms_words(
    alloc: Global,
    sources: &Sources<'_>,
    standins: Standins,
    type_id: u32,
    rows: &Rows<'_, DataSecEntry>,
) -> Result<Items<WrittenWord>, KernelTypesError>
    requires { length rows.now < 2 ^ 16 }
    ensures { Gives is_kernel_types_memory result
        (ksyms_words (given_of sources.now) standins type_id rows.now) }
{
    let others = externs_words(alloc, sources, standins, rows)?;
    let placed = ksyms_rows(alloc, sources.types, standins, rows)?;
    let size = rows.len() as u32 * SIZE;
    let mut words = section_words(alloc, start_of(sources.starts, type_id), size, &placed)?;
    words.extend_from_slice(others.as_slice())?;
    Ok(words)
}
