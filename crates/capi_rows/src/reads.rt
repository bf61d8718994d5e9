//! What an object has by a name, lent.

ghost use Rattle.std.specs.Prelude.{◌≡◌, map, IfOk, OnOk, option_map};
ghost use Rattle.std.specs.Option.{option_copied};
ghost use Rattle.std.specs.FinMap.{insert};
ghost use Rattle.capi_rows.specs.Answers.{found_list};
ghost use Rattle.ebpf_object.specs.Stages.{descriptor_of};
ghost use Rattle.capi_rows.specs.Descriptors.{name_in, text_of, have_names, descriptors_in};
ghost use Rattle.capi_rows.specs.Kconfig.{given_by_row, given_values, lent_pair};
ghost use Rattle.capi_rows.specs.Reads.{read_func_infos, function_by_bytes, read_line_infos, read_map_data, read_section_name, read_slots};

use crate::codes::{NO_MAP, NO_PROGRAM};
use crate::entries::value_by_bytes;
use crate::programs::name_of_section;
use crate::variables::ebpf_value;
use ebpf_base::{ByName, Items};
use ebpf_btf_ext::{bpf_func_info, bpf_line_info};
use ebpf_model::Function;
use ebpf_object::Object;
use ebpf_object::variables::bytes_in;
use ebpf_parts::insn::bpf_insn;
use std::alloc::{AllocError, Global};

/// The function of the program that some bytes name.
fn function_by_bytes<'a>(object: &'a Object, name: &[u8]) -> Option<&'a Function>
    ensures { option_copied result ≡ function_by_bytes object.now name.now }
{
    match value_by_bytes(&object.programs, name) {
        Some(program) => object.functions.get(program.function_key()),
        None => None,
    }
}

/// The slots of the program that some bytes name, as they stand.
pub fn read_slots<'a>(object: &'a Object, name: &[u8]) -> Result<&'a [bpf_insn], u32>
    ensures { found_list result ≡ read_slots name.now object.now }
{
    match function_by_bytes(object, name) {
        Some(function) => Ok(function.instructions.as_slice()),
        None => Err(NO_PROGRAM),
    }
}

/// That program's func info, by slot.
pub fn read_func_infos<'a>(object: &'a Object, name: &[u8]) -> Result<&'a [bpf_func_info], u32>
    ensures { found_list result ≡ read_func_infos name.now object.now }
{
    match function_by_bytes(object, name) {
        Some(function) => Ok(function.func_info.func_info.as_slice()),
        None => Err(NO_PROGRAM),
    }
}

/// That program's line info, by slot.
pub fn read_line_infos<'a>(object: &'a Object, name: &[u8]) -> Result<&'a [bpf_line_info], u32>
    ensures { found_list result ≡ read_line_infos name.now object.now }
{
    match function_by_bytes(object, name) {
        Some(function) => Ok(function.line_info.line_info.as_slice()),
        None => Err(NO_PROGRAM),
    }
}

/// The name of the section of the program that some bytes name.
pub fn read_section_name<'a>(object: &'a Object, name: &[u8]) -> Result<&'a [u8], u32>
    ensures { found_list result ≡ read_section_name name.now object.now }
{
    match value_by_bytes(&object.programs, name) {
        Some(program) => {
            Ok(name_of_section(&object.section_infos, program.section_index).as_bytes())
        }
        None => Err(NO_PROGRAM),
    }
}

/// The data that the map that some bytes name begins with.
pub fn read_map_data<'a>(object: &'a Object, name: &[u8]) -> Result<&'a [u8], u32>
    ensures { found_list result ≡ read_map_data name.now object.now }
{
    match value_by_bytes(&object.maps, name) {
        Some(map) => Ok(map.data()),
        None => Err(NO_MAP),
    }
}

/// The descriptor of a map, and where the map's name stands in a text.
#[repr(C)]
#[derive(Clone, Copy)]
pub struct ebpf_descriptor {
    /// Where the name begins.
    pub name_at: usize,
    /// How many bytes it has.
    pub name_len: usize,
    /// The descriptor.
    pub descriptor: i32,
}

/// The bytes as a text, where they are one.
pub fn text_of(bytes: &[u8]) -> Option<&str>
    ensures { option_copied result ≡ text_of bytes.now }
{
    match str::from_utf8(bytes) {
        Ok(text) => Some(text),
        Err(_) => None,
    }
}

/// The name at an offset of a text, where it is inside and is itself a text.
pub fn name_in(text: &[u8], at: usize, count: usize) -> Option<&str>
    ensures { option_copied result ≡ name_in text.now at count }
{
    let Some(end) = at.checked_add(count) else {
        return None;
    };
    if end > text.len() {
        return None;
    }
    text_of(&text[at..end])
}

/// Whether each row names a map.
pub fn have_names(rows: &[ebpf_descriptor], text: &[u8]) -> bool
    ensures { result ≡ have_names text.now rows.now }
{
    rows.iter()
        .all(|row| name_in(text, row.name_at, row.name_len).is_some())
}

/// The names of maps with their descriptors. A row that names none is passed over.
#[tactic(auto, using(crate::proofs::Rows::one_read, crate::proofs::Rows::none_read, ebpf_base::proofs::Lists::rest_none))]
pub fn descriptors_in<'a>(
    alloc: Global,
    rows: &[ebpf_descriptor],
    text: &'a [u8],
) -> Result<Vec<(&'a str, i32)>, AllocError>
    ensures { IfOk result (λ named.
        map descriptor_of named.items ≡ descriptors_in text.now rows.now) }
{
    let mut named = Vec::with_capacity(alloc, rows.len())?;
    for row in rows {
        let Some(name) = name_in(text, row.name_at, row.name_len) else {
            continue;
        };
        named.push((name, row.descriptor))?;
    }
    Ok(named)
}

/// What a row hands over: an extern's name and its value.
fn given_by_row<'a>(
    row: &ebpf_value,
    text: &'a [u8],
    bytes: &'a [u8],
) -> Option<(&'a str, &'a [u8])>
    ensures { option_map lent_pair result ≡ given_by_row text.now bytes.now row.now }
{
    let Some(name) = name_in(text, row.name_at, row.name_len) else {
        return None;
    };
    let Some(value) = bytes_in(bytes, row.value_at, row.value_len) else {
        return None;
    };
    Some((name, value))
}

/// Puts the value of an extern in the place of an earlier one.
fn put_given(
    alloc: Global,
    values: &mut ByName<Items<u8>>,
    name: &str,
    value: &[u8],
) -> Result<(), AllocError>
    ensures { OnOk result (values.new ≡ insert values.old name.now value.now) }
{
    let bytes = Items::from_vec(Vec::from_slice(alloc, value)?);
    values.insert(String::from_str(alloc, name)?, bytes)?;
    Ok(())
}

/// The values of externs by name, later rows over earlier ones.
#[tactic(auto, using(crate::proofs::Rows::one_put, crate::proofs::Rows::none_put, ebpf_base::proofs::Lists::rest_none))]
pub fn given_values(
    alloc: Global,
    rows: &[ebpf_value],
    text: &[u8],
    bytes: &[u8],
) -> Result<ByName<Items<u8>>, AllocError>
    ensures { IfOk result (λ values. values ≡ given_values text.now bytes.now rows.now) }
{
    let mut values = ByName::new(alloc);
    for row in rows {
        let Some((name, value)) = given_by_row(row, text, bytes) else {
            continue;
        };
        put_given(alloc, &mut values, name, value)?;
    }
    Ok(values)
}
