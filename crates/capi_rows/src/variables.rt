//! Variables in the data of maps, and their values as C hands them over.

ghost use Rattle.std.specs.Prelude.{◌≡◌, IfOk, OnOk, option_map, ◌∷◌, [], ◌+◌, length, ◌++◌};
ghost use Rattle.std.specs.FinMap.{insert, entries};
ghost use Rattle.std.specs.Option.{option_copied, option_and_then};
ghost use Rattle.capi_rows.specs.Listings.{zero_terminated};
ghost use Rattle.ebpf_object.specs.Patches.{global_of, globals_of};
ghost use Rattle.capi_rows.specs.Kconfig.{has_sign, kconfig_kind, kconfig_row};
ghost use Rattle.ebpf_object.specs.Variables.{value_named, variable_at};
ghost use Rattle.capi_rows.specs.Descriptors.{text_of};
ghost use Rattle.capi_rows.specs.Variables.{are_named, have_values, value_of_row, values_in, read_value, row_if, text_if, variable_row, variable_text, lent_value};
ghost use Rattle.capi_rows.specs.Answers.{FillsList, or_memory, found_list};
ghost use Rattle.capi_rows.specs.Reads.{or_number};

use crate::buffers::{Listing, RowFrom, add_name, add_row, write_list};
use crate::codes::{MEMORY, NO_VARIABLE, flag};
use crate::entries::Entry;
use crate::reads::{name_in, text_of};
use ebpf_kconfig::{KconfigExtern, KconfigType};
use ebpf_model::Symbol;
use ebpf_object::Object;
use ebpf_object::variables::{bytes_in, variable_map};
use std::alloc::{AllocError, Global};
use std::collections::HashMap;

/// The value of a variable: where the variable's name stands in a text, and where the value stands in a block of bytes.
#[repr(C)]
#[derive(Clone, Copy)]
pub struct ebpf_value {
    /// Where the name begins.
    pub name_at: usize,
    /// How many bytes it has.
    pub name_len: usize,
    /// Where the value begins.
    pub value_at: usize,
    /// How many bytes it has.
    pub value_len: usize,
    /// 0 where the object need not have the variable.
    pub must_exist: u32,
}

/// Whether each row names a variable.
pub fn are_named(rows: &[ebpf_value], text: &[u8]) -> bool
    ensures { result ≡ are_named text.now rows.now }
{
    rows.iter()
        .all(|row| name_in(text, row.name_at, row.name_len).is_some())
}

/// Whether each row has its value.
pub fn have_values(rows: &[ebpf_value], bytes: &[u8]) -> bool
    ensures { result ≡ have_values bytes.now rows.now }
{
    rows.iter().all(|row| bytes_in(bytes, row.value_at, row.value_len).is_some())
}

/// What a row hands over: a variable's name, and its value with whether the object has to have the variable.
fn value_of_row<'a>(
    row: &ebpf_value,
    text: &'a [u8],
    bytes: &'a [u8],
) -> Option<(&'a str, (&'a [u8], bool))>
    ensures { option_map lent_value result ≡ value_of_row text.now bytes.now row.now }
{
    let Some(name) = name_in(text, row.name_at, row.name_len) else {
        return None;
    };
    let Some(value) = bytes_in(bytes, row.value_at, row.value_len) else {
        return None;
    };
    Some((name, (value, row.must_exist != 0)))
}

/// Puts the value of a variable in the place of an earlier one.
pub fn put_over<'a>(
    globals: &mut HashMap<&'a str, (&'a [u8], bool)>,
    name: &'a str,
    value: (&'a [u8], bool),
) -> Result<(), AllocError>
    ensures { OnOk result
        (globals_of globals.new.entries
        ≡ insert (globals_of globals.old.entries) name.now (global_of value.entry)) }
{
    globals.insert(name, value)?;
    Ok(())
}

/// The values of variables by name, later rows over earlier ones.
#[tactic(auto, using(crate::proofs::Rows::one_put, crate::proofs::Rows::none_put, ebpf_base::proofs::Lists::rest_none))]
pub fn values_in<'a>(
    alloc: Global,
    rows: &[ebpf_value],
    text: &'a [u8],
    bytes: &'a [u8],
) -> Result<HashMap<&'a str, (&'a [u8], bool)>, AllocError>
    ensures { IfOk result (λ globals.
        globals_of globals.entries ≡ values_in text.now bytes.now rows.now) }
{
    let mut globals = HashMap::new(alloc);
    for row in rows {
        let Some((name, value)) = value_of_row(row, text, bytes) else {
            continue;
        };
        put_over(&mut globals, name, value)?;
    }
    Ok(globals)
}

/// An extern that the kernel's configuration gives. Flags are 1 or 0.
#[repr(C)]
#[derive(Clone, Copy)]
pub struct ebpf_kconfig_extern {
    /// Where its name begins in the text.
    pub name_at: usize,
    /// How many bytes its name has.
    pub name_len: usize,
    /// The size of its value in bytes.
    pub size: u32,
    /// The number of its kind.
    pub kind: u32,
    /// Whether its numbers are signed.
    pub is_signed: u32,
    /// Whether it may stay without a value.
    pub is_weak: u32,
}

/// The number of a kind.
fn kconfig_kind(kind: KconfigType) -> u32
    ensures { result ≡ kconfig_kind kind }
{
    match kind {
        KconfigType::Bool => 0,
        KconfigType::Tristate { .. } => 1,
        KconfigType::Char { .. } => 2,
        KconfigType::Integer { .. } => 3,
        KconfigType::CharArray { .. } => 4,
    }
}

/// Whether numbers of a kind are signed.
fn has_sign(kind: KconfigType) -> bool
    ensures { result ≡ has_sign kind }
{
    match kind {
        KconfigType::Char { signed } | KconfigType::Integer { signed, .. } => signed,
        KconfigType::Bool | KconfigType::Tristate { .. } | KconfigType::CharArray { .. } => false,
    }
}

impl RowFrom<KconfigExtern, ()> for ebpf_kconfig_extern {
    ghost rows_of = { λ _ e name_at. kconfig_row e name_at ∷ [] };

    ghost text_of = { λ _ e. zero_terminated e.name };

    fn add(
        listing: &mut Listing<ebpf_kconfig_extern>,
        _context: &(),
        value: &KconfigExtern,
    ) -> Result<(), AllocError> {
        let row = ebpf_kconfig_extern {
            name_at: listing.text.len(),
            name_len: value.name.len(),
            size: value.kind.size(),
            kind: kconfig_kind(value.kind),
            is_signed: flag(has_sign(value.kind)),
            is_weak: flag(value.is_weak),
        };
        add_row(listing, row, value.name.as_str())
    }
}

/// The value of the variable that some bytes name. Bytes that are no text name none.
fn value_by_bytes<'a>(object: &'a Object, name: &[u8]) -> Result<Option<&'a [u8]>, AllocError>
    ensures { IfOk result (λ value.
        option_copied value ≡ option_and_then (value_named object.now) (text_of name.now)) }
{
    match text_of(name) {
        Some(name) => object.value(name),
        None => Ok(None),
    }
}

/// A value, or that there is none.
fn found_value(value: Option<&[u8]>) -> Result<&[u8], u32>
    ensures { found_list result
        ≡ or_number NO_VARIABLE (λ bytes. bytes) (option_copied value.entry) }
{
    match value {
        Some(bytes) => Ok(bytes),
        None => Err(NO_VARIABLE),
    }
}

/// Writes the bytes of a variable, as `ebpf_value` does.
pub fn write_value(object: &Object, name: &[u8], value: &mut [u8], len: &mut usize) -> u32
    ensures { FillsList (or_memory result (read_value name.now object.now)) result value.old
        value.new len.old len.new }
{
    let Ok(found) = value_by_bytes(object, name) else {
        return MEMORY;
    };
    write_list(found_value(found), value, len)
}

/// A variable in the data of a map.
#[repr(C)]
#[derive(Clone, Copy)]
pub struct ebpf_variable {
    /// Where its name begins in the text.
    pub name_at: usize,
    /// How many bytes it has.
    pub name_len: usize,
    /// Where the name of its map begins.
    pub map_at: usize,
    /// How many bytes that has.
    pub map_len: usize,
    /// Where it begins in the map's data.
    pub offset: u64,
    /// How many bytes it has there.
    pub size: u64,
}

/// Adds the row and the names of a variable.
fn push_variable(
    listing: &mut Listing<ebpf_variable>,
    name: &str,
    map: &str,
    symbol: &Symbol,
) -> Result<(), AllocError>
    ensures rows { OnOk result
        (listing.new.rows.items
        ≡ listing.old.rows.items
        ++ variable_row name.now (map.now, symbol.now) (length listing.old.text.items)
        (length listing.old.text.items + length (zero_terminated name.now))
        ∷ []) }
    ensures text { OnOk result
        (listing.new.text.items
        ≡ listing.old.text.items ++ variable_text name.now (map.now, symbol.now)) }
{
    let name_at = listing.text.len();
    add_name(&mut listing.text, name)?;
    let map_at = listing.text.len();
    add_name(&mut listing.text, map)?;
    listing.rows.push(ebpf_variable {
        name_at,
        name_len: name.len(),
        map_at,
        map_len: map.len(),
        offset: symbol.address,
        size: symbol.size,
    })?;
    Ok(())
}

impl<'a> RowFrom<Entry<'a, usize>, Object> for ebpf_variable {
    ghost rows_of = { λ o e at. row_if e.0 (variable_at o.symbol_table (entries o.maps) e.1) at };

    ghost text_of = { λ o e. text_if e.0 (variable_at o.symbol_table (entries o.maps) e.1) };

    fn add(
        listing: &mut Listing<ebpf_variable>,
        context: &Object,
        value: &Entry<'a, usize>,
    ) -> Result<(), AllocError> {
        let Some(symbol) = context.symbol_table.get(*value.value) else {
            return Ok(());
        };
        match variable_map(&context.maps, symbol) {
            Some(map) => push_variable(listing, value.name, map, symbol),
            None => Ok(()),
        }
    }
}
