//! Writes types as words, and words as bytes.

ghost use Rattle.std.specs.Prelude.{◌≡◌, ◌+◌, ◌*◌, ◌^◌, ◌++◌, ◌<◌, ℕ, flat_map, length, slice_index, OnOk, IfOk};
ghost use Rattle.ebpf_btf.specs.Words.{count_of, further_of, info_word, word_bytes, words_bytes, words_of};
ghost use Rattle.ebpf_btf.specs.Format.{IsTypeAt};
ghost use Rattle.ebpf_btf.specs.Offsets.{without_fallback};
ghost use Rattle.ebpf_btf.specs.Types.{kind_of, kind_number};

use crate::list_rows::{ListRow, Rows};
use crate::types::BtfType;
use ebpf_base::Endianness;
use std::alloc::{AllocError, Global};

/// Appends the four bytes of a word.
#[tactic(auto, unfolding(crate::specs::Words::word_bytes))]
fn append_word(order: Endianness, out: &mut Vec<u8>, word: u32) -> Result<(), AllocError>
    ensures { OnOk result (out.new.items ≡ out.old.items ++ word_bytes order word) }
{
    match order {
        Endianness::Little => out.extend_from_slice(&word.to_le_bytes()),
        Endianness::Big => out.extend_from_slice(&word.to_be_bytes()),
    }
}

/// Returns the bytes of some words, in a byte order.
///
/// # Errors
///
/// - `AllocError`: out of memory.
#[tactic(auto, using(crate::proofs::Written::bytes_none, crate::proofs::Written::bytes_step))]
pub fn bytes_of(alloc: Global, order: Endianness, words: &[u32]) -> Result<Vec<u8>, AllocError>
    ensures bytes { IfOk result (λ out. out.items ≡ words_bytes order words.now) }
    ensures fits { (i : ℕ) → i < length words.now → slice_index words.now i < 2 ^ 32 }
{
    let mut out = Vec::new(alloc);
    for word in words {
        append_word(order, &mut out, *word)?;
    }
    Ok(out)
}

/// Appends the words of some rows.
fn append_rows<R: ListRow + Drop>(out: &mut Vec<u32>, rows: &Rows<'_, R>) -> Result<(), AllocError>
    ensures { OnOk result (out.new.items ≡ out.old.items ++ flat_map R.words rows.now) }
{
    for row in rows.iter() {
        row.append_words(out)?;
    }
    Ok(())
}

/// Appends the words after the first three of a type.
#[tactic(auto, unfolding(crate::specs::Words::further_of))]
fn append_further(out: &mut Vec<u32>, ty: &BtfType<'_>) -> Result<(), AllocError>
    ensures { OnOk result (out.new.items ≡ out.old.items ++ further_of ty.now) }
{
    match ty {
        BtfType::Int { int_data, .. } => out.extend_from_slice(&[*int_data]),
        BtfType::Array {
            element_type,
            index_type,
            len,
            ..
        } => out.extend_from_slice(&[*element_type, *index_type, *len]),
        BtfType::Struct { members, .. } => append_rows(out, members),
        BtfType::Union { members, .. } => append_rows(out, members),
        BtfType::Enum { variants, .. } => append_rows(out, variants),
        BtfType::Enum64 { variants, .. } => append_rows(out, variants),
        BtfType::FuncProto { params, .. } => append_rows(out, params),
        BtfType::Var { linkage, .. } => out.extend_from_slice(&[*linkage]),
        BtfType::DataSec { entries, .. } => append_rows(out, entries),
        BtfType::DeclTag {
            component_index,
            ..
        } => out.extend_from_slice(&[*component_index]),
        _ => Ok(()),
    }
}

/// Returns the info word of a kind, a flag and a count.
fn info_word(kind: u32, flag: bool, count: u32) -> u32
    requires kind { kind < 32 }
    requires few { count < 65536 }
    ensures { result ≡ info_word kind flag count }
{
    let low = count + kind * 0x100_0000;
    if flag { low + 0x8000_0000 } else { low }
}

/// Returns the words of a type.
///
/// # Errors
///
/// - `AllocError`: out of memory.
#[tactic(auto, unfolding(crate::specs::Words::words_of), using(crate::proofs::Written::with_header))]
pub fn words_of(alloc: Global, ty: &BtfType<'_>) -> Result<Vec<u32>, AllocError>
    requires few { count_of ty.now < 65536 }
    ensures { IfOk result (λ words. words.items ≡ words_of ty.now) }
{
    let third = match ty.size() {
        Some(size) => size,
        None => ty.btf_type().unwrap_or(0),
    };
    let info = info_word(ty.kind_number(), ty.kind_flag(), ty.count() as u32);
    let mut words = Vec::from_slice(alloc, &[ty.name_offset(), info, third])?;
    append_further(&mut words, ty)?;
    Ok(words)
}

/// Returns the bytes of a type in a byte order; no bytes for `void`, and for a type with more than 65,535 members, variants,
/// parameters or entries.
///
/// # Errors
///
/// - `AllocError`: out of memory.
pub fn type_bytes(alloc: Global, order: Endianness, ty: &BtfType<'_>) -> Result<Vec<u8>, AllocError>
    requires some { 0 < kind_number (kind_of ty.now) }
    requires few { count_of ty.now < 65536 }
    ensures { IfOk result (λ bytes.
        IsTypeAt order bytes.items 0 (length bytes.items) (without_fallback ty.now)) }
{
    let words = words_of(alloc, ty)?;
    let bytes = bytes_of(alloc, order, &words)?;
    Ok(bytes)
}
