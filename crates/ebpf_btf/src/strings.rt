//! Reads texts in the strings (the kernel's Documentation/bpf/btf.rst, 2.1 "String Encoding").

ghost use Rattle.std.specs.Prelude.{◌≡◌, ◌+◌, ◌==◌, drop, take, IfOk, IfErr, Ok, Err};
ghost use Rattle.std.specs.List.{position};
ghost use Rattle.std.specs.Option.{option_copied};
ghost use Rattle.std.specs.Result.{result_ok};
ghost use Rattle.std.specs.Cow.{cow_str_bytes};
ghost use Rattle.std.specs.Str.Lossy.{utf8_lossy};
ghost use Rattle.ebpf_base.specs.Faults.{Refuses, fault_of};
ghost use Rattle.ebpf_btf.specs.Memory.{is_btf_memory};
ghost use Rattle.ebpf_btf.specs.Strings.{before_zero, is_text, text_at};

use crate::error::BtfError;
use crate::lossy::reads_as;
use std::alloc::{AllocError, Global};
use std::borrow::CowStr;

/// Returns the index of the first zero byte.
pub fn first_zero(bytes: &[u8]) -> Option<usize>
    ensures { result ≡ position (λ b. b == 0) bytes.now }
{
    bytes.iter().position(|b| *b == 0)
}

/// Returns the bytes before the first zero byte.
fn before_zero(bytes: &[u8]) -> Option<&[u8]>
    ensures { option_copied result ≡ before_zero bytes.now }
{
    match first_zero(bytes) {
        Some(end) => Some(&bytes[..end]),
        None => None,
    }
}

/// Returns the text of some bytes, with U+FFFD for each invalid UTF-8 sequence. It copies only bytes with such a sequence.
#[tactic(auto, using(crate::proofs::LossyTexts::lossy_text))]
fn lossy(alloc: Global, bytes: &[u8]) -> Result<CowStr<'_, Global>, AllocError>
    ensures { IfOk result (λ text. cow_str_bytes text ≡ utf8_lossy bytes.now) }
{
    match str::from_utf8(bytes) {
        Ok(text) => Ok(CowStr::Borrowed(text)),
        Err(_) => Ok(CowStr::Owned(String::from_utf8_lossy(alloc, bytes)?)),
    }
}

/// Returns the bytes from an offset of the strings up to the next zero byte.
///
/// # Errors
///
/// - `InvalidStringOffset`: the offset is outside the strings, or no zero byte follows.
#[tactic(auto, unfolding(crate::specs::Strings::text_at))]
pub fn read_bytes(strings: &[u8], offset: u32) -> Result<&[u8], BtfError>
    ensures text { IfOk result (λ bytes. text_at strings.now offset ≡ Ok (utf8_lossy bytes.now)) }
    ensures found { option_copied (result_ok result) ≡ before_zero (drop offset strings.now) }
    ensures fault { IfErr result (λ e. text_at strings.now offset ≡ Err e) }
{
    let start = offset as usize;
    if start > strings.len() {
        return Err(BtfError::InvalidStringOffset { offset: start });
    }
    match before_zero(&strings[start..]) {
        Some(bytes) => Ok(bytes),
        None => Err(BtfError::InvalidStringOffset { offset: start }),
    }
}

/// Returns the first `count` bytes, or all where there are fewer.
fn first_bytes(bytes: &[u8], count: usize) -> &[u8]
    ensures { result.now ≡ take count bytes.now }
{
    if bytes.len() <= count {
        return bytes;
    }
    &bytes[..count]
}

/// Returns the bytes from an offset of the strings on, at most `longest` and one.
#[tactic(auto, using(crate::proofs::LongNames::none_past, crate::proofs::LongNames::all_near))]
pub fn near_bytes(strings: &[u8], offset: u32, longest: usize) -> &[u8]
    ensures { result.now ≡ take (longest + 1) (drop offset strings.now) }
{
    let start = offset as usize;
    if start >= strings.len() {
        return &[];
    }
    let from = &strings[start..];
    if from.len() <= longest {
        return from;
    }
    &from[..longest + 1]
}

/// Returns whether the text at an offset of the strings is this text; false where it cannot be read. It reads at most one
/// byte more than `text` has.
#[tactic(auto, unfolding(crate::specs::Strings::text_at))]
pub fn is_text_at(strings: &[u8], offset: u32, text: &str) -> bool
    ensures { result ≡ is_text text.now (text_at strings.now offset) }
{
    let start = offset as usize;
    if start > strings.len() {
        return false;
    }
    match before_zero(first_bytes(&strings[start..], text.len() + 1)) {
        Some(bytes) => reads_as(bytes, text.as_bytes()),
        None => false,
    }
}

/// Returns the text at an offset of the strings, with U+FFFD for each invalid UTF-8 sequence.
///
/// # Errors
///
/// - `InvalidStringOffset`: the offset is outside the strings, or no zero byte follows.
/// - `OutOfMemory`: out of memory for a copy.
pub fn read_text(alloc: Global, strings: &[u8], offset: u32) -> Result<CowStr<'_, Global>, BtfError>
    ensures text { IfOk result (λ text. text_at strings.now offset ≡ Ok (cow_str_bytes text)) }
    ensures fault { Refuses is_btf_memory result (fault_of (text_at strings.now offset)) }
{
    Ok(lossy(alloc, read_bytes(strings, offset)?)?)
}
