//! The essential names of types, and a filter of the names of some kinds.

ghost use Rattle.std.specs.Prelude.{◌≡◌, ◌<◌, ℕ, All, Some, IfOk, option_map, slice_get, true, ◌+◌, ◌-◌, ◌≤◌, ◌==◌, drop, length, take, if◌then◌else◌, ◌%◌};
ghost use Rattle.std.specs.Bool.{OnTrue};
ghost use Rattle.std.specs.FinMap.{get};
ghost use Rattle.std.specs.Option.{option_copied};
ghost use Rattle.std.specs.List.{position};
ghost use Rattle.ebpf_btf.specs.Types.{kind_of, name_off};
ghost use Rattle.ebpf_btf.specs.declared.types.BtfType.{BtfType};
ghost use Rattle.ebpf_core_candidates.specs.TypeRows.{odd_at, odd_text_at, readable_at, type_key_at};
ghost use Rattle.ebpf_btf.specs.EssentialNames.{essential_name};
ghost use Rattle.ebpf_btf.specs.Strings.{before_zero};
ghost use Rattle.ebpf_core_candidates.specs.Candidates.{name_hash, is_hash_marked, NamesAreMarked};

use crate::kinds::{SomeKinds, has_kind, kind_number};
use crate::marks::{every_name, mark, name_hash, no_name};
use ebpf_base::{ByOffset, Text};
use ebpf_btf::{Btf, essential_name};
use std::alloc::{AllocError, Global};
use std::marker::Model;

/// Returns whether all bytes are below 128. It computes the maximum, which takes less time than a test of each byte.
fn is_ascii(bytes: &[u8]) -> bool
    ensures { OnTrue result (All (λ b. b < 128) bytes.now) }
{
    let mut greatest = 0u8;
    for byte in bytes {
        if *byte > greatest {
            greatest = *byte;
        }
    }
    greatest < 128
}

/// Returns the decoded text of the name at an offset; none where the name is UTF-8 or cannot be read.
#[tactic(auto, using(crate::proofs::Names::odd_utf8, crate::proofs::Names::odd_other))]
fn odd_text_at(alloc: Global, btf: &Btf, offset: u32) -> Result<Option<Text>, AllocError>
    ensures { IfOk result (λ name. name ≡ odd_text_at btf.now.strings offset) }
{
    let Ok(bytes) = btf.bytes_at(offset) else {
        return Ok(None);
    };
    match str::from_utf8(bytes) {
        Ok(_) => Ok(None),
        Err(_) => {
            let text = String::from_utf8_lossy(alloc, bytes)?;
            Ok(Some(Text::from_string(text)))
        }
    }
}

/// Returns the decoded text of the name of the type with an id; none where the name is UTF-8 or cannot be read.
#[tactic(auto, using(crate::proofs::Names::odd_headed, crate::proofs::Names::odd_headless))]
fn odd_at(alloc: Global, btf: &Btf, id: usize) -> Result<Option<Text>, AllocError>
    ensures { IfOk result (λ name. name ≡ odd_at btf.now id) }
{
    match btf.head(id) {
        Some(head) => odd_text_at(alloc, btf, head.name_offset),
        None => Ok(None),
    }
}

/// Returns the decoded texts of the names that are not UTF-8, by type id. It reads each name.
fn gather_odd_names(alloc: Global, btf: &Btf) -> Result<ByOffset<Text>, AllocError>
    ensures { IfOk result (λ odd. (id : ℕ) → get odd id ≡ odd_at btf.now id) }
{
    let mut odd = ByOffset::new(alloc);
    for id in 0..btf.len() {
        let Some(name) = odd_at(alloc, btf, id)? else {
            continue;
        };
        odd.insert(id as u64, name)?;
    }
    Ok(odd)
}

/// Returns the decoded texts of the names that are not UTF-8, by type id. It reads no name where all strings are ASCII.
#[tactic(auto, using(crate::proofs::Names::odd_ascii))]
fn odd_names(alloc: Global, btf: &Btf) -> Result<ByOffset<Text>, AllocError>
    ensures { IfOk result (λ odd. (id : ℕ) → get odd id ≡ odd_at btf.now id) }
{
    if is_ascii(btf.strings()) {
        return Ok(ByOffset::new(alloc));
    }
    gather_odd_names(alloc, btf)
}

/// The essential names of some types, with decoded copies of the names that are not UTF-8.
///
/// Contracts see the type information.
#[derive(Drop)]
pub struct TypeNames<'a> {
    btf: &'a Btf,
    odd: ByOffset<Text>,
}

impl<'a> Model for TypeNames<'a> {
    ghost use Rattle.std.specs.Prelude.{◌≡◌, ℕ};
    ghost use Rattle.std.specs.FinMap.{get};
    ghost use Rattle.ebpf_core_candidates.specs.TypeRows.{odd_at};
    ghost use Rattle.ebpf_btf.specs.TypeInfo.{TypeInfo};

    ghost Value = { TypeInfo };

    ghost view = { λ x. x.btf.now };

    ghost invariant = { λ x. (id : ℕ) → get x.odd id ≡ odd_at x.btf.now id };
}

impl<'a> TypeNames<'a> {
    /// Returns the essential names of some types.
    ///
    /// # Errors
    ///
    /// - `AllocError`: out of memory.
    pub fn new(alloc: Global, btf: &'a Btf) -> Result<TypeNames<'a>, AllocError>
        ensures { IfOk result (λ names. names ≡ btf.now) }
    {
        let odd = odd_names(alloc, btf)?;
        Ok(TypeNames { btf, odd })
    }

    /// Returns the types.
    pub fn btf(&self) -> &'a Btf
        ensures { result.now ≡ self.now }
    {
        self.btf
    }

    /// Returns the essential name of the type with an id, whose name is at an offset; none where the name cannot be read.
    #[tactic(auto, using(crate::proofs::Names::odd_some, crate::proofs::Names::odd_none, crate::proofs::Names::odd_headed))]
    pub fn name(&self, id: usize, offset: u32) -> Option<&[u8]>
        requires { option_map name_off (slice_get self.now.types id) ≡ Some offset }
        ensures { option_copied result ≡ readable_at self.now.strings offset }
    {
        if self.odd.is_empty() {
            return essential_at(self.btf.strings(), offset);
        }
        let Ok(bytes) = self.btf.bytes_at(offset) else {
            return None;
        };
        match self.odd.get(id as u64) {
            Some(text) => Some(essential_name(text.as_str().as_bytes())),
            None => Some(essential_name(bytes)),
        }
    }

    /// Returns the number of the kind and the essential name of the type with an id.
    #[tactic(auto, using(crate::proofs::Names::key_headed, crate::proofs::Names::key_headless))]
    pub fn type_key(&self, id: u32) -> (u8, &[u8])
        ensures kind { result.0 ≡ (type_key_at self.now id).kind }
        ensures name { result.1.now ≡ (type_key_at self.now id).name }
    {
        let Some(head) = self.btf.head(id as usize) else {
            return (0, &[]);
        };
        let kind = kind_number(head.kind);
        match self.name(id as usize, head.name_offset) {
            Some(name) => (kind, name),
            None => (kind, &[]),
        }
    }

    /// Returns whether the types with two ids have the same kind and the same name offset, so that their names need no
    /// comparison.
    #[tactic(auto, using(crate::proofs::Names::same_key))]
    pub fn is_one_name(&self, left: u32, right: u32) -> bool
        ensures one { OnTrue result (type_key_at self.now left ≡ type_key_at self.now right) }
        ensures told { (one other : BtfType)
            → slice_get self.now.types left ≡ Some one
            → slice_get self.now.types right ≡ Some other
            → kind_of one ≡ kind_of other
            → name_off one ≡ name_off other
            → result ≡ true }
    {
        let (left, right) = (self.btf.head(left as usize), self.btf.head(right as usize));
        let (Some(left), Some(right)) = (left, right) else {
            return false;
        };
        left.name_offset == right.name_offset && left.kind == right.kind
    }
}

/// Returns the index of the first zero byte.
fn first_zero(bytes: &[u8]) -> Option<usize>
    ensures { result ≡ position (λ b. b == 0) bytes.now }
{
    bytes.iter().position(|b| *b == 0)
}

/// Returns the number of underscores at the end of the bytes, after one byte more.
fn marks_after(marks: usize, byte: u8) -> usize
    requires { marks ≤ 2 }
    ensures { result ≡ (if byte == 95 then marks + 1 else 0) }
{
    if byte == b'_' { marks + 1 } else { 0 }
}

/// Returns the bytes before three underscores, the third of which is at an index; none where no zero byte follows.
fn before_marks(bytes: &[u8], index: usize) -> Option<&[u8]>
    requires third { 2 ≤ index }
    requires inside { index < length bytes.now }
    ensures { option_copied result
        ≡ option_map (λ _. take (index - 2) bytes.now) (before_zero (drop (index + 1) bytes.now)) }
{
    match first_zero(&bytes[index + 1..]) {
        Some(_) => Some(&bytes[..index - 2]),
        None => None,
    }
}

/// Returns the bytes before the first zero byte, up to the first three underscores.
fn essential_before_zero(bytes: &[u8]) -> Option<&[u8]>
    ensures { option_copied result ≡ option_map essential_name (before_zero bytes.now) }
{
    let mut marks = 0;
    for index in 0..bytes.len() {
        let byte = bytes[index];
        if byte == 0 {
            return Some(&bytes[..index]);
        }
        if marks == 2 && byte == b'_' {
            return before_marks(bytes, index);
        }
        marks = marks_after(marks, byte);
    }
    None
}

/// Returns the essential part of the name at an offset of the strings; none where the name cannot be read.
pub fn essential_at(strings: &[u8], offset: u32) -> Option<&[u8]>
    ensures { option_copied result
        ≡ option_map essential_name (before_zero (drop offset strings.now)) }
{
    let index = offset as usize;
    if index > strings.len() {
        return None;
    }
    essential_before_zero(&strings[index..])
}

/// Returns the length of the name at an offset in bytes; 0 where the name cannot be read.
fn length_at(btf: &Btf, offset: u32) -> usize {
    let Ok(name) = btf.bytes_at(offset) else {
        return 0;
    };
    name.len()
}

/// Returns the filter of the essential names of the types of some kinds.
///
/// Where these names together are longer than the strings, the filter has all names, so that names which share bytes take
/// no long time.
///
/// # Errors
///
/// - `AllocError`: out of memory.
pub fn names_of(alloc: Global, btf: &Btf, kinds: &SomeKinds) -> Result<Vec<bool>, AllocError>
    requires { length kinds.now ≡ 20 }
    ensures { IfOk result (λ marks. NamesAreMarked marks.items kinds.now btf.now) }
{
    let names = TypeNames::new(alloc, btf)?;
    let mut marks = no_name(alloc)?;
    let mut read = 0usize;
    for id in 0..btf.len() {
        let Some(head) = btf.head(id) else {
            continue;
        };
        if !has_kind(kinds, head.kind) {
            continue;
        }
        read = read.saturating_add(length_at(btf, head.name_offset));
        if read > btf.strings().len() {
            return Ok(every_name(alloc));
        }
        let Some(name) = names.name(id, head.name_offset) else {
            continue;
        };
        mark(&mut marks, name_hash(name));
    }
    Ok(marks)
}
