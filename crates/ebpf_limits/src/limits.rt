//! The number of bytes that are made of a file, and parsing within a limit.

ghost use Rattle.std.specs.Prelude.{◌≡◌, ◌+◌, ◌<◌, IfOk, nat_le, Some, ◌≤◌, ◌^◌, OnOk, length, option_map};
ghost use Rattle.std.specs.Bool.{OnTrue, OnFalse};
ghost use Rattle.ebpf_elf.specs.Relocations.{relocation_sections, relocated_section};
ghost use Rattle.ebpf_limits.specs.OwnedBytes.{all_facts, made_bytes, total, facts_at, relocated_kind, relocation_bytes, owned_bytes, first_bytes, later_bytes, last_bytes};
ghost use Rattle.ebpf_base.specs.Faults.{Refuses, fault_of, first_in};
ghost use Rattle.ebpf_elf.specs.Faults.{faults};
ghost use Rattle.ebpf_limits.specs.Within.{size_fault, within_fault};
ghost use Rattle.ebpf_object.specs.Objects.{object_as};
ghost use Rattle.ebpf_parts.specs.Memory.{is_parse_memory};
ghost use Rattle.ebpf_parts.specs.declared.error.ParseError.TheVariants.{ElfError};

use crate::facts::{Facts, code_names};
use crate::readable::{license_bytes, readable_ext, readable_types, type_information_bytes};
use crate::sizes::{OBJECT, RELOCATION, RELOCATIONS};
use crate::symbols::{facts_at, take_names, take_sections, take_symbols};
use ebpf_elf::{ElfFile, ElfRelocationSection};
use ebpf_object::Object;
use ebpf_parts::{EbpfSectionKind, ParseError, ParseMode};
use ebpf_sections::section_records::FoundRecords;
use std::alloc::{AllocError, Global};

/// The number of bytes that may still be made.
///
/// The number counts down, since a sum over a file may pass 64 bits.
#[derive(Drop)]
pub struct Room {
    pub left: u64,
}

impl Room {
    /// Takes `bytes` bytes, and returns whether as many were left. If not, nothing is taken.
    pub fn take(&mut self, bytes: u128) -> bool
        ensures taken { OnTrue result (self.new.left + bytes ≡ self.old.left) }
        ensures over { OnFalse result (self.old.left < bytes) }
    {
        if u128::from(self.left) < bytes {
            return false;
        }
        self.left -= bytes as u64;
        true
    }
}

/// The limit on the bytes that are made of a file.
#[derive(Clone, Copy, Debug, PartialEq, Eq)]
pub struct Limits {
    /// The maximum number of bytes that may count for a file. The object owns no more.
    pub most_bytes: u64,
}

/// Takes the bytes of the object itself, the section names and the license. Names come before the license, since it is
/// searched by name.
fn take_first(room: &mut Room, bytes: &[u8], file: &ElfFile<'_>) -> bool
    requires { file.now ≡ bytes.now }
    ensures fits { OnTrue result (room.new.left + first_bytes file.now ≡ room.old.left) }
    ensures over { OnFalse result (room.old.left < first_bytes file.now) }
{
    room.take(OBJECT) && take_names(room, bytes, file) && room.take(license_bytes(file) as u128)
}

/// Takes the bytes of the symbols and the relocations.
fn take_last(room: &mut Room, bytes: &[u8], file: &ElfFile<'_>, all: &[Facts<'_>]) -> bool
    requires same { file.now ≡ bytes.now }
    requires facts { all.now ≡ all_facts file.now }
    ensures fits { OnTrue result (room.new.left + last_bytes file.now ≡ room.old.left) }
    ensures over { OnFalse result (room.old.left < last_bytes file.now) }
{
    take_symbols(room, bytes, file, license_bytes(file), all) && take_relocations(room, file, all)
}

/// Takes the bytes of the type information, the sections, the symbols and the relocations.
fn take_later(
    alloc: Global,
    room: &mut Room,
    bytes: &[u8],
    file: &ElfFile<'_>,
) -> Result<bool, AllocError>
    requires { file.now ≡ bytes.now }
    ensures fits { IfOk result (λ fits.
        OnTrue fits (room.new.left + later_bytes file.now ≡ room.old.left)) }
    ensures over { IfOk result (λ fits. OnFalse fits (room.old.left < later_bytes file.now)) }
{
    let types = readable_types(alloc, file)?;
    let ext = readable_ext(alloc, file, &types)?;
    if !room.take(type_information_bytes(file, &types, &ext)) {
        return Ok(false);
    }
    let names = code_names(alloc, file, &ext)?;
    let records = FoundRecords::find(alloc, &ext, &names)?;
    let Some(all) = take_sections(alloc, room, bytes, file, &records)? else {
        return Ok(false);
    };
    Ok(take_last(room, bytes, file, &all))
}

/// Whether the bytes that are made of a file are at most `most_bytes`.
pub fn fits(
    alloc: Global,
    bytes: &[u8],
    file: &ElfFile<'_>,
    most_bytes: u64,
) -> Result<bool, AllocError>
    requires { file.now ≡ bytes.now }
    ensures { IfOk result (λ fits. fits ≡ nat_le (made_bytes file.now) most_bytes) }
{
    let mut room = Room { left: most_bytes };
    if !take_first(&mut room, bytes, file) {
        return Ok(false);
    }
    take_later(alloc, &mut room, bytes, file)
}

/// Whether the section that relocations patch is one of code.
fn patches_code(all: &[Facts<'_>], section: &ElfRelocationSection<'_>) -> bool
    ensures { result ≡ relocated_kind (facts_at all.now (Some (relocated_section section.now))) }
{
    match facts_at(all, Some(section.target())) {
        Some(facts) => matches!(facts.kind, EbpfSectionKind::Text | EbpfSectionKind::Program),
        None => false,
    }
}

/// The bytes of a section of relocations.
#[tactic(auto, unfolding(crate::specs::OwnedBytes::relocation_bytes))]
fn relocation_bytes(all: &[Facts<'_>], section: &ElfRelocationSection<'_>) -> u128
    ensures { result ≡ relocation_bytes all.now section.now }
{
    if !patches_code(all, section) {
        return 0;
    }
    RELOCATIONS + RELOCATION * section.extent().count as u128
}

/// Takes the bytes of the relocations of sections of code.
pub fn take_relocations(room: &mut Room, file: &ElfFile<'_>, all: &[Facts<'_>]) -> bool
    ensures fits { OnTrue result
        (room.new.left + total (relocation_bytes all.now) (relocation_sections file.now)
        ≡ room.old.left) }
    ensures over { OnFalse result
        (room.old.left < total (relocation_bytes all.now) (relocation_sections file.now)) }
{
    for section in file.relocation_sections() {
        if !room.take(relocation_bytes(all, &section)) {
            return false;
        }
    }
    true
}

/// The ELF file in some bytes.
fn read_elf(bytes: &[u8]) -> Result<ElfFile<'_>, ParseError>
    ensures file { IfOk result (λ file. file ≡ bytes.now) }
    ensures fault { fault_of result ≡ option_map ElfError (first_in (faults bytes.now)) }
{
    match ElfFile::parse(bytes) {
        Ok(file) => Ok(file),
        Err(error) => Err(ParseError::ElfError(error)),
    }
}

/// Refuses bytes that are no ELF file, or whose count passes the limit.
#[tactic(auto, unfolding(crate::specs::Within::size_fault))]
fn check_size(alloc: Global, bytes: &[u8], most_bytes: u64) -> Result<(), ParseError>
    ensures fault { Refuses is_parse_memory result (size_fault most_bytes bytes.now) }
    ensures small { OnOk result (made_bytes bytes.now ≤ most_bytes) }
    ensures short { length bytes.now < 2 ^ 64 }
{
    let file = read_elf(bytes)?;
    if !fits(alloc, bytes, &file, most_bytes)? {
        return Err(ParseError::TooLarge { most_bytes });
    }
    Ok(())
}

/// Returns the object in the bytes of an ELF64 file, where the bytes that it owns are within a limit.
///
/// The object is the one that `Object::parse_as` returns for the parse mode. Before it is made, these bytes are counted
/// and compared with `most_bytes`. To count, the type information is read; what that takes is given back.
///
/// - 10,992 bytes for the object itself.
/// - 1 byte for each byte of data, of the license and of names. The license counts once more for each program.
/// - For each entry of a table, also where a later entry replaces it: 400 bytes for a map and for a function, 192 for a
///   program, 208 for a symbol, 88 for a relocation and for a section, and 704 for a section of relocations.
/// - 160 bytes and the name once more for each symbol, since it may name an extern.
/// - 16 bytes for each slot.
/// - 8 bytes for each func info entry of a function, 16 bytes for each line info entry. Those of a section of code count
///   once more. All of them count at each function of the section where they are not sorted by slot.
/// - 3 bytes for each byte of types, 6 for each byte of their strings, 10 for each byte of `.BTF.ext`, and 256.
/// - The length of the file for each name that can't be read.
///
/// The sizes are upper bounds of what is allocated: they have the spare room of lists and the nodes of tables. What
/// parsing holds besides the object doesn't count.
///
/// # Errors
///
/// In this order:
///
/// - `ElfError`: the bytes are no ELF64 file.
/// - `TooLarge`: the count passes the limit.
/// - The errors of `Object::parse_as`, in their order.
///
/// `OutOfMemory`: an allocation failed.
pub fn parse_within(
    alloc: Global,
    bytes: &[u8],
    mode: ParseMode,
    limits: Limits,
) -> Result<Object, ParseError>
    ensures object { IfOk result (λ o. o ≡ object_as mode bytes.now) }
    ensures fault { Refuses is_parse_memory result (within_fault mode limits.most_bytes bytes.now) }
    ensures owned { IfOk result (λ o. owned_bytes o ≤ limits.most_bytes) }
{
    check_size(alloc, bytes, limits.most_bytes)?;
    Object::parse_as(alloc, bytes, mode)
}
