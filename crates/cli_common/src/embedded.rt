//! The objects in a file: where each begins and ends.

ghost use Rattle.std.specs.Prelude.{◌≡◌, ◌≤◌, length, ◌+◌, ◌*◌, ◌<◌, IfOk, IfSome, MatchOption};
ghost use Rattle.ebpf_elf.specs.Headers.{ei_data, e_shoff, e_shnum};
ghost use Rattle.cli_common.specs.EmbeddedObjects.{is_object, IsEnd, section_data_end, within, AreObjects, HasNone, IsNext};

use ebpf_base::Endianness;
use ebpf_base::numbers::{read_u16, read_u32, read_u64};
use ebpf_elf::constants::{ELFCLASS64, ELFDATA2LSB, ELFDATA2MSB, EM_BPF, MAGIC, SHT_NOBITS};
use std::alloc::{AllocError, Global};

/// e_type of a relocatable file.
pub const ET_REL: u16 = 1;

/// The size of an ELF header, and of a section header.
pub const HEADER_SIZE: usize = 64;

/// The byte order of a file with a header.
#[tactic(auto, unfolding(ebpf_elf::specs::Headers::ei_data))]
pub fn order_of(bytes: &[u8]) -> Endianness
    requires { 64 ≤ length bytes.now }
    ensures { result ≡ ei_data bytes.now }
{
    if bytes[5] == ELFDATA2MSB {
        Endianness::Big
    } else {
        Endianness::Little
    }
}

/// Whether bytes begin with the header of an eBPF object.
pub fn is_object(bytes: &[u8]) -> bool
    ensures { result ≡ is_object bytes.now }
{
    if bytes.len() < HEADER_SIZE || !bytes.starts_with(&MAGIC) || bytes[4] != ELFCLASS64 {
        return false;
    }
    if bytes[5] != ELFDATA2LSB && bytes[5] != ELFDATA2MSB {
        return false;
    }
    let order = order_of(bytes);
    read_u16(order, bytes, 16) == ET_REL && read_u16(order, bytes, 18) == EM_BPF
}

/// A sum, or a limit that it passes.
fn sum_within(first: usize, second: usize, limit: usize) -> usize
    ensures { result ≡ within (first + second) limit }
{
    if first > limit || second > limit - first {
        limit
    } else {
        first + second
    }
}

/// Where a section ends whose header stands at an offset; 0 where the header isn't inside, and of a section without bytes.
#[tactic(auto, unfolding(ebpf_elf::specs::Headers::ei_data, ebpf_elf::specs::Headers::header_at))]
fn section_end_at(order: Endianness, bytes: &[u8], offset: usize) -> usize
    requires order { order ≡ ei_data bytes.now }
    ensures end { result ≡ section_data_end bytes.now offset }
    ensures inside { result ≤ length bytes.now }
{
    if offset > bytes.len() || bytes.len() - offset < HEADER_SIZE {
        return 0;
    }
    if read_u32(order, bytes, offset + 4) == SHT_NOBITS {
        return 0;
    }
    let start = read_u64(order, bytes, offset + 24) as usize;
    let size = read_u64(order, bytes, offset + 32) as usize;
    sum_within(start, size, bytes.len())
}

/// How many of the bytes belong to the object that they begin with.
#[tactic(auto, unfolding(ebpf_elf::specs::Headers::e_shoff, ebpf_elf::specs::Headers::e_shnum))]
pub fn object_length(bytes: &[u8]) -> usize
    requires { 64 ≤ length bytes.now }
    ensures least { IsEnd bytes.now result }
    ensures inside { result ≤ length bytes.now }
{
    let order = order_of(bytes);
    let table = read_u64(order, bytes, 40) as usize;
    let count = read_u16(order, bytes, 60) as usize;
    if table > bytes.len() {
        return bytes.len();
    }
    let mut end = sum_within(table, HEADER_SIZE * count, bytes.len()).max(HEADER_SIZE);
    for index in 0..count {
        end = end.max(section_end_at(order, bytes, table + HEADER_SIZE * index));
    }
    end
}

/// Where an object stands in a file, in bytes.
#[derive(Clone, Copy, Debug, PartialEq, Eq)]
pub struct ObjectRange {
    /// Where it begins.
    pub start: usize,
    /// Behind its last byte.
    pub end: usize,
}

/// The first object that begins at a place of a file or behind it.
fn next_object(file: &[u8], from: usize) -> Option<ObjectRange>
    ensures found { MatchOption result (HasNone file.now from) (λ range.
        IsNext file.now from range) }
    ensures further { IfSome result (λ range. from < range.end) }
    ensures inside { IfSome result (λ range. range.end ≤ length file.now) }
{
    for start in from..file.len() {
        let bytes = &file[start..];
        if is_object(bytes) {
            let end = start + object_length(bytes);
            return Some(ObjectRange { start, end });
        }
    }
    None
}

/// The eBPF objects that stand in a file, in order: each is the first behind the one before it. An object begins with the
/// header of a relocatable ELF64 file for eBPF, in either byte order, and ends where the last of its section headers and
/// sections ends, or with the file.
///
/// # Errors
///
/// `AllocError` where there is no memory for the list.
pub fn embedded_objects(alloc: Global, file: &[u8]) -> Result<Vec<ObjectRange>, AllocError>
    ensures { IfOk result (λ found. AreObjects file.now 0 found.items) }
{
    let mut found = Vec::new(alloc);
    let mut from = 0;
    while let Some(range) = next_object(file, from) {
        found.push(range)?;
        from = range.end;
    }
    Ok(found)
}
