//! The inputs from which the words of DATASECs are computed, and the offset of each type.

ghost use Rattle.std.specs.Prelude.{◌≡◌, ◌≤◌, ◌<◌, ◌^◌, ◌*◌, length, IfOk};
ghost use Rattle.std.specs.List.{find};
ghost use Rattle.std.specs.Option.{option_copied};
ghost use Rattle.ebpf_elf.specs.Sections.{section_name, sections};
ghost use Rattle.ebpf_btf_load.specs.SectionWords.{file_size, full_size, linked_variable};
ghost use Rattle.ebpf_btf_load.specs.TypeSources.{is_btf_name, given_of, place_in, type_end, type_starts, start_of};
ghost use Rattle.ebpf_btf.specs.Format.{further_words, info_vlen};

use crate::error::KernelTypesError;
use ebpf_base::numbers::read_u32;
use ebpf_base::{Endianness, Items};
use ebpf_btf::strings::is_text_at;
use ebpf_btf::{Btf, BtfKind, BtfType};
use ebpf_elf::{ElfFile, ElfSection, ElfSymbol};
use std::alloc::{AllocError, Global};

/// The inputs from which the words of DATASECs are computed.
#[derive(Drop)]
pub struct Sources<'a> {
    /// The byte order of the types.
    pub order: Endianness,
    /// The bytes of the types.
    pub part: &'a [u8],
    /// The types.
    pub types: &'a Btf,
    /// The offset of each type in its part, in bytes, by id.
    pub starts: &'a [u32],
    /// The file.
    pub file: &'a ElfFile<'a>,
    /// The bytes of the file's symbol table.
    pub table: &'a [u8],
}

/// The offset `within` bytes behind the start of the type with an id.
pub fn place_in(sources: &Sources<'_>, type_id: u32, within: usize) -> usize
    requires { within ≤ 16 }
    ensures place { result ≡ place_in (given_of sources.now) type_id within }
    ensures near { result < 2 ^ 33 }
{
    start_of(sources.starts, type_id) as usize + within
}

/// The offset of a variable's name, and its linkage.
///
/// # Errors
///
/// - `NotAVariable`: the type with the id is no VAR.
#[tactic(auto, unfolding(crate::specs::SectionWords::linked_variable))]
pub fn linked_variable(types: &Btf, type_id: u32) -> Result<(u32, u32), KernelTypesError>
    ensures { result ≡ linked_variable types.now type_id }
{
    match types.type_by_id(type_id) {
        Ok(
            BtfType::Var {
                name_offset,
                linkage,
                ..
            },
        ) => Ok((name_offset, linkage)),
        _ => Err(KernelTypesError::NotAVariable { type_id }),
    }
}

/// Whether a section has the name at an offset of the strings of types.
fn is_named(types: &Btf, name_offset: u32, section: &ElfSection<'_>) -> bool
    ensures { result ≡ is_btf_name types.now.strings name_offset (section_name section.now) }
{
    match section.name() {
        Ok(name) => is_text_at(types.strings(), name_offset, name),
        Err(_) => false,
    }
}

/// The first section with the name at an offset of the strings of types.
fn section_named<'a>(file: &ElfFile<'a>, types: &Btf, name_offset: u32) -> Option<ElfSection<'a>>
    ensures { result
        ≡ find (λ s. is_btf_name types.now.strings name_offset (section_name s))
        (sections file.now) }
{
    for section in file.sections() {
        if is_named(types, name_offset, &section) {
            return Some(section);
        }
    }
    None
}

/// The size of a section of the file, of 32 bits and not 0.
fn file_size(type_id: u32, section: Option<&ElfSection<'_>>) -> Result<u32, KernelTypesError>
    ensures { result ≡ file_size type_id (option_copied section.entry) }
{
    match section {
        Some(section) => {
            let size = section.size();
            if size == 0 || size > 0xffff_ffff {
                return Err(KernelTypesError::NoSectionSize { type_id });
            }
            Ok(size as u32)
        }
        None => Err(KernelTypesError::NoSectionSize { type_id }),
    }
}

/// The size that a DATASEC gets: the one that it states, or the size of the file's section of its name.
///
/// # Errors
///
/// - `NoSectionSize`: the DATASEC states size 0, and the file has no section of its name with a size of 32 bits.
pub fn full_size(
    sources: &Sources<'_>,
    type_id: u32,
    name_offset: u32,
    size: u32,
) -> Result<u32, KernelTypesError>
    ensures { result ≡ full_size (given_of sources.now) type_id name_offset size }
{
    if size != 0 {
        return Ok(size);
    }
    let section = section_named(sources.file, sources.types, name_offset);
    file_size(type_id, section.as_ref())
}

/// The number of words behind the first three of a type.
#[tactic(auto, unfolding(ebpf_btf::specs::Format::further_words))]
fn further_words(kind: BtfKind, count: u32) -> usize
    requires { count ≤ 65535 }
    ensures count { result ≡ further_words kind count }
    ensures few { result ≤ 3 * 65535 }
{
    let count = count as usize;
    match kind {
        BtfKind::Int | BtfKind::Var | BtfKind::DeclTag => 1,
        BtfKind::Array => 3,
        BtfKind::Enum | BtfKind::FuncProto => 2 * count,
        BtfKind::Struct | BtfKind::Union | BtfKind::DataSec | BtfKind::Enum64 => 3 * count,
        _ => 0,
    }
}

/// The vlen of an info word: its low 16 bits.
#[tactic(auto, unfolding(ebpf_btf::specs::Format::info_vlen))]
fn info_vlen(info: u32) -> u32
    ensures count { result ≡ info_vlen info }
    ensures few { result ≤ 65535 }
{
    info & 0xffff
}

/// The end of a type that begins at an offset: the offset itself where the type has no bytes, or passes the end.
#[tactic(auto, unfolding(crate::specs::TypeSources::type_end))]
fn type_end(order: Endianness, part: &[u8], offset: u32, kind: BtfKind) -> u32
    requires small { length part.now < 2 ^ 32 }
    ensures end { result ≡ type_end order part.now offset kind }
{
    if kind == BtfKind::Unknown || part.len() < 12 || offset as usize > part.len() - 12 {
        return offset;
    }
    let count = info_vlen(read_u32(order, part, offset as usize + 4));
    let end = offset as usize + 12 + 4 * further_words(kind, count);
    if end > part.len() {
        return offset;
    }
    end as u32
}

/// The offsets of the types in their part, by id from 0 on, with `void` among them.
pub fn type_starts(
    alloc: Global,
    order: Endianness,
    part: &[u8],
    types: &Btf,
) -> Result<Items<u32>, AllocError>
    requires { length part.now < 2 ^ 32 }
    ensures { IfOk result (λ starts. starts ≡ type_starts order part.now 0 types.now.types) }
{
    let mut starts = Items::new(alloc);
    let mut offset = 0;
    for ty in types.types() {
        starts.push(offset)?;
        offset = type_end(order, part, offset, ty.kind());
    }
    Ok(starts)
}

/// The offset of the type with an id, in bytes.
pub fn start_of(starts: &[u32], type_id: u32) -> u32
    ensures { result ≡ start_of starts.now type_id }
{
    starts.get(type_id as usize).copied().unwrap_or(0)
}
