//! Reads the header of `.BTF.ext`, its parts, and their sections.

ghost use Rattle.std.specs.Prelude.{◌≡◌, ◌+◌, ◌-◌, ◌*◌, ◌≤◌, ◌<◌, length, IfOk};
ghost use Rattle.ebpf_base.specs.Faults.{fault_of, Gives};
ghost use Rattle.ebpf_btf.specs.Memory.{is_btf_memory};
ghost use Rattle.ebpf_btf.specs.Reading.{header_length};
ghost use Rattle.ebpf_btf_ext.specs.ExtFormat.{ext_header_fault, part_fault, record_size, sections_start, sections_end, num_info_at, section_end, info_sec_fault, sec_name_off_at, func_record, line_record, core_relo_at, core_relos_at};
ghost use Rattle.ebpf_btf_ext.specs.ExtReading.{by_names, func_section, line_section, core_relo_section, sections_from};
ghost use Rattle.ebpf_btf_ext.specs.PrivateContracts.{GivesByOffset, info_section};

use crate::ext_infos::{FuncInfo, LineInfo, SectionInfo, bpf_func_info, bpf_line_info};
use crate::found_sections::SectionsByName;
use crate::relocation::{Relocation, RelocationKind};
use ebpf_base::Items;
use ebpf_base::numbers::{read_u16, read_u32};
use ebpf_btf::rows::{Row, read_rows};
use ebpf_btf::{Btf, BtfError, Endianness};
use std::alloc::Global;

/// The magic of `.BTF.ext`, its first two bytes (BTF_MAGIC).
const MAGIC: u16 = 0xeb9f;

/// The minimum length of the header in bytes.
const HEADER_LENGTH: usize = 24;

/// The length of the head of a section in bytes: the offset of its name and the number of its entries.
const SECTION_HEAD: usize = 8;

/// The start and end of the sections of a part, and the size of their entries, in bytes.
#[derive(Clone, Copy)]
pub struct Part {
    /// The offset of the first section, in bytes.
    pub offset: usize,
    /// The offset after the last section, in bytes.
    pub end: usize,
    /// The size of an entry in bytes.
    pub record_size: u32,
}

/// The head of a section, and the offset after the section.
#[derive(Clone, Copy)]
struct SectionHead {
    name_offset: u32,
    count: u32,
    next: usize,
}

/// Returns the length of the header in bytes; the header is inside `bytes`.
///
/// # Errors
///
/// - `InvalidHeader`: the header is cut, or has another magic than 0xeb9f or a length below 24.
#[tactic(auto, unfolding(crate::specs::ExtFormat::ext_header_fault, ebpf_btf::specs::Reading::header_length, ebpf_btf::specs::Reading::magic))]
pub fn read_header_length(order: Endianness, bytes: &[u8]) -> Result<usize, BtfError>
    ensures fault { fault_of result ≡ ext_header_fault order bytes.now }
    ensures length { IfOk result (λ n. n ≡ header_length order bytes.now) }
    ensures inside { IfOk result (λ n. n ≤ length bytes.now) }
{
    if bytes.len() < HEADER_LENGTH || read_u16(order, bytes, 0) != MAGIC {
        return Err(BtfError::InvalidHeader);
    }
    let header_length = read_u32(order, bytes, 4) as usize;
    if header_length < HEADER_LENGTH || bytes.len() < header_length {
        return Err(BtfError::InvalidHeader);
    }
    Ok(header_length)
}

/// Returns the part whose offset and length are at an offset of the header.
///
/// # Errors
///
/// - `InvalidInfo`: the part has 1 to 3 bytes, or runs past the end of the bytes.
#[tactic(auto, unfolding(crate::specs::ExtFormat::part_fault, crate::specs::ExtFormat::part_length, crate::specs::ExtFormat::part_start, crate::specs::ExtFormat::record_size, crate::specs::ExtFormat::sections_start, crate::specs::ExtFormat::sections_end))]
pub fn read_part(
    order: Endianness,
    bytes: &[u8],
    header: usize,
    at: usize,
) -> Result<Part, BtfError>
    requires header { header ≡ header_length order bytes.now }
    requires inside { header ≤ length bytes.now }
    requires small { at ≤ 24 }
    ensures fault { fault_of result ≡ part_fault order bytes.now at }
    ensures size { IfOk result (λ p. p.record_size ≡ record_size order bytes.now at) }
    ensures start { IfOk result (λ p. p.offset ≡ sections_start order bytes.now at) }
    ensures stop { IfOk result (λ p. p.end ≡ sections_end order bytes.now at) }
    ensures within { IfOk result (λ p. (p.offset ≤ p.end) × (p.end ≤ length bytes.now)) }
{
    const EMPTY: Part = Part {
        offset: 0,
        end: 0,
        record_size: 0,
    };
    if header < at + 8 {
        return Ok(EMPTY);
    }
    let length = read_u32(order, bytes, at + 4) as usize;
    if length == 0 {
        return Ok(EMPTY);
    }
    let start = header + read_u32(order, bytes, at) as usize;
    if length < 4 || bytes.len() < start + length {
        return Err(BtfError::InvalidInfo);
    }
    Ok(Part {
        offset: start + 4,
        end: start + length,
        record_size: read_u32(order, bytes, start),
    })
}

/// Returns the head of the section at an offset.
///
/// # Errors
///
/// - `InvalidInfo`: the section runs past the end of its part, or has entries that are shorter than `least` bytes.
#[tactic(auto, unfolding(crate::specs::ExtFormat::info_sec_fault))]
fn read_section_head(
    order: Endianness,
    bytes: &[u8],
    part: Part,
    least: u32,
    offset: usize,
) -> Result<SectionHead, BtfError>
    requires before { offset ≤ part.end }
    requires inside { part.end ≤ length bytes.now }
    ensures fault { fault_of result
        ≡ info_sec_fault order bytes.now least part.record_size offset part.end }
    ensures name { IfOk result (λ h. h.name_offset ≡ sec_name_off_at order bytes.now offset) }
    ensures count { IfOk result (λ h. h.count ≡ num_info_at order bytes.now offset) }
    ensures next { IfOk result (λ h. h.next ≡ section_end order bytes.now part.record_size offset) }
    ensures whole { IfOk result (λ h. offset + 8 + part.record_size * h.count ≤ length bytes.now) }
    ensures within { IfOk result (λ h. (offset + 8 ≤ h.next) × (h.next ≤ part.end)) }
    ensures long { IfOk result (λ h. 0 < h.count → least ≤ part.record_size) }
{
    if part.end - offset < SECTION_HEAD {
        return Err(BtfError::InvalidInfo);
    }
    let name_offset = read_u32(order, bytes, offset);
    let count = read_u32(order, bytes, offset + 4);
    if part.record_size < least && count != 0 {
        return Err(BtfError::InvalidInfo);
    }
    let length = part.record_size as usize * count as usize;
    if part.end - offset - SECTION_HEAD < length {
        return Err(BtfError::InvalidInfo);
    }
    Ok(SectionHead {
        name_offset,
        count,
        next: offset + SECTION_HEAD + length,
    })
}

/// The length of a slot in bytes; `bpf_insn::SIZE` is in a crate above this one.
const INSN_SIZE: u32 = 8;

impl Row for bpf_func_info {
    ghost least = { 8 };

    ghost row_at = { func_record };

    #[tactic(auto, unfolding(crate::specs::ExtFormat::func_record))]
    fn read(order: Endianness, bytes: &[u8], offset: usize) -> bpf_func_info {
        bpf_func_info {
            insn_off: read_u32(order, bytes, offset) / INSN_SIZE,
            type_id: read_u32(order, bytes, offset + 4),
        }
    }
}

impl Row for bpf_line_info {
    ghost least = { 16 };

    ghost row_at = { line_record };

    #[tactic(auto, unfolding(crate::specs::ExtFormat::line_record))]
    fn read(order: Endianness, bytes: &[u8], offset: usize) -> bpf_line_info {
        bpf_line_info {
            insn_off: read_u32(order, bytes, offset) / INSN_SIZE,
            file_name_off: read_u32(order, bytes, offset + 4),
            line_off: read_u32(order, bytes, offset + 8),
            line_col: read_u32(order, bytes, offset + 12),
        }
    }
}

/// Returns the relocation with an index, of the relocations of a size from `offset` on. Relocations are little-endian in
/// each file. With `type_matches` kind 12 is known.
#[tactic(auto, unfolding(crate::specs::ExtFormat::core_relo_at))]
fn read_relocation(
    type_matches: bool,
    bytes: &[u8],
    offset: usize,
    size: usize,
    number: usize,
) -> Result<Relocation, BtfError>
    requires { offset + size * number + 16 ≤ length bytes.now }
    ensures { result ≡ core_relo_at type_matches bytes.now size offset number }
{
    let offset = offset + size * number;
    let kind = RelocationKind::known(
        read_u32(Endianness::Little, bytes, offset + 12),
        type_matches,
    )?;
    Ok(Relocation {
        insn_off: read_u32(Endianness::Little, bytes, offset),
        type_id: read_u32(Endianness::Little, bytes, offset + 4),
        access_str_off: read_u32(Endianness::Little, bytes, offset + 8),
        kind,
        number,
    })
}

/// Returns `count` relocations of a size from `offset` on.
///
/// # Errors
///
/// - `InvalidRelocationKind`: the kind of a relocation is past 11, or past 12 with `type_matches`; the first such kind.
/// - `OutOfMemory`: out of memory.
#[tactic(auto, using(ebpf_btf::proofs::InOrder::record_inside))]
fn read_relocations(
    alloc: Global,
    type_matches: bool,
    bytes: &[u8],
    offset: usize,
    size: usize,
    count: usize,
) -> Result<Items<Relocation>, BtfError>
    requires whole { offset + size * count ≤ length bytes.now }
    requires long { 0 < count → 16 ≤ size }
    ensures { Gives is_btf_memory result (core_relos_at type_matches bytes.now size offset count) }
{
    let mut items = Vec::with_capacity(alloc, count)?;
    for number in 0..count {
        items.push(read_relocation(type_matches, bytes, offset, size, number)?)?;
    }
    Ok(Items::from_vec(items))
}

/// The minimum length of a relocation in bytes.
const RELOCATION: u32 = 16;

/// Returns the name offset and the func info or line info of the section at an offset, and the offset after the section.
#[tactic(auto, unfolding(crate::specs::ExtReading::checked_section))]
fn read_info_section<S: SectionInfo>(
    alloc: Global,
    order: Endianness,
    bytes: &[u8],
    btf: &Btf,
    part: Part,
    offset: usize,
) -> Result<((u32, S), usize), BtfError>
    requires before { offset < part.end }
    requires inside { part.end ≤ length bytes.now }
    ensures { GivesByOffset btf.now.strings result
        (info_section S.info_with S.Record.row_at S.Record.least order bytes.now btf.now.strings
        part.record_size part.end offset) }
{
    let head = read_section_head(order, bytes, part, S::least(), offset)?;
    btf.is_name_at(head.name_offset, "")?;
    let size = part.record_size as usize;
    let count = head.count as usize;
    let records = read_rows(alloc, order, bytes, offset + SECTION_HEAD, size, count)?;
    let info = S::with(head.name_offset, head.count, records);
    Ok(((head.name_offset, info), head.next))
}

/// Returns the func info or line info of a part by section name; the last of several sections with one name counts.
fn read_info_sections<S: SectionInfo>(
    alloc: Global,
    order: Endianness,
    bytes: &[u8],
    btf: &Btf,
    part: Part,
) -> Result<SectionsByName<S>, BtfError>
    requires before { part.offset ≤ part.end }
    requires inside { part.end ≤ length bytes.now }
    ensures { Gives is_btf_memory result
        (by_names
        (sections_from (part.end - part.offset)
        (info_section S.info_with S.Record.row_at S.Record.least order bytes.now
        btf.now.strings part.record_size part.end) part.offset part.end)) }
{
    let mut sections = Items::new(alloc);
    let mut offset = part.offset;
    while offset < part.end {
        let (section, next) = read_info_section(alloc, order, bytes, btf, part, offset)?;
        sections.push(section)?;
        offset = next;
    }
    Ok(SectionsByName::new(alloc, btf.strings(), sections)?)
}

/// Returns the func info of a part by section name; the last of several sections with one name counts.
#[tactic(auto, unfolding(crate::specs::ExtReading::named_func_info, crate::specs::ExtFormat::func_infos))]
pub fn read_func_sections(
    alloc: Global,
    order: Endianness,
    bytes: &[u8],
    btf: &Btf,
    part: Part,
) -> Result<FuncInfo, BtfError>
    requires before { part.offset ≤ part.end }
    requires inside { part.end ≤ length bytes.now }
    ensures { Gives is_btf_memory result
        (by_names
        (sections_from (part.end - part.offset)
        (func_section order bytes.now btf.now.strings part.record_size part.end)
        part.offset part.end)) }
{
    read_info_sections(alloc, order, bytes, btf, part)
}

/// Returns the line info of a part by section name; the last of several sections with one name counts.
#[tactic(auto, unfolding(crate::specs::ExtReading::named_line_info, crate::specs::ExtFormat::line_infos))]
pub fn read_line_sections(
    alloc: Global,
    order: Endianness,
    bytes: &[u8],
    btf: &Btf,
    part: Part,
) -> Result<LineInfo, BtfError>
    requires before { part.offset ≤ part.end }
    requires inside { part.end ≤ length bytes.now }
    ensures { Gives is_btf_memory result
        (by_names
        (sections_from (part.end - part.offset)
        (line_section order bytes.now btf.now.strings part.record_size part.end)
        part.offset part.end)) }
{
    read_info_sections(alloc, order, bytes, btf, part)
}

/// Returns the name offset and the relocations of a section, and the offset after the section.
#[tactic(auto, unfolding(crate::specs::ExtReading::checked_section, crate::specs::ExtReading::section_core_relos))]
fn read_relocation_section(
    alloc: Global,
    type_matches: bool,
    order: Endianness,
    bytes: &[u8],
    part: Part,
    offset: usize,
) -> Result<((u32, Items<Relocation>), usize), BtfError>
    requires before { offset < part.end }
    requires inside { part.end ≤ length bytes.now }
    ensures found { Gives is_btf_memory result
        (core_relo_section type_matches order bytes.now part.record_size part.end offset) }
{
    let head = read_section_head(order, bytes, part, RELOCATION, offset)?;
    let size = part.record_size as usize;
    let count = head.count as usize;
    let start = offset + SECTION_HEAD;
    let relocations = read_relocations(alloc, type_matches, bytes, start, size, count)?;
    Ok(((head.name_offset, relocations), head.next))
}

/// Returns the sections of relocations of a part, in order. With `type_matches` kind 12 is known.
pub fn read_relocation_sections(
    alloc: Global,
    type_matches: bool,
    order: Endianness,
    bytes: &[u8],
    part: Part,
) -> Result<Items<(u32, Items<Relocation>)>, BtfError>
    requires before { part.offset ≤ part.end }
    requires inside { part.end ≤ length bytes.now }
    ensures { Gives is_btf_memory result
        (sections_from (part.end - part.offset)
        (core_relo_section type_matches order bytes.now part.record_size part.end) part.offset
        part.end) }
{
    let mut sections = Items::new(alloc);
    let mut offset = part.offset;
    while offset < part.end {
        let (section, next) = read_relocation_section(
            alloc,
            type_matches,
            order,
            bytes,
            part,
            offset,
        )?;
        sections.push(section)?;
        offset = next;
    }
    Ok(sections)
}
