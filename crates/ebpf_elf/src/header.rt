//! The file header, the section headers, and the section header table.

ghost use Rattle.std.specs.Prelude.{◌≡◌, ◌↔◌, ◌+◌, ◌*◌, ◌<◌, ◌≤◌, ◌==◌, [], length, false, if◌then◌else◌, IfOk, IfSome, IsNone};
ghost use Rattle.ebpf_base.specs.Faults.{first_of, fault_of};
ghost use Rattle.ebpf_elf.specs.Faults.{identity_faults, table_faults};
ghost use Rattle.ebpf_elf.specs.Headers.{ei_data, e_shoff, section_count, header_at, section, is_inside, range_of};
ghost use Rattle.ebpf_elf.specs.Names.{is_string_table};

use crate::constants::{ELFCLASS64, ELFDATA2LSB, ELFDATA2MSB, MAGIC, SHN_XINDEX, SHT_STRTAB};
use crate::error::ElfReadError;
use ebpf_base::Endianness;
use ebpf_base::numbers::{read_u16, read_u32, read_u64};

/// Returns the byte order of an ELF64 file, after it checked the identification.
#[tactic(auto, unfolding(crate::specs::Headers::ei_data, crate::specs::Faults::identity_faults))]
pub fn identify(bytes: &[u8]) -> Result<Endianness, ElfReadError>
    ensures fault { fault_of result ≡ first_of (identity_faults bytes.now) }
    ensures order { IfOk result (λ order. order ≡ ei_data bytes.now) }
    ensures room { IfOk result (λ _. 64 ≤ length bytes.now) }
{
    if bytes.len() < 64 {
        return Err(ElfReadError::TooShort);
    }
    if !bytes.starts_with(&MAGIC) {
        return Err(ElfReadError::BadMagic);
    }
    if bytes[4] != ELFCLASS64 {
        return Err(ElfReadError::NotElf64);
    }
    match bytes[5] {
        ELFDATA2LSB => Ok(Endianness::Little),
        ELFDATA2MSB => Ok(Endianness::Big),
        _ => Err(ElfReadError::BadByteOrder),
    }
}

/// A section header (Elf64_Shdr), without sh_addralign and sh_entsize.
#[derive(Clone, Copy)]
pub struct SectionHeader {
    /// The offset of the section's name in the string table of the section names.
    pub sh_name: u32,
    /// The type of the section.
    pub sh_type: u32,
    /// The flags of the section.
    pub sh_flags: u64,
    /// The address of the section's first byte.
    pub sh_addr: u64,
    /// The offset of the section's data in the file, in bytes.
    pub sh_offset: u64,
    /// The size of the section in bytes.
    pub sh_size: u64,
    /// The index of a linked section.
    pub sh_link: u32,
    /// The index of the target in a section of relocations.
    pub sh_info: u32,
}

/// The position of the section header table of a file.
#[derive(Clone, Copy)]
pub struct SectionTable<'a> {
    /// The bytes of the file.
    pub bytes: &'a [u8],
    /// The byte order of the file's numbers.
    pub endianness: Endianness,
    /// The offset of the table in the file, in bytes; 0 for a file without one.
    pub start: usize,
    /// The number of section headers.
    pub count: usize,
    ghost order: { endianness ≡ ei_data bytes.now },
    ghost starts: { start ≡ e_shoff bytes.now },
    ghost counts: { count ≡ section_count bytes.now },
    ghost inside: { start + 64 * count ≤ length bytes.now },
    ghost room: { 64 ≤ length bytes.now },
}

/// Returns the section header table; its start is 0 for a file without one.
#[tactic(auto, unfolding(crate::specs::Faults::table_faults, crate::specs::Headers::e_shoff, crate::specs::Headers::e_shnum, crate::specs::Headers::e_shentsize, crate::specs::Headers::e_shstrndx))]
pub fn section_table<'a>(
    endianness: Endianness,
    bytes: &'a [u8],
) -> Result<SectionTable<'a>, ElfReadError>
    requires order { endianness ≡ ei_data bytes.now }
    requires room { 64 ≤ length bytes.now }
    ensures fault { fault_of result
        ≡ first_of (if e_shoff bytes.now == 0 then [] else table_faults bytes.now) }
    ensures bytes { IfOk result (λ table. table.bytes.now ≡ bytes.now) }
    ensures some { IfOk result (λ table. 0 < table.start → 0 < table.count) }
{
    let start = read_u64(endianness, bytes, 40) as usize;
    if start == 0 {
        return Ok(SectionTable {
            bytes,
            endianness,
            start: 0,
            count: 0,
        });
    }
    let count = read_u16(endianness, bytes, 60) as usize;
    let names = read_u16(endianness, bytes, 62);
    if count == 0 || names == SHN_XINDEX {
        return Err(ElfReadError::ExtendedNumbering);
    }
    if read_u16(endianness, bytes, 58) != 64 {
        return Err(ElfReadError::BadSectionTable);
    }
    if start > bytes.len() || 64 * count > bytes.len() - start {
        return Err(ElfReadError::BadSectionTable);
    }
    Ok(SectionTable {
        bytes,
        endianness,
        start,
        count,
    })
}

impl<'a> SectionTable<'a> {
    /// Returns the header of a section.
    #[tactic(auto, unfolding(crate::specs::Headers::section, crate::specs::Headers::header_at))]
    pub fn header(&self, index: usize) -> SectionHeader
        requires { index < self.now.count }
        ensures { result ≡ section self.now.bytes.now index }
    {
        let (order, bytes, offset) = (self.endianness, self.bytes, self.start + 64 * index);
        SectionHeader {
            sh_name: read_u32(order, bytes, offset),
            sh_type: read_u32(order, bytes, offset + 4),
            sh_flags: read_u64(order, bytes, offset + 8),
            sh_addr: read_u64(order, bytes, offset + 16),
            sh_offset: read_u64(order, bytes, offset + 24),
            sh_size: read_u64(order, bytes, offset + 32),
            sh_link: read_u32(order, bytes, offset + 40),
            sh_info: read_u32(order, bytes, offset + 44),
        }
    }

    /// Returns the bytes of a section; none where they run past the end of the file.
    pub fn range(&self, header: &SectionHeader) -> Option<&'a [u8]>
        ensures none { IsNone result
            ↔ (is_inside self.now.bytes.now header.now.sh_offset header.now.sh_size ≡ false) }
        ensures some { IfSome result (λ part. part.now ≡ range_of self.now.bytes.now header.now) }
    {
        let offset = header.sh_offset as usize;
        let size = header.sh_size as usize;
        if size == 0 {
            return Some(&[]);
        }
        if offset > self.bytes.len() || size > self.bytes.len() - offset {
            return None;
        }
        Some(&self.bytes[offset..offset + size])
    }

    /// Returns the string table in a section; none where the section is no string table inside the file.
    #[tactic(auto, unfolding(crate::specs::Names::is_string_table))]
    pub fn string_table(&self, index: usize) -> Option<&'a [u8]>
        ensures none { IsNone result ↔ (is_string_table self.now.bytes.now index ≡ false) }
        ensures some { IfSome result (λ part.
            part.now ≡ range_of self.now.bytes.now (section self.now.bytes.now index)) }
    {
        if index >= self.count {
            return None;
        }
        let header = self.header(index);
        if header.sh_type != SHT_STRTAB {
            return None;
        }
        self.range(&header)
    }
}
