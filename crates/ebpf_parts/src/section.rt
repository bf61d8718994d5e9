//! A section as it is parsed, and its kind.

ghost use Rattle.std.specs.Prelude.{◌≡◌, [], IfOk, Some};
ghost use Rattle.ebpf_base.specs.Faults.{Refuses, fault_of, first_of};
ghost use Rattle.ebpf_elf.specs.Relocations.{relocations};
ghost use Rattle.ebpf_elf.specs.Sections.{header, data_of, section_name};
ghost use Rattle.ebpf_parts.specs.Memory.{is_parse_memory};
ghost use Rattle.ebpf_parts.specs.Sections.{SectionValue, kind_of_section, named_kinds, is_code, section_of, section_with, section_fault, section_fault_with, target_fault, data_fault, section_name_fault};

use crate::error::ParseError;
use ebpf_base::Items;
use ebpf_elf::constants::{SHF_ALLOC, SHF_EXECINSTR, SHT_PROGBITS};
use ebpf_elf::{ElfSection, SectionIndex};
use std::alloc::Global;
use std::marker::Model;

/// The kind of a section of an object.
#[derive(Clone, Copy, Debug, PartialEq, Eq)]
pub enum EbpfSectionKind {
    /// A section that is not read.
    Undefined,
    /// Maps as fixed structs.
    Maps,
    /// BTF-defined maps.
    BtfMaps,
    /// Programs.
    Program,
    /// Initial data.
    Data,
    /// Initial data that is only read.
    Rodata,
    /// Data that is zero at first.
    Bss,
    /// Functions that programs call.
    Text,
    /// Type information.
    Btf,
    /// Func info, line info and CO-RE relocations.
    BtfExt,
    /// The license of the programs.
    License,
    /// The kernel version that the programs are for.
    Version,
}

/// Whether a section is of instructions: PROGBITS, in memory, executable and not empty.
fn is_code(section: &ElfSection<'_>) -> bool
    ensures { result ≡ is_code (header section.now) }
{
    let flags = section.flags();
    section.kind_number() == SHT_PROGBITS
        && flags & SHF_ALLOC != 0
        && flags & SHF_EXECINSTR != 0
        && section.size() != 0
}

/// The kind that a name says, whatever the section.
#[tactic(auto, unfolding(crate::specs::Sections::named_kinds))]
fn named_kind(name: &str) -> Option<EbpfSectionKind>
    ensures { result ≡ first_of (named_kinds name.now) }
{
    let bytes = name.as_bytes();
    if bytes.starts_with(b"license") {
        return Some(EbpfSectionKind::License);
    }
    if bytes.starts_with(b"version") {
        return Some(EbpfSectionKind::Version);
    }
    if bytes.starts_with(b"maps") {
        return Some(EbpfSectionKind::Maps);
    }
    if bytes.starts_with(b".maps") {
        return Some(EbpfSectionKind::BtfMaps);
    }
    if bytes.starts_with(b".text") {
        return Some(EbpfSectionKind::Text);
    }
    if bytes.starts_with(b".bss") {
        return Some(EbpfSectionKind::Bss);
    }
    if bytes.starts_with(b".data") {
        return Some(EbpfSectionKind::Data);
    }
    if bytes.starts_with(b".rodata") {
        return Some(EbpfSectionKind::Rodata);
    }
    match name {
        ".BTF" => Some(EbpfSectionKind::Btf),
        ".BTF.ext" => Some(EbpfSectionKind::BtfExt),
        _ => None,
    }
}

impl EbpfSectionKind {
    /// Returns the kind of a section with a name (libbpf's section names).
    ///
    /// The first prefix that fits says it (`license`, `version`, `maps`, `.maps`, `.text`, `.bss`, `.data`, `.rodata`),
    /// then the names `.BTF` and `.BTF.ext`. Any other section is a `Program` if it has instructions.
    pub fn from_elf(name: &str, section: &ElfSection<'_>) -> EbpfSectionKind
        ensures { result ≡ kind_of_section name.now (header section.now) }
    {
        match named_kind(name) {
            Some(kind) => kind,
            None if is_code(section) => EbpfSectionKind::Program,
            None => EbpfSectionKind::Undefined,
        }
    }
}

/// A relocation: the offset in its section that is patched, in bytes, the size of the patch in bits,
/// and the index of the symbol that it names.
pub use ebpf_elf::ElfRelocation as Relocation;

/// A section with what parsing reads of it. Its name and its bytes are borrowed from the file.
#[derive(Debug, Drop)]
pub struct Section<'a> {
    /// The index of the section.
    pub index: SectionIndex,
    /// The kind of the section.
    pub kind: EbpfSectionKind,
    /// Its address.
    pub address: u64,
    /// Its name.
    pub name: &'a str,
    /// Its data; none where it occupies no space in the file.
    pub bytes: &'a [u8],
    /// Its size in bytes, as its header states it.
    pub size: u64,
    /// Its relocations, in order.
    pub relocations: Items<Relocation>,
}

impl<'a> Model for Section<'a> {
    ghost Value = { SectionValue };

    ghost view = { λ s.
        record {
          index = s.index;
          kind = s.kind;
          address = s.address;
          name = s.name.now;
          bytes = s.bytes.now;
          size = s.size;
          relocations = s.relocations;
        } };
}

/// The name of a section.
fn read_name<'a>(section: &ElfSection<'a>) -> Result<&'a str, ParseError>
    ensures name { IfOk result (λ name. section_name section.now ≡ Some name.now) }
    ensures fault { fault_of result ≡ section_name_fault section.now }
{
    match section.name() {
        Ok(name) => Ok(name),
        Err(error) => Err(ParseError::SectionError {
            index: section.index().0,
            error,
        }),
    }
}

/// The data of a section.
fn data_of<'a>(section: &ElfSection<'a>) -> Result<&'a [u8], ParseError>
    ensures data { IfOk result (λ part. part.now ≡ data_of section.now) }
    ensures fault { fault_of result ≡ data_fault section.now }
{
    match section.data() {
        Ok(part) => Ok(part),
        Err(error) => Err(ParseError::SectionError {
            index: section.index().0,
            error,
        }),
    }
}

/// The relocations of a section, each against a symbol.
fn relocations_of(alloc: Global, section: &ElfSection<'_>) -> Result<Items<Relocation>, ParseError>
    ensures list { IfOk result (λ collected. collected ≡ relocations section.now) }
    ensures fault { Refuses is_parse_memory result (target_fault (relocations section.now)) }
{
    let mut collected = Items::new(alloc);
    for relocation in section.relocations() {
        if relocation.symbol_index == 0 {
            return Err(ParseError::UnsupportedRelocationTarget);
        }
        collected.push(relocation)?;
    }
    Ok(collected)
}

impl<'a> Section<'a> {
    /// Reads a section of a file, with its name, its data and its relocations.
    ///
    /// # Errors
    ///
    /// The first of these faults, in this order:
    ///
    /// - `SectionError` with `BadStringTable`: the name can't be read.
    /// - `SectionError` with `BadSectionRange`: the data is outside the file.
    /// - `UnsupportedRelocationTarget`: a relocation names symbol 0.
    ///
    /// `OutOfMemory` is returned if an allocation fails.
    #[tactic(auto, unfolding(crate::specs::Sections::section_of, crate::specs::Sections::section_with, crate::specs::Sections::section_fault, crate::specs::Sections::section_fault_with))]
    pub fn from_elf(alloc: Global, section: &ElfSection<'a>) -> Result<Section<'a>, ParseError>
        ensures section { IfOk result (λ s. s ≡ section_of section.now) }
        ensures fault { Refuses is_parse_memory result (section_fault section.now) }
    {
        let name = read_name(section)?;
        let bytes = data_of(section)?;
        let relocations = relocations_of(alloc, section)?;
        Ok(Section {
            index: section.index(),
            kind: EbpfSectionKind::from_elf(name, section),
            address: section.address(),
            name,
            bytes,
            size: section.size(),
            relocations,
        })
    }

    /// Reads a section of a file with its name and its data, without its relocations.
    ///
    /// # Errors
    ///
    /// - `SectionError`: as in `from_elf`.
    #[tactic(auto, unfolding(crate::specs::Sections::section_with, crate::specs::Sections::section_fault_with))]
    pub fn without_relocations(
        alloc: Global,
        section: &ElfSection<'a>,
    ) -> Result<Section<'a>, ParseError>
        ensures section { IfOk result (λ s. s ≡ section_with [] section.now) }
        ensures fault { fault_of result ≡ section_fault_with [] section.now }
    {
        let name = read_name(section)?;
        let bytes = data_of(section)?;
        Ok(Section {
            index: section.index(),
            kind: EbpfSectionKind::from_elf(name, section),
            address: section.address(),
            name,
            bytes,
            size: section.size(),
            relocations: Items::new(alloc),
        })
    }
}
