//! The sections of a file.

ghost use Rattle.std.specs.Prelude.{◌≡◌, ◌<◌, ◌==◌, List, None, Some, IfOk, IfErr};
ghost use Rattle.std.specs.Iterator.{YieldsFirst, item_count};
ghost use Rattle.std.specs.List.{find};
ghost use Rattle.ebpf_base.specs.Faults.{first_of, fault_of};
ghost use Rattle.ebpf_elf.specs.Headers.{section};
ghost use Rattle.ebpf_elf.specs.Names.{is_name};
ghost use Rattle.ebpf_elf.specs.Relocations.{relocations};
ghost use Rattle.ebpf_elf.specs.Sections.{SectionOf, header, sections, sections_from, section_name, data_faults, data_of};
ghost use Rattle.ebpf_elf.specs.declared.error.ElfReadError.TheVariants.{BadStringTable};

use crate::constants::SHT_NOBITS;
use crate::error::ElfReadError;
use crate::file::Layout;
use crate::header::SectionHeader;
use crate::relocation::{RelocationSections, Relocations};
use crate::string::{is_name_in, name_in};
use std::marker::Model;

/// The index of a section in its file. The first section has index 1.
#[derive(Clone, Copy, Debug, Default, PartialEq, Eq)]
pub struct SectionIndex(pub usize);

/// A section of a file. Contracts see the file and the section's index.
#[derive(Clone, Drop)]
pub struct ElfSection<'a> {
    layout: Layout<'a>,
    index: usize,
    fields: SectionHeader,
}

impl<'a> Model for ElfSection<'a> {
    ghost Value = { SectionOf };

    ghost view = { λ s. record { file = s.layout.table.bytes.now; index = s.index } };

    ghost invariant = { λ s.
        (s.index < s.layout.table.count)
        × (s.fields ≡ section s.layout.table.bytes.now s.index) };
}

impl<'a> ElfSection<'a> {
    /// Returns the section's index, 1 or more.
    pub fn index(&self) -> SectionIndex
        ensures { result.0 ≡ self.now.index }
    {
        SectionIndex(self.index)
    }

    /// Returns the section's type (sh_type): 1 is PROGBITS, 8 is NOBITS.
    pub fn kind_number(&self) -> u32
        ensures { result ≡ (header self.now).sh_type }
    {
        self.fields.sh_type
    }

    /// Returns the section's flags (sh_flags), as a sum: 2 is ALLOC, 4 is EXECINSTR.
    pub fn flags(&self) -> u64
        ensures { result ≡ (header self.now).sh_flags }
    {
        self.fields.sh_flags
    }

    /// Returns the address of the section's first byte (sh_addr); 0 in most object files.
    pub fn address(&self) -> u64
        ensures { result ≡ (header self.now).sh_addr }
    {
        self.fields.sh_addr
    }

    /// Returns the section's size in bytes (sh_size), also for a section without data in the file.
    pub fn size(&self) -> u64
        ensures { result ≡ (header self.now).sh_size }
    {
        self.fields.sh_size
    }

    /// Returns the section's name, from the string table of the section names (sh_name).
    ///
    /// # Errors
    ///
    /// - `BadStringTable`: no zero byte follows the name in the string table, or the name is not UTF-8.
    #[tactic(auto, unfolding(crate::specs::Sections::section_name))]
    pub fn name(&self) -> Result<&'a str, ElfReadError>
        ensures name { IfOk result (λ text. section_name self.now ≡ Some text.now) }
        ensures none { IfErr result (λ _. section_name self.now ≡ None) }
        ensures error { IfErr result (λ e. e ≡ BadStringTable) }
    {
        name_in(self.layout.names, self.fields.sh_name as usize)
    }

    /// Returns whether the section has this name; false where the section's name cannot be read. The time is linear in
    /// the length of `text`, however long the section's name is.
    #[tactic(auto, unfolding(crate::specs::Sections::section_name))]
    pub fn has_name(&self, text: &str) -> bool
        ensures { result ≡ is_name text.now (section_name self.now) }
    {
        is_name_in(self.layout.names, self.fields.sh_name as usize, text)
    }

    /// Returns the section's bytes in the file (sh_offset, sh_size); none for a section of type NOBITS.
    ///
    /// # Errors
    ///
    /// - `BadSectionRange`: the bytes run past the end of the file.
    #[tactic(auto, unfolding(crate::specs::Sections::data_faults, crate::specs::Sections::data_of))]
    pub fn data(&self) -> Result<&'a [u8], ElfReadError>
        ensures fault { fault_of result ≡ first_of (data_faults self.now) }
        ensures bytes { IfOk result (λ part. part.now ≡ data_of self.now) }
    {
        if self.fields.sh_type == SHT_NOBITS {
            return Ok(&[]);
        }
        self.layout
            .table
            .range(&self.fields)
            .ok_or(ElfReadError::BadSectionRange)
    }

    /// Returns the relocations of the section, in order: the entries of the REL and RELA sections against the symbol table
    /// whose target (sh_info) is this section.
    pub fn relocations(&self) -> Relocations<'a>
        ensures { result ≡ relocations self.now }
    {
        Relocations::new(RelocationSections::new(self.layout), self.index)
    }
}

/// An iterator over the sections of a file, in order of their indices. Contracts see the list of the sections left.
#[derive(Clone, Drop)]
pub struct Sections<'a> {
    layout: Layout<'a>,
    next: usize,
}

impl<'a> Model for Sections<'a> {
    ghost Value = { List SectionOf };

    ghost view = { λ s. sections_from s.layout.table.bytes.now s.next s.layout.table.count };
}

impl<'a> Sections<'a> {
    /// Returns the sections of the file from index 1 on.
    pub(crate) fn new(layout: Layout<'a>) -> Sections<'a>
        ensures { result ≡ sections layout.entry.table.bytes.now }
    {
        Sections { layout, next: 1 }
    }
}

impl<'a> Iterator for Sections<'a> {
    type Item = ElfSection<'a>;

    ghost next_gives = { YieldsFirst (λ s. s) };

    ghost remaining = { item_count (λ s. s) };

    #[tactic(auto, using(ebpf_base::proofs::Lists::range_more))]
    fn next(&mut self) -> Option<ElfSection<'a>> {
        if self.next >= self.layout.table.count {
            return None;
        }
        let index = self.next;
        self.next += 1;
        Some(ElfSection {
            layout: self.layout,
            index,
            fields: self.layout.table.header(index),
        })
    }
}

/// Returns the first section with this name.
pub fn first_named<'a>(sections: Sections<'a>, name: &str) -> Option<ElfSection<'a>>
    ensures { result ≡ find (λ s. is_name name.now (section_name s)) sections.entry }
{
    for section in sections {
        if section.has_name(name) {
            return Some(section);
        }
    }
    None
}

/// Returns the section with this index.
pub fn first_with_index<'a>(sections: Sections<'a>, index: usize) -> Option<ElfSection<'a>>
    ensures { result ≡ find (λ s. s.index == index) sections.entry }
{
    for section in sections {
        if section.index == index {
            return Some(section);
        }
    }
    None
}
