//! The sections of relocations, and the relocations of a section.

ghost use Rattle.std.specs.Prelude.{◌≡◌, ◌+◌, ◌*◌, ◌<◌, ◌≤◌, ◌^◌, ◌&&◌, ◌++◌, List, [], ◌∷◌, length, true, None, IfNone, IfSome, option_map, unwrap_or};
ghost use Rattle.std.specs.Iterator.{YieldsFirst, item_count};
ghost use Rattle.std.specs.List.{list_any};
ghost use Rattle.std.specs.Option.{ForSome};
ghost use Rattle.ebpf_base.specs.Faults.{first_of, fault_of};
ghost use Rattle.ebpf_elf.specs.Faults.{relocation_faults};
ghost use Rattle.ebpf_elf.specs.Headers.{section_indices};
ghost use Rattle.ebpf_elf.specs.Relocations.{holds_relocations, is_bad_relocation_table, relocation_size, relocation_at, relocation_sections, relocation_sections_from, relocated_section, entry_count, extent_of, table_entry, table_entries, table_entries_from, entries_for};
ghost use Rattle.ebpf_elf.specs.Sections.{SectionOf, header};
ghost use Rattle.ebpf_elf.specs.declared.relocation.ElfRelocation.{ElfRelocation};

use crate::constants::{R_BPF_64_32, R_BPF_64_64, SHT_REL, SHT_RELA};
use crate::error::ElfReadError;
use crate::file::Layout;
use crate::header::SectionTable;
use crate::section::SectionIndex;
use crate::symbol::SymbolTable;
use ebpf_base::Endianness;
use ebpf_base::numbers::read_u64;
use std::marker::Model;

/// A relocation (ELF-64 gABI, 'Relocation').
#[derive(Clone, Copy, Debug, PartialEq, Eq)]
pub struct ElfRelocation {
    /// The offset to patch, in bytes from the start of the target section (r_offset).
    pub offset: u64,
    /// The size of the patched field in bits: 64 for R_BPF_64_64, 32 for R_BPF_64_32, else 0.
    pub size: u8,
    /// The index of the symbol (the high half of r_info).
    pub symbol_index: usize,
}

/// Returns the relocation in the 16 bytes from `offset` on. An addend after them is not read.
#[tactic(auto, unfolding(crate::specs::Relocations::relocation_at))]
fn read_relocation(order: Endianness, bytes: &[u8], offset: usize) -> ElfRelocation
    requires { offset + 16 ≤ length bytes.now }
    ensures { result ≡ relocation_at order bytes.now offset }
{
    let info = read_u64(order, bytes, offset + 8);
    let size = match info % (1 << 32) {
        R_BPF_64_64 => 64,
        R_BPF_64_32 => 32,
        _ => 0,
    };
    ElfRelocation {
        offset: read_u64(order, bytes, offset),
        size,
        symbol_index: (info / (1 << 32)) as usize,
    }
}

/// Returns the size in bytes of an entry in a section of this type: 16 for REL, 24 for RELA.
pub fn relocation_size(kind: u32) -> u64
    ensures { result ≡ relocation_size kind }
{
    if kind == SHT_REL { 16 } else { 24 }
}

impl SymbolTable<'_> {
    /// Returns whether a section holds relocations against this table.
    #[tactic(auto, unfolding(crate::specs::Relocations::holds_relocations))]
    pub fn holds_relocations(&self, section: usize) -> bool
        requires { section < self.now.table.count }
        ensures { result ≡ holds_relocations self.now.table.bytes.now self.now.index section }
    {
        let header = self.table.header(section);
        (header.sh_type == SHT_REL || header.sh_type == SHT_RELA)
            && header.sh_info != 0
            && header.sh_link as usize == self.index
    }

    /// Returns whether a section is malformed as a section of relocations.
    #[tactic(auto, unfolding(crate::specs::Relocations::is_bad_relocation_table))]
    fn is_bad_relocation_table(&self, section: usize) -> bool
        requires { section < self.now.table.count }
        ensures { result ≡ is_bad_relocation_table self.now.table.bytes.now section }
    {
        let header = self.table.header(section);
        header.sh_info as usize >= self.table.count
            || header.sh_size % relocation_size(header.sh_type) != 0
            || self.table.range(&header).is_none()
    }

    /// Returns whether a section of relocations against this table is malformed.
    fn has_bad_relocations(&self) -> bool
        ensures { result
            ≡ list_any
            (λ j.
            holds_relocations self.now.table.bytes.now self.now.index j
            && is_bad_relocation_table self.now.table.bytes.now j)
            (section_indices self.now.table.bytes.now) }
    {
        (1..self.table.count).any(|j| self.holds_relocations(j) && self.is_bad_relocation_table(j))
    }

    /// Checks the sections of relocations against this table.
    #[tactic(auto, unfolding(crate::specs::Faults::relocation_faults))]
    pub fn check_relocations(&self) -> Result<(), ElfReadError>
        ensures { fault_of result
            ≡ first_of (relocation_faults self.now.table.bytes.now self.now.index) }
    {
        if self.has_bad_relocations() {
            return Err(ElfReadError::BadRelocationTable);
        }
        Ok(())
    }

    /// Returns the index of the first section from `from` on with relocations against this table.
    #[tactic(auto, using(ebpf_base::proofs::Lists::range_more))]
    pub fn next_relocation_section(&self, from: usize) -> Option<usize>
        ensures none { IfNone result
            (relocation_sections_from self.now.table.bytes.now self.now.index from
            self.now.table.count
            ≡ []) }
        ensures from { IfSome result (λ j. from ≤ j) }
        ensures below { IfSome result (λ j. j < self.now.table.count) }
        ensures holds { IfSome result (λ j.
            holds_relocations self.now.table.bytes.now self.now.index j ≡ true) }
        ensures rest { IfSome result (λ j.
            relocation_sections_from self.now.table.bytes.now self.now.index from
            self.now.table.count
            ≡ record { file = self.now.table.bytes.now; index = j }
            ∷ relocation_sections_from self.now.table.bytes.now self.now.index (j + 1)
            self.now.table.count) }
    {
        for j in from..self.table.count {
            if self.holds_relocations(j) {
                return Some(j);
            }
        }
        None
    }
}

/// The position of the entries of a section of relocations in its file.
#[derive(Clone, Copy, Debug, PartialEq, Eq)]
pub struct EntryExtent {
    /// The offset of the first entry in the file, in bytes (sh_offset).
    pub offset: usize,
    /// The size of an entry in bytes: 16 in a REL section, 24 in a RELA section.
    pub entry_size: usize,
    /// The number of entries.
    pub count: usize,
}

/// A section of relocations against the symbol table. Contracts see the file and the section's index.
#[derive(Clone, Drop)]
pub struct ElfRelocationSection<'a> {
    table: SectionTable<'a>,
    index: usize,
    target: usize,
    extent: EntryExtent,
}

impl<'a> Model for ElfRelocationSection<'a> {
    ghost Value = { SectionOf };

    ghost view = { λ s. record { file = s.table.bytes.now; index = s.index } };

    ghost invariant = { λ s.
        (s.target ≡ relocated_section record { file = s.table.bytes.now; index = s.index })
        × (s.extent ≡ extent_of record { file = s.table.bytes.now; index = s.index })
        × (0 < s.extent.count
        → s.extent.offset + s.extent.entry_size * s.extent.count
        ≤ length s.table.bytes.now) };
}

/// Returns the section with this index, which holds relocations against a symbol table.
#[tactic(auto, using(crate::proofs::Entries::not_bad, crate::proofs::Entries::entries_inside))]
fn relocation_section_at<'a>(symbols: &SymbolTable<'a>, index: usize) -> ElfRelocationSection<'a>
    requires from { 1 ≤ index }
    requires below { index < symbols.now.table.count }
    requires holds { holds_relocations symbols.now.table.bytes.now symbols.now.index index ≡ true }
    requires sound { first_of (relocation_faults symbols.now.table.bytes.now symbols.now.index)
        ≡ None }
    ensures file { result.file ≡ symbols.now.table.bytes.now }
    ensures index { result.index ≡ index }
{
    let header = symbols.table.header(index);
    let entry_size = relocation_size(header.sh_type);
    ElfRelocationSection {
        table: symbols.table,
        index,
        target: header.sh_info as usize,
        extent: EntryExtent {
            offset: header.sh_offset as usize,
            entry_size: entry_size as usize,
            count: (header.sh_size / entry_size) as usize,
        },
    }
}

impl<'a> ElfRelocationSection<'a> {
    /// Returns the index of the section of relocations itself, 1 or more.
    pub fn index(&self) -> SectionIndex
        ensures { result.0 ≡ self.now.index }
    {
        SectionIndex(self.index)
    }

    /// Returns the index of the section that the entries patch (sh_info).
    pub fn target(&self) -> usize
        ensures { result ≡ relocated_section self.now }
    {
        self.target
    }

    /// Returns the position of the entries in the file. Sections of a file with the same extent have the same entries.
    pub fn extent(&self) -> EntryExtent
        ensures offset { result.offset ≡ (header self.now).sh_offset }
        ensures entry_size { result.entry_size ≡ relocation_size (header self.now).sh_type }
        ensures count { result.count ≡ entry_count self.now }
    {
        self.extent
    }

    /// Returns the entry with this index, from 0 on.
    #[tactic(auto, using(crate::proofs::Entries::entry_inside), unfolding(crate::specs::Relocations::table_entry))]
    fn entry(&self, entry_index: usize) -> ElfRelocation
        requires { entry_index < entry_count self.now }
        ensures { result ≡ table_entry self.now entry_index }
    {
        let offset = self.extent.offset + self.extent.entry_size * entry_index;
        read_relocation(self.table.endianness, self.table.bytes, offset)
    }

    /// Returns the entries of this section, in order.
    #[tactic(auto, using(crate::proofs::Ranges::length_numbers))]
    pub fn relocations(&self) -> RelocationEntries<'a>
        ensures list { result ≡ table_entries self.now }
        ensures few { length result < 2 ^ 64 }
    {
        RelocationEntries {
            section: ElfRelocationSection { ..*self },
            next: 0,
        }
    }
}

/// An iterator over the entries of a section of relocations, in order. Contracts see the list of the entries left.
#[derive(Clone, Drop)]
pub struct RelocationEntries<'a> {
    section: ElfRelocationSection<'a>,
    next: usize,
}

impl<'a> Model for RelocationEntries<'a> {
    ghost Value = { List ElfRelocation };

    ghost view = { λ r. table_entries_from r.section r.next (entry_count r.section) };
}

impl<'a> Iterator for RelocationEntries<'a> {
    type Item = ElfRelocation;

    ghost next_gives = { YieldsFirst (λ s. s) };

    ghost remaining = { item_count (λ s. s) };

    #[tactic(auto, using(ebpf_base::proofs::Lists::range_more))]
    fn next(&mut self) -> Option<ElfRelocation> {
        if self.next >= self.section.extent.count {
            return None;
        }
        let entry_index = self.next;
        self.next += 1;
        Some(self.section.entry(entry_index))
    }
}

/// An iterator over the sections of relocations, in order of their indices. Contracts see the list of the sections left.
#[derive(Clone, Drop)]
pub struct RelocationSections<'a> {
    symbols: Option<SymbolTable<'a>>,
    next: usize,
}

impl<'a> Model for RelocationSections<'a> {
    ghost Value = { List SectionOf };

    ghost view = { λ s.
        unwrap_or
        (option_map
        (λ t. relocation_sections_from t.table.bytes.now t.index s.next t.table.count)
        s.symbols) [] };

    ghost invariant = { λ s.
        (1 ≤ s.next)
        × ForSome s.symbols (λ t.
        first_of (relocation_faults t.table.bytes.now t.index) ≡ None) };
}

impl<'a> RelocationSections<'a> {
    /// Returns the sections of relocations against the file's symbol table.
    pub(crate) fn new(layout: Layout<'a>) -> RelocationSections<'a>
        ensures { result ≡ relocation_sections layout.entry.table.bytes.now }
    {
        RelocationSections {
            symbols: layout.symbols,
            next: 1,
        }
    }
}

impl<'a> Iterator for RelocationSections<'a> {
    type Item = ElfRelocationSection<'a>;

    ghost next_gives = { YieldsFirst (λ s. s) };

    ghost remaining = { item_count (λ s. s) };

    fn next(&mut self) -> Option<ElfRelocationSection<'a>> {
        let symbols = self.symbols?;
        let Some(index) = symbols.next_relocation_section(self.next) else {
            self.symbols = None;
            return None;
        };
        self.next = index + 1;
        Some(relocation_section_at(&symbols, index))
    }
}

/// Returns the first relocation for a target, and the entries after it in its section of relocations.
fn first_relocation<'a>(
    sections: &mut RelocationSections<'a>,
    target: usize,
) -> Option<(ElfRelocation, RelocationEntries<'a>)>
    ensures none { IfNone result (entries_for target sections.old ≡ []) }
    ensures done { IfNone result (sections.new ≡ []) }
    ensures first { IfSome result (λ r.
        entries_for target sections.old ≡ r.0 ∷ (r.1 ++ entries_for target sections.new)) }
{
    while let Some(section) = sections.next() {
        if section.target() != target {
            continue;
        }
        let mut entries = section.relocations();
        if let Some(relocation) = entries.next() {
            return Some((relocation, entries));
        }
    }
    None
}

/// An iterator over the relocations of a section, in order. Contracts see the list of the relocations left.
#[derive(Clone, Drop)]
pub struct Relocations<'a> {
    target: usize,
    entries: Option<RelocationEntries<'a>>,
    sections: RelocationSections<'a>,
}

impl<'a> Model for Relocations<'a> {
    ghost Value = { List ElfRelocation };

    ghost view = { λ r. unwrap_or r.entries [] ++ entries_for r.target r.sections };
}

impl<'a> Relocations<'a> {
    /// Returns the entries in these sections whose target is the section `target`.
    pub(crate) fn new(sections: RelocationSections<'a>, target: usize) -> Relocations<'a>
        ensures { result ≡ entries_for target sections.entry }
    {
        Relocations {
            target,
            entries: None,
            sections,
        }
    }
}

impl<'a> Iterator for Relocations<'a> {
    type Item = ElfRelocation;

    ghost next_gives = { YieldsFirst (λ s. s) };

    ghost remaining = { item_count (λ s. s) };

    fn next(&mut self) -> Option<ElfRelocation> {
        if let Some(entries) = &mut self.entries
            && let Some(relocation) = entries.next()
        {
            return Some(relocation);
        }
        let (relocation, entries) = first_relocation(&mut self.sections, self.target)?;
        self.entries = Some(entries);
        Some(relocation)
    }
}
