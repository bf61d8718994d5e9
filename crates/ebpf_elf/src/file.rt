//! An ELF64 file and its parts.

ghost use Rattle.std.specs.Prelude.{◌≡◌, ◌<◌, ◌==◌, ◌^◌, length, List, ℕ, None, Some, IfOk, OnOk, IfErr, option_map};
ghost use Rattle.std.specs.List.{find};
ghost use Rattle.std.specs.Option.{ForSome};
ghost use Rattle.ebpf_base.specs.Faults.{IsFirstFault, IsClear, rows_of, first_of, first_in, fault_of};
ghost use Rattle.ebpf_elf.specs.Faults.{faults, names_faults, symbol_table_faults, relocation_faults};
ghost use Rattle.ebpf_elf.specs.Headers.{e_machine, ei_data};
ghost use Rattle.ebpf_elf.specs.declared.constants.TheConstants.{EM_BPF};
ghost use Rattle.ebpf_elf.specs.Names.{section_names, is_name};
ghost use Rattle.ebpf_elf.specs.Relocations.{relocation_sections};
ghost use Rattle.ebpf_elf.specs.Sections.{sections, section_name};
ghost use Rattle.ebpf_elf.specs.Symbols.{symbol_table_section, symbols};

use crate::constants::EM_BPF;
use crate::error::ElfReadError;
use crate::header::{SectionTable, identify, section_table};
use crate::relocation::RelocationSections;
use crate::section::{ElfSection, Sections, first_named, first_with_index};
use crate::symbol::{SymbolTable, Symbols, find_symbol_table, open_symbol_table};
use ebpf_base::Endianness;
use ebpf_base::numbers::read_u16;
use std::marker::Model;

/// Returns the string table of the section names.
#[tactic(auto, unfolding(crate::specs::Faults::names_faults, crate::specs::Names::section_names, crate::specs::Headers::e_shstrndx))]
fn names_of<'a>(table: &SectionTable<'a>) -> Result<&'a [u8], ElfReadError>
    requires { 0 < table.now.count }
    ensures fault { fault_of result ≡ first_of (names_faults table.now.bytes.now) }
    ensures names { IfOk result (λ names. names.now ≡ section_names table.now.bytes.now) }
{
    let index = read_u16(table.endianness, table.bytes, 62) as usize;
    if index == 0 {
        return Ok(&[]);
    }
    table
        .string_table(index)
        .ok_or(ElfReadError::BadStringTable)
}

/// Returns the symbol table in the section `index`, after it checked the symbols and relocations.
fn sound_symbols<'a>(table: SectionTable<'a>, index: usize) -> Result<SymbolTable<'a>, ElfReadError>
    requires { index < table.count }
    ensures fault { fault_of result
        ≡ first_in (symbol_table_faults table.entry.bytes.now (Some index)) }
    ensures table { IfOk result (λ s. s.table ≡ table.entry) }
    ensures index { IfOk result (λ s. s.index ≡ index) }
    ensures relocations { IfOk result (λ s.
        first_of (relocation_faults s.table.bytes.now s.index) ≡ None) }
{
    let symbols = open_symbol_table(table, index)?;
    symbols.check_section_indices()?;
    symbols.check_relocations()?;
    Ok(symbols)
}

/// The positions of the parts of a file without faults.
#[derive(Clone, Copy)]
pub struct Layout<'a> {
    /// The section header table.
    pub table: SectionTable<'a>,
    /// The string table of the section names; empty where there is none.
    pub names: &'a [u8],
    /// The symbol table; none where the file has none.
    pub symbols: Option<SymbolTable<'a>>,
    ghost strings: { 0 < table.count → names.now ≡ section_names table.bytes.now },
    ghost symtab: { symbol_table_section table.bytes.now ≡ option_map (λ s. s.index) symbols },
    ghost relocations: { ForSome symbols (λ s.
        first_of (relocation_faults s.table.bytes.now s.index) ≡ None) },
    ghost same: { ForSome symbols (λ s. s.table.bytes.now ≡ table.bytes.now) },
}

/// Returns the positions of the parts of a file.
#[tactic(auto, unfolding(crate::specs::Faults::faults, crate::specs::Symbols::symbol_table_section))]
pub fn layout_of<'a>(bytes: &'a [u8]) -> Result<Layout<'a>, ElfReadError>
    ensures fault { fault_of result ≡ first_in (faults bytes.now) }
    ensures bytes { IfOk result (λ l. l.table.bytes.now ≡ bytes.now) }
{
    let endianness = identify(bytes)?;
    let table = section_table(endianness, bytes)?;
    if table.start == 0 {
        return Ok(Layout {
            table,
            names: &[],
            symbols: None,
        });
    }
    let names = names_of(&table)?;
    let symbols = match find_symbol_table(&table) {
        None => None,
        Some(index) => Some(sound_symbols(table, index)?),
    };
    Ok(Layout {
        table,
        names,
        symbols,
    })
}

/// An ELF64 file that `parse` has checked. Contracts see the file's bytes.
#[derive(Clone, Drop)]
pub struct ElfFile<'a> {
    layout: Layout<'a>,
}

impl<'a> Model for ElfFile<'a> {
    ghost Value = { List ℕ };

    ghost view = { λ f. f.layout.table.bytes.now };
}

impl<'a> ElfFile<'a> {
    /// Reads an ELF64 file of any machine (ELF-64 gABI, 'ELF Header').
    ///
    /// A file whose section header offset (e_shoff) is 0 has no sections and no symbols; only its identification is
    /// checked. Type, machine and version of the file, section 0 and symbol 0 are not checked.
    ///
    /// # Errors
    ///
    /// The faults are looked for in this order, and the first one is the error:
    ///
    /// - `TooShort`: the input has fewer than 64 bytes.
    /// - `BadMagic`: the first four bytes are not `7f 45 4c 46`.
    /// - `NotElf64`: the class is not ELFCLASS64.
    /// - `BadByteOrder`: the data encoding is neither little-endian nor big-endian.
    /// - `ExtendedNumbering`: e_shnum is 0, or e_shstrndx is SHN_XINDEX.
    /// - `BadSectionTable`: e_shentsize is not 64, or the section header table runs past the end of the file.
    /// - `BadStringTable`: e_shstrndx is not 0, and its section has another type than STRTAB or runs past the end of the
    ///   file.
    /// - `BadSymbolTable`: the size of the first section of type SYMTAB is no multiple of 24, or the section runs past the
    ///   end of the file.
    /// - `BadStringTable`: the link of the symbol table is no string table inside the file.
    /// - `ExtendedNumbering`: the section index of a symbol is SHN_XINDEX.
    /// - `BadRelocationTable`: a section of relocations against the symbol table, whose info is not 0, has a target that
    ///   does not exist, a size that is no multiple of its entries, or runs past the end of the file.
    #[tactic(auto, using(ebpf_base::proofs::Faults::clear_rows, ebpf_base::proofs::Faults::first_row))]
    pub fn parse(bytes: &'a [u8]) -> Result<ElfFile<'a>, ElfReadError>
        ensures fault { fault_of result ≡ first_in (faults bytes.now) }
        ensures file { IfOk result (λ file. file ≡ bytes.now) }
        ensures clear { OnOk result (IsClear (rows_of (faults bytes.now))) }
        ensures first { IfErr result (λ e. IsFirstFault (rows_of (faults bytes.now)) e) }
    {
        let layout = layout_of(bytes)?;
        Ok(ElfFile { layout })
    }

    /// Returns the byte order of the file's numbers (EI_DATA).
    pub fn endianness(&self) -> Endianness
        ensures { result ≡ ei_data self.now }
    {
        self.layout.table.endianness
    }

    /// Returns the number of the file's machine (e_machine); 247 for eBPF.
    #[tactic(auto, unfolding(crate::specs::Headers::e_machine))]
    pub fn machine(&self) -> u16
        ensures { result ≡ e_machine self.now }
    {
        read_u16(self.layout.table.endianness, self.layout.table.bytes, 18)
    }

    /// Returns whether the file's machine is eBPF (EM_BPF). `parse` accepts files of any machine.
    pub fn is_bpf(&self) -> bool
        ensures { result ≡ (e_machine self.now == EM_BPF) }
    {
        self.machine() == EM_BPF
    }

    /// Returns the sections from index 1 on, in order of their indices.
    #[tactic(auto, using(crate::proofs::Ranges::length_numbers))]
    pub fn sections(&self) -> Sections<'a>
        ensures list { result ≡ sections self.now }
        ensures few { length result < 2 ^ 64 }
    {
        Sections::new(self.layout)
    }

    /// Returns the first section with this name. Sections whose names cannot be read are skipped.
    pub fn section_by_name(&self, name: &str) -> Option<ElfSection<'a>>
        ensures { result ≡ find (λ s. is_name name.now (section_name s)) (sections self.now) }
    {
        first_named(self.sections(), name)
    }

    /// Returns the section with this index; none where the index is 0 or past the last section.
    pub fn section_at(&self, index: usize) -> Option<ElfSection<'a>>
        ensures { result ≡ find (λ s. s.index == index) (sections self.now) }
    {
        first_with_index(self.sections(), index)
    }

    /// Returns the symbols from index 1 on, in order of their indices; none without a symbol table.
    #[tactic(auto, using(crate::proofs::Ranges::length_numbers))]
    pub fn symbols(&self) -> Symbols<'a>
        ensures list { result ≡ symbols self.now }
        ensures few { length result < 2 ^ 64 }
    {
        Symbols::new(self.layout)
    }

    /// Returns the sections of relocations against the symbol table, in order of their indices.
    #[tactic(auto, using(crate::proofs::Ranges::length_filtered))]
    pub fn relocation_sections(&self) -> RelocationSections<'a>
        ensures list { result ≡ relocation_sections self.now }
        ensures few { length result < 2 ^ 64 }
    {
        RelocationSections::new(self.layout)
    }
}
