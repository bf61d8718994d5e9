//! The sections of a file: the kind of each by its name, values by section, and whether one has code. Of the data sections
//! of one name only the last one gives a map. A section is read without its relocations, which only code sections keep.

ghost use Rattle.std.specs.List.{list_any};
ghost use Rattle.std.specs.Option.{option_copied};
ghost use Rattle.std.specs.Prelude.{◌≡◌, ◌∷◌, ◌++◌, [], ◌==◌, ℕ, OnOk, IfErr, true, if◌then◌else◌, IfOk, filter};
ghost use Rattle.ebpf_base.specs.Faults.{fault_of, Refuses};
ghost use Rattle.ebpf_base.specs.Maps.{put_all};
ghost use Rattle.ebpf_elf.specs.Relocations.{relocation_sections, relocated_section};
ghost use Rattle.ebpf_elf.specs.Sections.{sections};
ghost use Rattle.ebpf_parts.specs.Memory.{is_parse_memory};
ghost use Rattle.ebpf_parts.specs.Sections.{section_of, name_or_empty, section_with, section_fault};
ghost use Rattle.ebpf_sections.specs.Sections.{AreTablesOf, data_row, group_at, has_big_endian_code, has_code, is_for_ebpf, is_index, is_type_information, last_data, machine_fault_as, object_sections, order_fault_as};

use crate::relocations::{RelocationTable, check_targets};
use ebpf_base::ByName;
use ebpf_btf::Endianness;
use ebpf_elf::constants::{EM_BPF, EM_NONE, SHT_NOBITS};
use ebpf_elf::{ElfFile, ElfSection};
use ebpf_parts::{EbpfSectionKind, ParseError, ParseMode, Section};
use std::alloc::Global;
use std::collections::BTreeMap;

/// Values by the index of a section, the values of one section in the order of their arrival.
#[derive(Drop)]
pub struct Groups<T> {
    pub groups: BTreeMap<usize, Vec<T>>,
    pub none: Vec<T>,
    ghost empty: { none.items ≡ [] },
}

impl<T: Drop> Groups<T> {
    /// Returns groups without values. Allocates nothing.
    pub fn new(alloc: Global) -> Groups<T>
        ensures { (q : ℕ) → group_at result.groups q ≡ [] }
    {
        Groups {
            groups: BTreeMap::new(alloc),
            none: Vec::new(alloc),
        }
    }

    /// Adds a value behind the values of its section.
    ///
    /// # Errors
    ///
    /// - `OutOfMemory`: an allocation fails.
    pub fn add(&mut self, alloc: Global, section: usize, value: T) -> Result<(), ParseError>
        ensures added { OnOk result
            ((q : ℕ)
            → group_at self.new.groups q
            ≡ (if section == q
            then group_at self.old.groups q ++ value ∷ []
            else group_at self.old.groups q)) }
        ensures memory { IfErr result (λ e. is_parse_memory e ≡ true) }
    {
        match self.groups.get_mut(&section) {
            Some(group) => {
                group.push(value)?;
            }
            None => {
                let mut group = Vec::new(alloc);
                group.push(value)?;
                self.groups.insert(section, group)?;
            }
        }
        Ok(())
    }

    /// Returns the values of a section.
    pub fn of(&self, section: usize) -> &[T]
        ensures { result.now ≡ group_at self.now.groups section }
    {
        let Some(group) = self.groups.get(&section) else {
            return self.none.as_slice();
        };
        group.as_slice()
    }
}

/// Returns the name of a section, empty if it can't be read.
pub fn name_or_empty<'a>(section: &ElfSection<'a>) -> &'a str
    ensures { result.now ≡ name_or_empty section.now }
{
    match section.name() {
        Ok(name) => name,
        Err(_) => "",
    }
}

/// Whether a section holds type information, which is read by name and not with the others.
pub fn is_type_information(section: &ElfSection<'_>) -> bool
    ensures { result ≡ is_type_information section.now }
{
    section.has_name(".BTF") || section.has_name(".BTF.ext")
}

/// The names of a file's sections, by kind. Each name is read once, since it may be as long as the file.
#[derive(Drop)]
pub struct SectionNames<'a> {
    /// The names of the sections of code.
    pub code: Vec<&'a str>,
    /// The names of the sections of BTF-defined maps.
    pub maps: Vec<&'a str>,
    /// The index of the last data section of each name, the only one whose map is made.
    pub last_data: ByName<usize>,
}

impl<'a> SectionNames<'a> {
    /// Adds the name of a section to the names of its kind.
    #[tactic(auto, unfolding(ebpf_parts::specs::Sections::section_of, ebpf_parts::specs::Sections::section_with))]
    fn add(&mut self, alloc: Global, section: &ElfSection<'a>) -> Result<(), ParseError>
        ensures last { OnOk result
            (self.new.last_data
            ≡ put_all self.old.last_data (data_row (section_of section.now))) }
        ensures memory { IfErr result (λ e. is_parse_memory e ≡ true) }
    {
        let name = name_or_empty(section);
        match EbpfSectionKind::from_elf(name, section) {
            EbpfSectionKind::Program | EbpfSectionKind::Text => {
                self.code.push(name)?;
                Ok(())
            }
            EbpfSectionKind::BtfMaps => {
                self.maps.push(name)?;
                Ok(())
            }
            EbpfSectionKind::Data | EbpfSectionKind::Rodata | EbpfSectionKind::Bss => {
                self.last_data
                    .insert(String::from_str(alloc, name)?, section.index().0)?;
                Ok(())
            }
            _ => Ok(()),
        }
    }

    /// Reads the names of all sections but those of type information.
    ///
    /// # Errors
    ///
    /// - `OutOfMemory`: an allocation fails.
    pub fn read(alloc: Global, file: &ElfFile<'a>) -> Result<SectionNames<'a>, ParseError>
        ensures last { IfOk result (λ names.
            names.last_data ≡ last_data (object_sections file.now)) }
        ensures memory { IfErr result (λ e. is_parse_memory e ≡ true) }
    {
        let mut names = SectionNames {
            code: Vec::new(alloc),
            maps: Vec::new(alloc),
            last_data: ByName::new(alloc),
        };
        for section in file.sections() {
            if is_type_information(&section) {
                continue;
            }
            names.add(alloc, &section)?;
        }
        Ok(names)
    }
}

/// Whether a file is for eBPF, or for no machine.
#[tactic(auto, unfolding(crate::specs::Sections::is_for_ebpf))]
fn is_for_ebpf(file: &ElfFile<'_>) -> bool
    ensures { result ≡ is_for_ebpf file.now }
{
    let machine = file.machine();
    machine == EM_BPF || machine == EM_NONE
}

/// Refuses a file for another machine than eBPF in lenient parsing, as libbpf does.
///
/// # Errors
///
/// - `OtherMachine`: the mode is `Lenient`, and `e_machine` is neither EM_BPF nor EM_NONE (ELF-64 gABI, 'ELF Header').
pub fn check_machine(file: &ElfFile<'_>, mode: ParseMode) -> Result<(), ParseError>
    ensures { fault_of result ≡ machine_fault_as mode file.now }
{
    match mode {
        ParseMode::Lenient if !is_for_ebpf(file) => Err(ParseError::OtherMachine {
            machine: file.machine(),
        }),
        _ => Ok(()),
    }
}

/// Whether a section has code.
fn has_code(section: &ElfSection<'_>) -> bool
    ensures { result ≡ has_code section.now }
{
    let kind = EbpfSectionKind::from_elf(name_or_empty(section), section);
    matches!(kind, EbpfSectionKind::Text | EbpfSectionKind::Program)
        && section.kind_number() != SHT_NOBITS
        && section.size() != 0
}

/// Whether a section of a file has code.
fn has_any_code(file: &ElfFile<'_>) -> bool
    ensures { result ≡ list_any has_code (sections file.now) }
{
    for section in file.sections() {
        if has_code(&section) {
            return true;
        }
    }
    false
}

/// Whether a file has code in the big-endian order.
#[tactic(auto, unfolding(crate::specs::Sections::has_big_endian_code))]
fn has_big_endian_code(file: &ElfFile<'_>) -> bool
    ensures { result ≡ has_big_endian_code file.now }
{
    matches!(file.endianness(), Endianness::Big) && has_any_code(file)
}

/// Refuses a big-endian file with code in lenient parsing, as libbpf does: its slots would be wrong.
///
/// # Errors
///
/// - `BigEndianCode`: the mode is `Lenient`, the file is big-endian (EI_DATA; ELF-64 gABI, 'ELF Header'), and a Text or
///   Program section has bytes.
pub fn check_order(file: &ElfFile<'_>, mode: ParseMode) -> Result<(), ParseError>
    ensures { fault_of result ≡ order_fault_as mode file.now }
{
    match mode {
        ParseMode::Lenient if has_big_endian_code(file) => Err(ParseError::BigEndianCode),
        _ => Ok(()),
    }
}

/// Whether a number is the stated one, or none is stated.
pub fn is_index(number: usize, stated: Option<&usize>) -> bool
    ensures { result ≡ is_index number (option_copied stated.entry) }
{
    match stated {
        Some(other) => number == *other,
        None => true,
    }
}

/// Reads a section of a file, and checks its relocation sections.
///
/// # Errors
///
/// - `SectionError`: its name or its data can't be read.
/// - `UnsupportedRelocationTarget`: a relocation names symbol 0.
/// - `OutOfMemory`: an allocation fails.
#[tactic(auto, using(crate::proofs::ReadSections::fault_of_targets), unfolding(ebpf_parts::specs::Sections::section_fault, ebpf_parts::specs::Sections::section_fault_with))]
pub fn read_section<'a>(
    alloc: Global,
    section: &ElfSection<'a>,
    tables: &[RelocationTable<'_>],
) -> Result<Section<'a>, ParseError>
    requires { tables.now
        ≡ filter (λ r. relocated_section r == section.now.index)
        (relocation_sections section.now.file) }
    ensures section { IfOk result (λ s. s ≡ section_with [] section.now) }
    ensures fault { Refuses is_parse_memory result (section_fault section.now) }
{
    let read = Section::without_relocations(alloc, section)?;
    check_targets(tables)?;
    Ok(read)
}

/// Reads a section of a file, and checks its relocation sections among those of the file.
///
/// # Errors
///
/// - `SectionError`, `UnsupportedRelocationTarget`: as in `read_section`.
/// - `OutOfMemory`: an allocation fails.
#[tactic(auto, using(crate::proofs::NamedSymbols::tables_of_section))]
pub fn read_section_of<'a>(
    alloc: Global,
    file: &ElfFile<'a>,
    tables: &Groups<RelocationTable<'_>>,
    section: &ElfSection<'a>,
) -> Result<Section<'a>, ParseError>
    requires tables { AreTablesOf file.now tables.now.groups }
    requires own { section.now.file ≡ file.now }
    ensures section { IfOk result (λ s. s ≡ section_with [] section.now) }
    ensures fault { Refuses is_parse_memory result (section_fault section.now) }
{
    read_section(alloc, section, tables.of(section.index().0))
}
