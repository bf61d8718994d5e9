//! The tables of an object that the sections of its file fill.

ghost use Rattle.std.specs.FinMap as finite;
ghost use Rattle.std.specs.List.{flat_map};
ghost use Rattle.std.specs.Prelude.{◌≡◌, ◌==◌, ◌∷◌, [], ℕ, filter, map, IfOk, OnOk, IfErr, Some, None, true};
ghost use Rattle.ebpf_base.specs.Faults.{Refuses, or_else};
ghost use Rattle.ebpf_base.specs.Maps.{put_all};
ghost use Rattle.ebpf_btf_decls.specs.Maps.{types_in_mode};
ghost use Rattle.ebpf_elf.specs.Relocations.{relocation_sections, relocated_section, relocations, table_entries};
ghost use Rattle.ebpf_parts.specs.Memory.{is_parse_memory};
ghost use Rattle.ebpf_parts.specs.ProgramTypes.{section_as};
ghost use Rattle.ebpf_parts.specs.Sections.{section_of, section_fault};
ghost use Rattle.ebpf_parts.specs.declared.section.EbpfSectionKind.TheVariants.{Program as Programs};
ghost use Rattle.ebpf_parsing.specs.FileContents.{sections_fault};
ghost use Rattle.ebpf_parsing.specs.Maps.{legacy_maps};
ghost use Rattle.ebpf_parsing.specs.ObjectTables.{added_last, added, object_tables_of, object_tables_from};
ghost use Rattle.ebpf_parsing.specs.OfSection.{fault_in, functions_by, functions_fault, functions_in, program_section_faults, relocations_in};
ghost use Rattle.ebpf_sections.specs.Programs.{programs_of, with_key};
ghost use Rattle.ebpf_sections.specs.Relocations.{AreOfOneFile, relocation_table_at};
ghost use Rattle.ebpf_sections.specs.Sections.{group_at, AreTablesOf, last_data, object_sections, with_relocations};
ghost use Rattle.ebpf_sections.specs.Symbols.{file_symbols, section_symbols};

use crate::file_types::remember;
use crate::maps::{find_btf_defined_maps, put_btf_defined_maps, put_data_map, put_legacy_maps};
use ebpf_base::{ByKey, ByName, ByOffset, BySection, Text};
use ebpf_btf_decls::BtfDefinedMaps;
use ebpf_btf_ext::BtfExt;
use ebpf_elf::{ElfFile, ElfSection, SectionIndex};
use ebpf_model::{Function, Program};
use ebpf_parts::maps::Map;
use ebpf_parts::{EbpfSectionKind, ParseError, ProgramSection, Relocation, Section};
use ebpf_sections::metadata::FileMetadata;
use ebpf_sections::programs::{put_functions, put_programs};
use ebpf_sections::relocations::{RelocationTable, by_offset};
use ebpf_sections::section_records::{RecordsByName, SectionRecords};
use ebpf_sections::sections::{Groups, SectionNames, is_type_information, read_section};
use ebpf_sections::symbols::NamedSymbol;
use ebpf_sections::text::put_text_functions;
use std::alloc::Global;
use std::marker::Model;

/// The inputs for reading each section: the shared metadata, func info and line info, and the BTF-defined maps.
#[derive(Drop)]
pub struct SectionInputs<'s> {
    pub alloc: Global,
    pub metadata: &'s FileMetadata,
    pub records: RecordsByName<'s>,
    pub declared: Option<BtfDefinedMaps<'s>>,
    ghost infos: { records ≡ metadata.now.btf_ext },
    ghost declared_are: { declared ≡ types_in_mode metadata.now.mode metadata.now.btf },
}

impl<'s> Model for SectionInputs<'s> {
    ghost use Rattle.ebpf_sections.specs.contracts.metadata.FileMetadata as metadata_rows;
    ghost use Rattle.ebpf_sections.specs.declared.metadata.FileMetadata.{FileMetadata};
    ghost use Rattle.std.specs.Coded.{codes};

    ghost Value = { FileMetadata };

    ghost coded = { Prim.hlevel (codes, metadata_rows.the_row.coded) };

    ghost view = { λ c. c.metadata.now };
}

/// The tables of an object that the sections of its file fill.
#[derive(Drop)]
pub struct ObjectTables {
    pub maps: ByName<Map>,
    pub programs: ByName<Program>,
    pub functions: ByKey<Function>,
    pub relocations: BySection<ByOffset<Relocation>>,
    pub section_infos: ByName<SectionIndex>,
}

/// Puts the relocations of a section that has some.
#[tactic(auto, using(ebpf_sections::proofs::RelocationTables::none_kept, ebpf_sections::proofs::RelocationTables::some_kept))]
fn put_table(
    alloc: Global,
    relocations: &mut BySection<ByOffset<Relocation>>,
    section: usize,
    tables: &[RelocationTable<'_>],
) -> Result<(), ParseError>
    requires { AreOfOneFile tables.now }
    ensures put { OnOk result
        (relocations.new
        ≡ put_all relocations.old
        (relocation_table_at section (flat_map table_entries tables.now))) }
    ensures memory { IfErr result (λ e. is_parse_memory e ≡ true) }
{
    let kept = by_offset(alloc, tables)?;
    if kept.is_empty() {
        return Ok(());
    }
    relocations.insert(section as u64, kept)?;
    Ok(())
}

/// Puts the relocations of a section of code.
#[tactic(auto, unfolding(crate::specs::OfSection::relocations_in))]
fn put_relocations(
    alloc: Global,
    relocations: &mut BySection<ByOffset<Relocation>>,
    section: &Section<'_>,
    tables: &[RelocationTable<'_>],
) -> Result<(), ParseError>
    requires { AreOfOneFile tables.now }
    ensures put { OnOk result
        (relocations.new
        ≡ put_all relocations.old
        (relocations_in
        (with_relocations (flat_map table_entries tables.now) section.now))) }
    ensures memory { IfErr result (λ e. is_parse_memory e ≡ true) }
{
    match section.kind {
        EbpfSectionKind::Program | EbpfSectionKind::Text => {
            put_table(alloc, relocations, section.index.0, tables)
        }
        _ => Ok(()),
    }
}

/// Puts the functions of a section of code by section and address.
fn put_code(
    alloc: Global,
    functions: &mut ByKey<Function>,
    records: &SectionRecords<'_>,
    section: &Section<'_>,
    symbols: &[NamedSymbol<'_>],
) -> Result<(), ParseError>
    ensures put { OnOk result
        (functions.new
        ≡ put_all functions.old
        (map with_key
        (functions_by section.now.kind records.now section.now symbols.now))) }
    ensures fault { Refuses is_parse_memory result
        (functions_fault section.now.kind section.now symbols.now) }
{
    match section.kind {
        EbpfSectionKind::Program => put_functions(alloc, functions, records, section, symbols),
        EbpfSectionKind::Text => put_text_functions(alloc, functions, records, section, symbols),
        _ => Ok(()),
    }
}

impl ObjectTables {
    /// Empty tables, but for the names of the type information sections.
    fn new(alloc: Global, section_infos: ByName<SectionIndex>) -> ObjectTables
        ensures { result ≡ object_tables_from section_infos }
    {
        ObjectTables {
            maps: ByName::new(alloc),
            programs: ByName::new(alloc),
            functions: ByKey::new(alloc),
            relocations: BySection::new(alloc),
            section_infos,
        }
    }

    /// Adds the functions of a section of code.
    #[tactic(auto, unfolding(crate::specs::OfSection::functions_in))]
    fn add_functions(
        &mut self,
        inputs: &SectionInputs<'_>,
        section: &Section<'_>,
        symbols: &[NamedSymbol<'_>],
    ) -> Result<(), ParseError>
        ensures put { OnOk result
            (self.new
            ≡ record self.old {
              functions = put_all self.old.functions
                  (functions_in inputs.now.btf_ext section.now symbols.now);
            }) }
        ensures fault { Refuses is_parse_memory result
            (functions_fault section.now.kind section.now symbols.now) }
    {
        let alloc = inputs.alloc;
        if let Some(records) = inputs.records.of(section.name) {
            return put_code(alloc, &mut self.functions, records, section, symbols);
        }
        let records = inputs.records.found.section_records(alloc, section.name)?;
        put_code(alloc, &mut self.functions, &records, section, symbols)
    }

    /// Adds the programs of a Program section.
    #[tactic(auto, unfolding(crate::specs::OfSection::program_section_faults))]
    fn add_programs(
        &mut self,
        inputs: &SectionInputs<'_>,
        section: &Section<'_>,
        symbols: &[NamedSymbol<'_>],
    ) -> Result<(), ParseError>
        requires { section.now.kind ≡ Programs }
        ensures put { OnOk result
            (self.new
            ≡ record self.old {
              programs = put_all self.old.programs
                  (programs_of inputs.now.license inputs.now.kernel_version section.now
                  symbols.now (section_as inputs.now.mode section.now.name));
              functions = put_all self.old.functions
                  (functions_in inputs.now.btf_ext section.now symbols.now);
            }) }
        ensures fault { Refuses is_parse_memory result
            (program_section_faults inputs.now.mode section.now symbols.now) }
    {
        let alloc = inputs.alloc;
        let kind = ProgramSection::read(alloc, section.name, inputs.metadata.mode)?;
        if symbols.len() == 0 {
            return Err(ParseError::NoSymbolsForSection {
                section_name: Text::from_str(alloc, section.name)?,
            });
        }
        self.add_functions(inputs, section, symbols)?;
        put_programs(
            alloc,
            &mut self.programs,
            inputs.metadata,
            kind,
            section,
            symbols,
        )
    }

    /// Adds a section by its kind, but for its relocations and its name.
    #[tactic(auto, unfolding(crate::specs::ObjectTables::added, crate::specs::OfSection::fault_in, crate::specs::OfSection::maps_in, crate::specs::OfSection::programs_in, crate::specs::OfSection::functions_in))]
    fn add_kind(
        &mut self,
        inputs: &mut SectionInputs<'_>,
        last: &ByName<usize>,
        section: &Section<'_>,
        symbols: &[NamedSymbol<'_>],
    ) -> Result<(), ParseError>
        ensures inputs { inputs.new ≡ inputs.old }
        ensures others { OnOk result (self.new.relocations ≡ self.old.relocations) }
        ensures put { OnOk result
            (record self.new {
              relocations = put_all self.old.relocations (relocations_in section.now);
              section_infos = put_all self.new.section_infos
                  ((section.now.name, section.now.index) ∷ []);
            }
            ≡ added_last last.now inputs.old self.old section.now symbols.now) }
        ensures fault { Refuses is_parse_memory result
            (fault_in inputs.old.mode inputs.old.btf section.now symbols.now) }
    {
        let alloc = inputs.alloc;
        match section.kind {
            EbpfSectionKind::Program => self.add_programs(inputs, section, symbols),
            EbpfSectionKind::Data | EbpfSectionKind::Rodata | EbpfSectionKind::Bss => {
                put_data_map(alloc, &mut self.maps, last, section)
            }
            EbpfSectionKind::Maps => put_legacy_maps(alloc, &mut self.maps, section, symbols),
            EbpfSectionKind::BtfMaps => {
                put_btf_defined_maps(
                    alloc,
                    &mut self.maps,
                    &mut inputs.declared,
                    section,
                    symbols,
                )
            }
            EbpfSectionKind::Text => self.add_functions(inputs, section, symbols),
            _ => Ok(()),
        }
    }

    /// Adds a section of a file.
    #[tactic(auto, using(crate::proofs::Added::same_added, crate::proofs::Added::same_fault, crate::proofs::Added::section_patched, ebpf_sections::proofs::RelocationTables::of_one_file))]
    fn add_section(
        &mut self,
        inputs: &mut SectionInputs<'_>,
        last: &ByName<usize>,
        section: &ElfSection<'_>,
        tables: &[RelocationTable<'_>],
        symbols: &[NamedSymbol<'_>],
    ) -> Result<(), ParseError>
        requires { tables.now
            ≡ filter (λ r. relocated_section r == section.now.index)
            (relocation_sections section.now.file) }
        ensures inputs { inputs.new ≡ inputs.old }
        ensures put { OnOk result
            (self.new
            ≡ added_last last.now inputs.old self.old (section_of section.now) symbols.now) }
        ensures fault { Refuses is_parse_memory result
            (or_else (section_fault section.now)
            (fault_in inputs.old.mode inputs.old.btf (section_of section.now)
            symbols.now)) }
    {
        let alloc = inputs.alloc;
        let section = read_section(alloc, section, tables)?;
        self.add_kind(inputs, last, &section, symbols)?;
        put_relocations(alloc, &mut self.relocations, &section, tables)?;
        remember(alloc, &mut self.section_infos, &section)
    }
}

/// The inputs for reading each section.
fn section_inputs<'s>(
    alloc: Global,
    metadata: &'s FileMetadata,
    names: &SectionNames<'_>,
) -> Result<SectionInputs<'s>, ParseError>
    ensures inputs { IfOk result (λ inputs. inputs ≡ metadata.now) }
    ensures memory { IfErr result (λ e. is_parse_memory e ≡ true) }
{
    let records = RecordsByName::gather(alloc, &metadata.btf_ext, names.code.as_slice())?;
    let declared = find_btf_defined_maps(alloc, &metadata.btf, metadata.mode, names)?;
    Ok(SectionInputs {
        alloc,
        metadata,
        records,
        declared,
    })
}

/// The tables that the sections of a file fill, by the last data section of each name.
fn read_by_last(
    inputs: &mut SectionInputs<'_>,
    section_infos: ByName<SectionIndex>,
    file: &ElfFile<'_>,
    tables: &Groups<RelocationTable<'_>>,
    symbols: &Groups<NamedSymbol<'_>>,
    last: &ByName<usize>,
) -> Result<ObjectTables, ParseError>
    requires tables { AreTablesOf file.now tables.now.groups }
    requires grouped { (q : ℕ)
        → group_at symbols.now.groups q ≡ section_symbols (file_symbols file.now) q }
    requires last { last.now ≡ last_data (object_sections file.now) }
    ensures object_tables { IfOk result (λ p.
        p ≡ object_tables_of inputs.old section_infos file.now) }
    ensures fault { Refuses is_parse_memory result
        (sections_fault inputs.old.mode inputs.old.btf file.now) }
{
    let mut object_tables = ObjectTables::new(inputs.alloc, section_infos);
    for section in file.sections() {
        if is_type_information(&section) {
            continue;
        }
        let index = section.index().0;
        object_tables.add_section(inputs, last, &section, tables.of(index), symbols.of(index))?;
    }
    Ok(object_tables)
}

/// Reads the sections of a file into the tables of an object, each with its relocations and its symbols.
///
/// # Errors
///
/// The first fault of the sections in the order of their numbers. `OutOfMemory` is returned only if an allocation
/// fails.
pub fn read_sections(
    alloc: Global,
    metadata: &FileMetadata,
    section_infos: ByName<SectionIndex>,
    file: &ElfFile<'_>,
    tables: &Groups<RelocationTable<'_>>,
    symbols: &Groups<NamedSymbol<'_>>,
) -> Result<ObjectTables, ParseError>
    requires tables { AreTablesOf file.now tables.now.groups }
    requires grouped { (q : ℕ)
        → group_at symbols.now.groups q ≡ section_symbols (file_symbols file.now) q }
    ensures object_tables { IfOk result (λ p.
        p ≡ object_tables_of metadata.now section_infos file.now) }
    ensures fault { Refuses is_parse_memory result
        (sections_fault metadata.now.mode metadata.now.btf file.now) }
{
    let names = SectionNames::read(alloc, file)?;
    let mut inputs = section_inputs(alloc, metadata, &names)?;
    read_by_last(
        &mut inputs,
        section_infos,
        file,
        tables,
        symbols,
        &names.last_data,
    )
}
