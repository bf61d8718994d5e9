//! The type information of a file, its info entries and CO-RE relocations, and its externs.

ghost use Rattle.std.specs.Prelude.{◌≡◌, IfOk, OnOk, IfErr, true, Some, option_map, None};
ghost use Rattle.std.specs.Result.{result_ok};
ghost use Rattle.ebpf_base.specs.Faults.{Refuses, fault_of};
ghost use Rattle.ebpf_base.specs.Maps.{put_all};
ghost use Rattle.ebpf_btf.specs.Reading.{type_info_of};
ghost use Rattle.ebpf_btf_decls.specs.Externs.{extern_types};
ghost use Rattle.ebpf_elf.specs.Headers.{ei_data};
ghost use Rattle.ebpf_btf_ext.specs.ExtReading.{read_ext};
ghost use Rattle.ebpf_parts.specs.Memory.{is_parse_memory};
ghost use Rattle.ebpf_parts.specs.declared.error.ParseError.TheVariants.{BtfError as TypeFault};
ghost use Rattle.ebpf_parsing.specs.FileTypes.{btf_of, btf_fault, ext_of, ext_fault, ext_beside, ext_fault_beside, ext_names_beside, ext_in, ext_fault_in, ext_section, names_in, reads_type_matches, type_names, type_info_names, file_types_fault, externs_beside, externs_fault_beside};
ghost use Rattle.ebpf_sections.specs.Sections.{AreTablesOf, section_info_entry};
ghost use Rattle.ebpf_sections.specs.Symbols.{file_symbols, symbols_fault};

use ebpf_base::ByName;
use ebpf_btf::{Btf, Endianness};
use ebpf_btf_decls::{collect_externs, may_declare_externs, parse_error};
use ebpf_btf_ext::BtfExt;
use ebpf_elf::{ElfFile, SectionIndex};
use ebpf_model::ExternDesc;
use ebpf_parts::{ParseError, ParseMode, Section};
use ebpf_sections::relocations::RelocationTable;
use ebpf_sections::sections::{Groups, read_section_of};
use ebpf_sections::symbols::weak_by_name;
use std::alloc::Global;

/// The types in the bytes of `.BTF`.
#[tactic(auto, using(crate::proofs::TypeErrors::refused))]
fn btf_in(alloc: Global, order: Endianness, bytes: &[u8]) -> Result<Btf, ParseError>
    ensures types { IfOk result (λ types. result_ok (type_info_of order bytes.now) ≡ Some types) }
    ensures fault { Refuses is_parse_memory result
        (option_map TypeFault (fault_of (type_info_of order bytes.now))) }
{
    match Btf::parse(alloc, bytes, order) {
        Ok(types) => Ok(types),
        Err(error) => Err(parse_error(error)),
    }
}

/// Whether CO-RE relocations of kind 12 (type matches) are read.
#[tactic(auto, unfolding(crate::specs::FileTypes::reads_type_matches))]
pub fn reads_type_matches(mode: ParseMode) -> bool
    ensures { result ≡ reads_type_matches mode }
{
    match mode {
        ParseMode::Strict => false,
        ParseMode::Lenient => true,
    }
}

/// The info entries and CO-RE relocations in the bytes of `.BTF.ext`.
#[tactic(auto, using(crate::proofs::TypeErrors::refused, crate::proofs::KnownKinds::read_with_matches))]
fn ext_in(
    alloc: Global,
    mode: ParseMode,
    order: Endianness,
    bytes: &[u8],
    types: &Btf,
) -> Result<BtfExt, ParseError>
    ensures infos { IfOk result (λ infos.
        result_ok (read_ext true order bytes.now types.now.strings) ≡ Some infos) }
    ensures fault { Refuses is_parse_memory result
        (option_map TypeFault
        (fault_of (read_ext (reads_type_matches mode) order bytes.now types.now.strings))) }
{
    match BtfExt::parse_as(alloc, bytes, order, types, reads_type_matches(mode)) {
        Ok(infos) => Ok(infos),
        Err(error) => Err(parse_error(error)),
    }
}

/// Puts the index of a section by its name.
///
/// # Errors
///
/// - `OutOfMemory`: an allocation fails.
pub fn remember(
    alloc: Global,
    section_infos: &mut ByName<SectionIndex>,
    section: &Section<'_>,
) -> Result<(), ParseError>
    ensures put { OnOk result
        (section_infos.new ≡ put_all section_infos.old (section_info_entry section.now)) }
    ensures memory { IfErr result (λ e. is_parse_memory e ≡ true) }
{
    section_infos.insert(String::from_str(alloc, section.name)?, section.index)?;
    Ok(())
}

/// The types of a file, where it has a section `.BTF`, whose name is remembered.
#[tactic(auto, using(ebpf_sections::proofs::RelocationTables::found_from), unfolding(ebpf_parts::specs::Sections::section_of, ebpf_parts::specs::Sections::section_with, crate::specs::FileTypes::btf_of, crate::specs::FileTypes::btf_fault, crate::specs::FileTypes::type_names))]
fn read_types(
    alloc: Global,
    file: &ElfFile<'_>,
    tables: &Groups<RelocationTable<'_>>,
    section_infos: &mut ByName<SectionIndex>,
) -> Result<Option<Btf>, ParseError>
    requires tables { AreTablesOf file.now tables.now.groups }
    ensures types { IfOk result (λ types. types ≡ btf_of file.now) }
    ensures names { OnOk result
        (section_infos.new ≡ put_all section_infos.old (type_names file.now)) }
    ensures fault { Refuses is_parse_memory result (btf_fault file.now) }
{
    let Some(section) = file.section_by_name(".BTF") else {
        return Ok(None);
    };
    let section = read_section_of(alloc, file, tables, &section)?;
    let types = btf_in(alloc, file.endianness(), section.bytes)?;
    remember(alloc, section_infos, &section)?;
    Ok(Some(types))
}

/// What a file says of instructions, where it has a section `.BTF.ext`, whose name is remembered.
#[tactic(auto, using(ebpf_sections::proofs::RelocationTables::found_from), unfolding(ebpf_parts::specs::Sections::section_of, ebpf_parts::specs::Sections::section_with))]
fn read_ext_section(
    alloc: Global,
    mode: ParseMode,
    file: &ElfFile<'_>,
    tables: &Groups<RelocationTable<'_>>,
    types: &Btf,
    section_infos: &mut ByName<SectionIndex>,
) -> Result<Option<BtfExt>, ParseError>
    requires tables { AreTablesOf file.now tables.now.groups }
    ensures infos { IfOk result (λ infos.
        infos ≡ ext_in (ei_data file.now) types.now (ext_section file.now)) }
    ensures names { OnOk result
        (section_infos.new ≡ put_all section_infos.old (names_in (ext_section file.now))) }
    ensures fault { Refuses is_parse_memory result
        (ext_fault_in mode (ei_data file.now) types.now (ext_section file.now)) }
{
    let Some(section) = file.section_by_name(".BTF.ext") else {
        return Ok(None);
    };
    let section = read_section_of(alloc, file, tables, &section)?;
    let infos = ext_in(alloc, mode, file.endianness(), section.bytes, types)?;
    remember(alloc, section_infos, &section)?;
    Ok(Some(infos))
}

/// What a file's section `.BTF.ext` says of instructions, where the file has types.
fn read_ext_beside(
    alloc: Global,
    mode: ParseMode,
    file: &ElfFile<'_>,
    tables: &Groups<RelocationTable<'_>>,
    types: &Option<Btf>,
    section_infos: &mut ByName<SectionIndex>,
) -> Result<Option<BtfExt>, ParseError>
    requires tables { AreTablesOf file.now tables.now.groups }
    ensures infos { IfOk result (λ infos. infos ≡ ext_beside file.now types.now) }
    ensures names { OnOk result
        (section_infos.new ≡ put_all section_infos.old (ext_names_beside file.now types.now)) }
    ensures fault { Refuses is_parse_memory result (ext_fault_beside mode file.now types.now) }
{
    let Some(types) = types else {
        return Ok(None);
    };
    read_ext_section(alloc, mode, file, tables, types, section_infos)
}

/// The types of a file, its info entries and CO-RE relocations, and the names of their sections.
#[derive(Drop)]
pub struct FileTypes {
    pub btf: Option<Btf>,
    pub btf_ext: Option<BtfExt>,
    pub section_infos: ByName<SectionIndex>,
}

impl FileTypes {
    /// Reads the sections `.BTF` and `.BTF.ext` of a file; CO-RE relocations of kind 12 (type matches) in lenient parsing.
    ///
    /// # Errors
    ///
    /// - `SectionError`, `UnsupportedRelocationTarget`: the section can't be read.
    /// - `BtfError`: the types, the info entries or the CO-RE relocations can't be read.
    /// - `OutOfMemory`: an allocation fails.
    #[tactic(auto, unfolding(crate::specs::FileTypes::ext_of, crate::specs::FileTypes::ext_fault, crate::specs::FileTypes::ext_names, crate::specs::FileTypes::type_info_names, crate::specs::FileTypes::file_types_fault))]
    pub fn read(
        alloc: Global,
        file: &ElfFile<'_>,
        tables: &Groups<RelocationTable<'_>>,
        mode: ParseMode,
    ) -> Result<FileTypes, ParseError>
        requires tables { AreTablesOf file.now tables.now.groups }
        ensures btf { IfOk result (λ types. types.btf ≡ btf_of file.now) }
        ensures btf_ext { IfOk result (λ types. types.btf_ext ≡ ext_of file.now) }
        ensures section_infos { IfOk result (λ types.
            types.section_infos ≡ type_info_names file.now) }
        ensures fault { Refuses is_parse_memory result (file_types_fault mode file.now) }
    {
        let mut section_infos = ByName::new(alloc);
        let btf = read_types(alloc, file, tables, &mut section_infos)?;
        let btf_ext = read_ext_beside(alloc, mode, file, tables, &btf, &mut section_infos)?;
        Ok(FileTypes {
            btf,
            btf_ext,
            section_infos,
        })
    }
}

/// Types with those that externs add, and the externs by name.
#[derive(Drop)]
pub struct FileExterns {
    pub btf: Option<Btf>,
    pub externs: ByName<ExternDesc>,
}

impl FileExterns {
    /// Reads the externs of a file, whose symbols have names, with its types.
    ///
    /// # Errors
    ///
    /// - `BtfError`: as in `collect_externs`.
    /// - `OutOfMemory`: an allocation fails.
    #[tactic(auto, using(crate::proofs::TypeErrors::infos), unfolding(ebpf_btf_decls::specs::Externs::types_with, ebpf_btf_decls::specs::Externs::types_fault))]
    pub fn read(
        alloc: Global,
        file: &ElfFile<'_>,
        types: Option<Btf>,
    ) -> Result<FileExterns, ParseError>
        requires names { symbols_fault file.now ≡ None }
        ensures types { IfOk result (λ found. found.btf ≡ option_map extern_types types) }
        ensures externs { IfOk result (λ found.
            found.externs ≡ externs_beside (file_symbols file.now) types) }
        ensures fault { Refuses is_parse_memory result
            (externs_fault_beside (file_symbols file.now) types) }
    {
        let Some(mut btf) = types else {
            return Ok(FileExterns {
                btf: None,
                externs: ByName::new(alloc),
            });
        };
        if !may_declare_externs(&btf) {
            return Ok(FileExterns {
                btf: Some(btf),
                externs: ByName::new(alloc),
            });
        }
        let weak = weak_by_name(alloc, file)?;
        match collect_externs(alloc, &mut btf, &weak) {
            Ok(externs) => Ok(FileExterns {
                btf: Some(btf),
                externs,
            }),
            Err(error) => Err(parse_error(error)),
        }
    }
}
