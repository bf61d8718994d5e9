//! The contents of a file.

ghost use Rattle.std.specs.Prelude.{◌≡◌, ℕ, IfOk, None, OnOk};
ghost use Rattle.ebpf_base.specs.Faults.{Refuses, or_else};
ghost use Rattle.ebpf_base.specs.Maps.{lent_bytes};
ghost use Rattle.ebpf_parts.specs.Memory.{is_parse_memory};
ghost use Rattle.ebpf_parts.specs.declared.parse_mode.ParseMode.{ParseMode};
ghost use Rattle.ebpf_parsing.specs.FileContents.{contents_as, metadata_as, parse_fault_as, sections_fault};
ghost use Rattle.ebpf_parsing.specs.FileTypes.{externs_of, file_externs_fault, types_of_file, file_types_fault, type_info_names};
ghost use Rattle.ebpf_parsing.specs.ObjectTables.{object_tables_of};
ghost use Rattle.ebpf_sections.specs.LicenseAndVersion.{kernel_version_of, license_as, license_fault_as, version_fault};
ghost use Rattle.ebpf_sections.specs.Sections.{AreTablesOf, group_at};
ghost use Rattle.ebpf_sections.specs.Symbols.{file_symbols, symbol_table, symbols_fault, names_of, section_symbols};

use crate::file_types::{FileExterns, FileTypes};
use crate::object_tables::{ObjectTables, read_sections};
use ebpf_base::{ByIndex, ByName, Items};
use ebpf_btf::{Btf, Endianness};
use ebpf_btf_ext::BtfExt;
use ebpf_elf::{ElfFile, SectionIndex};
use ebpf_model::{ExternDesc, Symbol};
use ebpf_parts::{ParseError, ParseMode};
use ebpf_sections::license::{read_license, read_version};
use ebpf_sections::metadata::FileMetadata;
use ebpf_sections::relocations::{RelocationTable, read_relocation_sections};
use ebpf_sections::sections::{Groups, check_machine, check_order};
use ebpf_sections::symbols::{FileSymbols, object_symbols, read_symbols};
use std::alloc::Global;

/// The contents of an ELF file with eBPF programs.
#[derive(Drop)]
pub struct FileContents {
    /// The byte order of the file's numbers.
    pub endianness: Endianness,
    /// The properties of the object that its programs and functions share.
    pub metadata: FileMetadata,
    /// The externs by name.
    pub externs: ByName<ExternDesc>,
    /// The symbols by their index.
    pub symbol_table: ByIndex<Symbol>,
    /// The tables that the sections fill.
    pub object_tables: ObjectTables,
}

/// The part of a file that is read before its sections: its metadata, its externs, and the indices of its type information
/// sections by name.
#[derive(Drop)]
struct FileHead {
    metadata: FileMetadata,
    externs: ByName<ExternDesc>,
    section_infos: ByName<SectionIndex>,
}

/// The types and the externs of a file whose symbols have names, beside its license and its version.
#[tactic(auto, unfolding(crate::specs::FileTypes::types_of_file, crate::specs::FileTypes::externs_of, crate::specs::FileTypes::file_externs_fault))]
fn read_head(
    alloc: Global,
    file: &ElfFile<'_>,
    tables: &Groups<RelocationTable<'_>>,
    mode: ParseMode,
    license: Items<u8>,
    kernel_version: Option<u32>,
) -> Result<FileHead, ParseError>
    requires tables { AreTablesOf file.now tables.now.groups }
    requires names { symbols_fault file.now ≡ None }
    requires license { license ≡ license_as mode file.now }
    requires version { kernel_version ≡ kernel_version_of file.now }
    ensures metadata { IfOk result (λ head. head.metadata ≡ metadata_as mode file.now) }
    ensures externs { IfOk result (λ head. head.externs ≡ externs_of file.now) }
    ensures section_infos { IfOk result (λ head. head.section_infos ≡ type_info_names file.now) }
    ensures types_clear { OnOk result (file_types_fault mode file.now ≡ None) }
    ensures externs_clear { OnOk result (file_externs_fault file.now ≡ None) }
    ensures fault { Refuses is_parse_memory result
        (or_else (file_types_fault mode file.now) (file_externs_fault file.now)) }
{
    let types = FileTypes::read(alloc, file, tables, mode)?;
    let declared = FileExterns::read(alloc, file, types.btf)?;
    Ok(FileHead {
        metadata: FileMetadata {
            mode,
            license,
            kernel_version,
            btf: declared.btf,
            btf_ext: types.btf_ext,
        },
        externs: declared.externs,
        section_infos: types.section_infos,
    })
}

/// The tables that the sections fill, and the symbols.
fn read_sections_and_symbols(
    alloc: Global,
    file: &ElfFile<'_>,
    tables: &Groups<RelocationTable<'_>>,
    symbols: FileSymbols<'_>,
    metadata: &FileMetadata,
    section_infos: ByName<SectionIndex>,
) -> Result<(ObjectTables, ByIndex<Symbol>), ParseError>
    requires tables { AreTablesOf file.now tables.now.groups }
    requires names { lent_bytes symbols.names.items ≡ names_of (file_symbols file.now) }
    requires grouped { (q : ℕ)
        → group_at symbols.groups.groups q ≡ section_symbols (file_symbols file.now) q }
    ensures object_tables { IfOk result (λ p.
        p.0 ≡ object_tables_of metadata.now section_infos file.now) }
    ensures symbol_table { IfOk result (λ p. p.1 ≡ symbol_table (file_symbols file.now)) }
    ensures fault { Refuses is_parse_memory result
        (sections_fault metadata.now.mode metadata.now.btf file.now) }
{
    let object_tables = read_sections(
        alloc,
        metadata,
        section_infos,
        file,
        tables,
        &symbols.groups,
    )?;
    // The table takes the memory of what the sections needed for a while.
    drop(symbols.groups);
    let symbol_table = object_symbols(alloc, file, symbols.names.as_slice())?;
    Ok((object_tables, symbol_table))
}

/// The contents of a file, with the part that was read before its sections.
#[tactic(auto, unfolding(crate::specs::FileContents::maps_as, crate::specs::FileContents::programs_as, crate::specs::FileContents::functions, crate::specs::FileContents::relocation_tables, crate::specs::FileContents::section_infos))]
fn read_tables(
    alloc: Global,
    file: &ElfFile<'_>,
    tables: &Groups<RelocationTable<'_>>,
    symbols: FileSymbols<'_>,
    head: FileHead,
) -> Result<FileContents, ParseError>
    ghost mode: { ParseMode }
    requires tables { AreTablesOf file.now tables.now.groups }
    requires names { lent_bytes symbols.names.items ≡ names_of (file_symbols file.now) }
    requires grouped { (q : ℕ)
        → group_at symbols.groups.groups q ≡ section_symbols (file_symbols file.now) q }
    requires metadata { head.metadata ≡ metadata_as mode file.now }
    requires externs { head.externs ≡ externs_of file.now }
    requires section_infos { head.section_infos ≡ type_info_names file.now }
    ensures file_contents { IfOk result (λ c. c ≡ contents_as mode file.now) }
    ensures fault { Refuses is_parse_memory result
        (sections_fault mode (types_of_file file.now) file.now) }
{
    let FileHead {
        metadata,
        externs,
        section_infos,
    } = head;
    let (object_tables, symbol_table) = read_sections_and_symbols(
        alloc,
        file,
        tables,
        symbols,
        &metadata,
        section_infos,
    )?;
    Ok(FileContents {
        endianness: file.endianness(),
        metadata,
        externs,
        symbol_table,
        object_tables,
    })
}

/// The contents of a file whose machine and byte order its mode accepts.
fn read_parts(
    alloc: Global,
    file: &ElfFile<'_>,
    tables: &Groups<RelocationTable<'_>>,
    mode: ParseMode,
) -> Result<FileContents, ParseError>
    requires tables { AreTablesOf file.now tables.now.groups }
    ensures file_contents { IfOk result (λ c. c ≡ contents_as mode file.now) }
    ensures fault { Refuses is_parse_memory result
        (or_else (license_fault_as mode file.now)
        (or_else (version_fault file.now)
        (or_else (symbols_fault file.now)
        (or_else (file_types_fault mode file.now)
        (or_else (file_externs_fault file.now)
        (sections_fault mode (types_of_file file.now) file.now)))))) }
{
    let license = read_license(alloc, file, tables, mode)?;
    let kernel_version = read_version(alloc, file, tables)?;
    let symbols = read_symbols(alloc, file)?;
    let head = read_head(alloc, file, tables, mode, license, kernel_version)?;
    read_tables(alloc, file, tables, symbols, head)
}

impl FileContents {
    /// Reads the contents of an ELF64 file by a parse mode.
    ///
    /// # Errors
    ///
    /// The first fault of the file, in this order:
    ///
    /// - `ElfError`: a fault of the file's headers, names, symbol table or relocation tables.
    /// - `OtherMachine`: the mode is `Lenient`, and the file is for another machine than eBPF.
    /// - `BigEndianCode`: the mode is `Lenient`, and a big-endian file has code.
    /// - A fault of its license, its kernel version, its symbols' names, its type information, its externs, and its
    ///   sections by number, in this order.
    ///
    /// `OutOfMemory` is returned only where an allocation fails.
    pub fn read(alloc: Global, bytes: &[u8], mode: ParseMode) -> Result<FileContents, ParseError>
        ensures file_contents { IfOk result (λ c. c ≡ contents_as mode bytes.now) }
        ensures fault { Refuses is_parse_memory result (parse_fault_as mode bytes.now) }
    {
        let file = match ElfFile::parse(bytes) {
            Ok(file) => file,
            Err(error) => return Err(ParseError::ElfError(error)),
        };
        check_machine(&file, mode)?;
        check_order(&file, mode)?;
        let tables = read_relocation_sections(alloc, &file)?;
        read_parts(alloc, &file, &tables, mode)
    }
}
