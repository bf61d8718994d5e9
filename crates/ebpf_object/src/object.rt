//! An object.

ghost use Rattle.std.specs.Prelude.{◌≡◌, IfOk};
ghost use Rattle.ebpf_base.specs.Faults.{Refuses};
ghost use Rattle.ebpf_object.specs.Objects.{object_as, object_of, parse_fault, parse_fault_as};
ghost use Rattle.ebpf_parsing.specs.FileTypes.{has_relocations};
ghost use Rattle.ebpf_parts.specs.Memory.{is_parse_memory};

use ebpf_base::{ByIndex, ByKey, ByName, ByOffset, BySection, Items};
use ebpf_btf::{Btf, Endianness};
use ebpf_btf_ext::BtfExt;
use ebpf_elf::SectionIndex;
use ebpf_model::{ExternDesc, Function, Program, Symbol};
use ebpf_parsing::FileContents;
use ebpf_parts::maps::Map;
use ebpf_parts::{ParseError, ParseMode, Relocation};
use std::alloc::Global;

/// What an ELF file with eBPF programs holds.
#[derive(Drop)]
pub struct Object {
    /// The byte order of the file's numbers.
    pub endianness: Endianness,
    /// The license of the programs, without its zero byte.
    pub license: Items<u8>,
    /// The kernel version that the programs are for, where the file states one.
    pub kernel_version: Option<u32>,
    /// The type information, where the file has some.
    pub btf: Option<Btf>,
    /// Func info, line info and CO-RE relocations, where the file has type information and these.
    pub btf_ext: Option<BtfExt>,
    /// The externs by name.
    pub externs: ByName<ExternDesc>,
    /// The maps by name.
    pub maps: ByName<Map>,
    /// The programs by name.
    pub programs: ByName<Program>,
    /// The functions by section index and address.
    pub functions: ByKey<Function>,
    /// The symbols by their index.
    pub symbol_table: ByIndex<Symbol>,
    /// The relocations by section index and offset in the section, in bytes.
    pub relocations: BySection<ByOffset<Relocation>>,
    /// The sections' indices by name.
    pub section_infos: ByName<SectionIndex>,
    /// The keys of exception callbacks, by the keys of the functions that have one. A parsed object has none:
    /// `complete_programs` of `ebpf_exceptions` finds them.
    pub exception_callbacks: ByKey<(usize, u64)>,
}

impl Object {
    /// The object that the bytes of an ELF64 file are.
    ///
    /// # Errors
    ///
    /// The first of these faults, in this order. Of `license`, `version`, `.BTF` and `.BTF.ext` the first section of the
    /// name counts. Of each section the errors of `Section::from_elf` come before the faults listed here.
    ///
    /// - `ElfError`: the bytes are no ELF64 file.
    /// - Section `license`: `InvalidLicense`, fewer than two bytes; `MissingLicenseNullTerminator`, no byte is zero;
    ///   `InvalidLicense`, another byte than the last is zero.
    /// - Section `version`: `InvalidKernelVersion`, not four bytes.
    /// - `BtfError(InvalidSymbolName)`: the name of a symbol can't be read.
    /// - Section `.BTF`: `BtfError` with that of `Btf::parse`.
    /// - Section `.BTF.ext`, only where there is `.BTF`: `BtfError` with that of `BtfExt::parse`.
    /// - `BtfError` with that of the externs, only where there is `.BTF`.
    /// - The other sections by index, each with its faults:
    ///   - Text: `SymbolTableConflict`, two defined Text symbols have one address; then at the functions from offset 0 on
    ///     `UnknownSymbol`, no such symbol has the address, `InvalidSymbol`, its size is 0 or passes the data, and
    ///     `InvalidProgramCode`, the function is no whole slots.
    ///   - Program: `InvalidProgramSection`; `NoSymbolsForSection`; by symbol, `InvalidSymbol` and `InvalidProgramCode` of
    ///     the program.
    ///   - data: `InvalidMapDefinition`, the size passes 32 bits.
    ///   - `maps`: `NoSymbolsForSection`; by symbol, `InvalidSymbol`, its range passes the data, and
    ///     `InvalidMapDefinition`, fewer than 20 bytes or another pinning than 0 and 1.
    ///   - `.maps`, or a name as that: `NoBTF`; `NoSymbolsForSection`; the first fault of its maps.
    /// - `OutOfMemory`: only where memory was refused.
    pub fn parse(alloc: Global, bytes: &[u8]) -> Result<Object, ParseError>
        ensures object { IfOk result (λ o. o ≡ object_of bytes.now) }
        ensures fault { Refuses is_parse_memory result (parse_fault bytes.now) }
    {
        Object::parse_as(alloc, bytes, ParseMode::Strict)
    }

    /// The object of an ELF64 file's bytes in a parse mode. `Strict` is `parse`. `Lenient` accepts more of the files that
    /// libbpf accepts, and differs from `parse` in these points alone:
    ///
    /// - a section of code whose name says no kind has programs of the kind `ProgramSection::Other`; a name with `?`
    ///   before it has the kind of the rest;
    /// - `values` of a map that point to a FUNC_PROTO are accepted: an array of programs, whose value size is 4, with no
    ///   inner map;
    /// - the license is its bytes before the first zero, and empty where its section has none;
    /// - `map_extra` may be an ENUM or ENUM64 of one value: that value, an ENUM's widened by its sign;
    /// - a file for another machine than eBPF is refused (`e_machine` is neither EM_BPF nor EM_NONE);
    /// - a big-endian file with code is refused.
    ///
    /// # Errors
    ///
    /// Those of `parse` in its order. With `Lenient` none is `InvalidProgramSection`, and after `ElfError` come, in this
    /// order:
    ///
    /// - `OtherMachine`: `e_machine` is neither EM_BPF nor EM_NONE.
    /// - `BigEndianCode`: the file is big-endian and has a Text or Program section with bytes.
    /// - `InvalidLicense`, `MissingLicenseNullTerminator`: none of the license's bytes is zero.
    pub fn parse_as(alloc: Global, bytes: &[u8], mode: ParseMode) -> Result<Object, ParseError>
        ensures object { IfOk result (λ o. o ≡ object_as mode bytes.now) }
        ensures fault { Refuses is_parse_memory result (parse_fault_as mode bytes.now) }
    {
        let contents = FileContents::read(alloc, bytes, mode)?;
        let shared = contents.metadata;
        let parts = contents.object_tables;
        Ok(Object {
            endianness: contents.endianness,
            license: shared.license,
            kernel_version: shared.kernel_version,
            btf: shared.btf,
            btf_ext: shared.btf_ext,
            externs: contents.externs,
            maps: parts.maps,
            programs: parts.programs,
            functions: parts.functions,
            symbol_table: contents.symbol_table,
            relocations: parts.relocations,
            section_infos: parts.section_infos,
            exception_callbacks: ByKey::new(alloc),
        })
    }

    /// Whether `.BTF.ext` has CO-RE relocations, of any section.
    pub fn has_btf_relocations(&self) -> bool
        ensures { result ≡ has_relocations self.now.btf_ext }
    {
        match &self.btf_ext {
            Some(ext) => !ext.relocations().is_empty(),
            None => false,
        }
    }
}
