//! The words that are written, and the bytes of the types that the kernel takes.

ghost use Rattle.std.specs.Prelude.{◌≡◌, ◌<◌, ◌+◌, IfOk, ◌^◌, length, option_map, Ok};
ghost use Rattle.ebpf_base.specs.Faults.{Gives, Refuses, fault_of};
ghost use Rattle.ebpf_btf_load.specs.KernelTypes.{is_kernel_types_memory, all_words, section_type_words, type_words_fault, types_words, all_types, btf_part, btf_section, no_file_fault, kernel_types_of, part_of, types_read, types_of_bytes, types_of_found, types_of_section, types_of_sources, written_types};
ghost use Rattle.ebpf_btf_load.specs.TypeSources.{given_of};
ghost use Rattle.ebpf_btf.specs.Header.{first_word, header_bytes};

use crate::data_sections::data_words;
use crate::error::KernelTypesError;
use crate::kconfig::kconfig_words;
use crate::ksyms::{Standins, all_strings, append_types, append_words, ksyms_words, standins_for};
use crate::sections::{Sources, type_starts};
use crate::symbols::{hidden_words, symbol_table};
use crate::words::{WrittenWord, write_words};
use ebpf_base::numbers::read_u32;
use ebpf_base::{Endianness, Items};
use ebpf_btf::strings::is_text_at;
use ebpf_btf::{Btf, BtfError, BtfType, DataSecEntry, Rows};
use ebpf_elf::{ElfFile, ElfSection};
use std::alloc::{AllocError, Global};

/// The most entries that a DATASEC of a file has.
const MOST: usize = 65_535;

/// The words of a type: those of a DATASEC by its name, none of another type.
#[tactic(auto, unfolding(crate::specs::KernelTypes::section_type_words))]
fn section_type_words(
    alloc: Global,
    sources: &Sources<'_>,
    standins: Standins,
    type_id: u32,
    ty: &BtfType<'_>,
) -> Result<Items<WrittenWord>, KernelTypesError>
    ensures { Gives is_kernel_types_memory result
        (section_type_words (given_of sources.now) standins type_id ty.now) }
{
    match ty {
        BtfType::DataSec {
            name_offset,
            size,
            entries,
        } => {
            if entries.len() > MOST {
                return Err(KernelTypesError::TooLarge);
            }
            if is_text_at(sources.types.strings(), *name_offset, ".ksyms") {
                return ksyms_words(alloc, sources, standins, type_id, entries);
            }
            if is_text_at(sources.types.strings(), *name_offset, ".kconfig") {
                return kconfig_words(alloc, sources, type_id, entries);
            }
            data_words(alloc, sources, type_id, *name_offset, *size, entries)
        }
        _ => Ok(Items::new(alloc)),
    }
}

/// The words of all DATASECs.
fn types_words(
    alloc: Global,
    sources: &Sources<'_>,
    standins: Standins,
) -> Result<Items<WrittenWord>, KernelTypesError>
    ensures words { IfOk result (λ words.
        words ≡ types_words (given_of sources.now) standins 0 sources.now.types.now.types) }
    ensures fault { Refuses is_kernel_types_memory result
        (type_words_fault (given_of sources.now) standins 0 sources.now.types.now.types) }
{
    let mut words = Items::new(alloc);
    let mut id = 0usize;
    for ty in sources.types.types() {
        let type_id = id as u32;
        id += 1;
        let found = section_type_words(alloc, sources, standins, type_id, &ty)?;
        words.extend_from_slice(found.as_slice())?;
    }
    Ok(words)
}

/// All words that are written, later ones over earlier ones.
///
/// # Errors
///
/// - The first fault of the DATASECs, in the order of their ids.
/// - `OutOfMemory`: an allocation failed.
pub fn all_words(
    alloc: Global,
    sources: &Sources<'_>,
    standins: Standins,
) -> Result<Items<WrittenWord>, KernelTypesError>
    ensures { Gives is_kernel_types_memory result (all_words (given_of sources.now) standins) }
{
    let mut words = types_words(alloc, sources, standins)?;
    let others = hidden_words(alloc, sources)?;
    words.extend_from_slice(others.as_slice())?;
    Ok(words)
}

/// The number of bytes of the header.
const HEADER_LENGTH: u32 = 24;

/// The magic, the version 1 and no flags, as a word of an order.
#[tactic(auto, unfolding(ebpf_btf::specs::Header::first_word))]
fn first_word(order: Endianness) -> u32
    ensures { result ≡ first_word order }
{
    match order {
        Endianness::Little => 0x0001_eb9f,
        Endianness::Big => 0xeb9f_0100,
    }
}

/// The bytes of the types, inside `.BTF`.
#[tactic(auto, unfolding(ebpf_btf::specs::Reading::types_part, ebpf_btf::specs::Reading::types_start, ebpf_btf::specs::Reading::types_end, ebpf_btf::specs::Reading::header_length))]
fn part_of(order: Endianness, bytes: &[u8]) -> &[u8]
    ensures part { result.now ≡ part_of order bytes.now }
    ensures small { length result.now < 2 ^ 32 }
{
    if bytes.len() < 24 {
        return &[];
    }
    let start = read_u32(order, bytes, 4) as usize + read_u32(order, bytes, 8) as usize;
    let end = start + read_u32(order, bytes, 12) as usize;
    if end > bytes.len() {
        return &[];
    }
    &bytes[start..end]
}

/// The header before types of a length, and strings of a length behind them.
#[tactic(auto, unfolding(ebpf_btf::specs::Header::header_bytes, ebpf_btf::specs::Words::words_bytes))]
fn header(alloc: Global, order: Endianness, types: u32, strings: u32) -> Result<Vec<u8>, AllocError>
    ensures { IfOk result (λ out. out.items ≡ header_bytes order types strings) }
{
    let mut out = Vec::new(alloc);
    append_words(
        order,
        &mut out,
        &[first_word(order), HEADER_LENGTH, 0, types, types, strings],
    )?;
    Ok(out)
}

/// A header, and types and strings behind it.
fn btf_part(
    alloc: Global,
    order: Endianness,
    types: &[u8],
    strings: &[u8],
) -> Result<Items<u8>, KernelTypesError>
    ensures { Gives is_kernel_types_memory result (btf_part order types.now strings.now) }
{
    if types.len() > 0xffff_ffff || strings.len() > 0xffff_ffff {
        return Err(KernelTypesError::TooLarge);
    }
    let mut out = header(alloc, order, types.len() as u32, strings.len() as u32)?;
    out.extend_from_slice(types)?;
    out.extend_from_slice(strings)?;
    Ok(Items::from_vec(out))
}

/// The bytes of the types with words written, and of what is appended.
fn all_types(
    alloc: Global,
    sources: &Sources<'_>,
    standins: Standins,
    words: &[WrittenWord],
) -> Result<Vec<u8>, AllocError>
    requires { length sources.now.types.now.strings < 2 ^ 32 }
    ensures { IfOk result (λ part.
        part.items ≡ all_types (given_of sources.now) standins words.now) }
{
    let mut part = Vec::from_slice(alloc, sources.part)?;
    write_words(sources.order, &mut part, words);
    let int_name = sources.types.string_len() as u32;
    append_types(sources.order, int_name, standins, &mut part)?;
    Ok(part)
}

/// `.BTF` with words written, and what is appended.
fn written_types(
    alloc: Global,
    sources: &Sources<'_>,
    standins: Standins,
    words: &[WrittenWord],
) -> Result<Items<u8>, KernelTypesError>
    requires { length sources.now.types.now.strings < 2 ^ 32 }
    ensures { Gives is_kernel_types_memory result
        (written_types (given_of sources.now) standins words.now) }
{
    let part = all_types(alloc, sources, standins, words)?;
    let strings = all_strings(alloc, sources.types, standins)?;
    btf_part(alloc, sources.order, &part, &strings)
}

/// The bytes of the types that some sources give.
fn types_of_sources(alloc: Global, sources: &Sources<'_>) -> Result<Items<u8>, KernelTypesError>
    ensures { Gives is_kernel_types_memory result (types_of_sources (given_of sources.now)) }
{
    let standins = standins_for(sources.types)?;
    let words = all_words(alloc, sources, standins)?;
    written_types(alloc, sources, standins, words.as_slice())
}

/// The types of `.BTF`.
fn types_read(alloc: Global, order: Endianness, bytes: &[u8]) -> Result<Btf, KernelTypesError>
    ensures { Gives is_kernel_types_memory result (types_read order bytes.now) }
{
    match Btf::parse(alloc, bytes, order) {
        Ok(types) => Ok(types),
        Err(BtfError::OutOfMemory) => Err(KernelTypesError::OutOfMemory),
        Err(error) => Err(KernelTypesError::BtfError(error)),
    }
}

/// The bytes of the types for the kernel, from the bytes of `.BTF` of a file.
fn types_of_bytes(
    alloc: Global,
    file: &ElfFile<'_>,
    bytes: &[u8],
) -> Result<Items<u8>, KernelTypesError>
    ensures { Gives is_kernel_types_memory result (types_of_bytes file.now bytes.now) }
{
    let order = file.endianness();
    let types = types_read(alloc, order, bytes)?;
    let part = part_of(order, bytes);
    let starts = type_starts(alloc, order, part, &types)?;
    let sources = Sources {
        order,
        part,
        types: &types,
        starts: starts.as_slice(),
        file,
        table: symbol_table(file),
    };
    types_of_sources(alloc, &sources)
}

/// The bytes of the types for the kernel, from the section `.BTF` of a file.
fn types_of_section(
    alloc: Global,
    file: &ElfFile<'_>,
    section: &ElfSection<'_>,
) -> Result<Items<u8>, KernelTypesError>
    ensures { Gives is_kernel_types_memory result (types_of_section file.now section.now) }
{
    match section.data() {
        Ok(bytes) => types_of_bytes(alloc, file, bytes),
        Err(error) => Err(KernelTypesError::ElfError(error)),
    }
}

/// The ELF file in some bytes.
#[tactic(auto, unfolding(crate::specs::KernelTypes::no_file_fault))]
fn parse_file(file: &[u8]) -> Result<ElfFile<'_>, KernelTypesError>
    ensures fault { fault_of result ≡ no_file_fault file.now }
    ensures file { IfOk result (λ parsed. parsed ≡ file.now) }
{
    match ElfFile::parse(file) {
        Ok(file) => Ok(file),
        Err(error) => Err(KernelTypesError::ElfError(error)),
    }
}

/// The bytes of the types for the kernel, from a file; None without `.BTF`.
#[tactic(auto, unfolding(crate::specs::KernelTypes::btf_section))]
fn types_of_parsed(alloc: Global, file: &ElfFile<'_>) -> Result<Option<Items<u8>>, KernelTypesError>
    ensures { Gives is_kernel_types_memory result (types_of_found file.now (btf_section file.now)) }
{
    match file.section_by_name(".BTF") {
        Some(section) => Ok(Some(types_of_section(alloc, file, &section)?)),
        None => Ok(None),
    }
}

/// The bytes of the types for the kernel, from the bytes of a file; None without `.BTF`.
#[tactic(auto, unfolding(crate::specs::KernelTypes::kernel_types_of))]
fn types_in(alloc: Global, file: &[u8]) -> Result<Option<Items<u8>>, KernelTypesError>
    ensures { Gives is_kernel_types_memory result (kernel_types_of file.now) }
{
    types_of_parsed(alloc, &parse_file(file)?)
}

/// Returns the types of an object in the form that the kernel takes (`BPF_BTF_LOAD`).
///
/// `file` holds the bytes of an ELF64 file. The result is `None` where the file has no section `.BTF`.
///
/// The result is the file's `.BTF` with some words written over it. Ids of types and offsets of strings stay. The
/// header has 24 bytes; the types follow it, and then the strings. libbpf 1.5 writes the same words, where some INT has
/// 4 bytes:
///
/// - Size of a DATASEC: a DATASEC other than `.ksyms` and `.kconfig` that states size 0 gets the size of the file's
///   section of the same name.
/// - Offsets: the entries of the global variables of such a DATASEC get the addresses of their symbols, cut to 32 bits.
///   The symbol of a variable is the first GLOBAL or WEAK symbol of type OBJECT with its name.
/// - Linkage and order: in each DATASEC other than `.ksyms` and `.kconfig`, hidden and internal variables get static
///   linkage, and the entries are sorted by offset. Entries of one offset keep their order.
/// - Hidden functions: the first global FUNC with the name of a hidden or internal function of `.text` gets static
///   linkage.
/// - `.ksyms`: each entry has 4 bytes, one behind the other. A VAR gets the type of the first INT of 4 bytes and global
///   linkage. A FUNC gets global linkage, and its parameters that have a type and no name get a name. The entry of a
///   FUNC names the variable `ksym_func_placeholder`, which is appended.
/// - `.ksyms` without an INT of 4 bytes: `int` is appended first. libbpf appends none, and gives the variables the type
///   void, which the kernel refuses.
/// - `.kconfig`: the entries have the offsets of the externs in the value of their map, and are sorted by offset. The
///   order of the externs is by descending alignment, ascending size and name. The size of the DATASEC is the size of
///   the value, and the VARs get global linkage.
///
/// Kinds of types that an older kernel lacks are not replaced.
///
/// # Errors
///
/// In this order:
///
/// - `ElfError`: the bytes are no file, or `.BTF` runs past the end of the file.
/// - `BtfError`: `Btf::parse` refuses `.BTF` with this error.
/// - `TooLarge`: ids or offsets of strings come near 32 bits.
/// - The first fault of the DATASECs, by id:
///   - `TooLarge`: the DATASEC has more than 65,535 entries (no file has one), or the value of `.kconfig` passes 32
///     bits.
///   - `NoSectionSize`: a DATASEC of the file's own variables has no size.
///   - `NotAVariable`: an entry names no VAR, in `.ksyms` neither a VAR nor a FUNC.
///   - `NoSymbol`: a global VAR of the file's own variables has no symbol.
///   - `UnsupportedExtern`: an extern of `.kconfig` is of another type than an integer, an enumeration or an array of
///     these.
/// - `TooLarge`: the types or the strings take 2^32 bytes or more.
///
/// `OutOfMemory`: an allocation failed.
pub fn kernel_types(alloc: Global, file: &[u8]) -> Result<Option<Vec<u8>>, KernelTypesError>
    ensures types { IfOk result (λ types.
        kernel_types_of file.now ≡ Ok (option_map (λ bytes. bytes.items) types)) }
    ensures fault { Refuses is_kernel_types_memory result (fault_of (kernel_types_of file.now)) }
{
    match types_in(alloc, file)? {
        Some(types) => Ok(Some(types.into_vec())),
        None => Ok(None),
    }
}
