//! The refusals of faults: of files, types, parsing and slots.

ghost use Rattle.std.specs.Prelude.{◌≡◌, ◌<◌, ◌≤◌};
ghost use Rattle.capi_rows.specs.FaultNumbers.{file_fault, type_fault, type_refusal, parse_refusal, slot_fault, slot_refusal};

use crate::codes::MEMORY;
use crate::refusal::{Details, Refusal};
use ebpf_btf::BtfError;
use ebpf_elf::ElfReadError;
use ebpf_model::{EbpfRelocationError, RelocationError};
use ebpf_parts::ParseError;

/// The number of a fault among the faults of files.
pub fn file_fault(error: ElfReadError) -> u32
    ensures fault { result ≡ file_fault error }
    ensures few { result < 10 }
{
    match error {
        ElfReadError::TooShort => 0,
        ElfReadError::BadMagic => 1,
        ElfReadError::NotElf64 => 2,
        ElfReadError::BadByteOrder => 3,
        ElfReadError::BadSectionTable => 4,
        ElfReadError::BadSectionRange => 5,
        ElfReadError::BadStringTable => 6,
        ElfReadError::BadSymbolTable => 7,
        ElfReadError::BadRelocationTable => 8,
        ElfReadError::ExtendedNumbering => 9,
    }
}

/// The number of a fault of types, the first of which has the number `first`, and the numbers that it states.
pub fn type_fault(first: u32, error: &BtfError) -> (u32, Details)
    requires small { first ≤ 2000 }
    requires positive { 0 < first }
    ensures fault { result ≡ type_fault first error.now }
    ensures refuses { 0 < result.0 }
{
    let none = Details::none();
    match error {
        BtfError::InvalidHeader => (first, none),
        BtfError::InvalidTypeInfo => (first + 1, none),
        BtfError::InvalidInfo => (first + 2, none),
        BtfError::InvalidStringOffset { offset } => (first + 3, none.at_offset(*offset as u64)),
        BtfError::InvalidRelocationKind { kind } => (first + 4, none.of_kind(*kind)),
        BtfError::UnexpectedBtfType { type_id } => (first + 5, none.of_type(*type_id)),
        BtfError::UnknownBtfType { type_id } => (first + 6, none.of_type(*type_id)),
        BtfError::UnknownBtfTypeName { .. } => (first + 7, none),
        BtfError::MaximumTypeDepth { type_id } => (first + 8, none.of_type(*type_id)),
        BtfError::InvalidDatasec => (first + 9, none),
        BtfError::InvalidSymbolName => (first + 10, none),
        BtfError::InnerMapCannotBePinned { .. } => (first + 11, none),
        BtfError::MultiLevelMapInMapNotSupported { .. } => (first + 12, none),
        BtfError::InvalidValuesSpec { .. } => (first + 13, none),
        BtfError::TooLarge => (first + 14, none),
        BtfError::OutOfMemory => (MEMORY, none),
    }
}

/// The refusal for a fault of types, the first of which has the number `first`.
pub fn type_refusal(first: u32, error: BtfError) -> Refusal
    requires small { first ≤ 2000 }
    requires positive { 0 < first }
    ensures refusal { result ≡ type_refusal first error }
    ensures refuses { 0 < result.number }
{
    let (number, details) = type_fault(first, &error);
    match error {
        BtfError::UnknownBtfTypeName { type_name } => Refusal::named_detailed(
            number, type_name, details,
        ),
        BtfError::InnerMapCannotBePinned { name } => Refusal::named_detailed(number, name, details),
        BtfError::MultiLevelMapInMapNotSupported { name } => Refusal::named_detailed(
            number, name, details,
        ),
        BtfError::InvalidValuesSpec { name } => Refusal::named_detailed(number, name, details),
        _ => Refusal::with_details(number, details),
    }
}

/// The refusal for an error of parsing.
pub fn parse_refusal(error: ParseError) -> Refusal
    ensures refusal { result ≡ parse_refusal error }
    ensures refuses { 0 < result.number }
{
    let none = Details::none();
    match error {
        ParseError::ElfError(error) => Refusal::plain(100 + file_fault(error)),
        ParseError::SectionError { index, error } => Refusal::with_details(
            110 + file_fault(error),
            none.at_section(index),
        ),
        ParseError::BtfError(error) => type_refusal(120, error),
        ParseError::MissingLicenseNullTerminator { bytes } => Refusal::with_details(
            140,
            none.of_size(bytes.len() as u64),
        ),
        ParseError::InvalidLicense { bytes } => Refusal::with_details(
            141,
            none.of_size(bytes.len() as u64),
        ),
        ParseError::InvalidKernelVersion { bytes } => Refusal::with_details(
            142,
            none.of_size(bytes.len() as u64),
        ),
        ParseError::UnsupportedRelocationTarget => Refusal::plain(143),
        ParseError::InvalidProgramSection { section } => Refusal::with_name(144, section),
        ParseError::InvalidProgramCode => Refusal::plain(145),
        ParseError::InvalidMapDefinition { name } => Refusal::with_name(146, name),
        ParseError::SymbolTableConflict {
            section_index,
            address,
        } => Refusal::with_details(147, none.at_section(section_index).at_address(address)),
        ParseError::UnknownSymbol {
            section_index,
            address,
        } => Refusal::with_details(148, none.at_section(section_index).at_address(address)),
        ParseError::InvalidSymbol { index, name } => Refusal {
            number: 149,
            name,
            details: none.of_symbol(index),
        },
        ParseError::InvalidGlobalData {
            name,
            sym_size,
            data_size,
        } => Refusal::named_detailed(150, name, none.two_sizes(sym_size, data_size as u64)),
        ParseError::SymbolNotFound { name } => Refusal::with_name(151, name),
        ParseError::MapNotFound { index } => Refusal::with_details(152, none.at_section(index)),
        ParseError::MapSymbolNameNotFound { i } => Refusal::with_details(153, none.of_index(i)),
        ParseError::NoSymbolsForSection { section_name } => Refusal::with_name(154, section_name),
        ParseError::NoBTF => Refusal::plain(155),
        ParseError::OutOfMemory => Refusal::plain(MEMORY),
        ParseError::BigEndianCode => Refusal::plain(156),
        ParseError::TooLarge { most_bytes } => Refusal::with_details(157, none.of_size(most_bytes)),
        ParseError::OtherMachine { machine } => Refusal::with_details(
            158,
            none.of_kind(u32::from(machine)),
        ),
    }
}

/// The number of a fault of slots, the first of which has the number `first`, and the numbers that it states.
pub fn slot_fault(first: u32, error: &RelocationError) -> (u32, Details)
    requires small { first ≤ 1000 }
    requires positive { 0 < first }
    ensures fault { result ≡ slot_fault first error.now }
    ensures refuses { 0 < result.0 }
{
    let none = Details::none();
    match error {
        RelocationError::UnknownSymbol { index } => (first, none.of_symbol(*index)),
        RelocationError::SectionNotFound {
            section_index,
            symbol_index,
            ..
        } => (
            first + 1,
            none.at_section(*section_index).of_symbol(*symbol_index),
        ),
        RelocationError::UnknownFunction { address, .. } => (first + 2, none.at_address(*address)),
        RelocationError::FunctionInfoMismatch { .. } => (first + 3, none),
        RelocationError::UnknownProgram {
            section_index,
            address,
        } => (
            first + 4,
            none.at_section(*section_index).at_address(*address),
        ),
        RelocationError::InvalidRelocationOffset {
            offset,
            relocation_number,
        } => (
            first + 5,
            none.at_offset(*offset).of_relocation(*relocation_number),
        ),
        RelocationError::ExternNotFound { .. } => (first + 6, none),
        RelocationError::UnresolvableSymbol { .. } => (first + 7, none),
        RelocationError::UnsupportedTextSymbol { index } => (first + 8, none.of_symbol(*index)),
        RelocationError::InvalidLineInfo { .. } => (first + 9, none),
        RelocationError::ProgramTooLong { .. } => (first + 10, none),
        RelocationError::MapAddressOverflow { offset } => (first + 11, none.at_offset(*offset)),
        RelocationError::OutOfMemory => (MEMORY, none),
    }
}

/// The refusal for a fault of slots, about the function or the program. The first of the faults has the number `first`.
pub fn slot_refusal(first: u32, error: EbpfRelocationError) -> Refusal
    requires small { first ≤ 1000 }
    requires positive { 0 < first }
    ensures refusal { result ≡ slot_refusal first error }
    ensures refuses { 0 < result.number }
{
    let (number, details) = slot_fault(first, &error.error);
    Refusal::named_detailed(number, error.function, details)
}
