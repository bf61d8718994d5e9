//! The refusals of a loader's calls, by their numbers.

ghost use Rattle.std.specs.Prelude.{◌≡◌, ◌<◌, IfOk};
ghost use Rattle.capi_rows.specs.Numbers.{kconfig_refusal, initial_slots_refusal, kernel_types_refusal, ksyms_refusal, prepare_refusal, record_fault, types_refusal};

use crate::codes::MEMORY;
use crate::faults::{file_fault, parse_refusal, slot_refusal, type_fault, type_refusal};
use crate::info::type_refusal_in;
use crate::refusal::{Details, Refusal};
use ebpf_btf_load::KernelTypesError;
use ebpf_core::RelocationError;
use ebpf_core_relo::BtfRelocationError;
use ebpf_initial_slots::InitialSlotError;
use ebpf_kconfig::KconfigError;
use ebpf_ksyms::KsymsError;
use ebpf_object::prepare::PrepareError;
use std::alloc::{AllocError, Global};

/// The refusal for an error of such externs, about the extern.
pub fn kconfig_refusal(error: KconfigError) -> Refusal
    ensures refusal { result ≡ kconfig_refusal error }
    ensures refuses { 0 < result.number }
{
    let none = Details::none();
    match error {
        KconfigError::NotAVariable { type_id } => Refusal::with_details(900, none.of_type(type_id)),
        KconfigError::UnreadableName { offset } => Refusal::with_details(
            901,
            none.at_offset(u64::from(offset)),
        ),
        KconfigError::UnknownName { name } => Refusal::with_name(902, name),
        KconfigError::UnsupportedType { name } => Refusal::with_name(903, name),
        KconfigError::NoValue { name } => Refusal::with_name(904, name),
        KconfigError::WrongSize { name, size, length } => Refusal::named_detailed(
            905,
            name,
            none.two_sizes(u64::from(size), length as u64),
        ),
        KconfigError::TooLarge => Refusal::plain(906),
        KconfigError::UnsuitedValue { name } => Refusal::with_name(907, name),
        KconfigError::ValueOutOfRange { name } => Refusal::with_name(908, name),
        KconfigError::OutOfMemory => Refusal::plain(MEMORY),
    }
}

/// The refusal for an error of initial values, about the map.
pub fn initial_slots_refusal(error: InitialSlotError) -> Refusal
    ensures { result ≡ initial_slots_refusal error }
{
    let none = Details::none();
    match error {
        InitialSlotError::ElfError(error) => Refusal::plain(800 + file_fault(error)),
        InitialSlotError::UnknownSymbol {
            place,
            symbol_index,
        } => Refusal::with_details(820, none.at_offset(place).of_symbol(symbol_index)),
        InitialSlotError::OutsideMaps { place } => Refusal::with_details(
            821,
            none.at_offset(place),
        ),
        InitialSlotError::UnsupportedMapType { map, map_type } => Refusal::named_detailed(
            822,
            map,
            none.of_kind(map_type),
        ),
        InitialSlotError::NotInMaps { map, .. } => Refusal::with_name(823, map),
        InitialSlotError::UnsupportedKeySize { map, key_size } => Refusal::named_detailed(
            824,
            map,
            none.of_size(u64::from(key_size)),
        ),
        InitialSlotError::UnknownMap { map, .. } => Refusal::with_name(825, map),
        InitialSlotError::UnknownProgram { map, .. } => Refusal::with_name(826, map),
        InitialSlotError::NotAnEntryPoint { map, .. } => Refusal::with_name(827, map),
        InitialSlotError::NoValues { map } => Refusal::with_name(828, map),
        InitialSlotError::OutsideValues { map, place } => Refusal::named_detailed(
            829,
            map,
            none.at_offset(place),
        ),
        InitialSlotError::Misaligned { map, place } => Refusal::named_detailed(
            830,
            map,
            none.at_offset(place),
        ),
        InitialSlotError::OutOfMemory => Refusal::plain(MEMORY),
    }
}

/// The refusal for an error of a file's types, about the type that it names.
pub fn kernel_types_refusal(
    alloc: Global,
    file: &[u8],
    error: KernelTypesError,
) -> Result<Refusal, AllocError>
    ensures { IfOk result (λ refusal. refusal ≡ kernel_types_refusal file.now error) }
{
    match error {
        KernelTypesError::ElfError(error) => Ok(Refusal::plain(700 + file_fault(error))),
        KernelTypesError::BtfError(error) => Ok(type_refusal(720, error)),
        KernelTypesError::NoSectionSize { type_id } => type_refusal_in(alloc, file, 740, type_id),
        KernelTypesError::NotAVariable { type_id } => type_refusal_in(alloc, file, 741, type_id),
        KernelTypesError::NoSymbol { type_id } => type_refusal_in(alloc, file, 742, type_id),
        KernelTypesError::UnsupportedExtern { type_id } => {
            type_refusal_in(alloc, file, 743, type_id)
        }
        KernelTypesError::TooLarge => Ok(Refusal::plain(744)),
        KernelTypesError::OutOfMemory => Ok(Refusal::plain(MEMORY)),
    }
}

/// The refusal for an error of finding externs.
pub fn ksyms_refusal(error: KsymsError) -> Refusal
    ensures refusal { result ≡ ksyms_refusal error }
    ensures refuses { 0 < result.number }
{
    match error {
        KsymsError::TypedKsymRequiresKernelBtf => Refusal::plain(400),
        KsymsError::VariableNotFound { name } => Refusal::with_name(401, name),
        KsymsError::IncompatibleFunctionSignature { name } => Refusal::with_name(402, name),
        KsymsError::IncompatibleVariableType { name } => Refusal::with_name(403, name),
        KsymsError::InvalidExternType { name } => Refusal::with_name(404, name),
        KsymsError::AmbiguousResolution {
            name,
            first_addr,
            second_addr,
        } => Refusal::named_detailed(
            405,
            name,
            Details::none().two_addresses(first_addr, second_addr),
        ),
        KsymsError::KallsymsAccessError(_) => Refusal::plain(406),
        KsymsError::KallsymsParseError(text) => Refusal::with_name(407, text),
        KsymsError::FunctionNotFound { name } => Refusal::with_name(408, name),
        KsymsError::BtfError(error) => type_refusal(420, error),
        KsymsError::OutOfMemory => Refusal::plain(MEMORY),
    }
}

/// The number of the refusal for an error of finding externs.
pub fn ksyms_number(error: &KsymsError) -> u32
    ensures { result ≡ (ksyms_refusal error.now).number }
{
    match error {
        KsymsError::TypedKsymRequiresKernelBtf => 400,
        KsymsError::VariableNotFound { .. } => 401,
        KsymsError::IncompatibleFunctionSignature { .. } => 402,
        KsymsError::IncompatibleVariableType { .. } => 403,
        KsymsError::InvalidExternType { .. } => 404,
        KsymsError::AmbiguousResolution { .. } => 405,
        KsymsError::KallsymsAccessError(_) => 406,
        KsymsError::KallsymsParseError(_) => 407,
        KsymsError::FunctionNotFound { .. } => 408,
        KsymsError::BtfError(error) => type_fault(420, error).0,
        KsymsError::OutOfMemory => MEMORY,
    }
}

/// The refusal for an error of the stages.
pub fn prepare_refusal(error: PrepareError) -> Refusal
    ensures refusal { result ≡ prepare_refusal error }
    ensures refuses { 0 < result.number }
{
    match error {
        PrepareError::Parse(error) => parse_refusal(error),
        PrepareError::Types(error) => types_refusal(error),
        PrepareError::Maps(error) => slot_refusal(300, error),
        PrepareError::Ksyms(error) => ksyms_refusal(error),
        PrepareError::Externs(error) => slot_refusal(500, error),
        PrepareError::Calls(error) => slot_refusal(600, error),
        PrepareError::OutOfMemory => Refusal::plain(MEMORY),
        PrepareError::MissingDescriptor { map } => Refusal::with_name(320, map),
        PrepareError::UnknownMap { name } => Refusal::with_name(321, name),
        PrepareError::UnwrittenExtern { name } => Refusal::with_name(620, name),
    }
}

/// The number of an error of one record, and the numbers that it states.
pub fn record_fault(error: &RelocationError) -> (u32, Details)
    ensures fault { result ≡ record_fault error.now }
    ensures refuses { 0 < result.0 }
{
    let none = Details::none();
    match error {
        RelocationError::BtfError(error) => type_fault(220, error),
        RelocationError::SectionNotFound => (240, none),
        RelocationError::FunctionNotFound => (241, none),
        RelocationError::InvalidAccessString { .. } => (242, none),
        RelocationError::InvalidInstructionIndex {
            index,
            num_instructions,
            relocation_number,
        } => (
            243,
            none.at_slot(*index)
                .of_count(*num_instructions)
                .of_relocation(*relocation_number),
        ),
        RelocationError::ConflictingCandidates { .. } => (244, none),
        RelocationError::MaximumNestingLevelReached { .. } => (245, none),
        RelocationError::InvalidAccessIndex { index, len, .. } => {
            (246, none.of_index(*index).of_count(*len))
        }
        RelocationError::InvalidRelocationKindForType {
            relocation_number,
            ..
        } => (247, none.of_relocation(*relocation_number)),
        RelocationError::InvalidInstruction {
            relocation_number,
            index,
            ..
        } => (248, none.at_slot(*index).of_relocation(*relocation_number)),
        RelocationError::MissingTargetDefinition {
            type_id,
            ins_index,
            ..
        } => (249, none.at_slot(*ins_index).of_type(*type_id)),
        RelocationError::OutOfMemory => (MEMORY, none),
    }
}

/// The refusal for an error of a section's records, about the section.
pub fn types_refusal(error: BtfRelocationError) -> Refusal
    ensures refusal { result ≡ types_refusal error }
    ensures refuses { 0 < result.number }
{
    let (number, details) = record_fault(&error.error);
    Refusal::named_detailed(number, error.section, details)
}
