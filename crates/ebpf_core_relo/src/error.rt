//! The errors of relocating the slots of a section to the types of another kernel.

ghost use Rattle.std.specs.Prelude.{◌≡◌, [], false, true, IfOk, OnOk};
ghost use Rattle.ebpf_core.specs.declared.error.RelocationError.TheVariants.{OutOfMemory};
ghost use Rattle.ebpf_core.specs.Answers.{is_record_memory, without_texts};
ghost use Rattle.ebpf_btf.specs.Memory as types;
ghost use Rattle.ebpf_core.specs.Places as places;
ghost use Rattle.ebpf_btf.specs.Strings.{text_at};
ghost use Rattle.ebpf_core_relo.specs.PrivateContracts.{IsStatedRefusal};
ghost use Rattle.ebpf_core_relo.specs.RecordOutcomes.{name_or_unnamed};
ghost use Rattle.ebpf_core_relo.specs.Records.{error_in_section, is_memory_in_section, unnamed_section};

use ebpf_base::Text;
use ebpf_btf::{Btf, BtfError};
use ebpf_core::{PlaceFault, RelocationError};
use ebpf_parts::Within;
use std::alloc::{AllocError, Global};
use thiserror::Error;

/// The error of a record of `.BTF.ext` that can't be applied, with the section of the record.
#[derive(Debug, Drop, Error)]
#[error("{}{error}", Within {what: "section", name: .section.as_str()})]
pub struct BtfRelocationError {
    /// The section's name. It is `section@OFFSET` where the name at that offset can't be read, and empty for
    /// `OutOfMemory`.
    pub section: Text,
    /// The error of the record.
    pub error: RelocationError,
}

impl BtfRelocationError {
    /// Returns the error `OutOfMemory` with an empty name.
    pub fn memory(alloc: Global) -> BtfRelocationError
        ensures section { result.section ≡ [] }
        ensures error { result.error ≡ OutOfMemory }
    {
        BtfRelocationError {
            section: Text::empty(alloc),
            error: RelocationError::OutOfMemory,
        }
    }
}

/// Returns a fault that is not an allocation failure.
///
/// # Errors
///
/// - `AllocError`: the fault is an allocation failure.
pub fn unless_memory(fault: RelocationError) -> Result<RelocationError, AllocError>
    ensures same { IfOk result (λ e. e ≡ fault) }
    ensures other { OnOk result (is_record_memory fault ≡ false) }
{
    match fault {
        RelocationError::OutOfMemory => Err(AllocError),
        fault => Ok(fault),
    }
}

/// Drops an error of reading types that is not an allocation failure.
///
/// # Errors
///
/// - `AllocError`: the error is an allocation failure.
pub fn unless_memory_of_types(error: BtfError) -> Result<(), AllocError>
    ensures { OnOk result (types.is_btf_memory error ≡ false) }
{
    match error {
        BtfError::OutOfMemory => Err(AllocError),
        _ => Ok(()),
    }
}

/// Drops a fault of following a path that is not an allocation failure.
///
/// # Errors
///
/// - `AllocError`: the fault is an allocation failure.
pub fn unless_memory_of_places(fault: PlaceFault) -> Result<(), AllocError>
    ensures { OnOk result (places.is_place_memory fault ≡ false) }
{
    match fault {
        PlaceFault::Btf(error) => unless_memory_of_types(error),
        PlaceFault::NestingLevel => Ok(()),
    }
}

/// The error of a fault in the section of a name. Out of memory names no section.
fn error_in_section(alloc: Global, name: &str, error: RelocationError) -> BtfRelocationError
    ensures refusal { IsStatedRefusal result (error_in_section name.now (without_texts error)) }
    ensures memory { is_record_memory error ≡ true → is_memory_in_section result ≡ true }
{
    if matches!(error, RelocationError::OutOfMemory) {
        return BtfRelocationError::memory(alloc);
    }
    let Ok(section) = Text::from_str(alloc, name) else {
        return BtfRelocationError::memory(alloc);
    };
    BtfRelocationError { section, error }
}

/// The error of a fault in a section whose name can't be read.
fn error_in_unnamed(alloc: Global, offset: u32, error: RelocationError) -> BtfRelocationError
    ensures refusal { IsStatedRefusal result
        (error_in_section (unnamed_section offset) (without_texts error)) }
    ensures memory { is_record_memory error ≡ true → is_memory_in_section result ≡ true }
{
    let Ok(name) = format!(in alloc; "section@{offset}") else {
        return BtfRelocationError::memory(alloc);
    };
    error_in_section(alloc, name.as_str(), error)
}

/// Returns the error of a fault in the section whose name is at an offset. Out of memory names no section.
#[tactic(auto, unfolding(ebpf_btf::specs::Strings::text_at))]
pub fn error_at(
    alloc: Global,
    local: &Btf,
    offset: u32,
    error: RelocationError,
) -> BtfRelocationError
    ensures refusal { IsStatedRefusal result
        (error_in_section (name_or_unnamed offset (text_at local.now.strings offset))
        (without_texts error)) }
    ensures memory { is_record_memory error ≡ true → is_memory_in_section result ≡ true }
{
    match local.string_at(offset) {
        Ok(name) => error_in_section(alloc, name.as_str(), error),
        Err(BtfError::OutOfMemory) => BtfRelocationError::memory(alloc),
        Err(_) => error_in_unnamed(alloc, offset, error),
    }
}
