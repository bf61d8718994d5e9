//! The license and the kernel version of a file.

ghost use Rattle.std.specs.List.{before_first, position};
ghost use Rattle.std.specs.Prelude.{◌≡◌, ◌==◌, ◌<◌, IfOk, IfSome, length};
ghost use Rattle.ebpf_base.specs.Faults.{Refuses};
ghost use Rattle.ebpf_parts.specs.Memory.{is_parse_memory};
ghost use Rattle.ebpf_parts.specs.declared.parse_mode.ParseMode.TheVariants.{Lenient};
ghost use Rattle.ebpf_sections.specs.LicenseAndVersion.{has_zero, front_of, strict_text_fault, license_text, license_text_fault, license_as, license_fault_as, version_number_fault, version_of, kernel_version_of, version_fault};
ghost use Rattle.ebpf_sections.specs.Sections.{AreTablesOf};

use crate::relocations::RelocationTable;
use crate::sections::{Groups, read_section_of};
use ebpf_base::Items;
use ebpf_base::numbers::read_u32;
use ebpf_btf::Endianness;
use ebpf_elf::ElfFile;
use ebpf_parts::{ParseError, ParseMode};
use std::alloc::Global;

/// Whether bytes have a zero.
fn has_zero(bytes: &[u8]) -> bool
    ensures { result ≡ has_zero bytes.now }
{
    bytes.iter().any(|byte| *byte == 0)
}

/// The index of the first zero.
fn zero_at(bytes: &[u8]) -> Option<usize>
    ensures place { result ≡ position (λ b. b == 0) bytes.now }
    ensures inside { IfSome result (λ at. at < length bytes.now) }
{
    bytes.iter().position(|byte| *byte == 0)
}

/// The bytes before the first zero.
#[tactic(auto, using(crate::proofs::Bytes::before_place, crate::proofs::Bytes::before_none))]
fn before_zero(bytes: &[u8]) -> &[u8]
    ensures { result.now ≡ before_first (λ b. b == 0) bytes.now }
{
    match zero_at(bytes) {
        Some(end) => &bytes[..end],
        None => bytes,
    }
}

/// The license in a section's bytes, without the zero byte at its end.
#[tactic(auto, unfolding(crate::specs::LicenseAndVersion::strict_text_fault))]
fn strict_license(alloc: Global, bytes: &[u8]) -> Result<Items<u8>, ParseError>
    ensures license { IfOk result (λ license. license ≡ front_of bytes.now) }
    ensures fault { Refuses is_parse_memory result (strict_text_fault bytes.now) }
{
    if bytes.len() < 2 {
        return Err(ParseError::InvalidLicense {
            bytes: Items::from_vec(Vec::from_slice(alloc, bytes)?),
        });
    }
    if !has_zero(bytes) {
        return Err(ParseError::MissingLicenseNullTerminator {
            bytes: Items::from_vec(Vec::from_slice(alloc, bytes)?),
        });
    }
    let front = &bytes[..bytes.len() - 1];
    if has_zero(front) {
        return Err(ParseError::InvalidLicense {
            bytes: Items::from_vec(Vec::from_slice(alloc, bytes)?),
        });
    }
    Ok(Items::from_vec(Vec::from_slice(alloc, front)?))
}

/// The license in a section's bytes in lenient parsing: the bytes before the first zero, which may be none.
#[tactic(auto, unfolding(crate::specs::LicenseAndVersion::license_text, crate::specs::LicenseAndVersion::license_text_fault, crate::specs::LicenseAndVersion::strict_text_fault))]
fn lenient_license(alloc: Global, bytes: &[u8]) -> Result<Items<u8>, ParseError>
    ensures license { IfOk result (λ license. license ≡ license_text Lenient bytes.now) }
    ensures fault { Refuses is_parse_memory result (license_text_fault Lenient bytes.now) }
{
    if !bytes.is_empty() && !has_zero(bytes) {
        return strict_license(alloc, bytes);
    }
    Ok(Items::from_vec(Vec::from_slice(alloc, before_zero(bytes))?))
}

/// The license in a section's bytes, by the parse mode.
#[tactic(auto, unfolding(crate::specs::LicenseAndVersion::license_text, crate::specs::LicenseAndVersion::license_text_fault))]
fn license_in(alloc: Global, bytes: &[u8], mode: ParseMode) -> Result<Items<u8>, ParseError>
    ensures license { IfOk result (λ license. license ≡ license_text mode bytes.now) }
    ensures fault { Refuses is_parse_memory result (license_text_fault mode bytes.now) }
{
    match mode {
        ParseMode::Strict => strict_license(alloc, bytes),
        ParseMode::Lenient => lenient_license(alloc, bytes),
    }
}

/// Returns the license of a file, `GPL` if it has no section `license` (libbpf's name).
///
/// # Errors
///
/// - `SectionError`, `UnsupportedRelocationTarget`: the section can't be read.
/// - `InvalidLicense`: strict parsing, fewer than two bytes or a zero before the last one; lenient parsing, one byte
///   that isn't zero.
/// - `MissingLicenseNullTerminator`: two or more bytes, none of them zero.
/// - `OutOfMemory`: an allocation fails.
#[tactic(auto, using(crate::proofs::RelocationTables::found_from), unfolding(ebpf_parts::specs::Sections::section_of, ebpf_parts::specs::Sections::section_with, crate::specs::LicenseAndVersion::license_as, crate::specs::LicenseAndVersion::license_fault_as))]
pub fn read_license(
    alloc: Global,
    file: &ElfFile<'_>,
    tables: &Groups<RelocationTable<'_>>,
    mode: ParseMode,
) -> Result<Items<u8>, ParseError>
    requires tables { AreTablesOf file.now tables.now.groups }
    ensures license { IfOk result (λ license. license ≡ license_as mode file.now) }
    ensures fault { Refuses is_parse_memory result (license_fault_as mode file.now) }
{
    let Some(section) = file.section_by_name("license") else {
        return Ok(Items::from_vec(Vec::from_slice(alloc, b"GPL")?));
    };
    let section = read_section_of(alloc, file, tables, &section)?;
    license_in(alloc, section.bytes, mode)
}

/// The version that means all kernels.
const ANY_KERNEL: u32 = 0xffff_fffe;

/// The version in a section's bytes.
#[tactic(auto, unfolding(crate::specs::LicenseAndVersion::version_number_fault, crate::specs::LicenseAndVersion::version_of))]
fn version_in(alloc: Global, order: Endianness, bytes: &[u8]) -> Result<Option<u32>, ParseError>
    ensures version { IfOk result (λ version. version ≡ version_of order bytes.now) }
    ensures fault { Refuses is_parse_memory result (version_number_fault bytes.now) }
{
    if bytes.len() != 4 {
        return Err(ParseError::InvalidKernelVersion {
            bytes: Items::from_vec(Vec::from_slice(alloc, bytes)?),
        });
    }
    let version = read_u32(order, bytes, 0);
    if version == ANY_KERNEL {
        return Ok(None);
    }
    Ok(Some(version))
}

/// Returns the kernel version of a file, `None` if it has no section `version` (libbpf's name).
///
/// # Errors
///
/// - `SectionError`, `UnsupportedRelocationTarget`: the section can't be read.
/// - `InvalidKernelVersion`: the section has not 4 bytes.
/// - `OutOfMemory`: an allocation fails.
#[tactic(auto, using(crate::proofs::RelocationTables::found_from), unfolding(ebpf_parts::specs::Sections::section_of, ebpf_parts::specs::Sections::section_with, crate::specs::LicenseAndVersion::kernel_version_of, crate::specs::LicenseAndVersion::version_fault))]
pub fn read_version(
    alloc: Global,
    file: &ElfFile<'_>,
    tables: &Groups<RelocationTable<'_>>,
) -> Result<Option<u32>, ParseError>
    requires tables { AreTablesOf file.now tables.now.groups }
    ensures version { IfOk result (λ version. version ≡ kernel_version_of file.now) }
    ensures fault { Refuses is_parse_memory result (version_fault file.now) }
{
    let Some(section) = file.section_by_name("version") else {
        return Ok(None);
    };
    let section = read_section_of(alloc, file, tables, &section)?;
    version_in(alloc, file.endianness(), section.bytes)
}
