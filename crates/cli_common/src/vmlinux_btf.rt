//! The types of a kernel, from a file.

use crate::refusal::{FileRefusal, READING, help_of};
use crate::refuse::read_plain;
use crate::variants::variant_of_types;
use ebpf_btf::{Btf, BtfError, Endianness};
use ebpf_elf::{ElfFile, ElfReadError};
use std::alloc::{AllocError, Global};
use thiserror::Error;

/// Why a file gives no types.
#[derive(Debug, Drop, Error)]
enum KernelError {
    /// It is neither raw types nor an ELF file.
    #[error("neither BTF nor an ELF file")]
    NoTypes,
    /// It is an ELF file that can't be read.
    #[error("{0}")]
    Elf(ElfReadError),
    /// It is an ELF file without a section `.BTF`.
    #[error("no section .BTF")]
    NoSection,
    /// Its types are of the other byte order than the object.
    #[error("types of the other byte order than the object's")]
    OtherByteOrder,
    /// Its types can't be read.
    #[error("{0}")]
    Types(BtfError),
}

/// The byte order of raw types, by their first two bytes (0xeb9f).
fn order_of(bytes: &[u8]) -> Option<Endianness> {
    match bytes {
        [0x9f, 0xeb, ..] => Some(Endianness::Little),
        [0xeb, 0x9f, ..] => Some(Endianness::Big),
        _ => None,
    }
}

/// Whether bytes begin as those of an ELF file.
fn is_elf(bytes: &[u8]) -> bool {
    bytes.starts_with(b"\x7fELF".as_slice())
}

/// The bytes of the section `.BTF` of an ELF file.
fn section_types(bytes: &[u8]) -> Result<&[u8], KernelError> {
    let file = match ElfFile::parse(bytes) {
        Ok(file) => file,
        Err(error) => return Err(KernelError::Elf(error)),
    };
    let Some(section) = file.section_by_name(".BTF") else {
        return Err(KernelError::NoSection);
    };
    match section.data() {
        Ok(bytes) => Ok(bytes),
        Err(error) => Err(KernelError::Elf(error)),
    }
}

/// Raw types have to begin as such, and to be of a byte order.
fn check_order(raw: &[u8], order: Endianness) -> Result<(), KernelError> {
    match order_of(raw) {
        Some(stated) if stated == order => Ok(()),
        Some(_) => Err(KernelError::OtherByteOrder),
        None => Err(KernelError::NoTypes),
    }
}

/// The types of the section `.BTF` of an ELF file.
fn types_in_section(alloc: Global, bytes: &[u8], order: Endianness) -> Result<Btf, KernelError> {
    let raw = section_types(bytes)?;
    check_order(raw, order)?;
    match Btf::parse(alloc, raw, order) {
        Ok(types) => Ok(types),
        Err(error) => Err(KernelError::Types(error)),
    }
}

/// The types of a kernel in a file's bytes: raw ones, which keep the bytes, or those of the section `.BTF` of an ELF file.
///
/// # Errors
///
/// `Elf` and `NoSection` of an ELF file; `NoTypes` where the types don't begin as such; `OtherByteOrder` where they are
/// of the other order than `order`; `Types` where they can't be read, also for lack of memory.
fn kernel_types(alloc: Global, bytes: Vec<u8>, order: Endianness) -> Result<Btf, KernelError> {
    if is_elf(&bytes) {
        return types_in_section(alloc, &bytes, order);
    }
    check_order(&bytes, order)?;
    match Btf::from_vec(bytes, order) {
        Ok(types) => Ok(types),
        Err(error) => Err(KernelError::Types(error)),
    }
}

impl KernelError {
    /// The name of the error.
    fn variant(&self) -> &'static str {
        match self {
            KernelError::NoTypes => "NoTypes",
            KernelError::Elf(_) => "ElfError",
            KernelError::NoSection => "NoSection",
            KernelError::OtherByteOrder => "OtherByteOrder",
            KernelError::Types(error) => variant_of_types(error),
        }
    }

    /// What one can do about it, where one can.
    fn help(&self) -> Option<&'static str> {
        Some(match self {
            KernelError::NoTypes => "give /sys/kernel/btf/vmlinux, or a copy of another kernel's",
            KernelError::NoSection =>
                "`pahole -J FILE` adds a section .BTF to a kernel that has debug information",
            KernelError::Elf(_) | KernelError::OtherByteOrder | KernelError::Types(_) => {
                return None;
            }
        })
    }
}

/// Why a file gives no types, as a refusal.
fn refusal_of(alloc: Global, error: &KernelError) -> Result<FileRefusal, AllocError> {
    if matches!(error, KernelError::Types(BtfError::OutOfMemory)) {
        return Err(AllocError);
    }
    Ok(FileRefusal {
        stage: READING,
        variant: error.variant(),
        text: format!(in alloc; "{error}")?,
        help: help_of(alloc, error.help())?,
    })
}

/// The types of a kernel in a file, or why it gives none.
///
/// # Errors
///
/// The outer one where memory is refused.
pub fn read_kernel(
    rt: &HostRuntime,
    path: &str,
    order: Endianness,
) -> Result<Result<Btf, FileRefusal>, AllocError> {
    let alloc = rt.alloc();
    let bytes = match read_plain(rt, path)? {
        Ok(bytes) => bytes,
        Err(refusal) => return Ok(Err(refusal)),
    };
    match kernel_types(alloc, bytes, order) {
        Ok(types) => Ok(Ok(types)),
        Err(error) => Ok(Err(refusal_of(alloc, &error)?)),
    }
}
