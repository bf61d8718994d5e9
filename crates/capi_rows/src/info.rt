//! What a file says of itself, the names of its types, and the types of a kernel as bytes.

ghost use Rattle.std.specs.Prelude.{◌≡◌, IfOk, ◌<◌, Ok, IfErr};
ghost use Rattle.ebpf_parsing.specs.Sections.{is_big};
ghost use Rattle.capi_rows.specs.FileTypes.{info_of, file_type_name, file_types, name_of_id, types_of_section, order_by_magic, types_in, types_if, CannotRead, CannotReadIf};
ghost use Rattle.capi_rows.specs.Numbers.{type_refusal_in};

use crate::codes::flag;
use crate::faults::type_refusal;
use crate::refusal::{Details, Refusal};
use ebpf_base::Text;
use ebpf_btf::{Btf, BtfError, Endianness};
use ebpf_elf::{ElfFile, ElfSection};
use ebpf_object::Object;
use std::alloc::{AllocError, Global};

/// What an object is. Flags are 1 or 0.
#[repr(C)]
#[derive(Clone, Copy)]
pub struct ebpf_object_info {
    /// Whether the file's numbers have the highest byte first.
    pub is_big_endian: u32,
    /// Whether the file states a kernel version.
    pub has_kernel_version: u32,
    /// The kernel version, 0 where the file states none.
    pub kernel_version: u32,
    /// Whether the file has type information.
    pub has_types: u32,
    /// Whether it has CO-RE relocations.
    pub has_relocations: u32,
    /// Whether some extern's type is compared with the kernel's.
    pub has_typed_externs: u32,
}

fn is_big(order: Endianness) -> bool
    ensures { result ≡ is_big order }
{
    match order {
        Endianness::Little => false,
        Endianness::Big => true,
    }
}

/// What an object is.
pub fn info_of(object: &Object) -> ebpf_object_info
    ensures { result ≡ info_of object.now }
{
    ebpf_object_info {
        is_big_endian: flag(is_big(object.endianness)),
        has_kernel_version: flag(object.kernel_version.is_some()),
        kernel_version: object.kernel_version.unwrap_or(0),
        has_types: flag(object.btf.is_some()),
        has_relocations: flag(object.has_btf_relocations()),
        has_typed_externs: flag(object.has_typed_ksyms()),
    }
}

/// The types of a section of a file, where they can be read.
fn types_of_section(
    alloc: Global,
    file: &ElfFile<'_>,
    section: &ElfSection<'_>,
) -> Result<Option<Btf>, AllocError>
    ensures { IfOk result (λ types. types ≡ types_of_section file.now section.now) }
{
    let Ok(bytes) = section.data() else {
        return Ok(None);
    };
    match Btf::parse(alloc, bytes, file.endianness()) {
        Ok(types) => Ok(Some(types)),
        Err(BtfError::OutOfMemory) => Err(AllocError),
        Err(_) => Ok(None),
    }
}

/// The types of the first section .BTF of a file, where they can be read.
#[tactic(auto, unfolding(crate::specs::FileTypes::file_types, ebpf_btf_load::specs::KernelTypes::btf_section))]
fn file_types(alloc: Global, file: &[u8]) -> Result<Option<Btf>, AllocError>
    ensures { IfOk result (λ types. types ≡ file_types file.now) }
{
    let Ok(file) = ElfFile::parse(file) else {
        return Ok(None);
    };
    match file.section_by_name(".BTF") {
        Some(section) => types_of_section(alloc, &file, &section),
        None => Ok(None),
    }
}

/// The name of the type with an id, where it can be read.
fn name_of_id(alloc: Global, types: &Btf, type_id: u32) -> Result<Option<Text>, AllocError>
    ensures { IfOk result (λ name. name ≡ name_of_id types.now type_id) }
{
    let Ok(ty) = types.type_by_id(type_id) else {
        return Ok(None);
    };
    match types.type_name(&ty) {
        Ok(name) => Ok(Some(Text::from_str(alloc, name.as_str())?)),
        Err(BtfError::OutOfMemory) => Err(AllocError),
        Err(_) => Ok(None),
    }
}

/// The name of the type of a file with an id, where it can be read.
fn file_type_name(alloc: Global, file: &[u8], type_id: u32) -> Result<Option<Text>, AllocError>
    ensures { IfOk result (λ name. name ≡ file_type_name file.now type_id) }
{
    match file_types(alloc, file) {
        Ok(Some(types)) => name_of_id(alloc, &types, type_id),
        Ok(None) => Ok(None),
        Err(error) => Err(error),
    }
}

/// A refusal about the type of a file with an id.
pub fn type_refusal_in(
    alloc: Global,
    file: &[u8],
    number: u32,
    type_id: u32,
) -> Result<Refusal, AllocError>
    ensures { IfOk result (λ refusal. refusal ≡ type_refusal_in file.now number type_id) }
{
    let name = file_type_name(alloc, file, type_id)?;
    let details = Details::none().of_type(type_id);
    Ok(Refusal {
        number,
        name,
        details,
    })
}

/// The first byte of types whose numbers have their highest byte first.
const BIG_ENDIAN: u8 = 0xeb;

/// The number of the first fault of reading types.
const FIRST_FAULT: u32 = 200;

/// The byte order that the magic number tells.
fn order_by_magic(bytes: &[u8]) -> Endianness
    ensures { result ≡ order_by_magic bytes.now }
{
    match bytes {
        [BIG_ENDIAN, ..] => Endianness::Big,
        _ => Endianness::Little,
    }
}

/// The types that the bytes spell.
pub fn read_types(alloc: Global, bytes: &[u8]) -> Result<Btf, Refusal>
    ensures types { IfOk result (λ types. types_in bytes.now ≡ Ok types) }
    ensures why { IfErr result (CannotRead bytes.now) }
    ensures refuses { IfErr result (λ r. 0 < r.number) }
{
    match Btf::parse(alloc, bytes, order_by_magic(bytes)) {
        Ok(types) => Ok(types),
        Err(error) => Err(type_refusal(FIRST_FAULT, error)),
    }
}

/// A kernel's types, where there are any: no bytes are none.
pub fn read_types_if(alloc: Global, bytes: &[u8]) -> Result<Option<Btf>, Refusal>
    ensures types { IfOk result (λ types. types_if bytes.now ≡ Ok types) }
    ensures why { IfErr result (CannotReadIf bytes.now) }
    ensures refuses { IfErr result (λ r. 0 < r.number) }
{
    if bytes.is_empty() {
        return Ok(None);
    }
    match read_types(alloc, bytes) {
        Ok(types) => Ok(Some(types)),
        Err(refusal) => Err(refusal),
    }
}
