//! The parts of a file's sections that can be read before any other fault of the file is known.

ghost use Rattle.std.specs.Prelude.{◌≡◌, ◌<◌, ◌≤◌, ◌^◌, IfOk, true};
ghost use Rattle.std.specs.Result.{result_ok};
ghost use Rattle.ebpf_btf.specs.Reading.{type_info_of};
ghost use Rattle.ebpf_btf_ext.specs.ExtReading.{read_ext};
ghost use Rattle.ebpf_limits.specs.OwnedBytes.{license_bytes, type_information_bytes, types_in_bytes, part_bytes, ext_in_bytes, readable_data, data_named, readable_types, readable_ext};

use crate::sizes::{EXT_BYTE, EXTERN_TYPES, STRING_BYTE, TYPE_BYTE};
use ebpf_base::numbers::read_u32;
use ebpf_btf::{Btf, BtfError, Endianness};
use ebpf_btf_ext::BtfExt;
use ebpf_elf::{ElfFile, ElfSection};
use std::alloc::{AllocError, Global};

/// The data of a section; empty if it is outside the file.
#[tactic(auto, unfolding(crate::specs::OwnedBytes::readable_data))]
fn readable_data<'a>(section: &ElfSection<'a>) -> &'a [u8]
    ensures { result.now ≡ readable_data section.now }
{
    match section.data() {
        Ok(data) => data,
        Err(_) => &[],
    }
}

/// The data of the first section of a name; empty if there is no such section.
fn data_named<'a>(file: &ElfFile<'a>, name: &str) -> &'a [u8]
    ensures { result.now ≡ data_named name.now file.now }
{
    match file.section_by_name(name) {
        Some(section) => readable_data(&section),
        None => &[],
    }
}

/// The types in bytes, if they can be read.
fn types_in(alloc: Global, order: Endianness, bytes: &[u8]) -> Result<Option<Btf>, AllocError>
    ensures { IfOk result (λ types. types ≡ result_ok (type_info_of order bytes.now)) }
{
    match Btf::parse(alloc, bytes, order) {
        Ok(types) => Ok(Some(types)),
        Err(BtfError::OutOfMemory) => Err(AllocError),
        Err(_) => Ok(None),
    }
}

/// The info entries and CO-RE relocations in bytes, if they can be read; type matches are read too.
fn ext_in(
    alloc: Global,
    order: Endianness,
    bytes: &[u8],
    types: &Btf,
) -> Result<Option<BtfExt>, AllocError>
    ensures { IfOk result (λ ext.
        ext ≡ result_ok (read_ext true order bytes.now types.now.strings)) }
{
    match BtfExt::parse_as(alloc, bytes, order, types, true) {
        Ok(ext) => Ok(Some(ext)),
        Err(BtfError::OutOfMemory) => Err(AllocError),
        Err(_) => Ok(None),
    }
}

/// The types of a file, if they can be read.
#[tactic(auto, unfolding(crate::specs::OwnedBytes::readable_types))]
pub fn readable_types(alloc: Global, file: &ElfFile<'_>) -> Result<Option<Btf>, AllocError>
    ensures { IfOk result (λ types. types ≡ readable_types file.now) }
{
    types_in(alloc, file.endianness(), data_named(file, ".BTF"))
}

/// The contents of the section `.BTF.ext` of a file with these types, if they can be read.
#[tactic(auto, unfolding(crate::specs::OwnedBytes::readable_ext))]
pub fn readable_ext(
    alloc: Global,
    file: &ElfFile<'_>,
    types: &Option<Btf>,
) -> Result<Option<BtfExt>, AllocError>
    requires { types.now ≡ readable_types file.now }
    ensures { IfOk result (λ ext. ext ≡ readable_ext file.now) }
{
    match types {
        Some(types) => ext_in(
            alloc,
            file.endianness(),
            data_named(file, ".BTF.ext"),
            types,
        ),
        None => Ok(None),
    }
}

/// The number of bytes of a file's license.
#[tactic(auto, unfolding(crate::specs::OwnedBytes::license_bytes))]
pub fn license_bytes(file: &ElfFile<'_>) -> usize
    ensures { result ≡ license_bytes file.now }
{
    match file.section_by_name("license") {
        Some(section) => readable_data(&section).len(),
        None => 3,
    }
}

/// The number of bytes of the types and strings in `.BTF`.
fn types_bytes(order: Endianness, bytes: &[u8], types: &Option<Btf>) -> u128
    ensures exact { result ≡ types_in_bytes order bytes.now types.now }
    ensures few { result < 2 ^ 36 }
{
    if types.is_none() || bytes.len() < 24 {
        return 0;
    }
    TYPE_BYTE * u128::from(read_u32(order, bytes, 12))
        + STRING_BYTE * u128::from(read_u32(order, bytes, 20))
}

/// The number of bytes of a part of `.BTF.ext`, whose offset and length are at `at` in the header.
#[tactic(auto, unfolding(ebpf_btf_ext::specs::ExtFormat::part_length, ebpf_btf::specs::Reading::header_length))]
fn part_bytes(order: Endianness, bytes: &[u8], at: usize) -> u128
    requires { at ≤ 24 }
    ensures exact { result ≡ part_bytes order bytes.now at }
    ensures few { result < 2 ^ 32 }
{
    if bytes.len() < at + 8 || (read_u32(order, bytes, 4) as usize) < at + 8 {
        return 0;
    }
    u128::from(read_u32(order, bytes, at + 4))
}

/// The number of bytes of the parts of `.BTF.ext`.
fn ext_bytes(order: Endianness, bytes: &[u8], ext: &Option<BtfExt>) -> u128
    ensures exact { result ≡ ext_in_bytes order bytes.now ext.now }
    ensures few { result < 2 ^ 38 }
{
    if ext.is_none() {
        return 0;
    }
    let funcs = part_bytes(order, bytes, 8);
    let lines = part_bytes(order, bytes, 16);
    let relocations = part_bytes(order, bytes, 24);
    EXT_BYTE * (funcs + lines + relocations)
}

/// The number of bytes of a file's type information.
#[tactic(auto, unfolding(crate::specs::OwnedBytes::type_information_bytes))]
pub fn type_information_bytes(file: &ElfFile<'_>, types: &Option<Btf>, ext: &Option<BtfExt>) -> u128
    requires types { types.now ≡ readable_types file.now }
    requires ext { ext.now ≡ readable_ext file.now }
    ensures { result ≡ type_information_bytes file.now }
{
    let order = file.endianness();
    let types = types_bytes(order, data_named(file, ".BTF"), types);
    EXTERN_TYPES + types + ext_bytes(order, data_named(file, ".BTF.ext"), ext)
}
