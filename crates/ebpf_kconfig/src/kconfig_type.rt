//! The types of externs that the kernel's configuration gives.

ghost use Rattle.std.specs.Prelude.{◌≡◌, ◌<◌, ◌≤◌};
ghost use Rattle.std.specs.Option.{option_and_then};
ghost use Rattle.ebpf_kconfig.specs.KconfigExterns.{array_of_char, followed_type, int_of, integer_of, is_bool_int, is_enum64_size, kconfig_alignment, kconfig_size, kconfig_type, scalar_type, tristate_of, value_type};

use ebpf_btf::strings::is_text_at;
use ebpf_btf::{Btf, BtfType};

/// The type of a kconfig extern.
#[derive(Clone, Copy, Debug, PartialEq, Eq)]
pub enum KconfigType {
    /// A `bool` of 1 byte: 1 for `y`, 0 for `n`.
    Bool,
    /// `enum libbpf_tristate`: 0 for `n`, 1 for `y`, 2 for `m`.
    Tristate {
        /// The size in bytes: 4, of an ENUM64 1, 2, 4 or 8.
        size: u32,
    },
    /// An integer of 1 byte: a number, or the character `y`, `n` or `m`.
    Char {
        /// Whether the numbers are signed.
        signed: bool,
    },
    /// An integer of more bytes.
    Integer {
        /// The size in bytes: 2, 4 or 8.
        size: u32,
        /// Whether the numbers are signed.
        signed: bool,
    },
    /// An array of integers of 1 byte: a string and a zero byte.
    CharArray {
        /// The number of elements, at least 1.
        len: u32,
    },
}

impl KconfigType {
    /// Returns the size in bytes.
    pub fn size(self) -> u32
        ensures { result ≡ kconfig_size self }
    {
        match self {
            KconfigType::Bool | KconfigType::Char { .. } => 1,
            KconfigType::Tristate { size } | KconfigType::Integer { size, .. } => size,
            KconfigType::CharArray { len } => len,
        }
    }

    /// Returns the alignment in bytes, from 1 to 8: 1 for an array, else the size.
    pub fn alignment(self) -> u32
        ensures value { result ≡ kconfig_alignment self }
        ensures positive { 0 < result }
        ensures few { result ≤ 8 }
    {
        match self {
            KconfigType::CharArray { .. } => 1,
            _ => self.size().min(8).max(1),
        }
    }
}

/// Whether an INT is a bool.
fn is_bool_int(int_data: u32) -> bool
    ensures { result ≡ is_bool_int int_data }
{
    (int_data >> 26) & 1 == 1
}

/// An INT that is no bool.
fn integer_of(size: u32, signed: bool) -> Option<KconfigType>
    ensures { result ≡ integer_of size signed }
{
    match size {
        1 => Some(KconfigType::Char { signed }),
        2 | 4 | 8 => Some(KconfigType::Integer { size, signed }),
        _ => None,
    }
}

/// An INT.
fn int_of(size: u32, is_bool: bool, signed: bool) -> Option<KconfigType>
    ensures { result ≡ int_of size is_bool signed }
{
    if !is_bool {
        return integer_of(size, signed);
    }
    if size == 1 {
        return Some(KconfigType::Bool);
    }
    None
}

/// An enumeration, where it has the name of the one of three values.
fn tristate_of(types: &Btf, name_offset: u32, size: u32) -> Option<KconfigType>
    ensures { result ≡ tristate_of types.now name_offset size }
{
    if is_text_at(types.strings(), name_offset, "libbpf_tristate") {
        return Some(KconfigType::Tristate { size });
    }
    None
}

/// Whether an ENUM64 may have a size.
fn is_enum64_size(size: u32) -> bool
    ensures { result ≡ is_enum64_size size }
{
    size == 1 || size == 2 || size == 4 || size == 8
}

/// The kconfig type of a type that is no array.
#[tactic(auto, unfolding(crate::specs::KconfigExterns::scalar_type))]
fn scalar_type(types: &Btf, ty: &BtfType<'_>) -> Option<KconfigType>
    ensures { result ≡ scalar_type types.now ty.now }
{
    match ty {
        BtfType::Int { size, int_data, .. } => {
            int_of(*size, is_bool_int(*int_data), ty.is_signed())
        }
        BtfType::Enum {
            name_offset,
            size,
            ..
        } => {
            if *size != 4 {
                return None;
            }
            tristate_of(types, *name_offset, *size)
        }
        BtfType::Enum64 {
            name_offset,
            size,
            ..
        } => {
            if !is_enum64_size(*size) {
                return None;
            }
            tristate_of(types, *name_offset, *size)
        }
        _ => None,
    }
}

/// The type that an id leads to, where it can be followed.
fn followed_type(types: &Btf, type_id: u32) -> Option<BtfType<'_>>
    ensures { result ≡ followed_type types.now type_id }
{
    types.resolved_type(type_id).ok()
}

/// An array of elements.
fn array_of_char(len: u32, element: Option<KconfigType>) -> Option<KconfigType>
    ensures { result ≡ array_of_char len element }
{
    match element {
        Some(KconfigType::Char { .. }) if len != 0 => Some(KconfigType::CharArray { len }),
        _ => None,
    }
}

/// The kconfig type of an array's elements.
fn element_type(types: &Btf, type_id: u32) -> Option<KconfigType>
    ensures { result ≡ option_and_then (scalar_type types.now) (followed_type types.now type_id) }
{
    let element = followed_type(types, type_id)?;
    scalar_type(types, &element)
}

/// The kconfig type of a type.
#[tactic(auto, unfolding(crate::specs::KconfigExterns::value_type))]
fn value_type(types: &Btf, ty: &BtfType<'_>) -> Option<KconfigType>
    ensures { result ≡ value_type types.now ty.now }
{
    match ty {
        BtfType::Array {
            element_type: element,
            len,
            ..
        } => { array_of_char(*len, element_type(types, *element)) }
        _ => scalar_type(types, ty),
    }
}

/// The kconfig type of the type with an id. `None` where the type is no kconfig type, or its chain can't be followed.
pub fn kconfig_type(types: &Btf, type_id: u32) -> Option<KconfigType>
    ensures { result ≡ kconfig_type types.now type_id }
{
    let ty = followed_type(types, type_id)?;
    value_type(types, &ty)
}
