//! The members, variants, parameters and entries of types.

ghost use Rattle.ebpf_btf.specs.Format.{member_at, enum_at, enum64_at, param_at, entry_at};
ghost use Rattle.ebpf_btf.specs.Words.{member_words, enum_words, enum64_words, param_words, entry_words};

use crate::list_rows::ListRow;
use ebpf_base::Endianness;
use ebpf_base::numbers::read_u32;
use std::alloc::AllocError;

/// A member of a STRUCT or UNION (`struct btf_member`).
#[derive(Clone, Copy, Debug, PartialEq, Eq)]
pub struct BtfMember {
    /// The offset of the member's name in the strings; 0 for a member without a name.
    pub name_offset: u32,
    /// The id of the member's type.
    pub btf_type: u32,
    /// The bit offset of the member. Where the `kind_flag` of the type is set, the 24 low bits have the
    /// bit offset, and the 8 high bits the bit field size.
    pub offset: u32,
}

/// A variant of an ENUM (`struct btf_enum`).
#[derive(Clone, Copy, Debug, PartialEq, Eq)]
pub struct BtfEnum {
    /// The offset of the variant's name in the strings.
    pub name_offset: u32,
    /// The 32 bits of the value, two's complement in a signed ENUM.
    pub value: u32,
}

/// A variant of an ENUM64 (`struct btf_enum64`).
#[derive(Clone, Copy, Debug, PartialEq, Eq)]
pub struct BtfEnum64 {
    /// The offset of the variant's name in the strings.
    pub name_offset: u32,
    /// The 32 low bits of the value.
    pub value_low: u32,
    /// The 32 high bits of the value.
    pub value_high: u32,
}

/// A parameter of a FUNC_PROTO (`struct btf_param`).
#[derive(Clone, Copy, Debug, PartialEq, Eq)]
pub struct BtfParam {
    /// The offset of the parameter's name in the strings; 0 for a parameter without a name.
    pub name_offset: u32,
    /// The id of the parameter's type.
    pub btf_type: u32,
}

/// An entry of a DATASEC (`struct btf_var_secinfo`).
#[derive(Clone, Copy, Debug, PartialEq, Eq)]
pub struct DataSecEntry {
    /// The id of the variable's type.
    pub btf_type: u32,
    /// The offset of the variable in the section, in bytes.
    pub offset: u32,
    /// The size of the variable in bytes.
    pub size: u32,
}

/// A variant of a 64-bit enumeration that a UNION replaces.
#[derive(Clone, Copy, Debug, PartialEq, Eq)]
pub struct Enum64VariantFallback {
    /// The offset of the variant's name in the strings.
    pub name_offset: u32,
    /// The 64 bits of the value, two's complement in a signed enumeration.
    pub value: u64,
}

impl ListRow for BtfMember {
    ghost SIZE = { 12 };

    const SIZE: usize = 12;

    ghost row_at = { member_at };

    ghost words = { member_words };

    #[tactic(auto, unfolding(crate::specs::Format::member_at))]
    fn read(order: Endianness, bytes: &[u8], offset: usize) -> BtfMember {
        BtfMember {
            name_offset: read_u32(order, bytes, offset),
            btf_type: read_u32(order, bytes, offset + 4),
            offset: read_u32(order, bytes, offset + 8),
        }
    }

    fn duplicate(&self) -> BtfMember {
        *self
    }

    fn append_words(&self, out: &mut Vec<u32>) -> Result<(), AllocError> {
        out.extend_from_slice(&[self.name_offset, self.btf_type, self.offset])
    }
}

impl ListRow for BtfEnum {
    ghost SIZE = { 8 };

    const SIZE: usize = 8;

    ghost row_at = { enum_at };

    ghost words = { enum_words };

    #[tactic(auto, unfolding(crate::specs::Format::enum_at))]
    fn read(order: Endianness, bytes: &[u8], offset: usize) -> BtfEnum {
        BtfEnum {
            name_offset: read_u32(order, bytes, offset),
            value: read_u32(order, bytes, offset + 4),
        }
    }

    fn duplicate(&self) -> BtfEnum {
        *self
    }

    fn append_words(&self, out: &mut Vec<u32>) -> Result<(), AllocError> {
        out.extend_from_slice(&[self.name_offset, self.value])
    }
}

impl ListRow for BtfEnum64 {
    ghost SIZE = { 12 };

    const SIZE: usize = 12;

    ghost row_at = { enum64_at };

    ghost words = { enum64_words };

    #[tactic(auto, unfolding(crate::specs::Format::enum64_at))]
    fn read(order: Endianness, bytes: &[u8], offset: usize) -> BtfEnum64 {
        BtfEnum64 {
            name_offset: read_u32(order, bytes, offset),
            value_low: read_u32(order, bytes, offset + 4),
            value_high: read_u32(order, bytes, offset + 8),
        }
    }

    fn duplicate(&self) -> BtfEnum64 {
        *self
    }

    fn append_words(&self, out: &mut Vec<u32>) -> Result<(), AllocError> {
        out.extend_from_slice(&[self.name_offset, self.value_low, self.value_high])
    }
}

impl ListRow for BtfParam {
    ghost SIZE = { 8 };

    const SIZE: usize = 8;

    ghost row_at = { param_at };

    ghost words = { param_words };

    #[tactic(auto, unfolding(crate::specs::Format::param_at))]
    fn read(order: Endianness, bytes: &[u8], offset: usize) -> BtfParam {
        BtfParam {
            name_offset: read_u32(order, bytes, offset),
            btf_type: read_u32(order, bytes, offset + 4),
        }
    }

    fn duplicate(&self) -> BtfParam {
        *self
    }

    fn append_words(&self, out: &mut Vec<u32>) -> Result<(), AllocError> {
        out.extend_from_slice(&[self.name_offset, self.btf_type])
    }
}

impl ListRow for DataSecEntry {
    ghost SIZE = { 12 };

    const SIZE: usize = 12;

    ghost row_at = { entry_at };

    ghost words = { entry_words };

    #[tactic(auto, unfolding(crate::specs::Format::entry_at))]
    fn read(order: Endianness, bytes: &[u8], offset: usize) -> DataSecEntry {
        DataSecEntry {
            btf_type: read_u32(order, bytes, offset),
            offset: read_u32(order, bytes, offset + 4),
            size: read_u32(order, bytes, offset + 8),
        }
    }

    fn duplicate(&self) -> DataSecEntry {
        *self
    }

    fn append_words(&self, out: &mut Vec<u32>) -> Result<(), AllocError> {
        out.extend_from_slice(&[self.btf_type, self.offset, self.size])
    }
}
