//! A type, by its kind.

ghost use Rattle.std.specs.Prelude.{◌≡◌, ◌<◌};
ghost use Rattle.ebpf_btf.specs.Words.{count_of, flag_of};
ghost use Rattle.ebpf_btf.specs.Types.{kind_number, kind_of, name_off, size_word, type_word, members_of, has_bit_fields, bit_offset, bit_field_size, is_signed};

use crate::fallback::UnionFallback;
use crate::kind::BtfKind;
use crate::list_rows::Rows;
use crate::members::{BtfEnum, BtfEnum64, BtfMember, BtfParam, DataSecEntry};

/// A type (`struct btf_type` and what follows it), by its kind; the kinds are in the order of their numbers.
///
/// `name_offset` is the offset of the name in the strings, 0 where the type has none; `size` is in bytes;
/// `btf_type` and other fields that end in `_type` are ids of types.
#[derive(Debug, Drop)]
pub enum BtfType<'a> {
    /// No type, or `void`.
    Unknown,
    /// An integer. `int_data` has the encoding in bits 24 to 27 (1: signed, 2: char, 4: bool), the bit offset in bits 16
    /// to 23, and the number of bits in bits 0 to 7.
    Int {
        name_offset: u32,
        size: u32,
        int_data: u32,
    },
    /// A pointer.
    Ptr {
        name_offset: u32,
        btf_type: u32,
    },
    /// An array of `len` elements.
    Array {
        name_offset: u32,
        element_type: u32,
        index_type: u32,
        len: u32,
    },
    /// A struct. Where `kind_flag` is set, members have sizes of bit fields.
    Struct {
        name_offset: u32,
        size: u32,
        kind_flag: bool,
        members: Rows<'a, BtfMember>,
    },
    /// A union. Where `kind_flag` is set, members have sizes of bit fields.
    Union {
        name_offset: u32,
        size: u32,
        kind_flag: bool,
        members: Rows<'a, BtfMember>,
        enum64_fallback: UnionFallback<'a>,
    },
    /// An enumeration with values of up to 32 bits, signed where `kind_flag` is set.
    Enum {
        name_offset: u32,
        size: u32,
        kind_flag: bool,
        variants: Rows<'a, BtfEnum>,
    },
    /// A struct or, where `kind_flag` is set, a union that is declared and not defined.
    Fwd {
        name_offset: u32,
        kind_flag: bool,
    },
    /// A name for a type.
    Typedef {
        name_offset: u32,
        btf_type: u32,
    },
    /// `volatile`.
    Volatile {
        name_offset: u32,
        btf_type: u32,
    },
    /// `const`.
    Const {
        name_offset: u32,
        btf_type: u32,
    },
    /// `restrict`.
    Restrict {
        name_offset: u32,
        btf_type: u32,
    },
    /// A function; `btf_type` is its FUNC_PROTO.
    Func {
        name_offset: u32,
        btf_type: u32,
    },
    /// The prototype of a function: its parameters, and in `btf_type` the type of its result.
    FuncProto {
        name_offset: u32,
        btf_type: u32,
        params: Rows<'a, BtfParam>,
    },
    /// A variable.
    Var {
        name_offset: u32,
        btf_type: u32,
        linkage: u32,
    },
    /// A section with variables.
    DataSec {
        name_offset: u32,
        size: u32,
        entries: Rows<'a, DataSecEntry>,
    },
    /// A floating point number.
    Float {
        name_offset: u32,
        size: u32,
    },
    /// A tag of a declaration, or of the member or parameter `component_index`.
    DeclTag {
        name_offset: u32,
        btf_type: u32,
        component_index: u32,
    },
    /// A tag of a type.
    TypeTag {
        name_offset: u32,
        btf_type: u32,
    },
    /// An enumeration with values of 64 bits, signed where `kind_flag` is set.
    Enum64 {
        name_offset: u32,
        size: u32,
        kind_flag: bool,
        variants: Rows<'a, BtfEnum64>,
    },
}

impl<'a> BtfType<'a> {
    /// Returns the kind of the type.
    #[tactic(auto, unfolding(crate::specs::Types::kind_of))]
    pub fn kind(&self) -> BtfKind
        ensures { result ≡ kind_of self.now }
    {
        match self {
            BtfType::Unknown => BtfKind::Unknown,
            BtfType::Int { .. } => BtfKind::Int,
            BtfType::Ptr { .. } => BtfKind::Ptr,
            BtfType::Array { .. } => BtfKind::Array,
            BtfType::Struct { .. } => BtfKind::Struct,
            BtfType::Union { .. } => BtfKind::Union,
            BtfType::Enum { .. } => BtfKind::Enum,
            BtfType::Fwd { .. } => BtfKind::Fwd,
            BtfType::Typedef { .. } => BtfKind::Typedef,
            BtfType::Volatile { .. } => BtfKind::Volatile,
            BtfType::Const { .. } => BtfKind::Const,
            BtfType::Restrict { .. } => BtfKind::Restrict,
            BtfType::Func { .. } => BtfKind::Func,
            BtfType::FuncProto { .. } => BtfKind::FuncProto,
            BtfType::Var { .. } => BtfKind::Var,
            BtfType::DataSec { .. } => BtfKind::DataSec,
            BtfType::Float { .. } => BtfKind::Float,
            BtfType::DeclTag { .. } => BtfKind::DeclTag,
            BtfType::TypeTag { .. } => BtfKind::TypeTag,
            BtfType::Enum64 { .. } => BtfKind::Enum64,
        }
    }

    /// Returns the offset of the type's name in the strings; 0 for a type without a name and for `Unknown`.
    #[tactic(auto, unfolding(crate::specs::Types::name_off))]
    pub fn name_offset(&self) -> u32
        ensures { result ≡ name_off self.now }
    {
        match self {
            BtfType::Unknown => 0,
            BtfType::Fwd { name_offset, .. }
            | BtfType::Const { name_offset, .. }
            | BtfType::Volatile { name_offset, .. }
            | BtfType::Restrict { name_offset, .. }
            | BtfType::Ptr { name_offset, .. }
            | BtfType::Typedef { name_offset, .. }
            | BtfType::Func { name_offset, .. }
            | BtfType::Int { name_offset, .. }
            | BtfType::Float { name_offset, .. }
            | BtfType::Enum { name_offset, .. }
            | BtfType::Array { name_offset, .. }
            | BtfType::Struct { name_offset, .. }
            | BtfType::Union { name_offset, .. }
            | BtfType::FuncProto { name_offset, .. }
            | BtfType::Var { name_offset, .. }
            | BtfType::DataSec { name_offset, .. }
            | BtfType::DeclTag { name_offset, .. }
            | BtfType::TypeTag { name_offset, .. }
            | BtfType::Enum64 { name_offset, .. } => *name_offset,
        }
    }

    /// Returns the size field of an INT, STRUCT, UNION, ENUM, ENUM64, FLOAT or DATASEC, in bytes; none for other kinds.
    #[tactic(auto, unfolding(crate::specs::Types::size_word))]
    pub fn size(&self) -> Option<u32>
        ensures { result ≡ size_word self.now }
    {
        match self {
            BtfType::Int { size, .. }
            | BtfType::Struct { size, .. }
            | BtfType::Union { size, .. }
            | BtfType::Enum { size, .. }
            | BtfType::Enum64 { size, .. }
            | BtfType::Float { size, .. }
            | BtfType::DataSec { size, .. } => Some(*size),
            _ => None,
        }
    }

    /// Returns the type field of a PTR, TYPEDEF, VOLATILE, CONST, RESTRICT, TYPE_TAG, DECL_TAG, VAR, FUNC or FUNC_PROTO, an
    /// id; none for other kinds. The type field of a FUNC_PROTO is the type of the result.
    #[tactic(auto, unfolding(crate::specs::Types::type_word))]
    pub fn btf_type(&self) -> Option<u32>
        ensures { result ≡ type_word self.now }
    {
        match self {
            BtfType::Ptr { btf_type, .. }
            | BtfType::Typedef { btf_type, .. }
            | BtfType::Volatile { btf_type, .. }
            | BtfType::Const { btf_type, .. }
            | BtfType::Restrict { btf_type, .. }
            | BtfType::TypeTag { btf_type, .. }
            | BtfType::DeclTag { btf_type, .. }
            | BtfType::Var { btf_type, .. }
            | BtfType::Func { btf_type, .. }
            | BtfType::FuncProto { btf_type, .. } => Some(*btf_type),
            _ => None,
        }
    }

    /// Returns the members of a STRUCT or UNION, in order; none for other kinds.
    #[tactic(auto, unfolding(crate::specs::Types::members_of))]
    pub fn members(&self) -> Option<Rows<'a, BtfMember>>
        ensures { result ≡ members_of self.now }
    {
        match self {
            BtfType::Struct { members, .. } | BtfType::Union { members, .. } => {
                Some(members.copy())
            }
            _ => None,
        }
    }

    /// Returns whether the `kind_flag` of a STRUCT or UNION is set.
    #[tactic(auto, unfolding(crate::specs::Types::has_bit_fields))]
    fn has_bit_fields(&self) -> bool
        ensures { result ≡ has_bit_fields self.now }
    {
        match self {
            BtfType::Struct { kind_flag, .. } | BtfType::Union { kind_flag, .. } => *kind_flag,
            _ => false,
        }
    }

    /// Returns the bit offset of a member of this type: the 24 low bits of its offset field where the type's `kind_flag` is
    /// set, else the offset field.
    #[tactic(auto, unfolding(crate::specs::Types::bit_offset))]
    pub fn member_bit_offset(&self, member: &BtfMember) -> u32
        ensures { result ≡ bit_offset self.now member.now }
    {
        if self.has_bit_fields() {
            member.offset & 0xff_ffff
        } else {
            member.offset
        }
    }

    /// Returns the bit field size of a member of this type, in bits: the 8 high bits of its offset field where the type's
    /// `kind_flag` is set, else 0. The size is 0 for a member that is no bit field.
    #[tactic(auto, unfolding(crate::specs::Types::bit_field_size))]
    pub fn member_bit_field_size(&self, member: &BtfMember) -> u32
        ensures { result ≡ bit_field_size self.now member.now }
    {
        if self.has_bit_fields() {
            member.offset >> 24
        } else {
            0
        }
    }

    /// Returns whether the values of the type are signed: bit 24 of the data of an INT, the `kind_flag` of an ENUM or
    /// ENUM64; false for other kinds.
    #[tactic(auto, unfolding(crate::specs::Types::is_signed))]
    pub fn is_signed(&self) -> bool
        ensures { result ≡ is_signed self.now }
    {
        match self {
            BtfType::Int { int_data, .. } => (int_data >> 24) & 1 == 1,
            BtfType::Enum { kind_flag, .. } | BtfType::Enum64 { kind_flag, .. } => *kind_flag,
            _ => false,
        }
    }

    /// Returns the number of the kind in `.BTF`, 0 to 19.
    #[tactic(auto, unfolding(crate::specs::Types::kind_of, crate::specs::Types::kind_number))]
    pub(crate) fn kind_number(&self) -> u32
        ensures number { result ≡ kind_number (kind_of self.now) }
        ensures low { result < 32 }
    {
        match self {
            BtfType::Unknown => 0,
            BtfType::Int { .. } => 1,
            BtfType::Ptr { .. } => 2,
            BtfType::Array { .. } => 3,
            BtfType::Struct { .. } => 4,
            BtfType::Union { .. } => 5,
            BtfType::Enum { .. } => 6,
            BtfType::Fwd { .. } => 7,
            BtfType::Typedef { .. } => 8,
            BtfType::Volatile { .. } => 9,
            BtfType::Const { .. } => 10,
            BtfType::Restrict { .. } => 11,
            BtfType::Func { .. } => 12,
            BtfType::FuncProto { .. } => 13,
            BtfType::Var { .. } => 14,
            BtfType::DataSec { .. } => 15,
            BtfType::Float { .. } => 16,
            BtfType::DeclTag { .. } => 17,
            BtfType::TypeTag { .. } => 18,
            BtfType::Enum64 { .. } => 19,
        }
    }

    /// Returns the flag of the info word, bit 31.
    #[tactic(auto, unfolding(crate::specs::Words::flag_of))]
    pub(crate) fn kind_flag(&self) -> bool
        ensures { result ≡ flag_of self.now }
    {
        match self {
            BtfType::Struct { kind_flag, .. }
            | BtfType::Union { kind_flag, .. }
            | BtfType::Enum { kind_flag, .. }
            | BtfType::Enum64 { kind_flag, .. }
            | BtfType::Fwd { kind_flag, .. } => *kind_flag,
            _ => false,
        }
    }

    /// Returns the number of members, variants, parameters or entries.
    #[tactic(auto, unfolding(crate::specs::Words::count_of))]
    pub(crate) fn count(&self) -> usize
        ensures { result ≡ count_of self.now }
    {
        match self {
            BtfType::Struct { members, .. } => members.len(),
            BtfType::Union { members, .. } => members.len(),
            BtfType::Enum { variants, .. } => variants.len(),
            BtfType::Enum64 { variants, .. } => variants.len(),
            BtfType::FuncProto { params, .. } => params.len(),
            BtfType::DataSec { entries, .. } => entries.len(),
            _ => 0,
        }
    }
}
