//! Reads one type from its bytes (the kernel's Documentation/bpf/btf.rst, 2.2 "Type Encoding").

ghost use Rattle.std.specs.Prelude.{◌≡◌, ◌+◌, ◌*◌, ◌≤◌, ◌<◌, ◌^◌, length, Some};
ghost use Rattle.std.specs.Prelude.{IfSome, option_map};
ghost use Rattle.ebpf_btf.specs.Offsets.{kind_here, type_here, end_here};
ghost use Rattle.ebpf_btf.specs.Reading.{type_before};
ghost use Rattle.ebpf_btf.specs.Types.{kind_of, name_off};
ghost use Rattle.ebpf_btf.specs.Format.{info_kind, info_kind_flag, info_vlen, info_at, further_words, end_of, spelled};

use crate::fallback::UnionFallback;
use crate::kind::BtfKind;
use crate::list_rows::Rows;
use crate::types::BtfType;
use ebpf_base::Endianness;
use ebpf_base::numbers::read_u32;

/// Returns the kind in bits 24 to 28 of an info word; none for the number 0 and numbers past 19.
#[inline]
#[tactic(auto, unfolding(crate::specs::Format::info_kind))]
pub fn info_kind(info: u32) -> Option<BtfKind>
    ensures { result ≡ info_kind info }
{
    match (info >> 24) & 0x1f {
        1 => Some(BtfKind::Int),
        2 => Some(BtfKind::Ptr),
        3 => Some(BtfKind::Array),
        4 => Some(BtfKind::Struct),
        5 => Some(BtfKind::Union),
        6 => Some(BtfKind::Enum),
        7 => Some(BtfKind::Fwd),
        8 => Some(BtfKind::Typedef),
        9 => Some(BtfKind::Volatile),
        10 => Some(BtfKind::Const),
        11 => Some(BtfKind::Restrict),
        12 => Some(BtfKind::Func),
        13 => Some(BtfKind::FuncProto),
        14 => Some(BtfKind::Var),
        15 => Some(BtfKind::DataSec),
        16 => Some(BtfKind::Float),
        17 => Some(BtfKind::DeclTag),
        18 => Some(BtfKind::TypeTag),
        19 => Some(BtfKind::Enum64),
        _ => None,
    }
}

/// Returns the vlen of an info word, bits 0 to 15: the number of members, variants, parameters or entries.
#[inline]
#[tactic(auto, unfolding(crate::specs::Format::info_vlen))]
pub fn info_vlen(info: u32) -> u32
    ensures count { result ≡ info_vlen info }
    ensures few { result ≤ 65535 }
{
    info & 0xffff
}

/// Returns the kind_flag of an info word, bit 31.
#[inline]
#[tactic(auto, unfolding(crate::specs::Format::info_kind_flag))]
fn info_kind_flag(info: u32) -> bool
    ensures { result ≡ info_kind_flag info }
{
    info >> 31 == 1
}

/// Returns the number of words after the first three of a type.
#[tactic(auto, unfolding(crate::specs::Format::further_words))]
pub fn further_words(kind: BtfKind, count: u32) -> u32
    requires { count ≤ 65535 }
    ensures count { result ≡ further_words kind count }
    ensures few { result ≤ 3 * 65535 }
{
    match kind {
        BtfKind::Int | BtfKind::Var | BtfKind::DeclTag => 1,
        BtfKind::Array => 3,
        BtfKind::Enum | BtfKind::FuncProto => 2 * count,
        BtfKind::Struct | BtfKind::Union | BtfKind::DataSec | BtfKind::Enum64 => 3 * count,
        _ => 0,
    }
}

/// Returns the kind of the type at an offset.
#[inline]
#[tactic(auto, unfolding(crate::specs::Offsets::kind_here))]
pub fn kind_here(order: Endianness, bytes: &[u8], offset: u32) -> BtfKind
    requires { offset + 12 ≤ length bytes.now }
    ensures { result ≡ kind_here order bytes.now offset }
{
    match info_kind(read_u32(order, bytes, offset as usize + 4)) {
        Some(kind) => kind,
        None => BtfKind::Unknown,
    }
}

/// Returns the type of a kind at an offset.
#[inline]
#[tactic(auto, unfolding(crate::specs::Format::spelled, crate::specs::Format::further_words))]
pub fn type_at<'a>(order: Endianness, bytes: &'a [u8], offset: u32, kind: BtfKind) -> BtfType<'a>
    requires whole { end_of order bytes.now offset kind ≤ length bytes.now }
    requires small { end_of order bytes.now offset kind < 2 ^ 32 }
    ensures { result ≡ spelled order bytes.now offset kind }
{
    let at = offset as usize;
    let name_offset = read_u32(order, bytes, at);
    let info = read_u32(order, bytes, at + 4);
    let size = read_u32(order, bytes, at + 8);
    let btf_type = size;
    let kind_flag = info_kind_flag(info);
    let count = info_vlen(info);
    let list = offset + 12;
    match kind {
        BtfKind::Unknown => BtfType::Unknown,
        BtfKind::Int => BtfType::Int {
            name_offset,
            size,
            int_data: read_u32(order, bytes, at + 12),
        },
        BtfKind::Ptr => BtfType::Ptr {
            name_offset,
            btf_type,
        },
        BtfKind::Array => BtfType::Array {
            name_offset,
            element_type: read_u32(order, bytes, at + 12),
            index_type: read_u32(order, bytes, at + 16),
            len: read_u32(order, bytes, at + 20),
        },
        BtfKind::Struct => BtfType::Struct {
            name_offset,
            size,
            kind_flag,
            members: Rows::over(order, bytes, list, count),
        },
        BtfKind::Union => BtfType::Union {
            name_offset,
            size,
            kind_flag,
            members: Rows::over(order, bytes, list, count),
            enum64_fallback: UnionFallback::new(None),
        },
        BtfKind::Enum => BtfType::Enum {
            name_offset,
            size,
            kind_flag,
            variants: Rows::over(order, bytes, list, count),
        },
        BtfKind::Fwd => BtfType::Fwd {
            name_offset,
            kind_flag,
        },
        BtfKind::Typedef => BtfType::Typedef {
            name_offset,
            btf_type,
        },
        BtfKind::Volatile => BtfType::Volatile {
            name_offset,
            btf_type,
        },
        BtfKind::Const => BtfType::Const {
            name_offset,
            btf_type,
        },
        BtfKind::Restrict => BtfType::Restrict {
            name_offset,
            btf_type,
        },
        BtfKind::Func => BtfType::Func {
            name_offset,
            btf_type,
        },
        BtfKind::FuncProto => BtfType::FuncProto {
            name_offset,
            btf_type,
            params: Rows::over(order, bytes, list, count),
        },
        BtfKind::Var => BtfType::Var {
            name_offset,
            btf_type,
            linkage: read_u32(order, bytes, at + 12),
        },
        BtfKind::DataSec => BtfType::DataSec {
            name_offset,
            size,
            entries: Rows::over(order, bytes, list, count),
        },
        BtfKind::Float => BtfType::Float { name_offset, size },
        BtfKind::DeclTag => BtfType::DeclTag {
            name_offset,
            btf_type,
            component_index: read_u32(order, bytes, at + 12),
        },
        BtfKind::TypeTag => BtfType::TypeTag {
            name_offset,
            btf_type,
        },
        BtfKind::Enum64 => BtfType::Enum64 {
            name_offset,
            size,
            kind_flag,
            variants: Rows::over(order, bytes, list, count),
        },
    }
}

/// Returns the type at an offset.
#[inline]
#[tactic(auto, unfolding(crate::specs::Offsets::type_here, crate::specs::Offsets::end_here))]
pub fn type_here<'a>(order: Endianness, bytes: &'a [u8], offset: u32) -> BtfType<'a>
    requires whole { end_here order bytes.now offset ≤ length bytes.now }
    requires small { length bytes.now < 2 ^ 32 }
    ensures { result ≡ type_here order bytes.now offset }
{
    type_at(order, bytes, offset, kind_here(order, bytes, offset))
}

/// The kind and the name offset of a type, which are in its first two words.
#[derive(Clone, Copy, Debug, PartialEq, Eq)]
pub struct TypeHead {
    /// The kind of the type.
    pub kind: BtfKind,
    /// The offset of the type's name in the strings; 0 for a type without a name.
    pub name_offset: u32,
}

/// Returns the head of the type at an offset.
#[inline]
#[tactic(auto, using(crate::proofs::Heads::kind_again, crate::proofs::Heads::name_void, crate::proofs::Heads::name_first), unfolding(crate::specs::Offsets::end_here, crate::specs::Types::kind_number))]
pub fn head_here(order: Endianness, bytes: &[u8], offset: u32) -> TypeHead
    requires { end_here order bytes.now offset ≤ length bytes.now }
    ensures kind { result.kind ≡ kind_of (type_here order bytes.now offset) }
    ensures name { result.name_offset ≡ name_off (type_here order bytes.now offset) }
{
    let kind = kind_here(order, bytes, offset);
    let name_offset = match kind {
        BtfKind::Unknown => 0,
        _ => read_u32(order, bytes, offset as usize),
    };
    TypeHead { kind, name_offset }
}

/// Returns the offset after the type at an offset; none where the type runs past the end or has an unknown kind.
#[tactic(auto, unfolding(crate::specs::Reading::type_before, crate::specs::Offsets::kind_here, crate::specs::Offsets::type_here, crate::specs::Offsets::end_here))]
pub fn next_offset(order: Endianness, bytes: &[u8], offset: u32) -> Option<u32>
    requires before { offset ≤ length bytes.now }
    requires small { length bytes.now < 2 ^ 32 }
    ensures found { type_before order bytes.now offset
        ≡ option_map (λ next. (type_here order bytes.now offset, next)) result }
    ensures known { IfSome result (λ _.
        info_kind (info_at order bytes.now offset) ≡ Some (kind_here order bytes.now offset)) }
    ensures here { IfSome result (λ next. next ≡ end_here order bytes.now offset) }
    ensures within { IfSome result (λ next. (offset + 12 ≤ next) × (next ≤ length bytes.now)) }
{
    let left = bytes.len() as u32 - offset;
    if left < 12 {
        return None;
    }
    let info = read_u32(order, bytes, offset as usize + 4);
    let kind = info_kind(info)?;
    let size = 12 + 4 * further_words(kind, info_vlen(info));
    if size > left {
        return None;
    }
    Some(offset + size)
}
