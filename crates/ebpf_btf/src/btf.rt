//! Type information: types and their strings, stored as bytes.

ghost use Rattle.std.specs.Prelude.{◌≡◌, ◌==◌, ◌*◌, ◌<◌, ◌≤◌, ◌^◌, ◌∷◌, ◌++◌, ◌-◌, [], drop, length, slice_get, slice_index_or, IfOk, IfErr, OnOk, OnErr, Ok, Err, None, Some, option_map};
ghost use Rattle.std.specs.List.{list_any};
ghost use Rattle.std.specs.Option.{option_copied};
ghost use Rattle.std.specs.Result.{result_ok};
ghost use Rattle.std.specs.Cow.{cow_str_bytes};
ghost use Rattle.std.specs.Str.Lossy.{utf8_lossy};
ghost use Rattle.ebpf_base.specs.Faults.{Refuses, fault_of};
ghost use Rattle.ebpf_btf.specs.Additions.{with_type, with_string, only_first, too_large_fault};
ghost use Rattle.ebpf_btf.specs.Header.{order_of};
ghost use Rattle.ebpf_btf.specs.Memory.{is_btf_memory};
ghost use Rattle.ebpf_btf.specs.Offsets.{AreBeside, HoldsTypes, beside, held_types, types_here};
ghost use Rattle.ebpf_btf.specs.Reading.{type_info_of};
ghost use Rattle.ebpf_btf.specs.Strings.{AreReadableBelow, before_zero, text_at};
ghost use Rattle.ebpf_btf.specs.TypeInfo.{no_types};
ghost use Rattle.ebpf_btf.specs.Types.{kind_of, name_off};
ghost use Rattle.ebpf_btf.specs.Words.{has_fallback, type_fault, written_fault};
ghost use Rattle.ebpf_btf.specs.declared.error.BtfError.TheVariants.{OutOfMemory, UnknownBtfType};
ghost use Rattle.ebpf_btf.specs.declared.types.BtfType.TheVariants.{Unknown};

use crate::error::BtfError;
use crate::fallback::{
    Enum64Fallback, OffsetFallback, add_fallback, cut_fallbacks, fallback_at, fallback_of,
    with_fallback,
};
use crate::kind::BtfKind;
use crate::readable::readable_below;
use crate::strings::{read_bytes, read_text};
use crate::types::BtfType;
use crate::types_iter::TypesIter;
use crate::view::{TypeHead, head_here, type_here};
use crate::words::type_bytes;
use crate::write::with_header;
use ebpf_base::Endianness;
use std::alloc::{AllocError, Global};
use std::borrow::CowStr;
use std::marker::Model;

/// The limit of the length of the types and of written strings, in bytes: both are shorter.
const LENGTH_LIMIT: usize = 0x1_0000_0000;

/// The limit of the counts of members, variants, parameters and entries: each is lower.
const COUNT_LIMIT: usize = 0x1_0000;

/// Types, by their ids, and the strings that have their names: the bytes of both, and the offset of each type.
///
/// Contracts see the list of the types, from id 0 on, which is `void`, and the bytes of the strings.
#[derive(Debug, Drop)]
pub struct Btf {
    bytes: Vec<u8>,
    /// The offset of the first type in the bytes.
    start: usize,
    /// The offset of each type after the first type's, from id 1 on.
    offsets: Vec<u32>,
    /// The enumerations that UNIONs replace, which no bytes hold.
    fallbacks: Vec<OffsetFallback>,
    strings: Vec<u8>,
    /// The offset below which a text can be read; at no other offset can one be read.
    readable: usize,
    order: Endianness,
}

impl Model for Btf {
    ghost use Rattle.std.specs.Prelude.{◌∷◌, drop};
    ghost use Rattle.ebpf_btf.specs.Offsets.{AreBeside, HoldsTypes, held_types};
    ghost use Rattle.ebpf_btf.specs.Strings.{AreReadableBelow};
    ghost use Rattle.ebpf_btf.specs.TypeInfo.{TypeInfo};
    ghost use Rattle.ebpf_btf.specs.declared.types.BtfType.TheVariants.{Unknown};

    ghost Value = { TypeInfo };

    ghost view = { λ b.
        record {
          types = Unknown
              ∷ held_types b.order (drop b.start b.bytes.items) b.fallbacks.items
              b.offsets.items;
          strings = b.strings.items;
        } };

    ghost invariant = { λ b.
        HoldsTypes b.order b.bytes.items b.start b.offsets.items
        × AreBeside (drop b.start b.bytes.items) b.fallbacks.items
        × AreReadableBelow b.strings.items b.readable };
}

impl Btf {
    /// Returns type information with `void` alone and little-endian byte order. Its strings are one zero byte: the empty
    /// name, at offset 0.
    ///
    /// # Errors
    ///
    /// - `OutOfMemory`: out of memory.
    #[tactic(auto, using(crate::proofs::Listed::holds_none, crate::proofs::Listed::none_here))]
    pub fn new(alloc: Global) -> Result<Btf, BtfError>
        ensures empty { IfOk result (λ b. b ≡ no_types) }
        ensures memory { IfErr result (λ e. e ≡ OutOfMemory) }
    {
        let mut strings = Vec::new(alloc);
        strings.push(0)?;
        let none = Vec::new(alloc);
        Ok(Btf::from_parts(Endianness::Little, none, 0, Vec::new(alloc), strings))
    }

    /// Returns the types in bytes from an offset on, by their offsets, and their strings.
    #[tactic(auto, using(crate::proofs::Beside::none_beside, crate::proofs::Held::held_alone))]
    pub(crate) fn from_parts(
        order: Endianness,
        bytes: Vec<u8>,
        start: usize,
        offsets: Vec<u32>,
        strings: Vec<u8>,
    ) -> Btf
        requires { HoldsTypes order bytes.items start offsets.items }
        ensures types { result.types
            ≡ Unknown ∷ types_here order (drop start bytes.items) offsets.items }
        ensures strings { result.strings ≡ strings.items }
    {
        let readable = readable_below(&strings);
        let fallbacks = Vec::new(*strings.allocator());
        Btf {
            bytes,
            start,
            offsets,
            fallbacks,
            strings,
            readable,
            order,
        }
    }

    /// Returns the number of types, `void` included.
    #[inline]
    #[tactic(auto, using(crate::proofs::Held::held_length))]
    pub fn len(&self) -> usize
        ensures all { result ≡ length self.now.types }
        ensures few { result ≤ 2 ^ 32 }
    {
        1 + self.offsets.len()
    }

    /// Returns false: `void` is always there.
    pub fn is_empty(&self) -> bool
        ensures { result ≡ (length self.now.types == 0) }
    {
        self.len() == 0
    }

    /// Returns the type with an id; none past the last id. Id 0 is `void`.
    #[inline]
    #[tactic(auto, using(crate::proofs::Held::held_first, crate::proofs::Held::held_some, crate::proofs::Held::held_none, crate::proofs::Listed::inside_at))]
    pub fn get(&self, id: usize) -> Option<BtfType<'_>>
        ensures { result ≡ slice_get self.now.types id }
    {
        let _ = &self.offsets;
        if id == 0 {
            return Some(BtfType::Unknown);
        }
        let Some(offset) = offset_at(&self.offsets, id - 1) else {
            return None;
        };
        let ty = type_here(self.order, behind(&self.bytes, self.start), offset);
        Some(with_fallback(fallback_at(&self.fallbacks, offset), ty))
    }

    /// Returns the type with an id below the number of types. Id 0 is `void`.
    #[inline]
    #[tactic(auto, using(crate::proofs::Listed::never_none, crate::proofs::InOrder::item_read))]
    pub fn at(&self, id: usize) -> BtfType<'_>
        requires { id < length self.now.types }
        ensures found { slice_get self.now.types id ≡ Some result }
        ensures item { result ≡ slice_index_or self.now.types id result }
    {
        match self.get(id) {
            Some(ty) => ty,
            None => BtfType::Unknown,
        }
    }

    /// Returns the kind and the name offset of the type with an id; none past the last id. Id 0 is `void`.
    #[inline]
    #[tactic(auto, using(crate::proofs::Held::held_first, crate::proofs::Held::held_none, crate::proofs::Held::head_kind, crate::proofs::Held::head_name, crate::proofs::Listed::inside_at), unfolding(crate::specs::Types::kind_of, crate::specs::Types::name_off))]
    pub fn head(&self, id: usize) -> Option<TypeHead>
        ensures kind { option_map (λ head. head.kind) result
            ≡ option_map kind_of (slice_get self.now.types id) }
        ensures name { option_map (λ head. head.name_offset) result
            ≡ option_map name_off (slice_get self.now.types id) }
    {
        let _ = &self.offsets;
        if id == 0 {
            return Some(TypeHead {
                kind: BtfKind::Unknown,
                name_offset: 0,
            });
        }
        let Some(offset) = offset_at(&self.offsets, id - 1) else {
            return None;
        };
        Some(head_here(self.order, behind(&self.bytes, self.start), offset))
    }

    /// Returns an iterator over the types, in order of their ids from 0 on. Id 0 is `void`.
    #[inline]
    pub fn types(&self) -> TypesIter<'_>
        ensures all { result ≡ self.now.types }
        ensures few { length result ≤ 2 ^ 32 }
        ensures void { slice_get result 0 ≡ Some Unknown }
    {
        let _ = &self.offsets;
        let _ = self.len();
        TypesIter::new(self)
    }

    /// Returns the type with an id.
    ///
    /// # Errors
    ///
    /// - `UnknownBtfType`: no type has the id.
    pub fn type_by_id(&self, type_id: u32) -> Result<BtfType<'_>, BtfError>
        ensures found { result_ok result ≡ slice_get self.now.types type_id }
        ensures missing { IfErr result (λ e. e ≡ UnknownBtfType type_id) }
    {
        match self.get(type_id as usize) {
            Some(found) => Ok(found),
            None => Err(BtfError::UnknownBtfType { type_id }),
        }
    }

    /// Returns the text at an offset of the strings, up to the next zero byte.
    ///
    /// Each invalid UTF-8 sequence is U+FFFD, as by `String::from_utf8_lossy`. The text is a copy only where it has such a
    /// sequence.
    ///
    /// # Errors
    ///
    /// - `InvalidStringOffset`: the offset is outside the strings, or no zero byte follows.
    /// - `OutOfMemory`: out of memory for a copy.
    pub fn string_at(&self, offset: u32) -> Result<CowStr<'_, Global>, BtfError>
        ensures text { IfOk result (λ text.
            text_at self.now.strings offset ≡ Ok (cow_str_bytes text)) }
        ensures fault { Refuses is_btf_memory result (fault_of (text_at self.now.strings offset)) }
    {
        read_text(*self.strings.allocator(), &self.strings, offset)
    }

    /// Returns the bytes of the strings.
    pub fn strings(&self) -> &[u8]
        ensures { result.now ≡ self.now.strings }
    {
        self.strings.as_slice()
    }

    /// Returns the bytes from an offset of the strings up to the next zero byte, without decoding.
    ///
    /// # Errors
    ///
    /// - `InvalidStringOffset`: the offset is outside the strings, or no zero byte follows.
    pub fn bytes_at(&self, offset: u32) -> Result<&[u8], BtfError>
        ensures text { IfOk result (λ bytes.
            text_at self.now.strings offset ≡ Ok (utf8_lossy bytes.now)) }
        ensures found { option_copied (result_ok result)
            ≡ before_zero (drop offset self.now.strings) }
        ensures fault { IfErr result (λ e. text_at self.now.strings offset ≡ Err e) }
    {
        read_bytes(&self.strings, offset)
    }

    /// Returns the length of the strings in bytes.
    pub fn string_len(&self) -> usize
        ensures { result ≡ length self.now.strings }
    {
        self.strings.len()
    }

    /// Returns the offset below which a text can be read; at no other offset can one be read.
    pub(crate) fn readable(&self) -> usize
        ensures { AreReadableBelow self.now.strings result }
    {
        self.readable
    }

    /// Returns the allocator of the types and strings.
    pub(crate) fn allocator(&self) -> Global {
        *self.strings.allocator()
    }

    /// Returns a copy of all types and strings.
    pub(crate) fn copy(&self) -> Result<Btf, AllocError>
        ensures { IfOk result (λ copy. copy ≡ self.now) }
    {
        let alloc = self.allocator();
        let bytes = Vec::from_slice(alloc, &self.bytes)?;
        let offsets = Vec::from_slice(alloc, &self.offsets)?;
        let fallbacks = copy_fallbacks(&self.fallbacks)?;
        let strings = Vec::from_slice(alloc, &self.strings)?;
        Ok(Btf {
            bytes,
            start: self.start,
            offsets,
            fallbacks,
            strings,
            readable: self.readable,
            order: self.order,
        })
    }

    /// Adds a type and returns its id.
    ///
    /// # Errors
    ///
    /// - `TooLarge`: the type is `void`, has more than 65,535 members, variants, parameters or entries, or extends the types
    ///   to 2^32 bytes.
    /// - `OutOfMemory`: out of memory.
    ///
    /// On error nothing changes.
    #[tactic(auto, using(crate::proofs::Held::held_with_one, crate::proofs::Held::held_length))]
    pub fn add_type(&mut self, ty: &BtfType<'_>) -> Result<u32, BtfError>
        ensures id { IfOk result (λ id. id ≡ length self.old.types) }
        ensures added { OnOk result (self.new ≡ with_type self.old ty.now) }
        ensures fault { Refuses is_btf_memory result (type_fault self.old ty.now) }
        ensures unchanged { OnErr result (self.new ≡ self.old) }
    {
        if ty.kind_number() == 0 || ty.count() >= COUNT_LIMIT {
            return Err(BtfError::TooLarge);
        }
        let added = type_bytes(*self.strings.allocator(), self.order, ty)?;
        let id = 1 + self.offsets.len();
        let offset = behind(&self.bytes, self.start).len();
        if offset + added.as_slice().len() >= LENGTH_LIMIT {
            return Err(BtfError::TooLarge);
        }
        append(
            &mut self.bytes,
            &mut self.offsets,
            &mut self.fallbacks,
            added.as_slice(),
            offset as u32,
            fallback_of(ty),
        )?;
        Ok(id as u32)
    }

    /// Adds a text and a zero byte to the strings and returns the text's offset.
    ///
    /// # Errors
    ///
    /// - `TooLarge`: the offset needs more than 32 bits.
    /// - `OutOfMemory`: out of memory.
    ///
    /// On error nothing changes.
    pub fn add_string(&mut self, text: &str) -> Result<u32, BtfError>
        ensures offset { IfOk result (λ offset. offset ≡ length self.old.strings) }
        ensures added { OnOk result (self.new ≡ with_string self.old text.now) }
        ensures fault { Refuses is_btf_memory result (too_large_fault (length self.old.strings)) }
        ensures unchanged { OnErr result (self.new ≡ self.old) }
    {
        let Ok(offset) = u32::try_from(self.strings.len()) else {
            return Err(BtfError::TooLarge);
        };
        append_text(&mut self.strings, text)?;
        self.readable = readable_below(&self.strings);
        Ok(offset)
    }

    /// Keeps the first `types` types, `void` included, and the first `strings` bytes of the strings, and removes the rest. A
    /// number past the end keeps all. The call allocates nothing.
    #[tactic(auto, using(crate::proofs::Held::first_all, crate::proofs::Held::first_some, crate::proofs::Held::held_front, crate::proofs::Tiles::holds_front))]
    pub fn truncate(&mut self, types: usize, strings: usize)
        requires { 0 < types }
        ensures { self.new ≡ only_first self.old types strings }
    {
        self.strings.truncate(strings);
        self.readable = readable_below(&self.strings);
        let Some(offset) = offset_at(&self.offsets, types - 1) else {
            return;
        };
        self.bytes.truncate(self.start + offset as usize);
        self.offsets.truncate(types - 1);
        cut_fallbacks(&mut self.fallbacks, offset);
    }

    /// Returns whether a UNION replaces a 64-bit enumeration.
    #[tactic(auto, using(crate::proofs::Held::none_has, crate::proofs::InOrder::any_here, crate::proofs::InOrder::any_past, crate::proofs::InOrder::any_over))]
    fn has_fallback(&self) -> bool
        ensures { result ≡ list_any has_fallback self.now.types }
    {
        if self.fallbacks.as_slice().is_empty() {
            return false;
        }
        for id in 0..self.len() {
            if fallback_of(&self.at(id)).is_some() {
                return true;
            }
        }
        false
    }

    /// Returns `.BTF` of the types and strings, in the byte order of the file that was read; little-endian after `new`.
    ///
    /// # Errors
    ///
    /// - `TooLarge`: a UNION replaces a 64-bit enumeration, which no file holds, or the strings have 2^32 bytes or more.
    /// - `OutOfMemory`: out of memory.
    #[tactic(auto, using(crate::proofs::Header::header_again, crate::proofs::Header::order_is, crate::proofs::Held::held_plain))]
    pub fn to_bytes(&self, alloc: Global) -> Result<Vec<u8>, BtfError>
        ensures again { IfOk result (λ bytes.
            type_info_of (order_of bytes.items) bytes.items ≡ Ok self.now) }
        ensures fault { Refuses is_btf_memory result (written_fault self.now) }
    {
        if self.has_fallback() || self.strings.len() >= LENGTH_LIMIT {
            return Err(BtfError::TooLarge);
        }
        let types = behind(&self.bytes, self.start);
        let bytes = with_header(alloc, self.order, types, self.strings.as_slice())?;
        Ok(bytes)
    }
}

impl Clone for Btf {
    ghost is_clone = { λ old copy. copy ≡ old };

    fn clone(&self) -> Result<Btf, AllocError> {
        self.copy()
    }
}

/// Returns a copy of the fallbacks.
#[tactic(auto, using(crate::proofs::Copies::same_list))]
fn copy_fallbacks(fallbacks: &Vec<OffsetFallback>) -> Result<Vec<OffsetFallback>, AllocError>
    ensures { IfOk result (λ copy. copy.items ≡ fallbacks.now.items) }
{
    fallbacks.clone()
}

/// Appends bytes, an offset and a fallback. On error nothing changes.
fn append(
    bytes: &mut Vec<u8>,
    offsets: &mut Vec<u32>,
    fallbacks: &mut Vec<OffsetFallback>,
    added: &[u8],
    offset: u32,
    fallback: Option<&Enum64Fallback>,
) -> Result<(), AllocError>
    ensures bytes { OnOk result (bytes.new.items ≡ bytes.old.items ++ added.now) }
    ensures offsets { OnOk result (offsets.new.items ≡ offsets.old.items ++ offset ∷ []) }
    ensures fallbacks { OnOk result
        (fallbacks.new.items
        ≡ fallbacks.old.items ++ beside offset (option_copied fallback.entry)) }
    ensures unchanged { OnErr result
        ((bytes.new.items ≡ bytes.old.items)
        × (offsets.new.items ≡ offsets.old.items)
        × (fallbacks.new.items ≡ fallbacks.old.items)) }
{
    offsets.reserve(1)?;
    let before = fallbacks.len();
    add_fallback(fallbacks, offset, fallback)?;
    if bytes.extend_from_slice(added).is_err() {
        fallbacks.truncate(before);
        return Err(AllocError);
    }
    offsets.push_reserved(offset);
    Ok(())
}

/// Returns the bytes from an offset on.
#[inline]
pub(crate) fn behind(bytes: &[u8], start: usize) -> &[u8]
    requires { start ≤ length bytes.now }
    ensures { result.now ≡ drop start bytes.now }
{
    &bytes[start..]
}

/// Returns the offset at an index.
#[inline]
fn offset_at(offsets: &[u32], index: usize) -> Option<u32>
    ensures { result ≡ slice_get offsets.now index }
{
    offsets.get(index).copied()
}

/// Appends a text and a zero byte. On error nothing changes.
fn append_text(strings: &mut Vec<u8>, text: &str) -> Result<(), AllocError>
    ensures ok { OnOk result (strings.new.items ≡ strings.old.items ++ text.now ++ 0 ∷ []) }
    ensures err { OnErr result (strings.new.items ≡ strings.old.items) }
{
    let before = strings.len();
    strings.extend_from_slice(text.as_bytes())?;
    if strings.push(0).is_err() {
        strings.truncate(before);
        return Err(AllocError);
    }
    Ok(())
}
