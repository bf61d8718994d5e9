//! Reads `.BTF` (the kernel's Documentation/bpf/btf.rst, 2. "BTF Type and String Encoding").

ghost use Rattle.std.specs.Prelude.{◌≡◌, ◌+◌, ◌*◌, ◌-◌, ◌<◌, ◌≤◌, ◌^◌, length, IfOk, Ok, Some};
ghost use Rattle.std.specs.Option.{ok_or};
ghost use Rattle.ebpf_base.specs.Faults.{Gives, Refuses, fault_of};
ghost use Rattle.ebpf_btf.specs.Memory.{is_btf_memory};
ghost use Rattle.ebpf_btf.specs.Offsets.{types_here, HoldsTypes};
ghost use Rattle.ebpf_btf.specs.Reading.{Spells, header_fault, types_start, types_end, types_part, strings_start, strings_end, strings_in, types_of, type_info_of};
ghost use Rattle.ebpf_btf.specs.TypeInfo.{TypeInfo};
ghost use Rattle.ebpf_btf.specs.declared.error.BtfError.TheVariants.{InvalidTypeInfo};

use crate::btf::Btf;
use crate::error::BtfError;
use crate::view::next_offset;
use ebpf_base::Endianness;
use ebpf_base::numbers::{read_u16, read_u32};
use std::alloc::Global;

/// The magic of `.BTF`, its first two bytes (BTF_MAGIC).
const MAGIC: u16 = 0xeb9f;

/// The minimum length of the header in bytes.
const HEADER_LENGTH: usize = 24;

/// The usual length of a type in bytes, for an estimate of the number of types.
const USUAL_LENGTH: usize = 24;

/// The ranges of the types and of the strings in the bytes.
#[derive(Clone, Copy)]
struct PartRanges {
    types_start: usize,
    types_end: usize,
    strings_start: usize,
    strings_end: usize,
}

/// Returns the ranges of the types and of the strings, which are inside the bytes.
#[tactic(auto, unfolding(crate::specs::Reading::header_fault, crate::specs::Reading::header_length, crate::specs::Reading::magic, crate::specs::Reading::types_start, crate::specs::Reading::types_end, crate::specs::Reading::strings_start, crate::specs::Reading::strings_end))]
fn read_header(order: Endianness, bytes: &[u8]) -> Result<PartRanges, BtfError>
    ensures fault { fault_of result ≡ header_fault order bytes.now }
    ensures types { IfOk result (λ p.
        (p.types_start ≡ types_start order bytes.now)
        × (p.types_end ≡ types_end order bytes.now)) }
    ensures strings { IfOk result (λ p.
        (p.strings_start ≡ strings_start order bytes.now)
        × (p.strings_end ≡ strings_end order bytes.now)) }
    ensures order { IfOk result (λ p.
        (p.types_start ≤ p.types_end) × (p.strings_start ≤ p.strings_end)) }
    ensures inside { IfOk result (λ p.
        (p.types_end ≤ length bytes.now) × (p.strings_end ≤ length bytes.now)) }
    ensures small { IfOk result (λ p. p.types_end < p.types_start + 2 ^ 32) }
{
    if bytes.len() < HEADER_LENGTH || read_u16(order, bytes, 0) != MAGIC {
        return Err(BtfError::InvalidHeader);
    }
    let header_length = read_u32(order, bytes, 4) as usize;
    if header_length < HEADER_LENGTH {
        return Err(BtfError::InvalidHeader);
    }
    let types_start = header_length + read_u32(order, bytes, 8) as usize;
    let types_end = types_start + read_u32(order, bytes, 12) as usize;
    let strings_start = header_length + read_u32(order, bytes, 16) as usize;
    let strings_end = strings_start + read_u32(order, bytes, 20) as usize;
    if types_end > bytes.len() || strings_end > bytes.len() {
        return Err(BtfError::InvalidHeader);
    }
    Ok(PartRanges {
        types_start,
        types_end,
        strings_start,
        strings_end,
    })
}

/// Returns the offsets of the types of a part, one after the other up to the end of the part.
///
/// # Errors
///
/// - `InvalidTypeInfo`: a type runs past the end of the part, or has an unknown kind.
/// - `OutOfMemory`: out of memory.
fn read_offsets(alloc: Global, order: Endianness, part: &[u8]) -> Result<Vec<u32>, BtfError>
    requires small { length part.now < 2 ^ 32 }
    ensures found { IfOk result (λ offsets.
        types_of order part.now ≡ Some (types_here order part.now offsets.items)) }
    ensures kept { IfOk result (λ offsets. HoldsTypes order part.now 0 offsets.items) }
    ensures fault { Refuses is_btf_memory result
        (fault_of (ok_or (types_of order part.now) InvalidTypeInfo)) }
{
    let end = part.len() as u32;
    let mut offsets = Vec::with_capacity(alloc, part.len() / USUAL_LENGTH)?;
    let mut offset = 0;
    while offset < end {
        let Some(next) = next_offset(order, part, offset) else {
            return Err(BtfError::InvalidTypeInfo);
        };
        offsets.push(offset)?;
        offset = next;
    }
    Ok(offsets)
}

/// Returns the type information of some bytes, with a copy of the types and the strings.
#[tactic(auto, unfolding(crate::specs::Reading::type_info_of, crate::specs::Reading::types_part, crate::specs::Reading::strings_in))]
fn copy_parts(alloc: Global, order: Endianness, data: &[u8]) -> Result<Btf, BtfError>
    ensures { Gives is_btf_memory result (type_info_of order «data».now) }
{
    let parts = read_header(order, data)?;
    let part = &data[parts.types_start..parts.types_end];
    let offsets = read_offsets(alloc, order, part)?;
    let bytes = Vec::from_slice(alloc, part)?;
    let strings = Vec::from_slice(alloc, &data[parts.strings_start..parts.strings_end])?;
    Ok(Btf::from_parts(order, bytes, 0, offsets, strings))
}

/// Returns the type information of some bytes, which it keeps; it copies the strings alone.
#[tactic(auto, unfolding(crate::specs::Reading::type_info_of, crate::specs::Reading::types_part, crate::specs::Reading::strings_in), using(crate::proofs::Cut::part_is))]
fn take_parts(order: Endianness, data: Vec<u8>) -> Result<Btf, BtfError>
    ensures { Gives is_btf_memory result (type_info_of order «data».items) }
{
    let alloc = *data.allocator();
    let mut bytes = data;
    let parts = read_header(order, &bytes)?;
    let offsets = read_offsets(alloc, order, &bytes[parts.types_start..parts.types_end])?;
    let strings = Vec::from_slice(alloc, &bytes[parts.strings_start..parts.strings_end])?;
    bytes.truncate(parts.types_end);
    Ok(Btf::from_parts(order, bytes, parts.types_start, offsets, strings))
}

impl Btf {
    /// Reads `.BTF`, and copies its types and strings. Numbers are read in the given byte order; version and flags of the
    /// header are ignored.
    ///
    /// # Errors
    ///
    /// - `InvalidHeader`: the bytes are fewer than 24, the magic is not 0xeb9f, the header length is below 24, or a part runs
    ///   past the end of the bytes.
    /// - `InvalidTypeInfo`: a type runs past the end of its part, or has kind 0 or a kind past 19.
    /// - `OutOfMemory`: out of memory.
    #[tactic(auto, using(crate::proofs::Spelling::found_spelled, crate::proofs::Spelling::only_spelled))]
    pub fn parse(alloc: Global, data: &[u8], endianness: Endianness) -> Result<Btf, BtfError>
        ensures exact { Gives is_btf_memory result (type_info_of endianness «data».now) }
        ensures found { IfOk result (λ info. Spells endianness «data».now info) }
        ensures only { (info : TypeInfo) → Spells endianness «data».now info
            → Gives is_btf_memory result (Ok info) }
    {
        copy_parts(alloc, endianness, data)
    }

    /// Reads `.BTF` and keeps its bytes; the call copies the strings alone. Numbers are read in the given byte order.
    ///
    /// # Errors
    ///
    /// - The errors of `parse`, in the same cases.
    #[tactic(auto, using(crate::proofs::Spelling::found_spelled, crate::proofs::Spelling::only_spelled))]
    pub fn from_vec(data: Vec<u8>, endianness: Endianness) -> Result<Btf, BtfError>
        ensures exact { Gives is_btf_memory result (type_info_of endianness «data».items) }
        ensures found { IfOk result (λ info. Spells endianness «data».items info) }
        ensures only { (info : TypeInfo) → Spells endianness «data».items info
            → Gives is_btf_memory result (Ok info) }
    {
        take_parts(endianness, data)
    }
}
