//! Writes `.BTF`.

ghost use Rattle.std.specs.Prelude.{◌≡◌, ◌++◌, ◌<◌, ◌^◌, length, IfOk, Ok};
ghost use Rattle.ebpf_btf.specs.Header.{first_word, header_bytes};

use crate::words::bytes_of;
use ebpf_base::Endianness;
use std::alloc::{AllocError, Global};

/// Returns the magic, the version 1 and no flags, as a word in a byte order.
#[tactic(auto, unfolding(crate::specs::Header::first_word))]
fn first_word(order: Endianness) -> u32
    ensures { result ≡ first_word order }
{
    match order {
        Endianness::Little => 0x0001_eb9f,
        Endianness::Big => 0xeb9f_0100,
    }
}

/// Returns the header of types with a length in bytes, followed by strings with a length in bytes.
#[tactic(auto, unfolding(crate::specs::Header::header_bytes))]
fn header(alloc: Global, order: Endianness, types: u32, strings: u32) -> Result<Vec<u8>, AllocError>
    ensures { IfOk result (λ out. out.items ≡ header_bytes order types strings) }
{
    let out = bytes_of(
        alloc,
        order,
        &[first_word(order), 24, 0, types, types, strings],
    )?;
    Ok(out)
}

/// Returns `.BTF` of some types and strings: the header, the types and the strings.
///
/// # Errors
///
/// - `AllocError`: out of memory.
pub fn with_header(
    alloc: Global,
    order: Endianness,
    types: &[u8],
    strings: &[u8],
) -> Result<Vec<u8>, AllocError>
    requires types { length types.now < 2 ^ 32 }
    requires strings { length strings.now < 2 ^ 32 }
    ensures { IfOk result (λ out.
        out.items
        ≡ header_bytes order (length types.now) (length strings.now)
        ++ types.now
        ++ strings.now) }
{
    let mut out = header(alloc, order, types.len() as u32, strings.len() as u32)?;
    out.extend_from_slice(types)?;
    out.extend_from_slice(strings)?;
    Ok(out)
}
