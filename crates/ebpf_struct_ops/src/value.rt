//! The bytes of the value of a map of struct_ops.

ghost use Rattle.std.specs.Prelude.{◌≡◌, IfOk, fold};
ghost use Rattle.ebpf_struct_ops.specs.Values.{byte_after, byte_at, value_bytes};

use crate::placement::Placement;
use ebpf_base::Items;
use std::alloc::{AllocError, Global};

/// The byte at an offset of a value after a placement, where it was another before.
fn byte_after(bytes: &[u8], offset: u64, before: u8, placement: &Placement) -> u8
    ensures { result ≡ byte_after bytes.now offset before placement.now }
{
    match placement {
        Placement::Bytes { from, to, size } if *to <= offset && offset - *to < u64::from(*size) => {
            let behind = (offset - *to) as usize;
            match bytes.get(*from as usize + behind) {
                Some(byte) => *byte,
                None => before,
            }
        }
        _ => before,
    }
}

/// The byte at an offset of a value.
fn byte_at(bytes: &[u8], placements: &[Placement], offset: u64) -> u8
    ensures { result ≡ byte_at bytes.now placements.now offset }
{
    let mut byte = 0;
    for placement in placements {
        byte = byte_after(bytes, offset, byte, placement);
    }
    byte
}

/// The bytes of a value of a size.
pub fn value_bytes(
    alloc: Global,
    bytes: &[u8],
    placements: &[Placement],
    size: u32,
) -> Result<Items<u8>, AllocError>
    ensures { IfOk result (λ value. value ≡ value_bytes bytes.now placements.now size) }
{
    let mut value = Items::new(alloc);
    for offset in 0..size {
        value.push(byte_at(bytes, placements, u64::from(offset)))?;
    }
    Ok(value)
}
