//! Rows of bytes, one after the other, for readers that have checked the length of the bytes.

ghost use Rattle.std.specs.Prelude.{◌≡◌, ◌+◌, ◌*◌, ◌<◌, ◌≤◌, ℕ, List, length, IfOk};
ghost use Rattle.ebpf_btf.specs.Items.{items_at};
ghost use Rattle.ebpf_base.specs.declared.endianness.Endianness.{Endianness};

use ebpf_base::{Endianness, Items};
use std::alloc::{AllocError, Global};

/// A value that is read from a row of bytes.
pub trait Row {
    /// The least number of bytes that a row has.
    ghost least: { ℕ };

    /// The value in the bytes from an offset on.
    ghost row_at: { Endianness → List ℕ → ℕ → Self };

    /// Returns the value of the row at an offset.
    fn read(order: Endianness, bytes: &[u8], offset: usize) -> Self
        requires { offset + least ≤ length bytes.now }
        ensures { result ≡ row_at order bytes.now offset };
}

/// Returns the `count` rows from an offset on, each `size` bytes after the one before.
///
/// # Errors
///
/// - `AllocError`: out of memory.
#[tactic(auto, using(crate::proofs::InOrder::items_none, crate::proofs::InOrder::items_more, crate::proofs::InOrder::record_inside))]
pub fn read_rows<R: Row + Drop>(
    alloc: Global,
    order: Endianness,
    bytes: &[u8],
    offset: usize,
    size: usize,
    count: usize,
) -> Result<Items<R>, AllocError>
    requires whole { offset + size * count ≤ length bytes.now }
    requires long { 0 < count → R.least ≤ size }
    ensures { IfOk result (λ items. items ≡ items_at (R.row_at order bytes.now) size offset count) }
{
    let mut items = Vec::with_capacity(alloc, count)?;
    for k in 0..count {
        items.push_reserved(R::read(order, bytes, offset + size * k));
    }
    Ok(Items::from_vec(items))
}
