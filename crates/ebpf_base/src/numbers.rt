//! Reads numbers at offsets of a file, in either byte order.

ghost use Rattle.std.specs.Prelude.{◌≡◌, ◌+◌, ◌≤◌, length};
ghost use Rattle.ebpf_base.specs.Numbers.{number_at};

use crate::endianness::Endianness;
use byteorder::{BigEndian, ByteOrder, LittleEndian};

/// Returns the number in the two bytes from `offset` on. The two bytes are inside `bytes`.
#[tactic(auto, unfolding(crate::specs::Numbers::number_at))]
pub fn read_u16(order: Endianness, bytes: &[u8], offset: usize) -> u16
    requires { offset + 2 ≤ length bytes.now }
    ensures { result ≡ number_at order 2 bytes.now offset }
{
    let field = &bytes[offset..];
    match order {
        Endianness::Little => LittleEndian::read_u16(field),
        Endianness::Big => BigEndian::read_u16(field),
    }
}

/// Returns the number in the four bytes from `offset` on. The four bytes are inside `bytes`.
#[tactic(auto, unfolding(crate::specs::Numbers::number_at))]
pub fn read_u32(order: Endianness, bytes: &[u8], offset: usize) -> u32
    requires { offset + 4 ≤ length bytes.now }
    ensures { result ≡ number_at order 4 bytes.now offset }
{
    let field = &bytes[offset..];
    match order {
        Endianness::Little => LittleEndian::read_u32(field),
        Endianness::Big => BigEndian::read_u32(field),
    }
}

/// Returns the number in the eight bytes from `offset` on. The eight bytes are inside `bytes`.
#[tactic(auto, unfolding(crate::specs::Numbers::number_at))]
pub fn read_u64(order: Endianness, bytes: &[u8], offset: usize) -> u64
    requires { offset + 8 ≤ length bytes.now }
    ensures { result ≡ number_at order 8 bytes.now offset }
{
    let field = &bytes[offset..];
    match order {
        Endianness::Little => LittleEndian::read_u64(field),
        Endianness::Big => BigEndian::read_u64(field),
    }
}
