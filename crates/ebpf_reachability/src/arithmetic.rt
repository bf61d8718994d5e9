//! Arithmetic on known numbers (RFC 9669, section 4.1).

ghost use Rattle.std.specs.Prelude.{◌≡◌, ◌<◌, ◌%◌, ◌^◌};
ghost use Rattle.std.specs.Int.{w8, w16, w32, w64};
ghost use Rattle.ebpf_reachability.specs.Arithmetic.{computed, extended, extended_32, extended_64, negated, operation_at_offset_0, quotient, remainder, shifted_left, shifted_right, shifted_signed, signed, signed_quotient, signed_remainder, swapped, truncated};

use crate::operations::{ADD, AND, ARSH, DIV, LSH, MOD, MUL, OR, RSH, SUB, XOR};

fn quotient_32(x: u32, y: u32) -> u32
    ensures { result ≡ quotient x y }
{
    if y == 0 { 0 } else { x / y }
}

fn quotient_64(x: u64, y: u64) -> u64
    ensures { result ≡ quotient x y }
{
    if y == 0 { 0 } else { x / y }
}

fn remainder_32(x: u32, y: u32) -> u32
    ensures { result ≡ remainder x y }
{
    if y == 0 { x } else { x % y }
}

fn remainder_64(x: u64, y: u64) -> u64
    ensures { result ≡ remainder x y }
{
    if y == 0 { x } else { x % y }
}

fn signed_quotient_32(x: u32, y: u32) -> u32
    ensures { result ≡ signed_quotient w32 x y }
{
    if y == 0 {
        return 0;
    }
    x.cast_signed()
        .wrapping_div(y.cast_signed())
        .cast_unsigned()
}

fn signed_quotient_64(x: u64, y: u64) -> u64
    ensures { result ≡ signed_quotient w64 x y }
{
    if y == 0 {
        return 0;
    }
    x.cast_signed()
        .wrapping_div(y.cast_signed())
        .cast_unsigned()
}

fn signed_remainder_32(x: u32, y: u32) -> u32
    ensures { result ≡ signed_remainder w32 x y }
{
    if y == 0 {
        return x;
    }
    x.cast_signed()
        .wrapping_rem(y.cast_signed())
        .cast_unsigned()
}

fn signed_remainder_64(x: u64, y: u64) -> u64
    ensures { result ≡ signed_remainder w64 x y }
{
    if y == 0 {
        return x;
    }
    x.cast_signed()
        .wrapping_rem(y.cast_signed())
        .cast_unsigned()
}

fn shifted_left_32(x: u32, y: u32) -> u32
    ensures { result ≡ shifted_left w32 x y }
{
    x << (y % 32)
}

fn shifted_left_64(x: u64, y: u64) -> u64
    ensures { result ≡ shifted_left w64 x y }
{
    x << (y % 64)
}

fn shifted_right_32(x: u32, y: u32) -> u32
    ensures { result ≡ shifted_right w32 x y }
{
    x >> (y % 32)
}

fn shifted_right_64(x: u64, y: u64) -> u64
    ensures { result ≡ shifted_right w64 x y }
{
    x >> (y % 64)
}

fn shifted_signed_32(x: u32, y: u32) -> u32
    ensures { result ≡ shifted_signed w32 x y }
{
    x.cast_signed().wrapping_shr(y).cast_unsigned()
}

fn shifted_signed_64(x: u64, y: u64) -> u64
    ensures { result ≡ shifted_signed w64 x y }
{
    let by = (y % 64) as u32;
    x.cast_signed().wrapping_shr(by).cast_unsigned()
}

/// The number with its sign turned.
pub fn negated_32(x: u32) -> u32
    ensures { result ≡ negated w32 x }
{
    0u32.wrapping_sub(x)
}

/// The number with its sign turned.
pub fn negated_64(x: u64) -> u64
    ensures { result ≡ negated w64 x }
{
    0u64.wrapping_sub(x)
}

/// The operations with offset 0, but for NEG, MOV and END.
fn plain_32(operation: u8, x: u32, y: u32) -> Option<u32>
    ensures { result ≡ operation_at_offset_0 w32 operation x y }
{
    match operation {
        ADD => Some(x.wrapping_add(y)),
        SUB => Some(x.wrapping_sub(y)),
        MUL => Some(x.wrapping_mul(y)),
        DIV => Some(quotient_32(x, y)),
        OR => Some(x | y),
        AND => Some(x & y),
        LSH => Some(shifted_left_32(x, y)),
        RSH => Some(shifted_right_32(x, y)),
        MOD => Some(remainder_32(x, y)),
        XOR => Some(x ^ y),
        ARSH => Some(shifted_signed_32(x, y)),
        _ => None,
    }
}

/// The operations with offset 0, but for NEG, MOV and END.
fn plain_64(operation: u8, x: u64, y: u64) -> Option<u64>
    ensures { result ≡ operation_at_offset_0 w64 operation x y }
{
    match operation {
        ADD => Some(x.wrapping_add(y)),
        SUB => Some(x.wrapping_sub(y)),
        MUL => Some(x.wrapping_mul(y)),
        DIV => Some(quotient_64(x, y)),
        OR => Some(x | y),
        AND => Some(x & y),
        LSH => Some(shifted_left_64(x, y)),
        RSH => Some(shifted_right_64(x, y)),
        MOD => Some(remainder_64(x, y)),
        XOR => Some(x ^ y),
        ARSH => Some(shifted_signed_64(x, y)),
        _ => None,
    }
}

/// Those with offset 1.
fn signed_32(operation: u8, x: u32, y: u32) -> Option<u32>
    ensures { result ≡ signed w32 operation x y }
{
    match operation {
        DIV => Some(signed_quotient_32(x, y)),
        MOD => Some(signed_remainder_32(x, y)),
        _ => None,
    }
}

/// Those with offset 1.
fn signed_64(operation: u8, x: u64, y: u64) -> Option<u64>
    ensures { result ≡ signed w64 operation x y }
{
    match operation {
        DIV => Some(signed_quotient_64(x, y)),
        MOD => Some(signed_remainder_64(x, y)),
        _ => None,
    }
}

/// What an operation of class 4 gives, by its offset.
#[tactic(auto, unfolding(crate::specs::Arithmetic::computed))]
pub fn computed_32(operation: u8, offset: i16, x: u32, y: u32) -> Option<u32>
    ensures { result ≡ computed w32 operation offset x y }
{
    if offset == 0 {
        return plain_32(operation, x, y);
    }
    if offset == 1 {
        return signed_32(operation, x, y);
    }
    None
}

/// What an operation of class 7 gives, by its offset.
#[tactic(auto, unfolding(crate::specs::Arithmetic::computed))]
pub fn computed_64(operation: u8, offset: i16, x: u64, y: u64) -> Option<u64>
    ensures { result ≡ computed w64 operation offset x y }
{
    if offset == 0 {
        return plain_64(operation, x, y);
    }
    if offset == 1 {
        return signed_64(operation, x, y);
    }
    None
}

/// The lower eight bits, sign extended to 32.
fn from_8_to_32(x: u64) -> u32
    ensures { result ≡ extended w32 w8 x }
{
    let low = (x % 256) as u8;
    i32::from(low.cast_signed()).cast_unsigned()
}

/// The lower 16 bits, sign extended to 32.
fn from_16_to_32(x: u64) -> u32
    ensures { result ≡ extended w32 w16 x }
{
    let low = (x % 65536) as u16;
    i32::from(low.cast_signed()).cast_unsigned()
}

/// The lower eight bits, sign extended to 64.
fn from_8_to_64(x: u64) -> u64
    ensures { result ≡ extended w64 w8 x }
{
    let low = (x % 256) as u8;
    i64::from(low.cast_signed()).cast_unsigned()
}

/// The lower 16 bits, sign extended to 64.
fn from_16_to_64(x: u64) -> u64
    ensures { result ≡ extended w64 w16 x }
{
    let low = (x % 65536) as u16;
    i64::from(low.cast_signed()).cast_unsigned()
}

/// The lower 32 bits, sign extended to 64.
fn from_32_to_64(x: u64) -> u64
    ensures { result ≡ extended w64 w32 x }
{
    i64::from(low_32(x).cast_signed()).cast_unsigned()
}

/// The lower 32 bits.
pub fn low_32(x: u64) -> u32
    ensures { result ≡ x % 2 ^ 32 }
{
    (x % 4294967296) as u32
}

/// So many lower bits, sign extended to 32 bits.
pub fn extended_32(bits: i16, x: u64) -> Option<u32>
    ensures { result ≡ extended_32 bits x }
{
    match bits {
        8 => Some(from_8_to_32(x)),
        16 => Some(from_16_to_32(x)),
        _ => None,
    }
}

/// So many lower bits, sign extended to 64 bits.
pub fn extended_64(bits: i16, x: u64) -> Option<u64>
    ensures { result ≡ extended_64 bits x }
{
    match bits {
        8 => Some(from_8_to_64(x)),
        16 => Some(from_16_to_64(x)),
        32 => Some(from_32_to_64(x)),
        _ => None,
    }
}

/// So many lower bits.
pub fn truncated(bits: i32, x: u64) -> Option<u64>
    ensures { result ≡ truncated bits x }
{
    match bits {
        16 => Some(x % 65536),
        32 => Some(x % 4294967296),
        64 => Some(x),
        _ => None,
    }
}

/// So many lower bits, their bytes turned round.
pub fn swapped(bits: i32, x: u64) -> Option<u64>
    ensures { result ≡ swapped bits x }
{
    match bits {
        16 => Some(u64::from(((x % 65536) as u16).swap_bytes())),
        32 => Some(u64::from(low_32(x).swap_bytes())),
        64 => Some(x.swap_bytes()),
        _ => None,
    }
}
