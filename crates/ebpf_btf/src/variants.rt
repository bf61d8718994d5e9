//! The variants of enumerations, in one form.

ghost use Rattle.std.specs.Prelude.{◌≡◌, length, map, option_map, slice_get};
ghost use Rattle.std.specs.Option.{option_and_then};
ghost use Rattle.ebpf_btf.specs.Variants.{variant_of_32, variant_of_64, variant_of_fallback, variants_of, sign_extended};

use crate::fallback::Enum64Fallback;
use crate::members::{BtfEnum, BtfEnum64, Enum64VariantFallback};
use crate::types::BtfType;

/// A variant of an ENUM, an ENUM64 or a UNION that replaces a 64-bit enumeration.
#[derive(Clone, Copy, Debug, PartialEq, Eq)]
pub struct BtfVariant {
    /// The offset of the variant's name in the strings.
    pub name_offset: u32,
    /// The 64 bits of the value. A value of 32 bits is sign-extended in a signed enumeration, else zero-extended.
    pub value: u64,
}

/// Returns 32 bits as 64: sign-extended where `signed` is true, else zero-extended.
fn sign_extended(signed: bool, value: u32) -> u64
    ensures { result ≡ sign_extended signed value }
{
    if signed && value >= 0x8000_0000 {
        u64::from(value) + 0xffff_ffff_0000_0000
    } else {
        u64::from(value)
    }
}

/// Returns the variant of an ENUM.
fn variant_of_32(signed: bool, variant: BtfEnum) -> BtfVariant
    ensures { result ≡ variant_of_32 signed variant }
{
    BtfVariant {
        name_offset: variant.name_offset,
        value: sign_extended(signed, variant.value),
    }
}

/// Returns the variant of an ENUM64.
fn variant_of_64(variant: BtfEnum64) -> BtfVariant
    ensures { result ≡ variant_of_64 variant }
{
    BtfVariant {
        name_offset: variant.name_offset,
        value: u64::from(variant.value_high) * 0x1_0000_0000 + u64::from(variant.value_low),
    }
}

/// Returns the variant of an enumeration that a UNION replaces.
fn variant_of_fallback(variant: Enum64VariantFallback) -> BtfVariant
    ensures { result ≡ variant_of_fallback variant }
{
    BtfVariant {
        name_offset: variant.name_offset,
        value: variant.value,
    }
}

/// Returns the variant at an index of an enumeration that a UNION replaces.
fn fallback_variant(fallback: &Enum64Fallback, index: usize) -> Option<BtfVariant>
    ensures { result ≡ slice_get (map variant_of_fallback fallback.now.variants) index }
{
    let variant = fallback.variants.get(index)?;
    Some(variant_of_fallback(*variant))
}

impl<'a> BtfType<'a> {
    /// Returns the number of variants of an ENUM, an ENUM64 or a UNION that replaces a 64-bit enumeration; none for other
    /// types.
    #[tactic(auto, unfolding(crate::specs::Variants::variants_of))]
    pub fn variant_count(&self) -> Option<usize>
        ensures { result ≡ option_map length (variants_of self.now) }
    {
        match self {
            BtfType::Enum { variants, .. } => Some(variants.len()),
            BtfType::Enum64 { variants, .. } => Some(variants.len()),
            BtfType::Union {
                enum64_fallback,
                ..
            } => Some(enum64_fallback.get()?.variants.len()),
            _ => None,
        }
    }

    /// Returns the variant at an index, from 0 on, of an ENUM, an ENUM64 or a UNION that replaces a 64-bit enumeration; none
    /// past the last variant and for other types.
    #[tactic(auto, unfolding(crate::specs::Variants::variants_of))]
    pub fn variant(&self, index: usize) -> Option<BtfVariant>
        ensures { result
            ≡ option_and_then (λ variants. slice_get variants index) (variants_of self.now) }
    {
        match self {
            BtfType::Enum {
                kind_flag,
                variants,
                ..
            } => Some(variant_of_32(*kind_flag, variants.get(index)?)),
            BtfType::Enum64 { variants, .. } => Some(variant_of_64(variants.get(index)?)),
            BtfType::Union {
                enum64_fallback,
                ..
            } => fallback_variant(enum64_fallback.get()?, index),
            _ => None,
        }
    }
}
