//! The signedness and the variants of a 64-bit enumeration that a UNION replaces.

ghost use Rattle.std.specs.Prelude.{◌≡◌, ◌<◌, ◌++◌, OnOk, OnErr, nat_lt};
ghost use Rattle.std.specs.List.{filter};
ghost use Rattle.std.specs.Option.{option_copied};
ghost use Rattle.ebpf_btf.specs.Offsets.{beside, fallback_at, with_fallback};
ghost use Rattle.ebpf_btf.specs.Words.{fallback_of};

use crate::members::Enum64VariantFallback;
use crate::types::BtfType;
use ebpf_base::Items;
use std::alloc::AllocError;
use std::fmt;
use std::marker::Model;

/// The signedness and the variants of a 64-bit enumeration that a UNION replaces for an older kernel.
#[derive(Debug, Drop)]
pub struct Enum64Fallback {
    /// Whether the values are signed.
    pub signed: bool,
    /// The variants, in order.
    pub variants: Items<Enum64VariantFallback>,
}

impl Clone for Enum64Fallback {
    ghost is_clone = { λ old copy. copy ≡ old };

    #[tactic(auto, using(crate::proofs::Copies::same_list))]
    fn clone(&self) -> Result<Enum64Fallback, AllocError> {
        Ok(Enum64Fallback {
            signed: self.signed,
            variants: self.variants.clone()?,
        })
    }
}

/// The 64-bit enumeration that a UNION replaces, borrowed; none for other UNIONs. Contracts see the option alone.
#[derive(Drop)]
pub struct UnionFallback<'a> {
    contents: Option<&'a Enum64Fallback>,
}

impl<'a> Model for UnionFallback<'a> {
    ghost use Rattle.std.specs.Prelude.{Option};
    ghost use Rattle.std.specs.Option.{option_copied};
    ghost use Rattle.ebpf_btf.specs.declared.fallback.Enum64Fallback.{Enum64Fallback};

    ghost Value = { Option Enum64Fallback };

    ghost view = { λ b. option_copied b.contents };
}

impl<'a> UnionFallback<'a> {
    /// Returns the fallback of a UNION with these contents.
    pub fn new(contents: Option<&'a Enum64Fallback>) -> UnionFallback<'a>
        ensures { result ≡ option_copied contents.entry }
    {
        UnionFallback { contents }
    }

    /// Returns the enumeration that the UNION replaces; none for a UNION that replaces none.
    pub fn get(&self) -> Option<&'a Enum64Fallback>
        ensures { option_copied result ≡ self.now }
    {
        self.contents
    }
}

impl<'a> fmt::Debug for UnionFallback<'a> {
    fn fmt<W: fmt::Write>(&self, f: &mut fmt::Formatter<W>) -> fmt::Result {
        fmt::Debug::fmt(&self.contents, f)
    }
}

/// The enumeration that the UNION at an offset replaces, which no bytes of `.BTF` hold.
#[derive(Debug, Drop)]
pub struct OffsetFallback {
    /// The offset of the UNION in the types, in bytes.
    pub offset: u32,
    /// The enumeration that the UNION replaces.
    pub fallback: Enum64Fallback,
}

impl Clone for OffsetFallback {
    ghost is_clone = { λ old copy. copy ≡ old };

    fn clone(&self) -> Result<OffsetFallback, AllocError> {
        Ok(OffsetFallback {
            offset: self.offset,
            fallback: self.fallback.clone()?,
        })
    }
}

/// Returns the enumeration that the UNION at an offset replaces; none for other types.
#[tactic(auto, unfolding(crate::specs::Offsets::fallback_at))]
pub fn fallback_at(fallbacks: &[OffsetFallback], offset: u32) -> Option<&Enum64Fallback>
    ensures { option_copied result ≡ fallback_at fallbacks.now offset }
{
    match fallbacks.iter().find(|f| f.offset == offset) {
        Some(found) => Some(&found.fallback),
        None => None,
    }
}

/// Returns a type, with the enumeration that it replaces where it is a UNION.
#[tactic(auto, unfolding(crate::specs::Offsets::with_fallback))]
pub fn with_fallback<'a>(fallback: Option<&'a Enum64Fallback>, ty: BtfType<'a>) -> BtfType<'a>
    ensures { result ≡ with_fallback (option_copied fallback.entry) ty.entry }
{
    if fallback.is_none() {
        return ty;
    }
    match ty {
        BtfType::Union {
            name_offset,
            size,
            kind_flag,
            members,
            ..
        } => BtfType::Union {
            name_offset,
            size,
            kind_flag,
            members,
            enum64_fallback: UnionFallback::new(fallback),
        },
        other => other,
    }
}

/// Returns the enumeration that a UNION replaces; none for other types.
#[tactic(auto, unfolding(crate::specs::Words::fallback_of))]
pub fn fallback_of<'a>(ty: &BtfType<'a>) -> Option<&'a Enum64Fallback>
    ensures { option_copied result ≡ fallback_of ty.now }
{
    match ty {
        BtfType::Union {
            enum64_fallback,
            ..
        } => enum64_fallback.get(),
        _ => None,
    }
}

/// Adds a copy of the enumeration that the type at an offset replaces.
///
/// # Errors
///
/// - `AllocError`: out of memory; the list is unchanged.
pub fn add_fallback(
    fallbacks: &mut Vec<OffsetFallback>,
    offset: u32,
    fallback: Option<&Enum64Fallback>,
) -> Result<(), AllocError>
    ensures added { OnOk result
        (fallbacks.new.items
        ≡ fallbacks.old.items ++ beside offset (option_copied fallback.entry)) }
    ensures unchanged { OnErr result (fallbacks.new.items ≡ fallbacks.old.items) }
{
    let Some(fallback) = fallback else {
        return Ok(());
    };
    let copy = fallback.clone()?;
    fallbacks.reserve(1)?;
    fallbacks.push_reserved(OffsetFallback {
        offset,
        fallback: copy,
    });
    Ok(())
}

/// Removes the fallbacks of types at an offset or after it.
pub fn cut_fallbacks(fallbacks: &mut Vec<OffsetFallback>, end: u32)
    ensures { fallbacks.new.items ≡ filter (λ f. nat_lt f.offset end) fallbacks.old.items }
{
    fallbacks.retain(|f| f.offset < end);
}
