//! The candidates that a local path fits, and the values of a relocation in them.

ghost use Rattle.std.specs.Prelude.{◌≡◌, [], unwrap_or, Err};
ghost use Rattle.std.specs.Result.{result_ok};
ghost use Rattle.ebpf_btf.specs.Variants.{variants_of};
ghost use Rattle.ebpf_core.specs.Answers.{Tells, of_types, each};
ghost use Rattle.ebpf_core.specs.Outcomes.{by_place, first_variant, found_at_candidate, matches, type_name_at, variant_in, values_agree, field_in, match_value, match_of_number, type_value, variant_value};
ghost use Rattle.ebpf_core.specs.Places.{place_of};
ghost use Rattle.ebpf_core.specs.declared.places.PlaceFault.TheVariants.{NestingLevel};
ghost use Rattle.ebpf_core.specs.Fields.{field_value};

use crate::error::{RelocationError, too_nested};
use crate::field::{LoadedField, field_value};
use crate::paths::NamedPath;
use crate::{FieldPlace, PlaceFault, Step, place_in};
use ebpf_base::{Items, Text};
use ebpf_btf::{Btf, BtfError, BtfType};
use ebpf_btf_ext::RelocationKind;
use ebpf_core_candidates::{types_are_compatible, types_match};
use std::alloc::Global;

/// The end of a path in a type that matches.
#[derive(Clone, Copy)]
pub enum FoundMatch {
    /// The type as a whole.
    WholeType,
    /// A variant with its value.
    Variant { value: u64 },
    /// A field.
    Field { place: FieldPlace },
}

/// A candidate that matches.
#[derive(Clone, Copy)]
pub struct Match {
    /// The candidate's id.
    pub candidate: u32,
    /// The end of the path in the candidate.
    pub found: FoundMatch,
}

/// The name of the type with an id.
pub fn type_name_at(alloc: Global, btf: &Btf, type_id: u32) -> Result<Text, RelocationError>
    ensures { Tells result (of_types (type_name_at btf.now type_id)) }
{
    let ty = btf.type_by_id(type_id)?;
    let name = btf.type_name(&ty)?;
    Ok(Text::from_str(alloc, name.as_str())?)
}

/// The value of the first variant of a type that has a name, flavors aside.
#[tactic(auto, using(crate::proofs::MatchSteps::variant_passed, crate::proofs::MatchSteps::variant_has_name, crate::proofs::MatchSteps::variant_fault, crate::proofs::MatchSteps::variant_missing, crate::proofs::MatchSteps::variants_over))]
fn first_variant(target: &Btf, name: &str, ty: &BtfType<'_>) -> Result<Option<u64>, BtfError>
    ensures { result ≡ first_variant target.now name.now (unwrap_or (variants_of ty.now) []) }
{
    for index in 0..ty.variant_count().unwrap_or(0) {
        let Some(variant) = ty.variant(index) else {
            return Ok(None);
        };
        if target.is_essential_name_at(variant.name_offset, name)? {
            return Ok(Some(variant.value));
        }
    }
    Ok(None)
}

/// The value of a candidate's variant that has a name.
fn variant_in(target: &Btf, name: &str, candidate: u32) -> Result<Option<u64>, BtfError>
    ensures { result ≡ variant_in target.now name.now candidate }
{
    let ty = target.resolved_type(candidate)?;
    first_variant(target, name, &ty)
}

/// The refusal of a candidate in which a limit was reached.
fn too_nested_in(
    alloc: Global,
    target: &Btf,
    candidate: u32,
) -> Result<Option<FoundMatch>, RelocationError>
    ensures { Tells result (by_place target.now candidate (Err NestingLevel)) }
{
    let name = type_name_at(alloc, target, candidate)?;
    too_nested(alloc, name.as_str())
}

/// The field that a path leads to in a candidate, if any.
#[tactic(auto, using(crate::proofs::Refusals::place_found, crate::proofs::Refusals::place_missing, crate::proofs::Refusals::place_nested, crate::proofs::Refusals::place_refused))]
fn field_found(
    alloc: Global,
    local: &Btf,
    target: &Btf,
    candidate: u32,
    steps: &[Step],
) -> Result<Option<FoundMatch>, RelocationError>
    ensures { Tells result
        (by_place target.now candidate (place_of local.now target.now candidate steps.now)) }
{
    match place_in(local, target, candidate, steps) {
        Ok(Some(place)) => Ok(Some(FoundMatch::Field { place })),
        Ok(None) => Ok(None),
        Err(PlaceFault::NestingLevel) => too_nested_in(alloc, target, candidate),
        Err(PlaceFault::Btf(error)) => Err(RelocationError::from(error)),
    }
}

/// The end of a path of the local type `local_id` in a candidate.
#[tactic(auto, unfolding(crate::specs::Outcomes::found_at_candidate))]
fn found_at_candidate(
    alloc: Global,
    local: &Btf,
    target: &Btf,
    local_id: u32,
    path: &NamedPath,
    candidate: u32,
) -> Result<Option<FoundMatch>, RelocationError>
    ensures { Tells result (found_at_candidate local.now target.now local_id path.now candidate) }
{
    match path {
        NamedPath::WholeType => {
            if types_are_compatible(local, local_id, target, candidate)? {
                return Ok(Some(FoundMatch::WholeType));
            }
            Ok(None)
        }
        NamedPath::MatchedType => {
            if types_match(local, local_id, target, candidate)? {
                return Ok(Some(FoundMatch::WholeType));
            }
            Ok(None)
        }
        NamedPath::Variant { name } => match variant_in(target, name.as_str(), candidate)? {
            Some(value) => Ok(Some(FoundMatch::Variant { value })),
            None => Ok(None),
        },
        NamedPath::Field { steps, .. } => {
            field_found(alloc, local, target, candidate, steps.as_slice())
        }
    }
}

/// The candidates that match, in their order.
#[tactic(auto, using(crate::proofs::MatchSteps::matches_end))]
pub fn matches_among(
    alloc: Global,
    local: &Btf,
    target: &Btf,
    local_id: u32,
    path: &NamedPath,
    candidates: &[u32],
) -> Result<Items<Match>, RelocationError>
    ensures { Tells result (matches local.now target.now local_id path.now candidates.now) }
{
    let mut matches = Items::new(alloc);
    for candidate in candidates {
        let Some(found) = found_at_candidate(alloc, local, target, local_id, path, *candidate)?
        else {
            continue;
        };
        matches.push(Match {
            candidate: *candidate,
            found,
        })?;
    }
    Ok(matches)
}

/// The value of a match.
#[derive(Clone, Copy)]
pub struct MatchValue {
    /// The candidate's id.
    pub candidate: u32,
    /// The bits from the start of the candidate to the field; 0 where no field is asked about.
    pub bits: u32,
    /// The number that the relocation asks for, where it can be had.
    pub number: Option<u64>,
    /// What is loaded of the field, where its place is asked for and it is no bit field.
    pub loaded: Option<LoadedField>,
}

/// The value of a match of a type or a variant.
fn match_of_number(candidate: u32, number: u64) -> MatchValue
    ensures { result ≡ match_of_number candidate number }
{
    MatchValue {
        candidate,
        bits: 0,
        number: Some(number),
        loaded: None,
    }
}

/// The number of a type that a kind asks for.
fn type_value(target: &Btf, kind: RelocationKind, candidate: u32) -> Result<u64, BtfError>
    ensures { result ≡ type_value target.now kind candidate }
{
    match kind {
        RelocationKind::TypeSize => Ok(u64::from(target.type_size(candidate)?)),
        RelocationKind::TypeIdTarget => Ok(u64::from(candidate)),
        _ => Ok(1),
    }
}

/// The number of a variant that a kind asks for.
fn variant_value(kind: RelocationKind, value: u64) -> u64
    ensures { result ≡ variant_value kind value }
{
    match kind {
        RelocationKind::EnumVariantValue => value,
        _ => 1,
    }
}

/// The value of a field that a kind asks for, where there is one.
fn field_in(target: &Btf, kind: RelocationKind, candidate: u32, place: FieldPlace) -> MatchValue
    ensures { result
        ≡ field_in candidate place.bits (result_ok (field_value target.now kind place)) }
{
    let value = field_value(target, kind, place).ok();
    MatchValue {
        candidate,
        bits: place.bits,
        number: value.map(|value| value.number),
        loaded: value.and_then(|value| value.loaded),
    }
}

/// The value of a match. `BtfError` where the kind asks for the size of a type that has none.
#[tactic(auto, unfolding(crate::specs::Outcomes::match_value))]
fn match_value(
    target: &Btf,
    kind: RelocationKind,
    found: Match,
) -> Result<MatchValue, RelocationError>
    ensures { Tells result (match_value target.now kind found) }
{
    match found.found {
        FoundMatch::WholeType => Ok(match_of_number(
            found.candidate,
            type_value(target, kind, found.candidate)?,
        )),
        FoundMatch::Variant { value } => Ok(match_of_number(
            found.candidate,
            variant_value(kind, value),
        )),
        FoundMatch::Field { place } => Ok(field_in(target, kind, found.candidate, place)),
    }
}

/// The values of all matches, in order.
#[tactic(auto, using(crate::proofs::LocalSides::each_more, crate::proofs::LocalSides::each_fault, crate::proofs::LocalSides::each_end, crate::proofs::Refusals::also))]
pub fn match_values(
    alloc: Global,
    target: &Btf,
    kind: RelocationKind,
    matches: &[Match],
) -> Result<Items<MatchValue>, RelocationError>
    ensures { Tells result (each (match_value target.now kind) matches.now) }
{
    let mut values = Items::new(alloc);
    for found in matches {
        values.push(match_value(target, kind, *found)?)?;
    }
    Ok(values)
}

impl MatchValue {
    /// Whether two matches have the same bits and the same number, or both no number.
    pub fn agrees(self, other: MatchValue) -> bool
        ensures { result ≡ values_agree self other }
    {
        self.bits == other.bits && self.number == other.number
    }
}
