//! The outcome of a relocation over its candidates.

ghost use Rattle.std.specs.Prelude.{◌≡◌, IfErr, MatchBool, ⊤};
ghost use Rattle.ebpf_core.specs.Answers.{Tells, without_texts, is_record_memory};
ghost use Rattle.ebpf_core.specs.Fields.{field_value};
ghost use Rattle.ebpf_core.specs.Laws.{AmongIsRefused};
ghost use Rattle.ebpf_core.specs.Outcomes.{outcome_of_matches, differing_names, loaded_by, local_loaded, outcome_among, values_agree, without_match};
ghost use Rattle.std.specs.List.{list_all};

use crate::error::{RelocationError, invalid_kind, path_words};
use crate::field::{FieldFault, LoadedField, field_value};
use crate::matches::{MatchValue, match_values, matches_among, type_name_at};
use crate::paths::{LocalPath, NamedPath};
use crate::{FieldPlace, Step};
use ebpf_base::{Items, Text};
use ebpf_btf::Btf;
use ebpf_btf_ext::{Relocation, RelocationKind};
use std::alloc::Global;

/// The outcome of a relocation.
#[derive(Clone, Copy, Debug, PartialEq, Eq)]
pub struct Outcome {
    /// The number that the instruction is to carry. None: there is none, and the instruction is to fail where it is
    /// reached.
    pub value: Option<u64>,
    /// What is loaded of the local field, where its place is asked for and it is no bit field.
    pub local: Option<LoadedField>,
    /// What is loaded of the field that was found, where its place is asked for and it is no bit field.
    pub target: Option<LoadedField>,
}

/// The value where nothing matches: 0 where the relocation asks whether something is there, else none.
fn without_match(kind: RelocationKind) -> Option<u64>
    ensures { result ≡ without_match kind }
{
    match kind {
        RelocationKind::FieldExists
        | RelocationKind::TypeExists
        | RelocationKind::TypeMatches
        | RelocationKind::EnumVariantExists => Some(0),
        _ => None,
    }
}

/// The load of the local field at a place.
fn field_loaded(
    alloc: Global,
    local: &Btf,
    relocation: &Relocation,
    type_name: &str,
    steps: &[Step],
    place: FieldPlace,
) -> Result<Option<LoadedField>, RelocationError>
    ensures { Tells result
        (loaded_by relocation.now.number (field_value local.now relocation.now.kind place)) }
{
    match field_value(local, relocation.kind, place) {
        Ok(value) => Ok(value.loaded),
        Err(FieldFault::Types(error)) => Err(RelocationError::from(error)),
        Err(FieldFault::OfElement) => {
            let place = path_words(alloc, type_name, steps)?;
            invalid_kind(
                alloc,
                relocation.number,
                relocation.kind,
                place,
                "an element",
            )
        }
    }
}

/// The load of the local field.
///
/// # Errors
///
/// - `InvalidRelocationKindForType`: the relocation's kind can't be asked of the field.
/// - `BtfError`: the field's size or container is missing, or a shift is negative.
#[tactic(auto, unfolding(crate::specs::Outcomes::local_loaded))]
fn local_loaded(
    alloc: Global,
    local: &Btf,
    relocation: &Relocation,
    path: &LocalPath,
) -> Result<Option<LoadedField>, RelocationError>
    ensures { Tells result (local_loaded local.now relocation.now path.now.path) }
{
    match &path.path {
        NamedPath::Field { steps, place } => {
            let type_name = path.type_name.as_str();
            field_loaded(
                alloc,
                local,
                relocation,
                type_name,
                steps.as_slice(),
                *place,
            )
        }
        _ => Ok(None),
    }
}

/// Whether all later matches agree with the first.
fn all_agree(first: MatchValue, others: &[MatchValue]) -> bool
    ensures { result ≡ list_all (values_agree first) others.now }
{
    others.iter().all(|other| first.agrees(*other))
}

/// The names of the types whose matches differ from the first.
#[tactic(auto, using(crate::proofs::LocalSides::agreeing, crate::proofs::LocalSides::differing, crate::proofs::LocalSides::unreadable, crate::proofs::LocalSides::others_over, crate::proofs::Refusals::also))]
fn differing_names(
    alloc: Global,
    target: &Btf,
    first: MatchValue,
    others: &[MatchValue],
) -> Result<Items<Text>, RelocationError>
    ensures { Tells result (differing_names target.now first others.now) }
{
    let mut names = Items::new(alloc);
    for other in others {
        if first.agrees(*other) {
            continue;
        }
        names.push(type_name_at(alloc, target, other.candidate)?)?;
    }
    Ok(names)
}

/// The outcome of matches: the value of the first, where all others agree with it.
#[tactic(auto, unfolding(crate::specs::Outcomes::outcome_of_matches))]
fn conclude(
    alloc: Global,
    target: &Btf,
    type_name: &str,
    kind: RelocationKind,
    local: Option<LoadedField>,
    values: &[MatchValue],
) -> Result<Outcome, RelocationError>
    ensures { Tells result (outcome_of_matches target.now type_name.now kind local values.now) }
{
    let Some((first, others)) = values.split_first() else {
        return Ok(Outcome {
            value: without_match(kind),
            local,
            target: None,
        });
    };
    if all_agree(*first, others) {
        return Ok(Outcome {
            value: first.number,
            local,
            target: first.loaded,
        });
    }
    let candidates = differing_names(alloc, target, *first, others)?;
    let type_name = Text::from_str(alloc, type_name)?;
    Err(RelocationError::ConflictingCandidates {
        type_name,
        candidates,
    })
}

/// The outcome of a relocation over its candidates.
#[tactic(auto, unfolding(crate::specs::Outcomes::outcome_among))]
fn outcome_by_matches(
    alloc: Global,
    local: &Btf,
    target: &Btf,
    relocation: &Relocation,
    path: &LocalPath,
    candidates: &[u32],
) -> Result<Outcome, RelocationError>
    ensures { Tells result
        (outcome_among local.now target.now relocation.now path.now candidates.now) }
{
    let matches = matches_among(
        alloc,
        local,
        target,
        relocation.type_id,
        &path.path,
        candidates,
    )?;
    let loaded = local_loaded(alloc, local, relocation, path)?;
    let values = match_values(alloc, target, relocation.kind, matches.as_slice())?;
    let type_name = path.type_name.as_str();
    conclude(
        alloc,
        target,
        type_name,
        relocation.kind,
        loaded,
        values.as_slice(),
    )
}

/// The outcome of a relocation over its candidates, the target types that its local type may stand for, in the order of
/// their ids.
///
/// # Errors
///
/// The first of these, in this order:
///
/// - Of matching, candidate by candidate: `BtfError` of a type, name or size that is needed, and
///   `MaximumNestingLevelReached` with the candidate's name.
/// - Of the local field, also where nothing matches: `InvalidRelocationKindForType` where the kind can't be asked of
///   the field, `BtfError` where its size or container is missing or a shift is negative.
/// - `BtfError`: a match has no size, and the relocation asks for it.
/// - `ConflictingCandidates`: a later match lies at other bits than the first or has another value.
/// - `OutOfMemory`: memory is refused.
pub fn outcome_among(
    alloc: Global,
    local: &Btf,
    target: &Btf,
    relocation: &Relocation,
    path: &LocalPath,
    candidates: &[u32],
) -> Result<Outcome, RelocationError>
    ensures outcome { Tells result
        (outcome_among local.now target.now relocation.now path.now candidates.now) }
    ensures refused { IfErr result (λ e.
        MatchBool (is_record_memory e) ⊤
        (AmongIsRefused local.now target.now relocation.now path.now candidates.now
        (without_texts e))) }
{
    outcome_by_matches(alloc, local, target, relocation, path, candidates)
}
