//! Compares the outcomes of a relocation.

ghost use Rattle.std.specs.Prelude.{◌≡◌, IfOk, Result};
ghost use Rattle.std.specs.Bool.{OnTrue};
ghost use Rattle.ebpf_core.specs.Answers.{Tells, without_texts};
ghost use Rattle.ebpf_core.specs.declared.error.RelocationError.{RelocationError};
ghost use Rattle.ebpf_core.specs.declared.outcome.Outcome.{Outcome};

use ebpf_base::Text;
use ebpf_btf::BtfError;
use ebpf_core::{Outcome, RelocationError};
use std::alloc::AllocError;

/// Returns whether two lists have the same texts.
fn same_texts(first: &[Text], second: &[Text]) -> bool
    ensures { OnTrue result (first.now ≡ second.now) }
{
    if first.len() != second.len() {
        return false;
    }
    for index in 0..first.len() {
        if !first[index].is(second[index].as_str()) {
            return false;
        }
    }
    true
}

/// Returns whether two errors of types are the same. Errors that name a type in a text are not compared.
fn same_type_error(first: &BtfError, second: &BtfError) -> bool
    ensures { OnTrue result (first.now ≡ second.now) }
{
    match (first, second) {
        (BtfError::InvalidTypeInfo, BtfError::InvalidTypeInfo) => true,
        (
            BtfError::InvalidStringOffset { offset: one },
            BtfError::InvalidStringOffset { offset: other },
        ) => one == other,
        (
            BtfError::UnexpectedBtfType { type_id: one },
            BtfError::UnexpectedBtfType { type_id: other },
        ) => one == other,
        (BtfError::UnknownBtfType { type_id: one }, BtfError::UnknownBtfType { type_id: other }) =>
            one == other,
        (
            BtfError::MaximumTypeDepth { type_id: one },
            BtfError::MaximumTypeDepth { type_id: other },
        ) => one == other,
        _ => false,
    }
}

/// Returns whether two errors are the same, texts for people aside. Errors that no search returns are not compared.
fn same_error(first: &RelocationError, second: &RelocationError) -> bool
    ensures { OnTrue result (without_texts first.now ≡ without_texts second.now) }
{
    match (first, second) {
        (
            RelocationError::InvalidAccessString { access_str: one },
            RelocationError::InvalidAccessString { access_str: other },
        ) => one.is(other.as_str()),
        (
            RelocationError::MaximumNestingLevelReached { type_name: one },
            RelocationError::MaximumNestingLevelReached { type_name: other },
        ) => one.is(other.as_str()),
        (
            RelocationError::ConflictingCandidates {
                type_name: one,
                candidates: names,
            },
            RelocationError::ConflictingCandidates {
                type_name: other,
                candidates: others,
            },
        ) => one.is(other.as_str()) && same_texts(names.as_slice(), others.as_slice()),
        (
            RelocationError::InvalidAccessIndex {
                spec: one,
                index,
                len,
                ..
            },
            RelocationError::InvalidAccessIndex {
                spec: other,
                index: other_index,
                len: other_len,
                ..
            },
        ) => one.is(other.as_str()) && index == other_index && len == other_len,
        (
            RelocationError::InvalidRelocationKindForType {
                relocation_number: one,
                ..
            },
            RelocationError::InvalidRelocationKindForType {
                relocation_number: other,
                ..
            },
        ) => one == other,
        (RelocationError::BtfError(one), RelocationError::BtfError(other)) => {
            same_type_error(one, other)
        }
        _ => false,
    }
}

/// Returns whether two answers of searches say the same outcome or the same error.
///
/// # Errors
///
/// - `AllocError`: an answer is that memory is out.
pub fn same_answer(
    first: &Result<Outcome, RelocationError>,
    second: &Result<Outcome, RelocationError>,
) -> Result<bool, AllocError>
    ensures { IfOk result (λ same.
        OnTrue same
        ((one other : Result Outcome RelocationError)
        → Tells first.now one → Tells second.now other → one ≡ other)) }
{
    match (first, second) {
        (Err(RelocationError::OutOfMemory), _) | (_, Err(RelocationError::OutOfMemory)) => {
            Err(AllocError)
        }
        (Ok(one), Ok(other)) => Ok(one == other),
        (Err(one), Err(other)) => Ok(same_error(one, other)),
        _ => Ok(false),
    }
}
