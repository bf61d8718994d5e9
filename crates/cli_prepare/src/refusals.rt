//! The refusals of passes, in words.

use crate::opened::Opened;
use crate::pass_help::{GivenFiles, pass_help};
use crate::prepared::PrepareWords;
use crate::refused_slots::refused_slot;
use cli_common::pass_names::pass_and_variant;
use cli_common::refusal::{FileRefusal, help_of};
use cli_common::refuse::{Stop, refused};
use ebpf_core_relo::RelocationError as CoreError;
use ebpf_ksyms::KsymsError;
use ebpf_model::RelocationError;
use ebpf_object::prepare::PrepareError::{
    self, Calls, Externs, Ksyms, Maps, MissingDescriptor, OutOfMemory, Parse, Types, UnknownMap,
    UnwrittenExtern,
};
use ebpf_parts::ParseError;
use std::alloc::{AllocError, Global};

/// Whether an allocation failed.
fn is_memory(error: &PrepareError) -> bool {
    match error {
        Parse(error) => matches!(error, ParseError::OutOfMemory),
        Types(refusal) => matches!(refusal.error, CoreError::OutOfMemory),
        Ksyms(error) => matches!(error, KsymsError::OutOfMemory),
        Maps(refusal) | Externs(refusal) | Calls(refusal) => {
            matches!(refusal.error, RelocationError::OutOfMemory)
        }
        OutOfMemory => true,
        MissingDescriptor { .. } | UnknownMap { .. } | UnwrittenExtern { .. } => false,
    }
}

/// The function and the slot of an error, where they are known.
fn place_of<'a>(
    alloc: Global,
    opened: &Opened,
    error: &'a PrepareError,
) -> Result<Option<(&'a str, usize)>, AllocError> {
    let function = match error {
        Maps(refusal) | Externs(refusal) => refusal.function.as_str(),
        _ => return Ok(None),
    };
    match refused_slot(alloc, &opened.parsed, &opened.kernel, error) {
        Ok(Some(slot)) => Ok(Some((function, slot))),
        Ok(None) => Ok(None),
        Err(_) => Err(AllocError),
    }
}

/// A sentence on a function, with the slot of the error.
fn with_slot(
    alloc: Global,
    sentence: &str,
    place: Option<(&str, usize)>,
) -> Result<String, AllocError> {
    let Some((function, slot)) = place else {
        return String::from_str(alloc, sentence);
    };
    let front = format!(in alloc; "function {function:?}")?;
    match sentence.strip_prefix(front.as_str()) {
        Some(rest) => format!(in alloc; "{front}, slot {slot}{rest}"),
        None => String::from_str(alloc, sentence),
    }
}

/// A sentence without the name of the pass at its front.
fn without_pass<'a>(sentence: &'a str, pass: &str) -> &'a str {
    let Some(rest) = sentence.strip_prefix(pass) else {
        return sentence;
    };
    rest.strip_prefix(": ").unwrap_or(sentence)
}

/// The sentence of an error, without the name of its pass.
fn sentence_of(
    alloc: Global,
    opened: &Opened,
    error: &PrepareError,
    pass: &str,
) -> Result<String, AllocError> {
    let explained = opened.parsed.explain(error);
    let sentence = format!(in alloc; "{explained}")?;
    let bare = without_pass(sentence.as_str(), pass);
    with_slot(alloc, bare, place_of(alloc, opened, error)?)
}

/// The refusal of a pass.
fn refusal_of(
    alloc: Global,
    opened: &Opened,
    error: &PrepareError,
    given: GivenFiles,
) -> Result<FileRefusal, AllocError> {
    let (pass, variant) = pass_and_variant(error);
    Ok(FileRefusal {
        stage: if matches!(error, Ksyms(_)) {
            "externs"
        } else {
            pass
        },
        variant,
        text: sentence_of(alloc, opened, error, pass)?,
        help: help_of(alloc, pass_help(&opened.parsed, error, given))?,
    })
}

/// Reports the refusal of a pass over an opened object; gives the reason to stop.
pub fn refuse_preparing(
    rt: &HostRuntime,
    words: &PrepareWords,
    opened: &Opened,
    error: &PrepareError,
) -> Stop {
    if is_memory(error) {
        return Stop::Memory;
    }
    let given = GivenFiles {
        types: words.btf.is_some(),
        symbols: words.kallsyms.is_some(),
    };
    match refusal_of(rt.alloc(), opened, error, given) {
        Ok(refusal) => refused(rt, words.json, words.file.as_str(), &refusal, 1),
        Err(_) => Stop::Memory,
    }
}
