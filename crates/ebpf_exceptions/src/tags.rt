//! The tags of an object's types that state exception callbacks.

ghost use Rattle.std.specs.Prelude.{◌≡◌, IfOk, IfErr, OnOk, true, slice_get};
ghost use Rattle.std.specs.Option.{option_copied, option_and_then};
ghost use Rattle.ebpf_base.specs.Faults.{Gives, Refuses};
ghost use Rattle.ebpf_exceptions.specs.Callbacks.{behind_mark, first_tag, first_tags, func_name, is_exception_memory, name_and_target, tag_behind, tag_of, tag_on, tags, tags_fault, text_or_empty, with_tag};

use crate::error::ExceptionError;
use ebpf_base::{ByName, Items, Text};
use ebpf_btf::{Btf, BtfError, BtfType};
use std::alloc::{AllocError, Global};

/// The beginning of the tags' names.
const MARK: &str = "exception_callback:";

/// The component of a tag that is on a declaration itself: -1.
const WHOLE: u32 = 0xffff_ffff;

/// A tag that states an exception callback.
#[derive(Drop)]
pub struct CallbackTag {
    /// The name of the FUNC that the tag is on.
    pub function: Text,
    /// The name of the callback.
    pub callback: Text,
}

/// The first tag of a function.
#[derive(Drop)]
pub struct FirstTag {
    /// The name of the callback.
    pub callback: Text,
    /// Whether the function has no other tag.
    pub is_alone: bool,
}

/// The part of a text behind the mark, where the text begins with it.
fn behind_mark(text: &str) -> Option<&str>
    ensures { option_copied result ≡ behind_mark text.now }
{
    text.strip_prefix(MARK)
}

/// The text at an offset of the strings, empty where it can't be read.
fn text_or_empty(alloc: Global, types: &Btf, offset: u32) -> Result<Text, ExceptionError>
    ensures text { IfOk result (λ text. text ≡ text_or_empty types.now offset) }
    ensures memory { IfErr result (λ e. is_exception_memory e ≡ true) }
{
    match types.string_at(offset) {
        Ok(text) => Ok(Text::from_str(alloc, text.as_str())?),
        Err(BtfError::OutOfMemory) => Err(ExceptionError::OutOfMemory),
        Err(_) => Ok(Text::empty(alloc)),
    }
}

/// The offset of the name of a DECL_TAG on a declaration itself, and the id of the type that it is on.
#[tactic(auto, unfolding(crate::specs::Callbacks::name_and_target))]
fn name_and_target(ty: &BtfType<'_>) -> Option<(u32, u32)>
    ensures { result ≡ name_and_target ty.now }
{
    match ty {
        BtfType::DeclTag {
            name_offset,
            btf_type,
            component_index,
        } if *component_index == WHOLE => Some((*name_offset, *btf_type)),
        _ => None,
    }
}

/// The offset of a FUNC's name.
#[tactic(auto, unfolding(crate::specs::Callbacks::func_name))]
fn func_name(ty: &BtfType<'_>) -> Option<u32>
    ensures { result ≡ func_name ty.now }
{
    match ty {
        BtfType::Func { name_offset, .. } => Some(*name_offset),
        _ => None,
    }
}

/// The tag of a callback on a FUNC whose name is at an offset.
fn tag_on(
    alloc: Global,
    types: &Btf,
    target: u32,
    callback: Text,
    name: Option<u32>,
) -> Result<Option<CallbackTag>, ExceptionError>
    ensures { Gives is_exception_memory result (tag_on types.now target callback name) }
{
    let Some(name) = name else {
        return Err(ExceptionError::NotAFunction {
            type_id: target,
            callback,
        });
    };
    let function = text_or_empty(alloc, types, name)?;
    Ok(Some(CallbackTag { function, callback }))
}

/// The offset of the name of the FUNC with an id.
fn target_name(types: &Btf, target: u32) -> Option<u32>
    ensures { result
        ≡ option_and_then func_name (slice_get types.now.types target) }
{
    let Some(ty) = types.get(target as usize) else {
        return None;
    };
    func_name(&ty)
}

/// The tag with a name on a type, if it states a callback.
fn tag_behind(
    alloc: Global,
    types: &Btf,
    target: u32,
    name: &str,
) -> Result<Option<CallbackTag>, ExceptionError>
    ensures { Gives is_exception_memory result (tag_behind types.now target (behind_mark name.now)) }
{
    let Some(callback) = behind_mark(name) else {
        return Ok(None);
    };
    let callback = Text::from_str(alloc, callback)?;
    tag_on(alloc, types, target, callback, target_name(types, target))
}

/// The tag that a type is, if it states a callback.
fn tag_of(
    alloc: Global,
    types: &Btf,
    ty: &BtfType<'_>,
) -> Result<Option<CallbackTag>, ExceptionError>
    ensures { Gives is_exception_memory result (tag_of types.now ty.now) }
{
    let Some((name, target)) = name_and_target(ty) else {
        return Ok(None);
    };
    let name = text_or_empty(alloc, types, name)?;
    tag_behind(alloc, types, target, name.as_str())
}

/// The tags that state callbacks, in the order of their ids.
///
/// # Errors
///
/// - `NotAFunction`: a tag is on a type that is no FUNC.
pub fn tags(alloc: Global, types: &Btf) -> Result<Items<CallbackTag>, ExceptionError>
    ensures tags { IfOk result (λ all. all ≡ tags types.now types.now.types) }
    ensures fault { Refuses is_exception_memory result (tags_fault types.now types.now.types) }
{
    let mut all = Items::new(alloc);
    for ty in types.types() {
        let tag = tag_of(alloc, types, &ty)?;
        let Some(tag) = tag else {
            continue;
        };
        all.push(tag)?;
    }
    Ok(all)
}

/// The first tag of a function with one more tag.
fn first_tag(tag: &CallbackTag, before: Option<&FirstTag>) -> Result<FirstTag, AllocError>
    ensures { IfOk result (λ first. first ≡ first_tag tag.now (option_copied before.entry)) }
{
    match before {
        Some(first) => Ok(FirstTag {
            callback: first.callback.clone()?,
            is_alone: false,
        }),
        None => Ok(FirstTag {
            callback: tag.callback.clone()?,
            is_alone: true,
        }),
    }
}

/// Adds a tag to the first ones.
fn add_tag(alloc: Global, found: &mut ByName<FirstTag>, tag: &CallbackTag) -> Result<(), AllocError>
    ensures { OnOk result (found.new ≡ with_tag found.old tag.now) }
{
    let name = tag.function.as_str();
    let first = first_tag(tag, found.get(name))?;
    found.insert(String::from_str(alloc, name)?, first)?;
    Ok(())
}

/// The first tags by the names of functions.
pub fn first_tags(alloc: Global, tags: &[CallbackTag]) -> Result<ByName<FirstTag>, AllocError>
    ensures { IfOk result (λ found. found ≡ first_tags tags.now) }
{
    let mut found = ByName::new(alloc);
    for tag in tags {
        add_tag(alloc, &mut found, tag)?;
    }
    Ok(found)
}
