//! The programs of an object, completed as libbpf does it.

ghost use Rattle.std.specs.Prelude.{◌≡◌, IfOk, OnOk, OnErr};
ghost use Rattle.ebpf_base.specs.Faults.{Refuses};
ghost use Rattle.ebpf_exceptions.specs.Callbacks.{callbacks_by, callbacks_fault, callbacks_with, completed_callbacks, fault_with, found_fault, is_exception_memory, read_fault};

use crate::callbacks::{callbacks_among, check_tags};
use crate::error::ExceptionError;
use crate::functions::{text_functions, text_index};
use crate::tags::{CallbackTag, first_tags, tags};
use ebpf_base::{ByKey, ByName};
use ebpf_elf::ElfFile;
use ebpf_model::Program;
use ebpf_object::Object;
use std::alloc::Global;

/// The callbacks that tags state, in a file.
fn callbacks_by(
    alloc: Global,
    file: &ElfFile<'_>,
    programs: &ByName<Program>,
    tags: &[CallbackTag],
) -> Result<ByKey<(usize, u64)>, ExceptionError>
    ensures callbacks { IfOk result (λ found.
        found ≡ callbacks_by file.now programs.now tags.now) }
    ensures fault { Refuses is_exception_memory result
        (found_fault file.now programs.now tags.now) }
{
    let text = text_index(file);
    let functions = text_functions(alloc, file, text)?;
    check_tags(programs, &functions, tags)?;
    let first = first_tags(alloc, tags)?;
    callbacks_among(alloc, text.unwrap_or(0), &functions, &first, programs)
}

/// The callbacks that tags state, in the bytes of a file.
fn callbacks_in(
    alloc: Global,
    file: &[u8],
    programs: &ByName<Program>,
    tags: &[CallbackTag],
) -> Result<ByKey<(usize, u64)>, ExceptionError>
    ensures callbacks { IfOk result (λ found.
        found ≡ callbacks_by file.now programs.now tags.now) }
    ensures fault { Refuses is_exception_memory result
        (read_fault file.now programs.now tags.now) }
{
    match ElfFile::parse(file) {
        Ok(file) => callbacks_by(alloc, &file, programs, tags),
        Err(error) => Err(ExceptionError::ElfError(error)),
    }
}

/// The callbacks that tags state, in the bytes of a file, which are read if there is a tag.
fn callbacks_with(
    alloc: Global,
    file: &[u8],
    programs: &ByName<Program>,
    tags: &[CallbackTag],
) -> Result<ByKey<(usize, u64)>, ExceptionError>
    ensures callbacks { IfOk result (λ found.
        found ≡ callbacks_with file.now programs.now tags.now) }
    ensures fault { Refuses is_exception_memory result
        (fault_with file.now programs.now tags.now) }
{
    if tags.len() == 0 {
        return Ok(ByKey::new(alloc));
    }
    callbacks_in(alloc, file, programs, tags)
}

/// The exception callbacks of an object, in the bytes of its file.
#[tactic(auto, unfolding(crate::specs::Callbacks::completed_callbacks, crate::specs::Callbacks::callbacks_fault))]
fn exception_callbacks(
    alloc: Global,
    object: &Object,
    file: &[u8],
) -> Result<ByKey<(usize, u64)>, ExceptionError>
    ensures callbacks { IfOk result (λ found. found ≡ completed_callbacks file.now object.now) }
    ensures fault { Refuses is_exception_memory result (callbacks_fault file.now object.now) }
{
    let Some(types) = &object.btf else {
        return Ok(ByKey::new(alloc));
    };
    let tags = tags(alloc, types)?;
    callbacks_with(alloc, file, &object.programs, tags.as_slice())
}

/// Completes the programs of an object, whose file has these bytes, as libbpf 1.5 does (`bpf_prog_assign_exc_cb`): finds
/// their exception callbacks.
///
/// A program states its callback by a DECL_TAG on its FUNC, of component -1, whose name is `exception_callback:` and the
/// name of a global function of `.text`. Linking follows the callback as a reference behind the last slot of the program's
/// function: the callback and what it reaches are linked behind all else that the program reaches, each once, with their
/// func info and line info. No slot refers to it: the kernel finds it by the tag.
///
/// - Of several functions of `.text` with one name the first symbol counts.
/// - A program with several such tags has no callback. The kernel refuses it.
/// - A tag on a function of `.text` says nothing.
///
/// Call it after `Object::parse_as` in `ParseMode::Lenient`, and before the passes. Everything else stays.
///
/// # Errors
///
/// In this order:
///
/// - `NotAFunction`: a tag is on a type that is no FUNC.
/// - `ElfError`: there is a tag, and the bytes are no ELF64 file.
/// - `NotGlobal`: a tag is on a FUNC that names neither a program nor a global function of `.text`.
/// - Of the first program by name, and its first tag: `EmptyCallback`, no name is behind the colon; `UnknownCallback`, no
///   function of `.text` has the name; `CallbackNotGlobal`, it is local, hidden or internal.
///
/// `OutOfMemory`: an allocation failed. On error the object is unchanged.
pub fn complete_programs(object: &mut Object, file: &[u8]) -> Result<(), ExceptionError>
    ensures callbacks { OnOk result
        (object.new.exception_callbacks ≡ completed_callbacks file.now object.old) }
    ensures fault { Refuses is_exception_memory result (callbacks_fault file.now object.old) }
    ensures others_stay { object.new
        ≡ record object.old { exception_callbacks = object.new.exception_callbacks } }
    ensures unchanged { OnErr result (object.new ≡ object.old) }
{
    let alloc = object.allocator();
    let callbacks = exception_callbacks(alloc, object, file)?;
    object.exception_callbacks = callbacks;
    Ok(())
}
