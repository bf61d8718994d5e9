//! The callbacks of programs, by their tags and the functions of `.text`.

ghost use Rattle.std.specs.Prelude.{◌≡◌, IfOk};
ghost use Rattle.std.specs.FinMap as finite;
ghost use Rattle.std.specs.Option.{option_copied};
ghost use Rattle.ebpf_base.specs.Faults.{Gives, Refuses, first_some};
ghost use Rattle.ebpf_base.specs.Maps.{put_all};
ghost use Rattle.ebpf_exceptions.specs.Callbacks.{address_of, callback_address, callback_of, callbacks_among, is_exception_memory, is_global_function, programs_fault, tag_fault};

use crate::error::ExceptionError;
use crate::functions::TextFunction;
use crate::tags::{CallbackTag, FirstTag};
use ebpf_base::{ByKey, ByName, Text};
use ebpf_model::Program;
use std::alloc::Global;

/// Whether a function is global; `None` is not.
fn is_global_function(function: Option<&TextFunction>) -> bool
    ensures { result ≡ is_global_function (option_copied function.entry) }
{
    match function {
        Some(function) => function.is_global,
        None => false,
    }
}

/// Refuses a tag whose function is neither a program nor global.
fn check_tag(
    programs: &ByName<Program>,
    functions: &ByName<TextFunction>,
    tag: &CallbackTag,
) -> Result<(), ExceptionError>
    ensures { Refuses is_exception_memory result
        (tag_fault programs.now functions.now tag.now) }
{
    let name = tag.function.as_str();
    if programs.contains_key(name) || is_global_function(functions.get(name)) {
        return Ok(());
    }
    let function = tag.function.clone()?;
    Err(ExceptionError::NotGlobal { function })
}

/// Refuses the first tag whose function is neither a program nor global.
pub fn check_tags(
    programs: &ByName<Program>,
    functions: &ByName<TextFunction>,
    tags: &[CallbackTag],
) -> Result<(), ExceptionError>
    ensures { Refuses is_exception_memory result
        (first_some (tag_fault programs.now functions.now) tags.now) }
{
    for tag in tags {
        check_tag(programs, functions, tag)?;
    }
    Ok(())
}

/// The address of the callback of a program.
fn address_of(
    alloc: Global,
    program: &str,
    callback: &Text,
    function: Option<&TextFunction>,
) -> Result<u64, ExceptionError>
    ensures { Gives is_exception_memory result
        (address_of program.now callback.now (option_copied function.entry)) }
{
    match function {
        Some(function) if function.is_global => Ok(function.address),
        Some(_) => Err(ExceptionError::CallbackNotGlobal {
            program: Text::from_str(alloc, program)?,
            callback: callback.clone()?,
        }),
        None => Err(ExceptionError::UnknownCallback {
            program: Text::from_str(alloc, program)?,
            callback: callback.clone()?,
        }),
    }
}

/// The address of the function with the name of a program's callback.
fn callback_address(
    alloc: Global,
    functions: &ByName<TextFunction>,
    program: &str,
    callback: &Text,
) -> Result<u64, ExceptionError>
    ensures { Gives is_exception_memory result
        (callback_address functions.now program.now callback.now) }
{
    if callback.len() == 0 {
        return Err(ExceptionError::EmptyCallback {
            program: Text::from_str(alloc, program)?,
        });
    }
    address_of(alloc, program, callback, functions.get(callback.as_str()))
}

/// The key of a program's function and the key of its callback, where it has one tag alone.
fn callback_of(
    alloc: Global,
    text: usize,
    functions: &ByName<TextFunction>,
    first: &ByName<FirstTag>,
    name: &str,
    program: &Program,
) -> Result<Option<((usize, u64), (usize, u64))>, ExceptionError>
    ensures { Gives is_exception_memory result
        (callback_of text functions.now first.now (name.now, program.now)) }
{
    let Some(first) = first.get(name) else {
        return Ok(None);
    };
    let address = callback_address(alloc, functions, name, &first.callback)?;
    if !first.is_alone {
        return Ok(None);
    }
    Ok(Some((program.function_key(), (text, address))))
}

/// The callbacks of programs, by the keys of their functions.
///
/// # Errors
///
/// - The fault of the first program that has one.
/// - `OutOfMemory`: an allocation failed.
pub fn callbacks_among(
    alloc: Global,
    text: usize,
    functions: &ByName<TextFunction>,
    first: &ByName<FirstTag>,
    programs: &ByName<Program>,
) -> Result<ByKey<(usize, u64)>, ExceptionError>
    ensures callbacks { IfOk result (λ found.
        found
        ≡ put_all finite.empty
        (callbacks_among text functions.now first.now (finite.entries programs.now))) }
    ensures fault { Refuses is_exception_memory result
        (programs_fault text functions.now first.now (finite.entries programs.now)) }
{
    let mut found = ByKey::new(alloc);
    for (name, program) in programs.iter() {
        let pair = callback_of(alloc, text, functions, first, name.as_str(), program)?;
        let Some((key, callback)) = pair else {
            continue;
        };
        found.insert(key, callback)?;
    }
    Ok(found)
}
