//! The functions of an object as linking needs them: numbered, with their calls.

ghost use Rattle.std.specs.Prelude.{◌≡◌, map, IfOk};
ghost use Rattle.ebpf_linker.specs.Numbered.{body_content};
ghost use Rattle.ebpf_reloc.specs.Numbers.{function_keys, function_list, function_name, with_function_names};
ghost use Rattle.ebpf_reloc.specs.PrivateContracts.{calls_from};
ghost use Rattle.ebpf_reloc.specs.SlotTargets.{read};
ghost use Rattle.ebpf_reloc.specs.References.{content_of};

use crate::calls::all_calls;
use crate::linkable::Linkable;
use crate::numbers::{function_keys, function_list};
use ebpf_base::Text;
use ebpf_linker::{Body, Fault, Functions, Reference, Tables};
use ebpf_model::{Function, RelocationError};
use std::alloc::{AllocError, Global};

/// The functions of an object, numbered in the order of their keys.
#[derive(Drop)]
pub struct NumberedFunctions<'a> {
    /// What they are read from.
    pub parts: Linkable<'a>,
    /// Their keys.
    pub keys: Vec<(usize, u64)>,
    /// The functions.
    pub functions: Vec<&'a Function>,
    /// What is linked of them.
    pub bodies: Vec<Body<'a>>,
    /// Their calls.
    pub calls: Vec<Vec<Reference>>,
    /// What one program that is linked leaves for the next.
    pub tables: Tables,
    ghost are_keys: { keys.items ≡ function_keys (read parts).functions },
    ghost are_functions: { map (λ f. f.now) functions.items
        ≡ function_list (read parts).functions },
    ghost are_bodies: { map body_content bodies.items
        ≡ map content_of (function_list (read parts).functions) },
    ghost are_calls: { map (λ v. v.items) calls.items
        ≡ calls_from (read parts) (function_keys (read parts).functions) 0
        (function_list (read parts).functions) },
}

/// What is linked of a function.
fn body_of<'a>(function: &'a Function) -> Body<'a>
    ensures { body_content result ≡ content_of function.now }
{
    Body {
        slots: function.instructions.as_slice(),
        func_info: function.func_info.func_info.as_slice(),
        line_info: function.line_info.line_info.as_slice(),
    }
}

/// What is linked of each function.
#[tactic(auto, using(crate::proofs::CallsRefer::body_here, crate::proofs::CallsRefer::bodies_end))]
fn bodies_of<'a>(alloc: Global, functions: &[&'a Function]) -> Result<Vec<Body<'a>>, AllocError>
    ensures { IfOk result (λ bodies.
        map body_content bodies.items ≡ map content_of (map (λ f. f.now) functions.now)) }
{
    let mut bodies = Vec::with_capacity(alloc, functions.len())?;
    for number in 0..functions.len() {
        bodies.push(body_of(functions[number]))?;
    }
    Ok(bodies)
}

impl<'a> NumberedFunctions<'a> {
    /// The functions with their calls, each of which is found once.
    pub fn new(alloc: Global, parts: &Linkable<'a>) -> Result<NumberedFunctions<'a>, AllocError>
        ensures { IfOk result (λ n. read n.parts ≡ read parts.now) }
    {
        let keys = function_keys(alloc, parts.functions)?;
        let functions = function_list(alloc, parts.functions)?;
        let bodies = bodies_of(alloc, functions.as_slice())?;
        let calls = all_calls(alloc, parts, keys.as_slice(), functions.as_slice())?;
        Ok(NumberedFunctions {
            parts: *parts,
            keys,
            functions,
            bodies,
            calls,
            tables: Tables::new(),
        })
    }

    /// The functions as the linker takes them.
    pub(crate) fn linker_functions(&self) -> Functions<'_>
        ensures bodies { result.bodies.now ≡ self.now.bodies.items }
        ensures references { result.references.now ≡ self.now.calls.items }
    {
        let bodies = self.bodies.as_slice();
        let calls = self.calls.as_slice();
        Functions::new(bodies, calls, &self.tables)
    }
}

/// The name of the function with a number.
pub fn function_name(
    alloc: Global,
    functions: &[&Function],
    number: usize,
) -> Result<Text, AllocError>
    ensures { IfOk result (λ name. name ≡ function_name (map (λ f. f.now) functions.now) number) }
{
    match functions.get(number) {
        Some(function) => function.name.clone(),
        None => Ok(Text::empty(alloc)),
    }
}

/// A fault, with the names of functions for their numbers.
pub fn with_function_names(
    alloc: Global,
    functions: &[&Function],
    fault: Fault,
) -> Result<RelocationError, AllocError>
    ensures { IfOk result (λ error.
        error ≡ with_function_names (map (λ f. f.now) functions.now) fault) }
{
    match fault {
        Fault::UnsupportedTextSymbol { index } => {
            Ok(RelocationError::UnsupportedTextSymbol { index })
        }
        Fault::UnknownFunction { address, caller } => Ok(RelocationError::UnknownFunction {
            address,
            caller_name: function_name(alloc, functions, caller)?,
        }),
        Fault::FunctionInfoMismatch { callee } => Ok(RelocationError::FunctionInfoMismatch {
            name: function_name(alloc, functions, callee)?,
        }),
        Fault::ProgramTooLong { callee } => Ok(RelocationError::ProgramTooLong {
            name: function_name(alloc, functions, callee)?,
        }),
        Fault::InvalidLineInfo { callee } => Ok(RelocationError::InvalidLineInfo {
            name: function_name(alloc, functions, callee)?,
        }),
    }
}
