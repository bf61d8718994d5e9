//! `ebpf-link` over open files.

ghost use Rattle.std.specs.Prelude.{◌≡◌, ◌≤◌, ⊤, ℕ, List, true, None, IfOk, IfErr, OnOk, IsSome, MatchBool, MatchOption, option_map};
ghost use Rattle.std.specs.Io.KnownBytes.{Appends, Keeps};
ghost use Rattle.std.specs.List.{flat_map};
ghost use Rattle.std.specs.Option.{option_copied};
ghost use Rattle.ebpf_base.specs.Maps.{lent_bytes};
ghost use Rattle.ebpf_object.specs.Headline.{Headline};
ghost use Rattle.ebpf_object.specs.Prepared.{IsParsed};
ghost use Rattle.cli_plain.specs.Done.{HasPrinted, Lacks, LacksNamed, is_outside, is_writers, IsFailureOf, IsPreparingFailure};
ghost use Rattle.cli_common.specs.DefaultPasses.{default_passes};
ghost use Rattle.cli_plain.specs.Linked.{IsFileLinked};
ghost use Rattle.cli_plain.specs.Printed.{program_lines, printed};
ghost use Rattle.ebpf_object.specs.LinkedPrograms.{function_of_named_program};
ghost use Rattle.ebpf_parts.specs.declared.parse_mode.ParseMode.TheVariants.{Strict};

use crate::arguments::Words;
use crate::failure::{Failure, report};
use crate::preparation::read_types;
use crate::printed_text::write_program;
use ebpf_btf::Btf;
use ebpf_object::Object;
use ebpf_object::prepare::{
    PrepareError, Steps, SymbolSource, numbered_descriptors, prepare_object,
};
use std::alloc::Global;
use std::io::Write;

/// Writes the program of a name.
fn write_named<'a, W: Write>(object: &Object, name: &'a str, out: &mut W) -> Result<(), Failure<'a>>
    ensures text { OnOk result
        (Appends (W.contents out.old) (W.contents out.new)
        (program_lines object.now name.now)) }
    ensures there { OnOk result (IsSome (function_of_named_program object.now name.now)) }
    ensures refused { IfErr result (λ f. MatchBool (is_outside f) ⊤ (Lacks object.now name.now f)) }
    ensures untouched { IfErr result (λ f. MatchBool (is_writers f) ⊤ (out.new ≡ out.old)) }
{
    let Some(function) = object.program_function(name) else {
        return Err(Failure::NoProgram(name));
    };
    match write_program(out, name, function.instructions.as_slice()) {
        Ok(()) => Ok(()),
        Err(_) => Err(Failure::CannotWrite),
    }
}

/// Writes the programs of these names.
fn write_each<W: Write>(
    object: &Object,
    names: &[&str],
    out: &mut W,
) -> Result<(), Failure<'static>>
    ensures text { OnOk result
        (Appends (W.contents out.old) (W.contents out.new)
        (flat_map (program_lines object.now) (lent_bytes names.now))) }
    ensures refused { IfErr result (λ f. is_outside f ≡ true) }
    ensures writers { IfErr result (λ f. is_writers f ≡ true) }
{
    for name in names {
        match write_named(object, name, out) {
            Ok(()) => {}
            Err(failure) => {
                drop(failure);
                return Err(Failure::CannotWrite);
            }
        }
    }
    Ok(())
}

/// Writes all programs of an object, in byte order of their names.
fn write_all<W: Write>(alloc: Global, object: &Object, out: &mut W) -> Result<(), Failure<'static>>
    ensures text { OnOk result
        (Appends (W.contents out.old) (W.contents out.new) (printed object.now None)) }
    ensures refused { IfErr result (λ f. is_outside f ≡ true) }
    ensures untouched { IfErr result (λ f. MatchBool (is_writers f) ⊤ (out.new ≡ out.old)) }
{
    let Ok(names) = object.programs.names(alloc) else {
        return Err(Failure::Memory);
    };
    write_each(object, &names, out)
}

/// Writes the program of a name, or all.
fn write_programs<'a, W: Write>(
    alloc: Global,
    object: &Object,
    program: Option<&'a str>,
    out: &mut W,
) -> Result<(), Failure<'a>>
    ensures text { OnOk result
        (Appends (W.contents out.old) (W.contents out.new)
        (printed object.now (option_copied program.entry))) }
    ensures there { OnOk result
        (MatchOption (option_copied program.entry) ⊤ (λ name.
        IsSome (function_of_named_program object.now name))) }
    ensures refused { IfErr result (λ f.
        MatchBool (is_outside f) ⊤ (LacksNamed object.now (option_copied program.entry) f)) }
    ensures untouched { IfErr result (λ f. MatchBool (is_writers f) ⊤ (out.new ≡ out.old)) }
{
    match program {
        Some(name) => write_named(object, name, out),
        None => write_all(alloc, object, out),
    }
}

/// Flushes the writer.
pub fn finish<W: Write>(out: &mut W) -> Result<(), Failure<'static>>
    ensures text { OnOk result (Keeps (W.contents out.old) (W.contents out.new)) }
    ensures refused { IfErr result (λ f. is_outside f ≡ true) }
    ensures writers { IfErr result (λ f. is_writers f ≡ true) }
{
    match out.flush() {
        Ok(()) => Ok(()),
        Err(_) => Err(Failure::CannotWrite),
    }
}

/// Writes the program of a name, or all, and flushes the writer.
#[tactic(auto, using(cli_common::proofs::Appending::kept))]
fn print_object<'a, W: Write>(
    alloc: Global,
    object: &Object,
    program: Option<&'a str>,
    out: &mut W,
) -> Result<(), Failure<'a>>
    ensures text { OnOk result
        (Appends (W.contents out.old) (W.contents out.new)
        (printed object.now (option_copied program.entry))) }
    ensures there { OnOk result
        (MatchOption (option_copied program.entry) ⊤ (λ name.
        IsSome (function_of_named_program object.now name))) }
    ensures refused { IfErr result (λ f.
        MatchBool (is_outside f) ⊤ (LacksNamed object.now (option_copied program.entry) f)) }
    ensures untouched { IfErr result (λ f. MatchBool (is_writers f) ⊤ (out.new ≡ out.old)) }
{
    match write_programs(alloc, object, program, out) {
        Ok(()) => {}
        Err(failure) => return Err(failure),
    }
    match finish(out) {
        Ok(()) => Ok(()),
        Err(failure) => Err(failure),
    }
}

/// An object after all passes: types where the kernel's are known, descriptors of its own maps, externs, calls.
pub fn prepare_all<K: SymbolSource>(
    alloc: Global,
    object: Object,
    types: Option<&Btf>,
    kallsyms: K,
) -> Result<Object, Failure<'static>>
    ensures headline { (file : List ℕ)
        → IsParsed Strict file object
        → IfOk result
        (Headline (default_passes (option_copied types.entry) object.maps)
        (K.source kallsyms) Strict file) }
    ensures refused { (file : List ℕ)
        → IsParsed Strict file object
        → IfErr result (λ f.
        MatchBool (is_outside f) ⊤
        (IsPreparingFailure (default_passes (option_copied types.entry) object.maps)
        (K.source kallsyms) file f)) }
{
    let Ok(names) = object.map_names(alloc) else {
        drop(object);
        return Err(Failure::Memory);
    };
    let Ok(descriptors) = numbered_descriptors(alloc, names.as_slice()) else {
        drop(object);
        return Err(Failure::Memory);
    };
    match prepare_object(
        alloc,
        object,
        &Steps::all_with(types, &descriptors),
        kallsyms,
    ) {
        Ok(object) => Ok(object),
        Err(error) => Err(Failure::Preparing(error)),
    }
}

/// The object of a file after all passes.
fn prepared<K: SymbolSource>(
    alloc: Global,
    file: &[u8],
    btf: Option<Vec<u8>>,
    kallsyms: K,
) -> Result<Object, Failure<'static>>
    ensures linked { IfOk result
        (IsFileLinked file.now (option_map (λ bytes. bytes.items) btf) (K.source kallsyms)) }
    ensures refused { IfErr result (λ f.
        MatchBool (is_outside f) ⊤
        (IsFailureOf file.now (option_map (λ bytes. bytes.items) btf) (K.source kallsyms)
        None f)) }
{
    let types = match read_types(btf) {
        Ok(types) => types,
        Err(error) => return Err(Failure::Btf(error)),
    };
    let object = match Object::parse(alloc, file) {
        Ok(object) => object,
        Err(error) => return Err(Failure::Preparing(PrepareError::Parse(error))),
    };
    prepare_all(alloc, object, types.as_ref(), kallsyms)
}

/// Prepares the object of a file with all passes, and writes the program of a name, or all.
///
/// # Errors
///
/// - `Btf`: the kernel's types can't be read.
/// - `Preparing`: the first fault of preparing the file.
/// - `NoProgram`: no program has the name.
/// - `CannotWrite`: the writer fails.
/// - `Memory`: an allocation failed between the passes.
///
/// Except on `CannotWrite` nothing was written.
#[tactic(auto, using(crate::proofs::Refusing::untouched))]
pub fn print_programs<'a, K: SymbolSource, W: Write>(
    alloc: Global,
    program: Option<&'a str>,
    file: &[u8],
    btf: Option<Vec<u8>>,
    kallsyms: K,
    out: &mut W,
) -> Result<(), Failure<'a>>
    ensures done { OnOk result
        (HasPrinted file.now (option_map (λ bytes. bytes.items) btf) (K.source kallsyms)
        (option_copied program.entry) (W.contents out.old) (W.contents out.new)) }
    ensures refused { IfErr result (λ f.
        MatchBool (is_outside f) ⊤
        (IsFailureOf file.now (option_map (λ bytes. bytes.items) btf) (K.source kallsyms)
        (option_copied program.entry) f)) }
    ensures untouched { IfErr result (λ f. MatchBool (is_writers f) ⊤ (out.new ≡ out.old)) }
{
    let object = match prepared(alloc, file, btf, kallsyms) {
        Ok(object) => object,
        Err(failure) => return Err(failure),
    };
    match print_object(alloc, &object, program, out) {
        Ok(()) => {
            drop(object);
            Ok(())
        }
        Err(failure) => {
            drop(object);
            Err(failure)
        }
    }
}

/// Prepares an object and prints its programs, all in byte order of their names or the one that `words` names.
/// `btf` has the kernel's types, little endian, where they are known, and `kallsyms` the lines of the kernel's symbols.
/// Functions are relocated to the types where they are known, the object's own maps have the descriptors 1, 2, .. in byte
/// order of their names, externs are resolved and written, and programs are linked with the functions that they reach.
/// Gives the status: 0, or 1 with one line on `err`, the failure that `print_programs` gives.
pub fn run_link<K: SymbolSource, O: Write, E: Write>(
    alloc: Global,
    words: &Words,
    file: &[u8],
    btf: Option<Vec<u8>>,
    kallsyms: K,
    out: &mut O,
    err: &mut E,
) -> u8
    ensures status { result ≤ 1 }
    ensures done { result ≡ 0
        → HasPrinted file.now (option_map (λ bytes. bytes.items) btf) (K.source kallsyms)
        words.now.program (O.contents out.old) (O.contents out.new) }
{
    match print_programs(alloc, words.program(), file, btf, kallsyms, out) {
        Ok(()) => 0,
        Err(failure) => report("ebpf-link", failure, err),
    }
}
