//! `ebpf-inspect` over open files.

ghost use Rattle.std.specs.Prelude.{◌≡◌, ◌≤◌, ⊤, ℕ, List, true, Some, None, IfOk, IfErr, OnOk, IsSome, MatchBool, MatchOption, option_map};
ghost use Rattle.std.specs.Io.KnownBytes.{Appends};
ghost use Rattle.std.specs.Option.{option_copied};
ghost use Rattle.cli_plain.specs.Done.{is_outside, is_writers, IsFailureOf, IsPreparingFailure, LacksReport, LacksNamedReport};
ghost use Rattle.cli_common.specs.DefaultPasses.{default_passes};
ghost use Rattle.cli_plain.specs.Printed.{report_named, reports_text, HasInspected, HasListed};
ghost use Rattle.ebpf_inspect.specs.Inspected.{IsInspected};
ghost use Rattle.ebpf_object.specs.Prepared.{IsParsed};
ghost use Rattle.ebpf_parts.specs.declared.parse_mode.ParseMode.TheVariants.{Strict};

use crate::arguments::Words;
use crate::failure::{Failure, report};
use crate::link::finish;
use crate::preparation::read_types;
use crate::printed_text::write_report;
use ebpf_base::Items;
use ebpf_btf::Btf;
use ebpf_inspect::{ProgramReport, inspect_object};
use ebpf_object::Object;
use ebpf_object::prepare::{PrepareError, Steps, SymbolSource, numbered_descriptors};
use std::alloc::Global;
use std::io::Write;

/// The report of the program of a name.
fn report_named<'a>(reports: &'a [ProgramReport], name: &str) -> Option<&'a ProgramReport>
    ensures { option_copied result ≡ report_named reports.now name.now }
{
    reports.iter().find(|report| report.name.as_str() == name)
}

/// Writes the report of the program of a name.
fn write_named<'a, W: Write>(
    reports: &[ProgramReport],
    name: &'a str,
    out: &mut W,
) -> Result<(), Failure<'a>>
    ensures text { OnOk result
        (Appends (W.contents out.old) (W.contents out.new)
        (reports_text reports.now (Some name.now))) }
    ensures there { OnOk result (IsSome (report_named reports.now name.now)) }
    ensures refused { IfErr result (λ f.
        MatchBool (is_outside f) ⊤ (LacksReport reports.now name.now f)) }
    ensures untouched { IfErr result (λ f. MatchBool (is_writers f) ⊤ (out.new ≡ out.old)) }
{
    let Some(report) = report_named(reports, name) else {
        return Err(Failure::NoProgram(name));
    };
    match write_report(out, report) {
        Ok(()) => Ok(()),
        Err(_) => Err(Failure::CannotWrite),
    }
}

/// Writes all reports.
fn write_all<W: Write>(reports: &[ProgramReport], out: &mut W) -> Result<(), Failure<'static>>
    ensures text { OnOk result
        (Appends (W.contents out.old) (W.contents out.new) (reports_text reports.now None)) }
    ensures refused { IfErr result (λ f. is_outside f ≡ true) }
    ensures writers { IfErr result (λ f. is_writers f ≡ true) }
{
    for report in reports {
        match write_report(out, report) {
            Ok(()) => {}
            Err(_) => return Err(Failure::CannotWrite),
        }
    }
    Ok(())
}

/// Writes the report of the program of a name, or all.
fn write_reports<'a, W: Write>(
    reports: &[ProgramReport],
    program: Option<&'a str>,
    out: &mut W,
) -> Result<(), Failure<'a>>
    ensures text { OnOk result
        (Appends (W.contents out.old) (W.contents out.new)
        (reports_text reports.now (option_copied program.entry))) }
    ensures there { OnOk result
        (MatchOption (option_copied program.entry) ⊤ (λ name.
        IsSome (report_named reports.now name))) }
    ensures refused { IfErr result (λ f.
        MatchBool (is_outside f) ⊤
        (LacksNamedReport reports.now (option_copied program.entry) f)) }
    ensures untouched { IfErr result (λ f. MatchBool (is_writers f) ⊤ (out.new ≡ out.old)) }
{
    match program {
        Some(name) => write_named(reports, name, out),
        None => write_all(reports, out),
    }
}

/// Writes the report of the program of a name, or all, and flushes the writer.
#[tactic(auto, using(cli_common::proofs::Appending::kept))]
fn print_listed<'a, W: Write>(
    reports: &[ProgramReport],
    program: Option<&'a str>,
    out: &mut W,
) -> Result<(), Failure<'a>>
    ensures text { OnOk result
        (Appends (W.contents out.old) (W.contents out.new)
        (reports_text reports.now (option_copied program.entry))) }
    ensures there { OnOk result
        (MatchOption (option_copied program.entry) ⊤ (λ name.
        IsSome (report_named reports.now name))) }
    ensures refused { IfErr result (λ f.
        MatchBool (is_outside f) ⊤
        (LacksNamedReport reports.now (option_copied program.entry) f)) }
    ensures untouched { IfErr result (λ f. MatchBool (is_writers f) ⊤ (out.new ≡ out.old)) }
{
    match write_reports(reports, program, out) {
        Ok(()) => {}
        Err(failure) => return Err(failure),
    }
    match finish(out) {
        Ok(()) => Ok(()),
        Err(failure) => Err(failure),
    }
}

/// The reports on an object's programs after all passes: types where the kernel's are known, descriptors of its
/// own maps, externs, calls.
fn inspect_all<K: SymbolSource>(
    alloc: Global,
    object: Object,
    types: Option<&Btf>,
    kallsyms: K,
) -> Result<Items<ProgramReport>, Failure<'static>>
    ensures inspected { (file : List ℕ)
        → IsParsed Strict file object
        → IfOk result
        (IsInspected (default_passes (option_copied types.entry) object.maps)
        (K.source kallsyms) Strict file) }
    ensures refused { (file : List ℕ)
        → IsParsed Strict file object
        → IfErr result (λ f.
        MatchBool (is_outside f) ⊤
        (IsPreparingFailure (default_passes (option_copied types.entry) object.maps)
        (K.source kallsyms) file f)) }
{
    let Ok(names) = object.map_names(alloc) else {
        drop(object);
        return Err(Failure::Memory);
    };
    let Ok(descriptors) = numbered_descriptors(alloc, names.as_slice()) else {
        drop(object);
        return Err(Failure::Memory);
    };
    match inspect_object(
        alloc,
        object,
        &Steps::all_with(types, &descriptors),
        kallsyms,
    ) {
        Ok(reports) => Ok(reports),
        Err(error) => Err(Failure::Preparing(error)),
    }
}

/// The reports on a file's programs after all passes.
fn inspected<K: SymbolSource>(
    alloc: Global,
    file: &[u8],
    btf: Option<Vec<u8>>,
    kallsyms: K,
) -> Result<Items<ProgramReport>, Failure<'static>>
    ensures inspected { IfOk result
        (HasInspected file.now (option_map (λ bytes. bytes.items) btf) (K.source kallsyms)) }
    ensures refused { IfErr result (λ f.
        MatchBool (is_outside f) ⊤
        (IsFailureOf file.now (option_map (λ bytes. bytes.items) btf) (K.source kallsyms)
        None f)) }
{
    let types = match read_types(btf) {
        Ok(types) => types,
        Err(error) => return Err(Failure::Btf(error)),
    };
    let object = match Object::parse(alloc, file) {
        Ok(object) => object,
        Err(error) => return Err(Failure::Preparing(PrepareError::Parse(error))),
    };
    inspect_all(alloc, object, types.as_ref(), kallsyms)
}

/// Inspects a file after all passes, and writes the report of the program of a name, or all.
///
/// # Errors
///
/// - `Btf`: the kernel's types can't be read.
/// - `Preparing`: the first fault of preparing the file.
/// - `NoProgram`: no program has the name.
/// - `CannotWrite`: the writer fails.
/// - `Memory`: an allocation failed between the passes.
///
/// Except on `CannotWrite` nothing was written.
#[tactic(auto, using(crate::proofs::Refusing::untouched))]
pub fn print_reports<'a, K: SymbolSource, W: Write>(
    alloc: Global,
    program: Option<&'a str>,
    file: &[u8],
    btf: Option<Vec<u8>>,
    kallsyms: K,
    out: &mut W,
) -> Result<(), Failure<'a>>
    ensures done { OnOk result
        (HasListed file.now (option_map (λ bytes. bytes.items) btf) (K.source kallsyms)
        (option_copied program.entry) (W.contents out.old) (W.contents out.new)) }
    ensures refused { IfErr result (λ f.
        MatchBool (is_outside f) ⊤
        (IsFailureOf file.now (option_map (λ bytes. bytes.items) btf) (K.source kallsyms)
        (option_copied program.entry) f)) }
    ensures untouched { IfErr result (λ f. MatchBool (is_writers f) ⊤ (out.new ≡ out.old)) }
{
    let reports = match inspected(alloc, file, btf, kallsyms) {
        Ok(reports) => reports,
        Err(failure) => return Err(failure),
    };
    match print_listed(reports.as_slice(), program, out) {
        Ok(()) => Ok(()),
        Err(failure) => Err(failure),
    }
}

/// Inspects a file and prints the reports on its programs, all in byte order of their names or the one that `words` names.
/// The parameters, the passes and the status are those of `run_link`.
pub fn run_inspect<K: SymbolSource, O: Write, E: Write>(
    alloc: Global,
    words: &Words,
    file: &[u8],
    btf: Option<Vec<u8>>,
    kallsyms: K,
    out: &mut O,
    err: &mut E,
) -> u8
    ensures status { result ≤ 1 }
    ensures done { result ≡ 0
        → HasListed file.now (option_map (λ bytes. bytes.items) btf) (K.source kallsyms)
        words.now.program (O.contents out.old) (O.contents out.new) }
{
    match print_reports(alloc, words.program(), file, btf, kallsyms, out) {
        Ok(()) => 0,
        Err(failure) => report("ebpf-inspect", failure, err),
    }
}
