//! The linked programs of a file, with the functions that each holds.

ghost use Rattle.std.specs.Prelude.{◌≡◌, ℕ, List, false, true, IfOk, IfErr};
ghost use Rattle.ebpf_inspect.specs.Inspected.{with_linking, AreReportsOf, IsInspected};
ghost use Rattle.ebpf_inspect.specs.Named.{WithLinked};
ghost use Rattle.ebpf_object.specs.Prepared.{IsParsed, IsStageFault, IsFirstPrepareFault, RefusesPreparing};
ghost use Rattle.ebpf_object.specs.Stages.{Wrapped, LinkingFault, chosen};
ghost use Rattle.ebpf_object.specs.declared.prepare_error.PrepareError.TheVariants.{Calls};
ghost use Rattle.ebpf_parts.specs.declared.parse_mode.ParseMode.{ParseMode};
ghost use Rattle.ebpf_parts.specs.declared.parse_mode.ParseMode.TheVariants.{Strict};

use crate::report::{ProgramReport, reports_of};
use ebpf_base::Items;
use ebpf_object::Object;
use ebpf_object::prepare::{PrepareError, Steps, SymbolSource, check_externs, prepare_object};
use ebpf_object::relocation::programs_in_order;
use std::alloc::Global;

/// The chosen passes without the linking of programs.
fn without_calls<'a>(steps: &Steps<'a>) -> Steps<'a>
    ensures { chosen result ≡ record (chosen steps.now) { calls = false } }
{
    Steps {
        target_btf: steps.target_btf,
        map_fds: steps.map_fds,
        externs: steps.externs,
        calls: false,
        complete: steps.complete,
    }
}

/// The reports of an object's programs, each linked from the functions as they are.
fn report(alloc: Global, object: &Object) -> Result<Items<ProgramReport>, PrepareError>
    ensures reports { IfOk result (WithLinked object.now) }
    ensures fault { IfErr result (RefusesPreparing (Wrapped Calls (LinkingFault true object.now))) }
{
    let text_sections = object.text_sections(alloc)?;
    let programs = programs_in_order(alloc, &object.programs)?;
    let of = match object.program_maps(&text_sections) {
        Ok(of) => of,
        Err(error) => return Err(PrepareError::Calls(error)),
    };
    reports_of(alloc, &of.functions, &programs)
}

/// Prepares an object with the chosen passes, links its programs, and returns their reports.
fn inspect_all<K: SymbolSource>(
    alloc: Global,
    object: Object,
    steps: &Steps<'_>,
    kallsyms: K,
) -> Result<Items<ProgramReport>, PrepareError>
    ensures reports { IfOk result (AreReportsOf (chosen steps.now) (K.source kallsyms) object) }
    ensures fault { IfErr result
        (RefusesPreparing
        (IsStageFault (with_linking (chosen steps.now)) (K.source kallsyms) object)) }
{
    let prepared = match prepare_object(alloc, object, &without_calls(steps), kallsyms) {
        Ok(prepared) => prepared,
        Err(error) => return Err(error),
    };
    check_externs(&prepared, true, steps.complete)?;
    report(alloc, &prepared)
}

/// Returns the reports of an object's programs after the chosen passes, as `inspect` does for a file.
///
/// # Errors
///
/// The errors of `inspect`, except `Parse`. The object is consumed, also on error.
pub fn inspect_object<K: SymbolSource>(
    alloc: Global,
    object: Object,
    steps: &Steps<'_>,
    kallsyms: K,
) -> Result<Items<ProgramReport>, PrepareError>
    ensures reports { IfOk result (AreReportsOf (chosen steps.now) (K.source kallsyms) object) }
    ensures inspected { (mode : ParseMode) (file : List ℕ)
        → IsParsed mode file object
        → IfOk result (IsInspected (chosen steps.now) (K.source kallsyms) mode file) }
    ensures fault { IfErr result
        (RefusesPreparing
        (IsStageFault (with_linking (chosen steps.now)) (K.source kallsyms) object)) }
    ensures first_fault { (mode : ParseMode) (file : List ℕ)
        → IsParsed mode file object
        → IfErr result
        (RefusesPreparing
        (IsFirstPrepareFault (with_linking (chosen steps.now)) (K.source kallsyms) mode
        file)) }
{
    inspect_all(alloc, object, steps, kallsyms)
}

/// Returns the reports of a file's programs after the chosen passes.
///
/// Each program is linked with the functions that it reaches, also where `steps` leaves linking out. The reports are
/// sorted by name in byte order. Each has the program's slots, its copies of functions, and the references between
/// these. `kallsyms` has the lines of the kernel's symbols.
///
/// # Errors
///
/// The errors of `prepare` with the same steps and linking: the fault of the first pass that has one, in that pass's
/// own error.
///
/// `OutOfMemory`, or that of a pass: an allocation failed.
pub fn inspect<K: SymbolSource>(
    alloc: Global,
    bytes: &[u8],
    steps: &Steps<'_>,
    kallsyms: K,
) -> Result<Items<ProgramReport>, PrepareError>
    ensures reports { IfOk result
        (IsInspected (chosen steps.now) (K.source kallsyms) Strict bytes.now) }
    ensures fault { IfErr result
        (RefusesPreparing
        (IsFirstPrepareFault (with_linking (chosen steps.now)) (K.source kallsyms) Strict
        bytes.now)) }
{
    match Object::parse(alloc, bytes) {
        Ok(object) => inspect_object(alloc, object, steps, kallsyms),
        Err(error) => Err(PrepareError::Parse(error)),
    }
}
