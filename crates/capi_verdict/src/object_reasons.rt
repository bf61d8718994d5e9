//! The reasons for which all programs of an object break on a kernel.

ghost use Rattle.std.specs.Prelude.{◌≡◌, ◌++◌, ◌∷◌, [], IfOk, OnOk, Some, None, map};
ghost use Rattle.capi_rows.specs.Refusals.{name_of};
ghost use Rattle.ebpf_verdict.specs.Verdicts.{is_refused};
ghost use Rattle.capi_verdict.specs.ObjectReasons.{empty_section_reasons, has_number, has_refused, is_in_program, lacking_reason, object_reasons, refusal_reasons, relocation_reason, unowned_reason, unowned_reasons};

use crate::reason::{Reason, ReasonKind};
use capi_rows::record_rows::fault_of_result;
use capi_rows::refusal::Refusal;
use capi_rows::refusals::{ksyms_number, prepare_refusal};
use ebpf_base::{Items, Text};
use ebpf_core_relo::{RecordOutcome, RecordResult};
use ebpf_object::prepare::PrepareError;
use ebpf_verdict::{LackingExtern, ProgramCode, ProgramVerdict, Verdict};
use std::alloc::{AllocError, Global};

/// Adds the reason that a section of CO-RE relocations has none, where one has none.
fn add_empty_section(
    alloc: Global,
    reasons: &mut Items<Reason>,
    has_empty_section: bool,
) -> Result<(), AllocError>
    ensures { OnOk result
        (reasons.new ≡ reasons.old ++ empty_section_reasons has_empty_section) }
{
    if !has_empty_section {
        return Ok(());
    }
    let subject = Text::empty(alloc);
    reasons.push(Reason::for_all(alloc, ReasonKind::EmptySection, subject))?;
    Ok(())
}

/// The reason that the kernel lacks an extern.
fn lacking_reason(alloc: Global, lacking: &LackingExtern) -> Result<Reason, AllocError>
    ensures { IfOk result (λ reason. reason ≡ lacking_reason lacking.now) }
{
    let subject = lacking.name.clone()?;
    let mut reason = Reason::for_all(alloc, ReasonKind::Extern, subject);
    reason.fault = ksyms_number(&lacking.error);
    Ok(reason)
}

/// Adds the externs that the kernel lacks.
#[tactic(auto, using(crate::proofs::Loops::one_mapped, ebpf_base::proofs::Lists::rest_none))]
fn add_lacking(
    alloc: Global,
    reasons: &mut Items<Reason>,
    lacking: &[LackingExtern],
) -> Result<(), AllocError>
    ensures { OnOk result (reasons.new ≡ reasons.old ++ map lacking_reason lacking.now) }
{
    for missing in lacking {
        reasons.push(lacking_reason(alloc, missing)?)?;
    }
    Ok(())
}

/// The name of what a refusal is about, empty where it has none.
fn refused_name(alloc: Global, refusal: Refusal) -> Text
    ensures { result ≡ name_of refusal }
{
    match refusal.name {
        Some(name) => name,
        None => Text::empty(alloc),
    }
}

/// The reason that a pass refuses the object.
fn refusal_reason(alloc: Global, error: PrepareError) -> Reason
    ensures { refusal_reasons (Some error) ≡ result ∷ [] }
{
    let refusal = prepare_refusal(error);
    let number = refusal.number;
    let subject = refused_name(alloc, refusal);
    let mut reason = Reason::for_all(alloc, ReasonKind::Pass, subject);
    reason.fault = number;
    reason
}

/// Adds the reason that a pass refuses the object, where one does.
fn add_refusal(
    alloc: Global,
    reasons: &mut Items<Reason>,
    refusal: Option<PrepareError>,
) -> Result<(), AllocError>
    ensures { OnOk result (reasons.new ≡ reasons.old ++ refusal_reasons refusal) }
{
    match refusal {
        Some(error) => {
            reasons.push(refusal_reason(alloc, error))?;
            Ok(())
        }
        None => Ok(()),
    }
}

/// Whether a number is among some.
fn has_number(numbers: &[usize], number: usize) -> bool
    ensures { result ≡ has_number numbers.now number }
{
    numbers.iter().any(|one| *one == number)
}

/// Whether a program has the CO-RE relocation of a number, which is refused.
fn has_refused(code: &ProgramCode, number: usize) -> bool
    ensures { result ≡ has_refused code.now number }
{
    match code {
        ProgramCode::Linked(program) => has_number(program.refused.as_slice(), number),
        ProgramCode::Refused(_) => false,
    }
}

/// Whether one of some programs has it.
fn is_in_program(programs: &[ProgramVerdict], number: usize) -> bool
    ensures { result ≡ is_in_program programs.now number }
{
    programs
        .iter()
        .any(|program| has_refused(&program.code, number))
}

/// Whether a CO-RE relocation is refused.
fn is_refused(row: &RecordOutcome) -> bool
    ensures { result ≡ is_refused row.now }
{
    match &row.result {
        RecordResult::Refused(_) => true,
        RecordResult::Value(_) => false,
        RecordResult::Absent(_) => false,
    }
}

/// The reason that a CO-RE relocation is refused.
fn relocation_reason(alloc: Global, number: usize, row: &RecordOutcome) -> Reason
    ensures { result ≡ relocation_reason number row.now }
{
    let subject = Text::empty(alloc);
    let mut reason = Reason::for_all(alloc, ReasonKind::Relocation, subject);
    reason.relocation = Some(number);
    reason.fault = fault_of_result(&row.result);
    reason
}

/// The reason that the CO-RE relocation of a number is refused, where it is, and is in no program.
fn unowned_reason(
    alloc: Global,
    records: &[RecordOutcome],
    programs: &[ProgramVerdict],
    number: usize,
) -> Option<Reason>
    ensures { result ≡ unowned_reason records.now programs.now number }
{
    let row = records.get(number)?;
    if is_refused(row) && !is_in_program(programs, number) {
        return Some(relocation_reason(alloc, number, row));
    }
    None
}

/// Adds the CO-RE relocations that are refused, and are in no program.
#[tactic(auto, using(ebpf_verdict::proofs::Kept::one_kept, ebpf_verdict::proofs::Kept::none_kept))]
fn add_unowned(
    alloc: Global,
    reasons: &mut Items<Reason>,
    records: &[RecordOutcome],
    programs: &[ProgramVerdict],
) -> Result<(), AllocError>
    ensures { OnOk result (reasons.new ≡ reasons.old ++ unowned_reasons records.now programs.now) }
{
    for number in 0..records.len() {
        let Some(reason) = unowned_reason(alloc, records, programs, number) else {
            continue;
        };
        reasons.push(reason)?;
    }
    Ok(())
}

/// The reasons of a verdict for all programs. The verdict's refusal is taken out.
pub fn object_reasons(alloc: Global, verdict: &mut Verdict) -> Result<Items<Reason>, AllocError>
    ensures reasons { IfOk result (λ all. all ≡ object_reasons verdict.old) }
    ensures others_stay { OnOk result (verdict.new ≡ record verdict.old { refusal = None }) }
{
    let mut reasons = Items::new(alloc);
    add_empty_section(alloc, &mut reasons, verdict.has_empty_section)?;
    add_lacking(alloc, &mut reasons, verdict.lacking.as_slice())?;
    add_refusal(alloc, &mut reasons, verdict.refusal.take())?;
    add_unowned(
        alloc,
        &mut reasons,
        verdict.records.as_slice(),
        verdict.programs.as_slice(),
    )?;
    Ok(reasons)
}
