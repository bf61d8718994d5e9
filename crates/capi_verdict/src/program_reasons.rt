//! The reasons for which one program of an object breaks on a kernel.

ghost use Rattle.std.specs.Prelude.{◌≡◌, ◌++◌, IfOk, OnOk, map};
ghost use Rattle.ebpf_verdict.specs.declared.programs.ProgramCode.TheVariants.{Linked};
ghost use Rattle.capi_verdict.specs.ProgramReasons.{code_reasons, fault_at, linking_fault, linking_reason, linking_subject, missing_name, missing_target, refused_reason, target_reasons};

use crate::reason::{Reason, ReasonKind};
use crate::slot_reasons::ReasonSource;
use capi_rows::faults::slot_fault;
use capi_rows::programs::name_of_section;
use capi_rows::record_rows::fault_of_result;
use ebpf_base::{Items, Text};
use ebpf_btf::Btf;
use ebpf_core_relo::RecordOutcome;
use ebpf_object::Object;
use ebpf_object::prepare::PrepareError;
use ebpf_verdict::{JudgedProgram, KernelTarget, ProgramCode, find_target};
use std::alloc::{AllocError, Global};

/// The number by which the CO-RE relocation of a number is refused.
fn fault_at(records: &[RecordOutcome], number: usize) -> u32
    ensures { result ≡ fault_at records.now number }
{
    match records.get(number) {
        Some(row) => fault_of_result(&row.result),
        None => 0,
    }
}

/// The number of a refusal of the linker.
fn linking_fault(error: &PrepareError) -> u32
    ensures { result ≡ linking_fault error.now }
{
    match error {
        PrepareError::Calls(error) => slot_fault(600, &error.error).0,
        _ => 0,
    }
}

/// The name of the function or the program that a refusal of the linker is about.
fn linking_subject(alloc: Global, error: &PrepareError) -> Result<Text, AllocError>
    ensures { IfOk result (λ name. name ≡ linking_subject error.now) }
{
    match error {
        PrepareError::Calls(error) => error.function.clone(),
        _ => Ok(Text::empty(alloc)),
    }
}

impl ReasonSource<'_> {
    /// The reason that a CO-RE relocation is refused.
    fn refused_reason(&self, alloc: Global, number: usize) -> Result<Reason, AllocError>
        ensures { IfOk result (λ reason.
            reason
            ≡ refused_reason self.now.object.now self.now.records.now self.now.program.now number) }
    {
        let program = Text::from_str(alloc, self.program)?;
        let mut reason = Reason::new(ReasonKind::Relocation, program, Text::empty(alloc));
        reason.relocation = Some(number);
        reason.fault = fault_at(self.records, number);
        Ok(reason)
    }

    /// Adds the CO-RE relocations that are refused.
    #[tactic(auto, using(crate::proofs::Loops::one_mapped, ebpf_base::proofs::Lists::rest_none))]
    fn add_refused(
        &self,
        alloc: Global,
        reasons: &mut Items<Reason>,
        refused: &[usize],
    ) -> Result<(), AllocError>
        ensures { OnOk result
            (reasons.new
            ≡ reasons.old
            ++ map
            (refused_reason self.now.object.now self.now.records.now self.now.program.now)
            refused.now) }
    {
        for number in refused {
            reasons.push(self.refused_reason(alloc, *number)?)?;
        }
        Ok(())
    }

    /// The reason that the linker refuses the program.
    fn linking_reason(&self, alloc: Global, error: &PrepareError) -> Result<Reason, AllocError>
        ensures { IfOk result (λ reason.
            reason
            ≡ linking_reason self.now.object.now self.now.records.now self.now.program.now
            error.now) }
    {
        let subject = linking_subject(alloc, error)?;
        let program = Text::from_str(alloc, self.program)?;
        let mut reason = Reason::new(ReasonKind::Linking, program, subject);
        reason.fault = linking_fault(error);
        Ok(reason)
    }

    /// Adds the reasons of a linked program.
    fn add_linked(
        &self,
        alloc: Global,
        reasons: &mut Items<Reason>,
        linked: &JudgedProgram,
    ) -> Result<(), AllocError>
        ensures { OnOk result
            (reasons.new
            ≡ reasons.old
            ++ code_reasons self.now.object.now self.now.records.now self.now.program.now
            (Linked linked.now)) }
    {
        let copies = linked.linked.map.copies.as_slice();
        self.add_slots(alloc, reasons, copies, linked.reasons.as_slice())?;
        self.add_refused(alloc, reasons, linked.refused.as_slice())?;
        Ok(())
    }

    /// Adds the reasons of a program by its outcome.
    pub fn add_code(
        &self,
        alloc: Global,
        reasons: &mut Items<Reason>,
        code: &ProgramCode,
    ) -> Result<(), AllocError>
        ensures { OnOk result
            (reasons.new
            ≡ reasons.old
            ++ code_reasons self.now.object.now self.now.records.now self.now.program.now
            code.now) }
    {
        match code {
            ProgramCode::Linked(linked) => self.add_linked(alloc, reasons, linked),
            ProgramCode::Refused(error) => {
                reasons.push(self.linking_reason(alloc, error)?)?;
                Ok(())
            }
        }
    }
}

/// The name of the type of a target that the kernel lacks.
fn missing_name(target: KernelTarget) -> Option<Text>
    ensures { result ≡ missing_name target }
{
    match target {
        KernelTarget::NotFound { name } => Some(name),
        KernelTarget::Found { .. } => None,
        KernelTarget::NotAsked => None,
        KernelTarget::Replaces => None,
    }
}

/// The name of the type to which a program is attached, where the kernel lacks it.
pub fn missing_target(
    alloc: Global,
    object: &Object,
    kernel: &Btf,
    program: &str,
) -> Result<Option<Text>, AllocError>
    ensures { IfOk result (λ name. name ≡ missing_target object.now kernel.now program.now) }
{
    let Some(program) = object.programs.get(program) else {
        return Ok(None);
    };
    let section = name_of_section(&object.section_infos, program.section_index);
    let target = find_target(alloc, section, kernel)?;
    Ok(missing_name(target))
}

/// Adds the reason that the kernel lacks a program's target, where it does.
pub fn add_target(
    alloc: Global,
    reasons: &mut Items<Reason>,
    program: &str,
    target: Option<Text>,
) -> Result<(), AllocError>
    ensures { OnOk result (reasons.new ≡ reasons.old ++ target_reasons program.now target) }
{
    let Some(target) = target else {
        return Ok(());
    };
    let program = Text::from_str(alloc, program)?;
    reasons.push(Reason::new(ReasonKind::Target, program, target))?;
    Ok(())
}
