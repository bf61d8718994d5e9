//! The report of a program, which is linked as a value apart from the object.

ghost use Rattle.std.specs.Prelude.{◌≡◌, IfOk, IfErr};
ghost use Rattle.std.specs.List.{AllZip};
ghost use Rattle.ebpf_inspect.specs.Named.{IsProgramReport};
ghost use Rattle.ebpf_object.specs.Prepared.{RefusesPreparing};
ghost use Rattle.ebpf_object.specs.Stages.{Wrapped};
ghost use Rattle.ebpf_object.specs.declared.prepare_error.PrepareError.TheVariants.{Calls};
ghost use Rattle.ebpf_reloc.specs.Linking.{IsProgramRefusal, IsFirstRefusal};
ghost use Rattle.ebpf_reloc.specs.SlotTargets.{read};

use ebpf_base::{Items, Text};
use ebpf_object::insn::bpf_insn;
use ebpf_object::prepare::PrepareError;
use ebpf_object::relocation::{
    CodeCopy, LinkedFunction, NumberedFunctions, PlacedReference, ProgramKey,
};
use std::alloc::Global;

/// The report of a linked program: its slots, its copies of functions, and the references between these.
#[derive(Debug, Drop)]
pub struct ProgramReport {
    /// The program's name.
    pub name: Text,
    /// The program's slots, of 8 bytes each.
    pub slots: Items<bpf_insn>,
    /// The copies of functions in the program, its own function first.
    pub copies: Items<CodeCopy>,
    /// The references between the copies, by the slots that hold them.
    pub references: Items<PlacedReference>,
}

/// The report of a program.
#[tactic(auto, using(ebpf_object::proofs::Staging::wrapped))]
fn report_of(
    alloc: Global,
    functions: &NumberedFunctions<'_>,
    program: &ProgramKey<'_>,
) -> Result<ProgramReport, PrepareError>
    ensures report { IfOk result (λ report.
        IsProgramReport (read functions.now.parts) program.now report) }
    ensures fault { IfErr result
        (RefusesPreparing
        (Wrapped Calls (IsProgramRefusal (read functions.now.parts) program.now))) }
{
    let LinkedFunction { function, map } = match functions.linked_with_map(alloc, program) {
        Ok(linked) => linked,
        Err(error) => return Err(PrepareError::Calls(error)),
    };
    let name = Text::from_str(alloc, program.name)?;
    Ok(ProgramReport {
        name,
        slots: function.instructions,
        copies: map.copies,
        references: map.references,
    })
}

/// The reports of programs.
///
/// # Errors
///
/// - The error of the first program that can't be linked.
/// - `OutOfMemory`: an allocation failed.
pub fn reports_of(
    alloc: Global,
    functions: &NumberedFunctions<'_>,
    programs: &[ProgramKey<'_>],
) -> Result<Items<ProgramReport>, PrepareError>
    ensures reports { IfOk result (λ reports.
        AllZip (IsProgramReport (read functions.now.parts)) programs.now reports) }
    ensures fault { IfErr result
        (RefusesPreparing
        (Wrapped Calls (IsFirstRefusal (read functions.now.parts) programs.now))) }
{
    let mut reports = Vec::with_capacity(alloc, programs.len())?;
    for program in programs {
        let report = report_of(alloc, functions, program)?;
        match reports.push(report) {
            Ok(()) => {}
            Err(_) => return Err(PrepareError::OutOfMemory),
        }
    }
    Ok(Items::from_vec(reports))
}
