//! The verdict of a kernel on the programs of an object.

ghost use Rattle.std.specs.Prelude.{◌≡◌, IfOk, false};
ghost use Rattle.ebpf_reachability.specs.Reached.{AreReached};
ghost use Rattle.ebpf_reloc.specs.Linking.{IsLinked, IsLinkMapAt};
ghost use Rattle.ebpf_reloc.specs.SlotTargets.{LinkableValue, read};
ghost use Rattle.ebpf_model.specs.Memory.{is_memory_at};
ghost use Rattle.ebpf_model.specs.Symbols.{FunctionKey};
ghost use Rattle.ebpf_object.specs.declared.prepare_error.PrepareError.TheVariants.{Calls};
ghost use Rattle.ebpf_verdict.specs.Verdicts.{AreVerdicts, IsCode, IsJudged, IsProgramVerdict, is_refused, is_copied, is_refused_in, refused_at, refused_in, code_is_ok};
ghost use Rattle.ebpf_verdict.specs.declared.programs.ProgramCode.TheVariants.{Refused};

use crate::reasons::{Numbers, SlotReason, reasons_of};
use crate::writing::is_memory;
use ebpf_base::{Items, Text};
use ebpf_core_relo::{RecordOutcome, RecordResult};
use ebpf_model::{EbpfRelocationError, Function};
use ebpf_object::prepare::PrepareError;
use ebpf_reachability::reached_slots;
use ebpf_reloc::{CodeCopy, LinkedFunction, NumberedFunctions, ProgramKey};
use std::alloc::{AllocError, Global};

/// A program, linked, with the reasons for which it breaks on a kernel.
#[derive(Debug, Drop)]
pub struct JudgedProgram {
    /// The program's function with every function that it reaches, and what it is made of.
    pub linked: LinkedFunction,
    /// Whether each slot is reached.
    pub reached: Items<bool>,
    /// The reasons of its slots, in their order.
    pub reasons: Items<SlotReason>,
    /// The CO-RE relocations of its copies that are refused, by their positions among the object's.
    pub refused: Items<usize>,
}

/// The outcome of a program.
#[derive(Debug, Drop)]
pub enum ProgramCode {
    /// It is linked.
    Linked(JudgedProgram),
    /// The linker refuses it.
    Refused(PrepareError),
}

/// The verdict on a program.
#[derive(Debug, Drop)]
pub struct ProgramVerdict {
    /// The name of the program.
    pub name: Text,
    /// Its outcome.
    pub code: ProgramCode,
}

/// What programs are judged by.
#[derive(Drop)]
pub struct ProgramJudge<'a> {
    /// The numbers that the kernel knows, and the types of maps.
    pub numbers: &'a Numbers<'a>,
    /// The outcomes of the object's CO-RE relocations.
    pub records: &'a [RecordOutcome],
    /// The functions from which programs are linked.
    pub functions: &'a NumberedFunctions<'a>,
}

/// Whether a CO-RE relocation is refused.
pub fn is_refused(row: &RecordOutcome) -> bool
    ensures { result ≡ is_refused row.now }
{
    match &row.result {
        RecordResult::Refused(_) => true,
        RecordResult::Value(_) => false,
        RecordResult::Absent(_) => false,
    }
}

/// Whether a function is among the copies of a program.
fn is_copied(copies: &[CodeCopy], key: (usize, u64)) -> bool
    ensures { result ≡ is_copied copies.now key }
{
    copies
        .iter()
        .any(|copy| copy.key.0 == key.0 && copy.key.1 == key.1)
}

/// Whether a CO-RE relocation of a program's copies is refused.
fn is_refused_in(copies: &[CodeCopy], row: &RecordOutcome) -> bool
    ensures { result ≡ is_refused_in copies.now row.now }
{
    match row.slot {
        Some(slot) => is_refused(row) && is_copied(copies, slot.function),
        None => false,
    }
}

/// The position of a CO-RE relocation, where it is one of a program's copies that is refused.
fn refused_at(copies: &[CodeCopy], records: &[RecordOutcome], number: usize) -> Option<usize>
    ensures { result ≡ refused_at copies.now records.now number }
{
    let record = records.get(number)?;
    if is_refused_in(copies, record) {
        return Some(number);
    }
    None
}

/// The positions of the CO-RE relocations of a program's copies that are refused.
#[tactic(auto, using(crate::proofs::Kept::one_kept, crate::proofs::Kept::none_kept))]
fn refused_in(
    alloc: Global,
    copies: &[CodeCopy],
    records: &[RecordOutcome],
) -> Result<Items<usize>, AllocError>
    ensures { IfOk result (λ refused. refused ≡ refused_in copies.now records.now) }
{
    let mut refused = Items::new(alloc);
    for number in 0..records.len() {
        let Some(number) = refused_at(copies, records, number) else {
            continue;
        };
        refused.push(number)?;
    }
    Ok(refused)
}

/// The reached slots of a function.
fn reached_of(alloc: Global, function: &Function) -> Result<Items<bool>, AllocError>
    ensures { IfOk result (λ reached. AreReached function.now.instructions reached) }
{
    reached_slots(alloc, function.instructions.as_slice())
}

impl ProgramJudge<'_> {
    /// The reasons of a linked program.
    #[tactic(auto, using(crate::proofs::Judged::is_judged))]
    fn judged(&self, alloc: Global, linked: LinkedFunction) -> Result<JudgedProgram, AllocError>
        ensures { IfOk result (λ j.
            (parts : LinkableValue) (key : FunctionKey)
            → IsLinked parts key linked.function
            → IsLinkMapAt parts key linked.map
            → IsJudged self.now.numbers.now.kernel self.now.numbers.now.map_types.now
            self.now.records.now parts key j) }
    {
        let reached = reached_of(alloc, &linked.function)?;
        let slots = linked.function.instructions.as_slice();
        let reasons = reasons_of(alloc, self.numbers, reached.as_slice(), slots)?;
        let refused = refused_in(alloc, linked.map.copies.as_slice(), self.records)?;
        Ok(JudgedProgram {
            linked,
            reached,
            reasons,
            refused,
        })
    }

    /// The outcome of a program.
    #[tactic(auto, using(crate::proofs::Judged::refused_code))]
    fn code_of(&self, alloc: Global, program: &ProgramKey<'_>) -> Result<ProgramCode, AllocError>
        ensures { IfOk result (λ code.
            IsCode self.now.numbers.now.kernel self.now.numbers.now.map_types.now
            self.now.records.now (read self.now.functions.now.parts) program.now code) }
    {
        match self.functions.linked_with_map(alloc, program) {
            Ok(linked) => {
                let judged = self.judged(alloc, linked)?;
                Ok(ProgramCode::Linked(judged))
            }
            Err(error) => {
                let code = refused(error)?;
                Ok(code)
            }
        }
    }

    /// The verdict on a program.
    #[tactic(auto, using(crate::proofs::Judged::is_verdict))]
    fn verdict_on(
        &self,
        alloc: Global,
        program: &ProgramKey<'_>,
    ) -> Result<ProgramVerdict, AllocError>
        ensures { IfOk result (λ v.
            IsProgramVerdict self.now.numbers.now.kernel self.now.numbers.now.map_types.now
            self.now.records.now (read self.now.functions.now.parts) program.now v) }
    {
        let name = Text::from_str(alloc, program.name)?;
        let code = self.code_of(alloc, program)?;
        Ok(ProgramVerdict { name, code })
    }

    /// The verdicts on programs, in their order.
    #[tactic(auto, using(crate::proofs::SoFar::none_yet, crate::proofs::SoFar::one_more, crate::proofs::SoFar::all_judged))]
    pub fn verdicts_on(
        &self,
        alloc: Global,
        programs: &[ProgramKey<'_>],
    ) -> Result<Items<ProgramVerdict>, AllocError>
        ensures { IfOk result (λ all.
            AreVerdicts self.now.numbers.now.kernel self.now.numbers.now.map_types.now
            self.now.records.now (read self.now.functions.now.parts) programs.now all) }
    {
        let mut all = Items::new(alloc);
        for program in programs {
            all.push(self.verdict_on(alloc, program)?)?;
        }
        Ok(all)
    }
}

/// The outcome of a program that the linker refuses, unless memory was refused.
fn refused(error: EbpfRelocationError) -> Result<ProgramCode, AllocError>
    ensures { IfOk result (λ code.
        (code ≡ Refused (Calls error)) × (is_memory_at error ≡ false)) }
{
    if is_memory(&error) {
        drop(error);
        return Err(AllocError);
    }
    Ok(ProgramCode::Refused(PrepareError::Calls(error)))
}

impl ProgramVerdict {
    /// Whether the program has no reason to break: it is linked, no slot has a reason, and no CO-RE relocation of its copies
    /// is refused.
    pub fn is_ok(&self) -> bool
        ensures { result ≡ code_is_ok self.now.code }
    {
        match &self.code {
            ProgramCode::Linked(program) => {
                program.reasons.len() == 0 && program.refused.len() == 0
            }
            ProgramCode::Refused(_) => false,
        }
    }
}
