//! The verdict of a kernel on each program, as findings.

use crate::verdict::findings::{FindingKey, Findings, Severity, SourceLocation};
use crate::verdict::judged_program::PrintedProgram;
use crate::verdict::loaded::Loaded;
use cli_common::kinds::Kind;
use cli_common::programs::ObjectProgram;
use ebpf_base::{ByKey, Items};
use ebpf_btf::{Btf, BtfError};
use ebpf_core_relo::RecordOutcome;
use ebpf_ksyms::KsymsError;
use ebpf_load_info::{AttachTarget, attach_targets};
use ebpf_object::prepare::PrepareError;
use ebpf_verdict::{
    JudgedProgram, KernelTarget, LackingExtern, ProgramCode, ProgramVerdict, Verdict, judge,
    kernel_target,
};
use std::alloc::{AllocError, Global};

/// The fate of a program on a kernel.
#[derive(Clone, Copy, PartialEq, Eq)]
pub enum Fate {
    /// It runs.
    Runs,
    /// The kernel's types have no type of its attach target. It has no other reason to break.
    NoTarget,
    /// It breaks.
    Breaks,
}

/// A kernel's verdict on an object.
#[derive(Drop)]
pub struct Answers<'a> {
    /// The object.
    pub loaded: &'a Loaded,
    /// The kernel's types.
    types: &'a Btf,
    /// The kernel's number.
    kernel: usize,
    /// The verdict.
    pub verdict: &'a Verdict,
    /// The numbers of the CO-RE relocations of functions, by the functions' keys.
    pub by_function: &'a ByKey<Items<usize>>,
}

/// The judge of an object's programs on one kernel.
#[derive(Drop)]
pub struct Judge<'a> {
    pub alloc: Global,
    /// The findings over all kernels.
    findings: &'a mut Findings,
    /// The kernel's answers.
    pub answers: &'a Answers<'a>,
}

/// Adds the number of a CO-RE relocation to those of its function.
fn add_number(
    alloc: Global,
    by_function: &mut ByKey<Items<usize>>,
    key: (usize, u64),
    number: usize,
) -> Result<(), AllocError> {
    if let Some(numbers) = by_function.get_mut(key) {
        numbers.push(number)?;
        return Ok(());
    }
    let mut numbers = Items::new(alloc);
    numbers.push(number)?;
    by_function.insert(key, numbers)?;
    Ok(())
}

/// The numbers of the CO-RE relocations of each function.
fn numbers_by_function(
    alloc: Global,
    records: &[RecordOutcome],
) -> Result<ByKey<Items<usize>>, AllocError> {
    let mut numbers = ByKey::new(alloc);
    for (number, record) in records.iter().enumerate() {
        let Some(slot) = record.slot else {
            continue;
        };
        add_number(alloc, &mut numbers, slot.function, number)?;
    }
    Ok(numbers)
}

/// The reason why a kernel has no extern.
fn extern_reason(alloc: Global, error: &KsymsError) -> Result<String, AllocError> {
    let words = match error {
        KsymsError::FunctionNotFound { .. } => "no such function (a module's?)",
        KsymsError::VariableNotFound { .. } => "no such variable (a module's?)",
        KsymsError::IncompatibleFunctionSignature { .. } => "another signature",
        KsymsError::IncompatibleVariableType { .. } => "another type",
        KsymsError::BtfError(error) => return format!(in alloc; "{error}"),
        KsymsError::InvalidExternType { .. } => {
            let error = BtfError::InvalidDatasec;
            return format!(in alloc; "{error}");
        }
        error => return format!(in alloc; "{error}"),
    };
    String::from_str(alloc, words)
}

/// The verdict of a kernel on an object. Nothing is stated of it, so that what calls this isn't proved over all that is
/// stated of verdicts.
fn verdict_on(alloc: Global, loaded: &Loaded, kernel: &Btf) -> Result<Verdict, AllocError> {
    judge(alloc, &loaded.object, kernel)
}

/// The attach targets of programs in a kernel with these types.
fn targets_of(
    alloc: Global,
    programs: &[ObjectProgram],
    types: &Btf,
) -> Result<Items<AttachTarget>, AllocError> {
    let mut sections = Vec::with_capacity(alloc, programs.len())?;
    for program in programs {
        sections.push(program.section.as_str())?;
    }
    attach_targets(alloc, &sections, types)
}

/// The position of the verdict on the program of a name.
fn verdict_of<'a>(verdict: &'a Verdict, name: &str) -> Option<&'a ProgramVerdict> {
    for program in verdict.programs.iter() {
        if program.name.is(name) {
            return Some(program);
        }
    }
    None
}

impl Judge<'_> {
    /// Adds a finding on the kernel, at a location where it has one.
    pub fn note(
        &mut self,
        key: FindingKey,
        place: Option<SourceLocation>,
    ) -> Result<(), AllocError> {
        self.findings.add(key, self.answers.kernel, place)
    }

    /// Adds a value that differs from the object's own.
    pub fn note_changed(
        &mut self,
        key: FindingKey,
        own: u64,
        value: u64,
    ) -> Result<(), AllocError> {
        let kernel = self.answers.kernel;
        self.findings.add_changed(key, kernel, own, value)
    }

    /// Adds an extern that the kernel lacks.
    fn note_extern(&mut self, lacking: &LackingExtern) -> Result<(), AllocError> {
        let alloc = self.alloc;
        let name = String::from_str(alloc, lacking.name.as_str())?;
        let reason = extern_reason(alloc, &lacking.error)?;
        let key = FindingKey::breaking(alloc, name, Kind::Ksym, reason);
        self.note(key, None)
    }

    /// Adds the externs that the kernel lacks; then no program is loaded.
    fn note_lacking(&mut self) -> Result<(), AllocError> {
        let answers = self.answers;
        for lacking in answers.verdict.lacking.iter() {
            self.note_extern(lacking)?;
        }
        Ok(())
    }

    /// Judges the attach target of a program: whether the kernel has no type for it, which is noted.
    fn judge_target(
        &mut self,
        number: usize,
        section: &str,
        found: AttachTarget,
    ) -> Result<bool, AllocError> {
        let alloc = self.alloc;
        let KernelTarget::NotFound { name } = kernel_target(section, found) else {
            return Ok(false);
        };
        let section = String::from_str(alloc, section)?;
        let reason = format!(in alloc; "no such type {} (a module's?)", name.as_str())?;
        let key = FindingKey {
            severity: Severity::NoTarget,
            ..FindingKey::breaking(alloc, section, Kind::Attach, reason)
        };
        self.note(key, Some(SourceLocation::of_program(alloc, number)))?;
        Ok(true)
    }

    /// Notes that programs can't be linked, under a name, at a location where they have one.
    fn note_refused(
        &mut self,
        name: String,
        error: &PrepareError,
        place: Option<SourceLocation>,
    ) -> Result<(), AllocError> {
        let alloc = self.alloc;
        let explained = self.answers.loaded.object.explain(error);
        let sentence = format!(in alloc; "{explained}")?;
        let key = FindingKey::breaking(alloc, name, Kind::Linking, sentence);
        self.note(key, place)
    }

    /// Notes the reasons of a linked program, and the values that its slots carry.
    fn note_linked(&mut self, number: usize, linked: &JudgedProgram) -> Result<(), AllocError> {
        let program = PrintedProgram::new(self.alloc, number, linked)?;
        for copy in program.copies {
            self.note_records(&program, copy)?;
        }
        self.note_reasons(&program)
    }

    /// Notes the reasons of a program by its outcome.
    fn note_code(
        &mut self,
        number: usize,
        name: &str,
        code: &ProgramCode,
    ) -> Result<(), AllocError> {
        match code {
            ProgramCode::Linked(linked) => self.note_linked(number, linked),
            ProgramCode::Refused(error) => {
                let alloc = self.alloc;
                let name = format!(in alloc; "program {name}")?;
                let place = SourceLocation::of_program(alloc, number);
                self.note_refused(name, error, Some(place))
            }
        }
    }

    /// Notes the reasons of a program; whether it breaks by one of them.
    fn note_program(&mut self, number: usize, name: &str) -> Result<bool, AllocError> {
        let answers = self.answers;
        match verdict_of(answers.verdict, name) {
            Some(program) => {
                self.note_code(number, name, &program.code)?;
                Ok(!program.is_ok())
            }
            None => Ok(true),
        }
    }

    /// The fate of the program of a number, by the type that was found for its attach target.
    fn fate_of(
        &mut self,
        number: usize,
        program: &ObjectProgram,
        found: AttachTarget,
    ) -> Result<Fate, AllocError> {
        let is_untargeted = self.judge_target(number, program.section.as_str(), found)?;
        let breaks = self.note_program(number, program.name.as_str())?;
        if breaks {
            return Ok(Fate::Breaks);
        }
        if is_untargeted {
            return Ok(Fate::NoTarget);
        }
        Ok(Fate::Runs)
    }

    /// The fate of each program; `is_refused` says that the object isn't loaded as a whole.
    fn fates(&mut self, is_refused: bool) -> Result<Vec<Fate>, AllocError> {
        let answers = self.answers;
        let programs = &answers.loaded.needs.programs;
        let found = targets_of(self.alloc, programs, answers.types)?;
        let mut all = Vec::with_capacity(self.alloc, programs.len())?;
        let targets = found.into_vec().into_iter();
        for ((number, program), found) in programs.iter().enumerate().zip(targets) {
            let fate = self.fate_of(number, program, found)?;
            all.push(if is_refused { Fate::Breaks } else { fate })?;
        }
        Ok(all)
    }

    /// Notes that no program can be linked; each breaks.
    fn note_unwritten(&mut self, error: &PrepareError) -> Result<Vec<Fate>, AllocError> {
        let alloc = self.alloc;
        let name = String::from_str(alloc, "all programs")?;
        self.note_refused(name, error, None)?;
        let count = self.answers.loaded.needs.programs.len();
        Ok(vec![in alloc; Fate::Breaks; count]?)
    }

    /// The fate of each program by the verdict.
    fn judge_all(&mut self) -> Result<Vec<Fate>, AllocError> {
        let answers = self.answers;
        let verdict = answers.verdict;
        self.note_lacking()?;
        if let Some(error) = &verdict.refusal {
            return self.note_unwritten(error);
        }
        let is_refused = self.note_whole()?;
        self.fates(is_refused || !verdict.lacking.is_empty())
    }
}

/// The fate of each program by a kernel's answers.
fn fates_by(
    alloc: Global,
    findings: &mut Findings,
    answers: &Answers<'_>,
) -> Result<Vec<Fate>, AllocError> {
    let mut judge = Judge {
        alloc,
        findings,
        answers,
    };
    judge.judge_all()
}

/// The fate of each program by the verdict of a kernel of a number.
fn fates_on(
    alloc: Global,
    findings: &mut Findings,
    loaded: &Loaded,
    kernel: &Btf,
    number: usize,
    verdict: &Verdict,
) -> Result<Vec<Fate>, AllocError> {
    let by_function = numbers_by_function(alloc, verdict.records.as_slice())?;
    let answers = Answers {
        loaded,
        types: kernel,
        kernel: number,
        verdict,
        by_function: &by_function,
    };
    fates_by(alloc, findings, &answers)
}

/// Adds the findings on a kernel of a number for the programs that count; the fate of each.
pub fn judge_kernel(
    alloc: Global,
    findings: &mut Findings,
    loaded: &Loaded,
    kernel: &Btf,
    number: usize,
) -> Result<Vec<Fate>, AllocError> {
    let verdict = verdict_on(alloc, loaded, kernel)?;
    fates_on(alloc, findings, loaded, kernel, number, &verdict)
}
