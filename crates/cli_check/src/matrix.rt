//! The verdicts over kernels as a matrix, for the formats that people look at.

use crate::session::{Judgement, KernelAnswer, Session};
use crate::verdict::Fate;
use crate::verdict::findings::{Finding, FindingKey, Severity, SourceLocation};
use cli_common::source_lines::SourceLine;
use cli_pages::matrix::{CellVerdict, Matrix, MatrixKernel, Reason, ReasonLine, ReasonLocation};
use ebpf_base::Text;
use std::alloc::{AllocError, Global};

/// The verdict that a fate is.
fn verdict_of(fate: Fate) -> CellVerdict {
    match fate {
        Fate::Runs => CellVerdict::Runs,
        Fate::NoTarget => CellVerdict::NoTarget,
        Fate::Breaks => CellVerdict::Breaks,
    }
}

/// The verdicts that fates are.
fn verdicts_of(alloc: Global, fates: &[Fate]) -> Result<Vec<CellVerdict>, AllocError> {
    let mut verdicts = Vec::with_capacity(alloc, fates.len())?;
    for fate in fates {
        verdicts.push(verdict_of(*fate))?;
    }
    Ok(verdicts)
}

/// A kernel with its verdicts.
fn kernel_of(alloc: Global, kernel: &KernelAnswer) -> Result<MatrixKernel<'_>, AllocError> {
    let name = kernel.name.as_str();
    match &kernel.answer {
        Judgement::Judged(fates) => Ok(MatrixKernel {
            name,
            fault: None,
            verdicts: verdicts_of(alloc, fates)?,
        }),
        Judgement::Unread(refusal) => Ok(MatrixKernel {
            name,
            fault: Some(refusal.text.as_str()),
            verdicts: Vec::new(alloc),
        }),
    }
}

/// A function with a slot in it, where there is one.
fn within_of(within: &Option<(Text, usize)>) -> Option<(&str, usize)> {
    match within {
        Some((name, slot)) => Some((name.as_str(), *slot)),
        None => None,
    }
}

/// A source line, as pages and reports show it.
fn line_of(line: &SourceLine) -> ReasonLine<'_> {
    ReasonLine {
        file: line.file.as_str(),
        number: line.number,
        text: line.text.as_str(),
    }
}

/// A location, as pages and reports show it.
fn location_of(location: &SourceLocation) -> ReasonLocation<'_> {
    ReasonLocation {
        program: location.program,
        slot: location.slot,
        instruction: match &location.instruction {
            Some(text) => Some(text.as_str()),
            None => None,
        },
        within: within_of(&location.within),
        line: match &location.line {
            Some(line) => Some(line_of(line)),
            None => None,
        },
        kernels: &location.kernels,
    }
}

/// The locations of a finding.
fn locations_of(alloc: Global, found: &Finding) -> Result<Vec<ReasonLocation<'_>>, AllocError> {
    let mut locations = Vec::with_capacity(alloc, found.places.len())?;
    for location in found.places.values() {
        locations.push(location_of(location))?;
    }
    Ok(locations)
}

/// The words for the kinds of a finding.
fn kinds_of(alloc: Global, found: &Finding) -> Result<Vec<&'static str>, AllocError> {
    let mut words = Vec::with_capacity(alloc, found.kinds.len())?;
    for kind in found.kinds.iter() {
        words.push(kind.word())?;
    }
    Ok(words)
}

/// The reason that a finding is.
fn reason_of<'a>(
    alloc: Global,
    key: &'a FindingKey,
    found: &'a Finding,
) -> Result<Reason<'a>, AllocError> {
    let kinds = kinds_of(alloc, found)?;
    let locations = locations_of(alloc, found)?;
    Ok(Reason {
        breaks: key.severity == Severity::Breaks,
        subject: key.name.as_str(),
        kinds,
        outcome: key.reason.as_str(),
        kernels: &found.kernels,
        locations,
    })
}

/// The reasons for which programs break or have no target.
fn reasons_of(alloc: Global, session: &Session) -> Result<Vec<Reason<'_>>, AllocError> {
    let mut reasons = Vec::new(alloc);
    for (key, found) in session.findings.by_key.iter() {
        if !matches!(key.severity, Severity::Breaks | Severity::NoTarget) {
            continue;
        }
        reasons.push(reason_of(alloc, key, found)?)?;
    }
    Ok(reasons)
}

/// The names of the programs that count.
fn names_of(alloc: Global, session: &Session) -> Result<Vec<&str>, AllocError> {
    let programs = &session.loaded.needs.programs;
    let mut names = Vec::with_capacity(alloc, programs.len())?;
    for program in programs.iter() {
        names.push(program.name.as_str())?;
    }
    Ok(names)
}

/// The kernels with their verdicts.
fn kernels_of(alloc: Global, session: &Session) -> Result<Vec<MatrixKernel<'_>>, AllocError> {
    let mut kernels = Vec::with_capacity(alloc, session.kernels.len())?;
    for kernel in session.kernels.iter() {
        kernels.push(kernel_of(alloc, kernel)?)?;
    }
    Ok(kernels)
}

/// The verdicts of all kernels, with the reasons.
pub fn matrix_of<'a>(
    alloc: Global,
    version: &'static str,
    session: &'a Session,
) -> Result<Matrix<'a>, AllocError> {
    let programs = names_of(alloc, session)?;
    let kernels = kernels_of(alloc, session)?;
    let reasons = reasons_of(alloc, session)?;
    Ok(Matrix {
        version,
        file: session.file.as_str(),
        programs,
        kernels,
        reasons,
    })
}
