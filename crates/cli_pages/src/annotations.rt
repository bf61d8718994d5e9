//! The reasons for which programs break, as annotations of GitHub's workflows.

use crate::matrix::{Matrix, Reason, ReasonLine, ReasonLocation};
use crate::message::{write_message, write_unread};
use crate::source_path::write_source_path;
use cli_formats::escape::Syntax;
use std::io::{self, Write};

/// Writes the start of an annotation: the source line, where one is known, and the title.
fn write_start<W: Write>(out: &mut W, line: Option<ReasonLine<'_>>) -> io::Result<()> {
    write!(out, "::error ")?;
    if let Some(ReasonLine { file, number, .. }) = line {
        write!(out, "file=")?;
        write_source_path(out, Syntax::Property, "/", file)?;
        write!(out, ",line={number},")?;
    }
    write!(out, "title=ebpf check::")
}

/// Writes the line of a reason at one of its locations, or about all programs.
fn write_annotation<W: Write>(
    out: &mut W,
    matrix: &Matrix<'_>,
    reason: &Reason<'_>,
    location: Option<&ReasonLocation<'_>>,
) -> io::Result<()> {
    let line = match location {
        Some(location) => location.line,
        None => None,
    };
    write_start(out, line)?;
    write_message(out, Syntax::Message, matrix, reason, location)?;
    writeln!(out, "")
}

/// Writes the lines of a reason, one for each of its locations.
fn write_reason<W: Write>(out: &mut W, matrix: &Matrix<'_>, reason: &Reason<'_>) -> io::Result<()> {
    if reason.locations.is_empty() {
        write_annotation(out, matrix, reason, None)?;
    }
    for location in reason.locations.iter() {
        write_annotation(out, matrix, reason, Some(location))?;
    }
    Ok(())
}

/// Writes a line for each kernel whose types can't be read.
fn write_unread_kernels<W: Write>(out: &mut W, matrix: &Matrix<'_>) -> io::Result<()> {
    for kernel in matrix.kernels.iter() {
        let Some(fault) = kernel.fault else {
            continue;
        };
        write_start(out, None)?;
        write_unread(out, Syntax::Message, kernel.name, fault)?;
        writeln!(out, "")?;
    }
    Ok(())
}

/// Writes annotations, each on a line of its own: the kernels whose types can't be read, and each reason for which
/// programs break, at its source lines. No name is at the beginning of a line.
pub fn write_annotations<W: Write>(out: &mut W, matrix: &Matrix<'_>) -> io::Result<()> {
    write_unread_kernels(out, matrix)?;
    for reason in matrix.reasons.iter() {
        if !reason.breaks {
            continue;
        }
        write_reason(out, matrix, reason)?;
    }
    Ok(())
}
