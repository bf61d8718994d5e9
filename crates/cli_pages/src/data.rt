//! The data of a page, as JSON: each reason is written once, and kernels are numbers.

ghost use Rattle.std.specs.Prelude.{◌≡◌, OnOk};
ghost use Rattle.std.specs.Io.KnownBytes.{Appends};
ghost use Rattle.cli_pages.specs.Parts.{comma_before, json_string, source_string, verdict_letter};

use crate::matrix::{CellVerdict, Matrix, MatrixKernel, Reason, ReasonLine, ReasonLocation};
use cli_formats::escape::{Escaped, Syntax};
use std::io::{self, Write};

/// Writes the comma between an item and the one before it.
pub fn write_comma<W: Write>(out: &mut W, number: usize) -> io::Result<()>
    ensures { OnOk result
        (Appends (W.contents out.old) (W.contents out.new) (comma_before number)) }
{
    if number > 0 {
        return write!(out, ",");
    }
    Ok(())
}

/// Writes a string.
pub fn write_string<W: Write>(out: &mut W, text: &str) -> io::Result<()>
    ensures { OnOk result
        (Appends (W.contents out.old) (W.contents out.new) (json_string text.now)) }
{
    let text = Escaped {
        syntax: Syntax::Json,
        text,
    };
    write!(out, "\"{text}\"")
}

/// Writes strings as an array.
fn write_strings<W: Write>(out: &mut W, texts: &[&str]) -> io::Result<()> {
    write!(out, "[")?;
    for (number, text) in texts.iter().enumerate() {
        write_comma(out, number)?;
        write_string(out, text)?;
    }
    write!(out, "]")
}

/// Writes numbers in ascending order as an array of the first and the last of each run.
fn write_runs<W: Write>(out: &mut W, numbers: &[usize]) -> io::Result<()> {
    write!(out, "[")?;
    let mut last: Option<usize> = None;
    for number in numbers {
        match last {
            Some(known) if *number == known.saturating_add(1) => {}
            Some(known) => write!(out, "{known},{number},")?,
            None => write!(out, "{number},")?,
        }
        last = Some(*number);
    }
    if let Some(known) = last {
        write!(out, "{known}")?;
    }
    write!(out, "]")
}

/// The letter for a verdict.
fn verdict_letter(verdict: CellVerdict) -> &'static str
    ensures { result.now ≡ verdict_letter verdict }
{
    match verdict {
        CellVerdict::Runs => "o",
        CellVerdict::Breaks => "b",
        CellVerdict::NoTarget => "n",
    }
}

/// Writes verdicts as a string with a letter for each.
fn write_verdicts<W: Write>(out: &mut W, verdicts: &[CellVerdict]) -> io::Result<()> {
    write!(out, "\"")?;
    for verdict in verdicts {
        let letter = verdict_letter(*verdict);
        write!(out, "{letter}")?;
    }
    write!(out, "\"")
}

/// Writes a kernel: its name with its verdicts, or with the reason why its types can't be read.
fn write_kernel<W: Write>(out: &mut W, kernel: &MatrixKernel<'_>) -> io::Result<()> {
    write!(out, "\n[")?;
    write_string(out, kernel.name)?;
    write!(out, ",")?;
    match kernel.fault {
        Some(fault) => {
            write!(out, "null,")?;
            write_string(out, fault)?;
        }
        None => write_verdicts(out, &kernel.verdicts)?,
    }
    write!(out, "]")
}

/// Writes a line of source as a string.
pub fn write_source<W: Write>(out: &mut W, text: &str) -> io::Result<()>
    ensures { OnOk result
        (Appends (W.contents out.old) (W.contents out.new) (source_string text.now)) }
{
    let text = Escaped {
        syntax: Syntax::Source,
        text,
    };
    write!(out, "\"{text}\"")
}

/// Writes the function that a slot was copied from, and the slot in it, or that there are none.
fn write_within<W: Write>(out: &mut W, within: Option<(&str, usize)>) -> io::Result<()> {
    match within {
        Some((name, slot)) => {
            write_string(out, name)?;
            write!(out, ",{slot},")
        }
        None => write!(out, "null,0,"),
    }
}

/// Writes the file, the number and the text of a source line, or that there are none.
fn write_line<W: Write>(out: &mut W, line: Option<ReasonLine<'_>>) -> io::Result<()> {
    let Some(ReasonLine { file, number, text }) = line else {
        return write!(out, "null,0,\"\",");
    };
    write_string(out, file)?;
    write!(out, ",{number},")?;
    write_source(out, text)?;
    write!(out, ",")
}

/// Writes a location: program, slot, instruction, function and its slot, file, line and its text, kernels.
fn write_location<W: Write>(out: &mut W, location: &ReasonLocation<'_>) -> io::Result<()> {
    let program = location.program;
    write!(out, "[{program},")?;
    match location.slot {
        Some(slot) => write!(out, "{slot},")?,
        None => write!(out, "null,")?,
    }
    match location.instruction {
        Some(text) => write_string(out, text)?,
        None => write!(out, "null")?,
    }
    write!(out, ",")?;
    write_within(out, location.within)?;
    write_line(out, location.line)?;
    write_runs(out, location.kernels)?;
    write!(out, "]")
}

/// Writes a reason: whether programs break, subject, kinds, outcome, kernels, locations.
fn write_reason<W: Write>(out: &mut W, reason: &Reason<'_>) -> io::Result<()> {
    let breaks = reason.breaks;
    write!(out, "\n[{breaks},")?;
    write_string(out, reason.subject)?;
    write!(out, ",")?;
    write_strings(out, &reason.kinds)?;
    write!(out, ",")?;
    write_string(out, reason.outcome)?;
    write!(out, ",")?;
    write_runs(out, reason.kernels)?;
    write!(out, ",[")?;
    for (number, location) in reason.locations.iter().enumerate() {
        write_comma(out, number)?;
        write_location(out, location)?;
    }
    write!(out, "]]")
}

/// Writes a matrix as a JSON object.
pub fn write_data<W: Write>(out: &mut W, matrix: &Matrix<'_>) -> io::Result<()> {
    write!(out, "{{\"programs\":")?;
    write_strings(out, &matrix.programs)?;
    write!(out, ",\n\"kernels\":[")?;
    for (number, kernel) in matrix.kernels.iter().enumerate() {
        write_comma(out, number)?;
        write_kernel(out, kernel)?;
    }
    write!(out, "],\n\"reasons\":[")?;
    for (number, reason) in matrix.reasons.iter().enumerate() {
        write_comma(out, number)?;
        write_reason(out, reason)?;
    }
    write!(out, "]}}")
}
