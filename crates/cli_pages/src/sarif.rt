//! The reasons for which programs break, in the format of code scanning (SARIF 2.1.0).

ghost use Rattle.std.specs.Prelude.{OnOk};
ghost use Rattle.std.specs.Io.KnownBytes.{Appends};
ghost use Rattle.cli_pages.specs.Parts.{notification};

use crate::data::{write_comma, write_source};
use crate::matrix::{Matrix, Reason, ReasonLine, ReasonLocation};
use crate::message::{write_message, write_unread};
use crate::source_path::write_source_path;
use cli_formats::escape::{Escaped, Syntax};
use std::io::{self, Write};

/// The start of a log, up to the version of the tool.
const START: &str =
    "{\"$schema\":\"https://json.schemastore.org/sarif-2.1.0.json\",\"version\":\"2.1.0\",
\"runs\":[{\"tool\":{\"driver\":{\"name\":\"ebpf check\",\"version\":\"";

/// The rule that results name, behind the version of the tool.
const RULE: &str = "\",\"rules\":[{\"id\":\"breaks\",
\"shortDescription\":{\"text\":\"A program breaks on a kernel\"},
\"fullDescription\":{\"text\":\"A kernel can't load or run a program of an eBPF object file: the program needs something that the kernel lacks.\"},
\"help\":{\"text\":\"Test with bpf_core_field_exists, bpf_core_type_exists or bpf_core_enum_value_exists whether the kernel has it, or leave the program out on such kernels.\"}}]}},
";

/// Writes the tool with its rule, and the name of the run.
fn write_start<W: Write>(out: &mut W, matrix: &Matrix<'_>) -> io::Result<()> {
    out.write_all(START.as_bytes())?;
    out.write_all(matrix.version.as_bytes())?;
    out.write_all(RULE.as_bytes())?;
    let file = Escaped {
        syntax: Syntax::Json,
        text: matrix.file,
    };
    writeln!(
        out,
        "\"automationDetails\":{{\"id\":\"ebpf check/{file}/\"}},"
    )
}

/// Writes a notification on a kernel whose types can't be read.
fn write_notification<W: Write>(out: &mut W, name: &str, fault: &str) -> io::Result<()>
    ensures { OnOk result
        (Appends (W.contents out.old) (W.contents out.new) (notification name.now fault.now)) }
{
    write!(out, "{{\"level\":\"error\",\"message\":{{\"text\":\"")?;
    write_unread(out, Syntax::Sarif, name, fault)?;
    write!(out, "\"}}}}")
}

/// Writes the notifications on the kernels whose types can't be read.
fn write_notifications<W: Write>(out: &mut W, matrix: &Matrix<'_>) -> io::Result<()> {
    let mut written = 0usize;
    for kernel in matrix.kernels.iter() {
        let Some(fault) = kernel.fault else {
            continue;
        };
        write_comma(out, written)?;
        write_notification(out, kernel.name, fault)?;
        written = written.saturating_add(1);
    }
    Ok(())
}

/// Writes the run of the tool, which is successful if the types of each kernel were read.
fn write_invocation<W: Write>(out: &mut W, matrix: &Matrix<'_>) -> io::Result<()> {
    let is_successful = matrix.kernels.iter().all(|kernel| kernel.fault.is_none());
    write!(
        out,
        "\"invocations\":[{{\"executionSuccessful\":{is_successful},\"toolExecutionNotifications\":["
    )?;
    write_notifications(out, matrix)?;
    writeln!(out, "]}}],\n\"results\":[")
}

/// Writes the text of a region, where there is one, and the end of the region.
fn write_snippet<W: Write>(out: &mut W, text: &str) -> io::Result<()> {
    if text.is_empty() {
        return write!(out, "}}");
    }
    write!(out, ",\"snippet\":{{\"text\":")?;
    write_source(out, text)?;
    write!(out, "}}}}")
}

/// Writes the region of a line: its number, which isn't 0, and its text, where there is one.
fn write_region<W: Write>(out: &mut W, number: u32, text: &str) -> io::Result<()> {
    if number == 0 {
        return Ok(());
    }
    write!(out, ",\"region\":{{\"startLine\":{number}")?;
    write_snippet(out, text)
}

/// Writes the location of a source line; line 0 is none.
fn write_location<W: Write>(out: &mut W, line: ReasonLine<'_>) -> io::Result<()> {
    write!(
        out,
        "\"locations\":[{{\"physicalLocation\":{{\"artifactLocation\":{{\"uri\":\""
    )?;
    write_source_path(out, Syntax::Path, "file:///", line.file)?;
    write!(out, "\"}}")?;
    write_region(out, line.number, line.text)?;
    write!(out, "}}}}]")
}

/// Writes a result: a reason at one of its locations, or about all programs. Without a source line it is in the object's
/// file.
fn write_result<W: Write>(
    out: &mut W,
    matrix: &Matrix<'_>,
    reason: &Reason<'_>,
    location: Option<&ReasonLocation<'_>>,
) -> io::Result<()> {
    write!(
        out,
        "{{\"ruleId\":\"breaks\",\"ruleIndex\":0,\"level\":\"error\",\"message\":{{\"text\":\""
    )?;
    write_message(out, Syntax::Sarif, matrix, reason, location)?;
    write!(out, "\"}},")?;
    let line = match location {
        Some(location) => location.line,
        None => None,
    };
    let whole_file = ReasonLine {
        file: matrix.file,
        number: 0,
        text: "",
    };
    write_location(out, line.unwrap_or(whole_file))?;
    write!(out, "}}")
}

/// Writes the results of a reason, behind a number of others; the number of all.
fn write_results<W: Write>(
    out: &mut W,
    matrix: &Matrix<'_>,
    reason: &Reason<'_>,
    before: usize,
) -> io::Result<usize> {
    if reason.locations.is_empty() {
        write_comma(out, before)?;
        write_result(out, matrix, reason, None)?;
        return Ok(before.saturating_add(1));
    }
    let mut written = before;
    for location in reason.locations.iter() {
        write_comma(out, written)?;
        write_result(out, matrix, reason, Some(location))?;
        written = written.saturating_add(1);
    }
    Ok(written)
}

/// Writes a log of SARIF 2.1.0: each reason for which programs break, at its source lines, and the kernels whose types
/// can't be read.
pub fn write_sarif<W: Write>(out: &mut W, matrix: &Matrix<'_>) -> io::Result<()> {
    write_start(out, matrix)?;
    write_invocation(out, matrix)?;
    let mut written = 0;
    for reason in matrix.reasons.iter() {
        if !reason.breaks {
            continue;
        }
        written = write_results(out, matrix, reason, written)?;
    }
    writeln!(out, "]}}]}}")
}
