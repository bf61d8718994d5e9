//! The message of a reason, for reports that have a line for each.

ghost use Rattle.std.specs.Prelude.{OnOk};
ghost use Rattle.std.specs.Io.KnownBytes.{Appends};
ghost use Rattle.cli_pages.specs.Parts.{unread_message};

use crate::matrix::{Matrix, Reason, ReasonLocation};
use cli_formats::escape::{Escaped, Syntax};
use std::io::{self, Write};

/// The number of kernels that a message names.
const NAMED: usize = 3;

/// Writes the subject, the kinds of question and the outcome.
fn write_subject<W: Write>(out: &mut W, syntax: Syntax, reason: &Reason<'_>) -> io::Result<()> {
    let subject = Escaped {
        syntax,
        text: reason.subject,
    };
    write!(out, "{subject} ")?;
    for kind in reason.kinds.iter() {
        write!(out, "<{kind}> ")?;
    }
    let outcome = Escaped {
        syntax,
        text: reason.outcome,
    };
    write!(out, "{outcome}")
}

/// Writes the program of a location, its slot and the function that the slot was copied from.
fn write_location<W: Write>(
    out: &mut W,
    syntax: Syntax,
    matrix: &Matrix<'_>,
    location: &ReasonLocation<'_>,
) -> io::Result<()> {
    if let Some(text) = matrix.programs.get(location.program).copied() {
        let name = Escaped { syntax, text };
        write!(out, "; program {name}")?;
    }
    if let Some(slot) = location.slot {
        write!(out, " slot {slot}")?;
    }
    if let Some((text, slot)) = location.within {
        let name = Escaped { syntax, text };
        write!(out, " ({name}+{slot})")?;
    }
    Ok(())
}

/// The number of kernels whose types were read.
fn judged(matrix: &Matrix<'_>) -> usize {
    matrix
        .kernels
        .iter()
        .filter(|kernel| kernel.fault.is_none())
        .count()
}

/// The name of a kernel, by its number.
fn kernel_name<'a>(matrix: &Matrix<'a>, number: usize) -> &'a str {
    match matrix.kernels.get(number) {
        Some(kernel) => kernel.name,
        None => "",
    }
}

/// The sign before the name of a kernel, by its number among those that are named.
fn sign_before(number: usize) -> &'static str {
    if number == 0 { ": " } else { ", " }
}

/// Writes the number of kernels, and the names of the first three.
fn write_kernels<W: Write>(
    out: &mut W,
    syntax: Syntax,
    matrix: &Matrix<'_>,
    kernels: &[usize],
) -> io::Result<()> {
    let count = kernels.len();
    let judged = judged(matrix);
    write!(out, "; on {count} of {judged} kernels")?;
    for (named, number) in kernels.iter().take(NAMED).enumerate() {
        let name = Escaped {
            syntax,
            text: kernel_name(matrix, *number),
        };
        let sign = sign_before(named);
        write!(out, "{sign}{name}")?;
    }
    if count > NAMED {
        let more = count - NAMED;
        write!(out, " and {more} more")?;
    }
    Ok(())
}

/// Writes the message of a reason at one of its locations, or about all programs: the subject and the outcome, the
/// location, and the kernels.
pub fn write_message<W: Write>(
    out: &mut W,
    syntax: Syntax,
    matrix: &Matrix<'_>,
    reason: &Reason<'_>,
    location: Option<&ReasonLocation<'_>>,
) -> io::Result<()> {
    write_subject(out, syntax, reason)?;
    match location {
        Some(location) => {
            write_location(out, syntax, matrix, location)?;
            write_kernels(out, syntax, matrix, location.kernels)
        }
        None => {
            write!(out, "; all programs")?;
            write_kernels(out, syntax, matrix, reason.kernels)
        }
    }
}

/// Writes the message on a kernel whose types can't be read: its name and the reason.
pub fn write_unread<W: Write>(
    out: &mut W,
    syntax: Syntax,
    name: &str,
    fault: &str,
) -> io::Result<()>
    ensures { OnOk result
        (Appends (W.contents out.old) (W.contents out.new)
        (unread_message syntax name.now fault.now)) }
{
    let name = Escaped { syntax, text: name };
    let fault = Escaped {
        syntax,
        text: fault,
    };
    write!(out, "kernel {name} can't be read: {fault}")
}
