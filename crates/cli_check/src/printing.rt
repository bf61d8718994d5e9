//! The text output of `ebpf check`.

use crate::session::{Judgement, KernelAnswer, Session};
use crate::verdict::Fate;
use crate::verdict::findings::{Finding, FindingKey, Severity, SourceLocation};
use cli_common::kinds::Kind;
use cli_common::names::{EscapedName, last_part, write_value};
use cli_output::palette::{Palette, TextStyle};
use std::collections::{BTreeMap, BTreeSet};
use std::io::{self, Write};

/// The number of kernels that a line names where not all are listed.
const NAMED: usize = 3;

/// Writes the line of a kernel that is done.
pub fn write_kernel<W: Write>(
    out: &mut W,
    palette: Palette,
    kernel: &KernelAnswer,
    programs: usize,
) -> io::Result<()> {
    let name = EscapedName(kernel.name.as_str());
    let breaking = kernel.breaking();
    match &kernel.answer {
        Judgement::Unread(_) => {
            palette.write(out, TextStyle::Unsure, "unread")?;
            writeln!(out, "  -/{programs} programs  {name}")
        }
        Judgement::Judged(_) if breaking > 0 => {
            palette.write(out, TextStyle::Bad, "breaks")?;
            write!(out, "  {breaking}/{programs} programs  {name}")?;
            write_untargeted(out, kernel)
        }
        Judgement::Judged(_) => {
            let running = programs.saturating_sub(kernel.untargeted());
            palette.write(out, TextStyle::Good, "ok")?;
            write!(out, "      {running}/{programs} programs  {name}")?;
            write_untargeted(out, kernel)
        }
    }
}

/// Ends the line of a kernel: with the number of programs that have no target, where there are some.
fn write_untargeted<W: Write>(out: &mut W, kernel: &KernelAnswer) -> io::Result<()> {
    let untargeted = kernel.untargeted();
    if untargeted > 0 {
        write!(out, "  ({untargeted} no target)")?;
    }
    writeln!(out, "")
}

/// The name of the kernel of a number.
fn kernel_name(session: &Session, number: usize) -> EscapedName<'_> {
    match session.kernels.get(number) {
        Some(kernel) => EscapedName(kernel.name.as_str()),
        None => EscapedName(""),
    }
}

/// Writes a name, behind a comma where it isn't the first.
fn write_name<W: Write>(out: &mut W, name: EscapedName<'_>, is_first: bool) -> io::Result<()> {
    if is_first {
        write!(out, "{name}")
    } else {
        write!(out, ", {name}")
    }
}

/// Writes the names of kernels: all, or the first three and how many more there are.
fn write_names<W: Write>(out: &mut W, session: &Session, kernels: &[usize]) -> io::Result<()> {
    let count = kernels.len();
    let named = if session.all || count <= NAMED {
        count
    } else {
        NAMED
    };
    let mut is_first = true;
    for number in kernels.iter().take(named) {
        write_name(out, kernel_name(session, *number), is_first)?;
        is_first = false;
    }
    if named < count {
        let more = count - named;
        write!(out, " and {more} more")?;
    }
    Ok(())
}

/// Writes the kernels of a finding.
fn write_on<W: Write>(out: &mut W, session: &Session, kernels: &[usize]) -> io::Result<()> {
    let count = kernels.len();
    let judged = session.judged();
    write!(out, "on {count} of {judged}")?;
    if count >= judged {
        return Ok(());
    }
    write!(out, ": ")?;
    write_names(out, session, kernels)
}

/// Writes the program of a location, its slot and the function that the slot was copied from.
fn write_slot<W: Write>(out: &mut W, session: &Session, place: &SourceLocation) -> io::Result<()> {
    if let Some(program) = session.loaded.needs.programs.get(place.program) {
        let name = EscapedName(program.name.as_str());
        write!(out, "{name}")?;
    }
    if let Some(slot) = place.slot {
        write!(out, " slot {slot}")?;
    }
    if let Some((function, slot)) = &place.within {
        let function = EscapedName(function.as_str());
        write!(out, " ({function}+{slot})")?;
    }
    Ok(())
}

/// Writes the line of a location. Where the finding is there on some of its kernels alone, these are named.
fn write_place<W: Write>(
    out: &mut W,
    session: &Session,
    place: &SourceLocation,
    kernels: &[usize],
) -> io::Result<()> {
    write!(out, "    ")?;
    write_slot(out, session, place)?;
    if let Some(line) = &place.line {
        let file = EscapedName(last_part(line.file.as_str()));
        let number = line.number;
        write!(out, "  {file}:{number}")?;
    }
    if place.kernels.len() < kernels.len() {
        write!(out, "  (")?;
        write_on(out, session, &place.kernels)?;
        write!(out, ")")?;
    }
    writeln!(out, "")
}

/// Writes the kinds of question.
fn write_kinds<W: Write>(out: &mut W, kinds: &BTreeSet<Kind>) -> io::Result<()> {
    for kind in kinds.iter() {
        let kind = kind.word();
        write!(out, "<{kind}> ")?;
    }
    Ok(())
}

/// Writes the first line of a finding that is absent or refused: its name, the kinds of question, and the reason.
fn write_reason<W: Write>(out: &mut W, key: &FindingKey, kinds: &BTreeSet<Kind>) -> io::Result<()> {
    let name = EscapedName(key.name.as_str());
    write!(out, "  {name}  ")?;
    write_kinds(out, kinds)?;
    let reason = EscapedName(key.reason.as_str());
    writeln!(out, " {reason}")
}

/// Writes a finding that is absent or refused: its first line, the kernels, and the locations.
fn write_found<W: Write>(
    out: &mut W,
    session: &Session,
    key: &FindingKey,
    found: &Finding,
) -> io::Result<()> {
    write_reason(out, key, &found.kinds)?;
    write!(out, "    ")?;
    write_on(out, session, &found.kernels)?;
    writeln!(out, "")?;
    for place in found.places.values() {
        write_place(out, session, place, &found.kernels)?;
    }
    Ok(())
}

/// Writes the values that kernels give.
fn write_values<W: Write>(
    out: &mut W,
    session: &Session,
    is_signed: bool,
    values: &BTreeMap<u64, Vec<usize>>,
) -> io::Result<()> {
    for (value, kernels) in values.iter() {
        write!(out, "    ")?;
        write_value(out, is_signed, *value)?;
        write!(out, " on ")?;
        write_names(out, session, kernels)?;
        writeln!(out, "")?;
    }
    Ok(())
}

/// Writes a finding with other values: its name, the object's own value, and those of kernels.
fn write_changed<W: Write>(
    out: &mut W,
    session: &Session,
    key: &FindingKey,
    found: &Finding,
) -> io::Result<()> {
    let name = EscapedName(key.name.as_str());
    write!(out, "  {name}  ")?;
    if key.kind != Kind::EnumeratorValue {
        let kind = key.kind.word();
        write!(out, "<{kind}>  ")?;
    }
    if let Some(own) = found.own {
        write_value(out, key.is_signed, own)?;
    }
    writeln!(out, " in the object")?;
    write_values(out, session, key.is_signed, &found.values)
}

/// The line over the findings of a severity.
fn heading(severity: Severity) -> &'static str {
    match severity {
        Severity::Breaks => "BREAKS",
        Severity::NoTarget => "NO TARGET (not found, and not counted as broken)",
        Severity::Guarded => "GUARDED (absent, not reached)",
        Severity::Changed => "CHANGED (written; nothing to do)",
    }
}

/// The style of the line over the findings of a severity.
fn heading_style(severity: Severity) -> TextStyle {
    match severity {
        Severity::Breaks => TextStyle::Bad,
        Severity::NoTarget => TextStyle::Unsure,
        Severity::Guarded | Severity::Changed => TextStyle::Heading,
    }
}

/// Writes the line over the findings of a severity.
fn write_heading<W: Write>(out: &mut W, palette: Palette, severity: Severity) -> io::Result<()> {
    palette.write(out, heading_style(severity), heading(severity))?;
    writeln!(out, "")
}

/// Writes the findings of a severity under its heading, where there are some.
fn write_severity<W: Write>(out: &mut W, session: &Session, severity: Severity) -> io::Result<()> {
    if !session.has(severity) {
        return Ok(());
    }
    write_heading(out, session.palette, severity)?;
    for (key, found) in session.findings.by_key.iter() {
        if key.severity != severity {
            continue;
        }
        match severity {
            Severity::Changed => write_changed(out, session, key, found)?,
            _ => write_found(out, session, key, found)?,
        }
    }
    Ok(())
}

/// Writes the kconfig externs of the object.
fn write_settings<W: Write>(out: &mut W, session: &Session) -> io::Result<()> {
    if session.loaded.needs.settings.is_empty() {
        return Ok(());
    }
    session.palette.write(
        out,
        TextStyle::Heading,
        "WANTED (of the kernel's configuration; not looked for)",
    )?;
    writeln!(out, "")?;
    for name in session.loaded.needs.settings.iter() {
        let name = EscapedName(name.as_str());
        writeln!(out, "  {name}")?;
    }
    Ok(())
}

/// Writes that no program breaks, and the number of programs for which that isn't said: those without a target.
fn write_ok<W: Write>(out: &mut W, session: &Session) -> io::Result<()> {
    let file = EscapedName(session.file.as_str());
    let judged = session.judged();
    let programs = session.loaded.needs.programs.len();
    let untargeted = session.programs_with(Fate::NoTarget);
    let running = programs.saturating_sub(untargeted);
    write!(out, "{file}: ")?;
    session.palette.write(out, TextStyle::Good, "ok")?;
    write!(
        out,
        " on {judged} of {judged} kernels, {running} of {programs} programs"
    )?;
    match untargeted {
        0 => Ok(()),
        1 => write!(out, ", if 1 program without a target is left out"),
        _ => write!(
            out,
            ", if {untargeted} programs without a target are left out"
        ),
    }
}

/// Writes the last line: on how many kernels how many programs break or run.
fn write_summary<W: Write>(out: &mut W, session: &Session) -> io::Result<()> {
    let file = EscapedName(session.file.as_str());
    let judged = session.judged();
    let programs = session.loaded.needs.programs.len();
    let broken = session.broken();
    let breaking = session.programs_with(Fate::Breaks);
    if judged == 0 {
        write!(out, "{file}: no kernel to tell of")?;
    } else if broken > 0 {
        write!(out, "{file}: ")?;
        session.palette.write(out, TextStyle::Bad, "breaks")?;
        write!(
            out,
            " on {broken} of {judged} kernels, {breaking} of {programs} programs"
        )?;
    } else {
        write_ok(out, session)?;
    }
    let unread = session.unread();
    if unread > 0 {
        write!(out, "; {unread} not read")?;
    }
    writeln!(out, "")
}

/// Writes the findings over all kernels, behind the lines of the kernels.
pub fn write_findings<W: Write>(out: &mut W, session: &Session) -> io::Result<()> {
    writeln!(out, "")?;
    write_severity(out, session, Severity::Breaks)?;
    write_severity(out, session, Severity::NoTarget)?;
    write_severity(out, session, Severity::Guarded)?;
    write_severity(out, session, Severity::Changed)?;
    write_settings(out, session)?;
    if !session.findings.by_key.is_empty() || !session.loaded.needs.settings.is_empty() {
        writeln!(out, "")?;
    }
    write_summary(out, session)
}
