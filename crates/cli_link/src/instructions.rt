//! Slots as instructions.

use crate::linked::{ShownProgram, ShownSlot};
use crate::notes::Note;
use crate::origins::Origins;
use crate::record_words::RecordTeller;
use cli_common::names::{EscapedName, last_part};
use cli_common::refuse::Stop;
use cli_common::source_lines::LineNumber;
use cli_instructions::{Operation, decode};
use ebpf_btf::Btf;
use ebpf_reloc::CodeCopy;
use std::io::{self, Write};

/// The target of a jump as a slot of its function, where it is one of the function's.
fn target_of(shown: ShownSlot<'_>, operation: &Operation) -> Option<usize> {
    let next = i64::try_from(shown.slot).ok()?.checked_add(1)?;
    let target = next.checked_add(i64::from(operation.distance()?))?;
    let target = usize::try_from(target).ok()?;
    if target < shown.copy.slots {
        Some(target)
    } else {
        None
    }
}

/// Writes the target of a jump.
fn write_target<W: Write>(
    out: &mut W,
    shown: ShownSlot<'_>,
    operation: &Operation,
) -> io::Result<()> {
    let Some(target) = target_of(shown, operation) else {
        return Ok(());
    };
    let name = EscapedName(shown.copy.name.as_str());
    if target == 0 {
        return write!(out, " <{name}>");
    }
    write!(out, " <{name}+{target}>")
}

/// Writes an instruction.
fn write_instruction<'a, W: Write>(
    out: &mut W,
    origins: &Origins<'a>,
    linked: &ShownProgram<'a>,
    shown: ShownSlot<'_>,
    operation: &Operation,
) -> io::Result<()> {
    if let Some(named) = origins.named_operation(linked, shown) {
        return write!(out, "{named}");
    }
    write!(out, "{operation}")?;
    write_target(out, shown, operation)
}

/// Writes the notes on the CO-RE relocations of a slot.
fn write_notes<W: Write>(
    out: &mut W,
    teller: &mut RecordTeller<'_>,
    notes: &[Note],
) -> Result<(), Stop> {
    let mut between: &[u8] = b"  ; ";
    for note in notes {
        out.write_all(between)?;
        teller.write(out, note)?;
        between = b"; ";
    }
    Ok(())
}

/// Writes the line of an instruction.
fn write_slot<'a, W: Write>(
    out: &mut W,
    teller: &mut RecordTeller<'_>,
    origins: &Origins<'a>,
    linked: &ShownProgram<'a>,
    shown: ShownSlot<'_>,
    operation: &Operation,
) -> Result<(), Stop> {
    let place = shown.place();
    write!(out, "{place:>8}:  ")?;
    write_instruction(out, origins, linked, shown, operation)?;
    write_notes(out, teller, origins.notes(shown))?;
    Ok(writeln!(out, "")?)
}

/// Writes a source line.
fn write_source<W: Write>(out: &mut W, origins: &Origins<'_>, line: LineNumber) -> io::Result<()> {
    let Some(types) = &origins.object.btf else {
        return Ok(());
    };
    let Ok(file) = types.string_at(line.file_name_off) else {
        return Ok(());
    };
    let file = EscapedName(last_part(file.as_str()));
    let number = line.number;
    writeln!(out, "; {file}:{number}")
}

/// Whether two lines are one: of one number, in files of one name.
fn is_same(types: &Btf, first: LineNumber, second: LineNumber) -> bool {
    if first.number != second.number {
        return false;
    }
    if first.file_name_off == second.file_name_off {
        return true;
    }
    let Ok(file) = types.string_at(first.file_name_off) else {
        return false;
    };
    match types.string_at(second.file_name_off) {
        Ok(other) => file.as_str() == other.as_str(),
        Err(_) => false,
    }
}

/// Whether a line isn't the one before it.
fn is_another(origins: &Origins<'_>, last: Option<LineNumber>, line: LineNumber) -> bool {
    let (Some(types), Some(last)) = (&origins.object.btf, last) else {
        return true;
    };
    !is_same(types, last, line)
}

/// The line that begins at a slot, where lines are printed.
fn line_at(linked: &ShownProgram<'_>, place: usize) -> Option<LineNumber> {
    let Some(lines) = &linked.lines else {
        return None;
    };
    lines.beginning(place)
}

/// Writes the source line that begins at a slot, where it isn't the last one; gives the line from there on.
fn write_line<W: Write>(
    out: &mut W,
    origins: &Origins<'_>,
    linked: &ShownProgram<'_>,
    place: usize,
    last: Option<LineNumber>,
) -> io::Result<Option<LineNumber>> {
    let Some(line) = line_at(linked, place) else {
        return Ok(last);
    };
    if is_another(origins, last, line) {
        write_source(out, origins, line)?;
    }
    Ok(Some(line))
}

/// Writes the instructions of a copy under its function's name.
fn write_copy<'a, W: Write>(
    out: &mut W,
    teller: &mut RecordTeller<'_>,
    origins: &Origins<'a>,
    linked: &ShownProgram<'a>,
    copy: &'a CodeCopy,
) -> Result<(), Stop> {
    let name = EscapedName(copy.name.as_str());
    writeln!(out, "<{name}>:")?;
    let mut last = None;
    let mut is_second = false;
    for slot in 0..copy.slots {
        if is_second {
            is_second = false;
            continue;
        }
        let Some(shown) = linked.slot(copy, slot) else {
            break;
        };
        let operation = decode(shown.instruction, shown.second);
        last = write_line(out, origins, linked, shown.place(), last)?;
        write_slot(out, teller, origins, linked, shown, &operation)?;
        is_second = operation.takes_two();
    }
    Ok(())
}

/// Writes the instructions of a program, copy by copy.
pub fn write_instructions<'a, W: Write>(
    out: &mut W,
    teller: &mut RecordTeller<'_>,
    origins: &Origins<'a>,
    linked: &ShownProgram<'a>,
) -> Result<(), Stop> {
    for copy in linked.copies {
        write_copy(out, teller, origins, linked, copy)?;
    }
    Ok(())
}
