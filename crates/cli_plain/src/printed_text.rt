//! The lines of programs and of their parts.

ghost use Rattle.std.specs.Prelude.{OnOk};
ghost use Rattle.std.specs.Io.KnownBytes.{Appends};
ghost use Rattle.std.specs.List.{flat_map};
ghost use Rattle.cli_common.specs.SlotText.{head_line, program_text};
ghost use Rattle.cli_plain.specs.Printed.{address_text, copy_line, reference_line, report_text};

use cli_common::slot_text::write_slots;
use ebpf_inspect::ProgramReport;
use ebpf_object::insn::bpf_insn;
use ebpf_object::relocation::{CodeCopy, PlacedReference};
use std::io::{self, Write};

/// Writes the line of a program: its name and the number of its slots.
pub fn write_head<W: Write>(out: &mut W, name: &str, slots: &[bpf_insn]) -> io::Result<()>
    ensures { OnOk result
        (Appends (W.contents out.old) (W.contents out.new) (head_line name.now slots.now)) }
{
    let count = slots.len();
    writeln!(out, "program {name} slots {count}")
}

/// Writes a program: its name and the number of its slots, then each slot.
pub fn write_program<W: Write>(out: &mut W, name: &str, slots: &[bpf_insn]) -> io::Result<()>
    ensures { OnOk result
        (Appends (W.contents out.old) (W.contents out.new) (program_text name.now slots.now)) }
{
    write_head(out, name, slots)?;
    write_slots(out, slots)
}

/// Writes an address: `0x` and its digits of base 16.
fn write_address<W: Write>(out: &mut W, address: u64) -> io::Result<()>
    ensures { OnOk result
        (Appends (W.contents out.old) (W.contents out.new) (address_text address)) }
{
    write!(out, "0x{address:x}")
}

/// Writes the line of a copy.
#[tactic(auto, using(cli_common::proofs::Appending::both))]
fn write_copy<W: Write>(out: &mut W, copy: &CodeCopy) -> io::Result<()>
    ensures { OnOk result (Appends (W.contents out.old) (W.contents out.new) (copy_line copy.now)) }
{
    let (section, address) = copy.key;
    let base = copy.base;
    let slots = copy.slots;
    let name = copy.name.as_str();
    write!(out, "copy {base} {slots} {section} ")?;
    write_address(out, address)?;
    writeln!(out, " {name}")
}

/// Writes the line of a reference.
fn write_reference<W: Write>(out: &mut W, reference: &PlacedReference) -> io::Result<()>
    ensures { OnOk result
        (Appends (W.contents out.old) (W.contents out.new) (reference_line reference.now)) }
{
    let place = reference.place;
    let base = reference.base;
    let what = if reference.is_call { "call" } else { "load" };
    writeln!(out, "ref {place} {base} {what}")
}

/// Writes the lines of copies.
fn write_copies<W: Write>(out: &mut W, copies: &[CodeCopy]) -> io::Result<()>
    ensures { OnOk result
        (Appends (W.contents out.old) (W.contents out.new) (flat_map copy_line copies.now)) }
{
    for copy in copies {
        write_copy(out, copy)?;
    }
    Ok(())
}

/// Writes the lines of references.
fn write_references<W: Write>(out: &mut W, references: &[PlacedReference]) -> io::Result<()>
    ensures { OnOk result
        (Appends (W.contents out.old) (W.contents out.new)
        (flat_map reference_line references.now)) }
{
    for reference in references {
        write_reference(out, reference)?;
    }
    Ok(())
}

/// Writes the parts of a program: its name and the number of its slots, then each copy and each reference.
pub fn write_report<W: Write>(out: &mut W, report: &ProgramReport) -> io::Result<()>
    ensures { OnOk result
        (Appends (W.contents out.old) (W.contents out.new) (report_text report.now)) }
{
    write_head(out, report.name.as_str(), report.slots.as_slice())?;
    write_copies(out, report.copies.as_slice())?;
    write_references(out, report.references.as_slice())
}
