//! Programs as bytes.

ghost use Rattle.std.specs.Prelude.{ℕ, List, map, OnOk};
ghost use Rattle.std.specs.Io.KnownBytes.{Appends};
ghost use Rattle.std.specs.List.{flat_map};
ghost use Rattle.cli_common.specs.DefaultPasses.{default_passes};
ghost use Rattle.cli_common.specs.SlotText.{head_line, program_text};
ghost use Rattle.ebpf_ksyms.specs.Sources.{Text};
ghost use Rattle.cli_link.specs.Written.{shown_lines, program_name, WritesFinished, HasWritten};
ghost use Rattle.cli_common.specs.Shown.{shown};
ghost use Rattle.cli_prepare.specs.Opened.{IsDefined};

use cli_common::names::EscapedName;
use cli_common::programs::ObjectProgram;
use cli_common::slot_text::write_slots;
use cli_prepare::{Kernel, finished_object};
use ebpf_object::Object;
use ebpf_object::prepare::PrepareError;
use ebpf_parts::insn::bpf_insn;
use std::alloc::Global;
use std::io::{self, Write};

/// The reason why programs aren't written as bytes, or not all.
#[derive(Drop)]
pub enum BytesFailure {
    /// A pass refuses the object.
    Preparing(PrepareError),
    /// The writer failed.
    Output(io::Error),
}

/// Writes the line of a program: its name as it is shown, and the number of its slots.
fn write_head<W: Write>(out: &mut W, name: &str, slots: &[bpf_insn]) -> io::Result<()>
    ensures { OnOk result
        (Appends (W.contents out.old) (W.contents out.new)
        (head_line (shown name.now) slots.now)) }
{
    let name = EscapedName(name);
    let count = slots.len();
    writeln!(out, "program {name} slots {count}")
}

/// Writes a program: its name as it is shown and the number of its slots, then each slot.
fn write_program<W: Write>(out: &mut W, name: &str, slots: &[bpf_insn]) -> io::Result<()>
    ensures { OnOk result
        (Appends (W.contents out.old) (W.contents out.new)
        (program_text (shown name.now) slots.now)) }
{
    write_head(out, name, slots)?;
    write_slots(out, slots)
}

/// Writes the program of a name: its name as it is shown and the number of its slots, then each slot.
fn write_named<W: Write>(object: &Object, name: &str, out: &mut W) -> io::Result<()>
    ensures { OnOk result
        (Appends (W.contents out.old) (W.contents out.new) (shown_lines object.now name.now)) }
{
    match object.program_function(name) {
        Some(function) => write_program(out, name, function.instructions.as_slice()),
        None => Ok(()),
    }
}

/// Writes these programs of an object.
#[tactic(auto, using(crate::proofs::Lines::one_program, ebpf_base::proofs::Lists::rest_none, cli_common::proofs::Appending::nothing_more))]
fn write_named_programs<W: Write>(
    object: &Object,
    programs: &[ObjectProgram],
    out: &mut W,
) -> io::Result<()>
    ensures { OnOk result
        (Appends (W.contents out.old) (W.contents out.new)
        (flat_map (shown_lines object.now) (map program_name programs.now))) }
{
    for program in programs {
        write_named(object, program.name.as_str(), out)?;
    }
    Ok(())
}

/// Makes all passes over a copy of an object that was parsed, and writes these programs of it as bytes: the lines that
/// `ebpf-link` writes of them, but for names as they are shown. Maps have the descriptors 1 and on in byte order of their names.
///
/// # Errors
///
/// `Preparing` with the first fault of the passes, where nothing was written; `Output` where the writer fails.
pub fn write_finished<W: Write>(
    alloc: Global,
    parsed: &Object,
    kernel: &Kernel,
    programs: &[ObjectProgram],
    out: &mut W,
) -> Result<(), BytesFailure>
    ensures lines { OnOk result
        (WritesFinished (default_passes kernel.now.types parsed.now.maps)
        (Text kernel.now.symbols.items) parsed.now (map program_name programs.now)
        (W.contents out.old) (W.contents out.new)) }
    ensures done { (file : List ℕ)
        → IsDefined file kernel.now parsed.now
        → OnOk result
        (HasWritten file kernel.now (map program_name programs.now) (W.contents out.old)
        (W.contents out.new)) }
{
    let object = match finished_object(alloc, parsed, kernel) {
        Ok(object) => object,
        Err(error) => return Err(BytesFailure::Preparing(error)),
    };
    match write_named_programs(&object, programs, out) {
        Ok(()) => {
            drop(object);
            Ok(())
        }
        Err(error) => {
            drop(object);
            Err(BytesFailure::Output(error))
        }
    }
}
