//! The programs of an object's file, linked and written.

use crate::bytes::{BytesFailure, write_finished};
use crate::instructions::write_instructions;
use crate::linked::ShownProgram;
use crate::notes::RecordNotes;
use crate::origins::Origins;
use crate::record_words::RecordTeller;
use cli_common::names::EscapedName;
use cli_common::programs::ObjectProgram;
use cli_common::refuse::Stop;
use cli_output::palette::{ColorChoice, Palette, TextStyle};
use cli_prepare::{
    AskedOutcomes, Opened, PrepareWords, Prepared, open_file, prepare_file, refuse_preparing,
};
use ebpf_model::Function;
use std::alloc::Global;
use std::io::{self, BufWriter, Write};

/// The arguments of `ebpf link`.
#[derive(Drop)]
pub struct LinkWords {
    /// The object, its programs and the kernel.
    pub prepare: PrepareWords,
    /// Whether slots are written as bytes.
    pub bytes: bool,
    /// Whether instructions are printed under their source lines.
    pub lines: bool,
    /// The colours of the text.
    pub color: ColorChoice,
}

/// Writes the line of a program: behind an empty one unless it is the first.
fn write_name<W: Write>(
    out: &mut W,
    palette: Palette,
    program: &ObjectProgram,
    function: &Function,
    is_first: bool,
) -> io::Result<()> {
    if !is_first {
        writeln!(out, "")?;
    }
    let name = EscapedName(program.name.as_str());
    let slots = function.instructions.len();
    let (start, end) = (palette.start(TextStyle::Heading), palette.end());
    writeln!(out, "{start}program {name} slots {slots}{end}")
}

/// Writes the programs.
fn write_programs<'a, W: Write>(
    alloc: Global,
    out: &mut W,
    palette: Palette,
    prepared: &'a Prepared,
    origins: &Origins<'a>,
    lines: bool,
) -> Result<(), Stop> {
    let maps = prepared.link_maps.iter();
    let mut teller = RecordTeller::new(alloc, prepared.parsed.btf.as_ref());
    let mut is_first = true;
    for (program, map) in prepared.programs.iter().zip(maps) {
        let Some(function) = prepared.object.functions.get(program.key) else {
            continue;
        };
        write_name(out, palette, program, function, is_first)?;
        let linked = ShownProgram::new(alloc, function, map, lines)?;
        write_instructions(out, &mut teller, origins, &linked)?;
        is_first = false;
    }
    Ok(())
}

/// Writes the programs of an object, with the origins of their slots, to the standard output.
fn write_output<'a>(
    rt: &HostRuntime,
    words: &LinkWords,
    prepared: &'a Prepared,
    origins: &Origins<'a>,
) -> Result<(), Stop> {
    let alloc = rt.alloc();
    let palette = Palette::of(rt, words.color);
    let mut out = BufWriter::new(alloc, rt.stdout())?;
    write_programs(alloc, &mut out, palette, prepared, origins, words.lines)?;
    out.flush()?;
    Ok(())
}

/// Writes the programs of an object.
fn write_prepared(rt: &HostRuntime, words: &LinkWords, prepared: &Prepared) -> Result<(), Stop> {
    let (alloc, parsed) = (rt.alloc(), &prepared.parsed);
    let notes = RecordNotes::of(alloc, parsed, prepared.records.as_slice())?;
    let origins = Origins::new(prepared, &notes);
    write_output(rt, words, prepared, &origins)
}

/// Writes the programs of the object of a file as instructions, behind their source lines where these are wanted.
fn link_as_instructions(rt: &HostRuntime, words: &LinkWords) -> Result<(), Stop> {
    let asked = AskedOutcomes {
        maps: true,
        externs: false,
    };
    let prepared = prepare_file(rt, &words.prepare, asked)?;
    let written = write_prepared(rt, words, &prepared);
    drop(prepared);
    written
}

/// The reason to stop where programs aren't written as bytes; the refusal of a pass is reported.
fn stop_of(rt: &HostRuntime, words: &PrepareWords, opened: &Opened, failure: BytesFailure) -> Stop {
    match failure {
        BytesFailure::Preparing(error) => {
            let stop = refuse_preparing(rt, words, opened, &error);
            drop(error);
            stop
        }
        BytesFailure::Output(error) => Stop::Output(error),
    }
}

/// Writes the programs of an opened object as bytes.
fn write_opened(rt: &HostRuntime, words: &PrepareWords, opened: &Opened) -> Result<(), Stop> {
    let alloc = rt.alloc();
    let mut out = BufWriter::new(alloc, rt.stdout())?;
    match write_finished(
        alloc,
        &opened.parsed,
        &opened.kernel,
        &opened.programs,
        &mut out,
    ) {
        Ok(()) => {}
        Err(failure) => return Err(stop_of(rt, words, opened, failure)),
    }
    out.flush()?;
    Ok(())
}

/// Writes the programs of the object of a file as bytes.
fn link_as_bytes(rt: &HostRuntime, words: &PrepareWords) -> Result<(), Stop> {
    let opened = open_file(rt, words)?;
    let written = write_opened(rt, words, &opened);
    drop(opened);
    written
}

/// Runs `ebpf link`, and gives the status.
pub fn link(rt: &HostRuntime, words: &LinkWords) -> Result<u8, Stop> {
    if words.bytes {
        link_as_bytes(rt, &words.prepare)?;
    } else {
        link_as_instructions(rt, words)?;
    }
    Ok(0)
}
