//! Refusals of files, and how they are reported.

use crate::compressed::Compression;
use crate::object_file::read_file;
use crate::parse_help::parse_help;
use crate::programs::{ObjectProgram, object_programs};
use crate::refusal::{FileRefusal, READING, RefusalLines, help_of, system_refusal, write_refusal};
use crate::variants::variant_of_parsing;
use ebpf_base::Text;
use ebpf_btf_maps::BtfMapError;
use ebpf_exceptions::ExceptionError;
use ebpf_object::Object;
use ebpf_object::obj::ExplainedParse;
use ebpf_parts::ParseError;
use std::alloc::{AllocError, Global};
use std::io::{self, BufWriter, ErrorKind, Write};

/// Prints a refusal of a file on standard error.
pub fn tell(rt: &HostRuntime, path: &str, refusal: &FileRefusal) {
    let lines = RefusalLines { path, refusal };
    let _ = eprintln!(rt; "{lines}");
}

/// Prints a refusal of a file as JSON.
fn print_refusal(rt: &HostRuntime, path: &str, refusal: &FileRefusal) -> io::Result<()> {
    let mut out = BufWriter::new(rt.alloc(), rt.stdout())?;
    write_refusal(&mut out, path, refusal)?;
    out.flush()
}

/// Reports a refusal of a file, on standard output as JSON too if `json` holds. Returns the reason to stop, with the status.
pub fn refused(
    rt: &HostRuntime,
    json: bool,
    path: &str,
    refusal: &FileRefusal,
    status: u8,
) -> Stop {
    tell(rt, path, refusal);
    if !json {
        return Stop::Told(status);
    }
    match print_refusal(rt, path, refusal) {
        Ok(()) => Stop::Told(status),
        Err(error) => Stop::Output(error),
    }
}

/// The refusal of a compressed file.
fn compressed_refusal(
    alloc: Global,
    path: &str,
    by: Compression,
) -> Result<FileRefusal, AllocError> {
    let program = by.program();
    Ok(FileRefusal {
        stage: READING,
        variant: "Compressed",
        text: format!(in alloc; "compressed ({program})")?,
        help: Some(by.command(alloc, path)?),
    })
}

/// The bytes of a file, or the refusal of a file that is unreadable or compressed.
///
/// # Errors
///
/// - `AllocError` (the outer one): out of memory.
pub fn read_plain(
    rt: &HostRuntime,
    path: &str,
) -> Result<Result<Vec<u8>, FileRefusal>, AllocError> {
    let alloc = rt.alloc();
    let bytes = match read_file(rt, path) {
        Ok(bytes) => bytes,
        Err(error) => return Ok(Err(system_refusal(alloc, "CannotRead", &error)?)),
    };
    match Compression::of(&bytes) {
        Some(by) => Ok(Err(compressed_refusal(alloc, path, by)?)),
        None => Ok(Ok(bytes)),
    }
}

/// The bytes of a file of the command line. A refusal is reported.
pub fn read_given(rt: &HostRuntime, json: bool, path: &str) -> Result<Vec<u8>, Stop> {
    match read_plain(rt, path)? {
        Ok(bytes) => Ok(bytes),
        Err(refusal) => Err(refused(rt, json, path, &refusal, 2)),
    }
}

/// The refusal of an object that can't be parsed.
fn parse_refusal(
    alloc: Global,
    file: &[u8],
    error: &ParseError,
) -> Result<FileRefusal, AllocError> {
    let explained = ExplainedParse::new(file, error);
    Ok(FileRefusal {
        stage: "parse",
        variant: variant_of_parsing(error),
        text: format!(in alloc; "{explained}")?,
        help: help_of(alloc, parse_help(error))?,
    })
}

/// Reports an error of parsing.
pub fn refuse_parsing(
    rt: &HostRuntime,
    json: bool,
    path: &str,
    file: &[u8],
    error: &ParseError,
) -> Stop {
    if matches!(error, ParseError::OutOfMemory) {
        return Stop::Memory;
    }
    match parse_refusal(rt.alloc(), file, error) {
        Ok(refusal) => refused(rt, json, path, &refusal, 1),
        Err(_) => Stop::Memory,
    }
}

/// The help on an object whose maps can't be completed.
fn maps_help(error: &BtfMapError) -> Option<&'static str> {
    match error {
        BtfMapError::UnknownPinning { .. } => {
            Some("write `__uint(pinning, LIBBPF_PIN_BY_NAME)`, or leave it out")
        }
        BtfMapError::SecondArena { .. } => Some("declare one map of type BPF_MAP_TYPE_ARENA"),
        BtfMapError::NoArena => Some("declare a map of type BPF_MAP_TYPE_ARENA in `.maps`"),
        BtfMapError::ArenaTooSmall { .. } => Some("declare the arena with more `max_entries`"),
        BtfMapError::ElfError(_) | BtfMapError::OutOfMemory => None,
    }
}

/// The refusal of an object whose maps can't be completed.
fn maps_refusal(alloc: Global, error: &BtfMapError) -> Result<FileRefusal, AllocError> {
    Ok(FileRefusal {
        stage: "parse",
        variant: error.variant_name(),
        text: format!(in alloc; "{error}")?,
        help: help_of(alloc, maps_help(error))?,
    })
}

/// Reports an error of completing maps.
pub fn refuse_maps(rt: &HostRuntime, json: bool, path: &str, error: &BtfMapError) -> Stop {
    if matches!(error, BtfMapError::OutOfMemory) {
        return Stop::Memory;
    }
    match maps_refusal(rt.alloc(), error) {
        Ok(refusal) => refused(rt, json, path, &refusal, 1),
        Err(_) => Stop::Memory,
    }
}

/// The help on an object whose exception callbacks can't be had.
fn callbacks_help(error: &ExceptionError) -> Option<&'static str> {
    match error {
        ExceptionError::NotAFunction { .. } | ExceptionError::NotGlobal { .. } => {
            Some("put the tag `exception_callback:` on a program")
        }
        ExceptionError::EmptyCallback { .. } => {
            Some("write the name of the callback: `__exception_cb(name)`")
        }
        ExceptionError::UnknownCallback { .. } => {
            Some("define the callback as a global function of `.text`")
        }
        ExceptionError::CallbackNotGlobal { .. } => {
            Some("declare the callback neither `static` nor hidden")
        }
        ExceptionError::ElfError(_) | ExceptionError::OutOfMemory => None,
    }
}

/// The refusal of an object whose exception callbacks can't be had.
fn callbacks_refusal(alloc: Global, error: &ExceptionError) -> Result<FileRefusal, AllocError> {
    Ok(FileRefusal {
        stage: "parse",
        variant: error.variant_name(),
        text: format!(in alloc; "{error}")?,
        help: help_of(alloc, callbacks_help(error))?,
    })
}

/// Reports an error of completing programs.
pub fn refuse_callbacks(rt: &HostRuntime, json: bool, path: &str, error: &ExceptionError) -> Stop {
    if matches!(error, ExceptionError::OutOfMemory) {
        return Stop::Memory;
    }
    match callbacks_refusal(rt.alloc(), error) {
        Ok(refusal) => refused(rt, json, path, &refusal, 1),
        Err(_) => Stop::Memory,
    }
}

/// The names of all programs, after a title.
fn known_names(alloc: Global, programs: &[ObjectProgram]) -> Result<String, AllocError> {
    let mut names = String::from_str(alloc, "its programs:")?;
    let mut between = " ";
    for program in programs {
        names.push_str(between)?;
        names.push_str(program.name.as_str())?;
        between = ", ";
    }
    Ok(names)
}

/// The refusal of a program name that the object lacks.
fn no_program_refusal(
    alloc: Global,
    programs: &[ObjectProgram],
    name: &str,
) -> Result<FileRefusal, AllocError> {
    let help = if programs.is_empty() {
        String::from_str(alloc, "it has no program")?
    } else {
        known_names(alloc, programs)?
    };
    Ok(FileRefusal {
        stage: READING,
        variant: "NoProgram",
        text: format!(in alloc; "no program {name}")?,
        help: Some(help),
    })
}

/// Whether some program has a name.
fn has_name(programs: &[ObjectProgram], name: &Text) -> bool {
    programs
        .iter()
        .any(|program| program.name.is(name.as_str()))
}

/// Refuses names that no program has.
fn check_names(
    rt: &HostRuntime,
    json: bool,
    path: &str,
    programs: &[ObjectProgram],
    names: &[Text],
) -> Result<(), Stop> {
    for name in names {
        if has_name(programs, name) {
            continue;
        }
        let refusal = no_program_refusal(rt.alloc(), programs, name.as_str())?;
        return Err(refused(rt, json, path, &refusal, 2));
    }
    Ok(())
}

/// The programs that have one of these names.
fn programs_of_names(
    alloc: Global,
    programs: Vec<ObjectProgram>,
    names: &[Text],
) -> Result<Vec<ObjectProgram>, AllocError> {
    let mut chosen = Vec::new(alloc);
    for program in programs {
        if !names.iter().any(|name| name.is(program.name.as_str())) {
            continue;
        }
        chosen.push(program)?;
    }
    Ok(chosen)
}

/// The programs of an object that have these names, or all if no name is given. A name that no program has is reported.
pub fn chosen_programs(
    rt: &HostRuntime,
    json: bool,
    path: &str,
    file: &[u8],
    object: &Object,
    names: &[Text],
) -> Result<Vec<ObjectProgram>, Stop> {
    let programs = object_programs(rt.alloc(), file, object)?;
    if names.is_empty() {
        return Ok(programs);
    }
    check_names(rt, json, path, &programs, names)?;
    Ok(programs_of_names(rt.alloc(), programs, names)?)
}

/// Why a command stops early.
#[derive(Drop)]
pub enum Stop {
    /// A refusal, reported already; with the status.
    Told(u8),
    /// An error of writing the output.
    Output(io::Error),
    /// Out of memory.
    Memory,
}

impl From<AllocError> for Stop {
    fn from(_error: AllocError) -> Stop {
        Stop::Memory
    }
}

impl From<io::Error> for Stop {
    fn from(error: io::Error) -> Stop {
        Stop::Output(error)
    }
}

/// Reports why a command stops, and returns the status. A closed pipe isn't reported.
pub fn stopped(rt: &HostRuntime, stop: Stop) -> u8 {
    match stop {
        Stop::Told(status) => status,
        Stop::Output(error) if matches!(error.kind(), ErrorKind::BrokenPipe) => 2,
        Stop::Output(error) => {
            let _ = eprintln!(rt; "ebpf: cannot write: {error}");
            2
        }
        Stop::Memory => {
            let _ = eprintln!(rt; "ebpf: out of memory");
            2
        }
    }
}
