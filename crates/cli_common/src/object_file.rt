//! The object of a file: the file itself, or one that a program for another machine holds.

ghost use Rattle.std.specs.Prelude.{◌≡◌, IfOk, OnOk, None};
ghost use Rattle.ebpf_btf_maps.specs.Arenas.{completion_fault};
ghost use Rattle.cli_common.specs.CompletedObjects.{IsCompleted, page_size, with_callbacks, with_completed_maps};
ghost use Rattle.ebpf_exceptions.specs.Callbacks.{callbacks_fault};
ghost use Rattle.ebpf_object.specs.Prepared.{IsParsed};
ghost use Rattle.ebpf_parts.specs.declared.parse_mode.ParseMode.TheVariants.{Lenient};

use crate::embedded::{ObjectRange, embedded_objects};
use crate::machines::{machine_name, other_machine};
use crate::refusal::{FileRefusal, READING};
use crate::refuse::{Stop, read_given, refuse_callbacks, refuse_maps, refuse_parsing, refused};
use ebpf_btf_maps::complete_maps;
use ebpf_exceptions::complete_programs;
use ebpf_object::Object;
use ebpf_parts::{ParseError, ParseMode};
use std::alloc::{AllocError, Global};
use std::io::{self, Read};
use std::{env, fs};

/// The machine of a file, in words.
fn machine_text(alloc: Global, machine: u16) -> Result<String, AllocError> {
    match machine_name(machine) {
        Some(name) => format!(in alloc; "is for {name} (machine {machine})"),
        None => format!(in alloc; "is for machine {machine}"),
    }
}

/// A refusal of a choice among the objects of a file.
fn choice_refusal(variant: &'static str, text: String, help: Option<String>) -> FileRefusal {
    FileRefusal {
        stage: READING,
        variant,
        text,
        help,
    }
}

/// The refusal of a file for another machine that holds no object.
fn no_object_refusal(alloc: Global, machine: u16) -> Result<FileRefusal, AllocError> {
    let mut text = machine_text(alloc, machine)?;
    text.push_str(" and holds no eBPF object")?;
    Ok(choice_refusal("NoObject", text, None))
}

/// The objects that can be chosen, with their sizes and offsets.
fn choices(alloc: Global, found: &[ObjectRange]) -> Result<String, AllocError> {
    let mut text = String::new(alloc);
    for (at, range) in found.iter().enumerate() {
        let front = if at == 0 { "" } else { ", " };
        let number = at + 1;
        let bytes = range.end.saturating_sub(range.start);
        write!(
            text,
            "{front}--object {number} ({bytes} bytes at {:#x})",
            range.start
        )?;
    }
    Ok(text)
}

/// The refusal of a choice that selects none of several objects.
fn no_choice_refusal(
    alloc: Global,
    machine: u16,
    found: &[ObjectRange],
    number: Option<usize>,
) -> Result<FileRefusal, AllocError> {
    let mut text = machine_text(alloc, machine)?;
    let count = found.len();
    write!(text, " and holds {count} eBPF objects")?;
    if let Some(number) = number {
        write!(text, ", no object {number}")?;
    }
    let variant = if number.is_some() {
        "NoObject"
    } else {
        "SeveralObjects"
    };
    Ok(choice_refusal(variant, text, Some(choices(alloc, found)?)))
}

/// The refusal of a second object in a file that is one object.
fn no_other_refusal(alloc: Global, number: usize) -> Result<FileRefusal, AllocError> {
    let text = format!(in alloc; "is one eBPF object, no object {number}")?;
    Ok(choice_refusal("NoObject", text, None))
}

/// The range of the object that is chosen among several, the first of which has the number 1; of one alone that one.
fn chosen_range(found: &[ObjectRange], number: Option<usize>) -> Option<ObjectRange> {
    match (number, found) {
        (None, [only]) => Some(*only),
        (Some(number), _) if number > 0 => found.get(number - 1).copied(),
        _ => None,
    }
}

/// The bytes of the object in a file for another machine, or why there are none, with the status.
fn object_bytes(
    alloc: Global,
    file: &[u8],
    machine: u16,
    number: Option<usize>,
) -> Result<Result<Vec<u8>, (FileRefusal, u8)>, AllocError> {
    let found = embedded_objects(alloc, file)?;
    if found.is_empty() {
        return Ok(Err((no_object_refusal(alloc, machine)?, 1)));
    }
    let bytes = match chosen_range(&found, number) {
        Some(range) => file.get(range.start..range.end),
        None => None,
    };
    match bytes {
        Some(bytes) => Ok(Ok(bytes.to_vec(alloc)?)),
        None => Ok(Err((no_choice_refusal(alloc, machine, &found, number)?, 2))),
    }
}

/// The bytes of the object in a file: all of it, or of a program for another machine the object that it holds, the one of
/// a number where it holds several. A file that can't be read, or where no object is chosen so, is reported.
pub fn read_object(
    rt: &HostRuntime,
    json: bool,
    path: &str,
    number: Option<usize>,
) -> Result<Vec<u8>, Stop> {
    let file = read_given(rt, json, path)?;
    let alloc = rt.alloc();
    let Some(machine) = other_machine(&file) else {
        let Some(number) = number.filter(|number| *number != 1) else {
            return Ok(file);
        };
        let refusal = no_other_refusal(alloc, number)?;
        return Err(refused(rt, json, path, &refusal, 2));
    };
    match object_bytes(alloc, &file, machine, number)? {
        Ok(bytes) => Ok(bytes),
        Err((refusal, status)) => Err(refused(rt, json, path, &refusal, status)),
    }
}

/// The object of a file's bytes, read broadly. Little is stated of it, so that what calls this isn't proved over all that
/// is stated of parsing.
fn parsed(alloc: Global, file: &[u8]) -> Result<Object, ParseError>
    ensures { IfOk result (IsParsed Lenient file.now) }
{
    Object::parse_as(alloc, file, ParseMode::Lenient)
}

/// The object of a file's bytes, read broadly; one that can't be parsed is reported.
fn parsed_alone(rt: &HostRuntime, json: bool, path: &str, file: &[u8]) -> Result<Object, Stop>
    ensures { IfOk result (IsParsed Lenient file.now) }
{
    match parsed(rt.alloc(), file) {
        Ok(object) => Ok(object),
        Err(error) => {
            let stop = refuse_parsing(rt, json, path, file, &error);
            drop(error);
            Err(stop)
        }
    }
}

/// The number of bytes of a page, by which the room of an arena is counted.
const PAGE_SIZE: u32 = 4096;

/// Completes the maps of an object; a refusal is reported.
fn complete_own_maps(
    rt: &HostRuntime,
    json: bool,
    path: &str,
    file: &[u8],
    object: &mut Object,
) -> Result<(), Stop>
    ensures completed { OnOk result
        (object.new ≡ with_completed_maps file.now object.old) }
    ensures sound { OnOk result (completion_fault file.now page_size object.old ≡ None) }
{
    match complete_maps(object, file, PAGE_SIZE) {
        Ok(()) => Ok(()),
        Err(error) => {
            let stop = refuse_maps(rt, json, path, &error);
            drop(error);
            Err(stop)
        }
    }
}

/// Completes the programs of an object; a refusal is reported.
fn complete_own_programs(
    rt: &HostRuntime,
    json: bool,
    path: &str,
    file: &[u8],
    object: &mut Object,
) -> Result<(), Stop>
    ensures completed { OnOk result (object.new ≡ with_callbacks file.now object.old) }
    ensures sound { OnOk result (callbacks_fault file.now object.old ≡ None) }
{
    match complete_programs(object, file) {
        Ok(()) => Ok(()),
        Err(error) => {
            let stop = refuse_callbacks(rt, json, path, &error);
            drop(error);
            Err(stop)
        }
    }
}

/// Completes the maps of an object, and then its programs; a refusal is reported.
fn complete(
    rt: &HostRuntime,
    json: bool,
    path: &str,
    file: &[u8],
    object: &mut Object,
) -> Result<(), Stop>
    ensures completed { OnOk result
        (object.new ≡ with_callbacks file.now (with_completed_maps file.now object.old)) }
    ensures maps { OnOk result (completion_fault file.now page_size object.old ≡ None) }
    ensures callbacks { OnOk result
        (callbacks_fault file.now (with_completed_maps file.now object.old) ≡ None) }
{
    complete_own_maps(rt, json, path, file, object)?;
    complete_own_programs(rt, json, path, file, object)
}

/// The object of a file's bytes, read broadly, with its maps and its programs completed; one that can't be parsed is
/// reported.
pub fn parsed_object(rt: &HostRuntime, json: bool, path: &str, file: &[u8]) -> Result<Object, Stop>
    ensures { IfOk result (IsCompleted file.now) }
{
    let mut object = parsed_alone(rt, json, path, file)?;
    match complete(rt, json, path, file, &mut object) {
        Ok(()) => Ok(object),
        Err(stop) => {
            drop(object);
            Err(stop)
        }
    }
}

/// The words of the command line after the program's own name.
pub fn gather_words(rt: &HostRuntime) -> io::Result<Vec<String>> {
    let mut words = Vec::new(rt.alloc());
    for word in env::args(rt)?.skip(1) {
        words.push(word)?;
    }
    Ok(words)
}

/// The bytes of a file up to its end, whatever size it states: files of /sys and /proc state others.
pub fn read_file(rt: &HostRuntime, path: &str) -> io::Result<Vec<u8>> {
    let mut file = fs::open(rt, path)?;
    let size = file.metadata()?.len().min(1 << 40) as usize;
    let mut bytes = Vec::with_capacity(rt.alloc(), size + 1)?;
    file.read_to_end(&mut bytes)?;
    Ok(bytes)
}
