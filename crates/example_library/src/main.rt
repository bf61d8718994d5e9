//! From a file to finished slots, step by step, as docs/LIBRARY.md goes through it. The words are an object file, a kernel's
//! types, the lines of its symbols, and the lines with the descriptors of the maps.
#![tactic(auto)]

mod contracts;
mod listing;
mod making;
mod passes;
mod preparing;
mod refusals;
mod slots;

use ebpf_object::Object;
use ebpf_object::obj::{Btf, ParseError};
use ebpf_object::prepare::{PrepareError, Steps};
use std::alloc::AllocError;
use std::fmt::Display;
use std::{env, fs, io};

/// What an object is prepared with: the file of a kernel's types, the lines of its symbols, and those with descriptors.
#[derive(Clone, Copy)]
struct Given<'a> {
    types: &'a str,
    symbols: &'a [u8],
    lines: &'a str,
}

/// What is printed of an object.
trait Shown: Drop {
    fn show(&self, rt: &HostRuntime) -> io::Result<()>;

    fn show_counts(&self, rt: &HostRuntime) -> io::Result<()>;
}

impl Shown for Object {
    fn show(&self, rt: &HostRuntime) -> io::Result<()> {
        slots::print_programs(rt, self)
    }

    fn show_counts(&self, rt: &HostRuntime) -> io::Result<()> {
        slots::print_counts(rt, self)
    }
}

/// Prints what came of an object that was copied or taken.
fn show_outcome<T: Shown, E: Display + Drop>(
    rt: &HostRuntime,
    outcome: Result<T, E>,
) -> io::Result<()> {
    match &outcome {
        Ok(object) => object.show(rt),
        Err(error) => println!(rt; "refused: {error}"),
    }
}

/// What is printed of why an object stayed as it was.
trait Refused {
    fn show_refusal(&self, rt: &HostRuntime, object: &Object) -> io::Result<()>;
}

impl Refused for PrepareError {
    fn show_refusal(&self, rt: &HostRuntime, object: &Object) -> io::Result<()> {
        refusals::print_refused(rt, object, self)
    }
}

/// Prints what came of an object where it stands.
fn show_in_place<E: Refused + Drop>(
    rt: &HostRuntime,
    object: &Object,
    answer: Result<(), E>,
) -> io::Result<()> {
    match &answer {
        Ok(()) => slots::print_programs(rt, object),
        Err(error) => error.show_refusal(rt, object),
    }
}

/// Why there is no object of a file, or no such variable in it.
trait ParseFault: Drop {
    fn show_fault(&self, rt: &HostRuntime, file: &[u8]) -> io::Result<()>;
}

impl ParseFault for ParseError {
    fn show_fault(&self, rt: &HostRuntime, file: &[u8]) -> io::Result<()> {
        refusals::print_unparsed(rt, file, self)
    }
}

/// Prepares a copy of the object for a kernel, with these descriptors.
fn go_with_fds(
    rt: &HostRuntime,
    object: &Object,
    kernel: &Btf,
    descriptors: &[(&str, i32)],
    symbols: &[u8],
) -> io::Result<()> {
    let steps = Steps::all(kernel, descriptors);
    let outcome = preparing::copied(rt.alloc(), object, &steps, symbols);
    show_outcome(rt, outcome)
}

/// Prepares a copy of the object for a kernel, with the descriptors that lines say.
fn go_copied(
    rt: &HostRuntime,
    object: &Object,
    kernel: &Btf,
    symbols: &[u8],
    lines: &str,
) -> io::Result<()> {
    println!(rt; "a copy, all passes in one call")?;
    let descriptors = making::descriptors(rt.alloc(), object, lines)?;
    go_with_fds(rt, object, kernel, &descriptors, symbols)
}

/// Prepares an object for a kernel, with names of maps that are written out, and links nothing.
fn go_with_names(rt: &HostRuntime, object: Object, kernel: &Btf, symbols: &[u8]) -> io::Result<()> {
    let descriptors = [("counts", 3), (".bss", 4), (".rodata", 5)];
    let steps = Steps::none()
        .with_types(kernel)
        .with_descriptors(&descriptors)
        .with_externs(kernel);
    let outcome = preparing::taken(rt.alloc(), object, &steps, symbols);
    show_outcome(rt, outcome)
}

/// A copy of the object.
fn copy(object: &Object) -> Result<Object, AllocError> {
    object.clone()
}

/// The same of a copy, since the object is prepared in other ways too.
fn go_taken(rt: &HostRuntime, object: &Object, kernel: &Btf, symbols: &[u8]) -> io::Result<()> {
    println!(rt; "the object itself, not linked")?;
    go_with_names(rt, copy(object)?, kernel, symbols)
}

/// Prepares the object where it stands.
fn go_in_place(
    rt: &HostRuntime,
    object: &mut Object,
    heading: &str,
    steps: &Steps<'_>,
    symbols: &[u8],
) -> io::Result<()> {
    println!(rt; "in place, {heading}")?;
    let answer = preparing::in_place(rt.alloc(), object, steps, symbols);
    show_in_place(rt, object, answer)
}

/// Prepares the object without descriptors, which is refused.
fn go_without_fds(rt: &HostRuntime, object: &mut Object) -> io::Result<()> {
    let steps = Steps::none().with_descriptors(&[]).with_calls();
    go_in_place(rt, object, "without descriptors", &steps, &[])
}

/// Looks for externs by symbols alone, which is refused where one has a type.
fn go_by_symbols(rt: &HostRuntime, object: &mut Object, symbols: &[u8]) -> io::Result<()> {
    let steps = Steps::none().with_externs_by_symbols();
    go_in_place(rt, object, "externs by symbols alone", &steps, symbols)
}

/// Links programs whose externs are left alone, which is refused where one is called.
fn go_unresolved(rt: &HostRuntime, object: &mut Object) -> io::Result<()> {
    let descriptors = [("counts", 3), (".bss", 4), (".rodata", 5)];
    let steps = Steps::none().with_descriptors(&descriptors).with_calls();
    go_in_place(rt, object, "externs left alone", &steps, &[])
}

/// Prepares the object in ways that are refused, each of which leaves it as it was.
fn go_refused(rt: &HostRuntime, object: &mut Object, symbols: &[u8]) -> io::Result<()> {
    go_without_fds(rt, object)?;
    go_by_symbols(rt, object, symbols)?;
    go_unresolved(rt, object)
}

/// Prepares the object for a kernel pass by pass.
fn go_one_by_one(
    rt: &HostRuntime,
    object: &mut Object,
    kernel: &Btf,
    symbols: &[u8],
) -> io::Result<()> {
    println!(rt; "the passes one by one")?;
    let descriptors = [("counts", 3), (".bss", 4), (".rodata", 5)];
    let answer = passes::one_by_one(rt.alloc(), object, kernel, &descriptors, symbols);
    show_in_place(rt, object, answer)
}

/// Prints the number of slots of each program of an object, or why there is none.
fn show_outcome_counts<T: Shown, E: Display + Drop>(
    rt: &HostRuntime,
    outcome: Result<T, E>,
) -> io::Result<()> {
    match &outcome {
        Ok(object) => object.show_counts(rt),
        Err(error) => println!(rt; "refused: {error}"),
    }
}

/// Parses the file within a limit.
fn go_small(rt: &HostRuntime, file: &[u8]) -> io::Result<()> {
    println!(rt; "at most 64 MiB")?;
    show_outcome_counts(rt, contracts::small_object(rt.alloc(), file))
}

/// Prepares the file for a kernel.
fn go_linked(rt: &HostRuntime, file: &[u8], kernel: &Btf, symbols: &[u8]) -> io::Result<()> {
    println!(rt; "whole programs")?;
    let descriptors = [("counts", 3), (".bss", 4), (".rodata", 5)];
    let steps = Steps::all(kernel, &descriptors);
    let outcome = contracts::linked_object(rt.alloc(), file, &steps, symbols);
    show_outcome_counts(rt, outcome)
}

/// Prepares the object in each way for a kernel whose types are known.
fn go_for_kernel(
    rt: &HostRuntime,
    file: &[u8],
    object: &mut Object,
    kernel: &Btf,
    symbols: &[u8],
    lines: &str,
) -> io::Result<()> {
    go_copied(rt, object, kernel, symbols, lines)?;
    go_taken(rt, object, kernel, symbols)?;
    go_refused(rt, object, symbols)?;
    go_one_by_one(rt, object, kernel, symbols)?;
    go_small(rt, file)?;
    go_linked(rt, file, kernel, symbols)
}

/// Reads a kernel's types, and prepares the object for it.
fn go_with_types(
    rt: &HostRuntime,
    file: &[u8],
    object: &mut Object,
    given: &Given<'_>,
) -> io::Result<()> {
    match preparing::kernel_types(fs::read(rt, given.types)?) {
        Ok(kernel) => go_for_kernel(rt, file, object, &kernel, given.symbols, given.lines),
        Err(error) => println!(rt; "refused: {error}"),
    }
}

/// Prints what the file has, and prepares the object in each way.
fn go_with_file(
    rt: &HostRuntime,
    file: &[u8],
    object: &mut Object,
    given: &Given<'_>,
) -> io::Result<()> {
    listing::print_parts(rt, object)?;
    listing::print_sections(rt, file, object)?;
    listing::print_license(rt, object)?;
    go_with_types(rt, file, object, given)
}

/// What a file is parsed to.
trait Parsed: Drop {
    /// Sets a variable, prints what the file has, and prepares it in each way.
    fn go(&mut self, rt: &HostRuntime, file: &[u8], given: &Given<'_>) -> io::Result<()>;
}

impl Parsed for Object {
    fn go(&mut self, rt: &HostRuntime, file: &[u8], given: &Given<'_>) -> io::Result<()> {
        match making::set_step(rt.alloc(), self, 2) {
            Ok(()) => go_with_file(rt, file, self, given),
            Err(error) => error.show_fault(rt, file),
        }
    }
}

/// Goes through the steps with what a file was parsed to, or prints why it can't be parsed. It knows neither type, so that
/// its proof doesn't let go of each part of an object.
fn go_parsed<T: Parsed, E: ParseFault>(
    rt: &HostRuntime,
    file: &[u8],
    given: &Given<'_>,
    parsed: Result<T, E>,
) -> io::Result<()> {
    match parsed {
        Ok(mut object) => object.go(rt, file, given),
        Err(error) => error.show_fault(rt, file),
    }
}

/// Parses the file, and goes through the steps with its object.
fn go_through(rt: &HostRuntime, file: &[u8], given: &Given<'_>) -> io::Result<()> {
    go_parsed(rt, file, given, preparing::parsed(rt.alloc(), file))
}

/// Goes through the steps with the file, and with the file cut, which is refused.
fn go(rt: &HostRuntime, file: &[u8], given: &Given<'_>) -> io::Result<()> {
    go_through(rt, file, given)?;
    println!(rt; "a file without its end")?;
    go_through(rt, file.get(..file.len() / 2).unwrap_or(file), given)
}

/// Reads the files but that of the types, and goes through the steps.
fn go_with_words(rt: &HostRuntime, words: &[String]) -> io::Result<()> {
    let [file, types, symbols, lines] = words else {
        return println!(rt; "usage: example_library FILE TYPES SYMBOLS DESCRIPTORS");
    };
    let file = fs::read(rt, file.as_str())?;
    let symbols = fs::read(rt, symbols.as_str())?;
    let lines = fs::read_to_string(rt, lines.as_str())?;
    let given = Given {
        types: types.as_str(),
        symbols: symbols.as_slice(),
        lines: lines.as_str(),
    };
    go(rt, &file, &given)
}

fn main(rt: HostRuntime) -> io::Result<()> {
    let words: Vec<String> = env::args(&rt)?.skip(1).collect(rt.alloc())?;
    go_with_words(&rt, words.as_slice())
}
