//! A file's bytes to what a loader hands to the kernel: its programs, each linked with the functions that it calls.
#![tactic(auto)]

use ebpf_object::Object;
use ebpf_object::prepare::{NO_SYMBOLS, PrepareError, Steps, prepare};
use std::alloc::Global;
use std::{env, fs, io};

/// Returns the object of a file, with each program linked with the functions that it calls.
fn linked(alloc: Global, file: &[u8]) -> Result<Object, PrepareError> {
    prepare(alloc, file, &Steps::none().with_calls(), NO_SYMBOLS)
}

/// Returns the number of slots of the program with this name.
fn slot_count(object: &Object, name: &str) -> Option<usize> {
    let function = object.program_function(name)?;
    Some(function.instructions.len())
}

/// Prints each program's name and number of slots, in byte order of the names.
fn print_programs(rt: &HostRuntime, object: &Object) -> io::Result<()> {
    for name in &object.programs.names(rt.alloc())? {
        if let Some(slots) = slot_count(object, name) {
            println!(rt; "{name}: {slots} slots")?;
        }
    }
    Ok(())
}

/// Prints what a file has, or why it is refused.
fn print_file(rt: &HostRuntime, file: &[u8]) -> io::Result<()> {
    let prepared = linked(rt.alloc(), file);
    let printed = match &prepared {
        Ok(object) => print_programs(rt, object),
        Err(error) => println!(rt; "{error}"),
    };
    drop(prepared);
    printed
}

fn main(rt: HostRuntime) -> io::Result<()> {
    for path in env::args(&rt)?.skip(1) {
        let file = fs::read(&rt, path.as_str())?;
        print_file(&rt, &file)?;
    }
    Ok(())
}
