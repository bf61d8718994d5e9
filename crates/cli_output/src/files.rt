//! Files that a command writes.

use crate::whole_file::write_whole_by;
use cli_common::names::EscapedName;
use cli_common::refuse::Stop;
use std::fs::File;
use std::io::{self, BufWriter, ErrorKind};

/// Reports a file that can't be written. Returns the reason to stop, with the status.
fn unwritten(rt: &HostRuntime, path: &str, error: io::Error) -> Stop {
    if matches!(error.kind(), ErrorKind::OutOfMemory) {
        return Stop::Memory;
    }
    let path = EscapedName(path);
    let _ = eprintln!(rt; "ebpf: {path}: cannot write: {error}");
    Stop::Told(2)
}

/// Writes a file whole or not at all; the closure writes its bytes. A file that can't be written is reported.
pub fn write_file<F>(rt: &HostRuntime, path: &str, write: F) -> Result<(), Stop>
where
    F: FnOnce(&mut BufWriter<File>) -> io::Result<()> + Drop,
    requires { F.IsAlwaysCallable write }
{
    match write_whole_by(rt, path, write) {
        Ok(()) => Ok(()),
        Err(error) => Err(unwritten(rt, path, error)),
    }
}

/// Returns the first failure of two.
pub fn first_failure(first: Result<(), Stop>, second: Result<(), Stop>) -> Result<(), Stop> {
    match first {
        Ok(()) => second,
        Err(stop) => Err(stop),
    }
}
