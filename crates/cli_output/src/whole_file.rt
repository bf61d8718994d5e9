//! Files that are written whole or not at all.

use std::fs::{self, File};
use std::io::{self, BufWriter, ErrorKind, Write};

/// The number of names that are tried for a temporary file.
const NAMES: usize = 100;

/// Whether a path leads to something other than a file or a folder, such as a pipe or a device.
fn is_special(rt: &HostRuntime, path: &str) -> io::Result<bool> {
    match fs::metadata(rt, path) {
        Ok(metadata) => Ok(!metadata.is_file() && !metadata.is_dir()),
        Err(error) if matches!(error.kind(), ErrorKind::NotFound) => Ok(false),
        Err(error) => Err(error),
    }
}

/// A temporary file, with its path.
#[derive(Drop)]
struct NewFile {
    file: File,
    path: String,
}

/// Makes a temporary file in the folder of a path, where nothing is.
fn new_beside(rt: &HostRuntime, path: &str) -> io::Result<NewFile> {
    for number in 0..NAMES {
        let beside = format!(in rt.alloc(); "{path}.{number}.tmp")?;
        match File::create_new(rt, beside.as_str()) {
            Ok(file) => return Ok(NewFile { file, path: beside }),
            Err(error) if matches!(error.kind(), ErrorKind::AlreadyExists) => {}
            Err(error) => return Err(error),
        }
    }
    Err(io::Error::from(ErrorKind::AlreadyExists))
}

/// Writes to an open file; the closure writes its bytes.
fn write_into<F>(rt: &HostRuntime, file: File, write: F) -> io::Result<()>
where
    F: FnOnce(&mut BufWriter<File>) -> io::Result<()> + Drop,
    requires { F.IsAlwaysCallable write }
{
    let mut out = BufWriter::new(rt.alloc(), file)?;
    write(&mut out)?;
    out.flush()
}

/// Gives a temporary file, if it was written, the name of a file. Removes it if it wasn't, or can't be named so.
fn put_in_place(
    rt: &HostRuntime,
    written: io::Result<()>,
    beside: &str,
    path: &str,
) -> io::Result<()> {
    let named = match written {
        Ok(()) => fs::rename(rt, beside, path),
        Err(error) => Err(error),
    };
    if named.is_err() {
        let _ = fs::remove_file(rt, beside);
    }
    named
}

/// Writes a file: afterwards it has the bytes that the closure writes or, on error, what it had before.
///
/// The bytes go to a temporary file in the same folder, which then takes the file's name. A pipe or a device gets the
/// bytes directly.
pub fn write_whole_by<F>(rt: &HostRuntime, path: &str, write: F) -> io::Result<()>
where
    F: FnOnce(&mut BufWriter<File>) -> io::Result<()> + Drop,
    requires { F.IsAlwaysCallable write }
{
    if is_special(rt, path)? {
        let file = fs::create(rt, path)?;
        return write_into(rt, file, write);
    }
    let NewFile { file, path: beside } = new_beside(rt, path)?;
    let written = write_into(rt, file, write);
    put_in_place(rt, written, beside.as_str(), path)
}

/// Writes a file: afterwards it has these bytes or, on error, what it had before. See `write_whole_by`.
pub fn write_whole(rt: &HostRuntime, path: &str, bytes: &[u8]) -> io::Result<()> {
    write_whole_by(rt, path, |out| out.write_all(bytes))
}
