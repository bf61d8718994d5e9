//! The arguments of a command line, with their files opened.

use crate::arguments::{Words, WordsError, read_words};
use crate::failure::cannot_read;
use ebpf_base::Text;
use std::alloc::Global;
use std::io::{self, BufRead, BufReader, BufWriter, ErrorKind, Read, Write};
use std::process::ExitCode;
use std::{env, fs};

/// The arguments of a program, with their files opened.
#[derive(Drop)]
pub struct OpenFiles<'a, K> {
    /// The arguments.
    pub words: &'a Words,
    /// The bytes of the object's file.
    pub file: &'a [u8],
    /// The bytes of the kernel's types, where they are given.
    pub btf: Option<Vec<u8>>,
    /// The kernel's symbols.
    pub kallsyms: K,
}

/// A program of the command line `NAME FILE [--btf FILE] [--kallsyms FILE] [--program NAME]`.
pub trait PlainCommand {
    /// The name.
    const NAME: &'static str;

    /// Runs the program on open files, and gives the status.
    fn run<K: BufRead + Drop, O: Write, E: Write>(
        alloc: Global,
        files: OpenFiles<'_, K>,
        out: &mut O,
        err: &mut E,
    ) -> u8;
}

/// Prints the usage line, as a refusal of the words.
fn usage<C: PlainCommand>(rt: &HostRuntime) -> u8 {
    let name = C::NAME;
    let _ = eprintln!(rt; "usage: {name} FILE [--btf FILE] [--kallsyms FILE] [--program NAME]");
    2
}

/// Reports that an allocation failed.
fn no_memory<C: PlainCommand>(rt: &HostRuntime) -> u8 {
    let name = C::NAME;
    let _ = eprintln!(rt; "{name}: memory");
    1
}

/// The words of the command line after the program's own name.
fn gather(rt: &HostRuntime) -> io::Result<Vec<String>> {
    let mut words = Vec::new(rt.alloc());
    for word in env::args(rt)?.skip(1) {
        words.push(word)?;
    }
    Ok(words)
}

/// The bytes of a file. Their memory is taken once where the file tells its size, as those of /proc don't.
fn read_bytes(rt: &HostRuntime, path: &str) -> io::Result<Vec<u8>> {
    let mut file = fs::open(rt, path)?;
    let size = file.metadata()?.len() as usize;
    let mut bytes = Vec::with_capacity(rt.alloc(), size.saturating_add(1))?;
    file.read_to_end(&mut bytes)?;
    Ok(bytes)
}

/// The bytes of a file, or the status of its failure, which is reported.
fn read_file<C: PlainCommand>(rt: &HostRuntime, path: &str) -> Result<Vec<u8>, u8> {
    match read_bytes(rt, path) {
        Ok(bytes) => Ok(bytes),
        Err(error) if matches!(error.kind(), ErrorKind::OutOfMemory) => Err(no_memory::<C>(rt)),
        Err(_) => Err(cannot_read(C::NAME, path, &mut rt.stderr())),
    }
}

/// The bytes of a file that may be named.
fn read_option<C: PlainCommand>(
    rt: &HostRuntime,
    path: &Option<Text>,
) -> Result<Option<Vec<u8>>, u8> {
    match path {
        Some(path) => Ok(Some(read_file::<C>(rt, path.as_str())?)),
        None => Ok(None),
    }
}

/// Runs a program on open files.
fn run_with<C: PlainCommand, K: BufRead + Drop>(rt: &HostRuntime, files: OpenFiles<'_, K>) -> u8 {
    let Ok(mut out) = BufWriter::new(rt.alloc(), rt.stdout()) else {
        return no_memory::<C>(rt);
    };
    C::run(rt.alloc(), files, &mut out, &mut rt.stderr())
}

/// Opens the file of the kernel's symbols and runs a program. Without such a file there are no lines.
fn run_symbols<C: PlainCommand>(
    rt: &HostRuntime,
    words: &Words,
    file: &[u8],
    btf: Option<Vec<u8>>,
) -> u8 {
    let Some(path) = &words.kallsyms else {
        let kallsyms: &[u8] = &[];
        let files = OpenFiles {
            words,
            file,
            btf,
            kallsyms,
        };
        return run_with::<C, &[u8]>(rt, files);
    };
    let Ok(opened) = fs::open(rt, path.as_str()) else {
        return cannot_read(C::NAME, path.as_str(), &mut rt.stderr());
    };
    match BufReader::new(rt.alloc(), opened) {
        Ok(kallsyms) => {
            let files = OpenFiles {
                words,
                file,
                btf,
                kallsyms,
            };
            run_with::<C, _>(rt, files)
        }
        Err(_) => no_memory::<C>(rt),
    }
}

/// Opens the object's file, then that of the kernel's types, and runs a program.
fn run_files<C: PlainCommand>(rt: &HostRuntime, words: &Words) -> Result<u8, u8> {
    let file = read_file::<C>(rt, words.file.as_str())?;
    let btf = read_option::<C>(rt, &words.btf)?;
    Ok(run_symbols::<C>(rt, words, file.as_slice(), btf))
}

/// Runs a program of the command line: gathers its arguments, and opens their files in the order FILE, types, symbols.
pub fn start<C: PlainCommand>(rt: &HostRuntime) -> ExitCode {
    let words = match gather(rt) {
        Ok(words) => words,
        Err(error) if matches!(error.kind(), ErrorKind::OutOfMemory) => {
            return ExitCode::from(no_memory::<C>(rt));
        }
        Err(_) => return ExitCode::from(usage::<C>(rt)),
    };
    let status = match read_words(rt.alloc(), words.as_slice()) {
        Ok(words) => run_files::<C>(rt, &words).unwrap_or_else(|status| status),
        Err(WordsError::Usage) => usage::<C>(rt),
        Err(WordsError::OutOfMemory) => no_memory::<C>(rt),
    };
    ExitCode::from(status)
}
