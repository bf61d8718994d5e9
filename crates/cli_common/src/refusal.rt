//! Refusals of files: their parts, and their text and JSON.

use crate::json::write_document;
use crate::names::EscapedName;
use std::alloc::{AllocError, Global};
use std::fmt;
use std::io::{self, ErrorKind, Write};

/// The stage of reading files and choosing among their parts.
pub const READING: &str = "file";

/// The reason to refuse a file.
#[derive(Drop)]
pub struct FileRefusal {
    /// The stage that refuses: `file`, `parse` or a pass.
    pub stage: &'static str,
    /// The name of the error.
    pub variant: &'static str,
    /// The error as a sentence.
    pub text: String,
    /// The remedy, if one is known.
    pub help: Option<String>,
}

/// Returns the refusal of a file or folder that is read or written, by a sentence.
pub fn reading_refusal(variant: &'static str, text: String) -> FileRefusal {
    FileRefusal {
        stage: READING,
        variant,
        text,
        help: None,
    }
}

/// Returns the sentence of an error of the system, unless it is out of memory.
pub fn system_words(alloc: Global, error: &io::Error) -> Result<String, AllocError> {
    if matches!(error.kind(), ErrorKind::OutOfMemory) {
        return Err(AllocError);
    }
    format!(in alloc; "{error}")
}

/// Returns the refusal of a file or folder by the system, unless it is out of memory.
pub fn system_refusal(
    alloc: Global,
    variant: &'static str,
    error: &io::Error,
) -> Result<FileRefusal, AllocError> {
    Ok(reading_refusal(variant, system_words(alloc, error)?))
}

/// A copy of a known help text.
pub fn help_of(alloc: Global, words: Option<&str>) -> Result<Option<String>, AllocError> {
    match words {
        Some(words) => Ok(Some(String::from_str(alloc, words)?)),
        None => Ok(None),
    }
}

/// A refusal of a file as text: one line, and a second one with the help.
#[derive(Clone, Copy)]
pub struct RefusalLines<'a> {
    /// The file.
    pub path: &'a str,
    /// The refusal.
    pub refusal: &'a FileRefusal,
}

impl fmt::Display for RefusalLines<'_> {
    fn fmt<W: fmt::Write>(&self, f: &mut fmt::Formatter<W>) -> fmt::Result {
        let refusal = self.refusal;
        let (path, text) = (EscapedName(self.path), EscapedName(refusal.text.as_str()));
        write!(f, "ebpf: {path}: {text}")?;
        if refusal.stage != READING {
            write!(f, " ({}: {})", refusal.stage, refusal.variant)?;
        }
        let Some(help) = &refusal.help else {
            return Ok(());
        };
        let help = EscapedName(help.as_str());
        write!(f, "\n  help: {help}")
    }
}

/// Writes a refusal of a file as one JSON object, on one line.
pub fn write_refusal<W: Write>(out: &mut W, path: &str, refusal: &FileRefusal) -> io::Result<()> {
    write_document(out, |json| {
        json.key("error")?;
        json.object(|json| {
            json.member("file", path)?;
            json.member("stage", refusal.stage)?;
            json.member("variant", refusal.variant)?;
            json.member("text", refusal.text.as_str())?;
            json.member("help", refusal.help.as_ref().map(|help| help.as_str()))
        })
    })
}
