//! Errors of reading the words of a command line.

use std::alloc::{AllocError, AllocFailed};
use thiserror::Error;

/// Why words can't be read.
#[derive(Clone, Copy, Debug, Error)]
pub enum InvocationError<'a> {
    /// There is no word.
    #[error("no command")]
    NoCommand,
    /// The first word is no command.
    #[error("no command {0}")]
    UnknownCommand(&'a str),
    /// A word is no option that the command has.
    #[error("no option {0}")]
    UnknownOption(&'a str),
    /// An option is without its value.
    #[error("{0} needs a value")]
    NoValue(&'a str),
    /// An option has a value that it doesn't take.
    #[error("{0} takes no value")]
    NeedlessValue(&'a str),
    /// An option that is given once has a second value.
    #[error("{0} is given twice")]
    SecondValue(&'a str),
    /// An option has a value that is no number.
    #[error("{name} takes a number, and not {value}")]
    NoNumber {
        name: &'a str,
        value: &'a str,
    },
    /// An option has a value that is no version of a kernel.
    #[error("{name} takes a version, as 6.12 or 6.12.3, and not {value}")]
    NoVersion {
        name: &'a str,
        value: &'a str,
    },
    /// An option that has to be given is absent.
    #[error("no {0}")]
    MissingOption(&'a str),
    /// No file is named.
    #[error("no FILE")]
    NoFile,
    /// A second file is named, of a command that takes one.
    #[error("one FILE, and not {0}")]
    SecondFile(&'a str),
    /// A file to be written is named a second time.
    #[error("{0} is read and written, or written twice")]
    SecondUse(&'a str),
    /// Two options ask for forms of output that exclude each other.
    #[error("one of {0}")]
    SecondForm(&'static str),
    /// An option has a value that is none of those that it takes.
    #[error("{name} takes {values}, and not {value}")]
    NoChoice {
        name: &'a str,
        values: &'static str,
        value: &'a str,
    },
    /// Out of memory.
    #[error("out of memory")]
    OutOfMemory,
}

impl From<AllocError> for InvocationError<'_> {
    fn from(_error: AllocError) -> Self {
        InvocationError::OutOfMemory
    }
}

impl<T: Drop> From<AllocFailed<T>> for InvocationError<'_> {
    fn from(_error: AllocFailed<T>) -> Self {
        InvocationError::OutOfMemory
    }
}
