//! The errors of completing the programs of an object.

ghost use Rattle.std.specs.Prelude.{◌≡◌};
ghost use Rattle.ebpf_exceptions.specs.declared.error.ExceptionError.TheVariants.{OutOfMemory};

use ebpf_base::Text;
use ebpf_elf::ElfReadError;
use std::alloc::{AllocError, AllocFailed};
use thiserror::Error;

/// The reason why libbpf refuses the exception callbacks of an object. `program` and `callback` are the names of a
/// program and its callback.
#[derive(Debug, Drop, Error)]
pub enum ExceptionError {
    /// The bytes are no ELF64 file.
    #[error("{0}")]
    ElfError(ElfReadError),
    /// A tag `exception_callback:` is on a type that is no FUNC.
    #[error("the tag of the exception callback {:?} is on type {type_id}, which is no FUNC", .callback.as_str())]
    NotAFunction {
        /// The id of the type.
        type_id: u32,
        callback: Text,
    },
    /// A function with a tag `exception_callback:` is neither a program nor a global function of `.text`.
    #[error("the function {:?} has the tag of an exception callback, and is neither a program nor global", .function.as_str())]
    NotGlobal {
        /// The name of the function.
        function: Text,
    },
    /// A program's tag `exception_callback:` names no callback.
    #[error("the program {:?} has the tag of an exception callback without a name", .program.as_str())]
    EmptyCallback {
        program: Text,
    },
    /// No function of `.text` has the callback's name.
    #[error("no function of .text is the exception callback {:?} of the program {:?}", .callback.as_str(), .program.as_str())]
    UnknownCallback {
        program: Text,
        callback: Text,
    },
    /// The callback is local, hidden or internal.
    #[error("the exception callback {:?} of the program {:?} is not global, or is hidden", .callback.as_str(), .program.as_str())]
    CallbackNotGlobal {
        program: Text,
        callback: Text,
    },
    /// An allocation failed.
    #[error("out of memory")]
    OutOfMemory,
}

impl ExceptionError {
    /// The name of the variant.
    pub fn variant_name(&self) -> &'static str {
        match self {
            ExceptionError::ElfError(_) => "ElfError",
            ExceptionError::NotAFunction { .. } => "NotAFunction",
            ExceptionError::NotGlobal { .. } => "NotGlobal",
            ExceptionError::EmptyCallback { .. } => "EmptyCallback",
            ExceptionError::UnknownCallback { .. } => "UnknownCallback",
            ExceptionError::CallbackNotGlobal { .. } => "CallbackNotGlobal",
            ExceptionError::OutOfMemory => "OutOfMemory",
        }
    }
}

impl From<AllocError> for ExceptionError {
    ghost from_gives = { λ _ e. e ≡ OutOfMemory };

    fn from(_error: AllocError) -> ExceptionError {
        ExceptionError::OutOfMemory
    }
}

impl<T: Drop> From<AllocFailed<T>> for ExceptionError {
    ghost from_gives = { λ _ e. e ≡ OutOfMemory };

    fn from(_error: AllocFailed<T>) -> ExceptionError {
        ExceptionError::OutOfMemory
    }
}
