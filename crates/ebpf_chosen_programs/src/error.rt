//! The errors of leaving programs out of an object.

ghost use Rattle.std.specs.Prelude.{◌≡◌};
ghost use Rattle.ebpf_chosen_programs.specs.declared.error.LeaveOutError.TheVariants.{OutOfMemory};

use ebpf_base::Text;
use std::alloc::{AllocError, AllocFailed};
use thiserror::Error;

/// The reason why programs can't be left out of an object.
#[derive(Debug, Drop, Error)]
pub enum LeaveOutError {
    /// No program of the object has the name.
    #[error("the object has no program {:?}", .name.as_str())]
    UnknownProgram {
        /// The name.
        name: Text,
    },
    /// An allocation failed.
    #[error("out of memory")]
    OutOfMemory,
}

impl From<AllocError> for LeaveOutError {
    ghost from_gives = { λ _ e. e ≡ OutOfMemory };

    fn from(_error: AllocError) -> LeaveOutError {
        LeaveOutError::OutOfMemory
    }
}

impl<T: Drop> From<AllocFailed<T>> for LeaveOutError {
    ghost from_gives = { λ _ e. e ≡ OutOfMemory };

    fn from(_error: AllocFailed<T>) -> LeaveOutError {
        LeaveOutError::OutOfMemory
    }
}
