//! Why no least types are made.

ghost use Rattle.std.specs.Prelude.{◌≡◌};
ghost use Rattle.ebpf_least_types.specs.declared.error.LeastTypesError.TheVariants.{OutOfMemory};

use crate::id_uses::KernelIdUse;
use std::alloc::{AllocError, AllocFailed};
use thiserror::Error;

/// The reason why the least types of objects can't be made.
#[derive(Debug, Drop, Error)]
pub enum LeastTypesError {
    /// An object needs an id of the kernel's own types, and the least types have other ids.
    #[error("object {object} needs {needed}, and the least types have other ids")]
    NeedsKernelId {
        /// The index of the object, from 0 on.
        object: usize,
        /// What needs the id.
        needed: KernelIdUse,
    },
    /// An allocation failed.
    #[error("out of memory")]
    OutOfMemory,
}

impl From<AllocError> for LeastTypesError {
    ghost from_gives = { λ _ e. e ≡ OutOfMemory };

    fn from(_error: AllocError) -> LeastTypesError {
        LeastTypesError::OutOfMemory
    }
}

impl<T: Drop> From<AllocFailed<T>> for LeastTypesError {
    ghost from_gives = { λ _ e. e ≡ OutOfMemory };

    fn from(_error: AllocFailed<T>) -> LeastTypesError {
        LeastTypesError::OutOfMemory
    }
}
