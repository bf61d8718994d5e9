//! The errors of preparing the types of an object for the kernel.

ghost use Rattle.std.specs.Prelude.{◌≡◌};
ghost use Rattle.ebpf_btf_load.specs.declared.error.KernelTypesError.TheVariants.{OutOfMemory};

use ebpf_btf::BtfError;
use ebpf_elf::ElfReadError;
use std::alloc::{AllocError, AllocFailed};
use thiserror::Error;

/// The reason why the types of an object can't be prepared for the kernel.
///
/// Each `type_id` is the id of a type of the file's `.BTF`.
#[derive(Debug, Drop, Error)]
pub enum KernelTypesError {
    /// The bytes are no ELF64 file, or `.BTF` runs past the end of the file.
    #[error("{0}")]
    ElfError(ElfReadError),
    /// `.BTF` can't be read.
    #[error("{0}")]
    BtfError(BtfError),
    /// A DATASEC states size 0, and the file has no section of its name, an empty one, or one of 2^32 bytes or more.
    #[error("BTF type {type_id} is a section without a size, and the file has none of its name with one")]
    NoSectionSize {
        /// The id of the DATASEC.
        type_id: u32,
    },
    /// An entry of a DATASEC names a type that is no VAR; in `.ksyms` one that is neither a VAR nor a FUNC.
    #[error("BTF type {type_id}, which an entry of a section names, is no variable")]
    NotAVariable {
        /// The id that the entry names.
        type_id: u32,
    },
    /// No GLOBAL or WEAK symbol of type OBJECT has the name of a global variable.
    #[error("BTF type {type_id} is a global variable, and no symbol has its name")]
    NoSymbol {
        /// The id of the VAR.
        type_id: u32,
    },
    /// An extern of `.kconfig` is of another type than an integer, an enumeration, or an array of these.
    #[error("BTF type {type_id} is an extern of .kconfig of a type that has no size there")]
    UnsupportedExtern {
        /// The id of the VAR.
        type_id: u32,
    },
    /// A length, an offset or an id of the result passes 32 bits.
    #[error("the types don't fit: their ids, offsets and lengths have 32 bits")]
    TooLarge,
    /// An allocation failed.
    #[error("out of memory")]
    OutOfMemory,
}

impl From<AllocError> for KernelTypesError {
    ghost from_gives = { λ _ e. e ≡ OutOfMemory };

    fn from(_error: AllocError) -> KernelTypesError {
        KernelTypesError::OutOfMemory
    }
}

impl<T: Drop> From<AllocFailed<T>> for KernelTypesError {
    ghost from_gives = { λ _ e. e ≡ OutOfMemory };

    fn from(_error: AllocFailed<T>) -> KernelTypesError {
        KernelTypesError::OutOfMemory
    }
}
