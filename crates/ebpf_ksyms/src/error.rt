//! Why an object's externs could not be resolved.

ghost use Rattle.std.specs.Prelude.{◌≡◌};
ghost use Rattle.ebpf_ksyms.specs.Addresses.{of_type_fault};
ghost use Rattle.ebpf_ksyms.specs.declared.error.KsymsError.TheVariants.{OutOfMemory};

use ebpf_base::Text;
use ebpf_btf::BtfError;
use std::alloc::{AllocError, AllocFailed};
use std::io;
use thiserror::Error;

/// Why an object's externs could not be resolved.
#[derive(Debug, Drop, Error)]
pub enum KsymsError {
    /// An extern that has to be there has a type, and no types of a kernel were given.
    #[error("a strong extern has a type, and the kernel's BTF is not given")]
    TypedKsymRequiresKernelBtf,
    /// A variable that has to be there is not in the kernel.
    #[error("the kernel has no variable {:?}", .name.as_str())]
    VariableNotFound {
        name: Text,
    },
    /// The kernel's function of this name takes or gives other types.
    #[error("the kernel's function {:?} has another signature", .name.as_str())]
    IncompatibleFunctionSignature {
        name: Text,
    },
    /// The kernel's variable of this name has another type.
    #[error("the kernel's variable {:?} has another type", .name.as_str())]
    IncompatibleVariableType {
        name: Text,
    },
    /// The type of an extern is neither a FUNC nor a VAR.
    #[error("the extern {:?} is neither a function nor a variable", .name.as_str())]
    InvalidExternType {
        name: Text,
    },
    /// A type of the object or of the kernel that is needed can't be found or resolved.
    #[error("the type of an extern can't be read: {0}")]
    BtfError(BtfError),
    /// The kernel has two addresses for a name.
    #[error("the kernel's symbols have {:?} at {first_addr:#x} and at {second_addr:#x}", .name.as_str())]
    AmbiguousResolution {
        name: Text,
        first_addr: u64,
        second_addr: u64,
    },
    /// A line could not be read.
    #[error("the kernel's symbols can't be read: {0}")]
    KallsymsAccessError(io::Error),
    /// A line states no address.
    #[error("a line of the kernel's symbols can't be parsed: {0}")]
    KallsymsParseError(Text),
    /// A function that has to be there is not in the kernel.
    #[error("the kernel has no function {:?}", .name.as_str())]
    FunctionNotFound {
        name: Text,
    },
    /// No memory was found.
    #[error("out of memory")]
    OutOfMemory,
}

impl KsymsError {
    /// The error for a fault of types. A failed allocation stays `OutOfMemory`.
    pub(crate) fn of_types(error: BtfError) -> KsymsError
        ensures { result ≡ of_type_fault error }
    {
        match error {
            BtfError::OutOfMemory => KsymsError::OutOfMemory,
            other => KsymsError::BtfError(other),
        }
    }
}

impl From<AllocError> for KsymsError {
    ghost from_gives = { λ _ e. e ≡ OutOfMemory };

    fn from(_error: AllocError) -> KsymsError {
        KsymsError::OutOfMemory
    }
}

impl<T: Drop> From<AllocFailed<T>> for KsymsError {
    ghost from_gives = { λ _ e. e ≡ OutOfMemory };

    fn from(_error: AllocFailed<T>) -> KsymsError {
        KsymsError::OutOfMemory
    }
}
