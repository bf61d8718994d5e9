//! The errors of listing and defining externs of the kernel's configuration.

ghost use Rattle.std.specs.Prelude.{◌≡◌};
ghost use Rattle.ebpf_kconfig.specs.declared.error.KconfigError.TheVariants.{OutOfMemory};

use ebpf_base::Text;
use std::alloc::{AllocError, AllocFailed};
use thiserror::Error;

/// The reason why externs of the kernel's configuration can't be listed or defined. `name` is the extern's name.
#[derive(Debug, Drop, Error)]
pub enum KconfigError {
    /// The type that an entry of the DATASEC `.kconfig` names is no VAR, or is missing in the object.
    #[error("BTF type {type_id}, which an entry of .kconfig names, is no variable")]
    NotAVariable {
        /// The id of the type.
        type_id: u32,
    },
    /// The name of a variable can't be read.
    #[error("BTF has no string at offset {offset:#x}, the name of an extern of .kconfig")]
    UnreadableName {
        /// The offset of the name in the strings.
        offset: u32,
    },
    /// A name begins neither with `CONFIG_` nor with `LINUX_`.
    #[error("the extern {:?} of .kconfig begins neither with CONFIG_ nor with LINUX_", .name.as_str())]
    UnknownName {
        name: Text,
    },
    /// An extern is of a type that has no values of the configuration.
    #[error("the extern {:?} of .kconfig is of another type than bool, tristate, char, integer and array of char", .name.as_str())]
    UnsupportedType {
        name: Text,
    },
    /// An extern that isn't weak has no value.
    #[error("the extern {:?} of .kconfig has no value", .name.as_str())]
    NoValue {
        name: Text,
    },
    /// A value has another size than its extern.
    #[error("the extern {:?} of .kconfig has {size} bytes, and its value {length}", .name.as_str())]
    WrongSize {
        name: Text,
        /// The size of the extern in bytes.
        size: u32,
        /// The length of the value in bytes.
        length: usize,
    },
    /// The values together pass 32 bits.
    #[error("the externs of .kconfig are too large together: a map's value has 32 bits of size")]
    TooLarge,
    /// The text of the configuration is no value for the type of the extern, or no value at all.
    #[error("what the configuration says of {:?} does not suit its type in .kconfig", .name.as_str())]
    UnsuitedValue {
        name: Text,
    },
    /// A number of the configuration is out of the range of its extern, or of 64 bits.
    #[error("the number that the configuration gives {:?} is out of range", .name.as_str())]
    ValueOutOfRange {
        name: Text,
    },
    /// An allocation failed.
    #[error("out of memory")]
    OutOfMemory,
}

impl KconfigError {
    /// The name of the variant.
    pub fn variant_name(&self) -> &'static str {
        match self {
            KconfigError::NotAVariable { .. } => "NotAVariable",
            KconfigError::UnreadableName { .. } => "UnreadableName",
            KconfigError::UnknownName { .. } => "UnknownName",
            KconfigError::UnsupportedType { .. } => "UnsupportedType",
            KconfigError::NoValue { .. } => "NoValue",
            KconfigError::WrongSize { .. } => "WrongSize",
            KconfigError::TooLarge => "TooLarge",
            KconfigError::UnsuitedValue { .. } => "UnsuitedValue",
            KconfigError::ValueOutOfRange { .. } => "ValueOutOfRange",
            KconfigError::OutOfMemory => "OutOfMemory",
        }
    }
}

impl From<AllocError> for KconfigError {
    ghost from_gives = { λ _ e. e ≡ OutOfMemory };

    fn from(_error: AllocError) -> KconfigError {
        KconfigError::OutOfMemory
    }
}

impl<T: Drop> From<AllocFailed<T>> for KconfigError {
    ghost from_gives = { λ _ e. e ≡ OutOfMemory };

    fn from(_error: AllocFailed<T>) -> KconfigError {
        KconfigError::OutOfMemory
    }
}
