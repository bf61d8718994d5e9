//! The errors of reading and changing type information.

ghost use Rattle.std.specs.Prelude.{◌≡◌};
ghost use Rattle.ebpf_btf.specs.declared.error.BtfError.TheVariants.{OutOfMemory};

use ebpf_base::Text;
use std::alloc::{AllocError, AllocFailed};
use thiserror::Error;

/// The reason why type information cannot be read or changed.
#[derive(Debug, Drop, Error)]
pub enum BtfError {
    /// The header of `.BTF` or `.BTF.ext` is cut or has another magic than 0xeb9f, or a part runs past the end.
    #[error("the header of .BTF or .BTF.ext is cut or has another magic, or a part of it passes the end")]
    InvalidHeader,
    /// A type is cut or has an unknown kind, or a size or offset in it is out of range.
    #[error("a BTF type is cut or of an unknown kind, or a size or an offset in it is out of range")]
    InvalidTypeInfo,
    /// A part of `.BTF.ext` is cut, or its records are shorter than the kernel's.
    #[error("a part of .BTF.ext is cut, or its records are too small")]
    InvalidInfo,
    /// The strings have no text at an offset: the offset is outside them, or no zero byte follows.
    #[error("BTF has no string at offset {offset:#x}")]
    InvalidStringOffset { offset: usize },
    /// A CO-RE relocation has a kind past 11.
    #[error("a CO-RE relocation has kind {kind}, and the known ones are 0 to 11")]
    InvalidRelocationKind { kind: u32 },
    /// The type with an id has another kind than the call needs.
    #[error("BTF type {type_id} has a kind that its use does not allow")]
    UnexpectedBtfType { type_id: u32 },
    /// No type has the id.
    #[error("there is no BTF type {type_id}")]
    UnknownBtfType { type_id: u32 },
    /// No type of the kind has the name.
    #[error("BTF has no type {:?} of the wanted kind", .type_name.as_str())]
    UnknownBtfTypeName { type_name: Text },
    /// A type leads through more than 32 levels of types, or a comparison meets more than 1,048,576 pairs.
    #[error("BTF type {type_id} leads through more than 32 levels of types, or 1048576 pairs")]
    MaximumTypeDepth { type_id: u32 },
    /// An entry of the DATASEC `.ksyms` is neither a function nor a variable.
    #[error("an entry of the BTF section .ksyms is neither a function nor a variable")]
    InvalidDatasec,
    /// The name of a symbol cannot be read, or no symbol has the name of an extern.
    #[error("the name of a symbol can't be read, or an extern has no symbol of its name")]
    InvalidSymbolName,
    /// The inner map of a map asks for pinning.
    #[error("the inner map of {:?} asks for pinning, which inner maps don't have", .name.as_str())]
    InnerMapCannotBePinned { name: Text },
    /// The inner map of a map is a map of maps.
    #[error("the inner map of {:?} is a map of maps itself", .name.as_str())]
    MultiLevelMapInMapNotSupported { name: Text },
    /// The member `values` of a map is an array with a size.
    #[error("the member values of the map {:?} is an array with a size: declare it with []", .name.as_str())]
    InvalidValuesSpec { name: Text },
    /// `.BTF` cannot hold the value: its offsets and lengths have 32 bits, its counts 16.
    #[error("BTF can't hold that: its offsets and lengths have 32 bits, its counts 16")]
    TooLarge,
    /// Out of memory.
    #[error("out of memory")]
    OutOfMemory,
}

impl From<AllocError> for BtfError {
    ghost from_gives = { λ _ e. e ≡ OutOfMemory };

    fn from(_error: AllocError) -> BtfError {
        BtfError::OutOfMemory
    }
}

impl<T: Drop> From<AllocFailed<T>> for BtfError {
    ghost from_gives = { λ _ e. e ≡ OutOfMemory };

    fn from(_error: AllocFailed<T>) -> BtfError {
        BtfError::OutOfMemory
    }
}
