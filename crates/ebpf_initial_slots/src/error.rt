//! The errors of finding the initial values of maps.

ghost use Rattle.std.specs.Prelude.{◌≡◌};
ghost use Rattle.ebpf_initial_slots.specs.declared.error.InitialSlotError.TheVariants.{OutOfMemory};

use ebpf_base::Text;
use ebpf_elf::ElfReadError;
use std::alloc::{AllocError, AllocFailed};
use thiserror::Error;

/// The reason why the initial values of maps can't be found.
///
/// - `map`: the name of the map that has the values.
/// - `target`: the name of the symbol that a relocation names.
/// - `place`: the relocation's offset in the section `.maps`, in bytes.
#[derive(Debug, Drop, Error)]
pub enum InitialSlotError {
    /// The bytes are no ELF64 file.
    #[error("{0}")]
    ElfError(ElfReadError),
    /// The object has no symbol of the index that a relocation names.
    #[error("the relocation at offset {place:#x} of .maps names symbol {symbol_index}, which the object lacks")]
    UnknownSymbol {
        place: u64,
        symbol_index: usize,
    },
    /// No map of the section `.maps` holds the 8 bytes at a relocation's place.
    #[error("the relocation at offset {place:#x} of .maps is in no map")]
    OutsideMaps {
        place: u64,
    },
    /// A map with initial values is neither a map of maps nor an array of programs.
    #[error("the map {:?} of type {map_type} has initial values, but is neither a map of maps nor an array of programs", .map.as_str())]
    UnsupportedMapType {
        map: Text,
        /// The number of its type.
        map_type: u32,
    },
    /// A value of a map of maps is not in the section `.maps`.
    #[error("the value {:?} of the map of maps {:?} is not in .maps", .target.as_str(), .map.as_str())]
    NotInMaps {
        map: Text,
        target: Text,
    },
    /// A hash of maps with initial values has keys of another size than 4 bytes.
    #[error("the hash of maps {:?} has initial values and keys of {key_size} bytes: only of 4 can be", .map.as_str())]
    UnsupportedKeySize {
        map: Text,
        /// The size of its keys in bytes.
        key_size: u32,
    },
    /// A value of a map of maps has the name of no map.
    #[error("the value {:?} of the map of maps {:?} is no map", .target.as_str(), .map.as_str())]
    UnknownMap {
        map: Text,
        target: Text,
    },
    /// A value of an array of programs has the name of no program.
    #[error("the value {:?} of the array of programs {:?} is no program", .target.as_str(), .map.as_str())]
    UnknownProgram {
        map: Text,
        target: Text,
    },
    /// A value of an array of programs has a program's name, and another section or address.
    #[error("the value {:?} of the array of programs {:?} is not at the start of the program", .target.as_str(), .map.as_str())]
    NotAnEntryPoint {
        map: Text,
        target: Text,
    },
    /// The type of the map's variable has no `values` as its last member.
    #[error("the type of the map {:?} does not end in a member 'values'", .map.as_str())]
    NoValues {
        map: Text,
    },
    /// The place is before the map's `values`.
    #[error("the relocation at offset {place:#x} of .maps is before the member 'values' of the map {:?}", .map.as_str())]
    OutsideValues {
        map: Text,
        place: u64,
    },
    /// The place is not a multiple of 8 bytes behind the start of the map's `values`.
    #[error("the relocation at offset {place:#x} of .maps is at no whole value of the map {:?}", .map.as_str())]
    Misaligned {
        map: Text,
        place: u64,
    },
    /// An allocation failed.
    #[error("out of memory")]
    OutOfMemory,
}

impl From<AllocError> for InitialSlotError {
    ghost from_gives = { λ _ e. e ≡ OutOfMemory };

    fn from(_error: AllocError) -> InitialSlotError {
        InitialSlotError::OutOfMemory
    }
}

impl<T: Drop> From<AllocFailed<T>> for InitialSlotError {
    ghost from_gives = { λ _ e. e ≡ OutOfMemory };

    fn from(_error: AllocFailed<T>) -> InitialSlotError {
        InitialSlotError::OutOfMemory
    }
}
