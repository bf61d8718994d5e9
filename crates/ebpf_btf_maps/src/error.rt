//! The errors of completing the maps of an object.

ghost use Rattle.std.specs.Prelude.{◌≡◌};
ghost use Rattle.ebpf_btf_maps.specs.declared.error.BtfMapError.TheVariants.{OutOfMemory};

use ebpf_base::Text;
use ebpf_elf::ElfReadError;
use std::alloc::{AllocError, AllocFailed};
use thiserror::Error;

/// The reason why libbpf refuses the BTF-defined maps of an object. `map` is the name of the map.
#[derive(Debug, Drop, Error)]
pub enum BtfMapError {
    /// The bytes are no ELF64 file, or the data of a section run past their end.
    #[error("{0}")]
    ElfError(ElfReadError),
    /// A map asks for a pinning that is neither 0 nor 1.
    #[error("the map {:?} asks for pinning {number}, and the known ones are 0 and 1", .map.as_str())]
    UnknownPinning {
        map: Text,
        /// The number of the pinning.
        number: u32,
    },
    /// An object has a second arena.
    #[error("the map {:?} is a second arena, and an object has one", .map.as_str())]
    SecondArena {
        map: Text,
    },
    /// The section `.addr_space.1` has data, and the object has no arena.
    #[error("the section .addr_space.1 has variables of an arena, and no map is an arena")]
    NoArena,
    /// The data of `.addr_space.1` are larger than the arena.
    #[error("the {size} bytes of the section .addr_space.1 do not fit the {pages} pages of the arena {:?}", .map.as_str())]
    ArenaTooSmall {
        map: Text,
        /// The number of bytes of the section.
        size: usize,
        /// The number of pages of the arena.
        pages: u32,
    },
    /// An allocation failed.
    #[error("out of memory")]
    OutOfMemory,
}

impl BtfMapError {
    /// The name of the variant.
    pub fn variant_name(&self) -> &'static str {
        match self {
            BtfMapError::ElfError(_) => "ElfError",
            BtfMapError::UnknownPinning { .. } => "UnknownPinning",
            BtfMapError::SecondArena { .. } => "SecondArena",
            BtfMapError::NoArena => "NoArena",
            BtfMapError::ArenaTooSmall { .. } => "ArenaTooSmall",
            BtfMapError::OutOfMemory => "OutOfMemory",
        }
    }
}

impl From<AllocError> for BtfMapError {
    ghost from_gives = { λ _ e. e ≡ OutOfMemory };

    fn from(_error: AllocError) -> BtfMapError {
        BtfMapError::OutOfMemory
    }
}

impl<T: Drop> From<AllocFailed<T>> for BtfMapError {
    ghost from_gives = { λ _ e. e ≡ OutOfMemory };

    fn from(_error: AllocFailed<T>) -> BtfMapError {
        BtfMapError::OutOfMemory
    }
}
