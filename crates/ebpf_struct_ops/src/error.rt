//! The errors of the maps of struct_ops.

ghost use Rattle.std.specs.Prelude.{◌≡◌};
ghost use Rattle.ebpf_struct_ops.specs.declared.error.StructOpsError.TheVariants.{OutOfMemory};

use crate::faults::{MemberFault, RelocationFault, VariableFault};
use ebpf_base::Text;
use ebpf_elf::ElfReadError;
use std::alloc::{AllocError, AllocFailed};
use thiserror::Error;

/// The reason why the maps of struct_ops can't be made.
///
/// - `map`: the name of the map, which is the name of its variable.
#[derive(Debug, Drop, Error)]
pub enum StructOpsError {
    /// The bytes are no ELF64 file, or a section's bytes run past its end.
    #[error("{0}")]
    ElfError(ElfReadError),
    /// The object has a section of struct_ops and no types.
    #[error("the object has sections of struct_ops and no types")]
    NoTypes,
    /// The types have no DATASEC of the name of a section.
    #[error("the section {section} of struct_ops has no DATASEC of its name")]
    NoDatasec {
        /// The index of the section.
        section: usize,
    },
    /// An entry of a section of struct_ops declares no map.
    #[error("the variable {:?} of struct_ops: {fault}", .name.as_str())]
    Variable {
        /// The name of the variable. Empty where the entry names no variable.
        name: Text,
        fault: VariableFault,
    },
    /// A relocation of a section of struct_ops puts no program at a member.
    #[error("the relocation at offset {place:#x} of a section of struct_ops: {fault}")]
    Relocation {
        /// The offset in the section, in bytes.
        place: u64,
        fault: RelocationFault,
    },
    /// The kernel has no struct of a name that the map wants.
    #[error("the map {:?} wants the kernel's struct {}, which the kernel lacks", .map.as_str(), .name.as_str())]
    NoKernelStruct {
        map: Text,
        /// The name of the missing struct.
        name: Text,
    },
    /// The kernel's type of the map's value has no member of the kernel's struct.
    #[error("the kernel's value of the map {:?} does not hold its struct", .map.as_str())]
    NoDataMember {
        map: Text,
    },
    /// A member of the map's struct has no place in the kernel's struct.
    #[error("the member {:?} of the map {:?}: {fault}", .member.as_str(), .map.as_str())]
    Member {
        map: Text,
        /// The name of the member.
        member: Text,
        fault: MemberFault,
    },
    /// A map uses a program for another struct or another member than its first use.
    #[error("the map {:?} uses the program {:?} for another struct or member than its first use", .map.as_str(), .program.as_str())]
    OtherUse {
        map: Text,
        /// The name of the program.
        program: Text,
    },
    /// An allocation failed.
    #[error("out of memory")]
    OutOfMemory,
}

impl From<AllocError> for StructOpsError {
    ghost from_gives = { λ _ e. e ≡ OutOfMemory };

    fn from(_error: AllocError) -> StructOpsError {
        StructOpsError::OutOfMemory
    }
}

impl<T: Drop> From<AllocFailed<T>> for StructOpsError {
    ghost from_gives = { λ _ e. e ≡ OutOfMemory };

    fn from(_error: AllocFailed<T>) -> StructOpsError {
        StructOpsError::OutOfMemory
    }
}
