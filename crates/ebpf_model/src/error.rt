//! Why an object's slots could not be relocated.

ghost use Rattle.std.specs.Prelude.{◌≡◌, [], ⊤, MatchBool};
ghost use Rattle.ebpf_model.specs.Memory.{is_slot_memory, is_memory_at, NamesNoneForMemory};
ghost use Rattle.ebpf_model.specs.declared.error.RelocationError.TheVariants.{OutOfMemory};

use ebpf_base::Text;
use ebpf_parts::{SymbolWords, Within};
use std::alloc::{AllocError, AllocFailed, Global};
use thiserror::Error;

/// Why a function or a program could not be relocated, and which.
#[derive(Debug, Drop, Error)]
#[error("{}{error}", Within {what: "function", name: .function.as_str()})]
pub struct EbpfRelocationError {
    /// The name of the function or the program; empty after an allocation failure.
    pub function: Text,
    /// Why.
    pub error: RelocationError,
}

/// Why slots could not be relocated.
#[derive(Debug, Drop, Error)]
pub enum RelocationError {
    /// A relocation names a symbol that is not there.
    #[error("a relocation names symbol {index}, which the symbol table lacks")]
    UnknownSymbol {
        index: usize,
    },
    /// A relocation's symbol is in a section without a map.
    #[error("no descriptor is given for the map of {} in section {section_index}", SymbolWords {number: *.symbol_index, name: .symbol_name})]
    SectionNotFound {
        section_index: usize,
        symbol_index: usize,
        symbol_name: Option<Text>,
    },
    /// A function refers to an address where no function begins.
    #[error("{:?} refers to address {address:#x}, where no function begins", .caller_name.as_str())]
    UnknownFunction {
        address: u64,
        caller_name: Text,
    },
    /// Of a function and the program that it is linked into only one has func info records.
    #[error("only one of {:?} and its program has func info in .BTF.ext", .name.as_str())]
    FunctionInfoMismatch {
        name: Text,
    },
    /// No function is at the address of a program.
    #[error("no function is at address {address:#x} of section {section_index}, where the program begins")]
    UnknownProgram {
        section_index: usize,
        address: u64,
    },
    /// A relocation is at an offset where no instruction can carry it.
    #[error("relocation {relocation_number} is at offset {offset:#x}, where no instruction can carry it")]
    InvalidRelocationOffset {
        offset: u64,
        relocation_number: usize,
    },
    /// An extern symbol that is none of the object's externs.
    #[error("no extern {:?} is declared in the BTF section .ksyms", .name.as_str())]
    ExternNotFound {
        name: Text,
    },
    /// An extern that has neither a type of the kernel nor an address, and needs one.
    #[error("the extern {:?} has no id or address of the kernel that its instruction needs", .name.as_str())]
    UnresolvableSymbol {
        name: Text,
    },
    /// A symbol of a text section that names no function.
    #[error("a reference leads to symbol {index}, which names no function")]
    UnsupportedTextSymbol {
        index: usize,
    },
    /// The line records of a function can't be moved to its place in the program.
    #[error("the line info of {:?} can't be moved to its place in the program", .name.as_str())]
    InvalidLineInfo {
        name: Text,
    },
    /// With this function the program has more slots than a call can reach over.
    #[error("with {:?} the program has more than 2147483647 instructions", .name.as_str())]
    ProgramTooLong {
        name: Text,
    },
    /// A place in a map's data that a slot can't hold.
    #[error("the load at offset {offset:#x} refers to a place in a map past 2147483647")]
    MapAddressOverflow {
        offset: u64,
    },
    /// An allocation failed.
    #[error("out of memory")]
    OutOfMemory,
}

impl EbpfRelocationError {
    /// Returns the error of an allocation failure, with the empty text for the name.
    pub fn memory(alloc: Global) -> EbpfRelocationError
        ensures { result ≡ record { function = []; error = OutOfMemory } }
    {
        EbpfRelocationError {
            function: Text::empty(alloc),
            error: RelocationError::OutOfMemory,
        }
    }

    /// Returns the error of a function or a program with this name.
    ///
    /// The name of an allocation failure is the empty text, also where the copy of the name fails.
    pub fn with_name(alloc: Global, name: &str, error: RelocationError) -> EbpfRelocationError
        ensures named { MatchBool (is_memory_at result) ⊤
            (result ≡ record { function = name.now; error = error }) }
        ensures memory { NamesNoneForMemory result }
    {
        if is_slot_memory(&error) {
            return EbpfRelocationError::memory(alloc);
        }
        match Text::from_str(alloc, name) {
            Ok(function) => EbpfRelocationError { function, error },
            Err(_) => EbpfRelocationError::memory(alloc),
        }
    }
}

/// Whether an error is an allocation failure.
fn is_slot_memory(error: &RelocationError) -> bool
    ensures { result ≡ is_slot_memory error.now }
{
    matches!(error, RelocationError::OutOfMemory)
}

impl From<AllocError> for RelocationError {
    ghost from_gives = { λ _ e. e ≡ OutOfMemory };

    fn from(_error: AllocError) -> RelocationError {
        RelocationError::OutOfMemory
    }
}

impl<T: Drop> From<AllocFailed<T>> for RelocationError {
    ghost from_gives = { λ _ e. e ≡ OutOfMemory };

    fn from(_error: AllocFailed<T>) -> RelocationError {
        RelocationError::OutOfMemory
    }
}
