//! Why a file could not be prepared.

ghost use Rattle.std.specs.Prelude.{◌≡◌};
ghost use Rattle.ebpf_object.specs.declared.prepare_error.PrepareError.TheVariants.{OutOfMemory};

use ebpf_base::Text;
use ebpf_core_relo::BtfRelocationError;
use ebpf_ksyms::KsymsError;
use ebpf_model::EbpfRelocationError;
use ebpf_parts::ParseError;
use std::alloc::AllocError;
use thiserror::Error;

/// Why a file could not be prepared, by the stage that refused.
#[derive(Debug, Drop, Error)]
pub enum PrepareError {
    /// The file can't be parsed.
    #[error("parse: {0}")]
    Parse(ParseError),
    /// The functions can't be relocated to a kernel's types.
    #[error("types: {0}")]
    Types(BtfRelocationError),
    /// The descriptors of maps can't be written.
    #[error("maps: {0}")]
    Maps(EbpfRelocationError),
    /// The externs can't be resolved.
    #[error("ksyms: {0}")]
    Ksyms(KsymsError),
    /// The externs can't be written.
    #[error("externs: {0}")]
    Externs(EbpfRelocationError),
    /// The programs can't be linked with the functions that they reach.
    #[error("calls: {0}")]
    Calls(EbpfRelocationError),
    /// No memory was found between the stages.
    #[error("out of memory")]
    OutOfMemory,
    /// A slot refers to a map that no descriptor is given for.
    #[error("maps: no descriptor is given for the map {map:?}")]
    MissingDescriptor {
        /// The map's name.
        map: Text,
    },
    /// A descriptor is given for a map that the object lacks.
    #[error("maps: the object has no map {name:?}, for which a descriptor is given")]
    UnknownMap {
        /// The name that is given.
        name: Text,
    },
    /// A call of an extern is not written when programs are to be linked.
    #[error("calls: no pass has written the call of the extern {name:?}")]
    UnwrittenExtern {
        /// The extern's name.
        name: Text,
    },
}

impl From<AllocError> for PrepareError {
    ghost from_gives = { λ _ e. e ≡ OutOfMemory };

    fn from(_error: AllocError) -> PrepareError {
        PrepareError::OutOfMemory
    }
}
