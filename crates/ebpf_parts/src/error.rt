//! Why an object could not be parsed or changed, and words that errors share.

ghost use Rattle.std.specs.Prelude.{◌≡◌};
ghost use Rattle.ebpf_parts.specs.declared.error.ParseError.TheVariants.{OutOfMemory};

use ebpf_base::{Items, Text};
use ebpf_btf::BtfError;
use ebpf_elf::ElfReadError;
use std::alloc::{AllocError, AllocFailed};
use std::fmt;
use thiserror::Error;

/// Why an object could not be parsed or changed.
#[derive(Debug, Drop, Error)]
pub enum ParseError {
    /// The file is no sound ELF64 file.
    #[error("{0}")]
    ElfError(ElfReadError),
    /// The object's types in `.BTF`, or its records in `.BTF.ext`, can't be read.
    #[error("{0}")]
    BtfError(BtfError),
    /// The license has no null byte.
    #[error("the license, of {} bytes, has no null byte at its end", .bytes.len())]
    MissingLicenseNullTerminator {
        /// The data of the section.
        bytes: Items<u8>,
    },
    /// The license has fewer than two bytes, or a null byte before its end.
    #[error("the license, of {} bytes, is no text with its only null byte at the end", .bytes.len())]
    InvalidLicense {
        /// The data of the section.
        bytes: Items<u8>,
    },
    /// The section `version` has another size than 4 bytes.
    #[error("the section version has {} bytes, and not 4", .bytes.len())]
    InvalidKernelVersion {
        /// The data of the section.
        bytes: Items<u8>,
    },
    /// The name or the data of a section can't be read.
    #[error("section {index}: {error}")]
    SectionError {
        /// The index of the section.
        index: usize,
        /// The fault.
        error: ElfReadError,
    },
    /// A relocation has the symbol index 0.
    #[error("a relocation names no symbol")]
    UnsupportedRelocationTarget,
    /// The name of a section of programs says no program type. Only strict parsing returns this error.
    #[error("the section name {:?} says no type of program", .section.as_str())]
    InvalidProgramSection {
        /// The name of the section.
        section: Text,
    },
    /// The code of a function or a program is no whole number of slots.
    #[error("the code of a function is no multiple of 8 bytes")]
    InvalidProgramCode,
    /// A map is defined by fewer than 20 bytes or by an unknown pinning, or its section has 4 GiB or more.
    #[error("the definition of the map {:?} is too short or too large, or asks for another pinning than 0 and 1", .name.as_str())]
    InvalidMapDefinition {
        /// The name of the map, or of the section.
        name: Text,
    },
    /// Two functions of a section have the same address.
    #[error("two functions of section {section_index} are at address {address:#x}")]
    SymbolTableConflict {
        /// The index of the section.
        section_index: usize,
        /// The address of both.
        address: u64,
    },
    /// The code of a section has a gap between its functions.
    #[error("no function of section {section_index} is at address {address:#x}, where its code goes on")]
    UnknownSymbol {
        /// The index of the section.
        section_index: usize,
        /// The address of the gap.
        address: u64,
    },
    /// A symbol has no bytes, or bytes outside its section.
    #[error("{} has no bytes, or some outside its section", SymbolWords {number: *.index, name: .name})]
    InvalidSymbol {
        /// The index of the symbol.
        index: usize,
        /// The name of the symbol, where it has one.
        name: Option<Text>,
    },
    /// A value has another size than its variable, or the variable passes the end of its map's data.
    #[error("a value of {data_size} bytes does not fit the variable {:?} of {sym_size} bytes in its map", .name.as_str())]
    InvalidGlobalData {
        /// The name of the variable.
        name: Text,
        /// The size of the variable in bytes.
        sym_size: u64,
        /// The size of the value in bytes.
        data_size: usize,
    },
    /// A name is that of no symbol.
    #[error("there is no symbol {:?}", .name.as_str())]
    SymbolNotFound {
        /// The name.
        name: Text,
    },
    /// The section of a variable has no map.
    #[error("section {index} has a variable and no map")]
    MapNotFound {
        /// The index of the section.
        index: usize,
    },
    /// The symbol of a map has no name. No call returns this error.
    #[error("the symbol of map {i} has no name")]
    MapSymbolNameNotFound {
        /// The index of the map.
        i: usize,
    },
    /// A section of programs or maps has no symbol.
    #[error("no symbol is in the section {:?}", .section_name.as_str())]
    NoSymbolsForSection {
        /// The name of the section.
        section_name: Text,
    },
    /// A section declares maps by types, and the object has no `.BTF`.
    #[error("maps are declared by BTF types, and the object has no section .BTF")]
    NoBTF,
    /// An allocation failed.
    #[error("out of memory")]
    OutOfMemory,
    /// A big-endian file has code. Only lenient parsing returns this error.
    #[error("the file is big-endian and has code")]
    BigEndianCode,
    /// The object would own more bytes than the limit. Only `parse_within` returns this error.
    #[error("what is made of the file would own more than {most_bytes} bytes")]
    TooLarge {
        /// The limit in bytes.
        most_bytes: u64,
    },
    /// The file is for another machine than eBPF. Only lenient parsing returns this error.
    #[error("the file is for machine {machine}, and not for eBPF (247)")]
    OtherMachine {
        /// The number of the machine (e_machine; ELF-64 gABI, 'ELF Header').
        machine: u16,
    },
}

impl From<AllocError> for ParseError {
    ghost from_gives = { λ _ e. e ≡ OutOfMemory };

    fn from(_error: AllocError) -> ParseError {
        ParseError::OutOfMemory
    }
}

impl<T: Drop> From<AllocFailed<T>> for ParseError {
    ghost from_gives = { λ _ e. e ≡ OutOfMemory };

    fn from(_error: AllocFailed<T>) -> ParseError {
        ParseError::OutOfMemory
    }
}

/// A symbol, as errors speak of it: `symbol 12 "total"`, its index as `readelf -s` has it, and its name where it has one.
#[derive(Clone, Copy, Debug)]
pub struct SymbolWords<'a> {
    /// Its number.
    pub number: usize,
    /// Its name, which may be empty.
    pub name: &'a Option<Text>,
}

impl fmt::Display for SymbolWords<'_> {
    fn fmt<W: fmt::Write>(&self, f: &mut fmt::Formatter<W>) -> fmt::Result {
        write!(f, "symbol {}", self.number)?;
        match self.name {
            Some(name) if !name.is_empty() => write!(f, " {:?}", name.as_str()),
            _ => Ok(()),
        }
    }
}

/// The words before an error about one function or one section: `function "main": `. Nothing where the name is empty,
/// as after an allocation failure.
#[derive(Clone, Copy, Debug)]
pub struct Within<'a> {
    /// The kind of the part: `function` or `section`.
    pub what: &'static str,
    /// Its name.
    pub name: &'a str,
}

impl fmt::Display for Within<'_> {
    fn fmt<W: fmt::Write>(&self, f: &mut fmt::Formatter<W>) -> fmt::Result {
        if self.name.is_empty() {
            return Ok(());
        }
        write!(f, "{} {:?}: ", self.what, self.name)
    }
}
