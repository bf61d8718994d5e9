//! Parse errors beside the file that they are about.

ghost use Rattle.std.specs.Prelude.{◌≡◌};

use crate::explained::SectionWords;
use crate::queries::section_name;
use crate::refused_places::{section_without_symbol, symbol_without_name, uneven_function};
use ebpf_btf::BtfError;
use ebpf_elf::ElfFile;
use ebpf_parts::ParseError;
use std::fmt;

/// Why a file can't be parsed, and the file. It prints the error's sentence with the names that the file has for the
/// indices of sections, and the place where the error tells none: the section of the first relocation of no symbol, the
/// first function that is no whole slots, the first symbol whose name can't be read. It takes no memory.
#[derive(Clone, Copy)]
pub struct ExplainedParse<'a> {
    /// The file's bytes.
    pub file: &'a [u8],
    /// The error that `Object::parse` gave for them.
    pub error: &'a ParseError,
}

impl<'a> ExplainedParse<'a> {
    /// The error that `Object::parse` gave for a file's bytes, to be printed with the names that the file has.
    pub fn new(file: &'a [u8], error: &'a ParseError) -> ExplainedParse<'a>
        ensures file { result.file.now ≡ file.now }
        ensures error { result.error.now ≡ error.now }
    {
        ExplainedParse { file, error }
    }
}

/// The name of a file's section by its index, where it can be read.
fn name_of_section(file: &[u8], number: usize) -> Option<&str> {
    section_name(&ElfFile::parse(file).ok()?, number)
}

/// The index of a file's section, and its name.
fn section_of(file: &[u8], number: usize) -> SectionWords<'_> {
    SectionWords {
        number,
        name: name_of_section(file, number),
    }
}

impl ExplainedParse<'_> {
    /// Writes that a relocation names no symbol, and the relocation's section.
    fn write_relocation<W: fmt::Write>(&self, f: &mut fmt::Formatter<W>) -> fmt::Result {
        match section_without_symbol(self.file) {
            Some(number) => {
                let section = section_of(self.file, number);
                write!(f, "a relocation of {section} names no symbol")
            }
            None => write!(f, "{}", self.error),
        }
    }

    /// Writes that a function is no whole slots, and the function's name.
    fn write_function<W: fmt::Write>(&self, f: &mut fmt::Formatter<W>) -> fmt::Result {
        let Some((number, symbol)) = uneven_function(self.file) else {
            return write!(f, "{}", self.error);
        };
        let section = section_of(self.file, number);
        let (index, size) = (symbol.index(), symbol.size());
        match symbol.name() {
            Ok(name) => write!(f, "function {name:?} (symbol {index})")?,
            Err(_) => write!(f, "the function of symbol {index}")?,
        }
        write!(
            f,
            " of {section} has {size} bytes, which are no whole slots"
        )
    }

    /// Writes that a symbol's name can't be read, and the symbol's number. Where all names can be read, writes that an extern
    /// or a map has no symbol.
    fn write_symbol<W: fmt::Write>(&self, f: &mut fmt::Formatter<W>) -> fmt::Result {
        match symbol_without_name(self.file) {
            Some(number) => write!(f, "the name of symbol {number} can't be read"),
            None => write!(f, "{}", self.error),
        }
    }
}

impl fmt::Display for ExplainedParse<'_> {
    fn fmt<W: fmt::Write>(&self, f: &mut fmt::Formatter<W>) -> fmt::Result {
        match self.error {
            ParseError::SectionError { index, error } => {
                let section = section_of(self.file, *index);
                write!(f, "{section}: {error}")
            }
            ParseError::SymbolTableConflict {
                section_index,
                address,
            } => {
                let section = section_of(self.file, *section_index);
                write!(f, "two functions of {section} are at address {address:#x}")
            }
            ParseError::UnknownSymbol {
                section_index,
                address,
            } => {
                let section = section_of(self.file, *section_index);
                write!(
                    f,
                    "no function of {section} is at address {address:#x}, where its code goes on"
                )
            }
            ParseError::UnsupportedRelocationTarget => self.write_relocation(f),
            ParseError::InvalidProgramCode => self.write_function(f),
            ParseError::BtfError(BtfError::InvalidSymbolName) => self.write_symbol(f),
            error => write!(f, "{error}"),
        }
    }
}
