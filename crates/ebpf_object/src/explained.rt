//! Errors with the object that they are about.

ghost use Rattle.std.specs.Prelude.{◌≡◌};

use crate::object::Object;
use crate::prepare_error::PrepareError;
use ebpf_base::Text;
use ebpf_ksyms::KsymsError;
use ebpf_model::{EbpfRelocationError, RelocationError};
use ebpf_parts::{ParseError, SymbolWords, Within};
use std::fmt;

/// An error and the object that it is about. It prints the error's sentence with the names that the object has for its
/// numbers: the indices of sections and of symbols, and those of the map that has no descriptor, and of the extern whose
/// type needs the kernel's. It takes no memory.
#[derive(Clone, Copy)]
pub struct Explained<'a> {
    /// The object, as it is after the refusal.
    pub object: &'a Object,
    /// The error.
    pub error: &'a PrepareError,
}

/// A section, as errors speak of it: `section 5 ".bss"`, its index as `readelf -S` has it, and its name where that is
/// known.
#[derive(Clone, Copy)]
pub struct SectionWords<'a> {
    pub number: usize,
    pub name: Option<&'a str>,
}

impl fmt::Display for SectionWords<'_> {
    fn fmt<W: fmt::Write>(&self, f: &mut fmt::Formatter<W>) -> fmt::Result {
        match self.name {
            Some(name) => write!(f, "section {} {name:?}", self.number),
            None => write!(f, "section {}", self.number),
        }
    }
}

impl Object {
    /// An error of this object, to be printed with the names that the object has for its numbers. An error of one pass
    /// is put in the variant of its stage, as `PrepareError::Maps(error)`; one of `patch_map_data` in `Parse`.
    pub fn explain<'a>(&'a self, error: &'a PrepareError) -> Explained<'a>
        ensures object { result.object.now ≡ self.now }
        ensures error { result.error.now ≡ error.now }
    {
        Explained {
            object: self,
            error,
        }
    }
}

impl<'a> Explained<'a> {
    /// The index of a section, and its name where the object has it.
    fn section(&self, number: usize) -> SectionWords<'a> {
        let mut name = None;
        for (known, section) in self.object.section_infos.as_map().iter() {
            if section.0 == number {
                name = Some(known.as_str());
            }
        }
        SectionWords { number, name }
    }

    /// The name of the map of a symbol, else that of the first map by name in a section.
    fn map_name(&self, symbol: usize, section: usize) -> Option<&'a str> {
        let mut in_section = None;
        for (name, map) in self.object.maps.as_map().iter() {
            if map.symbol_index() == Some(symbol) {
                return Some(name.as_str());
            }
            if in_section.is_none() && map.section_index() == section {
                in_section = Some(name.as_str());
            }
        }
        in_section
    }

    /// The first extern by name that has a type, has to be there and is not resolved.
    fn typed_extern(&self) -> Option<&'a str> {
        for (name, known) in self.object.externs.as_map().iter() {
            if known.is_typed && !known.is_weak && !known.is_resolved {
                return Some(name.as_str());
            }
        }
        None
    }

    /// The section of the function of a name, where one alone has it.
    fn section_of(&self, function: &str) -> Option<SectionWords<'a>> {
        let mut found = None;
        for (_, known) in self.object.functions.iter() {
            if !known.name.is(function) {
                continue;
            }
            if found.is_some() {
                return None;
            }
            found = Some(known.section_index.0);
        }
        found.map(|number| self.section(number))
    }

    /// The error of one function's or program's slots, behind its stage and its name.
    fn write_named<W: fmt::Write>(
        &self,
        stage: &str,
        refusal: &EbpfRelocationError,
        f: &mut fmt::Formatter<W>,
    ) -> fmt::Result {
        let name = refusal.function.as_str();
        let function = Within {
            what: "function",
            name,
        };
        write!(f, "{stage}: {function}")?;
        match self.section_of(name) {
            Some(section) => self.write_in_section(section, &refusal.error, f),
            None => self.write_slots(&refusal.error, f),
        }
    }

    /// The error of the slots of a function of a section.
    fn write_in_section<W: fmt::Write>(
        &self,
        section: SectionWords<'_>,
        error: &RelocationError,
        f: &mut fmt::Formatter<W>,
    ) -> fmt::Result {
        match error {
            RelocationError::InvalidRelocationOffset {
                offset,
                relocation_number,
            } => write!(
                f,
                "relocation {relocation_number} of {section} is at offset {offset:#x}, where no instruction can carry it"
            ),
            RelocationError::MapAddressOverflow { offset } => {
                write!(
                    f,
                    "the load at offset {offset:#x} of {section} refers to a place in a map past 2147483647"
                )
            }
            error => self.write_slots(error, f),
        }
    }

    /// The error of slots.
    fn write_slots<W: fmt::Write>(
        &self,
        error: &RelocationError,
        f: &mut fmt::Formatter<W>,
    ) -> fmt::Result {
        match error {
            RelocationError::SectionNotFound {
                section_index,
                symbol_index,
                symbol_name,
            } => self.write_map(*section_index, *symbol_index, symbol_name, f),
            RelocationError::UnknownProgram {
                section_index,
                address,
            } => {
                let section = self.section(*section_index);
                write!(
                    f,
                    "no function is at address {address:#x} of {section}, where the program begins"
                )
            }
            RelocationError::UnsupportedTextSymbol { index } => self.write_target(*index, f),
            error => write!(f, "{error}"),
        }
    }

    /// Writes that a map has no descriptor, or that no map is there.
    fn write_map<W: fmt::Write>(
        &self,
        section_index: usize,
        symbol_index: usize,
        symbol_name: &Option<Text>,
        f: &mut fmt::Formatter<W>,
    ) -> fmt::Result {
        let symbol = SymbolWords {
            number: symbol_index,
            name: symbol_name,
        };
        let section = self.section(section_index);
        match self.map_name(symbol_index, section_index) {
            Some(map) => write!(
                f,
                "no descriptor is given for the map {map:?} ({symbol} in {section})"
            ),
            None => write!(f, "{section} has {symbol} and no map"),
        }
    }

    /// Writes that a reference leads to a symbol that names no function.
    fn write_target<W: fmt::Write>(&self, index: usize, f: &mut fmt::Formatter<W>) -> fmt::Result {
        match self.object.symbol_table.get(index) {
            Some(symbol) => {
                let symbol = SymbolWords {
                    number: index,
                    name: &symbol.name,
                };
                write!(f, "a reference leads to {symbol}, which names no function")
            }
            None => write!(
                f,
                "a reference leads to symbol {index}, which names no function"
            ),
        }
    }
}

impl fmt::Display for Explained<'_> {
    fn fmt<W: fmt::Write>(&self, f: &mut fmt::Formatter<W>) -> fmt::Result {
        match self.error {
            PrepareError::Maps(refusal) => self.write_named("maps", refusal, f),
            PrepareError::Externs(refusal) => self.write_named("externs", refusal, f),
            PrepareError::Calls(refusal) => self.write_named("calls", refusal, f),
            PrepareError::Parse(ParseError::MapNotFound { index }) => {
                let section = self.section(*index);
                write!(f, "parse: {section} has a variable and no map")
            }
            PrepareError::Ksyms(KsymsError::TypedKsymRequiresKernelBtf) => {
                match self.typed_extern() {
                    Some(name) => write!(
                        f,
                        "ksyms: the extern {name:?} has a type, and the kernel's BTF is not given"
                    ),
                    None => write!(f, "{}", self.error),
                }
            }
            error => write!(f, "{error}"),
        }
    }
}
