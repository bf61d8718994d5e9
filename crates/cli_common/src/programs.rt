//! The programs of an object, with what its file names.

ghost use Rattle.std.specs.Prelude.{◌≡◌, map, IfOk};
ghost use Rattle.cli_common.specs.ObjectPrograms.{program_row, program_rows};

use crate::json::JsonWriter;
use crate::types::program_type_name;
use ebpf_base::Text;
use ebpf_elf::ElfFile;
use ebpf_model::Program;
use ebpf_object::Object;
use std::alloc::{AllocError, Global};
use std::collections::BTreeMap;
use std::io::{self, Write};

/// A program of an object.
#[derive(Drop)]
pub struct ObjectProgram {
    /// Its name.
    pub name: Text,
    /// The name of its section.
    pub section: Text,
    /// The section and the address of its function.
    pub key: (usize, u64),
}

impl ObjectProgram {
    /// Whether it is loaded only where someone asks for it, as the `?` before its section's name says.
    pub fn is_optional(&self) -> bool {
        self.section.as_str().starts_with('?')
    }

    /// Writes the program's name, section and type, as members of a JSON object.
    pub fn write_json<W: Write>(&self, json: &mut JsonWriter<'_, W>) -> io::Result<()> {
        let section = self.section.as_str();
        json.member("name", self.name.as_str())?;
        json.member("section", section)?;
        json.member("type", program_type_name(section))
    }
}

/// The names of a file's sections by their indices. A name that can't be read is passed over.
fn section_names<'a>(
    alloc: Global,
    file: &'a [u8],
) -> Result<BTreeMap<usize, &'a str>, AllocError> {
    let mut names = BTreeMap::new(alloc);
    let Ok(file) = ElfFile::parse(file) else {
        return Ok(names);
    };
    for section in file.sections() {
        if let Ok(name) = section.name() {
            names.insert(section.index().0, name)?;
        }
    }
    Ok(names)
}

/// The name of the section of an index; empty where none can be read.
fn section_name<'a>(names: &BTreeMap<usize, &'a str>, index: usize) -> &'a str {
    match names.get(&index) {
        Some(name) => name,
        None => "",
    }
}

/// A program with its section's name.
fn with_section(
    alloc: Global,
    names: &BTreeMap<usize, &str>,
    name: &str,
    program: &Program,
) -> Result<ObjectProgram, AllocError>
    ensures { IfOk result (λ p.
        program_row p ≡ (name.now, (program.now.section_index, program.now.address))) }
{
    let section = section_name(names, program.section_index);
    let section = Text::from_str(alloc, section)?;
    let name = Text::from_str(alloc, name)?;
    let key = program.function_key();
    Ok(ObjectProgram { name, section, key })
}

/// All programs of an object with the names of their sections, in byte order of their names.
pub fn object_programs(
    alloc: Global,
    file: &[u8],
    object: &Object,
) -> Result<Vec<ObjectProgram>, AllocError>
    ensures { IfOk result (λ programs.
        map program_row programs.items ≡ program_rows object.now.programs) }
{
    let names = section_names(alloc, file)?;
    let mut programs = Vec::with_capacity(alloc, object.programs.len())?;
    for (name, program) in object.programs.iter() {
        programs.push(with_section(alloc, &names, name.as_str(), program)?)?;
    }
    Ok(programs)
}
