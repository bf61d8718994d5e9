//! The objects of a command line.

use cli_common::embedded::{ObjectRange, embedded_objects, is_object};
use cli_common::object_file::{parsed_object, read_object};
use cli_common::refuse::{Stop, read_given};
use ebpf_base::Text;
use ebpf_elf::constants::MAGIC;
use ebpf_object::Object;
use std::alloc::{AllocError, Global};

/// The name of an object.
#[derive(Drop)]
pub struct ObjectName {
    /// The path of its file.
    pub path: Text,
    /// The number of the object in the file, where it holds several.
    pub number: Option<usize>,
}

/// The objects of a command line.
#[derive(Drop)]
pub struct NamedObjects {
    /// The objects.
    pub objects: Vec<Object>,
    /// The name of each.
    pub names: Vec<ObjectName>,
}

impl NamedObjects {
    /// No objects.
    pub fn new(alloc: Global) -> NamedObjects {
        NamedObjects {
            objects: Vec::new(alloc),
            names: Vec::new(alloc),
        }
    }

    /// Adds an object.
    fn push(&mut self, name: ObjectName, object: Object) -> Result<(), AllocError> {
        self.objects.push(object)?;
        self.names.push(name)?;
        Ok(())
    }

    /// Adds the object of these bytes, which a file holds.
    fn add_bytes(
        &mut self,
        rt: &HostRuntime,
        json: bool,
        path: &str,
        number: Option<usize>,
        bytes: &[u8],
    ) -> Result<(), Stop> {
        let name = ObjectName {
            path: Text::from_str(rt.alloc(), path)?,
            number,
        };
        let object = parsed_object(rt, json, path, bytes)?;
        Ok(self.push(name, object)?)
    }

    /// Adds the objects at these ranges of a file.
    fn add_ranges(
        &mut self,
        rt: &HostRuntime,
        json: bool,
        path: &str,
        file: &[u8],
        ranges: &[ObjectRange],
    ) -> Result<(), Stop> {
        for (at, range) in ranges.iter().enumerate() {
            let number = if ranges.len() > 1 { Some(at + 1) } else { None };
            let bytes = file.get(range.start..range.end).unwrap_or(&[]);
            self.add_bytes(rt, json, path, number, bytes)?;
        }
        Ok(())
    }

    /// Adds the object of a number in a file or, without a number, all objects that the file holds.
    pub fn add_file(
        &mut self,
        rt: &HostRuntime,
        json: bool,
        path: &str,
        number: Option<usize>,
    ) -> Result<(), Stop> {
        if number.is_none() {
            let file = read_given(rt, json, path)?;
            let ranges = object_ranges(rt.alloc(), &file)?;
            if !ranges.is_empty() {
                return self.add_ranges(rt, json, path, &file, &ranges);
            }
        }
        let bytes = read_object(rt, json, path, number)?;
        self.add_bytes(rt, json, path, number, &bytes)
    }
}

/// The ranges of the objects in a file: all of a file that is an object, those in another ELF file. None in other files.
fn object_ranges(alloc: Global, file: &[u8]) -> Result<Vec<ObjectRange>, AllocError> {
    if !file.starts_with(&MAGIC) {
        return Ok(Vec::new(alloc));
    }
    if !is_object(file) {
        return embedded_objects(alloc, file);
    }
    let mut ranges = Vec::new(alloc);
    ranges.push(ObjectRange {
        start: 0,
        end: file.len(),
    })?;
    Ok(ranges)
}
