//! Where the descriptors of maps come from.

use ebpf_object::Object;
use ebpf_object::obj::ParseError;
use std::alloc::{AllocError, Global};
use std::collections::HashMap;

/// The descriptor of the map of a name, by lines `NAME DESCRIPTOR` of whoever made the maps.
fn made(lines: &str, name: &str) -> Option<i32> {
    for line in lines.lines() {
        if let Some((map, descriptor)) = line.split_once(' ') {
            if map == name {
                return descriptor.parse::<i32>().ok();
            }
        }
    }
    None
}

/// The descriptors of an object's maps with their names, which stay the object's.
pub fn descriptors<'a>(
    alloc: Global,
    object: &'a Object,
    lines: &str,
) -> Result<Vec<(&'a str, i32)>, AllocError> {
    let mut descriptors = Vec::new(alloc);
    for (name, _) in object.maps.iter() {
        let Some(descriptor) = made(lines, name.as_str()) else {
            continue;
        };
        descriptors.push((name.as_str(), descriptor))?;
    }
    Ok(descriptors)
}

/// Gives the variable `step` of the object another value, which goes into the first value of the map of its section.
pub fn set_step(alloc: Global, object: &mut Object, step: u32) -> Result<(), ParseError> {
    let bytes = step.to_le_bytes();
    let mut values = HashMap::new(alloc);
    values.insert("step", (bytes.as_slice(), true))?;
    object.patch_map_data(values)
}
