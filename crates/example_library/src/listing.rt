//! What a parsed object has.

use ebpf_object::Object;
use ebpf_object::elf::{ElfFile, section_name};
use ebpf_object::maps::Map;
use ebpf_object::obj::ExternDesc;
use std::io;

/// Prints the numbers that a kernel makes a map of.
fn print_map(rt: &HostRuntime, name: &str, map: &Map) -> io::Result<()> {
    let kind = map.map_type();
    let key = map.key_size();
    let value = map.value_size();
    let entries = map.max_entries();
    let bytes = map.data();
    println!(rt;
        "map {name}: type {kind}, key {key}, value {value}, entries {entries}, first value {bytes:?}"
    )
}

/// Prints what an extern asks of a kernel.
fn print_extern(rt: &HostRuntime, name: &str, wanted: &ExternDesc) -> io::Result<()> {
    let typed = wanted.is_typed;
    let weak = wanted.is_weak;
    println!(rt; "extern {name}: has a type {typed}, may be missing {weak}")
}

/// Prints the programs, the maps and the externs, in byte order of their names.
pub fn print_parts(rt: &HostRuntime, object: &Object) -> io::Result<()> {
    for (name, program) in object.programs.iter() {
        let kind = program.section;
        println!(rt; "program {name}: {kind:?}")?;
    }
    for (name, map) in object.maps.iter() {
        print_map(rt, name.as_str(), map)?;
    }
    for (name, wanted) in object.externs.iter() {
        print_extern(rt, name.as_str(), wanted)?;
    }
    Ok(())
}

/// Prints the license, and whether the file states it.
pub fn print_license(rt: &HostRuntime, object: &Object) -> io::Result<()> {
    let license = str::from_utf8(object.license.as_slice()).unwrap_or("no text");
    let stated = object.states_license();
    println!(rt; "license {license}, stated {stated}")
}

/// Prints the name of each program's section, by which a loader attaches it.
pub fn print_sections(rt: &HostRuntime, file: &[u8], object: &Object) -> io::Result<()> {
    let Ok(elf) = ElfFile::parse(file) else {
        return Ok(());
    };
    for (name, program) in object.programs.iter() {
        let section = section_name(&elf, program.section_index).unwrap_or("");
        println!(rt; "attach {name}: {section}")?;
    }
    Ok(())
}
