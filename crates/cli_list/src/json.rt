//! What `ebpf list --json` prints.

use crate::arena::arena_name;
use crate::layout::ListedLayout;
use crate::listing::{Extern, ObjectListing};
use crate::tables::{extern_word, order_word, pinning_word};
use cli_common::helper_calls::write_helper;
use cli_common::json::{JsonWriter, write_document};
use cli_common::programs::ObjectProgram;
use cli_common::types::map_type_name;
use ebpf_parts::maps::{Map, PinningType};
use ebpf_struct_ops::{StructOpsMember, StructOpsVariable};
use std::io::{self, Write};

/// Writes a program.
fn write_program<W: Write>(
    json: &mut JsonWriter<'_, W>,
    listing: &ObjectListing<'_>,
    program: &ObjectProgram,
    layout: &ListedLayout,
) -> io::Result<()> {
    program.write_json(json)?;
    json.member("slots", listing.slots_of(program.key))?;
    json.member("linked_slots", layout.slots)?;
    json.member("functions", layout.slots.map(|_| layout.functions.len()))
}

/// Writes the names of the programs of these numbers.
fn write_users<W: Write>(
    json: &mut JsonWriter<'_, W>,
    listing: &ObjectListing<'_>,
    numbers: &[usize],
) -> io::Result<()> {
    json.array("programs", |json| {
        for number in numbers {
            if let Some(program) = listing.wanted.programs.get(*number) {
                json.value(program.name.as_str())?;
            }
        }
        Ok(())
    })
}

/// Writes the sizes of a map.
fn write_sizes<W: Write>(json: &mut JsonWriter<'_, W>, map: &Map) -> io::Result<()> {
    json.member("type", map_type_name(map.map_type()))?;
    json.member("type_number", map.map_type())?;
    json.member("key_size", map.key_size())?;
    json.member("value_size", map.value_size())?;
    json.member("max_entries", map.max_entries())?;
    json.member("flags", map.map_flags())?;
    json.member("extra", map.map_extra())
}

/// Writes the map that a map holds, or `null`.
fn write_inner<W: Write>(json: &mut JsonWriter<'_, W>, map: &Map) -> io::Result<()> {
    match map.inner_map() {
        Some(inner) => {
            json.key("inner")?;
            json.object(|json| write_sizes(json, &inner))
        }
        None => json.member("inner", None::<&str>),
    }
}

/// Writes a map.
fn write_map<W: Write>(
    json: &mut JsonWriter<'_, W>,
    listing: &ObjectListing<'_>,
    name: &str,
    map: &Map,
) -> io::Result<()> {
    let pinning = match map.pinning() {
        PinningType::None => None,
        other => Some(pinning_word(other)),
    };
    json.member("name", name)?;
    write_sizes(json, map)?;
    json.member("pinning", pinning)?;
    json.member("data", map.data().len())?;
    write_inner(json, map)?;
    write_users(json, listing, listing.users_of_map(name))
}

/// Writes the variables in the arena.
fn write_arena<W: Write>(
    json: &mut JsonWriter<'_, W>,
    listing: &ObjectListing<'_>,
) -> io::Result<()> {
    let arena = arena_name(listing);
    json.array("arena_variables", |json| {
        for variable in listing.variables.iter() {
            if variable.map != arena {
                continue;
            }
            json.object(|json| {
                json.member("name", variable.name)?;
                json.member("offset", variable.offset)?;
                json.member("size", variable.size)
            })?;
        }
        Ok(())
    })
}

/// Writes a member of a map of struct_ops; nothing where no program stands there.
fn write_ops_member<W: Write>(
    json: &mut JsonWriter<'_, W>,
    member: &StructOpsMember,
) -> io::Result<()> {
    let Some(program) = &member.program else {
        return Ok(());
    };
    json.object(|json| {
        json.member("member", member.name.as_str())?;
        json.member("program", program.as_str())
    })
}

/// Writes a map of struct_ops.
fn write_ops_map<W: Write>(
    json: &mut JsonWriter<'_, W>,
    map: &StructOpsVariable,
) -> io::Result<()> {
    json.member("name", map.name.as_str())?;
    json.member("type", map.type_name.as_str())?;
    json.member("size", map.bytes.len())?;
    json.member("is_link", map.is_link)?;
    json.member("is_created", map.is_created)?;
    json.array("programs", |json| {
        for member in map.members.iter() {
            write_ops_member(json, member)?;
        }
        Ok(())
    })
}

/// Writes the maps of struct_ops, or `null` and the reason why they can't be read.
fn write_struct_ops<W: Write>(
    json: &mut JsonWriter<'_, W>,
    listing: &ObjectListing<'_>,
    fault: Option<&str>,
) -> io::Result<()> {
    if fault.is_some() {
        json.member("struct_ops", None::<&str>)?;
    } else {
        json.objects("struct_ops", listing.struct_ops().iter(), |json, map| {
            write_ops_map(json, map)
        })?;
    }
    json.member("struct_ops_error", fault)
}

/// Writes an extern.
fn write_extern<W: Write>(json: &mut JsonWriter<'_, W>, known: &Extern) -> io::Result<()> {
    json.member("name", known.name.as_str())?;
    json.member("kind", extern_word(known.is_function))?;
    json.member("typed", known.is_typed)?;
    json.member("weak", known.is_weak)
}

/// Writes the functions that no program reaches.
fn write_unreached<W: Write>(
    json: &mut JsonWriter<'_, W>,
    listing: &ObjectListing<'_>,
) -> io::Result<()> {
    json.array("unreached", |json| {
        for key in listing.unreached.iter() {
            let Some(function) = listing.object.functions.get(*key) else {
                continue;
            };
            json.object(|json| {
                json.member("name", function.name.as_str())?;
                json.member("slots", function.instructions.len())
            })?;
        }
        Ok(())
    })
}

/// Writes the tables of what programs are made of and what they use.
fn write_tables<W: Write>(
    json: &mut JsonWriter<'_, W>,
    listing: &ObjectListing<'_>,
    struct_ops_fault: Option<&str>,
) -> io::Result<()> {
    let programs = listing.wanted.programs.iter().zip(listing.layouts.iter());
    json.objects("programs", programs, |json, (program, layout)| {
        write_program(json, listing, program, layout)
    })?;
    json.objects("maps", listing.object.maps.iter(), |json, (name, map)| {
        write_map(json, listing, name.as_str(), map)
    })?;
    write_arena(json, listing)?;
    write_struct_ops(json, listing, struct_ops_fault)?;
    json.objects(
        "helpers",
        listing.helper_users.iter(),
        |json, (helper, programs)| {
            write_helper(json, *helper)?;
            write_users(json, listing, programs.as_slice())
        },
    )
}

/// Writes the contents of an object as one JSON object, on one line. `struct_ops_fault` is the reason why the maps of
/// struct_ops can't be read.
pub fn write_json<W: Write>(
    out: &mut W,
    file: &str,
    listing: &ObjectListing<'_>,
    struct_ops_fault: Option<&str>,
) -> io::Result<()> {
    let (object, wanted) = (listing.object, listing.wanted);
    write_document(out, |json| {
        json.member("file", file)?;
        json.member("byte_order", order_word(object.endianness))?;
        json.member("license", listing.license())?;
        json.member("kernel_version", object.kernel_version)?;
        json.member("types", wanted.types)?;
        write_tables(json, listing, struct_ops_fault)?;
        json.objects(
            "externs",
            wanted.externs.iter(),
            |json, known| write_extern(json, known),
        )?;
        json.values("kconfig", wanted.settings.iter().map(|name| name.as_str()))?;
        json.objects("records", listing.records.iter(), |json, (asked, count)| {
            json.member("kind", asked.kind.word())?;
            json.member("type", asked.name.as_str())?;
            json.member("count", *count)
        })?;
        write_unreached(json, listing)
    })
}
