//! What `ebpf inspect --json` prints.

use crate::parts::{CHAIN, FUNCTIONS, MAPS, ProgramParts, SLOTS};
use crate::text::reference_word;
use cli_common::helper_calls::write_helper;
use cli_common::json::{JsonWriter, write_document};
use ebpf_object::relocation::{CodeCopy, PlacedReference};
use std::io::{self, Write};

/// Writes the kernel's limits.
fn write_limits<W: Write>(json: &mut JsonWriter<'_, W>) -> io::Result<()> {
    json.key("limits")?;
    json.object(|json| {
        json.member("slots", SLOTS)?;
        json.member("functions", FUNCTIONS)?;
        json.member("call_chain", CHAIN)?;
        json.member("maps", MAPS)
    })
}

/// Writes a copy of a function.
fn write_copy<W: Write>(json: &mut JsonWriter<'_, W>, copy: &CodeCopy) -> io::Result<()> {
    json.member("base", copy.base)?;
    json.member("slots", copy.slots)?;
    json.member("section", copy.key.0)?;
    json.member("address", copy.key.1)?;
    json.member("name", copy.name.as_str())
}

/// Writes a reference between two copies.
fn write_reference<W: Write>(json: &mut JsonWriter<'_, W>, to: &PlacedReference) -> io::Result<()> {
    json.member("slot", to.place)?;
    json.member("base", to.base)?;
    json.member("kind", reference_word(to.is_call))
}

/// Writes a program.
fn write_program<W: Write>(
    json: &mut JsonWriter<'_, W>,
    parts: &ProgramParts<'_>,
) -> io::Result<()> {
    let (map, uses) = (parts.map, &parts.uses);
    parts.program.write_json(json)?;
    json.member("slots", parts.slots)?;
    json.member("call_chain", parts.chain)?;
    json.objects(
        "copies",
        map.copies.iter(),
        |json, copy| write_copy(json, copy),
    )?;
    json.objects(
        "references",
        map.references.iter(),
        |json, reference| write_reference(json, reference),
    )?;
    json.values("maps", uses.maps.iter().copied())?;
    json.objects(
        "helpers",
        uses.helpers.iter(),
        |json, helper| write_helper(json, u64::from(*helper)),
    )?;
    json.values("kernel_functions", uses.kernel_functions.iter().copied())
}

/// Writes the parts of an object's linked programs as one JSON object, on one line.
pub fn write_json<W: Write>(
    out: &mut W,
    file: &str,
    programs: &[ProgramParts<'_>],
) -> io::Result<()> {
    write_document(out, |json| {
        json.member("file", file)?;
        write_limits(json)?;
        json.objects(
            "programs",
            programs.iter(),
            |json, parts| write_program(json, parts),
        )
    })
}
