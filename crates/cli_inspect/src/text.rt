//! What `ebpf inspect` prints for people.

use crate::chain::Edge;
use crate::parts::{CHAIN, FUNCTIONS, MAPS, ProgramParts, SLOTS};
use cli_common::names::EscapedName;
use cli_common::refuse::Stop;
use cli_common::table::{Column, Table};
use cli_common::types::program_type_name;
use cli_output::palette::{Palette, TextStyle};
use ebpf_object::Object;
use ebpf_object::relocation::{CodeCopy, PlacedReference};
use std::alloc::{AllocError, Global};
use std::collections::BTreeSet;
use std::io::Write;

/// The columns of programs.
const PROGRAM_COLUMNS: [Column; 7] = [
    Column::Number("SLOTS"),
    Column::Number("FUNCS"),
    Column::Number("CHAIN"),
    Column::Number("MAPS"),
    Column::Word("TYPE"),
    Column::Word("SECTION"),
    Column::Word("NAME"),
];

/// The functions of the deepest chain of calls.
fn push_chain(table: &mut Table<'_>, chain: Option<usize>) -> Result<(), AllocError> {
    match chain {
        Some(chain) => table.push_share(chain, CHAIN),
        None => table.push_text("recursive"),
    }
}

/// The row of a program.
fn push_program(table: &mut Table<'_>, parts: &ProgramParts<'_>) -> Result<(), AllocError> {
    let section = parts.program.section.as_str();
    table.push_share(parts.slots, SLOTS)?;
    table.push_share(parts.map.copies.len(), FUNCTIONS)?;
    push_chain(table, parts.chain)?;
    table.push_share(parts.uses.maps.len(), MAPS)?;
    table.push_text(program_type_name(section).unwrap_or("-"))?;
    table.push_text(section)?;
    table.push_text(parts.program.name.as_str())
}

/// Writes a table under its title and a number, that of its rows; nothing where it is 0.
fn write_table<W: Write>(
    out: &mut W,
    palette: Palette,
    title: &str,
    rows: usize,
    table: &Table<'_>,
) -> Result<(), Stop> {
    if rows == 0 {
        return Ok(());
    }
    let (start, end) = (palette.start(TextStyle::Heading), palette.end());
    writeln!(out, "{start}{title} {rows}{end}")?;
    Ok(table.write(out)?)
}

/// Writes the programs beside the kernel's limits.
fn write_programs<W: Write>(
    alloc: Global,
    out: &mut W,
    palette: Palette,
    programs: &[ProgramParts<'_>],
) -> Result<(), Stop> {
    let mut table = Table::new(alloc, &PROGRAM_COLUMNS)?;
    for parts in programs {
        push_program(&mut table, parts)?;
    }
    if programs.is_empty() {
        writeln!(out, "PROGRAMS 0")?;
    }
    write_table(out, palette, "PROGRAMS", programs.len(), &table)
}

/// The columns of copies of functions.
const COPY_COLUMNS: [Column; 6] = [
    Column::Number("BASE"),
    Column::Number("SLOTS"),
    Column::Number("BYTES"),
    Column::Number("SECTION"),
    Column::Number("ADDRESS"),
    Column::Word("NAME"),
];

/// The row of a copy.
fn push_copy(table: &mut Table<'_>, copy: &CodeCopy) -> Result<(), AllocError> {
    let (section, address) = copy.key;
    table.push_number(copy.base)?;
    table.push_number(copy.slots)?;
    table.push_number(copy.slots.saturating_mul(8))?;
    table.push_number(section)?;
    table.push_hex(address)?;
    table.push_text(copy.name.as_str())
}

/// Writes the copies that a program is made of.
fn write_copies<W: Write>(
    alloc: Global,
    out: &mut W,
    palette: Palette,
    copies: &[CodeCopy],
) -> Result<(), Stop> {
    let mut table = Table::new(alloc, &COPY_COLUMNS)?;
    for copy in copies {
        push_copy(&mut table, copy)?;
    }
    write_table(out, palette, "COPIES", copies.len(), &table)
}

/// The columns of references.
const REFERENCE_COLUMNS: [Column; 5] = [
    Column::Number("SLOT"),
    Column::Number("BASE"),
    Column::Word("KIND"),
    Column::Word("FROM"),
    Column::Word("TO"),
];

/// The word for a reference.
pub fn reference_word(is_call: bool) -> &'static str {
    if is_call { "call" } else { "load" }
}

/// The name of a copy, by its number.
fn copy_name(copies: &[CodeCopy], number: usize) -> &str {
    match copies.get(number) {
        Some(copy) => copy.name.as_str(),
        None => "",
    }
}

/// The row of a reference.
fn push_reference(
    table: &mut Table<'_>,
    copies: &[CodeCopy],
    reference: &PlacedReference,
    edge: Edge,
) -> Result<(), AllocError> {
    table.push_number(reference.place)?;
    table.push_number(reference.base)?;
    table.push_text(reference_word(reference.is_call))?;
    table.push_text(copy_name(copies, edge.from))?;
    table.push_text(copy_name(copies, edge.to))
}

/// Writes the references between the copies of a program.
fn write_references<W: Write>(
    alloc: Global,
    out: &mut W,
    palette: Palette,
    parts: &ProgramParts<'_>,
) -> Result<(), Stop> {
    let mut table = Table::new(alloc, &REFERENCE_COLUMNS)?;
    let copies = parts.map.copies.as_slice();
    let references = &parts.map.references;
    for (reference, edge) in references.iter().zip(parts.edges.iter()) {
        push_reference(&mut table, copies, reference, *edge)?;
    }
    write_table(out, palette, "REFERENCES", references.len(), &table)
}

/// The columns of maps.
const MAP_COLUMNS: [Column; 2] = [Column::Word("TYPE"), Column::Word("NAME")];

/// The row of the map of a name.
fn push_map(table: &mut Table<'_>, object: &Object, name: &str) -> Result<(), AllocError> {
    match object.maps.get(name) {
        Some(map) => table.push_map_type(map.map_type())?,
        None => table.push_text("-")?,
    }
    table.push_text(name)
}

/// Writes the maps that a program uses.
fn write_maps<W: Write>(
    alloc: Global,
    out: &mut W,
    palette: Palette,
    object: &Object,
    names: &BTreeSet<&str>,
) -> Result<(), Stop> {
    let mut table = Table::new(alloc, &MAP_COLUMNS)?;
    for name in names.iter() {
        push_map(&mut table, object, name)?;
    }
    write_table(out, palette, "MAPS", names.len(), &table)
}

/// The columns of helper functions.
const HELPER_COLUMNS: [Column; 2] = [Column::Number("NUMBER"), Column::Word("NAME")];

/// Writes the helper functions that a program calls.
fn write_helpers<W: Write>(
    alloc: Global,
    out: &mut W,
    palette: Palette,
    helpers: &BTreeSet<u32>,
) -> Result<(), Stop> {
    let mut table = Table::new(alloc, &HELPER_COLUMNS)?;
    for helper in helpers.iter() {
        table.push_number(*helper as usize)?;
        table.push_helper(u64::from(*helper))?;
    }
    write_table(out, palette, "HELPERS", helpers.len(), &table)
}

/// The columns of functions of the kernel.
const KERNEL_COLUMNS: [Column; 1] = [Column::Word("NAME")];

/// Writes the functions of the kernel that a program calls.
fn write_kernel_functions<W: Write>(
    alloc: Global,
    out: &mut W,
    palette: Palette,
    names: &BTreeSet<&str>,
) -> Result<(), Stop> {
    let mut table = Table::new(alloc, &KERNEL_COLUMNS)?;
    for name in names.iter() {
        table.push_text(name)?;
    }
    write_table(out, palette, "KERNEL FUNCTIONS", names.len(), &table)
}

/// Writes what a program is made of, below its name and its size.
fn write_program<W: Write>(
    alloc: Global,
    out: &mut W,
    palette: Palette,
    object: &Object,
    parts: &ProgramParts<'_>,
) -> Result<(), Stop> {
    let name = EscapedName(parts.program.name.as_str());
    let slots = parts.slots;
    let bytes = slots.saturating_mul(8);
    writeln!(out, "\n{name}: {slots} slots, {bytes} bytes")?;
    write_copies(alloc, out, palette, parts.map.copies.as_slice())?;
    write_references(alloc, out, palette, parts)?;
    write_maps(alloc, out, palette, object, &parts.uses.maps)?;
    write_helpers(alloc, out, palette, &parts.uses.helpers)?;
    write_kernel_functions(alloc, out, palette, &parts.uses.kernel_functions)
}

/// Writes what the programs of an object are made of.
pub fn write_inspected<W: Write>(
    alloc: Global,
    out: &mut W,
    palette: Palette,
    object: &Object,
    programs: &[ProgramParts<'_>],
) -> Result<(), Stop> {
    write_programs(alloc, out, palette, programs)?;
    for parts in programs {
        write_program(alloc, out, palette, object, parts)?;
    }
    Ok(())
}
