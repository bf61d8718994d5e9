//! The text output of `ebpf list`.

use crate::arena::arena_table;
use crate::listing::{ObjectListing, ShownBytes};
use crate::struct_ops::{struct_ops_fault, struct_ops_table, struct_ops_texts};
use crate::tables::{
    externs_table, helpers_table, maps_table, order_word, programs_table, records_table,
    settings_table, unreached_table,
};
use cli_common::names::EscapedName;
use cli_common::refuse::Stop;
use cli_common::table::{Column, Table};
use cli_output::palette::{Palette, TextStyle};
use cli_pages::tables::{ColumnKind, PageCell, PageColumn, PageTable};
use std::alloc::{AllocError, Global};
use std::io::{self, Write};

/// Writes the license.
fn write_license<W: Write>(out: &mut W, license: Option<&[u8]>) -> io::Result<()> {
    let Some(license) = license else {
        return write!(out, ", no license");
    };
    let license = ShownBytes(license);
    write!(out, ", license \"{license}\"")
}

/// Writes the version of the kernel that an object is for, where it states one.
fn write_version<W: Write>(out: &mut W, version: Option<u32>) -> io::Result<()> {
    let Some(version) = version else {
        return Ok(());
    };
    let (first, second, third) = (version >> 16, version >> 8 & 255, version & 255);
    write!(out, ", version {first}.{second}.{third}")
}

/// Writes how many types an object has.
fn write_types<W: Write>(out: &mut W, listing: &ObjectListing<'_>) -> io::Result<()> {
    match listing.wanted.types {
        Some(types) => write!(out, ", {types} types"),
        None => write!(out, ", no types"),
    }
}

/// Writes the line of the file.
fn write_file<W: Write>(out: &mut W, file: &str, listing: &ObjectListing<'_>) -> io::Result<()> {
    let file = EscapedName(file);
    let order = order_word(listing.object.endianness);
    write!(out, "{file}: {order}")?;
    write_license(out, listing.license())?;
    write_version(out, listing.object.kernel_version)?;
    write_types(out, listing)?;
    let records = listing.record_count();
    writeln!(out, ", {records} CO-RE records")?;
    writeln!(out, "")
}

/// The columns of a table, as text has them.
fn text_columns(alloc: Global, columns: &[PageColumn]) -> Result<Vec<Column>, AllocError> {
    let mut heads = Vec::with_capacity(alloc, columns.len())?;
    for column in columns {
        heads.push(match column.kind {
            ColumnKind::Number => Column::Number(column.head),
            ColumnKind::Word | ColumnKind::Name => Column::Word(column.head),
        })?;
    }
    Ok(heads)
}

/// Names, with a comma between two.
fn joined_names(alloc: Global, names: &[&str]) -> Result<String, AllocError> {
    let mut text = String::new(alloc);
    let mut between = "";
    for name in names {
        text.push_str(between)?;
        text.push_str(name)?;
        between = ", ";
    }
    Ok(text)
}

/// Adds names as one cell.
fn push_names(alloc: Global, table: &mut Table<'_>, names: &[&str]) -> Result<(), AllocError> {
    let text = joined_names(alloc, names)?;
    table.push_text(text.as_str())
}

/// Adds the name of a helper function.
fn push_helper(alloc: Global, table: &mut Table<'_>, name: &str) -> Result<(), AllocError> {
    let mut text = String::from_str(alloc, "bpf_")?;
    text.push_str(name)?;
    table.push_text(text.as_str())
}

/// Adds a cell.
fn push_cell(alloc: Global, table: &mut Table<'_>, cell: &PageCell<'_>) -> Result<(), AllocError> {
    match cell {
        PageCell::Text(text) => table.push_text(text),
        PageCell::Number(number) => table.push_number(*number),
        PageCell::Hex(number) => table.push_hex(*number),
        PageCell::Share(number, all) => table.push_share(*number, *all),
        PageCell::Helper(name) => push_helper(alloc, table, name),
        PageCell::Names(names) => push_names(alloc, table, names),
    }
}

/// Writes a table under its title; nothing where its number is 0.
fn write_table<W: Write>(
    alloc: Global,
    out: &mut W,
    palette: Palette,
    table: &PageTable<'_>,
) -> Result<(), Stop> {
    if table.count == 0 {
        return Ok(());
    }
    let columns = text_columns(alloc, &table.columns)?;
    let mut cells = Table::new(alloc, &columns)?;
    for cell in table.cells.iter() {
        push_cell(alloc, &mut cells, cell)?;
    }
    let (start, end) = (palette.start(TextStyle::Heading), palette.end());
    let (title, count) = (table.title, table.count);
    writeln!(out, "{start}{title} {count}{end}")?;
    Ok(cells.write(out)?)
}

/// Writes the table of the maps of struct_ops, or the reason why they can't be read.
fn write_struct_ops<W: Write>(
    alloc: Global,
    out: &mut W,
    palette: Palette,
    listing: &ObjectListing<'_>,
) -> Result<(), Stop> {
    let programs = struct_ops_texts(alloc, listing)?;
    if let Some(fault) = struct_ops_fault(alloc, listing)? {
        let (start, end) = (palette.start(TextStyle::Heading), palette.end());
        let fault = EscapedName(fault.as_str());
        writeln!(out, "{start}STRUCT OPS not read:{end} {fault}")?;
    }
    let table = struct_ops_table(alloc, listing, &programs)?;
    write_table(alloc, out, palette, &table)
}

/// Writes the contents of an object: the line of its file, and each table that isn't empty.
pub fn write_listing<W: Write>(
    alloc: Global,
    out: &mut W,
    palette: Palette,
    file: &str,
    listing: &ObjectListing<'_>,
) -> Result<(), Stop> {
    write_file(out, file, listing)?;
    write_table(alloc, out, palette, &programs_table(alloc, listing)?)?;
    write_table(alloc, out, palette, &maps_table(alloc, listing)?)?;
    write_table(alloc, out, palette, &arena_table(alloc, listing)?)?;
    write_struct_ops(alloc, out, palette, listing)?;
    write_table(alloc, out, palette, &helpers_table(alloc, listing)?)?;
    write_table(alloc, out, palette, &externs_table(alloc, listing)?)?;
    write_table(alloc, out, palette, &settings_table(alloc, listing)?)?;
    write_table(alloc, out, palette, &records_table(alloc, listing)?)?;
    write_table(alloc, out, palette, &unreached_table(alloc, listing)?)
}
