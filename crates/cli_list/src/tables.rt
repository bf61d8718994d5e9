//! The contents of an object as tables, which are printed or written to a page.

use crate::layout::ListedLayout;
use crate::listing::{Extern, ObjectListing};
use cli_common::helper_calls::helper_name;
use cli_common::programs::ObjectProgram;
use cli_common::types::{map_type_name, program_type_name};
use cli_pages::tables::{PageCell, PageColumn, PageTable, name_column, number_column, word_column};
use ebpf_base::Endianness;
use ebpf_parts::maps::{Map, PinningType};
use std::alloc::{AllocError, Global};

/// The word for a byte order.
pub fn order_word(order: Endianness) -> &'static str {
    match order {
        Endianness::Little => "little-endian",
        Endianness::Big => "big-endian",
    }
}

/// The word for a program type, by the name of a section.
fn type_word(section: &str) -> PageCell<'static> {
    PageCell::Text(program_type_name(section).unwrap_or("-"))
}

/// A text that shows that there is none.
fn absent() -> PageCell<'static> {
    PageCell::Text("-")
}

/// A table without cells.
pub fn table_of<'a>(
    alloc: Global,
    title: &'static str,
    count: usize,
    columns: &[PageColumn],
) -> Result<PageTable<'a>, AllocError> {
    let mut heads = Vec::with_capacity(alloc, columns.len())?;
    for column in columns {
        heads.push(*column)?;
    }
    Ok(PageTable {
        title,
        count,
        columns: heads,
        cells: Vec::new(alloc),
    })
}

/// Adds the slots of a linked program, and the number of functions that it reaches.
fn push_layout(table: &mut PageTable<'_>, layout: &ListedLayout) -> Result<(), AllocError> {
    match layout.slots {
        Some(slots) => {
            table.cells.push(PageCell::Number(slots))?;
            table.cells.push(PageCell::Number(layout.functions.len()))?;
        }
        None => {
            table.cells.push(absent())?;
            table.cells.push(absent())?;
        }
    }
    Ok(())
}

/// Adds the row of a program.
fn push_program<'a>(
    table: &mut PageTable<'a>,
    own: usize,
    program: &'a ObjectProgram,
    layout: &ListedLayout,
) -> Result<(), AllocError> {
    let section = program.section.as_str();
    table.cells.push(PageCell::Number(own))?;
    push_layout(table, layout)?;
    table.cells.push(type_word(section))?;
    table.cells.push(PageCell::Text(section))?;
    table.cells.push(PageCell::Text(program.name.as_str()))?;
    Ok(())
}

/// The programs.
pub fn programs_table<'a>(
    alloc: Global,
    listing: &'a ObjectListing<'_>,
) -> Result<PageTable<'a>, AllocError> {
    let programs = &listing.wanted.programs;
    let columns = [
        number_column("SLOTS"),
        number_column("LINKED"),
        number_column("FUNCS"),
        word_column("TYPE"),
        word_column("SECTION"),
        name_column("NAME"),
    ];
    let mut table = table_of(alloc, "PROGRAMS", programs.len(), &columns)?;
    for (program, layout) in programs.iter().zip(listing.layouts.iter()) {
        let own = listing.slots_of(program.key);
        push_program(&mut table, own, program, layout)?;
    }
    Ok(table)
}

/// The optional columns of maps: each is there if some map has something in it.
#[derive(Clone, Copy)]
struct MapColumns {
    has_pinned: bool,
    has_inner: bool,
    has_data: bool,
}

/// Whether a map begins with data that aren't its value, as an arena does.
fn has_data_beside_value(map: &Map) -> bool {
    map.value_size() == 0 && !map.data().is_empty()
}

/// The optional columns of an object's maps.
fn map_columns(listing: &ObjectListing<'_>) -> MapColumns {
    let mut columns = MapColumns {
        has_pinned: false,
        has_inner: false,
        has_data: false,
    };
    for (_, map) in listing.object.maps.iter() {
        if map.pinning() != PinningType::None {
            columns.has_pinned = true;
        }
        if map.inner_map().is_some() {
            columns.has_inner = true;
        }
        if has_data_beside_value(map) {
            columns.has_data = true;
        }
    }
    columns
}

/// The heads of the columns of maps.
fn map_heads(alloc: Global, columns: MapColumns) -> Result<Vec<PageColumn>, AllocError> {
    let mut heads = Vec::new(alloc);
    heads.push(word_column("TYPE"))?;
    heads.push(number_column("KEY"))?;
    heads.push(number_column("VALUE"))?;
    heads.push(number_column("ENTRIES"))?;
    heads.push(number_column("FLAGS"))?;
    if columns.has_pinned {
        heads.push(word_column("PINNED"))?;
    }
    if columns.has_inner {
        heads.push(word_column("INNER"))?;
    }
    if columns.has_data {
        heads.push(number_column("DATA"))?;
    }
    heads.push(number_column("PROGRAMS"))?;
    heads.push(name_column("NAME"))?;
    Ok(heads)
}

/// The name of a type of maps, or its number.
fn map_type(number: u32) -> PageCell<'static> {
    match map_type_name(number) {
        Some(name) => PageCell::Text(name),
        None => PageCell::Number(number as usize),
    }
}

/// The type of the map that a map holds.
fn inner_type(map: &Map) -> PageCell<'static> {
    match map.inner_map() {
        Some(inner) => map_type(inner.map_type()),
        None => absent(),
    }
}

/// The word for a map's pinning.
pub fn pinning_word(pinning: PinningType) -> &'static str {
    match pinning {
        PinningType::None => "-",
        PinningType::ByName => "by-name",
    }
}

/// Adds the sizes and flags of a map.
fn push_sizes(table: &mut PageTable<'_>, map: &Map) -> Result<(), AllocError> {
    let flags = u64::from(map.map_flags());
    table.cells.push(PageCell::Number(map.key_size() as usize))?;
    table
        .cells
        .push(PageCell::Number(map.value_size() as usize))?;
    table
        .cells
        .push(PageCell::Number(map.max_entries() as usize))?;
    table.cells.push(PageCell::Hex(flags))?;
    Ok(())
}

/// The number of bytes of a map's initial data.
fn data_size(map: &Map) -> PageCell<'static> {
    if map.data().is_empty() {
        return absent();
    }
    PageCell::Number(map.data().len())
}

/// Adds a map's pinning, what it holds, and the size of its data, where there are columns of these.
fn push_manner(
    table: &mut PageTable<'_>,
    columns: MapColumns,
    map: &Map,
) -> Result<(), AllocError> {
    if columns.has_pinned {
        table
            .cells
            .push(PageCell::Text(pinning_word(map.pinning())))?;
    }
    if columns.has_inner {
        table.cells.push(inner_type(map))?;
    }
    if columns.has_data {
        table.cells.push(data_size(map))?;
    }
    Ok(())
}

/// Adds the row of a map.
fn push_map<'a>(
    table: &mut PageTable<'a>,
    listing: &ObjectListing<'_>,
    columns: MapColumns,
    name: &'a str,
    map: &Map,
) -> Result<(), AllocError> {
    let users = listing.users_of_map(name).len();
    let programs = listing.wanted.programs.len();
    table.cells.push(map_type(map.map_type()))?;
    push_sizes(table, map)?;
    push_manner(table, columns, map)?;
    table.cells.push(PageCell::Share(users, programs))?;
    table.cells.push(PageCell::Text(name))?;
    Ok(())
}

/// The maps.
pub fn maps_table<'a>(
    alloc: Global,
    listing: &'a ObjectListing<'_>,
) -> Result<PageTable<'a>, AllocError> {
    let columns = map_columns(listing);
    let heads = map_heads(alloc, columns)?;
    let mut table = table_of(alloc, "MAPS", listing.object.maps.len(), &heads)?;
    for (name, map) in listing.object.maps.iter() {
        push_map(&mut table, listing, columns, name.as_str(), map)?;
    }
    Ok(table)
}

/// The names of the programs of these numbers.
fn program_names<'a>(
    alloc: Global,
    programs: &'a [ObjectProgram],
    numbers: &[usize],
) -> Result<Vec<&'a str>, AllocError> {
    let mut names = Vec::with_capacity(alloc, numbers.len())?;
    for number in numbers {
        if let Some(program) = programs.get(*number) {
            names.push(program.name.as_str())?;
        }
    }
    Ok(names)
}

/// The names of programs, or that it is all of them.
fn names_cell<'a>(
    alloc: Global,
    listing: &'a ObjectListing<'_>,
    numbers: &[usize],
) -> Result<PageCell<'a>, AllocError> {
    let programs = &listing.wanted.programs;
    if numbers.len() == programs.len() {
        return Ok(PageCell::Text("all"));
    }
    Ok(PageCell::Names(program_names(alloc, programs, numbers)?))
}

/// The name of a helper function, by its number.
fn helper_cell(number: u64) -> PageCell<'static> {
    match helper_name(number) {
        Some(name) => PageCell::Helper(name),
        None => absent(),
    }
}

/// The helper functions.
pub fn helpers_table<'a>(
    alloc: Global,
    listing: &'a ObjectListing<'_>,
) -> Result<PageTable<'a>, AllocError> {
    let columns = [
        number_column("NUMBER"),
        name_column("NAME"),
        word_column("PROGRAMS"),
    ];
    let mut table = table_of(alloc, "HELPERS", listing.helper_users.len(), &columns)?;
    for (helper, programs) in listing.helper_users.iter() {
        table.cells.push(PageCell::Number(*helper as usize))?;
        table.cells.push(helper_cell(*helper))?;
        let names = names_cell(alloc, listing, programs.as_slice())?;
        table.cells.push(names)?;
    }
    Ok(table)
}

/// Yes or no.
pub fn yes_or_no(is: bool) -> PageCell<'static> {
    PageCell::Text(if is { "yes" } else { "no" })
}

/// The word for an extern that is a function, or a variable.
pub fn extern_word(is_function: bool) -> &'static str {
    if is_function { "function" } else { "variable" }
}

/// Adds the row of an extern.
fn push_extern<'a>(table: &mut PageTable<'a>, known: &'a Extern) -> Result<(), AllocError> {
    let kind = extern_word(known.is_function);
    table.cells.push(PageCell::Text(kind))?;
    table.cells.push(yes_or_no(known.is_typed))?;
    table.cells.push(yes_or_no(known.is_weak))?;
    table.cells.push(PageCell::Text(known.name.as_str()))?;
    Ok(())
}

/// The externs.
pub fn externs_table<'a>(
    alloc: Global,
    listing: &'a ObjectListing<'_>,
) -> Result<PageTable<'a>, AllocError> {
    let columns = [
        word_column("KIND"),
        word_column("TYPED"),
        word_column("WEAK"),
        name_column("NAME"),
    ];
    let externs = &listing.wanted.externs;
    let mut table = table_of(alloc, "EXTERNS", externs.len(), &columns)?;
    for known in externs.iter() {
        push_extern(&mut table, known)?;
    }
    Ok(table)
}

/// The values of the kernel's configuration.
pub fn settings_table<'a>(
    alloc: Global,
    listing: &'a ObjectListing<'_>,
) -> Result<PageTable<'a>, AllocError> {
    let settings = &listing.wanted.settings;
    let columns = [name_column("NAME")];
    let mut table = table_of(alloc, "KCONFIG VALUES", settings.len(), &columns)?;
    for name in settings.iter() {
        table.cells.push(PageCell::Text(name.as_str()))?;
    }
    Ok(table)
}

/// The CO-RE relocations, by kind and type.
pub fn records_table<'a>(
    alloc: Global,
    listing: &'a ObjectListing<'_>,
) -> Result<PageTable<'a>, AllocError> {
    let columns = [
        number_column("COUNT"),
        word_column("KIND"),
        name_column("TYPE"),
    ];
    let mut table = table_of(alloc, "CO-RE RECORDS", listing.record_count(), &columns)?;
    for (asked, records) in listing.records.iter() {
        table.cells.push(PageCell::Number(*records))?;
        table.cells.push(PageCell::Text(asked.kind.word()))?;
        table.cells.push(PageCell::Text(asked.name.as_str()))?;
    }
    Ok(table)
}

/// The functions that no program reaches.
pub fn unreached_table<'a>(
    alloc: Global,
    listing: &'a ObjectListing<'_>,
) -> Result<PageTable<'a>, AllocError> {
    let columns = [number_column("SLOTS"), name_column("NAME")];
    let count = listing.unreached.len();
    let mut table = table_of(alloc, "FUNCTIONS THAT NO PROGRAM REACHES", count, &columns)?;
    for key in listing.unreached.iter() {
        let Some(function) = listing.object.functions.get(*key) else {
            continue;
        };
        let slots = function.instructions.len();
        table.cells.push(PageCell::Number(slots))?;
        table.cells.push(PageCell::Text(function.name.as_str()))?;
    }
    Ok(table)
}
