//! The maps of struct_ops that an object declares, and their table.

ghost use Rattle.std.specs.Prelude.{◌≡◌, IfOk};
ghost use Rattle.cli_list.specs.StructOps.{declared_struct_ops};
ghost use Rattle.ebpf_struct_ops.specs.KernelStructs.{is_struct_ops_memory};

use crate::listing::ObjectListing;
use crate::tables::{table_of, yes_or_no};
use cli_pages::tables::{PageCell, PageTable, name_column, number_column, word_column};
use ebpf_base::Items;
use ebpf_object::Object;
use ebpf_struct_ops::{StructOpsError, StructOpsVariable, struct_ops_variables};
use std::alloc::{AllocError, Global};

/// Whether memory was refused.
fn is_refused_memory(error: &StructOpsError) -> bool
    ensures { result ≡ is_struct_ops_memory error.now }
{
    matches!(error, StructOpsError::OutOfMemory)
}

/// Returns the maps of struct_ops that an object declares, or the reason why they can't be read.
pub fn declared_struct_ops(
    alloc: Global,
    file: &[u8],
    object: &Object,
) -> Result<Result<Items<StructOpsVariable>, StructOpsError>, AllocError>
    ensures { IfOk result (λ found. found ≡ declared_struct_ops file.now object.now) }
{
    match struct_ops_variables(alloc, file, object) {
        Ok(all) => Ok(Ok(all)),
        Err(error) => {
            if is_refused_memory(&error) {
                return Err(AllocError);
            }
            Ok(Err(error))
        }
    }
}

/// Returns the programs of a map by their members, as one text: `-` if it has none.
fn programs_text(alloc: Global, map: &StructOpsVariable) -> Result<String, AllocError> {
    let mut text = String::new(alloc);
    for member in map.members.iter() {
        let Some(program) = &member.program else {
            continue;
        };
        if !text.is_empty() {
            text.push_str(", ")?;
        }
        text.push_str(member.name.as_str())?;
        text.push_str(": ")?;
        text.push_str(program.as_str())?;
    }
    if text.is_empty() {
        text.push_str("-")?;
    }
    Ok(text)
}

/// Returns the programs of each map of struct_ops, as texts in the order of the maps.
pub fn struct_ops_texts(
    alloc: Global,
    listing: &ObjectListing<'_>,
) -> Result<Vec<String>, AllocError> {
    let mut texts = Vec::new(alloc);
    for map in listing.struct_ops() {
        texts.push(programs_text(alloc, map)?)?;
    }
    Ok(texts)
}

/// Returns the reason why an object's maps of struct_ops can't be read, if there is one.
pub fn struct_ops_fault(
    alloc: Global,
    listing: &ObjectListing<'_>,
) -> Result<Option<String>, AllocError> {
    match &listing.wanted.struct_ops {
        Ok(_) => Ok(None),
        Err(error) => Ok(Some(format!(in alloc; "{error}")?)),
    }
}

/// Adds the row of a map of struct_ops.
fn push_struct_ops<'a>(
    table: &mut PageTable<'a>,
    map: &'a StructOpsVariable,
    programs: &'a str,
) -> Result<(), AllocError> {
    let attached = if map.is_link { "link" } else { "map" };
    table.cells.push(PageCell::Text(map.type_name.as_str()))?;
    table.cells.push(PageCell::Number(map.bytes.len()))?;
    table.cells.push(PageCell::Text(attached))?;
    table.cells.push(yes_or_no(map.is_created))?;
    table.cells.push(PageCell::Text(map.name.as_str()))?;
    table.cells.push(PageCell::Text(programs))?;
    Ok(())
}

/// The maps of struct_ops, whose programs are these texts.
pub fn struct_ops_table<'a>(
    alloc: Global,
    listing: &'a ObjectListing<'_>,
    programs: &'a [String],
) -> Result<PageTable<'a>, AllocError> {
    let columns = [
        word_column("TYPE"),
        number_column("SIZE"),
        word_column("ATTACHED"),
        word_column("CREATED"),
        name_column("NAME"),
        word_column("PROGRAMS"),
    ];
    let maps = listing.struct_ops();
    let mut table = table_of(alloc, "STRUCT OPS", maps.len(), &columns)?;
    for (map, programs) in maps.iter().zip(programs.iter()) {
        push_struct_ops(&mut table, map, programs.as_str())?;
    }
    Ok(table)
}
