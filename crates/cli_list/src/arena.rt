//! The variables in the arena of an object, and their table.

ghost use Rattle.std.specs.Prelude.{◌≡◌, IfOk, map};
ghost use Rattle.cli_list.specs.Listings.{listed_variables};
ghost use Rattle.ebpf_object.specs.Variables.{variable_value};

use crate::listing::ObjectListing;
use crate::tables::table_of;
use cli_pages::tables::{PageCell, PageTable, name_column, number_column};
use ebpf_base::Items;
use ebpf_btf_maps::arena_of;
use ebpf_object::Object;
use ebpf_object::variables::Variable;
use std::alloc::{AllocError, Global};

/// Returns the global variables of an object with an arena; none of other objects.
pub fn listed_variables(alloc: Global, object: &Object) -> Result<Items<Variable<'_>>, AllocError>
    ensures { IfOk result (λ all. map variable_value all ≡ listed_variables object.now) }
{
    match arena_of(object) {
        Some(_) => object.variables(),
        None => Ok(Items::new(alloc)),
    }
}

/// Returns the name of the arena; empty if there is none.
pub fn arena_name<'a>(listing: &'a ObjectListing<'_>) -> &'a str {
    match arena_of(listing.object) {
        Some(arena) => arena.name,
        None => "",
    }
}

/// The variables in the arena.
pub fn arena_table<'a>(
    alloc: Global,
    listing: &'a ObjectListing<'_>,
) -> Result<PageTable<'a>, AllocError> {
    let columns = [
        number_column("OFFSET"),
        number_column("SIZE"),
        name_column("NAME"),
    ];
    let arena = arena_name(listing);
    let mut table = table_of(alloc, "ARENA VARIABLES", 0, &columns)?;
    for variable in listing.variables.iter() {
        if variable.map != arena {
            continue;
        }
        table.count = table.count.saturating_add(1);
        table.cells.push(PageCell::Hex(variable.offset))?;
        table.cells.push(PageCell::Number(variable.size as usize))?;
        table.cells.push(PageCell::Text(variable.name))?;
    }
    Ok(table)
}
