//! New values of an object's global variables.

mod by_name;
mod lookup;
mod write;

ghost use Rattle.std.specs.Prelude.{◌≡◌, ◌++◌, map, IfOk, OnOk, OnErr};
ghost use Rattle.std.specs.FinMap as finite;
ghost use Rattle.std.specs.List.{flat_map};
ghost use Rattle.ebpf_base.specs.Faults.{Refuses, first_some};
ghost use Rattle.ebpf_base.specs.Maps.{lent_bytes};
ghost use Rattle.ebpf_object.specs.Patches.{patches_at, patch_fault_at, patches_of, patches_fault, all_patched, globals_of};
ghost use Rattle.ebpf_object.specs.PrivateContracts.{value_of};
ghost use Rattle.ebpf_parts.specs.Memory.{is_parse_memory};

use crate::object::Object;
pub use by_name::one_value;
use by_name::{names_of, value_at};
use ebpf_parts::ParseError;
pub use lookup::symbol_indices;
use lookup::{VariableLookup, map_names, patch_of};
use std::alloc::Global;
use std::collections::HashMap;
use write::{Patch, write_patches};

/// Adds the patch of one variable's value, where the object has the variable.
#[tactic(auto, unfolding(crate::specs::Patches::patch_of))]
fn add<'a>(
    alloc: Global,
    lookup: &VariableLookup<'_>,
    globals: &HashMap<&str, (&'a [u8], bool)>,
    name: &str,
    patches: Vec<Patch<'a>>,
) -> Result<Vec<Patch<'a>>, ParseError>
    ensures patches { IfOk result (λ all.
        map value_of all.items
        ≡ map value_of patches.entry.items
        ++ patches_at lookup.now.symbols.now lookup.now.maps.now name.now
        (finite.get (globals_of globals.now.entries) name.now)) }
    ensures fault { Refuses is_parse_memory result
        (patch_fault_at lookup.now.symbols.now lookup.now.maps.now name.now
        (finite.get (globals_of globals.now.entries) name.now)) }
{
    let mut patches = patches;
    let Some((bytes, must_exist)) = value_at(globals, name) else {
        return Ok(patches);
    };
    match patch_of(alloc, lookup, name, bytes, must_exist) {
        Ok(Some(patch)) => match patches.push(patch) {
            Ok(_) => Ok(patches),
            Err(error) => Err(error.into()),
        },
        Ok(None) => Ok(patches),
        Err(error) => Err(error),
    }
}

/// The patches of variables' values, in the order of the names.
fn add_all<'a>(
    alloc: Global,
    lookup: &VariableLookup<'_>,
    globals: &HashMap<&str, (&'a [u8], bool)>,
    names: &[&str],
) -> Result<Vec<Patch<'a>>, ParseError>
    ensures patches { IfOk result (λ all.
        map value_of all.items
        ≡ flat_map
        (λ name.
        patches_at lookup.now.symbols.now lookup.now.maps.now name
        (finite.get (globals_of globals.now.entries) name))
        (lent_bytes names.now)) }
    ensures fault { Refuses is_parse_memory result
        (first_some
        (λ name.
        patch_fault_at lookup.now.symbols.now lookup.now.maps.now name
        (finite.get (globals_of globals.now.entries) name))
        (lent_bytes names.now)) }
{
    let mut patches = Vec::new(alloc);
    for name in names {
        match add(alloc, lookup, globals, *name, patches) {
            Ok(all) => patches = all,
            Err(error) => return Err(error),
        }
    }
    Ok(patches)
}

impl Object {
    /// The patches of variables' values.
    fn patches<'a>(
        &self,
        globals: &HashMap<&str, (&'a [u8], bool)>,
    ) -> Result<Vec<Patch<'a>>, ParseError>
        ensures patches { IfOk result (λ all.
            map value_of all.items
            ≡ patches_of self.now.symbol_table self.now.maps (globals_of globals.now.entries)) }
        ensures fault { Refuses is_parse_memory result
            (patches_fault self.now.symbol_table self.now.maps
            (globals_of globals.now.entries)) }
    {
        let alloc = self.allocator();
        let Ok(names) = names_of(alloc, globals) else {
            return Err(ParseError::OutOfMemory);
        };
        let Ok(numbers) = symbol_indices(alloc, &self.symbol_table) else {
            return Err(ParseError::OutOfMemory);
        };
        let Ok(map_names) = map_names(alloc, &self.maps) else {
            return Err(ParseError::OutOfMemory);
        };
        let lookup = VariableLookup {
            symbols: &self.symbol_table,
            maps: &self.maps,
            numbers: &numbers,
            names: &map_names,
        };
        add_all(alloc, &lookup, globals, names.as_slice())
    }

    /// Writes the values of global variables into the data of the maps that hold them.
    ///
    /// The values are written in the byte order of the variables' names, later ones over earlier ones. Each value comes
    /// with a flag that says whether the object must have the variable. Without the flag, a value whose name no symbol
    /// has is ignored. Of symbols of one name the one with the greatest index counts. The map is the first by name that
    /// the symbol's section has.
    ///
    /// # Errors
    ///
    /// The first fault in the order of names:
    ///
    /// - `SymbolNotFound`: the variable must exist, and no symbol has the name.
    /// - `InvalidGlobalData`: the value has another size than the symbol.
    /// - `MapNotFound`, with the index of the symbol's section (0 without one): the section has no map.
    /// - `InvalidGlobalData`: the symbol's range passes the end of the map's data.
    ///
    /// `OutOfMemory`: an allocation failed. On error the object is unchanged.
    pub fn patch_map_data(
        &mut self,
        globals: HashMap<&str, (&[u8], bool)>,
    ) -> Result<(), ParseError>
        ensures maps { OnOk result
            (self.new.maps
            ≡ all_patched self.old.maps
            (patches_of self.old.symbol_table self.old.maps
            (globals_of globals.entry.entries))) }
        ensures fault { Refuses is_parse_memory result
            (patches_fault self.old.symbol_table self.old.maps
            (globals_of globals.entry.entries)) }
        ensures others_stay { self.new ≡ record self.old { maps = self.new.maps } }
        ensures unchanged { OnErr result (self.new ≡ self.old) }
    {
        match self.patches(&globals) {
            Ok(patches) => {
                write_patches(&mut self.maps, patches.as_slice());
                Ok(())
            }
            Err(error) => Err(error),
        }
    }
}
