//! What linked programs use: maps, helper functions, functions of the kernel.

use crate::kernel_calls::kernel_calls;
use cli_common::helper_calls::helpers_by_function;
use cli_common::map_uses::{MapUse, map_uses};
use ebpf_base::{ByKey, Items, Text};
use ebpf_object::Object;
use ebpf_object::relocation::CodeCopy;
use std::alloc::{AllocError, Global};
use std::collections::BTreeSet;

/// What the functions of an object use, by their keys.
#[derive(Drop)]
pub struct FunctionUses {
    maps: ByKey<Items<MapUse>>,
    helpers: ByKey<BTreeSet<u32>>,
    kernel_functions: ByKey<Items<Text>>,
}

/// What a program uses.
#[derive(Drop)]
pub struct ProgramUses<'a> {
    /// The names of maps.
    pub maps: BTreeSet<&'a str>,
    /// The numbers of helper functions.
    pub helpers: BTreeSet<u32>,
    /// The names of functions of the kernel.
    pub kernel_functions: BTreeSet<&'a str>,
}

impl FunctionUses {
    /// What the functions of an object use, as it was parsed.
    pub fn of(alloc: Global, parsed: &Object) -> Result<FunctionUses, AllocError> {
        let maps = map_uses(alloc, parsed)?;
        let helpers = helpers_by_function(alloc, parsed)?;
        let kernel_functions = kernel_calls(alloc, parsed)?;
        Ok(FunctionUses {
            maps,
            helpers,
            kernel_functions,
        })
    }

    /// Adds what the function of a key uses.
    fn add<'a>(&'a self, uses: &mut ProgramUses<'a>, key: (usize, u64)) -> Result<(), AllocError> {
        if let Some(maps) = self.maps.get(key) {
            for used in maps.iter() {
                uses.maps.insert(used.name.as_str())?;
            }
        }
        if let Some(helpers) = self.helpers.get(key) {
            for number in helpers.iter() {
                uses.helpers.insert(*number)?;
            }
        }
        if let Some(names) = self.kernel_functions.get(key) {
            for name in names.iter() {
                uses.kernel_functions.insert(name.as_str())?;
            }
        }
        Ok(())
    }

    /// The maps that the function of a key uses.
    pub fn maps_of(&self, key: (usize, u64)) -> &[MapUse] {
        match self.maps.get(key) {
            Some(maps) => maps.as_slice(),
            None => &[],
        }
    }

    /// What a program of these copies uses.
    pub fn of_program<'a>(
        &'a self,
        alloc: Global,
        copies: &[CodeCopy],
    ) -> Result<ProgramUses<'a>, AllocError> {
        let mut uses = ProgramUses {
            maps: BTreeSet::new(alloc),
            helpers: BTreeSet::new(alloc),
            kernel_functions: BTreeSet::new(alloc),
        };
        for copy in copies {
            self.add(&mut uses, copy.key)?;
        }
        Ok(uses)
    }
}
