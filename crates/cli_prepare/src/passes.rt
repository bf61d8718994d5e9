//! The passes over an object.

ghost use Rattle.std.specs.Prelude.{IfOk};
ghost use Rattle.cli_common.specs.DefaultPasses.{default_passes};
ghost use Rattle.ebpf_ksyms.specs.Sources.{Text as TextLines};
ghost use Rattle.ebpf_outcomes.specs.PassOutcomes.{HasOutcomes};

use crate::kernel::Kernel;
use cli_common::programs::ObjectProgram;
use ebpf_base::Items;
use ebpf_object::Object;
use ebpf_object::prepare::{PrepareError, Steps, SymbolText, numbered_descriptors};
use ebpf_object::relocation::{LinkMap, programs_in_order};
use ebpf_outcomes::{AskedOutcomes, PreparedWithOutcomes, prepare_with_outcomes};
use std::alloc::{AllocError, Global};

/// A copy of an object after all passes, as `finished_object` gives it, with their outcomes.
///
/// # Errors
///
/// Those of `prepare_copy`.
pub fn pass_all(
    alloc: Global,
    object: &Object,
    kernel: &Kernel,
    asked: AskedOutcomes,
) -> Result<PreparedWithOutcomes, PrepareError>
    ensures { IfOk result
        (HasOutcomes (default_passes kernel.now.types object.now.maps) asked
        (TextLines kernel.now.symbols.items) object.now) }
{
    let Ok(names) = object.map_names(alloc) else {
        return Err(PrepareError::OutOfMemory);
    };
    let Ok(descriptors) = numbered_descriptors(alloc, names.as_slice()) else {
        return Err(PrepareError::OutOfMemory);
    };
    let types = kernel.types.as_ref();
    prepare_with_outcomes(
        alloc,
        object,
        &Steps::all_with(types, &descriptors),
        asked,
        SymbolText(&kernel.symbols),
    )
}

/// The link maps of the chosen programs among those of all programs. Both are in byte order of the programs' names.
pub fn chosen_maps(
    alloc: Global,
    object: &Object,
    link_maps: Items<LinkMap>,
    chosen: &[ObjectProgram],
) -> Result<Items<LinkMap>, AllocError> {
    let mut maps = Items::new(alloc);
    let programs = programs_in_order(alloc, &object.programs)?;
    for (program, map) in programs.iter().zip(link_maps.into_vec().into_iter()) {
        let next = chosen.get(maps.len());
        if !next.is_some_and(|next| next.name.is(program.name)) {
            continue;
        }
        maps.push(map)?;
    }
    Ok(maps)
}
