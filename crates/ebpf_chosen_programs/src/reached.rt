//! The functions that programs reach.

ghost use Rattle.std.specs.Prelude.{◌≡◌, IfOk};
ghost use Rattle.std.specs.FinMap as map;
ghost use Rattle.ebpf_chosen_programs.specs.Reached.{AreReached, own_linkable};
ghost use Rattle.ebpf_reloc.specs.SlotTargets.{read};

use crate::keys::{found_keys, program_numbers};
use crate::search::found_functions;
use ebpf_base::{ByKey, ByName};
use ebpf_model::Program;
use ebpf_object::Object;
use ebpf_reloc::{Linkable, NumberedFunctions};
use std::alloc::{AllocError, Global};

/// The keys of the numbered functions that programs reach.
fn reached_keys(
    alloc: Global,
    functions: &NumberedFunctions<'_>,
    programs: &ByName<Program>,
) -> Result<ByKey<()>, AllocError>
    ensures { IfOk result (λ reached.
        AreReached (read functions.now.parts) programs.now (map.contains_key reached)) }
{
    let keys = functions.keys.as_slice();
    let references = functions.calls.as_slice();
    let first = program_numbers(alloc, keys, programs)?;
    let is_found = found_functions(alloc, references, first.as_slice())?;
    found_keys(alloc, keys, is_found.as_slice())
}

/// The keys of the functions that programs reach.
pub fn reached_functions(
    alloc: Global,
    object: &Object,
    programs: &ByName<Program>,
) -> Result<ByKey<()>, AllocError>
    ensures { IfOk result (λ reached.
        AreReached (own_linkable object.now) programs.now (map.contains_key reached)) }
{
    let text_sections = object.text_sections(alloc)?;
    let parts = Linkable {
        functions: &object.functions,
        symbols: &object.symbol_table,
        relocations: &object.relocations,
        text_sections: &text_sections,
        callbacks: &object.exception_callbacks,
    };
    let functions = NumberedFunctions::new(alloc, &parts)?;
    reached_keys(alloc, &functions, programs)
}
