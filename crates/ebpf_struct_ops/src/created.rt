//! The maps of struct_ops that a loader creates without being asked.

ghost use Rattle.std.specs.Prelude.{◌≡◌, IfOk, None};
ghost use Rattle.ebpf_base.specs.Faults.{Refuses};
ghost use Rattle.ebpf_struct_ops.specs.CreatedMaps.{created_fault, created_maps, struct_ops_maps, struct_ops_maps_fault};
ghost use Rattle.ebpf_struct_ops.specs.KernelStructs.{is_struct_ops_memory};
ghost use Rattle.ebpf_struct_ops.specs.Uses.{uses_fault};

use crate::error::StructOpsError;
use crate::maps::{StructOpsMap, struct_ops_map};
use crate::uses::check_uses;
use crate::variable::StructOpsVariable;
use crate::variables::struct_ops_variables;
use ebpf_base::Items;
use ebpf_btf::Btf;
use ebpf_object::Object;
use std::alloc::Global;

/// The maps of the variables that are created without being asked.
fn created_maps(
    alloc: Global,
    variables: &[StructOpsVariable],
    kernel: &Btf,
) -> Result<Items<StructOpsMap>, StructOpsError>
    ensures maps { IfOk result (λ all. all ≡ created_maps kernel.now variables.now) }
    ensures fault { Refuses is_struct_ops_memory result (created_fault kernel.now variables.now) }
{
    let mut all = Items::new(alloc);
    for variable in variables {
        if !variable.is_created {
            continue;
        }
        all.push(struct_ops_map(alloc, variable, kernel)?)?;
    }
    Ok(all)
}

/// Returns the maps of struct_ops of an object that a loader creates without being asked, as a kernel takes them.
///
/// The maps are those of the variables of `struct_ops_variables` whose section has no `?`, in their order, each as
/// `struct_ops_map` returns it. `kernel` has the types of the kernel. A map whose struct is defined in a module is made
/// with `struct_ops_map` and the module's types.
///
/// # Errors
///
/// The first of:
///
/// - The error of `struct_ops_variables`.
/// - The error of `struct_ops_map` for the first map that has one.
/// - `OtherUse`: two maps use one program for different structs or members, as `check_uses` says.
/// - `OutOfMemory`: an allocation failed.
#[tactic(auto, unfolding(crate::specs::CreatedMaps::struct_ops_maps, crate::specs::CreatedMaps::struct_ops_maps_fault))]
pub fn struct_ops_maps(
    alloc: Global,
    file: &[u8],
    object: &Object,
    kernel: &Btf,
) -> Result<Items<StructOpsMap>, StructOpsError>
    ensures maps { IfOk result (λ maps. maps ≡ struct_ops_maps file.now object.now kernel.now) }
    ensures fault { Refuses is_struct_ops_memory result
        (struct_ops_maps_fault file.now object.now kernel.now) }
    ensures uses { IfOk result (λ maps. uses_fault maps ≡ None) }
{
    let variables = struct_ops_variables(alloc, file, object)?;
    let maps = created_maps(alloc, variables.as_slice(), kernel)?;
    check_uses(maps.as_slice())?;
    Ok(maps)
}
