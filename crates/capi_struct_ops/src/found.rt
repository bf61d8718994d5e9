//! The maps of struct_ops of an object, by a kernel's types: their rows, their programs and their values.

ghost use Rattle.std.specs.Prelude.{◌≡◌, MatchResult};
ghost use Rattle.capi_rows.specs.Answers.{told_listing};
ghost use Rattle.capi_struct_ops.specs.StructOps.{AreStructOpsMaps, CannotFindStructOps, CannotMakeStructOps, IsOfStructOpsMap, IsStructOpsList, struct_ops_program_list, struct_ops_value};

use crate::refusals::struct_ops_refusal;
use crate::rows::{ebpf_struct_ops_map, ebpf_struct_ops_program};
use capi_rows::buffers::{Listing, list_all};
use capi_rows::codes::NO_MAP;
use capi_rows::refusal::Refusal;
use ebpf_base::Items;
use ebpf_btf::Btf;
use ebpf_object::Object;
use ebpf_struct_ops::{StructOpsMap, struct_ops_maps};
use std::alloc::Global;

/// The maps of an object.
fn made_maps(
    alloc: Global,
    file: &[u8],
    object: &Object,
    kernel: &Btf,
) -> Result<Items<StructOpsMap>, Refusal>
    ensures { MatchResult result (AreStructOpsMaps file.now kernel.now object.now)
        (CannotMakeStructOps file.now kernel.now object.now) }
{
    match struct_ops_maps(alloc, file, object, kernel) {
        Ok(maps) => Ok(maps),
        Err(error) => Err(struct_ops_refusal(error)),
    }
}

/// Their rows.
pub fn map_rows(
    alloc: Global,
    file: &[u8],
    object: &Object,
    kernel: &Btf,
) -> Result<Listing<ebpf_struct_ops_map>, Refusal>
    ensures { MatchResult (told_listing result) (IsStructOpsList file.now kernel.now object.now)
        (CannotMakeStructOps file.now kernel.now object.now) }
{
    let maps = made_maps(alloc, file, object, kernel)?;
    Ok(list_all(alloc, &(), maps.as_slice())?)
}

/// The rows of the programs of one map.
pub fn program_rows(
    alloc: Global,
    file: &[u8],
    index: usize,
    object: &Object,
    kernel: &Btf,
) -> Result<Listing<ebpf_struct_ops_program>, Refusal>
    ensures { MatchResult (told_listing result)
        (IsOfStructOpsMap struct_ops_program_list file.now index kernel.now object.now)
        (CannotFindStructOps file.now index kernel.now object.now) }
{
    let maps = made_maps(alloc, file, object, kernel)?;
    let Some(map) = maps.get(index) else {
        return Err(Refusal::plain(NO_MAP));
    };
    Ok(list_all(alloc, &(), map.programs.as_slice())?)
}

/// The bytes of the value of one map.
pub fn value_bytes(
    alloc: Global,
    file: &[u8],
    index: usize,
    object: &Object,
    kernel: &Btf,
) -> Result<Items<u8>, Refusal>
    ensures { MatchResult result
        (IsOfStructOpsMap struct_ops_value file.now index kernel.now object.now)
        (CannotFindStructOps file.now index kernel.now object.now) }
{
    let maps = made_maps(alloc, file, object, kernel)?;
    let Some(map) = maps.get(index) else {
        return Err(Refusal::plain(NO_MAP));
    };
    Ok(map.value.copied()?)
}
