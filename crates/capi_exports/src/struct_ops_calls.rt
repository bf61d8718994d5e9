//! The maps of struct_ops of an object, by a kernel's types.

ghost use Rattle.std.specs.Prelude.{◌≡◌, List, Result, ℕ};
ghost use Rattle.capi_exports.specs.KernelHandles.{FindsOfTypes};
ghost use Rattle.capi_exports.specs.PassOrder.{object_in};
ghost use Rattle.capi_rows.specs.Answers.{LeavesList, LeavesListing, Listed, told_listing};
ghost use Rattle.capi_rows.specs.Handles.{FindsHeld};
ghost use Rattle.capi_struct_ops.specs.StructOps.{CannotFindStructOps, CannotMakeStructOps, IsOfStructOpsMap, IsStructOpsList, struct_ops_program_list, struct_ops_value};
ghost use Rattle.capi_rows.specs.declared.refusal.Refusal.{Refusal};
ghost use Rattle.capi_struct_ops.specs.declared.rows.ebpf_struct_ops_map.{ebpf_struct_ops_map};
ghost use Rattle.capi_struct_ops.specs.declared.rows.ebpf_struct_ops_program.{ebpf_struct_ops_program};

use crate::handle::ebpf_handle;
use crate::kernel::ebpf_types;
use capi_rows::buffers::{Listing, ebpf_counts, tell_items, tell_listing};
use capi_rows::codes::CLOSED;
use capi_rows::refusal::{Refusal, ebpf_refusal};
use capi_struct_ops::{
    ebpf_struct_ops_map, ebpf_struct_ops_program, map_rows, program_rows, value_bytes,
};
use ebpf_base::Items;
use ebpf_btf::Btf;
use std::alloc::Global;

/// The rows of the maps of what a handle holds.
fn maps_of_held(
    alloc: Global,
    handle: &mut ebpf_handle,
    file: &[u8],
    kernel: &Btf,
) -> Result<Listing<ebpf_struct_ops_map>, Refusal>
    ensures stays { handle.new.held ≡ handle.old.held }
    ensures found { FindsHeld (IsStructOpsList file.now kernel.now)
        (CannotMakeStructOps file.now kernel.now) (object_in handle.old.held)
        (told_listing result) }
{
    let Some(held) = handle.take(alloc) else {
        return Err(Refusal::plain(CLOSED));
    };
    let found = map_rows(alloc, file, &held.object, kernel);
    handle.put(alloc, held);
    found
}

/// The rows of the programs of a map of what a handle holds.
fn programs_of_held(
    alloc: Global,
    handle: &mut ebpf_handle,
    file: &[u8],
    index: usize,
    kernel: &Btf,
) -> Result<Listing<ebpf_struct_ops_program>, Refusal>
    ensures stays { handle.new.held ≡ handle.old.held }
    ensures found { FindsHeld (IsOfStructOpsMap struct_ops_program_list file.now index kernel.now)
        (CannotFindStructOps file.now index kernel.now) (object_in handle.old.held)
        (told_listing result) }
{
    let Some(held) = handle.take(alloc) else {
        return Err(Refusal::plain(CLOSED));
    };
    let found = program_rows(alloc, file, index, &held.object, kernel);
    handle.put(alloc, held);
    found
}

/// The bytes of the value of a map of what a handle holds.
fn value_of_held(
    alloc: Global,
    handle: &mut ebpf_handle,
    file: &[u8],
    index: usize,
    kernel: &Btf,
) -> Result<Items<u8>, Refusal>
    ensures stays { handle.new.held ≡ handle.old.held }
    ensures found { FindsHeld (IsOfStructOpsMap struct_ops_value file.now index kernel.now)
        (CannotFindStructOps file.now index kernel.now) (object_in handle.old.held) result }
{
    let Some(held) = handle.take(alloc) else {
        return Err(Refusal::plain(CLOSED));
    };
    let found = value_bytes(alloc, file, index, &held.object, kernel);
    handle.put(alloc, held);
    found
}

/// Lists the maps of struct_ops of an object that a loader creates without being asked, by a kernel's types
/// (`ebpf_struct_ops::struct_ops_maps`): a row each, and the names in `text`, a zero byte behind each. `file` are the bytes
/// that the object was opened from.
///
/// # Answers
///
/// 0; 1 where not all fits; 2; 3 where one of the handles is closed; 1200 to 1299 where the maps can't be made. The buffers
/// are then as they were, and `counts` too but for 1.
#[unsafe(no_mangle)]
pub extern "C" fn exact_ebpf_struct_ops_maps(
    alloc: Global,
    handle: &mut ebpf_handle,
    file: &[u8],
    kernel: &mut ebpf_types,
    rows: &mut [ebpf_struct_ops_map],
    text: &mut [u8],
    counts: &mut ebpf_counts,
    about: &mut [u8],
    report: &mut ebpf_refusal,
) -> u32
    ensures stays { handle.new.held ≡ handle.old.held }
    ensures types_stay { kernel.new.held ≡ kernel.old.held }
    ensures listed { (found : Result (Listed ebpf_struct_ops_map) Refusal)
        × FindsOfTypes (λ t.
        FindsHeld (IsStructOpsList file.now t) (CannotMakeStructOps file.now t)
        (object_in handle.old.held)) kernel.old.held found
        × LeavesListing found result rows.old rows.new text.old text.new counts.old counts.new
        about.old about.new report.old report.new }
{
    let Some(types) = kernel.take(alloc) else {
        let closed = Err(Refusal::plain(CLOSED));
        return tell_listing(closed, rows, text, counts, about, report);
    };
    let found = maps_of_held(alloc, handle, file, &types.types);
    kernel.put(alloc, types);
    tell_listing(found, rows, text, counts, about, report)
}

/// Lists the programs whose descriptors the value of a map of struct_ops holds: a row each in the order of the members of
/// the object's struct, and the names in `text`, a zero byte behind each. `map` is the index of the map in the list of
/// `exact_ebpf_struct_ops_maps`.
///
/// # Answers
///
/// 0; 1 where not all fits; 2; 3 where one of the handles is closed; 1200 to 1299 where the maps can't be made; then 5
/// where no map has the index. The buffers are then as they were, and `counts` too but for 1.
#[unsafe(no_mangle)]
pub extern "C" fn exact_ebpf_struct_ops_programs(
    alloc: Global,
    handle: &mut ebpf_handle,
    file: &[u8],
    kernel: &mut ebpf_types,
    map: usize,
    rows: &mut [ebpf_struct_ops_program],
    text: &mut [u8],
    counts: &mut ebpf_counts,
    about: &mut [u8],
    report: &mut ebpf_refusal,
) -> u32
    ensures stays { handle.new.held ≡ handle.old.held }
    ensures types_stay { kernel.new.held ≡ kernel.old.held }
    ensures listed { (found : Result (Listed ebpf_struct_ops_program) Refusal)
        × FindsOfTypes (λ t.
        FindsHeld (IsOfStructOpsMap struct_ops_program_list file.now map t)
        (CannotFindStructOps file.now map t) (object_in handle.old.held)) kernel.old.held found
        × LeavesListing found result rows.old rows.new text.old text.new counts.old counts.new
        about.old about.new report.old report.new }
{
    let Some(types) = kernel.take(alloc) else {
        let closed = Err(Refusal::plain(CLOSED));
        return tell_listing(closed, rows, text, counts, about, report);
    };
    let found = programs_of_held(alloc, handle, file, map, &types.types);
    kernel.put(alloc, types);
    tell_listing(found, rows, text, counts, about, report)
}

/// Writes the bytes of the value of a map of struct_ops, and their number. They are zero where descriptors of programs go.
/// `map` is the index of the map in the list of `exact_ebpf_struct_ops_maps`.
///
/// # Answers
///
/// 0; 1 where they don't fit; 2; 3 where one of the handles is closed; 1200 to 1299 where the maps can't be made; then 5
/// where no map has the index. The buffer is then as it was, and `len` too but for 1.
#[unsafe(no_mangle)]
pub extern "C" fn exact_ebpf_struct_ops_value(
    alloc: Global,
    handle: &mut ebpf_handle,
    file: &[u8],
    kernel: &mut ebpf_types,
    map: usize,
    value: &mut [u8],
    len: &mut usize,
    about: &mut [u8],
    report: &mut ebpf_refusal,
) -> u32
    ensures stays { handle.new.held ≡ handle.old.held }
    ensures types_stay { kernel.new.held ≡ kernel.old.held }
    ensures written { (found : Result (List ℕ) Refusal)
        × FindsOfTypes (λ t.
        FindsHeld (IsOfStructOpsMap struct_ops_value file.now map t)
        (CannotFindStructOps file.now map t) (object_in handle.old.held)) kernel.old.held found
        × LeavesList found result value.old value.new len.old len.new about.old about.new report.old
        report.new }
{
    let Some(types) = kernel.take(alloc) else {
        return tell_items(Err(Refusal::plain(CLOSED)), value, len, about, report);
    };
    let found = value_of_held(alloc, handle, file, map, &types.types);
    kernel.put(alloc, types);
    tell_items(found, value, len, about, report)
}
