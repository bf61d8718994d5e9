//! What an object wants of its caller: descriptors of maps, and the kernel's symbols.

ghost use Rattle.std.specs.Prelude.{◌≡◌, MatchOption};
ghost use Rattle.capi_exports.specs.PassOrder.{object_in};
ghost use Rattle.capi_rows.specs.Answers.{FillsListing, or_memory};
ghost use Rattle.capi_rows.specs.MapSlots.{read_slots_without_descriptors};
ghost use Rattle.capi_rows.specs.Reads.{of_open};
ghost use Rattle.capi_rows.specs.Refusals.{flag};
ghost use Rattle.capi_rows.specs.WantedSymbols.{wants_symbols};

use crate::handle::ebpf_handle;
use capi_rows::buffers::{ebpf_counts, write_listing};
use capi_rows::codes::{BAD_NAME, CLOSED, DONE, MEMORY, flag};
use capi_rows::map_slots::{ebpf_map_slot, slots_without_descriptors};
use capi_rows::reads::{ebpf_descriptor, have_names};
use capi_rows::wanted::wants_symbols;
use ebpf_object::Object;
use std::alloc::Global;

/// Lists the slots of an object whose own map has no descriptor, as `ebpf_maps_without_descriptors` does.
fn write_slots_without(
    alloc: Global,
    object: &Object,
    descriptors: &[ebpf_descriptor],
    names: &[u8],
    rows: &mut [ebpf_map_slot],
    text: &mut [u8],
    counts: &mut ebpf_counts,
) -> u32
    ensures { FillsListing
        (or_memory result
        (read_slots_without_descriptors names.now descriptors.now object.now)) result rows.old
        rows.new text.old text.new counts.old counts.new }
{
    if !have_names(descriptors, names) {
        return BAD_NAME;
    }
    match slots_without_descriptors(alloc, object, descriptors, names) {
        Ok(listing) => write_listing(listing, rows, text, counts),
        Err(_) => MEMORY,
    }
}

/// Lists the slots of an object whose own map has no descriptor among those that are given: a row each by the functions'
/// sections and addresses and then by slot, and the names of their maps in `text`, a zero byte behind each. Where it has
/// none, each slot that refers to a map has its descriptor (`ebpf_object::Object::maps_without_descriptors`). Each row of
/// `descriptors` says where its map's name stands in `names`.
///
/// # Answers
///
/// 0; 1 where not all fits; 2; 3; 6 where a row's name is not inside `names` or is no text. The buffers are then as they
/// were, and `counts` too but for 1.
#[unsafe(no_mangle)]
pub extern "C" fn exact_ebpf_maps_without_descriptors(
    alloc: Global,
    handle: &mut ebpf_handle,
    descriptors: &[ebpf_descriptor],
    names: &[u8],
    rows: &mut [ebpf_map_slot],
    text: &mut [u8],
    counts: &mut ebpf_counts,
) -> u32
    ensures stays { handle.new.held ≡ handle.old.held }
    ensures fills { FillsListing
        (of_open (λ o.
        or_memory result (read_slots_without_descriptors names.now descriptors.now o))
        (object_in handle.old.held)) result rows.old rows.new text.old text.new counts.old
        counts.new }
{
    let Some(held) = handle.take(alloc) else {
        return CLOSED;
    };
    let number = write_slots_without(alloc, &held.object, descriptors, names, rows, text, counts);
    handle.put(alloc, held);
    number
}

/// Says whether finding the externs of an object reads the kernel's symbols: 1 where it has types and an extern without a
/// type that is not found yet, else 0.
///
/// # Answers
///
/// 0; 3, and `wants` is then as it was.
#[unsafe(no_mangle)]
pub extern "C" fn exact_ebpf_wants_symbols(
    alloc: Global,
    handle: &mut ebpf_handle,
    wants: &mut u32,
) -> u32
    ensures stays { handle.new.held ≡ handle.old.held }
    ensures wants { MatchOption (object_in handle.old.held)
        ((result ≡ CLOSED) × (wants.new ≡ wants.old))
        (λ o. (result ≡ DONE) × (wants.new ≡ flag (wants_symbols o))) }
{
    let Some(held) = handle.take(alloc) else {
        return CLOSED;
    };
    *wants = flag(wants_symbols(&held.object));
    handle.put(alloc, held);
    DONE
}
