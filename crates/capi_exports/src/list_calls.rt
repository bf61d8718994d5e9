//! Lists of what an object has, its rows by their names, and what the records of .BTF.ext are.

ghost use Rattle.std.specs.Prelude.{◌≡◌, Ok, MatchResult, Result, IfOk};
ghost use Rattle.capi_exports.specs.PassOrder.{object_in};
ghost use Rattle.capi_rows.specs.Answers.{FillsListing, or_memory, Listed, told_listing, LeavesListing};
ghost use Rattle.capi_rows.specs.declared.refusal.Refusal.{Refusal};
ghost use Rattle.capi_rows.specs.Handles.{FindsHeld};
ghost use Rattle.capi_rows.specs.InitialSlotRows.{CannotListSlots, IsSlotList};
ghost use Rattle.capi_rows.specs.Reads.{answer_row, map_named, program_named, row_after, extern_list, map_list, of_open, program_list, section_list};
ghost use Rattle.capi_rows.specs.declared.programs.ebpf_initial_slot.{ebpf_initial_slot};
ghost use Rattle.capi_rows.specs.Records.{outcome_list, CannotListOutcomes, IsOutcomeList};
ghost use Rattle.capi_rows.specs.declared.record_rows.ebpf_record_outcome.{ebpf_record_outcome};

use crate::handle::ebpf_handle;
use capi_rows::buffers::{Listing, ebpf_counts, list_all, tell_listing, write_all};
use capi_rows::codes::{CLOSED, MEMORY};
use capi_rows::entries::{ebpf_extern, ebpf_section};
use capi_rows::info::read_types;
use capi_rows::maps::{ebpf_map, map_named, program_named, write_row};
use capi_rows::programs::{ebpf_initial_slot, ebpf_program};
use capi_rows::record_rows::ebpf_record_outcome;
use capi_rows::refusal::{Refusal, ebpf_refusal};
use capi_rows::refusals::initial_slots_refusal;
use ebpf_btf::Btf;
use ebpf_initial_slots::initial_slots;
use ebpf_object::Object;
use std::alloc::{AllocError, Global};

/// Lists the programs of an object, as `ebpf_programs` does.
fn write_programs(
    alloc: Global,
    object: &Object,
    rows: &mut [ebpf_program],
    text: &mut [u8],
    counts: &mut ebpf_counts,
) -> u32
    ensures { FillsListing (or_memory result (Ok (program_list object.now))) result rows.old
        rows.new text.old text.new counts.old counts.new }
{
    write_all(alloc, object, &object.programs, rows, text, counts)
}

/// Lists the programs of an object: a row each in byte order of their names, and the names in `text`, a zero byte
/// behind each. Where loaders know the name of its section, that says how a program is loaded, else its kind does.
///
/// # Answers
///
/// 0; 1 where not all fits; 2; 3. The buffers are then as they were, and `counts` too but for 1.
#[unsafe(no_mangle)]
pub extern "C" fn exact_ebpf_programs(
    alloc: Global,
    handle: &mut ebpf_handle,
    rows: &mut [ebpf_program],
    text: &mut [u8],
    counts: &mut ebpf_counts,
) -> u32
    ensures stays { handle.new.held ≡ handle.old.held }
    ensures fills { FillsListing
        (of_open (λ o. or_memory result (Ok (program_list o))) (object_in handle.old.held)) result
        rows.old rows.new text.old text.new counts.old counts.new }
{
    let Some(held) = handle.take(alloc) else {
        return CLOSED;
    };
    let number = write_programs(alloc, &held.object, rows, text, counts);
    handle.put(alloc, held);
    number
}

/// Lists the maps of an object, as `ebpf_maps` does.
fn write_maps(
    alloc: Global,
    object: &Object,
    rows: &mut [ebpf_map],
    text: &mut [u8],
    counts: &mut ebpf_counts,
) -> u32
    ensures { FillsListing (or_memory result (Ok (map_list object.now))) result rows.old rows.new
        text.old text.new counts.old counts.new }
{
    write_all(alloc, &object.btf, &object.maps, rows, text, counts)
}

/// Lists the maps of an object: a row each in byte order of their names, and the names in `text`, a zero byte behind
/// each. The ids of types are those that a map is created with (`ebpf_load_info::map_types`), an inner map's by the
/// same types; 0 where the object has none.
///
/// # Answers
///
/// 0; 1 where not all fits; 2; 3. The buffers are then as they were, and `counts` too but for 1.
#[unsafe(no_mangle)]
pub extern "C" fn exact_ebpf_maps(
    alloc: Global,
    handle: &mut ebpf_handle,
    rows: &mut [ebpf_map],
    text: &mut [u8],
    counts: &mut ebpf_counts,
) -> u32
    ensures stays { handle.new.held ≡ handle.old.held }
    ensures fills { FillsListing
        (of_open (λ o. or_memory result (Ok (map_list o))) (object_in handle.old.held)) result
        rows.old
        rows.new text.old text.new counts.old counts.new }
{
    let Some(held) = handle.take(alloc) else {
        return CLOSED;
    };
    let number = write_maps(alloc, &held.object, rows, text, counts);
    handle.put(alloc, held);
    number
}

/// Lists the externs of an object: a row each in byte order of their names,
/// and the names in `text`, a zero byte behind each.
///
/// # Answers
///
/// 0; 1 where not all fits; 2; 3. The buffers are then as they were, and `counts` too but for 1.
#[unsafe(no_mangle)]
pub extern "C" fn exact_ebpf_externs(
    alloc: Global,
    handle: &mut ebpf_handle,
    rows: &mut [ebpf_extern],
    text: &mut [u8],
    counts: &mut ebpf_counts,
) -> u32
    ensures stays { handle.new.held ≡ handle.old.held }
    ensures fills { FillsListing
        (of_open (λ o. or_memory result (Ok (extern_list o))) (object_in handle.old.held)) result
        rows.old
        rows.new text.old text.new counts.old counts.new }
{
    let Some(held) = handle.take(alloc) else {
        return CLOSED;
    };
    let number = write_all(alloc, &(), &held.object.externs, rows, text, counts);
    handle.put(alloc, held);
    number
}

/// Lists the named sections of an object's file: a row each in byte order of their names,
/// and the names in `text`, a zero byte behind each.
///
/// # Answers
///
/// 0; 1 where not all fits; 2; 3. The buffers are then as they were, and `counts` too but for 1.
#[unsafe(no_mangle)]
pub extern "C" fn exact_ebpf_sections(
    alloc: Global,
    handle: &mut ebpf_handle,
    rows: &mut [ebpf_section],
    text: &mut [u8],
    counts: &mut ebpf_counts,
) -> u32
    ensures stays { handle.new.held ≡ handle.old.held }
    ensures fills { FillsListing
        (of_open (λ o. or_memory result (Ok (section_list o))) (object_in handle.old.held)) result
        rows.old rows.new text.old text.new counts.old counts.new }
{
    let Some(held) = handle.take(alloc) else {
        return CLOSED;
    };
    let number = write_all(alloc, &(), &held.object.section_infos, rows, text, counts);
    handle.put(alloc, held);
    number
}

/// Lists the initial values of an object's maps.
fn list_initial_slots(
    alloc: Global,
    file: &[u8],
    object: &Object,
) -> Result<Listing<ebpf_initial_slot>, Refusal>
    ensures { MatchResult (told_listing result) (IsSlotList file.now object.now)
        (CannotListSlots file.now object.now) }
{
    let slots = match initial_slots(alloc, file, object) {
        Ok(slots) => slots,
        Err(error) => return Err(initial_slots_refusal(error)),
    };
    Ok(list_all(alloc, &(), slots.as_slice())?)
}

/// Lists the initial values of an object's maps of maps and arrays of programs: a row each by the maps' names in byte
/// order, then by index; in `text` the name of each row's map and then that of what stands there, a zero byte behind
/// each. `file` are the bytes that the object was opened from.
///
/// # Answers
///
/// 0; 1 where not all fits; 2; 3 where the handle is closed; 800 to 809 where the bytes are no file; 820 to 830 for the
/// first relocation that can't be told, from 822 on about its map. The buffers are then as they were, and `counts` too
/// but for 1.
#[unsafe(no_mangle)]
pub extern "C" fn exact_ebpf_initial_slots(
    alloc: Global,
    file: &[u8],
    handle: &mut ebpf_handle,
    rows: &mut [ebpf_initial_slot],
    text: &mut [u8],
    counts: &mut ebpf_counts,
    about: &mut [u8],
    report: &mut ebpf_refusal,
) -> u32
    ensures stays { handle.new.held ≡ handle.old.held }
    ensures listed { (found : Result (Listed ebpf_initial_slot) Refusal)
        × FindsHeld (IsSlotList file.now) (CannotListSlots file.now) (object_in handle.old.held)
        found
        × LeavesListing found result rows.old rows.new text.old text.new counts.old counts.new
        about.old about.new report.old report.new }
{
    let Some(held) = handle.take(alloc) else {
        let closed = Err(Refusal::plain(CLOSED));
        return tell_listing(closed, rows, text, counts, about, report);
    };
    let found = list_initial_slots(alloc, file, &held.object);
    handle.put(alloc, held);
    tell_listing(found, rows, text, counts, about, report)
}

/// Finds the map with a name: its row is that of `ebpf_maps`, but that its name stands in `name`, at 0.
///
/// # Answers
///
/// 0; 3 where the handle is closed; 5 where no map has the name. The row is then as it was.
#[unsafe(no_mangle)]
pub extern "C" fn exact_ebpf_find_map(
    alloc: Global,
    handle: &mut ebpf_handle,
    name: &[u8],
    row: &mut ebpf_map,
) -> u32
    ensures stays { handle.new.held ≡ handle.old.held }
    ensures answer { result
        ≡ answer_row (of_open (map_named name.now) (object_in handle.old.held)) }
    ensures row { row.new
        ≡ row_after (of_open (map_named name.now) (object_in handle.old.held)) row.old }
{
    let Some(held) = handle.take(alloc) else {
        return CLOSED;
    };
    let number = write_row(map_named(&held.object, name), row);
    handle.put(alloc, held);
    number
}

/// Finds the program with a name: its row is that of `ebpf_programs`, but that its name stands in `name`, at 0.
///
/// # Answers
///
/// 0; 3 where the handle is closed; 4 where no program has the name. The row is then as it was.
#[unsafe(no_mangle)]
pub extern "C" fn exact_ebpf_find_program(
    alloc: Global,
    handle: &mut ebpf_handle,
    name: &[u8],
    row: &mut ebpf_program,
) -> u32
    ensures stays { handle.new.held ≡ handle.old.held }
    ensures answer { result
        ≡ answer_row (of_open (program_named name.now) (object_in handle.old.held)) }
    ensures row { row.new
        ≡ row_after (of_open (program_named name.now) (object_in handle.old.held)) row.old }
{
    let Some(held) = handle.take(alloc) else {
        return CLOSED;
    };
    let number = write_row(program_named(&held.object, name), row);
    handle.put(alloc, held);
    number
}

/// The rows of an object's records over a kernel's types.
#[tactic(auto, using(crate::proofs::Texts::listed_alike))]
pub fn rows_over(
    alloc: Global,
    object: &Object,
    target: &Btf,
) -> Result<Listing<ebpf_record_outcome>, AllocError>
    ensures { IfOk result (λ l. (l.rows.items, l.text.items) ≡ outcome_list object.now target.now) }
{
    let outcomes = object.record_outcomes(target)?;
    list_all(alloc, &object.btf, outcomes.records.as_slice())
}

/// The rows of an object's records over the types that the bytes spell.
fn rows_over_bytes(
    alloc: Global,
    types: &[u8],
    object: &Object,
) -> Result<Listing<ebpf_record_outcome>, Refusal>
    ensures { MatchResult (told_listing result) (IsOutcomeList types.now object.now)
        (CannotListOutcomes types.now object.now) }
{
    let target = read_types(alloc, types)?;
    Ok(rows_over(alloc, object, &target)?)
}

/// Lists the outcome of each CO-RE record of an object over a kernel's types, which are raw BTF in the byte order that
/// its magic number tells: a row each, section by section and in order, also behind one that is refused; and the names
/// of their sections in `text`, a zero byte behind each. The object stays. Without types or records of its own it has
/// no rows.
///
/// # Answers
///
/// 0; 1 where not all fits; 2; 3 where the handle is closed; 200 to 214 where the types can't be read. The buffers are
/// then as they were, and `counts` too but for 1.
#[unsafe(no_mangle)]
pub extern "C" fn exact_ebpf_record_outcomes(
    alloc: Global,
    handle: &mut ebpf_handle,
    types: &[u8],
    rows: &mut [ebpf_record_outcome],
    text: &mut [u8],
    counts: &mut ebpf_counts,
    about: &mut [u8],
    report: &mut ebpf_refusal,
) -> u32
    ensures stays { handle.new.held ≡ handle.old.held }
    ensures listed { (found : Result (Listed ebpf_record_outcome) Refusal)
        × FindsHeld (IsOutcomeList types.now) (CannotListOutcomes types.now)
        (object_in handle.old.held) found
        × LeavesListing found result rows.old rows.new text.old text.new counts.old counts.new
        about.old about.new report.old report.new }
{
    let Some(held) = handle.take(alloc) else {
        let closed = Err(Refusal::plain(CLOSED));
        return tell_listing(closed, rows, text, counts, about, report);
    };
    let found = rows_over_bytes(alloc, types, &held.object);
    handle.put(alloc, held);
    tell_listing(found, rows, text, counts, about, report)
}
