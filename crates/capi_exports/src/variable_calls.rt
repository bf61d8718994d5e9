//! The calls that read variables.

ghost use Rattle.std.specs.Prelude.{◌≡◌, ◌<◌, not, ◌==◌, IfOk, OnOk, OnErr, IfErr, Ok};
ghost use Rattle.capi_rows.specs.Answers.{FillsList, FillsListing, or_memory};
ghost use Rattle.capi_exports.specs.PassOrder.{CannotSet, HasSetting, object_in};
ghost use Rattle.capi_exports.specs.Settings.{one_value, CannotPatch, HasPatched};
ghost use Rattle.ebpf_object.specs.Patches.{globals_of};
ghost use Rattle.capi_rows.specs.Handles.{Changes, IsRefused, WhyHeld};
ghost use Rattle.capi_rows.specs.Reads.{of_open};
ghost use Rattle.capi_rows.specs.Variables.{read_value, variable_list};

use crate::handle::ebpf_handle;
use crate::held::{Held, fault_of_setting};
use capi_rows::buffers::{ebpf_counts, write_all};
use capi_rows::codes::{BAD_NAME, CLOSED, DONE, MEMORY};
use capi_rows::faults::parse_refusal;
use capi_rows::reads::text_of;
use capi_rows::refusal::{Refusal, ebpf_refusal, reported_number, tell};
use capi_rows::variables::{ebpf_variable, put_over, write_value};
use ebpf_object::{Object, symbol_indices};
use std::alloc::{AllocError, Global};
use std::collections::HashMap;

/// The value of one variable by its name.
fn one_value<'a>(
    alloc: Global,
    name: &'a str,
    value: &'a [u8],
    must_exist: bool,
) -> Result<HashMap<&'a str, (&'a [u8], bool)>, AllocError>
    ensures { IfOk result (λ globals.
        globals_of globals.entries ≡ one_value name.now value.now must_exist) }
{
    let mut globals = HashMap::new(alloc);
    put_over(&mut globals, name, (value, must_exist))?;
    Ok(globals)
}

/// Writes the value of a variable into the data of the map that holds it.
fn set_value(
    alloc: Global,
    object: &mut Object,
    name: &[u8],
    value: &[u8],
    must_exist: bool,
) -> Result<(), Refusal>
    ensures ok { OnOk result (HasPatched name.now value.now must_exist object.old object.new) }
    ensures unchanged { OnErr result (object.new ≡ object.old) }
    ensures why { IfErr result (CannotPatch name.now value.now must_exist object.old) }
    ensures refuses { IfErr result (λ r. 0 < r.number) }
{
    let Some(name) = text_of(name) else {
        return Err(Refusal::plain(BAD_NAME));
    };
    let Ok(globals) = one_value(alloc, name, value, must_exist) else {
        return Err(Refusal::plain(MEMORY));
    };
    match object.patch_map_data(globals) {
        Ok(()) => Ok(()),
        Err(error) => Err(parse_refusal(error)),
    }
}

/// Sets the value of a variable, before a pass.
fn set_held_value(
    alloc: Global,
    held: &mut Held,
    name: &[u8],
    value: &[u8],
    must_exist: bool,
) -> Result<(), Refusal>
    ensures ok { OnOk result
        (HasSetting (HasPatched name.now value.now must_exist) held.old held.new) }
    ensures unchanged { OnErr result (held.new ≡ held.old) }
    ensures why { IfErr result (CannotSet (CannotPatch name.now value.now must_exist) held.old) }
    ensures refuses { IfErr result (λ r. 0 < r.number) }
{
    if let Some(number) = fault_of_setting(held.last) {
        return Err(Refusal::plain(number));
    }
    set_value(alloc, &mut held.object, name, value, must_exist)
}

/// Writes the value of a variable into the data of the map that holds it. Of symbols with the name the one with the
/// greatest number counts. Where there is none and `must_exist` is 0, all stays.
///
/// # Answers
///
/// 0; 2; 3 where the handle is closed; then 12 where a pass was made; then 6 where the name is no text; then 150 to 152
/// for the fault, about the variable. What the handle holds is then as it was.
#[unsafe(no_mangle)]
pub extern "C" fn exact_ebpf_set_value(
    alloc: Global,
    handle: &mut ebpf_handle,
    name: &[u8],
    value: &[u8],
    must_exist: u32,
    about: &mut [u8],
    report: &mut ebpf_refusal,
) -> u32
    ensures patched { result ≡ DONE
        → Changes (HasSetting (HasPatched name.now value.now (not (must_exist == 0))))
        handle.old.held
        handle.new.held }
    ensures quiet { result ≡ DONE → (about.new ≡ about.old) × (report.new ≡ report.old) }
    ensures refused { ¬ (result ≡ DONE)
        → IsRefused
        (WhyHeld handle.old.held
        (CannotSet (CannotPatch name.now value.now (not (must_exist == 0)))))
        result handle.old.held handle.new.held about.old about.new report.new }
{
    let Some(mut held) = handle.take(alloc) else {
        return tell(&Refusal::plain(CLOSED), about, report);
    };
    let answer = set_held_value(alloc, &mut held, name, value, must_exist != 0);
    handle.put(alloc, held);
    reported_number(answer, about, report)
}

/// Lists the variables of an object, as `ebpf_variables` does.
fn write_variables(
    alloc: Global,
    object: &Object,
    rows: &mut [ebpf_variable],
    text: &mut [u8],
    counts: &mut ebpf_counts,
) -> u32
    ensures { FillsListing (or_memory result (Ok (variable_list object.now))) result rows.old
        rows.new text.old text.new counts.old counts.new }
{
    let Ok(names) = symbol_indices(alloc, &object.symbol_table) else {
        return MEMORY;
    };
    write_all(alloc, object, &names, rows, text, counts)
}

/// Lists the variables of an object: a row each in byte order of their names; in `text` the name of each and then that
/// of its map, a zero byte behind each. They are the symbols whose bytes, of which there are some, are inside the data
/// of a map. The map is the first by name that the symbol's section has; of symbols of one name that with the greatest
/// index counts.
///
/// # Answers
///
/// 0; 1 where not all fits; 2; 3. The buffers are then as they were, and `counts` too but for 1.
#[unsafe(no_mangle)]
pub extern "C" fn exact_ebpf_variables(
    alloc: Global,
    handle: &mut ebpf_handle,
    rows: &mut [ebpf_variable],
    text: &mut [u8],
    counts: &mut ebpf_counts,
) -> u32
    ensures stays { handle.new.held ≡ handle.old.held }
    ensures fills { FillsListing
        (of_open (λ o. or_memory result (Ok (variable_list o))) (object_in handle.old.held)) result
        rows.old rows.new text.old text.new counts.old counts.new }
{
    let Some(held) = handle.take(alloc) else {
        return CLOSED;
    };
    let number = write_variables(alloc, &held.object, rows, text, counts);
    handle.put(alloc, held);
    number
}

/// Writes the bytes of a variable as they stand in the data of its map, and how many they are. Of symbols with the name
/// that with the greatest index counts.
///
/// # Answers
///
/// 0; 1 where they don't fit; 2; 3; 10 where no symbol has the name, or its bytes are not inside the data of a map. The
/// buffer is then as it was, and `len` too but for 1.
#[unsafe(no_mangle)]
pub extern "C" fn exact_ebpf_value(
    alloc: Global,
    handle: &mut ebpf_handle,
    name: &[u8],
    value: &mut [u8],
    len: &mut usize,
) -> u32
    ensures stays { handle.new.held ≡ handle.old.held }
    ensures fills { FillsList (of_open (λ o. or_memory result (read_value name.now o))
        (object_in handle.old.held))
        result value.old value.new len.old len.new }
{
    let Some(held) = handle.take(alloc) else {
        return CLOSED;
    };
    let number = write_value(&held.object, name, value, len);
    handle.put(alloc, held);
    number
}
