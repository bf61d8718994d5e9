//! Sizes and data of maps, and values of many variables, set before the maps are made.

ghost use Rattle.std.specs.Prelude.{◌≡◌, ◌⊎◌, None, ◌<◌, OnOk, OnErr, IfErr};
ghost use Rattle.capi_exports.specs.PassOrder.{CannotSet, HasSetting, OfHandle, Sets};
ghost use Rattle.capi_exports.specs.Settings.{IsDataSet, SetsData, SetsMap, has_other_length, replaced, with_setting};
ghost use Rattle.ebpf_parts.specs.Maps.{with_max_entries, with_value_size};
ghost use Rattle.capi_rows.specs.Handles.{Changes, IsRefused, WhyHeld, IsSet};
ghost use Rattle.capi_rows.specs.Variables.{CannotPatchAll, HasPatchedAll};

use crate::handle::ebpf_handle;
use crate::held::{Held, fault_of_setting};
use capi_rows::codes::{BAD_NAME, BAD_VALUE, CLOSED, DONE, MEMORY, NO_MAP, WRONG_LENGTH};
use capi_rows::entries::value_by_bytes;
use capi_rows::faults::parse_refusal;
use capi_rows::refusal::{Refusal, ebpf_refusal, reported_number, tell};
use capi_rows::variables::{are_named, ebpf_value, have_values, values_in};
use ebpf_base::ByName;
use ebpf_object::Object;
use ebpf_parts::maps::Map;
use std::alloc::Global;

/// What is set of a map.
#[derive(Clone, Copy)]
pub enum Setting<'a> {
    /// How many entries it holds at most.
    MaxEntries(u32),
    /// The size of its values in bytes.
    ValueSize(u32),
    /// Its data, where it has as many bytes.
    Data(&'a [u8]),
}

/// Puts bytes in the place of as many.
fn replace_bytes(target: &mut Vec<u8>, bytes: &[u8])
    ensures { target.new.items ≡ replaced target.old.items bytes.now }
{
    if target.len() == bytes.len() {
        target.as_mut_slice().copy_from_slice(bytes);
    }
}

/// Sets what is said of a map.
fn set(map: &mut Map, setting: Setting<'_>)
    ensures { map.new ≡ with_setting setting.entry map.old }
{
    match setting {
        Setting::MaxEntries(entries) => map.set_max_entries(entries),
        Setting::ValueSize(size) => map.set_value_size(size),
        Setting::Data(bytes) => replace_bytes(map.data_mut(), bytes),
    }
}

/// Sets what is said of the map of a name.
pub fn set_map(maps: &mut ByName<Map>, name: &[u8], setting: Setting<'_>) -> u32
    ensures { IsSet (with_setting setting.entry) name.now maps.old result maps.new }
{
    let Ok(name) = str::from_utf8(name) else {
        return NO_MAP;
    };
    let Some(map) = maps.get_mut(name) else {
        return NO_MAP;
    };
    set(map, setting);
    DONE
}

/// Sets what is said of the map of a name of what a handle holds.
fn set_held(held: &mut Held, name: &[u8], setting: Setting<'_>) -> u32
    ensures { Sets (SetsMap (with_setting setting.entry) name.now) held.old result held.new }
{
    if let Some(number) = fault_of_setting(held.last) {
        return number;
    }
    set_map(&mut held.object.maps, name, setting)
}

/// Sets how many entries a map of what a handle holds takes at most.
///
/// # Answers
///
/// 0; 3 where the handle is closed; 12 where a pass was made; 5 where no map has the name. What the handle holds is
/// then as it was.
#[unsafe(no_mangle)]
pub extern "C" fn exact_ebpf_set_max_entries(
    alloc: Global,
    handle: &mut ebpf_handle,
    name: &[u8],
    entries: u32,
) -> u32
    ensures { OfHandle (Sets (SetsMap (λ m. with_max_entries m entries) name.now)) handle.old.held
        result handle.new.held }
{
    let Some(mut held) = handle.take(alloc) else {
        return CLOSED;
    };
    let number = set_held(&mut held, name, Setting::MaxEntries(entries));
    handle.put(alloc, held);
    number
}

/// Sets the size of the values of a map of what a handle holds, in bytes.
///
/// # Answers
///
/// 0; 3 where the handle is closed; 12 where a pass was made; 5 where no map has the name. What the handle holds is
/// then as it was.
#[unsafe(no_mangle)]
pub extern "C" fn exact_ebpf_set_value_size(
    alloc: Global,
    handle: &mut ebpf_handle,
    name: &[u8],
    size: u32,
) -> u32
    ensures { OfHandle (Sets (SetsMap (λ m. with_value_size m size) name.now)) handle.old.held
        result handle.new.held }
{
    let Some(mut held) = handle.take(alloc) else {
        return CLOSED;
    };
    let number = set_held(&mut held, name, Setting::ValueSize(size));
    handle.put(alloc, held);
    number
}

/// Whether the map that some bytes name has data of another length.
fn has_other_length(maps: &ByName<Map>, name: &[u8], len: usize) -> bool
    ensures { result ≡ has_other_length maps.now name.now len }
{
    match value_by_bytes(maps, name) {
        Some(map) => map.data().len() != len,
        None => false,
    }
}

/// Sets the data of the map of a name, which has as many bytes.
fn set_data(maps: &mut ByName<Map>, name: &[u8], bytes: &[u8]) -> u32
    ensures { IsDataSet bytes.now name.now maps.old result maps.new }
{
    if has_other_length(maps, name, bytes.len()) {
        return WRONG_LENGTH;
    }
    set_map(maps, name, Setting::Data(bytes))
}

/// Sets the data of the map of a name of what a handle holds.
fn set_held_data(held: &mut Held, name: &[u8], bytes: &[u8]) -> u32
    ensures { Sets (SetsData bytes.now name.now) held.old result held.new }
{
    if let Some(number) = fault_of_setting(held.last) {
        return number;
    }
    set_data(&mut held.object.maps, name, bytes)
}

/// Sets all of the initial data of a map of what a handle holds. It has as many bytes as before.
///
/// # Answers
///
/// 0; 3 where the handle is closed; 12 where a pass was made; 5 where no map has the name; 9 where its data has another
/// length. What the handle holds is then as it was.
#[unsafe(no_mangle)]
pub extern "C" fn exact_ebpf_set_map_data(
    alloc: Global,
    handle: &mut ebpf_handle,
    name: &[u8],
    bytes: &[u8],
) -> u32
    ensures { OfHandle (Sets (SetsData bytes.now name.now)) handle.old.held result
        handle.new.held }
{
    let Some(mut held) = handle.take(alloc) else {
        return CLOSED;
    };
    let number = set_held_data(&mut held, name, bytes);
    handle.put(alloc, held);
    number
}

/// Writes the values of variables into the data of the maps that hold them.
fn set_values(
    alloc: Global,
    object: &mut Object,
    rows: &[ebpf_value],
    text: &[u8],
    bytes: &[u8],
) -> Result<(), Refusal>
    ensures ok { OnOk result (HasPatchedAll rows.now text.now bytes.now object.old object.new) }
    ensures unchanged { OnErr result (object.new ≡ object.old) }
    ensures why { IfErr result (CannotPatchAll rows.now text.now bytes.now object.old) }
    ensures refuses { IfErr result (λ r. 0 < r.number) }
{
    if !are_named(rows, text) {
        return Err(Refusal::plain(BAD_NAME));
    }
    if !have_values(rows, bytes) {
        return Err(Refusal::plain(BAD_VALUE));
    }
    let globals = values_in(alloc, rows, text, bytes)?;
    match object.patch_map_data(globals) {
        Ok(()) => Ok(()),
        Err(error) => Err(parse_refusal(error)),
    }
}

/// Sets the values of variables, before a pass.
fn set_held_values(
    alloc: Global,
    held: &mut Held,
    rows: &[ebpf_value],
    text: &[u8],
    bytes: &[u8],
) -> Result<(), Refusal>
    ensures ok { OnOk result
        (HasSetting (HasPatchedAll rows.now text.now bytes.now) held.old held.new) }
    ensures unchanged { OnErr result (held.new ≡ held.old) }
    ensures why { IfErr result (CannotSet (CannotPatchAll rows.now text.now bytes.now) held.old) }
    ensures refuses { IfErr result (λ r. 0 < r.number) }
{
    if let Some(number) = fault_of_setting(held.last) {
        return Err(Refusal::plain(number));
    }
    set_values(alloc, &mut held.object, rows, text, bytes)
}

/// Writes the values of variables into the data of the maps that hold them. Each row says where its variable's name
/// stands in `text`, and where its value stands in `bytes`. Of rows of one name the last one counts. The values are
/// written in byte order of the names, later ones over earlier ones. Of symbols with a name the one with the greatest
/// number counts; where there is none and the row's `must_exist` is 0, the row is passed over. The table of the
/// variables' names is made once for all rows.
///
/// # Answers
///
/// 0; 2; 3 where the handle is closed; then 12 where a pass was made; then 6 where a row's name is not inside the text
/// or is no text; then 7 where a row's value is not inside the bytes; then 150 to 152 for the first fault in byte order
/// of the names, about the variable. What the handle holds is then as it was.
#[unsafe(no_mangle)]
pub extern "C" fn exact_ebpf_set_values(
    alloc: Global,
    handle: &mut ebpf_handle,
    rows: &[ebpf_value],
    text: &[u8],
    bytes: &[u8],
    about: &mut [u8],
    report: &mut ebpf_refusal,
) -> u32
    ensures patched { result ≡ DONE
        → Changes (HasSetting (HasPatchedAll rows.now text.now bytes.now)) handle.old.held
        handle.new.held }
    ensures quiet { result ≡ DONE → (about.new ≡ about.old) × (report.new ≡ report.old) }
    ensures refused { ¬ (result ≡ DONE)
        → IsRefused (WhyHeld handle.old.held (CannotSet (CannotPatchAll rows.now text.now
        bytes.now))) result
        handle.old.held handle.new.held about.old about.new report.new }
{
    let Some(mut held) = handle.take(alloc) else {
        return tell(&Refusal::plain(CLOSED), about, report);
    };
    let answer = set_held_values(alloc, &mut held, rows, text, bytes);
    handle.put(alloc, held);
    reported_number(answer, about, report)
}
