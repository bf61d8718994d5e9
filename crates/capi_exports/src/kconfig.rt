//! The externs that the kernel's configuration gives: listed, their values, and defined.

ghost use Rattle.std.specs.Prelude.{◌≡◌, MatchResult, Result, IfOk, IfErr, Option, List, ℕ, ◌<◌, OnOk, OnErr};
ghost use Rattle.std.specs.List.{find};
ghost use Rattle.std.specs.Option.{option_copied};
ghost use Rattle.std.specs.Str.{bytes_eq};
ghost use Rattle.capi_rows.specs.Answers.{Listed, told_listing, LeavesListing, LeavesList, LeavesValue};
ghost use Rattle.capi_exports.specs.PassOrder.{CannotSet, HasSetting, object_in};
ghost use Rattle.capi_rows.specs.Handles.{FindsHeld, Changes, IsRefused, WhyHeld};
ghost use Rattle.capi_rows.specs.Kconfig.{CannotListKconfig, IsKconfigList, extern_named, CannotConfigure, CannotFindExtern, CannotNumber, IsConfigured, IsNumbered, IsWanted, CannotDefine, HasDefined};
ghost use Rattle.capi_rows.specs.declared.variables.ebpf_kconfig_extern.{ebpf_kconfig_extern};
ghost use Rattle.capi_rows.specs.declared.refusal.Refusal.{Refusal};

use crate::handle::ebpf_handle;
use crate::held::{Held, fault_of_setting};
use capi_rows::buffers::{Listing, ebpf_counts, list_all, tell_items, tell_listing, tell_value};
use capi_rows::codes::{BAD_NAME, BAD_VALUE, CLOSED, DONE, MEMORY, NO_EXTERN};
use capi_rows::reads::{given_values, text_of};
use capi_rows::refusal::{Refusal, ebpf_refusal, reported_number, tell};
use capi_rows::refusals::kconfig_refusal;
use capi_rows::variables::{are_named, ebpf_kconfig_extern, ebpf_value, have_values};
use ebpf_base::Items;
use ebpf_kconfig::{KconfigExtern, define_kconfig, kconfig, kconfig_number, kconfig_value};
use ebpf_object::Object;
use std::alloc::Global;

/// Lists the externs of an object.
fn list_kconfig(alloc: Global, object: &Object) -> Result<Listing<ebpf_kconfig_extern>, Refusal>
    ensures { MatchResult (told_listing result) (IsKconfigList object.now)
        (CannotListKconfig object.now) }
{
    let externs = match kconfig(object) {
        Ok(externs) => externs,
        Err(error) => return Err(kconfig_refusal(error)),
    };
    Ok(list_all(alloc, &(), externs.as_slice())?)
}

/// Lists the externs of an object that the kernel's configuration gives: a row each in the order in which the types of
/// the object name them, and the names in `text`, a zero byte behind each.
///
/// # Answers
///
/// 0; 1 where not all fits; 2; 3 where the handle is closed; 900 to 903 for the first extern that can't be listed,
/// about it where its name can be read. The buffers are then as they were, and `counts` too but for 1.
#[unsafe(no_mangle)]
pub extern "C" fn exact_ebpf_kconfig(
    alloc: Global,
    handle: &mut ebpf_handle,
    rows: &mut [ebpf_kconfig_extern],
    text: &mut [u8],
    counts: &mut ebpf_counts,
    about: &mut [u8],
    report: &mut ebpf_refusal,
) -> u32
    ensures stays { handle.new.held ≡ handle.old.held }
    ensures listed { (found : Result (Listed ebpf_kconfig_extern) Refusal)
        × FindsHeld IsKconfigList CannotListKconfig (object_in handle.old.held) found
        × LeavesListing found result rows.old rows.new text.old text.new counts.old counts.new
        about.old about.new report.old report.new }
{
    let Some(held) = handle.take(alloc) else {
        let closed = Err(Refusal::plain(CLOSED));
        return tell_listing(closed, rows, text, counts, about, report);
    };
    let found = list_kconfig(alloc, &held.object);
    handle.put(alloc, held);
    tell_listing(found, rows, text, counts, about, report)
}

/// The first extern of a name.
fn first_named<'a>(externs: &'a [KconfigExtern], name: &str) -> Option<&'a KconfigExtern>
    ensures { option_copied result ≡ find (λ e. bytes_eq e.name name.now) externs.now }
{
    externs.iter().find(|wanted| wanted.name.as_str() == name)
}

/// The first extern that some bytes name. Bytes that are no text name none.
fn extern_named<'a>(externs: &'a [KconfigExtern], name: &[u8]) -> Option<&'a KconfigExtern>
    ensures { option_copied result ≡ extern_named externs.now name.now }
{
    match text_of(name) {
        Some(name) => first_named(externs, name),
        None => None,
    }
}

/// A copy of the first extern of an object that some bytes name.
fn wanted_extern(object: &Object, name: &[u8]) -> Result<KconfigExtern, Refusal>
    ensures wanted { IfOk result (IsWanted name.now object.now) }
    ensures why { IfErr result (CannotFindExtern name.now object.now) }
{
    let externs = match kconfig(object) {
        Ok(externs) => externs,
        Err(error) => return Err(kconfig_refusal(error)),
    };
    let Some(wanted) = extern_named(externs.as_slice(), name) else {
        return Err(Refusal::plain(NO_EXTERN));
    };
    Ok(wanted.clone()?)
}

/// The value of the extern of a name by a kernel's configuration as text.
fn configured_value(
    alloc: Global,
    object: &Object,
    name: &[u8],
    config: &[u8],
) -> Result<Option<Items<u8>>, Refusal>
    ensures { MatchResult result (IsConfigured name.now config.now object.now)
        (CannotConfigure name.now config.now object.now) }
{
    let wanted = wanted_extern(object, name)?;
    match kconfig_value(alloc, config, &wanted, object.endianness) {
        Ok(value) => Ok(value),
        Err(error) => Err(kconfig_refusal(error)),
    }
}

/// The value that a number is to the extern of a name.
fn number_value(
    alloc: Global,
    object: &Object,
    name: &[u8],
    number: u64,
) -> Result<Items<u8>, Refusal>
    ensures { MatchResult result (IsNumbered name.now number object.now)
        (CannotNumber name.now number object.now) }
{
    let wanted = wanted_extern(object, name)?;
    match kconfig_number(alloc, number, &wanted, object.endianness) {
        Ok(value) => Ok(value),
        Err(error) => Err(kconfig_refusal(error)),
    }
}

/// Writes the value of an extern that the kernel's configuration gives, by that configuration as text, and its length,
/// and whether there is one: 1 or 0. The first line that begins with the extern's name and `=` counts; there is none
/// for names that don't begin with `CONFIG_`. Of externs of one name the first counts. The bytes are in the object's
/// byte order.
///
/// # Answers
///
/// 0; 1 where the value doesn't fit; 2; 3 where the handle is closed; 900 to 903 where the externs can't be listed;
/// then 8 where none has the name; then 907 where what the line says doesn't suit the extern's type, 908 where its
/// number is out of range, both about the extern. The buffer is then as it was, and `len` and `is_found` too but for 1.
#[unsafe(no_mangle)]
pub extern "C" fn exact_ebpf_kconfig_value(
    alloc: Global,
    handle: &mut ebpf_handle,
    name: &[u8],
    config: &[u8],
    value: &mut [u8],
    len: &mut usize,
    is_found: &mut u32,
    about: &mut [u8],
    report: &mut ebpf_refusal,
) -> u32
    ensures stays { handle.new.held ≡ handle.old.held }
    ensures value { (found : Result (Option (List ℕ)) Refusal)
        × FindsHeld (IsConfigured name.now config.now) (CannotConfigure name.now config.now)
        (object_in handle.old.held) found
        × LeavesValue found result value.old value.new len.old len.new is_found.old is_found.new
        about.old about.new report.old report.new }
{
    let Some(held) = handle.take(alloc) else {
        let closed = Err(Refusal::plain(CLOSED));
        return tell_value(alloc, closed, value, len, is_found, about, report);
    };
    let found = configured_value(alloc, &held.object, name, config);
    handle.put(alloc, held);
    tell_value(alloc, found, value, len, is_found, about, report)
}

/// Writes the value that a number is to an extern that the kernel's configuration gives, and its length. Of externs of
/// one name the first counts. The bytes are in the object's byte order.
///
/// # Answers
///
/// 0; 1 where the value doesn't fit; 2; 3 where the handle is closed; 900 to 903 where the externs can't be listed;
/// then 8 where none has the name; then 907 where the extern is neither a number nor a bool, 908 where the number is
/// out of its range, both about the extern. The buffer is then as it was, and `len` too but for 1.
#[unsafe(no_mangle)]
pub extern "C" fn exact_ebpf_kconfig_number(
    alloc: Global,
    handle: &mut ebpf_handle,
    name: &[u8],
    number: u64,
    value: &mut [u8],
    len: &mut usize,
    about: &mut [u8],
    report: &mut ebpf_refusal,
) -> u32
    ensures stays { handle.new.held ≡ handle.old.held }
    ensures value { (found : Result (List ℕ) Refusal)
        × FindsHeld (IsNumbered name.now number) (CannotNumber name.now number)
        (object_in handle.old.held)
        found
        × LeavesList found result value.old value.new len.old len.new about.old about.new report.old
        report.new }
{
    let Some(held) = handle.take(alloc) else {
        let closed = Err(Refusal::plain(CLOSED));
        return tell_items(closed, value, len, about, report);
    };
    let found = number_value(alloc, &held.object, name, number);
    handle.put(alloc, held);
    tell_items(found, value, len, about, report)
}

/// Defines the externs of an object by rows of values.
fn define_by_rows(
    alloc: Global,
    object: &mut Object,
    rows: &[ebpf_value],
    text: &[u8],
    bytes: &[u8],
) -> Result<(), Refusal>
    ensures ok { OnOk result (HasDefined rows.now text.now bytes.now object.old object.new) }
    ensures unchanged { OnErr result (object.new ≡ object.old) }
    ensures why { IfErr result (CannotDefine rows.now text.now bytes.now object.old) }
    ensures refuses { IfErr result (λ r. 0 < r.number) }
{
    if !are_named(rows, text) {
        return Err(Refusal::plain(BAD_NAME));
    }
    if !have_values(rows, bytes) {
        return Err(Refusal::plain(BAD_VALUE));
    }
    let values = given_values(alloc, rows, text, bytes)?;
    match define_kconfig(object, &values) {
        Ok(()) => Ok(()),
        Err(error) => Err(kconfig_refusal(error)),
    }
}

/// Defines externs by rows of values, before a pass.
fn define_held(
    alloc: Global,
    held: &mut Held,
    rows: &[ebpf_value],
    text: &[u8],
    bytes: &[u8],
) -> Result<(), Refusal>
    ensures ok { OnOk result
        (HasSetting (HasDefined rows.now text.now bytes.now) held.old held.new) }
    ensures unchanged { OnErr result (held.new ≡ held.old) }
    ensures why { IfErr result (CannotSet (CannotDefine rows.now text.now bytes.now) held.old) }
    ensures refuses { IfErr result (λ r. 0 < r.number) }
{
    if let Some(number) = fault_of_setting(held.last) {
        return Err(Refusal::plain(number));
    }
    define_by_rows(alloc, &mut held.object, rows, text, bytes)
}

/// Defines the externs of what a handle holds that the kernel's configuration gives: their values stand in a map
/// `.kconfig`, and their symbols in it. Each row says where its extern's name stands in `text`, and where its value
/// stands in `bytes`; its `must_exist` is not looked at. Of rows of one name the last one counts, and a name that no
/// extern has is passed over. A weak extern without a value is zeros. Where there are no such externs all stays.
///
/// # Answers
///
/// 0; 2; 3 where the handle is closed; then 12 where a pass was made; then 6 where a row's name is not inside the text
/// or is no text; then 7 where a row's value is not inside the bytes; then 900 to 903 for the first extern that can't
/// be listed; then 904 and 905 for the first without a value or with one of another size, about the extern; then 906
/// where they are too large together. What the handle holds is then as it was.
#[unsafe(no_mangle)]
pub extern "C" fn exact_ebpf_define_kconfig(
    alloc: Global,
    handle: &mut ebpf_handle,
    rows: &[ebpf_value],
    text: &[u8],
    bytes: &[u8],
    about: &mut [u8],
    report: &mut ebpf_refusal,
) -> u32
    ensures defined { result ≡ DONE
        → Changes (HasSetting (HasDefined rows.now text.now bytes.now)) handle.old.held
        handle.new.held }
    ensures quiet { result ≡ DONE → (about.new ≡ about.old) × (report.new ≡ report.old) }
    ensures refused { ¬ (result ≡ DONE)
        → IsRefused (WhyHeld handle.old.held (CannotSet (CannotDefine rows.now text.now
        bytes.now))) result
        handle.old.held handle.new.held about.old about.new report.new }
{
    let Some(mut held) = handle.take(alloc) else {
        return tell(&Refusal::plain(CLOSED), about, report);
    };
    let answer = define_held(alloc, &mut held, rows, text, bytes);
    handle.put(alloc, held);
    reported_number(answer, about, report)
}
