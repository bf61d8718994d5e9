//! The passes over an object that a handle holds, but that of calls.

ghost use Rattle.std.specs.Prelude.{◌≡◌, ◌<◌, OnOk, OnErr, IfErr, ◌⊎◌, not, ◌==◌, None};
ghost use Rattle.capi_exports.specs.Passes.{CannotRelocateTypes, CannotResolve, CannotWriteExterns, HasRelocatedTypes, HasResolved, HasWrittenExterns};
ghost use Rattle.capi_rows.specs.Descriptors.{CannotWriteMapFds, HasWrittenMapFds};
ghost use Rattle.capi_exports.specs.PassOrder.{CannotPass, HasPassed, OfHandle, Sets};
ghost use Rattle.capi_exports.specs.Settings.{HasSanitized, IsSanitized};
ghost use Rattle.capi_exports.specs.declared.held.Pass.TheVariants.{Types, Maps, Resolution, Externs};
ghost use Rattle.capi_rows.specs.Handles.{Changes, IsRefused, WhyHeld};

use crate::handle::ebpf_handle;
use crate::held::{Held, Pass, fault_of_pass, fault_of_setting};
use capi_rows::codes::{BAD_NAME, CLOSED, DONE, MEMORY};
use capi_rows::faults::slot_refusal;
use capi_rows::info::{read_types, read_types_if};
use capi_rows::reads::{descriptors_in, ebpf_descriptor, have_names};
use capi_rows::refusal::{Refusal, ebpf_refusal, reported_number, tell};
use capi_rows::refusals::{ksyms_refusal, prepare_refusal, types_refusal};
use ebpf_object::Object;
use ebpf_object::prepare::relocate_complete_maps;
use std::alloc::Global;

/// Relocates the functions of an object to the types that the bytes spell.
fn relocate_types(alloc: Global, object: &mut Object, types: &[u8]) -> Result<(), Refusal>
    ensures ok { OnOk result (HasRelocatedTypes types.now object.old object.new) }
    ensures unchanged { OnErr result (object.new ≡ object.old) }
    ensures why { IfErr result (CannotRelocateTypes types.now object.old) }
    ensures refuses { IfErr result (λ r. 0 < r.number) }
{
    let target = read_types(alloc, types)?;
    match object.relocate_btf(&target) {
        Ok(()) => Ok(()),
        Err(error) => Err(types_refusal(error)),
    }
}

/// Makes the pass of types.
fn pass_types(alloc: Global, held: &mut Held, types: &[u8]) -> Result<(), Refusal>
    ensures ok { OnOk result
        (HasPassed Types Types (HasRelocatedTypes types.now) held.old held.new) }
    ensures unchanged { OnErr result (held.new ≡ held.old) }
    ensures why { IfErr result (CannotPass Types (CannotRelocateTypes types.now) held.old) }
    ensures refuses { IfErr result (λ r. 0 < r.number) }
{
    if let Some(number) = fault_of_pass(held.last, Pass::Types) {
        return Err(Refusal::plain(number));
    }
    relocate_types(alloc, &mut held.object, types)?;
    held.last = Some(Pass::Types);
    Ok(())
}

/// Relocates the functions of what a handle holds to a kernel's types, which are raw BTF in the byte order that its
/// magic number tells.
///
/// # Answers
///
/// 0; 2; 3 where the handle is closed; then 11 where the pass is the last that was made, 12 where a later one was; 200
/// to 214 where the types can't be read; 220 to 249 for the first record that can't be applied, about its section. What
/// the handle holds is then as it was.
#[unsafe(no_mangle)]
pub extern "C" fn exact_ebpf_relocate_types(
    alloc: Global,
    handle: &mut ebpf_handle,
    types: &[u8],
    about: &mut [u8],
    report: &mut ebpf_refusal,
) -> u32
    ensures relocated { result ≡ DONE
        → Changes (HasPassed Types Types (HasRelocatedTypes types.now)) handle.old.held
        handle.new.held }
    ensures quiet { result ≡ DONE → (about.new ≡ about.old) × (report.new ≡ report.old) }
    ensures refused { ¬ (result ≡ DONE)
        → IsRefused (WhyHeld handle.old.held (CannotPass Types (CannotRelocateTypes types.now)))
        result
        handle.old.held handle.new.held about.old about.new report.new }
{
    let Some(mut held) = handle.take(alloc) else {
        return tell(&Refusal::plain(CLOSED), about, report);
    };
    let answer = pass_types(alloc, &mut held, types);
    handle.put(alloc, held);
    reported_number(answer, about, report)
}

/// Writes the descriptors of maps of an object into the slots that refer to them.
fn write_map_fds(
    alloc: Global,
    object: &mut Object,
    rows: &[ebpf_descriptor],
    text: &[u8],
) -> Result<(), Refusal>
    ensures ok { OnOk result (HasWrittenMapFds rows.now text.now object.old object.new) }
    ensures unchanged { OnErr result (object.new ≡ object.old) }
    ensures why { IfErr result (CannotWriteMapFds rows.now text.now object.old) }
    ensures refuses { IfErr result (λ r. 0 < r.number) }
{
    if !have_names(rows, text) {
        return Err(Refusal::plain(BAD_NAME));
    }
    let descriptors = descriptors_in(alloc, rows, text)?;
    match relocate_complete_maps(alloc, object, &descriptors) {
        Ok(()) => Ok(()),
        Err(error) => Err(prepare_refusal(error)),
    }
}

/// Makes the pass of maps.
fn pass_maps(
    alloc: Global,
    held: &mut Held,
    rows: &[ebpf_descriptor],
    text: &[u8],
) -> Result<(), Refusal>
    ensures ok { OnOk result
        (HasPassed Maps Maps (HasWrittenMapFds rows.now text.now) held.old held.new) }
    ensures unchanged { OnErr result (held.new ≡ held.old) }
    ensures why { IfErr result (CannotPass Maps (CannotWriteMapFds rows.now text.now) held.old) }
    ensures refuses { IfErr result (λ r. 0 < r.number) }
{
    if let Some(number) = fault_of_pass(held.last, Pass::Maps) {
        return Err(Refusal::plain(number));
    }
    write_map_fds(alloc, &mut held.object, rows, text)?;
    held.last = Some(Pass::Maps);
    Ok(())
}

/// Writes the descriptors of maps of what a handle holds into the slots that refer to them. Each row says where its
/// map's name stands in `text`. Each slot's own map has to have a row, and each row a map; of maps of one symbol or one
/// section the later one counts.
///
/// # Answers
///
/// 0; 2; 3 where the handle is closed; then 11 where the pass is the last that was made, 12 where a later one was; then
/// 6 where a row's name is not inside the text or is no text; then 321 for the first row of no map, about its name; then
/// 320 for the first slot whose own map has no row, about the map; then 300 to 311 for the first relocation that can't be
/// applied, about its function. What the handle holds is then as it was.
#[unsafe(no_mangle)]
pub extern "C" fn exact_ebpf_relocate_maps(
    alloc: Global,
    handle: &mut ebpf_handle,
    rows: &[ebpf_descriptor],
    text: &[u8],
    about: &mut [u8],
    report: &mut ebpf_refusal,
) -> u32
    ensures fds_written { result ≡ DONE
        → Changes (HasPassed Maps Maps (HasWrittenMapFds rows.now text.now)) handle.old.held
        handle.new.held }
    ensures quiet { result ≡ DONE → (about.new ≡ about.old) × (report.new ≡ report.old) }
    ensures refused { ¬ (result ≡ DONE)
        → IsRefused (WhyHeld handle.old.held (CannotPass Maps
        (CannotWriteMapFds rows.now text.now))) result
        handle.old.held handle.new.held about.old about.new report.new }
{
    let Some(mut held) = handle.take(alloc) else {
        return tell(&Refusal::plain(CLOSED), about, report);
    };
    let answer = pass_maps(alloc, &mut held, rows, text);
    handle.put(alloc, held);
    reported_number(answer, about, report)
}

/// The number of the first fault of writing externs.
const FIRST_FAULT: u32 = 500;

/// Finds the externs of an object in the types that the bytes spell, if there are any, and in the text of a kernel's
/// symbols.
fn resolve_externs(
    alloc: Global,
    object: &mut Object,
    types: &[u8],
    symbols: &[u8],
) -> Result<(), Refusal>
    ensures ok { OnOk result (HasResolved types.now symbols.now object.old object.new) }
    ensures unchanged { OnErr result (object.new ≡ object.old) }
    ensures why { IfErr result (CannotResolve types.now symbols.now object.old) }
    ensures refuses { IfErr result (λ r. 0 < r.number) }
{
    let kernel = read_types_if(alloc, types)?;
    match object.resolve_text(kernel.as_ref(), symbols) {
        Ok(()) => Ok(()),
        Err(error) => Err(ksyms_refusal(error)),
    }
}

/// Makes the pass that finds externs.
fn pass_resolution(
    alloc: Global,
    held: &mut Held,
    types: &[u8],
    symbols: &[u8],
) -> Result<(), Refusal>
    ensures ok { OnOk result
        (HasPassed Resolution Resolution (HasResolved types.now symbols.now) held.old
        held.new) }
    ensures unchanged { OnErr result (held.new ≡ held.old) }
    ensures why { IfErr result
        (CannotPass Resolution (CannotResolve types.now symbols.now) held.old) }
    ensures refuses { IfErr result (λ r. 0 < r.number) }
{
    if let Some(number) = fault_of_pass(held.last, Pass::Resolution) {
        return Err(Refusal::plain(number));
    }
    resolve_externs(alloc, &mut held.object, types, symbols)?;
    held.last = Some(Pass::Resolution);
    Ok(())
}

/// Finds the externs of what a handle holds in a kernel's types, none where there are no bytes of them, and in its
/// symbols, which are given as the text of /proc/kallsyms.
///
/// # Answers
///
/// 0; 2; 3 where the handle is closed; then 11 where the pass is the last that was made, 12 where a later one was; 200
/// to 214 where the types can't be read; 400 to 434 for the first extern that can't be found, about it, or the first
/// line that can't be read: 406 is of a line that is not UTF-8, where lines are wanted. What the handle holds is then
/// as it was.
#[unsafe(no_mangle)]
pub extern "C" fn exact_ebpf_resolve_externs(
    alloc: Global,
    handle: &mut ebpf_handle,
    types: &[u8],
    symbols: &[u8],
    about: &mut [u8],
    report: &mut ebpf_refusal,
) -> u32
    ensures resolved { result ≡ DONE
        → Changes (HasPassed Resolution Resolution (HasResolved types.now symbols.now))
        handle.old.held handle.new.held }
    ensures quiet { result ≡ DONE → (about.new ≡ about.old) × (report.new ≡ report.old) }
    ensures refused { ¬ (result ≡ DONE)
        → IsRefused (WhyHeld handle.old.held (CannotPass Resolution
        (CannotResolve types.now symbols.now))) result
        handle.old.held handle.new.held about.old about.new report.new }
{
    let Some(mut held) = handle.take(alloc) else {
        return tell(&Refusal::plain(CLOSED), about, report);
    };
    let answer = pass_resolution(alloc, &mut held, types, symbols);
    handle.put(alloc, held);
    reported_number(answer, about, report)
}

/// Writes the externs of an object into the slots that refer to them.
#[tactic(auto, using(crate::proofs::Handles::unnamed))]
fn write_externs(object: &mut Object) -> Result<(), Refusal>
    ensures ok { OnOk result (HasWrittenExterns object.old object.new) }
    ensures unchanged { OnErr result (object.new ≡ object.old) }
    ensures why { IfErr result (CannotWriteExterns object.old) }
    ensures refuses { IfErr result (λ r. 0 < r.number) }
{
    match object.relocate_externs() {
        Ok(()) => Ok(()),
        Err(error) => Err(slot_refusal(FIRST_FAULT, error)),
    }
}

/// Makes the pass that writes externs.
fn pass_externs(held: &mut Held) -> Result<(), Refusal>
    ensures ok { OnOk result (HasPassed Externs Externs HasWrittenExterns held.old held.new) }
    ensures unchanged { OnErr result (held.new ≡ held.old) }
    ensures why { IfErr result (CannotPass Externs CannotWriteExterns held.old) }
    ensures refuses { IfErr result (λ r. 0 < r.number) }
{
    if let Some(number) = fault_of_pass(held.last, Pass::Externs) {
        return Err(Refusal::plain(number));
    }
    write_externs(&mut held.object)?;
    held.last = Some(Pass::Externs);
    Ok(())
}

/// Writes the externs of what a handle holds into the slots that refer to them.
///
/// # Answers
///
/// 0; 2; 3 where the handle is closed; then 11 where the pass is the last that was made, 12 where a later one was; 500
/// to 511 for the first relocation that can't be applied, about its function. What the handle holds is then as it was.
#[unsafe(no_mangle)]
pub extern "C" fn exact_ebpf_relocate_externs(
    alloc: Global,
    handle: &mut ebpf_handle,
    about: &mut [u8],
    report: &mut ebpf_refusal,
) -> u32
    ensures written { result ≡ DONE
        → Changes (HasPassed Externs Externs HasWrittenExterns) handle.old.held handle.new.held }
    ensures quiet { result ≡ DONE → (about.new ≡ about.old) × (report.new ≡ report.old) }
    ensures refused { ¬ (result ≡ DONE)
        → IsRefused (WhyHeld handle.old.held (CannotPass Externs CannotWriteExterns)) result
        handle.old.held
        handle.new.held about.old about.new report.new }
{
    let Some(mut held) = handle.take(alloc) else {
        return tell(&Refusal::plain(CLOSED), about, report);
    };
    let answer = pass_externs(&mut held);
    handle.put(alloc, held);
    reported_number(answer, about, report)
}

/// Makes the functions of an object fit for a kernel that has the newer helper functions, or has them not.
fn sanitize(object: &mut Object, has_newer: bool)
    ensures { HasSanitized has_newer object.old object.new }
{
    object.sanitize_functions(
        || -> bool
            ensures { result ≡ has_newer }
        { has_newer },
    );
}

/// Sets which helper functions the kernel has.
fn set_helpers(held: &mut Held, has_newer: bool) -> u32
    ensures { Sets (IsSanitized has_newer) held.old result held.new }
{
    if let Some(number) = fault_of_setting(held.last) {
        return number;
    }
    sanitize(&mut held.object, has_newer);
    DONE
}

/// Where `has_newer` is 0, puts the helper functions that every kernel has in the places of 112 to 115.
///
/// # Answers
///
/// 0; 3 where the handle is closed; 12 where a pass was made. It is then as it was.
#[unsafe(no_mangle)]
pub extern "C" fn exact_ebpf_sanitize(
    alloc: Global,
    handle: &mut ebpf_handle,
    has_newer: u32,
) -> u32
    ensures { OfHandle (Sets (IsSanitized (not (has_newer == 0)))) handle.old.held result
        handle.new.held }
{
    let Some(mut held) = handle.take(alloc) else {
        return CLOSED;
    };
    let number = set_helpers(&mut held, has_newer != 0);
    handle.put(alloc, held);
    number
}
