//! A file, and an object that a handle holds, prepared in one call.

ghost use Rattle.std.specs.Prelude.{◌≡◌, ◌<◌, IfOk, IfErr, OnOk, OnErr};
ghost use Rattle.capi_rows.specs.Handles.{IsRefused, Changes, WhyHeld};
ghost use Rattle.capi_exports.specs.PassOrder.{CannotPass, HasPassed};
ghost use Rattle.capi_exports.specs.declared.held.Pass.TheVariants.{Types, Calls};
ghost use Rattle.capi_exports.specs.Passes.{inputs_of, CannotPrepare, IsPreparedAs, IsPreparedIn, CannotPrepareHeld, HasPreparedHeld};

use crate::handle::ebpf_handle;
use crate::held::{Held, Pass, fault_of_pass};
use capi_rows::codes::{BAD_NAME, CLOSED, DONE, MEMORY};
use capi_rows::info::read_types_if;
use capi_rows::reads::{descriptors_in, ebpf_descriptor, have_names};
use capi_rows::refusal::{Refusal, ebpf_refusal, reported_number, tell};
use capi_rows::refusals::prepare_refusal;
use ebpf_object::Object;
use ebpf_object::prepare::{Steps, SymbolText, prepare, prepare_in_place};
use std::alloc::Global;

/// The object of a file after all passes, in a box.
fn prepare_box(
    alloc: Global,
    file: &[u8],
    types: &[u8],
    rows: &[ebpf_descriptor],
    text: &[u8],
    symbols: &[u8],
) -> Result<Box<Held>, Refusal>
    ensures prepared { IfOk result (λ b.
        IsPreparedAs file.now (inputs_of types.now rows.now text.now symbols.now) b.value) }
    ensures why { IfErr result
        (CannotPrepare file.now (inputs_of types.now rows.now text.now symbols.now)) }
    ensures refuses { IfErr result (λ r. 0 < r.number) }
{
    if !have_names(rows, text) {
        return Err(Refusal::plain(BAD_NAME));
    }
    let kernel = read_types_if(alloc, types)?;
    let descriptors = descriptors_in(alloc, rows, text)?;
    let steps = Steps::all_with(kernel.as_ref(), &descriptors);
    match prepare(alloc, file, &steps, SymbolText(symbols)) {
        Ok(object) => Ok(Box::new(
            alloc,
            Held {
                object,
                last: Some(Pass::Calls),
            },
        )?),
        Err(error) => Err(prepare_refusal(error)),
    }
}

/// Opens the object of a file, and runs the passes over it: functions are relocated to a kernel's types, descriptors of
/// maps are written, externs are found and written, programs are linked with the functions that they reach. Where there
/// are no bytes of types, functions are not relocated, and externs are looked up in the symbols alone. What the handle
/// held before is closed.
///
/// # Answers
///
/// 0; 2; 6 where a row's name is not inside the text or is no text; then 200 to 214 where the types can't be read; then
/// the number of the fault of the first stage that has one, as of the calls for the stages. The handle is then as it
/// was.
#[unsafe(no_mangle)]
pub extern "C" fn exact_ebpf_prepare(
    alloc: Global,
    file: &[u8],
    types: &[u8],
    rows: &[ebpf_descriptor],
    text: &[u8],
    symbols: &[u8],
    handle: &mut ebpf_handle,
    about: &mut [u8],
    report: &mut ebpf_refusal,
) -> u32
    ensures prepared { result ≡ DONE
        → IsPreparedIn file.now (inputs_of types.now rows.now text.now symbols.now)
        handle.new.held }
    ensures quiet { result ≡ DONE → (about.new ≡ about.old) × (report.new ≡ report.old) }
    ensures refused { ¬ (result ≡ DONE)
        → IsRefused (CannotPrepare file.now (inputs_of types.now rows.now text.now symbols.now))
        result handle.old.held handle.new.held about.old about.new report.new }
{
    match prepare_box(alloc, file, types, rows, text, symbols) {
        Ok(held) => {
            handle.put(alloc, held);
            DONE
        }
        Err(refusal) => tell(&refusal, about, report),
    }
}

/// Runs all passes over an object where it stands.
fn prepare_held(
    alloc: Global,
    object: &mut Object,
    types: &[u8],
    rows: &[ebpf_descriptor],
    text: &[u8],
    symbols: &[u8],
) -> Result<(), Refusal>
    ensures ok { OnOk result
        (HasPreparedHeld (inputs_of types.now rows.now text.now symbols.now) object.old
        object.new) }
    ensures unchanged { OnErr result (object.new ≡ object.old) }
    ensures why { IfErr result
        (CannotPrepareHeld (inputs_of types.now rows.now text.now symbols.now) object.old) }
    ensures refuses { IfErr result (λ r. 0 < r.number) }
{
    if !have_names(rows, text) {
        return Err(Refusal::plain(BAD_NAME));
    }
    let kernel = read_types_if(alloc, types)?;
    let descriptors = descriptors_in(alloc, rows, text)?;
    let steps = Steps::all_with(kernel.as_ref(), &descriptors);
    match prepare_in_place(alloc, object, &steps, SymbolText(symbols)) {
        Ok(()) => Ok(()),
        Err(fault) => Err(prepare_refusal(fault)),
    }
}

/// Makes all passes over an object of which none was made.
fn prepare_all(
    alloc: Global,
    held: &mut Held,
    types: &[u8],
    rows: &[ebpf_descriptor],
    text: &[u8],
    symbols: &[u8],
) -> Result<(), Refusal>
    ensures ok { OnOk result (HasPassed Types Calls
        (HasPreparedHeld (inputs_of types.now rows.now text.now symbols.now)) held.old held.new) }
    ensures unchanged { OnErr result (held.new ≡ held.old) }
    ensures why { IfErr result (CannotPass Types
        (CannotPrepareHeld (inputs_of types.now rows.now text.now symbols.now)) held.old) }
    ensures refuses { IfErr result (λ r. 0 < r.number) }
{
    if let Some(number) = fault_of_pass(held.last, Pass::Types) {
        return Err(Refusal::plain(number));
    }
    prepare_held(alloc, &mut held.object, types, rows, text, symbols)?;
    held.last = Some(Pass::Calls);
    Ok(())
}

/// Runs the passes of `ebpf_prepare` over what a handle holds, whatever was set on it before. Where there are no bytes
/// of types, functions are not relocated, and externs are looked up in the symbols alone.
///
/// # Answers
///
/// 0; 2; 3 where the handle is closed; then 11 where the pass of types was made and no other, 12 where a later one was;
/// then 6 where a row's name is not inside the text or is no text; then 200 to 214 where the types can't be read; then
/// the number of the fault of the first stage that has one, as of the calls for the stages. What the handle holds is
/// then as it was.
#[unsafe(no_mangle)]
pub extern "C" fn exact_ebpf_prepare_handle(
    alloc: Global,
    handle: &mut ebpf_handle,
    types: &[u8],
    rows: &[ebpf_descriptor],
    text: &[u8],
    symbols: &[u8],
    about: &mut [u8],
    report: &mut ebpf_refusal,
) -> u32
    ensures prepared { result ≡ DONE
        → Changes
        (HasPassed Types Calls
        (HasPreparedHeld (inputs_of types.now rows.now text.now symbols.now)))
        handle.old.held handle.new.held }
    ensures quiet { result ≡ DONE → (about.new ≡ about.old) × (report.new ≡ report.old) }
    ensures refused { ¬ (result ≡ DONE)
        → IsRefused
        (WhyHeld handle.old.held
        (CannotPass Types
        (CannotPrepareHeld (inputs_of types.now rows.now text.now symbols.now)))) result
        handle.old.held handle.new.held about.old about.new report.new }
{
    let Some(mut held) = handle.take(alloc) else {
        return tell(&Refusal::plain(CLOSED), about, report);
    };
    let answer = prepare_all(alloc, &mut held, types, rows, text, symbols);
    handle.put(alloc, held);
    reported_number(answer, about, report)
}
