//! A file, and an object that a handle holds, prepared in one call over a kernel's types that another handle holds.

ghost use Rattle.std.specs.Prelude.{◌≡◌, ◌<◌, IfOk, IfErr, OnOk, OnErr};
ghost use Rattle.capi_rows.specs.Handles.{IsRefused, Changes, WhyHeld};
ghost use Rattle.capi_exports.specs.KernelHandles.{OfTypes, WhyOfTypes};
ghost use Rattle.capi_exports.specs.KernelPasses.{CannotPrepareHeldTo, CannotPrepareTo, HasPreparedHeldTo, IsPreparedTo, IsPreparedToIn, given_inputs};
ghost use Rattle.capi_exports.specs.PassOrder.{CannotPass, HasPassed};
ghost use Rattle.capi_exports.specs.declared.held.Pass.TheVariants.{Types, Calls};

use crate::handle::ebpf_handle;
use crate::held::{Held, Pass, fault_of_pass};
use crate::kernel::ebpf_types;
use capi_rows::codes::{BAD_NAME, CLOSED, DONE};
use capi_rows::reads::{descriptors_in, ebpf_descriptor, have_names};
use capi_rows::refusal::{Refusal, ebpf_refusal, reported_number, tell};
use capi_rows::refusals::prepare_refusal;
use ebpf_btf::Btf;
use ebpf_object::Object;
use ebpf_object::prepare::{Steps, SymbolText, prepare, prepare_in_place};
use std::alloc::Global;

/// The object of a file after all passes over a kernel's types, in a box.
fn prepare_box_to(
    alloc: Global,
    file: &[u8],
    kernel: &Btf,
    rows: &[ebpf_descriptor],
    text: &[u8],
    symbols: &[u8],
) -> Result<Box<Held>, Refusal>
    ensures prepared { IfOk result (λ b.
        IsPreparedTo kernel.now file.now (given_inputs rows.now text.now symbols.now) b.value) }
    ensures why { IfErr result
        (CannotPrepareTo kernel.now file.now (given_inputs rows.now text.now symbols.now)) }
    ensures refuses { IfErr result (λ r. 0 < r.number) }
{
    if !have_names(rows, text) {
        return Err(Refusal::plain(BAD_NAME));
    }
    let descriptors = descriptors_in(alloc, rows, text)?;
    let steps = Steps::all_with(Some(kernel), &descriptors);
    match prepare(alloc, file, &steps, SymbolText(symbols)) {
        Ok(object) => Ok(Box::new(
            alloc,
            Held {
                object,
                last: Some(Pass::Calls),
            },
        )?),
        Err(error) => Err(prepare_refusal(error)),
    }
}

/// Opens the object of a file and prepares it, as `ebpf_prepare_with` does.
fn open_prepared_to(
    alloc: Global,
    file: &[u8],
    kernel: &Btf,
    rows: &[ebpf_descriptor],
    text: &[u8],
    symbols: &[u8],
    handle: &mut ebpf_handle,
    about: &mut [u8],
    report: &mut ebpf_refusal,
) -> u32
    ensures prepared { result ≡ DONE
        → IsPreparedToIn file.now (given_inputs rows.now text.now symbols.now) handle.new.held
        kernel.now }
    ensures quiet { result ≡ DONE → (about.new ≡ about.old) × (report.new ≡ report.old) }
    ensures refused { ¬ (result ≡ DONE)
        → IsRefused
        (CannotPrepareTo kernel.now file.now (given_inputs rows.now text.now symbols.now))
        result handle.old.held handle.new.held about.old about.new report.new }
{
    match prepare_box_to(alloc, file, kernel, rows, text, symbols) {
        Ok(held) => {
            handle.put(alloc, held);
            DONE
        }
        Err(refusal) => tell(&refusal, about, report),
    }
}

/// Opens the object of a file, and runs the passes over it: as `ebpf_prepare` over the bytes that the kernel's types were
/// read from. What the handle held before is closed.
///
/// # Answers
///
/// 0; 2; 3 where the handle of types is closed; 6 where a row's name is not inside the text or is no text; then the number
/// of the fault of the first stage that has one, as of the calls for the stages. The handle is then as it was.
#[unsafe(no_mangle)]
pub extern "C" fn exact_ebpf_prepare_with(
    alloc: Global,
    file: &[u8],
    kernel: &mut ebpf_types,
    rows: &[ebpf_descriptor],
    text: &[u8],
    symbols: &[u8],
    handle: &mut ebpf_handle,
    about: &mut [u8],
    report: &mut ebpf_refusal,
) -> u32
    ensures stays { kernel.new.held ≡ kernel.old.held }
    ensures prepared { result ≡ DONE
        → OfTypes
        (IsPreparedToIn file.now (given_inputs rows.now text.now symbols.now) handle.new.held)
        kernel.old.held }
    ensures quiet { result ≡ DONE → (about.new ≡ about.old) × (report.new ≡ report.old) }
    ensures refused { ¬ (result ≡ DONE)
        → IsRefused
        (WhyOfTypes (λ t.
        CannotPrepareTo t file.now (given_inputs rows.now text.now symbols.now))
        kernel.old.held) result
        handle.old.held handle.new.held about.old about.new report.new }
{
    let Some(types) = kernel.take(alloc) else {
        return tell(&Refusal::plain(CLOSED), about, report);
    };
    let number = open_prepared_to(
        alloc,
        file,
        &types.types,
        rows,
        text,
        symbols,
        handle,
        about,
        report,
    );
    kernel.put(alloc, types);
    number
}

/// Runs all passes over an object where it stands.
fn prepare_object_to(
    alloc: Global,
    object: &mut Object,
    kernel: &Btf,
    rows: &[ebpf_descriptor],
    text: &[u8],
    symbols: &[u8],
) -> Result<(), Refusal>
    ensures ok { OnOk result
        (HasPreparedHeldTo kernel.now (given_inputs rows.now text.now symbols.now) object.old
        object.new) }
    ensures unchanged { OnErr result (object.new ≡ object.old) }
    ensures why { IfErr result
        (CannotPrepareHeldTo kernel.now (given_inputs rows.now text.now symbols.now)
        object.old) }
    ensures refuses { IfErr result (λ r. 0 < r.number) }
{
    if !have_names(rows, text) {
        return Err(Refusal::plain(BAD_NAME));
    }
    let descriptors = descriptors_in(alloc, rows, text)?;
    let steps = Steps::all_with(Some(kernel), &descriptors);
    match prepare_in_place(alloc, object, &steps, SymbolText(symbols)) {
        Ok(()) => Ok(()),
        Err(fault) => Err(prepare_refusal(fault)),
    }
}

/// Makes all passes over an object of which none was made.
fn prepare_all_to(
    alloc: Global,
    held: &mut Held,
    kernel: &Btf,
    rows: &[ebpf_descriptor],
    text: &[u8],
    symbols: &[u8],
) -> Result<(), Refusal>
    ensures ok { OnOk result (HasPassed Types Calls
        (HasPreparedHeldTo kernel.now (given_inputs rows.now text.now symbols.now)) held.old
        held.new) }
    ensures unchanged { OnErr result (held.new ≡ held.old) }
    ensures why { IfErr result (CannotPass Types
        (CannotPrepareHeldTo kernel.now (given_inputs rows.now text.now symbols.now))
        held.old) }
    ensures refuses { IfErr result (λ r. 0 < r.number) }
{
    if let Some(number) = fault_of_pass(held.last, Pass::Types) {
        return Err(Refusal::plain(number));
    }
    prepare_object_to(alloc, &mut held.object, kernel, rows, text, symbols)?;
    held.last = Some(Pass::Calls);
    Ok(())
}

/// Prepares what a handle holds, as `ebpf_prepare_handle_with` does.
fn prepare_handle_to(
    alloc: Global,
    handle: &mut ebpf_handle,
    kernel: &Btf,
    rows: &[ebpf_descriptor],
    text: &[u8],
    symbols: &[u8],
    about: &mut [u8],
    report: &mut ebpf_refusal,
) -> u32
    ensures prepared { result ≡ DONE
        → Changes
        (HasPassed Types Calls
        (HasPreparedHeldTo kernel.now (given_inputs rows.now text.now symbols.now)))
        handle.old.held handle.new.held }
    ensures quiet { result ≡ DONE → (about.new ≡ about.old) × (report.new ≡ report.old) }
    ensures refused { ¬ (result ≡ DONE)
        → IsRefused
        (WhyHeld handle.old.held
        (CannotPass Types
        (CannotPrepareHeldTo kernel.now (given_inputs rows.now text.now symbols.now)))) result
        handle.old.held handle.new.held about.old about.new report.new }
{
    let Some(mut held) = handle.take(alloc) else {
        return tell(&Refusal::plain(CLOSED), about, report);
    };
    let answer = prepare_all_to(alloc, &mut held, kernel, rows, text, symbols);
    handle.put(alloc, held);
    reported_number(answer, about, report)
}

/// Runs the passes of `ebpf_prepare` over what a handle holds, whatever was set on it before: as `ebpf_prepare_handle` over
/// the bytes that the kernel's types were read from.
///
/// # Answers
///
/// 0; 2; 3 where one of the handles is closed; then 11 where the pass of types was made and no other, 12 where a later
/// one was; then 6 where a row's name is not inside the text or is no text; then the number of the fault of the first
/// stage that has one, as of the calls for the stages. What the handle holds is then as it was.
#[unsafe(no_mangle)]
pub extern "C" fn exact_ebpf_prepare_handle_with(
    alloc: Global,
    handle: &mut ebpf_handle,
    kernel: &mut ebpf_types,
    rows: &[ebpf_descriptor],
    text: &[u8],
    symbols: &[u8],
    about: &mut [u8],
    report: &mut ebpf_refusal,
) -> u32
    ensures stays { kernel.new.held ≡ kernel.old.held }
    ensures prepared { result ≡ DONE
        → OfTypes (λ t.
        Changes
        (HasPassed Types Calls
        (HasPreparedHeldTo t (given_inputs rows.now text.now symbols.now)))
        handle.old.held handle.new.held) kernel.old.held }
    ensures quiet { result ≡ DONE → (about.new ≡ about.old) × (report.new ≡ report.old) }
    ensures refused { ¬ (result ≡ DONE)
        → IsRefused
        (WhyOfTypes (λ t.
        WhyHeld handle.old.held
        (CannotPass Types
        (CannotPrepareHeldTo t (given_inputs rows.now text.now symbols.now))))
        kernel.old.held) result
        handle.old.held handle.new.held about.old about.new report.new }
{
    let Some(types) = kernel.take(alloc) else {
        return tell(&Refusal::plain(CLOSED), about, report);
    };
    let number = prepare_handle_to(
        alloc,
        handle,
        &types.types,
        rows,
        text,
        symbols,
        about,
        report,
    );
    kernel.put(alloc, types);
    number
}
