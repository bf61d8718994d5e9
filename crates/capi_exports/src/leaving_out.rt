//! Leaving programs out of what a handle holds.

ghost use Rattle.std.specs.Prelude.{◌≡◌, ◌<◌, map, IfOk, OnOk, OnErr, IfErr};
ghost use Rattle.capi_exports.specs.LeavingOut.{CannotLeaveOut, HasLeftOut, leave_out_refusal};
ghost use Rattle.capi_exports.specs.PassOrder.{CannotSet, HasSetting};
ghost use Rattle.capi_rows.specs.Handles.{Changes, IsRefused, WhyHeld};
ghost use Rattle.ebpf_base.specs.Maps.{lent_bytes};
ghost use Rattle.ebpf_object.specs.Stages.{descriptor_of};

use crate::handle::ebpf_handle;
use crate::held::{Held, fault_of_setting};
use capi_rows::codes::{BAD_NAME, CLOSED, DONE, MEMORY, NO_PROGRAM};
use capi_rows::reads::{descriptors_in, ebpf_descriptor, have_names};
use capi_rows::refusal::{Refusal, ebpf_refusal, reported_number, tell};
use ebpf_chosen_programs::{LeaveOutError, leave_out};
use ebpf_object::Object;
use std::alloc::{AllocError, Global};

/// The names of rows.
fn names_of<'a>(alloc: Global, rows: &[(&'a str, i32)]) -> Result<Vec<&'a str>, AllocError>
    ensures { IfOk result (λ names.
        lent_bytes names.items ≡ map (λ d. d.0) (map descriptor_of rows.now)) }
{
    let mut names = Vec::with_capacity(alloc, rows.len())?;
    for (name, _) in rows {
        names.push(*name)?;
    }
    Ok(names)
}

/// The refusal of an error: of a name that no program has about that name.
fn leave_out_refusal(error: LeaveOutError) -> Refusal
    ensures refusal { result ≡ leave_out_refusal error }
    ensures refuses { 0 < result.number }
{
    match error {
        LeaveOutError::UnknownProgram { name } => Refusal::with_name(NO_PROGRAM, name),
        LeaveOutError::OutOfMemory => Refusal::plain(MEMORY),
    }
}

/// Leaves the programs with the names of rows out of an object.
fn leave_out_named(
    alloc: Global,
    object: &mut Object,
    rows: &[ebpf_descriptor],
    text: &[u8],
) -> Result<(), Refusal>
    ensures ok { OnOk result (HasLeftOut rows.now text.now object.old object.new) }
    ensures unchanged { OnErr result (object.new ≡ object.old) }
    ensures why { IfErr result (CannotLeaveOut rows.now text.now object.old) }
    ensures refuses { IfErr result (λ r. 0 < r.number) }
{
    if !have_names(rows, text) {
        return Err(Refusal::plain(BAD_NAME));
    }
    let descriptors = descriptors_in(alloc, rows, text)?;
    let names = names_of(alloc, &descriptors)?;
    match leave_out(alloc, object, &names) {
        Ok(()) => Ok(()),
        Err(error) => Err(leave_out_refusal(error)),
    }
}

/// Leaves programs out, before a pass.
fn leave_out_held(
    alloc: Global,
    held: &mut Held,
    rows: &[ebpf_descriptor],
    text: &[u8],
) -> Result<(), Refusal>
    ensures ok { OnOk result (HasSetting (HasLeftOut rows.now text.now) held.old held.new) }
    ensures unchanged { OnErr result (held.new ≡ held.old) }
    ensures why { IfErr result (CannotSet (CannotLeaveOut rows.now text.now) held.old) }
    ensures refuses { IfErr result (λ r. 0 < r.number) }
{
    if let Some(number) = fault_of_setting(held.last) {
        return Err(Refusal::plain(number));
    }
    leave_out_named(alloc, &mut held.object, rows, text)
}

/// Leaves the programs with the names of rows out of what a handle holds (`ebpf_chosen_programs::leave_out`). Each row
/// says where its program's name stands in `text`; its descriptor is not read.
///
/// # Answers
///
/// 0; 2; 3 where the handle is closed; then 12 where a pass was made; then 6 where a row's name is not inside the text or
/// is no text; then 4 for the first name that no program has, about the name. What the handle holds is then as it was.
#[unsafe(no_mangle)]
pub extern "C" fn exact_ebpf_leave_out(
    alloc: Global,
    handle: &mut ebpf_handle,
    rows: &[ebpf_descriptor],
    text: &[u8],
    about: &mut [u8],
    report: &mut ebpf_refusal,
) -> u32
    ensures left_out { result ≡ DONE
        → Changes (HasSetting (HasLeftOut rows.now text.now)) handle.old.held handle.new.held }
    ensures quiet { result ≡ DONE → (about.new ≡ about.old) × (report.new ≡ report.old) }
    ensures refused { ¬ (result ≡ DONE)
        → IsRefused (WhyHeld handle.old.held (CannotSet (CannotLeaveOut rows.now text.now))) result
        handle.old.held handle.new.held about.old about.new report.new }
{
    let Some(mut held) = handle.take(alloc) else {
        return tell(&Refusal::plain(CLOSED), about, report);
    };
    let answer = leave_out_held(alloc, &mut held, rows, text);
    handle.put(alloc, held);
    reported_number(answer, about, report)
}
