//! The verdict of a kernel on an object.

ghost use Rattle.std.specs.Prelude.{◌≡◌, MatchResult, Result};
ghost use Rattle.capi_exports.specs.Checks.{rows_found, summary_after, told_check};
ghost use Rattle.capi_exports.specs.KernelHandles.{FindsOfTypes};
ghost use Rattle.capi_exports.specs.KernelPasses.{HasNoMemory};
ghost use Rattle.capi_exports.specs.PassOrder.{object_in};
ghost use Rattle.capi_rows.specs.Answers.{LeavesListing};
ghost use Rattle.capi_rows.specs.Handles.{FindsHeld};
ghost use Rattle.capi_rows.specs.declared.refusal.Refusal.{Refusal};
ghost use Rattle.capi_verdict.specs.Checked.{Checked, IsChecked};

use crate::handle::ebpf_handle;
use crate::held::Held;
use crate::kernel::ebpf_types;
use capi_rows::buffers::{ebpf_counts, tell_listing};
use capi_rows::codes::{CLOSED, MEMORY};
use capi_rows::refusal::{Refusal, ebpf_refusal};
use capi_verdict::{CheckedObject, check, ebpf_reason, ebpf_verdict_summary};
use ebpf_btf::Btf;
use std::alloc::Global;

/// The verdict of a kernel on an object. The object is unchanged.
fn checked(alloc: Global, held: &mut Held, kernel: &Btf) -> Result<CheckedObject, Refusal>
    ensures stays { held.new ≡ held.old }
    ensures found { MatchResult (told_check result) (IsChecked kernel.now held.old.object)
        (HasNoMemory held.old.object) }
{
    match check(alloc, &mut held.object, kernel) {
        Ok(checked) => Ok(checked),
        Err(_) => Err(Refusal::plain(MEMORY)),
    }
}

/// The verdict of a kernel on the object of a handle.
fn checked_of_held(
    alloc: Global,
    handle: &mut ebpf_handle,
    kernel: &Btf,
) -> Result<CheckedObject, Refusal>
    ensures stays { handle.new.held ≡ handle.old.held }
    ensures found { FindsHeld (IsChecked kernel.now) HasNoMemory (object_in handle.old.held)
        (told_check result) }
{
    let Some(mut held) = handle.take(alloc) else {
        return Err(Refusal::plain(CLOSED));
    };
    let found = checked(alloc, &mut held, kernel);
    handle.put(alloc, held);
    found
}

/// The verdict of the kernel whose types a handle holds on the object of another.
fn checked_by_held(
    alloc: Global,
    handle: &mut ebpf_handle,
    kernel: &mut ebpf_types,
) -> Result<CheckedObject, Refusal>
    ensures stays { handle.new.held ≡ handle.old.held }
    ensures types_stay { kernel.new.held ≡ kernel.old.held }
    ensures found { FindsOfTypes
        (λ t. FindsHeld (IsChecked t) HasNoMemory (object_in handle.old.held))
        kernel.old.held (told_check result) }
{
    let Some(types) = kernel.take(alloc) else {
        return Err(Refusal::plain(CLOSED));
    };
    let found = checked_of_held(alloc, handle, &types.types);
    kernel.put(alloc, types);
    found
}

/// Writes the rows of a verdict and its summary, or the refusal.
fn tell_check(
    found: Result<CheckedObject, Refusal>,
    rows: &mut [ebpf_reason],
    text: &mut [u8],
    counts: &mut ebpf_counts,
    summary: &mut ebpf_verdict_summary,
    about: &mut [u8],
    report: &mut ebpf_refusal,
) -> u32
    ensures listed { LeavesListing (rows_found (told_check found)) result rows.old rows.new text.old
        text.new counts.old counts.new about.old about.new report.old report.new }
    ensures told { summary.new ≡ summary_after (told_check found) summary.old }
{
    match found {
        Ok(
            CheckedObject {
                listing,
                summary: told,
            },
        ) => {
            *summary = told;
            tell_listing(Ok(listing), rows, text, counts, about, report)
        }
        Err(refusal) => tell_listing(Err(refusal), rows, text, counts, about, report),
    }
}

/// Judges an object by a kernel's types: a row for each reason for which programs break, and the number of programs that
/// run (`capi_verdict::check`). The object is unchanged.
///
/// # Answers
///
/// 0; 1 where not all rows fit; 2; 3 where one of the handles is closed. The buffers are then as they were, and `counts`
/// and `summary` too but for 1.
#[unsafe(no_mangle)]
pub extern "C" fn exact_ebpf_check(
    alloc: Global,
    handle: &mut ebpf_handle,
    kernel: &mut ebpf_types,
    rows: &mut [ebpf_reason],
    text: &mut [u8],
    counts: &mut ebpf_counts,
    summary: &mut ebpf_verdict_summary,
    about: &mut [u8],
    report: &mut ebpf_refusal,
) -> u32
    ensures stays { handle.new.held ≡ handle.old.held }
    ensures types_stay { kernel.new.held ≡ kernel.old.held }
    ensures checked { (found : Result Checked Refusal)
        × FindsOfTypes (λ t. FindsHeld (IsChecked t) HasNoMemory (object_in handle.old.held))
        kernel.old.held found
        × LeavesListing (rows_found found) result rows.old rows.new text.old text.new counts.old
        counts.new about.old about.new report.old report.new
        × (summary.new ≡ summary_after found summary.old) }
{
    let found = checked_by_held(alloc, handle, kernel);
    tell_check(found, rows, text, counts, summary, about, report)
}
