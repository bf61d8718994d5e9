//! What is found in a kernel's types that a handle holds: outcomes of CO-RE records, and what programs are attached to.

ghost use Rattle.std.specs.Prelude.{◌≡◌, ◌<◌, IfOk, IfErr, MatchResult, Result};
ghost use Rattle.capi_exports.specs.Answers.{target_number, target_type_id};
ghost use Rattle.capi_exports.specs.KernelHandles.{FindsOfTypes, OfTypes, WhyOfTypes};
ghost use Rattle.capi_exports.specs.KernelPasses.{CannotFindTargetIn, HasNoMemory, IsOutcomeListOver, IsTargetIn, TellsNoneIn, TellsTargetIn};
ghost use Rattle.capi_exports.specs.PassOrder.{object_in};
ghost use Rattle.capi_rows.specs.Answers.{Listed, LeavesListing, told_listing};
ghost use Rattle.capi_rows.specs.Handles.{FindsHeld};
ghost use Rattle.capi_rows.specs.declared.record_rows.ebpf_record_outcome.{ebpf_record_outcome};
ghost use Rattle.capi_rows.specs.declared.refusal.Refusal.{Refusal};

use crate::handle::ebpf_handle;
use crate::kernel::ebpf_types;
use crate::list_calls::rows_over;
use crate::target_answers::{target_number, target_type_id};
use capi_rows::buffers::{Listing, ebpf_counts, tell_listing};
use capi_rows::codes::{BAD_NAME, CLOSED, DONE};
use capi_rows::reads::text_of;
use capi_rows::record_rows::ebpf_record_outcome;
use capi_rows::refusal::{Refusal, ebpf_refusal};
use ebpf_btf::Btf;
use ebpf_load_info::{AttachTarget, attach_target};
use ebpf_object::Object;
use std::alloc::Global;

/// The rows of an object's records over a kernel's types.
fn rows_over_types(
    alloc: Global,
    object: &Object,
    kernel: &Btf,
) -> Result<Listing<ebpf_record_outcome>, Refusal>
    ensures { MatchResult (told_listing result) (IsOutcomeListOver kernel.now object.now)
        (HasNoMemory object.now) }
{
    Ok(rows_over(alloc, object, kernel)?)
}

/// The rows of the records of what a handle holds over a kernel's types.
fn rows_of_held(
    alloc: Global,
    handle: &mut ebpf_handle,
    kernel: &Btf,
) -> Result<Listing<ebpf_record_outcome>, Refusal>
    ensures stays { handle.new.held ≡ handle.old.held }
    ensures found { FindsHeld (IsOutcomeListOver kernel.now) HasNoMemory
        (object_in handle.old.held) (told_listing result) }
{
    let Some(held) = handle.take(alloc) else {
        return Err(Refusal::plain(CLOSED));
    };
    let found = rows_over_types(alloc, &held.object, kernel);
    handle.put(alloc, held);
    found
}

/// Lists the outcome of each CO-RE record of an object over a kernel's types: as `ebpf_record_outcomes` over the bytes that
/// they were read from.
///
/// # Answers
///
/// 0; 1 where not all fits; 2; 3 where one of the handles is closed. The buffers are then as they were, and `counts` too
/// but for 1.
#[unsafe(no_mangle)]
pub extern "C" fn exact_ebpf_record_outcomes_with(
    alloc: Global,
    handle: &mut ebpf_handle,
    kernel: &mut ebpf_types,
    rows: &mut [ebpf_record_outcome],
    text: &mut [u8],
    counts: &mut ebpf_counts,
    about: &mut [u8],
    report: &mut ebpf_refusal,
) -> u32
    ensures stays { handle.new.held ≡ handle.old.held }
    ensures types_stay { kernel.new.held ≡ kernel.old.held }
    ensures listed { (found : Result (Listed ebpf_record_outcome) Refusal)
        × FindsOfTypes (λ t.
        FindsHeld (IsOutcomeListOver t) HasNoMemory (object_in handle.old.held))
        kernel.old.held found
        × LeavesListing found result rows.old rows.new text.old text.new counts.old counts.new
        about.old about.new report.old report.new }
{
    let Some(types) = kernel.take(alloc) else {
        let closed = Err(Refusal::plain(CLOSED));
        return tell_listing(closed, rows, text, counts, about, report);
    };
    let found = rows_of_held(alloc, handle, &types.types);
    kernel.put(alloc, types);
    tell_listing(found, rows, text, counts, about, report)
}

/// What the programs of a section of a name are attached to, among a kernel's types.
fn find_target_in(alloc: Global, name: &[u8], kernel: &Btf) -> Result<AttachTarget, Refusal>
    ensures target { IfOk result (IsTargetIn name.now kernel.now) }
    ensures why { IfErr result (CannotFindTargetIn name.now kernel.now) }
    ensures refuses { IfErr result (λ r. 0 < r.number) }
{
    let Some(section) = text_of(name) else {
        return Err(Refusal::plain(BAD_NAME));
    };
    Ok(attach_target(alloc, section, kernel)?)
}

/// The same among the types that a handle holds.
fn find_target_of(
    alloc: Global,
    name: &[u8],
    kernel: &mut ebpf_types,
) -> Result<AttachTarget, Refusal>
    ensures stays { kernel.new.held ≡ kernel.old.held }
    ensures target { IfOk result (λ target.
        OfTypes (λ t. IsTargetIn name.now t target) kernel.old.held) }
    ensures why { IfErr result (WhyOfTypes (CannotFindTargetIn name.now) kernel.old.held) }
    ensures refuses { IfErr result (λ r. 0 < r.number) }
{
    let Some(types) = kernel.take(alloc) else {
        return Err(Refusal::plain(CLOSED));
    };
    let found = find_target_in(alloc, name, &types.types);
    kernel.put(alloc, types);
    found
}

/// Says what the programs of a section of this name are attached to: as `ebpf_attach_target` over the bytes that the types
/// were read from.
///
/// # Answers
///
/// 0; 2; 3 where the handle of types is closed; then 6 where the name is no text. `answer` and `type_id` are then as they
/// were.
#[unsafe(no_mangle)]
pub extern "C" fn exact_ebpf_attach_target_with(
    alloc: Global,
    section_name: &[u8],
    kernel: &mut ebpf_types,
    answer: &mut u32,
    type_id: &mut u32,
) -> u32
    ensures stays { kernel.new.held ≡ kernel.old.held }
    ensures found { result ≡ DONE
        → OfTypes (TellsTargetIn section_name.now answer.new type_id.new) kernel.old.held }
    ensures refused { ¬ (result ≡ DONE)
        → TellsNoneIn section_name.now kernel.old.held result answer.old answer.new type_id.old
        type_id.new }
{
    match find_target_of(alloc, section_name, kernel) {
        Ok(target) => {
            *answer = target_number(&target);
            *type_id = target_type_id(&target);
            DONE
        }
        Err(refusal) => refusal.number,
    }
}
