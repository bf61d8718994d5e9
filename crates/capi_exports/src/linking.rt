//! Programs, linked with the functions that they reach, and what they are then made of.

ghost use Rattle.std.specs.Prelude.{◌≡◌, ◌<◌, OnOk, OnErr, IfErr, MatchResult, List, Result};
ghost use Rattle.capi_rows.specs.Handles.{Changes, IsRefused, WhyHeld, FindsHeld};
ghost use Rattle.capi_exports.specs.PassOrder.{CannotPass, HasPassed, object_in};
ghost use Rattle.capi_exports.specs.Passes.{CannotLink, HasLinked};
ghost use Rattle.capi_exports.specs.declared.held.Pass.TheVariants.{Calls};
ghost use Rattle.capi_rows.specs.Answers.{Listed, told_listing, LeavesList, LeavesListing};
ghost use Rattle.capi_rows.specs.declared.refusal.Refusal.{Refusal};
ghost use Rattle.capi_exports.specs.Answers.{CannotMap, IsCopyList, IsLinkMapOf, IsReferenceList};
ghost use Rattle.capi_rows.specs.declared.record_rows.ebpf_code_copy.{ebpf_code_copy};
ghost use Rattle.capi_rows.specs.declared.record_rows.ebpf_code_reference.{ebpf_code_reference};

use crate::handle::ebpf_handle;
use crate::held::{Held, Pass, fault_of_pass};
use capi_rows::buffers::{Listing, ebpf_counts, list_all, tell_items, tell_listing};
use capi_rows::codes::{CLOSED, DONE, MEMORY, NO_PROGRAM};
use capi_rows::faults::slot_refusal;
use capi_rows::reads::text_of;
use capi_rows::record_rows::{ebpf_code_copy, ebpf_code_reference, list_references};
use capi_rows::refusal::{Refusal, ebpf_refusal, reported_number, tell};
use ebpf_base::Items;
use ebpf_model::EbpfRelocationError;
use ebpf_object::Object;
use ebpf_reloc::LinkMap;
use std::alloc::Global;

/// The number of the first fault of linking.
const FIRST_FAULT: u32 = 600;

/// Links each program of an object with the functions that it reaches.
fn link_programs(alloc: Global, object: &mut Object) -> Result<(), Refusal>
    ensures ok { OnOk result (HasLinked object.old object.new) }
    ensures unchanged { OnErr result (object.new ≡ object.old) }
    ensures why { IfErr result (CannotLink object.old) }
    ensures refuses { IfErr result (λ r. 0 < r.number) }
{
    let Ok(sections) = object.text_sections(alloc) else {
        return Err(slot_refusal(FIRST_FAULT, EbpfRelocationError::memory(alloc)));
    };
    match object.relocate_calls(&sections) {
        Ok(()) => Ok(()),
        Err(error) => Err(slot_refusal(FIRST_FAULT, error)),
    }
}

/// Makes the pass of calls.
fn pass_calls(alloc: Global, held: &mut Held) -> Result<(), Refusal>
    ensures ok { OnOk result (HasPassed Calls Calls HasLinked held.old held.new) }
    ensures unchanged { OnErr result (held.new ≡ held.old) }
    ensures why { IfErr result (CannotPass Calls CannotLink held.old) }
    ensures refuses { IfErr result (λ r. 0 < r.number) }
{
    if let Some(number) = fault_of_pass(held.last, Pass::Calls) {
        return Err(Refusal::plain(number));
    }
    link_programs(alloc, &mut held.object)?;
    held.last = Some(Pass::Calls);
    Ok(())
}

/// Links each program of what a handle holds with the functions that it reaches.
///
/// # Answers
///
/// 0; 2; 3 where the handle is closed; then 11 where the pass was made; 600 to 611 for the first program that can't be
/// linked, about it. What the handle holds is then as it was.
#[unsafe(no_mangle)]
pub extern "C" fn exact_ebpf_relocate_calls(
    alloc: Global,
    handle: &mut ebpf_handle,
    about: &mut [u8],
    report: &mut ebpf_refusal,
) -> u32
    ensures linked { result ≡ DONE
        → Changes (HasPassed Calls Calls HasLinked) handle.old.held handle.new.held }
    ensures quiet { result ≡ DONE → (about.new ≡ about.old) × (report.new ≡ report.old) }
    ensures refused { ¬ (result ≡ DONE)
        → IsRefused (WhyHeld handle.old.held (CannotPass Calls CannotLink)) result handle.old.held
        handle.new.held about.old about.new report.new }
{
    let Some(mut held) = handle.take(alloc) else {
        return tell(&Refusal::plain(CLOSED), about, report);
    };
    let answer = pass_calls(alloc, &mut held);
    handle.put(alloc, held);
    reported_number(answer, about, report)
}

/// The link map of the program that some bytes name.
#[tactic(auto, using(crate::proofs::MappedPrograms::no_text, crate::proofs::MappedPrograms::mapped, crate::proofs::MappedPrograms::no_program, crate::proofs::MappedPrograms::unlinkable))]
fn link_map_of(object: &Object, name: &[u8]) -> Result<LinkMap, Refusal>
    ensures { MatchResult result (IsLinkMapOf name.now object.now) (CannotMap name.now object.now) }
{
    let Some(text) = text_of(name) else {
        return Err(Refusal::plain(NO_PROGRAM));
    };
    match object.own_link_map(text) {
        Ok(Some(map)) => Ok(map),
        Ok(None) => Err(Refusal::plain(NO_PROGRAM)),
        Err(fault) => Err(slot_refusal(FIRST_FAULT, fault)),
    }
}

/// The copies that the linked program of a name is made of.
#[tactic(auto, using(crate::proofs::MappedPrograms::no_memory))]
pub fn copies_of(
    alloc: Global,
    object: &Object,
    name: &[u8],
) -> Result<Listing<ebpf_code_copy>, Refusal>
    ensures { MatchResult (told_listing result) (IsCopyList name.now object.now)
        (CannotMap name.now object.now) }
{
    let map = link_map_of(object, name)?;
    Ok(list_all(alloc, &(), map.copies.as_slice())?)
}

/// The references between those copies.
#[tactic(auto, using(crate::proofs::MappedPrograms::no_memory))]
pub fn references_of(
    alloc: Global,
    object: &Object,
    name: &[u8],
) -> Result<Items<ebpf_code_reference>, Refusal>
    ensures { MatchResult result (IsReferenceList name.now object.now)
        (CannotMap name.now object.now) }
{
    let map = link_map_of(object, name)?;
    Ok(list_references(alloc, map.references.as_slice())?)
}

/// Lists what the program with a name is made of once it is linked: a row for each copy of a function, in their order,
/// the program's own at slot 0, and then each function that its references reach; and the functions' names in `text`, a
/// zero byte behind each. Nothing is linked, and the handle holds what it held.
///
/// # Answers
///
/// 0; 1 where not all fits; 2; 3 where the handle is closed; 4 where no program has the name; 600 to 611 where the
/// program can't be linked, about it, as `ebpf_relocate_calls` refuses it. The buffers are then as they were, and
/// `counts` too but for 1.
#[unsafe(no_mangle)]
pub extern "C" fn exact_ebpf_link_map(
    alloc: Global,
    handle: &mut ebpf_handle,
    name: &[u8],
    rows: &mut [ebpf_code_copy],
    text: &mut [u8],
    counts: &mut ebpf_counts,
    about: &mut [u8],
    report: &mut ebpf_refusal,
) -> u32
    ensures stays { handle.new.held ≡ handle.old.held }
    ensures listed { (found : Result (Listed ebpf_code_copy) Refusal)
        × FindsHeld (IsCopyList name.now) (CannotMap name.now) (object_in handle.old.held) found
        × LeavesListing found result rows.old rows.new text.old text.new counts.old counts.new
        about.old about.new report.old report.new }
{
    let Some(held) = handle.take(alloc) else {
        let closed = Err(Refusal::plain(CLOSED));
        return tell_listing(closed, rows, text, counts, about, report);
    };
    let found = copies_of(alloc, &held.object, name);
    handle.put(alloc, held);
    tell_listing(found, rows, text, counts, about, report)
}

/// Lists the slots of the linked program with a name that refer to its copies, in their order: a row for each, which
/// says at which slot the copy begins that it refers to; and how many they are. Nothing is linked, and the handle holds
/// what it held.
///
/// # Answers
///
/// 0; 1 where they don't fit; 2; 3 where the handle is closed; 4 where no program has the name; 600 to 611 where the
/// program can't be linked, about it, as `ebpf_relocate_calls` refuses it. The buffer is then as it was, and `count`
/// too but for 1.
#[unsafe(no_mangle)]
pub extern "C" fn exact_ebpf_link_references(
    alloc: Global,
    handle: &mut ebpf_handle,
    name: &[u8],
    rows: &mut [ebpf_code_reference],
    count: &mut usize,
    about: &mut [u8],
    report: &mut ebpf_refusal,
) -> u32
    ensures stays { handle.new.held ≡ handle.old.held }
    ensures listed { (found : Result (List ebpf_code_reference) Refusal)
        × FindsHeld (IsReferenceList name.now) (CannotMap name.now) (object_in handle.old.held)
        found
        × LeavesList found result rows.old rows.new count.old count.new about.old about.new
        report.old report.new }
{
    let Some(held) = handle.take(alloc) else {
        let closed = Err(Refusal::plain(CLOSED));
        return tell_items(closed, rows, count, about, report);
    };
    let found = references_of(alloc, &held.object, name);
    handle.put(alloc, held);
    tell_items(found, rows, count, about, report)
}
