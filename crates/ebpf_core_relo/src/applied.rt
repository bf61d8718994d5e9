//! One record, applied to the function that holds its instruction.

ghost use Rattle.std.specs.Prelude.{◌≡◌, Err, Ok, ◌<◌, ⊤, MatchBool, IfOk, IfErr, length};
ghost use Rattle.ebpf_core.specs.Answers.{without_texts, is_record_memory};
ghost use Rattle.ebpf_core_relo.specs.Records.{put_outcome, record_applied, slots_so_far};
ghost use Rattle.ebpf_core_relo.specs.SpanInputs.{inputs_of};
ghost use Rattle.ebpf_core_relo.specs.PrivateContracts.{Leaves, StaysRefused, HasRoom, put_at};
ghost use Rattle.ebpf_core.specs.Searches.{outcome_of};
ghost use Rattle.std.specs.FinMap as map;
ghost use Rattle.ebpf_core_relo.specs.Carried as carried;

use crate::carried::{PatchedSlots, patched_slots, put_slots_at};
use crate::outcomes::RecordSlot;
use crate::spans::{FunctionSpans, Span, span_in};
use ebpf_base::{ByKey, Items};
use ebpf_btf_ext::Relocation;
use ebpf_core::{CoreSearch, Outcome, RelocationError};
use ebpf_parts::insn::bpf_insn;
use std::alloc::{AllocError, Global};

/// The span of a function in a section.
#[derive(Clone, Copy)]
struct SpanInSection {
    section: usize,
    span: Span,
}

/// Takes the slots of a function out of those that are written, or copies the function's own.
fn take_slots(
    alloc: Global,
    function_spans: &FunctionSpans<'_>,
    written: &mut ByKey<Items<bpf_insn>>,
    key: (usize, u64),
) -> Result<Items<bpf_insn>, AllocError>
    ensures slots { IfOk result (λ slots.
        slots ≡ slots_so_far function_spans.now.functions.now written.old key) }
    ensures taken { written.new ≡ map.remove written.old key }
{
    if let Some(slots) = written.remove(key) {
        return Ok(slots);
    }
    match function_spans.functions.get(key) {
        Some(function) => function.instructions.copied(),
        None => Ok(Items::new(alloc)),
    }
}

/// The slots of a function with the outcome of a record, over the slots that earlier records left. Nothing is written.
fn patched_slots_in(
    alloc: Global,
    function_spans: &FunctionSpans<'_>,
    written: &ByKey<Items<bpf_insn>>,
    at: RecordSlot,
    record_number: usize,
    outcome: &Outcome,
) -> Result<PatchedSlots, RelocationError>
    ensures slots { IfOk result (λ patched.
        carried.written record_number
        (slots_so_far function_spans.now.functions.now written.now at.function) at.slot
        outcome.now
        ≡ Ok
        (put_at (slots_so_far function_spans.now.functions.now written.now at.function)
        at.slot patched)) }
    ensures there { IfOk result (λ patched.
        (at.slot
        < length (slots_so_far function_spans.now.functions.now written.now at.function))
        × HasRoom (slots_so_far function_spans.now.functions.now written.now at.function)
        at.slot patched.next) }
    ensures fault { IfErr result (λ e.
        MatchBool (is_record_memory e) ⊤
        (carried.written record_number
        (slots_so_far function_spans.now.functions.now written.now at.function) at.slot
        outcome.now
        ≡ Err (without_texts e))) }
{
    if let Some(slots) = written.get(at.function) {
        return patched_slots(alloc, slots.as_slice(), at.slot, record_number, outcome);
    }
    match function_spans.functions.get(at.function) {
        Some(function) => patched_slots(
            alloc,
            function.instructions.as_slice(),
            at.slot,
            record_number,
            outcome,
        ),
        None => patched_slots(alloc, &[], at.slot, record_number, outcome),
    }
}

/// The slots of a function with the outcome of a record.
fn with_patched_slots(slots: Items<bpf_insn>, at: usize, patched: PatchedSlots) -> Items<bpf_insn>
    requires slot { at < length slots }
    requires next { HasRoom slots at patched.next }
    ensures { result ≡ put_at slots at patched }
{
    let mut slots = slots.into_vec();
    put_slots_at(slots.as_mut_slice(), at, patched);
    Items::from_vec(slots)
}

/// Puts the outcome of a record into the function with a span. A refused record writes nothing.
#[tactic(auto, unfolding(crate::specs::Records::put_outcome))]
fn put_outcome(
    alloc: Global,
    search: &mut CoreSearch<'_>,
    function_spans: &FunctionSpans<'_>,
    written: &mut ByKey<Items<bpf_insn>>,
    relocation: &Relocation,
    located: SpanInSection,
) -> Result<Outcome, RelocationError>
    ensures put { Leaves result written.new
        (put_outcome (inputs_of search.old function_spans.now) located.section written.old
        relocation.now located.span) }
    ensures outcome { IfOk result (λ outcome.
        outcome_of search.old.local search.old.target relocation.now ≡ Ok outcome) }
    ensures stays { StaysRefused result written.old written.new }
    ensures search { search.new ≡ search.old }
{
    let outcome = search.outcome(alloc, relocation)?;
    let key = (located.section, located.span.address);
    let at = (relocation.insn_off as usize).saturating_sub(located.span.start) / bpf_insn::SIZE;
    let patched = patched_slots_in(
        alloc,
        function_spans,
        written,
        RecordSlot {
            function: key,
            slot: at,
        },
        relocation.number,
        &outcome,
    )?;
    let slots = take_slots(alloc, function_spans, written, key)?;
    let slots = with_patched_slots(slots, at, patched);
    written.insert(key, slots)?;
    Ok(outcome)
}

/// Applies a record of a section to the function that holds its instruction. A refused record writes nothing.
///
/// # Errors
///
/// - `FunctionNotFound`: no function of the section has the slot.
/// - The errors of the search for the type, field or enumerator.
/// - `InvalidInstruction`, `InvalidInstructionIndex`: the slot can't carry the outcome.
/// - `OutOfMemory`: an allocation failed.
#[tactic(auto, unfolding(crate::specs::Records::record_applied))]
pub fn apply_record(
    alloc: Global,
    search: &mut CoreSearch<'_>,
    function_spans: &FunctionSpans<'_>,
    section: usize,
    written: &mut ByKey<Items<bpf_insn>>,
    relocation: &Relocation,
) -> Result<Outcome, RelocationError>
    ensures applied { Leaves result written.new
        (record_applied (inputs_of search.old function_spans.now) section written.old
        relocation.now) }
    ensures outcome { IfOk result (λ outcome.
        outcome_of search.old.local search.old.target relocation.now ≡ Ok outcome) }
    ensures stays { StaysRefused result written.old written.new }
    ensures search { search.new ≡ search.old }
{
    let Some(span) = span_in(&function_spans.spans, section, relocation.insn_off as usize) else {
        return Err(RelocationError::FunctionNotFound);
    };
    let located = SpanInSection { section, span };
    put_outcome(alloc, search, function_spans, written, relocation, located)
}
