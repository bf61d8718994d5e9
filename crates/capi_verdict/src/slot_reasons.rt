//! The reasons of the slots of a linked program, and where they come from.

ghost use Rattle.std.specs.Prelude.{◌≡◌, ◌++◌, IfOk, OnOk, map};
ghost use Rattle.std.specs.List.{find};
ghost use Rattle.std.specs.Option.{option_copied};
ghost use Rattle.capi_verdict.specs.ProgramReasons.{absent_at, absent_before, cause_kind, cause_number, cause_relocation, cause_subject, function_slot, is_absent, is_absent_at, is_of_copy, is_slot, map_name, poisoning, slot_reason, symbol_name};

use crate::reason::{Reason, ReasonKind};
use capi_rows::entries::entries_of;
use ebpf_base::{Items, Text};
use ebpf_core_relo::{RecordOutcome, RecordResult, RecordSlot};
use ebpf_object::Object;
use ebpf_reloc::CodeCopy;
use ebpf_verdict::{Cause, SlotReason};
use std::alloc::{AllocError, Global};

/// The copy that a slot of a linked program belongs to.
fn copy_with(copies: &[CodeCopy], slot: usize) -> Option<&CodeCopy>
    ensures { option_copied result ≡ find (is_of_copy slot) copies.now }
{
    copies
        .iter()
        .find(|copy| copy.base <= slot && slot - copy.base < copy.slots)
}

/// The slot of the function that is copied there.
fn function_slot(copies: &[CodeCopy], slot: usize) -> Option<RecordSlot>
    ensures { result ≡ function_slot copies.now slot }
{
    match copy_with(copies, slot) {
        Some(copy) => Some(RecordSlot {
            function: copy.key,
            slot: slot.saturating_sub(copy.base),
        }),
        None => None,
    }
}

/// Whether a CO-RE relocation is at a slot.
fn is_slot(slot: RecordSlot, found: Option<RecordSlot>) -> bool
    ensures { result ≡ is_slot slot found }
{
    match found {
        Some(found) => {
            found.function.0 == slot.function.0
                && found.function.1 == slot.function.1
                && found.slot == slot.slot
        }
        None => false,
    }
}

/// Whether a CO-RE relocation has no value.
fn is_absent(outcome: &RecordResult) -> bool
    ensures { result ≡ is_absent outcome.now }
{
    match outcome {
        RecordResult::Absent(_) => true,
        RecordResult::Value(_) => false,
        RecordResult::Refused(_) => false,
    }
}

/// Whether a CO-RE relocation is at a slot, and has no value.
fn is_absent_at(slot: RecordSlot, row: &RecordOutcome) -> bool
    ensures { result ≡ is_absent_at slot row.now }
{
    is_absent(&row.result) && is_slot(slot, row.slot)
}

/// The number of the CO-RE relocation without a value at a slot.
fn absent_at(records: &[RecordOutcome], slot: RecordSlot) -> Option<usize>
    ensures { result ≡ absent_at records.now slot }
{
    records.iter().position(|row| is_absent_at(slot, row))
}

/// The number of such a relocation at the slot before, as of a load of 64 bits.
fn absent_before(records: &[RecordOutcome], slot: RecordSlot) -> Option<usize>
    ensures { result ≡ absent_before records.now slot }
{
    if slot.slot == 0 {
        return None;
    }
    let before = RecordSlot {
        function: slot.function,
        slot: slot.slot - 1,
    };
    absent_at(records, before)
}

/// The number of the CO-RE relocation by which a slot is poisoned.
fn poisoning(records: &[RecordOutcome], slot: RecordSlot) -> Option<usize>
    ensures { result ≡ poisoning records.now slot }
{
    match absent_at(records, slot) {
        Some(number) => Some(number),
        None => absent_before(records, slot),
    }
}

/// The kind of a reason by its cause.
fn cause_kind(cause: Cause) -> ReasonKind
    ensures { result ≡ cause_kind cause }
{
    match cause {
        Cause::Poisoned => ReasonKind::Poisoned,
        Cause::NoHelper { .. } => ReasonKind::Helper,
        Cause::NoFunction { .. } => ReasonKind::Function,
        Cause::NoMapType { .. } => ReasonKind::MapType,
    }
}

/// The number of the helper function, of the extern's symbol or of the map type; 0 where it is none of these.
fn cause_number(cause: Cause) -> u64
    ensures { result ≡ cause_number cause }
{
    match cause {
        Cause::Poisoned => 0,
        Cause::NoHelper { number } => u64::from(number),
        Cause::NoFunction { symbol } => symbol as u64,
        Cause::NoMapType { number, .. } => u64::from(number),
    }
}

/// The name of a symbol, empty where it has none.
fn symbol_name(alloc: Global, object: &Object, symbol: usize) -> Result<Text, AllocError>
    ensures { IfOk result (λ name. name ≡ symbol_name object.now symbol) }
{
    let Some(symbol) = object.symbol_table.get(symbol) else {
        return Ok(Text::empty(alloc));
    };
    match &symbol.name {
        Some(name) => name.clone(),
        None => Ok(Text::empty(alloc)),
    }
}

/// The name of the map at a position in byte order of names.
fn map_name(alloc: Global, object: &Object, map: usize) -> Result<Text, AllocError>
    ensures { IfOk result (λ name. name ≡ map_name object.now map) }
{
    let entries = entries_of(alloc, &object.maps)?;
    match entries.get(map) {
        Some(entry) => Text::from_str(alloc, entry.name),
        None => Ok(Text::empty(alloc)),
    }
}

/// The name of the extern or of the map that a cause is about, empty where it is about none.
fn cause_subject(alloc: Global, object: &Object, cause: Cause) -> Result<Text, AllocError>
    ensures { IfOk result (λ name. name ≡ cause_subject object.now cause) }
{
    match cause {
        Cause::Poisoned => Ok(Text::empty(alloc)),
        Cause::NoHelper { .. } => Ok(Text::empty(alloc)),
        Cause::NoFunction { symbol } => symbol_name(alloc, object, symbol),
        Cause::NoMapType { map, .. } => map_name(alloc, object, map),
    }
}

/// The number of the CO-RE relocation that a cause is about.
fn cause_relocation(
    records: &[RecordOutcome],
    slot: Option<RecordSlot>,
    cause: Cause,
) -> Option<usize>
    ensures { result ≡ cause_relocation records.now slot cause }
{
    match cause {
        Cause::Poisoned => poisoning(records, slot?),
        Cause::NoHelper { .. } => None,
        Cause::NoFunction { .. } => None,
        Cause::NoMapType { .. } => None,
    }
}

/// An object, the outcomes of its CO-RE relocations, and one of its programs.
#[derive(Drop)]
pub struct ReasonSource<'a> {
    pub object: &'a Object,
    pub records: &'a [RecordOutcome],
    pub program: &'a str,
}

impl ReasonSource<'_> {
    /// The reason of a slot of the linked program.
    fn slot_reason(
        &self,
        alloc: Global,
        copies: &[CodeCopy],
        found: SlotReason,
    ) -> Result<Reason, AllocError>
        ensures { IfOk result (λ reason.
            reason
            ≡ slot_reason self.now.object.now self.now.records.now self.now.program.now copies.now
            found) }
    {
        let subject = cause_subject(alloc, self.object, found.cause)?;
        let program = Text::from_str(alloc, self.program)?;
        let function_slot = function_slot(copies, found.slot);
        let mut reason = Reason::new(cause_kind(found.cause), program, subject);
        reason.slot = Some(found.slot);
        reason.function_slot = function_slot;
        reason.relocation = cause_relocation(self.records, function_slot, found.cause);
        reason.number = cause_number(found.cause);
        Ok(reason)
    }

    /// Adds the reasons of slots.
    #[tactic(auto, using(crate::proofs::Loops::one_mapped, ebpf_base::proofs::Lists::rest_none))]
    pub fn add_slots(
        &self,
        alloc: Global,
        reasons: &mut Items<Reason>,
        copies: &[CodeCopy],
        found: &[SlotReason],
    ) -> Result<(), AllocError>
        ensures { OnOk result
            (reasons.new
            ≡ reasons.old
            ++ map
            (slot_reason self.now.object.now self.now.records.now self.now.program.now copies.now)
            found.now) }
    {
        for slot in found {
            reasons.push(self.slot_reason(alloc, copies, *slot)?)?;
        }
        Ok(())
    }
}
