//! The origins of the slots of linked programs: their maps, kernel symbols, functions and CO-RE relocations.

use crate::linked::{ShownProgram, ShownSlot};
use crate::names::{NamedOperation, Subject};
use crate::notes::{Note, RecordNotes};
use cli_common::helper_calls::helper_name;
use cli_common::names::EscapedName;
use cli_prepare::Prepared;
use ebpf_model::Symbol;
use ebpf_object::Object;
use ebpf_outcomes::{Edit, MapOutcome};
use ebpf_parts::Relocation;
use ebpf_parts::insn::bpf_insn;
use ebpf_parts::insn::opcodes::{CALL, LD_IMM64};

/// The origins of the slots of an object's linked programs.
#[derive(Drop)]
pub struct Origins<'a> {
    /// The object after all passes.
    pub object: &'a Object,
    /// The object as it was parsed, whose functions aren't linked.
    parsed: &'a Object,
    /// The outcomes of its relocations to maps, by functions and slots.
    maps: &'a [MapOutcome],
    /// The values that CO-RE relocations wrote into slots.
    notes: &'a RecordNotes,
}

/// The key of a slot.
fn slot_key(function: (usize, u64), slot: usize) -> (usize, u64, usize) {
    (function.0, function.1, slot)
}

/// The key of the slot of an outcome.
fn outcome_key(outcome: &MapOutcome) -> (usize, u64, usize) {
    slot_key(outcome.slot.key, outcome.slot.slot)
}

impl<'a> Origins<'a> {
    /// The origins of the slots of a prepared object, by the notes on its CO-RE relocations.
    pub fn new(prepared: &'a Prepared, notes: &'a RecordNotes) -> Origins<'a> {
        Origins {
            object: &prepared.object,
            parsed: &prepared.parsed,
            maps: prepared.maps.as_slice(),
            notes,
        }
    }

    /// The notes on the CO-RE relocations of a slot.
    pub fn notes(&self, shown: ShownSlot<'_>) -> &'a [Note] {
        self.notes.at(shown.copy.key, shown.slot)
    }

    /// The relocation of a slot.
    fn relocation(&self, shown: ShownSlot<'_>) -> Option<&'a Relocation> {
        let key = shown.copy.key;
        let function = self.parsed.functions.get(key)?;
        let start = function.section_offset as u64;
        let offset = start.checked_add((shown.slot as u64).checked_mul(8)?)?;
        self.parsed.relocations.get(key.0 as u64)?.get(offset)
    }

    /// The function or variable of the kernel that a symbol names.
    fn kernel_subject(&self, symbol: &'a Symbol) -> Option<Subject<'a>> {
        if !symbol.is_extern() {
            return None;
        }
        let Some(name) = &symbol.name else {
            return None;
        };
        let known = self.object.externs.get(name.as_str())?;
        Some(Subject::Kernel {
            name: EscapedName(name.as_str()),
            is_absent: !known.is_resolved,
        })
    }

    /// The outcome of a slot's relocation to a map.
    fn map_outcome(&self, shown: ShownSlot<'_>) -> Option<&'a MapOutcome> {
        let key = slot_key(shown.copy.key, shown.slot);
        let number = self
            .maps
            .partition_point(|outcome| outcome_key(outcome) < key);
        let outcome = self.maps.get(number)?;
        if outcome_key(outcome) != key {
            return None;
        }
        Some(outcome)
    }

    /// The map to which a load refers.
    fn map_subject(&self, shown: ShownSlot<'_>) -> Option<Subject<'a>> {
        if shown.instruction.code != LD_IMM64 {
            return None;
        }
        let outcome = self.map_outcome(shown)?;
        let Some(name) = &outcome.map else {
            return None;
        };
        let name = EscapedName(name.as_str());
        match outcome.slot.result {
            Ok(Edit::Slot(_)) => Some(Subject::Map(name)),
            Ok(Edit::Pair(_, offset)) => Some(Subject::MapValue { name, offset }),
            _ => None,
        }
    }

    /// The kernel symbol or map that the relocation of a slot names.
    fn relocation_subject(&self, shown: ShownSlot<'_>) -> Option<Subject<'a>> {
        let relocation = self.relocation(shown)?;
        let symbol = self.parsed.symbol_table.get(relocation.symbol_index)?;
        match self.kernel_subject(symbol) {
            Some(subject) => Some(subject),
            None => self.map_subject(shown),
        }
    }

    /// The function of the program to which a slot refers.
    fn function_subject(linked: &ShownProgram<'a>, shown: ShownSlot<'_>) -> Option<Subject<'a>> {
        let name = EscapedName(linked.referred(shown.place())?);
        if shown.instruction.code == CALL {
            Some(Subject::Called(name))
        } else {
            Some(Subject::Function(name))
        }
    }

    /// The helper function that a slot calls.
    fn helper(instruction: bpf_insn) -> Option<Subject<'a>> {
        if !instruction.is_helper_call() {
            return None;
        }
        let number = instruction.imm.cast_unsigned();
        let name = helper_name(u64::from(number))?;
        Some(Subject::Helper { name, number })
    }

    /// The subject of a slot: a function of the program, a kernel symbol or a map, a helper function.
    fn subject(&self, linked: &ShownProgram<'a>, shown: ShownSlot<'_>) -> Option<Subject<'a>> {
        if let Some(subject) = Origins::function_subject(linked, shown) {
            return Some(subject);
        }
        if let Some(subject) = self.relocation_subject(shown) {
            return Some(subject);
        }
        Origins::helper(shown.instruction)
    }

    /// A call or a load of something that has a name.
    pub fn named_operation(
        &self,
        linked: &ShownProgram<'a>,
        shown: ShownSlot<'_>,
    ) -> Option<NamedOperation<'a>> {
        let instruction = shown.instruction;
        match instruction.code {
            CALL => Some(NamedOperation::Call(self.subject(linked, shown)?)),
            LD_IMM64 => Some(NamedOperation::Load {
                register: instruction.dst_reg(),
                subject: self.subject(linked, shown)?,
            }),
            _ => None,
        }
    }
}
