//! The CO-RE relocations of a linked program over a kernel, as findings.

use crate::verdict::findings::{FindingKey, Severity, SourceLocation};
use crate::verdict::judged_program::{PrintedProgram, SlotRef};
use crate::verdict::judging::Judge;
use crate::verdict::loaded::Record;
use cli_common::kinds::Kind;
use cli_common::record_names::{absence_words, has_sign, record_name};
use ebpf_base::{ByKey, Items};
use ebpf_btf::Btf;
use ebpf_core::Outcome;
use ebpf_core_relo::{Absence, RecordResult, RelocationError};
use ebpf_object::Object;
use ebpf_parts::insn::opcodes::{ALU, ALU64, LD};
use ebpf_reloc::CodeCopy;
use std::alloc::{AllocError, Global};

/// The items of a function.
fn items_at<T>(by_function: &ByKey<Items<T>>, key: (usize, u64)) -> &[T] {
    match by_function.get(key) {
        Some(items) => items.as_slice(),
        None => &[],
    }
}

/// Whether a slot, as the object has it, loads a number and nothing else: by its class it is no load from memory and no
/// store.
fn loads_number(object: &Object, copy: &CodeCopy, slot: usize) -> bool {
    let Some(function) = object.functions.get(copy.key) else {
        return false;
    };
    match function.instructions.get(slot) {
        Some(instruction) => matches!(instruction.code % 8, LD | ALU | ALU64),
        None => false,
    }
}

/// The key of a CO-RE relocation without a value at a source line.
fn record_key(
    alloc: Global,
    local: &Btf,
    record: &Record,
    place: &SourceLocation,
    severity: Severity,
    reason: String,
) -> Result<FindingKey, AllocError> {
    let (file, line) = match &place.line {
        Some(line) => (String::from_str(alloc, line.file.as_str())?, line.number),
        None => (String::new(alloc), 0),
    };
    Ok(FindingKey {
        severity,
        name: record_name(alloc, local, &record.relocation)?,
        kind: Kind::of(record.relocation.kind),
        file,
        line,
        reason,
        is_signed: false,
    })
}

impl Judge<'_> {
    /// Notes a CO-RE relocation that has no value.
    fn note_record(
        &mut self,
        slot: SlotRef<'_>,
        record: &Record,
        severity: Severity,
        reason: String,
    ) -> Result<(), AllocError> {
        let (alloc, answers) = (self.alloc, self.answers);
        let Some(local) = &answers.loaded.object.btf else {
            return Ok(());
        };
        let place = slot.location(alloc, &answers.loaded.object)?;
        let key = record_key(alloc, local, record, &place, severity, reason)?;
        self.note(key, Some(place))
    }

    /// Notes a CO-RE relocation whose value is absent: its program breaks where the slot is one of its reasons.
    fn note_absent(
        &mut self,
        slot: SlotRef<'_>,
        record: &Record,
        absence: Absence,
    ) -> Result<(), AllocError> {
        let severity = if slot.is_poisoned() {
            Severity::Breaks
        } else {
            Severity::Guarded
        };
        let reason = String::from_str(self.alloc, absence_words(absence))?;
        self.note_record(slot, record, severity, reason)
    }

    /// Notes a CO-RE relocation that is refused.
    fn note_refusal(
        &mut self,
        slot: SlotRef<'_>,
        record: &Record,
        error: &RelocationError,
    ) -> Result<(), AllocError> {
        let reason = format!(in self.alloc; "refused: {error}")?;
        self.note_record(slot, record, Severity::Breaks, reason)
    }

    /// Notes a value of a kind where the object's own types give a different one.
    fn note_value(
        &mut self,
        record: &Record,
        kind: Kind,
        own: Option<u64>,
        value: Option<u64>,
    ) -> Result<(), AllocError> {
        let (alloc, answers) = (self.alloc, self.answers);
        let (Some(local), Some(own), Some(value)) = (&answers.loaded.object.btf, own, value) else {
            return Ok(());
        };
        if own == value {
            return Ok(());
        }
        let key = FindingKey {
            severity: Severity::Changed,
            name: record_name(alloc, local, &record.relocation)?,
            kind,
            file: String::new(alloc),
            line: 0,
            reason: String::new(alloc),
            is_signed: has_sign(local, &record.relocation),
        };
        self.note_changed(key, own, value)
    }

    /// Notes the value that a CO-RE relocation writes where it differs from the object's own, and the size of the field where
    /// its slot loads or stores another number of bytes. Slots do so of unsigned integers and pointers alone; the relocations
    /// of others are refused.
    fn note_written(
        &mut self,
        slot: SlotRef<'_>,
        record: &Record,
        outcome: &Outcome,
    ) -> Result<(), AllocError> {
        let kind = Kind::of(record.relocation.kind);
        self.note_value(record, kind, record.own, outcome.value)?;
        let (Some(own), Some(found), false) = (outcome.local, outcome.target, slot.leads) else {
            return Ok(());
        };
        let (own, found) = (u64::from(own.size), u64::from(found.size));
        self.note_value(record, Kind::ByteSize, Some(own), Some(found))
    }

    /// Notes the CO-RE relocation of a number in a copy, given the copy's first slot.
    fn note_outcome(&mut self, first: SlotRef<'_>, number: usize) -> Result<(), AllocError> {
        let answers = self.answers;
        let records = &answers.loaded.needs.records;
        let (Some(outcome), Some(record)) = (
            answers.verdict.records.get(number),
            records.get(number),
        ) else {
            return Ok(());
        };
        let slot = match outcome.slot {
            Some(place) => place.slot,
            None => return Ok(()),
        };
        let leads = loads_number(&answers.loaded.object, first.copy, slot);
        let slot = SlotRef {
            slot,
            leads,
            ..first
        };
        match &outcome.result {
            RecordResult::Value(outcome) => self.note_written(slot, record, outcome),
            RecordResult::Absent(absence) => self.note_absent(slot, record, *absence),
            RecordResult::Refused(error) => self.note_refusal(slot, record, error),
        }
    }

    /// Notes the CO-RE relocations of a copy of a function in a linked program.
    pub fn note_records(
        &mut self,
        program: &PrintedProgram<'_>,
        copy: &CodeCopy,
    ) -> Result<(), AllocError> {
        let answers = self.answers;
        let first = SlotRef {
            program,
            copy,
            slot: 0,
            leads: false,
        };
        for number in items_at(answers.by_function, copy.key) {
            self.note_outcome(first, *number)?;
        }
        Ok(())
    }
}
