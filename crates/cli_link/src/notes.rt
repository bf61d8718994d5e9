//! Notes on the values that CO-RE relocations wrote into slots.

use ebpf_btf_ext::Relocation;
use ebpf_core_relo::{Absence, RecordOutcome, RecordResult, RecordSlot};
use ebpf_object::Object;
use std::alloc::{AllocError, Global};

/// A slot of a function: the section and the address of the function, and the slot's number in it.
type SlotKey = (usize, u64, usize);

/// The outcome of a CO-RE relocation.
#[derive(Clone, Copy)]
pub enum Written {
    /// The value of the slot.
    Value(u64),
    /// No value; the slot is poisoned.
    NoValue,
    /// The kernel's types lack the type, field or enumerator; the slot is poisoned.
    Absent(Absence),
}

/// A note on a slot that a CO-RE relocation wrote.
#[derive(Clone, Copy)]
pub struct Note {
    slot: SlotKey,
    /// The relocation.
    pub relocation: Relocation,
    /// The outcome.
    pub written: Written,
}

/// The notes on an object's CO-RE relocations, by slots; of one slot in the order of the relocations.
#[derive(Drop)]
pub struct RecordNotes {
    notes: Vec<Note>,
}

/// The key of a slot.
fn key_of(slot: RecordSlot) -> SlotKey {
    (slot.function.0, slot.function.1, slot.slot)
}

/// The outcome of a CO-RE relocation; none where it is refused.
fn written_of(outcome: &RecordResult) -> Option<Written> {
    match outcome {
        RecordResult::Value(outcome) => match outcome.value {
            Some(value) => Some(Written::Value(value)),
            None => Some(Written::NoValue),
        },
        RecordResult::Absent(absence) => Some(Written::Absent(*absence)),
        RecordResult::Refused(_) => None,
    }
}

/// The note on a CO-RE relocation, where it wrote a slot.
fn note_of(relocation: &Relocation, outcome: &RecordOutcome) -> Option<Note> {
    Some(Note {
        slot: key_of(outcome.slot?),
        relocation: *relocation,
        written: written_of(&outcome.result)?,
    })
}

/// Adds the notes on the CO-RE relocations of a section, whose outcomes begin at the first of these.
fn add_section(
    notes: &mut Vec<Note>,
    relocations: &[Relocation],
    outcomes: &[RecordOutcome],
) -> Result<(), AllocError> {
    for (relocation, outcome) in relocations.iter().zip(outcomes.iter()) {
        let Some(note) = note_of(relocation, outcome) else {
            continue;
        };
        notes.push(note)?;
    }
    Ok(())
}

/// The notes on an object's CO-RE relocations with these outcomes, section by section and in order.
fn all_notes(
    alloc: Global,
    parsed: &Object,
    outcomes: &[RecordOutcome],
) -> Result<Vec<Note>, AllocError> {
    let mut notes = Vec::new(alloc);
    let Some(said) = &parsed.btf_ext else {
        return Ok(notes);
    };
    let mut rest = outcomes;
    for section in said.relocations() {
        let relocations = section.1.as_slice();
        add_section(&mut notes, relocations, rest)?;
        rest = rest.get(relocations.len()..).unwrap_or(&[]);
    }
    Ok(notes)
}

impl RecordNotes {
    /// The notes on a parsed object's CO-RE relocations with these outcomes.
    pub fn of(
        alloc: Global,
        parsed: &Object,
        outcomes: &[RecordOutcome],
    ) -> Result<RecordNotes, AllocError> {
        let mut notes = all_notes(alloc, parsed, outcomes)?;
        notes.sort_by_key(|note| note.slot)?;
        Ok(RecordNotes { notes })
    }

    /// The notes on the slot of a number in the function of a key.
    pub fn at(&self, function: (usize, u64), slot: usize) -> &[Note] {
        let key = (function.0, function.1, slot);
        let start = self.notes.partition_point(|note| note.slot < key);
        let Some(rest) = self.notes.get(start..) else {
            return &[];
        };
        let length = rest.partition_point(|note| note.slot <= key);
        rest.get(..length).unwrap_or(&[])
    }
}
