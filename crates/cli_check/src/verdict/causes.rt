//! The causes for which slots fail on a kernel, as findings.

use crate::verdict::findings::{FindingKey, SourceLocation};
use crate::verdict::judged_program::{PrintedProgram, SlotRef, copy_of_slot};
use crate::verdict::judging::Judge;
use cli_common::kinds::Kind;
use ebpf_core_relo::RecordResult;
use ebpf_load_info::KernelNumbers;
use ebpf_object::Object;
use ebpf_reloc::CodeCopy;
use ebpf_verdict::{Cause, SlotReason};
use std::alloc::{AllocError, Global};
use std::collections::BTreeSet;

/// A helper function, with its name where the object's own types have it.
fn helper_words(alloc: Global, object: &Object, number: u32) -> Result<String, AllocError> {
    let Some(types) = &object.btf else {
        return format!(in alloc; "helper {number}");
    };
    match KernelNumbers::of(types).helper_name(number) {
        Some(name) => format!(in alloc; "helper {number} ({name})"),
        None => format!(in alloc; "helper {number}"),
    }
}

/// The name of a symbol.
fn symbol_words(alloc: Global, object: &Object, number: usize) -> Result<String, AllocError> {
    match object.symbol_table.get(number) {
        Some(symbol) => match &symbol.name {
            Some(name) => String::from_str(alloc, name.as_str()),
            None => format!(in alloc; "symbol {number}"),
        },
        None => format!(in alloc; "symbol {number}"),
    }
}

/// The name of the map at a position in byte order of names.
fn map_words(alloc: Global, object: &Object, map: usize) -> Result<String, AllocError> {
    for (number, (name, _)) in object.maps.iter().enumerate() {
        if number == map {
            let name = name.as_str();
            return format!(in alloc; "map {name}");
        }
    }
    format!(in alloc; "map {map}")
}

/// The key of a cause.
fn cause_key(alloc: Global, object: &Object, cause: Cause) -> Result<FindingKey, AllocError> {
    let (name, kind, reason) = match cause {
        Cause::NoHelper { number } => {
            let name = helper_words(alloc, object, number)?;
            let reason = String::from_str(alloc, "no such helper function")?;
            (name, Kind::Helper, reason)
        }
        Cause::NoFunction { symbol } => {
            let name = symbol_words(alloc, object, symbol)?;
            let reason = "no such function (a module's?), and it is called";
            (name, Kind::Ksym, String::from_str(alloc, reason)?)
        }
        Cause::NoMapType { map, number } => {
            let name = map_words(alloc, object, map)?;
            (
                name,
                Kind::MapType,
                format!(in alloc; "no map type {number}")?,
            )
        }
        Cause::Poisoned => {
            let name = String::from_str(alloc, "instruction")?;
            let reason = String::from_str(alloc, "poisoned, and it is reached")?;
            (name, Kind::Linking, reason)
        }
    };
    Ok(FindingKey::breaking(alloc, name, kind, reason))
}

/// The map that a cause is about, by its position.
fn map_of(cause: Cause) -> Option<usize> {
    match cause {
        Cause::NoMapType { map, .. } => Some(map),
        _ => None,
    }
}

impl Judge<'_> {
    /// Whether a CO-RE relocation without a value is at a slot of the function that is copied.
    fn is_absent_at(&self, copy: &CodeCopy, slot: usize) -> bool {
        let records = &self.answers.verdict.records;
        let Some(numbers) = self.answers.by_function.get(copy.key) else {
            return false;
        };
        for number in numbers.iter() {
            let Some(record) = records.get(*number) else {
                continue;
            };
            let Some(place) = record.slot else {
                continue;
            };
            if place.slot == slot && matches!(record.result, RecordResult::Absent(_)) {
                return true;
            }
        }
        false
    }

    /// Whether a poisoned slot is reported as a CO-RE relocation: its own slot, or the second one of a load.
    fn is_reported(&self, copy: &CodeCopy, slot: usize) -> bool {
        self.is_absent_at(copy, slot)
            || (slot > 0 && self.is_absent_at(copy, slot.saturating_sub(1)))
    }

    /// Notes the reason of a slot.
    fn note_reason(
        &mut self,
        program: &PrintedProgram<'_>,
        copy: &CodeCopy,
        reason: SlotReason,
    ) -> Result<(), AllocError> {
        let alloc = self.alloc;
        let object = &self.answers.loaded.object;
        let slot = SlotRef {
            program,
            copy,
            slot: reason.slot.saturating_sub(copy.base),
            leads: false,
        };
        let key = cause_key(alloc, object, reason.cause)?;
        let place: SourceLocation = slot.location(alloc, object)?;
        self.note(key, Some(place))
    }

    /// Notes the reasons of a program's slots: of each copy of a function and each map the first one.
    pub fn note_reasons(&mut self, program: &PrintedProgram<'_>) -> Result<(), AllocError> {
        let mut maps = BTreeSet::new(self.alloc);
        for reason in program.reasons {
            let Some(copy) = copy_of_slot(program.copies, reason.slot) else {
                continue;
            };
            let slot = reason.slot.saturating_sub(copy.base);
            if matches!(reason.cause, Cause::Poisoned) && self.is_reported(copy, slot) {
                continue;
            }
            if let Some(map) = map_of(reason.cause) {
                if !maps.insert((copy.base, map))? {
                    continue;
                }
            }
            self.note_reason(program, copy, *reason)?;
        }
        Ok(())
    }
}
