//! A walk over the records of an object, section by section and one by one.

ghost use Rattle.std.specs.Prelude.{◌≡◌, [], ◌∷◌, ◌++◌, map, true, Ok, Err, IfOk, IfErr, OnOk, MatchBool};
ghost use Rattle.ebpf_core.specs.Searches.{Sides, outcome_of};
ghost use Rattle.ebpf_core_relo.specs.RecordOutcomes.{applied, left_by, named_in, named_records, outcome_in, outcomes_from, record_outcomes, record_slots, section_number_at, slot_of_record, slots_left, outcome_without_texts};
ghost use Rattle.ebpf_core_relo.specs.Records.{all_applied, is_memory_in_section, named_applied, slots_written, without_texts_at};
ghost use Rattle.ebpf_core_relo.specs.SpanInputs.{inputs_between, inputs_of};
ghost use Rattle.ebpf_core_relo.specs.PrivateContracts.{IsFound, IsKept, Leaves, LeavesAt, StaysRefused, found_number, outcome_or_fault, part_applied, row_of};

use crate::error::{BtfRelocationError, error_at, unless_memory_of_types};
use crate::outcomes::{RecordOutcome, RecordOutcomes, RecordSlot};
use crate::record_search::RecordSearch;
use crate::spans::{FunctionSpans, span_in};
use ebpf_base::{ByKey, Items};
use ebpf_btf::{Btf, BtfError};
use ebpf_btf_ext::Relocation;
use ebpf_core::{Outcome, RelocationError};
use ebpf_parts::insn::bpf_insn;
use std::alloc::{AllocError, Global};

/// A walk over records: the functions that they are for, and what the walk is for.
#[derive(Clone, Copy)]
pub struct RecordWalk<'a> {
    /// The functions.
    pub function_spans: &'a FunctionSpans<'a>,
    /// Whether the outcomes of the records are listed.
    pub lists: bool,
    /// Whether the walk stops at the first fault.
    pub stops: bool,
}

/// The result of a search for a section by the offset of its name.
#[derive(Clone, Copy)]
pub enum FoundSection {
    /// The number of the section.
    Number(usize),
    /// No name can be read at the offset.
    NoName(usize),
    /// The object has no section of the name.
    NoSection,
}

/// The section that some records are for, with the offset of its name.
#[derive(Clone, Copy)]
struct NamedSection {
    name: u32,
    found: FoundSection,
}

/// The section whose name is at an offset.
#[tactic(auto, unfolding(crate::specs::RecordOutcomes::section_number_at, ebpf_btf::specs::Strings::text_at))]
fn section_number_at(
    function_spans: &FunctionSpans<'_>,
    local: &Btf,
    offset: u32,
) -> Result<FoundSection, AllocError>
    ensures { IfOk result (λ found.
        found_number found
        ≡ section_number_at local.now function_spans.now.section_infos.now offset) }
{
    let name = match local.string_at(offset) {
        Ok(name) => name,
        Err(error) => {
            unless_memory_of_types(error)?;
            return Ok(FoundSection::NoName(offset as usize));
        }
    };
    match function_spans.section_infos.get(name.as_str()) {
        Some(section) => Ok(FoundSection::Number(section.0)),
        None => Ok(FoundSection::NoSection),
    }
}

/// The fault of a section that is not found.
fn section_fault(found: FoundSection) -> Result<usize, RelocationError>
    ensures { result ≡ found_number found }
{
    match found {
        FoundSection::Number(number) => Ok(number),
        FoundSection::NoName(offset) => {
            let error = BtfError::InvalidStringOffset { offset };
            Err(RelocationError::BtfError(error))
        }
        FoundSection::NoSection => Err(RelocationError::SectionNotFound),
    }
}

/// Refuses a section that is not found, where the walk stops at the first fault.
fn check_section(stops: bool, found: FoundSection) -> Result<(), RelocationError>
    ensures found { OnOk result (stops ≡ true → IsFound (found_number found)) }
    ensures fault { IfErr result (λ e. found_number found ≡ Err e) }
{
    if !stops {
        return Ok(());
    }
    section_fault(found)?;
    Ok(())
}

/// The slot of a record of a section.
fn slot_of_record(
    function_spans: &FunctionSpans<'_>,
    found: FoundSection,
    relocation: &Relocation,
) -> Option<RecordSlot>
    ensures { (sides : Sides)
        → result
        ≡ slot_of_record (inputs_of sides function_spans.now) (found_number found) relocation.now }
{
    let FoundSection::Number(section) = found else {
        return None;
    };
    let offset = relocation.insn_off as usize;
    let span = span_in(&function_spans.spans, section, offset)?;
    Some(RecordSlot {
        function: (section, span.address),
        slot: offset.saturating_sub(span.start) / bpf_insn::SIZE,
    })
}

/// Applies a record of a section. A refused record writes nothing.
fn apply_in(
    alloc: Global,
    search: &mut RecordSearch<'_>,
    function_spans: &FunctionSpans<'_>,
    found: FoundSection,
    written: &mut ByKey<Items<bpf_insn>>,
    relocation: &Relocation,
) -> Result<Outcome, RelocationError>
    ensures applied { Leaves result written.new
        (applied (inputs_of search.old function_spans.now) (found_number found) written.old
        relocation.now) }
    ensures outcome { IfOk result (λ outcome.
        outcome_of search.old.local search.old.target relocation.now ≡ Ok outcome) }
    ensures stays { StaysRefused result written.old written.new }
    ensures search { search.new ≡ search.old }
{
    match section_fault(found) {
        Ok(number) => search.apply(alloc, function_spans, number, written, relocation),
        Err(fault) => Err(fault),
    }
}

/// The outcome of a record, unless the walk ends with its fault.
fn unless_ends(
    stops: bool,
    applied: Result<Outcome, RelocationError>,
) -> Result<Result<Outcome, RelocationError>, RelocationError>
    ensures same { IfOk result (λ same. (same ≡ applied) × IsKept stops same) }
    ensures fault { IfErr result (λ e. applied ≡ Err e) }
{
    match applied {
        Ok(outcome) => Ok(Ok(outcome)),
        Err(RelocationError::OutOfMemory) => Err(RelocationError::OutOfMemory),
        Err(fault) if stops => Err(fault),
        Err(fault) => Ok(Err(fault)),
    }
}

/// The row of a record that was applied.
fn record_row(
    alloc: Global,
    search: &mut RecordSearch<'_>,
    function_spans: &FunctionSpans<'_>,
    section: NamedSection,
    relocation: &Relocation,
    applied: Result<Outcome, RelocationError>,
) -> Result<RecordOutcome, AllocError>
    ensures row { IfOk result (λ row.
        outcome_without_texts row
        ≡ row_of (inputs_of search.old function_spans.now) section.name
        (found_number section.found) relocation.now (outcome_or_fault applied)) }
    ensures search { search.new ≡ search.old }
{
    let result = search.result_of(alloc, relocation, applied)?;
    Ok(RecordOutcome {
        section_name: section.name,
        number: relocation.number,
        slot: slot_of_record(function_spans, section.found, relocation),
        result,
    })
}

/// Applies a record of a section, and lists its outcome where that is asked for.
fn add_record(
    alloc: Global,
    search: &mut RecordSearch<'_>,
    walk: &RecordWalk<'_>,
    section: NamedSection,
    relocation: &Relocation,
    outcomes: &mut RecordOutcomes,
) -> Result<(), RelocationError>
    ensures records { OnOk result
        (walk.now.lists ≡ true
        → map outcome_without_texts outcomes.new.records
        ≡ map outcome_without_texts outcomes.old.records
        ++ outcome_in (inputs_of search.old walk.now.function_spans.now) section.name
        (found_number section.found) outcomes.old.written relocation.now
        ∷ []) }
    ensures written { OnOk result
        (outcomes.new.written
        ≡ left_by outcomes.old.written
        (applied (inputs_of search.old walk.now.function_spans.now)
        (found_number section.found) outcomes.old.written relocation.now)) }
    ensures stops { walk.now.stops ≡ true
        → Leaves result outcomes.new.written
        (applied (inputs_of search.old walk.now.function_spans.now)
        (found_number section.found) outcomes.old.written relocation.now) }
    ensures search { search.new ≡ search.old }
{
    let applied = apply_in(
        alloc,
        search,
        walk.function_spans,
        section.found,
        &mut outcomes.written,
        relocation,
    );
    let applied = unless_ends(walk.stops, applied)?;
    if !walk.lists {
        return Ok(());
    }
    let row = record_row(
        alloc,
        search,
        walk.function_spans,
        section,
        relocation,
        applied,
    )?;
    outcomes.records.push(row)?;
    Ok(())
}

/// Applies the records of a section in order.
fn add_records(
    alloc: Global,
    search: &mut RecordSearch<'_>,
    walk: &RecordWalk<'_>,
    section: NamedSection,
    relocations: &[Relocation],
    outcomes: &mut RecordOutcomes,
) -> Result<(), RelocationError>
    requires { found_number section.found
        ≡ section_number_at search.old.local walk.now.function_spans.now.section_infos.now
        section.name }
    ensures records { OnOk result
        (walk.now.lists ≡ true
        → map outcome_without_texts outcomes.new.records
        ≡ map outcome_without_texts outcomes.old.records
        ++ outcomes_from (inputs_of search.old walk.now.function_spans.now)
        outcomes.old.written (named_in section.name relocations.now)) }
    ensures written { OnOk result
        (outcomes.new.written
        ≡ slots_left (inputs_of search.old walk.now.function_spans.now) outcomes.old.written
        (named_in section.name relocations.now)) }
    ensures stops { walk.now.stops ≡ true
        → Leaves result outcomes.new.written
        (part_applied (inputs_of search.old walk.now.function_spans.now)
        (found_number section.found) relocations.now outcomes.old.written) }
    ensures search { search.new ≡ search.old }
{
    check_section(walk.stops, section.found)?;
    for relocation in relocations {
        add_record(alloc, search, walk, section, relocation, outcomes)?;
    }
    Ok(())
}

/// Applies the records of the section whose name is at an offset.
fn add_part(
    alloc: Global,
    search: &mut RecordSearch<'_>,
    walk: &RecordWalk<'_>,
    local: &Btf,
    part: &(u32, Items<Relocation>),
    outcomes: &mut RecordOutcomes,
) -> Result<(), BtfRelocationError>
    requires { search.old.local ≡ local.now }
    ensures records { OnOk result
        (walk.now.lists ≡ true
        → map outcome_without_texts outcomes.new.records
        ≡ map outcome_without_texts outcomes.old.records
        ++ outcomes_from (inputs_of search.old walk.now.function_spans.now)
        outcomes.old.written (named_in part.now.0 part.now.1)) }
    ensures written { OnOk result
        (outcomes.new.written
        ≡ slots_left (inputs_of search.old walk.now.function_spans.now) outcomes.old.written
        (named_in part.now.0 part.now.1)) }
    ensures stops { walk.now.stops ≡ true
        → LeavesAt result outcomes.new.written
        (named_applied (inputs_of search.old walk.now.function_spans.now) part.now
        outcomes.old.written) }
    ensures search { search.new ≡ search.old }
{
    let Ok(found) = section_number_at(walk.function_spans, local, part.0) else {
        return Err(BtfRelocationError::memory(alloc));
    };
    let section = NamedSection {
        name: part.0,
        found,
    };
    let relocations = part.1.as_slice();
    match add_records(alloc, search, walk, section, relocations, outcomes) {
        Ok(()) => Ok(()),
        Err(error) => Err(error_at(alloc, local, part.0, error)),
    }
}

/// Applies all records, section by section.
fn add_parts(
    alloc: Global,
    search: &mut RecordSearch<'_>,
    walk: &RecordWalk<'_>,
    local: &Btf,
    parts: &[(u32, Items<Relocation>)],
    outcomes: &mut RecordOutcomes,
) -> Result<(), BtfRelocationError>
    requires { search.old.local ≡ local.now }
    ensures records { OnOk result
        (walk.now.lists ≡ true
        → map outcome_without_texts outcomes.new.records
        ≡ map outcome_without_texts outcomes.old.records
        ++ outcomes_from (inputs_of search.old walk.now.function_spans.now)
        outcomes.old.written (named_records parts.now)) }
    ensures written { OnOk result
        (outcomes.new.written
        ≡ slots_left (inputs_of search.old walk.now.function_spans.now) outcomes.old.written
        (named_records parts.now)) }
    ensures stops { walk.now.stops ≡ true
        → LeavesAt result outcomes.new.written
        (all_applied (inputs_of search.old walk.now.function_spans.now) parts.now
        outcomes.old.written) }
{
    for part in parts {
        add_part(alloc, search, walk, local, part, outcomes)?;
    }
    Ok(())
}

/// Applies all records of an object, section by section and each over those before it.
///
/// A walk that does not stop goes on behind a record that is refused, which writes nothing.
///
/// # Errors
///
/// - Of a walk that stops, the first fault, with the name of its section.
/// - `OutOfMemory`, with an empty name: an allocation failed.
pub fn walk_all(
    alloc: Global,
    walk: &RecordWalk<'_>,
    local: &Btf,
    target: &Btf,
    parts: &[(u32, Items<Relocation>)],
) -> Result<RecordOutcomes, BtfRelocationError>
    ensures records { walk.now.lists ≡ true
        → IfOk result (λ outcomes.
        map outcome_without_texts outcomes.records
        ≡ record_outcomes (inputs_between local.now target.now walk.now.function_spans.now)
        parts.now) }
    ensures written { IfOk result (λ outcomes.
        outcomes.written
        ≡ record_slots (inputs_between local.now target.now walk.now.function_spans.now)
        parts.now) }
    ensures slots { walk.now.stops ≡ true
        → IfOk result (λ outcomes.
        slots_written (inputs_between local.now target.now walk.now.function_spans.now)
        parts.now
        ≡ Ok outcomes.written) }
    ensures fault { walk.now.stops ≡ true
        → IfErr result (λ e.
        MatchBool (is_memory_in_section e) (e.section ≡ [])
        (slots_written (inputs_between local.now target.now walk.now.function_spans.now)
        parts.now
        ≡ Err (without_texts_at e))) }
{
    let mut search = RecordSearch::new(alloc, local, target);
    let mut outcomes = RecordOutcomes {
        records: Items::new(alloc),
        written: ByKey::new(alloc),
    };
    add_parts(alloc, &mut search, walk, local, parts, &mut outcomes)?;
    Ok(outcomes)
}
