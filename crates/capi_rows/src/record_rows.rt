//! The outcomes of CO-RE records, as C reads them.

ghost use Rattle.std.specs.Prelude.{◌≡◌, ◌∷◌, [], IfOk};
ghost use Rattle.capi_rows.specs.Listings.{zero_terminated};
ghost use Rattle.capi_rows.specs.Records.{absence_number, absence_of_result, fault_of_result, outcome_row, result_number, section_name_in, slot_or_zeros, value_of, copy_row, reference_row, reference_rows};

use crate::buffers::{Listing, RowFrom, add_row};
use crate::codes::flag;
use crate::refusals::record_fault;
use ebpf_base::{Items, Text};
use ebpf_btf::{Btf, BtfError};
use ebpf_core_relo::{Absence, RecordOutcome, RecordResult, RecordSlot};
use ebpf_reloc::{CodeCopy, PlacedReference};
use std::alloc::{AllocError, Global};

/// The outcome of a CO-RE record over a kernel's types.
#[repr(C)]
#[derive(Clone, Copy)]
pub struct ebpf_record_outcome {
    /// Where its section's name begins in the text.
    pub name_at: usize,
    /// How many bytes that name has, 0 where it can't be read.
    pub name_len: usize,
    /// Its place among the records of its section, from 0 on.
    pub number: usize,
    /// The index of the section of the function that has its slot.
    pub section: usize,
    /// The function's address there.
    pub address: u64,
    /// The number of its slot in the function.
    pub slot: usize,
    /// The value, 0 where there is none.
    pub value: u64,
    /// 1 where a function has its slot, else 0.
    pub has_slot: u32,
    /// 0 where it has a value, 1 where it has none, 2 where it can't be applied.
    pub result: u32,
    /// Why it has no value, from 1 on; 0 where that is not so.
    pub absence: u32,
    /// The number by which the pass refuses it, 0 where it doesn't.
    pub fault: u32,
}

/// A value 0, none 1, refused 2.
fn result_number(outcome: &RecordResult) -> u32
    ensures { result ≡ result_number outcome.now }
{
    match outcome {
        RecordResult::Value(_) => 0,
        RecordResult::Absent(_) => 1,
        RecordResult::Refused(_) => 2,
    }
}

/// The value, 0 where there is none.
fn value_of(outcome: &RecordResult) -> u64
    ensures { result ≡ value_of outcome.now }
{
    match outcome {
        RecordResult::Value(outcome) => outcome.value.unwrap_or(0),
        RecordResult::Absent(_) | RecordResult::Refused(_) => 0,
    }
}

/// Why there is no value.
fn absence_number(absence: Absence) -> u32
    ensures { result ≡ absence_number absence }
{
    match absence {
        Absence::NoType => 1,
        Absence::TypeOfAnotherKind => 2,
        Absence::NoMember => 3,
        Absence::MemberOfAnotherKind => 4,
        Absence::NoEnumerator => 5,
        Absence::NoValue => 6,
    }
}

/// Why there is no value, 0 where that is not why.
fn absence_of_result(outcome: &RecordResult) -> u32
    ensures { result ≡ absence_of_result outcome.now }
{
    match outcome {
        RecordResult::Absent(absence) => absence_number(*absence),
        RecordResult::Value(_) | RecordResult::Refused(_) => 0,
    }
}

/// The number by which a pass refuses such a record, 0 where it is not refused.
pub fn fault_of_result(outcome: &RecordResult) -> u32
    ensures { result ≡ fault_of_result outcome.now }
{
    match outcome {
        RecordResult::Refused(fault) => record_fault(fault).0,
        RecordResult::Value(_) | RecordResult::Absent(_) => 0,
    }
}

/// The slot of a record; zeros where no function has it.
pub fn slot_or_zeros(slot: Option<RecordSlot>) -> RecordSlot
    ensures { result ≡ slot_or_zeros slot }
{
    match slot {
        Some(slot) => slot,
        None => RecordSlot {
            function: (0, 0),
            slot: 0,
        },
    }
}

/// The name of a record's section, empty where it can't be read.
#[tactic(auto, using(crate::proofs::SectionNames::read, crate::proofs::SectionNames::unread))]
fn section_name_in(alloc: Global, types: &Option<Btf>, offset: u32) -> Result<Text, AllocError>
    ensures { IfOk result (λ name. name ≡ section_name_in types.now offset) }
{
    let Some(types) = types else {
        return Ok(Text::empty(alloc));
    };
    match types.string_at(offset) {
        Ok(name) => Text::from_str(alloc, name.as_str()),
        Err(BtfError::OutOfMemory) => Err(AllocError),
        Err(_) => Ok(Text::empty(alloc)),
    }
}

/// The row of a record of a section whose name begins at an offset of the text.
fn outcome_row(name: &str, outcome: &RecordOutcome, name_at: usize) -> ebpf_record_outcome
    ensures { result ≡ outcome_row name.now outcome.now name_at }
{
    let place = slot_or_zeros(outcome.slot);
    ebpf_record_outcome {
        name_at,
        name_len: name.len(),
        number: outcome.number,
        section: place.function.0,
        address: place.function.1,
        slot: place.slot,
        value: value_of(&outcome.result),
        has_slot: flag(outcome.slot.is_some()),
        result: result_number(&outcome.result),
        absence: absence_of_result(&outcome.result),
        fault: fault_of_result(&outcome.result),
    }
}

impl RowFrom<RecordOutcome, Option<Btf>> for ebpf_record_outcome {
    ghost rows_of = { λ types r name_at.
        outcome_row (section_name_in types r.section_name) r name_at ∷ [] };

    ghost text_of = { λ types r. zero_terminated (section_name_in types r.section_name) };

    fn add(
        listing: &mut Listing<ebpf_record_outcome>,
        context: &Option<Btf>,
        value: &RecordOutcome,
    ) -> Result<(), AllocError> {
        let alloc = *listing.text.allocator();
        let name = section_name_in(alloc, context, value.section_name)?;
        let row = outcome_row(name.as_str(), value, listing.text.len());
        add_row(listing, row, name.as_str())?;
        Ok(())
    }
}

/// A copy of a function in a linked program.
#[repr(C)]
#[derive(Clone, Copy)]
pub struct ebpf_code_copy {
    /// Where the function's name begins in the text.
    pub name_at: usize,
    /// How many bytes its name has.
    pub name_len: usize,
    /// The slot of the linked program at which the copy begins.
    pub base: usize,
    /// How many slots it has.
    pub slots: usize,
    /// The index of the function's section.
    pub section: usize,
    /// The function's address there.
    pub address: u64,
}

/// A slot of a linked program that refers to a copy.
#[repr(C)]
#[derive(Clone, Copy)]
pub struct ebpf_code_reference {
    /// The number of the slot.
    pub slot: usize,
    /// The slot at which the copy begins that it refers to.
    pub base: usize,
    /// 1 where it calls the function, 0 where it loads its address.
    pub is_call: u32,
}

impl RowFrom<CodeCopy, ()> for ebpf_code_copy {
    ghost rows_of = { λ _ c name_at. copy_row c name_at ∷ [] };

    ghost text_of = { λ _ c. zero_terminated c.name };

    fn add(
        listing: &mut Listing<ebpf_code_copy>,
        _context: &(),
        value: &CodeCopy,
    ) -> Result<(), AllocError> {
        let row = ebpf_code_copy {
            name_at: listing.text.len(),
            name_len: value.name.len(),
            base: value.base,
            slots: value.slots,
            section: value.key.0,
            address: value.key.1,
        };
        add_row(listing, row, value.name.as_str())
    }
}

/// The row of a reference.
fn reference_row(reference: PlacedReference) -> ebpf_code_reference
    ensures { result ≡ reference_row reference }
{
    ebpf_code_reference {
        slot: reference.place,
        base: reference.base,
        is_call: flag(reference.is_call),
    }
}

/// The rows of references, in their order.
pub fn list_references(
    alloc: Global,
    references: &[PlacedReference],
) -> Result<Items<ebpf_code_reference>, AllocError>
    ensures { IfOk result (λ rows. rows ≡ reference_rows references.now) }
{
    let mut rows = Vec::with_capacity(alloc, references.len())?;
    for reference in references {
        rows.push(reference_row(*reference))?;
    }
    Ok(Items::from_vec(rows))
}
