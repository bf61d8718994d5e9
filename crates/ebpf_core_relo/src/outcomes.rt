//! The outcome of each record of an object, also behind a record that is refused.

ghost use Rattle.std.specs.Prelude.{◌≡◌, [], map, Ok, Err, IfOk, IfErr, MatchBool};
ghost use Rattle.ebpf_core_relo.specs.RecordOutcomes.{record_outcomes, record_slots, outcome_without_texts};
ghost use Rattle.ebpf_core_relo.specs.Records.{is_memory_in_section, relocation_inputs_between, slots_written, without_texts_at};

use crate::absence::Absence;
use crate::error::BtfRelocationError;
use crate::spans::FunctionSpans;
use crate::walk::{RecordWalk, walk_all};
use ebpf_base::{ByKey, ByName, Items};
use ebpf_btf::Btf;
use ebpf_btf_ext::BtfExt;
use ebpf_core::{Outcome, RelocationError};
use ebpf_elf::SectionIndex;
use ebpf_model::Function;
use ebpf_parts::insn::bpf_insn;
use std::alloc::{AllocError, Global};

/// The outcome of each CO-RE record of an object, and the slots that all of them write.
#[derive(Debug, Drop)]
pub struct RecordOutcomes {
    /// The outcomes of the records in order, also behind a record that is refused.
    pub records: Items<RecordOutcome>,
    /// The slots that the records write, by the functions' keys. A record that is refused writes none.
    pub written: ByKey<Items<bpf_insn>>,
}

/// The outcome of one record.
#[derive(Debug, Drop)]
pub struct RecordOutcome {
    /// The offset of the section's name in the strings of the local types.
    pub section_name: u32,
    /// The position among the records of the section, from 0 on.
    pub number: usize,
    /// The slot of the record. `None` where no function of the section has it.
    pub slot: Option<RecordSlot>,
    /// The result of the record.
    pub result: RecordResult,
}

/// The slot of a record.
#[derive(Clone, Copy, Debug, PartialEq, Eq)]
pub struct RecordSlot {
    /// The key of the slot's function: the index of the section, and the address.
    pub function: (usize, u64),
    /// The number of the slot in the function, from 0 on.
    pub slot: usize,
}

/// The result of a record.
#[derive(Debug, Drop)]
pub enum RecordResult {
    /// The instruction carries a number. The number is 0 where the record asks whether something exists, and it does
    /// not.
    Value(Outcome),
    /// There is no number, and the instruction fails where it is executed.
    Absent(Absence),
    /// The record can't be applied, and the instruction is unchanged.
    Refused(RelocationError),
}

/// Returns the outcome of each CO-RE relocation of an object over the types of a kernel, and the slots that the
/// relocations write.
///
/// The relocations come section by section, in their order. Each is applied over those before it. The list goes on
/// behind a relocation that is refused, which writes nothing. A relocation has one of these results:
///
/// - `Value`: the instruction carries a number. It is 0 where the relocation asks whether a type, field or enumerator
///   exists, and it does not.
/// - `Absent`: no number, with the part that the kernel's types lack. The instruction fails where it is executed.
/// - `Refused`: the error that `relocate_slots` returns where this relocation is the first refused one. This includes a
///   section whose name can't be read, a name that no section has, and a slot that no function of the section has.
///
/// # Errors
///
/// - `AllocError`: an allocation failed.
pub fn record_outcomes(
    alloc: Global,
    functions: &ByKey<Function>,
    section_infos: &ByName<SectionIndex>,
    local: &Btf,
    relocations: &BtfExt,
    target: &Btf,
) -> Result<RecordOutcomes, AllocError>
    ensures records { IfOk result (λ outcomes.
        map outcome_without_texts outcomes.records
        ≡ record_outcomes
        (relocation_inputs_between local.now target.now functions.now section_infos.now)
        relocations.now.relocations) }
    ensures written { IfOk result (λ outcomes.
        outcomes.written
        ≡ record_slots
        (relocation_inputs_between local.now target.now functions.now section_infos.now)
        relocations.now.relocations) }
{
    let function_spans = FunctionSpans::new(alloc, functions, section_infos)?;
    let walk = RecordWalk {
        function_spans: &function_spans,
        lists: true,
        stops: false,
    };
    match walk_all(alloc, &walk, local, target, relocations.relocations()) {
        Ok(outcomes) => Ok(outcomes),
        Err(_) => Err(AllocError),
    }
}

/// Returns the outcomes and the slots of `record_outcomes`, or the first fault.
///
/// # Errors
///
/// Those of `relocate_slots`.
pub fn relocate_with_outcomes(
    alloc: Global,
    functions: &ByKey<Function>,
    section_infos: &ByName<SectionIndex>,
    local: &Btf,
    relocations: &BtfExt,
    target: &Btf,
) -> Result<RecordOutcomes, BtfRelocationError>
    ensures records { IfOk result (λ outcomes.
        map outcome_without_texts outcomes.records
        ≡ record_outcomes
        (relocation_inputs_between local.now target.now functions.now section_infos.now)
        relocations.now.relocations) }
    ensures slots { IfOk result (λ outcomes.
        slots_written
        (relocation_inputs_between local.now target.now functions.now section_infos.now)
        relocations.now.relocations
        ≡ Ok outcomes.written) }
    ensures fault { IfErr result (λ e.
        MatchBool (is_memory_in_section e) (e.section ≡ [])
        (slots_written
        (relocation_inputs_between local.now target.now functions.now
        section_infos.now) relocations.now.relocations
        ≡ Err (without_texts_at e))) }
{
    let Ok(function_spans) = FunctionSpans::new(alloc, functions, section_infos) else {
        return Err(BtfRelocationError::memory(alloc));
    };
    let walk = RecordWalk {
        function_spans: &function_spans,
        lists: true,
        stops: true,
    };
    walk_all(alloc, &walk, local, target, relocations.relocations())
}
