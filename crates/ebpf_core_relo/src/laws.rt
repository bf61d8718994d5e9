//! Theorems about the slots that CO-RE records write.

ghost use Rattle.ebpf_core_relo.specs.Absences.{AbsencesAreOfPaths, FurthestComesFurthest, NamesAreMisfits, NoValueIsOfMatches, NoneLeads};
ghost use Rattle.ebpf_core_relo.specs.RecordOutcomes.{OtherSlotsStay, PutSlotsStand, RecordsAloneAreCarried, RecordsHaveSections, RecordsHaveSlots, RecordsKeepShapes, SlotsStayAsMany, FirstRefusalIsTheFault, OutcomesAreInOrder, SlotsAreTheSame};
ghost use Rattle.ebpf_core_relo.specs.Records.{FaultsAreRefusals, RefusalIsOne};
ghost use Rattle.ebpf_core_relo.specs.Carried.{WrittenSlotsCarry};

/// The slots that one record alone touches are the slots of its function with the record's outcome written into them.
///
/// Other records make no difference there.
#[tactic(auto, using(crate::proofs::RecordRuns::records_alone_are_carried))]
pub fn records_alone_are_carried()
    ensures { RecordsAloneAreCarried }
{}

/// Where all records were applied, the list of records with their sections' indexes lacks none of them, and each record
/// names a slot that the object has.
pub fn records_have_slots()
    ensures located { RecordsHaveSections }
    ensures slots { RecordsHaveSlots }
{}

/// A slot that no record touches is unchanged. Each function keeps its number of slots.
pub fn other_slots_stay()
    ensures slots { OtherSlotsStay }
    ensures as_many { SlotsStayAsMany }
{}

/// Once the slots that records write are put, they are the functions' own slots. All else of the functions is
/// unchanged.
pub fn put_slots_stand()
    ensures slots { PutSlotsStand }
    ensures shapes { RecordsKeepShapes }
{}

/// The slots of a function after an outcome is written, slot by slot.
///
/// - The record's slot carries the number, as the slot's class has it, or fails where it is executed.
/// - The slot behind a wide load carries the upper half of the number, or fails with the wide load.
/// - All other slots are unchanged.
#[tactic(auto, using(crate::proofs::OutcomeSlots::written_slots_carry))]
pub fn written_slots_carry()
    ensures { WrittenSlotsCarry }
{}

/// The fault with which the records of an object are refused is that of the first record that can't be applied.
///
/// All records before it were applied. Over the slots that they wrote, that record has this fault, and the error names
/// its section. The fault is one of these:
///
/// - No function holds the record's instruction.
/// - The first step of the record's search that has a fault has this one.
/// - The slot can't carry the outcome.
/// - The section's name can't be read, or no section has the name.
pub fn records_are_refused()
    ensures refused { FaultsAreRefusals }
    ensures alone { RefusalIsOne }
{}

/// The outcomes of the records of an object are in the records' order, each over the slots that the records before it
/// wrote.
#[tactic(auto, using(crate::proofs::FirstRefusal::in_order))]
pub fn outcomes_are_in_order()
    ensures { OutcomesAreInOrder }
{}

/// `relocate_slots` returns an error exactly where a record is refused, with the first of these refusals and its
/// section. Else it returns the slots that the records write.
///
/// A section without records is reported by `relocate_slots` alone.
pub fn first_refusal_is_the_fault()
    ensures fault { FirstRefusalIsTheFault }
    ensures slots { SlotsAreTheSame }
{}

/// Where a record has no value, both sides of the record can be read, and the reason is that of its path among its
/// candidates.
#[tactic(auto, using(crate::proofs::MatchAbsences::absences_are_of_paths))]
pub fn absences_are_of_paths()
    ensures { AbsencesAreOfPaths }
{}

/// The candidate that comes furthest along a field's path is the first of those with the maximum number of steps that
/// lead somewhere.
///
/// Where there is no such candidate, no step leads anywhere.
pub fn furthest_leads_furthest()
    ensures furthest { FurthestComesFurthest }
    ensures nowhere { NoneLeads }
{}

/// The reason of a field is `NoValue` exactly where a candidate matches.
#[tactic(auto, using(crate::proofs::MatchAbsences::no_value_is_of_matches))]
pub fn no_value_is_of_matches()
    ensures { NoValueIsOfMatches }
{}

/// Where a search for a name finds no member that fits, the type has a member of the name exactly where the search met
/// one that does not fit.
#[tactic(auto, using(crate::proofs::MisfitNames::names_are_misfits))]
pub fn names_are_misfits()
    ensures { NamesAreMisfits }
{}
