//! What holds of every relocation and all types.

ghost use Rattle.ebpf_core.specs.SamePathValue.{OutcomesAreOfSamePaths, SamePathValueIsOne, SamePathsAreOutcomes};
ghost use Rattle.ebpf_core.specs.Laws.{AmongFaultIsFirst, AmongFirstFaultRefuses, FaultIsFirst, FirstFaultRefuses, FirstVariantIsOne, FirstVariantIsSo, LocalSideIsOne, LocalSideIsSo, OutcomesRestOnQuestions};

/// The local side of a relocation, step by step, is the one that the equation gives: the way from part to part of its
/// access string, up to the first fault.
pub fn one_local_side()
    ensures so { LocalSideIsSo }
    ensures alone { LocalSideIsOne }
{}

/// The first variant of a name, by the variants' numbers, has the value that the equation gives.
pub fn one_first_variant()
    ensures so { FirstVariantIsSo }
    ensures alone { FirstVariantIsOne }
{}

/// Where a relocation is refused, it is with the fault of the first step that has one: of its local side, of its
/// candidates, of matching, candidate by candidate, of the local field, of the values, match by match, and then of
/// matches that differ.
pub fn first_fault_refuses()
    ensures among { AmongFaultIsFirst }
    ensures among_refuses { AmongFirstFaultRefuses }
    ensures outcome { FaultIsFirst }
    ensures outcome_refuses { FirstFaultRefuses }
{}

/// Relocations with the same type, access string and kind come to the same outcome: it rests neither on their numbers
/// nor on their instructions.
#[tactic(auto, using(crate::proofs::Searching::outcomes_rest_on_questions))]
pub fn outcomes_rest_on_questions()
    ensures { OutcomesRestOnQuestions }
{}

/// An outcome is the value of the same named path in the target, as `SamePathValue` says it without the search: the
/// kind's value of the field, enumerator or type that has the same names in a target type of the same kind and name.
///
/// Each outcome is such a value, and each such value is the outcome, so that there is one at most. Where the target
/// types that have the path differ in its bit offset or value, there is none, and the relocation is refused.
pub fn one_same_path_value()
    ensures so { OutcomesAreOfSamePaths }
    ensures back { SamePathsAreOutcomes }
    ensures alone { SamePathValueIsOne }
{}
