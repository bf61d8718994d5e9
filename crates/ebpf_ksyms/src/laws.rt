//! Laws of the outcomes of externs.

ghost use Rattle.ebpf_ksyms.specs.Outcomes.{NamesRefuseByOutcomes, ResultsAreWritten, TypesRefuseByOutcomes};

/// Resolution follows from the outcomes of the externs. It refuses with the first refusal of an extern with a type, in
/// the order of the names; next come the faults of the lines, and last the first refusal of an extern without a type.
/// If none is refused, the externs after resolution are those with all results written.
#[tactic(auto, using(crate::proofs::ByOutcomes::types_refuse, crate::proofs::ByOutcomes::names_refuse, crate::proofs::ByOutcomes::results_are_written,))]
pub fn resolution_follows_outcomes()
    ensures types { TypesRefuseByOutcomes }
    ensures names { NamesRefuseByOutcomes }
    ensures externs { ResultsAreWritten }
{}
