//! What holds of the results of preparing.

ghost use Rattle.ebpf_outcomes.specs.CallOutcomes.{CallsRefuseByOutcomes};
ghost use Rattle.ebpf_outcomes.specs.OneResult.{PreparingHasOneResult, StagingHasOneResult};
ghost use Rattle.ebpf_outcomes.specs.SlotOutcomes.{ExternsRefuseByOutcomes, MapsRefuseByOutcomes};

/// What `prepare` promises leaves one result where the bytes of the kernel's symbols are known, those of a `SymbolText` or
/// those of a reader: from one file and the same steps it gives one object, or one refusal and no object. Exceptions are
/// texts for people in the refusal, out of memory, and the `io::Error` of a line that can't be read. A reader may fail at
/// any line; a text fails where a line isn't UTF-8, each time. The same holds of `prepare_object` and its neighbours, from
/// one object.
pub fn preparing_has_one_result_by_source()
    ensures object { StagingHasOneResult }
    ensures file { PreparingHasOneResult }
{}

/// Writing descriptors, and writing externs, refuses an object exactly where an outcome of the pass is a refusal, and then
/// with the error of the first.
#[tactic(auto, using(crate::proofs::SlotOutcomes::maps_refuse, crate::proofs::SlotOutcomes::externs_refuse))]
pub fn passes_refuse_by_outcomes()
    ensures maps { MapsRefuseByOutcomes }
    ensures externs { ExternsRefuseByOutcomes }
{}

/// Linking refuses programs exactly where an outcome is a refusal, and then with the first.
#[tactic(auto, using(crate::proofs::CallOutcomes::calls_refuse))]
pub fn linking_refuses_by_outcomes()
    ensures { CallsRefuseByOutcomes }
{}
