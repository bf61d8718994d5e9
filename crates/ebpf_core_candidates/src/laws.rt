//! Laws about candidates.

ghost use Rattle.ebpf_core_candidates.specs.Candidates.{CandidatesAreOfKind, CandidatesIncrease, CandidatesAreOfEither, CandidatesOfBothIncrease};

/// Proves that each id of `TypeIndex::candidates` is the id of a type of the kind, and that the ids increase.
///
/// The same holds for `TypeIndex::candidates_of_both`, whose types are of either kind.
pub fn candidates_are_types()
    ensures of_kind { CandidatesAreOfKind }
    ensures increasing { CandidatesIncrease }
    ensures of_either { CandidatesAreOfEither }
    ensures both_increasing { CandidatesOfBothIncrease }
{}
