//! Theorems about the names of program sections.

ghost use Rattle.ebpf_load_info.specs.AttachTargets.{WantedAsKinds};

/// A section has a target that is a type exactly where `program_kind` reports that its programs are loaded with the id
/// of a type (`wants_target_type`).
#[tactic(auto, using(crate::proofs::Targets::wanted_as_kinds))]
pub fn targets_are_wanted()
    ensures { WantedAsKinds }
{}
