//! Theorems about limits.

ghost use Rattle.ebpf_limits.specs.OwnedBytes.{ObjectsOwnWhatIsMade};
ghost use Rattle.ebpf_limits.specs.Within.{ParsingHasNoLimit};

/// `Object::parse` and `Object::parse_as` never return `TooLarge`. Only `parse_within` returns it.
pub fn parsing_has_no_limit()
    ensures { ParsingHasNoLimit }
{}

/// The object of a file owns at most the number of bytes that `parse_within` counts for the file.
///
/// So an object that `parse_within` returns owns at most the limit.
#[tactic(auto, using(crate::proofs::OwnedObjects::own_what_is_made))]
pub fn objects_own_what_is_made()
    ensures { ObjectsOwnWhatIsMade }
{}
