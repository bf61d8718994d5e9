//! What holds of every path and every type.

ghost use Rattle.ebpf_core.specs.Places.{FirstMemberIsOne, PathLeadsSo, PlaceIsOne};

/// No two answers are the first member of a name, among the entries of a type's view by their indices.
pub fn one_first_member()
    ensures { FirstMemberIsOne }
{}

/// A path leads to one place, step by step, which is the one that the equation gives.
pub fn one_place()
    ensures leads { PathLeadsSo }
    ensures alone { PlaceIsOne }
{}
