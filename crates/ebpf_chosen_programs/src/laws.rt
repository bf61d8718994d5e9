//! What holds of an object after programs are left out.

ghost use Rattle.ebpf_chosen_programs.specs.Laws.{OneLeavingOut, ReferencesOfReachedStay, ReferredExternsStay, RelocationsOfReachedStay};

/// A function that a remaining program reaches has all its relocations. No relocation that is left refers to an extern
/// that is gone. So nothing changes for a remaining program: linking follows the same references.
pub fn remaining_programs_keep_all()
    ensures relocations { RelocationsOfReachedStay }
    ensures references { ReferencesOfReachedStay }
    ensures externs { ReferredExternsStay }
{}

/// An object and names of programs leave one object.
pub fn leaving_out_has_one_result()
    ensures { OneLeavingOut }
{}
