//! Laws of slots, and of the names of program sections.

ghost use Rattle.ebpf_parts.specs.ProgramTypes.{TypesAgree, NoNameIsOther, LenientKeepsKinds, LenientTakesNames};
ghost use Rattle.ebpf_parts.specs.Slots.{SlotIsBytes, SlotsAreBytes};

/// The bytes of a slot are the eight that it was read from. The bytes of all slots, one after the other, are those that
/// they were read from, up to the last whole slot.
pub fn slots_are_bytes()
    ensures one { SlotIsBytes }
    ensures concatenated { SlotsAreBytes }
{}

/// Where `ProgramSection::from_str` has a kind for a name and `program_kind` one too, both load its programs as one type.
pub fn kinds_of_names_agree()
    ensures { TypesAgree }
{}

/// `ProgramSection::from_str` never returns `Other`. A name that it accepts has the same kind in lenient parsing, which
/// refuses no name.
pub fn names_are_read()
    ensures stated { NoNameIsOther }
    ensures kept { LenientKeepsKinds }
    ensures taken { LenientTakesNames }
{}
