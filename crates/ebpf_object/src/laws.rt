//! What holds of each parsed object, and of what passes make of it.

ghost use Rattle.ebpf_object.specs.BothModes.{ObjectsAgree};
ghost use Rattle.ebpf_object.specs.Headline.{PassesFinish};
ghost use Rattle.ebpf_object.specs.LinkedPrograms.{OneLinking, MapsTellOfLinked};
ghost use Rattle.ebpf_object.specs.OlderHelpers.{TwiceIsOnce};
ghost use Rattle.ebpf_object.specs.Prepared.{OnePreparation, OneStaging};
ghost use Rattle.ebpf_object.specs.Patches.{GreatestNameStands, OtherBytesStay, LengthsStay, MapsStay, PatchesAreValues, ValuesArePatches};

pub use ebpf_core::laws::{
    first_fault_refuses, one_first_variant, one_local_side, outcomes_rest_on_questions,
};
pub use ebpf_core_relo::laws::{
    first_refusal_is_the_fault, other_slots_stay, outcomes_are_in_order, put_slots_stand,
    records_alone_are_carried, records_are_refused, records_have_slots, written_slots_carry,
};
pub use ebpf_parsing::laws::{
    externs_are_unresolved, functions_stand_at_their_keys, functions_tile, later_entries_stand,
    lenient_refuses_no_name, maps_have_their_symbols, programs_have_functions,
    relocation_tables_are_of_code, relocations_name_symbols, relocations_stand_at_their_offsets,
    sections_tile, strict_gives_nothing_lenient, symbols_stand_at_their_indices,
};
pub use ebpf_parts::laws::{kinds_of_names_agree, names_are_read};
pub use ebpf_reloc::laws::{
    link_maps_match, link_maps_refuse_alike, one_link_map, one_result, plain_slots_stay,
};
pub use ebpf_reloc::pass_laws::{offsets_add_up, passes_keep_shapes};

/// What `Object::patch_map_data` makes of the maps' data, byte by byte: of the variables whose value has a byte for a
/// place, the one whose name is the greatest in byte order gives it, and each other byte is as before.
pub fn greatest_name_stands()
    ensures covered { GreatestNameStands }
    ensures uncovered { OtherBytesStay }
    ensures lengths { LengthsStay }
    ensures maps_stay { MapsStay }
    ensures patches_are_values { PatchesAreValues }
    ensures values_are_patches { ValuesArePatches }
{}

/// What `Object::link_map` tells of a program before `Object::relocate_calls` links it holds of the linked function:
/// its copies stand in the order in which they were linked and have all its slots, and the slot at each reference's
/// place holds the distance from the slot after it to the base of a listed copy of the function that it refers to.
pub fn maps_tell_of_linked()
    ensures { MapsTellOfLinked }
{}

/// What the passes leave of an object, each called at most once, in the order types, maps, externs, calls, and each with
/// Ok: every program is its function followed by every function its references reach, each once, with the visits of the
/// separate functions; and every slot that one type relocation alone writes carries its kind's value for the same named
/// path in the target, wherever it stands in the finished object. The premise, `Chain`, is what the contracts of
/// `Object::relocate_btf`, `relocate_maps`, `resolve_externs` or `resolve_lines`, `relocate_externs` and
/// `relocate_calls` say of the objects on the way, for any choice of them, any descriptors and any sections of code.
/// `prepare` is one case of it.
#[tactic(auto, using(crate::proofs::Headline::passes_finish))]
pub fn passes_finish()
    ensures { PassesFinish }
{}

/// What `Object::relocate_calls` promises of the functions leaves one map of them: it follows from the functions,
/// symbols, relocations and programs as values, and from which sections are named.
pub fn linking_has_one_result()
    ensures { OneLinking }
{}

/// What `prepare` promises leaves one answer, where the bytes of the kernel's symbols are known: from one file and the same
/// steps it gives one object, or one refusal and no object. Texts for people in the refusal aside, and but for want of
/// memory and for a line that can't be read, which may come in place of an answer. The same holds of `prepare_object` and
/// its neighbours, from one object.
pub fn preparing_has_one_result()
    ensures object { OneStaging }
    ensures file { OnePreparation }
{}

/// What `Object::sanitize_functions` makes of functions is the same where it is done twice.
#[tactic(auto, using(crate::proofs::Sanitizing::twice))]
pub fn sanitizing_twice_is_once()
    ensures { TwiceIsOnce }
{}

/// Of a little-endian file for eBPF, or for no machine, that `Object::parse` takes, `Object::parse_as` gives the same
/// object in both modes, and refuses it in neither.
#[tactic(auto, using(crate::proofs::Modes::modes_agree))]
pub fn modes_agree()
    ensures { ObjectsAgree }
{}
