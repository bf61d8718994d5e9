//! Laws of BTF-defined maps.

ghost use Rattle.ebpf_btf_decls.specs.Laws.{LenientDeclaresAsStrict, LaterMembersStand, LaterInnerMembersStand};

/// Of two members of a map's struct with one name the later one counts, also in the struct of an inner map.
pub fn later_members_stand()
    ensures maps { LaterMembersStand }
    ensures inner_maps { LaterInnerMembersStand }
{}

/// The BTF-defined maps of a section without a fault in strict parsing are those of lenient parsing, without a fault.
pub fn lenient_declares_as_strict()
    ensures { LenientDeclaresAsStrict }
{}
