//! What follows of linked programs.

ghost use Rattle.ebpf_reloc.specs.Laws.{OneResult, OneProgram, OwnSlotsStay, CopiedSlotsStay, OneLinkMap, OneLinkMapAnswer, RefusedAsLinking, LinkMapsMatch, WithLinkMapAreLinked, FirstWithoutLinkMap, AllWithLinkMaps, LinkedBehaveAlike};

/// What `relocate_calls` promises leaves one result, out of memory aside: the functions, the order of the copies
/// in each, and the error. It follows from the functions, symbols, relocations, sections and programs as values,
/// and from no order in which a hashed map holds them.
pub fn one_result()
    ensures result { OneResult }
    ensures program { OneProgram }
{}

/// A slot that refers to no function stands unchanged in the linked program: a slot of the program at its own
/// place, a slot of a function that it reaches at the base of each copy plus its number.
pub fn plain_slots_stay()
    ensures own { OwnSlotsStay }
    ensures copied { CopiedSlotsStay }
{}

/// Under every semantics of instructions over states of any type `S`, from every start and after every number of steps,
/// a linked program is in the state of the separate functions, at the corresponding slot.
///
/// Each reference is on a pseudo call or a wide load. Nothing is said of a separate run that has left its function.
#[tactic(auto, using(crate::proofs::OneResult::linked_behave_alike))]
pub fn linked_behave_alike<S>()
    ensures { LinkedBehaveAlike S }
{}

/// What `NumberedFunctions::program_link_map` promises leaves one link map of a program, with its copies in one order, and one answer, want of
/// memory aside. It is refused exactly where `relocate_calls` refuses the program alone, with the same error.
pub fn one_link_map()
    ensures map { OneLinkMap }
    ensures answer { OneLinkMapAnswer }
    ensures refusal { RefusedAsLinking }
{}

/// The link map of a program is that of the linked program: the copies stand in the order in which they are linked and
/// have all slots, and the slot at each reference's place holds the distance from the slot after it to the base of
/// a listed copy of the function that it refers to. Each program that has a link map can be linked.
pub fn link_maps_match()
    ensures tell { LinkMapsMatch }
    ensures linked { WithLinkMapAreLinked }
{}

/// Making the link maps of programs one after the other refuses exactly where `relocate_calls` refuses them, with the
/// same error: that of the first program without a link map.
pub fn link_maps_refuse_alike()
    ensures first { FirstWithoutLinkMap }
    ensures none { AllWithLinkMaps }
{}
