//! Theorems about the least types of a kernel.

ghost use Rattle.ebpf_least_types.specs.IdUses.{UsesAreAll};
ghost use Rattle.ebpf_least_types.specs.LeastTypes.{SlotsAreAlike};

/// Over types with the same outcomes, the CO-RE relocations of an object write the same slots as over the kernel's, or are
/// refused with the same error, where none of them asks for an id of the kernel's types.
///
/// Where nothing in objects needs such an id (`kernel_id_uses`), none of their relocations asks for one.
#[tactic(auto, using(crate::proofs::SameSlots::slots_are_alike, crate::proofs::NoUses::uses_are_all))]
pub fn least_types_relocate_alike()
    ensures slots { SlotsAreAlike }
    ensures uses { UsesAreAll }
{}
