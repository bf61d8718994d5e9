//! The causes for which a slot of a finished program fails on a kernel.

ghost use Rattle.std.specs.Prelude.{◌≡◌, slice_get};
ghost use Rattle.std.specs.Option.{option_copied};
ghost use Rattle.ebpf_load_info.specs.KernelNumbers.{knows_helper, knows_map_type};
ghost use Rattle.ebpf_verdict.specs.Causes.{call_cause, calls_by_number, helper_cause, map_cause, map_number, names_map, slot_cause, type_cause};

use ebpf_load_info::KernelNumbers;
use ebpf_parts::insn::bpf_insn;
use ebpf_parts::insn::opcodes::{
    ABSENT_KFUNC, BPF_PSEUDO_MAP_FD, BPF_PSEUDO_MAP_VALUE, CALL, LD_IMM64,
};

/// The cause for which a slot of a finished program fails on a kernel.
#[derive(Clone, Copy, Debug, PartialEq, Eq)]
pub enum Cause {
    /// A CO-RE relocation without a value poisoned the slot.
    Poisoned,
    /// The kernel has no helper function of the number.
    NoHelper {
        /// The number.
        number: u32,
    },
    /// The slot calls a weak extern that the kernel lacks.
    NoFunction {
        /// The index of the extern's symbol.
        symbol: usize,
    },
    /// The kernel has no maps of the type of a map that the slot refers to.
    NoMapType {
        /// The position of the map in byte order of the names of the object's maps.
        map: usize,
        /// The number of its type.
        number: u32,
    },
}

/// Whether a slot calls a helper function, or an extern that is absent, by a number.
fn calls_by_number(slot: bpf_insn) -> bool
    ensures { result ≡ calls_by_number slot }
{
    slot.code == CALL && slot.src_reg() == 0
}

/// The cause for which a call of the helper function with a number fails.
fn helper_cause(number: u32, known: Option<bool>) -> Option<Cause>
    ensures { result ≡ helper_cause number known }
{
    match known {
        Some(false) => Some(Cause::NoHelper { number }),
        Some(true) => None,
        None => None,
    }
}

/// The cause for which a call by a number fails.
fn call_cause(kernel: &KernelNumbers<'_>, number: u32) -> Option<Cause>
    ensures { result ≡ call_cause kernel.now number }
{
    if number >= ABSENT_KFUNC {
        let symbol = (number - ABSENT_KFUNC) as usize;
        return Some(Cause::NoFunction { symbol });
    }
    helper_cause(number, kernel.knows_helper(number))
}

/// The cause for which a slot fails where it is reached.
pub fn slot_cause(kernel: &KernelNumbers<'_>, slot: bpf_insn) -> Option<Cause>
    ensures { result ≡ slot_cause kernel.now slot }
{
    if slot.is_poisoned() {
        return Some(Cause::Poisoned);
    }
    if !calls_by_number(slot) {
        return None;
    }
    call_cause(kernel, slot.imm.cast_unsigned())
}

/// Whether a slot is the first of a load that refers to a map.
fn names_map(slot: bpf_insn) -> bool
    ensures { result ≡ names_map slot }
{
    slot.code == LD_IMM64
        && (slot.src_reg() == BPF_PSEUDO_MAP_FD || slot.src_reg() == BPF_PSEUDO_MAP_VALUE)
}

/// The position of the map of a descriptor, which are 1, 2, ...
fn map_number(descriptor: u32) -> Option<usize>
    ensures { result ≡ map_number descriptor }
{
    if descriptor == 0 {
        return None;
    }
    Some((descriptor - 1) as usize)
}

/// The cause for which maps of a type can't be made.
fn type_cause(map: usize, number: u32, known: Option<bool>) -> Option<Cause>
    ensures { result ≡ type_cause map number known }
{
    match known {
        Some(false) => Some(Cause::NoMapType { map, number }),
        Some(true) => None,
        None => None,
    }
}

/// The cause for which the map that a slot refers to can't be made; `map_types` has the types of the object's maps.
pub fn map_cause(kernel: &KernelNumbers<'_>, map_types: &[u32], slot: bpf_insn) -> Option<Cause>
    ensures { result ≡ map_cause kernel.now map_types.now slot }
{
    if !names_map(slot) {
        return None;
    }
    let map = map_number(slot.imm.cast_unsigned())?;
    let number = *map_types.get(map)?;
    type_cause(map, number, kernel.knows_map_type(number))
}
