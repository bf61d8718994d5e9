//! Slots that refer to functions.

ghost use Rattle.std.specs.Prelude.{◌≡◌, ◌+◌, ◌<◌, ◌^◌, pos, ◌-ℤ◌};
ghost use Rattle.ebpf_linker.specs.Functions.{relinked};

use ebpf_parts::insn::bpf_insn;
use ebpf_parts::insn::opcodes::BPF_PSEUDO_FUNC;

/// The slot with the distance to the function that it refers to. If the slot is no such call, its source register becomes
/// `BPF_PSEUDO_FUNC`, which marks the address of a function.
pub fn relinked(slot: bpf_insn, distance: i32) -> bpf_insn
    ensures { result ≡ relinked slot distance }
{
    let regs = if slot.is_pseudo_call() {
        slot.regs
    } else {
        BPF_PSEUDO_FUNC * 16 + slot.dst_reg()
    };
    bpf_insn {
        regs,
        imm: distance,
        ..slot
    }
}

/// The distance to a slot from the slot after `place`, in slots.
pub fn distance(place: usize, to: usize) -> i32
    requires place { place < 2 ^ 31 }
    requires to { to < 2 ^ 31 }
    ensures { result ≡ pos to -ℤ pos (place + 1) }
{
    (to as i64 - place as i64 - 1) as i32
}
