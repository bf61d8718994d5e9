//! Slots of eBPF byte code.

ghost use Rattle.std.specs.Prelude.{◌≡◌, ◌+◌, ◌*◌, ◌/◌, ◌%◌, ◌<◌, ◌≤◌, length, IfOk};
ghost use Rattle.ebpf_base.specs.Faults.{Refuses, first_of};
ghost use Rattle.ebpf_parts.specs.Memory.{is_parse_memory};
ghost use Rattle.ebpf_parts.specs.Slots.{slot_at, slots_of, slot_bytes, code_faults, dst_of, src_of, is_pseudo_call, is_helper_call, is_poisoned, registers};

pub mod opcodes;

use crate::error::ParseError;
use ebpf_base::Endianness;
use ebpf_base::numbers::{read_u16, read_u32};
use opcodes::{BPF_PSEUDO_CALL, CALL, POISON_CALL};
use std::alloc::Global;

/// A slot of eight bytes: an instruction, or the second half of a 16-byte load (RFC 9669, section 3). It lies in memory
/// as the kernel's struct of this name.
#[repr(C)]
#[derive(Clone, Copy, Debug, Default, PartialEq, Eq)]
pub struct bpf_insn {
    /// The operation: the class in the low three bits.
    pub code: u8,
    /// The destination register in the low four bits, the source register in the high four.
    pub regs: u8,
    /// A signed offset, in slots or bytes by the operation.
    pub off: i16,
    /// A signed number.
    pub imm: i32,
}

impl bpf_insn {
    /// The length of a slot in bytes.
    pub const SIZE: usize = 8;

    /// The destination register's number, 0 to 15.
    pub fn dst_reg(&self) -> u8
        ensures { result ≡ dst_of self.now }
    {
        self.regs % 16
    }

    /// The source register's number, 0 to 15.
    pub fn src_reg(&self) -> u8
        ensures { result ≡ src_of self.now }
    {
        self.regs / 16
    }

    /// Whether the instruction calls a function of the same object (RFC 9669, section 4.3.2).
    pub fn is_pseudo_call(&self) -> bool
        ensures { result ≡ is_pseudo_call self.now }
    {
        self.code == CALL
            && self.src_reg() == BPF_PSEUDO_CALL
            && self.dst_reg() == 0
            && self.off == 0
    }

    /// Whether the instruction calls a helper function by its number (RFC 9669, section 4.3.1).
    pub fn is_helper_call(&self) -> bool
        ensures { result ≡ is_helper_call self.now }
    {
        self.code == CALL && self.regs == 0
    }

    /// Whether a CO-RE relocation poisoned the instruction: the kernel that it was relocated to has no such value.
    ///
    /// A poisoned instruction calls the helper function 0x0bad2310, with no registers and the offset 0, as libbpf
    /// writes it.
    pub fn is_poisoned(&self) -> bool
        ensures { result ≡ is_poisoned self.now }
    {
        self.code == CALL && self.regs == 0 && self.off == 0 && self.imm == POISON_CALL
    }

    /// The eight bytes of the slot.
    pub fn to_bytes(&self) -> [u8; 8]
        ensures { result ≡ slot_bytes self.now }
    {
        let [off_0, off_1] = self.off.to_le_bytes();
        let [imm_0, imm_1, imm_2, imm_3] = self.imm.to_le_bytes();
        [
            self.code, self.regs, off_0, off_1, imm_0, imm_1, imm_2, imm_3,
        ]
    }

    /// Sets the destination register's number, and leaves the source register's.
    pub fn set_dst_reg(&mut self, register: u8)
        requires { register < 16 }
        ensures { self.new ≡ record self.old { regs = registers (src_of self.old) register } }
    {
        let regs = self.regs;
        self.regs = regs / 16 * 16 + register;
    }

    /// Sets the source register's number, and leaves the destination register's.
    pub fn set_src_reg(&mut self, register: u8)
        requires { register < 16 }
        ensures { self.new ≡ record self.old { regs = registers register (dst_of self.old) } }
    {
        let regs = self.regs;
        self.regs = register * 16 + regs % 16;
    }
}

/// The slot in the eight bytes from `offset` on.
#[tactic(auto, unfolding(crate::specs::Slots::slot_at))]
fn read_slot(bytes: &[u8], offset: usize) -> bpf_insn
    requires { offset + 8 ≤ length bytes.now }
    ensures { result ≡ slot_at bytes.now offset }
{
    bpf_insn {
        code: bytes[offset],
        regs: bytes[offset + 1],
        off: read_u16(Endianness::Little, bytes, offset + 2).cast_signed(),
        imm: read_u32(Endianness::Little, bytes, offset + 4).cast_signed(),
    }
}

/// Returns the slots that the bytes are, one after the other (RFC 9669, section 3).
///
/// # Errors
///
/// - `InvalidProgramCode`: the number of bytes is no multiple of 8.
/// - `OutOfMemory`: an allocation fails.
#[tactic(auto, using(crate::proofs::Slots::slots_end), unfolding(crate::specs::Slots::slots_of, crate::specs::Slots::code_faults))]
pub fn copy_instructions(alloc: Global, bytes: &[u8]) -> Result<Vec<bpf_insn>, ParseError>
    ensures slots { IfOk result (λ slots. slots.items ≡ slots_of bytes.now) }
    ensures fault { Refuses is_parse_memory result (first_of (code_faults bytes.now)) }
{
    if bytes.len() % bpf_insn::SIZE != 0 {
        return Err(ParseError::InvalidProgramCode);
    }
    let mut slots = Vec::new(alloc);
    for k in 0..bytes.len() / bpf_insn::SIZE {
        slots.push(read_slot(bytes, bpf_insn::SIZE * k))?;
    }
    Ok(slots)
}
