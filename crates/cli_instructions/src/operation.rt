//! Instructions, decoded.

use crate::arithmetic::{Arithmetic, decode_arithmetic};
use crate::jumps::{Jump, decode_jump};
use crate::memory::{
    Memory, MemoryLoad, decode_first_class, decode_load, decode_number_store, decode_store,
};
use ebpf_parts::insn::bpf_insn;
use ebpf_parts::insn::opcodes::{ALU, ALU64, LD, LDX, ST, STX};
use std::fmt;

/// The operation of an instruction; its text is that of `llvm-objdump` 19, but for the target of a jump.
#[derive(Clone, Copy)]
pub enum Operation {
    /// A wide number or a packet's bytes are loaded.
    Load(MemoryLoad),
    /// Memory is read or written.
    Memory(Memory),
    /// Registers are computed.
    Arithmetic(Arithmetic),
    /// It goes on at another place.
    Jump(Jump),
    /// Nothing that LLVM knows.
    Unknown,
}

impl Operation {
    /// By how many slots a jump leads from the one behind it.
    pub fn distance(&self) -> Option<i32> {
        match self {
            Operation::Jump(jump) => jump.distance(),
            _ => None,
        }
    }

    /// Whether it takes two slots: a wide load does.
    pub fn takes_two(&self) -> bool {
        matches!(
            self,
            Operation::Load(MemoryLoad::Wide(..) | MemoryLoad::Pseudo(..))
        )
    }
}

/// The operation of an instruction by its class.
fn decode_class(instruction: bpf_insn, second: Option<bpf_insn>) -> Option<Operation> {
    match instruction.code % 8 {
        LD => Some(Operation::Load(decode_first_class(instruction, second)?)),
        LDX => Some(Operation::Memory(decode_load(instruction)?)),
        ST => Some(Operation::Memory(decode_number_store(instruction)?)),
        STX => Some(Operation::Memory(decode_store(instruction)?)),
        ALU | ALU64 => Some(Operation::Arithmetic(decode_arithmetic(instruction)?)),
        _ => Some(Operation::Jump(decode_jump(instruction)?)),
    }
}

/// The operation of an instruction. `second` is the next slot, where there is one: of a wide load it has the upper half.
pub fn decode(instruction: bpf_insn, second: Option<bpf_insn>) -> Operation {
    match decode_class(instruction, second) {
        Some(operation) => operation,
        None => Operation::Unknown,
    }
}

impl fmt::Display for Operation {
    fn fmt<W: fmt::Write>(&self, f: &mut fmt::Formatter<W>) -> fmt::Result {
        match self {
            Operation::Load(load) => write!(f, "{load}"),
            Operation::Memory(memory) => write!(f, "{memory}"),
            Operation::Arithmetic(arithmetic) => write!(f, "{arithmetic}"),
            Operation::Jump(jump) => write!(f, "{jump}"),
            Operation::Unknown => write!(f, "<unknown>"),
        }
    }
}
