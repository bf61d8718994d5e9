//! Loads, stores and atomic operations; loads of wide numbers, and of a packet's bytes.

use crate::opcodes::{
    ATOMIC_ADD, ATOMIC_AND, ATOMIC_OR, ATOMIC_XOR, BPF_ABS, BPF_ATOMIC, BPF_CMPXCHG, BPF_IND,
    BPF_MEM, BPF_MEMSX, BPF_XCHG, FETCH_ADD, FETCH_AND, FETCH_OR, FETCH_XOR, MODE, SIZE,
};
use crate::operands::{MemoryPlace, Number, Operand, Register};
use ebpf_parts::insn::bpf_insn;
use ebpf_parts::insn::opcodes::{BPF_B, BPF_DW, BPF_H, BPF_W, LD_IMM64};
use std::fmt;

/// A load of the first class.
#[derive(Clone, Copy)]
pub enum MemoryLoad {
    /// A number of 64 bits: `r1 = 0x7 ll`.
    Wide(Register, Number),
    /// A pseudo number: `ld_pseudo r1, 0x1, 0x7`, with a tab.
    Pseudo(Register, u8, u32),
    /// Bytes of a packet: `r0 = *(u32 *)skb[0x7]`.
    Packet(&'static str, Operand),
}

/// An access to memory.
#[derive(Clone, Copy)]
pub enum Memory {
    /// `r1 = *(u32 *)(r2 + 0x8)`
    Load(Register, &'static str, MemoryPlace),
    /// `*(u32 *)(r1 + 0x8) = r2`
    Store(&'static str, MemoryPlace, Operand),
    /// An atomic operation.
    Atomic(Atomic),
}

/// The kinds of atomic operation.
#[derive(Clone, Copy)]
enum Action {
    /// It changes memory: `lock *(u64 *)(r1 + 0x8) |= r2`.
    Change(&'static str),
    /// A change of memory that gives the old value: `r2 = atomic_fetch_or((u64 *)(r1 + 0x8), r2)`.
    Fetch(&'static str),
    /// It exchanges memory and a register: `r2 = xchg_64(r1 + 0x8, r2)`.
    Exchange(&'static str),
    /// It writes memory where it is as `r0`: `r0 = cmpxchg_64(r1 + 0x8, r0, r2)`.
    Compare(&'static str, Register),
}

/// An atomic operation.
#[derive(Clone, Copy)]
pub struct Atomic {
    action: Action,
    word: &'static str,
    place: MemoryPlace,
    register: Register,
}

/// The type of numbers of a size.
fn number_word(size: u8) -> &'static str {
    match size {
        BPF_W => "u32",
        BPF_H => "u16",
        BPF_B => "u8",
        _ => "u64",
    }
}

/// The type of what a load's code reads: a number, or one whose sign is extended.
fn loaded_word(code: u8) -> Option<&'static str> {
    match (code & MODE, code & SIZE) {
        (BPF_MEM, size) => Some(number_word(size)),
        (BPF_MEMSX, BPF_W) => Some("s32"),
        (BPF_MEMSX, BPF_H) => Some("s16"),
        (BPF_MEMSX, BPF_B) => Some("s8"),
        _ => None,
    }
}

/// A load, decoded.
pub fn decode_load(instruction: bpf_insn) -> Option<Memory> {
    let register = Register::full(instruction.dst_reg())?;
    let word = loaded_word(instruction.code)?;
    let place = MemoryPlace {
        base: Register::full(instruction.src_reg())?,
        offset: instruction.off,
    };
    Some(Memory::Load(register, word, place))
}

/// The place that an instruction writes.
fn written_place(instruction: bpf_insn) -> Option<MemoryPlace> {
    Some(MemoryPlace {
        base: Register::full(instruction.dst_reg())?,
        offset: instruction.off,
    })
}

/// A store of an operand.
fn store_of(instruction: bpf_insn, operand: Operand) -> Option<Memory> {
    let word = number_word(instruction.code & SIZE);
    Some(Memory::Store(word, written_place(instruction)?, operand))
}

/// A store of a number, decoded.
pub fn decode_number_store(instruction: bpf_insn) -> Option<Memory> {
    if instruction.code & MODE != BPF_MEM {
        return None;
    }
    store_of(instruction, Operand::number(instruction.imm))
}

/// A store of a register or an atomic operation, decoded.
pub fn decode_store(instruction: bpf_insn) -> Option<Memory> {
    match (instruction.code & MODE, instruction.code & SIZE) {
        (BPF_MEM, _) => {
            let source = Register::full(instruction.src_reg())?;
            store_of(instruction, Operand::Held(source))
        }
        (BPF_ATOMIC, BPF_W | BPF_DW) => Some(Memory::Atomic(decode_atomic(instruction)?)),
        _ => None,
    }
}

/// The kind of an atomic operation of 32 bits, where it is half a register's, or of 64.
fn action_of(operation: i32, is_half: bool) -> Option<Action> {
    let result = Register::of(Register::RESULT, is_half)?;
    match (operation, is_half) {
        (ATOMIC_ADD, _) => Some(Action::Change("+=")),
        (ATOMIC_OR, _) => Some(Action::Change("|=")),
        (ATOMIC_AND, _) => Some(Action::Change("&=")),
        (ATOMIC_XOR, _) => Some(Action::Change("^=")),
        (FETCH_ADD, _) => Some(Action::Fetch("add")),
        (FETCH_OR, _) => Some(Action::Fetch("or")),
        (FETCH_AND, _) => Some(Action::Fetch("and")),
        (FETCH_XOR, _) => Some(Action::Fetch("xor")),
        (BPF_XCHG, true) => Some(Action::Exchange("xchg32_32")),
        (BPF_XCHG, false) => Some(Action::Exchange("xchg_64")),
        (BPF_CMPXCHG, true) => Some(Action::Compare("cmpxchg32_32", result)),
        (BPF_CMPXCHG, false) => Some(Action::Compare("cmpxchg_64", result)),
        _ => None,
    }
}

/// The register of an operation. LLVM writes that of an addition of 32 bits, alone of them, in full: older processors have
/// it too.
fn register_of(instruction: bpf_insn, is_half: bool) -> Option<Register> {
    let number = instruction.src_reg();
    Register::of(number, is_half && instruction.imm != ATOMIC_ADD)
}

/// An atomic operation, decoded.
fn decode_atomic(instruction: bpf_insn) -> Option<Atomic> {
    let size = instruction.code & SIZE;
    let is_half = size == BPF_W;
    Some(Atomic {
        action: action_of(instruction.imm, is_half)?,
        word: number_word(size),
        place: written_place(instruction)?,
        register: register_of(instruction, is_half)?,
    })
}

/// The number of a wide load, of which `second` has the upper half.
fn wide_number(first: bpf_insn, second: bpf_insn) -> Number {
    let low = u64::from(first.imm.cast_unsigned());
    let high = u64::from(second.imm.cast_unsigned());
    Number((high << 32 | low).cast_signed())
}

/// A wide load.
fn decode_wide(first: bpf_insn, second: Option<bpf_insn>) -> Option<MemoryLoad> {
    let second = second?;
    if first.off != 0 {
        return None;
    }
    let register = Register::full(first.dst_reg())?;
    match first.src_reg() {
        0 => Some(MemoryLoad::Wide(register, wide_number(first, second))),
        source => Some(MemoryLoad::Pseudo(register, source, first.imm.cast_unsigned())),
    }
}

/// Where in a packet is read.
fn packet_place(instruction: bpf_insn) -> Option<Operand> {
    match instruction.code & MODE {
        BPF_ABS => Some(Operand::number(instruction.imm)),
        BPF_IND => Some(Operand::Held(Register::full(instruction.src_reg())?)),
        _ => None,
    }
}

/// A load of a packet's bytes.
fn decode_packet(instruction: bpf_insn) -> Option<MemoryLoad> {
    let size = instruction.code & SIZE;
    if size == BPF_DW {
        return None;
    }
    Some(MemoryLoad::Packet(number_word(size), packet_place(instruction)?))
}

/// A load of the first class, decoded, before the slot `second`.
pub fn decode_first_class(instruction: bpf_insn, second: Option<bpf_insn>) -> Option<MemoryLoad> {
    if instruction.code == LD_IMM64 {
        decode_wide(instruction, second)
    } else {
        decode_packet(instruction)
    }
}

impl fmt::Display for MemoryLoad {
    fn fmt<W: fmt::Write>(&self, f: &mut fmt::Formatter<W>) -> fmt::Result {
        match self {
            MemoryLoad::Wide(register, number) => write!(f, "{register} = {number} ll"),
            MemoryLoad::Pseudo(register, source, number) => {
                write!(f, "ld_pseudo\t{register}, {source:#x}, {number:#x}")
            }
            MemoryLoad::Packet(word, at) => write!(f, "r0 = *({word} *)skb[{at}]"),
        }
    }
}

impl fmt::Display for Atomic {
    fn fmt<W: fmt::Write>(&self, f: &mut fmt::Formatter<W>) -> fmt::Result {
        let (word, place, register) = (self.word, self.place, self.register);
        match self.action {
            Action::Change(operator) => {
                write!(f, "lock *({word} *)({place}) {operator} {register}")
            }
            Action::Fetch(name) => write!(
                f,
                "{register} = atomic_fetch_{name}(({word} *)({place}), {register})"
            ),
            Action::Exchange(name) => write!(f, "{register} = {name}({place}, {register})"),
            Action::Compare(name, result) => {
                write!(f, "{result} = {name}({place}, {result}, {register})")
            }
        }
    }
}

impl fmt::Display for Memory {
    fn fmt<W: fmt::Write>(&self, f: &mut fmt::Formatter<W>) -> fmt::Result {
        match self {
            Memory::Load(register, word, place) => {
                write!(f, "{register} = *({word} *)({place})")
            }
            Memory::Store(word, place, operand) => { write!(f, "*({word} *)({place}) = {operand}") }
            Memory::Atomic(atomic) => write!(f, "{atomic}"),
        }
    }
}
