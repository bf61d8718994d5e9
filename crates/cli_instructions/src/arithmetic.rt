//! Arithmetic, moves and changes of the byte order.

use crate::opcodes::{
    ADDR_SPACE_CAST, BPF_ADD, BPF_AND, BPF_ARSH, BPF_DIV, BPF_END, BPF_LSH, BPF_MOD, BPF_MOV,
    BPF_MUL, BPF_NEG, BPF_OR, BPF_RSH, BPF_SUB, BPF_X, BPF_XOR, OPERATION, SIGNED,
};
use crate::operands::{Operand, Register};
use ebpf_parts::insn::bpf_insn;
use ebpf_parts::insn::opcodes::ALU;
use std::fmt;

/// An operation on registers.
#[derive(Clone, Copy)]
pub enum Arithmetic {
    /// A register is changed by an operand, or gets it: `r1 += 0x7`, `r1 = r2`.
    Assign(Register, &'static str, Operand),
    /// A register gets so many bits of another one, and their sign: `r1 = (s8)r2`.
    Extend(Register, i16, Register),
    /// A register is negated: `r1 = -r1`.
    Negate(Register),
    /// A register's byte order is changed: `r1 = be16 r1`.
    Swap(Register, &'static str, i32),
    /// An address becomes one of another address space, from another: `r1 = addr_space_cast(r2, 0x0, 0x1)`.
    Cast(Register, Register, u32, u32),
}

/// The operator of an operation that takes no offset.
fn plain_operator(operation: u8) -> Option<&'static str> {
    match operation {
        BPF_ADD => Some("+="),
        BPF_SUB => Some("-="),
        BPF_MUL => Some("*="),
        BPF_DIV => Some("/="),
        BPF_OR => Some("|="),
        BPF_AND => Some("&="),
        BPF_LSH => Some("<<="),
        BPF_RSH => Some(">>="),
        BPF_MOD => Some("%="),
        BPF_XOR => Some("^="),
        BPF_MOV => Some("="),
        BPF_ARSH => Some("s>>="),
        _ => None,
    }
}

/// The operator of an operation with an offset.
fn operator_of(operation: u8, offset: i16) -> Option<&'static str> {
    match (operation, offset) {
        (BPF_DIV, SIGNED) => Some("s/="),
        (BPF_MOD, SIGNED) => Some("s%="),
        (_, 0) => plain_operator(operation),
        _ => None,
    }
}

/// Whether a move may extend the sign of so many bits.
fn extends(bits: i16, is_half: bool) -> bool {
    match bits {
        8 | 16 => true,
        32 => !is_half,
        _ => false,
    }
}

/// A move of a register with an offset.
fn decode_move(instruction: bpf_insn, is_half: bool) -> Option<Arithmetic> {
    let register = Register::of(instruction.dst_reg(), is_half)?;
    let source = Register::of(instruction.src_reg(), is_half)?;
    let bits = instruction.off;
    if extends(bits, is_half) {
        return Some(Arithmetic::Extend(register, bits, source));
    }
    if bits != ADDR_SPACE_CAST || is_half {
        return None;
    }
    let spaces = instruction.imm.cast_unsigned();
    let (to, from) = (spaces >> 16, spaces & 0xffff);
    Some(Arithmetic::Cast(register, source, to, from))
}

/// A change of the byte order: to little endian, to big endian, or of each number.
fn decode_swap(instruction: bpf_insn, is_half: bool) -> Option<Arithmetic> {
    let word = match (is_half, instruction.code & BPF_X == 0) {
        (true, true) => "le",
        (true, false) => "be",
        (false, true) => "bswap",
        (false, false) => return None,
    };
    let register = Register::full(instruction.dst_reg())?;
    match instruction.imm {
        bits @ (16 | 32 | 64) => Some(Arithmetic::Swap(register, word, bits)),
        _ => None,
    }
}

/// A negation.
fn decode_negation(instruction: bpf_insn, is_half: bool) -> Option<Arithmetic> {
    if instruction.code & BPF_X != 0 {
        return None;
    }
    let register = Register::of(instruction.dst_reg(), is_half)?;
    Some(Arithmetic::Negate(register))
}

/// An operation with an operator.
fn decode_assignment(instruction: bpf_insn, operation: u8, is_half: bool) -> Option<Arithmetic> {
    let register = Register::of(instruction.dst_reg(), is_half)?;
    let operator = operator_of(operation, instruction.off)?;
    let operand = Operand::of(instruction, is_half)?;
    Some(Arithmetic::Assign(register, operator, operand))
}

/// An instruction of the classes of arithmetic, decoded.
pub fn decode_arithmetic(instruction: bpf_insn) -> Option<Arithmetic> {
    let is_half = instruction.code % 8 == ALU;
    let operation = instruction.code & OPERATION;
    let takes_register = instruction.code & BPF_X != 0;
    match operation {
        BPF_END => decode_swap(instruction, is_half),
        BPF_NEG => decode_negation(instruction, is_half),
        BPF_MOV if takes_register && instruction.off != 0 => decode_move(instruction, is_half),
        _ => decode_assignment(instruction, operation, is_half),
    }
}

impl fmt::Display for Arithmetic {
    fn fmt<W: fmt::Write>(&self, f: &mut fmt::Formatter<W>) -> fmt::Result {
        match self {
            Arithmetic::Assign(register, operator, operand) => {
                write!(f, "{register} {operator} {operand}")
            }
            Arithmetic::Extend(register, bits, source) => {
                write!(f, "{register} = (s{bits}){source}")
            }
            Arithmetic::Negate(register) => write!(f, "{register} = -{register}"),
            Arithmetic::Swap(register, word, bits) => {
                write!(f, "{register} = {word}{bits} {register}")
            }
            Arithmetic::Cast(register, source, to, from) => write!(
                f,
                "{register} = addr_space_cast({source}, {to:#x}, {from:#x})"
            ),
        }
    }
}
