//! Jumps, calls and the end of a function.

use crate::opcodes::{
    BPF_JEQ, BPF_JGE, BPF_JGT, BPF_JLE, BPF_JLT, BPF_JNE, BPF_JSET, BPF_JSGE, BPF_JSGT, BPF_JSLE,
    BPF_JSLT, CALLX, JCOND, OPERATION,
};
use crate::operands::{Distance, Number, Operand, Register};
use ebpf_parts::insn::bpf_insn;
use ebpf_parts::insn::opcodes::{CALL, EXIT, JA, JA32, JMP32};
use std::fmt;

/// An instruction that continues elsewhere than at the next slot.
#[derive(Clone, Copy)]
pub enum Jump {
    /// `goto +0x3`, `gotol +0x3`, `may_goto +0x3`
    Always(&'static str, Distance),
    /// `if r1 == 0x7 goto +0x3`
    Where(Register, &'static str, Operand, Distance),
    /// `call 0x5`
    Call(Number),
    /// `callx r1`
    CallHeld(Register),
    /// `exit`
    Exit,
}

impl Jump {
    /// By how many slots it leads from the next one.
    pub fn distance(&self) -> Option<i32> {
        match self {
            Jump::Always(_, by) | Jump::Where(_, _, _, by) => Some(by.0),
            _ => None,
        }
    }
}

/// The comparison of a conditional jump.
fn comparison_of(operation: u8) -> Option<&'static str> {
    match operation {
        BPF_JEQ => Some("=="),
        BPF_JGT => Some(">"),
        BPF_JGE => Some(">="),
        BPF_JSET => Some("&"),
        BPF_JNE => Some("!="),
        BPF_JSGT => Some("s>"),
        BPF_JSGE => Some("s>="),
        BPF_JLT => Some("<"),
        BPF_JLE => Some("<="),
        BPF_JSLT => Some("s<"),
        BPF_JSLE => Some("s<="),
        _ => None,
    }
}

/// A conditional jump.
fn decode_condition(instruction: bpf_insn) -> Option<Jump> {
    let is_half = instruction.code % 8 == JMP32;
    let register = Register::of(instruction.dst_reg(), is_half)?;
    let comparison = comparison_of(instruction.code & OPERATION)?;
    let operand = Operand::of(instruction, is_half)?;
    let by = Distance(i32::from(instruction.off));
    Some(Jump::Where(register, comparison, operand, by))
}

/// An instruction of the classes of jumps, decoded.
pub fn decode_jump(instruction: bpf_insn) -> Option<Jump> {
    let by = Distance(i32::from(instruction.off));
    match instruction.code {
        JA => Some(Jump::Always("goto", by)),
        JA32 => Some(Jump::Always("gotol", Distance(instruction.imm))),
        JCOND => Some(Jump::Always("may_goto", by)),
        CALL => Some(Jump::Call(Number(i64::from(instruction.imm)))),
        CALLX => Some(Jump::CallHeld(Register::full(instruction.dst_reg())?)),
        EXIT if instruction.imm == 0 => Some(Jump::Exit),
        _ => decode_condition(instruction),
    }
}

impl fmt::Display for Jump {
    fn fmt<W: fmt::Write>(&self, f: &mut fmt::Formatter<W>) -> fmt::Result {
        match self {
            Jump::Always(word, by) => write!(f, "{word} {by}"),
            Jump::Where(register, comparison, operand, by) => {
                write!(f, "if {register} {comparison} {operand} goto {by}")
            }
            Jump::Call(number) => write!(f, "call {number}"),
            Jump::CallHeld(register) => write!(f, "callx {register}"),
            Jump::Exit => write!(f, "exit"),
        }
    }
}
