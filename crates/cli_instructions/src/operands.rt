//! Registers and numbers.

use crate::opcodes::BPF_X;
use ebpf_parts::insn::bpf_insn;
use std::fmt;

/// How many registers have names: `r0` to `r10`, and `r11`, which the kernel alone writes.
const REGISTERS: u8 = 12;

/// A register, or its lower half.
#[derive(Clone, Copy)]
pub struct Register {
    number: u8,
    is_half: bool,
}

impl Register {
    /// The register that calls and atomic comparisons write.
    pub const RESULT: u8 = 0;

    /// The register of a number, where it has a name.
    pub fn full(number: u8) -> Option<Register> {
        Register::of(number, false)
    }

    /// The register of a number or its lower half.
    pub fn of(number: u8, is_half: bool) -> Option<Register> {
        if number < REGISTERS {
            Some(Register { number, is_half })
        } else {
            None
        }
    }
}

impl fmt::Display for Register {
    fn fmt<W: fmt::Write>(&self, f: &mut fmt::Formatter<W>) -> fmt::Result {
        let number = self.number;
        let letter = if self.is_half { 'w' } else { 'r' };
        write!(f, "{letter}{number}")
    }
}

/// A number with its sign, of base 16.
#[derive(Clone, Copy)]
pub struct Number(pub i64);

impl fmt::Display for Number {
    fn fmt<W: fmt::Write>(&self, f: &mut fmt::Formatter<W>) -> fmt::Result {
        let amount = self.0.unsigned_abs();
        let sign = if self.0 < 0 { "-" } else { "" };
        write!(f, "{sign}{amount:#x}")
    }
}

/// A distance in slots, with a sign in each case.
#[derive(Clone, Copy)]
pub struct Distance(pub i32);

impl fmt::Display for Distance {
    fn fmt<W: fmt::Write>(&self, f: &mut fmt::Formatter<W>) -> fmt::Result {
        let amount = self.0.unsigned_abs();
        let sign = if self.0 < 0 { '-' } else { '+' };
        write!(f, "{sign}{amount:#x}")
    }
}

/// A register or a number.
#[derive(Clone, Copy)]
pub enum Operand {
    /// A register.
    Held(Register),
    /// A number.
    Given(Number),
}

impl Operand {
    /// A number of an instruction.
    pub fn number(number: i32) -> Operand {
        Operand::Given(Number(i64::from(number)))
    }

    /// The source register of an instruction, or its number.
    pub fn of(instruction: bpf_insn, is_half: bool) -> Option<Operand> {
        if instruction.code & BPF_X == 0 {
            return Some(Operand::number(instruction.imm));
        }
        Some(Operand::Held(Register::of(instruction.src_reg(), is_half)?))
    }
}

impl fmt::Display for Operand {
    fn fmt<W: fmt::Write>(&self, f: &mut fmt::Formatter<W>) -> fmt::Result {
        match self {
            Operand::Held(register) => write!(f, "{register}"),
            Operand::Given(number) => write!(f, "{number}"),
        }
    }
}

/// A place in memory: the address in a register, and a distance from it in bytes.
#[derive(Clone, Copy)]
pub struct MemoryPlace {
    /// The register.
    pub base: Register,
    /// The distance.
    pub offset: i16,
}

impl fmt::Display for MemoryPlace {
    fn fmt<W: fmt::Write>(&self, f: &mut fmt::Formatter<W>) -> fmt::Result {
        let base = self.base;
        let amount = self.offset.unsigned_abs();
        let sign = if self.offset < 0 { '-' } else { '+' };
        write!(f, "{base} {sign} {amount:#x}")
    }
}
