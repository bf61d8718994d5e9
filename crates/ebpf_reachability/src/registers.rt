//! What is known of the registers where a slot is reached.

ghost use Rattle.std.specs.Prelude.{◌≡◌};
ghost use Rattle.std.specs.Int.{w32, w64};
ghost use Rattle.ebpf_reachability.specs.Arithmetic.{compared, tested};
ghost use Rattle.ebpf_reachability.specs.Effects.{called, forgotten, known, learned, unknown};
ghost use Rattle.ebpf_reachability.specs.PrivateContracts.{common, least_upper_bound};

use crate::operations::{JEQ, JGE, JGT, JLE, JLT, JNE, JSET, JSGE, JSGT, JSLE, JSLT};

/// How many registers a program has: r0 to r10.
pub const COUNT: usize = 11;

/// The numbers that the registers r0 to r10 are known to hold.
#[derive(Clone, Copy, PartialEq, Eq)]
pub struct Registers {
    /// The number of each register, or nothing.
    pub numbers: [Option<u64>; 11],
}

/// What is known of a register that one of two numbers reaches.
fn common(one: Option<u64>, other: Option<u64>) -> Option<u64>
    ensures { result ≡ common one other }
{
    match (one, other) {
        (Some(number), Some(same)) if number == same => Some(number),
        _ => None,
    }
}

impl Registers {
    /// Nothing known of any.
    pub fn unknown() -> Registers
        ensures { result ≡ unknown }
    {
        Registers {
            numbers: [None; 11],
        }
    }

    /// The number that a register is known to hold; none is known of a register that there isn't.
    pub fn known(&self, register: u8) -> Option<u64>
        ensures { result ≡ known self.now register }
    {
        match self.numbers.get(usize::from(register)) {
            Some(number) => *number,
            None => None,
        }
    }

    /// These registers, of which one holds a number that is given, or none that is known.
    pub fn learned(self, register: u8, number: Option<u64>) -> Registers
        ensures { result ≡ learned self register number }
    {
        let mut numbers = self.numbers;
        let register = usize::from(register);
        if register < COUNT {
            numbers[register] = number;
        }
        Registers { numbers }
    }

    /// These registers, with nothing known of one.
    pub fn forgotten(self, register: u8) -> Registers
        ensures { result ≡ forgotten self register }
    {
        self.learned(register, None)
    }

    /// These registers behind a call, which may write r0 to r5: nothing is known of those.
    pub fn called(self) -> Registers
        ensures { result ≡ called self }
    {
        self.forgotten(0)
            .forgotten(1)
            .forgotten(2)
            .forgotten(3)
            .forgotten(4)
            .forgotten(5)
    }

    /// What is known where two paths meet: the numbers that are equal on both.
    pub fn least_upper_bound(&self, other: &Registers) -> Registers
        ensures { result ≡ least_upper_bound self.now other.now }
    {
        let mut numbers = [None; 11];
        for register in 0..COUNT {
            numbers[register] = common(self.numbers[register], other.numbers[register]);
        }
        Registers { numbers }
    }
}

/// What a jump's operation says of the operands, as unsigned and as signed numbers.
fn tested(operation: u8, x: u64, y: u64, signed_x: i64, signed_y: i64) -> Option<bool>
    ensures { result ≡ tested operation x y signed_x signed_y }
{
    match operation {
        JEQ => Some(x == y),
        JGT => Some(x > y),
        JGE => Some(x >= y),
        JSET => Some(x & y != 0),
        JNE => Some(x != y),
        JSGT => Some(signed_x > signed_y),
        JSGE => Some(signed_x >= signed_y),
        JLT => Some(x < y),
        JLE => Some(x <= y),
        JSLT => Some(signed_x < signed_y),
        JSLE => Some(signed_x <= signed_y),
        _ => None,
    }
}

/// What a jump of class 6 tests.
pub fn compared_32(operation: u8, x: u32, y: u32) -> Option<bool>
    ensures { result ≡ compared w32 operation x y }
{
    tested(
        operation,
        u64::from(x),
        u64::from(y),
        i64::from(x.cast_signed()),
        i64::from(y.cast_signed()),
    )
}

/// What a jump of class 5 tests.
pub fn compared_64(operation: u8, x: u64, y: u64) -> Option<bool>
    ensures { result ≡ compared w64 operation x y }
{
    tested(operation, x, y, x.cast_signed(), y.cast_signed())
}
