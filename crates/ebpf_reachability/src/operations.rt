//! The operations of arithmetic and of conditional jumps: the high four bits of a code (RFC 9669, sections 4.1 and 4.3).

/// Addition.
pub const ADD: u8 = 0x0;
/// Subtraction.
pub const SUB: u8 = 0x1;
/// Multiplication.
pub const MUL: u8 = 0x2;
/// Division.
pub const DIV: u8 = 0x3;
/// Bitwise or.
pub const OR: u8 = 0x4;
/// Bitwise and.
pub const AND: u8 = 0x5;
/// Shift to the left.
pub const LSH: u8 = 0x6;
/// Shift to the right.
pub const RSH: u8 = 0x7;
/// Negation.
pub const NEG: u8 = 0x8;
/// Remainder.
pub const MOD: u8 = 0x9;
/// Bitwise exclusive or.
pub const XOR: u8 = 0xa;
/// Move.
pub const MOV: u8 = 0xb;
/// Shift to the right that keeps the sign.
pub const ARSH: u8 = 0xc;
/// Change of the byte order.
pub const END: u8 = 0xd;

/// Jump where equal.
pub const JEQ: u8 = 0x1;
/// Jump where greater.
pub const JGT: u8 = 0x2;
/// Jump where greater or equal.
pub const JGE: u8 = 0x3;
/// Jump where a common bit is set.
pub const JSET: u8 = 0x4;
/// Jump where not equal.
pub const JNE: u8 = 0x5;
/// Jump where greater, with signs.
pub const JSGT: u8 = 0x6;
/// Jump where greater or equal, with signs.
pub const JSGE: u8 = 0x7;
/// Jump where less.
pub const JLT: u8 = 0xa;
/// Jump where less or equal.
pub const JLE: u8 = 0xb;
/// Jump where less, with signs.
pub const JSLT: u8 = 0xc;
/// Jump where less or equal, with signs.
pub const JSLE: u8 = 0xd;

/// The code of an indirect jump, to the slot whose address a register has: `BPF_JMP | BPF_JA | BPF_X`.
pub const INDIRECT_JUMP: u8 = 0x0d;
