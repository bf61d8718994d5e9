//! The parts of operations' codes, with the names of RFC 9669 and of the kernel's headers.

/// The bits of a code that tell the operation of arithmetic and jumps.
pub const OPERATION: u8 = 0xf0;
/// The bit of a code that takes the source register in place of the immediate.
pub const BPF_X: u8 = 0x08;
/// The bits of a code that tell how memory is accessed.
pub const MODE: u8 = 0xe0;
/// The bits of a code that tell how many bytes are accessed.
pub const SIZE: u8 = 0x18;

/// Addition.
pub const BPF_ADD: u8 = 0x00;
/// Subtraction.
pub const BPF_SUB: u8 = 0x10;
/// Multiplication.
pub const BPF_MUL: u8 = 0x20;
/// Division.
pub const BPF_DIV: u8 = 0x30;
/// Bitwise or.
pub const BPF_OR: u8 = 0x40;
/// Bitwise and.
pub const BPF_AND: u8 = 0x50;
/// Shift to the left.
pub const BPF_LSH: u8 = 0x60;
/// Shift to the right.
pub const BPF_RSH: u8 = 0x70;
/// Negation.
pub const BPF_NEG: u8 = 0x80;
/// Remainder.
pub const BPF_MOD: u8 = 0x90;
/// Bitwise exclusive or.
pub const BPF_XOR: u8 = 0xa0;
/// Move.
pub const BPF_MOV: u8 = 0xb0;
/// Shift to the right that keeps the sign.
pub const BPF_ARSH: u8 = 0xc0;
/// Change of the byte order.
pub const BPF_END: u8 = 0xd0;

/// The offset of a division or a remainder with a sign.
pub const SIGNED: i16 = 1;
/// The offset of a move between address spaces, in the kernel's verifier `BPF_ADDR_SPACE_CAST`.
pub const ADDR_SPACE_CAST: i16 = 1;

/// A jump, always.
pub const BPF_JA: u8 = 0x00;
/// Jump where equal.
pub const BPF_JEQ: u8 = 0x10;
/// Jump where greater.
pub const BPF_JGT: u8 = 0x20;
/// Jump where greater or equal.
pub const BPF_JGE: u8 = 0x30;
/// Jump where a common bit is set.
pub const BPF_JSET: u8 = 0x40;
/// Jump where not equal.
pub const BPF_JNE: u8 = 0x50;
/// Jump where greater, with signs.
pub const BPF_JSGT: u8 = 0x60;
/// Jump where greater or equal, with signs.
pub const BPF_JSGE: u8 = 0x70;
/// Jump where less.
pub const BPF_JLT: u8 = 0xa0;
/// Jump where less or equal.
pub const BPF_JLE: u8 = 0xb0;
/// Jump where less, with signs.
pub const BPF_JSLT: u8 = 0xc0;
/// Jump where less or equal, with signs.
pub const BPF_JSLE: u8 = 0xd0;

/// A call of the function whose address a register holds: `BPF_JMP | BPF_CALL | BPF_X`.
pub const CALLX: u8 = 0x8d;
/// A jump that the kernel takes where a program runs too long: `BPF_JMP | BPF_JCOND`.
pub const JCOND: u8 = 0xe5;

/// Packet access at an immediate.
pub const BPF_ABS: u8 = 0x20;
/// Packet access at a register.
pub const BPF_IND: u8 = 0x40;
/// Loads and stores.
pub const BPF_MEM: u8 = 0x60;
/// Loads that extend the sign.
pub const BPF_MEMSX: u8 = 0x80;
/// Atomic operations.
pub const BPF_ATOMIC: u8 = 0xc0;

/// Atomic addition.
pub const ATOMIC_ADD: i32 = 0x00;
/// Atomic or.
pub const ATOMIC_OR: i32 = 0x40;
/// Atomic and.
pub const ATOMIC_AND: i32 = 0x50;
/// Atomic exclusive or.
pub const ATOMIC_XOR: i32 = 0xa0;
/// Atomic addition that gives the value from before.
pub const FETCH_ADD: i32 = 0x01;
/// Atomic or that gives the value from before.
pub const FETCH_OR: i32 = 0x41;
/// Atomic and that gives the value from before.
pub const FETCH_AND: i32 = 0x51;
/// Atomic exclusive or that gives the value from before.
pub const FETCH_XOR: i32 = 0xa1;
/// Atomic exchange.
pub const BPF_XCHG: i32 = 0xe1;
/// Atomic exchange where equal.
pub const BPF_CMPXCHG: i32 = 0xf1;
