//! The numbers of the byte code, with the names of RFC 9669 and of the kernel's headers.

/// The class of loads of immediates, and of packet access.
pub const LD: u8 = 0;
/// The class of loads from memory.
pub const LDX: u8 = 1;
/// The class of stores of an immediate.
pub const ST: u8 = 2;
/// The class of stores of a register, and of atomic operations.
pub const STX: u8 = 3;
/// The class of arithmetic of 32 bits.
pub const ALU: u8 = 4;
/// The class of jumps by comparisons of 64 bits, calls and exits.
pub const JMP: u8 = 5;
/// The class of jumps by comparisons of 32 bits.
pub const JMP32: u8 = 6;
/// The class of arithmetic of 64 bits.
pub const ALU64: u8 = 7;

/// A load of an immediate of 64 bits, in two slots: `BPF_LD | BPF_DW | BPF_IMM`.
pub const LD_IMM64: u8 = 0x18;
/// A jump by the offset, always: `BPF_JMP | BPF_JA`.
pub const JA: u8 = 0x05;
/// A jump by the immediate, always: `BPF_JMP32 | BPF_JA`.
pub const JA32: u8 = 0x06;
/// A call: `BPF_JMP | BPF_CALL`.
pub const CALL: u8 = 0x85;
/// The end of a function: `BPF_JMP | BPF_EXIT`.
pub const EXIT: u8 = 0x95;

/// The source of a load of a map, by its descriptor.
pub const BPF_PSEUDO_MAP_FD: u8 = 1;
/// The source of a load of an address in a map's data.
pub const BPF_PSEUDO_MAP_VALUE: u8 = 2;
/// The source of a load of a kernel variable's address, by the id of its type.
pub const BPF_PSEUDO_BTF_ID: u8 = 3;
/// The source of a load of a function's address.
pub const BPF_PSEUDO_FUNC: u8 = 4;

/// The source of a call of a function of the same program.
pub const BPF_PSEUDO_CALL: u8 = 1;
/// The source of a call of a kernel function, by the id of its type.
pub const BPF_PSEUDO_KFUNC_CALL: u8 = 2;

/// The immediate of a poisoned slot: the number of a helper function that no kernel has. libbpf poisons with it.
pub const POISON_CALL: i32 = 0x0bad_2310;
/// The immediate of a call of a weak extern that the kernel lacks, less the index of the extern's symbol: libbpf's
/// `POISON_CALL_KFUNC_BASE`.
pub const ABSENT_KFUNC: u32 = 2_002_000_000;

/// The bits of the code of a load or store of eight bytes.
pub const BPF_DW: u8 = 0x18;
/// The bits of the code of a load or store of four bytes.
pub const BPF_W: u8 = 0x00;
/// The bits of the code of a load or store of two bytes.
pub const BPF_H: u8 = 0x08;
/// The bits of the code of a load or store of one byte.
pub const BPF_B: u8 = 0x10;
