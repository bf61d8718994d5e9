//! A function before linking, and a program after it.

use ebpf_base::Items;
use ebpf_btf_ext::{bpf_func_info, bpf_line_info};
use ebpf_parts::insn::bpf_insn;

/// The part of a function that linking reads.
#[derive(Clone, Copy)]
pub struct Body<'a> {
    /// The slots of the function.
    pub slots: &'a [bpf_insn],
    /// The func info entries in the function, by slot.
    pub func_info: &'a [bpf_func_info],
    /// The line info entries of the function, by slot.
    pub line_info: &'a [bpf_line_info],
}

/// A program with a copy of each function that it reaches.
#[derive(Debug, Drop)]
pub struct LinkedProgram {
    /// The slots of the program.
    pub slots: Items<bpf_insn>,
    /// The func info entries, by slot.
    pub func_info: Items<bpf_func_info>,
    /// The line info entries, by slot.
    pub line_info: Items<bpf_line_info>,
    /// The number of func info entries, its low 32 bits, if a function was copied.
    pub func_count: Option<u32>,
    /// The number of line info entries, its low 32 bits, if a function with such entries was copied.
    pub line_count: Option<u32>,
}
