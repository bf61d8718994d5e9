//! Instructions as text, in the syntax of `llvm-objdump` 19.
#![tactic(auto)]

mod arithmetic;
mod jumps;
mod memory;
mod opcodes;
mod operands;
mod operation;

pub use operation::{Operation, decode};
