//! The functions and the programs of an object.

ghost use Rattle.std.specs.Prelude.{◌≡◌, ◌+◌, ◌*◌, length};

use ebpf_base::{Items, Text};
use ebpf_btf_ext::{FuncSecInfo, LineSecInfo};
use ebpf_elf::SectionIndex;
use ebpf_parts::ProgramSection;
use ebpf_parts::insn::bpf_insn;
use std::alloc::AllocError;

/// A function: the slots from one place of a section on.
#[derive(Debug, Drop)]
pub struct Function {
    /// Its address, as its symbol states it.
    pub address: u64,
    /// Its symbol's name.
    pub name: Text,
    /// The index of its section.
    pub section_index: SectionIndex,
    /// The offset of the function in the section's data, in bytes.
    pub section_offset: usize,
    /// Its slots.
    pub instructions: Items<bpf_insn>,
    /// Its func info of `.BTF.ext` and, once linked, that of the functions after it, by slot.
    pub func_info: FuncSecInfo,
    /// Its line info of `.BTF.ext`, by slot.
    pub line_info: LineSecInfo,
    /// The size of a record on functions in the file, in bytes; 0 without one.
    pub func_info_rec_size: u32,
    /// The size of a record on lines in the file, in bytes; 0 without one.
    pub line_info_rec_size: u32,
}

impl Function {
    /// Returns the offset of the function's end in its section, in bytes.
    pub fn end(&self) -> u128
        ensures { result ≡ self.now.section_offset + 8 * length self.now.instructions }
    {
        self.section_offset as u128 + 8 * self.instructions.len() as u128
    }
}

impl Clone for Function {
    ghost is_clone = { λ old copy. copy ≡ old };

    fn clone(&self) -> Result<Function, AllocError> {
        Ok(Function {
            address: self.address,
            name: self.name.clone()?,
            section_index: self.section_index,
            section_offset: self.section_offset,
            instructions: self.instructions.copied()?,
            func_info: self.func_info.clone()?,
            line_info: self.line_info.clone()?,
            func_info_rec_size: self.func_info_rec_size,
            line_info_rec_size: self.line_info_rec_size,
        })
    }
}

/// A program: the function that its key names, and how it is attached.
#[derive(Debug, Drop)]
pub struct Program {
    /// The object's license, without its zero byte.
    pub license: Items<u8>,
    /// The kernel version that it is for, where the object states one.
    pub kernel_version: Option<u32>,
    /// Its kind.
    pub section: ProgramSection,
    /// The index of its section.
    pub section_index: usize,
    /// Its address, as its symbol states it.
    pub address: u64,
}

impl Program {
    /// Returns the key of its function: the index of its section, and its address.
    pub fn function_key(&self) -> (usize, u64)
        ensures { result ≡ (self.now.section_index, self.now.address) }
    {
        (self.section_index, self.address)
    }
}

impl Clone for Program {
    ghost is_clone = { λ old copy. copy ≡ old };

    fn clone(&self) -> Result<Program, AllocError> {
        Ok(Program {
            license: self.license.copied()?,
            kernel_version: self.kernel_version,
            section: self.section,
            section_index: self.section_index,
            address: self.address,
        })
    }
}
