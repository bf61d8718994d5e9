//! Func info and line info of `.BTF.ext`, and their copies.

ghost use Rattle.std.specs.Prelude.{◌≡◌, ℕ, List};

use crate::found_sections::SectionsByName;
use ebpf_base::Items;
use ebpf_btf::rows::Row;
use std::alloc::AllocError;

/// A func info entry, with the memory layout of the kernel's `struct bpf_func_info`.
#[repr(C)]
#[allow(non_camel_case_types)]
#[derive(Clone, Copy, Debug, PartialEq, Eq)]
pub struct bpf_func_info {
    /// The index of the function's first slot in its section; a slot has 8 bytes.
    pub insn_off: u32,
    /// The id of the function's type.
    pub type_id: u32,
}

/// A line info entry, with the memory layout of the kernel's `struct bpf_line_info`.
#[repr(C)]
#[allow(non_camel_case_types)]
#[derive(Clone, Copy, Debug, PartialEq, Eq)]
pub struct bpf_line_info {
    /// The index of the line's first slot in its section; a slot has 8 bytes.
    pub insn_off: u32,
    /// The offset of the file's name in the strings.
    pub file_name_off: u32,
    /// The offset of the line's text in the strings.
    pub line_off: u32,
    /// The line number in bits 10 to 31, and the column number in bits 0 to 9.
    pub line_col: u32,
}

/// The func info of a section (`struct btf_ext_info_sec`).
#[derive(Debug, Drop, PartialEq)]
pub struct FuncSecInfo {
    /// The offset of the section's name in the strings.
    pub sec_name_offset: u32,
    /// The number of records.
    pub num_info: u32,
    /// The records, in order.
    pub func_info: Items<bpf_func_info>,
}

/// The line info of a section (`struct btf_ext_info_sec`).
#[derive(Debug, Drop, PartialEq)]
pub struct LineSecInfo {
    /// The offset of the section's name in the strings.
    pub sec_name_offset: u32,
    /// The number of records.
    pub num_info: u32,
    /// The records, in order.
    pub line_info: Items<bpf_line_info>,
}

impl Clone for FuncSecInfo {
    ghost is_clone = { λ old copy. copy ≡ old };

    fn clone(&self) -> Result<FuncSecInfo, AllocError> {
        Ok(FuncSecInfo {
            sec_name_offset: self.sec_name_offset,
            num_info: self.num_info,
            func_info: self.func_info.copied()?,
        })
    }
}

impl Clone for LineSecInfo {
    ghost is_clone = { λ old copy. copy ≡ old };

    fn clone(&self) -> Result<LineSecInfo, AllocError> {
        Ok(LineSecInfo {
            sec_name_offset: self.sec_name_offset,
            num_info: self.num_info,
            line_info: self.line_info.copied()?,
        })
    }
}

/// Func info by section name. Contracts see a finite map.
pub type FuncInfo = SectionsByName<FuncSecInfo>;

/// Line info by section name. Contracts see a finite map.
pub type LineInfo = SectionsByName<LineSecInfo>;

/// The info of a section in a part of `.BTF.ext`: its func info or its line info.
pub trait SectionInfo: Clone + Drop {
    /// An info entry.
    type Record: Row + Drop;

    /// The info of a section with the offset of its name, the number of its entries and the entries.
    ghost info_with: { ℕ → ℕ → List Self.Record → Self };

    /// Returns the info of a section with the offset of its name, the number of its entries and the entries.
    fn with(sec_name_offset: u32, num_info: u32, records: Items<Self::Record>) -> Self
        ensures { result ≡ info_with sec_name_offset num_info records };

    /// Returns the least number of bytes that an entry has.
    fn least() -> u32
        ensures { result ≡ Self.Record.least };

    /// The law that a copy equals the original.
    ghost same_copy: { (info copy : Self) → Self.is_clone info copy → copy ≡ info };
}

impl SectionInfo for FuncSecInfo {
    type Record = bpf_func_info;

    ghost info_with = { λ offset count records.
        record { sec_name_offset = offset; num_info = count; func_info = records } };

    ghost same_copy = { λ info copy same. same };

    fn least() -> u32
        ensures { result ≡ 8 }
    {
        8
    }

    fn with(sec_name_offset: u32, num_info: u32, records: Items<bpf_func_info>) -> FuncSecInfo
        ensures { result
            ≡ record {
              sec_name_offset = sec_name_offset;
              num_info = num_info;
              func_info = records;
            } }
    {
        FuncSecInfo {
            sec_name_offset,
            num_info,
            func_info: records,
        }
    }
}

impl SectionInfo for LineSecInfo {
    type Record = bpf_line_info;

    ghost info_with = { λ offset count records.
        record { sec_name_offset = offset; num_info = count; line_info = records } };

    ghost same_copy = { λ info copy same. same };

    fn least() -> u32
        ensures { result ≡ 16 }
    {
        16
    }

    fn with(sec_name_offset: u32, num_info: u32, records: Items<bpf_line_info>) -> LineSecInfo
        ensures { result
            ≡ record {
              sec_name_offset = sec_name_offset;
              num_info = num_info;
              line_info = records;
            } }
    {
        LineSecInfo {
            sec_name_offset,
            num_info,
            line_info: records,
        }
    }
}
