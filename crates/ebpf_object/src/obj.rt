//! Objects, what they hold, and why one can't be parsed.

pub use crate::explained_parse::ExplainedParse;
pub use crate::object::Object;
pub use crate::variables::{Variable, VariableError};
pub use ebpf_base::{ByIndex, ByKey, ByName, ByNumber, ByOffset, BySection, Items, Text};
pub use ebpf_btf::{Btf, BtfError, Endianness};
pub use ebpf_btf_ext::{
    BtfExt, FuncInfo, FuncSecInfo, LineInfo, LineSecInfo, bpf_func_info, bpf_line_info,
};
pub use ebpf_model::{ExternDesc, Function, Program, Symbol};
pub use ebpf_parts::{EbpfSectionKind, ParseError, ParseMode, ProgramSection, Relocation, Section};
