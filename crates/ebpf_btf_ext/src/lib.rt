//! Reads `.BTF.ext` of an eBPF object: func info, line info and the CO-RE relocations (the kernel's
//! Documentation/bpf/btf.rst, 4.2 ".BTF.ext section").
#![tactic(auto)]

mod ext;
mod ext_infos;
mod ext_part;
mod found_sections;
pub mod laws;
mod relocation;

pub use ext::BtfExt;
pub use ext_infos::{
    FuncInfo, FuncSecInfo, LineInfo, LineSecInfo, SectionInfo, bpf_func_info, bpf_line_info,
};
pub use found_sections::{FoundSections, SectionsByName};
pub use relocation::{Relocation, RelocationKind};
