//! Reads, changes and writes `.BTF` of an eBPF object or a kernel: types and their strings (the kernel's
//! Documentation/bpf/btf.rst).
#![tactic(auto)]

mod array;
mod btf;
mod error;
mod fallback;
mod flavors;
mod kind;
pub mod laws;
mod list_rows;
mod lossy;
mod members;
mod names;
mod parse;
mod readable;
pub mod rows;
mod steps;
pub mod strings;
mod types;
mod types_iter;
mod variants;
mod view;
mod words;
mod write;

pub use array::BtfArray;
pub use btf::Btf;
pub use ebpf_base::Endianness;
pub use error::BtfError;
pub use fallback::{Enum64Fallback, UnionFallback};
pub use flavors::essential_name;
pub use kind::BtfKind;
pub use list_rows::{ListRow, Rows, RowsIter};
pub use members::{BtfEnum, BtfEnum64, BtfMember, BtfParam, DataSecEntry, Enum64VariantFallback};
pub use types::BtfType;
pub use types_iter::TypesIter;
pub use variants::BtfVariant;
pub use view::TypeHead;
