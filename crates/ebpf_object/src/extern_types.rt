//! Externs: the kernel's functions and variables that an object names.

pub use ebpf_ksyms::KsymsError;
pub use ebpf_model::ExternDesc;
