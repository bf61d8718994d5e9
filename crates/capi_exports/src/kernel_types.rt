//! What a handle of types holds.

use ebpf_btf::Btf;

/// The types of a kernel.
#[derive(Drop)]
pub struct Kernel {
    pub types: Btf,
}
