//! The properties of an object that its programs and functions share.

use ebpf_base::Items;
use ebpf_btf::Btf;
use ebpf_btf_ext::BtfExt;
use ebpf_parts::ParseMode;

/// The properties of an object that its programs and functions share.
#[derive(Drop)]
pub struct FileMetadata {
    pub mode: ParseMode,
    pub license: Items<u8>,
    pub kernel_version: Option<u32>,
    pub btf: Option<Btf>,
    pub btf_ext: Option<BtfExt>,
}
