//! The kernel of a command line: its types, symbols, configuration and version.

use crate::prepared::PrepareWords;
use cli_common::refuse::{Stop, read_given, refused};
use cli_common::vmlinux_btf::read_kernel;
use ebpf_base::Text;
use ebpf_btf::{Btf, Endianness};

/// A kernel, as far as it is given.
#[derive(Drop)]
pub struct Kernel {
    /// The types.
    pub types: Option<Btf>,
    /// The text of the symbols; empty where none is given.
    pub symbols: Vec<u8>,
    /// The text of the configuration; empty where none is given.
    pub config: Vec<u8>,
    /// The number of the version.
    pub version: Option<u32>,
}

/// A number without a sign, up to 255.
fn byte_of(text: &str) -> Option<u8> {
    if text.starts_with('+') {
        return None;
    }
    text.parse::<u8>().ok()
}

/// The last number of a version: a greater one than 255 counts as 255.
fn patch_of(text: &str) -> Option<u32> {
    if text.starts_with('+') {
        return None;
    }
    let patch = text.parse::<u32>().ok()?;
    Some(patch.min(255))
}

/// The texts before and behind the first dot; `0` behind where there is no dot.
fn minor_and_patch(text: &str) -> (&str, &str) {
    match text.split_once('.') {
        Some(parts) => parts,
        None => (text, "0"),
    }
}

/// The number of a version, as `LINUX_KERNEL_VERSION` has it: of `a.b` and `a.b.c`, as `6.12` and `6.12.3`,
/// `a << 16 | b << 8 | c`, of a `c` above 255 with 255. None where a text is no such version, or `a` or `b` is above 255.
pub fn version_number(text: &str) -> Option<u32> {
    let (major, rest) = text.split_once('.')?;
    let (minor, patch) = minor_and_patch(rest);
    let major = u32::from(byte_of(major)?);
    let minor = u32::from(byte_of(minor)?);
    Some(major << 16 | minor << 8 | patch_of(patch)?)
}

/// The kernel's types, where a file of them is given; types that can't be read are reported.
fn given_types(
    rt: &HostRuntime,
    words: &PrepareWords,
    order: Endianness,
) -> Result<Option<Btf>, Stop> {
    let Some(path) = &words.btf else {
        return Ok(None);
    };
    let path = path.as_str();
    match read_kernel(rt, path, order)? {
        Ok(types) => Ok(Some(types)),
        Err(refusal) => Err(refused(rt, words.json, path, &refusal, 2)),
    }
}

/// The bytes of a file of the kernel; empty where none is given.
fn given_text(rt: &HostRuntime, is_json: bool, path: &Option<Text>) -> Result<Vec<u8>, Stop> {
    match path {
        Some(path) => read_given(rt, is_json, path.as_str()),
        None => Ok(Vec::new(rt.alloc())),
    }
}

/// The kernel of the arguments: its types, in this byte order, its symbols, its configuration and its version.
pub fn given_kernel(
    rt: &HostRuntime,
    words: &PrepareWords,
    order: Endianness,
) -> Result<Kernel, Stop> {
    let types = given_types(rt, words, order)?;
    let symbols = given_text(rt, words.json, &words.kallsyms)?;
    let config = given_text(rt, words.json, &words.kconfig)?;
    Ok(Kernel {
        types,
        symbols,
        config,
        version: words.kernel,
    })
}
