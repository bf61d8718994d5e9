//! The kernels of a command line, and the files of their least types.

use cli_common::folders::{files_in, is_folder};
use cli_common::names::last_part;
use cli_common::refusal::{FileRefusal, reading_refusal, system_refusal};
use cli_common::refuse::{Stop, refused};
use ebpf_base::{Items, Text};
use std::alloc::{AllocError, Global};
use std::fs;

/// A kernel's file, and the file of its least types.
#[derive(Drop)]
pub struct KernelPair {
    /// The path of the kernel's file.
    pub kernel: Text,
    /// The path of the file that is written.
    pub output: Text,
}

/// Returns each file of a folder with the file of the same name in another folder.
fn pairs_of(
    alloc: Global,
    paths: Vec<Text>,
    output: &str,
) -> Result<Items<KernelPair>, AllocError> {
    let mut pairs = Items::new(alloc);
    for kernel in paths {
        let name = last_part(kernel.as_str());
        let output = format!(in alloc; "{output}/{name}")?;
        let output = Text::from_string(output);
        pairs.push(KernelPair { kernel, output })?;
    }
    Ok(pairs)
}

/// Returns the files of a folder with the files of the other folder, or the refusal of the first.
fn folder_pairs(
    rt: &HostRuntime,
    folder: &str,
    output: &str,
) -> Result<Result<Items<KernelPair>, FileRefusal>, AllocError> {
    match files_in(rt, folder)? {
        Ok(paths) => Ok(Ok(pairs_of(rt.alloc(), paths, output)?)),
        Err(words) => Ok(Err(reading_refusal("CannotRead", words))),
    }
}

/// Returns a kernel's file with the output's.
fn one_pair(alloc: Global, kernel: &str, output: &str) -> Result<Items<KernelPair>, AllocError> {
    let mut pairs = Items::new(alloc);
    pairs.push(KernelPair {
        kernel: Text::from_str(alloc, kernel)?,
        output: Text::from_str(alloc, output)?,
    })?;
    Ok(pairs)
}

/// Makes the folder of the files that are written, where it is missing.
fn make_folder(rt: &HostRuntime, json: bool, folder: &str) -> Result<(), Stop> {
    match fs::create_dir_all(rt, folder) {
        Ok(()) => Ok(()),
        Err(error) => {
            let refusal = system_refusal(rt.alloc(), "CannotWrite", &error)?;
            Err(refused(rt, json, folder, &refusal, 2))
        }
    }
}

/// Returns the kernel's file and the output's or, where the kernel's is a folder, each of its files with the file of the
/// same name in the output's folder, which is made.
pub fn kernel_pairs(
    rt: &HostRuntime,
    json: bool,
    kernel: &str,
    output: &str,
) -> Result<Items<KernelPair>, Stop> {
    let alloc = rt.alloc();
    if is_folder(rt, kernel) {
        return match folder_pairs(rt, kernel, output)? {
            Ok(pairs) => {
                make_folder(rt, json, output)?;
                Ok(pairs)
            }
            Err(refusal) => Err(refused(rt, json, kernel, &refusal, 2)),
        };
    }
    Ok(one_pair(alloc, kernel, output)?)
}
