//! The run of `ebpf btf` over the kernels of a command line.

use crate::json::write_json;
use crate::kernel_ids::{NeededId, id_refusal, needed_ids};
use crate::kernels::{KernelPair, kernel_pairs};
use crate::least_file::{LeastFailure, LeastFile, least_file, least_file_despite_ids};
use crate::objects::NamedObjects;
use crate::printing::{write_kernel, write_lacking};
use cli_common::refusal::{FileRefusal, system_refusal};
use cli_common::refuse::{Stop, refused, tell};
use cli_common::variants::variant_of_types;
use cli_common::vmlinux_btf::read_kernel;
use cli_output::whole_file::write_whole;
use ebpf_base::{Endianness, Items, Text};
use ebpf_btf::{Btf, BtfError};
use ebpf_least_types::LeastTypesError;
use ebpf_object::Object;
use std::alloc::{AllocError, Global};
use std::fs;
use std::io::{self, BufWriter, Stdout, Write};

/// The arguments of `ebpf btf`.
#[derive(Drop)]
pub struct BtfWords {
    /// The files of the objects.
    pub files: Items<Text>,
    /// The number of the object in each file. Without one all objects of a file count.
    pub object: Option<usize>,
    /// The file of the kernel's BTF, or a folder of such files.
    pub btf: Text,
    /// The file that is written, or the folder of the files.
    pub output: Text,
    /// Whether needs of the kernel's own ids are allowed.
    pub allow_ids: bool,
    /// Whether the output is JSON.
    pub json: bool,
}

/// The sizes of a kernel's types and of its least types.
#[derive(Clone, Copy)]
pub struct Sizes {
    /// The number of the kernel's types.
    pub types: usize,
    /// The size of the kernel's file, in bytes.
    pub bytes: u64,
    /// The number of the least types.
    pub least_types: usize,
    /// The size of the file that was written, in bytes.
    pub least_bytes: usize,
}

/// The outcome for a kernel.
#[derive(Drop)]
pub enum Cut {
    /// Its least types are written.
    Written(Sizes),
    /// The reason why they aren't.
    Refused(FileRefusal),
}

/// A kernel that is done.
#[derive(Drop)]
pub struct CutKernel {
    /// The path of its file.
    pub name: Text,
    /// The path of the file of its least types.
    pub output: Text,
    /// The outcome.
    pub answer: Cut,
}

/// Reads the objects of the files.
fn load(rt: &HostRuntime, words: &BtfWords, all: &mut NamedObjects) -> Result<(), Stop> {
    for file in words.files.iter() {
        all.add_file(rt, words.json, file.as_str(), words.object)?;
    }
    Ok(())
}

/// The byte order of the first object.
fn order_of(objects: &[Object]) -> Endianness {
    match objects.first() {
        Some(object) => object.endianness,
        None => Endianness::Little,
    }
}

/// The refusal of types that can't be written.
fn bytes_refusal(alloc: Global, error: &BtfError) -> Result<FileRefusal, AllocError> {
    if matches!(error, BtfError::OutOfMemory) {
        return Err(AllocError);
    }
    Ok(FileRefusal {
        stage: "btf",
        variant: variant_of_types(error),
        text: format!(in alloc; "{error}")?,
        help: None,
    })
}

/// The refusal of least types.
fn types_refusal(alloc: Global, error: &LeastTypesError) -> Result<FileRefusal, AllocError> {
    if matches!(error, LeastTypesError::OutOfMemory) {
        return Err(AllocError);
    }
    Ok(FileRefusal {
        stage: "btf",
        variant: "NeedsKernelId",
        text: format!(in alloc; "{error}")?,
        help: None,
    })
}

/// The refusal of a file of least types.
fn failure_refusal(alloc: Global, failure: &LeastFailure) -> Result<FileRefusal, AllocError> {
    match failure {
        LeastFailure::Types(error) => types_refusal(alloc, error),
        LeastFailure::Bytes(error) => bytes_refusal(alloc, error),
    }
}

/// The file of the least types of a kernel.
fn cut_file(
    alloc: Global,
    allow_ids: bool,
    objects: &[Object],
    kernel: &Btf,
) -> Result<LeastFile, LeastFailure> {
    if allow_ids {
        least_file_despite_ids(alloc, objects, kernel)
    } else {
        least_file(alloc, objects, kernel)
    }
}

/// The size of a file, in bytes; 0 where the system doesn't say it.
fn file_size(rt: &HostRuntime, path: &str) -> u64 {
    match fs::metadata(rt, path) {
        Ok(metadata) => metadata.len(),
        Err(_) => 0,
    }
}

/// Writes a file of least types.
fn write_least(
    rt: &HostRuntime,
    pair: &KernelPair,
    types: usize,
    least: &LeastFile,
) -> Result<Cut, AllocError> {
    let bytes = file_size(rt, pair.kernel.as_str());
    match write_whole(rt, pair.output.as_str(), &least.bytes) {
        Ok(()) => Ok(Cut::Written(Sizes {
            types,
            bytes,
            least_types: least.types,
            least_bytes: least.bytes.len(),
        })),
        Err(error) => Ok(Cut::Refused(system_refusal(rt.alloc(), "CannotWrite", &error)?)),
    }
}

/// Writes the least types of a kernel that was read.
fn cut_types(
    rt: &HostRuntime,
    words: &BtfWords,
    objects: &[Object],
    pair: &KernelPair,
    kernel: &Btf,
) -> Result<Cut, AllocError> {
    let alloc = rt.alloc();
    match cut_file(alloc, words.allow_ids, objects, kernel) {
        Ok(least) => write_least(rt, pair, kernel.len().saturating_sub(1), &least),
        Err(failure) => {
            let refusal = failure_refusal(alloc, &failure)?;
            Ok(Cut::Refused(refusal))
        }
    }
}

/// Reports a refusal of a kernel's file, or of the file of its least types.
fn report(rt: &HostRuntime, pair: &KernelPair, answer: &Cut) {
    if let Cut::Refused(refusal) = answer {
        let path = if refusal.variant == "CannotWrite" {
            &pair.output
        } else {
            &pair.kernel
        };
        tell(rt, path.as_str(), refusal);
    }
}

/// Writes the least types of the kernel of a file.
fn cut_kernel(
    rt: &HostRuntime,
    words: &BtfWords,
    objects: &[Object],
    pair: &KernelPair,
) -> Result<CutKernel, AllocError> {
    let answer = match read_kernel(rt, pair.kernel.as_str(), order_of(objects))? {
        Ok(kernel) => cut_types(rt, words, objects, pair, &kernel)?,
        Err(refusal) => Cut::Refused(refusal),
    };
    report(rt, pair, &answer);
    Ok(CutKernel {
        name: pair.kernel.clone()?,
        output: pair.output.clone()?,
        answer,
    })
}

/// Adds a kernel that is done.
fn add_kernel(kernels: &mut Vec<CutKernel>, kernel: CutKernel) -> Result<(), AllocError> {
    kernels.push(kernel)?;
    Ok(())
}

/// Writes the line of a kernel.
fn write_line(out: &mut BufWriter<Stdout>, kernel: &CutKernel) -> io::Result<()> {
    write_kernel(out, kernel)?;
    out.flush()
}

/// Writes the least types of each kernel, and its line when it is done.
fn cut_kernels(
    rt: &HostRuntime,
    words: &BtfWords,
    objects: &[Object],
    pairs: &[KernelPair],
    out: &mut BufWriter<Stdout>,
) -> Result<Vec<CutKernel>, Stop> {
    let mut kernels = Vec::new(rt.alloc());
    for pair in pairs {
        let kernel = cut_kernel(rt, words, objects, pair)?;
        if !words.json {
            write_line(out, &kernel)?;
        }
        add_kernel(&mut kernels, kernel)?;
    }
    Ok(kernels)
}

/// The exit status: 2 where a kernel's least types aren't written, else 0.
fn status_of(kernels: &[CutKernel]) -> u8 {
    let all_written = kernels
        .iter()
        .all(|kernel| matches!(kernel.answer, Cut::Written(_)));
    if all_written { 0 } else { 2 }
}

/// Writes what is left of the output when all kernels are done.
fn write_output(
    words: &BtfWords,
    kernels: &[CutKernel],
    all: &NamedObjects,
    needed: &[NeededId],
    out: &mut BufWriter<Stdout>,
) -> io::Result<()> {
    if words.json {
        let files = words.files.as_slice();
        write_json(out, files, status_of(kernels), kernels, all, needed)?;
    } else {
        write_lacking(out, all, needed)?;
    }
    out.flush()
}

/// Writes the least types of each kernel, and the output.
fn write_files(
    rt: &HostRuntime,
    words: &BtfWords,
    all: &NamedObjects,
    needed: &[NeededId],
) -> Result<u8, Stop> {
    let pairs = kernel_pairs(rt, words.json, words.btf.as_str(), words.output.as_str())?;
    let mut out = BufWriter::new(rt.alloc(), rt.stdout())?;
    let kernels = cut_kernels(rt, words, &all.objects, pairs.as_slice(), &mut out)?;
    write_output(words, &kernels, all, needed, &mut out)?;
    Ok(status_of(&kernels))
}

/// Refuses the first object that needs the kernel's ids.
fn check_ids(
    rt: &HostRuntime,
    words: &BtfWords,
    all: &NamedObjects,
    needed: &[NeededId],
) -> Result<(), Stop> {
    if words.allow_ids {
        return Ok(());
    }
    match id_refusal(rt.alloc(), all, needed)? {
        Some(found) => Err(refused(rt, words.json, found.path.as_str(), &found.refusal, 1)),
        None => Ok(()),
    }
}

/// Writes the least types that objects ask for of each kernel.
fn write_for(rt: &HostRuntime, words: &BtfWords, all: &NamedObjects) -> Result<u8, Stop> {
    let needed = needed_ids(rt.alloc(), &all.objects)?;
    check_ids(rt, words, all, &needed)?;
    write_files(rt, words, all, &needed)
}

/// Reads the objects, and writes the least types that they ask for of each kernel.
fn run(rt: &HostRuntime, words: &BtfWords, all: &mut NamedObjects) -> Result<u8, Stop> {
    load(rt, words, all)?;
    write_for(rt, words, all)
}

/// Runs `ebpf btf`, and gives the status.
pub fn btf(rt: &HostRuntime, words: &BtfWords) -> Result<u8, Stop> {
    let mut all = NamedObjects::new(rt.alloc());
    run(rt, words, &mut all)
}
