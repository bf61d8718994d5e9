//! The kernels of a command line: files, and folders of files.

use cli_common::folders::{files_in, is_folder};
use ebpf_base::{Items, Text};
use std::alloc::AllocError;
use std::cmp::Ordering;

/// A kernel of the command line.
#[derive(Drop)]
pub struct KernelFile {
    /// The path of its file, or of a folder that gives none.
    pub path: Text,
    /// The reason why the folder gives none.
    pub fault: Option<Text>,
}

/// The number of bytes at the front that are digits, or that are none.
fn run_length(bytes: &[u8], digits: bool) -> usize {
    bytes
        .iter()
        .position(|byte| byte.is_ascii_digit() != digits)
        .unwrap_or(bytes.len())
}

/// A run of digits without its zeros at the front.
fn without_zeros(digits: &[u8]) -> &[u8] {
    let zeros = digits
        .iter()
        .position(|digit| *digit != b'0')
        .unwrap_or(digits.len());
    digits.get(zeros..).unwrap_or(digits)
}

/// The order of two runs of digits as numbers of any size.
fn by_number(left: &[u8], right: &[u8]) -> Ordering {
    let left = without_zeros(left);
    let right = without_zeros(right);
    match left.len().cmp(&right.len()) {
        Ordering::Equal => left.cmp(right),
        other => other,
    }
}

/// Whether a run begins with a digit.
fn has_digits(run: &[u8]) -> bool {
    match run.first() {
        Some(byte) => byte.is_ascii_digit(),
        None => false,
    }
}

/// The first run of bytes that are digits, or of bytes that are none, and the rest.
fn first_run(bytes: &[u8]) -> (&[u8], &[u8]) {
    let length = run_length(bytes, has_digits(bytes));
    let run = bytes.get(..length).unwrap_or(bytes);
    let rest = bytes.get(length..).unwrap_or(&[]);
    (run, rest)
}

/// The order of two runs: as numbers where both are digits, else byte by byte.
fn by_run(left: &[u8], right: &[u8]) -> Ordering {
    if has_digits(left) && has_digits(right) {
        return by_number(left, right);
    }
    left.cmp(right)
}

/// The order of two names run by run, where runs of digits are numbers. Names that differ in zeros before a number alone are equal
/// here, and then go by their bytes.
fn compare_names(left: &str, right: &str) -> Ordering {
    let mut left_rest = left.as_bytes();
    let mut right_rest = right.as_bytes();
    for _ in 0..left.len().saturating_add(1) {
        let (left_run, left_behind) = first_run(left_rest);
        let (right_run, right_behind) = first_run(right_rest);
        let order = by_run(left_run, right_run);
        if order != Ordering::Equal {
            return order;
        }
        left_rest = left_behind;
        right_rest = right_behind;
    }
    left.cmp(right)
}

/// Adds kernels by the paths of their files, in the order of their names.
fn add_files(all: &mut Items<KernelFile>, mut paths: Vec<Text>) -> Result<(), AllocError> {
    paths.sort_by(|left, right| compare_names(left.as_str(), right.as_str()))?;
    for path in paths {
        all.push(KernelFile { path, fault: None })?;
    }
    Ok(())
}

/// Adds the files of a folder; the folder itself where it can't be listed or has none.
fn add_folder(
    rt: &HostRuntime,
    all: &mut Items<KernelFile>,
    folder: &str,
) -> Result<(), AllocError> {
    let fault = match files_in(rt, folder)? {
        Ok(paths) => return add_files(all, paths),
        Err(words) => Text::from_string(words),
    };
    all.push(KernelFile {
        path: Text::from_str(rt.alloc(), folder)?,
        fault: Some(fault),
    })?;
    Ok(())
}

/// Adds the file of an argument, or the files of the folder that it is.
fn add_word(rt: &HostRuntime, all: &mut Items<KernelFile>, word: &str) -> Result<(), AllocError> {
    if is_folder(rt, word) {
        return add_folder(rt, all, word);
    }
    let path = Text::from_str(rt.alloc(), word)?;
    all.push(KernelFile { path, fault: None })?;
    Ok(())
}

/// The running kernel's types.
const RUNNING: &str = "/sys/kernel/btf/vmlinux";

/// The kernels of the arguments: files, and the files of folders; without an argument the running one.
pub fn kernel_files(rt: &HostRuntime, words: &[Text]) -> Result<Items<KernelFile>, AllocError> {
    let mut all = Items::new(rt.alloc());
    if words.is_empty() {
        add_word(rt, &mut all, RUNNING)?;
    }
    for word in words {
        add_word(rt, &mut all, word.as_str())?;
    }
    Ok(all)
}
