//! Folders that arguments name, and their files.

use crate::refusal::system_words;
use ebpf_base::Text;
use std::alloc::AllocError;
use std::{fs, io};

/// Whether a path leads to a folder. One that can't be looked at is none, and can't be read either.
pub fn is_folder(rt: &HostRuntime, path: &str) -> bool {
    match fs::metadata(rt, path) {
        Ok(metadata) => metadata.is_dir(),
        Err(_) => false,
    }
}

/// The paths of a folder's files in byte order of their names.
fn paths_in(rt: &HostRuntime, folder: &str) -> io::Result<Vec<Text>> {
    let mut paths = Vec::new(rt.alloc());
    for entry in fs::read_dir(rt, folder)? {
        let entry = entry?;
        let path = entry.path();
        let path = path.as_str();
        if is_folder(rt, path) {
            continue;
        }
        paths.push(Text::from_str(rt.alloc(), path)?)?;
    }
    paths.sort_by(|left, right| left.as_str().cmp(right.as_str()))?;
    Ok(paths)
}

/// Returns the paths of a folder's files in byte order of their names, or the reason why there are none. Folders in it
/// are skipped.
pub fn files_in(rt: &HostRuntime, folder: &str) -> Result<Result<Vec<Text>, String>, AllocError> {
    let alloc = rt.alloc();
    match paths_in(rt, folder) {
        Ok(paths) if !paths.is_empty() => Ok(Ok(paths)),
        Ok(_) => Ok(Err(String::from_str(alloc, "no file in it")?)),
        Err(error) => Ok(Err(system_words(alloc, &error)?)),
    }
}
