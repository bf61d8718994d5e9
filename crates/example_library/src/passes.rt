//! The passes one by one.

use ebpf_object::Object;
use ebpf_object::obj::Btf;
use ebpf_object::prepare::{PrepareError, relocate_own_maps};
use std::alloc::Global;

/// Relocates the functions to a kernel's types.
fn relocate_types(object: &mut Object, kernel: &Btf) -> Result<(), PrepareError> {
    match object.relocate_btf(kernel) {
        Ok(()) => Ok(()),
        Err(error) => Err(PrepareError::Types(error)),
    }
}

/// Writes the descriptors of the object's maps into the slots.
fn write_fds(
    alloc: Global,
    object: &mut Object,
    descriptors: &[(&str, i32)],
) -> Result<(), PrepareError> {
    relocate_own_maps(alloc, object, descriptors)
}

/// Finds what a kernel has of the object's externs: ids by its types, addresses by the lines of its symbols.
fn resolve(object: &mut Object, kernel: &Btf, symbols: &[u8]) -> Result<(), PrepareError> {
    match object.resolve_externs(Some(kernel), symbols) {
        Ok(()) => Ok(()),
        Err(error) => Err(PrepareError::Ksyms(error)),
    }
}

/// Writes these ids and addresses into the slots.
fn write_externs(object: &mut Object) -> Result<(), PrepareError> {
    match object.relocate_externs() {
        Ok(()) => Ok(()),
        Err(error) => Err(PrepareError::Externs(error)),
    }
}

/// Links each program with the functions that it reaches.
fn link(object: &mut Object) -> Result<(), PrepareError> {
    match object.relocate_own_calls() {
        Ok(()) => Ok(()),
        Err(error) => Err(PrepareError::Calls(error)),
    }
}

/// Makes all passes over the object.
pub fn one_by_one(
    alloc: Global,
    object: &mut Object,
    kernel: &Btf,
    descriptors: &[(&str, i32)],
    symbols: &[u8],
) -> Result<(), PrepareError> {
    relocate_types(object, kernel)?;
    write_fds(alloc, object, descriptors)?;
    resolve(object, kernel, symbols)?;
    write_externs(object)?;
    link(object)
}
