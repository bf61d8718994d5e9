//! The passes in one call.

use ebpf_object::Object;
use ebpf_object::obj::{Btf, BtfError, Endianness, ParseError};
use ebpf_object::prepare::{PrepareError, Steps, prepare_copy, prepare_in_place, prepare_object};
use std::alloc::Global;

/// The object of a file.
pub fn parsed(alloc: Global, file: &[u8]) -> Result<Object, ParseError> {
    Object::parse(alloc, file)
}

/// The kernel's types, as /sys/kernel/btf/vmlinux has them.
pub fn kernel_types(bytes: Vec<u8>) -> Result<Btf, BtfError> {
    Btf::from_vec(bytes, Endianness::Little)
}

/// A copy of the object after the steps; the object stays as it is.
pub fn copied(
    alloc: Global,
    object: &Object,
    steps: &Steps<'_>,
    symbols: &[u8],
) -> Result<Object, PrepareError> {
    prepare_copy(alloc, object, steps, symbols)
}

/// The object itself after the steps; after a refusal it is gone.
pub fn taken(
    alloc: Global,
    object: Object,
    steps: &Steps<'_>,
    symbols: &[u8],
) -> Result<Object, PrepareError> {
    prepare_object(alloc, object, steps, symbols)
}

/// The object where it stands; after a refusal it is as it was.
pub fn in_place(
    alloc: Global,
    object: &mut Object,
    steps: &Steps<'_>,
    symbols: &[u8],
) -> Result<(), PrepareError> {
    prepare_in_place(alloc, object, steps, symbols)
}
