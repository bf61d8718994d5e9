//! The bytes of a file of least types.

ghost use Rattle.std.specs.Prelude.{◌≡◌, ◌-◌, IfOk, None, Ok, length};
ghost use Rattle.cli_btf.specs.LeastFile.{HoldsLeastTypes, HoldsSameSlots};
ghost use Rattle.ebpf_btf.specs.Header.{order_of};
ghost use Rattle.ebpf_btf.specs.Reading.{type_info_of};
ghost use Rattle.ebpf_least_types.specs.IdUses.{first_id_use};

use ebpf_btf::{Btf, BtfError};
use ebpf_least_types::{LeastTypesError, least_types, least_types_despite_ids};
use ebpf_object::Object;
use std::alloc::Global;

/// The least types of a kernel, as a file.
#[derive(Drop)]
pub struct LeastFile {
    /// The number of types, without `void`.
    pub types: usize,
    /// The bytes of the file.
    pub bytes: Vec<u8>,
}

/// The reason why there is no file of least types.
#[derive(Drop)]
pub enum LeastFailure {
    /// An object needs ids of the kernel's types, or out of memory.
    Types(LeastTypesError),
    /// The types can't be written.
    Bytes(BtfError),
}

/// Returns the file of types.
fn file_of(alloc: Global, types: &Btf) -> Result<LeastFile, LeastFailure>
    ensures read { IfOk result (λ file.
        type_info_of (order_of file.bytes.items) file.bytes.items ≡ Ok types.now) }
    ensures counted { IfOk result (λ file. file.types ≡ length types.now.types - 1) }
{
    match types.to_bytes(alloc) {
        Ok(bytes) => Ok(LeastFile {
            types: types.len().saturating_sub(1),
            bytes,
        }),
        Err(error) => Err(LeastFailure::Bytes(error)),
    }
}

/// Returns the file of the types of a kernel that objects ask for.
///
/// # Errors
///
/// - `Types`: an object needs ids of the kernel's types; out of memory.
/// - `Bytes`: the types can't be written; out of memory.
pub fn least_file(
    alloc: Global,
    objects: &[Object],
    kernel: &Btf,
) -> Result<LeastFile, LeastFailure>
    ensures file { IfOk result (λ file.
        HoldsLeastTypes objects.now kernel.now file.bytes.items file.types) }
    ensures slots { IfOk result (λ file.
        HoldsSameSlots objects.now kernel.now file.bytes.items) }
    ensures no_ids { IfOk result (λ _. first_id_use objects.now ≡ None) }
{
    match least_types(alloc, objects, kernel) {
        Ok(types) => file_of(alloc, &types),
        Err(error) => Err(LeastFailure::Types(error)),
    }
}

/// Returns the file of the types of a kernel that objects ask for, also where something needs ids of the kernel's types.
///
/// # Errors
///
/// - `Types`: out of memory.
/// - `Bytes`: the types can't be written; out of memory.
pub fn least_file_despite_ids(
    alloc: Global,
    objects: &[Object],
    kernel: &Btf,
) -> Result<LeastFile, LeastFailure>
    ensures { IfOk result (λ file.
        HoldsLeastTypes objects.now kernel.now file.bytes.items file.types) }
{
    match least_types_despite_ids(alloc, objects, kernel) {
        Ok(types) => file_of(alloc, &types),
        Err(_) => Err(LeastFailure::Types(LeastTypesError::OutOfMemory)),
    }
}
