//! Copies of objects.

ghost use Rattle.std.specs.Prelude.{◌≡◌, IfOk};

use crate::object::Object;
use ebpf_base::{ByIndex, ByKey, ByName, ByOffset, BySection, Items};
use ebpf_btf::Btf;
use ebpf_btf_ext::BtfExt;
use ebpf_parsing::ObjectTables;
use ebpf_parts::Relocation;
use std::alloc::AllocError;

/// The fields of an object that its programs and functions share.
#[derive(Drop)]
struct Carried {
    license: Items<u8>,
    kernel_version: Option<u32>,
    btf: Option<Btf>,
    btf_ext: Option<BtfExt>,
}

/// Returns a copy of a map by names.
///
/// # Errors
///
/// - `AllocError`: an allocation failed.
#[tactic(auto, using(ebpf_base::proofs::SameMaps::exact_copy))]
pub fn copy_names<V: Clone>(values: &ByName<V>) -> Result<ByName<V>, AllocError>
    requires { (x y : V) → V.is_clone x y → y ≡ x }
    ensures { IfOk result (λ copy. copy ≡ values.now) }
{
    values.clone()
}

/// Returns a copy of a map by sections and addresses.
///
/// # Errors
///
/// - `AllocError`: an allocation failed.
#[tactic(auto, using(ebpf_base::proofs::SameMaps::exact_copy))]
pub fn copy_keys<V: Clone>(values: &ByKey<V>) -> Result<ByKey<V>, AllocError>
    requires { (x y : V) → V.is_clone x y → y ≡ x }
    ensures { IfOk result (λ copy. copy ≡ values.now) }
{
    values.clone()
}

/// A copy of a map by numbers.
#[tactic(auto, using(ebpf_base::proofs::SameMaps::exact_copy))]
fn copy_indices<V: Clone>(values: &ByIndex<V>) -> Result<ByIndex<V>, AllocError>
    requires { (x y : V) → V.is_clone x y → y ≡ x }
    ensures { IfOk result (λ copy. copy ≡ values.now) }
{
    values.clone()
}

/// A copy of the relocations.
#[tactic(auto, using(ebpf_base::proofs::SameMaps::exact_copy))]
fn copy_relocations(
    relocations: &BySection<ByOffset<Relocation>>,
) -> Result<BySection<ByOffset<Relocation>>, AllocError>
    ensures { IfOk result (λ copy. copy ≡ relocations.now) }
{
    relocations.clone()
}

/// A copy of the type information, where there is some.
fn copy_btf(btf: &Option<Btf>) -> Result<Option<Btf>, AllocError>
    ensures { IfOk result (λ copy. copy ≡ btf.now) }
{
    match btf {
        Some(btf) => Ok(Some(btf.clone()?)),
        None => Ok(None),
    }
}

/// A copy of the contents of `.BTF.ext`, where there are some.
fn copy_ext(ext: &Option<BtfExt>) -> Result<Option<BtfExt>, AllocError>
    ensures { IfOk result (λ copy. copy ≡ ext.now) }
{
    match ext {
        Some(ext) => Ok(Some(ext.clone()?)),
        None => Ok(None),
    }
}

/// A copy of the fields that an object's programs and functions share.
fn copy_carried(object: &Object) -> Result<Carried, AllocError>
    ensures { IfOk result (λ copy.
        copy
        ≡ record {
          license = object.now.license;
          kernel_version = object.now.kernel_version;
          btf = object.now.btf;
          btf_ext = object.now.btf_ext;
        }) }
{
    Ok(Carried {
        license: object.license.copied()?,
        kernel_version: object.kernel_version,
        btf: copy_btf(&object.btf)?,
        btf_ext: copy_ext(&object.btf_ext)?,
    })
}

/// A copy of the tables that sections give.
fn copy_object_tables(object: &Object) -> Result<ObjectTables, AllocError>
    ensures { IfOk result (λ copy.
        copy
        ≡ record {
          maps = object.now.maps;
          programs = object.now.programs;
          functions = object.now.functions;
          relocations = object.now.relocations;
          section_infos = object.now.section_infos;
        }) }
{
    Ok(ObjectTables {
        maps: copy_names(&object.maps)?,
        programs: copy_names(&object.programs)?,
        functions: copy_keys(&object.functions)?,
        relocations: copy_relocations(&object.relocations)?,
        section_infos: copy_names(&object.section_infos)?,
    })
}

impl Clone for Object {
    ghost is_clone = { λ old copy. copy ≡ old };

    fn clone(&self) -> Result<Object, AllocError> {
        let externs = copy_names(&self.externs)?;
        let symbol_table = copy_indices(&self.symbol_table)?;
        let carried = copy_carried(self)?;
        let parts = copy_object_tables(self)?;
        let exception_callbacks = copy_keys(&self.exception_callbacks)?;
        Ok(Object {
            endianness: self.endianness,
            license: carried.license,
            kernel_version: carried.kernel_version,
            btf: carried.btf,
            btf_ext: carried.btf_ext,
            externs,
            maps: parts.maps,
            programs: parts.programs,
            functions: parts.functions,
            symbol_table,
            relocations: parts.relocations,
            section_infos: parts.section_infos,
            exception_callbacks,
        })
    }
}
