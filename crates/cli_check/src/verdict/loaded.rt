//! An object, read once for all kernels.

use crate::verdict::own_values::own_value;
use cli_common::kconfig_externs::object_settings;
use cli_common::programs::ObjectProgram;
use cli_common::unknown_externs::{add_settings, add_unknown};
use ebpf_base::{ByName, Items, Text};
use ebpf_btf::Btf;
use ebpf_btf_ext::Relocation;
use ebpf_model::ExternDesc;
use ebpf_object::Object;
use std::alloc::{AllocError, Global};

/// A CO-RE relocation.
#[derive(Clone, Copy)]
pub struct Record {
    /// The relocation.
    pub relocation: Relocation,
    /// The value by the object's own types, where a kernel's different value is reported.
    pub own: Option<u64>,
}

/// The needs of an object.
#[derive(Drop)]
pub struct Needs {
    /// The programs that count, in byte order of their names.
    pub programs: Vec<ObjectProgram>,
    /// The CO-RE relocations, section by section and in order.
    pub records: Vec<Record>,
    /// The names of the externs that the kernel's configuration gives.
    pub settings: Items<Text>,
}

/// An object with its needs.
#[derive(Drop)]
pub struct Loaded {
    /// The object, parsed leniently, whose externs without a type stand for a type's id, so that nothing is said of their
    /// values.
    pub object: Object,
    /// The needs of the object.
    pub needs: Needs,
}

/// Adds the CO-RE relocations of a section.
fn add_records(
    alloc: Global,
    records: &mut Vec<Record>,
    local: &Btf,
    relocations: &[Relocation],
    all: bool,
) -> Result<(), AllocError> {
    for relocation in relocations {
        let own = own_value(alloc, local, relocation, all)?;
        records.push(Record {
            relocation: *relocation,
            own,
        })?;
    }
    Ok(())
}

/// The CO-RE relocations of an object; none of one without types.
fn records_of(alloc: Global, object: &Object, all: bool) -> Result<Vec<Record>, AllocError> {
    let mut records = Vec::new(alloc);
    let (Some(local), Some(said)) = (&object.btf, &object.btf_ext) else {
        return Ok(records);
    };
    for section in said.relocations() {
        add_records(alloc, &mut records, local, section.1.as_slice(), all)?;
    }
    Ok(records)
}

/// The externs with a type, as they are.
fn typed_externs(alloc: Global, object: &Object) -> Result<ByName<ExternDesc>, AllocError> {
    let mut typed = ByName::new(alloc);
    for (name, known) in object.externs.iter() {
        if !known.is_typed {
            continue;
        }
        typed.insert(name.clone()?, *known)?;
    }
    Ok(typed)
}

/// The externs with a type as they are, and all others with a value: those that the kernel's configuration gives, and those
/// whose addresses a kernel's symbols tell.
pub fn externs_with_values(
    alloc: Global,
    object: &Object,
    settings: &[Text],
) -> Result<ByName<ExternDesc>, AllocError> {
    let mut externs = typed_externs(alloc, object)?;
    add_unknown(&object.externs, &mut externs)?;
    add_settings(settings, &mut externs)?;
    Ok(externs)
}

impl Needs {
    /// The needs of an object, of which these programs count; `all` says whether each value that a kernel may change is
    /// reported. It borrows the object: each way out of a function is proved to drop what it holds.
    pub fn of(
        alloc: Global,
        object: &Object,
        programs: Vec<ObjectProgram>,
        all: bool,
    ) -> Result<Needs, AllocError> {
        let records = records_of(alloc, object, all)?;
        let settings = object_settings(alloc, object)?;
        Ok(Needs {
            programs,
            records,
            settings,
        })
    }
}
