//! What objects need of the ids of the kernel's own types.

use crate::objects::{NamedObjects, ObjectName};
use cli_common::kinds::Kind;
use cli_common::record_names::record_name;
use cli_common::refusal::FileRefusal;
use ebpf_base::Text;
use ebpf_btf::Btf;
use ebpf_btf_ext::Relocation;
use ebpf_least_types::{KernelIdUse, kernel_id_uses};
use ebpf_object::Object;
use std::alloc::{AllocError, Global};

/// Something in an object that needs an id of the kernel's own types.
#[derive(Drop)]
pub struct NeededId {
    /// The number of the object among those of the command line, from 0 on.
    pub object: usize,
    /// The name of the type, extern or attach target.
    pub name: String,
    /// The kind of the use.
    pub kind: Kind,
    /// The name of the relocation's section, or of the program that is attached.
    pub location: Option<String>,
    /// The index of the relocation in its section of `.BTF.ext`, from 0 on.
    pub number: Option<usize>,
}

/// Returns the relocation of an index in the sections of a name.
fn relocation_at(object: &Object, section_name: u32, number: usize) -> Option<&Relocation> {
    let ext = object.btf_ext.as_ref()?;
    for (name, relocations) in ext.relocations() {
        if *name != section_name {
            continue;
        }
        let found = relocations
            .iter()
            .find(|relocation| relocation.number == number);
        if found.is_some() {
            return found;
        }
    }
    None
}

/// Returns a text of the strings of an object; the empty text where it can't be read.
fn string_of(alloc: Global, types: &Btf, offset: u32) -> Result<String, AllocError> {
    match types.string_at(offset) {
        Ok(text) => String::from_str(alloc, text.as_str()),
        Err(_) => Ok(String::new(alloc)),
    }
}

/// Returns the use of a kernel's id by a relocation.
fn needed_by_record(
    alloc: Global,
    at: usize,
    object: &Object,
    section_name: u32,
    number: usize,
) -> Result<NeededId, AllocError> {
    let mut name = String::new(alloc);
    let mut location = String::new(alloc);
    if let Some(types) = &object.btf {
        location = string_of(alloc, types, section_name)?;
        if let Some(relocation) = relocation_at(object, section_name, number) {
            name = record_name(alloc, types, relocation)?;
        }
    }
    Ok(NeededId {
        object: at,
        name,
        kind: Kind::TargetTypeId,
        location: Some(location),
        number: Some(number),
    })
}

/// Returns a use of a kernel's id with the names that it has in the object.
fn named_use(
    alloc: Global,
    at: usize,
    object: &Object,
    needed: &KernelIdUse,
) -> Result<NeededId, AllocError> {
    match needed {
        KernelIdUse::Record {
            section_name,
            number,
        } => needed_by_record(alloc, at, object, *section_name, *number),
        KernelIdUse::Extern { name } => Ok(NeededId {
            object: at,
            name: String::from_str(alloc, name.as_str())?,
            kind: Kind::Ksym,
            location: None,
            number: None,
        }),
        KernelIdUse::Target { program, target } => Ok(NeededId {
            object: at,
            name: String::from_str(alloc, target.as_str())?,
            kind: Kind::Attach,
            location: Some(String::from_str(alloc, program.as_str())?),
            number: None,
        }),
    }
}

/// Adds what an object needs of the kernel's ids.
fn add_needed(
    alloc: Global,
    all: &mut Vec<NeededId>,
    at: usize,
    object: &Object,
) -> Result<(), AllocError> {
    let uses = kernel_id_uses(alloc, object)?;
    for needed in uses.iter() {
        all.push(named_use(alloc, at, object, needed)?)?;
    }
    Ok(())
}

/// Returns what objects need of the kernel's ids, object by object.
pub fn needed_ids(alloc: Global, objects: &[Object]) -> Result<Vec<NeededId>, AllocError> {
    let mut all = Vec::new(alloc);
    for (at, object) in objects.iter().enumerate() {
        add_needed(alloc, &mut all, at, object)?;
    }
    Ok(all)
}

/// Adds a use to the sentence of a refusal.
fn add_words(text: &mut String, needed: &NeededId) -> Result<(), AllocError> {
    let kind = needed.kind.word();
    write!(text, "{} <{kind}>", needed.name)
}

/// Returns the refusal of an object for what it needs of the kernel's ids.
fn refusal_of(
    alloc: Global,
    needed: &[NeededId],
    object: usize,
) -> Result<FileRefusal, AllocError> {
    let mut text = String::from_str(alloc, "needs ids of the kernel's types: ")?;
    let mut between = "";
    for one in needed {
        if one.object != object {
            continue;
        }
        text.push_str(between)?;
        add_words(&mut text, one)?;
        between = ", ";
    }
    let help = "--allow-ids writes the file, in which ids are others";
    Ok(FileRefusal {
        stage: "btf",
        variant: "NeedsKernelId",
        text,
        help: Some(String::from_str(alloc, help)?),
    })
}

/// The refusal of the first object that needs ids of the kernel, with its path.
#[derive(Drop)]
pub struct IdRefusal {
    /// The path of the object's file.
    pub path: Text,
    /// The refusal.
    pub refusal: FileRefusal,
}

/// Returns the path of an object's file.
fn path_of(alloc: Global, name: Option<&ObjectName>) -> Result<Text, AllocError> {
    match name {
        Some(name) => name.path.clone(),
        None => Ok(Text::empty(alloc)),
    }
}

/// Returns the refusal of the first object that needs ids of the kernel. None where no object does.
pub fn id_refusal(
    alloc: Global,
    all: &NamedObjects,
    needed: &[NeededId],
) -> Result<Option<IdRefusal>, AllocError> {
    let Some(first) = needed.first() else {
        return Ok(None);
    };
    let path = path_of(alloc, all.names.get(first.object))?;
    let refusal = refusal_of(alloc, needed, first.object)?;
    Ok(Some(IdRefusal { path, refusal }))
}
