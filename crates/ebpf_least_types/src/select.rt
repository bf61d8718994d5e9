//! Keeps what the CO-RE relocations of objects ask for.

use crate::marks::Marks;
use crate::paths::keep_path;
use crate::whole_types::BothSides;
use ebpf_base::Items;
use ebpf_btf::{Btf, BtfError, BtfKind};
use ebpf_btf_ext::{Relocation, RelocationKind};
use ebpf_core::{CoreSearch, LocalPath, Question, RelocationError, local_path, question_of};
use ebpf_object::Object;
use std::alloc::{AllocError, Global};
use std::collections::BTreeMap;

/// Returns the local side of a relocation; none where it can't be read.
fn readable_path(
    alloc: Global,
    local: &Btf,
    relocation: &Relocation,
) -> Result<Option<LocalPath>, AllocError> {
    match local_path(alloc, local, relocation) {
        Ok(path) => Ok(Some(path)),
        Err(RelocationError::OutOfMemory) => Err(AllocError),
        Err(_) => Ok(None),
    }
}

/// Returns the candidates of a local type; none where their names can't be read.
fn readable_candidates(
    alloc: Global,
    search: &mut CoreSearch<'_>,
    type_id: u32,
) -> Result<Items<u32>, AllocError> {
    match search.candidates(alloc, type_id) {
        Ok(ids) => Ok(ids),
        Err(BtfError::OutOfMemory) => Err(AllocError),
        Err(_) => Ok(Items::new(alloc)),
    }
}

/// Keeps what a relocation asks for in each of its candidates.
fn keep_record(
    alloc: Global,
    search: &mut CoreSearch<'_>,
    marks: &mut Marks,
    relocation: &Relocation,
) -> Result<(), AllocError> {
    if relocation.kind == RelocationKind::TypeIdLocal {
        return Ok(());
    }
    let Some(side) = readable_path(alloc, search.local(), relocation)? else {
        return Ok(());
    };
    let ids = readable_candidates(alloc, search, relocation.type_id)?;
    let sides = BothSides {
        local: search.local(),
        kernel: search.target(),
    };
    for id in ids.as_slice() {
        keep_path(sides, marks, relocation.type_id, &side.path, *id)?;
    }
    Ok(())
}

/// Keeps what relocations ask for. A question that was asked before is skipped.
fn keep_records(
    alloc: Global,
    search: &mut CoreSearch<'_>,
    marks: &mut Marks,
    asked: &mut BTreeMap<Question, ()>,
    records: &[Relocation],
) -> Result<(), AllocError> {
    for relocation in records {
        let question = question_of(relocation);
        if asked.contains_key(&question) {
            continue;
        }
        asked.insert(question, ())?;
        keep_record(alloc, search, marks, relocation)?;
    }
    Ok(())
}

/// Keeps what the relocations of an object ask for.
fn keep_object(
    alloc: Global,
    marks: &mut Marks,
    object: &Object,
    kernel: &Btf,
) -> Result<(), AllocError> {
    let (Some(local), Some(ext)) = (&object.btf, &object.btf_ext) else {
        return Ok(());
    };
    let mut search = CoreSearch::new(alloc, local, kernel);
    let mut asked = BTreeMap::new(alloc);
    for (_name, records) in ext.relocations() {
        keep_records(alloc, &mut search, marks, &mut asked, records.as_slice())?;
    }
    Ok(())
}

/// Returns whether a relocation is on a type that is declared and not defined.
fn asks_for_declaration(local: &Btf, records: &[Relocation]) -> bool {
    for relocation in records {
        let Some(head) = local.head(relocation.type_id as usize) else {
            continue;
        };
        if head.kind == BtfKind::Fwd {
            return true;
        }
    }
    false
}

/// Returns whether a relocation of objects is on a type that is declared and not defined.
pub fn ask_for_declarations(objects: &[Object]) -> bool {
    for object in objects {
        let (Some(local), Some(ext)) = (&object.btf, &object.btf_ext) else {
            continue;
        };
        for section in ext.relocations() {
            if asks_for_declaration(local, section.1.as_slice()) {
                return true;
            }
        }
    }
    false
}

/// Returns marks of what the CO-RE relocations of objects ask for, in order.
///
/// # Errors
///
/// - `AllocError`: out of memory.
pub fn marks_for(alloc: Global, objects: &[Object], kernel: &Btf) -> Result<Marks, AllocError> {
    let mut marks = Marks::new(alloc)?;
    for object in objects {
        keep_object(alloc, &mut marks, object, kernel)?;
    }
    marks.put_in_order();
    Ok(marks)
}
