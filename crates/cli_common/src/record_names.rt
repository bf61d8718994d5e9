//! What records are about, as libbpf's log names it.

use crate::labels::add_type_label;
use ebpf_btf::{Btf, BtfKind};
use ebpf_btf_ext::{Relocation, RelocationKind};
use ebpf_core::{LocalPath, NamedPath, RelocationError, Step, local_path, outcome_among};
use ebpf_core_relo::Absence;
use std::alloc::{AllocError, Global};

/// Adds the steps to a field. The first of them, which counts in the root type itself, is printed where it isn't 0.
fn add_steps(alloc: Global, name: &mut String, steps: &[Step]) -> Result<(), AllocError> {
    let mut is_first = true;
    for step in steps {
        match step {
            Step::Name { name: member, .. } => {
                name.push_str(".")?;
                name.push_str(member.as_str())?;
            }
            Step::Index { index: 0 } if is_first => {}
            Step::Index { index } => {
                let index = format!(in alloc; "[{index}]")?;
                name.push_str(index.as_str())?;
            }
        }
        is_first = false;
    }
    Ok(())
}

/// Adds the access string of a record that leads nowhere.
fn add_access(name: &mut String, local: &Btf, relocation: &Relocation) -> Result<(), AllocError> {
    let Ok(access) = local.string_at(relocation.access_str_off) else {
        return Ok(());
    };
    name.push_str(" at ")?;
    name.push_str(access.as_str())
}

/// Adds what a record asks of its type: the field or the enumerator.
fn add_path(alloc: Global, name: &mut String, path: &NamedPath) -> Result<(), AllocError> {
    match path {
        NamedPath::WholeType | NamedPath::MatchedType => Ok(()),
        NamedPath::Variant { name: variant } => {
            name.push_str(".")?;
            name.push_str(variant.as_str())
        }
        NamedPath::Field { steps, .. } => add_steps(alloc, name, steps.as_slice()),
    }
}

/// What a record is about: its local type, and the field or enumerator in it, as `struct task_struct.se.cfs_rq`.
pub fn record_name(
    alloc: Global,
    local: &Btf,
    relocation: &Relocation,
) -> Result<String, AllocError> {
    let mut name = String::new(alloc);
    add_type_label(&mut name, local, relocation.type_id)?;
    match local_path(alloc, local, relocation) {
        Ok(path) => add_path(alloc, &mut name, &path.path)?,
        Err(error) => {
            no_answer(error)?;
            add_access(&mut name, local, relocation)?;
        }
    }
    Ok(name)
}

/// What a record asks, and what the object's own types answer.
#[derive(Drop)]
pub struct RecordSubject {
    /// What the record is about.
    pub name: String,
    /// The value that the object's own types give it. None where they give none.
    pub own: Option<u64>,
}

impl RecordSubject {
    /// What a record asks, and what the object's own types answer: its access string is read once for both.
    pub fn of(
        alloc: Global,
        local: &Btf,
        relocation: &Relocation,
    ) -> Result<RecordSubject, AllocError> {
        let mut name = String::new(alloc);
        add_type_label(&mut name, local, relocation.type_id)?;
        let own = match local_path(alloc, local, relocation) {
            Ok(path) => {
                add_path(alloc, &mut name, &path.path)?;
                own_value_of(alloc, local, relocation, &path)?
            }
            Err(error) => {
                no_answer(error)?;
                add_access(&mut name, local, relocation)?;
                None
            }
        };
        Ok(RecordSubject { name, own })
    }
}

/// Why a record has no value, in words.
pub fn absence_words(absence: Absence) -> &'static str {
    match absence {
        Absence::NoType => "no such type (a module's?)",
        Absence::TypeOfAnotherKind => "a type of another kind",
        Absence::NoMember => "no such member",
        Absence::MemberOfAnotherKind => "a member of another kind",
        Absence::NoEnumerator => "no such enumerator",
        Absence::NoValue => "no value",
    }
}

/// Whether the values of a record are shown with a sign: those of enumerators, but for enumerations of 64 bits that the
/// object states to have none.
pub fn has_sign(local: &Btf, relocation: &Relocation) -> bool {
    if relocation.kind != RelocationKind::EnumVariantValue {
        return false;
    }
    let Ok(ty) = local.resolved_type(relocation.type_id) else {
        return true;
    };
    ty.is_signed() || ty.kind() != BtfKind::Enum64
}

/// A refusal that leaves no answer. Out of memory is none of these.
pub fn no_answer(error: RelocationError) -> Result<(), AllocError> {
    let is_memory = matches!(error, RelocationError::OutOfMemory);
    drop(error);
    if is_memory { Err(AllocError) } else { Ok(()) }
}

/// The value that the object's own types give a record with a path. None where they give none.
pub fn own_value_of(
    alloc: Global,
    local: &Btf,
    relocation: &Relocation,
    path: &LocalPath,
) -> Result<Option<u64>, AllocError> {
    let itself = [relocation.type_id];
    match outcome_among(alloc, local, local, relocation, path, &itself) {
        Ok(outcome) => Ok(outcome.value),
        Err(error) => {
            no_answer(error)?;
            Ok(None)
        }
    }
}
