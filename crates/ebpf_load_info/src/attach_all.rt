//! The kernel types to which programs of several sections are attached, by one pass over the types.

ghost use Rattle.std.specs.List.{list_all, list_any};
ghost use Rattle.std.specs.Prelude.{◌≡◌, IfOk, find, map};
ghost use Rattle.ebpf_base.specs.Maps.{lent_bytes};
ghost use Rattle.ebpf_load_info.specs.AttachTargets.{attach_target};
ghost use Rattle.ebpf_load_info.specs.PrivateContracts.{AreFound, attached, is_found, is_wanted_at, is_wanted_by, wanted_type};

use crate::attach::{AttachTarget, WantedType, wanted_type};
use crate::texts::{is_named_at, is_named_by};
use ebpf_base::Items;
use ebpf_btf::{Btf, TypeHead};
use std::alloc::{AllocError, Global};

/// The types to which the programs of sections are attached, before they are looked up.
fn wanted_types(alloc: Global, section_names: &[&str]) -> Result<Items<WantedType>, AllocError>
    ensures { IfOk result (λ wanted. wanted ≡ map wanted_type (lent_bytes section_names.now)) }
{
    let mut wanted = Items::new(alloc);
    for section_name in section_names {
        wanted.push(wanted_type(alloc, section_name)?)?;
    }
    Ok(wanted)
}

/// Whether a type is a wanted one, by its head.
fn is_wanted_by(types: &Btf, wanted: &WantedType, head: TypeHead) -> bool
    ensures { result ≡ is_wanted_by types.now head wanted.now }
{
    match wanted {
        WantedType::Named { kind, name } => is_named_by(types, name.as_str(), *kind, head),
        WantedType::Nameless => false,
        WantedType::Other => false,
    }
}

/// Whether a type is one of those that are wanted, by its head.
fn is_one_of(types: &Btf, wanted: &[WantedType], head: TypeHead) -> bool
    ensures { result ≡ list_any (is_wanted_by types.now head) wanted.now }
{
    wanted.iter().any(|one| is_wanted_by(types, one, head))
}

/// Whether the type with an id is one of those that are wanted.
#[tactic(auto, using(crate::proofs::Wanted::one_by_head))]
fn is_wanted(types: &Btf, wanted: &[WantedType], id: usize) -> bool
    ensures { result ≡ list_any (is_wanted_at types.now id) wanted.now }
{
    let Some(head) = types.head(id) else {
        return false;
    };
    is_one_of(types, wanted, head)
}

/// Whether the type with an id is a wanted one.
fn is_wanted_at(types: &Btf, wanted: &WantedType, id: usize) -> bool
    ensures { result ≡ is_wanted_at types.now id wanted.now }
{
    match wanted {
        WantedType::Named { kind, name } => is_named_at(types, name.as_str(), *kind, id),
        WantedType::Nameless => false,
        WantedType::Other => false,
    }
}

/// The first of some ids whose type is a wanted one.
fn first_of(types: &Btf, ids: &[u32], wanted: &WantedType) -> Option<u32>
    ensures { result ≡ find (λ id. is_wanted_at types.now id wanted.now) ids.now }
{
    for id in ids {
        if is_wanted_at(types, wanted, *id as usize) {
            return Some(*id);
        }
    }
    None
}

/// Whether a wanted type is among those with some ids.
fn is_found(types: &Btf, ids: &[u32], wanted: &WantedType) -> bool
    ensures { result ≡ is_found types.now ids.now wanted.now }
{
    match wanted {
        WantedType::Named { .. } => first_of(types, ids, wanted).is_some(),
        WantedType::Nameless => true,
        WantedType::Other => true,
    }
}

/// Whether each wanted type is among those with some ids.
fn have_all(types: &Btf, ids: &[u32], wanted: &[WantedType]) -> bool
    ensures { result ≡ list_all (is_found types.now ids.now) wanted.now }
{
    wanted.iter().all(|one| is_found(types, ids, one))
}

/// The ids of the types that are wanted, in their order, up to the one with which each is found.
fn wanted_ids(alloc: Global, types: &Btf, wanted: &[WantedType]) -> Result<Items<u32>, AllocError>
    ensures { IfOk result (λ ids. AreFound types.now wanted.now ids) }
{
    let mut ids = Items::new(alloc);
    for id in 0..types.len() {
        if !is_wanted(types, wanted, id) {
            continue;
        }
        ids.push(id as u32)?;
        if have_all(types, ids.as_slice(), wanted) {
            return Ok(ids);
        }
    }
    Ok(ids)
}

/// The targets, by the ids of the types that are wanted.
fn attached_to(
    alloc: Global,
    types: &Btf,
    ids: &[u32],
    wanted: Items<WantedType>,
) -> Result<Items<AttachTarget>, AllocError>
    ensures { IfOk result (λ targets.
        targets
        ≡ map
        (λ one. attached one (find (λ id. is_wanted_at types.now id one) ids.now))
        wanted) }
{
    let mut targets = Items::new(alloc);
    for one in wanted.into_vec() {
        let found = first_of(types, ids, &one);
        targets.push(one.attached(found))?;
    }
    Ok(targets)
}

/// Returns the targets of the programs of several sections, as types, in the order of the sections.
///
/// Each is the target that `attach_target` returns. The types are read once.
///
/// # Errors
///
/// - `AllocError`: an allocation failed.
#[tactic(auto, using(crate::proofs::Wanted::all_attached))]
pub fn attach_targets(
    alloc: Global,
    section_names: &[&str],
    types: &Btf,
) -> Result<Items<AttachTarget>, AllocError>
    ensures { IfOk result (λ targets.
        targets
        ≡ map (λ name. attach_target name types.now) (lent_bytes section_names.now)) }
{
    let wanted = wanted_types(alloc, section_names)?;
    let ids = wanted_ids(alloc, types, wanted.as_slice())?;
    attached_to(alloc, types, ids.as_slice(), wanted)
}
