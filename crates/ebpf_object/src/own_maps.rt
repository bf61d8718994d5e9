//! The names and the descriptors of an object's own maps.

ghost use Rattle.std.specs.Prelude.{◌≡◌, map, pos, None, Some, OnOk, OnErr, IfOk, IfErr, MatchBool};
ghost use Rattle.std.specs.FinMap.{entries, get};
ghost use Rattle.std.specs.Map.{keys_of};
ghost use Rattle.std.specs.Option.{option_copied};
ghost use Rattle.ebpf_base.specs.Maps.{by_bytes, lent_bytes};
ghost use Rattle.ebpf_object.specs.Prepared.{RefusesPreparing};
ghost use Rattle.ebpf_object.specs.PrivateContracts.{AreEntriesOf};
ghost use Rattle.ebpf_object.specs.Stages.{Wrapped, own_maps, fds_written, fds_fault, descriptor_of, numbered_descriptors};
ghost use Rattle.ebpf_object.specs.Names.{has_function_in};
ghost use Rattle.ebpf_object.specs.WrittenSlots.{with_maps, maps_fault};
ghost use Rattle.ebpf_object.specs.declared.prepare_error.PrepareError.TheVariants.{Maps};
ghost use Rattle.ebpf_reloc.specs.Maps.{given_map};
ghost use Rattle.ebpf_reloc.specs.Relocated.{out_of_memory};
ghost use Rattle.ebpf_model.specs.Memory.{is_memory_at};
ghost use Rattle.ebpf_model.specs.Symbols.{text_sections_in};

use crate::object::Object;
use crate::prepare_error::PrepareError;
use ebpf_base::{ByName, Items, Text};
use ebpf_model::EbpfRelocationError;
use ebpf_parts::maps::Map;
use std::alloc::{AllocError, Global};
use std::collections::{HashSet, btree_map};
use std::mem;

/// A map with its name and its descriptor.
pub type MapWithFd<'a> = (&'a str, i32, &'a Map);

/// Copies of names.
#[tactic(auto, using(crate::proofs::Staging::one_copied, ebpf_base::proofs::Lists::rest_none))]
fn copies_of(alloc: Global, names: &[&str]) -> Result<Items<Text>, AllocError>
    ensures { IfOk result (λ copies. copies ≡ lent_bytes names.now) }
{
    let mut copies = Items::new(alloc);
    for name in names {
        copies.push(Text::from_str(alloc, name)?)?;
    }
    Ok(copies)
}

impl Object {
    /// Copies of the names of the object's own maps, in byte order. So steps that name the maps don't borrow the object
    /// that they are for.
    pub fn map_names(&self, alloc: Global) -> Result<Items<Text>, AllocError>
        ensures { IfOk result (λ names. names ≡ keys_of (entries self.now.maps)) }
    {
        let names = self.maps.names(alloc)?;
        copies_of(alloc, &names)
    }
}

/// Names of maps with the descriptors 1, 2, .. in their order, for a run without a kernel. Past the greatest `i32` all
/// names have that one.
#[tactic(auto, using(crate::proofs::Staging::one_with_descriptor, ebpf_base::proofs::Lists::rest_none))]
pub fn numbered_descriptors(alloc: Global, names: &[Text]) -> Result<Vec<(&str, i32)>, AllocError>
    ensures { IfOk result (λ named.
        map descriptor_of named.items ≡ numbered_descriptors (pos 0) names.now) }
{
    let mut numbered = Vec::with_capacity(alloc, names.len())?;
    let mut descriptor: i32 = 0;
    for name in names {
        descriptor = descriptor.saturating_add(1);
        numbered.push((name.as_str(), descriptor))?;
    }
    Ok(numbered)
}

/// The map of a name. It takes the first of the entries ahead, which is the name's own where names come in byte order; else
/// the name is looked up.
#[tactic(auto, using(crate::proofs::Staging::first_ahead, crate::proofs::Staging::others_ahead))]
fn next_map<'a>(
    maps: &'a ByName<Map>,
    ahead: &mut btree_map::Iter<'a, String, Map>,
    name: &str,
) -> Option<&'a Map>
    requires entries { AreEntriesOf maps.now (by_bytes ahead.old) }
    ensures value { option_copied result ≡ get maps.now name.now }
    ensures entries { AreEntriesOf maps.now (by_bytes ahead.new) }
{
    let Some((key, map)) = ahead.next() else {
        return maps.get(name);
    };
    if key.as_str() != name {
        return maps.get(name);
    }
    Some(map)
}

/// The maps of these names with their descriptors; a name that stands for none is passed over.
#[tactic(auto, using(crate::proofs::Staging::one_listed, crate::proofs::Staging::none_listed, crate::proofs::Staging::are_entries, ebpf_base::proofs::Lists::rest_none))]
pub fn own_maps<'a>(
    alloc: Global,
    maps: &'a ByName<Map>,
    descriptors: &[(&'a str, i32)],
) -> Result<Vec<MapWithFd<'a>>, AllocError>
    ensures { IfOk result (λ own.
        map given_map own.items ≡ own_maps maps.now (map descriptor_of descriptors.now)) }
{
    let mut own = Vec::with_capacity(alloc, descriptors.len())?;
    let mut ahead = maps.iter();
    for (name, descriptor) in descriptors {
        let Some(map) = next_map(maps, &mut ahead, name) else {
            continue;
        };
        own.push((*name, *descriptor, map))?;
    }
    Ok(own)
}

/// Writes the descriptors of these maps.
fn relocate_listed(
    object: &mut Object,
    maps: Vec<MapWithFd<'_>>,
    text_sections: &HashSet<usize>,
) -> Result<(), EbpfRelocationError>
    ensures ok { OnOk result
        (object.new
        ≡ with_maps object.old (text_sections_in text_sections.now)
        (map given_map maps.entry.items)) }
    ensures sound { OnOk result
        (maps_fault object.old (text_sections_in text_sections.now)
        (map given_map maps.entry.items)
        ≡ None) }
    ensures fault { IfErr result (λ e.
        MatchBool (is_memory_at e) (e ≡ out_of_memory)
        (maps_fault object.old (text_sections_in text_sections.now)
        (map given_map maps.entry.items)
        ≡ Some e)) }
    ensures unchanged { OnErr result (object.new ≡ object.old) }
{
    object.relocate_maps(maps.into_iter(), text_sections)
}

/// Writes the descriptors of some of these maps.
#[tactic(auto, using(crate::proofs::Staging::wrapped))]
fn relocate_some(
    alloc: Global,
    object: &mut Object,
    maps: &ByName<Map>,
    descriptors: &[(&str, i32)],
) -> Result<(), PrepareError>
    ensures ok { OnOk result
        (object.new
        ≡ with_maps object.old (has_function_in object.old.functions)
        (own_maps maps.now (map descriptor_of descriptors.now))) }
    ensures sound { OnOk result
        (maps_fault object.old (has_function_in object.old.functions)
        (own_maps maps.now (map descriptor_of descriptors.now))
        ≡ None) }
    ensures fault { IfErr result
        (RefusesPreparing
        (Wrapped Maps (λ e.
        maps_fault object.old (has_function_in object.old.functions)
        (own_maps maps.now (map descriptor_of descriptors.now))
        ≡ Some e))) }
    ensures unchanged { OnErr result (object.new ≡ object.old) }
{
    let own = own_maps(alloc, maps, descriptors)?;
    let sections = object.text_sections(alloc)?;
    match relocate_listed(object, own, &sections) {
        Ok(()) => Ok(()),
        Err(error) => Err(PrepareError::Maps(error)),
    }
}

/// Writes the descriptors of the object's own maps by name, as `Object::relocate_maps` does. Descriptors are given as
/// `Steps::map_fds` says. The maps are taken out for it and put back.
///
/// # Errors
///
/// `Maps` with that of `Object::relocate_maps`. `OutOfMemory`, and the pass's own, only where memory was refused. After a
/// refusal the object is as it was.
pub fn relocate_own_maps(
    alloc: Global,
    object: &mut Object,
    descriptors: &[(&str, i32)],
) -> Result<(), PrepareError>
    ensures ok { OnOk result
        (object.new ≡ fds_written (Some (map descriptor_of descriptors.now)) object.old) }
    ensures sound { OnOk result
        (fds_fault (Some (map descriptor_of descriptors.now)) object.old ≡ None) }
    ensures fault { IfErr result
        (RefusesPreparing
        (Wrapped Maps (λ e.
        fds_fault (Some (map descriptor_of descriptors.now)) object.old ≡ Some e))) }
    ensures unchanged { OnErr result (object.new ≡ object.old) }
{
    let maps = mem::replace(&mut object.maps, ByName::new(alloc));
    let answer = relocate_some(alloc, object, &maps, descriptors);
    object.maps = maps;
    answer
}
