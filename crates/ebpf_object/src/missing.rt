//! What an object lacks for its programs: descriptors of maps, maps of names, and externs that are written.

ghost use Rattle.std.specs.Cmp.Lexicographic.{pointwise};
ghost use Rattle.std.specs.FinMap.{empty, entries};
ghost use Rattle.std.specs.Map.{keys_of};
ghost use Rattle.std.specs.Prelude.{◌≡◌, map, slice_get, option_map, true, None, Some, IfOk, IfErr, OnOk, OnErr};
ghost use Rattle.std.specs.Str.{bytes_eq};
ghost use Rattle.ebpf_base.specs.Maps.{put_all};
ghost use Rattle.ebpf_object.specs.Prepared.{RefusesPreparing};
ghost use Rattle.ebpf_object.specs.Stages.{CompleteFdsFault, descriptor_of, descriptors_of, fds_fault, fds_written, first_missing, given_fault, maps_without_descriptors, unknown_maps, unwritten_externs, unwritten_fault, Wrapped};
ghost use Rattle.ebpf_object.specs.declared.prepare_error.PrepareError.TheVariants.{MissingDescriptor, UnknownMap, UnwrittenExtern};

use crate::object::Object;
use crate::own_maps::relocate_own_maps;
use crate::prepare_error::PrepareError;
use ebpf_base::{ByName, Items, Text};
use ebpf_parts::maps::Map;
use ebpf_reloc::{Linkable, NamedSlot};
use std::alloc::{AllocError, Global};

/// Descriptors by the names of maps, the later over the earlier.
#[tactic(auto, using(crate::proofs::Incomplete::one_by_name, ebpf_base::proofs::Lists::rest_none))]
fn by_name(alloc: Global, descriptors: &[(&str, i32)]) -> Result<ByName<i32>, AllocError>
    ensures { IfOk result (λ named. named ≡ put_all empty (map descriptor_of descriptors.now)) }
{
    let mut named = ByName::new(alloc);
    for (name, descriptor) in descriptors {
        named.insert(String::from_str(alloc, name)?, *descriptor)?;
    }
    Ok(named)
}

impl Object {
    /// The slots whose own map has no descriptor among these, by the functions' keys and then by slot, each with the
    /// map's name. Where there are none, `relocate_own_maps` gives each slot the descriptor of its own map.
    ///
    /// A slot's own map is that of its relocation's symbol; where the symbol names no map, it is the map of the symbol's
    /// section, as of a variable in `.bss`. Of maps of one symbol or one section the last by name counts. Calls of
    /// functions, symbols without section and symbols in the sections of functions refer to no map. A slot that refers to
    /// a section without maps has no own map. `Err` only where memory was refused.
    pub fn maps_without_descriptors(
        &self,
        descriptors: &[(&str, i32)],
    ) -> Result<Items<NamedSlot>, AllocError>
        ensures { IfOk result (λ slots.
            slots ≡ maps_without_descriptors self.now (map descriptor_of descriptors.now)) }
    {
        let alloc = self.allocator();
        let named = by_name(alloc, descriptors)?;
        let sections = self.text_sections(alloc)?;
        let parts = Linkable {
            functions: &self.functions,
            symbols: &self.symbol_table,
            relocations: &self.relocations,
            text_sections: &sections,
            callbacks: &self.exception_callbacks,
        };
        ebpf_reloc::maps_without_descriptors(alloc, &parts, &self.maps, &named)
    }

    /// Copies of the names among these that no map of the object has, in their order. `Err` only where memory was refused.
    #[tactic(auto, using(crate::proofs::Incomplete::one_unknown, crate::proofs::Incomplete::one_known, ebpf_base::proofs::Lists::rest_none))]
    pub fn unknown_maps(&self, descriptors: &[(&str, i32)]) -> Result<Items<Text>, AllocError>
        ensures { IfOk result (λ names.
            names ≡ unknown_maps self.now (map descriptor_of descriptors.now)) }
    {
        let alloc = self.allocator();
        let mut unknown = Items::new(alloc);
        for (name, _) in descriptors {
            if self.maps.contains_key(name) {
                continue;
            }
            unknown.push(Text::from_str(alloc, name)?)?;
        }
        Ok(unknown)
    }

    /// The calls of externs that no pass has written, by the functions' keys and then by slot, each with the extern's name:
    /// a slot with a relocation to an extern that is a pseudo call, as the compiler leaves it. `relocate_calls` takes it for
    /// a call of the function that begins at the slot itself, so that the call of the first slot of a function links that
    /// function once more. Loads of externs aren't listed. `Err` only where memory was refused.
    pub fn unwritten_externs(&self) -> Result<Items<NamedSlot>, AllocError>
        ensures { IfOk result (λ slots. slots ≡ unwritten_externs self.now) }
    {
        ebpf_reloc::unwritten_externs(
            self.allocator(),
            &self.functions,
            &self.symbol_table,
            &self.relocations,
        )
    }
}

/// A copy of the first of some names.
fn first_name(names: &Items<Text>) -> Result<Option<Text>, AllocError>
    ensures { IfOk result (λ name. name ≡ slice_get names.now 0) }
{
    match names.get(0) {
        Some(name) => Ok(Some(name.clone()?)),
        None => Ok(None),
    }
}

/// A copy of the name of the first of some slots.
fn first_slot_name(slots: &Items<NamedSlot>) -> Result<Option<Text>, AllocError>
    ensures { IfOk result (λ name. name ≡ option_map (λ s. s.name) (slice_get slots.now 0)) }
{
    match slots.get(0) {
        Some(slot) => Ok(Some(slot.name.clone()?)),
        None => Ok(None),
    }
}

/// The error of the first name without a map.
fn first_unknown(
    object: &Object,
    descriptors: &[(&str, i32)],
) -> Result<Option<PrepareError>, AllocError>
    ensures { IfOk result (λ unknown.
        unknown
        ≡ option_map UnknownMap
        (slice_get (unknown_maps object.now (map descriptor_of descriptors.now)) 0)) }
{
    let unknown = object.unknown_maps(descriptors)?;
    match first_name(&unknown)? {
        Some(name) => Ok(Some(PrepareError::UnknownMap { name })),
        None => Ok(None),
    }
}

/// The error of the first slot whose own map has no descriptor.
fn first_without_descriptor(
    object: &Object,
    descriptors: &[(&str, i32)],
) -> Result<Option<PrepareError>, AllocError>
    ensures { IfOk result (λ missing.
        missing
        ≡ option_map (λ s. MissingDescriptor s.name)
        (slice_get (maps_without_descriptors object.now (map descriptor_of descriptors.now))
        0)) }
{
    let slots = object.maps_without_descriptors(descriptors)?;
    match first_slot_name(&slots)? {
        Some(map) => Ok(Some(PrepareError::MissingDescriptor { map })),
        None => Ok(None),
    }
}

/// Whether the names of the descriptors are those of the maps, in byte order. `numbered_descriptors` of `Object::map_names`
/// gives them so.
fn are_names_in_order(maps: &ByName<Map>, descriptors: &[(&str, i32)]) -> bool
    ensures { result
        ≡ pointwise bytes_eq (keys_of (entries maps.now))
        (map (λ d. d.0) (map descriptor_of descriptors.now)) }
{
    let mut given = descriptors.iter();
    for (name, _) in maps.iter() {
        let Some((other, _)) = given.next() else {
            return false;
        };
        if name.as_str() != *other {
            return false;
        }
    }
    given.next().is_none()
}

/// The error of the first name without a map; else that of the first slot whose own map has no descriptor. No name is
/// looked up where the names are those of the maps in byte order.
fn first_missing(
    object: &Object,
    descriptors: &[(&str, i32)],
) -> Result<Option<PrepareError>, AllocError>
    ensures { IfOk result (λ missing.
        missing ≡ first_missing object.now (map descriptor_of descriptors.now)) }
{
    if are_names_in_order(&object.maps, descriptors) {
        return Ok(None);
    }
    match first_unknown(object, descriptors)? {
        Some(error) => Ok(Some(error)),
        None => first_without_descriptor(object, descriptors),
    }
}

/// Refuses descriptors that have to be complete and aren't. `prepare` calls it before all passes.
///
/// # Errors
///
/// - `UnknownMap`: with the first of `Object::unknown_maps`, where nothing may be missing.
/// - `MissingDescriptor`: with the map of the first slot of `Object::maps_without_descriptors`, where nothing may be missing
///   and each name has a map.
/// - `OutOfMemory`: an allocation failed.
pub fn check_descriptors(
    object: &Object,
    descriptors: Option<&[(&str, i32)]>,
    complete: bool,
) -> Result<(), PrepareError>
    ensures sound { IfOk result (λ _.
        given_fault (descriptors_of descriptors.entry) complete object.now ≡ None) }
    ensures fault { IfErr result
        (RefusesPreparing (λ e.
        given_fault (descriptors_of descriptors.entry) complete object.now ≡ Some e)) }
{
    let Some(descriptors) = descriptors else {
        return Ok(());
    };
    if !complete {
        return Ok(());
    }
    match first_missing(object, descriptors)? {
        Some(error) => Err(error),
        None => Ok(()),
    }
}

/// Writes the descriptors of the object's own maps by name, as `relocate_own_maps` does, where nothing is missing.
///
/// # Errors
///
/// - `UnknownMap`: a descriptor has a name that no map of the object has; the first such name.
/// - `MissingDescriptor`: a slot's own map has no descriptor; the map of the first such slot.
/// - `Maps`: with that of `Object::relocate_maps`.
/// - `OutOfMemory`, and the pass's own: only where memory was refused.
///
/// After a refusal the object is as it was.
#[tactic(auto, using(crate::proofs::Incomplete::not_complete, crate::proofs::Incomplete::not_written))]
pub fn relocate_complete_maps(
    alloc: Global,
    object: &mut Object,
    descriptors: &[(&str, i32)],
) -> Result<(), PrepareError>
    ensures complete { OnOk result
        (given_fault (Some (map descriptor_of descriptors.now)) true object.old ≡ None) }
    ensures ok { OnOk result
        (object.new ≡ fds_written (Some (map descriptor_of descriptors.now)) object.old) }
    ensures sound { OnOk result
        (fds_fault (Some (map descriptor_of descriptors.now)) object.old ≡ None) }
    ensures fault { IfErr result
        (RefusesPreparing
        (CompleteFdsFault (map descriptor_of descriptors.now) object.old)) }
    ensures unchanged { OnErr result (object.new ≡ object.old) }
{
    match check_descriptors(object, Some(descriptors), true) {
        Ok(()) => relocate_own_maps(alloc, object, descriptors),
        Err(error) => Err(error),
    }
}

/// Refuses an object with a call of an extern that no pass has written, where its programs are to be linked and nothing
/// may be missing. `prepare` calls it before programs are linked.
///
/// # Errors
///
/// - `UnwrittenExtern`: with the name of the first extern of `Object::unwritten_externs`, where both are chosen.
/// - `OutOfMemory`: only where memory was refused.
#[tactic(auto, using(crate::proofs::Incomplete::not_written_extern))]
pub fn check_externs(object: &Object, calls: bool, complete: bool) -> Result<(), PrepareError>
    ensures sound { IfOk result (λ _. unwritten_fault calls complete object.now ≡ None) }
    ensures fault { IfErr result
        (RefusesPreparing
        (Wrapped UnwrittenExtern (λ name.
        unwritten_fault calls complete object.now ≡ Some name))) }
{
    if !calls {
        return Ok(());
    }
    if !complete {
        return Ok(());
    }
    let unwritten = object.unwritten_externs()?;
    match first_slot_name(&unwritten)? {
        Some(name) => Err(PrepareError::UnwrittenExtern { name }),
        None => Ok(()),
    }
}
