//! The outcomes of the passes over maps and externs.

ghost use Rattle.std.specs.FinMap.{get};
ghost use Rattle.std.specs.Option.{option_copied};
ghost use Rattle.std.specs.Prelude.{◌≡◌, IfOk, map};
ghost use Rattle.ebpf_model.specs.Symbols.{text_sections_in};
ghost use Rattle.ebpf_object.specs.LinkedPrograms.{linkable_of};
ghost use Rattle.ebpf_object.specs.Prepared.{before_maps, before_resolution};
ghost use Rattle.ebpf_object.specs.Stages.{chosen, descriptor_of, descriptors_of};
ghost use Rattle.ebpf_outcomes.specs.SlotOutcomes.{AreExternOutcomes, AreMapOutcomes, extern_slots, extern_slots_if, map_outcome, map_slots_if, named_map_slots, own_map_by};
ghost use Rattle.ebpf_reloc.specs.Maps.{given_map};
ghost use Rattle.ebpf_reloc.specs.SlotOutcomes.{map_outcomes};

use ebpf_base::{Items, Text};
use ebpf_object::Object;
use ebpf_object::prepare::{
    MapWithFd, NO_SYMBOLS, PrepareError, Steps, SymbolSource, own_maps, prepare_copy, resolve,
};
use ebpf_reloc::{Linkable, MapNames, SlotOutcome, extern_slot_outcomes, map_slot_outcomes};
use std::alloc::{AllocError, Global};
use std::collections::HashSet;

/// The outcome of a relocation to a map.
#[derive(Drop)]
pub struct MapOutcome {
    /// The place, and what becomes of the slot or why the relocation is refused. A slot that refers to a map itself gets its
    /// descriptor (`Edit::Slot`); one that refers to a map's data gets the descriptor, and the slot after it the offset in
    /// the data (`Edit::Pair`).
    pub slot: SlotOutcome,
    /// The name of the slot's own map: that of the relocation's symbol, else that of the symbol's section.
    pub map: Option<Text>,
    /// Whether the symbol names the map.
    pub by_symbol: bool,
}

/// The outcomes of the relocations to these maps.
fn slots_of_maps(
    alloc: Global,
    object: &Object,
    maps: Vec<MapWithFd<'_>>,
    text_sections: &HashSet<usize>,
) -> Result<Items<SlotOutcome>, AllocError>
    ensures { IfOk result (λ slots.
        slots
        ≡ map_outcomes (linkable_of object.now (text_sections_in text_sections.now))
        (map given_map maps.entry.items)) }
{
    let parts = Linkable {
        functions: &object.functions,
        symbols: &object.symbol_table,
        relocations: &object.relocations,
        text_sections,
        callbacks: &object.exception_callbacks,
    };
    map_slot_outcomes(alloc, &parts, maps.into_iter())
}

/// The name of the own map of a slot with a relocation to this symbol.
fn own_map_by<'a>(object: &Object, names: &'a MapNames, symbol: usize) -> Option<&'a Text>
    ensures { option_copied result
        ≡ own_map_by names.now symbol (get object.now.symbol_table symbol) }
{
    let Some(found) = object.symbol_table.get(symbol) else {
        return None;
    };
    match found.section_index {
        Some(section) => names.own_map(symbol, section),
        None => None,
    }
}

/// A copy of a name.
fn copy_of(name: Option<&Text>) -> Result<Option<Text>, AllocError>
    ensures { IfOk result (λ copy. copy ≡ option_copied name.entry) }
{
    match name {
        Some(name) => Ok(Some(name.clone()?)),
        None => Ok(None),
    }
}

/// An outcome, with the name of the slot's own map.
fn map_outcome(
    object: &Object,
    names: &MapNames,
    slot: SlotOutcome,
) -> Result<MapOutcome, AllocError>
    ensures { IfOk result (λ outcome.
        outcome ≡ map_outcome names.now object.now.symbol_table slot) }
{
    let symbol = slot.relocation.symbol_index;
    Ok(MapOutcome {
        slot,
        map: copy_of(own_map_by(object, names, symbol))?,
        by_symbol: names.by_symbol.contains_key(symbol),
    })
}

/// Outcomes, with the names of the slots' own maps.
fn map_outcomes_of(
    alloc: Global,
    object: &Object,
    names: &MapNames,
    slots: &[SlotOutcome],
) -> Result<Vec<MapOutcome>, AllocError>
    ensures { IfOk result (λ outcomes.
        outcomes.items ≡ map (map_outcome names.now object.now.symbol_table) slots.now) }
{
    let mut outcomes = Vec::with_capacity(alloc, slots.len())?;
    for slot in slots {
        outcomes.push(map_outcome(object, names, *slot)?)?;
    }
    Ok(outcomes)
}

/// The outcomes of writing these descriptors of the object's own maps into the object as it is, by the functions' keys and
/// then by offset: of each relocation that `relocate_own_maps` applies or refuses. A slot that refers to no map has none.
///
/// `relocate_own_maps` refuses the object exactly where one of these is a refusal, and then for the first (law
/// `passes_refuse_by_outcomes`). `Err` only where memory was refused.
pub fn map_outcomes(
    alloc: Global,
    object: &Object,
    descriptors: &[(&str, i32)],
) -> Result<Items<MapOutcome>, AllocError>
    ensures { IfOk result (λ outcomes.
        outcomes ≡ named_map_slots (map descriptor_of descriptors.now) object.now) }
{
    let own = own_maps(alloc, &object.maps, descriptors)?;
    let sections = object.text_sections(alloc)?;
    let slots = slots_of_maps(alloc, object, own, &sections)?;
    let names = MapNames::gather(alloc, &object.maps)?;
    let outcomes = map_outcomes_of(alloc, object, &names, slots.as_slice())?;
    Ok(Items::from_vec(outcomes))
}

/// The outcomes of writing the object's externs into its slots, as both are, by the functions' keys and then by offset: of
/// each relocation that `Object::relocate_externs` applies or refuses.
///
/// `relocate_externs` refuses the object exactly where one of these is a refusal, and then for the first (law
/// `passes_refuse_by_outcomes`). `Err` only where memory was refused.
pub fn extern_outcomes(alloc: Global, object: &Object) -> Result<Items<SlotOutcome>, AllocError>
    ensures { IfOk result (λ outcomes. outcomes ≡ extern_slots object.now) }
{
    if object.btf.is_none() {
        return Ok(Items::new(alloc));
    }
    extern_slot_outcomes(
        alloc,
        &object.functions,
        &object.symbol_table,
        &object.relocations,
        &object.externs,
    )
}

/// The steps before descriptors are written.
fn steps_before_maps<'a>(steps: &Steps<'a>) -> Steps<'a>
    ensures { chosen result ≡ before_maps (chosen steps.now) }
{
    Steps {
        target_btf: steps.target_btf,
        map_fds: None,
        externs: None,
        calls: false,
        complete: steps.complete,
    }
}

/// The steps before externs are resolved.
fn steps_before_resolution<'a>(steps: &Steps<'a>) -> Steps<'a>
    ensures { chosen result ≡ before_resolution (chosen steps.now) }
{
    Steps {
        target_btf: steps.target_btf,
        map_fds: steps.map_fds,
        externs: None,
        calls: false,
        complete: steps.complete,
    }
}

/// The outcomes of writing these descriptors, where they are chosen.
pub fn map_outcomes_if(
    alloc: Global,
    object: &Object,
    descriptors: Option<&[(&str, i32)]>,
) -> Result<Items<MapOutcome>, AllocError>
    ensures { IfOk result (λ outcomes.
        outcomes ≡ map_slots_if (descriptors_of descriptors.entry) object.now) }
{
    match descriptors {
        Some(descriptors) => map_outcomes(alloc, object, descriptors),
        None => Ok(Items::new(alloc)),
    }
}

/// The outcomes of writing externs, where that is chosen.
pub fn extern_outcomes_if(
    alloc: Global,
    object: &Object,
    writes: bool,
) -> Result<Items<SlotOutcome>, AllocError>
    ensures { IfOk result (λ outcomes. outcomes ≡ extern_slots_if writes object.now) }
{
    if !writes {
        return Ok(Items::new(alloc));
    }
    extern_outcomes(alloc, object)
}

/// The outcomes of the pass over maps with these steps: those of `map_outcomes` in a copy of the object after the passes
/// before it. None where descriptors aren't chosen. The object stays as it is.
///
/// # Errors
///
/// Those of `prepare_copy`, of the passes before.
pub fn map_outcomes_with(
    alloc: Global,
    object: &Object,
    steps: &Steps<'_>,
) -> Result<Items<MapOutcome>, PrepareError>
    ensures { IfOk result (AreMapOutcomes (chosen steps.now) object.now) }
{
    let before = prepare_copy(alloc, object, &steps_before_maps(steps), NO_SYMBOLS)?;
    let outcomes = map_outcomes_if(alloc, &before, steps.map_fds)?;
    Ok(outcomes)
}

/// The outcomes of the pass that writes externs with these steps: those of `extern_outcomes` in a copy of the object after
/// the passes before it. None where externs aren't chosen. The object stays as it is.
///
/// # Errors
///
/// Those of `prepare_copy`, of the passes before.
pub fn extern_outcomes_with<K: SymbolSource>(
    alloc: Global,
    object: &Object,
    steps: &Steps<'_>,
    kallsyms: K,
) -> Result<Items<SlotOutcome>, PrepareError>
    ensures { IfOk result (AreExternOutcomes (chosen steps.now) (K.source kallsyms) object.now) }
{
    let mut before = prepare_copy(alloc, object, &steps_before_resolution(steps), NO_SYMBOLS)?;
    resolve(&mut before, steps.externs, kallsyms)?;
    let outcomes = extern_outcomes_if(alloc, &before, steps.externs.is_some())?;
    Ok(outcomes)
}
