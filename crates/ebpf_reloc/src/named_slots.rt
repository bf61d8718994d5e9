//! The slots that refer to a map without a descriptor, and the calls of externs that no pass has written.

ghost use Rattle.std.specs.FinMap.{contains_key, entries};
ghost use Rattle.std.specs.List.{list_all};
ghost use Rattle.std.specs.Option.{option_copied};
ghost use Rattle.std.specs.Prelude.{◌≡◌, ◌==◌, ◌||◌, ◌&&◌, ◌+◌, ◌++◌, ◌*◌, ◌∷◌, [], length, not, IfOk, OnOk};
ghost use Rattle.ebpf_model.specs.Symbols.{is_extern};
ghost use Rattle.ebpf_model.specs.Walks.{walked_relocations, IsBefore};
ghost use Rattle.ebpf_reloc.specs.NamedSlots.{maps_without_descriptors, name_by, named_of, named_slot, named_slots, naming_of, unwritten_extern, unwritten_externs};
ghost use Rattle.ebpf_reloc.specs.SlotTargets.{read};

use crate::externs::name_of;
use crate::linkable::Linkable;
use crate::map_names::{MapNames, MapNaming};
use ebpf_base::{ByIndex, ByKey, ByName, ByOffset, BySection, Items, Text};
use ebpf_model::{Function, Symbol, Walk};
use ebpf_parts::Relocation;
use ebpf_parts::insn::bpf_insn;
use ebpf_parts::maps::Map;
use std::alloc::{AllocError, Global};
use std::collections::HashMap;

/// A slot of a function, and the name of the map or the extern that it refers to.
#[derive(Debug, Drop)]
pub struct NamedSlot {
    /// The function's key: the index of its section, and its address.
    pub key: (usize, u64),
    /// The slot in the function.
    pub slot: usize,
    /// The name.
    pub name: Text,
}

/// Which slots have a name.
#[derive(Clone, Copy)]
pub enum SlotNaming<'a> {
    /// Those whose own map has no descriptor.
    Maps(MapNaming<'a>),
    /// Calls of externs that no pass has written, by the symbols.
    Externs(&'a ByIndex<Symbol>),
}

/// The name of the extern that a slot calls, where no pass has written the slot.
fn unwritten_extern<'a>(
    symbols: &'a ByIndex<Symbol>,
    relocation: Relocation,
    slot: bpf_insn,
) -> Option<&'a str>
    ensures { option_copied result ≡ unwritten_extern symbols.now relocation slot }
{
    let Some(symbol) = symbols.get(relocation.symbol_index) else {
        return None;
    };
    if !symbol.is_extern() || !slot.is_pseudo_call() {
        return None;
    }
    Some(name_of(symbol))
}

impl<'a> SlotNaming<'a> {
    /// The name of a slot with this relocation.
    fn name(&self, relocation: Option<Relocation>, slot: bpf_insn) -> Option<&'a str>
        ensures { option_copied result ≡ name_by (naming_of self.now) relocation slot }
    {
        let Some(relocation) = relocation else {
            return None;
        };
        match self {
            SlotNaming::Maps(naming) => naming.missing_map(relocation, slot),
            SlotNaming::Externs(symbols) => unwritten_extern(symbols, relocation, slot),
        }
    }
}

/// Adds a slot with its name.
fn push_named(
    alloc: Global,
    found: &mut Items<NamedSlot>,
    key: (usize, u64),
    slot: usize,
    name: &str,
) -> Result<(), AllocError>
    ensures { OnOk result (found.new ≡ found.old ++ named_slot key slot name.now ∷ []) }
{
    let name = Text::from_str(alloc, name)?;
    found.push(NamedSlot { key, slot, name })?;
    Ok(())
}

/// Adds the slots with names of the function at a key. The walk, which has not passed the function, goes on to its last
/// slot.
#[tactic(auto, using(crate::proofs::NamedSlots::name_added, crate::proofs::NamedSlots::no_name_here, crate::proofs::CallsRefer::next_slot))]
fn add_named_of(
    alloc: Global,
    naming: &SlotNaming<'_>,
    walk: &mut Walk<'_>,
    key: (usize, u64),
    function: &Function,
    found: &mut Items<NamedSlot>,
) -> Result<(), AllocError>
    requires before { IsBefore walk.old function.now.section_offset }
    ensures found { OnOk result
        (found.new
        ≡ found.old
        ++ named_of (naming_of naming.now) (walked_relocations walk.old) key function.now) }
    ensures others { walk.new ≡ record walk.old { next = walk.new.next; ahead = walk.new.ahead } }
    ensures before { OnOk result
        (IsBefore walk.new
        (function.now.section_offset + 8 * length function.now.instructions)) }
{
    let slots = function.instructions.as_slice();
    for slot in 0..slots.len() {
        let relocation = walk.relocation_of(function, slot);
        let Some(name) = naming.name(relocation, slots[slot]) else {
            continue;
        };
        push_named(alloc, found, key, slot, name)?;
    }
    Ok(())
}

/// The slots with names of all functions.
fn named_slots(
    alloc: Global,
    naming: &SlotNaming<'_>,
    functions: &ByKey<Function>,
    relocations: &BySection<ByOffset<Relocation>>,
) -> Result<Items<NamedSlot>, AllocError>
    ensures { IfOk result (λ slots.
        slots ≡ named_slots (naming_of naming.now) relocations.now functions.now) }
{
    let mut found = Items::new(alloc);
    let mut walk = Walk::new(relocations);
    for (key, function) in functions.iter() {
        walk.go_to(relocations, function);
        add_named_of(alloc, naming, &mut walk, *key, function, &mut found)?;
    }
    Ok(found)
}

/// Whether each map has a descriptor.
fn all_described(maps: &ByName<Map>, descriptors: &ByName<i32>) -> bool
    ensures { result ≡ list_all (λ e. contains_key descriptors.now e.0) (entries maps.now) }
{
    for (name, _) in maps.iter() {
        if !descriptors.contains_key(name.as_str()) {
            return false;
        }
    }
    true
}

/// Whether no symbol is an extern but the null symbol, that of index 0 (ELF-64 gABI, 'Symbol Table').
fn is_only_null_extern(symbols: &HashMap<usize, Symbol>) -> bool
    ensures { result ≡ list_all (λ e. e.0 == 0 || not (is_extern e.1)) symbols.now.entries }
{
    for (index, symbol) in symbols.iter() {
        if *index == 0 {
            continue;
        }
        if symbol.is_extern() {
            return false;
        }
    }
    true
}

/// Whether no relocation of a section has the null symbol.
fn section_has_symbols(section_relocations: &ByOffset<Relocation>) -> bool
    ensures { result
        ≡ list_all (λ e. not (e.1.symbol_index == 0)) (entries section_relocations.now) }
{
    for (_, relocation) in section_relocations.iter() {
        if relocation.symbol_index == 0 {
            return false;
        }
    }
    true
}

/// Whether no relocation has the null symbol.
fn all_have_symbols(relocations: &BySection<ByOffset<Relocation>>) -> bool
    ensures { result
        ≡ list_all (λ s. list_all (λ e. not (e.1.symbol_index == 0)) (entries s.1))
        (entries relocations.now) }
{
    for (_, section_relocations) in relocations.iter() {
        if !section_has_symbols(section_relocations) {
            return false;
        }
    }
    true
}

/// Whether no relocation refers to an extern: the null symbol alone is one, and no relocation has it.
fn refers_to_no_extern(
    symbols: &HashMap<usize, Symbol>,
    relocations: &BySection<ByOffset<Relocation>>,
) -> bool
    ensures { result
        ≡ (list_all (λ e. e.0 == 0 || not (is_extern e.1)) symbols.now.entries
        && list_all (λ s. list_all (λ e. not (e.1.symbol_index == 0)) (entries s.1))
        (entries relocations.now)) }
{
    is_only_null_extern(symbols) && all_have_symbols(relocations)
}

/// The slots whose own map has no descriptor, where some map has none.
fn slots_without_descriptors(
    alloc: Global,
    parts: &Linkable<'_>,
    maps: &ByName<Map>,
    descriptors: &ByName<i32>,
) -> Result<Items<NamedSlot>, AllocError>
    ensures { IfOk result (λ slots.
        slots ≡ maps_without_descriptors (read parts.now) maps.now descriptors.now) }
{
    let names = MapNames::gather(alloc, maps)?;
    let naming = SlotNaming::Maps(MapNaming {
        symbols: parts.symbols,
        names: &names,
        descriptors,
        text_sections: parts.text_sections,
    });
    named_slots(alloc, &naming, parts.functions, parts.relocations)
}

/// The slots whose own map has no descriptor, by the functions' keys and then by slot, each with the map's name. `maps`
/// has the object's maps, `descriptors` those that are given, by name.
///
/// A slot's own map is that of its relocation's symbol; where the symbol names no map, it is the map of the symbol's
/// section, as of a variable in `.bss`. Of maps of one symbol or one section the last by name counts. Calls of functions,
/// symbols without section and those of `text_sections` refer to no map. `Err` only where memory was refused.
pub fn maps_without_descriptors(
    alloc: Global,
    parts: &Linkable<'_>,
    maps: &ByName<Map>,
    descriptors: &ByName<i32>,
) -> Result<Items<NamedSlot>, AllocError>
    ensures { IfOk result (λ slots.
        slots ≡ maps_without_descriptors (read parts.now) maps.now descriptors.now) }
{
    if all_described(maps, descriptors) {
        return Ok(Items::new(alloc));
    }
    slots_without_descriptors(alloc, parts, maps, descriptors)
}

/// The calls of externs that no pass has written, by the functions' keys and then by slot, each with the extern's name: a
/// slot with a relocation to an extern that is a pseudo call, as the compiler leaves it. Linking takes it for a call of
/// the function that begins at the slot itself. `Err` only where memory was refused.
pub fn unwritten_externs(
    alloc: Global,
    functions: &ByKey<Function>,
    symbols: &ByIndex<Symbol>,
    relocations: &BySection<ByOffset<Relocation>>,
) -> Result<Items<NamedSlot>, AllocError>
    ensures { IfOk result (λ slots.
        slots ≡ unwritten_externs symbols.now relocations.now functions.now) }
{
    if refers_to_no_extern(symbols.as_map(), relocations) {
        return Ok(Items::new(alloc));
    }
    named_slots(alloc, &SlotNaming::Externs(symbols), functions, relocations)
}
