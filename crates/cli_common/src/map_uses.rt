//! The maps that functions use, and the numbers that stand for an object's own.

ghost use Rattle.std.specs.Prelude.{◌≡◌, ◌++◌, IfOk, OnOk, string_bytes};
ghost use Rattle.std.specs.FinMap as finite;
ghost use Rattle.std.specs.Option.{option_copied, option_to_list};
ghost use Rattle.ebpf_base.specs.Maps.{entries_from, put_all};
ghost use Rattle.ebpf_base.specs.Faults.{or_else};
ghost use Rattle.cli_common.specs.HelperCalls.{put_first, put_firsts};
ghost use Rattle.cli_common.specs.FunctionMaps.{end_of, first_slots, function_maps, if_used, map_referred, map_use, maps_by_function, maps_used, named_maps, names_by_section, names_by_symbol, referred, uses_at};
ghost use Rattle.cli_common.specs.PrivateContracts.{lent_names, names_in, up_to};

use ebpf_base::{ByIndex, ByKey, ByName, ByOffset, Items, Text};
use ebpf_model::Function;
use ebpf_object::Object;
use ebpf_parts::Relocation;
use ebpf_parts::insn::bpf_insn;
use std::alloc::{AllocError, Global};

/// A map that a function uses.
#[derive(Drop)]
pub struct MapUse {
    /// The map's name.
    pub name: Text,
    /// The number of its type.
    pub map_type: u32,
    /// The slot of the function that first refers to it.
    pub slot: usize,
}

/// The names of maps by the index of their symbol, and by that of their section; the later by name stands.
#[derive(Drop)]
struct KnownMapNames<'a> {
    by_symbol: ByIndex<&'a str>,
    by_section: ByIndex<&'a str>,
}

/// The names of an object's maps by the index of their symbol.
#[tactic(auto, using(crate::proofs::LentNames::lent_empty, crate::proofs::LentNames::lent_insert))]
fn by_symbol(alloc: Global, object: &Object) -> Result<ByIndex<&str>, AllocError>
    ensures { IfOk result (λ names. lent_names names ≡ names_by_symbol object.now.maps) }
{
    let mut names = ByIndex::new(alloc);
    for (name, map) in object.maps.iter() {
        let Some(symbol) = map.symbol_index() else {
            continue;
        };
        names.insert(symbol, name.as_str())?;
    }
    Ok(names)
}

/// The names of an object's maps by the index of their section.
#[tactic(auto, using(crate::proofs::LentNames::lent_empty, crate::proofs::LentNames::lent_insert))]
fn by_section(alloc: Global, object: &Object) -> Result<ByIndex<&str>, AllocError>
    ensures { IfOk result (λ names. lent_names names ≡ names_by_section object.now.maps) }
{
    let mut names = ByIndex::new(alloc);
    for (name, map) in object.maps.iter() {
        names.insert(map.section_index(), name.as_str())?;
    }
    Ok(names)
}

/// The names of an object's maps.
#[tactic(auto, unfolding(crate::specs::FunctionMaps::named_maps))]
fn map_names(alloc: Global, object: &Object) -> Result<KnownMapNames<'_>, AllocError>
    ensures { IfOk result (λ names. names_in names ≡ named_maps object.now.maps) }
{
    let by_symbol = by_symbol(alloc, object)?;
    let by_section = by_section(alloc, object)?;
    Ok(KnownMapNames {
        by_symbol,
        by_section,
    })
}

/// The name at an index.
#[tactic(auto, using(crate::proofs::LentNames::lent_get))]
fn name_at<'a>(names: &ByIndex<&'a str>, index: usize) -> Option<&'a str>
    ensures { option_copied result ≡ finite.get (lent_names names.now) index }
{
    names.get(index).copied()
}

/// The name of the map of a symbol, else that of the last one of a section.
fn map_at<'a>(names: &KnownMapNames<'a>, symbol: usize, section: usize) -> Option<&'a str>
    ensures { option_copied result
        ≡ or_else (finite.get (names_in names.now).by_symbol symbol)
        (finite.get (names_in names.now).by_section section) }
{
    match name_at(&names.by_symbol, symbol) {
        Some(name) => Some(name),
        None => name_at(&names.by_section, section),
    }
}

/// The name of the map that a relocation refers to: the one of its symbol, else the last one of the symbol's section.
#[tactic(auto, unfolding(crate::specs::FunctionMaps::map_referred))]
fn map_of<'a>(
    object: &Object,
    names: &KnownMapNames<'a>,
    relocation: &Relocation,
) -> Option<&'a str>
    ensures { option_copied result ≡ map_referred object.now (names_in names.now) relocation.now }
{
    let Some(symbol) = object.symbol_table.get(relocation.symbol_index) else {
        return None;
    };
    match symbol.section_index {
        Some(section) => map_at(names, relocation.symbol_index, section),
        None => None,
    }
}

/// Notes the slot at which a map is referred to, where none is noted yet.
fn note_slot(
    alloc: Global,
    slots: &mut ByName<usize>,
    name: &str,
    slot: usize,
) -> Result<(), AllocError>
    ensures { OnOk result (slots.new ≡ put_first slots.old name.now slot) }
{
    if slots.contains_key(name) {
        return Ok(());
    }
    slots.insert(String::from_str(alloc, name)?, slot)?;
    Ok(())
}

/// The slots of a function at which the relocations of its section first refer to maps, by the maps' names.
fn slots_among(
    alloc: Global,
    object: &Object,
    names: &KnownMapNames<'_>,
    function: &Function,
    relocations: &ByOffset<Relocation>,
) -> Result<ByName<usize>, AllocError>
    ensures { IfOk result (λ slots.
        slots
        ≡ put_firsts finite.empty
        (referred object.now (names_in names.now) function.now
        (up_to (end_of function.now)
        (entries_from function.now.section_offset
        (finite.entries relocations.now))))) }
{
    let mut slots = ByName::new(alloc);
    let start = function.section_offset as u64;
    let end = function.end();
    for (offset, relocation) in relocations.from_number(start) {
        if u128::from(*offset) >= end {
            return Ok(slots);
        }
        let Some(name) = map_of(object, names, relocation) else {
            continue;
        };
        let slot = (offset.saturating_sub(start) / bpf_insn::SIZE as u64) as usize;
        note_slot(alloc, &mut slots, name, slot)?;
    }
    Ok(slots)
}

/// The slots of a function that first refer to maps, by the maps' names.
#[tactic(auto, using(crate::proofs::Ranges::up_to_within), unfolding(crate::specs::FunctionMaps::first_slots))]
fn first_slots(
    alloc: Global,
    object: &Object,
    names: &KnownMapNames<'_>,
    function: &Function,
) -> Result<ByName<usize>, AllocError>
    ensures { IfOk result (λ slots.
        slots ≡ first_slots object.now (names_in names.now) function.now) }
{
    match object.relocations.get(function.section_index.0 as u64) {
        Some(relocations) => slots_among(alloc, object, names, function, relocations),
        None => Ok(ByName::new(alloc)),
    }
}

/// The use of the map of a name, first at a slot; none of a name that no map has.
fn use_of(object: &Object, name: String, slot: usize) -> Option<MapUse>
    ensures { result ≡ map_use object.now (string_bytes name) slot }
{
    let map_type = match object.maps.get(name.as_str()) {
        Some(map) => map.map_type(),
        None => return None,
    };
    Some(MapUse {
        name: Text::from_string(name),
        map_type,
        slot,
    })
}

/// Adds a use, where there is one.
fn add_use(uses: Items<MapUse>, used: Option<MapUse>) -> Result<Items<MapUse>, AllocError>
    ensures { IfOk result (λ all. all ≡ uses ++ option_to_list used) }
{
    let mut uses = uses;
    match used {
        Some(used) => {
            uses.push(used)?;
            Ok(uses)
        }
        None => Ok(uses),
    }
}

/// The uses of maps of these names, each first at a slot.
fn uses_at(
    alloc: Global,
    object: &Object,
    slots: ByName<usize>,
) -> Result<Items<MapUse>, AllocError>
    ensures { IfOk result (λ uses. uses ≡ uses_at object.now slots) }
{
    let mut uses = Items::new(alloc);
    for (name, slot) in slots.into_map() {
        uses = add_use(uses, use_of(object, name, slot))?;
    }
    Ok(uses)
}

/// The maps that a function uses, by their names.
#[tactic(auto, unfolding(crate::specs::FunctionMaps::maps_used))]
fn uses_of(
    alloc: Global,
    object: &Object,
    names: &KnownMapNames<'_>,
    function: &Function,
) -> Result<Items<MapUse>, AllocError>
    ensures { IfOk result (λ uses. uses ≡ maps_used object.now (names_in names.now) function.now) }
{
    let slots = first_slots(alloc, object, names, function)?;
    uses_at(alloc, object, slots)
}

/// Adds the maps that the function of a key uses, where it uses some.
fn add_uses(
    all: &mut ByKey<Items<MapUse>>,
    key: (usize, u64),
    uses: Items<MapUse>,
) -> Result<(), AllocError>
    ensures { OnOk result (all.new ≡ put_all all.old (if_used key uses)) }
{
    if uses.is_empty() {
        return Ok(());
    }
    all.insert(key, uses)?;
    Ok(())
}

/// The maps that each function uses, by the functions' keys; `names` are those of the object's maps.
#[tactic(auto, unfolding(crate::specs::FunctionMaps::maps_by_function))]
fn uses_by_function(
    alloc: Global,
    object: &Object,
    names: &KnownMapNames<'_>,
) -> Result<ByKey<Items<MapUse>>, AllocError>
    ensures { IfOk result (λ all. all ≡ maps_by_function object.now (names_in names.now)) }
{
    let mut all = ByKey::new(alloc);
    for (key, function) in object.functions.iter() {
        let uses = uses_of(alloc, object, names, function)?;
        add_uses(&mut all, *key, uses)?;
    }
    Ok(all)
}

/// The maps that each function uses, by the functions' keys: those that the relocations of its slots refer to.
pub fn map_uses(alloc: Global, object: &Object) -> Result<ByKey<Items<MapUse>>, AllocError>
    ensures { IfOk result (λ all. all ≡ function_maps object.now) }
{
    let names = map_names(alloc, object)?;
    uses_by_function(alloc, object, &names)
}
