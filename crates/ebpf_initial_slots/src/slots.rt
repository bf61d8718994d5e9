//! The initial values that relocations give an object's maps, by map and index.

ghost use Rattle.std.specs.Prelude.{◌≡◌, ◌<◌, ◌/◌, ◌++◌, map, IfOk, IfSome, IsTrue, OnOk, [], unwrap_or};
ghost use Rattle.std.specs.List.{find};
ghost use Rattle.std.specs.Option.{option_copied};
ghost use Rattle.ebpf_base.specs.Faults.{Gives, Refuses};
ghost use Rattle.ebpf_initial_slots.specs.InitialSlots.{is_initial_slot_memory, by_map_and_index, holds_slot, index_from, initial_slot, slot_index, slots_fault, slots_in_order, slots_put, initial_slots, initial_slots_fault, maps_section, relocations_at, slots_of_section, with_slot_in};
ghost use Rattle.ebpf_initial_slots.specs.MapVariables.{map_variables, last_member, values_at, values_offset};
ghost use Rattle.std.specs.FinMap as finite;

use crate::error::InitialSlotError;
use crate::target::{InitialTarget, initial_target};
use crate::variables::{MAPS, MapVariable, map_variables};
use ebpf_base::{ByName, ByNumber, Items, Text};
use ebpf_btf::strings::is_text_at;
use ebpf_btf::{Btf, BtfMember, BtfType};
use ebpf_elf::{ElfFile, ElfRelocation, Relocations};
use ebpf_object::Object;
use std::alloc::{AllocError, Global};

/// An initial value of a map.
#[derive(Debug, Drop)]
pub struct InitialSlot {
    /// The name of the map that has it.
    pub map: Text,
    /// The index in the map, which is also the key there.
    pub index: u32,
    /// The map or the program at the index.
    pub target: InitialTarget,
}

impl Clone for InitialSlot {
    ghost is_clone = { λ old copy. copy ≡ old };

    fn clone(&self) -> Result<InitialSlot, AllocError> {
        Ok(InitialSlot {
            map: self.map.clone()?,
            index: self.index,
            target: self.target.clone()?,
        })
    }
}

/// Whether a variable holds the 8 bytes at an offset of the section.
fn holds_slot(place: u64, variable: &MapVariable) -> bool
    ensures { result ≡ holds_slot place variable.now }
{
    let end = u128::from(variable.offset) + u128::from(variable.size);
    variable.offset <= place && u128::from(place) + 8 <= end
}

/// The first variable that holds the 8 bytes at an offset.
fn holder(place: u64, variables: &[MapVariable]) -> Option<&MapVariable>
    ensures first { option_copied result ≡ find (holds_slot place) variables.now }
    ensures holds { IfSome result (λ v. IsTrue (holds_slot place v.now)) }
{
    for variable in variables {
        if holds_slot(place, variable) {
            return Some(variable);
        }
    }
    None
}

/// The index of the value at an offset behind the first one, in a variable of a size.
fn value_index(behind: u64, size: u32) -> u32
    requires { behind < size }
    ensures { result ≡ behind / 8 }
{
    (behind / 8) as u32
}

/// The index of an offset in `values` that begin at an offset of a variable.
fn index_from(variable: &MapVariable, place: u64, values: u32) -> Result<u32, InitialSlotError>
    requires { IsTrue (holds_slot place variable.now) }
    ensures { Gives is_initial_slot_memory result (index_from variable.now place values) }
{
    let behind = place - variable.offset;
    let values = u64::from(values);
    if behind < values {
        let map = variable.name.clone()?;
        return Err(InitialSlotError::OutsideValues { map, place });
    }
    if (behind - values) % 8 != 0 {
        let map = variable.name.clone()?;
        return Err(InitialSlotError::Misaligned { map, place });
    }
    Ok(value_index(behind - values, variable.size))
}

/// The index of an offset in the `values` of a variable.
#[tactic(auto, unfolding(crate::specs::InitialSlots::slot_index))]
fn slot_index(variable: &MapVariable, place: u64) -> Result<u32, InitialSlotError>
    requires { IsTrue (holds_slot place variable.now) }
    ensures { Gives is_initial_slot_memory result (slot_index variable.now place) }
{
    match variable.values {
        Some(values) => index_from(variable, place, values),
        None => Err(InitialSlotError::NoValues {
            map: variable.name.clone()?,
        }),
    }
}

/// The initial value that a relocation gives a map.
#[tactic(auto, unfolding(crate::specs::InitialSlots::initial_slot))]
fn initial_slot(
    alloc: Global,
    object: &Object,
    section: usize,
    variables: &[MapVariable],
    relocation: &ElfRelocation,
) -> Result<InitialSlot, InitialSlotError>
    ensures { Gives is_initial_slot_memory result
        (initial_slot object.now section variables.now relocation.now) }
{
    let place = relocation.offset;
    let symbol_index = relocation.symbol_index;
    let Some(symbol) = object.symbol_table.get(symbol_index) else {
        return Err(InitialSlotError::UnknownSymbol {
            place,
            symbol_index,
        });
    };
    let Some(variable) = holder(place, variables) else {
        return Err(InitialSlotError::OutsideMaps { place });
    };
    let target = initial_target(alloc, object, section, variable, symbol)?;
    let index = slot_index(variable, place)?;
    let map = variable.name.clone()?;
    Ok(InitialSlot { map, index, target })
}

/// The slots of a map that has one slot alone.
fn one_slot(alloc: Global, slot: InitialSlot) -> Result<ByNumber<InitialSlot>, AllocError>
    ensures { IfOk result (λ own. own ≡ finite.insert finite.empty slot.index slot) }
{
    let mut own = ByNumber::new(alloc);
    own.insert(slot.index as u64, slot)?;
    Ok(own)
}

/// Adds a slot to those of its map. The later of two at one index replaces the earlier.
fn add_slot(
    alloc: Global,
    found: &mut ByName<ByNumber<InitialSlot>>,
    slot: InitialSlot,
) -> Result<(), AllocError>
    ensures { OnOk result
        (found.new ≡ with_slot_in found.old slot (finite.get found.old slot.map)) }
{
    match found.get_mut(slot.map.as_str()) {
        Some(own) => {
            own.insert(slot.index as u64, slot)?;
        }
        None => {
            let name = String::from_str(alloc, slot.map.as_str())?;
            found.insert(name, one_slot(alloc, slot)?)?;
        }
    }
    Ok(())
}

/// The initial values that relocations give maps, by map and index.
///
/// # Errors
///
/// - The fault of the first relocation that has one.
/// - `OutOfMemory`: an allocation failed.
pub fn gather(
    alloc: Global,
    object: &Object,
    section: usize,
    variables: &[MapVariable],
    relocations: Relocations<'_>,
) -> Result<ByName<ByNumber<InitialSlot>>, InitialSlotError>
    ensures found { IfOk result (λ found.
        found
        ≡ by_map_and_index (slots_put object.now section variables.now relocations.entry)) }
    ensures fault { Refuses is_initial_slot_memory result
        (slots_fault object.now section variables.now relocations.entry) }
{
    let mut found = ByName::new(alloc);
    for relocation in relocations {
        let slot = initial_slot(alloc, object, section, variables, &relocation)?;
        add_slot(alloc, &mut found, slot)?;
    }
    Ok(found)
}

/// Adds the slots of a map, in the order of their indices.
fn add_own(
    all: Items<InitialSlot>,
    own: &ByNumber<InitialSlot>,
) -> Result<Items<InitialSlot>, AllocError>
    ensures { IfOk result (λ more. more ≡ all ++ map (λ s. s.1) (finite.entries own.now)) }
{
    let mut all = all;
    for (_, slot) in own.iter() {
        all.push(slot.clone()?)?;
    }
    Ok(all)
}

/// The slots in the order of the maps' names, then of their indices.
pub fn slots_in_order(
    alloc: Global,
    found: &ByName<ByNumber<InitialSlot>>,
) -> Result<Items<InitialSlot>, AllocError>
    ensures { IfOk result (λ all. all ≡ slots_in_order found.now) }
{
    let mut all = Items::new(alloc);
    for (_, own) in found.iter() {
        all = add_own(all, own)?;
    }
    Ok(all)
}

/// The index of the section `.maps`.
fn maps_section(object: &Object) -> Option<usize>
    ensures { result ≡ maps_section object.now }
{
    let index = object.section_infos.get(MAPS)?;
    Some(index.0)
}

/// The relocations of the section with an index, where there is one.
fn relocations_at<'a>(file: &ElfFile<'a>, index: usize) -> Option<Relocations<'a>>
    ensures { relocations_at file.now index ≡ unwrap_or result [] }
{
    let section = file.section_at(index)?;
    Some(section.relocations())
}

/// The initial values that relocations give the maps of the section with an index, in order.
fn slots_put(
    alloc: Global,
    object: &Object,
    section: usize,
    relocations: Relocations<'_>,
) -> Result<Items<InitialSlot>, InitialSlotError>
    ensures slots { IfOk result (λ slots.
        slots
        ≡ slots_in_order
        (by_map_and_index
        (slots_put object.now section (map_variables object.now section)
        relocations.entry))) }
    ensures fault { Refuses is_initial_slot_memory result
        (slots_fault object.now section (map_variables object.now section) relocations.entry) }
{
    let variables = map_variables(alloc, object, section)?;
    let found = gather(alloc, object, section, variables.as_slice(), relocations)?;
    Ok(slots_in_order(alloc, &found)?)
}

/// The initial values that the relocations of the section with an index give its maps.
#[tactic(auto, using(crate::proofs::InitialSlots::none_in_order))]
fn slots_of_section(
    alloc: Global,
    file: &ElfFile<'_>,
    object: &Object,
    index: usize,
) -> Result<Items<InitialSlot>, InitialSlotError>
    ensures slots { IfOk result (λ slots. slots ≡ slots_of_section file.now object.now index) }
    ensures fault { Refuses is_initial_slot_memory result
        (slots_fault object.now index (map_variables object.now index)
        (relocations_at file.now index)) }
{
    match relocations_at(file, index) {
        Some(relocations) => slots_put(alloc, object, index, relocations),
        None => Ok(Items::new(alloc)),
    }
}

/// Returns the initial values of an object's maps of maps and arrays of programs.
///
/// Each relocation of the section `.maps` gives a map or program at an index of a map. The index is a key of the map,
/// too. The result is sorted by the maps' names in byte order, then by index. Of two relocations at one index of a map
/// the later one counts.
///
/// `file` holds the bytes of the file that the object was parsed from. For other bytes the result is that of their
/// relocations over this object. An object with an array of programs is read in `ParseMode::Lenient` alone.
///
/// The map of a relocation is the one whose variable holds the 8 bytes from the relocation's offset on. The first such
/// variable counts, in the order of the entries of the first DATASEC `.maps`; an entry counts where it names a map of
/// the section. The variable has the offset and size of its entry. Where the DATASEC states size 0, as compilers write
/// it, the offset is the address of the variable's symbol. The index is (the relocation's offset - the variable's
/// offset - the offset of `values`) / 8.
///
/// A loader puts the maps once all maps exist, and the programs once all are loaded.
///
/// libbpf 1.5 does the same (`bpf_object__collect_map_relos`): of several sections `.maps` the last counts, and
/// sections with longer names, such as `.maps.a`, have no initial values. There are two exceptions. A relocation that
/// leads to no variable, since types or the DATASEC are missing, is `OutsideMaps` here. A section without relocations
/// is never refused here.
///
/// # Errors
///
/// - `ElfError`: the bytes are no ELF64 file. It comes first.
///
/// Then the first fault of the first relocation that has one, in the order of relocation sections and entries:
///
/// - `UnknownSymbol`: the object has no symbol with the relocation's index.
/// - `OutsideMaps`: no variable holds the 8 bytes at the relocation's offset.
/// - For a map of maps (types 12 and 13):
///   - `NotInMaps`: the symbol is in another section than `.maps`, or in none.
///   - `UnsupportedKeySize`: a hash of maps has keys of another size than 4 bytes.
///   - `UnknownMap`: no map has the symbol's name.
/// - For an array of programs (type 3):
///   - `UnknownProgram`: no program has the symbol's name.
///   - `NotAnEntryPoint`: the program has another section or address than the symbol.
/// - `UnsupportedMapType`: the map is of another type.
/// - `NoValues`: the variable's type is no STRUCT whose last member is `values`. TYPEDEFs, CONST, VOLATILE, RESTRICT
///   and TYPE_TAGs are skipped.
/// - `OutsideValues`: the relocation's offset is before `values`.
/// - `Misaligned`: the relocation's offset is not a multiple of 8 bytes behind the start of `values`.
///
/// `OutOfMemory`: an allocation failed.
#[tactic(auto, unfolding(crate::specs::InitialSlots::initial_slots, crate::specs::InitialSlots::initial_slots_fault))]
pub fn initial_slots(
    alloc: Global,
    file: &[u8],
    object: &Object,
) -> Result<Items<InitialSlot>, InitialSlotError>
    ensures slots { IfOk result (λ slots. slots ≡ initial_slots file.now object.now) }
    ensures fault { Refuses is_initial_slot_memory result
        (initial_slots_fault file.now object.now) }
{
    let file = match ElfFile::parse(file) {
        Ok(file) => file,
        Err(error) => return Err(InitialSlotError::ElfError(error)),
    };
    match maps_section(object) {
        Some(index) => slots_of_section(alloc, &file, object, index),
        None => Ok(Items::new(alloc)),
    }
}

/// The last member of a STRUCT.
#[tactic(auto, unfolding(crate::specs::MapVariables::last_member))]
fn last_member(ty: &BtfType<'_>) -> Option<BtfMember>
    ensures { result ≡ last_member ty.now }
{
    match ty {
        BtfType::Struct { members, .. } => members.get(members.len().saturating_sub(1)),
        _ => None,
    }
}

/// The offset in bytes of a member `values`.
fn values_at(types: &Btf, ty: &BtfType<'_>, member: &BtfMember) -> Option<u32>
    ensures { result ≡ values_at types.now ty.now member.now }
{
    if is_text_at(types.strings(), member.name_offset, "values") {
        return Some(ty.member_bit_offset(member) / 8);
    }
    None
}

/// The offset in bytes of `values` in the type with an id, where the type ends in `values`.
#[tactic(auto, unfolding(crate::specs::MapVariables::values_offset))]
pub fn values_offset(types: &Btf, type_id: u32) -> Option<u32>
    ensures { result ≡ values_offset types.now type_id }
{
    let Ok(ty) = types.resolved_type(type_id) else {
        return None;
    };
    let member = last_member(&ty)?;
    values_at(types, &ty, &member)
}
