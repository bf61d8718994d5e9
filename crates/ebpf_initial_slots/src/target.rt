//! The maps and programs that initial slots hold.

ghost use Rattle.std.specs.Prelude.{◌≡◌, ◌==◌};
ghost use Rattle.ebpf_base.specs.Faults.{Gives};
ghost use Rattle.ebpf_initial_slots.specs.InitialSlots.{is_initial_slot_memory, initial_target, is_entry_point, stands_in, symbol_text, target_map, target_program};

use crate::error::InitialSlotError;
use crate::variables::MapVariable;
use ebpf_base::Text;
use ebpf_model::{Program, Symbol};
use ebpf_object::Object;
use std::alloc::{AllocError, Global};

/// The type of arrays of maps (`BPF_MAP_TYPE_ARRAY_OF_MAPS`).
const ARRAY_OF_MAPS: u32 = 12;

/// The type of hashes of maps (`BPF_MAP_TYPE_HASH_OF_MAPS`).
const HASH_OF_MAPS: u32 = 13;

/// The type of arrays of programs (`BPF_MAP_TYPE_PROG_ARRAY`).
const PROG_ARRAY: u32 = 3;

/// The target of an initial slot: a map or a program.
#[derive(Debug, Drop)]
pub enum InitialTarget {
    /// The map of this name.
    Map(Text),
    /// The program of this name.
    Program(Text),
}

impl Clone for InitialTarget {
    ghost is_clone = { λ old copy. copy ≡ old };

    fn clone(&self) -> Result<InitialTarget, AllocError> {
        match self {
            InitialTarget::Map(name) => Ok(InitialTarget::Map(name.clone()?)),
            InitialTarget::Program(name) => Ok(InitialTarget::Program(name.clone()?)),
        }
    }
}

/// The name of a symbol; empty where it has none.
fn symbol_text(symbol: &Symbol) -> &str
    ensures { result.now ≡ symbol_text symbol.now }
{
    match &symbol.name {
        Some(name) => name.as_str(),
        None => "",
    }
}

/// Whether a symbol is in the section with an index.
fn stands_in(symbol: &Symbol, section: usize) -> bool
    ensures { result ≡ stands_in section symbol.now.section_index }
{
    match symbol.section_index {
        Some(own) => own == section,
        None => false,
    }
}

/// The map of the section `.maps` that a symbol names, for a map of maps.
#[tactic(auto, unfolding(crate::specs::InitialSlots::target_map))]
fn target_map(
    alloc: Global,
    object: &Object,
    section: usize,
    variable: &MapVariable,
    symbol: &Symbol,
) -> Result<InitialTarget, InitialSlotError>
    ensures { Gives is_initial_slot_memory result
        (target_map object.now section variable.now symbol.now) }
{
    let map = variable.name.clone()?;
    let target = Text::from_str(alloc, symbol_text(symbol))?;
    if !stands_in(symbol, section) {
        return Err(InitialSlotError::NotInMaps { map, target });
    }
    let key_size = variable.key_size;
    if variable.map_type == HASH_OF_MAPS && key_size != 4 {
        return Err(InitialSlotError::UnsupportedKeySize { map, key_size });
    }
    if object.maps.contains_key(target.as_str()) {
        return Ok(InitialTarget::Map(target));
    }
    Err(InitialSlotError::UnknownMap { map, target })
}

/// Whether a program has the section and address of a symbol.
fn is_entry_point(symbol: &Symbol, program: &Program) -> bool
    ensures { result ≡ is_entry_point symbol.now program.now }
{
    stands_in(symbol, program.section_index) && program.address == symbol.address
}

/// The program that a symbol names, for an array of programs.
#[tactic(auto, unfolding(crate::specs::InitialSlots::target_program))]
fn target_program(
    alloc: Global,
    object: &Object,
    variable: &MapVariable,
    symbol: &Symbol,
) -> Result<InitialTarget, InitialSlotError>
    ensures { Gives is_initial_slot_memory result
        (target_program object.now variable.now symbol.now) }
{
    let map = variable.name.clone()?;
    let target = Text::from_str(alloc, symbol_text(symbol))?;
    let Some(program) = object.programs.get(target.as_str()) else {
        return Err(InitialSlotError::UnknownProgram { map, target });
    };
    if is_entry_point(symbol, program) {
        return Ok(InitialTarget::Program(target));
    }
    Err(InitialSlotError::NotAnEntryPoint { map, target })
}

/// The target that a symbol gives a slot of a variable's map.
///
/// # Errors
///
/// - `UnsupportedMapType`: the map is neither a map of maps nor an array of programs.
/// - `NotInMaps`, `UnsupportedKeySize`, `UnknownMap`: the symbol names no value of a map of maps.
/// - `UnknownProgram`, `NotAnEntryPoint`: the symbol names no value of an array of programs.
/// - `OutOfMemory`: an allocation failed.
pub fn initial_target(
    alloc: Global,
    object: &Object,
    section: usize,
    variable: &MapVariable,
    symbol: &Symbol,
) -> Result<InitialTarget, InitialSlotError>
    ensures { Gives is_initial_slot_memory result
        (initial_target object.now section variable.now symbol.now) }
{
    let map_type = variable.map_type;
    if map_type == ARRAY_OF_MAPS || map_type == HASH_OF_MAPS {
        return target_map(alloc, object, section, variable, symbol);
    }
    if map_type == PROG_ARRAY {
        return target_program(alloc, object, variable, symbol);
    }
    Err(InitialSlotError::UnsupportedMapType {
        map: variable.name.clone()?,
        map_type,
    })
}
