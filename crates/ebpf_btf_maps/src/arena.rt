//! The arena of an object, and the data of the variables in it.

ghost use Rattle.std.specs.Prelude.{◌≡◌, IfOk, map, None, Some, fold};
ghost use Rattle.std.specs.FinMap as finite;
ghost use Rattle.std.specs.List.{find};
ghost use Rattle.std.specs.Option.{option_copied, option_map};
ghost use Rattle.ebpf_base.specs.Faults.{Gives, fault_of, first_some};
ghost use Rattle.ebpf_base.specs.Maps.{lent_bytes};
ghost use Rattle.ebpf_btf_maps.specs.Arenas.{arena_data, arena_data_in, arena_names, arena_row, arena_section, data_of_arena, data_within, is_arena, is_arena_section, last_arena_section, named_arena, pages, section_bytes, with_arena_data, with_data, within};
ghost use Rattle.ebpf_btf_maps.specs.Memory.{is_btf_map_memory};

use crate::error::BtfMapError;
use ebpf_base::{ByName, Items, Text};
use ebpf_elf::constants::{SHF_EXECINSTR, SHT_PROGBITS};
use ebpf_elf::{ElfFile, ElfSection};
use ebpf_object::Object;
use ebpf_parts::maps::{BtfMap, Map};
use std::alloc::{AllocError, Global};

/// The type of an arena (`BPF_MAP_TYPE_ARENA`).
const ARENA: u32 = 33;

/// The name of the section of variables in an arena.
const ARENA_SECTION: &str = ".addr_space.1";

/// The arena of an object.
#[derive(Clone, Copy, Debug)]
pub struct Arena<'a> {
    /// The name of its map.
    pub name: &'a str,
    /// Its map.
    pub map: &'a BtfMap,
}

/// The data that an arena begins with.
#[derive(Drop)]
pub struct ArenaData {
    /// The name of the arena.
    pub name: Text,
    /// The index of the section of the data.
    pub section: usize,
    /// The bytes of the section.
    pub bytes: Items<u8>,
}

/// Whether a map is an arena: BTF-defined, and of type 33.
fn is_arena(map: &Map) -> bool
    ensures { result ≡ is_arena map.now }
{
    match map {
        Map::Legacy(_) => false,
        Map::Btf(map) => map.def.map_type == ARENA,
    }
}

/// An arena, with its name.
fn named_arena<'a>(name: &'a str, map: &'a Map) -> Option<Arena<'a>>
    ensures { option_map arena_row result ≡ named_arena (name.now, map.now) }
{
    match map {
        Map::Btf(map) if map.def.map_type == ARENA => Some(Arena { name, map }),
        _ => None,
    }
}

/// The arena of an object: its first BTF-defined map of type 33, in byte order of the names.
///
/// After `complete_maps` it is the only one, and has the data of the variables in it.
pub fn arena_of(object: &Object) -> Option<Arena<'_>>
    ensures { option_map arena_row result
        ≡ first_some named_arena (finite.entries object.now.maps) }
{
    for (name, map) in object.maps.iter() {
        if let Some(found) = named_arena(name.as_str(), map) {
            return Some(found);
        }
    }
    None
}

/// Copies of the names of the arenas.
fn arena_names(alloc: Global, maps: &ByName<Map>) -> Result<Items<Text>, AllocError>
    ensures { IfOk result (λ names. names ≡ arena_names maps.now) }
{
    let mut names = Items::new(alloc);
    for (name, map) in maps.iter() {
        if !is_arena(map) {
            continue;
        }
        names.push(Text::from_str(alloc, name.as_str())?)?;
    }
    Ok(names)
}

/// Whether a section has the variables of an arena.
fn is_arena_section(section: &ElfSection<'_>) -> bool
    ensures { result ≡ is_arena_section section.now }
{
    section.has_name(ARENA_SECTION)
        && section.kind_number() == SHT_PROGBITS
        && section.flags() & SHF_EXECINSTR == 0
        && section.size() > 0
}

/// The last section with the variables of an arena.
fn arena_section<'a>(file: &ElfFile<'a>) -> Option<ElfSection<'a>>
    ensures { result ≡ arena_section file.now }
{
    let mut found = None;
    for section in file.sections() {
        if !is_arena_section(&section) {
            continue;
        }
        found = Some(section);
    }
    found
}

/// The bytes of a section.
fn section_bytes(alloc: Global, section: &ElfSection<'_>) -> Result<Items<u8>, BtfMapError>
    ensures { Gives is_btf_map_memory result (section_bytes section.now) }
{
    match section.data() {
        Ok(data) => Ok(Items::from_vec(Vec::from_slice(alloc, data)?)),
        Err(error) => Err(BtfMapError::ElfError(error)),
    }
}

/// The number of pages of the arena with a name.
fn pages(maps: &ByName<Map>, name: &str) -> u32
    ensures { result ≡ pages maps.now name.now }
{
    match maps.get(name) {
        Some(map) => map.max_entries(),
        None => 0,
    }
}

/// The data of an arena with room for them.
fn within(
    page_size: u32,
    pages: u32,
    name: Text,
    section: usize,
    bytes: Items<u8>,
) -> Result<Option<ArenaData>, BtfMapError>
    ensures { result ≡ within page_size pages name section bytes }
{
    let size = bytes.len();
    if u64::from(page_size) * u64::from(pages) < size as u64 {
        return Err(BtfMapError::ArenaTooSmall {
            map: name,
            size,
            pages,
        });
    }
    Ok(Some(ArenaData {
        name,
        section,
        bytes,
    }))
}

/// The data of the arena with a name.
fn data_within(
    alloc: Global,
    page_size: u32,
    maps: &ByName<Map>,
    name: &Text,
    section: &ElfSection<'_>,
) -> Result<Option<ArenaData>, BtfMapError>
    ensures { Gives is_btf_map_memory result
        (data_within page_size maps.now name.now section.now) }
{
    let bytes = section_bytes(alloc, section)?;
    let copy = name.clone()?;
    let pages = pages(maps, name.as_str());
    within(page_size, pages, copy, section.index().0, bytes)
}

/// The data of the first arena and of a section, where they are.
fn data_of_arena(
    alloc: Global,
    page_size: u32,
    maps: &ByName<Map>,
    name: Option<&Text>,
    section: Option<ElfSection<'_>>,
) -> Result<Option<ArenaData>, BtfMapError>
    ensures { Gives is_btf_map_memory result
        (data_of_arena page_size maps.now (option_copied name.entry) section.entry) }
{
    let Some(section) = section else {
        return Ok(None);
    };
    match name {
        Some(name) => data_within(alloc, page_size, maps, name, &section),
        None => Err(BtfMapError::NoArena),
    }
}

/// The data of the arena among some maps, in a file.
fn arena_data_in(
    alloc: Global,
    file: &ElfFile<'_>,
    page_size: u32,
    maps: &ByName<Map>,
) -> Result<Option<ArenaData>, BtfMapError>
    ensures { Gives is_btf_map_memory result (arena_data_in file.now page_size maps.now) }
{
    let names = arena_names(alloc, maps)?;
    if let Some(second) = names.get(1) {
        return Err(BtfMapError::SecondArena {
            map: second.clone()?,
        });
    }
    data_of_arena(alloc, page_size, maps, names.get(0), arena_section(file))
}

/// The data of the arena among some maps, in the bytes of a file.
#[tactic(auto, unfolding(crate::specs::Arenas::arena_data))]
pub fn arena_data(
    alloc: Global,
    file: &[u8],
    page_size: u32,
    maps: &ByName<Map>,
) -> Result<Option<ArenaData>, BtfMapError>
    ensures { Gives is_btf_map_memory result (arena_data file.now page_size maps.now) }
{
    match ElfFile::parse(file) {
        Ok(file) => arena_data_in(alloc, &file, page_size, maps),
        Err(error) => Err(BtfMapError::ElfError(error)),
    }
}

/// Gives a BTF-defined map data of a section.
fn put_data(map: &mut Map, section: usize, bytes: Items<u8>)
    ensures { map.new ≡ with_data map.old section bytes }
{
    match map {
        Map::Legacy(_) => {}
        Map::Btf(map) => {
            map.section_index = section;
            map.bytes = bytes;
        }
    }
}

/// Gives the arena among some maps its data.
pub fn put_arena_data(maps: &mut ByName<Map>, given: Option<ArenaData>)
    ensures { maps.new ≡ with_arena_data maps.old given }
{
    let Some(given) = given else {
        return;
    };
    if let Some(map) = maps.get_mut(given.name.as_str()) {
        put_data(map, given.section, given.bytes);
    }
}
