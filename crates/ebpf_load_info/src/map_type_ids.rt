//! The types of the keys and values with which maps are created.

ghost use Rattle.std.specs.Prelude.{◌≡◌, nat_eq};
ghost use Rattle.std.specs.List.{list_any};
ghost use Rattle.ebpf_load_info.specs.MapTypeIds.{data_type, has_value_type, is_type_of, map_type_ids, stated_ids, stated_size, ids_of_map_type, untyped_maps};

use crate::texts::id_of_name;
use ebpf_btf::{Btf, BtfKind};
use ebpf_parts::EbpfSectionKind;
use ebpf_parts::maps::{LegacyMap, Map};

/// The types of a map's keys and values, as `BPF_MAP_CREATE` takes them (`btf_key_type_id` and `btf_value_type_id`).
#[derive(Clone, Copy, Debug, Default, PartialEq, Eq)]
pub struct MapTypeIds {
    /// The id of the type of the keys; 0 where there is none.
    pub key: u32,
    /// The id of the type of the values; 0 where there is none.
    pub value: u32,
}

/// The types of maps that the kernel creates without types of keys and values.
const UNTYPED_MAPS: [u32; 14] = [
    4, // BPF_MAP_TYPE_PERF_EVENT_ARRAY
    7, // BPF_MAP_TYPE_STACK_TRACE
    8, // BPF_MAP_TYPE_CGROUP_ARRAY
    12, // BPF_MAP_TYPE_ARRAY_OF_MAPS
    13, // BPF_MAP_TYPE_HASH_OF_MAPS
    14, // BPF_MAP_TYPE_DEVMAP
    15, // BPF_MAP_TYPE_SOCKMAP
    16, // BPF_MAP_TYPE_CPUMAP
    17, // BPF_MAP_TYPE_XSKMAP
    18, // BPF_MAP_TYPE_SOCKHASH
    22, // BPF_MAP_TYPE_QUEUE
    23, // BPF_MAP_TYPE_STACK
    25, // BPF_MAP_TYPE_DEVMAP_HASH
    33, // BPF_MAP_TYPE_ARENA
];

/// The type of maps whose values have a type of the kernel (`BPF_MAP_TYPE_STRUCT_OPS`).
const STRUCT_OPS: u32 = 26;

/// Whether maps of a type are created without types of keys and values.
#[tactic(auto, unfolding(crate::specs::MapTypeIds::untyped_maps))]
fn is_untyped(map_type: u32) -> bool
    ensures { result ≡ list_any (λ t. nat_eq t map_type) untyped_maps }
{
    UNTYPED_MAPS.contains(&map_type)
}

/// The ids that a map type takes, out of some ids.
fn ids_of_map_type(map_type: u32, ids: MapTypeIds) -> MapTypeIds
    ensures { result ≡ ids_of_map_type map_type ids }
{
    if is_untyped(map_type) {
        return MapTypeIds { key: 0, value: 0 };
    }
    if map_type == STRUCT_OPS {
        return MapTypeIds { value: 0, ..ids };
    }
    ids
}

/// Whether a section is one of data.
#[tactic(auto, unfolding(crate::specs::MapTypeIds::has_value_type))]
fn has_value_type(kind: EbpfSectionKind) -> bool
    ensures { result ≡ has_value_type kind }
{
    matches!(
        kind,
        EbpfSectionKind::Data | EbpfSectionKind::Rodata | EbpfSectionKind::Bss
    )
}

/// The size that a type states in bytes; 0 where it states none.
fn stated_size(types: &Btf, type_id: u32) -> u32
    ensures { result ≡ stated_size types.now type_id }
{
    let Ok(ty) = types.type_by_id(type_id) else {
        return 0;
    };
    ty.size().unwrap_or(0)
}

/// Whether a DATASEC is the type of a map's value, by its size.
fn is_type_of(types: &Btf, map: &LegacyMap, type_id: u32) -> bool
    ensures { result ≡ is_type_of types.now map.now type_id }
{
    let size = stated_size(types, type_id);
    map.def.value_size as usize == map.bytes.len() && (size == 0 || size == map.def.value_size)
}

/// The type of the value of a data section's map; 0 where it has none.
fn data_type(types: &Btf, name: &str, map: &LegacyMap) -> u32
    ensures { result ≡ data_type types.now name.now map.now }
{
    match id_of_name(types, name, BtfKind::DataSec) {
        Some(type_id) if is_type_of(types, map, type_id) => type_id,
        _ => 0,
    }
}

/// The ids that a map's definition states, or that the map of a data section has by its name.
fn stated_ids(types: &Btf, name: &str, map: &Map) -> MapTypeIds
    ensures { result ≡ stated_ids types.now name.now map.now }
{
    match map {
        Map::Btf(map) => MapTypeIds {
            key: map.def.btf_key_type_id,
            value: map.def.btf_value_type_id,
        },
        Map::Legacy(map) if has_value_type(map.section_kind) => MapTypeIds {
            key: 0,
            value: data_type(types, name, map),
        },
        Map::Legacy(_) => MapTypeIds { key: 0, value: 0 },
    }
}

/// Returns the types of the keys and values with which a map is created.
///
/// `types` are the types of the map's object. The same holds for an inner map.
///
/// - Map types 4, 7, 8, 12 to 18, 22, 23, 25 and 33: no types.
/// - Map type 26 (`BPF_MAP_TYPE_STRUCT_OPS`): no type of values.
/// - Other map types: the types that the definition states. A map by a fixed struct states none.
/// - The map of a data section: no type of keys. The type of the value is the first DATASEC of the section's name.
///   There is none where the size of the value was changed: where it differs from the length of the map's data, or from
///   the size that the DATASEC states. A DATASEC that states size 0, as compilers write it, fits any size.
#[tactic(auto, unfolding(crate::specs::MapTypeIds::map_type_ids))]
pub fn map_types(name: &str, map: &Map, types: &Btf) -> MapTypeIds
    ensures { result ≡ map_type_ids name.now map.now types.now }
{
    ids_of_map_type(map.map_type(), stated_ids(types, name, map))
}
