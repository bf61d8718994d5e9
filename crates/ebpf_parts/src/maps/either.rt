//! Maps: by a fixed struct, by type information, and as the kernel reports them.

ghost use Rattle.std.specs.Prelude.{◌≡◌, Ok};
ghost use Rattle.std.specs.Borrow.{Lends, sem, u8 as byte};
ghost use Rattle.std.specs.contracts.vec.Vec.{the_row as vec_row};
ghost use Rattle.std.specs.contracts.alloc.Global.{the_row as global_row};
ghost use Rattle.ebpf_parts.specs.contracts.maps.either.Map.{the_row};
ghost use Rattle.ebpf_parts.specs.Maps as maps;

use crate::maps::definition::{BtfMapDef, PinningType, bpf_map_def};
use crate::section::EbpfSectionKind;
use ebpf_base::Items;
use std::alloc::{AllocError, Allocator, Global};

/// A map that a fixed struct or a data section declares.
#[derive(Debug, Drop)]
pub struct LegacyMap {
    /// The map definition.
    pub def: bpf_map_def,
    /// The definition of the inner maps, of a map of maps.
    pub inner_def: Option<bpf_map_def>,
    /// The index of the section that declares it, 0 where none does.
    pub section_index: usize,
    /// The kind of the section that declares the map.
    pub section_kind: EbpfSectionKind,
    /// The index of the symbol that names it. A data section is named by none.
    pub symbol_index: Option<usize>,
    /// Its initial data.
    pub bytes: Items<u8>,
}

impl LegacyMap {
    /// A map that no section declares, without data and without an inner map.
    pub(crate) fn without_section(alloc: Global, def: bpf_map_def) -> LegacyMap
        ensures { result ≡ maps.undeclared_legacy_map def }
    {
        LegacyMap {
            def,
            inner_def: None,
            section_index: 0,
            section_kind: EbpfSectionKind::Undefined,
            symbol_index: None,
            bytes: Items::new(alloc),
        }
    }
}

impl Clone for LegacyMap {
    ghost is_clone = { λ old copy. copy ≡ old };

    fn clone(&self) -> Result<LegacyMap, AllocError> {
        Ok(LegacyMap {
            def: self.def,
            inner_def: self.inner_def,
            section_index: self.section_index,
            section_kind: self.section_kind,
            symbol_index: self.symbol_index,
            bytes: self.bytes.copied()?,
        })
    }
}

/// A BTF-defined map.
#[derive(Debug, Drop)]
pub struct BtfMap {
    /// The map definition.
    pub def: BtfMapDef,
    /// The definition of the inner maps, of a map of maps.
    pub inner_def: Option<BtfMapDef>,
    /// The index of the section that declares it, 0 where none does.
    pub section_index: usize,
    /// The index of the symbol that names it, 0 where none does.
    pub symbol_index: usize,
    /// Its initial data.
    pub bytes: Items<u8>,
}

impl BtfMap {
    /// A map that no section declares, without data and without an inner map.
    pub(crate) fn without_section(alloc: Global, def: BtfMapDef) -> BtfMap
        ensures { result ≡ maps.undeclared_btf_map def }
    {
        BtfMap {
            def,
            inner_def: None,
            section_index: 0,
            symbol_index: 0,
            bytes: Items::new(alloc),
        }
    }
}

impl Clone for BtfMap {
    ghost is_clone = { λ old copy. copy ≡ old };

    fn clone(&self) -> Result<BtfMap, AllocError> {
        Ok(BtfMap {
            def: self.def,
            inner_def: self.inner_def,
            section_index: self.section_index,
            symbol_index: self.symbol_index,
            bytes: self.bytes.copied()?,
        })
    }
}

/// A map.
#[derive(Debug, Drop)]
pub enum Map {
    /// By a fixed struct, or of a data section.
    Legacy(LegacyMap),
    /// By type information.
    Btf(BtfMap),
}

impl Clone for Map {
    ghost is_clone = { λ old copy. copy ≡ old };

    fn clone(&self) -> Result<Map, AllocError> {
        match self {
            Map::Legacy(map) => Ok(Map::Legacy(map.clone()?)),
            Map::Btf(map) => Ok(Map::Btf(map.clone()?)),
        }
    }
}

impl Map {
    /// The number of the map's type, as `bpf_map_type` has it.
    pub fn map_type(&self) -> u32
        ensures { result ≡ maps.map_type_of self.now }
    {
        match self {
            Map::Legacy(map) => map.def.map_type,
            Map::Btf(map) => map.def.map_type,
        }
    }

    /// The size of a key in bytes.
    pub fn key_size(&self) -> u32
        ensures { result ≡ maps.key_size_of self.now }
    {
        match self {
            Map::Legacy(map) => map.def.key_size,
            Map::Btf(map) => map.def.key_size,
        }
    }

    /// The size of a value in bytes.
    pub fn value_size(&self) -> u32
        ensures { result ≡ maps.value_size_of self.now }
    {
        match self {
            Map::Legacy(map) => map.def.value_size,
            Map::Btf(map) => map.def.value_size,
        }
    }

    /// Sets the size of a value, in bytes, and nothing else.
    pub fn set_value_size(&mut self, size: u32)
        ensures { self.new ≡ maps.with_value_size self.old size }
    {
        match self {
            Map::Legacy(map) => map.def.value_size = size,
            Map::Btf(map) => map.def.value_size = size,
        }
    }

    /// The number of entries that the map holds at most.
    pub fn max_entries(&self) -> u32
        ensures { result ≡ maps.max_entries_of self.now }
    {
        match self {
            Map::Legacy(map) => map.def.max_entries,
            Map::Btf(map) => map.def.max_entries,
        }
    }

    /// Sets the number of entries, and nothing else.
    pub fn set_max_entries(&mut self, entries: u32)
        ensures { self.new ≡ maps.with_max_entries self.old entries }
    {
        match self {
            Map::Legacy(map) => map.def.max_entries = entries,
            Map::Btf(map) => map.def.max_entries = entries,
        }
    }

    /// The flags of the map's creation.
    pub fn map_flags(&self) -> u32
        ensures { result ≡ maps.map_flags_of self.now }
    {
        match self {
            Map::Legacy(map) => map.def.map_flags,
            Map::Btf(map) => map.def.map_flags,
        }
    }

    /// What the map's type asks further, 0 for a map by a fixed struct.
    pub fn map_extra(&self) -> u64
        ensures { result ≡ maps.map_extra_of self.now }
    {
        match self {
            Map::Legacy(_) => 0,
            Map::Btf(map) => map.def.map_extra,
        }
    }

    /// How the map is pinned.
    pub fn pinning(&self) -> PinningType
        ensures { result ≡ maps.pinning_of self.now }
    {
        match self {
            Map::Legacy(map) => map.def.pinning,
            Map::Btf(map) => map.def.pinning,
        }
    }

    /// The data that the map begins with.
    pub fn data(&self) -> &[u8]
        ensures { result.now ≡ maps.bytes_of self.now }
    {
        match self {
            Map::Legacy(map) => map.bytes.as_slice(),
            Map::Btf(map) => map.bytes.as_slice(),
        }
    }

    /// Borrows the data that the map begins with, to be written. Nothing else of the map changes.
    pub fn data_mut(&mut self) -> &mut Vec<u8>
        ensures* writes_back { sem 𝓛
            (Lends the_row (vec_row byte global_row ⟦<Global as Allocator>⟧) self.entry result
            (λ bytes. maps.with_bytes self.old bytes.items)) }
        ensures value { result.now.items ≡ maps.bytes_of self.old }
    {
        match self {
            Map::Legacy(map) => map.bytes.as_vec_mut(),
            Map::Btf(map) => map.bytes.as_vec_mut(),
        }
    }

    /// The index of the section that declares the map, 0 where none does.
    pub fn section_index(&self) -> usize
        ensures { result ≡ maps.section_index_of self.now }
    {
        match self {
            Map::Legacy(map) => map.section_index,
            Map::Btf(map) => map.section_index,
        }
    }

    /// The kind of the section that declares the map: `BtfMaps` for a map by type information.
    pub fn section_kind(&self) -> EbpfSectionKind
        ensures { result ≡ maps.section_kind_of self.now }
    {
        match self {
            Map::Legacy(map) => map.section_kind,
            Map::Btf(_) => EbpfSectionKind::BtfMaps,
        }
    }

    /// The index of the symbol that names the map. A data section is named by none.
    pub fn symbol_index(&self) -> Option<usize>
        ensures { result ≡ maps.symbol_index_of self.now }
    {
        match self {
            Map::Legacy(map) => map.symbol_index,
            Map::Btf(map) => Some(map.symbol_index),
        }
    }
}

impl Map {
    /// Returns a map by a fixed struct from its numbers, with id 0, without pinning, section, symbol and data.
    ///
    /// Allocates nothing.
    pub fn new_from_params(
        alloc: Global,
        map_type: u32,
        key_size: u32,
        value_size: u32,
        max_entries: u32,
        flags: u32,
    ) -> Map
        ensures { result ≡ maps.map_from_params map_type key_size value_size max_entries flags }
    {
        let def = bpf_map_def {
            map_type,
            key_size,
            value_size,
            max_entries,
            map_flags: flags,
            id: 0,
            pinning: PinningType::None,
        };
        Map::Legacy(LegacyMap::without_section(alloc, def))
    }

    /// Returns the map that a map of maps holds, in no section and without data; `None` for other maps.
    ///
    /// Allocates nothing.
    pub fn inner_map(&self) -> Option<Map>
        ensures { result ≡ maps.inner_of self.now }
    {
        match self {
            Map::Legacy(map) => {
                let alloc = *map.bytes.as_vec().allocator();
                map.inner_def
                    .map(|def| Map::Legacy(LegacyMap::without_section(alloc, def)))
            }
            Map::Btf(map) => {
                let alloc = *map.bytes.as_vec().allocator();
                map.inner_def
                    .map(|def| Map::Btf(BtfMap::without_section(alloc, def)))
            }
        }
    }

    /// `inner_map`, in the form of aya-obj, which is never `Err`.
    pub fn inner(&self) -> Result<Option<Map>, AllocError>
        ensures { result ≡ Ok (maps.inner_of self.now) }
    {
        Ok(self.inner_map())
    }
}

/// What the kernel reports of a map that it holds (of its `struct bpf_map_info`).
#[derive(Clone, Copy, Debug, Default, PartialEq, Eq)]
pub struct bpf_map_info {
    /// The number of the map's type.
    pub type_: u32,
    /// The number of the map.
    pub id: u32,
    /// The size of a key in bytes.
    pub key_size: u32,
    /// The size of a value in bytes.
    pub value_size: u32,
    /// The number of entries that the map holds at most.
    pub max_entries: u32,
    /// The flags of the map's creation.
    pub map_flags: u32,
    /// What the map's type asks further.
    pub map_extra: u64,
    /// The id of the key's type, 0 where there is none.
    pub btf_key_type_id: u32,
    /// The id of the value's type, 0 where there is none.
    pub btf_value_type_id: u32,
}

/// The map that the kernel reports, without data and inner map: one with type information where its value
/// has a type, else one by a fixed struct. Takes no memory.
pub fn parse_map_info(alloc: Global, info: bpf_map_info, pinned: PinningType) -> Map
    ensures { result ≡ maps.map_from_info info pinned }
{
    if info.btf_value_type_id == 0 {
        let def = bpf_map_def {
            map_type: info.type_,
            key_size: info.key_size,
            value_size: info.value_size,
            max_entries: info.max_entries,
            map_flags: info.map_flags,
            id: info.id,
            pinning: pinned,
        };
        return Map::Legacy(LegacyMap::without_section(alloc, def));
    }
    let def = BtfMapDef {
        map_type: info.type_,
        key_size: info.key_size,
        value_size: info.value_size,
        max_entries: info.max_entries,
        map_flags: info.map_flags,
        map_extra: info.map_extra,
        pinning: pinned,
        btf_key_type_id: info.btf_key_type_id,
        btf_value_type_id: info.btf_value_type_id,
    };
    Map::Btf(BtfMap::without_section(alloc, def))
}
