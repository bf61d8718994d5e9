//! Maps as C reads them.

ghost use Rattle.std.specs.Prelude.{◌≡◌, ◌∷◌, []};
ghost use Rattle.std.specs.Option.{option_copied};
ghost use Rattle.capi_rows.specs.Listings.{zero_terminated};
ghost use Rattle.capi_rows.specs.MapRows.{map_row, pinning_number, section_kind_number, shape_if, shape_of, type_ids_of};
ghost use Rattle.capi_rows.specs.Reads.{answer_row, map_named, program_named, row_after};

use crate::buffers::{Listing, RowFrom, add_row};
use crate::codes::{DONE, NO_MAP, NO_PROGRAM, flag};
use crate::entries::Entry;
use crate::programs::{ebpf_program, program_row};
use crate::reads::text_of;
use ebpf_btf::Btf;
use ebpf_load_info::{MapTypeIds, map_types};
use ebpf_object::Object;
use ebpf_parts::EbpfSectionKind;
use ebpf_parts::maps::{Map, PinningType};
use std::alloc::AllocError;

/// The attributes of a map, each number as the kernel takes it.
#[repr(C)]
#[derive(Clone, Copy)]
pub struct ebpf_map_shape {
    /// What the map's type asks further.
    pub extra: u64,
    /// The number of the map's type.
    pub type_: u32,
    /// The size of a key in bytes.
    pub key_size: u32,
    /// The size of a value in bytes.
    pub value_size: u32,
    /// The number of entries that the map holds at most.
    pub max_entries: u32,
    /// The flags of the map's creation.
    pub flags: u32,
    /// 1 where the map is pinned by its name, else 0.
    pub pinning: u32,
    /// The id of the key's type that the map is created with, 0 where there is none.
    pub key_type_id: u32,
    /// The id of the value's type that the map is created with, 0 where there is none.
    pub value_type_id: u32,
}

/// A map.
#[repr(C)]
#[derive(Clone, Copy)]
pub struct ebpf_map {
    /// Where its name begins in the text.
    pub name_at: usize,
    /// How many bytes its name has.
    pub name_len: usize,
    /// The index of its section.
    pub section: usize,
    /// How many bytes its initial data has.
    pub data_len: usize,
    /// What that section is for.
    pub section_kind: u32,
    /// 1 where it is a map of maps, else 0.
    pub has_inner: u32,
    /// Its attributes.
    pub shape: ebpf_map_shape,
    /// The attributes of the maps that it holds, all zero where it is no map of maps.
    pub inner: ebpf_map_shape,
}

fn pinning_number(pinning: PinningType) -> u32
    ensures { result ≡ pinning_number pinning }
{
    match pinning {
        PinningType::None => 0,
        PinningType::ByName => 1,
    }
}

fn section_kind_number(kind: EbpfSectionKind) -> u32
    ensures { result ≡ section_kind_number kind }
{
    match kind {
        EbpfSectionKind::Undefined => 0,
        EbpfSectionKind::Maps => 1,
        EbpfSectionKind::BtfMaps => 2,
        EbpfSectionKind::Program => 3,
        EbpfSectionKind::Data => 4,
        EbpfSectionKind::Rodata => 5,
        EbpfSectionKind::Bss => 6,
        EbpfSectionKind::Text => 7,
        EbpfSectionKind::Btf => 8,
        EbpfSectionKind::BtfExt => 9,
        EbpfSectionKind::License => 10,
        EbpfSectionKind::Version => 11,
    }
}

/// The ids of the types that a map of a name is created with; none where its object has no types.
fn type_ids_of(types: &Option<Btf>, name: &str, map: &Map) -> MapTypeIds
    ensures { result ≡ type_ids_of types.now name.now map.now }
{
    match types {
        Some(types) => map_types(name, map, types),
        None => MapTypeIds { key: 0, value: 0 },
    }
}

/// The attributes of a map that is created with types of these ids.
fn shape_of(map: &Map, ids: MapTypeIds) -> ebpf_map_shape
    ensures { result ≡ shape_of map.now ids }
{
    ebpf_map_shape {
        extra: map.map_extra(),
        type_: map.map_type(),
        key_size: map.key_size(),
        value_size: map.value_size(),
        max_entries: map.max_entries(),
        flags: map.map_flags(),
        pinning: pinning_number(map.pinning()),
        key_type_id: ids.key,
        value_type_id: ids.value,
    }
}

/// The attributes of a map in another of a name, all zero where there is none.
fn shape_if(types: &Option<Btf>, name: &str, map: Option<&Map>) -> ebpf_map_shape
    ensures { result ≡ shape_if types.now name.now (option_copied map.entry) }
{
    match map {
        Some(map) => shape_of(map, type_ids_of(types, name, map)),
        None => ebpf_map_shape {
            extra: 0,
            type_: 0,
            key_size: 0,
            value_size: 0,
            max_entries: 0,
            flags: 0,
            pinning: 0,
            key_type_id: 0,
            value_type_id: 0,
        },
    }
}

/// The row of a map whose name begins at an offset of the text.
pub fn map_row(types: &Option<Btf>, name: &str, map: &Map, name_at: usize) -> ebpf_map
    ensures { result ≡ map_row types.now name.now map.now name_at }
{
    let inner = map.inner_map();
    ebpf_map {
        name_at,
        name_len: name.len(),
        section: map.section_index(),
        data_len: map.data().len(),
        section_kind: section_kind_number(map.section_kind()),
        has_inner: flag(inner.is_some()),
        shape: shape_of(map, type_ids_of(types, name, map)),
        inner: shape_if(types, name, inner.as_ref()),
    }
}

impl<'a> RowFrom<Entry<'a, Map>, Option<Btf>> for ebpf_map {
    ghost rows_of = { λ types e name_at. map_row types e.0 e.1 name_at ∷ [] };

    ghost text_of = { λ _ e. zero_terminated e.0 };

    fn add(
        listing: &mut Listing<ebpf_map>,
        context: &Option<Btf>,
        value: &Entry<'a, Map>,
    ) -> Result<(), AllocError> {
        let row = map_row(context, value.name, value.value, listing.text.len());
        add_row(listing, row, value.name)
    }
}

/// The row of the map that some bytes name.
#[tactic(auto, using(crate::proofs::Rows::value_by_no_text, crate::proofs::Rows::no_row_by_text))]
pub fn map_named(object: &Object, name: &[u8]) -> Result<ebpf_map, u32>
    ensures { result ≡ map_named name.now object.now }
{
    let Some(text) = text_of(name) else {
        return Err(NO_MAP);
    };
    match object.maps.get(text) {
        Some(map) => Ok(map_row(&object.btf, text, map, 0)),
        None => Err(NO_MAP),
    }
}

/// The row of the program that some bytes name.
#[tactic(auto, using(crate::proofs::Rows::value_by_no_text, crate::proofs::Rows::no_row_by_text))]
pub fn program_named(object: &Object, name: &[u8]) -> Result<ebpf_program, u32>
    ensures { result ≡ program_named name.now object.now }
{
    let Some(text) = text_of(name) else {
        return Err(NO_PROGRAM);
    };
    match object.programs.get(text) {
        Some(program) => Ok(program_row(object, text, program, 0)),
        None => Err(NO_PROGRAM),
    }
}

/// Writes a row where there is one. A number of a refusal is answered, and nothing is written.
pub fn write_row<R: Copy>(found: Result<R, u32>, row: &mut R) -> u32
    ensures answer { result ≡ answer_row found }
    ensures row { row.new ≡ row_after found row.old }
{
    match found {
        Ok(found) => {
            *row = found;
            DONE
        }
        Err(number) => number,
    }
}
