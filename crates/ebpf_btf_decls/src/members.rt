//! The members of a struct that declares a map: what each is about, its value, and the definition that the values make.

ghost use Rattle.std.specs.Prelude.{◌≡◌, ◌∷◌, []};
ghost use Rattle.ebpf_btf_decls.specs.MapMembers.{map_member_at, no_definitions, with_all};
ghost use Rattle.ebpf_btf_decls.specs.declared.members.MemberValue.TheVariants.{Number};

use ebpf_btf::{Btf, BtfError, BtfMember};
use ebpf_parts::maps::{BtfMapDef, PinningType};

/// A number that a member may say of a map.
#[derive(Clone, Copy, PartialEq, Eq)]
pub enum MapNumber {
    /// The number of the map's type.
    MapType,
    /// The size of a key in bytes.
    KeySize,
    /// The size of a value in bytes.
    ValueSize,
    /// The number of entries at most.
    MaxEntries,
    /// The flags of the map's creation.
    MapFlags,
    /// What the map's type asks further.
    MapExtra,
}

/// What a member is about.
#[derive(Clone, Copy, PartialEq, Eq)]
pub enum MapMember {
    /// A number.
    Number(MapNumber),
    /// How the map is pinned.
    Pinning,
    /// The type of a key.
    Key,
    /// The type of a value.
    Value,
    /// The maps that it holds.
    Values,
    /// Nothing that is known.
    Other,
}

/// What a member is about, by its name, of which no more is looked at than the longest of the known names has.
#[tactic(auto, unfolding(crate::specs::MapMembers::map_member))]
pub fn map_member_at(btf: &Btf, member: &BtfMember) -> Result<MapMember, BtfError>
    ensures { result ≡ map_member_at btf.now.strings member.now }
{
    let name = member.name_offset;
    if btf.is_name_at(name, "type")? {
        return Ok(MapMember::Number(MapNumber::MapType));
    }
    if btf.is_name_at(name, "key_size")? {
        return Ok(MapMember::Number(MapNumber::KeySize));
    }
    if btf.is_name_at(name, "value_size")? {
        return Ok(MapMember::Number(MapNumber::ValueSize));
    }
    if btf.is_name_at(name, "max_entries")? {
        return Ok(MapMember::Number(MapNumber::MaxEntries));
    }
    if btf.is_name_at(name, "map_flags")? {
        return Ok(MapMember::Number(MapNumber::MapFlags));
    }
    if btf.is_name_at(name, "map_extra")? {
        return Ok(MapMember::Number(MapNumber::MapExtra));
    }
    if btf.is_name_at(name, "key")? {
        return Ok(MapMember::Key);
    }
    if btf.is_name_at(name, "value")? {
        return Ok(MapMember::Value);
    }
    if btf.is_name_at(name, "pinning")? {
        return Ok(MapMember::Pinning);
    }
    if btf.is_name_at(name, "values")? {
        return Ok(MapMember::Values);
    }
    Ok(MapMember::Other)
}

/// The value of a member of a map definition.
#[derive(Clone, Copy)]
pub enum MemberValue {
    /// A number.
    Number { of: MapNumber, number: u32 },
    /// How the map is pinned.
    Pinning(PinningType),
    /// The type of a key, and its size in bytes.
    Key { type_id: u32, size: u32 },
    /// The type of a value, and its size in bytes.
    Value { type_id: u32, size: u32 },
    /// The maps that it holds.
    Values(BtfMapDef),
    /// A map that holds programs.
    Programs,
    /// What the map's type asks further, in 64 bits.
    Extra(u64),
    /// Nothing.
    Nothing,
}

/// The size of a value that is a map or a program, in bytes.
const MAP_VALUE: u32 = 4;

/// The definition of a map, and of the maps that it holds.
#[derive(Clone, Copy)]
pub struct MapDefinitions {
    pub def: BtfMapDef,
    pub inner_def: Option<BtfMapDef>,
}

/// Definitions with a number.
#[tactic(auto, unfolding(crate::specs::MapMembers::with_all))]
fn with_number(definitions: MapDefinitions, of: MapNumber, number: u32) -> MapDefinitions
    ensures { result ≡ with_all definitions (Number of number ∷ []) }
{
    let def = definitions.def;
    let def = match of {
        MapNumber::MapType => BtfMapDef {
            map_type: number,
            ..def
        },
        MapNumber::KeySize => BtfMapDef {
            key_size: number,
            ..def
        },
        MapNumber::ValueSize => BtfMapDef {
            value_size: number,
            ..def
        },
        MapNumber::MaxEntries => BtfMapDef {
            max_entries: number,
            ..def
        },
        MapNumber::MapFlags => BtfMapDef {
            map_flags: number,
            ..def
        },
        MapNumber::MapExtra => BtfMapDef {
            map_extra: number as u64,
            ..def
        },
    };
    MapDefinitions { def, ..definitions }
}

impl MapDefinitions {
    /// Where no member gives a value.
    pub fn none() -> MapDefinitions
        ensures { result ≡ no_definitions }
    {
        MapDefinitions {
            def: BtfMapDef {
                map_type: 0,
                key_size: 0,
                value_size: 0,
                max_entries: 0,
                map_flags: 0,
                map_extra: 0,
                pinning: PinningType::None,
                btf_key_type_id: 0,
                btf_value_type_id: 0,
            },
            inner_def: None,
        }
    }

    /// With the value of one more member.
    #[tactic(auto, unfolding(crate::specs::MapMembers::with_all))]
    pub fn with(self, member_value: MemberValue) -> MapDefinitions
        ensures { result ≡ with_all self (member_value ∷ []) }
    {
        let MapDefinitions { def, inner_def } = self;
        match member_value {
            MemberValue::Number { of, number } => with_number(self, of, number),
            MemberValue::Pinning(pinning) => MapDefinitions {
                def: BtfMapDef { pinning, ..def },
                inner_def,
            },
            MemberValue::Key { type_id, size } => MapDefinitions {
                def: BtfMapDef {
                    btf_key_type_id: type_id,
                    key_size: size,
                    ..def
                },
                inner_def,
            },
            MemberValue::Value { type_id, size } => MapDefinitions {
                def: BtfMapDef {
                    btf_value_type_id: type_id,
                    value_size: size,
                    ..def
                },
                inner_def,
            },
            MemberValue::Values(inner) => MapDefinitions {
                def: BtfMapDef {
                    value_size: MAP_VALUE,
                    ..def
                },
                inner_def: Some(inner),
            },
            MemberValue::Programs => MapDefinitions {
                def: BtfMapDef {
                    value_size: MAP_VALUE,
                    ..def
                },
                inner_def: None,
            },
            MemberValue::Extra(map_extra) => MapDefinitions {
                def: BtfMapDef { map_extra, ..def },
                inner_def,
            },
            MemberValue::Nothing => self,
        }
    }
}
