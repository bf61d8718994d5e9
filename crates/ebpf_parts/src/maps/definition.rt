//! The definitions of maps, and how maps are pinned.

ghost use Rattle.std.specs.Prelude.{◌≡◌};
ghost use Rattle.ebpf_parts.specs.Maps.{pinning_type};

use thiserror::Error;

/// The fixed struct by which a section `maps` declares a map (libbpf's `struct bpf_map_def`, with the
/// id and the pinning that loaders before it knew).
#[derive(Clone, Copy, Debug, Default, PartialEq, Eq)]
pub struct bpf_map_def {
    /// The number of the map's type.
    pub map_type: u32,
    /// The size of a key in bytes.
    pub key_size: u32,
    /// The size of a value in bytes.
    pub value_size: u32,
    /// The number of entries that the map holds at most.
    pub max_entries: u32,
    /// The flags of the map's creation.
    pub map_flags: u32,
    /// The number of the map.
    pub id: u32,
    /// How the map is pinned.
    pub pinning: PinningType,
}

/// The definition of a BTF-defined map.
#[derive(Clone, Copy, Debug, Default, PartialEq, Eq)]
pub struct BtfMapDef {
    /// The number of the map's type.
    pub map_type: u32,
    /// The size of a key in bytes.
    pub key_size: u32,
    /// The size of a value in bytes.
    pub value_size: u32,
    /// The number of entries that the map holds at most.
    pub max_entries: u32,
    /// The flags of the map's creation.
    pub map_flags: u32,
    /// What the map's type asks further.
    pub map_extra: u64,
    /// How the map is pinned.
    pub pinning: PinningType,
    /// The id of the key's type.
    pub btf_key_type_id: u32,
    /// The id of the value's type.
    pub btf_value_type_id: u32,
}

/// How a map is pinned: what the kernel's file system keeps of it once its object is gone.
#[derive(Clone, Copy, Debug, Default, PartialEq, Eq)]
pub enum PinningType {
    /// Not at all.
    #[default]
    None,
    /// By its name.
    ByName,
}

/// A number that says no pinning.
#[derive(Debug, Drop, Error)]
pub enum PinningError {
    /// The number is neither 0 nor 1.
    #[error("pinning {pinning_type} is neither 0, none, nor 1, by name")]
    Unsupported {
        /// The number.
        pinning_type: u32,
    },
}

impl TryFrom<u32> for PinningType {
    type Error = PinningError;

    ghost try_from_gives = { λ number result. result ≡ pinning_type number };

    /// Returns the pinning of a number (libbpf's enum libbpf_pin_type): 0 none, 1 by name.
    ///
    /// # Errors
    ///
    /// - `Unsupported`: the number is above 1.
    fn try_from(value: u32) -> Result<PinningType, PinningError> {
        match value {
            0 => Ok(PinningType::None),
            1 => Ok(PinningType::ByName),
            _ => Err(PinningError::Unsupported {
                pinning_type: value,
            }),
        }
    }
}
