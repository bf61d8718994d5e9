//! The refusals of completing maps, by their numbers.

ghost use Rattle.std.specs.Prelude.{◌≡◌, ◌<◌};
ghost use Rattle.capi_rows.specs.BtfMaps.{btf_map_refusal};

use crate::codes::MEMORY;
use crate::faults::file_fault;
use crate::refusal::{Details, Refusal};
use ebpf_btf_maps::BtfMapError;

/// The refusal for an error of completing maps, about the map.
pub fn btf_map_refusal(error: BtfMapError) -> Refusal
    ensures refusal { result ≡ btf_map_refusal error }
    ensures refuses { 0 < result.number }
{
    let none = Details::none();
    match error {
        BtfMapError::ElfError(error) => Refusal::plain(1100 + file_fault(error)),
        BtfMapError::UnknownPinning { map, number } => Refusal::named_detailed(
            1120,
            map,
            none.of_kind(number),
        ),
        BtfMapError::SecondArena { map } => Refusal::with_name(1121, map),
        BtfMapError::NoArena => Refusal::plain(1122),
        BtfMapError::ArenaTooSmall { map, size, .. } => Refusal::named_detailed(
            1123,
            map,
            none.of_size(size as u64),
        ),
        BtfMapError::OutOfMemory => Refusal::plain(MEMORY),
    }
}
