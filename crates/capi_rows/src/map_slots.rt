//! Slots that refer to a map without a descriptor, as C reads them.

ghost use Rattle.std.specs.Prelude.{◌≡◌, ◌∷◌, [], IfOk};
ghost use Rattle.capi_rows.specs.Descriptors.{descriptors_in};
ghost use Rattle.capi_rows.specs.Listings.{zero_terminated};
ghost use Rattle.capi_rows.specs.MapSlots.{map_slot_row, slots_without_descriptors};
ghost use Rattle.ebpf_object.specs.Stages.{maps_without_descriptors};

use crate::buffers::{Listing, RowFrom, add_row, list_all};
use crate::reads::{descriptors_in, ebpf_descriptor};
use ebpf_base::Items;
use ebpf_object::Object;
use ebpf_reloc::NamedSlot;
use std::alloc::{AllocError, Global};

/// A slot that refers to a map.
#[repr(C)]
#[derive(Clone, Copy)]
pub struct ebpf_map_slot {
    /// Where the map's name begins in the text.
    pub name_at: usize,
    /// How many bytes its name has.
    pub name_len: usize,
    /// The index of the section of the slot's function.
    pub section: usize,
    /// The function's address there.
    pub address: u64,
    /// The number of the slot in the function.
    pub slot: usize,
}

impl RowFrom<NamedSlot, ()> for ebpf_map_slot {
    ghost rows_of = { λ _ s name_at. map_slot_row s name_at ∷ [] };

    ghost text_of = { λ _ s. zero_terminated s.name };

    fn add(
        listing: &mut Listing<ebpf_map_slot>,
        _context: &(),
        value: &NamedSlot,
    ) -> Result<(), AllocError> {
        let row = ebpf_map_slot {
            name_at: listing.text.len(),
            name_len: value.name.len(),
            section: value.key.0,
            address: value.key.1,
            slot: value.slot,
        };
        add_row(listing, row, value.name.as_str())
    }
}

/// The slots whose own map none of the rows of descriptors names. A row that names no map is passed over.
fn slots_without(
    alloc: Global,
    object: &Object,
    rows: &[ebpf_descriptor],
    text: &[u8],
) -> Result<Items<NamedSlot>, AllocError>
    ensures { IfOk result (λ slots.
        slots ≡ maps_without_descriptors object.now (descriptors_in text.now rows.now)) }
{
    let descriptors = descriptors_in(alloc, rows, text)?;
    let slots = object.maps_without_descriptors(&descriptors)?;
    Ok(slots)
}

/// The rows of these slots.
pub fn slots_without_descriptors(
    alloc: Global,
    object: &Object,
    rows: &[ebpf_descriptor],
    text: &[u8],
) -> Result<Listing<ebpf_map_slot>, AllocError>
    ensures { IfOk result (λ l.
        (l.rows.items, l.text.items) ≡ slots_without_descriptors text.now rows.now object.now) }
{
    let slots = slots_without(alloc, object, rows, text)?;
    let listing = list_all(alloc, &(), slots.as_slice())?;
    Ok(listing)
}
