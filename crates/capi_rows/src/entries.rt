//! Things with their names, in the order of the names: as C reads externs and sections.

ghost use Rattle.std.specs.Prelude.{◌≡◌, IfOk, ◌∷◌, []};
ghost use Rattle.std.specs.FinMap.{entries};
ghost use Rattle.capi_rows.specs.Listings.{value_by_bytes, extern_row, section_row, zero_terminated};
ghost use Rattle.std.specs.Option.{option_copied};

use crate::buffers::{Listing, RowFrom, add_row};
use crate::codes::flag;
use ebpf_base::ByName;
use ebpf_elf::SectionIndex;
use ebpf_model::ExternDesc;
use std::alloc::{AllocError, Global};
use std::marker::Model;

/// A thing and its name, lent.
#[derive(Drop)]
pub struct Entry<'a, V> {
    /// The name.
    pub name: &'a str,
    /// The thing.
    pub value: &'a V,
}

impl<'a, V> Model for Entry<'a, V> {
    ghost use Rattle.std.specs.Prelude.{ℕ, List};
    ghost use Rattle.std.specs.Coded.{coded×};
    ghost use Rattle.ebpf_base.specs.Maps.{coded_text};

    ghost Value = { List ℕ × V };

    ghost coded = { coded× coded_text V.code };

    ghost view = { λ e. (e.name.now, e.value.now) };
}

/// The things in the order of the bytes of their names.
pub fn entries_of<V>(alloc: Global, values: &ByName<V>) -> Result<Vec<Entry<'_, V>>, AllocError>
    ensures { IfOk result (λ all. all.items ≡ entries values.now) }
{
    let mut all = Vec::with_capacity(alloc, values.len())?;
    for (name, value) in values.iter() {
        all.push(Entry {
            name: name.as_str(),
            value,
        })?;
    }
    Ok(all)
}

/// The thing that some bytes name. Bytes that are no text name none.
pub fn value_by_bytes<'a, V>(values: &'a ByName<V>, name: &[u8]) -> Option<&'a V>
    ensures { option_copied result ≡ value_by_bytes values.now name.now }
{
    match str::from_utf8(name) {
        Ok(name) => values.get(name),
        Err(_) => None,
    }
}

/// An extern. Flags are 1 or 0.
#[repr(C)]
#[derive(Clone, Copy)]
pub struct ebpf_extern {
    /// Where its name begins in the text.
    pub name_at: usize,
    /// How many bytes its name has.
    pub name_len: usize,
    /// Its address in the kernel, 0 where it is not known.
    pub address: u64,
    /// The id of its type in the object.
    pub type_id: u32,
    /// The id of its type in the kernel, 0 where it is not known.
    pub kernel_type_id: u32,
    /// Whether the kernel's type is compared with its own.
    pub is_typed: u32,
    /// Whether it may stay unresolved.
    pub is_weak: u32,
    /// Whether the kernel has it.
    pub is_resolved: u32,
    /// Whether its address is known.
    pub has_address: u32,
}

impl<'a> RowFrom<Entry<'a, ExternDesc>, ()> for ebpf_extern {
    ghost rows_of = { λ _ e name_at. extern_row e.0 e.1 name_at ∷ [] };

    ghost text_of = { λ _ e. zero_terminated e.0 };

    fn add(
        listing: &mut Listing<ebpf_extern>,
        _context: &(),
        value: &Entry<'a, ExternDesc>,
    ) -> Result<(), AllocError> {
        let found = value.value;
        let row = ebpf_extern {
            name_at: listing.text.len(),
            name_len: value.name.len(),
            address: found.ksym_addr.unwrap_or(0),
            type_id: found.btf_id,
            kernel_type_id: found.kernel_btf_id.unwrap_or(0),
            is_typed: flag(found.is_typed),
            is_weak: flag(found.is_weak),
            is_resolved: flag(found.is_resolved),
            has_address: flag(found.ksym_addr.is_some()),
        };
        add_row(listing, row, value.name)
    }
}

/// A section.
#[repr(C)]
#[derive(Clone, Copy)]
pub struct ebpf_section {
    /// Where its name begins in the text.
    pub name_at: usize,
    /// How many bytes its name has.
    pub name_len: usize,
    /// Its index.
    pub number: usize,
}

impl<'a> RowFrom<Entry<'a, SectionIndex>, ()> for ebpf_section {
    ghost rows_of = { λ _ e name_at. section_row e.0 e.1 name_at ∷ [] };

    ghost text_of = { λ _ e. zero_terminated e.0 };

    fn add(
        listing: &mut Listing<ebpf_section>,
        _context: &(),
        value: &Entry<'a, SectionIndex>,
    ) -> Result<(), AllocError> {
        let row = ebpf_section {
            name_at: listing.text.len(),
            name_len: value.name.len(),
            number: value.value.0,
        };
        add_row(listing, row, value.name)
    }
}
