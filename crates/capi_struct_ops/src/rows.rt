//! Maps of struct_ops and their programs, as C reads them.

ghost use Rattle.std.specs.Prelude.{◌≡◌, ◌∷◌, []};
ghost use Rattle.capi_rows.specs.Listings.{zero_terminated};
ghost use Rattle.capi_struct_ops.specs.StructOps.{struct_ops_map_row, struct_ops_program_row};

use capi_rows::buffers::{Listing, RowFrom, add_row};
use capi_rows::codes::flag;
use ebpf_struct_ops::{StructOpsMap, StructOpsProgram};
use std::alloc::AllocError;

/// A map of struct_ops.
#[repr(C)]
#[derive(Clone, Copy)]
pub struct ebpf_struct_ops_map {
    /// Where its name begins in the text.
    pub name_at: usize,
    /// How many bytes its name has.
    pub name_len: usize,
    /// The size of its value in bytes.
    pub value_len: usize,
    /// How many programs its value holds.
    pub programs: usize,
    /// The id of the kernel's struct (`attach_btf_id` of its programs).
    pub struct_id: u32,
    /// The id of the kernel's STRUCT that is its value (`btf_vmlinux_value_type_id`).
    pub value_type_id: u32,
    /// 1 where a link attaches it (`BPF_F_LINK`), else 0.
    pub is_link: u32,
}

/// A program of a map of struct_ops.
#[repr(C)]
#[derive(Clone, Copy)]
pub struct ebpf_struct_ops_program {
    /// Where its name begins in the text.
    pub name_at: usize,
    /// How many bytes its name has.
    pub name_len: usize,
    /// The offset in the value at which its descriptor goes, in bytes.
    pub offset: u64,
    /// The index of its member in the kernel's struct (`expected_attach_type`).
    pub member: usize,
}

impl RowFrom<StructOpsMap, ()> for ebpf_struct_ops_map {
    ghost rows_of = { λ _ m name_at. struct_ops_map_row m name_at ∷ [] };

    ghost text_of = { λ _ m. zero_terminated m.name };

    fn add(
        listing: &mut Listing<ebpf_struct_ops_map>,
        _context: &(),
        value: &StructOpsMap,
    ) -> Result<(), AllocError> {
        let row = ebpf_struct_ops_map {
            name_at: listing.text.len(),
            name_len: value.name.len(),
            value_len: value.value.len(),
            programs: value.programs.len(),
            struct_id: value.struct_id,
            value_type_id: value.value_type_id,
            is_link: flag(value.is_link),
        };
        add_row(listing, row, value.name.as_str())
    }
}

impl RowFrom<StructOpsProgram, ()> for ebpf_struct_ops_program {
    ghost rows_of = { λ _ p name_at. struct_ops_program_row p name_at ∷ [] };

    ghost text_of = { λ _ p. zero_terminated p.program };

    fn add(
        listing: &mut Listing<ebpf_struct_ops_program>,
        _context: &(),
        value: &StructOpsProgram,
    ) -> Result<(), AllocError> {
        let row = ebpf_struct_ops_program {
            name_at: listing.text.len(),
            name_len: value.program.len(),
            offset: value.offset,
            member: value.member,
        };
        add_row(listing, row, value.program.as_str())
    }
}
