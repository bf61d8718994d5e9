//! Programs as C reads them.

ghost use Rattle.std.specs.Prelude.{◌≡◌, ◌∷◌, [], ◌+◌, length};
ghost use Rattle.std.specs.FinMap.{entries, get};
ghost use Rattle.capi_rows.specs.Listings.{zero_terminated};
ghost use Rattle.capi_rows.specs.InitialSlotRows.{names_program, slot_row, slot_text, target_name};
ghost use Rattle.capi_rows.specs.ProgramRows.{loading_of, name_of_section_number, program_row, slot_count};

use crate::buffers::{Listing, RowFrom, add_name, add_row};
use crate::codes::flag;
use crate::entries::Entry;
use crate::loading::{Loading, loaded_as, program_kind_number};
use ebpf_base::{ByKey, ByName};
use ebpf_elf::SectionIndex;
use ebpf_initial_slots::{InitialSlot, InitialTarget};
use ebpf_model::{Function, Program};
use ebpf_object::Object;
use ebpf_parts::programs::program_kind;
use std::alloc::AllocError;

/// A program.
#[repr(C)]
#[derive(Clone, Copy)]
pub struct ebpf_program {
    /// Where its name begins in the text.
    pub name_at: usize,
    /// How many bytes its name has.
    pub name_len: usize,
    /// The index of its section.
    pub section: usize,
    /// Its address, as its symbol states it.
    pub address: u64,
    /// How many slots it has.
    pub slots: usize,
    /// The number of its kind.
    pub kind: u32,
    /// Sleepable 1, multi 2, frags 4, target 8, optional 16, added up.
    pub flags: u32,
    /// The kernel's `enum bpf_prog_type`.
    pub program_type: u32,
    /// The kernel's `enum bpf_attach_type`, all ones where its section's name says none.
    pub attach_type: u32,
}

/// How many slots the function at a key has, 0 where there is none.
fn slot_count(functions: &ByKey<Function>, key: (usize, u64)) -> usize
    ensures { result ≡ slot_count (get functions.now key) }
{
    match functions.get(key) {
        Some(function) => function.instructions.len(),
        None => 0,
    }
}

/// The name of the section with an index, empty where no named one has it.
pub fn name_of_section(sections: &ByName<SectionIndex>, number: usize) -> &str
    ensures { result.now ≡ name_of_section_number (entries sections.now) number }
{
    for (name, section) in sections.iter() {
        if section.0 == number {
            return name.as_str();
        }
    }
    ""
}

/// How a program is loaded, by the name of its section and its kind.
fn loading_of(section_name: &str, program: &Program) -> Loading
    ensures { result ≡ loading_of section_name.now program.now }
{
    loaded_as(program_kind(section_name), program.section)
}

/// The row of a program of an object, whose name begins at an offset of the text.
pub fn program_row(object: &Object, name: &str, program: &Program, name_at: usize) -> ebpf_program
    ensures { result
        ≡ program_row object.now.functions (entries object.now.section_infos) name.now program.now
        name_at }
{
    let section_name = name_of_section(&object.section_infos, program.section_index);
    let loading = loading_of(section_name, program);
    ebpf_program {
        name_at,
        name_len: name.len(),
        section: program.section_index,
        address: program.address,
        slots: slot_count(&object.functions, program.function_key()),
        kind: program_kind_number(program.section),
        flags: loading.flags,
        program_type: loading.program_type,
        attach_type: loading.attach_type,
    }
}

impl<'a> RowFrom<Entry<'a, Program>, Object> for ebpf_program {
    ghost rows_of = { λ o e name_at.
        program_row o.functions (entries o.section_infos) e.0 e.1 name_at ∷ [] };

    ghost text_of = { λ _ e. zero_terminated e.0 };

    fn add(
        listing: &mut Listing<ebpf_program>,
        context: &Object,
        value: &Entry<'a, Program>,
    ) -> Result<(), AllocError> {
        let row = program_row(context, value.name, value.value, listing.text.len());
        add_row(listing, row, value.name)
    }
}

/// An initial value of a map of maps, or of an array of programs.
#[repr(C)]
#[derive(Clone, Copy)]
pub struct ebpf_initial_slot {
    /// Where the map's name begins in the text.
    pub name_at: usize,
    /// How many bytes it has.
    pub name_len: usize,
    /// Where the name of what stands there begins.
    pub target_at: usize,
    /// How many bytes that has.
    pub target_len: usize,
    /// Its index in the map.
    pub index: u32,
    /// 1 where a program stands there, 0 where a map does.
    pub is_program: u32,
}

/// The name of what stands in a slot.
fn target_name(target: &InitialTarget) -> &str
    ensures { result.now ≡ target_name target.now }
{
    match target {
        InitialTarget::Map(name) | InitialTarget::Program(name) => name.as_str(),
    }
}

/// Whether a program stands there.
fn names_program(target: &InitialTarget) -> bool
    ensures { result ≡ names_program target.now }
{
    match target {
        InitialTarget::Map(_) => false,
        InitialTarget::Program(_) => true,
    }
}

/// The row of a slot whose names begin at two offsets of the text.
fn slot_row(slot: &InitialSlot, name_at: usize, target_at: usize) -> ebpf_initial_slot
    ensures { result ≡ slot_row slot.now name_at target_at }
{
    ebpf_initial_slot {
        name_at,
        name_len: slot.map.len(),
        target_at,
        target_len: target_name(&slot.target).len(),
        index: slot.index,
        is_program: flag(names_program(&slot.target)),
    }
}

impl RowFrom<InitialSlot, ()> for ebpf_initial_slot {
    ghost rows_of = { λ _ s at. slot_row s at (at + length (zero_terminated s.map)) ∷ [] };

    ghost text_of = { λ _ s. slot_text s };

    fn add(
        listing: &mut Listing<ebpf_initial_slot>,
        _context: &(),
        value: &InitialSlot,
    ) -> Result<(), AllocError> {
        let name_at = listing.text.len();
        add_name(&mut listing.text, value.map.as_str())?;
        let target_at = listing.text.len();
        add_name(&mut listing.text, target_name(&value.target))?;
        listing.rows.push(slot_row(value, name_at, target_at))?;
        Ok(())
    }
}
