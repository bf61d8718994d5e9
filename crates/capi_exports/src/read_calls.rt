//! The calls that read what an object has.

ghost use Rattle.std.specs.Prelude.{◌≡◌, MatchOption};
ghost use Rattle.capi_exports.specs.PassOrder.{object_in};
ghost use Rattle.capi_rows.specs.Answers.{FillsList};
ghost use Rattle.capi_rows.specs.Refusals.{flag};
ghost use Rattle.capi_rows.specs.FileTypes.{info_of, states_license};
ghost use Rattle.capi_rows.specs.Reads.{read_func_infos, read_license, read_line_infos, read_map_data, of_open, read_section_name, read_slots};

use crate::handle::ebpf_handle;
use capi_rows::buffers::write_list;
use capi_rows::codes::{CLOSED, DONE, flag};
use capi_rows::info::{ebpf_object_info, info_of};
use capi_rows::reads::{
    read_func_infos, read_line_infos, read_map_data, read_section_name, read_slots,
};
use ebpf_btf_ext::{bpf_func_info, bpf_line_info};
use ebpf_object::Object;
use ebpf_parts::insn::bpf_insn;
use std::alloc::Global;

/// Says what an object is.
///
/// # Answers
///
/// 0; 3, and `info` is then as it was.
#[unsafe(no_mangle)]
pub extern "C" fn exact_ebpf_info(
    alloc: Global,
    handle: &mut ebpf_handle,
    info: &mut ebpf_object_info,
) -> u32
    ensures stays { handle.new.held ≡ handle.old.held }
    ensures info { MatchOption (object_in handle.old.held) ((result ≡ CLOSED) ×
        (info.new ≡ info.old)) (λ o.
        (result ≡ DONE) × (info.new ≡ info_of o)) }
{
    let Some(held) = handle.take(alloc) else {
        return CLOSED;
    };
    *info = info_of(&held.object);
    handle.put(alloc, held);
    DONE
}

/// Writes the license, without its zero byte, and its length.
///
/// # Answers
///
/// 0; 1 where it doesn't fit; 3. The buffer is then as it was, and `len` too but for 1.
#[unsafe(no_mangle)]
pub extern "C" fn exact_ebpf_license(
    alloc: Global,
    handle: &mut ebpf_handle,
    text: &mut [u8],
    len: &mut usize,
) -> u32
    ensures stays { handle.new.held ≡ handle.old.held }
    ensures fills { FillsList (of_open (read_license) (object_in handle.old.held)) result text.old
        text.new
        len.old len.new }
{
    let Some(held) = handle.take(alloc) else {
        return CLOSED;
    };
    let number = write_list(Ok(held.object.license.as_slice()), text, len);
    handle.put(alloc, held);
    number
}

/// Says whether the file states the license: 1 or 0. Else the license is the default.
///
/// # Answers
///
/// 0; 3, and `states` is then as it was.
#[unsafe(no_mangle)]
pub extern "C" fn exact_ebpf_states_license(
    alloc: Global,
    handle: &mut ebpf_handle,
    states: &mut u32,
) -> u32
    ensures stays { handle.new.held ≡ handle.old.held }
    ensures states { MatchOption (object_in handle.old.held)
        ((result ≡ CLOSED) × (states.new ≡ states.old))
        (λ o. (result ≡ DONE) × (states.new ≡ flag (states_license o))) }
{
    let Some(held) = handle.take(alloc) else {
        return CLOSED;
    };
    *states = flag(held.object.states_license());
    handle.put(alloc, held);
    DONE
}

/// Writes the name of a program's section, as `ebpf_program_section` does.
fn write_section(object: &Object, name: &[u8], text: &mut [u8], len: &mut usize) -> u32
    ensures { FillsList (read_section_name name.now object.now) result text.old text.new len.old
        len.new }
{
    write_list(read_section_name(object, name), text, len)
}

/// Writes the name of the section of the program with a name, and its length: 0 where no named section has the index of
/// the program's, as of two sections with one name the earlier one.
///
/// # Answers
///
/// 0; 1 where it doesn't fit; 3; 4. The buffer is then as it was, and `len` too but for 1.
#[unsafe(no_mangle)]
pub extern "C" fn exact_ebpf_program_section(
    alloc: Global,
    handle: &mut ebpf_handle,
    name: &[u8],
    text: &mut [u8],
    len: &mut usize,
) -> u32
    ensures stays { handle.new.held ≡ handle.old.held }
    ensures fills { FillsList
        (of_open (read_section_name name.now) (object_in handle.old.held)) result
        text.old text.new len.old len.new }
{
    let Some(held) = handle.take(alloc) else {
        return CLOSED;
    };
    let number = write_section(&held.object, name, text, len);
    handle.put(alloc, held);
    number
}

/// Writes the slots of the program with a name as they stand, and how many they are.
///
/// # Answers
///
/// 0; 1 where they don't fit; 3; 4. The buffer is then as it was, and `count` too but for 1.
#[unsafe(no_mangle)]
pub extern "C" fn exact_ebpf_slots(
    alloc: Global,
    handle: &mut ebpf_handle,
    name: &[u8],
    slots: &mut [bpf_insn],
    count: &mut usize,
) -> u32
    ensures stays { handle.new.held ≡ handle.old.held }
    ensures fills { FillsList (of_open (read_slots name.now) (object_in handle.old.held)) result
        slots.old
        slots.new count.old count.new }
{
    let Some(held) = handle.take(alloc) else {
        return CLOSED;
    };
    let number = write_list(read_slots(&held.object, name), slots, count);
    handle.put(alloc, held);
    number
}

/// Writes a program's func info, by slot, and how many records that are.
///
/// # Answers
///
/// 0; 1 where they don't fit; 3; 4. The buffer is then as it was, and `count` too but for 1.
#[unsafe(no_mangle)]
pub extern "C" fn exact_ebpf_func_infos(
    alloc: Global,
    handle: &mut ebpf_handle,
    name: &[u8],
    rows: &mut [bpf_func_info],
    count: &mut usize,
) -> u32
    ensures stays { handle.new.held ≡ handle.old.held }
    ensures fills { FillsList (of_open (read_func_infos name.now) (object_in handle.old.held))
        result rows.old
        rows.new count.old count.new }
{
    let Some(held) = handle.take(alloc) else {
        return CLOSED;
    };
    let number = write_list(read_func_infos(&held.object, name), rows, count);
    handle.put(alloc, held);
    number
}

/// Writes a program's line info, by slot, and how many records that are.
///
/// # Answers
///
/// 0; 1 where they don't fit; 3; 4. The buffer is then as it was, and `count` too but for 1.
#[unsafe(no_mangle)]
pub extern "C" fn exact_ebpf_line_infos(
    alloc: Global,
    handle: &mut ebpf_handle,
    name: &[u8],
    rows: &mut [bpf_line_info],
    count: &mut usize,
) -> u32
    ensures stays { handle.new.held ≡ handle.old.held }
    ensures fills { FillsList (of_open (read_line_infos name.now) (object_in handle.old.held))
        result rows.old
        rows.new count.old count.new }
{
    let Some(held) = handle.take(alloc) else {
        return CLOSED;
    };
    let number = write_list(read_line_infos(&held.object, name), rows, count);
    handle.put(alloc, held);
    number
}

/// Writes the data that the map with a name begins with, and its length.
///
/// # Answers
///
/// 0; 1 where it doesn't fit; 3; 5. The buffer is then as it was, and `len` too but for 1.
#[unsafe(no_mangle)]
pub extern "C" fn exact_ebpf_map_data(
    alloc: Global,
    handle: &mut ebpf_handle,
    name: &[u8],
    bytes: &mut [u8],
    len: &mut usize,
) -> u32
    ensures stays { handle.new.held ≡ handle.old.held }
    ensures fills { FillsList (of_open (read_map_data name.now) (object_in handle.old.held)) result
        bytes.old
        bytes.new len.old len.new }
{
    let Some(held) = handle.take(alloc) else {
        return CLOSED;
    };
    let number = write_list(read_map_data(&held.object, name), bytes, len);
    handle.put(alloc, held);
    number
}
