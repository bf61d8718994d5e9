//! The names of numbers.

ghost use Rattle.std.specs.Prelude.{◌++◌, Ok, ◌≡◌};
ghost use Rattle.std_alloc.specs.Box.Ownership.{box_owns};
ghost use Rattle.capi_rows.specs.Answers.{FillsList};
ghost use Rattle.capi_rows.specs.NumberNames.{number_name};

use capi_rows::codes::{DONE, ROOM, name_of};
use std::alloc::Allocator;
use std::marker::Model;

/// Writes two lists, one after the other, to the front of a buffer where they fit, and how much they are.
fn write_both(first: &[u8], second: &[u8], out: &mut [u8], count: &mut usize) -> u32
    ensures { FillsList (Ok (first.now ++ second.now)) result out.old out.new count.old count.new }
{
    let all = first.len().saturating_add(second.len());
    *count = all;
    if out.len() < all {
        return ROOM;
    }
    out[..first.len()].copy_from_slice(first);
    out[first.len()..all].copy_from_slice(second);
    DONE
}

/// Writes the name of a number, as `parse: BadMagic`: the stage and the fault. Each number of a stage and a fault that
/// can be its has one, whether a call answers it or not; of every other number it is empty. No name has more than 64 bytes.
///
/// # Answers
///
/// 0; 1 where it doesn't fit.
#[unsafe(no_mangle)]
pub extern "C" fn exact_ebpf_number_name(number: u32, text: &mut [u8], len: &mut usize) -> u32
    ensures { FillsList (Ok (number_name number)) result text.old text.new len.old len.new }
{
    let (stage, fault) = name_of(number);
    write_both(stage.as_bytes(), fault.as_bytes(), text, len)
}

/// A box taken apart: the pointer, which owns what the box owned, and what frees it.
pub struct Loose<T, A: Allocator> {
    pub at: *mut T,
    pub alloc: A,
    pub ghost value: { T },
}

impl<T, A: Allocator> Model for Loose<T, A> {
    ghost also_owns = { λ l. box_owns (A.dealloc_token l.alloc) T.row l.at l.value };
}

impl<T: Drop, A: Allocator> Loose<T, A> {
    /// Takes a box apart.
    pub fn of(owner: Box<T, A>) -> Loose<T, A>
        ensures { result.value ≡ owner.value }
    {
        let (at, alloc) = Box::into_raw_with_allocator(owner);
        Loose { at, alloc }
    }

    /// Makes the box again.
    pub fn into_box(self) -> Box<T, A>
        ensures { result.value ≡ self.value }
    {
        let Loose { at, alloc } = self;
        unsafe { Box::from_raw(alloc, at) }
    }
}
