//! The buffers of a caller: lists as C reads them, and what is told of refusals beside them.

ghost use Rattle.std.specs.Prelude.{◌≡◌, ◌++◌, ℕ, List, [], ◌∷◌, IfOk, OnOk, length, ◌≤◌, Ok, Err, drop, ◌==◌, if◌then◌else◌, unwrap_or};
ghost use Rattle.std.specs.FinMap.{entries};
ghost use Rattle.capi_rows.specs.Listings.{zero_terminated, listed_by};
ghost use Rattle.capi_rows.specs.Answers.{FillsList, FillsListing, or_memory, found_list, told_listing, LeavesList, LeavesListing, LeavesValue, plain_row};

use crate::codes::{DONE, MEMORY, ROOM, flag};
use crate::entries::{Entry, entries_of};
use crate::refusal::{Details, Refusal, ebpf_refusal, refusal_row, tell};
use ebpf_base::{ByName, Items};
use std::alloc::{AllocError, Global};

/// What C reads of things `V` that stand in a `C`: rows for each, and the names that these point to.
pub trait RowFrom<V, C>: Copy {
    /// The rows of a thing whose names begin at an offset of the text.
    ghost rows_of: { C → V → ℕ → List Self };

    /// Its names, a zero byte behind each.
    ghost text_of: { C → V → List ℕ };

    /// Adds the rows and the names of a thing.
    fn add(listing: &mut Listing<Self>, context: &C, value: &V) -> Result<(), AllocError>
        ensures rows { OnOk result
            (listing.new.rows.items
            ≡ listing.old.rows.items
            ++ rows_of context.now value.now (length listing.old.text.items)) }
        ensures text { OnOk result
            (listing.new.text.items
            ≡ listing.old.text.items ++ text_of context.now value.now) };
}

/// Rows, and the text with their names.
#[derive(Drop)]
pub struct Listing<R> {
    pub rows: Vec<R>,
    pub text: Vec<u8>,
}

/// Adds a name and its zero byte.
pub fn add_name(text: &mut Vec<u8>, name: &str) -> Result<(), AllocError>
    ensures { OnOk result (text.new.items ≡ text.old.items ++ zero_terminated name.now) }
{
    text.extend_from_slice(name.as_bytes())?;
    text.push(0)?;
    Ok(())
}

/// Adds a row, and the name that it points to.
pub fn add_row<R: Copy>(listing: &mut Listing<R>, row: R, name: &str) -> Result<(), AllocError>
    ensures rows { OnOk result (listing.new.rows.items ≡ listing.old.rows.items ++ row ∷ []) }
    ensures text { OnOk result
        (listing.new.text.items ≡ listing.old.text.items ++ zero_terminated name.now) }
{
    listing.rows.push(row)?;
    add_name(&mut listing.text, name)?;
    Ok(())
}

/// The rows and the names of things, in their order.
#[tactic(auto, using(crate::proofs::Fills::one_row, crate::proofs::Fills::one_text, ebpf_base::proofs::Lists::rest_none))]
pub fn list_all<V, C, R: RowFrom<V, C>>(
    alloc: Global,
    context: &C,
    values: &[V],
) -> Result<Listing<R>, AllocError>
    ensures { IfOk result (λ l.
        (l.rows.items, l.text.items)
        ≡ listed_by (R.rows_of context.now) (R.text_of context.now) values.now) }
{
    let mut listing = Listing {
        rows: Vec::new(alloc),
        text: Vec::new(alloc),
    };
    for value in values {
        R::add(&mut listing, context, value)?;
    }
    Ok(listing)
}

/// How many rows there are, and how many bytes their text has.
#[repr(C)]
#[derive(Clone, Copy)]
pub struct ebpf_counts {
    pub rows: usize,
    pub text: usize,
}

/// Copies a list to the front of a buffer.
fn copy_front<T: Copy>(from: &[T], out: &mut [T])
    requires { length from.now ≤ length out.old }
    ensures { out.new ≡ from.now ++ drop (length from.now) out.old }
{
    out[..from.len()].copy_from_slice(from);
}

/// Writes a list to the front of a buffer where it fits, and how many values it has. A number of a refusal is answered,
/// and nothing is written.
pub fn write_list<T: Copy>(found: Result<&[T], u32>, out: &mut [T], count: &mut usize) -> u32
    ensures { FillsList (found_list found.entry) result out.old out.new count.old count.new }
{
    let list = match found {
        Ok(list) => list,
        Err(number) => return number,
    };
    *count = list.len();
    if out.len() < list.len() {
        return ROOM;
    }
    copy_front(list, out);
    DONE
}

/// Writes rows and their text to the front of two buffers where both fit, and how much they are.
pub fn write_listing<R: Copy>(
    listing: Listing<R>,
    rows: &mut [R],
    text: &mut [u8],
    counts: &mut ebpf_counts,
) -> u32
    ensures { FillsListing (Ok (listing.rows.items, listing.text.items)) result rows.old rows.new
        text.old text.new counts.old counts.new }
{
    *counts = ebpf_counts {
        rows: listing.rows.len(),
        text: listing.text.len(),
    };
    if rows.len() < listing.rows.len() || text.len() < listing.text.len() {
        return ROOM;
    }
    copy_front(&listing.rows, rows);
    copy_front(&listing.text, text);
    DONE
}

/// The rows and the names of all things of a map, in byte order of the names.
fn list_named<'a, V, C, R: RowFrom<Entry<'a, V>, C>>(
    alloc: Global,
    context: &C,
    values: &'a ByName<V>,
) -> Result<Listing<R>, AllocError>
    ensures { IfOk result (λ l.
        (l.rows.items, l.text.items)
        ≡ listed_by (R.rows_of context.now) (R.text_of context.now) (entries values.now)) }
{
    let entries = entries_of(alloc, values)?;
    let listing = list_all(alloc, context, &entries)?;
    Ok(listing)
}

/// Writes the rows and the names of all things of a map to the front of two buffers, in byte order of the names, and how
/// much they are. `DONE`: they are there. `ROOM`: one of them doesn't fit, and both buffers stay. `MEMORY`: memory was
/// refused, and all stays.
pub fn write_all<'a, V, C, R: RowFrom<Entry<'a, V>, C>>(
    alloc: Global,
    context: &C,
    values: &'a ByName<V>,
    rows: &mut [R],
    text: &mut [u8],
    counts: &mut ebpf_counts,
) -> u32
    ensures { FillsListing
        (or_memory result
        (Ok
        (listed_by (R.rows_of context.now) (R.text_of context.now)
        (entries values.now)))) result rows.old rows.new text.old text.new
        counts.old counts.new }
{
    match list_named(alloc, context, values) {
        Ok(listing) => write_listing(listing, rows, text, counts),
        Err(_) => MEMORY,
    }
}

/// The number of an answer. Where it says that there is no room, C is told that this is about nothing.
pub fn without_name(number: u32, report: &mut ebpf_refusal) -> u32
    ensures number { result ≡ number }
    ensures report { report.new ≡ (if number == ROOM then plain_row ROOM else report.old) }
{
    if number == ROOM {
        *report = refusal_row(ROOM, &Details::none(), 0);
    }
    number
}

/// Writes items to the front of a buffer where they fit, and how many they are; or tells C why there are none.
pub fn tell_items<T: Copy>(
    found: Result<Items<T>, Refusal>,
    out: &mut [T],
    count: &mut usize,
    about: &mut [u8],
    report: &mut ebpf_refusal,
) -> u32
    ensures { LeavesList found result out.old out.new count.old count.new about.old about.new
        report.old report.new }
{
    match found {
        Ok(items) => {
            let number = write_list(Ok(items.as_slice()), out, count);
            without_name(number, report)
        }
        Err(refusal) => tell(&refusal, about, report),
    }
}

/// Writes rows and their text to the front of two buffers where both fit, and how much they are; or tells C why there are
/// none.
pub fn tell_listing<R: Copy>(
    found: Result<Listing<R>, Refusal>,
    rows: &mut [R],
    text: &mut [u8],
    counts: &mut ebpf_counts,
    about: &mut [u8],
    report: &mut ebpf_refusal,
) -> u32
    ensures { LeavesListing (told_listing found) result rows.old rows.new text.old text.new
        counts.old counts.new about.old about.new report.old report.new }
{
    match found {
        Ok(listing) => {
            let number = write_listing(listing, rows, text, counts);
            without_name(number, report)
        }
        Err(refusal) => tell(&refusal, about, report),
    }
}

/// The bytes, none where there are none.
fn or_empty(alloc: Global, value: Option<Items<u8>>) -> Items<u8>
    ensures { result ≡ unwrap_or value [] }
{
    match value {
        Some(bytes) => bytes,
        None => Items::new(alloc),
    }
}

/// Writes bytes that may be none, as `tell_items` does, and whether there are any: 1 or 0.
pub fn tell_value(
    alloc: Global,
    found: Result<Option<Items<u8>>, Refusal>,
    out: &mut [u8],
    count: &mut usize,
    is_found: &mut u32,
    about: &mut [u8],
    report: &mut ebpf_refusal,
) -> u32
    ensures { LeavesValue found result out.old out.new count.old count.new is_found.old is_found.new
        about.old about.new report.old report.new }
{
    match found {
        Ok(value) => {
            *is_found = flag(value.is_some());
            tell_items(Ok(or_empty(alloc, value)), out, count, about, report)
        }
        Err(refusal) => tell_items(Err(refusal), out, count, about, report),
    }
}
