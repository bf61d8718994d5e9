//! The func info or line info records of a section, by the slots that they name.
//!
//! Records in the order of their slots are used as they are. Functions are asked for in that order, so the records of the
//! next function mostly begin where those of the last one ended: that index is tried first, before a binary search. For
//! records in another order the indices are sorted once by their slots.

ghost use Rattle.std.proofs.Common.{ap};
ghost use Rattle.std.proofs.Math.Nat.{sub-zero};
ghost use Rattle.std.specs.Bool.{OnTrue};
ghost use Rattle.std.specs.List.{All};
ghost use Rattle.std.specs.List.Sorted.{IsNonDecreasingBy, IsPermutation, IsSorted};
ghost use Rattle.std.specs.Ordering.{nat_cmp};
ghost use Rattle.std.specs.Prelude.{◌≡◌, ◌+◌, ◌-◌, ◌<◌, ◌≤◌, ℕ, filter, length, slice_index_or, IfOk, IfErr, true, map, List, None, Some};
ghost use Rattle.ebpf_parts.specs.Memory.{is_parse_memory};
ghost use Rattle.ebpf_sections.specs.Records.{RowsBeginAt, is_among_slots, rises_from, slot_at, is_at_slot, is_slot_among, indices_with, func_from, line_from, slot_of_func, slot_of_line};
ghost use Rattle.ebpf_sections.specs.declared.info_records.RecordIndex.{RecordIndex};

use ebpf_base::Items;
use ebpf_btf_ext::{bpf_func_info, bpf_line_info};
use ebpf_parts::ParseError;
use std::alloc::Global;
use std::cell::Cell;
use std::marker::Model;

/// A row that names a slot.
pub trait NamesSlot {
    /// The slot that a row names.
    ghost slot_of: { Self → ℕ };

    /// The slot that a row names.
    fn slot(&self) -> u32
        ensures { result ≡ slot_of self.now };
}

/// Whether rows are in the order of their slots.
pub fn is_in_order<R: NamesSlot>(rows: &[R]) -> bool
    ensures { result ≡ rises_from R.slot_of 0 rows.now }
{
    let mut last = 0;
    for row in rows {
        if row.slot() < last {
            return false;
        }
        last = row.slot();
    }
    true
}

/// Returns the number of rows before those of a slot, by a binary search.
pub fn lower_bound<R: NamesSlot>(rows: &[R], slot: u128) -> usize
    requires { IsNonDecreasingBy R.slot_of rows.now }
    ensures within { result ≤ length rows.now }
    ensures cut { RowsBeginAt R.slot_of slot rows.now result }
{
    rows.partition_point(|row| u128::from(row.slot()) < slot)
}

/// Whether the row before an index names a lower slot than one, where there is a row.
fn ends_below<R: NamesSlot>(rows: &[R], index: usize, slot: usize) -> bool
    requires { index ≤ length rows.now }
    ensures { OnTrue result
        ((d : R) → 0 < index → R.slot_of (slice_index_or rows.now (index - 1) d) < slot) }
{
    if index == 0 {
        return true;
    }
    (rows[index - 1].slot() as usize) < slot
}

/// Whether the row at an index names no lower slot than one, where there is a row.
fn begins_above<R: NamesSlot>(rows: &[R], index: usize, slot: usize) -> bool
    ensures { OnTrue result
        ((d : R)
        → index < length rows.now
        → slot ≤ R.slot_of (slice_index_or rows.now index d)) }
{
    if index >= rows.len() {
        return true;
    }
    rows[index].slot() as usize >= slot
}

/// Whether the rows before an index name lower slots than one, and those from there on don't.
fn begins_at<R: NamesSlot>(rows: &[R], index: usize, slot: usize) -> bool
    requires { IsNonDecreasingBy R.slot_of rows.now }
    ensures within { OnTrue result (index ≤ length rows.now) }
    ensures cut { OnTrue result (RowsBeginAt R.slot_of slot rows.now index) }
{
    if index > rows.len() {
        return false;
    }
    if !ends_below(rows, index, slot) {
        return false;
    }
    if !begins_above(rows, index, slot) {
        return false;
    }
    true
}

/// The number of rows before those of a slot, where `guess` is tried first.
fn start_of<R: NamesSlot>(rows: &[R], guess: usize, slot: usize) -> usize
    requires { IsNonDecreasingBy R.slot_of rows.now }
    ensures within { result ≤ length rows.now }
    ensures cut { RowsBeginAt R.slot_of slot rows.now result }
{
    if begins_at(rows, guess, slot) {
        return guess;
    }
    lower_bound(rows, slot as u128)
}

/// The number of rows before those of the slot `limit`, by a walk from `start`, where the rows of a lower slot begin.
fn end_of<R: NamesSlot>(rows: &[R], start: usize, limit: u128) -> usize
    requires rising { IsNonDecreasingBy R.slot_of rows.now }
    requires within { start ≤ length rows.now }
    requires below { (k : ℕ) (d : R) → k < start → R.slot_of (slice_index_or rows.now k d) < limit }
    ensures further { start ≤ result }
    ensures within { result ≤ length rows.now }
    ensures cut { RowsBeginAt R.slot_of limit rows.now result }
{
    let mut end = start;
    while end < rows.len() && u128::from(rows[end].slot()) < limit {
        end += 1;
    }
    end
}

/// The rows of `count` slots from a slot on. `next` is the index where the rows may begin, and becomes the index behind them.
pub fn rows_among<'r, R: NamesSlot>(
    rows: &'r [R],
    next: &Cell<usize>,
    first: usize,
    count: usize,
) -> &'r [R]
    requires { IsNonDecreasingBy R.slot_of rows.now }
    ensures { result.now ≡ filter (is_among_slots R.slot_of first count) rows.entry.now }
{
    let start = start_of(rows, next.get(), first);
    let end = end_of(rows, start, first as u128 + count as u128);
    next.set(end);
    &rows[start..end]
}

/// The index of a record in its list, and the slot that the record names.
#[derive(Clone, Copy)]
pub struct RecordIndex {
    pub slot: u32,
    pub index: usize,
}

impl NamesSlot for RecordIndex {
    ghost slot_of = { λ p. p.slot };

    fn slot(&self) -> u32 {
        self.slot
    }
}

/// The indices of records in the order of their slots, those of one slot in the order of the list.
#[derive(Drop)]
pub struct RecordsBySlot {
    indices: Vec<RecordIndex>,
    next: Cell<usize>,
    ghost rising: { IsNonDecreasingBy (λ p. p.slot) indices.items },
}

impl Model for RecordsBySlot {
    ghost use Rattle.std.specs.Prelude.{List};
    ghost use Rattle.ebpf_sections.specs.declared.info_records.RecordIndex.{RecordIndex};

    ghost Value = { List RecordIndex };

    ghost view = { λ s. s.indices.items };
}

impl RecordsBySlot {
    /// Indices, sorted by their slots.
    pub fn from_indices(mut indices: Vec<RecordIndex>) -> Result<RecordsBySlot, ParseError>
        ensures grouped { IfOk result (λ s.
            (q : ℕ) → filter (is_at_slot q) s ≡ filter (is_at_slot q) indices.items) }
        ensures memory { IfErr result (λ e. is_parse_memory e ≡ true) }
    {
        indices.sort_by_key(|index| index.slot)?;
        let next = Cell::new(0);
        Ok(RecordsBySlot { indices, next })
    }

    /// The indices of the records at `count` slots from a slot on, in the order of the list.
    pub fn within(
        &self,
        alloc: Global,
        first: usize,
        count: usize,
    ) -> Result<Vec<usize>, ParseError>
        ensures moved { IfOk result (λ indices.
            IsPermutation (map (λ p. p.index) (filter (is_slot_among first count) self.now))
            indices.items) }
        ensures sorted { IfOk result (λ indices. IsSorted nat_cmp indices.items) }
        ensures memory { IfErr result (λ e. is_parse_memory e ≡ true) }
    {
        let among = rows_among(self.indices.as_slice(), &self.next, first, count);
        let mut indices = indices_of(alloc, among)?;
        indices.sort_unstable();
        Ok(indices)
    }
}

/// The indices of some records.
fn indices_of(alloc: Global, indices: &[RecordIndex]) -> Result<Vec<usize>, ParseError>
    ensures numbers { IfOk result (λ numbers. numbers.items ≡ map (λ p. p.index) indices.now) }
    ensures memory { IfErr result (λ e. is_parse_memory e ≡ true) }
{
    let mut numbers = Vec::with_capacity(alloc, indices.len())?;
    for index in indices {
        numbers.push(index.index)?;
    }
    Ok(numbers)
}

/// The indices of records, each with the slot that the record names.
#[tactic(auto, using(crate::proofs::Records::indices_start, crate::proofs::Records::indices_none))]
pub fn slot_indices<R: InfoRecord>(
    alloc: Global,
    records: &[R],
) -> Result<Vec<RecordIndex>, ParseError>
    ensures indices { IfOk result (λ indices.
        indices.items
        ≡ indices_with (slot_at R.slot_of R.zero records.now) (length records.now)) }
    ensures memory { IfErr result (λ e. is_parse_memory e ≡ true) }
{
    let mut indices = Vec::with_capacity(alloc, records.len())?;
    for (index, row) in records.iter().enumerate() {
        let slot = row.slot();
        indices.push(RecordIndex { slot, index })?;
    }
    Ok(indices)
}

/// A func info or line info record.
pub trait InfoRecord: NamesSlot + Copy {
    /// The record past the end of a list.
    ghost zero: { Self };

    /// The record, its slot counted from a base.
    ghost rebase: { ℕ → Self → Self };

    /// The record, its slot counted from `base`.
    fn rebase(&self, base: usize) -> Self
        ensures { result ≡ rebase base self.now };

    /// A record counted from slot 0 is unchanged.
    ghost from_zero: { (row : Self) → rebase 0 row ≡ row };
}

impl NamesSlot for bpf_func_info {
    ghost slot_of = { slot_of_func };

    fn slot(&self) -> u32 {
        self.insn_off
    }
}

impl NamesSlot for bpf_line_info {
    ghost slot_of = { slot_of_line };

    fn slot(&self) -> u32 {
        self.insn_off
    }
}

impl InfoRecord for bpf_func_info {
    ghost zero = { record { insn_off = 0; type_id = 0 } };

    ghost rebase = { func_from };

    ghost from_zero = { λ row. ap (λ n. record row { insn_off = n }) (sub-zero row.insn_off) };

    fn rebase(&self, base: usize) -> bpf_func_info
        ensures { result ≡ func_from base self.now }
    {
        bpf_func_info {
            insn_off: (self.insn_off as usize).saturating_sub(base) as u32,
            type_id: self.type_id,
        }
    }
}

impl InfoRecord for bpf_line_info {
    ghost zero = { record { insn_off = 0; file_name_off = 0; line_off = 0; line_col = 0 } };

    ghost rebase = { line_from };

    ghost from_zero = { λ row. ap (λ n. record row { insn_off = n }) (sub-zero row.insn_off) };

    fn rebase(&self, base: usize) -> bpf_line_info
        ensures { result ≡ line_from base self.now }
    {
        bpf_line_info {
            insn_off: (self.insn_off as usize).saturating_sub(base) as u32,
            file_name_off: self.file_name_off,
            line_off: self.line_off,
            line_col: self.line_col,
        }
    }
}

/// The records of a section, lent. Indices are gathered only if the records are not in the order of their slots.
#[derive(Drop)]
pub struct InfoRecords<'e, R: InfoRecord> {
    records: &'e [R],
    next: Cell<usize>,
    indices: Option<RecordsBySlot>,
    ghost rising: { indices ≡ None → IsNonDecreasingBy R.slot_of records.now },
    ghost grouped: { (gathered : List RecordIndex)
        → indices ≡ Some gathered
        → (q : ℕ)
        → filter (is_at_slot q) gathered
        ≡ filter (is_at_slot q)
        (indices_with (slot_at R.slot_of R.zero records.now) (length records.now)) },
}

impl<'e, R: InfoRecord> Model for InfoRecords<'e, R> {
    ghost use Rattle.std.specs.Prelude.{List};

    ghost Value = { List R };

    ghost view = { λ r. r.records.now };
}

impl<'e, R: InfoRecord> InfoRecords<'e, R> {
    /// The records of a list.
    pub fn new(alloc: Global, records: &'e [R]) -> Result<InfoRecords<'e, R>, ParseError>
        ensures records { IfOk result (λ r. r ≡ records.now) }
        ensures memory { IfErr result (λ e. is_parse_memory e ≡ true) }
    {
        let next = Cell::new(0);
        if is_in_order(records) {
            return Ok(InfoRecords {
                records,
                next,
                indices: None,
            });
        }
        let indices = RecordsBySlot::from_indices(slot_indices(alloc, records)?)?;
        Ok(InfoRecords {
            records,
            next,
            indices: Some(indices),
        })
    }

    /// The records of `count` slots from a slot on, their slots counted from `base`.
    pub fn records_among(
        &self,
        alloc: Global,
        first: usize,
        count: usize,
        base: usize,
    ) -> Result<Items<R>, ParseError>
        ensures records { IfOk result (λ kept.
            kept
            ≡ map (R.rebase base) (filter (is_among_slots R.slot_of first count) self.now)) }
        ensures memory { IfErr result (λ e. is_parse_memory e ≡ true) }
    {
        let Some(indices) = &self.indices else {
            let among = rows_among(self.records, &self.next, first, count);
            return rebase_all(alloc, among, base);
        };
        let indices = indices.within(alloc, first, count)?;
        let kept = rebase_at(alloc, self.records, &indices, base)?;
        Ok(kept)
    }
}

/// A copy of records, their slots counted from `base`.
#[tactic(auto, using(crate::proofs::Records::records_kept))]
fn rebase_all<R: InfoRecord>(alloc: Global, rows: &[R], base: usize) -> Result<Items<R>, ParseError>
    ensures records { IfOk result (λ kept. kept ≡ map (R.rebase base) rows.now) }
    ensures memory { IfErr result (λ e. is_parse_memory e ≡ true) }
{
    if base == 0 {
        return Ok(Items::from_vec(Vec::from_slice(alloc, rows)?));
    }
    let mut kept = Vec::with_capacity(alloc, rows.len())?;
    for row in rows {
        kept.push(row.rebase(base))?;
    }
    Ok(Items::from_vec(kept))
}

/// The records at some indices, their slots counted from `base`.
fn rebase_at<R: InfoRecord>(
    alloc: Global,
    rows: &[R],
    indices: &[usize],
    base: usize,
) -> Result<Items<R>, ParseError>
    requires { All (λ i. i < length rows.now) indices.now }
    ensures records { IfOk result (λ kept.
        kept ≡ map (λ i. R.rebase base (slice_index_or rows.now i R.zero)) indices.now) }
    ensures memory { IfErr result (λ e. is_parse_memory e ≡ true) }
{
    let mut kept = Vec::with_capacity(alloc, indices.len())?;
    for index in indices {
        kept.push(rows[*index].rebase(base))?;
    }
    Ok(Items::from_vec(kept))
}
