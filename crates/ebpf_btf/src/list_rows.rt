//! The rows of a type, borrowed as a list.

ghost use Rattle.std.specs.Prelude.{◌≡◌, ◌+◌, ◌*◌, ◌<◌, ◌≤◌, ◌^◌, ◌==◌, ◌++◌, ℕ, List, length, slice_get, slice_index_or, OnOk, Some};
ghost use Rattle.std.specs.Iterator.{YieldsFirst, item_count};
ghost use Rattle.ebpf_btf.specs.Items.{items_at};
ghost use Rattle.ebpf_base.specs.declared.endianness.Endianness.{Endianness};

use ebpf_base::Endianness;
use std::alloc::AllocError;
use std::fmt;
use std::marker::Model;

/// A member, variant, parameter or entry, which the words of a row hold.
pub trait ListRow {
    /// The size of a row in bytes.
    ghost SIZE: { ℕ };

    const SIZE: usize;

    /// The value in the bytes from an offset on.
    ghost row_at: { Endianness → List ℕ → ℕ → Self };

    /// The words of the row.
    ghost words: { Self → List ℕ };

    /// Returns the value of the row at an offset.
    fn read(order: Endianness, bytes: &[u8], offset: usize) -> Self
        requires { offset + SIZE ≤ length bytes.now }
        ensures { result ≡ row_at order bytes.now offset };

    /// Returns a copy of the row.
    fn duplicate(&self) -> Self
        ensures { result ≡ self.now };

    /// Appends the words of the row.
    ///
    /// # Errors
    ///
    /// - `AllocError`: out of memory.
    fn append_words(&self, out: &mut Vec<u32>) -> Result<(), AllocError>
        ensures { OnOk result (out.new.items ≡ out.old.items ++ words self.now) };
}

/// The rows of a type, borrowed from the bytes of `.BTF` or from a slice of rows. Contracts see the list.
#[derive(Drop)]
pub struct Rows<'a, R: ListRow> {
    bytes: &'a [u8],
    offset: u32,
    count: u32,
    order: Endianness,
    own: Option<&'a [R]>,
}

impl<'a, R: ListRow> Model for Rows<'a, R> {
    ghost use Rattle.std.specs.Prelude.{List, ◌+◌, ◌*◌, ◌≤◌, length, unwrap_or};
    ghost use Rattle.std.specs.Option.{option_copied};
    ghost use Rattle.ebpf_btf.specs.Items.{items_at};

    ghost Value = { List R };

    ghost view = { λ r.
        unwrap_or (option_copied r.own)
        (items_at (R.row_at r.order r.bytes.now) R.SIZE r.offset r.count) };

    ghost invariant = { λ r. r.offset + R.SIZE * r.count ≤ length r.bytes.now };
}

impl<'a, R: ListRow> Rows<'a, R> {
    /// Returns the `count` rows in the bytes from an offset on.
    #[inline]
    pub(crate) fn over(order: Endianness, bytes: &'a [u8], offset: u32, count: u32) -> Self
        requires { offset + R.SIZE * count ≤ length bytes.now }
        ensures { result ≡ items_at (R.row_at order bytes.now) R.SIZE offset count }
    {
        Rows {
            bytes,
            offset,
            count,
            order,
            own: None,
        }
    }

    /// Returns the rows of a slice.
    pub fn of(rows: &'a [R]) -> Rows<'a, R>
        ensures { result ≡ rows.now }
    {
        Rows {
            bytes: &[],
            offset: 0,
            count: 0,
            order: Endianness::Little,
            own: Some(rows),
        }
    }

    /// Returns the same rows, borrowed again.
    #[inline]
    pub fn copy(&self) -> Rows<'a, R>
        ensures { result ≡ self.now }
    {
        Rows {
            bytes: self.bytes,
            offset: self.offset,
            count: self.count,
            order: self.order,
            own: self.own,
        }
    }

    /// Returns the number of rows.
    #[inline]
    #[tactic(auto, using(crate::proofs::InOrder::items_length))]
    pub fn len(&self) -> usize
        ensures { result ≡ length self.now }
    {
        match self.own {
            Some(rows) => rows.len(),
            None => self.count as usize,
        }
    }

    /// Returns whether there are no rows.
    #[inline]
    pub fn is_empty(&self) -> bool
        ensures { result ≡ (length self.now == 0) }
    {
        self.len() == 0
    }

    /// Returns an iterator over the rows, in order.
    #[inline]
    #[tactic(auto, using(crate::proofs::InOrder::items_length))]
    pub fn iter(&self) -> RowsIter<'a, R>
        ensures rows { result ≡ self.now }
        ensures few { length result < 2 ^ 64 }
    {
        let _ = self.len();
        RowsIter {
            rows: self.copy(),
            next: 0,
        }
    }

    /// Returns the row with an index, from 0 on. The index is below the number of rows.
    #[inline]
    #[tactic(auto, using(crate::proofs::InOrder::item_some, crate::proofs::InOrder::item_read, crate::proofs::InOrder::items_length, crate::proofs::InOrder::record_inside))]
    pub fn at(&self, index: usize) -> R
        requires { index < length self.now }
        ensures found { slice_get self.now index ≡ Some result }
        ensures item { result ≡ slice_index_or self.now index result }
    {
        if let Some(rows) = self.own {
            return rows[index].duplicate();
        }
        let offset = self.offset as usize + R::SIZE * index;
        R::read(self.order, self.bytes, offset)
    }

    /// Returns the row with an index, from 0 on; `None` past the last.
    #[inline]
    #[tactic(auto, using(crate::proofs::InOrder::item_some, crate::proofs::InOrder::item_none, crate::proofs::InOrder::record_inside))]
    pub fn get(&self, index: usize) -> Option<R>
        ensures { result ≡ slice_get self.now index }
    {
        if index >= self.len() {
            return None;
        }
        Some(self.at(index))
    }
}

impl<'a, R: ListRow + fmt::Debug + Drop> fmt::Debug for Rows<'a, R> {
    fn fmt<W: fmt::Write>(&self, f: &mut fmt::Formatter<W>) -> fmt::Result {
        f.debug_list().entries(self.iter()).finish()
    }
}

/// An iterator over the rows of a type, in order. Contracts see the list of the rows left.
#[derive(Drop)]
pub struct RowsIter<'a, R: ListRow> {
    rows: Rows<'a, R>,
    next: usize,
}

impl<'a, R: ListRow> Model for RowsIter<'a, R> {
    ghost use Rattle.std.specs.Prelude.{List, drop};

    ghost Value = { List R };

    ghost view = { λ s. drop s.next s.rows };
}

impl<'a, R: ListRow> Iterator for RowsIter<'a, R> {
    type Item = R;

    ghost next_gives = { YieldsFirst (λ s. s) };

    ghost remaining = { item_count (λ s. s) };

    #[inline]
    #[tactic(auto, using(crate::proofs::InOrder::drop_some, crate::proofs::InOrder::drop_none))]
    fn next(&mut self) -> Option<R> {
        if self.next >= self.rows.len() {
            return None;
        }
        let row = self.rows.get(self.next)?;
        self.next += 1;
        Some(row)
    }
}
