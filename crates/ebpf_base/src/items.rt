//! A list of values.

ghost use Rattle.std.specs.Prelude.{◌≡◌, ◌<◌, ◌^◌, ◌↔◌, List, [], ◌∷◌, ◌++◌, length, OnOk, OnErr, IfOk, IsTrue, MatchOption, Ok, Err, slice_get, slice_set};
ghost use Rattle.std.specs.Option.{option_copied, option_copied_mut};
ghost use Rattle.std.specs.Fmt.{debug_list};
ghost use Rattle.std.specs.Slice.Iter.{iter_rest};
ghost use Rattle.std.specs.Iterator.Adapters.{IterYieldsInOrder, IterYieldsInReverse};
ghost use Rattle.std.specs.Borrow.{Lends, LendsIf, sem};
ghost use Rattle.std.specs.contracts.vec.Vec.{the_row as vec_row};
ghost use Rattle.std.specs.contracts.alloc.Global.{the_row as global_row};
ghost use Rattle.ebpf_base.specs.contracts.items.Items.{the_row};
ghost use Rattle.std.specs.List.{AllZip};
ghost use Rattle.std.specs.Cmp.Lexicographic.{pointwise, lists_per};

use std::alloc::{AllocError, AllocFailed, Allocator, Global};
use std::marker::Model;
use std::{fmt, mem, slice};

/// A list of values. Contracts see the list alone, without its capacity.
#[derive(Drop)]
pub struct Items<T> {
    items: Vec<T>,
}

impl<T> Model for Items<T> {
    ghost use Rattle.std.specs.Prelude.{List};

    ghost Value = { List T };

    ghost view = { λ a. a.items.items };
}

impl<T> Items<T> {
    /// Returns the empty list. The call allocates nothing.
    pub fn new(alloc: Global) -> Self
        ensures { result ≡ [] }
    {
        Items {
            items: Vec::new(alloc),
        }
    }

    /// Returns the list with the values of a `Vec`. The call allocates nothing.
    pub fn from_vec(items: Vec<T>) -> Self
        ensures { result ≡ items.items }
    {
        Items { items }
    }

    /// Returns the list as a `Vec`. The call allocates nothing.
    pub fn into_vec(self) -> Vec<T>
        ensures { result.items ≡ self }
    {
        self.items
    }

    /// Returns the list as a slice.
    pub fn as_slice(&self) -> &[T]
        ensures { result.now ≡ self.now }
    {
        self.items.as_slice()
    }

    /// Returns the number of values.
    pub fn len(&self) -> usize
        ensures { result ≡ length self.now }
    {
        self.items.len()
    }

    /// Returns whether the list is empty.
    pub fn is_empty(&self) -> bool
        ensures { IsTrue result ↔ (self.now ≡ []) }
    {
        self.items.is_empty()
    }

    /// Returns an iterator over the values, in order.
    pub fn iter(&self) -> slice::Iter<'_, T>
        ensures rest { iter_rest result ≡ self.now }
        ensures fits { length (iter_rest result) < 2 ^ 64 }
        ensures runs { IterYieldsInOrder T }
        ensures runs_back { IterYieldsInReverse T }
    {
        self.items.iter()
    }

    /// Returns the value at an index from 0 on, borrowed; none past the last value.
    pub fn get(&self, at: usize) -> Option<&T>
        ensures { option_copied result ≡ slice_get self.now at }
    {
        self.items.get(at)
    }

    /// Returns the value at an index from 0 on, borrowed mutably; none past the last value. The value at the end of the
    /// borrow is the value in the list.
    pub fn get_mut(&mut self, at: usize) -> Option<&mut T>
        ensures* writes_back { sem 𝓛
            (LendsIf (the_row T.row) T.row self.entry result (slice_set self.old at) self.old) }
        ensures value { option_copied_mut result ≡ slice_get self.old at }
    {
        self.items.get_mut(at)
    }

    /// Replaces the value at an index from 0 on, and returns the value before.
    ///
    /// # Errors
    ///
    /// - The new value, given back: the index is past the last value.
    pub fn replace(&mut self, at: usize, value: T) -> Result<T, T>
        ensures { MatchOption (slice_get self.old at) ((result ≡ Err value) × (self.new ≡ self.old))
            (λ before. (result ≡ Ok before) × (self.new ≡ slice_set self.old at value)) }
    {
        let Some(stored) = self.items.get_mut(at) else {
            return Err(value);
        };
        Ok(mem::replace(stored, value))
    }

    /// Returns the `Vec`, borrowed.
    pub fn as_vec(&self) -> &Vec<T>
        ensures { result.now.items ≡ self.now }
    {
        &self.items
    }

    /// Returns the `Vec`, borrowed mutably. Its values at the end of the borrow are the list.
    pub fn as_vec_mut(&mut self) -> &mut Vec<T>
        ensures* writes_back { sem 𝓛
            (Lends (the_row T.row) (vec_row T.row global_row ⟦<Global as Allocator>⟧) self.entry
            result (λ items. items.items)) }
        ensures value { result.now.items ≡ self.old }
    {
        &mut self.items
    }

    /// Adds a value at the end.
    ///
    /// # Errors
    ///
    /// - `AllocFailed` with the value: out of memory; the list is unchanged.
    pub fn push(&mut self, item: T) -> Result<(), AllocFailed<T>>
        ensures ok { OnOk result (self.new ≡ self.old ++ item ∷ []) }
        ensures err { OnErr result (self.new ≡ self.old) }
    {
        self.items.push(item)
    }
}

impl<T: Copy> Items<T> {
    /// Adds values at the end.
    ///
    /// # Errors
    ///
    /// - `AllocError`: out of memory; the list is unchanged.
    pub fn extend_from_slice(&mut self, more: &[T]) -> Result<(), AllocError>
        ensures ok { OnOk result (self.new ≡ self.old ++ more.now) }
        ensures err { OnErr result (self.new ≡ self.old) }
    {
        self.items.extend_from_slice(more)
    }

    /// Returns a copy of the list.
    ///
    /// # Errors
    ///
    /// - `AllocError`: out of memory.
    pub fn copied(&self) -> Result<Items<T>, AllocError>
        ensures { IfOk result (λ copy. copy ≡ self.now) }
    {
        let mut items = Vec::new(*self.items.allocator());
        items.extend_from_slice(self.items.as_slice())?;
        Ok(Items { items })
    }
}

impl<T: fmt::Debug> fmt::Debug for Items<T> {
    ghost debug_output = { debug_list T.debug_output };

    fn fmt<W: fmt::Write>(&self, f: &mut fmt::Formatter<W>) -> fmt::Result {
        fmt::Debug::fmt(&self.items, f)
    }
}

impl<T: PartialEq> PartialEq for Items<T> {
    ghost eq = { pointwise T.eq };

    ghost laws = { lists_per T.PartialEq.laws };

    fn eq(&self, other: &Self) -> bool {
        self.items.as_slice() == other.items.as_slice()
    }
}

impl<T: Clone> Clone for Items<T> {
    ghost is_clone = { AllZip T.is_clone };

    fn clone(&self) -> Result<Items<T>, AllocError> {
        let items = self.items.as_slice().to_vec(*self.items.allocator())?;
        Ok(Items { items })
    }
}
