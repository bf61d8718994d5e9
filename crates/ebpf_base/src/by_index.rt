//! A finite map from indices to values.
#![tactic(auto, using(crate::proofs::Maps::hashed))]

ghost use Rattle.std.specs.Prelude.{◌≡◌, ◌<◌, ◌^◌, ◌↔◌, length, OnOk, OnErr, OnSome, IfOk, IsTrue, MatchOption, Ok, Err, nat_eq};
ghost use Rattle.std.specs.Option.{option_copied, option_copied_mut};
ghost use Rattle.std.specs.Borrow.{LendsSo, sem};
ghost use Rattle.std.specs.FinMap as map;
ghost use Rattle.ebpf_base.specs.Maps.{AreCopies, maps_eq, maps_eq_laws};
ghost use Rattle.std.specs.Coded.{coded_ℕ};
ghost use Rattle.std.specs.Ordering.{nat_cmp};
ghost use Rattle.std.specs.Cmp.{nat_cmp_total};
ghost use Rattle.std.specs.Map.{keys_of};
ghost use Rattle.std.specs.List.{IsDistinct};
ghost use Rattle.ebpf_base.specs.contracts.by_index.ByIndex.{the_row};

use std::alloc::{AllocError, Global};
use std::collections::{HashMap, hash_map};
use std::marker::Model;
use std::mem;

/// A map from indices to values. Contracts see the finite map alone, which says nothing of the order of the entries in the
/// `HashMap`.
#[derive(Debug, Drop)]
pub struct ByIndex<V> {
    entries: HashMap<usize, V>,
}

impl<V> Model for ByIndex<V> {
    ghost use Rattle.std.specs.FinMap as map;
    ghost use Rattle.std.specs.Coded.{coded_ℕ};
    ghost use Rattle.std.specs.Ordering.{nat_cmp};

    ghost Value = { map.FinMap nat_cmp V };

    ghost coded = { map.code coded_ℕ V.code };

    ghost view = { λ a. map.from_entries a.entries.entries };
}

impl<V> ByIndex<V> {
    /// Returns the empty map. The call allocates nothing.
    pub fn new(alloc: Global) -> Self
        ensures { result ≡ map.empty }
    {
        ByIndex {
            entries: HashMap::new(alloc),
        }
    }

    /// Returns the map with the entries of a `HashMap`. The call allocates nothing.
    pub fn from_map(entries: HashMap<usize, V>) -> Self
        ensures { result ≡ map.from_entries entries.entries }
    {
        ByIndex { entries }
    }

    /// Returns the map as a `HashMap`. The call allocates nothing.
    pub fn into_map(self) -> HashMap<usize, V>
        ensures { map.from_entries result.entries ≡ self }
    {
        self.entries
    }

    /// Returns the `HashMap`, borrowed.
    pub fn as_map(&self) -> &HashMap<usize, V>
        ensures { map.from_entries result.now.entries ≡ self.now }
    {
        &self.entries
    }

    /// Returns the number of keys.
    pub fn len(&self) -> usize
        ensures { result ≡ map.len self.now }
    {
        self.entries.len()
    }

    /// Returns whether the map is empty.
    pub fn is_empty(&self) -> bool
        ensures { IsTrue result ↔ (self.now ≡ map.empty) }
    {
        self.entries.is_empty()
    }

    /// Returns whether the map has an index.
    pub fn contains_key(&self, index: usize) -> bool
        ensures { result ≡ map.contains_key self.now index }
    {
        self.entries.contains_key(&index)
    }

    /// Returns the value of an index, borrowed; none where the map lacks the index.
    pub fn get(&self, index: usize) -> Option<&V>
        ensures { option_copied result ≡ map.get self.now index }
    {
        self.entries.get(&index)
    }

    /// Returns the value of an index, borrowed mutably; none where the map lacks it. The value at the end of the borrow is
    /// the value in the map.
    pub fn get_mut(&mut self, index: usize) -> Option<&mut V>
        ensures* writes_back { sem 𝓛
            (LendsSo (the_row V.row) V.row self.entry result
            (λ n w. OnSome result (n ≡ map.insert self.old index w)) (λ n. n ≡ self.old)) }
        ensures value { option_copied_mut result ≡ map.get self.old index }
    {
        self.entries.get_mut(&index)
    }

    /// Returns an iterator over the entries, each once, in no stated order. `indices` returns the indices in order.
    pub fn iter(&self) -> hash_map::Iter<'_, usize, V>
        ensures all { map.from_entries result ≡ self.now }
        ensures once { IsDistinct nat_eq (keys_of result) }
        ensures fits { length result < 2 ^ 63 }
    {
        self.entries.iter()
    }

    /// Replaces the value of an index, and returns the value before. The call allocates nothing.
    ///
    /// # Errors
    ///
    /// - The new value, given back: the map lacks the index.
    pub fn replace(&mut self, index: usize, value: V) -> Result<V, V>
        ensures { MatchOption (map.get self.old index)
            ((result ≡ Err value) × (self.new ≡ self.old)) (λ before.
            (result ≡ Ok before) × (self.new ≡ map.insert self.old index value)) }
    {
        let Some(stored) = self.entries.get_mut(&index) else {
            return Err(value);
        };
        Ok(mem::replace(stored, value))
    }

    /// Removes an index, and returns the value before; none where the map lacked it.
    pub fn remove(&mut self, index: usize) -> Option<V>
        ensures value { result ≡ map.get self.old index }
        ensures others { self.new ≡ map.remove self.old index }
    {
        self.entries.remove(&index)
    }

    /// Returns the indices in increasing order.
    ///
    /// # Errors
    ///
    /// - `AllocError`: out of memory.
    pub fn indices(&self, alloc: Global) -> Result<Vec<usize>, AllocError>
        ensures { IfOk result (λ indices. indices.items ≡ keys_of (map.entries self.now)) }
    {
        let mut indices = indices_of(alloc, &self.entries)?;
        indices.sort_unstable();
        Ok(indices)
    }
}

// The indices as the map has them.
fn indices_of<V>(alloc: Global, entries: &HashMap<usize, V>) -> Result<Vec<usize>, AllocError>
    ensures indices { IfOk result (λ indices. indices.items ≡ keys_of entries.now.entries) }
    ensures distinct { IsDistinct nat_eq (keys_of entries.now.entries) }
{
    let mut indices = Vec::with_capacity(alloc, entries.len())?;
    for index in entries.keys() {
        indices.push(*index)?;
    }
    Ok(indices)
}

impl<V: Drop> ByIndex<V> {
    /// Inserts the value of an index, and returns the value before; none where the map lacked it.
    ///
    /// # Errors
    ///
    /// - `AllocError`: out of memory; the map is unchanged.
    pub fn insert(&mut self, index: usize, value: V) -> Result<Option<V>, AllocError>
        ensures before { IfOk result (λ before. before ≡ map.get self.old index) }
        ensures ok { OnOk result (self.new ≡ map.insert self.old index value) }
        ensures err { OnErr result (self.new ≡ self.old) }
    {
        Ok(self.entries.insert(index, value)?)
    }
}

impl<V: Clone> Clone for ByIndex<V> {
    ghost is_clone = { AreCopies V.is_clone };

    fn clone(&self) -> Result<ByIndex<V>, AllocError> {
        Ok(ByIndex {
            entries: self.entries.clone()?,
        })
    }
}

impl<V: PartialEq> PartialEq for ByIndex<V> {
    ghost eq = { maps_eq V.eq };

    ghost laws = { maps_eq_laws nat_cmp_total V.PartialEq.laws };

    fn eq(&self, other: &Self) -> bool {
        self.entries == other.entries
    }
}
