//! A finite map from positions to values; a position is the index of a section and an address in it, in bytes.
#![tactic(auto, using(crate::proofs::Maps::keyed))]

ghost use Rattle.std.specs.Prelude.{◌≡◌, ◌<◌, ◌^◌, ◌↔◌, length, OnOk, OnErr, OnSome, IfOk, IsTrue, MatchOption, Ok, Err, true};
ghost use Rattle.std.specs.Option.{option_copied, option_copied_mut};
ghost use Rattle.std.specs.Borrow.{LendsSo, sem};
ghost use Rattle.std.specs.FinMap as map;
ghost use Rattle.ebpf_base.specs.Maps.{AreCopies, maps_eq, maps_eq_laws, key_cmp, coded_key, key_total, map_values, Writes, WritesBy};
ghost use Rattle.std.specs.List.Sorted.{IsStrictlySortedBy};
ghost use Rattle.std.specs.Map.{keys_of};
ghost use Rattle.ebpf_base.specs.contracts.by_key.ByKey.{the_row};

use std::alloc::{AllocError, Global};
use std::collections::{BTreeMap, btree_map};
use std::marker::Model;
use std::mem;

/// A map from keys to values; a key is the index of a section and an address in the section, in bytes. Contracts see the
/// finite map alone.
#[derive(Debug, Drop)]
pub struct ByKey<V> {
    entries: BTreeMap<(usize, u64), V>,
}

impl<V> Model for ByKey<V> {
    ghost use Rattle.std.specs.FinMap as map;
    ghost use Rattle.ebpf_base.specs.Maps.{key_cmp, coded_key};

    ghost Value = { map.FinMap key_cmp V };

    ghost coded = { map.code coded_key V.code };

    ghost view = { λ a. map.from_entries a.entries.entries };
}

impl<V> ByKey<V> {
    /// Returns the empty map. The call allocates nothing.
    pub fn new(alloc: Global) -> Self
        ensures { result ≡ map.empty }
    {
        ByKey {
            entries: BTreeMap::new(alloc),
        }
    }

    /// Returns the map with the entries of a `BTreeMap`. The call allocates nothing.
    pub fn from_map(entries: BTreeMap<(usize, u64), V>) -> Self
        ensures { result ≡ map.from_entries entries.entries }
    {
        ByKey { entries }
    }

    /// Returns the map as a `BTreeMap`. The call allocates nothing.
    pub fn into_map(self) -> BTreeMap<(usize, u64), V>
        ensures { map.from_entries result.entries ≡ self }
    {
        self.entries
    }

    /// Returns the `BTreeMap`, borrowed.
    pub fn as_map(&self) -> &BTreeMap<(usize, u64), V>
        ensures { map.from_entries result.now.entries ≡ self.now }
    {
        &self.entries
    }

    /// Returns the number of keys.
    pub fn len(&self) -> usize
        ensures { result ≡ map.len self.now }
    {
        self.entries.len()
    }

    /// Returns whether the map is empty.
    pub fn is_empty(&self) -> bool
        ensures { IsTrue result ↔ (self.now ≡ map.empty) }
    {
        self.entries.is_empty()
    }

    /// Returns whether the map has a key.
    pub fn contains_key(&self, key: (usize, u64)) -> bool
        ensures { result ≡ map.contains_key self.now key }
    {
        self.entries.contains_key(&key)
    }

    /// Returns the value of a key, borrowed; none where the map lacks the key.
    pub fn get(&self, key: (usize, u64)) -> Option<&V>
        ensures { option_copied result ≡ map.get self.now key }
    {
        self.entries.get(&key)
    }

    /// Returns the value of a key, borrowed mutably; none where the map lacks it. The value at the end of the borrow is the
    /// value in the map.
    pub fn get_mut(&mut self, key: (usize, u64)) -> Option<&mut V>
        ensures* writes_back { sem 𝓛
            (LendsSo (the_row V.row) V.row self.entry result
            (λ n w. OnSome result (n ≡ map.insert self.old key w)) (λ n. n ≡ self.old)) }
        ensures value { option_copied_mut result ≡ map.get self.old key }
    {
        self.entries.get_mut(&key)
    }

    /// Returns an iterator over the entries, in order of the sections, then of the addresses.
    pub fn iter(&self) -> btree_map::Iter<'_, (usize, u64), V>
        ensures all { result ≡ map.entries self.now }
        ensures rising { IsStrictlySortedBy key_cmp (keys_of result) }
        ensures fits { length result < 2 ^ 63 }
    {
        self.entries.iter()
    }

    /// Replaces the value of a key, and returns the value before. The call allocates nothing.
    ///
    /// # Errors
    ///
    /// - The new value, given back: the map lacks the key.
    pub fn replace(&mut self, key: (usize, u64), value: V) -> Result<V, V>
        ensures { MatchOption (map.get self.old key) ((result ≡ Err value) × (self.new ≡ self.old))
            (λ before. (result ≡ Ok before) × (self.new ≡ map.insert self.old key value)) }
    {
        let Some(stored) = self.entries.get_mut(&key) else {
            return Err(value);
        };
        Ok(mem::replace(stored, value))
    }

    /// Removes a key, and returns the value before; none where the map lacked it.
    pub fn remove(&mut self, key: (usize, u64)) -> Option<V>
        ensures value { result ≡ map.get self.old key }
        ensures others { self.new ≡ map.remove self.old key }
    {
        self.entries.remove(&key)
    }
}

impl<V: Drop> ByKey<V> {
    /// Inserts the value of a key, and returns the value before; none where the map lacked it.
    ///
    /// # Errors
    ///
    /// - `AllocError`: out of memory; the map is unchanged.
    pub fn insert(&mut self, key: (usize, u64), value: V) -> Result<Option<V>, AllocError>
        ensures before { IfOk result (λ before. before ≡ map.get self.old key) }
        ensures ok { OnOk result (self.new ≡ map.insert self.old key value) }
        ensures err { OnErr result (self.new ≡ self.old) }
    {
        Ok(self.entries.insert(key, value)?)
    }

    /// Calls `write` on each value in place, in order of the keys. The call allocates nothing.
    pub fn write_values<F: Fn(&mut V) + Drop>(&mut self, write: F)
        requires { F.IsAlwaysCallable write }
        ensures { (f : V → V) → WritesBy F.Fn write f → self.new ≡ map_values f self.old }
    {
        self.entries.retain(|_, value| is_written(&write, value));
    }
}

// Writes a value in place, and keeps it.
fn is_written<V, F: Fn(&mut V)>(write: &F, value: &mut V) -> bool
    requires { F.IsAlwaysCallable write.now }
    ensures kept { result ≡ true }
    ensures written { Writes F.Fn write.now value.old value.new }
{
    write(value);
    true
}

impl<V: Clone> Clone for ByKey<V> {
    ghost is_clone = { AreCopies V.is_clone };

    fn clone(&self) -> Result<ByKey<V>, AllocError> {
        Ok(ByKey {
            entries: self.entries.clone()?,
        })
    }
}

impl<V: PartialEq> PartialEq for ByKey<V> {
    ghost eq = { maps_eq V.eq };

    ghost laws = { maps_eq_laws key_total V.PartialEq.laws };

    fn eq(&self, other: &Self) -> bool {
        self.entries.len() == other.entries.len() && self.entries == other.entries
    }
}
