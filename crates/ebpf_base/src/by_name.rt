//! A finite map from names to values.
#![tactic(auto, using(crate::proofs::TextMaps::named))]

ghost use Rattle.std.specs.Prelude.{◌≡◌, ◌<◌, ◌^◌, ◌↔◌, length, OnOk, OnErr, OnSome, IfOk, IsTrue, MatchOption, Ok, Err, string_bytes};
ghost use Rattle.std.specs.Option.{option_copied, option_copied_mut};
ghost use Rattle.std.specs.Borrow.{LendsSo, sem};
ghost use Rattle.std.specs.FinMap as map;
ghost use Rattle.ebpf_base.specs.Maps.{AreCopies, maps_eq, maps_eq_laws, text_cmp, coded_text, by_bytes, lent_bytes, text_total};
ghost use Rattle.std.specs.List.Sorted.{IsStrictlySortedBy};
ghost use Rattle.std.specs.Map.{keys_of, values_of};
ghost use Rattle.ebpf_base.specs.contracts.by_name.ByName.{the_row};

use std::alloc::{AllocError, Global};
use std::collections::{BTreeMap, btree_map};
use std::marker::Model;
use std::mem;

/// A map from names to values, in order of the names' bytes. Contracts see the finite map alone.
///
/// The map hashes nothing: names come from files, and names made to collide would cost time.
#[derive(Debug, Drop)]
pub struct ByName<V> {
    entries: BTreeMap<String, V>,
}

impl<V> Model for ByName<V> {
    ghost use Rattle.std.specs.FinMap as map;
    ghost use Rattle.ebpf_base.specs.Maps.{text_cmp, coded_text, by_bytes};

    ghost Value = { map.FinMap text_cmp V };

    ghost coded = { map.code coded_text V.code };

    ghost view = { λ a. map.from_entries (by_bytes a.entries.entries) };
}

impl<V> ByName<V> {
    /// Returns the empty map. The call allocates nothing.
    pub fn new(alloc: Global) -> Self
        ensures { result ≡ map.empty }
    {
        ByName {
            entries: BTreeMap::new(alloc),
        }
    }

    /// Returns the map with the entries of a `BTreeMap`. The call allocates nothing.
    pub fn from_map(entries: BTreeMap<String, V>) -> Self
        ensures { result ≡ map.from_entries (by_bytes entries.entries) }
    {
        ByName { entries }
    }

    /// Returns the map as a `BTreeMap`. The call allocates nothing.
    pub fn into_map(self) -> BTreeMap<String, V>
        ensures { map.from_entries (by_bytes result.entries) ≡ self }
    {
        self.entries
    }

    /// Returns the `BTreeMap`, borrowed.
    pub fn as_map(&self) -> &BTreeMap<String, V>
        ensures { map.from_entries (by_bytes result.now.entries) ≡ self.now }
    {
        &self.entries
    }

    /// Returns the number of keys.
    pub fn len(&self) -> usize
        ensures { result ≡ map.len self.now }
    {
        self.entries.len()
    }

    /// Returns whether the map is empty.
    pub fn is_empty(&self) -> bool
        ensures { IsTrue result ↔ (self.now ≡ map.empty) }
    {
        self.entries.is_empty()
    }

    /// Returns whether the map has a name.
    pub fn contains_key(&self, name: &str) -> bool
        ensures { result ≡ map.contains_key self.now name.now }
    {
        self.entries.contains_key(name)
    }

    /// Returns the value of a name, borrowed; none where the map lacks the name.
    pub fn get(&self, name: &str) -> Option<&V>
        ensures { option_copied result ≡ map.get self.now name.now }
    {
        self.entries.get(name)
    }

    /// Returns the value of a name, borrowed mutably; none where the map lacks it. The value at the end of the borrow is the
    /// value in the map.
    pub fn get_mut(&mut self, name: &str) -> Option<&mut V>
        ensures* writes_back { sem 𝓛
            (LendsSo (the_row V.row) V.row self.entry result
            (λ n w. OnSome result (n ≡ map.insert self.old name.now w)) (λ n.
            n ≡ self.old)) }
        ensures value { option_copied_mut result ≡ map.get self.old name.now }
    {
        self.entries.get_mut(name)
    }

    /// Returns an iterator over the entries, in order of the bytes of their names.
    pub fn iter(&self) -> btree_map::Iter<'_, String, V>
        ensures all { by_bytes result ≡ map.entries self.now }
        ensures rising { IsStrictlySortedBy text_cmp (keys_of (by_bytes result)) }
        ensures fits { length result < 2 ^ 63 }
    {
        self.entries.iter()
    }

    /// Returns an iterator over the values, in order of the bytes of their names.
    pub fn values(&self) -> btree_map::Values<'_, String, V>
        ensures all { result ≡ values_of (map.entries self.now) }
        ensures fits { length result < 2 ^ 63 }
    {
        self.entries.values()
    }

    /// Replaces the value of a name, and returns the value before. The call allocates nothing.
    ///
    /// # Errors
    ///
    /// - The new value, given back: the map lacks the name.
    pub fn replace(&mut self, name: &str, value: V) -> Result<V, V>
        ensures { MatchOption (map.get self.old name.now)
            ((result ≡ Err value) × (self.new ≡ self.old)) (λ before.
            (result ≡ Ok before) × (self.new ≡ map.insert self.old name.now value)) }
    {
        let Some(stored) = self.entries.get_mut(name) else {
            return Err(value);
        };
        Ok(mem::replace(stored, value))
    }

    /// Removes a name, and returns the value before; none where the map lacked it.
    pub fn remove(&mut self, name: &str) -> Option<V>
        ensures value { result ≡ map.get self.old name.now }
        ensures others { self.new ≡ map.remove self.old name.now }
    {
        self.entries.remove(name)
    }

    /// Returns the names, borrowed, in order of their bytes.
    ///
    /// # Errors
    ///
    /// - `AllocError`: out of memory.
    pub fn names(&self, alloc: Global) -> Result<Vec<&str>, AllocError>
        ensures { IfOk result (λ names. lent_bytes names.items ≡ keys_of (map.entries self.now)) }
    {
        let mut names = Vec::with_capacity(alloc, self.len())?;
        for name in self.entries.keys() {
            names.push(name.as_str())?;
        }
        Ok(names)
    }
}

impl<V: Drop> ByName<V> {
    /// Inserts the value of a name, and returns the value before; none where the map lacked it.
    ///
    /// # Errors
    ///
    /// - `AllocError`: out of memory; the map is unchanged.
    pub fn insert(&mut self, name: String, value: V) -> Result<Option<V>, AllocError>
        ensures before { IfOk result (λ before. before ≡ map.get self.old (string_bytes name)) }
        ensures ok { OnOk result (self.new ≡ map.insert self.old (string_bytes name) value) }
        ensures err { OnErr result (self.new ≡ self.old) }
    {
        Ok(self.entries.insert(name, value)?)
    }
}

impl<V: Clone> Clone for ByName<V> {
    ghost is_clone = { AreCopies V.is_clone };

    fn clone(&self) -> Result<ByName<V>, AllocError> {
        Ok(ByName {
            entries: self.entries.clone()?,
        })
    }
}

impl<V: PartialEq> PartialEq for ByName<V> {
    ghost eq = { maps_eq V.eq };

    ghost laws = { maps_eq_laws text_total V.PartialEq.laws };

    fn eq(&self, other: &Self) -> bool {
        self.entries.len() == other.entries.len() && self.entries == other.entries
    }
}
