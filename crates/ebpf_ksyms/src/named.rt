//! Values and externs by name.

ghost use Rattle.std.specs.FinMap.{entries, get};
ghost use Rattle.std.specs.List.{flat_map};
ghost use Rattle.std.specs.Prelude.{◌≡◌, ℕ, All, List, IfOk, Some, option_map, if◌then◌else◌, true};
ghost use Rattle.std.specs.Str.{bytes_eq};
ghost use Rattle.ebpf_base.specs.Maps.{lent_bytes};
ghost use Rattle.ebpf_core_candidates.specs.Candidates.{is_hash_marked, name_hash};
ghost use Rattle.ebpf_ksyms.specs.Externs.{is_typed, is_typeless, wanted_names};
ghost use Rattle.ebpf_ksyms.specs.PrivateContracts.{value_named, only_at, entry_named, externs_from};

use ebpf_base::ByName;
use ebpf_core_candidates::marks::{every_name, is_hash_marked, mark, name_hash, no_name};
use ebpf_model::ExternDesc;
use std::alloc::{AllocError, Global};
use std::collections::BTreeMap;
use std::marker::Model;

/// Values by name. A filter of the names' hashes refuses most other names at once, and a tree in the order of the names
/// finds the rest, whatever the names.
#[derive(Drop)]
pub struct NameTable<'a, V> {
    marks: Vec<bool>,
    values: BTreeMap<&'a str, V>,
}

/// An extern and its name.
#[derive(Drop)]
pub struct NamedExtern<'a> {
    /// The name.
    pub name: &'a str,
    /// The extern.
    pub desc: ExternDesc,
}

impl<'a> Model for NamedExtern<'a> {
    ghost use Rattle.std.specs.Prelude.{ℕ, List};
    ghost use Rattle.ebpf_model.specs.declared.symbol.ExternDesc.{ExternDesc};

    ghost Value = { List ℕ × ExternDesc };

    ghost view = { λ e. (e.name.now, e.desc) };
}

/// The filter of some names.
fn marks_of(alloc: Global, names: &[&str]) -> Result<Vec<bool>, AllocError>
    ensures { IfOk result (λ marks.
        All (λ name. is_hash_marked marks.items (name_hash name.now) ≡ true) names.now) }
{
    if names.is_empty() {
        return Ok(every_name(alloc));
    }
    let mut marks = no_name(alloc)?;
    for name in names {
        mark(&mut marks, name_hash(name.as_bytes()));
    }
    Ok(marks)
}

impl<'a, V: Copy + Drop> NameTable<'a, V> {
    /// A table of some names, with one value for all.
    pub fn new(alloc: Global, names: &[&'a str], value: V) -> Result<NameTable<'a, V>, AllocError>
        ensures { IfOk result (λ m.
            (q : List ℕ) → value_named m q ≡ only_at (lent_bytes names.now) (λ _. value) q) }
    {
        let marks = marks_of(alloc, names)?;
        let mut values = BTreeMap::new(alloc);
        for name in names {
            values.insert(*name, value)?;
        }
        Ok(NameTable { marks, values })
    }

    /// The value at a name. `None` of other names.
    #[tactic(auto, unfolding(crate::specs::PrivateContracts::value_named))]
    pub fn get(&self, name: &str) -> Option<V>
        ensures { result ≡ value_named self.now name.now }
    {
        if !is_hash_marked(&self.marks, name_hash(name.as_bytes())) {
            return None;
        }
        self.values.get(name).copied()
    }

    /// Replaces the value at a name, without memory. If the name has none, the table stays.
    pub fn replace(&mut self, name: &str, value: V)
        ensures { (q : List ℕ)
            → value_named self.new q
            ≡ (if bytes_eq name.now q
            then option_map (λ _. value) (value_named self.old q)
            else value_named self.old q) }
    {
        if let Some(place) = self.values.get_mut(name) {
            *place = value;
        }
    }
}

impl<'a> NamedExtern<'a> {
    /// Whether the extern is unresolved and has a type.
    pub fn is_typed(&self) -> bool
        ensures { result ≡ is_typed self.now.1 }
    {
        !self.desc.is_resolved && self.desc.is_typed
    }

    /// Whether the extern is unresolved and has no type.
    pub fn is_typeless(&self) -> bool
        ensures { result ≡ is_typeless self.now.1 }
    {
        !self.desc.is_resolved && !self.desc.is_typed
    }

    /// The entry of this name with another extern.
    pub fn with(&self, desc: ExternDesc) -> NamedExtern<'a>
        ensures { result ≡ (self.now.0, desc) }
    {
        NamedExtern {
            name: self.name,
            desc,
        }
    }
}

/// The externs of some names, in their order.
fn entries_named<'a>(
    alloc: Global,
    externs: &ByName<ExternDesc>,
    names: &[&'a str],
) -> Result<Vec<NamedExtern<'a>>, AllocError>
    ensures { IfOk result (λ all.
        all.items
        ≡ flat_map (λ name. entry_named name (get externs.now name)) (lent_bytes names.now)) }
{
    let mut all = Vec::with_capacity(alloc, names.len())?;
    for name in names {
        let Some(desc) = externs.get(name) else {
            continue;
        };
        all.push(NamedExtern { name, desc: *desc })?;
    }
    Ok(all)
}

/// The externs in the order of the bytes of their names.
pub fn entries_of(
    alloc: Global,
    externs: &ByName<ExternDesc>,
) -> Result<Vec<NamedExtern<'_>>, AllocError>
    ensures { IfOk result (λ all. all.items ≡ entries externs.now) }
{
    let names = externs.names(alloc)?;
    let all = entries_named(alloc, externs, &names)?;
    Ok(all)
}

/// The names that lines are read for.
pub fn wanted_names<'a>(alloc: Global, all: &[NamedExtern<'a>]) -> Result<Vec<&'a str>, AllocError>
    ensures { IfOk result (λ names. lent_bytes names.items ≡ wanted_names all.now) }
{
    let mut names = Vec::new(alloc);
    for entry in all {
        if !entry.is_typeless() {
            continue;
        }
        names.push(entry.name)?;
    }
    Ok(names)
}

/// Externs as a map.
pub fn externs_from(
    alloc: Global,
    all: &[NamedExtern<'_>],
) -> Result<ByName<ExternDesc>, AllocError>
    ensures { IfOk result (λ externs. externs ≡ externs_from all.now) }
{
    let mut externs = ByName::new(alloc);
    for entry in all {
        externs.insert(String::from_str(alloc, entry.name)?, entry.desc)?;
    }
    Ok(externs)
}
