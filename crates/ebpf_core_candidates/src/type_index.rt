//! An index of types by kind and name.

ghost use Rattle.std.specs.Prelude.{◌≡◌, ◌<◌, ◌&&◌, ℕ, List, [], length, IfOk, IfErr, OnOk, None, Some, Ok, is_some, map, slice_get, slice_index_or, true};
ghost use Rattle.std.specs.List.Sorted.{IsSortedBy, IsStableBy};
ghost use Rattle.std.specs.Option.{ForSome};
ghost use Rattle.ebpf_base.specs.Faults.{fault_of, Refuses};
ghost use Rattle.ebpf_core_candidates.specs.Candidates.{candidates, candidates_fault, candidates_of_both, candidates_of_both_fault, has_named, has_kind, is_among_kinds};
ghost use Rattle.ebpf_btf.specs.Memory.{is_btf_memory};
ghost use Rattle.ebpf_core_candidates.specs.TypeRows.{is_before, rows, unreadable_from};
ghost use Rattle.ebpf_btf.specs.Strings.{type_name};
ghost use Rattle.ebpf_btf.specs.Types.{kind_number, kind_of};
ghost use Rattle.ebpf_btf.specs.declared.error.BtfError.TheVariants.{OutOfMemory};
ghost use Rattle.ebpf_btf.specs.declared.kind.BtfKind.{BtfKind};
ghost use Rattle.ebpf_btf.specs.declared.types.BtfType.{BtfType};

use crate::kinds::{
    AnonymousTypes, KINDS, SomeKinds, UnreadableName, UnreadableNames, add_anonymous, every_kind,
    has_kind, keep_first, kind_number, kinds_of, lower, no_anonymous_types,
};
use crate::marks::{every_name, is_hash_marked, name_hash};
use crate::type_names::{TypeNames, names_of};
use crate::type_row::{TypeRow, order_of_rows, row_range, union};
use ebpf_btf::{Btf, BtfError, BtfKind, essential_name};
use std::alloc::{AllocError, Global};
use std::marker::Model;

/// The types of some kinds that one pass finds: the rows of types with marked names, anonymous types, and unreadable names.
#[derive(Drop)]
struct FoundTypes {
    rows: Vec<TypeRow>,
    anonymous: AnonymousTypes,
    unreadable: UnreadableNames,
}

/// Reads the types of some kinds: the rows of types with marked names, in order of ids, the ids of types without names, and
/// the first unreadable name of each kind. It reads no names of other kinds.
fn read_rows(
    alloc: Global,
    names: &TypeNames<'_>,
    kinds: &SomeKinds,
    marks: &[bool],
) -> Result<FoundTypes, AllocError>
    requires kinds { length kinds.now ≡ 20 }
    ensures rows { IfOk result (λ found. found.rows.items ≡ rows kinds.now marks.now names.now) }
    ensures anonymous { IfOk result (λ found.
        (kind : BtfKind)
        → has_kind kinds.now kind ≡ true
        → slice_index_or found.anonymous.items (kind_number kind) []
        ≡ candidates names.now kind []) }
    ensures unread { IfOk result (λ found.
        (kind : BtfKind)
        → has_kind kinds.now kind ≡ true
        → slice_index_or found.unreadable (kind_number kind) None
        ≡ unreadable_from names.now kind 0 names.now.types) }
    ensures kinds { IfOk result (λ found.
        (length found.anonymous.items ≡ 20) × (length found.unreadable ≡ 20)) }
{
    let mut rows = Vec::new(alloc);
    let mut anonymous = no_anonymous_types(alloc)?;
    let mut unreadable: UnreadableNames = [None; KINDS];
    for id in 0..names.btf().len() {
        let Some(head) = names.btf().head(id) else {
            continue;
        };
        if !has_kind(kinds, head.kind) {
            continue;
        }
        let Some(name) = names.name(id, head.name_offset) else {
            let first = UnreadableName {
                id: id as u32,
                offset: head.name_offset,
            };
            keep_first(&mut unreadable, head.kind, first);
            continue;
        };
        if name.is_empty() {
            add_anonymous(&mut anonymous, head.kind, id as u32)?;
            continue;
        }
        let hash = name_hash(name);
        if !is_hash_marked(marks, hash) {
            continue;
        }
        rows.push(TypeRow {
            hash,
            id: id as u32,
        })?;
    }
    Ok(FoundTypes {
        rows,
        anonymous,
        unreadable,
    })
}

/// Sorts rows by hash, kind and name; equal rows stay in order of their ids. Rows in order of hashes alone are in order but
/// for collisions, so that the second sort is one pass.
fn sort_rows(names: &TypeNames<'_>, rows: &mut Vec<TypeRow>) -> Result<(), AllocError>
    ensures sorted { OnOk result (IsSortedBy (is_before names.now) rows.new.items) }
    ensures stable { OnOk result (IsStableBy (is_before names.now) rows.old.items rows.new.items) }
{
    rows.sort_by_key(|row| row.hash)?;
    rows.sort_by(|left, right| order_of_rows(names, *left, *right))?;
    Ok(())
}

/// Returns the ids of rows, in order.
fn ids_of_rows(alloc: Global, rows: &[TypeRow]) -> Result<Vec<u32>, AllocError>
    ensures { IfOk result (λ ids. ids.items ≡ map (λ r. r.id) rows.now) }
{
    let mut ids = Vec::with_capacity(alloc, rows.len())?;
    for row in rows {
        ids.push(row.id)?;
    }
    Ok(ids)
}

/// An index of types of some kinds by kind and essential name, the name up to the first three underscores.
///
/// The index has all names, or the names of an object's types alone.
///
/// Contracts see the type information that it was made for, the kinds, and the marks of the names.
#[derive(Drop)]
pub struct KindsIndex<'a> {
    names: TypeNames<'a>,
    kinds: SomeKinds,
    marks: Vec<bool>,
    rows: Vec<TypeRow>,
    ids: Vec<u32>,
    anonymous: AnonymousTypes,
    unreadable: UnreadableNames,
}

impl<'a> Model for KindsIndex<'a> {
    ghost use Rattle.ebpf_core_candidates.specs.Candidates.{IndexedTypes};
    ghost use Rattle.ebpf_core_candidates.specs.TypeRows.{IsIndex};

    ghost Value = { IndexedTypes };

    ghost view = { λ x. record { info = x.names; kinds = x.kinds; marks = x.marks.items } };

    ghost invariant = { λ x.
        IsIndex x.kinds x.marks.items x.names x.rows.items x.ids.items x.anonymous.items
        x.unreadable };
}

impl<'a> KindsIndex<'a> {
    /// Returns the types of the index.
    pub fn btf(&self) -> &'a Btf
        ensures { result.now ≡ self.now.info }
    {
        self.names.btf()
    }

    /// Returns whether the index has the types of a kind with a name.
    pub fn has(&self, kind: BtfKind, name: &str) -> bool
        ensures { result ≡ has_named self.now kind name.now }
    {
        let name = essential_name(name.as_bytes());
        has_kind(&self.kinds, kind) && is_hash_marked(&self.marks, name_hash(name))
    }

    /// Returns the first type of a kind whose name cannot be read.
    fn unreadable_of(&self, kind: BtfKind) -> Option<UnreadableName>
        requires { has_kind self.now.kinds kind ≡ true }
        ensures { result ≡ unreadable_from self.now.info kind 0 self.now.info.types }
    {
        self.unreadable[kind_number(kind) as usize]
    }

    /// Returns the ids of the types of a kind with a name, without unreadable names.
    fn ids_of(&self, kind: BtfKind, name: &str) -> &[u32]
        requires { has_named self.now kind name.now ≡ true }
        ensures { result.now ≡ candidates self.now.info kind name.now }
    {
        let number = kind_number(kind);
        let name = essential_name(name.as_bytes());
        if name.is_empty() {
            return self.anonymous[number as usize].as_slice();
        }
        let (start, end) = row_range(&self.names, &self.rows, number, name);
        &self.ids[start..end]
    }

    /// Returns the candidates of a kind and a name that the index has.
    #[tactic(auto, using(crate::proofs::Unnamed::fault_of_kind))]
    fn candidates_of(&self, kind: BtfKind, name: &str) -> Result<&[u32], BtfError>
        requires { has_named self.now kind name.now ≡ true }
        ensures ids { IfOk result (λ ids. ids.now ≡ candidates self.now.info kind name.now) }
        ensures fault { fault_of result ≡ candidates_fault self.now.info kind }
    {
        match self.unreadable_of(kind) {
            Some(unreadable) => Err(unreadable.fault()),
            None => Ok(self.ids_of(kind, name)),
        }
    }

    /// Returns the candidates of a name and either of two kinds that the index has.
    #[tactic(auto, using(crate::proofs::Unnamed::fault_of_kinds, crate::proofs::CandidateLaws::union_candidates))]
    fn candidates_of_two(
        &self,
        alloc: Global,
        first: BtfKind,
        second: BtfKind,
        name: &str,
    ) -> Result<Vec<u32>, BtfError>
        requires first { has_named self.now first name.now ≡ true }
        requires second { has_named self.now second name.now ≡ true }
        ensures ids { IfOk result (λ ids.
            ids.items ≡ candidates_of_both self.now.info first second name.now) }
        ensures fault { Refuses is_btf_memory result
            (candidates_of_both_fault self.now.info first second) }
    {
        match lower(self.unreadable_of(first), self.unreadable_of(second)) {
            Some(unreadable) => Err(unreadable.fault()),
            None => Ok(union(alloc, self.ids_of(first, name), self.ids_of(second, name))?),
        }
    }

    /// Returns the candidates as `TypeIndex::candidates` does; none for a kind or a name that the index lacks.
    ///
    /// # Errors
    ///
    /// - `InvalidStringOffset`: the name of a type of this kind cannot be read.
    pub fn candidates(&self, kind: BtfKind, name: &str) -> Option<Result<&[u32], BtfError>>
        ensures has { is_some result ≡ has_named self.now kind name.now }
        ensures ids { ForSome result (λ found.
            IfOk found (λ ids. ids.now ≡ candidates self.now.info kind name.now)) }
        ensures fault { ForSome result (λ found.
            fault_of found ≡ candidates_fault self.now.info kind) }
    {
        if !self.has(kind, name) {
            return None;
        }
        Some(self.candidates_of(kind, name))
    }

    /// Returns the candidates as `TypeIndex::candidates_of_both` does; none where the index lacks a kind or the name.
    ///
    /// # Errors
    ///
    /// - `InvalidStringOffset`: the name of a type of either kind cannot be read.
    /// - `OutOfMemory`: out of memory for the list.
    pub fn candidates_of_both(
        &self,
        alloc: Global,
        first: BtfKind,
        second: BtfKind,
        name: &str,
    ) -> Option<Result<Vec<u32>, BtfError>>
        ensures has { is_some result
            ≡ (has_named self.now first name.now && has_named self.now second name.now) }
        ensures ids { ForSome result (λ found.
            IfOk found (λ ids.
            ids.items ≡ candidates_of_both self.now.info first second name.now)) }
        ensures fault { ForSome result (λ found.
            Refuses is_btf_memory found (candidates_of_both_fault self.now.info first second)) }
    {
        if !self.has(first, name) || !self.has(second, name) {
            return None;
        }
        Some(self.candidates_of_two(alloc, first, second, name))
    }
}

/// Returns the index of the types of some kinds with marked names.
fn index_of<'a>(
    alloc: Global,
    btf: &'a Btf,
    kinds: SomeKinds,
    marks: Vec<bool>,
) -> Result<KindsIndex<'a>, BtfError>
    requires kinds { length kinds ≡ 20 }
    ensures types { IfOk result (λ index. index.info ≡ btf.now) }
    ensures kinds { IfOk result (λ index. index.kinds ≡ kinds) }
    ensures marks { IfOk result (λ index. index.marks ≡ marks.items) }
    ensures memory { IfErr result (λ e. e ≡ OutOfMemory) }
{
    let names = TypeNames::new(alloc, btf)?;
    let FoundTypes {
        mut rows,
        anonymous,
        unreadable,
    } = read_rows(alloc, &names, &kinds, &marks)?;
    sort_rows(&names, &mut rows)?;
    let ids = ids_of_rows(alloc, &rows)?;
    Ok(KindsIndex {
        names,
        kinds,
        marks,
        rows,
        ids,
        anonymous,
        unreadable,
    })
}

/// An index of types by kind and essential name, the name up to the first three underscores.
///
/// Contracts see the type information that it was made for.
#[derive(Drop)]
pub struct TypeIndex<'a> {
    index: KindsIndex<'a>,
}

impl<'a> Model for TypeIndex<'a> {
    ghost use Rattle.std.specs.Prelude.{◌≡◌, ℕ, List, true};
    ghost use Rattle.ebpf_btf.specs.TypeInfo.{TypeInfo};
    ghost use Rattle.ebpf_btf.specs.declared.kind.BtfKind.{BtfKind};
    ghost use Rattle.ebpf_core_candidates.specs.Candidates.{has_named};

    ghost Value = { TypeInfo };

    ghost view = { λ x. x.index.info };

    ghost invariant = { λ x.
        (kind : BtfKind) (name : List ℕ) → has_named x.index kind name ≡ true };
}

impl<'a> TypeIndex<'a> {
    /// Returns the index of all types. It makes one pass over the types, a sort, and a copy of each name that is not UTF-8.
    ///
    /// # Errors
    ///
    /// - `OutOfMemory`: out of memory.
    pub fn new(alloc: Global, btf: &'a Btf) -> Result<TypeIndex<'a>, BtfError>
        ensures types { IfOk result (λ index. index ≡ btf.now) }
        ensures memory { IfErr result (λ e. e ≡ OutOfMemory) }
    {
        let index = index_of(alloc, btf, every_kind(), every_name(alloc))?;
        Ok(TypeIndex { index })
    }

    /// Returns the index of the types of some kinds that can match types of `local`. It leaves out types of other kinds, and
    /// may leave out types whose names no type of `local` of these kinds has. It makes one pass over the types of both, and
    /// a sort.
    ///
    /// # Errors
    ///
    /// - `OutOfMemory`: out of memory.
    pub fn of_names(
        alloc: Global,
        btf: &'a Btf,
        kinds: &[BtfKind],
        local: &Btf,
    ) -> Result<KindsIndex<'a>, BtfError>
        ensures types { IfOk result (λ index. index.info ≡ btf.now) }
        ensures names { IfOk result (λ index.
            (kind : BtfKind) (id : ℕ) (t : BtfType) (name : List ℕ)
            → is_among_kinds kinds.now kind ≡ true
            → slice_get local.now.types id ≡ Some t
            → is_among_kinds kinds.now (kind_of t) ≡ true
            → type_name local.now t ≡ Ok name
            → has_named index kind name ≡ true) }
        ensures kinds { IfOk result (λ index.
            (kind : BtfKind) (name : List ℕ) → has_named index kind name ≡ true
            → is_among_kinds kinds.now kind ≡ true) }
        ensures memory { IfErr result (λ e. e ≡ OutOfMemory) }
    {
        let kinds = kinds_of(kinds);
        let marks = names_of(alloc, local, &kinds)?;
        index_of(alloc, btf, kinds, marks)
    }

    /// Returns the ids, in increasing order, of the types of a kind with the essential name of `name`: the part before the
    /// first three underscores.
    ///
    /// Names are compared as `Btf::string_at` returns them. The call allocates nothing; its time is logarithmic in the number
    /// of types.
    ///
    /// # Errors
    ///
    /// - `InvalidStringOffset`: the name of a type of this kind cannot be read. The offset is the name offset of the first
    ///   such type.
    pub fn candidates(&self, kind: BtfKind, name: &str) -> Result<&[u32], BtfError>
        ensures ids { IfOk result (λ ids. ids.now ≡ candidates self.now kind name.now) }
        ensures fault { fault_of result ≡ candidates_fault self.now kind }
    {
        self.index.candidates_of(kind, name)
    }

    /// Returns the ids, in increasing order, of the types of either of two kinds with the essential name of `name`. A 64-bit
    /// enumeration matches ENUM64 and UNION types.
    ///
    /// # Errors
    ///
    /// - `InvalidStringOffset`: the name of a type of either kind cannot be read. The offset is the name offset of the first
    ///   such type.
    /// - `OutOfMemory`: out of memory for the list.
    pub fn candidates_of_both(
        &self,
        alloc: Global,
        first: BtfKind,
        second: BtfKind,
        name: &str,
    ) -> Result<Vec<u32>, BtfError>
        ensures ids { IfOk result (λ ids.
            ids.items ≡ candidates_of_both self.now first second name.now) }
        ensures fault { Refuses is_btf_memory result
            (candidates_of_both_fault self.now first second) }
    {
        self.index.candidates_of_two(alloc, first, second, name)
    }
}
