//! Relocations over the types of a kernel, one after the other.

ghost use Rattle.std.specs.Prelude.{◌≡◌, ◌<◌, All, IfErr, IfOk, IfSome, MatchBool, Ok, length, true, ⊤};
ghost use Rattle.ebpf_base.specs.Faults.{Gives, Refuses, fault_of, if_ok};
ghost use Rattle.ebpf_btf.specs.Memory.{is_btf_memory};
ghost use Rattle.ebpf_btf.specs.declared.error.BtfError.TheVariants.{OutOfMemory};
ghost use Rattle.ebpf_core_candidates.specs.Candidates.{candidates, candidates_fault, candidates_of_both, candidates_of_both_fault, has_named};
ghost use Rattle.ebpf_core.specs.Answers.{Tells, of_types, without_texts, is_record_memory};
ghost use Rattle.ebpf_core.specs.Outcomes.{outcome_among};
ghost use Rattle.ebpf_core.specs.Laws.{OutcomeIsRefused};
ghost use Rattle.ebpf_core.specs.Searches.{candidates_for, candidates_named, is_local, outcome_of, was_enum64, searched_kinds, HasLocalNames, HasNameAt, IsLocalType, question_of};

use crate::error::RelocationError;
use crate::outcome::{Outcome, outcome_among};
use crate::paths::{LocalPath, local_path};
use ebpf_base::Items;
use ebpf_btf::{Btf, BtfError, BtfKind, BtfType};
use ebpf_btf_ext::{Relocation, RelocationKind};
use ebpf_core_candidates::{KindsIndex, TypeIndex};
use std::alloc::{AllocError, Global};
use std::collections::BTreeMap;
use std::marker::Model;

/// The question of a relocation, by which its outcome is cached: its type and its access string, and the number of its
/// kind.
pub type Question = ((u32, u32), u32);

/// A local type with its name.
#[derive(Clone, Copy)]
struct NamedType<'a> {
    ty: &'a BtfType<'a>,
    name: &'a str,
}

/// Whether the local id of a type is asked for, which is not searched.
fn is_local(kind: RelocationKind) -> bool
    ensures { result ≡ is_local kind }
{
    matches!(kind, RelocationKind::TypeIdLocal)
}

/// Whether a type is an enumeration of 64 bits that was made a UNION.
#[tactic(auto, unfolding(ebpf_btf::specs::Types::kind_number))]
fn was_enum64(ty: &BtfType<'_>) -> bool
    ensures { result ≡ was_enum64 ty.now }
{
    ty.kind() == BtfKind::Union && ty.variant_count().is_some()
}

/// The kinds of the target types that a local type may stand for: its own, twice, or two.
fn searched_kinds(ty: &BtfType<'_>) -> (BtfKind, BtfKind)
    ensures { result ≡ searched_kinds ty.now }
{
    if was_enum64(ty) {
        return (BtfKind::Union, BtfKind::Enum64);
    }
    (ty.kind(), ty.kind())
}

/// The candidates of a kind and a name that an index has.
fn ids_of_kind<'b>(
    index: &'b KindsIndex<'_>,
    kind: BtfKind,
    name: &str,
) -> Result<&'b [u32], BtfError>
    requires { has_named index.now kind name.now ≡ true }
    ensures ids { IfOk result (λ ids. ids.now ≡ candidates index.now.info kind name.now) }
    ensures fault { fault_of result ≡ candidates_fault index.now.info kind }
{
    match index.candidates(kind, name) {
        Some(found) => found,
        None => unreachable!(),
    }
}

/// The candidates of either of two kinds, of a name, that an index has.
fn ids_of_both(
    alloc: Global,
    index: &KindsIndex<'_>,
    first: BtfKind,
    second: BtfKind,
    name: &str,
) -> Result<Vec<u32>, BtfError>
    requires first { has_named index.now first name.now ≡ true }
    requires second { has_named index.now second name.now ≡ true }
    ensures ids { IfOk result (λ ids.
        ids.items ≡ candidates_of_both index.now.info first second name.now) }
    ensures fault { Refuses is_btf_memory result
        (candidates_of_both_fault index.now.info first second) }
{
    match index.candidates_of_both(alloc, first, second, name) {
        Some(found) => found,
        None => unreachable!(),
    }
}

/// The outcome of a relocation over the target types of the kind and name of a local type, looked for in an index that
/// has them.
#[tactic(auto, unfolding(crate::specs::Searches::candidates_named))]
fn outcome_named(
    alloc: Global,
    local: &Btf,
    index: &KindsIndex<'_>,
    relocation: &Relocation,
    path: &LocalPath,
    searched: NamedType<'_>,
) -> Result<Outcome, RelocationError>
    requires first { has_named index.now (searched_kinds searched.ty.now).0
        searched.name.now
        ≡ true }
    requires second { has_named index.now (searched_kinds searched.ty.now).1
        searched.name.now
        ≡ true }
    ensures { Tells result
        (if_ok
        (of_types
        (candidates_named index.now.info searched.entry.ty.now
        searched.entry.name.now))
        (outcome_among local.now index.now.info relocation.now path.now)) }
{
    if was_enum64(searched.ty) {
        let ids = ids_of_both(alloc, index, BtfKind::Union, BtfKind::Enum64, searched.name)?;
        return outcome_among(alloc, local, index.btf(), relocation, path, ids.as_slice());
    }
    let found = ids_of_kind(index, searched.ty.kind(), searched.name)?;
    outcome_among(alloc, local, index.btf(), relocation, path, found)
}

/// The target types of the kind and name of a local type, looked for in an index that has them.
#[tactic(auto, unfolding(crate::specs::Searches::candidates_named))]
fn ids_named(
    alloc: Global,
    index: &KindsIndex<'_>,
    searched: NamedType<'_>,
) -> Result<Items<u32>, BtfError>
    requires first { has_named index.now (searched_kinds searched.ty.now).0
        searched.name.now
        ≡ true }
    requires second { has_named index.now (searched_kinds searched.ty.now).1
        searched.name.now
        ≡ true }
    ensures { Gives is_btf_memory result
        (candidates_named index.now.info searched.entry.ty.now searched.entry.name.now) }
{
    if was_enum64(searched.ty) {
        let ids = ids_of_both(alloc, index, BtfKind::Union, BtfKind::Enum64, searched.name)?;
        return Ok(Items::from_vec(ids));
    }
    let ids = ids_of_kind(index, searched.ty.kind(), searched.name)?;
    Ok(Items::from_vec(Vec::from_slice(alloc, ids)?))
}

/// The index of the target types of two kinds that have names of local ones.
#[tactic(auto, using(crate::proofs::Searching::local_names))]
fn index_of<'a>(
    alloc: Global,
    local: &Btf,
    target: &'a Btf,
    first: BtfKind,
    second: BtfKind,
) -> Result<KindsIndex<'a>, BtfError>
    ensures names { IfOk result (λ index. HasLocalNames index local.now first second) }
    ensures types { IfOk result (λ index. index.info ≡ target.now) }
    ensures memory { IfErr result (λ e. e ≡ OutOfMemory) }
{
    TypeIndex::of_names(alloc, target, &[first, second], local)
}

/// The position of the first index that has the types of two kinds and of a name.
fn index_with(
    indices: &[KindsIndex<'_>],
    first: BtfKind,
    second: BtfKind,
    name: &str,
) -> Option<usize>
    ensures place { IfSome result (λ n. n < length indices.now) }
    ensures names { IfSome result (λ n. HasNameAt indices.now n first second name.now) }
{
    for (n, index) in indices.iter().enumerate() {
        if index.has(first, name) && index.has(second, name) {
            return Some(n);
        }
    }
    None
}

/// The position of an index that has the target types of the kind and name of a local type. A missing one is made.
fn index_for<'a>(
    alloc: Global,
    indices: &mut Vec<KindsIndex<'a>>,
    local: &Btf,
    target: &'a Btf,
    searched: NamedType<'_>,
) -> Result<usize, BtfError>
    requires types { All (λ index. index.info ≡ target.now) indices.old.items }
    requires named { IsLocalType local.now searched.ty.now searched.name.now }
    ensures types { All (λ index. index.info ≡ target.now) indices.new.items }
    ensures place { IfOk result (λ n. n < length indices.new.items) }
    ensures names { IfOk result (λ n.
        HasNameAt indices.new.items n (searched_kinds searched.entry.ty.now).0
        (searched_kinds searched.entry.ty.now).1 searched.entry.name.now) }
    ensures memory { IfErr result (λ e. e ≡ OutOfMemory) }
{
    let (first, second) = searched_kinds(searched.ty);
    if let Some(n) = index_with(indices, first, second, searched.name) {
        return Ok(n);
    }
    let index = index_of(alloc, local, target, first, second)?;
    let n = indices.len();
    indices.push(index)?;
    Ok(n)
}

/// The types of an object, and those of a kernel in which they are looked for, relocation by relocation. The kernel's
/// types of a kind are indexed at the first relocation that searches them, those alone whose names the object's types
/// have. Outcomes are cached by their questions.
///
/// Contracts see the two sides alone.
#[derive(Drop)]
pub struct CoreSearch<'a> {
    local: &'a Btf,
    target: &'a Btf,
    indices: Vec<KindsIndex<'a>>,
    cached: BTreeMap<Question, Outcome>,
}

impl<'a> Model for CoreSearch<'a> {
    ghost use Rattle.std.specs.Prelude.{◌≡◌, All};
    ghost use Rattle.ebpf_core.specs.Searches.{OutcomesAreCached};
    ghost use Rattle.ebpf_core.specs.Searches.{Sides};

    ghost Value = { Sides };

    ghost view = { λ s. record { local = s.local.now; target = s.target.now } };

    ghost invariant = { λ s.
        All (λ index. index.info ≡ s.target.now) s.indices.items
        × OutcomesAreCached s.local.now s.target.now s.cached };
}

impl<'a> CoreSearch<'a> {
    /// A search in the types of a kernel for those of an object. It takes no memory.
    pub fn new(alloc: Global, local: &'a Btf, target: &'a Btf) -> CoreSearch<'a>
        ensures local { result.local ≡ local.now }
        ensures target { result.target ≡ target.now }
    {
        CoreSearch {
            local,
            target,
            indices: Vec::new(alloc),
            cached: BTreeMap::new(alloc),
        }
    }

    /// The types of the object.
    pub fn local(&self) -> &'a Btf
        ensures { result.now ≡ self.now.local }
    {
        self.local
    }

    /// The kernel's types.
    pub fn target(&self) -> &'a Btf
        ensures { result.now ≡ self.now.target }
    {
        self.target
    }

    /// The ids of the kernel's types that a local type may stand for, in increasing order: those of its kind and name.
    ///
    /// # Errors
    ///
    /// - `UnknownBtfType`: there is no such local type.
    /// - `InvalidStringOffset`: its name, or that of a kernel's type of its kind, can't be read.
    /// - `OutOfMemory`: memory is refused.
    pub fn candidates(&mut self, alloc: Global, type_id: u32) -> Result<Items<u32>, BtfError>
        ensures ids { Gives is_btf_memory result
            (candidates_for self.old.local self.old.target type_id) }
        ensures stays { self.new ≡ self.old }
    {
        let (local, target) = (self.local, self.target);
        let ty = local.type_by_id(type_id)?;
        let name = local.type_name(&ty)?;
        let searched = NamedType {
            ty: &ty,
            name: name.as_str(),
        };
        let n = index_for(alloc, &mut self.indices, local, target, searched)?;
        ids_named(alloc, &self.indices[n], searched)
    }

    /// The outcome of a relocation over the kernel's types that its local type may stand for.
    fn search(
        &mut self,
        alloc: Global,
        relocation: &Relocation,
        path: &LocalPath,
    ) -> Result<Outcome, RelocationError>
        ensures outcome { Tells result
            (if_ok
            (of_types
            (candidates_for self.old.local self.old.target relocation.now.type_id))
            (outcome_among self.old.local self.old.target relocation.now path.now)) }
        ensures stays { self.new ≡ self.old }
    {
        let (local, target) = (self.local, self.target);
        let ty = local.type_by_id(relocation.type_id)?;
        let name = local.type_name(&ty)?;
        let searched = NamedType {
            ty: &ty,
            name: name.as_str(),
        };
        let n = index_for(alloc, &mut self.indices, local, target, searched)?;
        outcome_named(alloc, local, &self.indices[n], relocation, path, searched)
    }

    /// The outcome of a relocation, whatever is cached.
    fn find(&mut self, alloc: Global, relocation: &Relocation) -> Result<Outcome, RelocationError>
        ensures outcome { Tells result (outcome_of self.old.local self.old.target relocation.now) }
        ensures stays { self.new ≡ self.old }
    {
        let path = local_path(alloc, self.local, relocation)?;
        if is_local(relocation.kind) {
            return Ok(Outcome {
                value: Some(u64::from(relocation.type_id)),
                local: None,
                target: None,
            });
        }
        self.search(alloc, relocation, &path)
    }

    /// Caches the outcome of a relocation for all with the same question.
    fn cache(&mut self, relocation: &Relocation, outcome: Outcome) -> Result<(), AllocError>
        requires { outcome_of self.old.local self.old.target relocation.now ≡ Ok outcome }
        ensures { self.new ≡ self.old }
    {
        self.cached.insert(question_of(relocation), outcome)?;
        Ok(())
    }

    /// The outcome of a relocation: the one that is cached, or else the one that a search finds.
    fn cached_outcome(
        &mut self,
        alloc: Global,
        relocation: &Relocation,
    ) -> Result<Outcome, RelocationError>
        ensures outcome { Tells result (outcome_of self.old.local self.old.target relocation.now) }
        ensures stays { self.new ≡ self.old }
    {
        if let Some(outcome) = self.cached.get(&question_of(relocation)) {
            return Ok(*outcome);
        }
        let outcome = self.find(alloc, relocation)?;
        self.cache(relocation, outcome)?;
        Ok(outcome)
    }

    /// The outcome of a relocation.
    pub fn outcome(
        &mut self,
        alloc: Global,
        relocation: &Relocation,
    ) -> Result<Outcome, RelocationError>
        ensures outcome { Tells result (outcome_of self.old.local self.old.target relocation.now) }
        ensures refused { IfErr result (λ e.
            MatchBool (is_record_memory e) ⊤
            (OutcomeIsRefused self.old.local self.old.target relocation.now
            (without_texts e))) }
        ensures stays { self.new ≡ self.old }
    {
        self.cached_outcome(alloc, relocation)
    }
}

/// The question of a relocation.
pub fn question_of(relocation: &Relocation) -> Question
    ensures { result ≡ question_of relocation.now }
{
    (
        (relocation.type_id, relocation.access_str_off),
        relocation.kind.number(),
    )
}
