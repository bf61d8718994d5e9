//! Sets of kinds, and tables by kind.

ghost use Rattle.std.specs.Prelude.{◌≡◌, ◌<◌, length, true, ◌++◌, ◌==◌, ◌∷◌, [], IfOk, OnOk, slice_index_or, if◌then◌else◌, None, Some};
ghost use Rattle.ebpf_btf.specs.Types.{kind_number};
ghost use Rattle.ebpf_btf.specs.declared.kind.BtfKind.{BtfKind};
ghost use Rattle.ebpf_core_candidates.specs.Candidates.{has_kind, is_among_kinds};
ghost use Rattle.ebpf_base.specs.Faults.{or_else};
ghost use Rattle.ebpf_core_candidates.specs.TypeRows.{lower};
ghost use Rattle.ebpf_btf.specs.declared.error.BtfError.TheVariants.{InvalidStringOffset};

use ebpf_base::Items;
use ebpf_btf::{BtfError, BtfKind};
use std::alloc::{AllocError, Global};

/// The number of kinds, 0 to 19.
pub const KINDS: usize = 20;

/// Returns the number of a kind in `.BTF`.
#[tactic(auto, unfolding(ebpf_btf::specs::Types::kind_number))]
pub fn kind_number(kind: BtfKind) -> u8
    ensures number { result ≡ kind_number kind }
    ensures few { result < 20 }
{
    kind as u8
}

/// A set of kinds: for each kind, at its number, whether it is in the set.
pub type SomeKinds = [bool; KINDS];

/// Returns the set of all kinds.
pub fn every_kind() -> SomeKinds
    ensures few { length result ≡ 20 }
    ensures all { (kind : BtfKind) → has_kind result kind ≡ true }
{
    [true; KINDS]
}

/// Returns the set of the kinds of a list.
pub fn kinds_of(list: &[BtfKind]) -> SomeKinds
    ensures few { length result ≡ 20 }
    ensures listed { (kind : BtfKind) → has_kind result kind ≡ is_among_kinds list.now kind }
{
    let mut kinds = [false; KINDS];
    for kind in list {
        kinds[kind_number(*kind) as usize] = true;
    }
    kinds
}

/// Returns whether a kind is in a set.
pub fn has_kind(kinds: &SomeKinds, kind: BtfKind) -> bool
    requires { length kinds.now ≡ 20 }
    ensures { result ≡ has_kind kinds.now kind }
{
    kinds[kind_number(kind) as usize]
}

/// For each kind, at its number, the ids of the types without a name.
pub type AnonymousTypes = Vec<Items<u32>>;

/// Returns an empty list of anonymous types for each kind.
///
/// # Errors
///
/// - `AllocError`: out of memory.
pub fn no_anonymous_types(alloc: Global) -> Result<AnonymousTypes, AllocError>
    ensures kinds { IfOk result (λ lists. length lists.items ≡ 20) }
    ensures empty { IfOk result (λ lists.
        (k : BtfKind) → slice_index_or lists.items (kind_number k) [] ≡ []) }
{
    let mut lists = Vec::with_capacity(alloc, KINDS)?;
    for _kind in 0..KINDS {
        lists.push(Items::new(alloc))?;
    }
    Ok(lists)
}

/// Adds the id of a type to the list of its kind.
///
/// # Errors
///
/// - `AllocError`: out of memory.
pub fn add_anonymous(lists: &mut AnonymousTypes, kind: BtfKind, id: u32) -> Result<(), AllocError>
    requires { length lists.old.items ≡ 20 }
    ensures kinds { OnOk result (length lists.new.items ≡ 20) }
    ensures added { OnOk result
        ((k : BtfKind)
        → slice_index_or lists.new.items (kind_number k) []
        ≡ slice_index_or lists.old.items (kind_number k) []
        ++ (if kind_number kind == kind_number k then id ∷ [] else [])) }
{
    lists[kind_number(kind) as usize].push(id)?;
    Ok(())
}

/// A type whose name cannot be read.
#[derive(Clone, Copy)]
pub struct UnreadableName {
    /// The type's id.
    pub id: u32,
    /// The offset of the type's name in the strings.
    pub offset: u32,
}

impl UnreadableName {
    /// Returns the error of the name: `InvalidStringOffset` with its offset.
    pub fn fault(&self) -> BtfError
        ensures { result ≡ InvalidStringOffset self.now.offset }
    {
        BtfError::InvalidStringOffset {
            offset: self.offset as usize,
        }
    }
}

/// For each kind, at its number, the first type whose name cannot be read.
pub type UnreadableNames = [Option<UnreadableName>; KINDS];

/// Stores an unreadable name, unless its kind has one before.
pub fn keep_first(names: &mut UnreadableNames, kind: BtfKind, name: UnreadableName)
    requires { length names.old ≡ 20 }
    ensures kinds { length names.new ≡ 20 }
    ensures first { (k : BtfKind)
        → slice_index_or names.new (kind_number k) None
        ≡ or_else (slice_index_or names.old (kind_number k) None)
        (if kind_number kind == kind_number k then Some name else None) }
{
    let index = kind_number(kind) as usize;
    if names[index].is_none() {
        names[index] = Some(name);
    }
}

/// Returns the unreadable name of the type with the lower id.
pub fn lower(
    first: Option<UnreadableName>,
    second: Option<UnreadableName>,
) -> Option<UnreadableName>
    ensures { result ≡ lower first second }
{
    match (first, second) {
        (Some(one), Some(other)) if other.id < one.id => Some(other),
        (Some(one), _) => Some(one),
        (None, other) => other,
    }
}
