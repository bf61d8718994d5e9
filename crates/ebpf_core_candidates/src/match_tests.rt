//! The test that decides whether two types of one name match.

ghost use Rattle.std.specs.Prelude.{◌≡◌, false, is_some, length, slice_get, true};
ghost use Rattle.ebpf_btf.specs.Types.{kind_of};
ghost use Rattle.ebpf_btf.specs.Variants.{variants_of};
ghost use Rattle.ebpf_core_candidates.specs.TypeMatches.{composite_test, declared_kind, element_count, enumeration_test, enumerator_part, has_no_more_parts, inner_test, ints_match, match_test, matched_pair, member_part, parts_of, prototype_test, same_declared_kind, same_size, test_by_kind};

use crate::compatible::{Pair, both, inner_type_id, params_of, same_kind};
use ebpf_btf::{BtfKind, BtfMember, BtfParam, BtfType, BtfVariant, Rows};

/// A type of an object and a type of a kernel that may match.
#[derive(Clone, Copy)]
pub struct MatchedPair {
    /// The id of the object's type.
    pub local: u32,
    /// The id of the kernel's type.
    pub target: u32,
    /// Whether a pointer leads to the types.
    pub behind_pointer: bool,
}

/// A named part of a type: an enumerator, or a member with its type.
#[derive(Clone, Copy)]
pub struct NamedPart {
    /// The offset of the name in the strings.
    pub name_offset: u32,
    /// The id of the member's type; none for an enumerator.
    pub btf_type: Option<u32>,
}

/// What decides whether two types of one name match.
#[derive(Drop)]
pub enum MatchTest<'a> {
    /// Nothing more: they match or not.
    Decided {
        matches: bool,
    },
    /// The types that pointers lead to, or the types of elements.
    Inner {
        pair: MatchedPair,
    },
    /// The parts: each part of the local type has a match among those of the kernel's type.
    Parts {
        local: BtfType<'a>,
        target: BtfType<'a>,
    },
    /// The parameters of prototypes, and then the types of the results.
    Parameters {
        local: Rows<'a, BtfParam>,
        target: Rows<'a, BtfParam>,
        results: MatchedPair,
    },
}

/// Returns a pair that a pointer leads to or not.
pub fn matched_pair(behind_pointer: bool, pair: Pair) -> MatchedPair
    ensures { result ≡ matched_pair behind_pointer pair }
{
    MatchedPair {
        local: pair.local,
        target: pair.target,
        behind_pointer,
    }
}

/// Returns an enumerator as a part.
fn enumerator_part(variant: BtfVariant) -> NamedPart
    ensures { result ≡ enumerator_part variant }
{
    NamedPart {
        name_offset: variant.name_offset,
        btf_type: None,
    }
}

/// Returns a member as a part.
fn member_part(member: BtfMember) -> NamedPart
    ensures { result ≡ member_part member }
{
    NamedPart {
        name_offset: member.name_offset,
        btf_type: Some(member.btf_type),
    }
}

/// Returns the number of the parts of a type.
pub fn part_count(ty: &BtfType<'_>) -> usize
    ensures { result ≡ length (parts_of ty.now) }
{
    if let Some(count) = ty.variant_count() {
        return count;
    }
    match ty.members() {
        Some(members) => members.len(),
        None => 0,
    }
}

/// Returns the enumerator of an enumeration at an index, as a part.
#[tactic(auto, using(crate::proofs::TypeMatching::enumerator_there, crate::proofs::TypeMatching::enumerator_missing))]
fn enumerator_at(ty: &BtfType<'_>, index: usize) -> Option<NamedPart>
    requires { is_some (variants_of ty.now) ≡ true }
    ensures { result ≡ slice_get (parts_of ty.now) index }
{
    let Some(variant) = ty.variant(index) else {
        return None;
    };
    Some(enumerator_part(variant))
}

/// Returns the member of a type that is no enumeration at an index, as a part.
#[tactic(auto, using(crate::proofs::TypeMatching::member_there, crate::proofs::TypeMatching::member_missing, crate::proofs::TypeMatching::no_members))]
fn member_at(ty: &BtfType<'_>, index: usize) -> Option<NamedPart>
    requires { is_some (variants_of ty.now) ≡ false }
    ensures { result ≡ slice_get (parts_of ty.now) index }
{
    let Some(members) = ty.members() else {
        return None;
    };
    let Some(member) = members.get(index) else {
        return None;
    };
    Some(member_part(member))
}

/// Returns the part of a type at an index, from 0 on; none past the last part.
pub fn part_at(ty: &BtfType<'_>, index: usize) -> Option<NamedPart>
    ensures { result ≡ slice_get (parts_of ty.now) index }
{
    if ty.variant_count().is_some() {
        return enumerator_at(ty, index);
    }
    member_at(ty, index)
}

/// Returns whether the local type has no more parts than the other.
fn has_no_more_parts(local: &BtfType<'_>, target: &BtfType<'_>) -> bool
    ensures { result ≡ has_no_more_parts local.now target.now }
{
    part_count(local) <= part_count(target)
}

/// Returns whether two types have the same size, or both none.
fn same_size(local: &BtfType<'_>, target: &BtfType<'_>) -> bool
    ensures { result ≡ same_size local.now target.now }
{
    local.size() == target.size()
}

/// Returns the test of an enumeration.
fn enumeration_test<'a>(local: BtfType<'a>, target: BtfType<'a>) -> MatchTest<'a>
    ensures { result ≡ enumeration_test local.entry target.entry }
{
    if target.variant_count().is_some()
        && same_size(&local, &target)
        && has_no_more_parts(&local, &target)
    {
        return MatchTest::Parts { local, target };
    }
    MatchTest::Decided { matches: false }
}

/// Returns the kind that a STRUCT, a UNION or a forward declaration of either stands for; none for other types.
#[tactic(auto, unfolding(crate::specs::TypeMatches::declared_kind))]
fn declared_kind(ty: &BtfType<'_>) -> Option<BtfKind>
    ensures { result ≡ declared_kind ty.now }
{
    match ty {
        BtfType::Struct { .. } => Some(BtfKind::Struct),
        BtfType::Union { .. } => Some(BtfKind::Union),
        BtfType::Fwd { kind_flag, .. } => Some(if *kind_flag {
            BtfKind::Union
        } else {
            BtfKind::Struct
        }),
        _ => None,
    }
}

/// Returns whether two types stand for the same one of STRUCT and UNION.
#[tactic(auto, unfolding(ebpf_btf::specs::Types::kind_number))]
fn same_declared_kind(local: &BtfType<'_>, target: &BtfType<'_>) -> bool
    ensures { result ≡ same_declared_kind local.now target.now }
{
    match (declared_kind(local), declared_kind(target)) {
        (Some(own), Some(other)) => own as u8 == other as u8,
        _ => false,
    }
}

/// Returns the test of a STRUCT or UNION.
fn composite_test<'a>(
    behind_pointer: bool,
    local: BtfType<'a>,
    target: BtfType<'a>,
) -> MatchTest<'a>
    ensures { result ≡ composite_test behind_pointer local.entry target.entry }
{
    if behind_pointer {
        return MatchTest::Decided {
            matches: same_declared_kind(&local, &target),
        };
    }
    if same_kind(&local, &target) && has_no_more_parts(&local, &target) {
        return MatchTest::Parts { local, target };
    }
    MatchTest::Decided { matches: false }
}

/// Returns whether two INTs have the same size and the same sign.
fn ints_match(local: &BtfType<'_>, target: &BtfType<'_>) -> bool
    ensures { result ≡ ints_match local.now target.now }
{
    same_kind(local, target) && same_size(local, target) && local.is_signed() == target.is_signed()
}

/// Returns the number of the elements of an ARRAY; 0 for other types.
#[tactic(auto, unfolding(crate::specs::TypeMatches::element_count))]
fn element_count(ty: &BtfType<'_>) -> u32
    ensures { result ≡ element_count ty.now }
{
    match ty {
        BtfType::Array { len, .. } => *len,
        _ => 0,
    }
}

/// Returns the test of the inner types of two types.
fn inner_test<'a>(behind_pointer: bool, local: &BtfType<'a>, target: &BtfType<'a>) -> MatchTest<'a>
    ensures { result ≡ inner_test behind_pointer local.now target.now }
{
    if !same_kind(local, target) || element_count(local) != element_count(target) {
        return MatchTest::Decided { matches: false };
    }
    match both(inner_type_id(local), inner_type_id(target)) {
        Some(pair) => MatchTest::Inner {
            pair: matched_pair(behind_pointer, pair),
        },
        None => MatchTest::Decided { matches: false },
    }
}

/// Returns the test of two prototypes.
fn prototype_test<'a>(
    behind_pointer: bool,
    local: &BtfType<'a>,
    target: &BtfType<'a>,
) -> MatchTest<'a>
    ensures { result ≡ prototype_test behind_pointer local.now target.now }
{
    if !same_kind(local, target) || params_of(local).len() != params_of(target).len() {
        return MatchTest::Decided { matches: false };
    }
    match both(inner_type_id(local), inner_type_id(target)) {
        Some(pair) => MatchTest::Parameters {
            local: params_of(local),
            target: params_of(target),
            results: matched_pair(behind_pointer, pair),
        },
        None => MatchTest::Decided { matches: false },
    }
}

/// Returns the test of two types of which the local one is no enumeration.
#[tactic(auto, unfolding(crate::specs::TypeMatches::test_by_kind))]
fn test_by_kind<'a>(behind_pointer: bool, local: BtfType<'a>, target: BtfType<'a>) -> MatchTest<'a>
    ensures { result ≡ test_by_kind (kind_of local.entry) behind_pointer local.entry target.entry }
{
    match local.kind() {
        BtfKind::Unknown => MatchTest::Decided {
            matches: same_kind(&local, &target),
        },
        BtfKind::Fwd => MatchTest::Decided {
            matches: (behind_pointer || same_kind(&local, &target))
                && same_declared_kind(&local, &target),
        },
        BtfKind::Struct | BtfKind::Union => composite_test(behind_pointer, local, target),
        BtfKind::Int => MatchTest::Decided {
            matches: ints_match(&local, &target),
        },
        BtfKind::Ptr => inner_test(true, &local, &target),
        BtfKind::Array => inner_test(behind_pointer, &local, &target),
        BtfKind::FuncProto => prototype_test(behind_pointer, &local, &target),
        _ => MatchTest::Decided { matches: false },
    }
}

/// Returns the test of two types of one name.
pub fn match_test<'a>(
    behind_pointer: bool,
    local: BtfType<'a>,
    target: BtfType<'a>,
) -> MatchTest<'a>
    ensures { result ≡ match_test behind_pointer local.entry target.entry }
{
    if local.variant_count().is_some() {
        return enumeration_test(local, target);
    }
    test_by_kind(behind_pointer, local, target)
}
