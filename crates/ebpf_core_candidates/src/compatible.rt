//! Compares fields and types of an object with fields and types of a kernel.

ghost use Rattle.std.specs.Prelude.{◌≡◌, Ok};
ghost use Rattle.ebpf_core_candidates.specs.Compatibility.{both, both_begin_at_0, first_bit, same_kind, are_named_alike, element, fields_compatible, is_composite, names_fit, types_fit, compared_from, is_alike, shallow_alike, first_end, found_from, inner_type_id, is_compared, params_of, type_levels, type_pairs, types_compatible};
ghost use Rattle.ebpf_base.specs.Faults.{Gives, if_ok};
ghost use Rattle.ebpf_btf.specs.EssentialNames.{essential_name};
ghost use Rattle.ebpf_btf.specs.Strings.{type_name};
ghost use Rattle.ebpf_btf.specs.Memory.{is_btf_memory};
ghost use Rattle.ebpf_btf.specs.declared.error.BtfError.TheVariants.{MaximumTypeDepth};

use ebpf_btf::{Btf, BtfError, BtfKind, BtfParam, BtfType, Rows, essential_name};

/// The ids of a type of an object and of a type of a kernel.
#[derive(Clone, Copy)]
pub struct Pair {
    /// The id of the object's type.
    pub local: u32,
    /// The id of the kernel's type.
    pub target: u32,
}

/// Returns the pair of two types; none where a side has no type.
pub fn both(local: Option<u32>, target: Option<u32>) -> Option<Pair>
    ensures { result ≡ both local target }
{
    match (local, target) {
        (Some(local), Some(target)) => Some(Pair { local, target }),
        _ => None,
    }
}

/// Returns whether two types have the same kind.
#[tactic(auto, unfolding(ebpf_btf::specs::Types::kind_number))]
pub fn same_kind(local: &BtfType<'_>, target: &BtfType<'_>) -> bool
    ensures { result ≡ same_kind local.now target.now }
{
    local.kind() as u8 == target.kind() as u8
}

/// Returns the bit offset of an INT in its bytes; 0 for other types.
#[tactic(auto, unfolding(crate::specs::Compatibility::first_bit))]
fn first_bit(ty: &BtfType<'_>) -> u32
    ensures { result ≡ first_bit ty.now }
{
    match ty {
        BtfType::Int { int_data, .. } => (int_data >> 16) & 0xff,
        _ => 0,
    }
}

/// Returns whether two types begin at bit 0 of their bytes.
pub fn both_begin_at_0(local: &BtfType<'_>, target: &BtfType<'_>) -> bool
    ensures { result ≡ both_begin_at_0 local.now target.now }
{
    first_bit(local) == 0 && first_bit(target) == 0
}

/// The maximum number of pairs of fields: the given pair, and 32 pairs of elements.
const FIELD_LEVELS: u32 = 33;

/// Returns whether a kind is STRUCT or UNION.
fn is_composite(kind: BtfKind) -> bool
    ensures { result ≡ is_composite kind }
{
    matches!(kind, BtfKind::Struct | BtfKind::Union)
}

/// Returns the type of the elements of an ARRAY; none for other types.
#[tactic(auto, unfolding(crate::specs::Compatibility::element))]
fn element(ty: &BtfType<'_>) -> Option<u32>
    ensures { result ≡ element ty.now }
{
    match ty {
        BtfType::Array { element_type, .. } => Some(*element_type),
        _ => None,
    }
}

/// Returns whether the essential name of a type equals the essential part of a text, or one of the two is empty.
#[tactic(auto, using(crate::proofs::Comparisons::no_flavor))]
fn is_named_alike(btf: &Btf, ty: &BtfType<'_>, name: &str) -> Result<bool, BtfError>
    ensures { result
        ≡ if_ok (type_name btf.now ty.now) (λ read.
        Ok (names_fit (essential_name name.now) (essential_name read))) }
{
    let offset = ty.name_offset();
    if btf.is_essential_name_at(offset, name)? || btf.is_essential_name_at(offset, "")? {
        return Ok(true);
    }
    Ok(essential_name(name.as_bytes()) == b"".as_slice())
}

/// Returns whether the essential names of two types are equal, or one of the two is empty.
fn are_named_alike(
    local: &Btf,
    local_type: &BtfType<'_>,
    target: &Btf,
    target_type: &BtfType<'_>,
) -> Result<bool, BtfError>
    ensures { Gives is_btf_memory result
        (are_named_alike local.now target.now local_type.now target_type.now) }
{
    let name = local.type_name(local_type)?;
    is_named_alike(target, target_type, name.as_str())
}

/// Returns whether two types fit that are not both ARRAYs.
#[tactic(auto, unfolding(crate::specs::Compatibility::decided_by))]
fn types_fit(
    local: &Btf,
    local_type: &BtfType<'_>,
    target: &Btf,
    target_type: &BtfType<'_>,
) -> Result<bool, BtfError>
    ensures { Gives is_btf_memory result
        (types_fit local.now target.now local_type.now target_type.now) }
{
    if is_composite(local_type.kind()) && is_composite(target_type.kind()) {
        return Ok(true);
    }
    if !same_kind(local_type, target_type) {
        return Ok(false);
    }
    match local_type.kind() {
        BtfKind::Ptr | BtfKind::Float => Ok(true),
        BtfKind::Enum | BtfKind::Enum64 | BtfKind::Fwd => {
            are_named_alike(local, local_type, target, target_type)
        }
        BtfKind::Int => Ok(both_begin_at_0(local_type, target_type)),
        _ => Ok(false),
    }
}

/// Returns whether a field of the type `local_id` of an object fits a field of the type `target_id` of a kernel (the
/// kernel's tools/lib/bpf/relo_core.c, `bpf_core_fields_are_compat`).
///
/// Both types are resolved first. A STRUCT or UNION fits a STRUCT or UNION. Else the kinds have to be the same: a PTR fits
/// a PTR and a FLOAT a FLOAT, of whatever sizes; INTs fit where both begin at bit 0; an ENUM, ENUM64 or FWD fits
/// where the names up to the first `___` are equal or one is empty; an ARRAY where its elements do. Nothing else fits.
///
/// # Errors
///
/// A fault of the local side comes first.
///
/// - `UnknownBtfType`, `MaximumTypeDepth`: as in `resolve_type`.
/// - `MaximumTypeDepth` of `local_id`: more than 32 ARRAYs are inside one another.
/// - `InvalidStringOffset`: a name cannot be read.
/// - `OutOfMemory`: the local name is not UTF-8, and there is no memory for a copy.
#[tactic(auto, using(crate::proofs::Comparisons::fields_local_fault, crate::proofs::Comparisons::fields_target_fault, crate::proofs::Comparisons::fields_here, crate::proofs::Comparisons::fields_next, crate::proofs::Comparisons::fields_over))]
pub fn fields_are_compatible(
    local: &Btf,
    local_id: u32,
    target: &Btf,
    target_id: u32,
) -> Result<bool, BtfError>
    ensures { Gives is_btf_memory result
        (fields_compatible local.now local_id target.now target_id) }
{
    let mut pair = Pair {
        local: local_id,
        target: target_id,
    };
    for _level in 0..FIELD_LEVELS {
        let local_type = local.resolved_type(pair.local)?;
        let target_type = target.resolved_type(pair.target)?;
        let Some(elements) = both(element(&local_type), element(&target_type)) else {
            return types_fit(local, &local_type, target, &target_type);
        };
        pair = elements;
    }
    Err(BtfError::MaximumTypeDepth { type_id: local_id })
}

/// The maximum number of levels of pairs: the level of the given pair, and 32 below it.
const TYPE_LEVELS: u32 = 33;

/// The maximum number of pairs of a comparison, the given pair included.
const TYPE_PAIRS: u32 = 1_048_576;

/// The result of a comparison of two types.
#[derive(Clone, Copy)]
pub enum Likeness {
    /// The types are alike; the number is the number of pairs that the comparison may still meet.
    Alike { left: u32 },
    /// The types differ.
    Different,
}

/// The two sides of a comparison, and the local type at its start.
#[derive(Clone, Copy)]
struct Sides<'a> {
    local: &'a Btf,
    target: &'a Btf,
    root: u32,
}

/// Returns whether types of a kind can be alike.
#[tactic(auto, unfolding(crate::specs::Compatibility::is_compared))]
fn is_compared(kind: BtfKind) -> bool
    ensures { result ≡ is_compared kind }
{
    !matches!(
        kind,
        BtfKind::Typedef
            | BtfKind::Volatile
            | BtfKind::Const
            | BtfKind::Restrict
            | BtfKind::Func
            | BtfKind::Var
            | BtfKind::DataSec
            | BtfKind::DeclTag
            | BtfKind::TypeTag
    )
}

/// Returns the parameters of a FUNC_PROTO; no parameters for other types.
#[tactic(auto, unfolding(crate::specs::Compatibility::params_of))]
pub fn params_of<'a>(ty: &BtfType<'a>) -> Rows<'a, BtfParam>
    ensures { result ≡ params_of ty.now }
{
    match ty {
        BtfType::FuncProto { params, .. } => params.copy(),
        _ => Rows::of(&[]),
    }
}

/// Returns the inner type of a PTR (its target), an ARRAY (its elements) or a FUNC_PROTO (its result); none for other
/// types.
#[tactic(auto, unfolding(crate::specs::Compatibility::inner_type_id))]
pub fn inner_type_id(ty: &BtfType<'_>) -> Option<u32>
    ensures { result ≡ inner_type_id ty.now }
{
    match ty {
        BtfType::Ptr { btf_type, .. } | BtfType::FuncProto { btf_type, .. } => Some(*btf_type),
        _ => element(ty),
    }
}

/// Returns whether two types are alike without their inner types.
fn shallow_alike(local: &BtfType<'_>, target: &BtfType<'_>) -> bool
    ensures { result ≡ shallow_alike local.now target.now }
{
    same_kind(local, target)
        && is_compared(local.kind())
        && both_begin_at_0(local, target)
        && params_of(local).len() == params_of(target).len()
}

/// Compares a pair and all pairs below it, depth first, up to the first pair that differs. `levels` and `left` are the
/// maximum numbers of levels and of pairs.
fn compare(sides: Sides<'_>, levels: u32, left: u32, pair: Pair) -> Result<Likeness, BtfError>
    ensures { result
        ≡ compared_from levels sides.entry.local.now.types sides.entry.target.now.types
        sides.entry.root left pair }
{
    if levels == 0 || left == 0 {
        return Err(BtfError::MaximumTypeDepth {
            type_id: sides.root,
        });
    }
    let local = sides.local.resolved_type(pair.local)?;
    let target = sides.target.resolved_type(pair.target)?;
    if !shallow_alike(&local, &target) {
        return Ok(Likeness::Different);
    }
    let mut left = left - 1;
    let (params, others) = (params_of(&local), params_of(&target));
    for k in 0..params.len() {
        let types = Pair {
            local: params.at(k).btf_type,
            target: others.at(k).btf_type,
        };
        match compare(sides, levels - 1, left, types)? {
            Likeness::Alike { left: rest } => left = rest,
            Likeness::Different => return Ok(Likeness::Different),
        }
    }
    match both(inner_type_id(&local), inner_type_id(&target)) {
        Some(types) => compare(sides, levels - 1, left, types),
        None => Ok(Likeness::Alike { left }),
    }
}

/// Returns whether a comparison found no difference.
fn is_alike(found: Result<Likeness, BtfError>) -> Result<bool, BtfError>
    ensures { result ≡ is_alike found }
{
    match found {
        Ok(Likeness::Alike { .. }) => Ok(true),
        Ok(Likeness::Different) => Ok(false),
        Err(e) => Err(e),
    }
}

/// Returns whether the types of a pair and all types below them are alike.
#[tactic(auto, using(crate::proofs::Comparisons::compared_found))]
fn all_alike(sides: Sides<'_>, pair: Pair) -> Result<bool, BtfError>
    ensures { result
        ≡ first_end type_pairs (MaximumTypeDepth sides.entry.root)
        (found_from type_levels sides.entry.local.now.types sides.entry.target.now.types
        sides.entry.root pair) }
{
    is_alike(compare(sides, TYPE_LEVELS, TYPE_PAIRS, pair))
}

/// Returns whether the type `local_id` of an object is compatible with the type `target_id` of a kernel (the kernel's
/// tools/lib/bpf/relo_core.c, `bpf_core_types_are_compat`).
///
/// The kinds of the two types before resolution have to be the same. Then pairs of types are compared, depth first, up to
/// the first pair that differs. Both types of a pair are resolved, and their kinds have to be the same.
///
/// - `void`, STRUCT, UNION, ENUM, ENUM64, FWD and FLOAT: alike.
/// - INT: alike where both begin at bit 0.
/// - PTR and ARRAY: alike where the inner types are alike.
/// - FUNC_PROTO: alike where the numbers of parameters are equal, then each pair of parameters is alike, then the results
///   are alike.
/// - Other kinds: not alike.
///
/// # Errors
///
/// - `UnknownBtfType`, `MaximumTypeDepth`: as in `resolve_type`, when a pair is met; the error of the local side first.
/// - `MaximumTypeDepth` of `local_id`: a pair is more than 32 levels below the two types, or is pair 1,048,577, the two
///   types being the first.
pub fn types_are_compatible(
    local: &Btf,
    local_id: u32,
    target: &Btf,
    target_id: u32,
) -> Result<bool, BtfError>
    ensures { result ≡ types_compatible local.now local_id target.now target_id }
{
    let local_type = local.type_by_id(local_id)?;
    let target_type = target.type_by_id(target_id)?;
    if !same_kind(&local_type, &target_type) {
        return Ok(false);
    }
    let sides = Sides {
        local,
        target,
        root: local_id,
    };
    let pair = Pair {
        local: local_id,
        target: target_id,
    };
    all_alike(sides, pair)
}
