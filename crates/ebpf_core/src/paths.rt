//! The local side of a relocation: its type, and the meaning of its access string there.

ghost use Rattle.std.specs.Prelude.{◌≡◌, ◌==◌, IfOk, map};
ghost use Rattle.std.specs.List.{slice_split};
ghost use Rattle.ebpf_core.specs.Answers.{Tells, TellsSo};
ghost use Rattle.ebpf_core.specs.LocalPaths.{LocalSideIs, local_path, only_accessor, named_variant, path_for, type_path, variant_path, basis_of, accessors, all_of, accessor_of, accessors_of};
ghost use Rattle.ebpf_core.specs.declared.paths.NamedPath.TheVariants as paths;

use crate::error::{
    RelocationError, Request, invalid_access_index, invalid_access_string, invalid_kind,
    kind_words, too_nested,
};
use crate::local_walk::field_path;
use crate::{FieldPlace, Step};
use ebpf_base::{Items, Text};
use ebpf_btf::{Btf, BtfType, BtfVariant};
use ebpf_btf_ext::{Relocation, RelocationKind};
use std::alloc::{AllocError, Global};

/// The subject of a relocation, by the names that its local type has.
#[derive(Debug, Drop)]
pub enum NamedPath {
    /// The type as a whole.
    WholeType,
    /// The type as a whole, which is to match.
    MatchedType,
    /// The variant of an enumeration with a name.
    Variant {
        name: Text,
    },
    /// The field that the steps lead to, which lies at `place` in the local type.
    Field {
        steps: Items<Step>,
        place: FieldPlace,
    },
}

/// The sort of a relocation's subject.
#[derive(Clone, Copy)]
pub enum RelocationBasis {
    /// A field: a member or an element.
    Field,
    /// A type as a whole.
    WholeType,
    /// A type as a whole, which is to match.
    MatchedType,
    /// A variant of an enumeration.
    Variant,
}

/// The local side of a relocation.
#[derive(Debug, Drop)]
pub struct LocalPath {
    /// The name of the local type.
    pub type_name: Text,
    /// The subject of the relocation in the local type.
    pub path: NamedPath,
}

/// The only accessor.
fn only_accessor(parts: &[usize]) -> Option<usize>
    ensures { result ≡ only_accessor parts.now }
{
    match parts {
        [part] => Some(*part),
        _ => None,
    }
}

/// The path of a relocation on a type, whose string is one 0.
fn type_path(alloc: Global, access: &str, parts: &[usize]) -> Result<NamedPath, RelocationError>
    ensures { Tells result (type_path paths.WholeType access.now parts.now) }
{
    if only_accessor(parts) == Some(0) {
        return Ok(NamedPath::WholeType);
    }
    invalid_access_string(alloc, access)
}

/// The path of a relocation on a type that is to match, whose string is one 0.
fn matched_path(alloc: Global, access: &str, parts: &[usize]) -> Result<NamedPath, RelocationError>
    ensures { Tells result (type_path paths.MatchedType access.now parts.now) }
{
    if only_accessor(parts) == Some(0) {
        return Ok(NamedPath::MatchedType);
    }
    invalid_access_string(alloc, access)
}

/// The path of a relocation on a variant.
fn named_variant(
    alloc: Global,
    local: &Btf,
    variant: BtfVariant,
) -> Result<NamedPath, RelocationError>
    ensures { Tells result (named_variant local.now variant) }
{
    let name = local.string_at(variant.name_offset)?;
    Ok(NamedPath::Variant {
        name: Text::from_str(alloc, name.as_str())?,
    })
}

/// The path of a relocation on a variant of a type, by the variant's number.
#[tactic(auto, unfolding(crate::specs::LocalPaths::variant_path))]
fn variant_path(
    alloc: Global,
    local: &Btf,
    request: Request<'_>,
    ty: &BtfType<'_>,
    parts: &[usize],
) -> Result<NamedPath, RelocationError>
    ensures { Tells result
        (variant_path local.now request.entry.number request.entry.access.now ty.now
        parts.now) }
{
    let Some(count) = ty.variant_count() else {
        let place = Text::from_str(alloc, request.type_name)?;
        return invalid_kind(
            alloc,
            request.number,
            request.kind,
            place,
            kind_words(ty.kind()),
        );
    };
    let Some(part) = only_accessor(parts) else {
        return invalid_access_string(alloc, request.access);
    };
    match ty.variant(part) {
        Some(variant) => named_variant(alloc, local, variant),
        None => {
            let place = Text::from_str(alloc, request.type_name)?;
            invalid_access_index(alloc, request.access, place, part, count, "variants")
        }
    }
}

/// The path of a relocation in its resolved local type.
fn path_for(
    alloc: Global,
    local: &Btf,
    request: Request<'_>,
    type_id: u32,
    parts: &[usize],
) -> Result<NamedPath, RelocationError>
    ensures { Tells result
        (path_for local.now request.entry.number request.entry.access.now type_id parts.now
        (basis_of request.entry.kind)) }
{
    match basis_of(request.kind) {
        RelocationBasis::WholeType => type_path(alloc, request.access, parts),
        RelocationBasis::MatchedType => matched_path(alloc, request.access, parts),
        RelocationBasis::Variant => {
            let ty = local.type_by_id(type_id)?;
            variant_path(alloc, local, request, &ty, parts)
        }
        RelocationBasis::Field => field_path(alloc, local, request, type_id, parts),
    }
}

/// The name of a relocation's local type, and the meaning of the access string there.
#[tactic(auto, unfolding(crate::specs::LocalPaths::local_path))]
fn local_side(
    alloc: Global,
    local: &Btf,
    relocation: &Relocation,
) -> Result<LocalPath, RelocationError>
    ensures { Tells result (local_path local.now relocation.now) }
{
    let ty = local.type_by_id(relocation.type_id)?;
    let type_name = local.type_name(&ty)?;
    let access = local.string_at(relocation.access_str_off)?;
    let parts = accessors(alloc, type_name.as_str(), access.as_str())?;
    let type_id = local.resolve_type(relocation.type_id)?;
    let request = Request {
        number: relocation.number,
        kind: relocation.kind,
        access: access.as_str(),
        type_name: type_name.as_str(),
    };
    let path = path_for(alloc, local, request, type_id, parts.as_slice())?;
    Ok(LocalPath {
        type_name: Text::from_str(alloc, type_name.as_str())?,
        path,
    })
}

/// The local side of a relocation: the name of its type, and the meaning of its access string there.
///
/// # Errors
///
/// The first of these, in this order:
///
/// - `BtfError`: the type, its name or the string can't be read.
/// - `InvalidAccessString`: a piece between colons is no `usize`.
/// - `MaximumNestingLevelReached`: there are more than 64 pieces.
/// - `BtfError`: the type can't be resolved.
/// - Of a relocation on a type: `InvalidAccessString` where the string isn't one 0.
/// - Of a relocation on a variant: `InvalidRelocationKindForType` where the type is no enumeration,
///   `InvalidAccessString` where there is more than one part, `InvalidAccessIndex` where there is no such variant,
///   `BtfError` of its name.
/// - Of a relocation on a field, part by part: `BtfError` of a size, a type or a name, or where the field lies past
///   4,294,967,295 bits; `InvalidAccessIndex` past the members or elements; `InvalidRelocationKindForType` in a type
///   that has neither.
/// - `OutOfMemory`: memory is refused.
pub fn local_path(
    alloc: Global,
    local: &Btf,
    relocation: &Relocation,
) -> Result<LocalPath, RelocationError>
    ensures side { TellsSo result (LocalSideIs local.now relocation.now) }
    ensures same { Tells result (local_path local.now relocation.now) }
{
    local_side(alloc, local, relocation)
}

/// How many accessors an access string may have.
const MOST_ACCESSORS: usize = 64;

/// The number that a piece of an access string writes.
fn accessor_of(piece: &str) -> Option<usize>
    ensures { result ≡ accessor_of piece.now }
{
    piece.parse::<usize>().ok()
}

/// The pieces between the colons of an access string.
fn pieces_of(alloc: Global, access: &str) -> Result<Vec<&str>, AllocError>
    ensures { IfOk result (λ pieces.
        map (λ piece. piece.now) pieces.items ≡ slice_split (λ b. b == 58) access.now) }
{
    let mut pieces = Vec::new(alloc);
    for piece in access.split(':') {
        pieces.push(piece)?;
    }
    Ok(pieces)
}

/// The accessors that pieces write, where each writes one.
#[tactic(auto, using(crate::proofs::LocalSides::all_more, crate::proofs::LocalSides::all_missing, crate::proofs::LocalSides::all_end))]
fn all_parts(alloc: Global, pieces: &[&str]) -> Result<Option<Items<usize>>, AllocError>
    ensures { IfOk result (λ parts.
        parts ≡ all_of (map (λ piece. accessor_of piece.now) pieces.now)) }
{
    let mut parts = Items::new(alloc);
    for piece in pieces {
        let Some(part) = accessor_of(piece) else {
            return Ok(None);
        };
        parts.push(part)?;
    }
    Ok(Some(parts))
}

/// The accessors of an access string, where each piece between its colons is one.
fn accessors_of(alloc: Global, access: &str) -> Result<Option<Items<usize>>, AllocError>
    ensures { IfOk result (λ parts. parts ≡ accessors_of access.now) }
{
    let pieces = pieces_of(alloc, access)?;
    all_parts(alloc, pieces.as_slice())
}

/// The accessors of an access string. The errors name the string and the local type.
///
/// # Errors
///
/// - `InvalidAccessString`: a piece between colons is no `usize`.
/// - `MaximumNestingLevelReached`: there are more than 64 accessors.
/// - `OutOfMemory`: memory is refused.
pub fn accessors(
    alloc: Global,
    type_name: &str,
    access: &str,
) -> Result<Items<usize>, RelocationError>
    ensures { Tells result (accessors type_name.now access.now) }
{
    let Some(parts) = accessors_of(alloc, access)? else {
        return invalid_access_string(alloc, access);
    };
    if parts.len() > MOST_ACCESSORS {
        return too_nested(alloc, type_name);
    }
    Ok(parts)
}

/// The sort of subject that the relocations of a kind have.
pub fn basis_of(kind: RelocationKind) -> RelocationBasis
    ensures { result ≡ basis_of kind }
{
    match kind {
        RelocationKind::FieldByteOffset
        | RelocationKind::FieldByteSize
        | RelocationKind::FieldExists
        | RelocationKind::FieldSigned
        | RelocationKind::FieldLShift64
        | RelocationKind::FieldRShift64 => RelocationBasis::Field,
        RelocationKind::TypeIdLocal
        | RelocationKind::TypeIdTarget
        | RelocationKind::TypeExists
        | RelocationKind::TypeSize => RelocationBasis::WholeType,
        RelocationKind::TypeMatches => RelocationBasis::MatchedType,
        RelocationKind::EnumVariantExists | RelocationKind::EnumVariantValue =>
            RelocationBasis::Variant,
    }
}
