//! Resolves modifiers, and computes the sizes of types.

ghost use Rattle.std.specs.Prelude.{◌≡◌, ◌<◌};
ghost use Rattle.ebpf_btf.specs.Steps.{modifier_type_id, own_size, sized_by, repeats, times, resolved, resolved_type, size_of};

use crate::btf::Btf;
use crate::error::BtfError;
use crate::types::BtfType;

/// The maximum number of types that a resolution reads: the first, and 32 that it follows to.
const LOOKS: u32 = 33;

/// The size of a pointer in bytes.
const POINTER_SIZE: u32 = 8;

/// Returns the id of the type that a modifier (TYPEDEF, VOLATILE, CONST, RESTRICT or TYPE_TAG) modifies; none for other
/// types.
#[tactic(auto, unfolding(crate::specs::Steps::modifier_type_id))]
fn modifier_type_id(ty: &BtfType<'_>) -> Option<u32>
    ensures { result ≡ modifier_type_id ty.now }
{
    match ty {
        BtfType::Typedef { btf_type, .. }
        | BtfType::Volatile { btf_type, .. }
        | BtfType::Const { btf_type, .. }
        | BtfType::Restrict { btf_type, .. }
        | BtfType::TypeTag { btf_type, .. } => Some(*btf_type),
        _ => None,
    }
}

/// Returns the size of a type without its inner types, in bytes: 8 for a PTR, else the size field.
#[tactic(auto, unfolding(crate::specs::Steps::own_size))]
fn own_size(ty: &BtfType<'_>) -> Option<u32>
    ensures { result ≡ own_size ty.now }
{
    match ty {
        BtfType::Ptr { .. } => Some(POINTER_SIZE),
        _ => ty.size(),
    }
}

/// Returns the id of the type that gives another type its size.
#[tactic(auto, unfolding(crate::specs::Steps::sized_by))]
fn sized_by(ty: &BtfType<'_>) -> Option<u32>
    ensures { result ≡ sized_by ty.now }
{
    match ty {
        BtfType::Var { btf_type, .. } | BtfType::Func { btf_type, .. } => Some(*btf_type),
        BtfType::Array { element_type, .. } => Some(*element_type),
        _ => modifier_type_id(ty),
    }
}

/// Returns the number of elements of an ARRAY; 1 for other types.
#[tactic(auto, unfolding(crate::specs::Steps::repeats))]
fn repeats(ty: &BtfType<'_>) -> u32
    ensures { result ≡ repeats ty.now }
{
    match ty {
        BtfType::Array { len, .. } => *len,
        _ => 1,
    }
}

/// Returns a product of at most 32 bits.
///
/// # Errors
///
/// - `InvalidTypeInfo`: the product needs more than 32 bits.
fn times(m: u32, n: u32) -> Result<u32, BtfError>
    ensures { result ≡ times m n }
{
    m.checked_mul(n).ok_or(BtfError::InvalidTypeInfo)
}

impl Btf {
    /// Returns the id of the first type from `type_id` on that is no TYPEDEF, VOLATILE, CONST, RESTRICT or TYPE_TAG.
    ///
    /// # Errors
    ///
    /// - `UnknownBtfType`: no type has an id on the way.
    /// - `MaximumTypeDepth` with `type_id`: more than 32 modifiers follow one another.
    #[tactic(auto, using(crate::proofs::Looks::resolved_unknown, crate::proofs::Looks::resolved_here, crate::proofs::Looks::resolved_next, crate::proofs::Looks::resolved_over))]
    pub fn resolve_type(&self, type_id: u32) -> Result<u32, BtfError>
        ensures { result ≡ resolved self.now.types type_id }
    {
        let mut reached = type_id;
        for _look in 0..LOOKS {
            let ty = self.type_by_id(reached)?;
            let Some(next) = modifier_type_id(&ty) else {
                return Ok(reached);
            };
            reached = next;
        }
        Err(BtfError::MaximumTypeDepth { type_id })
    }

    /// Returns the first type from the one with an id on that is no TYPEDEF, VOLATILE, CONST, RESTRICT or TYPE_TAG.
    ///
    /// # Errors
    ///
    /// - The errors of `resolve_type`, in the same cases.
    pub fn resolved_type(&self, type_id: u32) -> Result<BtfType<'_>, BtfError>
        ensures { result ≡ resolved_type self.now.types type_id }
    {
        match self.resolve_type(type_id) {
            Ok(resolved) => self.type_by_id(resolved),
            Err(e) => Err(e),
        }
    }

    /// Returns the size of a type in bytes.
    ///
    /// The size is 8 for a PTR; the size of the inner type for a TYPEDEF, VOLATILE, CONST, RESTRICT, TYPE_TAG, VAR or FUNC;
    /// the size of all elements for an ARRAY; and the size field for other types.
    ///
    /// # Errors
    ///
    /// - `UnknownBtfType`: no type has an id on the way.
    /// - `UnexpectedBtfType`: a type on the way has no size.
    /// - `InvalidTypeInfo`: a product of lengths and size, outermost first, needs more than 32 bits.
    /// - `MaximumTypeDepth` with `type_id`: the size needs more than 32 steps to inner types.
    #[tactic(auto, using(crate::proofs::Looks::size_unknown, crate::proofs::Looks::size_here, crate::proofs::Looks::size_missing, crate::proofs::Looks::size_too_large, crate::proofs::Looks::size_next, crate::proofs::Looks::size_over))]
    pub fn type_size(&self, type_id: u32) -> Result<u32, BtfError>
        ensures { result ≡ size_of self.now.types type_id }
    {
        let mut reached = type_id;
        let mut count = 1;
        for _look in 0..LOOKS {
            let ty = self.type_by_id(reached)?;
            if let Some(size) = own_size(&ty) {
                return times(count, size);
            }
            let Some(next) = sized_by(&ty) else {
                return Err(BtfError::UnexpectedBtfType { type_id: reached });
            };
            count = match times(count, repeats(&ty)) {
                Ok(all) => all,
                Err(e) => return Err(e),
            };
            reached = next;
        }
        Err(BtfError::MaximumTypeDepth { type_id })
    }
}
