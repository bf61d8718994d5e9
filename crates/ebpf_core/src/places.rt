//! The places that paths lead to.

ghost use Rattle.std.specs.Prelude.{◌≡◌, slice_get};
ghost use Rattle.ebpf_core.specs.Places.{checked_place, element_place, is_last_of};
ghost use Rattle.ebpf_core.specs.declared.places.PlaceFault.TheVariants.{Btf};

use ebpf_base::Text;
use ebpf_btf::{Btf, BtfError, BtfType};
use thiserror::Error;

/// The last step of a path, in the target.
#[derive(Clone, Copy, Debug, PartialEq, Eq)]
pub enum PlaceEnd {
    /// An element. `type_id` is the type whose size its index counts: what an ARRAY states, or what the root type
    /// stands for.
    Element { type_id: u32 },
    /// The member `index` of the STRUCT or UNION `parent`, which is no TYPEDEF or other type that stands for it.
    Member { parent: u32, index: usize },
}

/// The place that a path leads to in a type.
#[derive(Clone, Copy, Debug, PartialEq, Eq)]
pub struct FieldPlace {
    /// The bits from the start of the root type.
    pub bits: u32,
    /// The last step.
    pub end: PlaceEnd,
}

/// The reason why the place of a path can't be found.
#[derive(Debug, Drop, Error)]
pub enum PlaceFault {
    /// A path has too many parts, a view too many levels or too many entries.
    #[error("a path has more than 64 parts, or a type more than 64 levels or 1048576 members to look at")]
    NestingLevel,
    /// A name, a type or a size can't be read, or a bit offset is past 32 bits.
    #[error("{0}")]
    Btf(BtfError),
}

impl From<BtfError> for PlaceFault {
    ghost from_gives = { λ error fault. fault ≡ Btf error };

    fn from(error: BtfError) -> PlaceFault {
        PlaceFault::Btf(error)
    }
}

/// A step of a path.
#[derive(Debug, Drop)]
pub enum Step {
    /// To the member with a name. `local_type` is the id of the local member's type, which the target member's type has
    /// to be compatible with.
    Name { name: Text, local_type: u32 },
    /// To the element with an index. The first step of a path counts in the root type itself.
    Index { index: usize },
}

/// A place so many bits from the start of the root type. `InvalidTypeInfo` where they are past 4,294,967,295.
pub fn checked_place(bits: u128, end: PlaceEnd) -> Result<FieldPlace, BtfError>
    ensures { result ≡ checked_place bits end }
{
    if bits >= 0x1_0000_0000 {
        return Err(BtfError::InvalidTypeInfo);
    }
    Ok(FieldPlace {
        bits: bits as u32,
        end,
    })
}

/// The element with an index, of a type of which the first begins so many bits from the start of the root type. Errors
/// as in `Btf::type_size` and `checked_place`.
pub fn element_place(
    btf: &Btf,
    bits: u32,
    type_id: u32,
    index: usize,
) -> Result<FieldPlace, BtfError>
    ensures { result ≡ element_place btf.now.types bits type_id index }
{
    let size = btf.type_size(type_id)?;
    let bits = u128::from(bits) + index as u128 * u128::from(size) * 8;
    checked_place(bits, PlaceEnd::Element { type_id })
}

/// Whether a member is the last one of a STRUCT.
#[tactic(auto, unfolding(crate::specs::Places::is_last_of))]
pub fn is_last_of(index: usize, ty: &BtfType<'_>) -> bool
    ensures { result ≡ is_last_of index ty.now }
{
    match ty {
        BtfType::Struct { members, .. } => index < members.len() && index + 1 == members.len(),
        _ => false,
    }
}

/// The type with an id.
pub fn type_at(btf: &Btf, type_id: u32) -> Option<BtfType<'_>>
    ensures { result ≡ slice_get btf.now.types type_id }
{
    btf.get(type_id as usize)
}
