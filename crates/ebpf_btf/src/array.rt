//! The elements of arrays.

ghost use Rattle.std.specs.Prelude.{◌≡◌};
ghost use Rattle.ebpf_btf.specs.Types.{array_of};

use crate::types::BtfType;

/// The elements of an ARRAY (`struct btf_array`).
#[derive(Clone, Copy, Debug, PartialEq, Eq)]
pub struct BtfArray {
    /// The id of the elements' type.
    pub element_type: u32,
    /// The id of the type of the indices.
    pub index_type: u32,
    /// The number of elements.
    pub len: u32,
}

impl<'a> BtfType<'a> {
    /// Returns the elements of an ARRAY; none for other kinds.
    #[tactic(auto, unfolding(crate::specs::Types::array_of))]
    pub fn array(&self) -> Option<BtfArray>
        ensures { result ≡ array_of self.now }
    {
        match self {
            BtfType::Array {
                element_type,
                index_type,
                len,
                ..
            } => Some(BtfArray {
                element_type: *element_type,
                index_type: *index_type,
                len: *len,
            }),
            _ => None,
        }
    }
}
