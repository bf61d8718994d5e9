//! CO-RE relocations.

ghost use Rattle.std.specs.Prelude.{◌≡◌, Ok, Err};
ghost use Rattle.std.specs.Option.{ok_or};
ghost use Rattle.ebpf_btf_ext.specs.RelocationKinds.{known_kind, relocation_kind, relocation_kind_number};
ghost use Rattle.ebpf_btf.specs.declared.error.BtfError.TheVariants.{InvalidRelocationKind};

use ebpf_btf::BtfError;

/// The kind of a CO-RE relocation: the value that it takes from its type, field or variant.
///
/// The kinds are in the order of their numbers in `.BTF.ext` (`enum bpf_core_relo_kind`): `FieldByteOffset` is 0,
/// `TypeMatches` is 12.
#[derive(Clone, Copy, Debug, PartialEq, Eq)]
pub enum RelocationKind {
    /// The offset of a field in bytes.
    FieldByteOffset,
    /// The size of a field in bytes.
    FieldByteSize,
    /// Whether the field exists (1) or not (0).
    FieldExists,
    /// Whether the field is signed (1) or not (0).
    FieldSigned,
    /// The left shift, in bits, that moves the field's highest bit to bit 63.
    FieldLShift64,
    /// The right shift, in bits, that follows the left shift.
    FieldRShift64,
    /// The id of the local type.
    TypeIdLocal,
    /// The id of the kernel's type.
    TypeIdTarget,
    /// Whether the type exists (1) or not (0).
    TypeExists,
    /// The size of a type in bytes.
    TypeSize,
    /// Whether the variant of an enumeration exists (1) or not (0).
    EnumVariantExists,
    /// The value of a variant of an enumeration.
    EnumVariantValue,
    /// Whether the type matches a type of the kernel (1) or not (0). Lenient parsing alone reads this kind.
    TypeMatches,
}

impl RelocationKind {
    /// Returns the number of the kind in `.BTF.ext`, 0 to 12.
    #[tactic(auto, unfolding(crate::specs::RelocationKinds::relocation_kind_number))]
    pub fn number(self) -> u32
        ensures { result ≡ relocation_kind_number self }
    {
        self as u32
    }

    /// Returns the kind with a number, as `try_from` does; with `type_matches` also kind 12.
    ///
    /// # Errors
    ///
    /// - `InvalidRelocationKind`: the number is past 11, or past 12 with `type_matches`.
    #[tactic(auto, unfolding(crate::specs::RelocationKinds::known_kind))]
    pub fn known(value: u32, type_matches: bool) -> Result<RelocationKind, BtfError>
        ensures { result ≡ ok_or (known_kind type_matches value) (InvalidRelocationKind value) }
    {
        if type_matches && value == 12 {
            return Ok(RelocationKind::TypeMatches);
        }
        RelocationKind::try_from(value)
    }
}

impl TryFrom<u32> for RelocationKind {
    type Error = BtfError;

    ghost try_from_gives = { λ number result.
        result ≡ ok_or (relocation_kind number) (InvalidRelocationKind number) };

    /// Returns the kind with a number up to 11.
    ///
    /// # Errors
    ///
    /// - `InvalidRelocationKind`: the number is past 11.
    #[tactic(auto, unfolding(crate::specs::RelocationKinds::relocation_kind))]
    fn try_from(value: u32) -> Result<RelocationKind, BtfError> {
        Ok(match value {
            0 => RelocationKind::FieldByteOffset,
            1 => RelocationKind::FieldByteSize,
            2 => RelocationKind::FieldExists,
            3 => RelocationKind::FieldSigned,
            4 => RelocationKind::FieldLShift64,
            5 => RelocationKind::FieldRShift64,
            6 => RelocationKind::TypeIdLocal,
            7 => RelocationKind::TypeIdTarget,
            8 => RelocationKind::TypeExists,
            9 => RelocationKind::TypeSize,
            10 => RelocationKind::EnumVariantExists,
            11 => RelocationKind::EnumVariantValue,
            _ => return Err(BtfError::InvalidRelocationKind { kind: value }),
        })
    }
}

/// A CO-RE relocation (`struct bpf_core_relo`).
#[derive(Clone, Copy, Debug, PartialEq, Eq)]
pub struct Relocation {
    /// The offset of the instruction in its section, in bytes.
    pub insn_off: u32,
    /// The id of the local type.
    pub type_id: u32,
    /// The offset of the access string in the strings.
    pub access_str_off: u32,
    /// The kind of the relocation.
    pub kind: RelocationKind,
    /// The index of the relocation in its section of `.BTF.ext`, from 0 on.
    pub number: usize,
}
