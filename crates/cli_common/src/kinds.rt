//! What a finding is about, in a word.

ghost use Rattle.std.specs.Prelude.{◌≡◌};
ghost use Rattle.cli_common.specs.RecordKinds.{kind_of};

use ebpf_btf_ext::RelocationKind;

/// What a finding is about: what a record asks, or something else that a kernel has to have.
#[derive(Clone, Copy, PartialEq, Eq, PartialOrd, Ord)]
pub enum Kind {
    /// The place of a field in bytes.
    ByteOffset,
    /// The size of a field in bytes.
    ByteSize,
    /// Whether a field is there.
    FieldExists,
    /// Whether a field is signed.
    Signed,
    /// The shift to the left of a bit field.
    LeftShift,
    /// The shift to the right of a bit field.
    RightShift,
    /// The id of the object's own type.
    LocalTypeId,
    /// The id of the kernel's type.
    TargetTypeId,
    /// Whether a type is there.
    TypeExists,
    /// Whether a type matches.
    TypeMatches,
    /// The size of a type.
    TypeSize,
    /// Whether an enumerator is there.
    EnumeratorExists,
    /// The value of an enumerator.
    EnumeratorValue,
    /// A program's linking.
    Linking,
    /// What a program is attached to.
    Attach,
    /// A helper function.
    Helper,
    /// A map's type.
    MapType,
    /// A function or variable of the kernel.
    Ksym,
}

impl Kind {
    /// What a record of a kind is about.
    #[tactic(auto, unfolding(crate::specs::RecordKinds::kind_of))]
    pub fn of(kind: RelocationKind) -> Kind
        ensures { result ≡ kind_of kind }
    {
        match kind {
            RelocationKind::FieldByteOffset => Kind::ByteOffset,
            RelocationKind::FieldByteSize => Kind::ByteSize,
            RelocationKind::FieldExists => Kind::FieldExists,
            RelocationKind::FieldSigned => Kind::Signed,
            RelocationKind::FieldLShift64 => Kind::LeftShift,
            RelocationKind::FieldRShift64 => Kind::RightShift,
            RelocationKind::TypeIdLocal => Kind::LocalTypeId,
            RelocationKind::TypeIdTarget => Kind::TargetTypeId,
            RelocationKind::TypeExists => Kind::TypeExists,
            RelocationKind::TypeMatches => Kind::TypeMatches,
            RelocationKind::TypeSize => Kind::TypeSize,
            RelocationKind::EnumVariantExists => Kind::EnumeratorExists,
            RelocationKind::EnumVariantValue => Kind::EnumeratorValue,
        }
    }

    /// The kind under which it is printed: all that is asked of a field is printed together.
    pub fn group(self) -> Kind {
        match self {
            Kind::ByteOffset
            | Kind::ByteSize
            | Kind::FieldExists
            | Kind::Signed
            | Kind::LeftShift
            | Kind::RightShift => Kind::ByteOffset,
            other => other,
        }
    }

    /// Its word: of a record as libbpf's log has it.
    pub fn word(self) -> &'static str {
        match self {
            Kind::ByteOffset => "byte_off",
            Kind::ByteSize => "byte_sz",
            Kind::FieldExists => "field_exists",
            Kind::Signed => "signed",
            Kind::LeftShift => "lshift_u64",
            Kind::RightShift => "rshift_u64",
            Kind::LocalTypeId => "local_type_id",
            Kind::TargetTypeId => "target_type_id",
            Kind::TypeExists => "type_exists",
            Kind::TypeMatches => "type_matches",
            Kind::TypeSize => "type_size",
            Kind::EnumeratorExists => "enumval_exists",
            Kind::EnumeratorValue => "enumval_value",
            Kind::Linking => "linking",
            Kind::Attach => "attach",
            Kind::Helper => "helper",
            Kind::MapType => "map_type",
            Kind::Ksym => "ksym",
        }
    }
}
