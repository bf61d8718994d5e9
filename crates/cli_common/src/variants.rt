//! The names of the variants of errors.

use ebpf_btf::BtfError;
use ebpf_core_relo::RelocationError as CoreError;
use ebpf_ksyms::KsymsError;
use ebpf_model::RelocationError;
use ebpf_parts::ParseError;

/// The name of the variant that a value is, of all that its type has.
#[macro_export]
macro_rules! variant_name {
    ($value:expr, $kind:ident: $($variant:ident)+) => {
        match $value {
            $($kind::$variant { .. } => stringify!($variant),)+
        }
    };
}

/// The name of an error of parsing.
pub fn variant_of_parsing(error: &ParseError) -> &'static str {
    variant_name!(
        error,
        ParseError: ElfError BtfError MissingLicenseNullTerminator InvalidLicense InvalidKernelVersion SectionError
            UnsupportedRelocationTarget InvalidProgramSection InvalidProgramCode InvalidMapDefinition SymbolTableConflict
            UnknownSymbol InvalidSymbol InvalidGlobalData SymbolNotFound MapNotFound MapSymbolNameNotFound
            NoSymbolsForSection NoBTF OutOfMemory BigEndianCode TooLarge OtherMachine
    )
}

/// The name of an error of relocation.
pub fn variant_of_relocation(error: &RelocationError) -> &'static str {
    variant_name!(
        error,
        RelocationError: UnknownSymbol SectionNotFound UnknownFunction FunctionInfoMismatch UnknownProgram
            InvalidRelocationOffset ExternNotFound UnresolvableSymbol UnsupportedTextSymbol InvalidLineInfo
            ProgramTooLong MapAddressOverflow OutOfMemory
    )
}

/// The name of an error of type information.
pub fn variant_of_types(error: &BtfError) -> &'static str {
    variant_name!(
        error,
        BtfError: InvalidHeader InvalidTypeInfo InvalidInfo InvalidStringOffset InvalidRelocationKind UnexpectedBtfType
            UnknownBtfType UnknownBtfTypeName MaximumTypeDepth InvalidDatasec InvalidSymbolName InnerMapCannotBePinned
            MultiLevelMapInMapNotSupported InvalidValuesSpec TooLarge OutOfMemory
    )
}

/// The name of an error of resolving externs.
pub fn variant_of_resolving(error: &KsymsError) -> &'static str {
    variant_name!(
        error,
        KsymsError: TypedKsymRequiresKernelBtf VariableNotFound IncompatibleFunctionSignature IncompatibleVariableType
            InvalidExternType BtfError AmbiguousResolution KallsymsAccessError KallsymsParseError FunctionNotFound
            OutOfMemory
    )
}

/// The name of an error of relocating functions to a kernel's types.
pub fn variant_of_type_relocation(error: &CoreError) -> &'static str {
    variant_name!(
        error,
        CoreError: SectionNotFound FunctionNotFound InvalidAccessString InvalidInstructionIndex ConflictingCandidates
            MaximumNestingLevelReached InvalidAccessIndex InvalidRelocationKindForType InvalidInstruction
            MissingTargetDefinition BtfError OutOfMemory
    )
}
