//! The numbers that calls answer, and what they say.

ghost use Rattle.std.specs.Prelude.{◌≡◌, ◌++◌, map, nat_lt};
ghost use Rattle.std.specs.List.{find};
ghost use Rattle.std.specs.Option.{option_copied};
ghost use Rattle.capi_rows.specs.NumberNames.{name_found, name_in, number_name, number_stages, stage_value};
ghost use Rattle.capi_rows.specs.Refusals.{flag};

/// All is done and written.
pub const DONE: u32 = 0;
/// A buffer is too small. Its count says how much is needed.
pub const ROOM: u32 = 1;
/// No memory was found.
pub const MEMORY: u32 = 2;
/// The handle is closed.
pub const CLOSED: u32 = 3;
/// No program has the name.
pub const NO_PROGRAM: u32 = 4;
/// No map has the name.
pub const NO_MAP: u32 = 5;
/// A name is no text, or is not inside the text that it is said to stand in.
pub const BAD_NAME: u32 = 6;
/// A value is not inside the bytes that it is said to stand in.
pub const BAD_VALUE: u32 = 7;
/// No extern of the kernel's configuration has the name.
pub const NO_EXTERN: u32 = 8;
/// The data has another length than the map's.
pub const WRONG_LENGTH: u32 = 9;
/// No variable of a map has the name.
pub const NO_VARIABLE: u32 = 10;
/// The pass is the last one that was made of the object.
pub const PASS_MADE: u32 = 11;
/// A later pass was made of the object, or any pass before something is set.
pub const PASS_ORDER: u32 = 12;

/// 1 where it is true, else 0.
pub fn flag(is_true: bool) -> u32
    ensures { result ≡ flag is_true }
{
    if is_true { 1 } else { 0 }
}

/// What is of no stage.
const GENERAL: [&str; 13] = [
    "Done",
    "Room",
    "OutOfMemory",
    "Closed",
    "NoProgram",
    "NoMap",
    "BadName",
    "BadValue",
    "NoExtern",
    "WrongLength",
    "NoVariable",
    "PassMade",
    "PassOrder",
];

/// Faults of files.
const FILE_FAULTS: [&str; 10] = [
    "TooShort",
    "BadMagic",
    "NotElf64",
    "BadByteOrder",
    "BadSectionTable",
    "BadSectionRange",
    "BadStringTable",
    "BadSymbolTable",
    "BadRelocationTable",
    "ExtendedNumbering",
];

/// Faults of types.
const TYPE_FAULTS: [&str; 15] = [
    "InvalidHeader",
    "InvalidTypeInfo",
    "InvalidInfo",
    "InvalidStringOffset",
    "InvalidRelocationKind",
    "UnexpectedBtfType",
    "UnknownBtfType",
    "UnknownBtfTypeName",
    "MaximumTypeDepth",
    "InvalidDatasec",
    "InvalidSymbolName",
    "InnerMapCannotBePinned",
    "MultiLevelMapInMapNotSupported",
    "InvalidValuesSpec",
    "TooLarge",
];

/// Other faults of parsing.
const PARSE_FAULTS: [&str; 19] = [
    "MissingLicenseNullTerminator",
    "InvalidLicense",
    "InvalidKernelVersion",
    "UnsupportedRelocationTarget",
    "InvalidProgramSection",
    "InvalidProgramCode",
    "InvalidMapDefinition",
    "SymbolTableConflict",
    "UnknownSymbol",
    "InvalidSymbol",
    "InvalidGlobalData",
    "SymbolNotFound",
    "MapNotFound",
    "MapSymbolNameNotFound",
    "NoSymbolsForSection",
    "NoBTF",
    "BigEndianCode",
    "TooLarge",
    "OtherMachine",
];

/// Faults of a record on types.
const RECORD_FAULTS: [&str; 10] = [
    "SectionNotFound",
    "FunctionNotFound",
    "InvalidAccessString",
    "InvalidInstructionIndex",
    "ConflictingCandidates",
    "MaximumNestingLevelReached",
    "InvalidAccessIndex",
    "InvalidRelocationKindForType",
    "InvalidInstruction",
    "MissingTargetDefinition",
];

/// Faults of slots.
const SLOT_FAULTS: [&str; 12] = [
    "UnknownSymbol",
    "SectionNotFound",
    "UnknownFunction",
    "FunctionInfoMismatch",
    "UnknownProgram",
    "InvalidRelocationOffset",
    "ExternNotFound",
    "UnresolvableSymbol",
    "UnsupportedTextSymbol",
    "InvalidLineInfo",
    "ProgramTooLong",
    "MapAddressOverflow",
];

/// Faults of finding externs.
const EXTERN_FAULTS: [&str; 9] = [
    "TypedKsymRequiresKernelBtf",
    "VariableNotFound",
    "IncompatibleFunctionSignature",
    "IncompatibleVariableType",
    "InvalidExternType",
    "AmbiguousResolution",
    "KallsymsAccessError",
    "KallsymsParseError",
    "FunctionNotFound",
];

/// Faults of a file's types for the kernel.
const KERNEL_TYPES_FAULTS: [&str; 5] = [
    "NoSectionSize",
    "NotAVariable",
    "NoSymbol",
    "UnsupportedExtern",
    "TooLarge",
];

/// Faults of the initial values of maps.
const INITIAL_SLOT_FAULTS: [&str; 11] = [
    "UnknownSymbol",
    "OutsideMaps",
    "UnsupportedMapType",
    "NotInMaps",
    "UnsupportedKeySize",
    "UnknownMap",
    "UnknownProgram",
    "NotAnEntryPoint",
    "NoValues",
    "OutsideValues",
    "Misaligned",
];

/// Faults of externs that the kernel's configuration gives.
const KCONFIG_FAULTS: [&str; 9] = [
    "NotAVariable",
    "UnreadableName",
    "UnknownName",
    "UnsupportedType",
    "NoValue",
    "WrongSize",
    "TooLarge",
    "UnsuitedValue",
    "ValueOutOfRange",
];

/// What needs an id of the kernel's own types.
const LEAST_TYPES_FAULTS: [&str; 3] = [
    "RelocationNeedsKernelId",
    "ExternNeedsKernelId",
    "TargetNeedsKernelId",
];

/// Faults of BTF-defined maps that are completed.
const BTF_MAP_FAULTS: [&str; 4] = ["UnknownPinning", "SecondArena", "NoArena", "ArenaTooSmall"];

/// Faults of maps of struct_ops.
const STRUCT_OPS_FAULTS: [&str; 5] = [
    "NoTypes",
    "NoDatasec",
    "NoKernelStruct",
    "NoDataMember",
    "OtherUse",
];

/// Faults of variables of struct_ops.
const VARIABLE_FAULTS: [&str; 5] = [
    "NotAVariable",
    "NotAStruct",
    "Anonymous",
    "NoSymbol",
    "OutsideSection",
];

/// Faults of relocations of sections of struct_ops.
const PLACE_FAULTS: [&str; 6] = [
    "UnknownSymbol",
    "OutsideVariables",
    "NoMember",
    "NotAFunctionPointer",
    "UnknownProgram",
    "NotStructOps",
];

/// Faults of members of struct_ops.
const MEMBER_FAULTS: [&str; 9] = [
    "UnknownSize",
    "BitField",
    "OutsideStruct",
    "Missing",
    "DifferentKinds",
    "NotAProgram",
    "NotAFunctionPointer",
    "DifferentSizes",
    "OutsideValue",
];

/// Faults of descriptors that aren't complete.
const DESCRIPTOR_FAULTS: [&str; 2] = ["MissingDescriptor", "UnknownMap"];

/// Faults of externs that aren't written when programs are to be linked.
const UNWRITTEN_FAULTS: [&str; 1] = ["UnwrittenExtern"];

/// A stage: its numbers are from the first one up to the end, which is the first number of the next.
#[derive(Clone, Copy)]
struct Stage {
    first: u32,
    end: u32,
    /// What stands before the name of an error.
    title: &'static str,
    /// The names of the errors, in the order of their numbers. Numbers past them have no name.
    errors: &'static [&'static str],
}

/// The stages, in the order of their numbers.
const STAGES: [Stage; 30] = [
    Stage {
        first: 0,
        end: 100,
        title: "",
        errors: &GENERAL,
    },
    Stage {
        first: 100,
        end: 110,
        title: "parse: ",
        errors: &FILE_FAULTS,
    },
    Stage {
        first: 110,
        end: 120,
        title: "parse: SectionError ",
        errors: &FILE_FAULTS,
    },
    Stage {
        first: 120,
        end: 140,
        title: "parse: BtfError ",
        errors: &TYPE_FAULTS,
    },
    Stage {
        first: 140,
        end: 200,
        title: "parse: ",
        errors: &PARSE_FAULTS,
    },
    Stage {
        first: 200,
        end: 220,
        title: "btf: ",
        errors: &TYPE_FAULTS,
    },
    Stage {
        first: 220,
        end: 240,
        title: "types: BtfError ",
        errors: &TYPE_FAULTS,
    },
    Stage {
        first: 240,
        end: 300,
        title: "types: ",
        errors: &RECORD_FAULTS,
    },
    Stage {
        first: 300,
        end: 320,
        title: "maps: ",
        errors: &SLOT_FAULTS,
    },
    Stage {
        first: 320,
        end: 400,
        title: "maps: ",
        errors: &DESCRIPTOR_FAULTS,
    },
    Stage {
        first: 400,
        end: 420,
        title: "ksyms: ",
        errors: &EXTERN_FAULTS,
    },
    Stage {
        first: 420,
        end: 500,
        title: "ksyms: BtfError ",
        errors: &TYPE_FAULTS,
    },
    Stage {
        first: 500,
        end: 600,
        title: "externs: ",
        errors: &SLOT_FAULTS,
    },
    Stage {
        first: 600,
        end: 620,
        title: "calls: ",
        errors: &SLOT_FAULTS,
    },
    Stage {
        first: 620,
        end: 700,
        title: "calls: ",
        errors: &UNWRITTEN_FAULTS,
    },
    Stage {
        first: 700,
        end: 720,
        title: "kernel types: ",
        errors: &FILE_FAULTS,
    },
    Stage {
        first: 720,
        end: 740,
        title: "kernel types: BtfError ",
        errors: &TYPE_FAULTS,
    },
    Stage {
        first: 740,
        end: 800,
        title: "kernel types: ",
        errors: &KERNEL_TYPES_FAULTS,
    },
    Stage {
        first: 800,
        end: 820,
        title: "initial slots: ",
        errors: &FILE_FAULTS,
    },
    Stage {
        first: 820,
        end: 900,
        title: "initial slots: ",
        errors: &INITIAL_SLOT_FAULTS,
    },
    Stage {
        first: 900,
        end: 1000,
        title: "kconfig: ",
        errors: &KCONFIG_FAULTS,
    },
    Stage {
        first: 1000,
        end: 1020,
        title: "least types: ",
        errors: &LEAST_TYPES_FAULTS,
    },
    Stage {
        first: 1020,
        end: 1100,
        title: "least types: BtfError ",
        errors: &TYPE_FAULTS,
    },
    Stage {
        first: 1100,
        end: 1120,
        title: "completed maps: ",
        errors: &FILE_FAULTS,
    },
    Stage {
        first: 1120,
        end: 1200,
        title: "completed maps: ",
        errors: &BTF_MAP_FAULTS,
    },
    Stage {
        first: 1200,
        end: 1220,
        title: "struct_ops: ",
        errors: &FILE_FAULTS,
    },
    Stage {
        first: 1220,
        end: 1240,
        title: "struct_ops: ",
        errors: &STRUCT_OPS_FAULTS,
    },
    Stage {
        first: 1240,
        end: 1260,
        title: "struct_ops: variable ",
        errors: &VARIABLE_FAULTS,
    },
    Stage {
        first: 1260,
        end: 1280,
        title: "struct_ops: relocation ",
        errors: &PLACE_FAULTS,
    },
    Stage {
        first: 1280,
        end: 1300,
        title: "struct_ops: member ",
        errors: &MEMBER_FAULTS,
    },
];

/// Returns the title of a stage, and the error with a number; both are empty where the number has no name.
fn name_in(stage: &Stage, number: u32) -> (&'static str, &'static str)
    ensures { result.0.now ++ result.1.now ≡ name_in number (stage_value stage.now) }
{
    match stage
        .errors
        .get(number.saturating_sub(stage.first) as usize)
    {
        Some(error) => (stage.title, *error),
        None => ("", ""),
    }
}

/// Returns the first of some stages that ends past a number.
fn stage_of(stages: &[Stage], number: u32) -> Option<&Stage>
    ensures { option_copied result ≡ find (λ s. nat_lt number s.end) stages.now }
{
    stages.iter().find(|stage| number < stage.end)
}

/// Returns the name of a number in the first of some stages that ends past it.
fn name_by(stages: &[Stage], number: u32) -> (&'static str, &'static str)
    ensures { result.0.now ++ result.1.now
        ≡ name_found number (find (λ s. nat_lt number s.end) stages.now) }
{
    match stage_of(stages, number) {
        Some(stage) => name_in(stage, number),
        None => ("", ""),
    }
}

/// Returns the name of a number in all stages.
fn name_in_all(stages: &[Stage], number: u32) -> (&'static str, &'static str)
    requires { map stage_value stages.now ≡ number_stages }
    ensures { result.0.now ++ result.1.now ≡ number_name number }
{
    name_by(stages, number)
}

/// Returns the name of a number: the stage that answers it, and the error. Both are empty where the number has no name.
pub fn name_of(number: u32) -> (&'static str, &'static str)
    ensures { result.0.now ++ result.1.now ≡ number_name number }
{
    name_in_all(&STAGES, number)
}
