//! What one can do about a file that can't be parsed.

use ebpf_btf::BtfError;
use ebpf_elf::ElfReadError;
use ebpf_parts::ParseError;

/// What one can do about a file whose tables can't be read.
fn elf_help(error: &ElfReadError) -> &'static str {
    match error {
        ElfReadError::BadMagic => "give the object that `clang -g -O2 -target bpf -c` writes",
        ElfReadError::NotElf64 => "compile with `-target bpf`",
        ElfReadError::ExtendedNumbering => "compile to fewer than 65,280 sections",
        ElfReadError::TooShort
        | ElfReadError::BadByteOrder
        | ElfReadError::BadSectionTable
        | ElfReadError::BadSectionRange
        | ElfReadError::BadStringTable
        | ElfReadError::BadSymbolTable
        | ElfReadError::BadRelocationTable => {
            "the file is cut or damaged: make it again, and look at it with `readelf -S`"
        }
    }
}

/// What one can do about an object's type information.
pub fn types_help(error: &BtfError) -> Option<&'static str> {
    Some(match error {
        BtfError::InvalidHeader
        | BtfError::InvalidTypeInfo
        | BtfError::InvalidInfo
        | BtfError::InvalidStringOffset { .. }
        | BtfError::UnknownBtfType { .. } =>
            "the type information is damaged: look at it with `bpftool btf dump file FILE`",
        BtfError::InvalidRelocationKind { .. } =>
            "compile with the builtins of clang that libbpf has kinds for",
        BtfError::UnexpectedBtfType { .. } =>
            "declare a map's members as libbpf's `__uint` and `__type` do; `bpftool btf dump file FILE` shows the types",
        BtfError::InvalidDatasec => "declare externs as functions or variables with `__ksym`",
        BtfError::InvalidSymbolName => "don't strip symbols",
        BtfError::InnerMapCannotBePinned { .. } => "leave `pinning` out of the inner map",
        BtfError::MultiLevelMapInMapNotSupported { .. } => "leave `values` out of the inner map",
        BtfError::InvalidValuesSpec { .. } => "declare `__array(values, struct inner)`",
        BtfError::UnknownBtfTypeName { .. }
        | BtfError::MaximumTypeDepth { .. }
        | BtfError::TooLarge
        | BtfError::OutOfMemory => return None,
    })
}

/// What one can do about a file that can't be parsed, by the error alone.
pub fn parse_help(error: &ParseError) -> Option<&'static str> {
    match error {
        ParseError::ElfError(error) | ParseError::SectionError { error, .. } => {
            Some(elf_help(error))
        }
        ParseError::BtfError(error) => types_help(error),
        ParseError::MissingLicenseNullTerminator { .. } | ParseError::InvalidLicense { .. } => {
            Some("declare `char LICENSE[] SEC(\"license\") = \"GPL\";`")
        }
        ParseError::InvalidKernelVersion { .. } => {
            Some("declare `__u32 version SEC(\"version\") = ..;`, or leave it out")
        }
        ParseError::UnsupportedRelocationTarget | ParseError::InvalidProgramCode => {
            Some("compile the object again")
        }
        ParseError::InvalidProgramSection { .. } => {
            Some("take a section name of libbpf's, as `kprobe/NAME` or `xdp`")
        }
        ParseError::SymbolTableConflict { .. } => {
            Some("leave one of the two names of the function out")
        }
        ParseError::UnknownSymbol { .. }
        | ParseError::SymbolNotFound { .. }
        | ParseError::NoSymbolsForSection { .. } => Some("don't strip symbols"),
        ParseError::InvalidSymbol { .. } => {
            Some("`readelf -s` shows the symbol's address and size")
        }
        ParseError::InvalidMapDefinition { .. } => Some(
            "a map needs 20 bytes or more and pinning 0 or 1; a section of variables fewer than 4 GiB",
        ),
        ParseError::NoBTF => Some("compile with `-g`, and don't strip `.BTF`"),
        ParseError::BigEndianCode | ParseError::OtherMachine { .. } => {
            Some("compile with `-target bpfel`")
        }
        ParseError::InvalidGlobalData { .. }
        | ParseError::MapNotFound { .. }
        | ParseError::MapSymbolNameNotFound { .. }
        | ParseError::OutOfMemory
        | ParseError::TooLarge { .. } => None,
    }
}
