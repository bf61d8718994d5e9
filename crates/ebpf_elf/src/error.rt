//! The errors of reading a file.

use thiserror::Error;

/// The reason why a file, or a part of it, cannot be read.
#[derive(Clone, Copy, Debug, Error, PartialEq, Eq)]
pub enum ElfReadError {
    /// The input has fewer than the 64 bytes of a file's header.
    #[error("the file has fewer than the 64 bytes of an ELF header")]
    TooShort,
    /// The first four bytes are not `7f 45 4c 46`.
    #[error("the file is no ELF file: it does not begin with 7f 45 4c 46")]
    BadMagic,
    /// The class (EI_CLASS) is not ELFCLASS64.
    #[error("the file is no 64-bit ELF file")]
    NotElf64,
    /// The data encoding (EI_DATA) is neither little-endian nor big-endian.
    #[error("the file's byte order is neither little nor big endian")]
    BadByteOrder,
    /// The size of a section header (e_shentsize) is not 64 bytes, or the section header table runs past the end of the
    /// file.
    #[error("the table of section headers passes the end of the file, or its headers have not 64 bytes")]
    BadSectionTable,
    /// The data of a section (sh_offset, sh_size) run past the end of the file.
    #[error("a section's data pass the end of the file")]
    BadSectionRange,
    /// A string table is missing, has another type than STRTAB or runs past the end of the file; or a name in a string
    /// table has no zero byte after it or is not UTF-8.
    #[error("a string table is missing or cut, or a name in it has no null byte or is no UTF-8")]
    BadStringTable,
    /// The size of the symbol table is no multiple of 24 bytes, or the symbol table runs past the end of the file.
    #[error("the symbol table passes the end of the file, or its size is no multiple of 24 bytes")]
    BadSymbolTable,
    /// A section of relocations against the symbol table has a target that does not exist, has a size that is no multiple
    /// of the size of an entry, or runs past the end of the file.
    #[error("a section of relocations passes the end of the file, is no whole entries, or is for no section")]
    BadRelocationTable,
    /// A section count or section index is stored elsewhere (SHN_XINDEX), as in files with more than 65,279 sections. The
    /// crate does not read these files.
    #[error("the file has extended section numbers, which are not read")]
    ExtendedNumbering,
}
