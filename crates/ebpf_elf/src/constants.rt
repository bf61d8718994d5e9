//! The numbers of the format, with the names of the ELF-64 gABI. `specs/Numbers.antt` proves each against the standard.

/// The first four bytes of a file: EI_MAG0 to EI_MAG3 (gABI, 'ELF Identification').
pub const MAGIC: [u8; 4] = [0x7f, b'E', b'L', b'F'];

/// The class of a 64-bit file (EI_CLASS).
pub const ELFCLASS64: u8 = 2;

/// The data encoding of a little-endian file (EI_DATA).
pub const ELFDATA2LSB: u8 = 1;
/// The data encoding of a big-endian file (EI_DATA).
pub const ELFDATA2MSB: u8 = 2;

/// The machine of eBPF (e_machine; the kernel's include/uapi/linux/elf-em.h).
pub const EM_BPF: u16 = 247;
/// No machine (e_machine; ELF-64 gABI, 'ELF Header'), which old versions of clang write for eBPF.
pub const EM_NONE: u16 = 0;

/// The first reserved section index (gABI, 'Special Section Indexes').
pub const SHN_LORESERVE: u16 = 0xff00;
/// The section index that says that the index itself is stored elsewhere (gABI, 'Special Section Indexes').
pub const SHN_XINDEX: u16 = 0xffff;

/// The type of a section with contents that the program defines (gABI, 'Section Types, sh_type').
pub const SHT_PROGBITS: u32 = 1;
/// The type of a symbol table.
pub const SHT_SYMTAB: u32 = 2;
/// The type of a string table.
pub const SHT_STRTAB: u32 = 3;
/// The type of a section of relocations with addends.
pub const SHT_RELA: u32 = 4;
/// The type of a section without bytes in the file.
pub const SHT_NOBITS: u32 = 8;
/// The type of a section of relocations without addends.
pub const SHT_REL: u32 = 9;

/// The flag of a section that occupies memory during execution (gABI, 'Section Attribute Flags').
pub const SHF_ALLOC: u64 = 2;
/// The flag of a section of machine instructions.
pub const SHF_EXECINSTR: u64 = 4;

/// The type of a symbol without a type (gABI, 'Symbol Types').
pub const STT_NOTYPE: u8 = 0;
/// The type of a data object's symbol.
pub const STT_OBJECT: u8 = 1;
/// The type of a function's symbol.
pub const STT_FUNC: u8 = 2;
/// The type of a section's symbol.
pub const STT_SECTION: u8 = 3;
/// The type of a source file's symbol.
pub const STT_FILE: u8 = 4;
/// The type of a common block's symbol.
pub const STT_COMMON: u8 = 5;
/// The type of a thread-local object's symbol.
pub const STT_TLS: u8 = 6;
/// The type of an indirect function's symbol: the function returns the address to call (GNU gABI).
pub const STT_GNU_IFUNC: u8 = 10;

/// The binding of a weak symbol (gABI, 'Symbol Binding').
pub const STB_WEAK: u8 = 2;

/// The type of a relocation of a 64-bit immediate (the kernel's Documentation/bpf/llvm_reloc.rst).
pub const R_BPF_64_64: u64 = 1;
/// The type of a relocation of a call (the kernel's Documentation/bpf/llvm_reloc.rst).
pub const R_BPF_64_32: u64 = 10;
