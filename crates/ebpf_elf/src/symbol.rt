//! The symbol table of a file, and its symbols.

ghost use Rattle.std.specs.Prelude.{◌≡◌, ◌+◌, ◌*◌, ◌<◌, ◌≤◌, ◌==◌, List, [], length, None, Some, IfOk, IfErr, IfSome, option_map, unwrap_or};
ghost use Rattle.std.specs.Iterator.{YieldsFirst, item_count};
ghost use Rattle.std.specs.List.{list_any};
ghost use Rattle.ebpf_base.specs.Faults.{first_of, fault_of};
ghost use Rattle.ebpf_elf.specs.Faults.{symbol_faults, xindex_faults};
ghost use Rattle.ebpf_elf.specs.Headers.{section, range_of};
ghost use Rattle.ebpf_elf.specs.Symbols.{symbol_table_section, symbol_count, symbol_table_indices, st_shndx_at, symbol_at, SymbolOf, entry, symbols, symbols_from, symbol_name, symbol_kind, symbol_section_index, is_definition, is_weak};
ghost use Rattle.ebpf_elf.specs.declared.error.ElfReadError.TheVariants.{BadStringTable};

use crate::constants::{
    SHN_LORESERVE, SHN_XINDEX, SHT_SYMTAB, STB_WEAK, STT_COMMON, STT_FILE, STT_FUNC, STT_GNU_IFUNC,
    STT_NOTYPE, STT_OBJECT, STT_SECTION, STT_TLS,
};
use crate::error::ElfReadError;
use crate::file::Layout;
use crate::header::SectionTable;
use crate::string::name_in;
use ebpf_base::Endianness;
use ebpf_base::numbers::{read_u16, read_u32, read_u64};
use std::marker::Model;

/// The kind of a symbol, by its type (ELF-64 gABI, 'Symbol Table').
#[derive(Clone, Copy, Debug, PartialEq, Eq)]
pub enum SymbolKind {
    /// No type (STT_NOTYPE), or one that is not listed here.
    Unknown,
    /// A function (STT_FUNC, STT_GNU_IFUNC).
    Text,
    /// An object (STT_OBJECT, STT_COMMON).
    Data,
    /// A section (STT_SECTION).
    Section,
    /// A source file (STT_FILE).
    File,
    /// A thread-local object (STT_TLS).
    Tls,
}

/// An entry of a symbol table (Elf64_Sym), without its visibility.
#[derive(Clone, Copy)]
pub struct SymbolEntry {
    /// The offset of the symbol's name in the string table.
    pub st_name: u32,
    /// The type in the low four bits, the binding in the high four bits.
    pub st_info: u8,
    /// The section index.
    pub st_shndx: u16,
    /// The value.
    pub st_value: u64,
    /// The size in bytes.
    pub st_size: u64,
}

/// Returns the entry in the 24 bytes from `offset` on (Elf64_Sym).
#[tactic(auto, unfolding(crate::specs::Symbols::symbol_at, ebpf_base::specs::Numbers::number_at))]
pub fn read_symbol(order: Endianness, bytes: &[u8], offset: usize) -> SymbolEntry
    requires { offset + 24 ≤ length bytes.now }
    ensures { result ≡ symbol_at order bytes.now offset }
{
    SymbolEntry {
        st_name: read_u32(order, bytes, offset),
        st_info: bytes[offset + 4],
        st_shndx: read_u16(order, bytes, offset + 6),
        st_value: read_u64(order, bytes, offset + 8),
        st_size: read_u64(order, bytes, offset + 16),
    }
}

/// Returns the index of the first section of type SYMTAB.
#[tactic(auto, unfolding(crate::specs::Symbols::symbol_table_section))]
pub fn find_symbol_table(table: &SectionTable<'_>) -> Option<usize>
    ensures first { result ≡ symbol_table_section table.now.bytes.now }
    ensures below { IfSome result (λ i. i < table.now.count) }
{
    (1..table.count).find(|i| table.header(*i).sh_type == SHT_SYMTAB)
}

/// The positions of a symbol table and its names.
#[derive(Clone, Copy)]
pub struct SymbolTable<'a> {
    /// The section header table of the file.
    pub table: SectionTable<'a>,
    /// The index of the section with the symbol table.
    pub index: usize,
    /// The offset of the first entry in the file, in bytes.
    pub offset: usize,
    /// The number of entries.
    pub count: usize,
    /// The string table of the symbol names.
    pub names: &'a [u8],
    ghost offsets: { offset ≡ (section table.bytes.now index).sh_offset },
    ghost counts: { count ≡ symbol_count table.bytes.now index },
    ghost inside: { 0 < count → offset + 24 * count ≤ length table.bytes.now },
    ghost strings: { names.now
        ≡ range_of table.bytes.now
        (section table.bytes.now (section table.bytes.now index).sh_link) },
}

/// Returns the symbol table in the section `index`.
#[tactic(auto, unfolding(crate::specs::Faults::symbol_faults))]
pub fn open_symbol_table<'a>(
    table: SectionTable<'a>,
    index: usize,
) -> Result<SymbolTable<'a>, ElfReadError>
    requires { index < table.count }
    ensures fault { fault_of result ≡ first_of (symbol_faults table.entry.bytes.now index) }
    ensures table { IfOk result (λ s. s.table ≡ table.entry) }
    ensures index { IfOk result (λ s. s.index ≡ index) }
{
    let header = table.header(index);
    if header.sh_size % 24 != 0 || table.range(&header).is_none() {
        return Err(ElfReadError::BadSymbolTable);
    }
    let Some(names) = table.string_table(header.sh_link as usize) else {
        return Err(ElfReadError::BadStringTable);
    };
    Ok(SymbolTable {
        table,
        index,
        offset: header.sh_offset as usize,
        count: (header.sh_size / 24) as usize,
        names,
    })
}

impl SymbolTable<'_> {
    /// Returns the section index of a symbol (st_shndx).
    #[tactic(auto, unfolding(crate::specs::Symbols::st_shndx_at))]
    fn shndx_of(&self, symbol: usize) -> u16
        requires { symbol < self.now.count }
        ensures { result ≡ st_shndx_at self.now.table.bytes.now self.now.index symbol }
    {
        read_u16(
            self.table.endianness,
            self.table.bytes,
            self.offset + 24 * symbol + 6,
        )
    }

    /// Returns whether the section index of a symbol is stored elsewhere (SHN_XINDEX).
    fn has_extended_index(&self) -> bool
        ensures { result
            ≡ list_any (λ k. st_shndx_at self.now.table.bytes.now self.now.index k == SHN_XINDEX)
            (symbol_table_indices self.now.table.bytes.now self.now.index) }
    {
        (1..self.count).any(|k| self.shndx_of(k) == SHN_XINDEX)
    }

    /// Checks that no symbol's section index is stored elsewhere (SHN_XINDEX).
    #[tactic(auto, unfolding(crate::specs::Faults::xindex_faults))]
    pub fn check_section_indices(&self) -> Result<(), ElfReadError>
        ensures { fault_of result
            ≡ first_of (xindex_faults self.now.table.bytes.now self.now.index) }
    {
        if self.has_extended_index() {
            return Err(ElfReadError::ExtendedNumbering);
        }
        Ok(())
    }
}

/// A symbol of a file. Contracts see the file, the section of the symbol table and the symbol's index.
#[derive(Clone, Drop)]
pub struct ElfSymbol<'a> {
    symbols: SymbolTable<'a>,
    index: usize,
    fields: SymbolEntry,
}

impl<'a> Model for ElfSymbol<'a> {
    ghost Value = { SymbolOf };

    ghost view = { λ s.
        record { file = s.symbols.table.bytes.now; table = s.symbols.index; index = s.index } };

    ghost invariant = { λ s.
        s.fields
        ≡ entry record {
          file = s.symbols.table.bytes.now;
          table = s.symbols.index;
          index = s.index;
        } };
}

impl<'a> ElfSymbol<'a> {
    /// Returns the symbol's index, 1 or more.
    pub fn index(&self) -> usize
        ensures { result ≡ self.now.index }
    {
        self.index
    }

    /// Returns the symbol's name, from the string table that is the link of the symbol table (st_name).
    ///
    /// # Errors
    ///
    /// - `BadStringTable`: no zero byte follows the name in the string table, or the name is not UTF-8.
    #[tactic(auto, unfolding(crate::specs::Symbols::symbol_name))]
    pub fn name(&self) -> Result<&'a str, ElfReadError>
        ensures name { IfOk result (λ text. symbol_name self.now ≡ Some text.now) }
        ensures none { IfErr result (λ _. symbol_name self.now ≡ None) }
        ensures error { IfErr result (λ e. e ≡ BadStringTable) }
    {
        name_in(self.symbols.names, self.fields.st_name as usize)
    }

    /// Returns the index of the symbol's section (st_shndx); none for an undefined symbol and for a reserved index, such as
    /// the one of an absolute symbol.
    #[tactic(auto, unfolding(crate::specs::Symbols::symbol_section_index))]
    pub fn section_index(&self) -> Option<usize>
        ensures { result ≡ symbol_section_index (entry self.now) }
    {
        if self.fields.st_shndx == 0 || self.fields.st_shndx >= SHN_LORESERVE {
            return None;
        }
        Some(self.fields.st_shndx as usize)
    }

    /// Returns the symbol's value (st_value): in object files the symbol's offset in its section, in bytes.
    pub fn address(&self) -> u64
        ensures { result ≡ (entry self.now).st_value }
    {
        self.fields.st_value
    }

    /// Returns the symbol's size in bytes (st_size); 0 for a symbol without a size and for an unknown size.
    pub fn size(&self) -> u64
        ensures { result ≡ (entry self.now).st_size }
    {
        self.fields.st_size
    }

    /// Returns the kind of the symbol, by its type (the low four bits of st_info).
    #[tactic(auto, unfolding(crate::specs::Symbols::symbol_kind))]
    pub fn kind(&self) -> SymbolKind
        ensures { result ≡ symbol_kind (entry self.now) }
    {
        match self.fields.st_info % 16 {
            STT_OBJECT | STT_COMMON => SymbolKind::Data,
            STT_FUNC | STT_GNU_IFUNC => SymbolKind::Text,
            STT_SECTION => SymbolKind::Section,
            STT_FILE => SymbolKind::File,
            STT_TLS => SymbolKind::Tls,
            _ => SymbolKind::Unknown,
        }
    }

    /// Returns whether the symbol is a definition: it is not undefined, and has the type FUNC or OBJECT, or the type NOTYPE
    /// and a size other than 0.
    #[tactic(auto, unfolding(crate::specs::Symbols::is_definition))]
    pub fn is_definition(&self) -> bool
        ensures { result ≡ is_definition (entry self.now) }
    {
        let kind = self.fields.st_info % 16;
        self.fields.st_shndx != 0
            && (kind == STT_FUNC
                || kind == STT_OBJECT
                || (kind == STT_NOTYPE && self.fields.st_size != 0))
    }

    /// Returns whether the symbol's binding is weak (the high four bits of st_info).
    #[tactic(auto, unfolding(crate::specs::Symbols::is_weak))]
    pub fn is_weak(&self) -> bool
        ensures { result ≡ is_weak (entry self.now) }
    {
        self.fields.st_info / 16 == STB_WEAK
    }
}

/// An iterator over the symbols of a file, in order of their indices. Contracts see the list of the symbols left.
#[derive(Clone, Drop)]
pub struct Symbols<'a> {
    table: Option<SymbolTable<'a>>,
    next: usize,
}

impl<'a> Model for Symbols<'a> {
    ghost Value = { List SymbolOf };

    ghost view = { λ s.
        unwrap_or
        (option_map (λ t. symbols_from t.table.bytes.now t.index s.next t.count) s.table)
        [] };
}

impl<'a> Symbols<'a> {
    /// Returns the symbols of the file from index 1 on.
    pub(crate) fn new(layout: Layout<'a>) -> Symbols<'a>
        ensures { result ≡ symbols layout.entry.table.bytes.now }
    {
        Symbols {
            table: layout.symbols,
            next: 1,
        }
    }
}

impl<'a> Iterator for Symbols<'a> {
    type Item = ElfSymbol<'a>;

    ghost next_gives = { YieldsFirst (λ s. s) };

    ghost remaining = { item_count (λ s. s) };

    #[tactic(auto, unfolding(crate::specs::Symbols::entry), using(ebpf_base::proofs::Lists::range_more))]
    fn next(&mut self) -> Option<ElfSymbol<'a>> {
        let symbols = self.table?;
        if self.next >= symbols.count {
            return None;
        }
        let index = self.next;
        self.next += 1;
        let offset = symbols.offset + 24 * index;
        Some(ElfSymbol {
            symbols,
            index,
            fields: read_symbol(symbols.table.endianness, symbols.table.bytes, offset),
        })
    }
}
