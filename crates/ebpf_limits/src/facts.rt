//! The facts of a section that count for its symbols: its kind, address and size, its func info and line info.

ghost use Rattle.std.specs.Prelude.{◌≡◌, true, filter, length, ◌<◌, ◌^◌};
ghost use Rattle.ebpf_limits.specs.OwnedBytes.{contents_by, func_count, line_count, first_slot, offset_by, function_bytes, placed_by, record_bytes};
ghost use Rattle.ebpf_sections.specs.Records.{is_among_slots, rises_from, slot_of_func, slot_of_line};
ghost use Rattle.ebpf_elf.specs.Sections.{header};
ghost use Rattle.ebpf_elf.specs.Symbols.{entry, symbol_kind};
ghost use Rattle.ebpf_sections.specs.Symbols.{is_text_symbol};

use crate::sizes::{FUNC, FUNCTION, LINE, MAP, PROGRAM};
use ebpf_btf_ext::{BtfExt, bpf_func_info, bpf_line_info};
use ebpf_elf::{ElfFile, ElfSection, ElfSymbol, SymbolKind};
use ebpf_parts::EbpfSectionKind;
use ebpf_parts::insn::bpf_insn;
use ebpf_sections::info_records::{NamesSlot, is_in_order, lower_bound};
use ebpf_sections::sections::name_or_empty;
use std::alloc::{AllocError, Global};
use std::marker::Model;

/// The number of rows that name one of `count` slots from slot `first` on.
pub fn count_among<R: NamesSlot>(rows: &[R], first: u64, count: u64) -> usize
    requires { rises_from R.slot_of 0 rows.now ≡ true }
    ensures { result ≡ length (filter (is_among_slots R.slot_of first count) rows.now) }
{
    let start = lower_bound(rows, u128::from(first));
    let end = lower_bound(rows, u128::from(first) + u128::from(count));
    end - start
}

/// The names of a file's sections of code; empty where the file has no `.BTF.ext`.
pub fn code_names<'a>(
    alloc: Global,
    file: &ElfFile<'a>,
    ext: &Option<BtfExt>,
) -> Result<Vec<&'a str>, AllocError> {
    let mut names = Vec::new(alloc);
    if ext.is_none() {
        return Ok(names);
    }
    for section in file.sections() {
        let name = name_or_empty(&section);
        match EbpfSectionKind::from_elf(name, &section) {
            EbpfSectionKind::Text | EbpfSectionKind::Program => names.push(name)?,
            _ => {}
        }
    }
    Ok(names)
}

/// The facts of a section that count for its symbols.
#[derive(Drop)]
pub struct Facts<'e> {
    /// The kind of the section.
    pub kind: EbpfSectionKind,
    address: u64,
    size: u64,
    funcs: &'e [bpf_func_info],
    lines: &'e [bpf_line_info],
    funcs_rise: bool,
    lines_rise: bool,
    ghost funcs_order: { funcs_rise ≡ rises_from slot_of_func 0 funcs.now },
    ghost lines_order: { lines_rise ≡ rises_from slot_of_line 0 lines.now },
}

impl<'e> Model for Facts<'e> {
    ghost use Rattle.ebpf_limits.specs.OwnedBytes.{SectionFacts};

    ghost Value = { SectionFacts };

    ghost view = { λ f.
        record {
          kind = f.kind;
          address = f.address;
          size = f.size;
          funcs = f.funcs.now;
          lines = f.lines.now;
        } };
}

/// The offset in bytes of an address in a section of a kind.
fn offset_by(kind: EbpfSectionKind, start: u64, address: u64) -> u64
    ensures { result ≡ offset_by kind start address }
{
    match kind {
        EbpfSectionKind::Text => address.wrapping_sub(start),
        _ => address.saturating_sub(start),
    }
}

impl<'e> Facts<'e> {
    /// The facts of a section of a kind with some info entries.
    pub fn new(
        kind: EbpfSectionKind,
        section: &ElfSection<'_>,
        funcs: &'e [bpf_func_info],
        lines: &'e [bpf_line_info],
    ) -> Facts<'e>
        ensures kind { result.kind ≡ kind }
        ensures address { result.address ≡ (header section.now).sh_addr }
        ensures size { result.size ≡ (header section.now).sh_size }
        ensures funcs { result.funcs ≡ funcs.now }
        ensures lines { result.lines ≡ lines.now }
    {
        Facts {
            kind,
            address: section.address(),
            size: section.size(),
            funcs,
            lines,
            funcs_rise: is_in_order(funcs),
            lines_rise: is_in_order(lines),
        }
    }

    /// The number of func info entries of a function that begins at a slot of the section.
    #[tactic(auto, using(crate::proofs::Counts::of_one_slot))]
    fn func_count(&self, first: u64) -> usize
        ensures { result ≡ func_count self.now first }
    {
        if self.funcs_rise {
            return count_among(self.funcs, first, 1);
        }
        self.funcs.len()
    }

    /// The number of line info entries of a function of `count` slots.
    fn line_count(&self, first: u64, count: u64) -> usize
        ensures { result ≡ line_count self.now first count }
    {
        if self.lines_rise {
            return count_among(self.lines, first, count);
        }
        self.lines.len()
    }

    /// The slot of the section at a symbol's address.
    fn first_slot(&self, symbol: &ElfSymbol<'_>) -> u64
        ensures { result ≡ first_slot self.now (entry symbol.now) }
    {
        offset_by(self.kind, self.address, symbol.address()) / bpf_insn::SIZE as u64
    }

    /// The bytes of a symbol's function.
    #[tactic(auto, unfolding(crate::specs::OwnedBytes::function_bytes))]
    fn function_bytes(&self, name: u128, symbol: &ElfSymbol<'_>) -> u128
        requires { name < 2 ^ 65 }
        ensures exact { result ≡ function_bytes name self.now (entry symbol.now) }
        ensures few { result < 2 ^ 80 }
    {
        let first = self.first_slot(symbol);
        let funcs = self.func_count(first) as u128;
        let lines = self.line_count(first, symbol.size() / bpf_insn::SIZE as u64) as u128;
        let code = u128::from(self.size.min(symbol.size()));
        FUNCTION + name + 2 * code + record_bytes(funcs, lines)
    }

    /// The number of bytes of a symbol in the section, without the symbol's own entry.
    pub fn placed_bytes(&self, license: usize, name: u128, symbol: &ElfSymbol<'_>) -> u128
        requires { name < 2 ^ 65 }
        ensures exact { result
            ≡ placed_by self.now.kind (is_text_symbol (symbol_kind (entry symbol.now))) license
            name self.now (entry symbol.now) }
        ensures few { result < 2 ^ 90 }
    {
        let is_text = matches!(symbol.kind(), SymbolKind::Text);
        match self.kind {
            EbpfSectionKind::Text if is_text => self.function_bytes(name, symbol),
            EbpfSectionKind::Program if is_text => {
                self.function_bytes(name, symbol) + (PROGRAM + name + license as u128)
            }
            EbpfSectionKind::Maps | EbpfSectionKind::BtfMaps => MAP + name,
            _ => 0,
        }
    }
}

/// The number of bytes of the info entries of a function.
fn record_bytes(funcs: u128, lines: u128) -> u128
    requires few_funcs { funcs < 2 ^ 64 }
    requires few_lines { lines < 2 ^ 64 }
    ensures exact { result ≡ record_bytes funcs lines }
    ensures few { result < 2 ^ 70 }
{
    FUNC * funcs + LINE * lines
}

/// The number of bytes of a section itself, before its info entries are counted.
pub fn contents_bytes(
    kind: EbpfSectionKind,
    name: u128,
    section: &ElfSection<'_>,
    funcs: &[bpf_func_info],
    lines: &[bpf_line_info],
) -> u128
    requires { name < 2 ^ 65 }
    ensures { result
        ≡ contents_by kind name
        (record {
          kind = kind;
          address = (header section.now).sh_addr;
          size = (header section.now).sh_size;
          funcs = funcs.now;
          lines = lines.now;
        }) }
{
    match kind {
        EbpfSectionKind::Data | EbpfSectionKind::Rodata | EbpfSectionKind::Bss => {
            MAP + name + u128::from(section.size())
        }
        EbpfSectionKind::Text | EbpfSectionKind::Program => {
            record_bytes(funcs.len() as u128, lines.len() as u128)
        }
        _ => 0,
    }
}
