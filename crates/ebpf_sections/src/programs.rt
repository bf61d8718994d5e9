//! The programs of a Program section, and their functions.

ghost use Rattle.std.specs.Prelude.{◌≡◌, ◌+◌, ◌≤◌, IfOk, OnOk, IfErr, true, Some, length, map};
ghost use Rattle.ebpf_base.specs.Faults.{Refuses, first_of};
ghost use Rattle.ebpf_base.specs.Maps.{put_all};
ghost use Rattle.ebpf_parts.specs.Memory.{is_parse_memory};
ghost use Rattle.ebpf_sections.specs.Programs.{is_program_symbol, program_bytes, range_faults, program_function, program_fault, program_functions, programs_fault, programs_of, with_key, last_programs};

use crate::metadata::FileMetadata;
use crate::section_records::SectionRecords;
use crate::sections::is_index;
use crate::symbols::NamedSymbol;
use ebpf_base::{ByKey, ByName, ByOffset, Items, Text};
use ebpf_elf::SymbolKind;
use ebpf_model::{Function, Program};
use ebpf_parts::insn::{bpf_insn, copy_instructions};
use ebpf_parts::{ParseError, ProgramSection, Section};
use std::alloc::Global;

impl NamedSymbol<'_> {
    /// Whether the symbol names a program of its section: a Text symbol with a name.
    fn is_program(&self) -> bool
        ensures { result ≡ is_program_symbol self.now }
    {
        matches!(self.kind, SymbolKind::Text) && self.name.len() != 0
    }
}

/// The bytes of a program.
fn bytes_of<'a>(
    alloc: Global,
    section: &Section<'a>,
    symbol: &NamedSymbol<'_>,
) -> Result<&'a [u8], ParseError>
    ensures bytes { IfOk result (λ bytes. bytes.now ≡ program_bytes section.now symbol.now) }
    ensures low { OnOk result (section.now.address ≤ symbol.now.address) }
    ensures high { OnOk result (symbol.now.address + symbol.now.size ≤ length section.now.bytes) }
    ensures fault { Refuses is_parse_memory result
        (first_of (range_faults section.now symbol.now)) }
{
    let len = section.bytes.len() as u64;
    if symbol.address < section.address || symbol.size > len || symbol.address > len - symbol.size {
        return Err(ParseError::InvalidSymbol {
            index: symbol.index,
            name: Some(Text::from_str(alloc, symbol.name)?),
        });
    }
    let start = symbol.address as usize;
    let end = start + symbol.size as usize;
    Ok(&section.bytes[start..end])
}

/// The function of a program's symbol.
#[tactic(auto, unfolding(crate::specs::Programs::program_function, crate::specs::Programs::program_fault))]
fn function_of(
    alloc: Global,
    records: &SectionRecords<'_>,
    section: &Section<'_>,
    symbol: &NamedSymbol<'_>,
) -> Result<Function, ParseError>
    ensures function { IfOk result (λ f. f ≡ program_function records.now section.now symbol.now) }
    ensures fault { Refuses is_parse_memory result (program_fault section.now symbol.now) }
{
    let bytes = bytes_of(alloc, section, symbol)?;
    let first = (symbol.address - section.address) as usize / bpf_insn::SIZE;
    let instructions = copy_instructions(alloc, bytes)?;
    Ok(Function {
        address: symbol.address,
        name: Text::from_str(alloc, symbol.name)?,
        section_index: section.index,
        section_offset: symbol.address as usize,
        instructions: Items::from_vec(instructions),
        func_info: records.funcs_at(alloc, first, first)?,
        line_info: records.lines_in(alloc, first, symbol.size as usize / bpf_insn::SIZE, first)?,
        func_info_rec_size: records.func_size,
        line_info_rec_size: records.line_size,
    })
}

/// Checks a program's symbol whose function is not made.
#[tactic(auto, unfolding(crate::specs::Programs::program_fault, ebpf_parts::specs::Slots::code_faults))]
fn check_program(
    alloc: Global,
    section: &Section<'_>,
    symbol: &NamedSymbol<'_>,
) -> Result<(), ParseError>
    ensures { Refuses is_parse_memory result (program_fault section.now symbol.now) }
{
    let bytes = bytes_of(alloc, section, symbol)?;
    if bytes.len() % bpf_insn::SIZE != 0 {
        return Err(ParseError::InvalidProgramCode);
    }
    Ok(())
}

/// The index of the last program's symbol at each address.
#[tactic(auto, using(crate::proofs::Lasts::row_more, crate::proofs::Lasts::row_passed, ebpf_base::proofs::Lists::rest_none))]
fn last_programs(alloc: Global, symbols: &[NamedSymbol<'_>]) -> Result<ByOffset<usize>, ParseError>
    ensures last { IfOk result (λ last. last ≡ last_programs symbols.now) }
    ensures memory { IfErr result (λ e. is_parse_memory e ≡ true) }
{
    let mut last = ByOffset::new(alloc);
    for symbol in symbols {
        if !symbol.is_program() {
            continue;
        }
        last.insert(symbol.address, symbol.index)?;
    }
    Ok(last)
}

/// Puts the functions of a section's programs by section and address; of symbols at one address only the last one's.
#[tactic(auto, using(ebpf_base::proofs::Lists::kept_more, ebpf_base::proofs::Lists::passed_more, ebpf_base::proofs::Lists::fault_here, ebpf_base::proofs::Lists::rest_none))]
fn put_last_functions(
    alloc: Global,
    functions: &mut ByKey<Function>,
    records: &SectionRecords<'_>,
    section: &Section<'_>,
    symbols: &[NamedSymbol<'_>],
    last: &ByOffset<usize>,
) -> Result<(), ParseError>
    requires { last.now ≡ last_programs symbols.now }
    ensures put { OnOk result
        (functions.new
        ≡ put_all functions.old
        (map with_key (program_functions records.now section.now symbols.now))) }
    ensures fault { Refuses is_parse_memory result (programs_fault section.now symbols.now) }
{
    for symbol in symbols {
        if !symbol.is_program() {
            continue;
        }
        if !is_index(symbol.index, last.get(symbol.address)) {
            check_program(alloc, section, symbol)?;
            continue;
        }
        let function = function_of(alloc, records, section, symbol)?;
        functions.insert((function.section_index.0, function.address), function)?;
    }
    Ok(())
}

/// Puts the functions of a section's programs into a table, by section and address.
///
/// # Errors
///
/// - `InvalidSymbol`: a program has bytes outside its section.
/// - `InvalidProgramCode`: a program is no whole number of slots.
/// - `OutOfMemory`: an allocation fails.
pub fn put_functions(
    alloc: Global,
    functions: &mut ByKey<Function>,
    records: &SectionRecords<'_>,
    section: &Section<'_>,
    symbols: &[NamedSymbol<'_>],
) -> Result<(), ParseError>
    ensures put { OnOk result
        (functions.new
        ≡ put_all functions.old
        (map with_key (program_functions records.now section.now symbols.now))) }
    ensures fault { Refuses is_parse_memory result (programs_fault section.now symbols.now) }
{
    let last = last_programs(alloc, symbols)?;
    put_last_functions(alloc, functions, records, section, symbols, &last)
}

/// Puts the programs of a section into a table, by name.
///
/// # Errors
///
/// - `OutOfMemory`: an allocation fails.
#[tactic(auto, using(ebpf_base::proofs::Lists::kept_more, ebpf_base::proofs::Lists::passed_more, ebpf_base::proofs::Lists::rest_none))]
pub fn put_programs(
    alloc: Global,
    programs: &mut ByName<Program>,
    metadata: &FileMetadata,
    kind: ProgramSection,
    section: &Section<'_>,
    symbols: &[NamedSymbol<'_>],
) -> Result<(), ParseError>
    ensures put { OnOk result
        (programs.new
        ≡ put_all programs.old
        (programs_of metadata.now.license metadata.now.kernel_version section.now
        symbols.now (Some kind))) }
    ensures memory { IfErr result (λ e. is_parse_memory e ≡ true) }
{
    for symbol in symbols {
        if !symbol.is_program() {
            continue;
        }
        let name = String::from_str(alloc, symbol.name)?;
        let program = Program {
            license: Items::from_vec(Vec::from_slice(alloc, metadata.license.as_slice())?),
            kernel_version: metadata.kernel_version,
            section: kind,
            section_index: section.index.0,
            address: symbol.address,
        };
        programs.insert(name, program)?;
    }
    Ok(())
}
