//! The functions of a Text section, by its symbols in order of their address.

ghost use Rattle.std.specs.Bool.{MatchBool, OnTrue};
ghost use Rattle.std.specs.FinMap.{empty};
ghost use Rattle.std.specs.List.{AllAdjacentBelow, HoldsAt, find};
ghost use Rattle.std.specs.List.Sorted.{IsNonDecreasingBy, IsPartitionPoint};
ghost use Rattle.std.specs.Prelude.{◌≡◌, ◌==◌, ◌<◌, ◌≤◌, ℕ, IfOk, IfErr, true, filter, map, length, option_map, ◌+◌, ◌∷◌, [], Some, OnOk};
ghost use Rattle.ebpf_base.specs.Faults.{Refuses};
ghost use Rattle.ebpf_base.specs.Maps.{put_all};
ghost use Rattle.ebpf_parts.specs.Memory.{is_parse_memory};
ghost use Rattle.ebpf_sections.specs.Programs.{with_key};
ghost use Rattle.ebpf_sections.specs.Texts.{conflict_fault, is_defined_text, is_text_at, is_at, function_at, text_fault_at, size_at, text_function, text_fault_of, text_functions, walk_fault, text_fault};

use crate::section_records::SectionRecords;
use crate::symbols::NamedSymbol;
use ebpf_base::{ByKey, Items, Text};
use ebpf_elf::SymbolKind;
use ebpf_model::Function;
use ebpf_parts::insn::{bpf_insn, copy_instructions};
use ebpf_parts::{ParseError, Section};
use std::alloc::{AllocError, Global};
use std::cell::Cell;
use std::collections::BTreeSet;

impl NamedSymbol<'_> {
    /// Whether the symbol names a function of a Text section: a Text symbol that is defined.
    fn is_defined_text(&self) -> bool
        ensures { result ≡ is_defined_text self.now }
    {
        matches!(self.kind, SymbolKind::Text) && self.is_definition
    }
}

/// The defined Text symbols.
fn defined_symbols<'s, 'a>(
    alloc: Global,
    symbols: &'s [NamedSymbol<'a>],
) -> Result<Vec<&'s NamedSymbol<'a>>, ParseError>
    ensures rows { IfOk result (λ rows.
        map (λ y. y.now) rows.items ≡ filter is_defined_text symbols.now) }
    ensures memory { IfErr result (λ e. is_parse_memory e ≡ true) }
{
    let mut rows = Vec::with_capacity(alloc, symbols.len())?;
    for symbol in symbols {
        if symbol.is_defined_text() {
            rows.push(symbol)?;
        }
    }
    Ok(rows)
}

/// Sorts symbols by their addresses; symbols at one address keep their order.
fn sort_by_address<'s, 'a>(
    mut rows: Vec<&'s NamedSymbol<'a>>,
) -> Result<Vec<&'s NamedSymbol<'a>>, ParseError>
    ensures rising { IfOk result (λ s. IsNonDecreasingBy (λ y. y.now.address) s.items) }
    ensures grouped { IfOk result (λ s.
        (q : ℕ)
        → filter (is_at q) (map (λ y. y.now) s.items)
        ≡ filter (is_at q) (map (λ y. y.now) rows.entry.items)) }
    ensures memory { IfErr result (λ e. is_parse_memory e ≡ true) }
{
    rows.sort_by_key(|row| row.address)?;
    Ok(rows)
}

/// Whether the symbol at an index has a smaller address than `address`.
fn is_below(rows: &[&NamedSymbol<'_>], index: usize, address: u64) -> bool
    requires { index < length rows.now }
    ensures { MatchBool result (HoldsAt (λ y. y.now.address < address) rows.now index)
        (HoldsAt (λ y. address ≤ y.now.address) rows.now index) }
{
    let row = rows[index];
    row.address < address
}

/// Whether each symbol has a greater address than the one before it.
fn rises(rows: &[&NamedSymbol<'_>]) -> bool
    ensures { OnTrue result
        (AllAdjacentBelow (λ x y. x.now.address < y.now.address) rows.now (length rows.now)) }
{
    for index in 1..rows.len() {
        let row = rows[index];
        if !is_below(rows, index - 1, row.address) {
            return false;
        }
    }
    true
}

/// Checks that no defined Text symbol has the address of one before it.
#[tactic(auto, using(crate::proofs::FunctionSymbols::find_front, crate::proofs::FunctionSymbols::repeated_more, crate::proofs::FunctionSymbols::repeated_here, crate::proofs::FunctionSymbols::repeated_is), unfolding(crate::specs::Texts::conflict_fault))]
fn check_conflicts(
    alloc: Global,
    section_index: usize,
    symbols: &[NamedSymbol<'_>],
) -> Result<(), ParseError>
    ensures { Refuses is_parse_memory result (conflict_fault section_index symbols.now) }
{
    let mut found = BTreeSet::new(alloc);
    for symbol in symbols {
        if symbol.is_defined_text() {
            let address = symbol.address;
            if !found.insert(address)? {
                return Err(ParseError::SymbolTableConflict {
                    section_index,
                    address,
                });
            }
        }
    }
    Ok(())
}

/// Checks that no two defined Text symbols are at one address. `rows` are all of them: if their addresses rise, no two
/// are at one address.
fn check_apart(
    alloc: Global,
    section_index: usize,
    symbols: &[NamedSymbol<'_>],
    rows: &[&NamedSymbol<'_>],
) -> Result<(), ParseError>
    requires { (q : ℕ)
        → filter (is_at q) (map (λ y. y.now) rows.now) ≡ filter (is_text_at q) symbols.now }
    ensures { Refuses is_parse_memory result (conflict_fault section_index symbols.now) }
{
    if rises(rows) {
        return Ok(());
    }
    check_conflicts(alloc, section_index, symbols)
}

/// Whether there is a symbol at an index, and the symbols before that index are those with addresses below `address`.
fn splits(rows: &[&NamedSymbol<'_>], index: usize, address: u64) -> bool
    requires { IsNonDecreasingBy (λ y. y.now.address) rows.now }
    ensures within { OnTrue result (index ≤ length rows.now) }
    ensures cut { OnTrue result
        (IsPartitionPoint (λ y. y.now.address < address) (λ y. address ≤ y.now.address) rows.now
        index) }
{
    index < rows.len()
        && !is_below(rows, index, address)
        && (index == 0 || is_below(rows, index - 1, address))
}

/// The number of symbols with addresses below `address`. The guess is tried first.
fn lower_bound(rows: &[&NamedSymbol<'_>], guess: usize, address: u64) -> usize
    requires { IsNonDecreasingBy (λ y. y.now.address) rows.now }
    ensures within { result ≤ length rows.now }
    ensures cut { IsPartitionPoint (λ y. y.now.address < address) (λ y. address ≤ y.now.address)
        rows.now result }
{
    if splits(rows, guess, address) {
        return guess;
    }
    rows.partition_point(|row| row.address < address)
}

/// The first symbol at an address, where `index` symbols have smaller addresses.
fn row_at<'s, 'a>(
    rows: &[&'s NamedSymbol<'a>],
    index: usize,
    address: u64,
) -> Option<&'s NamedSymbol<'a>>
    requires rising { IsNonDecreasingBy (λ y. y.now.address) rows.now }
    requires cut { IsPartitionPoint (λ y. y.now.address < address) (λ y. address ≤ y.now.address)
        rows.now index }
    ensures { result ≡ find (λ y. y.now.address == address) rows.now }
{
    match rows.get(index) {
        Some(row) if row.address == address => Some(*row),
        _ => None,
    }
}

/// The defined Text symbols of a section, no two of them at one address.
#[derive(Drop)]
pub struct FunctionSymbols<'s, 'a> {
    pub symbols: &'s [NamedSymbol<'a>],
    /// The symbols in order of their addresses.
    rows: Vec<&'s NamedSymbol<'a>>,
    /// The index behind the last symbol that was asked for, since most are asked for in order.
    next: Cell<usize>,
    ghost rising: { IsNonDecreasingBy (λ y. y.now.address) rows.items },
    ghost by_address: { (q : ℕ)
        → find (is_at q) (map (λ y. y.now) rows.items) ≡ find (is_text_at q) symbols.now },
}

impl<'s, 'a> FunctionSymbols<'s, 'a> {
    /// Returns the symbols of functions among a section's symbols.
    ///
    /// # Errors
    ///
    /// - `SymbolTableConflict`: two of them are at one address.
    /// - `OutOfMemory`: an allocation fails.
    pub fn new(
        alloc: Global,
        section_index: usize,
        symbols: &'s [NamedSymbol<'a>],
    ) -> Result<FunctionSymbols<'s, 'a>, ParseError>
        ensures symbols { IfOk result (λ t. t.symbols.now ≡ symbols.now) }
        ensures fault { Refuses is_parse_memory result (conflict_fault section_index symbols.now) }
    {
        let rows = sort_by_address(defined_symbols(alloc, symbols)?)?;
        check_apart(alloc, section_index, symbols, rows.as_slice())?;
        let next = Cell::new(0);
        Ok(FunctionSymbols {
            symbols,
            rows,
            next,
        })
    }

    /// The number of symbols. No clause states it, since it only says how much memory to take.
    pub fn count(&self) -> usize {
        self.rows.len()
    }

    /// Returns the symbol of the function at an address.
    pub fn at(&self, address: u64) -> Option<&'s NamedSymbol<'a>>
        ensures { option_map (λ y. y.now) result ≡ find (is_text_at address) self.now.symbols.now }
    {
        let index = lower_bound(self.rows.as_slice(), self.next.get(), address);
        self.next.set(index + 1);
        row_at(self.rows.as_slice(), index, address)
    }
}

/// The function that a symbol begins at an offset, and where it ends.
#[tactic(auto, unfolding(crate::specs::Texts::text_function))]
fn function_of(
    alloc: Global,
    records: &SectionRecords<'_>,
    section: &Section<'_>,
    symbol: &NamedSymbol<'_>,
    offset: usize,
) -> Result<(Function, usize), ParseError>
    requires { offset < length section.now.bytes }
    ensures function { IfOk result (λ r.
        r.0 ≡ text_function records.now section.now offset symbol.now) }
    ensures end { IfOk result (λ r. r.1 ≡ offset + symbol.now.size) }
    ensures further { IfOk result (λ r. offset < r.1) }
    ensures inside { IfOk result (λ r. r.1 ≤ length section.now.bytes) }
    ensures fault { Refuses is_parse_memory result
        (text_fault_of section.now offset (Some symbol.now)) }
{
    let left = section.bytes.len() - offset;
    if symbol.size == 0 || symbol.size > left as u64 {
        return Err(ParseError::InvalidSymbol {
            index: symbol.index,
            name: Some(Text::from_str(alloc, symbol.name)?),
        });
    }
    let end = offset + symbol.size as usize;
    let instructions = copy_instructions(alloc, &section.bytes[offset..end])?;
    let function = Function {
        address: symbol.address,
        name: Text::from_str(alloc, symbol.name)?,
        section_index: section.index,
        section_offset: offset,
        instructions: Items::from_vec(instructions),
        func_info: records.funcs_at(alloc, offset / bpf_insn::SIZE, 0)?,
        line_info: records.lines_in(
            alloc,
            offset / bpf_insn::SIZE,
            symbol.size as usize / bpf_insn::SIZE,
            0,
        )?,
        func_info_rec_size: records.func_size,
        line_info_rec_size: records.line_size,
    };
    Ok((function, end))
}

/// The function at an offset, and where it ends.
#[tactic(auto, unfolding(crate::specs::Texts::function_at, crate::specs::Texts::text_fault_at, crate::specs::Texts::size_at, crate::specs::Texts::symbol_at_offset))]
fn function_at(
    alloc: Global,
    records: &SectionRecords<'_>,
    section: &Section<'_>,
    symbols: &FunctionSymbols<'_, '_>,
    offset: usize,
) -> Result<(Function, usize), ParseError>
    requires { offset < length section.now.bytes }
    ensures function { IfOk result (λ r.
        function_at records.now section.now symbols.now.symbols.now offset ≡ r.0 ∷ []) }
    ensures end { IfOk result (λ r.
        r.1 ≡ offset + size_at section.now symbols.now.symbols.now offset) }
    ensures further { IfOk result (λ r. offset < r.1) }
    ensures inside { IfOk result (λ r. r.1 ≤ length section.now.bytes) }
    ensures fault { Refuses is_parse_memory result
        (text_fault_at section.now symbols.now.symbols.now offset) }
{
    let address = section.address.wrapping_add(offset as u64);
    match symbols.at(address) {
        None => Err(ParseError::UnknownSymbol {
            section_index: section.index.0,
            address,
        }),
        Some(symbol) => function_of(alloc, records, section, symbol, offset),
    }
}

/// The functions from offset 0 up, each behind its section and address.
#[tactic(auto, using(crate::proofs::Tiles::start))]
fn gather(
    alloc: Global,
    records: &SectionRecords<'_>,
    section: &Section<'_>,
    symbols: &FunctionSymbols<'_, '_>,
) -> Result<Vec<((usize, u64), Function)>, ParseError>
    ensures all { IfOk result (λ entries.
        entries.items
        ≡ map with_key (text_functions records.now section.now symbols.now.symbols.now)) }
    ensures fault { Refuses is_parse_memory result
        (walk_fault section.now symbols.now.symbols.now) }
{
    let mut entries = Vec::with_capacity(alloc, symbols.count())?;
    let mut offset = 0;
    while offset < section.bytes.len() {
        let (function, end) = function_at(alloc, records, section, symbols, offset)?;
        entries.push(((function.section_index.0, function.address), function))?;
        offset = end;
    }
    Ok(entries)
}

/// The table of these entries; of entries with one key the last one.
fn table_of(
    alloc: Global,
    entries: Vec<((usize, u64), Function)>,
) -> Result<ByKey<Function>, AllocError>
    ensures all { IfOk result (λ table. table ≡ put_all empty entries.items) }
{
    Ok(ByKey::from_map(entries.into_iter().collect(alloc)?))
}

/// Puts entries into a table, one after the other; an empty table is built of them in one go.
fn put_entries(
    alloc: Global,
    functions: &mut ByKey<Function>,
    entries: Vec<((usize, u64), Function)>,
) -> Result<(), AllocError>
    ensures put { OnOk result (functions.new ≡ put_all functions.old entries.items) }
{
    if functions.is_empty() {
        *functions = table_of(alloc, entries)?;
        return Ok(());
    }
    for (key, function) in entries {
        functions.insert(key, function)?;
    }
    Ok(())
}

/// Puts the functions of a Text section with these symbols into a table, by section and address.
///
/// # Errors
///
/// - `SymbolTableConflict`: two functions are at one address.
/// - `UnknownSymbol`: no function begins where the one before it ends.
/// - `InvalidSymbol`: a function has no bytes, or bytes outside the section.
/// - `InvalidProgramCode`: a function is no whole number of slots.
/// - `OutOfMemory`: an allocation fails.
#[tactic(auto, unfolding(crate::specs::Texts::text_fault))]
pub fn put_text_functions(
    alloc: Global,
    functions: &mut ByKey<Function>,
    records: &SectionRecords<'_>,
    section: &Section<'_>,
    symbols: &[NamedSymbol<'_>],
) -> Result<(), ParseError>
    ensures put { OnOk result
        (functions.new
        ≡ put_all functions.old
        (map with_key (text_functions records.now section.now symbols.now))) }
    ensures fault { Refuses is_parse_memory result (text_fault section.now symbols.now) }
{
    let symbols = FunctionSymbols::new(alloc, section.index.0, symbols)?;
    let entries = gather(alloc, records, section, &symbols)?;
    put_entries(alloc, functions, entries)?;
    Ok(())
}
