//! The relocations of a file's sections.

ghost use Rattle.std.specs.FinMap.{empty};
ghost use Rattle.std.specs.FinMap as map;
ghost use Rattle.std.specs.List.{flat_map};
ghost use Rattle.std.specs.Option.{option_copied};
ghost use Rattle.std.specs.Prelude.{◌≡◌, OnOk, OnErr, ◌++◌, map, IfOk, IfErr, true};
ghost use Rattle.ebpf_base.specs.Faults.{Refuses};
ghost use Rattle.ebpf_base.specs.Maps.{put_all};
ghost use Rattle.ebpf_elf.specs.Relocations.{table_entries};
ghost use Rattle.ebpf_parts.specs.Memory.{is_parse_memory};
ghost use Rattle.ebpf_parts.specs.Sections.{target_fault};
ghost use Rattle.ebpf_sections.specs.Relocations.{entry_range_of, EntryRangesAreCached, AreOfOneFile, lacks_symbol, last_tables, relocations_by_offset, offset_of};
ghost use Rattle.ebpf_sections.specs.Sections.{AreTablesOf};

use crate::sections::{Groups, is_index};
use ebpf_base::ByOffset;
use ebpf_elf::{ElfFile, ElfRelocationSection};
use ebpf_parts::{ParseError, Relocation};
use std::alloc::{AllocError, Global};
use std::collections::BTreeMap;
use std::marker::Model;

/// Values by the offset of the first entry, the size of an entry and the number of entries.
#[derive(Drop)]
pub struct ByEntryRange<V> {
    entries: BTreeMap<((usize, usize), usize), V>,
}

impl<V> Model for ByEntryRange<V> {
    ghost use Rattle.std.specs.FinMap as map;
    ghost use Rattle.ebpf_sections.specs.Relocations.{entry_range_cmp, coded_entry_range};

    ghost Value = { map.FinMap entry_range_cmp V };

    ghost coded = { map.code coded_entry_range V.code };

    ghost view = { λ a. map.from_entries a.entries.entries };
}

/// The range of the entries of a relocation section.
fn entry_range_of(table: &ElfRelocationSection<'_>) -> ((usize, usize), usize)
    ensures { result ≡ entry_range_of table.now }
{
    let places = table.extent();
    ((places.offset, places.entry_size), places.count)
}

impl<V> ByEntryRange<V> {
    /// Returns the empty map. Allocates nothing.
    pub fn new(alloc: Global) -> Self
        ensures { result ≡ map.empty }
    {
        ByEntryRange {
            entries: BTreeMap::new(alloc),
        }
    }

    /// Returns the value of the range of a section's entries.
    pub fn get(&self, table: &ElfRelocationSection<'_>) -> Option<&V>
        ensures { option_copied result ≡ map.get self.now (entry_range_of table.now) }
    {
        self.entries.get(&entry_range_of(table))
    }
}

impl<V: Drop> ByEntryRange<V> {
    /// Puts a value at the range of a section's entries. On an allocation failure the map is unchanged.
    pub fn insert(&mut self, table: &ElfRelocationSection<'_>, value: V) -> Result<(), AllocError>
        ensures ok { OnOk result (self.new ≡ map.insert self.old (entry_range_of table.now) value) }
        ensures err { OnErr result (self.new ≡ self.old) }
    {
        self.entries.insert(entry_range_of(table), value)?;
        Ok(())
    }
}

/// A section of relocations, and whether one of its entries names no symbol. Contracts see the section.
#[derive(Drop)]
pub struct RelocationTable<'a> {
    section: ElfRelocationSection<'a>,
    lacks: bool,
    ghost read: { lacks ≡ lacks_symbol (table_entries section) },
}

impl<'a> Model for RelocationTable<'a> {
    ghost use Rattle.ebpf_elf.specs.Sections.{SectionOf};

    ghost Value = { SectionOf };

    ghost view = { λ t. t.section };
}

impl RelocationTable<'_> {
    /// Whether one of the section's entries names no symbol.
    fn lacks_symbol(&self) -> bool
        ensures { result ≡ lacks_symbol (table_entries self.now) }
    {
        self.lacks
    }
}

/// Whether an entry of a section of relocations names no symbol.
fn lacks_symbol(section: &ElfRelocationSection<'_>) -> bool
    ensures { result ≡ lacks_symbol (table_entries section.now) }
{
    for relocation in section.relocations() {
        if relocation.symbol_index == 0 {
            return true;
        }
    }
    false
}

/// A relocation section, whose entries are read only if no section with the same range was read before.
#[tactic(auto, using(crate::proofs::RelocationTables::cached_is, crate::proofs::RelocationTables::cached_more))]
fn read_table<'a>(
    cached: &mut ByEntryRange<bool>,
    section: ElfRelocationSection<'a>,
) -> Result<RelocationTable<'a>, ParseError>
    requires { EntryRangesAreCached section.file cached.old }
    ensures table { IfOk result (λ table. table ≡ section.entry) }
    ensures cached { OnOk result (EntryRangesAreCached section.entry.file cached.new) }
    ensures memory { IfErr result (λ e. is_parse_memory e ≡ true) }
{
    if let Some(known) = cached.get(&section) {
        let lacks = *known;
        return Ok(RelocationTable { section, lacks });
    }
    let lacks = lacks_symbol(&section);
    cached.insert(&section, lacks)?;
    Ok(RelocationTable { section, lacks })
}

/// Reads the relocation sections of a file, by the section that they patch (ELF-64 gABI, 'Relocation').
///
/// # Errors
///
/// - `OutOfMemory`: an allocation fails.
pub fn read_relocation_sections<'a>(
    alloc: Global,
    file: &ElfFile<'a>,
) -> Result<Groups<RelocationTable<'a>>, ParseError>
    ensures groups { IfOk result (λ g. AreTablesOf file.now g.groups) }
    ensures memory { IfErr result (λ e. is_parse_memory e ≡ true) }
{
    let mut groups = Groups::new(alloc);
    let mut cached = ByEntryRange::new(alloc);
    for section in file.relocation_sections() {
        let target = section.target();
        let table = read_table(&mut cached, section)?;
        groups.add(alloc, target, table)?;
    }
    Ok(groups)
}

/// Refuses relocation sections of which an entry names symbol 0, which is none.
///
/// # Errors
///
/// - `UnsupportedRelocationTarget`: an entry names symbol 0.
/// - `OutOfMemory`: an allocation fails.
#[tactic(auto, using(crate::proofs::RelocationTables::targets_more, crate::proofs::RelocationTables::targets_none))]
pub fn check_targets(tables: &[RelocationTable<'_>]) -> Result<(), ParseError>
    ensures { Refuses is_parse_memory result (target_fault (flat_map table_entries tables.now)) }
{
    for table in tables {
        if table.lacks_symbol() {
            return Err(ParseError::UnsupportedRelocationTarget);
        }
    }
    Ok(())
}

/// The index of the last relocation section of each range of entries.
#[tactic(auto, using(crate::proofs::RelocationTables::row_more, ebpf_base::proofs::Lists::rest_none))]
fn last_tables(
    alloc: Global,
    tables: &[RelocationTable<'_>],
) -> Result<ByEntryRange<usize>, ParseError>
    ensures last { IfOk result (λ last. last ≡ last_tables tables.now) }
    ensures memory { IfErr result (λ e. is_parse_memory e ≡ true) }
{
    let mut last = ByEntryRange::new(alloc);
    for table in tables {
        last.insert(&table.section, table.section.index().0)?;
    }
    Ok(last)
}

/// Gathers the entries of a section of relocations, each behind its offset.
fn gather_entries(
    entries: &mut Vec<(u64, Relocation)>,
    table: &RelocationTable<'_>,
) -> Result<(), ParseError>
    ensures gathered { OnOk result
        (entries.new.items ≡ entries.old.items ++ map offset_of (table_entries table.now)) }
    ensures memory { IfErr result (λ e. is_parse_memory e ≡ true) }
{
    for relocation in table.section.relocations() {
        entries.push((relocation.offset, relocation))?;
    }
    Ok(())
}

/// The table of these entries, the later of two at one offset.
fn table_of(
    alloc: Global,
    entries: Vec<(u64, Relocation)>,
) -> Result<ByOffset<Relocation>, AllocError>
    ensures all { IfOk result (λ table. table ≡ put_all empty entries.items) }
{
    Ok(ByOffset::from_map(entries.into_iter().collect(alloc)?))
}

/// The relocations by offset; of sections with the same range of entries only those of the last one.
#[tactic(auto, using(ebpf_base::proofs::Lists::rest_none))]
fn put_last_tables(
    alloc: Global,
    tables: &[RelocationTable<'_>],
    last: &ByEntryRange<usize>,
) -> Result<ByOffset<Relocation>, ParseError>
    requires file { AreOfOneFile tables.now }
    requires last { last.now ≡ last_tables tables.now }
    ensures kept { IfOk result (λ m.
        m ≡ relocations_by_offset (flat_map table_entries tables.now)) }
    ensures memory { IfErr result (λ e. is_parse_memory e ≡ true) }
{
    let mut entries = Vec::new(alloc);
    for table in tables {
        if !is_index(table.section.index().0, last.get(&table.section)) {
            continue;
        }
        gather_entries(&mut entries, table)?;
    }
    Ok(table_of(alloc, entries)?)
}

/// Returns the relocations of a section by offset, the later of two at one offset.
///
/// # Errors
///
/// - `OutOfMemory`: an allocation fails.
pub fn by_offset(
    alloc: Global,
    tables: &[RelocationTable<'_>],
) -> Result<ByOffset<Relocation>, ParseError>
    requires { AreOfOneFile tables.now }
    ensures kept { IfOk result (λ m.
        m ≡ relocations_by_offset (flat_map table_entries tables.now)) }
    ensures memory { IfErr result (λ e. is_parse_memory e ≡ true) }
{
    let last = last_tables(alloc, tables)?;
    put_last_tables(alloc, tables, &last)
}
