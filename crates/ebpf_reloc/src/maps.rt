//! The pass that writes the descriptors of maps.

ghost use Rattle.std.specs.Iterator.{IsFinite, Drains};
ghost use Rattle.std.specs.Prelude.{◌≡◌, List, map, OnOk, IfOk, ◌<◌, None, Some, OnErr, IfErr, MatchBool};
ghost use Rattle.ebpf_base.specs.Maps.{map_values};
ghost use Rattle.ebpf_model.specs.Memory.{is_memory_at};
ghost use Rattle.ebpf_model.specs.Symbols.{text_sections_in};
ghost use Rattle.ebpf_parts.specs.Maps.{bytes_of};
ghost use Rattle.ebpf_reloc.specs.Maps.{LentMap, given_map, symbol_target, tables_of, has_data, with_map_target, value_offset, with_source, map_target_at, target_edit, section_edit, map_edit};
ghost use Rattle.ebpf_reloc.specs.Passes.{map_inputs, HoldsOfGivenMaps, with_map_fds, map_fault};
ghost use Rattle.ebpf_reloc.specs.Relocated.{out_of_memory};

use crate::edit::{Edit, Rule, SlotFault};
use crate::functions::relocate;
use ebpf_base::{ByIndex, ByKey, ByOffset, BySection};
use ebpf_model::{EbpfRelocationError, Function, Symbol};
use ebpf_parts::Relocation;
use ebpf_parts::insn::bpf_insn;
use ebpf_parts::insn::opcodes::{BPF_PSEUDO_MAP_FD, BPF_PSEUDO_MAP_VALUE};
use ebpf_parts::maps::Map;
use std::alloc::{AllocError, Global};
use std::collections::HashSet;

/// The type of an arena (`BPF_MAP_TYPE_ARENA`).
const ARENA: u32 = 33;

/// What a slot takes from a map.
#[derive(Clone, Copy)]
pub struct MapTarget {
    /// The map's descriptor.
    pub descriptor: i32,
    /// Whether the slot refers to data that the map begins with.
    pub has_data: bool,
}

/// The maps by the index of the symbol that names them, and by that of their section.
#[derive(Drop)]
pub struct MapTables {
    /// The last map of each symbol.
    pub by_symbol: ByIndex<MapTarget>,
    /// The last map of each section.
    pub by_section: ByIndex<MapTarget>,
}

/// What is read to write maps' descriptors.
#[derive(Clone, Copy)]
pub struct MapRule<'a> {
    /// The symbols by their index.
    pub symbols: &'a ByIndex<Symbol>,
    /// The maps.
    pub tables: &'a MapTables,
    /// The indexes of the sections that hold functions.
    pub text_sections: &'a HashSet<usize>,
}

/// What a slot takes from a map with this descriptor.
fn map_target(descriptor: i32, map: &Map) -> MapTarget
    ensures { result ≡ record { descriptor = descriptor; has_data = has_data (bytes_of map.now) } }
{
    MapTarget {
        descriptor,
        has_data: !map.data().is_empty(),
    }
}

/// What a slot takes from the map that its symbol names. The symbol of an arena names the map alone.
fn symbol_target(descriptor: i32, map: &Map) -> MapTarget
    ensures { result ≡ symbol_target (descriptor, map.now) }
{
    if map.map_type() == ARENA {
        return MapTarget {
            descriptor,
            has_data: false,
        };
    }
    map_target(descriptor, map)
}

impl MapTables {
    /// Puts a map over those of its symbol and its section.
    fn put(&mut self, descriptor: i32, map: &Map) -> Result<(), AllocError>
        ensures { OnOk result (self.new ≡ with_map_target self.old descriptor map.now) }
    {
        let target = map_target(descriptor, map);
        if let Some(symbol) = map.symbol_index() {
            self.by_symbol
                .insert(symbol, symbol_target(descriptor, map))?;
        }
        self.by_section.insert(map.section_index(), target)?;
        Ok(())
    }

    /// The maps that an iterator gives, the later over the earlier.
    pub fn gather<'a, I: Iterator<Item = (&'a str, i32, &'a Map)> + Drop>(
        alloc: Global,
        maps: I,
    ) -> Result<MapTables, AllocError>
        requires can { I.can_next maps }
        requires ends { IsFinite (I.remaining maps) }
        ensures { IfOk result (λ tables.
            (lent : List LentMap)
            × Drains I.next_gives maps lent
            × (tables ≡ tables_of (map given_map lent))) }
    {
        let mut tables = MapTables {
            by_symbol: ByIndex::new(alloc),
            by_section: ByIndex::new(alloc),
        };
        for (_, descriptor, map) in maps {
            tables.put(descriptor, map)?;
        }
        Ok(tables)
    }
}

/// The slot with another source register and immediate.
pub fn with_source(slot: bpf_insn, source: u8, imm: i32) -> bpf_insn
    requires { source < 16 }
    ensures { result ≡ with_source slot source imm }
{
    bpf_insn {
        regs: source * 16 + slot.dst_reg(),
        imm,
        ..slot
    }
}

/// The sum of a slot's immediate and a symbol's address, where 32 signed bits hold it.
fn value_offset(imm: i32, address: u64) -> Option<i32>
    ensures { result ≡ value_offset imm address }
{
    if address > 0xffff_ffff {
        return None;
    }
    let sum = i64::from(imm) + address as i64;
    if sum > 0x7fff_ffff {
        return None;
    }
    Some(sum as i32)
}

/// What a map makes of a slot that refers to it, by the address of the slot's symbol.
fn target_edit(
    target: MapTarget,
    address: u64,
    slot: bpf_insn,
    has_next: bool,
) -> Result<Edit, SlotFault>
    ensures { result ≡ target_edit target address slot has_next }
{
    if !target.has_data {
        return Ok(Edit::Slot(with_source(slot, BPF_PSEUDO_MAP_FD, target.descriptor)));
    }
    if !has_next {
        return Err(SlotFault::InvalidOffset);
    }
    match value_offset(slot.imm, address) {
        Some(next) => Ok(Edit::Pair(
            with_source(slot, BPF_PSEUDO_MAP_VALUE, target.descriptor),
            next,
        )),
        None => Err(SlotFault::MapAddressOverflow),
    }
}

/// The last map of a symbol, else the last one of its section.
fn map_target_at(tables: &MapTables, symbol: usize, section: usize) -> Option<MapTarget>
    ensures { result ≡ map_target_at tables.now symbol section }
{
    match tables.by_symbol.get(symbol) {
        Some(target) => Some(*target),
        None => tables.by_section.get(section).copied(),
    }
}

/// What a relocation to a symbol of a section makes of a slot.
fn section_edit(
    rule: &MapRule<'_>,
    section: usize,
    relocation: Relocation,
    symbol: &Symbol,
    slot: bpf_insn,
    has_next: bool,
) -> Result<Edit, SlotFault>
    ensures { result
        ≡ section_edit (map_inputs rule.now) section relocation symbol.now slot has_next }
{
    if slot.is_pseudo_call() || rule.text_sections.contains(&section) {
        return Ok(Edit::Stay);
    }
    match map_target_at(rule.tables, relocation.symbol_index, section) {
        Some(target) => target_edit(target, symbol.address, slot, has_next),
        None => Err(SlotFault::SectionNotFound(section)),
    }
}

/// What a relocation makes of a slot, by the maps.
pub fn map_edit(
    rule: &MapRule<'_>,
    relocation: Relocation,
    slot: bpf_insn,
    has_next: bool,
) -> Result<Edit, SlotFault>
    ensures { result ≡ map_edit (map_inputs rule.now) relocation slot has_next }
{
    let Some(symbol) = rule.symbols.get(relocation.symbol_index) else {
        return Err(SlotFault::UnknownSymbol);
    };
    match symbol.section_index {
        Some(section) => section_edit(rule, section, relocation, symbol, slot, has_next),
        None => Ok(Edit::Stay),
    }
}

/// Writes the descriptors of maps into the slots that refer to them (RFC 9669, section 5.4). `maps` gives each map
/// with its name and its descriptor; of maps of one symbol or one section the later one counts. `text_sections` has
/// the indexes of the sections that hold functions.
///
/// A relocation of a function refers to the map of its symbol, else to that of the symbol's section. A slot that
/// refers to a map without data gets source 1 and the descriptor. One that refers to a map with data gets source 2
/// and the descriptor, and the slot after it the place in the data: the slot's immediate plus the symbol's address.
/// The own symbol of an arena (type 33) refers to the map, as one without data does.
/// Calls of functions, symbols without section and those of `text_sections` are passed over. All else stays.
///
/// # Errors
///
/// Those of the first function by its key, and of its first relocation by offset, that can't be applied, with the
/// function's name: `InvalidRelocationOffset` where it does not stand at the beginning of a slot; `UnknownSymbol`;
/// `SectionNotFound` where there is no map; for a map with data `InvalidRelocationOffset` where no slot comes after
/// it, and `MapAddressOverflow` where 32 signed bits don't hold the place. `OutOfMemory` only where memory was
/// refused. After an error the functions are as they were.
pub fn relocate_maps<'a, I: Iterator<Item = (&'a str, i32, &'a Map)> + Drop>(
    alloc: Global,
    functions: &mut ByKey<Function>,
    symbols: &ByIndex<Symbol>,
    relocations: &BySection<ByOffset<Relocation>>,
    maps: I,
    text_sections: &HashSet<usize>,
) -> Result<(), EbpfRelocationError>
    requires can { I.can_next maps }
    requires ends { IsFinite (I.remaining maps) }
    ensures ok { OnOk result
        (HoldsOfGivenMaps I.next_gives maps (λ given.
        (functions.new
        ≡ map_values
        (with_map_fds symbols.now (text_sections_in text_sections.now) given
        relocations.now) functions.old)
        × (map_fault symbols.now (text_sections_in text_sections.now) given relocations.now
        functions.old
        ≡ None))) }
    ensures fault { IfErr result (λ e.
        MatchBool (is_memory_at e) (e ≡ out_of_memory)
        (HoldsOfGivenMaps I.next_gives maps (λ given.
        map_fault symbols.now (text_sections_in text_sections.now) given
        relocations.now functions.old
        ≡ Some e))) }
    ensures err { OnErr result (functions.new ≡ functions.old) }
{
    let Ok(tables) = MapTables::gather(alloc, maps) else {
        return Err(EbpfRelocationError::memory(alloc));
    };
    let rule = Rule::Maps(MapRule {
        symbols,
        tables: &tables,
        text_sections,
    });
    relocate(alloc, &rule, relocations, functions)
}
