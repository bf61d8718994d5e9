//! Laws of the tables of each file.

ghost use Rattle.std.specs.Ordering.{nat_cmp};
ghost use Rattle.ebpf_base.specs.Maps.{LaterStands, text_cmp, key_cmp};
ghost use Rattle.ebpf_elf.specs.declared.relocation.ElfRelocation.{ElfRelocation};
ghost use Rattle.ebpf_elf.specs.declared.section.SectionIndex.{SectionIndex};
ghost use Rattle.ebpf_model.specs.declared.symbol.ExternDesc.{ExternDesc};
ghost use Rattle.ebpf_model.specs.declared.function.Function.{Function};
ghost use Rattle.ebpf_model.specs.declared.function.Program.{Program};
ghost use Rattle.ebpf_model.specs.declared.symbol.Symbol.{Symbol};
ghost use Rattle.ebpf_parts.specs.declared.maps.either.Map.{Map};
ghost use Rattle.ebpf_parsing.specs.Laws.{LenientRefusesNoName, ModesAgree, StrictKindsAreNamed, StrictTakesBothOrders, StrictTakesEachMachine, FunctionsAtTheirKeys, SymbolsAtTheirIndices, RelocationsAtTheirOffsets, TablesOfCode, RelocationsNameSymbols, ProgramsHaveFunctions, MapsHaveTheirSymbols, OtherMapsAreOfData, ExternsAreUnresolved, AtEachAddress, InOrder, SectionsTile, FunctionsTile};

/// Each table of an object has the last of the entries with one key.
pub fn later_entries_stand()
    ensures programs { LaterStands text_cmp Program }
    ensures functions { LaterStands key_cmp Function }
    ensures maps { LaterStands text_cmp Map }
    ensures externs { LaterStands text_cmp ExternDesc }
    ensures symbols { LaterStands nat_cmp Symbol }
    ensures relocations { LaterStands nat_cmp ElfRelocation }
    ensures section_infos { LaterStands text_cmp SectionIndex }
{}

/// The functions of a Text section in order of their offset, concatenated, are the slots of the section's data.
pub fn functions_tile()
    ensures { FunctionsTile }
{}

/// In the table of functions of an object a Text section's index and an address have the function that begins there.
/// The table's functions of the section in order of their offset are those that its symbols give; concatenated they are the
/// slots of the section's data, wherever its addresses lie.
pub fn sections_tile()
    ensures at_each_address { AtEachAddress }
    ensures in_order { InOrder }
    ensures tiled { SectionsTile }
{}

/// The function with the key of a section and an address is of this section, and at this address.
pub fn functions_stand_at_their_keys()
    ensures { FunctionsAtTheirKeys }
{}

/// The symbol at an index is the one with this index in the file's symbol table, and has a name.
pub fn symbols_stand_at_their_indices()
    ensures { SymbolsAtTheirIndices }
{}

/// The relocation at an offset of a section has this offset. No table of a section is empty.
pub fn relocations_stand_at_their_offsets()
    ensures { RelocationsAtTheirOffsets }
{}

/// Only a section whose kind is Text or Program has a table of relocations: those of the section.
pub fn relocation_tables_are_of_code()
    ensures { TablesOfCode }
{}

/// No relocation of a file without a fault has the symbol index 0.
pub fn relocations_name_symbols()
    ensures { RelocationsNameSymbols }
{}

/// The key of each program is that of a function.
pub fn programs_have_functions()
    ensures { ProgramsHaveFunctions }
{}

/// The symbol of a map, where it has one, is in the table of symbols, has the map's name and is in the map's section.
/// A map without a symbol is that of a data section, by the section's name.
pub fn maps_have_their_symbols()
    ensures symbols { MapsHaveTheirSymbols }
    ensures others { OtherMapsAreOfData }
{}

/// No extern has an id or an address of the kernel, or is resolved.
pub fn externs_are_unresolved()
    ensures { ExternsAreUnresolved }
{}

/// A little-endian file for eBPF, or for no machine, that `Object::parse` takes has the same license, maps and programs in
/// lenient parsing, and no fault there.
pub fn modes_agree()
    ensures { ModesAgree }
{}

/// Lenient parsing refuses no file because a section's name says no program type. A name that is no UTF-8, or that
/// passes its string table, is refused in both modes.
pub fn lenient_refuses_no_name()
    ensures { LenientRefusesNoName }
{}

/// Strict parsing gives no program the kind `Other`, and refuses no file for the order of its code or for its machine.
pub fn strict_gives_nothing_lenient()
    ensures kinds { StrictKindsAreNamed }
    ensures orders { StrictTakesBothOrders }
    ensures machines { StrictTakesEachMachine }
{}
