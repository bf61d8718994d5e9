//! The externs that the kernel's configuration gives: the entries of the DATASEC, and the symbols of their names.

ghost use Rattle.std.specs.Prelude.{◌≡◌, IfOk, Ok, Err, unwrap_or, false, [], slice_get, IfErr, true, fold};
ghost use Rattle.std.specs.List.{starts_with, flat_map};
ghost use Rattle.std.specs.Option.{option_map_or, option_and_then};
ghost use Rattle.std.specs.Map.{keys_of};
ghost use Rattle.ebpf_base.specs.Faults.{Refuses, Gives};
ghost use Rattle.ebpf_kconfig.specs.KconfigExterns.{extern_at, extern_name, externs_fault_in, externs_in, is_kconfig_name, kconfig_externs, kconfig_externs_fault, kconfig_variable, name_or_fault, typed_or_fault, is_kconfig_memory, kconfig_entries, kconfig_section, section_rows, weak_entry_at, weak_symbols};
ghost use Rattle.ebpf_btf.specs.Strings.{id_of_name};
ghost use Rattle.ebpf_base.specs.Maps.{put_all, map_values};
ghost use Rattle.ebpf_kconfig.specs.KconfigMaps.{defined_symbol, with_defined};
ghost use Rattle.std.specs.FinMap as finite;
ghost use Rattle.ebpf_btf.specs.declared.kind.BtfKind.TheVariants as kinds;

use crate::error::KconfigError;
use crate::kconfig_type::{KconfigType, kconfig_type};
use ebpf_base::{ByIndex, ByName, Items, Text};
use ebpf_btf::{Btf, BtfError, BtfKind, BtfType, DataSecEntry, Rows};
use ebpf_model::Symbol;
use std::alloc::{AllocError, Global};

/// An extern that the kernel's configuration gives.
#[derive(Debug, Drop)]
pub struct KconfigExtern {
    /// The extern's name.
    pub name: Text,
    /// The extern's type.
    pub kind: KconfigType,
    /// Whether the extern may stay without a value. Its bytes are zeros then.
    pub is_weak: bool,
}

impl Clone for KconfigExtern {
    ghost is_clone = { λ old copy. copy ≡ old };

    fn clone(&self) -> Result<KconfigExtern, AllocError> {
        Ok(KconfigExtern {
            name: self.name.clone()?,
            kind: self.kind,
            is_weak: self.is_weak,
        })
    }
}

/// The offset of a variable's name, and the id of its type.
#[tactic(auto, unfolding(crate::specs::KconfigExterns::kconfig_variable))]
fn kconfig_variable(types: &Btf, type_id: u32) -> Result<(u32, u32), KconfigError>
    ensures { result ≡ kconfig_variable types.now type_id }
{
    match types.type_by_id(type_id) {
        Ok(
            BtfType::Var {
                name_offset,
                btf_type,
                ..
            },
        ) => Ok((name_offset, btf_type)),
        _ => Err(KconfigError::NotAVariable { type_id }),
    }
}

/// Whether a name is one of the configuration or of a loader.
fn is_kconfig_name(name: &str) -> bool
    ensures { result ≡ is_kconfig_name name.now }
{
    name.starts_with("CONFIG_") || name.starts_with("LINUX_")
}

/// The name, where it is such a one.
fn name_or_fault(name: Text) -> Result<Text, KconfigError>
    ensures { result ≡ name_or_fault name }
{
    if is_kconfig_name(name.as_str()) {
        return Ok(name);
    }
    Err(KconfigError::UnknownName { name })
}

/// The name at an offset of the strings.
fn extern_name(alloc: Global, types: &Btf, offset: u32) -> Result<Text, KconfigError>
    ensures { Gives is_kconfig_memory result (extern_name types.now offset) }
{
    match types.string_at(offset) {
        Ok(name) => name_or_fault(Text::from_str(alloc, name.as_str())?),
        Err(BtfError::OutOfMemory) => Err(KconfigError::OutOfMemory),
        Err(_) => Err(KconfigError::UnreadableName { offset }),
    }
}

/// The extern of a name, where it has a type.
fn typed_or_fault(
    name: Text,
    is_weak: bool,
    kind: Option<KconfigType>,
) -> Result<KconfigExtern, KconfigError>
    ensures { result ≡ typed_or_fault name is_weak kind }
{
    match kind {
        Some(kind) => Ok(KconfigExtern {
            name,
            kind,
            is_weak,
        }),
        None => Err(KconfigError::UnsupportedType { name }),
    }
}

/// Whether the symbol of a name is weak.
fn is_weak_name(weak: &ByName<bool>, name: &str) -> bool
    ensures { result ≡ unwrap_or (finite.get weak.now name.now) false }
{
    weak.get(name).copied().unwrap_or(false)
}

/// The extern of an entry whose type has an id.
#[tactic(auto, unfolding(crate::specs::KconfigExterns::extern_at))]
fn extern_at(
    alloc: Global,
    types: &Btf,
    weak: &ByName<bool>,
    type_id: u32,
) -> Result<KconfigExtern, KconfigError>
    ensures { Gives is_kconfig_memory result (extern_at types.now weak.now type_id) }
{
    let (name_offset, value_type) = kconfig_variable(types, type_id)?;
    let name = extern_name(alloc, types, name_offset)?;
    let is_weak = is_weak_name(weak, name.as_str());
    typed_or_fault(name, is_weak, kconfig_type(types, value_type))
}

/// The externs of some entries.
fn externs_in(
    alloc: Global,
    types: &Btf,
    weak: &ByName<bool>,
    rows: &Rows<'_, DataSecEntry>,
) -> Result<Items<KconfigExtern>, KconfigError>
    ensures externs { IfOk result (λ all. all ≡ externs_in types.now weak.now rows.now) }
    ensures fault { Refuses is_kconfig_memory result
        (externs_fault_in types.now weak.now rows.now) }
{
    let mut externs = Items::new(alloc);
    for row in rows.iter() {
        externs.push(extern_at(alloc, types, weak, row.btf_type)?)?;
    }
    Ok(externs)
}

/// The kconfig externs of an object with these types and symbols, in the order of the entries.
#[tactic(auto, unfolding(crate::specs::KconfigExterns::kconfig_externs, crate::specs::KconfigExterns::kconfig_externs_fault))]
pub fn kconfig_externs(
    alloc: Global,
    types: &Option<Btf>,
    symbols: &ByIndex<Symbol>,
) -> Result<Items<KconfigExtern>, KconfigError>
    ensures externs { IfOk result (λ all. all ≡ kconfig_externs types.now symbols.now) }
    ensures fault { Refuses is_kconfig_memory result (kconfig_externs_fault types.now symbols.now) }
{
    let Some(types) = types else {
        return Ok(Items::new(alloc));
    };
    let rows = kconfig_entries(types)?;
    let weak = weak_symbols(alloc, symbols)?;
    externs_in(alloc, types, &weak, &rows)
}

/// The name of the DATASEC and of the map: `.kconfig`.
pub const KCONFIG: &str = ".kconfig";

/// The entries of a DATASEC; other types have none.
#[tactic(auto, unfolding(crate::specs::KconfigExterns::section_rows))]
fn section_rows<'a>(ty: &BtfType<'a>) -> Rows<'a, DataSecEntry>
    ensures { result ≡ section_rows ty.now }
{
    match ty {
        BtfType::DataSec { entries, .. } => entries.copy(),
        _ => Rows::of(&[]),
    }
}

/// The entries of the type of an id.
fn rows_at(types: &Btf, type_id: u32) -> Rows<'_, DataSecEntry>
    ensures { result ≡ option_map_or section_rows (slice_get types.now.types type_id) [] }
{
    match types.get(type_id as usize) {
        Some(ty) => section_rows(&ty),
        None => Rows::of(&[]),
    }
}

/// The id of the first DATASEC of the externs.
fn kconfig_id(types: &Btf) -> Result<Option<u32>, KconfigError>
    ensures id { IfOk result (λ id. id ≡ id_of_name types.now kconfig_section kinds.DataSec) }
    ensures memory { IfErr result (λ e. is_kconfig_memory e ≡ true) }
{
    match types.id_by_type_name_kind(KCONFIG, BtfKind::DataSec) {
        Ok(id) => Ok(Some(id)),
        Err(BtfError::OutOfMemory) => Err(KconfigError::OutOfMemory),
        Err(_) => Ok(None),
    }
}

/// The entries of the first DATASEC `.kconfig`; empty without one.
pub fn kconfig_entries(types: &Btf) -> Result<Rows<'_, DataSecEntry>, KconfigError>
    ensures rows { IfOk result (λ rows. rows ≡ kconfig_entries types.now) }
    ensures memory { IfErr result (λ e. is_kconfig_memory e ≡ true) }
{
    match kconfig_id(types)? {
        Some(id) => Ok(rows_at(types, id)),
        None => Ok(Rows::of(&[])),
    }
}

/// Puts at the names of some symbols whether they are weak, later ones over earlier ones.
fn put_weak(
    alloc: Global,
    weak: ByName<bool>,
    symbols: &ByIndex<Symbol>,
    indices: &[usize],
) -> Result<ByName<bool>, AllocError>
    ensures { IfOk result (λ all.
        all
        ≡ put_all weak
        (flat_map (λ index. weak_entry_at (finite.get symbols.now index))
        indices.now)) }
{
    let mut weak = weak;
    for index in indices {
        let Some(symbol) = symbols.get(*index) else {
            continue;
        };
        let Some(name) = &symbol.name else {
            continue;
        };
        weak.insert(String::from_str(alloc, name.as_str())?, symbol.is_weak)?;
    }
    Ok(weak)
}

/// Whether symbols are weak, by name. Of symbols of one name the one with the greatest index counts.
///
/// # Errors
///
/// - `AllocError`: an allocation failed.
pub fn weak_symbols(alloc: Global, symbols: &ByIndex<Symbol>) -> Result<ByName<bool>, AllocError>
    ensures { IfOk result (λ weak. weak ≡ weak_symbols symbols.now) }
{
    let indices = symbols.indices(alloc)?;
    put_weak(alloc, ByName::new(alloc), symbols, indices.as_slice())
}

/// The offset of the extern that a symbol is.
fn offset_of(offsets: &ByName<u64>, symbol: &Symbol) -> Option<u64>
    ensures { result ≡ option_and_then (finite.get offsets.now) symbol.now.name }
{
    let name = symbol.name.as_ref()?;
    offsets.get(name.as_str()).copied()
}

/// Makes a symbol stand in the map, where it is one of its externs.
fn define_symbol(offsets: &ByName<u64>, symbol: &mut Symbol)
    ensures { symbol.new ≡ defined_symbol offsets.now symbol.old }
{
    if !symbol.is_extern() {
        return;
    }
    let Some(offset) = offset_of(offsets, symbol) else {
        return;
    };
    symbol.section_index = Some(0);
    symbol.address = offset;
    symbol.is_definition = true;
}

/// Makes the symbol of an index stand in the map, where it is one of its externs.
fn define_at(offsets: &ByName<u64>, symbols: &mut ByIndex<Symbol>, index: usize)
    ensures { symbols.new ≡ with_defined offsets.now symbols.old index }
{
    let Some(symbol) = symbols.get_mut(index) else {
        return;
    };
    define_symbol(offsets, symbol);
}

/// Makes the externs' symbols among some stand in the map.
fn define_all(offsets: &ByName<u64>, symbols: &mut ByIndex<Symbol>, indices: &[usize])
    ensures { symbols.new ≡ fold (with_defined offsets.now) symbols.old indices.now }
{
    for index in indices {
        define_at(offsets, symbols, *index);
    }
}

/// Makes the symbols of externs definitions in the map. `indices` holds the indices of all symbols.
#[tactic(auto, using(crate::proofs::DefinedSymbols::all_defined))]
pub fn define_symbols(offsets: &ByName<u64>, symbols: &mut ByIndex<Symbol>, indices: &[usize])
    requires { indices.now ≡ keys_of (finite.entries symbols.old) }
    ensures { symbols.new ≡ map_values (defined_symbol offsets.now) symbols.old }
{
    define_all(offsets, symbols, indices);
}
