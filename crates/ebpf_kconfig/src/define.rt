//! The list of an object's kconfig externs, and their definition.

ghost use Rattle.std.specs.Prelude.{◌≡◌, IfOk, OnOk, OnErr, if◌then◌else◌};
ghost use Rattle.ebpf_base.specs.Faults.{Refuses};
ghost use Rattle.ebpf_base.specs.Maps.{put_all};
ghost use Rattle.ebpf_kconfig.specs.KconfigMaps.{bytes_from, extern_offsets, kconfig_offsets, laid_out, layout_end, size_fault_from, values_fault, externs_map, kconfig_map, lent_externs, kconfig_fault, symbols_defined, with_kconfig_map};
ghost use Rattle.ebpf_kconfig.specs.KconfigExterns.{is_kconfig_memory, kconfig_externs, kconfig_externs_fault, kconfig_section};
ghost use Rattle.std.specs.FinMap as finite;

use crate::error::KconfigError;
use crate::externs::{KCONFIG, KconfigExtern, define_symbols, kconfig_externs};
use crate::layout::{bytes_of, check_values, extern_groups, extern_offsets, in_order, layout_end};
use ebpf_base::{ByName, Items};
use ebpf_object::Object;
use ebpf_parts::EbpfSectionKind;
use ebpf_parts::maps::{LegacyMap, Map, PinningType, bpf_map_def};
use std::alloc::{AllocError, Global};

/// The type of an array map (`BPF_MAP_TYPE_ARRAY`).
const ARRAY: u32 = 2;

/// The flag of a map that programs only read (`BPF_F_RDONLY_PROG`).
const READ_ONLY: u32 = 128;

/// The offsets of externs by name, and the map that has their values.
#[derive(Drop)]
pub struct Plan {
    pub offsets: ByName<u64>,
    pub map: Map,
}

/// The map of values: an array of one value, in no section.
#[tactic(auto, unfolding(crate::specs::KconfigMaps::kconfig_map))]
fn kconfig_map(value_size: u32, bytes: Items<u8>) -> Map
    ensures { result ≡ kconfig_map value_size bytes }
{
    Map::Legacy(LegacyMap {
        def: bpf_map_def {
            map_type: ARRAY,
            key_size: 4,
            value_size,
            max_entries: 1,
            map_flags: READ_ONLY,
            id: 0,
            pinning: PinningType::None,
        },
        inner_def: None,
        section_index: 0,
        section_kind: EbpfSectionKind::Rodata,
        symbol_index: None,
        bytes,
    })
}

/// The plan of sorted externs.
fn plan_in_order(
    alloc: Global,
    values: &ByName<Items<u8>>,
    externs: &[&KconfigExtern],
) -> Result<Plan, KconfigError>
    ensures offsets { IfOk result (λ plan.
        plan.offsets ≡ put_all finite.empty (extern_offsets 0 (lent_externs externs.now))) }
    ensures map { IfOk result (λ plan.
        plan.map
        ≡ kconfig_map (layout_end 0 (lent_externs externs.now))
        (bytes_from values.now 0 (lent_externs externs.now))) }
    ensures fault { Refuses is_kconfig_memory result
        (size_fault_from 0 (lent_externs externs.now)) }
{
    let value_size = layout_end(externs)?;
    let offsets = extern_offsets(alloc, externs)?;
    let bytes = bytes_of(alloc, values, externs)?;
    let map = kconfig_map(value_size, bytes);
    Ok(Plan { offsets, map })
}

/// The plan of some externs.
fn plan_of(
    alloc: Global,
    values: &ByName<Items<u8>>,
    externs: Vec<KconfigExtern>,
) -> Result<Plan, KconfigError>
    ensures offsets { IfOk result (λ plan. plan.offsets ≡ kconfig_offsets externs.items) }
    ensures map { IfOk result (λ plan. plan.map ≡ externs_map values.now externs.items) }
    ensures fault { Refuses is_kconfig_memory result (size_fault_from 0 (laid_out externs.items)) }
{
    let groups = extern_groups(alloc, externs)?;
    let order = in_order(alloc, &groups)?;
    plan_in_order(alloc, values, order.as_slice())
}

/// The plan of externs with their values.
///
/// # Errors
///
/// - `NoValue`: an extern that is not weak has no value.
/// - `WrongSize`: a value has another size than its extern.
/// - `TooLarge`: the data end past 32 bits.
/// - `OutOfMemory`: an allocation failed.
#[tactic(auto, unfolding(crate::specs::KconfigMaps::values_fault))]
pub fn plan_with(
    alloc: Global,
    values: &ByName<Items<u8>>,
    externs: Items<KconfigExtern>,
) -> Result<Plan, KconfigError>
    ensures offsets { IfOk result (λ plan. plan.offsets ≡ kconfig_offsets externs) }
    ensures map { IfOk result (λ plan. plan.map ≡ externs_map values.now externs) }
    ensures fault { Refuses is_kconfig_memory result (values_fault values.now externs) }
{
    match check_values(values, externs.as_slice()) {
        Ok(()) => plan_of(alloc, values, externs.into_vec()),
        Err(error) => Err(error),
    }
}

/// Returns the kconfig externs of an object: the variables of the first DATASEC `.kconfig`, in the order of its
/// entries.
///
/// The list is empty where the object has no type information or no such DATASEC. An extern is weak where its symbol is
/// weak. Of symbols of one name the one with the greatest index counts. An extern without a symbol is not weak.
///
/// libbpf 1.5 does the same (`bpf_object__collect_externs`), with two exceptions. It goes by the symbols, and this
/// function by the entries of the DATASEC, whose order it keeps. This function refuses an ENUM64 of another size than
/// 1, 2, 4 or 8 bytes.
///
/// # Errors
///
/// The first fault of the first entry that has one, also where the extern is weak:
///
/// - `NotAVariable`: the entry's type is no VAR.
/// - `UnreadableName`: the variable's name can't be read.
/// - `UnknownName`: the name begins neither with `CONFIG_` nor with `LINUX_`.
/// - `UnsupportedType`: the variable's type is none of those below. TYPEDEFs, CONST, VOLATILE, RESTRICT and TYPE_TAGs
///   are skipped.
///   - An INT that is a bool, of 1 byte.
///   - Another INT of 1, 2, 4 or 8 bytes.
///   - `enum libbpf_tristate`: an ENUM of 4 bytes, or an ENUM64.
///   - An ARRAY with at least one element, of INTs of 1 byte that are no bools.
///
/// `OutOfMemory`: an allocation failed.
pub fn kconfig(object: &Object) -> Result<Items<KconfigExtern>, KconfigError>
    ensures externs { IfOk result (λ externs.
        externs ≡ kconfig_externs object.now.btf object.now.symbol_table) }
    ensures fault { Refuses is_kconfig_memory result
        (kconfig_externs_fault object.now.btf object.now.symbol_table) }
{
    let alloc = object.allocator();
    kconfig_externs(alloc, &object.btf, &object.symbol_table)
}

/// Puts the map of some externs into an object, where there are any.
fn put_map(
    alloc: Global,
    maps: &mut ByName<Map>,
    has_externs: bool,
    map: Map,
) -> Result<(), AllocError>
    ensures put { OnOk result
        (maps.new
        ≡ (if has_externs then finite.insert maps.old kconfig_section map else maps.old)) }
    ensures unchanged { OnErr result (maps.new ≡ maps.old) }
{
    if !has_externs {
        return Ok(());
    }
    maps.insert(String::from_str(alloc, KCONFIG)?, map)?;
    Ok(())
}

/// Defines the kconfig externs of an object.
///
/// `values` holds the values of externs by name. Each is as many bytes as the extern's size, in the form that they have
/// in memory; `kconfig_value` reads them from a kernel's configuration. A weak extern without a value is zeros. A value
/// of another name is ignored.
///
/// Where the object has such externs:
///
/// - The map `.kconfig` is put into its maps: an array of one entry that programs only read (flags 128). Its data are
///   the values, sorted by descending alignment, then ascending size, then name. Each begins at the next offset that
///   its alignment divides, with zeros in between. The map is in section 0, which is no section's index, and has no
///   symbol. The type of its value is the DATASEC (`ebpf_load_info::map_types`, where the DATASEC states this size or
///   0).
/// - Each extern symbol with the name of such an extern becomes a definition in section 0 at the extern's offset. So
///   `Object::relocate_maps`, with the map among those that it is given, writes the slots that refer to it.
///
/// Everything else stays, the types too. libbpf 1.5 (`bpf_object__collect_externs`) also writes the offsets and the
/// size into the DATASEC, and makes its variables global. A second call puts the map with new values.
///
/// # Errors
///
/// In this order:
///
/// - The errors of `kconfig`.
/// - `NoValue`, `WrongSize`: in the order of the externs, one that is not weak has no value, or a value has another
///   size than its extern.
/// - `TooLarge`: the data end past 32 bits.
///
/// `OutOfMemory`: an allocation failed. On error the object is unchanged.
#[tactic(auto, unfolding(crate::specs::KconfigMaps::kconfig_fault, crate::specs::KconfigMaps::symbols_defined))]
pub fn define_kconfig(object: &mut Object, values: &ByName<Items<u8>>) -> Result<(), KconfigError>
    ensures maps { OnOk result
        (object.new.maps
        ≡ with_kconfig_map values.now (kconfig_externs object.old.btf object.old.symbol_table)
        object.old.maps) }
    ensures symbols { OnOk result
        (object.new.symbol_table
        ≡ symbols_defined (kconfig_externs object.old.btf object.old.symbol_table)
        object.old.symbol_table) }
    ensures fault { Refuses is_kconfig_memory result
        (kconfig_fault object.old.btf object.old.symbol_table values.now) }
    ensures others_stay { object.new
        ≡ record object.old { maps = object.new.maps; symbol_table = object.new.symbol_table } }
    ensures unchanged { OnErr result (object.new ≡ object.old) }
{
    let alloc = object.allocator();
    let externs = kconfig(object)?;
    let has_externs = !externs.is_empty();
    let plan = plan_with(alloc, values, externs)?;
    let indices = object.symbol_table.indices(alloc)?;
    put_map(alloc, &mut object.maps, has_externs, plan.map)?;
    define_symbols(&plan.offsets, &mut object.symbol_table, indices.as_slice());
    Ok(())
}
