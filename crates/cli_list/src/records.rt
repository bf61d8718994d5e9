//! The CO-RE relocations of an object, counted.

ghost use Rattle.std.specs.Prelude.{◌≡◌, ◌-◌, ◌^◌, ℕ, IfOk, OnOk, count_by, length, min, if◌then◌else◌};
ghost use Rattle.std.specs.BTreeMap.{get};
ghost use Rattle.std.specs.Ordering.{eq_by_cmp};
ghost use Rattle.cli_list.specs.PrivateContracts.{CountsMore, IsGroupOf, with_more};
ghost use Rattle.cli_list.specs.RecordCounts.{AreCounts, asks, counted, group_cmp, record_total, section_records};
ghost use Rattle.cli_list.specs.declared.records.RecordGroup.{RecordGroup};

use cli_common::kinds::Kind;
use cli_common::labels::add_type_label;
use ebpf_base::Items;
use ebpf_btf::Btf;
use ebpf_btf_ext::Relocation;
use ebpf_object::Object;
use std::alloc::{AllocError, Global};
use std::collections::BTreeMap;

/// What relocations ask of types of the object.
#[derive(PartialEq, Eq, PartialOrd, Ord, Drop)]
pub struct RecordGroup {
    /// The kind and the name of the types.
    pub name: String,
    /// The question.
    pub kind: Kind,
}

/// The number of relocations of each group.
pub type RecordCounts = BTreeMap<RecordGroup, usize>;

/// Returns the group of a relocation.
fn group_of(alloc: Global, types: &Btf, relocation: &Relocation) -> Result<RecordGroup, AllocError>
    ensures { IfOk result (IsGroupOf types.now relocation.now) }
{
    let mut name = String::new(alloc);
    add_type_label(&mut name, types, relocation.type_id)?;
    let kind = Kind::of(relocation.kind);
    Ok(RecordGroup { name, kind })
}

/// Counts a relocation of a group.
fn count_group(counts: &mut RecordCounts, group: RecordGroup) -> Result<(), AllocError>
    ensures { OnOk result
        ((asked : RecordGroup)
        → get group_cmp counts.new asked
        ≡ with_more (get group_cmp counts.old asked)
        (if eq_by_cmp group_cmp group asked then 1 else 0)) }
{
    let before = counts.get(&group).copied().unwrap_or(0);
    counts.insert(group, before.saturating_add(1))?;
    Ok(())
}

/// Counts a relocation.
fn count_record(
    alloc: Global,
    counts: &mut RecordCounts,
    types: &Btf,
    relocation: &Relocation,
) -> Result<(), AllocError>
    ensures { OnOk result
        ((asked : RecordGroup)
        → get group_cmp counts.new asked
        ≡ with_more (get group_cmp counts.old asked)
        (if asks types.now asked relocation.now then 1 else 0)) }
{
    let group = group_of(alloc, types, relocation)?;
    count_group(counts, group)?;
    Ok(())
}

/// Counts the relocations of a section.
fn count_section(
    alloc: Global,
    counts: &mut RecordCounts,
    types: &Btf,
    records: &[Relocation],
) -> Result<(), AllocError>
    ensures { OnOk result (CountsMore types.now counts.old records.now counts.new) }
{
    for record in records {
        count_record(alloc, counts, types, record)?;
    }
    Ok(())
}

/// Counts the relocations of some sections.
fn count_sections(
    alloc: Global,
    types: &Btf,
    sections: &[(u32, Items<Relocation>)],
) -> Result<RecordCounts, AllocError>
    ensures { IfOk result (λ counts.
        (asked : RecordGroup)
        → get group_cmp counts asked
        ≡ counted (count_by (asks types.now asked) (section_records sections.now))) }
{
    let mut counts = BTreeMap::new(alloc);
    for section in sections {
        count_section(alloc, &mut counts, types, section.1.as_slice())?;
    }
    Ok(counts)
}

/// Returns the number of CO-RE relocations of each group, in byte order of the groups' names; none for an object without
/// types.
pub fn counted_records(alloc: Global, object: &Object) -> Result<RecordCounts, AllocError>
    ensures { IfOk result (AreCounts object.now) }
{
    let Some(types) = &object.btf else {
        return Ok(BTreeMap::new(alloc));
    };
    match &object.btf_ext {
        Some(ext) => count_sections(alloc, types, ext.relocations()),
        None => Ok(BTreeMap::new(alloc)),
    }
}

/// Returns the number of relocations of some sections.
fn section_total(sections: &[(u32, Items<Relocation>)]) -> usize
    ensures { result ≡ min (length (section_records sections.now)) (2 ^ 64 - 1) }
{
    let mut total: usize = 0;
    for section in sections {
        total = total.saturating_add(section.1.len());
    }
    total
}

/// Returns the number of CO-RE relocations of an object; 0 for an object without types.
pub fn record_total(object: &Object) -> usize
    ensures { result ≡ record_total object.now }
{
    if object.btf.is_none() {
        return 0;
    }
    match &object.btf_ext {
        Some(ext) => section_total(ext.relocations()),
        None => 0,
    }
}
