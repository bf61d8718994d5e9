//! The DATASECs of a name, and those of some names, found in one pass over the types.

ghost use Rattle.std.specs.Prelude.{◌≡◌, IfOk, IfErr, Some, option_map, is_some, OnOk, true};
ghost use Rattle.std.specs.FinMap.{get};
ghost use Rattle.ebpf_base.specs.Faults.{first_some};
ghost use Rattle.ebpf_btf_decls.specs.DataSections.{Named, UnreadableName, datasec_entries, datasec_match};
ghost use Rattle.ebpf_btf.specs.Memory.{is_btf_memory};
ghost use Rattle.ebpf_btf_decls.specs.SectionMaps.{with_entries, AreWithoutEntries, NamesAreWithin, Stay, IsScanned, AreFound};

use ebpf_base::{ByName, Items};
use ebpf_btf::strings::{first_zero, near_bytes};
use ebpf_btf::{Btf, BtfError, BtfType, DataSecEntry, Rows};
use std::alloc::Global;

/// The entries of a DATASEC.
#[tactic(auto, unfolding(crate::specs::DataSections::datasec_entries))]
pub fn datasec_entries<'a>(ty: &BtfType<'a>) -> Option<Rows<'a, DataSecEntry>>
    ensures { result ≡ datasec_entries ty.now }
{
    match ty {
        BtfType::DataSec { entries, .. } => Some(entries.copy()),
        _ => None,
    }
}

/// The entries of a type that is a DATASEC with this name.
#[tactic(auto, unfolding(crate::specs::DataSections::datasec_match))]
pub fn section_entries<'a>(
    btf: &Btf,
    wanted: &str,
    ty: &BtfType<'a>,
) -> Result<Option<Rows<'a, DataSecEntry>>, BtfError>
    ensures found { IfOk result (λ found.
        datasec_match btf.now wanted.now ty.now ≡ option_map Named found) }
    ensures fault { IfErr result (λ e.
        datasec_match btf.now wanted.now ty.now ≡ Some (UnreadableName e)) }
{
    let Some(entries) = datasec_entries(ty) else {
        return Ok(None);
    };
    if btf.is_name_at(ty.name_offset(), wanted)? {
        return Ok(Some(entries));
    }
    Ok(None)
}

/// The entries of the first DATASEC with this name.
#[tactic(auto, using(ebpf_base::proofs::Lists::rest_more, ebpf_base::proofs::Lists::rest_none))]
pub fn first_entries<'a>(
    btf: &'a Btf,
    wanted: &str,
) -> Result<Option<Rows<'a, DataSecEntry>>, BtfError>
    ensures found { IfOk result (λ found.
        first_some (datasec_match btf.now wanted.now) btf.now.types ≡ option_map Named found) }
    ensures fault { IfErr result (λ e.
        first_some (datasec_match btf.now wanted.now) btf.now.types ≡ Some (UnreadableName e)) }
{
    for id in 0..btf.len() {
        let ty = btf.at(id);
        if let Some(entries) = section_entries(btf, wanted, &ty)? {
            return Ok(Some(entries));
        }
    }
    Ok(None)
}

/// A copy of entries.
pub fn copy_entries(
    alloc: Global,
    entries: &Rows<'_, DataSecEntry>,
) -> Result<Vec<DataSecEntry>, BtfError>
    ensures copy { IfOk result (λ copy. copy.items ≡ entries.now) }
    ensures memory { IfErr result (λ e. is_btf_memory e ≡ true) }
{
    let copy = entries.iter().collect(alloc)?;
    Ok(copy)
}

/// The DATASECs of some names.
#[derive(Drop)]
pub struct NamedSections {
    /// Of each name the entries of its DATASECs in order, up to the first DATASEC whose name can't be read.
    pub by_name: ByName<Items<DataSecEntry>>,
    /// The offset of that DATASEC's name.
    pub unreadable: Option<usize>,
}

/// Adds entries to those of a name, where the name is looked for.
#[tactic(auto, unfolding(crate::specs::SectionMaps::with_entries))]
fn add_entries(
    alloc: Global,
    by_name: &mut ByName<Items<DataSecEntry>>,
    name: &str,
    entries: &Rows<'_, DataSecEntry>,
) -> Result<(), BtfError>
    ensures with_entries { OnOk result
        (by_name.new ≡ with_entries by_name.old name.now entries.now) }
    ensures memory { IfErr result (λ e. is_btf_memory e ≡ true) }
{
    let Some(kept) = by_name.get_mut(name) else {
        return Ok(());
    };
    kept.extend_from_slice(copy_entries(alloc, entries)?.as_slice())?;
    Ok(())
}

/// Adds the entries of a type to those of its name, where it is a DATASEC whose name is looked for. Whether its name can be
/// read; of one that no text is looked for for no more is looked at than the longest of these has.
fn scan_type(
    alloc: Global,
    by_name: &mut ByName<Items<DataSecEntry>>,
    btf: &Btf,
    longest: usize,
    ty: &BtfType<'_>,
) -> Result<bool, BtfError>
    requires { NamesAreWithin longest by_name.old }
    ensures looked { IfOk result (λ readable.
        IsScanned btf.now ty.now by_name.old by_name.new readable) }
    ensures memory { IfErr result (λ e. is_btf_memory e ≡ true) }
{
    let Some(entries) = datasec_entries(ty) else {
        return Ok(true);
    };
    let name = ty.name_offset();
    if btf.is_name_at(name, "").is_err() {
        return Ok(false);
    }
    if first_zero(near_bytes(btf.strings(), name, longest)).is_none() {
        return Ok(true);
    }
    let text = btf.string_at(name)?;
    add_entries(alloc, by_name, text.as_str(), &entries)?;
    Ok(true)
}

/// These names, each with no entries, and the length of the longest.
fn wanted_names(
    alloc: Global,
    names: &[&str],
) -> Result<(ByName<Items<DataSecEntry>>, usize), BtfError>
    ensures none { IfOk result (λ s. AreWithoutEntries s.1 s.0) }
    ensures memory { IfErr result (λ e. is_btf_memory e ≡ true) }
{
    let mut by_name = ByName::new(alloc);
    let mut longest = 0;
    for name in names {
        by_name.insert(String::from_str(alloc, *name)?, Items::new(alloc))?;
        longest = name.len().max(longest);
    }
    Ok((by_name, longest))
}

/// The DATASECs of names that have no entries yet, of which none is longer.
fn gather_into(
    alloc: Global,
    btf: &Btf,
    by_name: ByName<Items<DataSecEntry>>,
    longest: usize,
) -> Result<NamedSections, BtfError>
    requires { AreWithoutEntries longest by_name }
    ensures found { IfOk result (λ found. AreFound btf.now found) }
    ensures stay { IfOk result (λ found. Stay by_name found.by_name) }
    ensures memory { IfErr result (λ e. is_btf_memory e ≡ true) }
{
    let mut by_name = by_name;
    for id in 0..btf.len() {
        let ty = btf.at(id);
        if !scan_type(alloc, &mut by_name, btf, longest, &ty)? {
            return Ok(NamedSections {
                by_name,
                unreadable: Some(ty.name_offset() as usize),
            });
        }
    }
    Ok(NamedSections {
        by_name,
        unreadable: None,
    })
}

impl NamedSections {
    /// Finds the DATASECs of these names.
    ///
    /// # Errors
    ///
    /// - `OutOfMemory`: an allocation fails.
    pub fn gather(alloc: Global, btf: &Btf, names: &[&str]) -> Result<NamedSections, BtfError>
        ensures found { IfOk result (λ found. AreFound btf.now found) }
        ensures memory { IfErr result (λ e. is_btf_memory e ≡ true) }
    {
        let (by_name, longest) = wanted_names(alloc, names)?;
        gather_into(alloc, btf, by_name, longest)
    }

    /// Looks for the DATASECs of a name, if it was not looked for; those of other names are then forgotten.
    ///
    /// # Errors
    ///
    /// - `OutOfMemory`: an allocation fails.
    pub fn look_for(&mut self, alloc: Global, btf: &Btf, name: &str) -> Result<(), BtfError>
        requires { AreFound btf.now self.old }
        ensures found { AreFound btf.now self.new }
        ensures there { OnOk result (is_some (get self.new.by_name name.now) ≡ true) }
        ensures memory { IfErr result (λ e. is_btf_memory e ≡ true) }
    {
        if self.by_name.contains_key(name) {
            return Ok(());
        }
        let mut by_name = ByName::new(alloc);
        by_name.insert(String::from_str(alloc, name)?, Items::new(alloc))?;
        *self = gather_into(alloc, btf, by_name, name.len())?;
        Ok(())
    }
}
