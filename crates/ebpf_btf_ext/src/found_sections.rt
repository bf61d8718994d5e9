//! Sections by name: an index of some names, and copies of the section names.

ghost use Rattle.std.specs.Prelude.{◌≡◌, ◌++◌, length, false, IfOk, IfSome, OnOk, [], unwrap_or};
ghost use Rattle.std.specs.Option.{option_copied};
ghost use Rattle.std.specs.FinMap as map;
ghost use Rattle.ebpf_btf.specs.Memory.{is_btf_memory};
ghost use Rattle.ebpf_btf_ext.specs.PrivateContracts.{with_index, section_at, IsIndexSet, AreLastIndices, AreUnset, NoneLonger};
ghost use Rattle.ebpf_btf_ext.specs.SectionNames.{by_offsets, with_offsets, AreCopied, IsCopied};

use crate::ext_infos::SectionInfo;
use ebpf_base::{ByName, Items};
use ebpf_btf::BtfError;
use ebpf_btf::strings::{first_zero, is_text_at, near_bytes, read_text};
use std::alloc::{AllocError, Global};
use std::marker::Model;

/// Returns the names, each without an index, and the length of the longest name.
fn unset_indices(
    alloc: Global,
    names: &[&str],
) -> Result<(ByName<Option<usize>>, usize), AllocError>
    ensures { IfOk result (λ s. AreUnset s.1 s.0) }
{
    let mut indices = ByName::new(alloc);
    let mut longest = 0;
    for name in names {
        indices.insert(String::from_str(alloc, *name)?, None)?;
        longest = name.len().max(longest);
    }
    Ok((indices, longest))
}

/// Sets the index of a name, where the name is one of the map's.
#[tactic(auto, unfolding(crate::specs::PrivateContracts::with_index))]
fn set_index(indices: &mut ByName<Option<usize>>, name: &str, index: usize)
    ensures { indices.new ≡ with_index indices.old name.now index }
{
    let _ = indices.replace(name, Some(index));
}

/// Returns an error where memory is out, and ignores other errors.
fn unless_memory(error: BtfError) -> Result<(), AllocError>
    ensures { OnOk result (is_btf_memory error ≡ false) }
{
    match error {
        BtfError::OutOfMemory => Err(AllocError),
        _ => Ok(()),
    }
}

/// Sets the index of the section whose name is at an offset, where the name is one of the map's. It reads no more of
/// another name than the longest of these names has.
fn look_at(
    alloc: Global,
    indices: &mut ByName<Option<usize>>,
    longest: usize,
    strings: &[u8],
    offset: u32,
    index: usize,
) -> Result<(), AllocError>
    requires { NoneLonger longest indices.old }
    ensures { OnOk result (IsIndexSet strings.now offset index indices.old indices.new) }
{
    if first_zero(near_bytes(strings, offset, longest)).is_none() {
        return Ok(());
    }
    match read_text(alloc, strings, offset) {
        Ok(text) => set_index(indices, text.as_str(), index),
        Err(error) => return unless_memory(error),
    }
    Ok(())
}

/// Returns the index of the last section of each name.
fn find_indices<S>(
    alloc: Global,
    strings: &[u8],
    sections: &[(u32, S)],
    names: &[&str],
) -> Result<ByName<Option<usize>>, AllocError>
    ensures { IfOk result (λ indices. AreLastIndices strings.now sections.now indices) }
{
    let (mut indices, longest) = unset_indices(alloc, names)?;
    for (index, section) in sections.iter().enumerate() {
        look_at(alloc, &mut indices, longest, strings, section.0, index)?;
    }
    Ok(indices)
}

/// Returns the section at an index.
fn section_at<S>(sections: &[(u32, S)], index: Option<usize>) -> Option<&S>
    ensures { option_copied result ≡ section_at sections.now index }
{
    let index = index?;
    let (_, section) = sections.get(index)?;
    Some(section)
}

/// Sections by name, with an index of some names. Contracts see a finite map by section name.
#[derive(Drop)]
pub struct FoundSections<'e, S> {
    strings: &'e [u8],
    sections: &'e [(u32, S)],
    indices: ByName<Option<usize>>,
    ghost found: { AreLastIndices strings.now sections.now indices },
}

impl<'e, S> Model for FoundSections<'e, S> {
    ghost use Rattle.std.specs.FinMap as map;
    ghost use Rattle.ebpf_base.specs.Maps.{coded_text, text_cmp};
    ghost use Rattle.ebpf_btf_ext.specs.SectionNames.{by_offsets};

    ghost Value = { map.FinMap text_cmp S };

    ghost coded = { map.code {R = text_cmp} coded_text S.code };

    ghost view = { λ f. by_offsets f.strings.now f.sections.now };
}

impl<'e, S> FoundSections<'e, S> {
    /// Returns the sections whose names are at offsets of the strings; the last of several sections with one name counts.
    pub(crate) fn gather(
        alloc: Global,
        strings: &'e [u8],
        sections: &'e [(u32, S)],
        names: &[&str],
    ) -> Result<FoundSections<'e, S>, AllocError>
        ensures { IfOk result (λ f. f ≡ by_offsets strings.now sections.now) }
    {
        let indices = find_indices(alloc, strings, sections, names)?;
        Ok(FoundSections {
            strings,
            sections,
            indices,
        })
    }

    /// Returns the section with a name; none where no section has it. A name outside the index costs a search.
    pub fn get(&self, name: &str) -> Option<&'e S>
        ensures { option_copied result ≡ map.get self.now name.now }
    {
        match self.indices.get(name) {
            Some(index) => section_at(self.sections, *index),
            None => last_named(self.strings, self.sections, name),
        }
    }
}

/// Returns the last section with a name. It reads at most one byte more of each section's name than `name` has.
pub fn last_named<'s, S>(strings: &[u8], sections: &'s [(u32, S)], name: &str) -> Option<&'s S>
    ensures { option_copied result ≡ map.get (by_offsets strings.now sections.now) name.now }
{
    let mut last = None;
    for (offset, section) in sections {
        if !is_text_at(strings, *offset, name) {
            continue;
        }
        last = Some(section);
    }
    last
}

/// The number of bytes that are reserved for the name of a section.
const NAME: usize = 32;

/// The names of sections, each with a zero byte after it, and the offset of each.
#[derive(Drop)]
struct CopiedNames {
    names: Items<u8>,
    offsets: Vec<u32>,
}

/// Returns the new offset of the name at an offset of the strings, and its bytes with the zero byte; none where the name
/// cannot be read, or the names become longer than the strings. It reads no more of the name than fits.
#[tactic(auto, using(crate::proofs::SectionNames::one_copied))]
fn next_name<'s>(strings: &'s [u8], names: &[u8], offset: u32) -> Option<(u32, &'s [u8])>
    ensures { IfSome result (λ n. IsCopied strings.now (names.now ++ n.1.now) offset n.0) }
{
    let copied = u32::try_from(names.len()).ok()?;
    if names.len() >= strings.len() {
        return None;
    }
    let near = near_bytes(strings, offset, strings.len() - names.len() - 1);
    let end = first_zero(near)?;
    Some((copied, &near[..end + 1]))
}

/// Returns the names of the sections; none where a name cannot be read, or the names are longer than the strings.
fn copy_names<S>(
    alloc: Global,
    strings: &[u8],
    sections: &[(u32, S)],
) -> Result<Option<CopiedNames>, AllocError>
    ensures { IfOk result (λ found.
        IfSome found (λ c. AreCopied strings.now c.names sections.now c.offsets.items)) }
{
    let room = sections.len().saturating_mul(NAME).min(strings.len());
    let mut names = Items::from_vec(Vec::with_capacity(alloc, room)?);
    let mut offsets = Vec::with_capacity(alloc, sections.len())?;
    for (offset, _) in sections {
        let Some((copied, name)) = next_name(strings, names.as_slice(), *offset) else {
            return Ok(None);
        };
        names.extend_from_slice(name)?;
        offsets.push(copied)?;
    }
    Ok(Some(CopiedNames { names, offsets }))
}

/// Returns the sections with these name offsets.
fn with_offsets<S>(sections: Items<(u32, S)>, offsets: &[u32]) -> Items<(u32, S)>
    requires { length offsets.now ≡ length sections }
    ensures { result ≡ with_offsets offsets.now sections }
{
    let mut sections = sections.into_vec();
    for (index, offset) in offsets.iter().enumerate() {
        sections[index].0 = *offset;
    }
    Items::from_vec(sections)
}

/// Sections by name. Contracts see a finite map by section name.
#[derive(Debug, Drop)]
pub struct SectionsByName<S> {
    strings: Items<u8>,
    sections: Items<(u32, S)>,
    /// The allocator of empty lists.
    alloc: Global,
}

impl<S> Model for SectionsByName<S> {
    ghost use Rattle.std.specs.FinMap as map;
    ghost use Rattle.ebpf_base.specs.Maps.{coded_text, text_cmp};
    ghost use Rattle.ebpf_btf_ext.specs.SectionNames.{by_offsets};

    ghost Value = { map.FinMap text_cmp S };

    ghost coded = { map.code {R = text_cmp} coded_text S.code };

    ghost view = { λ s. by_offsets s.strings s.sections };
}

impl<S: Drop> SectionsByName<S> {
    /// Returns the sections whose names are at offsets of these strings. It copies the names alone, or all strings where the
    /// names together are longer or one cannot be read.
    #[tactic(auto, using(crate::proofs::SectionNames::same_sections))]
    pub(crate) fn new(
        alloc: Global,
        strings: &[u8],
        sections: Items<(u32, S)>,
    ) -> Result<SectionsByName<S>, AllocError>
        ensures { IfOk result (λ s. s ≡ by_offsets strings.now sections) }
    {
        let Some(copied) = copy_names(alloc, strings, sections.as_slice())? else {
            let strings = Items::from_vec(Vec::from_slice(alloc, strings)?);
            return Ok(SectionsByName {
                strings,
                sections,
                alloc,
            });
        };
        Ok(SectionsByName {
            strings: copied.names,
            sections: with_offsets(sections, copied.offsets.as_slice()),
            alloc,
        })
    }
}

impl<S: SectionInfo> SectionsByName<S> {
    /// Returns a copy of the info of a section; for a name without a section an empty list, with count 0 and offset 0.
    ///
    /// # Errors
    ///
    /// - `AllocError`: out of memory.
    pub fn get(&self, name: &str) -> Result<S, AllocError>
        ensures { IfOk result (λ info.
            info ≡ unwrap_or (map.get self.now name.now) (S.info_with 0 0 [])) }
    {
        match self.section(name) {
            Some(info) => info.clone(),
            None => Ok(S::with(0, 0, Items::new(self.alloc))),
        }
    }
}

impl<S> SectionsByName<S> {
    /// Returns the info of a section, borrowed; none where no section has the name.
    pub fn section(&self, name: &str) -> Option<&S>
        ensures { option_copied result ≡ map.get self.now name.now }
    {
        last_named(self.strings.as_slice(), self.sections.as_slice(), name)
    }

    /// Returns the sections with an index of these names, which one pass makes. The pass reads no more of each section's
    /// name than the longest of these names has.
    ///
    /// # Errors
    ///
    /// - `AllocError`: out of memory.
    pub fn with_found(
        &self,
        alloc: Global,
        names: &[&str],
    ) -> Result<FoundSections<'_, S>, AllocError>
        ensures { IfOk result (λ found. found ≡ self.now) }
    {
        FoundSections::gather(
            alloc,
            self.strings.as_slice(),
            self.sections.as_slice(),
            names,
        )
    }
}

/// Returns a copy of sections.
#[tactic(auto, using(ebpf_btf::proofs::Copies::same_list))]
fn copy_sections<S: SectionInfo>(sections: &Items<(u32, S)>) -> Result<Items<(u32, S)>, AllocError>
    ensures { IfOk result (λ copy. copy ≡ sections.now) }
{
    sections.clone()
}

impl<S: SectionInfo> Clone for SectionsByName<S> {
    ghost is_clone = { λ old copy. copy ≡ old };

    fn clone(&self) -> Result<SectionsByName<S>, AllocError> {
        Ok(SectionsByName {
            strings: self.strings.copied()?,
            sections: copy_sections(&self.sections)?,
            alloc: self.alloc,
        })
    }
}
