//! Reads `.BTF.ext`.

ghost use Rattle.std.specs.Prelude.{◌≡◌, length, IfOk, Ok, false};
ghost use Rattle.ebpf_base.specs.Faults.{Gives};
ghost use Rattle.ebpf_btf_ext.specs.ExtReading.{ExtInfo, read_ext, func_sections, line_sections, core_relo_sections, SpellsExt};
ghost use Rattle.ebpf_btf_ext.specs.ExtFormat.{func_part, line_part, record_size};
ghost use Rattle.ebpf_btf.specs.Memory.{is_btf_memory};

use crate::ext_infos::{FuncInfo, LineInfo};
use crate::ext_part::{
    read_func_sections, read_header_length, read_line_sections, read_part, read_relocation_sections,
};
use crate::relocation::Relocation;
use ebpf_base::Items;
use ebpf_btf::{Btf, BtfError, Endianness};
use std::alloc::{AllocError, Global};
use std::marker::Model;

/// The offset in the header of `func_info_off` and `func_info_len`.
const FUNC_PART: usize = 8;

/// The offset in the header of `line_info_off` and `line_info_len`.
const LINE_PART: usize = 16;

/// The offset in the header of `core_relo_off` and `core_relo_len`.
const RELOCATION_PART: usize = 24;

/// The func info and line info of `.BTF.ext`, and its CO-RE relocations.
///
/// Contracts see a record: two finite maps by section name, a list of relocations, and two sizes.
#[derive(Debug, Drop)]
pub struct BtfExt {
    /// Func info by section name.
    pub func_info: FuncInfo,
    /// Line info by section name.
    pub line_info: LineInfo,
    pub(crate) relocations: Items<(u32, Items<Relocation>)>,
    pub(crate) func_info_rec_size: u32,
    pub(crate) line_info_rec_size: u32,
}

impl Model for BtfExt {
    ghost use Rattle.ebpf_btf_ext.specs.ExtReading.{ExtInfo};
    ghost use Rattle.std.specs.Coded.{codes};
    ghost use Rattle.std.specs.FinMap as map;
    ghost use Rattle.ebpf_base.specs.Maps.{coded_text, text_cmp};
    ghost use Rattle.ebpf_btf_ext.specs.contracts.ext_infos.FuncSecInfo as funcs;
    ghost use Rattle.ebpf_btf_ext.specs.contracts.ext_infos.LineSecInfo as lines;

    ghost Value = { ExtInfo };

    ghost coded = { Prim.hlevel (
      codes,
      map.code {R = text_cmp} coded_text funcs.the_row.coded,
      map.code
          {R = text_cmp} coded_text lines.the_row.coded,
    ) };

    ghost view = { λ x. record {
      func_info = x.func_info;
      line_info = x.line_info;
      relocations = x.relocations;
      func_record_size = x.func_info_rec_size;
      line_record_size = x.line_info_rec_size;
    } };
}

/// Reads the three parts.
#[tactic(auto, unfolding(crate::specs::ExtReading::read_ext, crate::specs::ExtReading::func_sections, crate::specs::ExtReading::line_sections, crate::specs::ExtReading::core_relo_sections))]
fn read_parts(
    alloc: Global,
    type_matches: bool,
    endianness: Endianness,
    data: &[u8],
    btf: &Btf,
) -> Result<BtfExt, BtfError>
    ensures { Gives is_btf_memory result
        (read_ext type_matches endianness «data».now btf.now.strings) }
{
    let header = read_header_length(endianness, data)?;
    let func_part = read_part(endianness, data, header, FUNC_PART)?;
    let funcs = read_func_sections(alloc, endianness, data, btf, func_part)?;
    let line_part = read_part(endianness, data, header, LINE_PART)?;
    let lines = read_line_sections(alloc, endianness, data, btf, line_part)?;
    let core_relo_part = read_part(endianness, data, header, RELOCATION_PART)?;
    let relocations = read_relocation_sections(
        alloc,
        type_matches,
        endianness,
        data,
        core_relo_part,
    )?;
    Ok(BtfExt {
        func_info: funcs,
        line_info: lines,
        relocations,
        func_info_rec_size: func_part.record_size,
        line_info_rec_size: line_part.record_size,
    })
}

impl BtfExt {
    /// Reads the three parts of `.BTF.ext`: func info, line info and CO-RE relocations.
    ///
    /// A part has the size of its entries and then sections, each with the offset of its name, the number of its entries
    /// and the entries. An entry may be longer than the fields that are read. Numbers are read in the given byte order,
    /// except for CO-RE relocations, which are little-endian in each file. Section names are in the strings of `btf`; the
    /// last of several sections with one name counts.
    ///
    /// # Errors
    ///
    /// The parts are checked in this order, and each part section by section. The first fault is the error:
    ///
    /// - `InvalidHeader`: the bytes are fewer than 24 or than the header length, the magic is not 0xeb9f, or the header
    ///   length is below 24.
    /// - `InvalidInfo`: a part has 1 to 3 bytes or runs past the end of the bytes; a section runs past the end of its part;
    ///   or the entries of a section with entries are shorter than 8 bytes (func info) or 16 bytes (line info,
    ///   relocations).
    /// - `InvalidStringOffset`: the name of a section of func info or line info cannot be read.
    /// - `InvalidRelocationKind`: the kind of a relocation is past 11.
    /// - `OutOfMemory`: out of memory.
    #[tactic(auto, using(crate::proofs::ExtSections::ext_found, crate::proofs::ExtSections::ext_only))]
    pub fn parse(
        alloc: Global,
        data: &[u8],
        endianness: Endianness,
        btf: &Btf,
    ) -> Result<BtfExt, BtfError>
        ensures exact { Gives is_btf_memory result
            (read_ext false endianness «data».now btf.now.strings) }
        ensures found { IfOk result (λ ext.
            SpellsExt false endianness «data».now btf.now.strings ext) }
        ensures only { (ext : ExtInfo)
            → SpellsExt false endianness «data».now btf.now.strings ext
            → Gives is_btf_memory result (Ok ext) }
    {
        read_parts(alloc, false, endianness, data, btf)
    }

    /// Reads the three parts of `.BTF.ext` as `parse` does. With `type_matches` relocations of kind 12 (type matches) are
    /// read as well.
    ///
    /// # Errors
    ///
    /// Those of `parse`, in the same order, except:
    ///
    /// - `InvalidRelocationKind`: the kind of a relocation is past 11, or past 12 with `type_matches`.
    #[tactic(auto, using(crate::proofs::ExtSections::ext_found, crate::proofs::ExtSections::ext_only))]
    pub fn parse_as(
        alloc: Global,
        data: &[u8],
        endianness: Endianness,
        btf: &Btf,
        type_matches: bool,
    ) -> Result<BtfExt, BtfError>
        ensures exact { Gives is_btf_memory result
            (read_ext type_matches endianness «data».now btf.now.strings) }
        ensures found { IfOk result (λ ext.
            SpellsExt type_matches endianness «data».now btf.now.strings ext) }
        ensures only { (ext : ExtInfo)
            → SpellsExt type_matches endianness «data».now btf.now.strings ext
            → Gives is_btf_memory result (Ok ext) }
    {
        read_parts(alloc, type_matches, endianness, data, btf)
    }

    /// Returns the CO-RE relocations by section, in order: for each section the offset of its name in the strings, and the
    /// list of its relocations.
    pub fn relocations(&self) -> &[(u32, Items<Relocation>)]
        ensures { result.now ≡ self.now.relocations }
    {
        self.relocations.as_slice()
    }

    /// Returns the size of a func info entry in bytes; 0 where the part is empty.
    pub fn func_info_rec_size(&self) -> u32
        ensures { result ≡ self.now.func_record_size }
    {
        self.func_info_rec_size
    }

    /// Returns the size of a line info entry in bytes; 0 where the part is empty.
    pub fn line_info_rec_size(&self) -> u32
        ensures { result ≡ self.now.line_record_size }
    {
        self.line_info_rec_size
    }
}

/// Returns a copy of the relocations of all sections.
#[tactic(auto, using(ebpf_btf::proofs::Copies::same_list))]
fn copy_relocations(
    sections: &Items<(u32, Items<Relocation>)>,
) -> Result<Items<(u32, Items<Relocation>)>, AllocError>
    ensures { IfOk result (λ copy. copy ≡ sections.now) }
{
    sections.clone()
}

impl Clone for BtfExt {
    ghost is_clone = { λ old copy. copy ≡ old };

    fn clone(&self) -> Result<BtfExt, AllocError> {
        Ok(BtfExt {
            func_info: self.func_info.clone()?,
            line_info: self.line_info.clone()?,
            relocations: copy_relocations(&self.relocations)?,
            func_info_rec_size: self.func_info_rec_size,
            line_info_rec_size: self.line_info_rec_size,
        })
    }
}
