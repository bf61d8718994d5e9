//! The func info and line info of a section, and those of the sections of a file by their names.

ghost use Rattle.std.specs.Prelude.{◌≡◌, IfOk, IfErr, true, IfSome, []};
ghost use Rattle.ebpf_btf_ext.specs.ExtReading.{func_info_at, line_info_at};
ghost use Rattle.ebpf_parts.specs.Memory.{is_parse_memory};
ghost use Rattle.ebpf_sections.specs.Records.{FuncAndLineInfo, funcs_at, lines_in, found_funcs, found_lines, func_info_of, line_info_of, func_size_of, line_size_of, func_and_line_info_of, AreRecordsOf};

use crate::info_records::{InfoRecord, InfoRecords};
use ebpf_base::ByName;
use ebpf_btf_ext::{BtfExt, FoundSections, FuncSecInfo, LineSecInfo, bpf_func_info, bpf_line_info};
use ebpf_parts::ParseError;
use std::alloc::{AllocError, Global};
use std::marker::Model;

/// The func info or line info of a section, lent.
#[derive(Drop)]
pub struct LentInfo<'e, R> {
    pub name_offset: u32,
    pub count: u32,
    pub records: &'e [R],
}

impl<'e, R> LentInfo<'e, R> {
    /// The info of a section that has none.
    fn none() -> LentInfo<'e, R>
        ensures name { result.name_offset ≡ 0 }
        ensures count { result.count ≡ 0 }
        ensures records { result.records.now ≡ [] }
    {
        LentInfo {
            name_offset: 0,
            count: 0,
            records: &[],
        }
    }
}

/// The func info or line info of a section, lent, its records by the slots that they name.
#[derive(Drop)]
pub struct InfoBySlot<'e, R: InfoRecord> {
    name_offset: u32,
    count: u32,
    records: InfoRecords<'e, R>,
}

impl<'e, R: InfoRecord> InfoBySlot<'e, R> {
    /// The info of a section, its records gathered by their slots.
    fn gather(alloc: Global, info: LentInfo<'e, R>) -> Result<InfoBySlot<'e, R>, ParseError>
        ensures name { IfOk result (λ r. r.name_offset ≡ info.entry.name_offset) }
        ensures count { IfOk result (λ r. r.count ≡ info.entry.count) }
        ensures records { IfOk result (λ r. r.records ≡ info.entry.records.now) }
        ensures memory { IfErr result (λ e. is_parse_memory e ≡ true) }
    {
        Ok(InfoBySlot {
            name_offset: info.name_offset,
            count: info.count,
            records: InfoRecords::new(alloc, info.records)?,
        })
    }
}

/// The func info and line info of a section, lent.
#[derive(Drop)]
pub struct SectionRecords<'e> {
    funcs: InfoBySlot<'e, bpf_func_info>,
    lines: InfoBySlot<'e, bpf_line_info>,
    pub func_size: u32,
    pub line_size: u32,
}

impl<'e> Model for SectionRecords<'e> {
    ghost Value = { FuncAndLineInfo };

    ghost view = { λ r.
        record {
          funcs = record {
            sec_name_offset = r.funcs.name_offset;
            num_info = r.funcs.count;
            func_info = r.funcs.records;
          };
          lines = record {
            sec_name_offset = r.lines.name_offset;
            num_info = r.lines.count;
            line_info = r.lines.records;
          };
          func_size = r.func_size;
          line_size = r.line_size;
        } };
}

impl<'e> SectionRecords<'e> {
    /// Returns the func info of the function that begins at a slot, the slots counted from `base`, with the section's
    /// counts.
    ///
    /// # Errors
    ///
    /// - `OutOfMemory`: an allocation fails.
    #[tactic(auto, unfolding(crate::specs::Records::funcs_at), using(crate::proofs::Records::of_one_slot))]
    pub fn funcs_at(
        &self,
        alloc: Global,
        first: usize,
        base: usize,
    ) -> Result<FuncSecInfo, ParseError>
        ensures info { IfOk result (λ info. info ≡ funcs_at self.now.funcs first base) }
        ensures memory { IfErr result (λ e. is_parse_memory e ≡ true) }
    {
        Ok(FuncSecInfo {
            sec_name_offset: self.funcs.name_offset,
            num_info: self.funcs.count,
            func_info: self.funcs.records.records_among(alloc, first, 1, base)?,
        })
    }

    /// Returns the line info of `count` slots from a slot on, the slots counted from `base`, with the section's counts.
    ///
    /// # Errors
    ///
    /// - `OutOfMemory`: an allocation fails.
    #[tactic(auto, unfolding(crate::specs::Records::lines_in))]
    pub fn lines_in(
        &self,
        alloc: Global,
        first: usize,
        count: usize,
        base: usize,
    ) -> Result<LineSecInfo, ParseError>
        ensures info { IfOk result (λ info. info ≡ lines_in self.now.lines first count base) }
        ensures memory { IfErr result (λ e. is_parse_memory e ≡ true) }
    {
        Ok(LineSecInfo {
            sec_name_offset: self.lines.name_offset,
            num_info: self.lines.count,
            line_info: self.lines.records.records_among(alloc, first, count, base)?,
        })
    }
}

/// The sizes of a file's func info and line info records.
fn record_sizes(ext: &Option<BtfExt>) -> (u32, u32)
    ensures funcs { result.0 ≡ func_size_of ext.now }
    ensures lines { result.1 ≡ line_size_of ext.now }
{
    match ext {
        Some(ext) => (ext.func_info_rec_size(), ext.line_info_rec_size()),
        None => (0, 0),
    }
}

/// The func info of the section with a name, lent.
#[tactic(auto, using(crate::proofs::Records::no_funcs))]
fn lent_funcs<'e>(
    found: &Option<FoundSections<'e, FuncSecInfo>>,
    name: &str,
) -> LentInfo<'e, bpf_func_info>
    ensures { func_info_at (found_funcs found.now) name.now
        ≡ record {
          sec_name_offset = result.name_offset;
          num_info = result.count;
          func_info = result.records.now;
        } }
{
    let Some(found) = found else {
        return LentInfo::none();
    };
    let Some(info) = found.get(name) else {
        return LentInfo::none();
    };
    LentInfo {
        name_offset: info.sec_name_offset,
        count: info.num_info,
        records: info.func_info.as_slice(),
    }
}

/// The line info of the section with a name, lent.
#[tactic(auto, using(crate::proofs::Records::no_lines))]
fn lent_lines<'e>(
    found: &Option<FoundSections<'e, LineSecInfo>>,
    name: &str,
) -> LentInfo<'e, bpf_line_info>
    ensures { line_info_at (found_lines found.now) name.now
        ≡ record {
          sec_name_offset = result.name_offset;
          num_info = result.count;
          line_info = result.records.now;
        } }
{
    let Some(found) = found else {
        return LentInfo::none();
    };
    let Some(info) = found.get(name) else {
        return LentInfo::none();
    };
    LentInfo {
        name_offset: info.sec_name_offset,
        count: info.num_info,
        records: info.line_info.as_slice(),
    }
}

/// The func info and line info of all sections, of which those of some names are found in one pass. Contracts see the
/// contents of `.BTF.ext`.
#[derive(Drop)]
pub struct FoundRecords<'e> {
    ext: &'e Option<BtfExt>,
    funcs: Option<FoundSections<'e, FuncSecInfo>>,
    lines: Option<FoundSections<'e, LineSecInfo>>,
    ghost funcs_are: { found_funcs funcs ≡ func_info_of ext.now },
    ghost lines_are: { found_lines lines ≡ line_info_of ext.now },
}

impl<'e> Model for FoundRecords<'e> {
    ghost use Rattle.ebpf_base.specs.Maps.{coded_text, text_cmp};
    ghost use Rattle.ebpf_btf_ext.specs.ExtReading.{ExtInfo};
    ghost use Rattle.ebpf_btf_ext.specs.contracts.ext_infos.FuncSecInfo as func_rows;
    ghost use Rattle.ebpf_btf_ext.specs.contracts.ext_infos.LineSecInfo as line_rows;
    ghost use Rattle.std.specs.Coded.{codes};
    ghost use Rattle.std.specs.FinMap as map;
    ghost use Rattle.std.specs.Prelude.{Option};

    ghost Value = { Option ExtInfo };

    ghost coded = { Prim.hlevel (
      codes,
      map.code {R = text_cmp} coded_text func_rows.the_row.coded,
      map.code
          {R = text_cmp} coded_text line_rows.the_row.coded,
    ) };

    ghost view = { λ r. r.ext.now };
}

impl<'e> FoundRecords<'e> {
    /// Finds the func info and line info of the sections with these names.
    pub fn find(
        alloc: Global,
        ext: &'e Option<BtfExt>,
        names: &[&str],
    ) -> Result<FoundRecords<'e>, AllocError>
        ensures { IfOk result (λ r. r ≡ ext.now) }
    {
        let Some(infos) = ext else {
            return Ok(FoundRecords {
                ext,
                funcs: None,
                lines: None,
            });
        };
        let funcs = Some(infos.func_info.with_found(alloc, names)?);
        let lines = Some(infos.line_info.with_found(alloc, names)?);
        Ok(FoundRecords { ext, funcs, lines })
    }

    /// Returns the func info of the section with a name; empty if there is none.
    pub fn funcs(&self, name: &str) -> LentInfo<'e, bpf_func_info>
        ensures { func_info_at (func_info_of self.now) name.now
            ≡ record {
              sec_name_offset = result.name_offset;
              num_info = result.count;
              func_info = result.records.now;
            } }
    {
        lent_funcs(&self.funcs, name)
    }

    /// Returns the line info of the section with a name; empty if there is none.
    pub fn lines(&self, name: &str) -> LentInfo<'e, bpf_line_info>
        ensures { line_info_at (line_info_of self.now) name.now
            ≡ record {
              sec_name_offset = result.name_offset;
              num_info = result.count;
              line_info = result.records.now;
            } }
    {
        lent_lines(&self.lines, name)
    }

    /// The func info and line info of the section with a name, the records of each gathered by their slots.
    pub fn section_records(
        &self,
        alloc: Global,
        name: &str,
    ) -> Result<SectionRecords<'e>, ParseError>
        ensures infos { IfOk result (λ r. r ≡ func_and_line_info_of self.now name.now) }
        ensures memory { IfErr result (λ e. is_parse_memory e ≡ true) }
    {
        let (func_size, line_size) = record_sizes(self.ext);
        Ok(SectionRecords {
            funcs: InfoBySlot::gather(alloc, self.funcs(name))?,
            lines: InfoBySlot::gather(alloc, self.lines(name))?,
            func_size,
            line_size,
        })
    }
}

/// The func info and line info of the sections of some names, each list of records gathered by its slots once.
fn records_of_names<'e>(
    alloc: Global,
    found: &FoundRecords<'e>,
    names: &[&str],
) -> Result<ByName<SectionRecords<'e>>, ParseError>
    ensures table { IfOk result (λ t. AreRecordsOf found.now t) }
    ensures memory { IfErr result (λ e. is_parse_memory e ≡ true) }
{
    let mut table = ByName::new(alloc);
    for name in names {
        if table.contains_key(*name) {
            continue;
        }
        let records = found.section_records(alloc, *name)?;
        table.insert(String::from_str(alloc, *name)?, records)?;
    }
    Ok(table)
}

/// The func info and line info of all sections, of which those of some names are gathered by their slots.
#[derive(Drop)]
pub struct RecordsByName<'e> {
    /// The func info and line info of all sections.
    pub found: FoundRecords<'e>,
    table: ByName<SectionRecords<'e>>,
    ghost are: { AreRecordsOf found table },
}

impl<'e> Model for RecordsByName<'e> {
    ghost use Rattle.ebpf_base.specs.Maps.{coded_text, text_cmp};
    ghost use Rattle.ebpf_btf_ext.specs.ExtReading.{ExtInfo};
    ghost use Rattle.ebpf_btf_ext.specs.contracts.ext_infos.FuncSecInfo as func_rows;
    ghost use Rattle.ebpf_btf_ext.specs.contracts.ext_infos.LineSecInfo as line_rows;
    ghost use Rattle.std.specs.Coded.{codes};
    ghost use Rattle.std.specs.FinMap as map;
    ghost use Rattle.std.specs.Prelude.{Option};

    ghost Value = { Option ExtInfo };

    ghost coded = { Prim.hlevel (
      codes,
      map.code {R = text_cmp} coded_text func_rows.the_row.coded,
      map.code
          {R = text_cmp} coded_text line_rows.the_row.coded,
    ) };

    ghost view = { λ r. r.found };
}

impl<'e> RecordsByName<'e> {
    /// Gathers the func info and line info of the sections with these names by their slots.
    ///
    /// # Errors
    ///
    /// - `OutOfMemory`: an allocation fails.
    #[tactic(auto, using(crate::proofs::Records::none_are))]
    pub fn gather(
        alloc: Global,
        ext: &'e Option<BtfExt>,
        names: &[&str],
    ) -> Result<RecordsByName<'e>, ParseError>
        ensures infos { IfOk result (λ r. r ≡ ext.now) }
        ensures memory { IfErr result (λ e. is_parse_memory e ≡ true) }
    {
        let found = FoundRecords::find(alloc, ext, names)?;
        if ext.is_none() {
            let table = ByName::new(alloc);
            return Ok(RecordsByName { found, table });
        }
        let table = records_of_names(alloc, &found, names)?;
        Ok(RecordsByName { found, table })
    }

    /// Returns the func info and line info of the section with a name, if its records are gathered.
    pub fn of(&self, name: &str) -> Option<&SectionRecords<'e>>
        ensures { IfSome result (λ r. r.now ≡ func_and_line_info_of self.now name.now) }
    {
        self.table.get(name)
    }
}
