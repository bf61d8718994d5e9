//! The source lines of a linked program's slots.

use ebpf_base::Text;
use ebpf_btf::Btf;
use ebpf_btf_ext::bpf_line_info;
use ebpf_model::Function;
use std::alloc::{AllocError, Global};

/// A slot in the copy of a function.
#[derive(Clone, Copy)]
pub struct LineSpan {
    /// Where the copy begins.
    pub begin: usize,
    /// Where it ends.
    pub end: usize,
    /// The slot.
    pub slot: usize,
    /// Whether the compiler gives the slot no line of its own, but those that use what it loads.
    pub leads: bool,
}

/// A source line: where its file's name stands in the strings of the types, and its number.
#[derive(Clone, Copy, PartialEq, Eq)]
pub struct LineNumber {
    /// The offset of the name.
    pub file_name_off: u32,
    /// The number.
    pub number: u32,
}

/// A source line, by the strings of the types.
#[derive(Drop)]
pub struct SourceLine {
    /// The file's name.
    pub file: Text,
    /// The number.
    pub number: u32,
    /// The text; empty where the object has none.
    pub text: Text,
}

/// The source lines of the slots of a linked program.
#[derive(Drop)]
pub struct Lines<'a> {
    records: &'a [bpf_line_info],
    /// For each slot the number of the record that begins there, else the number of records.
    begins: Vec<usize>,
}

/// A table of slots at which no record begins.
fn empty_table(alloc: Global, slots: usize, none: usize) -> Result<Vec<usize>, AllocError> {
    let mut begins = Vec::with_capacity(alloc, slots)?;
    for _ in 0..slots {
        begins.push(none)?;
    }
    Ok(begins)
}

/// Notes the slots at which records begin. The last record of a slot wins.
fn note_records(begins: &mut [usize], records: &[bpf_line_info]) {
    for (number, record) in records.iter().enumerate() {
        if let Some(place) = begins.get_mut(record.insn_off as usize) {
            *place = number;
        }
    }
}

/// The text at an offset of the strings; empty where it can't be read.
fn text_of(alloc: Global, local: &Btf, offset: u32) -> Result<Text, AllocError> {
    match local.string_at(offset) {
        Ok(text) => Text::from_str(alloc, text.as_str()),
        Err(_) => Text::from_str(alloc, ""),
    }
}

impl<'a> Lines<'a> {
    /// The lines of a linked program.
    pub fn new(alloc: Global, function: &'a Function) -> Result<Lines<'a>, AllocError> {
        let records = function.line_info.line_info.as_slice();
        let slots = function.instructions.len();
        let mut begins = empty_table(alloc, slots, records.len())?;
        note_records(&mut begins, records);
        Ok(Lines { records, begins })
    }

    /// The record of a number, if it names a line.
    fn naming(&self, number: usize) -> Option<&'a bpf_line_info> {
        let record = self.records.get(number)?;
        if record.line_col >> 10 == 0 {
            return None;
        }
        Some(record)
    }

    /// The line that begins at a slot, if any.
    pub fn beginning(&self, slot: usize) -> Option<LineNumber> {
        let number = self.begins.get(slot)?;
        let record = self.naming(*number)?;
        Some(LineNumber {
            file_name_off: record.file_name_off,
            number: record.line_col >> 10,
        })
    }

    /// The last record that begins at some slots and names a line.
    fn last_in(&self, begin: usize, end: usize) -> Option<&'a bpf_line_info> {
        for number in self.begins.get(begin..end)?.iter().rev() {
            if let Some(record) = self.naming(*number) {
                return Some(record);
            }
        }
        None
    }

    /// The first record that begins at some slots and names a line.
    fn first_in(&self, begin: usize, end: usize) -> Option<&'a bpf_line_info> {
        for number in self.begins.get(begin..end)?.iter() {
            if let Some(record) = self.naming(*number) {
                return Some(record);
            }
        }
        None
    }

    /// The record of a slot: where it leads the instructions behind it, which have lines of their own, the first one from
    /// it on; else, and where there is none, the last one up to it.
    fn record(&self, span: LineSpan) -> Option<&'a bpf_line_info> {
        if span.leads {
            if let Some(record) = self.first_in(span.slot, span.end) {
                return Some(record);
            }
        }
        self.last_in(span.begin, span.slot.saturating_add(1))
    }

    /// The line of a slot, where it has one whose file's name can be read.
    pub fn of(
        &self,
        alloc: Global,
        local: Option<&Btf>,
        span: LineSpan,
    ) -> Result<Option<SourceLine>, AllocError> {
        let (Some(local), Some(record)) = (local, self.record(span)) else {
            return Ok(None);
        };
        let Ok(file) = local.string_at(record.file_name_off) else {
            return Ok(None);
        };
        let file = Text::from_str(alloc, file.as_str())?;
        Ok(Some(SourceLine {
            file,
            number: record.line_col >> 10,
            text: text_of(alloc, local, record.line_off)?,
        }))
    }
}
