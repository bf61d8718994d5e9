//! What keeps a kernel from loading an object as a whole, beside the reasons of its programs.

use crate::verdict::findings::FindingKey;
use crate::verdict::judging::Judge;
use cli_common::kinds::Kind;
use cli_common::record_names::record_name;
use ebpf_core_relo::{RecordResult, RelocationError};
use ebpf_verdict::{ProgramCode, ProgramVerdict};
use std::alloc::AllocError;

/// Whether a CO-RE relocation is one of a linked program that is refused.
fn has_refused(program: &ProgramVerdict, number: usize) -> bool {
    match &program.code {
        ProgramCode::Linked(linked) => linked.refused.iter().any(|refused| *refused == number),
        ProgramCode::Refused(_) => false,
    }
}

impl Judge<'_> {
    /// Whether a CO-RE relocation that is refused is one of a program.
    fn is_of_program(&self, number: usize) -> bool {
        let programs = self.answers.verdict.programs.as_slice();
        programs.iter().any(|program| has_refused(program, number))
    }

    /// Notes a CO-RE relocation that is refused and belongs to no program.
    fn note_refused_record(
        &mut self,
        number: usize,
        error: &RelocationError,
    ) -> Result<(), AllocError> {
        let (alloc, loaded) = (self.alloc, self.answers.loaded);
        let records = &loaded.needs.records;
        let (Some(local), Some(record)) = (&loaded.object.btf, records.get(number)) else {
            return Ok(());
        };
        let name = record_name(alloc, local, &record.relocation)?;
        let reason = format!(in alloc; "refused: {error}")?;
        let kind = Kind::of(record.relocation.kind);
        self.note(FindingKey::breaking(alloc, name, kind, reason), None)
    }

    /// Notes the CO-RE relocations that are refused and belong to no program; whether there are some.
    fn note_refused_records(&mut self) -> Result<bool, AllocError> {
        let answers = self.answers;
        let mut found = false;
        for (number, record) in answers.verdict.records.iter().enumerate() {
            let RecordResult::Refused(error) = &record.result else {
                continue;
            };
            if self.is_of_program(number) {
                continue;
            }
            self.note_refused_record(number, error)?;
            found = true;
        }
        Ok(found)
    }

    /// Notes that a section of CO-RE relocations has none, where one has none; whether one has none.
    fn note_empty_section(&mut self) -> Result<bool, AllocError> {
        if !self.answers.verdict.has_empty_section {
            return Ok(false);
        }
        let alloc = self.alloc;
        let name = String::from_str(alloc, "all programs")?;
        let reason = String::from_str(alloc, "a section of CO-RE relocations has none")?;
        self.note(
            FindingKey::breaking(alloc, name, Kind::Linking, reason),
            None,
        )?;
        Ok(true)
    }

    /// Notes what keeps the object from being loaded as a whole, beside externs; whether something does.
    pub fn note_whole(&mut self) -> Result<bool, AllocError> {
        let is_refused = self.note_refused_records()?;
        let is_empty = self.note_empty_section()?;
        Ok(is_refused || is_empty)
    }
}
