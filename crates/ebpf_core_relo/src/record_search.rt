//! Results of records over the types of a kernel, with the reasons of those that have no value.

ghost use Rattle.std.specs.Prelude.{◌≡◌, IfOk, Ok};
ghost use Rattle.ebpf_core.specs.LocalPaths.{local_path};
ghost use Rattle.ebpf_core.specs.Searches.{candidates_for, outcome_of};
ghost use Rattle.ebpf_core_relo.specs.Absences.{absence_in, absence_of, without_position};
ghost use Rattle.ebpf_core_relo.specs.PrivateContracts.{Leaves, StaysRefused, outcome_or_fault};
ghost use Rattle.ebpf_core_relo.specs.RecordOutcomes.{outcome_result, record_result, result_without_texts};
ghost use Rattle.ebpf_core_relo.specs.Records.{record_applied};
ghost use Rattle.ebpf_core_relo.specs.SpanInputs.{inputs_of};

use crate::absence::{Absence, absence_among};
use crate::applied::apply_record;
use crate::error::{unless_memory, unless_memory_of_types};
use crate::outcomes::RecordResult;
use crate::spans::FunctionSpans;
use ebpf_base::{ByKey, Items};
use ebpf_btf::Btf;
use ebpf_btf_ext::Relocation;
use ebpf_core::{
    CoreSearch, NamedPath, Outcome, Question, RelocationError, local_path, question_of,
};
use ebpf_parts::insn::bpf_insn;
use std::alloc::{AllocError, Global};
use std::collections::BTreeMap;
use std::marker::Model;

/// A record without its position.
fn without_position(relocation: &Relocation) -> Relocation
    ensures { result ≡ without_position relocation.now }
{
    Relocation {
        number: 0,
        insn_off: 0,
        ..*relocation
    }
}

/// A search for the outcomes of records, and for the reasons of records that have no value.
///
/// Absences are cached by their questions. Contracts see the two sides alone.
#[derive(Drop)]
pub struct RecordSearch<'a> {
    search: CoreSearch<'a>,
    cached: BTreeMap<Question, Absence>,
}

impl<'a> Model for RecordSearch<'a> {
    ghost use Rattle.std.specs.Prelude.{◌≡◌};
    ghost use Rattle.ebpf_core.specs.Searches.{AreCached};
    ghost use Rattle.ebpf_core.specs.Searches.{Sides};
    ghost use Rattle.ebpf_core_relo.specs.Absences.{absence_of};

    ghost Value = { Sides };

    ghost view = { λ s. s.search };

    ghost invariant = { λ s.
        AreCached (λ r absence. absence_of s.search.local s.search.target r ≡ absence)
        s.cached };
}

impl<'a> RecordSearch<'a> {
    /// Returns a search in the types of a kernel for the types of an object. No memory is allocated.
    pub fn new(alloc: Global, local: &'a Btf, target: &'a Btf) -> RecordSearch<'a>
        ensures local { result.local ≡ local.now }
        ensures target { result.target ≡ target.now }
    {
        RecordSearch {
            search: CoreSearch::new(alloc, local, target),
            cached: BTreeMap::new(alloc),
        }
    }

    /// The reason why a path has no value among the kernel's types that a local type may stand for.
    fn absence_over(
        &mut self,
        alloc: Global,
        path: &NamedPath,
        type_id: u32,
    ) -> Result<Absence, AllocError>
        ensures absence { IfOk result (λ absence.
            absence
            ≡ absence_in self.old.local self.old.target path.now
            (candidates_for self.old.local self.old.target type_id)) }
        ensures stays { self.new ≡ self.old }
    {
        match self.search.candidates(alloc, type_id) {
            Ok(ids) => {
                let (local, target) = (self.search.local(), self.search.target());
                absence_among(local, target, path, ids.as_slice())
            }
            Err(error) => {
                unless_memory_of_types(error)?;
                Ok(Absence::NoType)
            }
        }
    }

    /// The reason why a record has no value, whatever is cached.
    #[tactic(auto, unfolding(crate::specs::Absences::absence_of))]
    fn find(&mut self, alloc: Global, relocation: &Relocation) -> Result<Absence, AllocError>
        ensures absence { IfOk result (λ absence.
            absence ≡ absence_of self.old.local self.old.target relocation.now) }
        ensures stays { self.new ≡ self.old }
    {
        let question = without_position(relocation);
        let path = match local_path(alloc, self.search.local(), &question) {
            Ok(path) => path,
            Err(fault) => {
                let _fault = unless_memory(fault)?;
                return Ok(Absence::NoType);
            }
        };
        self.absence_over(alloc, &path.path, relocation.type_id)
    }

    /// Caches the absence of a record for all with the same question.
    fn cache(&mut self, relocation: &Relocation, absence: Absence) -> Result<(), AllocError>
        requires { absence ≡ absence_of self.old.local self.old.target relocation.now }
        ensures { self.new ≡ self.old }
    {
        self.cached.insert(question_of(relocation), absence)?;
        Ok(())
    }

    /// Returns the reason why a record has no value.
    ///
    /// # Errors
    ///
    /// - `AllocError`: an allocation failed.
    pub fn absence(&mut self, alloc: Global, relocation: &Relocation) -> Result<Absence, AllocError>
        ensures absence { IfOk result (λ absence.
            absence ≡ absence_of self.old.local self.old.target relocation.now) }
        ensures stays { self.new ≡ self.old }
    {
        if let Some(absence) = self.cached.get(&question_of(relocation)) {
            return Ok(*absence);
        }
        let absence = self.find(alloc, relocation)?;
        self.cache(relocation, absence)?;
        Ok(absence)
    }

    /// The result of a record with an outcome: its value, or the reason why it has none.
    fn outcome_result(
        &mut self,
        alloc: Global,
        relocation: &Relocation,
        outcome: Outcome,
    ) -> Result<RecordResult, AllocError>
        ensures outcome_result { IfOk result (λ answer.
            answer ≡ outcome_result self.old relocation.now outcome) }
        ensures stays { self.new ≡ self.old }
    {
        if outcome.value.is_some() {
            return Ok(RecordResult::Value(outcome));
        }
        let absence = self.absence(alloc, relocation)?;
        Ok(RecordResult::Absent(absence))
    }

    /// Applies a record of a section to the function that holds its instruction. A refused record writes nothing.
    ///
    /// # Errors
    ///
    /// Those of `apply_record`.
    pub fn apply(
        &mut self,
        alloc: Global,
        function_spans: &FunctionSpans<'_>,
        section: usize,
        written: &mut ByKey<Items<bpf_insn>>,
        relocation: &Relocation,
    ) -> Result<Outcome, RelocationError>
        ensures applied { Leaves result written.new
            (record_applied (inputs_of self.old function_spans.now) section written.old
            relocation.now) }
        ensures outcome { IfOk result (λ outcome.
            outcome_of self.old.local self.old.target relocation.now ≡ Ok outcome) }
        ensures stays { StaysRefused result written.old written.new }
        ensures search { self.new ≡ self.old }
    {
        apply_record(
            alloc,
            &mut self.search,
            function_spans,
            section,
            written,
            relocation,
        )
    }

    /// Returns the result of a record that was applied, by its outcome or its fault.
    ///
    /// # Errors
    ///
    /// - `AllocError`: an allocation failed.
    pub fn result_of(
        &mut self,
        alloc: Global,
        relocation: &Relocation,
        applied: Result<Outcome, RelocationError>,
    ) -> Result<RecordResult, AllocError>
        ensures result_of { IfOk result (λ answer.
            result_without_texts answer
            ≡ record_result self.old relocation.now (outcome_or_fault applied)) }
        ensures stays { self.new ≡ self.old }
    {
        match applied {
            Ok(outcome) => self.outcome_result(alloc, relocation, outcome),
            Err(fault) => Ok(RecordResult::Refused(fault)),
        }
    }
}
