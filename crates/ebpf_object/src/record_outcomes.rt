//! What each CO-RE relocation of an object comes to over a kernel's types.

ghost use Rattle.std.specs.Prelude.{◌≡◌, [], Ok, Err, IfOk, IfErr, OnOk, OnErr, MatchBool, map};
ghost use Rattle.ebpf_core_relo.specs.RecordOutcomes.{outcome_without_texts};
ghost use Rattle.ebpf_core_relo.specs.Records.{is_memory_in_section, without_texts_at};
ghost use Rattle.ebpf_object.specs.WrittenSlots.{AreRecordOutcomes, AreRelocatedToTypes, outcomes_by, relocated_slots};

use crate::object::Object;
use ebpf_base::{ByKey, Items};
use ebpf_btf::Btf;
use ebpf_core_relo::{
    BtfRelocationError, RecordOutcome, RecordOutcomes, put_slots, record_outcomes,
    relocate_with_outcomes,
};
use std::alloc::AllocError;

impl Object {
    /// The outcome of each CO-RE relocation of `.BTF.ext` over a kernel whose types are `target`, section by section and
    /// in order, also behind a refused one, and the slots that they write, each over the slots of those before it. An
    /// object without type information or without `.BTF.ext` has none. The object is unchanged.
    ///
    /// If no relocation is refused and no section of relocations is missing, `relocate_btf` writes these slots. If one is
    /// refused, `relocate_btf` refuses with the first refusal, unless a missing section without records comes before it.
    ///
    /// # Errors
    ///
    /// `AllocError`: an allocation failed.
    pub fn record_outcomes(&self, target: &Btf) -> Result<RecordOutcomes, AllocError>
        ensures { IfOk result (λ outcomes. AreRecordOutcomes self.now target.now outcomes) }
    {
        let alloc = self.allocator();
        let (Some(local), Some(relocations)) = (&self.btf, &self.btf_ext) else {
            return Ok(RecordOutcomes {
                records: Items::new(alloc),
                written: ByKey::new(alloc),
            });
        };
        record_outcomes(
            alloc,
            &self.functions,
            &self.section_infos,
            local,
            relocations,
            target,
        )
    }
    /// The outcomes of the CO-RE relocations and the slots that they write, or the first fault.
    fn relocated_with_outcomes(&self, target: &Btf) -> Result<RecordOutcomes, BtfRelocationError>
        ensures records { IfOk result (λ outcomes.
            map outcome_without_texts outcomes.records
            ≡ outcomes_by self.now target.now self.now.btf self.now.btf_ext) }
        ensures slots { IfOk result (λ outcomes.
            relocated_slots self.now target.now ≡ Ok outcomes.written) }
        ensures fault { IfErr result (λ e.
            MatchBool (is_memory_in_section e) (e.section ≡ [])
            (relocated_slots self.now target.now ≡ Err (without_texts_at e))) }
    {
        let alloc = self.allocator();
        let (Some(local), Some(relocations)) = (&self.btf, &self.btf_ext) else {
            return Ok(RecordOutcomes {
                records: Items::new(alloc),
                written: ByKey::new(alloc),
            });
        };
        relocate_with_outcomes(
            alloc,
            &self.functions,
            &self.section_infos,
            local,
            relocations,
            target,
        )
    }

    /// Relocates the functions to a kernel whose types are `target`, as `relocate_btf` does, and returns the outcome of each
    /// CO-RE relocation, as `record_outcomes` gives it of the object before. Each relocation is searched for once.
    ///
    /// # Errors
    ///
    /// Those of `relocate_btf`. After an error the object is as it was.
    pub fn relocate_btf_with_outcomes(
        &mut self,
        target: &Btf,
    ) -> Result<Items<RecordOutcome>, BtfRelocationError>
        ensures functions { OnOk result
            (AreRelocatedToTypes self.old target.now self.new.functions) }
        ensures records { IfOk result (λ records.
            map outcome_without_texts records
            ≡ outcomes_by self.old target.now self.old.btf self.old.btf_ext) }
        ensures fault { IfErr result (λ e.
            MatchBool (is_memory_in_section e) (e.section ≡ [])
            (relocated_slots self.old target.now ≡ Err (without_texts_at e))) }
        ensures others_stay { self.new ≡ record self.old { functions = self.new.functions } }
        ensures unchanged { OnErr result (self.new ≡ self.old) }
    {
        match self.relocated_with_outcomes(target) {
            Ok(outcomes) => {
                put_slots(&mut self.functions, outcomes.written);
                Ok(outcomes.records)
            }
            Err(error) => Err(error),
        }
    }
}
