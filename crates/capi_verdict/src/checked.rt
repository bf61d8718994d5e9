//! The verdict of a kernel on an object, as C reads it.

ghost use Rattle.std.specs.Prelude.{◌≡◌, ◌++◌, ◌∷◌, [], IfOk, OnOk, map};
ghost use Rattle.std.specs.List.{flat_map};
ghost use Rattle.ebpf_verdict.specs.Verdicts.{IsVerdict};
ghost use Rattle.capi_verdict.specs.Assumed.{assumed};
ghost use Rattle.capi_verdict.specs.Checked.{IsChecked, verdict_reasons, verdict_summary};
ghost use Rattle.capi_verdict.specs.ProgramReasons.{program_reasons};
ghost use Rattle.capi_verdict.specs.Reasons.{reason_list};
ghost use Rattle.capi_verdict.specs.Summaries.{fate_of};

use crate::assumed::assumed_externs;
use crate::object_reasons::object_reasons;
use crate::program_reasons::{add_target, missing_target};
use crate::reason::{Reason, ebpf_reason};
use crate::slot_reasons::ReasonSource;
use crate::summary::{ProgramFate, Totals, ebpf_verdict_summary, fate_by, summary};
use capi_rows::buffers::{Listing, list_all};
use ebpf_base::Items;
use ebpf_btf::Btf;
use ebpf_core_relo::RecordOutcome;
use ebpf_object::Object;
use ebpf_verdict::{ProgramVerdict, Verdict, judge};
use std::alloc::{AllocError, Global};
use std::mem;

/// An object, a kernel, and the outcomes of the object's CO-RE relocations there.
#[derive(Drop)]
struct JudgedObject<'a> {
    object: &'a Object,
    kernel: &'a Btf,
    records: &'a [RecordOutcome],
}

/// The reasons and the fates of programs, so far.
#[derive(Drop)]
struct ReasonsSoFar {
    reasons: Items<Reason>,
    fates: Items<ProgramFate>,
}

impl JudgedObject<'_> {
    /// Adds the reasons and the fate of a program.
    fn add_program(
        &self,
        alloc: Global,
        so_far: &mut ReasonsSoFar,
        program: &ProgramVerdict,
    ) -> Result<(), AllocError>
        ensures reasons { OnOk result
            (so_far.new.reasons
            ≡ so_far.old.reasons
            ++ program_reasons self.now.object.now self.now.kernel.now self.now.records.now
            program.now) }
        ensures fates { OnOk result
            (so_far.new.fates
            ≡ so_far.old.fates
            ++ fate_of self.now.object.now self.now.kernel.now program.now ∷ []) }
    {
        let source = ReasonSource {
            object: self.object,
            records: self.records,
            program: program.name.as_str(),
        };
        let target = missing_target(alloc, self.object, self.kernel, source.program)?;
        so_far
            .fates
            .push(fate_by(program.is_ok(), target.is_none()))?;
        source.add_code(alloc, &mut so_far.reasons, &program.code)?;
        add_target(alloc, &mut so_far.reasons, source.program, target)?;
        Ok(())
    }

    /// Adds the reasons and the fates of programs, in their order.
    #[tactic(auto, using(crate::proofs::Loops::one_mapped, crate::proofs::Loops::one_list, ebpf_base::proofs::Lists::rest_none))]
    fn add_programs(
        &self,
        alloc: Global,
        so_far: &mut ReasonsSoFar,
        programs: &[ProgramVerdict],
    ) -> Result<(), AllocError>
        ensures reasons { OnOk result
            (so_far.new.reasons
            ≡ so_far.old.reasons
            ++ flat_map
            (program_reasons self.now.object.now self.now.kernel.now self.now.records.now)
            programs.now) }
        ensures fates { OnOk result
            (so_far.new.fates
            ≡ so_far.old.fates
            ++ map (fate_of self.now.object.now self.now.kernel.now) programs.now) }
    {
        for program in programs {
            self.add_program(alloc, so_far, program)?;
        }
        Ok(())
    }
}

/// The rows of reasons with their text, and a summary.
#[derive(Drop)]
pub struct CheckedObject {
    pub listing: Listing<ebpf_reason>,
    pub summary: ebpf_verdict_summary,
}

/// The reasons and the summary of a verdict.
fn told(
    alloc: Global,
    object: &Object,
    kernel: &Btf,
    mut verdict: Verdict,
) -> Result<CheckedObject, AllocError>
    ensures reasons { IfOk result (λ c.
        (c.listing.rows.items, c.listing.text.items)
        ≡ reason_list (verdict_reasons object.now kernel.now verdict)) }
    ensures summary { IfOk result (λ c.
        c.summary ≡ verdict_summary object.now kernel.now verdict) }
{
    let is_ok = verdict.is_ok();
    let reasons = object_reasons(alloc, &mut verdict)?;
    let for_all = reasons.len() != 0;
    let mut so_far = ReasonsSoFar {
        reasons,
        fates: Items::new(alloc),
    };
    let judged = JudgedObject {
        object,
        kernel,
        records: verdict.records.as_slice(),
    };
    judged.add_programs(alloc, &mut so_far, verdict.programs.as_slice())?;
    let totals = Totals {
        is_ok,
        for_all,
        programs: object.programs.len(),
        reasons: so_far.reasons.len(),
    };
    let listing = list_all(alloc, &(), so_far.reasons.as_slice())?;
    Ok(CheckedObject {
        listing,
        summary: summary(totals, so_far.fates.as_slice()),
    })
}

/// The verdict of a kernel on an object as it is judged. The object is as before.
fn judged(alloc: Global, object: &mut Object, kernel: &Btf) -> Result<Verdict, AllocError>
    ensures verdict { IfOk result (λ v. IsVerdict (assumed object.old) kernel.now v) }
    ensures stays { object.new ≡ object.old }
{
    let externs = assumed_externs(alloc, object)?;
    let own = mem::replace(&mut object.externs, externs);
    let verdict = judge(alloc, object, kernel);
    object.externs = own;
    verdict
}

/// The verdict of a kernel with these types on an object (`ebpf_verdict::judge`): its reasons as rows, and how many
/// programs run. Externs without a type and kconfig externs count as found.
///
/// # Errors
///
/// - `AllocError`: out of memory.
///
/// The object is as before, in any case.
pub fn check(alloc: Global, object: &mut Object, kernel: &Btf) -> Result<CheckedObject, AllocError>
    ensures checked { IfOk result (λ c.
        IsChecked kernel.now object.old
        ((c.listing.rows.items, c.listing.text.items), c.summary)) }
    ensures stays { object.new ≡ object.old }
{
    let verdict = judged(alloc, object, kernel)?;
    told(alloc, object, kernel, verdict)
}
