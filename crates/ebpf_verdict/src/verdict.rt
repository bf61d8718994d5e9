//! The verdict of a kernel on an object.

ghost use Rattle.std.specs.Prelude.{◌≡◌, IfOk, None, Ok, map, not};
ghost use Rattle.std.specs.List.{list_any};
ghost use Rattle.ebpf_btf.specs.TypeInfo.{TypeInfo};
ghost use Rattle.ebpf_core_relo.specs.Records.{Written};
ghost use Rattle.std.specs.FinMap.{entries};
ghost use Rattle.ebpf_object.specs.LinkedPrograms.{linkable_of, programs_in_order};
ghost use Rattle.ebpf_object.specs.Names.{has_function_in};
ghost use Rattle.ebpf_object.specs.WrittenSlots.{AreRecordOutcomes};
ghost use Rattle.ebpf_parts.specs.Maps.{map_type_of};
ghost use Rattle.ebpf_reloc.specs.SlotTargets.{read};
ghost use Rattle.ebpf_verdict.specs.Verdicts.{AreVerdicts, IsVerdict, code_is_ok, has_empty_part, has_empty_section, is_ok, is_refused, map_types};
ghost use Rattle.ebpf_verdict.specs.Writing.{IsWrittenAs};

use crate::externs::LackingExtern;
use crate::programs::{ProgramJudge, ProgramVerdict, is_refused};
use crate::reasons::Numbers;
use crate::writing::{WrittenObject, written_object};
use ebpf_base::Items;
use ebpf_btf::Btf;
use ebpf_btf_ext::Relocation;
use ebpf_core_relo::{RecordOutcome, RecordOutcomes};
use ebpf_load_info::KernelNumbers;
use ebpf_object::Object;
use ebpf_object::prepare::PrepareError;
use ebpf_object::relocation::{NumberedFunctions, programs_in_order};
use std::alloc::{AllocError, Global};

/// The verdict of a kernel on an object.
#[derive(Debug, Drop)]
pub struct Verdict {
    /// The outcomes of the object's CO-RE relocations, section by section and in order.
    pub records: Items<RecordOutcome>,
    /// Whether a section of CO-RE relocations has none. Loaders refuse such an object.
    pub has_empty_section: bool,
    /// The externs that have to be there and that the kernel lacks, in byte order of their names.
    pub lacking: Items<LackingExtern>,
    /// The refusal of a pass before linking, by which no program is linked: a map without a descriptor, a descriptor or an
    /// extern that can't be written, or a call of an extern that is left unwritten.
    pub refusal: Option<PrepareError>,
    /// The verdicts on the programs, in byte order of their names; none where a pass refuses the object.
    pub programs: Items<ProgramVerdict>,
}

/// Whether a section of CO-RE relocations has none.
fn has_empty_part(parts: &[(u32, Items<Relocation>)]) -> bool
    ensures { result ≡ has_empty_part parts.now }
{
    parts.iter().any(|part| part.1.len() == 0)
}

/// Whether a section of an object's CO-RE relocations has none.
fn has_empty_section(object: &Object) -> bool
    ensures { result ≡ has_empty_section object.now.btf_ext }
{
    match &object.btf_ext {
        Some(ext) => has_empty_part(ext.relocations()),
        None => false,
    }
}

/// The types of an object's maps, in byte order of their names.
fn map_types(alloc: Global, object: &Object) -> Result<Items<u32>, AllocError>
    ensures { IfOk result (λ types. types ≡ map_types object.now) }
{
    let mut types = Items::new(alloc);
    for (_, map) in object.maps.iter() {
        types.push(map.map_type())?;
    }
    Ok(types)
}

/// The verdicts on the programs of an object, by functions with numbers.
fn judge_each(
    alloc: Global,
    object: &Object,
    numbers: &Numbers<'_>,
    records: &[RecordOutcome],
    functions: &NumberedFunctions<'_>,
) -> Result<Items<ProgramVerdict>, AllocError>
    ensures { IfOk result (λ all.
        AreVerdicts numbers.now.kernel numbers.now.map_types.now records.now
        (read functions.now.parts) (programs_in_order object.now.programs) all) }
{
    let programs = programs_in_order(alloc, &object.programs)?;
    let judge = ProgramJudge {
        numbers,
        records,
        functions,
    };
    judge.verdicts_on(alloc, &programs)
}

/// The verdicts on the programs of an object, linked from an object that is written for the kernel.
fn judge_linked(
    alloc: Global,
    object: &Object,
    numbers: &Numbers<'_>,
    records: &[RecordOutcome],
    unlinked: &Object,
) -> Result<Items<ProgramVerdict>, AllocError>
    ensures { IfOk result (λ all.
        AreVerdicts numbers.now.kernel numbers.now.map_types.now records.now
        (linkable_of unlinked.now (has_function_in unlinked.now.functions))
        (programs_in_order object.now.programs) all) }
{
    let sections = unlinked.text_sections(alloc)?;
    let Ok(maps) = unlinked.program_maps(&sections) else {
        return Err(AllocError);
    };
    judge_each(alloc, object, numbers, records, &maps.functions)
}

/// The verdicts on the programs of an object over a kernel's types, linked from an object that is written for them.
fn judge_programs(
    alloc: Global,
    object: &Object,
    kernel: &Btf,
    records: &[RecordOutcome],
    unlinked: &Object,
) -> Result<Items<ProgramVerdict>, AllocError>
    ensures { IfOk result (λ all.
        AreVerdicts kernel.now (map_types object.now) records.now
        (linkable_of unlinked.now (has_function_in unlinked.now.functions))
        (programs_in_order object.now.programs) all) }
{
    let map_types = map_types(alloc, object)?;
    let numbers = Numbers {
        kernel: KernelNumbers::of(kernel),
        map_types: map_types.as_slice(),
    };
    judge_linked(alloc, object, &numbers, records, unlinked)
}

/// The outcomes of an object's CO-RE relocations over a kernel's types.
fn outcomes_over(object: &Object, kernel: &Btf) -> Result<RecordOutcomes, AllocError>
    ensures { IfOk result (λ outcomes. AreRecordOutcomes object.now kernel.now outcomes) }
{
    object.record_outcomes(kernel)
}

/// The verdict of a kernel with these types on an object.
///
/// The object is prepared over the types as `prepare_copy` prepares it with all passes, the descriptors 1, 2, .. of its maps
/// and no symbols of the kernel; but no refusal ends it before the others are known. So externs that the kernel's symbols or
/// its configuration give have to be resolved before, with any value.
///
/// The verdict says nothing of:
///
/// - the verifier: whether it accepts what a program does;
/// - modules: types, functions and variables that aren't in the types given;
/// - values of externs without a type, and of those that the kernel's configuration gives;
/// - attach targets: see `find_target`;
/// - helper functions and map types, where the kernel's types have no enumeration of them.
///
/// # Errors
///
/// - `AllocError`: out of memory.
pub fn judge(alloc: Global, object: &Object, kernel: &Btf) -> Result<Verdict, AllocError>
    ensures { IfOk result (λ v. IsVerdict object.now kernel.now v) }
{
    let RecordOutcomes {
        records,
        written: slots,
    } = outcomes_over(object, kernel)?;
    let written = written_object(alloc, object, kernel, slots)?;
    let verdict = finished(alloc, object, kernel, records, written)?;
    Ok(verdict)
}

/// The verdict on an object that no pass refuses, unless memory was refused.
fn with_programs(
    records: Items<RecordOutcome>,
    has_empty_section: bool,
    lacking: Items<LackingExtern>,
    judged: Result<Items<ProgramVerdict>, AllocError>,
) -> Result<Verdict, AllocError>
    ensures { IfOk result (λ v.
        (v
        ≡ record {
          records = records;
          has_empty_section = has_empty_section;
          lacking = lacking;
          refusal = None;
          programs = v.programs;
        })
        × (judged ≡ Ok v.programs)) }
{
    match judged {
        Ok(programs) => Ok(Verdict {
            records,
            has_empty_section,
            lacking,
            refusal: None,
            programs,
        }),
        Err(error) => Err(error),
    }
}

/// The verdict on an object that is written.
#[tactic(auto, using(crate::proofs::Judged::of_result))]
fn of_written(
    alloc: Global,
    object: &Object,
    kernel: &Btf,
    records: Items<RecordOutcome>,
    written: WrittenObject,
) -> Result<Verdict, AllocError>
    ensures { IfOk result (λ v.
        (slots : Written)
        → AreRecordOutcomes object.now kernel.now (record { records = records; written = slots })
        → IsWrittenAs kernel.now slots object.now (Ok written)
        → IsVerdict object.now kernel.now v) }
{
    let has_empty_section = has_empty_section(object);
    let WrittenObject {
        object: unlinked,
        lacking,
    } = written;
    let judged = judge_programs(alloc, object, kernel, records.as_slice(), &unlinked);
    drop(unlinked);
    with_programs(records, has_empty_section, lacking, judged)
}

/// The verdict on an object that a pass refuses.
#[tactic(auto, using(crate::proofs::Judged::of_refused))]
fn of_refused(
    alloc: Global,
    object: &Object,
    records: Items<RecordOutcome>,
    refusal: PrepareError,
) -> Verdict
    ensures { (kernel : TypeInfo) (slots : Written)
        → AreRecordOutcomes object.now kernel (record { records = records; written = slots })
        → IsVerdict object.now kernel result }
{
    Verdict {
        records,
        has_empty_section: has_empty_section(object),
        lacking: Items::new(alloc),
        refusal: Some(refusal),
        programs: Items::new(alloc),
    }
}

/// The verdict on an object whose CO-RE relocations have these outcomes, and which is written or refused.
fn finished(
    alloc: Global,
    object: &Object,
    kernel: &Btf,
    records: Items<RecordOutcome>,
    written: Result<WrittenObject, PrepareError>,
) -> Result<Verdict, AllocError>
    ensures { IfOk result (λ v.
        (slots : Written)
        → AreRecordOutcomes object.now kernel.now (record { records = records; written = slots })
        → IsWrittenAs kernel.now slots object.now written
        → IsVerdict object.now kernel.now v) }
{
    match written {
        Ok(written) => of_written(alloc, object, kernel, records, written),
        Err(refusal) => Ok(of_refused(alloc, object, records, refusal)),
    }
}

impl Verdict {
    /// Whether the verdict is ok: no pass refuses the object, no extern is lacking, no CO-RE relocation is refused, and no
    /// program has a reason to break. `laws::ok_is_prepared` says what follows.
    pub fn is_ok(&self) -> bool
        ensures { result ≡ is_ok self.now }
    {
        if self.refusal.is_some() || self.has_empty_section {
            return false;
        }
        if self.lacking.len() != 0 || any_refused(self.records.as_slice()) {
            return false;
        }
        !any_breaks(self.programs.as_slice())
    }
}

/// Whether a CO-RE relocation is refused.
fn any_refused(records: &[RecordOutcome]) -> bool
    ensures { result ≡ list_any is_refused records.now }
{
    records.iter().any(|record| is_refused(record))
}

/// Whether a program has a reason to break.
fn any_breaks(programs: &[ProgramVerdict]) -> bool
    ensures { result ≡ list_any (λ p. not (code_is_ok p.code)) programs.now }
{
    programs.iter().any(|program| !program.is_ok())
}
