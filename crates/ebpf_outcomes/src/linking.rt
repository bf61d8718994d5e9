//! The outcomes of linking an object's programs.

ghost use Rattle.std.specs.Prelude.{◌≡◌, IfOk, Err, false};
ghost use Rattle.ebpf_model.specs.Memory.{is_memory_at};
ghost use Rattle.ebpf_object.specs.LinkedPrograms.{linkable_of, programs_in_order};
ghost use Rattle.ebpf_object.specs.Names.{has_function_in};
ghost use Rattle.ebpf_outcomes.specs.CallOutcomes.{AreCallOutcomes};
ghost use Rattle.ebpf_reloc.specs.Laws.{IsProgramLinkMapAnswer};
ghost use Rattle.ebpf_reloc.specs.SlotTargets.{read};

use ebpf_base::Items;
use ebpf_object::Object;
use ebpf_object::relocation::{
    EbpfRelocationError, LinkMap, NumberedFunctions, ProgramKey, RelocationError, programs_in_order,
};
use std::alloc::{AllocError, Global};

/// The outcome of linking a program.
#[derive(Drop)]
pub struct CallOutcome {
    /// The program's link map, or why the program can't be linked, with the program's name.
    pub link_map: Result<LinkMap, EbpfRelocationError>,
}

/// Whether an allocation failed.
fn is_memory(error: &EbpfRelocationError) -> bool
    ensures { result ≡ is_memory_at error.now }
{
    matches!(error.error, RelocationError::OutOfMemory)
}

/// The outcome of a refusal to link a program.
fn refused(error: EbpfRelocationError) -> Result<CallOutcome, AllocError>
    ensures { IfOk result (λ outcome.
        (is_memory_at error ≡ false)
        × (outcome.link_map ≡ Err error)) }
{
    if is_memory(&error) {
        return Err(AllocError);
    }
    Ok(CallOutcome {
        link_map: Err(error),
    })
}

/// The outcome of linking a program.
fn call_outcome(
    alloc: Global,
    functions: &NumberedFunctions<'_>,
    program: &ProgramKey<'_>,
) -> Result<CallOutcome, AllocError>
    ensures { IfOk result (λ outcome.
        IsProgramLinkMapAnswer (read functions.now.parts) program.now outcome.link_map) }
{
    match functions.program_link_map(alloc, program) {
        Ok(map) => Ok(CallOutcome { link_map: Ok(map) }),
        Err(error) => refused(error),
    }
}

/// The outcomes of linking programs.
fn outcomes_of(
    alloc: Global,
    functions: &NumberedFunctions<'_>,
    programs: &[ProgramKey<'_>],
) -> Result<Items<CallOutcome>, AllocError>
    ensures { IfOk result (λ outcomes.
        AreCallOutcomes (read functions.now.parts) programs.now outcomes) }
{
    let mut outcomes = Items::new(alloc);
    for program in programs {
        let outcome = call_outcome(alloc, functions, program)?;
        outcomes.push(outcome)?;
    }
    Ok(outcomes)
}

/// The outcomes of linking the programs of an object from its functions as they are, in byte order of the programs' names:
/// the link map of each, or its refusal. Nothing is linked.
///
/// `Object::relocate_calls` refuses the object exactly where one of these is a refusal, and then for the first (law
/// `linking_refuses_by_outcomes`). `Err` only where memory was refused.
pub fn call_outcomes(alloc: Global, object: &Object) -> Result<Items<CallOutcome>, AllocError>
    ensures { IfOk result (λ outcomes.
        AreCallOutcomes (linkable_of object.now (has_function_in object.now.functions))
        (programs_in_order object.now.programs) outcomes) }
{
    let sections = object.text_sections(alloc)?;
    let programs = programs_in_order(alloc, &object.programs)?;
    let numbered = match object.program_maps(&sections) {
        Ok(numbered) => numbered,
        Err(_) => return Err(AllocError),
    };
    outcomes_of(alloc, &numbered.functions, &programs)
}
