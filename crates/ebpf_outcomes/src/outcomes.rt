//! A finished object with the outcomes of its passes.

ghost use Rattle.std.specs.Prelude.{◌≡◌, ◌∷◌, ◌++◌, [], ℕ, List, None, IfOk, IfErr, OnOk, false, true};
ghost use Rattle.std.specs.FinMap as map;
ghost use Rattle.std.specs.Option.{option_copied};
ghost use Rattle.ebpf_object.specs.Headline.{Headline};
ghost use Rattle.ebpf_object.specs.LinkedPrograms.{linkable_of, programs_in_order};
ghost use Rattle.ebpf_object.specs.Names.{has_function_in};
ghost use Rattle.ebpf_outcomes.specs.PassOutcomes.{AreLinkMaps, AreLinkMapsIf, AreOutcomes, HasOutcomes};
ghost use Rattle.ebpf_object.specs.Prepared.{IsParsed, IsStageFault, IsFirstPrepareFault, RefusesPreparing};
ghost use Rattle.ebpf_object.specs.Stages.{LinkingFault, LinksPrograms, RelocatesTypes, TypesFault, Wrapped, chosen};
ghost use Rattle.ebpf_object.specs.UnchangedFields.{KeepsOthers};
ghost use Rattle.ebpf_object.specs.declared.prepare_error.PrepareError.TheVariants.{Calls, Types};
ghost use Rattle.ebpf_parts.specs.declared.parse_mode.ParseMode.{ParseMode};
ghost use Rattle.ebpf_reloc.specs.Linking.{AreLinked, IsFirstRefusal, IsLinked, IsLinkMapAt, IsProgramRefusal, key_of};
ghost use Rattle.ebpf_reloc.specs.SlotTargets.{read};

use crate::slot_outcomes::MapOutcome;
use crate::slot_passes::{AskedOutcomes, write_slots};
use ebpf_base::{ByKey, Items};
use ebpf_btf::Btf;
use ebpf_core_relo::RecordOutcome;
use ebpf_model::Function;
use ebpf_object::Object;
use ebpf_object::prepare::{PrepareError, Steps, SymbolSource, check_descriptors, check_externs};
use ebpf_object::relocation::{
    LinkMap, LinkedFunction, NumberedFunctions, ProgramKey, programs_in_order, take_places,
};
use ebpf_reloc::SlotOutcome;
use std::alloc::{AllocError, Global};

/// An object after the chosen passes, with their outcomes: its slots are those that the outcomes say.
#[derive(Drop)]
pub struct PreparedWithOutcomes {
    /// The object after the passes.
    pub object: Object,
    /// The outcome of each CO-RE relocation of `.BTF.ext`, section by section and in order: its slot, among those of the
    /// functions before linking, and its value, or the reason why it has none. Empty where no kernel's types are chosen.
    pub records: Items<RecordOutcome>,
    /// The outcomes of the pass that writes descriptors, as `map_outcomes` gives them in the object that this pass begins with.
    /// Empty where descriptors aren't chosen, or the outcomes aren't asked for.
    pub maps: Items<MapOutcome>,
    /// The outcomes of the pass that writes externs, as `extern_outcomes` gives them in the object that this pass begins with:
    /// its externs are resolved. Empty where externs aren't chosen, or the outcomes aren't asked for.
    pub externs: Items<SlotOutcome>,
    /// The link map of each program, in byte order of the programs' names. Empty where linking isn't chosen.
    pub link_maps: Items<LinkMap>,
}

/// Linked programs.
#[derive(Drop)]
struct LinkedPrograms {
    /// Their functions, by the keys of the programs.
    functions: ByKey<Function>,
    /// Their link maps, in the order of the programs.
    link_maps: Items<LinkMap>,
}

/// Relocates the functions to a kernel's types, where these are given. The outcomes of the CO-RE relocations come back.
#[tactic(auto, using(ebpf_object::proofs::Staging::wrapped))]
fn relocate_types(
    alloc: Global,
    object: &mut Object,
    target: Option<&Btf>,
) -> Result<Items<RecordOutcome>, PrepareError>
    ensures ok { OnOk result (RelocatesTypes (option_copied target.entry) object.old object.new) }
    ensures records { IfOk result (AreOutcomes (option_copied target.entry) object.old) }
    ensures fault { IfErr result
        (RefusesPreparing
        (Wrapped Types (TypesFault (option_copied target.entry) object.old))) }
    ensures others_stay { KeepsOthers object.old object.new }
{
    let Some(target) = target else {
        return Ok(Items::new(alloc));
    };
    match object.relocate_btf_with_outcomes(target) {
        Ok(records) => Ok(records),
        Err(error) => Err(PrepareError::Types(error)),
    }
}

impl LinkedPrograms {
    /// No programs.
    fn new(alloc: Global) -> LinkedPrograms
        ensures functions { result.functions ≡ map.empty }
        ensures link_maps { result.link_maps ≡ [] }
    {
        LinkedPrograms {
            functions: ByKey::new(alloc),
            link_maps: Items::new(alloc),
        }
    }

    /// Adds a linked program.
    fn add(&mut self, program: &ProgramKey<'_>, made: LinkedFunction) -> Result<(), AllocError>
        ensures functions { OnOk result
            (self.new.functions
            ≡ map.insert self.old.functions (key_of program.now) made.function) }
        ensures link_maps { OnOk result
            (self.new.link_maps ≡ self.old.link_maps ++ made.map ∷ []) }
    {
        let key = (program.section_index, program.address);
        self.functions.insert(key, made.function)?;
        self.link_maps.push(made.map)?;
        Ok(())
    }
}

/// A program, linked, with its link map.
#[tactic(auto, using(ebpf_object::proofs::Staging::wrapped))]
fn linked_program(
    alloc: Global,
    functions: &NumberedFunctions<'_>,
    program: &ProgramKey<'_>,
) -> Result<LinkedFunction, PrepareError>
    ensures linked { IfOk result (λ l.
        IsLinked (read functions.now.parts) (key_of program.now) l.function) }
    ensures mapped { IfOk result (λ l.
        IsLinkMapAt (read functions.now.parts) (key_of program.now) l.map) }
    ensures fault { IfErr result
        (RefusesPreparing
        (Wrapped Calls (IsProgramRefusal (read functions.now.parts) program.now))) }
{
    match functions.linked_with_map(alloc, program) {
        Ok(linked) => Ok(linked),
        Err(error) => Err(PrepareError::Calls(error)),
    }
}

/// The programs, linked, up to the first that can't be linked.
fn linked_programs(
    alloc: Global,
    functions: &NumberedFunctions<'_>,
    programs: &[ProgramKey<'_>],
) -> Result<LinkedPrograms, PrepareError>
    ensures linked { IfOk result (λ linked.
        AreLinked (read functions.now.parts) programs.now linked.functions) }
    ensures link_maps { IfOk result (λ linked.
        AreLinkMaps (read functions.now.parts) programs.now linked.link_maps) }
    ensures fault { IfErr result
        (RefusesPreparing
        (Wrapped Calls (IsFirstRefusal (read functions.now.parts) programs.now))) }
{
    let mut linked = LinkedPrograms::new(alloc);
    for program in programs {
        let made = linked_program(alloc, functions, program)?;
        linked.add(program, made)?;
    }
    Ok(linked)
}

/// The programs of an object, linked from its functions as they are.
fn programs_of(alloc: Global, object: &Object) -> Result<LinkedPrograms, PrepareError>
    ensures linked { IfOk result (λ linked.
        AreLinked (linkable_of object.now (has_function_in object.now.functions))
        (programs_in_order object.now.programs) linked.functions) }
    ensures link_maps { IfOk result (λ linked. AreLinkMapsIf true object.now linked.link_maps) }
    ensures fault { IfErr result (RefusesPreparing (Wrapped Calls (LinkingFault true object.now))) }
{
    let sections = object.text_sections(alloc)?;
    let programs = programs_in_order(alloc, &object.programs)?;
    let numbered = match object.program_maps(&sections) {
        Ok(numbered) => numbered,
        Err(error) => return Err(PrepareError::Calls(error)),
    };
    linked_programs(alloc, &numbered.functions, &programs)
}

/// Links the programs of an object with the functions that they reach. Their link maps come back.
fn link_all(alloc: Global, object: &mut Object) -> Result<Items<LinkMap>, PrepareError>
    ensures ok { OnOk result (LinksPrograms true object.old object.new) }
    ensures link_maps { IfOk result (AreLinkMapsIf true object.old) }
    ensures fault { IfErr result (RefusesPreparing (Wrapped Calls (LinkingFault true object.old))) }
    ensures others_stay { KeepsOthers object.old object.new }
{
    let linked = match programs_of(alloc, object) {
        Ok(linked) => linked,
        Err(error) => return Err(error),
    };
    take_places(&mut object.functions, linked.functions);
    Ok(linked.link_maps)
}

/// Links the programs, where that is chosen. Their link maps come back.
fn link_programs(
    alloc: Global,
    object: &mut Object,
    calls: bool,
) -> Result<Items<LinkMap>, PrepareError>
    ensures ok { OnOk result (LinksPrograms calls object.old object.new) }
    ensures link_maps { IfOk result (AreLinkMapsIf calls object.old) }
    ensures fault { IfErr result
        (RefusesPreparing (Wrapped Calls (LinkingFault calls object.old))) }
    ensures others_stay { KeepsOthers object.old object.new }
{
    if !calls {
        return Ok(Items::new(alloc));
    }
    link_all(alloc, object)
}

/// Runs the chosen passes over an object, which comes back with their outcomes.
fn run_all<K: SymbolSource>(
    alloc: Global,
    object: Object,
    steps: &Steps<'_>,
    asked: AskedOutcomes,
    kallsyms: K,
) -> Result<PreparedWithOutcomes, PrepareError>
    ensures outcomes { IfOk result
        (HasOutcomes (chosen steps.now) asked (K.source kallsyms) object) }
    ensures others_stay { IfOk result (λ p. KeepsOthers object p.object) }
    ensures fault { IfErr result
        (RefusesPreparing (IsStageFault (chosen steps.now) (K.source kallsyms) object)) }
{
    check_descriptors(&object, steps.map_fds, steps.complete)?;
    let mut typed = object;
    let records = relocate_types(alloc, &mut typed, steps.target_btf)?;
    let slots = write_slots(alloc, &mut typed, steps, asked, kallsyms)?;
    check_externs(&typed, steps.calls, steps.complete)?;
    let link_maps = link_programs(alloc, &mut typed, steps.calls)?;
    Ok(PreparedWithOutcomes {
        object: typed,
        records,
        maps: slots.maps,
        externs: slots.externs,
        link_maps,
    })
}

/// An object after the chosen passes, with their outcomes.
fn prepared_object<K: SymbolSource>(
    alloc: Global,
    object: Object,
    steps: &Steps<'_>,
    asked: AskedOutcomes,
    kallsyms: K,
) -> Result<PreparedWithOutcomes, PrepareError>
    ensures outcomes { IfOk result
        (HasOutcomes (chosen steps.now) asked (K.source kallsyms) object) }
    ensures headline { (mode : ParseMode) (file : List ℕ)
        → IsParsed mode file object
        → IfOk result (λ p.
        Headline (chosen steps.now) (K.source kallsyms) mode file p.object) }
    ensures others_stay { IfOk result (λ p. KeepsOthers object p.object) }
    ensures fault { IfErr result
        (RefusesPreparing (IsStageFault (chosen steps.now) (K.source kallsyms) object)) }
    ensures first_fault { (mode : ParseMode) (file : List ℕ)
        → IsParsed mode file object
        → IfErr result
        (RefusesPreparing
        (IsFirstPrepareFault (chosen steps.now) (K.source kallsyms) mode file)) }
{
    run_all(alloc, object, steps, asked, kallsyms)
}

/// A copy of an object after the chosen passes, as `prepare_copy` gives it, with the outcomes of the passes: each CO-RE
/// relocation is searched for once, and each program linked once. The outcomes of the passes over maps and externs are made
/// where `asked` says so. The object stays as it is.
///
/// # Errors
///
/// Those of `prepare_copy`.
pub fn prepare_with_outcomes<K: SymbolSource>(
    alloc: Global,
    object: &Object,
    steps: &Steps<'_>,
    asked: AskedOutcomes,
    kallsyms: K,
) -> Result<PreparedWithOutcomes, PrepareError>
    ensures outcomes { IfOk result
        (HasOutcomes (chosen steps.now) asked (K.source kallsyms) object.now) }
    ensures headline { (mode : ParseMode) (file : List ℕ)
        → IsParsed mode file object.now
        → IfOk result (λ p.
        Headline (chosen steps.now) (K.source kallsyms) mode file p.object) }
    ensures others_stay { IfOk result (λ p. KeepsOthers object.now p.object) }
    ensures fault { IfErr result
        (RefusesPreparing (IsStageFault (chosen steps.now) (K.source kallsyms) object.now)) }
    ensures first_fault { (mode : ParseMode) (file : List ℕ)
        → IsParsed mode file object.now
        → IfErr result
        (RefusesPreparing
        (IsFirstPrepareFault (chosen steps.now) (K.source kallsyms) mode file)) }
{
    let Ok(copy) = object.clone() else {
        return Err(PrepareError::OutOfMemory);
    };
    prepared_object(alloc, copy, steps, asked, kallsyms)
}
