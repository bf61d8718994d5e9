//! The CO-RE relocations of an object.

ghost use Rattle.std.specs.Prelude.{◌≡◌, Ok, Err, IfOk, IfErr, MatchBool, []};
ghost use Rattle.std.specs.FinMap as map;
ghost use Rattle.ebpf_model.specs.Symbols.{FunctionKey};
ghost use Rattle.ebpf_core_relo.specs.Records.{is_memory_in_section, without_texts_at, RecordsAreRefused, relocation_inputs_between, slots_written, with_slots};
ghost use Rattle.ebpf_core_relo.specs.PrivateContracts.{with_slots_at};

use crate::error::BtfRelocationError;
use crate::spans::FunctionSpans;
use crate::walk::{RecordWalk, walk_all};
use ebpf_base::{ByKey, ByName, Items};
use ebpf_btf::Btf;
use ebpf_btf_ext::BtfExt;
use ebpf_elf::SectionIndex;
use ebpf_model::Function;
use ebpf_parts::insn::bpf_insn;
use std::alloc::Global;

/// The slots that all relocations write, or the first fault.
fn written_slots(
    alloc: Global,
    functions: &ByKey<Function>,
    section_infos: &ByName<SectionIndex>,
    local: &Btf,
    relocations: &BtfExt,
    target: &Btf,
) -> Result<ByKey<Items<bpf_insn>>, BtfRelocationError>
    ensures slots { IfOk result (λ slots.
        slots_written
        (relocation_inputs_between local.now target.now functions.now section_infos.now)
        relocations.now.relocations
        ≡ Ok slots) }
    ensures fault { IfErr result (λ e.
        MatchBool (is_memory_in_section e) (e.section ≡ [])
        (slots_written
        (relocation_inputs_between local.now target.now functions.now
        section_infos.now) relocations.now.relocations
        ≡ Err (without_texts_at e))) }
{
    let Ok(function_spans) = FunctionSpans::new(alloc, functions, section_infos) else {
        return Err(BtfRelocationError::memory(alloc));
    };
    let walk = RecordWalk {
        function_spans: &function_spans,
        lists: false,
        stops: true,
    };
    match walk_all(alloc, &walk, local, target, relocations.relocations()) {
        Ok(outcomes) => Ok(outcomes.written),
        Err(error) => Err(error),
    }
}

/// Returns the slots of the functions that the CO-RE relocations of an object write, by the functions' keys.
///
/// The instruction of each relocation carries the number that the relocation asks of the target types. The relocations
/// are applied section by section, in their order, each over those before it. The other slots of a function are
/// unchanged.
///
/// # Errors
///
/// The first fault, with the name of its section:
///
/// - `BtfError` in `section@OFFSET`: the section's name can't be read.
/// - `SectionNotFound`: the object has no section of the name.
/// - `FunctionNotFound`: no function of the section has the slot.
/// - The errors of the search for the type, field or enumerator.
/// - `InvalidInstruction`, `InvalidInstructionIndex`: the slot can't carry the outcome.
/// - `OutOfMemory`, with an empty name: an allocation failed.
pub fn relocate_slots(
    alloc: Global,
    functions: &ByKey<Function>,
    section_infos: &ByName<SectionIndex>,
    local: &Btf,
    relocations: &BtfExt,
    target: &Btf,
) -> Result<ByKey<Items<bpf_insn>>, BtfRelocationError>
    ensures slots { IfOk result (λ slots.
        slots_written
        (relocation_inputs_between local.now target.now functions.now section_infos.now)
        relocations.now.relocations
        ≡ Ok slots) }
    ensures fault { IfErr result (λ e.
        MatchBool (is_memory_in_section e) (e.section ≡ [])
        (slots_written
        (relocation_inputs_between local.now target.now functions.now
        section_infos.now) relocations.now.relocations
        ≡ Err (without_texts_at e))) }
    ensures refused { IfErr result (λ e.
        MatchBool (is_memory_in_section e) (e.section ≡ [])
        (RecordsAreRefused
        (relocation_inputs_between local.now target.now functions.now
        section_infos.now) relocations.now.relocations (without_texts_at e))) }
{
    written_slots(alloc, functions, section_infos, local, relocations, target)
}

/// Replaces the slots of a function.
fn set_slots(function: &mut Function, slots: Items<bpf_insn>)
    ensures { function.new ≡ record function.old { instructions = slots } }
{
    function.instructions = slots;
}

/// Replaces the slots of the function at a key, if there is one.
fn set_slots_at(functions: &mut ByKey<Function>, key: (usize, u64), slots: Items<bpf_insn>)
    ensures { functions.new ≡ with_slots_at functions.old key slots (map.get functions.old key) }
{
    let Some(function) = functions.get_mut(key) else {
        return;
    };
    set_slots(function, slots);
}

/// Replaces the slots of functions by those at their keys. No memory is allocated.
pub fn put_slots(functions: &mut ByKey<Function>, written: ByKey<Items<bpf_insn>>)
    ensures { (q : FunctionKey)
        → map.get functions.new q ≡ with_slots (map.get written q) (map.get functions.old q) }
{
    for (key, slots) in written.into_map() {
        set_slots_at(functions, key, slots);
    }
}
