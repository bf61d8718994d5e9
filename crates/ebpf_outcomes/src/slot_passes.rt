//! The passes over maps and externs, with their outcomes.

ghost use Rattle.std.specs.Prelude.{◌≡◌, IfErr, IfOk};
ghost use Rattle.ebpf_object.specs.Prepared.{IsStageFault, RefusesPreparing};
ghost use Rattle.ebpf_object.specs.Stages.{chosen, descriptors_of};
ghost use Rattle.ebpf_object.specs.UnchangedFields.{KeepsOthers};
ghost use Rattle.ebpf_outcomes.specs.PassOutcomes.{HasSlotRows, if_asked, slot_passes};
ghost use Rattle.ebpf_outcomes.specs.SlotOutcomes.{extern_slots_if, map_slots_if};

use crate::slot_outcomes::{MapOutcome, extern_outcomes_if, map_outcomes_if};
use ebpf_base::Items;
use ebpf_object::Object;
use ebpf_object::prepare::{
    PrepareError, Steps, SymbolSource, resolve, write_externs, write_map_fds,
};
use ebpf_reloc::SlotOutcome;
use std::alloc::{AllocError, Global};

/// The passes over slots whose outcomes are asked for. The others are made without them.
#[derive(Clone, Copy)]
pub struct AskedOutcomes {
    /// Whether those of the pass that writes descriptors of maps are.
    pub maps: bool,
    /// Whether those of the pass that writes externs are.
    pub externs: bool,
}

impl AskedOutcomes {
    /// Neither: the outcomes of the CO-RE relocations and the link maps alone, which the passes give without more work.
    pub const NONE: AskedOutcomes = AskedOutcomes {
        maps: false,
        externs: false,
    };
    /// Both.
    pub const ALL: AskedOutcomes = AskedOutcomes {
        maps: true,
        externs: true,
    };
}

/// The outcomes of the passes over maps and externs.
#[derive(Drop)]
pub struct SlotRows {
    /// Those of the pass that writes descriptors of maps.
    pub maps: Items<MapOutcome>,
    /// Those of the pass that writes externs.
    pub externs: Items<SlotOutcome>,
}

/// The outcomes of writing these descriptors, where they are chosen and asked for.
fn asked_map_outcomes(
    alloc: Global,
    object: &Object,
    descriptors: Option<&[(&str, i32)]>,
    asked: bool,
) -> Result<Items<MapOutcome>, AllocError>
    ensures { IfOk result (λ outcomes.
        outcomes ≡ if_asked asked (map_slots_if (descriptors_of descriptors.entry) object.now)) }
{
    if !asked {
        return Ok(Items::new(alloc));
    }
    map_outcomes_if(alloc, object, descriptors)
}

/// The outcomes of writing externs, where that is chosen and they are asked for.
fn asked_extern_outcomes(
    alloc: Global,
    object: &Object,
    writes: bool,
    asked: bool,
) -> Result<Items<SlotOutcome>, AllocError>
    ensures { IfOk result (λ outcomes.
        outcomes ≡ if_asked asked (extern_slots_if writes object.now)) }
{
    if !asked {
        return Ok(Items::new(alloc));
    }
    extern_outcomes_if(alloc, object, writes)
}

/// Writes the descriptors of the object's own maps, resolves its externs and writes these, each where it is chosen. The
/// outcomes that are asked for come back: those of maps in the object as it is, those of externs once they are resolved.
pub fn write_slots<K: SymbolSource>(
    alloc: Global,
    object: &mut Object,
    steps: &Steps<'_>,
    asked: AskedOutcomes,
    kallsyms: K,
) -> Result<SlotRows, PrepareError>
    ensures rows { IfOk result
        (HasSlotRows (chosen steps.now) asked (K.source kallsyms) object.old object.new) }
    ensures fault { IfErr result
        (RefusesPreparing
        (IsStageFault (slot_passes (chosen steps.now)) (K.source kallsyms) object.old)) }
    ensures others_stay { KeepsOthers object.old object.new }
{
    let maps = asked_map_outcomes(alloc, object, steps.map_fds, asked.maps)?;
    write_map_fds(alloc, object, steps.map_fds)?;
    resolve(object, steps.externs, kallsyms)?;
    let externs = asked_extern_outcomes(alloc, object, steps.externs.is_some(), asked.externs)?;
    write_externs(object, steps.externs)?;
    Ok(SlotRows { maps, externs })
}
