//! The slots at which passes refuse functions, by the outcomes of the passes.

use crate::kernel::Kernel;
use ebpf_object::Object;
use ebpf_object::prepare::{PrepareError, Steps, SymbolText, numbered_descriptors};
use ebpf_outcomes::{MapOutcome, SlotOutcome, extern_outcomes_with, map_outcomes_with};
use std::alloc::Global;

/// The slot of the first refusal of the pass over maps.
fn first_of_maps(outcomes: &[MapOutcome]) -> Option<usize> {
    for outcome in outcomes {
        if outcome.slot.result.is_err() {
            return Some(outcome.slot.slot);
        }
    }
    None
}

/// The slot of the first refusal of the pass that writes externs.
fn first_of_externs(outcomes: &[SlotOutcome]) -> Option<usize> {
    for outcome in outcomes {
        if outcome.result.is_err() {
            return Some(outcome.slot);
        }
    }
    None
}

/// The slot at which one of these steps refuses a function.
fn slot_with(
    alloc: Global,
    object: &Object,
    steps: &Steps<'_>,
    symbols: SymbolText<'_>,
    error: &PrepareError,
) -> Result<Option<usize>, PrepareError> {
    match error {
        PrepareError::Maps(_) => {
            let outcomes = map_outcomes_with(alloc, object, steps)?;
            Ok(first_of_maps(outcomes.as_slice()))
        }
        PrepareError::Externs(_) => {
            let outcomes = extern_outcomes_with(alloc, object, steps, symbols)?;
            Ok(first_of_externs(outcomes.as_slice()))
        }
        _ => Ok(None),
    }
}

/// The slot of its function at which all passes, as `finished_object` makes them, refuse an object with this error; none
/// where the error is not that of a slot.
pub fn refused_slot(
    alloc: Global,
    object: &Object,
    kernel: &Kernel,
    error: &PrepareError,
) -> Result<Option<usize>, PrepareError> {
    let names = object.map_names(alloc)?;
    let descriptors = numbered_descriptors(alloc, names.as_slice())?;
    let steps = Steps::all_with(kernel.types.as_ref(), &descriptors);
    slot_with(alloc, object, &steps, SymbolText(&kernel.symbols), error)
}
