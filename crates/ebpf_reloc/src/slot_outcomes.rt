//! The outcomes of the relocations that a pass applies or refuses.

ghost use Rattle.std.specs.FinMap.{empty};
ghost use Rattle.std.specs.Iterator.{IsFinite};
ghost use Rattle.std.specs.Option.{option_to_list};
ghost use Rattle.std.specs.Prelude.{◌≡◌, ◌/◌, ◌<◌, ◌+◌, ◌++◌, ◌*◌, length, unwrap_or, IfOk, OnOk};
ghost use Rattle.ebpf_model.specs.Walks.{walked_relocations, IsBefore};
ghost use Rattle.ebpf_reloc.specs.Passes.{HoldsOfGivenMaps, rule_edit_of};
ghost use Rattle.ebpf_reloc.specs.SlotOutcomes.{extern_outcomes, found_result, map_outcomes, outcome_if, outcomes_of, pending_past, slot_outcomes};
ghost use Rattle.ebpf_reloc.specs.SlotTargets.{read};

use crate::edit::{Edit, Rule, SlotFault};
use crate::externs::ExternRule;
use crate::linkable::Linkable;
use crate::maps::{MapRule, MapTables};
use crate::slots::{Pending, pending_of, pending_slot};
use ebpf_base::{ByIndex, ByKey, ByName, ByOffset, BySection, Items};
use ebpf_model::{ExternDesc, Function, Symbol, Walk};
use ebpf_parts::Relocation;
use ebpf_parts::insn::bpf_insn;
use ebpf_parts::maps::Map;
use std::alloc::{AllocError, Global};

/// The outcome of a relocation that a pass applies or refuses.
#[derive(Clone, Copy)]
pub struct SlotOutcome {
    /// The key of the function: the index of its section, and its address.
    pub key: (usize, u64),
    /// The slot in the function.
    pub slot: usize,
    /// The offset of the relocation in the section, in bytes.
    pub offset: u64,
    /// The relocation.
    pub relocation: Relocation,
    /// What becomes of the slot, or why the relocation can't be applied.
    pub result: Result<Edit, SlotFault>,
}

/// What a relocation at a distance from the first slot makes of the slot that is found there, or why it can't be applied.
fn found_result(
    rule: &Rule<'_>,
    slots: &[bpf_insn],
    pending: Pending,
    distance: u64,
    relocation: Relocation,
) -> Result<Edit, SlotFault>
    requires { distance / 8 < length slots.now }
    ensures { result
        ≡ found_result (rule_edit_of rule.now) slots.now pending distance relocation }
{
    if distance % 8 != 0 {
        return Err(SlotFault::InvalidOffset);
    }
    let at = (distance / 8) as usize;
    let slot = pending_slot(pending, at, slots[at]);
    rule.edit(relocation, slot, at + 1 < slots.len())
}

/// What is pending after a relocation at a distance from the first slot.
fn pending_past(pending: Pending, distance: u64, outcome: Result<Edit, SlotFault>) -> Pending
    ensures { result ≡ pending_past pending distance outcome }
{
    if distance % 8 != 0 {
        return pending;
    }
    match outcome {
        Ok(edit) => pending_of((distance / 8) as usize, edit),
        Err(_) => None,
    }
}

/// Adds the outcome of a relocation, unless it leaves its slot.
fn push_outcome(
    outcomes: &mut Items<SlotOutcome>,
    key: (usize, u64),
    start: u64,
    entry: (u64, Relocation),
    outcome: Result<Edit, SlotFault>,
) -> Result<(), AllocError>
    ensures { OnOk result
        (outcomes.new ≡ outcomes.old ++ option_to_list (outcome_if key start entry outcome)) }
{
    if matches!(outcome, Ok(Edit::Stay)) {
        return Ok(());
    }
    let (offset, relocation) = entry;
    outcomes.push(SlotOutcome {
        key,
        slot: (offset.saturating_sub(start) / 8) as usize,
        offset,
        relocation,
        result: outcome,
    })?;
    Ok(())
}

/// Adds the outcomes of a function. The walk, which has not passed the function, goes on to its end.
fn add_outcomes_of(
    rule: &Rule<'_>,
    walk: &mut Walk<'_>,
    key: (usize, u64),
    function: &Function,
    outcomes: &mut Items<SlotOutcome>,
) -> Result<(), AllocError>
    requires { IsBefore walk.old function.now.section_offset }
    ensures outcomes { OnOk result
        (outcomes.new
        ≡ outcomes.old
        ++ outcomes_of (rule_edit_of rule.now) (unwrap_or (walked_relocations walk.old) empty) key
        function.now) }
    ensures others { walk.new ≡ record walk.old { next = walk.new.next; ahead = walk.new.ahead } }
    ensures before { OnOk result
        (IsBefore walk.new
        (function.now.section_offset + 8 * length function.now.instructions)) }
{
    let slots = function.instructions.as_slice();
    let start = function.section_offset as u64;
    let mut pending = None;
    walk.pass_all(start);
    while let Some((offset, relocation)) = walk.peek() {
        let distance = offset.saturating_sub(start);
        if distance / 8 >= slots.len() as u64 {
            return Ok(());
        }
        let outcome = found_result(rule, slots, pending, distance, relocation);
        pending = pending_past(pending, distance, outcome);
        push_outcome(outcomes, key, start, (offset, relocation), outcome)?;
        walk.pass();
    }
    Ok(())
}

/// The outcomes of the relocations of all functions.
fn slot_outcomes(
    alloc: Global,
    rule: &Rule<'_>,
    relocations: &BySection<ByOffset<Relocation>>,
    functions: &ByKey<Function>,
) -> Result<Items<SlotOutcome>, AllocError>
    ensures { IfOk result (λ outcomes.
        outcomes ≡ slot_outcomes (rule_edit_of rule.now) relocations.now functions.now) }
{
    let mut outcomes = Items::new(alloc);
    let mut walk = Walk::new(relocations);
    for (key, function) in functions.iter() {
        walk.go_to(relocations, function);
        add_outcomes_of(rule, &mut walk, *key, function, &mut outcomes)?;
    }
    Ok(outcomes)
}

/// The outcomes of the relocations that `relocate_maps` applies or refuses, by the functions' keys and then by offset: with
/// `Ok` the slot that a map makes, with `Err` the reason why none does. A slot that refers to no map has none.
///
/// `relocate_maps` refuses the functions exactly where one of these is `Err`, and then for the first. `Err` only where memory
/// was refused.
pub fn map_slot_outcomes<'a, I: Iterator<Item = (&'a str, i32, &'a Map)> + Drop>(
    alloc: Global,
    parts: &Linkable<'_>,
    maps: I,
) -> Result<Items<SlotOutcome>, AllocError>
    requires can { I.can_next maps }
    requires ends { IsFinite (I.remaining maps) }
    ensures { IfOk result (λ outcomes.
        HoldsOfGivenMaps I.next_gives maps (λ given.
        outcomes ≡ map_outcomes (read parts.now) given)) }
{
    let tables = MapTables::gather(alloc, maps)?;
    let rule = Rule::Maps(MapRule {
        symbols: parts.symbols,
        tables: &tables,
        text_sections: parts.text_sections,
    });
    slot_outcomes(alloc, &rule, parts.relocations, parts.functions)
}

/// The outcomes of the relocations that `relocate_externs` applies or refuses, by the functions' keys and then by offset.
///
/// `relocate_externs` refuses the functions exactly where one of these is `Err`, and then for the first. `Err` only where
/// memory was refused.
pub fn extern_slot_outcomes(
    alloc: Global,
    functions: &ByKey<Function>,
    symbols: &ByIndex<Symbol>,
    relocations: &BySection<ByOffset<Relocation>>,
    externs: &ByName<ExternDesc>,
) -> Result<Items<SlotOutcome>, AllocError>
    ensures { IfOk result (λ outcomes.
        outcomes ≡ extern_outcomes symbols.now externs.now relocations.now functions.now) }
{
    let rule = Rule::Externs(ExternRule { symbols, externs });
    slot_outcomes(alloc, &rule, relocations, functions)
}
