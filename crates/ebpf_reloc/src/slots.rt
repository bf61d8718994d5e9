//! Relocations written into the slots of a function, and the first one that can't be applied.

ghost use Rattle.std.specs.FinMap.{empty};
ghost use Rattle.std.specs.Prelude.{◌≡◌, ◌/◌, ◌<◌, length, slice_set, ◌+◌, ◌*◌, ◌^◌, unwrap_or, None, Ok, false, IfOk, OnOk};
ghost use Rattle.ebpf_base.specs.Faults.{fault_of};
ghost use Rattle.ebpf_model.specs.Walks.{walked_relocations, IsBefore};
ghost use Rattle.ebpf_reloc.specs.Passes.{rule_edit_of};
ghost use Rattle.ebpf_reloc.specs.Relocated.{slot_or_zeros, slots_after, edit_of, edit_at, slots_after_edit, slots_after_relocation, first_refusal, pending_slot, pending_of, pending_after, tried};
ghost use Rattle.ebpf_reloc.specs.declared.edit.Edit.TheVariants.{Stay};

use crate::edit::{Edit, Rule, SlotFault, SlotRefusal};
use ebpf_base::ByOffset;
use ebpf_model::{Function, Walk};
use ebpf_parts::Relocation;
use ebpf_parts::insn::bpf_insn;

/// Writes the immediate of a slot, if there is one at that place.
fn write_imm(slots: &mut [bpf_insn], at: usize, imm: i32)
    ensures { slots.new
        ≡ slice_set slots.old at (record (slot_or_zeros slots.old at) { imm = imm }) }
{
    if at < slots.len() {
        slots[at].imm = imm;
    }
}

/// Makes an edit of a slot.
fn apply(slots: &mut [bpf_insn], at: usize, edit: Edit)
    requires { at < length slots.old }
    ensures { slots.new ≡ slots_after_edit slots.old at edit }
{
    match edit {
        Edit::Stay => {}
        Edit::Slot(made) => slots[at] = made,
        Edit::Pair(made, next) => {
            write_imm(slots, at + 1, next);
            slots[at] = made;
        }
    }
}

/// The edit of a slot with a relocation, nothing where it can't be applied.
fn edit_or_stay(rule: &Rule<'_>, relocation: Relocation, slot: bpf_insn, has_next: bool) -> Edit
    ensures { result ≡ edit_of (rule_edit_of rule.now relocation slot has_next) }
{
    match rule.edit(relocation, slot, has_next) {
        Ok(edit) => edit,
        Err(_) => Edit::Stay,
    }
}

/// Writes a relocation at a distance from the first slot.
fn write_one(rule: &Rule<'_>, distance: u64, relocation: Relocation, slots: &mut [bpf_insn])
    requires { distance / 8 < length slots.old }
    ensures { slots.new
        ≡ slots_after_relocation (rule_edit_of rule.now) distance relocation slots.old }
{
    if distance % 8 != 0 {
        return;
    }
    let at = (distance / 8) as usize;
    let edit = edit_or_stay(rule, relocation, slots[at], at + 1 < slots.len());
    apply(slots, at, edit);
}

/// Writes the relocations of a section into the slots of a function that begins at an offset.
#[tactic(auto, using(crate::proofs::Runs::run_makes))]
pub fn write_slots(
    rule: &Rule<'_>,
    start: u64,
    section_relocations: &ByOffset<Relocation>,
    slots: &mut [bpf_insn],
)
    ensures { slots.new
        ≡ slots_after
        (edit_at (rule_edit_of rule.now) section_relocations.now start (length slots.old))
        slots.old }
{
    for (offset, relocation) in section_relocations.from_number(start) {
        let distance = offset.saturating_sub(start);
        if distance / 8 >= slots.len() as u64 {
            break;
        }
        write_one(rule, distance, *relocation, slots);
    }
}

/// A slot's place, and the immediate that the edit of the slot before it leaves there.
pub(crate) type Pending = Option<(usize, i32)>;

/// A slot as it is found.
pub(crate) fn pending_slot(pending: Pending, at: usize, slot: bpf_insn) -> bpf_insn
    ensures { result ≡ pending_slot pending at slot }
{
    match pending {
        Some((place, imm)) if place == at => bpf_insn { imm, ..slot },
        _ => slot,
    }
}

/// What the edit of a slot leaves to be found.
pub(crate) fn pending_of(at: usize, edit: Edit) -> Pending
    requires { at < 2 ^ 63 }
    ensures { result ≡ pending_of at edit }
{
    match edit {
        Edit::Pair(_, next) => Some((at + 1, next)),
        _ => None,
    }
}

/// What a relocation at a distance from the first slot makes of the slot that is found there.
fn edit_of(
    rule: &Rule<'_>,
    slots: &[bpf_insn],
    pending: Pending,
    distance: u64,
    relocation: Relocation,
) -> Result<Edit, SlotFault>
    requires { distance / 8 < length slots.now }
    ensures tried { pending_after (distance / 8) result
        ≡ tried (rule_edit_of rule.now) slots.now pending distance relocation }
    ensures stays { pending ≡ None
        → result ≡ Ok Stay
        → slots_after_relocation (rule_edit_of rule.now) distance relocation slots.now ≡ slots.now }
{
    if distance % 8 != 0 {
        return Err(SlotFault::InvalidOffset);
    }
    let at = (distance / 8) as usize;
    let slot = pending_slot(pending, at, slots[at]);
    rule.edit(relocation, slot, at + 1 < slots.len())
}

/// Whether a relocation of a function edits its slots; else the first one, by offset, that can't be applied. The walk,
/// which has not passed the function, goes on to its end.
#[tactic(auto, using(crate::proofs::Runs::stays_on, crate::proofs::Runs::stays_past, crate::proofs::Runs::stays_all, crate::proofs::Runs::first_scanned))]
pub fn edits_or_refusal(
    rule: &Rule<'_>,
    walk: &mut Walk<'_>,
    function: &Function,
) -> Result<bool, SlotRefusal>
    requires { IsBefore walk.old function.now.section_offset }
    ensures refusal { fault_of result
        ≡ first_refusal (rule_edit_of rule.now) (unwrap_or (walked_relocations walk.old) empty)
        function.now }
    ensures stays { IfOk result (λ edits.
        edits ≡ false
        → slots_after
        (edit_at (rule_edit_of rule.now) (unwrap_or (walked_relocations walk.old) empty)
        function.now.section_offset (length function.now.instructions))
        function.now.instructions
        ≡ function.now.instructions) }
    ensures others { walk.new ≡ record walk.old { next = walk.new.next; ahead = walk.new.ahead } }
    ensures before { OnOk result
        (IsBefore walk.new
        (function.now.section_offset + 8 * length function.now.instructions)) }
{
    let slots = function.instructions.as_slice();
    let start = function.section_offset as u64;
    let mut pending = None;
    let mut edits = false;
    walk.pass_all(start);
    while let Some((offset, relocation)) = walk.peek() {
        let distance = offset.saturating_sub(start);
        if distance / 8 >= slots.len() as u64 {
            return Ok(edits);
        }
        match edit_of(rule, slots, pending, distance, relocation) {
            Ok(edit) => {
                pending = pending_of((distance / 8) as usize, edit);
                edits = edits || !edit.stays();
            }
            Err(fault) => {
                return Err(SlotRefusal {
                    offset,
                    relocation,
                    fault,
                });
            }
        }
        walk.pass();
    }
    Ok(edits)
}
