//! What slots refer to.

ghost use Rattle.std.specs.Prelude.{◌≡◌, ◌+◌, ◌*◌, ◌%◌, ◌^◌, pos, ◌+ℤ◌, ◌*ℤ◌};
ghost use Rattle.ebpf_model.specs.Symbols.{text_sections_in};
ghost use Rattle.ebpf_reloc.specs.SlotTargets.{modulo, is_usable, reference_address, symbol_target, relocated_target, own_target, callback_target, read};

use crate::linkable::Linkable;
use ebpf_elf::SymbolKind;
use ebpf_model::{Function, Symbol};
use ebpf_parts::Relocation;
use ebpf_parts::insn::bpf_insn;
use std::collections::HashSet;

/// What a slot refers to.
#[derive(Clone, Copy)]
pub enum SlotTarget {
    /// Nowhere: the slot is no reference.
    Absent,
    /// A symbol that names no function, by its index.
    Unsupported(usize),
    /// An address in a section.
    At(usize, u64),
}

/// An address so many bytes further, modulo 2 ^ 64.
#[tactic(auto, using(crate::proofs::Modulo::wrapped_sum))]
fn moved_address(address: u64, bytes: i64) -> u64
    ensures { result ≡ modulo (pos address +ℤ bytes) }
{
    address.wrapping_add_signed(bytes)
}

/// The bytes from a slot with this immediate to the slot that it calls.
fn distance(imm: i32) -> i64
    ensures { result ≡ (imm +ℤ pos 1) *ℤ pos 8 }
{
    (i64::from(imm) + 1) * 8
}

/// Whether a relocation to a symbol says what a slot refers to: it names a function, or it is in a
/// section of functions. An extern is neither.
fn is_usable(symbol: &Symbol, text_sections: &HashSet<usize>) -> bool
    ensures { result ≡ is_usable (text_sections_in text_sections.now) symbol.now }
{
    if matches!(symbol.kind, SymbolKind::Text) {
        return true;
    }
    match symbol.section_index {
        Some(section) => text_sections.contains(&section),
        None => false,
    }
}

/// The address that a relocation of this size refers to, by its symbol and the slot's immediate.
fn reference_address(symbol: &Symbol, size: u8, imm: i32) -> Option<u64>
    ensures { result ≡ reference_address symbol.now size imm }
{
    match symbol.kind {
        SymbolKind::Text => Some(symbol.address),
        SymbolKind::Section if size == 32 => Some(moved_address(symbol.address, distance(imm))),
        SymbolKind::Section if size == 64 => Some(moved_address(symbol.address, i64::from(imm))),
        _ => None,
    }
}

/// What a relocation of this size refers to, by its symbol and the slot's immediate.
fn symbol_target(symbol: &Symbol, size: u8, imm: i32) -> SlotTarget
    ensures { result ≡ symbol_target symbol.now size imm }
{
    let Some(section) = symbol.section_index else {
        return SlotTarget::Unsupported(symbol.index);
    };
    match reference_address(symbol, size, imm) {
        Some(address) => SlotTarget::At(section, address),
        None => SlotTarget::Unsupported(symbol.index),
    }
}

/// What a relocation refers to, if it is usable, by the slot's immediate.
pub fn relocated_target(
    parts: &Linkable<'_>,
    imm: i32,
    relocation: Option<Relocation>,
) -> Option<SlotTarget>
    ensures { result ≡ relocated_target (read parts.now) imm relocation }
{
    let Some(relocation) = relocation else {
        return None;
    };
    let Some(symbol) = parts.symbols.get(relocation.symbol_index) else {
        return None;
    };
    if !is_usable(symbol, parts.text_sections) {
        return None;
    }
    Some(symbol_target(symbol, relocation.size, imm))
}

/// The offset of a slot in its section, modulo 2 ^ 64.
fn wrapped_offset(function: &Function, slot: usize) -> u64
    ensures { result ≡ (function.now.section_offset + 8 * slot) % 2 ^ 64 }
{
    (slot as u64)
        .wrapping_mul(8)
        .wrapping_add(function.section_offset as u64)
}

/// What a slot of a function refers to by itself.
#[tactic(auto, using(crate::proofs::Modulo::modulo_from))]
pub fn own_target(function: &Function, slot: usize, instruction: bpf_insn) -> SlotTarget
    ensures { result ≡ own_target function.now slot instruction }
{
    if !instruction.is_pseudo_call() {
        return SlotTarget::Absent;
    }
    let address = moved_address(wrapped_offset(function, slot), distance(instruction.imm));
    SlotTarget::At(function.section_index.0, address)
}

/// What a function refers to behind its last slot: its exception callback.
pub fn callback_target(parts: &Linkable<'_>, function: &Function) -> SlotTarget
    ensures { result ≡ callback_target (read parts.now) function.now }
{
    let key = (function.section_index.0, function.address);
    match parts.callbacks.get(key) {
        Some(callback) => SlotTarget::At(callback.0, callback.1),
        None => SlotTarget::Absent,
    }
}
