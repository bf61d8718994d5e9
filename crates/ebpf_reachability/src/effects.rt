//! What a slot does to the registers (RFC 9669, sections 4 and 5).

ghost use Rattle.std.specs.Prelude.{◌≡◌, ◌+◌, ◌<◌, length};
ghost use Rattle.std.specs.Int.{cast_unsigned, w64};
ghost use Rattle.ebpf_reachability.specs.Effects.{after, arithmetic, calculated, class, decided, destination, byte_swapped, binary_result, wide_load_result, moved, operation, source, stored, takes_register, negation, wide};

use crate::arithmetic::{
    computed_32, computed_64, extended_32, extended_64, low_32, negated_32, negated_64, swapped,
    truncated,
};
use crate::operations::{END, MOV, NEG};
use crate::registers::{Registers, compared_32, compared_64};
use ebpf_parts::insn::bpf_insn;
use ebpf_parts::insn::opcodes::{ALU, ALU64, JMP32, LD, LDX, ST, STX};

fn class(slot: bpf_insn) -> u8
    ensures { result ≡ class slot }
{
    slot.code % 8
}

fn takes_register(slot: bpf_insn) -> bool
    ensures { result ≡ takes_register slot }
{
    slot.code / 8 % 2 == 1
}

fn operation(slot: bpf_insn) -> u8
    ensures { result ≡ operation slot }
{
    slot.code / 16
}

/// The number that an immediate is, sign extended.
fn immediate(imm: i32) -> u64
    ensures { result ≡ cast_unsigned w64 imm }
{
    i64::from(imm).cast_unsigned()
}

/// The second operand.
fn source(slot: bpf_insn, registers: &Registers) -> Option<u64>
    ensures { result ≡ source slot registers.now }
{
    if takes_register(slot) {
        return registers.known(slot.src_reg());
    }
    Some(immediate(slot.imm))
}

fn destination(slot: bpf_insn, registers: &Registers) -> Option<u64>
    ensures { result ≡ destination slot registers.now }
{
    registers.known(slot.dst_reg())
}

/// A number of 32 bits as one of 64.
fn widened(number: Option<u32>) -> Option<u64>
    ensures { result ≡ number }
{
    match number {
        Some(number) => Some(u64::from(number)),
        None => None,
    }
}

/// What two operands give.
fn calculated(slot: bpf_insn, x: u64, y: u64) -> Option<u64>
    ensures { result ≡ calculated slot x y }
{
    if class(slot) == ALU {
        return widened(computed_32(operation(slot), slot.off, low_32(x), low_32(y)));
    }
    computed_64(operation(slot), slot.off, x, y)
}

/// What MOV and MOVSX give.
fn moved(slot: bpf_insn, y: u64) -> Option<u64>
    ensures { result ≡ moved slot y }
{
    if slot.off == 0 {
        return Some(if class(slot) == ALU {
            y % 4294967296
        } else {
            y
        });
    }
    if !takes_register(slot) {
        return None;
    }
    if class(slot) == ALU {
        return widened(extended_32(slot.off, y));
    }
    extended_64(slot.off, y)
}

/// What NEG gives.
fn negation(slot: bpf_insn, x: u64) -> Option<u64>
    ensures { result ≡ negation slot x }
{
    if takes_register(slot) || slot.off != 0 {
        return None;
    }
    if class(slot) == ALU {
        return Some(u64::from(negated_32(low_32(x))));
    }
    Some(negated_64(x))
}

/// What END gives.
fn byte_swapped(slot: bpf_insn, x: u64) -> Option<u64>
    ensures { result ≡ byte_swapped slot x }
{
    if class(slot) == ALU {
        if takes_register(slot) {
            return swapped(slot.imm, x);
        }
        return truncated(slot.imm, x);
    }
    if takes_register(slot) {
        return None;
    }
    swapped(slot.imm, x)
}

/// What operations of two operands give.
fn binary_result(slot: bpf_insn, registers: &Registers) -> Option<u64>
    ensures { result ≡ binary_result slot registers.now }
{
    match (destination(slot, registers), source(slot, registers)) {
        (Some(x), Some(y)) => calculated(slot, x, y),
        _ => None,
    }
}

/// What arithmetic leaves in its destination.
fn arithmetic(slot: bpf_insn, registers: &Registers) -> Option<u64>
    ensures { result ≡ arithmetic slot registers.now }
{
    match operation(slot) {
        MOV => moved(slot, source(slot, registers)?),
        NEG => negation(slot, destination(slot, registers)?),
        END => byte_swapped(slot, destination(slot, registers)?),
        _ => binary_result(slot, registers),
    }
}

/// The registers behind an atomic operation or a plain store.
fn stored(slot: bpf_insn, registers: Registers) -> Registers
    ensures { result ≡ stored slot registers }
{
    if slot.code / 32 != 6 {
        return registers;
    }
    registers
        .forgotten(slot.dst_reg())
        .forgotten(slot.src_reg())
        .forgotten(0)
}

/// The registers behind a slot that goes on to the next one.
pub fn after(slot: bpf_insn, registers: Registers) -> Registers
    ensures { result ≡ after slot registers }
{
    if slot.is_poisoned() {
        return Registers::unknown();
    }
    match class(slot) {
        LD => registers.forgotten(slot.dst_reg()).called(),
        LDX => registers.forgotten(slot.dst_reg()),
        ST => registers,
        STX => stored(slot, registers),
        ALU | ALU64 => registers.learned(slot.dst_reg(), arithmetic(slot, &registers)),
        _ => registers.called(),
    }
}

/// The number that a wide load holds.
fn wide(slot: bpf_insn, second: bpf_insn) -> u64
    ensures { result ≡ wide slot second }
{
    u64::from(slot.imm.cast_unsigned()) + 4294967296 * u64::from(second.imm.cast_unsigned())
}

/// What the wide load at a place leaves in its destination.
pub fn wide_load_result(slots: &[bpf_insn], place: usize, slot: bpf_insn) -> Option<u64>
    requires { place < length slots.now }
    ensures { result ≡ wide_load_result slots.now place slot }
{
    if slot.src_reg() != 0 {
        return None;
    }
    match slots.get(place + 1) {
        Some(second) => Some(wide(slot, *second)),
        None => None,
    }
}

/// How a conditional jump decides, where both operands are known.
pub fn decided(slot: bpf_insn, registers: &Registers) -> Option<bool>
    ensures { result ≡ decided slot registers.now }
{
    let (Some(x), Some(y)) = (destination(slot, registers), source(slot, registers)) else {
        return None;
    };
    if class(slot) == JMP32 {
        return compared_32(operation(slot), low_32(x), low_32(y));
    }
    compared_64(operation(slot), x, y)
}
