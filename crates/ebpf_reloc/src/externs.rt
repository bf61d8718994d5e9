//! The pass that writes externs.

ghost use Rattle.std.specs.Prelude.{◌≡◌, ◌<◌, [], Some, unwrap_or, true, OnOk, OnErr, IfErr};
ghost use Rattle.ebpf_base.specs.Faults.{Refuses};
ghost use Rattle.ebpf_base.specs.Maps.{map_values};
ghost use Rattle.ebpf_model.specs.Memory.{is_memory_at};
ghost use Rattle.ebpf_reloc.specs.Passes.{kernel_call, absent_call, call_edit, load_of, edit_of_load, load_edit, declared_extern_edit, extern_edit, extern_inputs, externs_written, extern_fault};
ghost use Rattle.ebpf_reloc.specs.Relocated.{out_of_memory};

use crate::edit::{Edit, Rule, SlotFault};
use crate::functions::relocate;
use crate::maps::with_source;
use ebpf_base::{ByIndex, ByKey, ByName, ByOffset, BySection};
use ebpf_model::{EbpfRelocationError, ExternDesc, Function, Symbol};
use ebpf_parts::Relocation;
use ebpf_parts::insn::bpf_insn;
use ebpf_parts::insn::opcodes::{
    ABSENT_KFUNC, BPF_PSEUDO_BTF_ID, BPF_PSEUDO_KFUNC_CALL, CALL, LD_IMM64,
};
use std::alloc::Global;

/// What is read to write the kernel's ids and addresses.
#[derive(Clone, Copy)]
pub struct ExternRule<'a> {
    /// The symbols by their index.
    pub symbols: &'a ByIndex<Symbol>,
    /// The externs by name.
    pub externs: &'a ByName<ExternDesc>,
}

/// What a load takes from an extern.
#[derive(Clone, Copy)]
pub enum ExternLoad {
    /// The id of the kernel's type of it.
    Id(u32),
    /// Its address in the kernel.
    Address(u64),
}

/// The numbers of 32 bits.
const BITS: u64 = 0x1_0000_0000;

/// A call of a kernel function by its id.
fn kernel_call(slot: bpf_insn, id: u32) -> bpf_insn
    ensures { result ≡ kernel_call slot id }
{
    bpf_insn {
        regs: BPF_PSEUDO_KFUNC_CALL * 16 + slot.dst_reg(),
        off: 0,
        imm: id.cast_signed(),
        ..slot
    }
}

/// A call of nothing, which tells its symbol.
fn absent_call(slot: bpf_insn, symbol: usize) -> bpf_insn
    ensures { result ≡ absent_call slot symbol }
{
    let low = symbol as u64 % BITS;
    let number = (u64::from(ABSENT_KFUNC) + low) % BITS;
    bpf_insn {
        regs: 0,
        off: 0,
        imm: (number as u32).cast_signed(),
        ..slot
    }
}

/// What a call of an extern becomes.
fn call_edit(desc: &ExternDesc, symbol: usize, slot: bpf_insn) -> Result<Edit, SlotFault>
    ensures { result ≡ call_edit desc.now symbol slot }
{
    if !desc.is_resolved {
        if desc.is_weak {
            return Ok(Edit::Slot(absent_call(slot, symbol)));
        }
        return Err(SlotFault::UnresolvableSymbol);
    }
    match desc.kernel_btf_id {
        Some(id) => Ok(Edit::Slot(kernel_call(slot, id))),
        None => Err(SlotFault::UnresolvableSymbol),
    }
}

/// What a load takes from an extern.
fn load_of(desc: &ExternDesc) -> Option<ExternLoad>
    ensures { result ≡ load_of desc.now }
{
    if let Some(id) = desc.kernel_btf_id {
        return Some(ExternLoad::Id(id));
    }
    match desc.ksym_addr {
        Some(address) => Some(ExternLoad::Address(address)),
        None if desc.is_weak => Some(ExternLoad::Address(0)),
        None => None,
    }
}

/// What a load of an id or an address becomes.
fn edit_of_load(load: ExternLoad, slot: bpf_insn) -> Edit
    ensures { result ≡ edit_of_load load slot }
{
    match load {
        ExternLoad::Id(id) => Edit::Pair(with_source(slot, BPF_PSEUDO_BTF_ID, id.cast_signed()), 0),
        ExternLoad::Address(address) => {
            let low = ((address % BITS) as u32).cast_signed();
            let high = ((address / BITS) as u32).cast_signed();
            Edit::Pair(with_source(slot, 0, low), high)
        }
    }
}

/// What a load of an extern becomes.
fn load_edit(desc: &ExternDesc, slot: bpf_insn, has_next: bool) -> Result<Edit, SlotFault>
    ensures { result ≡ load_edit (load_of desc.now) slot has_next }
{
    let Some(load) = load_of(desc) else {
        return Err(SlotFault::UnresolvableSymbol);
    };
    if !has_next {
        return Err(SlotFault::InvalidOffset);
    }
    Ok(edit_of_load(load, slot))
}

/// What an extern makes of a slot that refers to it.
fn declared_extern_edit(
    desc: &ExternDesc,
    symbol: usize,
    slot: bpf_insn,
    has_next: bool,
) -> Result<Edit, SlotFault>
    ensures { result ≡ declared_extern_edit (Some desc.now) symbol slot has_next }
{
    match slot.code {
        CALL => call_edit(desc, symbol, slot),
        LD_IMM64 => load_edit(desc, slot, has_next),
        _ => Err(SlotFault::InvalidOffset),
    }
}

/// A symbol's name, empty where it has none.
pub fn name_of(symbol: &Symbol) -> &str
    ensures { result.now ≡ unwrap_or symbol.now.name [] }
{
    match &symbol.name {
        Some(name) => name.as_str(),
        None => "",
    }
}

/// What a relocation makes of a slot, by the externs.
pub fn extern_edit(
    rule: &ExternRule<'_>,
    relocation: Relocation,
    slot: bpf_insn,
    has_next: bool,
) -> Result<Edit, SlotFault>
    ensures { result ≡ extern_edit (extern_inputs rule.now) relocation slot has_next }
{
    let Some(symbol) = rule.symbols.get(relocation.symbol_index) else {
        return Err(SlotFault::UnknownSymbol);
    };
    if !symbol.is_extern() {
        return Ok(Edit::Stay);
    }
    match rule.externs.get(name_of(symbol)) {
        Some(desc) => declared_extern_edit(desc, relocation.symbol_index, slot, has_next),
        None => Err(SlotFault::ExternNotFound),
    }
}

/// Writes the ids and addresses of resolved externs into the slots that refer to them. `externs` has them by the names of their
/// symbols.
///
/// A call, code 0x85, of a resolved extern with an id of the kernel gets source 2, the id and offset 0; one of a weak
/// extern that is not resolved gets no registers, offset 0 and the immediate 2,002,000,000 plus the symbol's index,
/// modulo 2^32. A load of 64 bits, code 0x18, gets the id with source 3, and 0 in the slot after it; without an id
/// the address with source 0, its low half in the slot and its high half in the one after it; without both, where the
/// extern is weak, the address 0. Relocations to other symbols are passed over. All else stays.
///
/// # Errors
///
/// Those of the first function by its key, and of its first relocation by offset, that can't be applied, with the
/// function's name: `InvalidRelocationOffset` where it does not stand at the beginning of a slot; `UnknownSymbol`;
/// `ExternNotFound` where no extern has the symbol's name; `UnresolvableSymbol` where what the slot needs is not
/// known; `InvalidRelocationOffset` for another code, and for a load where no slot comes after it. `OutOfMemory` only
/// where memory was refused. After an error the functions are as they were.
pub fn relocate_externs(
    alloc: Global,
    functions: &mut ByKey<Function>,
    symbols: &ByIndex<Symbol>,
    relocations: &BySection<ByOffset<Relocation>>,
    externs: &ByName<ExternDesc>,
) -> Result<(), EbpfRelocationError>
    ensures ok { OnOk result
        (functions.new
        ≡ map_values (externs_written symbols.now externs.now relocations.now) functions.old) }
    ensures fault { Refuses is_memory_at result
        (extern_fault symbols.now externs.now relocations.now functions.old) }
    ensures memory { IfErr result (λ e. is_memory_at e ≡ true → e ≡ out_of_memory) }
    ensures err { OnErr result (functions.new ≡ functions.old) }
{
    let rule = Rule::Externs(ExternRule { symbols, externs });
    relocate(alloc, &rule, relocations, functions)
}
