//! The functions of the kernel that functions call.

use ebpf_base::{ByKey, Items, Text};
use ebpf_model::Function;
use ebpf_object::Object;
use ebpf_parts::Relocation;
use ebpf_parts::insn::bpf_insn;
use ebpf_parts::insn::opcodes::CALL;
use std::alloc::{AllocError, Global};
use std::collections::BTreeSet;

/// The slot of a function that an offset into its section is.
fn slot_at(function: &Function, offset: u64) -> usize {
    (offset.saturating_sub(function.section_offset as u64) / bpf_insn::SIZE as u64) as usize
}

/// Whether a slot is a call.
fn is_call(function: &Function, slot: usize) -> bool {
    match function.instructions.get(slot) {
        Some(instruction) => instruction.code == CALL,
        None => false,
    }
}

/// The name of the extern that a relocation refers to.
fn extern_of<'a>(object: &'a Object, relocation: &Relocation) -> Option<&'a Text> {
    let symbol = object.symbol_table.get(relocation.symbol_index)?;
    if !symbol.is_extern() {
        return None;
    }
    symbol.name.as_ref()
}

/// The names of the externs that a function calls.
fn calls_of<'a>(
    alloc: Global,
    object: &'a Object,
    function: &Function,
) -> Result<BTreeSet<&'a str>, AllocError> {
    let mut names = BTreeSet::new(alloc);
    let Some(relocations) = object.relocations.get(function.section_index.0 as u64) else {
        return Ok(names);
    };
    for (offset, relocation) in relocations.from_number(function.section_offset as u64) {
        let slot = slot_at(function, *offset);
        if slot >= function.instructions.len() {
            break;
        }
        let Some(name) = extern_of(object, relocation) else {
            continue;
        };
        if is_call(function, slot) {
            names.insert(name.as_str())?;
        }
    }
    Ok(names)
}

/// Copies of names.
fn texts_of(alloc: Global, names: &BTreeSet<&str>) -> Result<Items<Text>, AllocError> {
    let mut texts = Items::new(alloc);
    for name in names.iter() {
        texts.push(Text::from_str(alloc, name)?)?;
    }
    Ok(texts)
}

/// The names of the functions of the kernel that each function calls, by the functions' keys.
pub fn kernel_calls(alloc: Global, object: &Object) -> Result<ByKey<Items<Text>>, AllocError> {
    let mut all = ByKey::new(alloc);
    for (key, function) in object.functions.iter() {
        let names = calls_of(alloc, object, function)?;
        if names.is_empty() {
            continue;
        }
        all.insert(*key, texts_of(alloc, &names)?)?;
    }
    Ok(all)
}
