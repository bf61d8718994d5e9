//! What comes out: slots and records.

use crate::contracts::program_slots;
use ebpf_object::Object;
use ebpf_object::insn::bpf_insn;
use ebpf_object::obj::{Function, bpf_func_info, bpf_line_info};
use std::io;

/// Prints the places of the slots that are poisoned.
fn print_poisoned(rt: &HostRuntime, slots: &[bpf_insn]) -> io::Result<()> {
    for (place, slot) in slots.iter().enumerate() {
        if slot.is_poisoned() {
            println!(rt; "  poisoned: slot {place}")?;
        }
    }
    Ok(())
}

/// Prints the func info records: where each begins, and its type.
fn print_functions(rt: &HostRuntime, records: &[bpf_func_info]) -> io::Result<()> {
    for record in records {
        let slot = record.insn_off;
        let id = record.type_id;
        println!(rt; "  function at slot {slot}, type {id}")?;
    }
    Ok(())
}

/// Prints the number of the line info records, and of the last its slot and line.
fn print_lines(rt: &HostRuntime, records: &[bpf_line_info]) -> io::Result<()> {
    let count = records.len();
    let Some(last) = records.last() else {
        return Ok(());
    };
    let slot = last.insn_off;
    let line = last.line_col / 1024;
    println!(rt; "  lines {count}, the last at slot {slot}: line {line}")
}

/// Prints the slots and records of a program, as BPF_PROG_LOAD takes them.
fn print_function(rt: &HostRuntime, name: &str, function: &Function) -> io::Result<()> {
    let slots = function.instructions.as_slice();
    let count = slots.len();
    println!(rt; "{name}: slots {count}")?;
    print_poisoned(rt, slots)?;
    print_functions(rt, function.func_info.func_info.as_slice())?;
    print_lines(rt, function.line_info.line_info.as_slice())
}

/// Prints the slots and records of each program.
pub fn print_programs(rt: &HostRuntime, object: &Object) -> io::Result<()> {
    for (name, _) in object.programs.iter() {
        if let Some(function) = object.program_function(name.as_str()) {
            print_function(rt, name.as_str(), function)?;
        }
    }
    Ok(())
}

/// Prints the number of slots of each program.
pub fn print_counts(rt: &HostRuntime, object: &Object) -> io::Result<()> {
    for (name, _) in object.programs.iter() {
        if let Some(slots) = program_slots(object, name.as_str()) {
            let count = slots.len();
            println!(rt; "{name}: slots {count}")?;
        }
    }
    Ok(())
}
