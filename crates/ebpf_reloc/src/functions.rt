//! A pass over the functions of an object, and its errors.

ghost use Rattle.std.specs.FinMap as map;
ghost use Rattle.std.specs.Prelude.{◌≡◌, IfOk, MatchBool, unwrap_or, [], true, false, OnOk, OnErr, IfErr};
ghost use Rattle.ebpf_base.specs.Faults.{Refuses};
ghost use Rattle.ebpf_base.specs.Maps.{map_values};
ghost use Rattle.ebpf_model.specs.Memory.{is_memory_at};
ghost use Rattle.ebpf_model.specs.Walks.{IsWithinFunction};
ghost use Rattle.ebpf_reloc.specs.Passes.{rule_edit_of, rule_symbols};
ghost use Rattle.ebpf_reloc.specs.Relocated.{number_of, symbol_name_of, error_of, out_of_memory, relocated, function_fault, first_fault};

use crate::edit::{Rule, SlotFault, SlotRefusal};
use crate::slots::{edits_or_refusal, write_slots};
use ebpf_base::{ByIndex, ByKey, ByOffset, BySection, Text};
use ebpf_model::{EbpfRelocationError, Function, RelocationError, Symbol, Walk};
use ebpf_parts::Relocation;
use std::alloc::{AllocError, Global};

/// The number of a relocation among those of its section, by its offset.
fn number_of(section_relocations: &ByOffset<Relocation>, offset: u64) -> usize
    ensures { result ≡ number_of section_relocations.now offset }
{
    let mut number = 0;
    for (before, _) in section_relocations.iter() {
        if *before < offset {
            number += 1;
        }
    }
    number
}

/// A copy of a symbol's name.
fn symbol_name_of(symbols: &ByIndex<Symbol>, symbol: usize) -> Result<Option<Text>, AllocError>
    ensures { IfOk result (λ name. name ≡ symbol_name_of (map.get symbols.now symbol)) }
{
    let Some(found) = symbols.get(symbol) else {
        return Ok(None);
    };
    match &found.name {
        Some(name) => Ok(Some(name.clone()?)),
        None => Ok(None),
    }
}

/// A copy of a symbol's name, empty where it has none.
fn text_of(alloc: Global, symbols: &ByIndex<Symbol>, symbol: usize) -> Result<Text, AllocError>
    ensures { IfOk result (λ name.
        name ≡ unwrap_or (symbol_name_of (map.get symbols.now symbol)) []) }
{
    match symbol_name_of(symbols, symbol)? {
        Some(name) => Ok(name),
        None => Ok(Text::empty(alloc)),
    }
}

/// The error of a relocation that can't be applied.
fn error_of(
    alloc: Global,
    symbols: &ByIndex<Symbol>,
    section_relocations: &ByOffset<Relocation>,
    refusal: SlotRefusal,
) -> Result<RelocationError, AllocError>
    ensures { IfOk result (λ error. error ≡ error_of symbols.now section_relocations.now refusal) }
{
    let offset = refusal.offset;
    let symbol = refusal.relocation.symbol_index;
    match refusal.fault {
        SlotFault::UnknownSymbol => Ok(RelocationError::UnknownSymbol { index: symbol }),
        SlotFault::InvalidOffset => Ok(RelocationError::InvalidRelocationOffset {
            offset,
            relocation_number: number_of(section_relocations, offset),
        }),
        SlotFault::SectionNotFound(section_index) => Ok(RelocationError::SectionNotFound {
            section_index,
            symbol_index: symbol,
            symbol_name: symbol_name_of(symbols, symbol)?,
        }),
        SlotFault::MapAddressOverflow => Ok(RelocationError::MapAddressOverflow { offset }),
        SlotFault::ExternNotFound => Ok(RelocationError::ExternNotFound {
            name: text_of(alloc, symbols, symbol)?,
        }),
        SlotFault::UnresolvableSymbol => Ok(RelocationError::UnresolvableSymbol {
            name: text_of(alloc, symbols, symbol)?,
        }),
    }
}

/// The error of a function with a relocation that can't be applied, or out of memory for its texts.
pub fn refused(
    alloc: Global,
    symbols: &ByIndex<Symbol>,
    section_relocations: &ByOffset<Relocation>,
    function: &Function,
    refusal: SlotRefusal,
) -> EbpfRelocationError
    ensures error { MatchBool (is_memory_at result) (result ≡ out_of_memory)
        (result
        ≡ record {
          function = function.now.name;
          error = error_of symbols.now section_relocations.now refusal;
        }) }
{
    let copy: Result<Text, AllocError> = function.name.clone();
    let Ok(name) = copy else {
        return EbpfRelocationError::memory(alloc);
    };
    let Ok(error) = error_of(alloc, symbols, section_relocations, refusal) else {
        return EbpfRelocationError::memory(alloc);
    };
    EbpfRelocationError {
        function: name,
        error,
    }
}

/// Refuses for the first relocation of a function that can't be applied; else tells whether one of them edits a slot. The
/// walk goes on to the function, and to its end.
#[tactic(auto, unfolding(crate::specs::Relocated::relocated), using(crate::proofs::Runs::stays, crate::proofs::Runs::no_fault))]
fn check_function<'a>(
    alloc: Global,
    rule: &Rule<'_>,
    relocations: &'a BySection<ByOffset<Relocation>>,
    walk: &mut Walk<'a>,
    function: &Function,
) -> Result<bool, EbpfRelocationError>
    requires { IsWithinFunction relocations.now walk.old }
    ensures stays { IfOk result (λ edits.
        edits ≡ false
        → relocated (rule_edit_of rule.now) relocations.now function.now ≡ function.now) }
    ensures fault { Refuses is_memory_at result
        (function_fault (rule_edit_of rule.now) (rule_symbols rule.now) relocations.now
        function.now) }
    ensures memory { IfErr result (λ e. is_memory_at e ≡ true → e ≡ out_of_memory) }
    ensures ready { OnOk result (IsWithinFunction relocations.now walk.new) }
{
    walk.go_to(relocations, function);
    let Some(section_relocations) = walk.section_relocations() else {
        return Ok(false);
    };
    match edits_or_refusal(rule, walk, function) {
        Ok(edits) => Ok(edits),
        Err(refusal) => Err(refused(
            alloc,
            rule.symbols(),
            section_relocations,
            function,
            refusal,
        )),
    }
}

/// Refuses for the first function, by its key, with a relocation that can't be applied; else tells whether a relocation
/// of one of them edits a slot.
#[tactic(auto, unfolding(crate::specs::Relocated::first_fault), using(crate::proofs::Runs::one_stays, crate::proofs::Runs::all_stay))]
fn check_functions(
    alloc: Global,
    rule: &Rule<'_>,
    relocations: &BySection<ByOffset<Relocation>>,
    functions: &ByKey<Function>,
) -> Result<bool, EbpfRelocationError>
    ensures stay { IfOk result (λ edits.
        edits ≡ false
        → map_values (relocated (rule_edit_of rule.now) relocations.now) functions.now
        ≡ functions.now) }
    ensures fault { Refuses is_memory_at result
        (first_fault (rule_edit_of rule.now) (rule_symbols rule.now) relocations.now
        functions.now) }
    ensures memory { IfErr result (λ e. is_memory_at e ≡ true → e ≡ out_of_memory) }
{
    let mut edits = false;
    let mut walk = Walk::new(relocations);
    for (_, function) in functions.iter() {
        let edited = check_function(alloc, rule, relocations, &mut walk, function)?;
        edits = edits || edited;
    }
    Ok(edits)
}

/// Writes the relocations of a function.
#[tactic(auto, unfolding(crate::specs::Relocated::relocated), using(crate::proofs::Runs::stays))]
fn write_function(
    rule: &Rule<'_>,
    relocations: &BySection<ByOffset<Relocation>>,
    function: &mut Function,
)
    ensures { function.new ≡ relocated (rule_edit_of rule.now) relocations.now function.old }
{
    let Some(section_relocations) = relocations.get(function.section_index.0 as u64) else {
        return;
    };
    let start = function.section_offset as u64;
    let slots = function.instructions.as_vec_mut().as_mut_slice();
    write_slots(rule, start, section_relocations, slots);
}

/// Writes the relocations of all functions, or of none where one of them can't be applied.
pub fn relocate(
    alloc: Global,
    rule: &Rule<'_>,
    relocations: &BySection<ByOffset<Relocation>>,
    functions: &mut ByKey<Function>,
) -> Result<(), EbpfRelocationError>
    ensures ok { OnOk result
        (functions.new
        ≡ map_values (relocated (rule_edit_of rule.now) relocations.now) functions.old) }
    ensures fault { Refuses is_memory_at result
        (first_fault (rule_edit_of rule.now) (rule_symbols rule.now) relocations.now
        functions.old) }
    ensures memory { IfErr result (λ e. is_memory_at e ≡ true → e ≡ out_of_memory) }
    ensures err { OnErr result (functions.new ≡ functions.old) }
{
    if !check_functions(alloc, rule, relocations, functions)? {
        return Ok(());
    }
    functions.write_values(|function| write_function(rule, relocations, function));
    Ok(())
}
