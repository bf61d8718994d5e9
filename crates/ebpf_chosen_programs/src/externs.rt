//! The externs that stay.

ghost use Rattle.std.specs.Option.{option_copied};
ghost use Rattle.std.specs.Prelude.{◌≡◌, [], unwrap_or, IfOk, OnOk};
ghost use Rattle.std.specs.FinMap as map;
ghost use Rattle.ebpf_chosen_programs.specs.LeavingOut.{extern_name, extern_names, extern_names_in, kept_externs};
ghost use Rattle.ebpf_chosen_programs.specs.PrivateContracts.{name_set, with_names};

use ebpf_base::{ByIndex, ByName, ByOffset, BySection};
use ebpf_model::{ExternDesc, Symbol};
use ebpf_parts::Relocation;
use std::alloc::{AllocError, Global};

/// A symbol's name, or the empty name.
fn name_of(symbol: &Symbol) -> &str
    ensures { result.now ≡ unwrap_or symbol.now.name [] }
{
    match &symbol.name {
        Some(name) => name.as_str(),
        None => "",
    }
}

/// The name of the extern that a relocation refers to.
fn extern_name(symbols: &ByIndex<Symbol>, relocation: Relocation) -> Option<&str>
    ensures { option_copied result ≡ extern_name symbols.now relocation }
{
    let Some(symbol) = symbols.get(relocation.symbol_index) else {
        return None;
    };
    if !symbol.is_extern() {
        return None;
    }
    Some(name_of(symbol))
}

/// Adds the names of the externs that the relocations of a section refer to.
fn add_names(
    alloc: Global,
    names: &mut ByName<()>,
    symbols: &ByIndex<Symbol>,
    relocations: &ByOffset<Relocation>,
) -> Result<(), AllocError>
    ensures { OnOk result
        (names.new ≡ with_names names.old (extern_names_in symbols.now relocations.now)) }
{
    for (_, relocation) in relocations.iter() {
        let Some(name) = extern_name(symbols, *relocation) else {
            continue;
        };
        names.insert(String::from_str(alloc, name)?, ())?;
    }
    Ok(())
}

/// The names of the externs that relocations refer to.
fn extern_names(
    alloc: Global,
    symbols: &ByIndex<Symbol>,
    relocations: &BySection<ByOffset<Relocation>>,
) -> Result<ByName<()>, AllocError>
    ensures { IfOk result (λ names. names ≡ name_set (extern_names symbols.now relocations.now)) }
{
    let mut names = ByName::new(alloc);
    for (_, table) in relocations.iter() {
        add_names(alloc, &mut names, symbols, table)?;
    }
    Ok(names)
}

/// The externs that stay: those that relocations refer to after others went, and those that none referred to before.
pub fn kept_externs(
    alloc: Global,
    symbols: &ByIndex<Symbol>,
    before: &BySection<ByOffset<Relocation>>,
    after: &BySection<ByOffset<Relocation>>,
    externs: &ByName<ExternDesc>,
) -> Result<ByName<ExternDesc>, AllocError>
    ensures { IfOk result (λ kept.
        kept ≡ kept_externs symbols.now before.now after.now externs.now) }
{
    let referred = extern_names(alloc, symbols, before)?;
    let needed = extern_names(alloc, symbols, after)?;
    let mut kept = ByName::new(alloc);
    for (name, desc) in externs.iter() {
        let stays = needed.contains_key(name) || !referred.contains_key(name);
        if !stays {
            continue;
        }
        kept.insert(name.clone()?, *desc)?;
    }
    Ok(kept)
}
