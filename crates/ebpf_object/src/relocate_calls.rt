//! Linking the programs of an object with the functions that they reach.

ghost use Rattle.std.specs.Prelude.{◌≡◌, ◌++◌, ⊤, IfOk, IfErr, OnOk, OnErr, MatchBool, Some, if◌then◌else◌};
ghost use Rattle.std.specs.FinMap as map;
ghost use Rattle.std.specs.List.{flat_map};
ghost use Rattle.std.specs.Ordering.{eq_by_cmp};
ghost use Rattle.ebpf_base.specs.Maps.{key_cmp, lent_bytes};
ghost use Rattle.ebpf_object.specs.LinkedPrograms.{linkable_of, programs_in_order, ProgramsAreLinked, replaced};
ghost use Rattle.ebpf_object.specs.PrivateContracts.{program_with};
ghost use Rattle.ebpf_reloc.specs.Linking.{AreLinked, IsFirstRefusal};
ghost use Rattle.ebpf_model.specs.Symbols.{FunctionKey, text_sections_in};
ghost use Rattle.ebpf_model.specs.Memory.{is_memory_at, NamesNoneForMemory};

use crate::object::Object;
use ebpf_base::{ByKey, ByName};
use ebpf_model::{EbpfRelocationError, Function, Program};
use ebpf_reloc::{Linkable, ProgramKey, relocate_calls};
use std::alloc::{AllocError, Global};
use std::collections::HashSet;

/// Adds the program with a name, if there is one.
fn add_named<'a>(
    keys: &mut Vec<ProgramKey<'a>>,
    programs: &'a ByName<Program>,
    name: &'a str,
) -> Result<(), AllocError>
    ensures { OnOk result (keys.new.items ≡ keys.old.items ++ program_with programs.now name.now) }
{
    let Some(program) = programs.get(name) else {
        return Ok(());
    };
    keys.push(ProgramKey {
        name,
        section_index: program.section_index,
        address: program.address,
    })?;
    Ok(())
}

/// The programs with these names, with the keys of their functions.
#[tactic(auto, using(crate::proofs::ProgramNames::one_name, ebpf_base::proofs::Lists::rest_none))]
fn programs_named<'a>(
    alloc: Global,
    programs: &'a ByName<Program>,
    names: &[&'a str],
) -> Result<Vec<ProgramKey<'a>>, AllocError>
    ensures { IfOk result (λ keys.
        keys.items ≡ flat_map (program_with programs.now) (lent_bytes names.now)) }
{
    let mut keys = Vec::with_capacity(alloc, names.len())?;
    for name in names {
        add_named(&mut keys, programs, name)?;
    }
    Ok(keys)
}

/// The programs with the keys of their functions, in byte order of names.
/// `AllocError` where no memory is found.
pub fn programs_in_order<'a>(
    alloc: Global,
    programs: &'a ByName<Program>,
) -> Result<Vec<ProgramKey<'a>>, AllocError>
    ensures { IfOk result (λ keys. keys.items ≡ programs_in_order programs.now) }
{
    let names = programs.names(alloc)?;
    programs_named(alloc, programs, &names)
}

/// Puts a function in the place of the one at a key.
fn take_place(functions: &mut ByKey<Function>, key: (usize, u64), function: Function)
    ensures { (q : FunctionKey)
        → map.get functions.new q
        ≡ (if eq_by_cmp key_cmp q key
        then replaced (map.get functions.old q) (Some function)
        else map.get functions.old q) }
{
    let _before = functions.replace(key, function);
}

/// Puts functions in the places of those at their keys. One whose key has no function is dropped. No memory is taken.
pub fn take_places(functions: &mut ByKey<Function>, linked: ByKey<Function>)
    ensures { (q : FunctionKey)
        → map.get functions.new q ≡ replaced (map.get functions.old q) (map.get linked q) }
{
    for (key, function) in linked.into_map() {
        take_place(functions, key, function);
    }
}

impl Object {
    /// The functions of its programs, each linked with those that it reaches.
    fn linked_programs(
        &self,
        text_sections: &HashSet<usize>,
    ) -> Result<ByKey<Function>, EbpfRelocationError>
        ensures linked { IfOk result (λ linked.
            AreLinked (linkable_of self.now (text_sections_in text_sections.now))
            (programs_in_order self.now.programs) linked) }
        ensures fault { IfErr result (λ e.
            MatchBool (is_memory_at e) ⊤
            (IsFirstRefusal (linkable_of self.now (text_sections_in text_sections.now))
            (programs_in_order self.now.programs) e)) }
        ensures memory { IfErr result NamesNoneForMemory }
    {
        let alloc = self.allocator();
        let Ok(programs) = programs_in_order(alloc, &self.programs) else {
            return Err(EbpfRelocationError::memory(alloc));
        };
        let parts = Linkable {
            functions: &self.functions,
            symbols: &self.symbol_table,
            relocations: &self.relocations,
            text_sections,
            callbacks: &self.exception_callbacks,
        };
        relocate_calls(alloc, &programs, &parts)
    }

    /// Links each program with every function that its references reach: its slots, and then the slots of those
    /// functions, each once, in the order of their key paths, which are the least paths of slots to them on which
    /// no function occurs twice. Each reference holds the distance to its copy, and func info and line
    /// info move with their copies. `text_sections` has the indices of the sections whose symbols are functions.
    /// An exception callback counts as a reference behind the last slot of the program's function. Every program is linked
    /// from the functions as they stand before; functions that are no program's stay.
    ///
    /// # Errors
    ///
    /// The least fault of the first program by name that has one, with that name: `UnknownProgram` where it has no
    /// function; else, at the slot with the least path (depth first), `UnsupportedTextSymbol`, `UnknownFunction`,
    /// `FunctionInfoMismatch`, `ProgramTooLong` past 2,147,483,647 slots, `InvalidLineInfo`. `OutOfMemory`, with the
    /// empty name, only if an allocation failed. On error the object is unchanged.
    pub fn relocate_calls(
        &mut self,
        text_sections: &HashSet<usize>,
    ) -> Result<(), EbpfRelocationError>
        ensures functions { OnOk result
            (ProgramsAreLinked (linkable_of self.old (text_sections_in text_sections.now))
            (programs_in_order self.old.programs) self.new.functions) }
        ensures fault { IfErr result (λ e.
            MatchBool (is_memory_at e) ⊤
            (IsFirstRefusal (linkable_of self.old (text_sections_in text_sections.now))
            (programs_in_order self.old.programs) e)) }
        ensures memory { IfErr result NamesNoneForMemory }
        ensures others_stay { self.new ≡ record self.old { functions = self.new.functions } }
        ensures unchanged { OnErr result (self.new ≡ self.old) }
    {
        match self.linked_programs(text_sections) {
            Ok(linked) => {
                take_places(&mut self.functions, linked);
                Ok(())
            }
            Err(error) => Err(error),
        }
    }
}
