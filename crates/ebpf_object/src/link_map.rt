//! The link maps of an object's programs.

ghost use Rattle.std.specs.Prelude.{◌≡◌, true, IfOk, IfErr, ⊤, MatchBool, MatchOption, Ok, None};
ghost use Rattle.std.specs.FinMap as map;
ghost use Rattle.ebpf_object.specs.LinkedPrograms.{linkable_of, program_value, MapsProgram};
ghost use Rattle.ebpf_reloc.specs.Linking.{IsLinkMapAt, key_of, IsProgramRefusal};
ghost use Rattle.ebpf_model.specs.Memory.{is_memory_at, NamesNoneForMemory};
ghost use Rattle.ebpf_model.specs.Symbols.{text_sections_in};
ghost use Rattle.ebpf_reloc.specs.SlotTargets.{read};

use crate::object::Object;
use ebpf_model::{EbpfRelocationError, Program};
use ebpf_reloc::{LinkMap, Linkable, NumberedFunctions, ProgramKey, number_functions};
use std::collections::HashSet;

/// An object whose functions have numbers, for the link maps of its programs.
#[derive(Drop)]
pub struct ProgramMaps<'a> {
    /// The object.
    pub object: &'a Object,
    /// The object's functions, with their calls.
    pub functions: NumberedFunctions<'a>,
}

impl ProgramMaps<'_> {
    /// The link map of a program with this name.
    fn map_of(&self, name: &str, program: &Program) -> Result<LinkMap, EbpfRelocationError>
        ensures mapped { IfOk result (λ m.
            IsLinkMapAt (read self.now.functions.parts)
            (key_of (program_value name.now program.now)) m) }
        ensures fault { IfErr result (λ e.
            MatchBool (is_memory_at e) ⊤
            (IsProgramRefusal (read self.now.functions.parts)
            (program_value name.now program.now) e)) }
        ensures memory { IfErr result NamesNoneForMemory }
    {
        let alloc = self.object.allocator();
        let key = ProgramKey {
            name,
            section_index: program.section_index,
            address: program.address,
        };
        self.functions.program_link_map(alloc, &key)
    }

    /// Returns the link map of the program with this name, as `Object::link_map` does.
    ///
    /// # Errors
    ///
    /// The errors of `Object::link_map`.
    pub fn of(&self, name: &str) -> Result<Option<LinkMap>, EbpfRelocationError>
        ensures program { MatchOption (map.get self.now.object.now.programs name.now)
            (result ≡ Ok None) (λ p.
            MapsProgram (read self.now.functions.parts) (program_value name.now p) result) }
        ensures memory { IfErr result NamesNoneForMemory }
    {
        let Some(program) = self.object.programs.get(name) else {
            return Ok(None);
        };
        match self.map_of(name, program) {
            Ok(map) => Ok(Some(map)),
            Err(error) => Err(error),
        }
    }
}

impl Object {
    /// Returns the object with numbers for its functions, for the link maps of several programs.
    ///
    /// The calls of the functions are found once for all programs. `text_sections` holds the indices of the sections
    /// whose symbols are functions.
    ///
    /// # Errors
    ///
    /// - `OutOfMemory`, with an empty name: an allocation failed.
    pub fn program_maps<'a>(
        &'a self,
        text_sections: &'a HashSet<usize>,
    ) -> Result<ProgramMaps<'a>, EbpfRelocationError>
        ensures object { IfOk result (λ m. m.object.now ≡ self.now) }
        ensures parts { IfOk result (λ m.
            read m.functions.parts
            ≡ linkable_of self.now (text_sections_in text_sections.now)) }
        ensures memory { IfErr result (λ e. is_memory_at e ≡ true) }
        ensures unnamed { IfErr result NamesNoneForMemory }
    {
        let alloc = self.allocator();
        let parts = Linkable {
            functions: &self.functions,
            symbols: &self.symbol_table,
            relocations: &self.relocations,
            text_sections,
            callbacks: &self.exception_callbacks,
        };
        let functions = number_functions(alloc, &parts)?;
        Ok(ProgramMaps {
            object: self,
            functions,
        })
    }

    /// Returns the link map of the program with this name: the functions that it holds once `relocate_calls` has linked
    /// it.
    ///
    /// The link map has two parts:
    ///
    /// - The program's own function at base 0, and then a copy of each function that its references reach, in the order
    ///   of their key paths (depth-first pre-order by slot). Each copy has its first slot in the program and its number
    ///   of slots.
    /// - The references of all copies, in the order of their slots, each with the first slot of the copy that it leads
    ///   to.
    ///
    /// The result is `None` exactly where no program has the name. Nothing is linked, and no slot is written.
    /// `text_sections` holds the indices of the sections whose symbols are functions. For several programs,
    /// `program_maps` finds the calls once.
    ///
    /// # Errors
    ///
    /// The errors of `relocate_calls` for this program alone, with the program's name:
    ///
    /// - `UnknownProgram`: the program has no function.
    /// - The first of these, in the order of the slots of the copies: `UnsupportedTextSymbol`, `UnknownFunction`,
    ///   `FunctionInfoMismatch`, `ProgramTooLong` (more than 2,147,483,647 slots), `InvalidLineInfo`.
    /// - `OutOfMemory`, with an empty name: an allocation failed.
    pub fn link_map(
        &self,
        name: &str,
        text_sections: &HashSet<usize>,
    ) -> Result<Option<LinkMap>, EbpfRelocationError>
        ensures program { MatchOption (map.get self.now.programs name.now) (result ≡ Ok None) (λ p.
            MapsProgram (linkable_of self.now (text_sections_in text_sections.now))
            (program_value name.now p) result) }
        ensures memory { IfErr result NamesNoneForMemory }
    {
        if !self.programs.contains_key(name) {
            return Ok(None);
        }
        let maps = self.program_maps(text_sections)?;
        maps.of(name)
    }
}
