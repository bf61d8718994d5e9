//! The linking of calls over the sections that hold an object's own functions.

ghost use Rattle.std.specs.Prelude.{◌≡◌, ⊤, IfErr, OnOk, OnErr, MatchBool, MatchOption, Ok, None};
ghost use Rattle.std.specs.FinMap as map;
ghost use Rattle.ebpf_object.specs.LinkedPrograms.{linkable_of, program_value, programs_in_order, ProgramsAreLinked, MapsProgram};
ghost use Rattle.ebpf_object.specs.Names.{has_function_in};
ghost use Rattle.ebpf_reloc.specs.Linking.{IsFirstRefusal};
ghost use Rattle.ebpf_model.specs.Memory.{is_memory_at, NamesNoneForMemory};

use crate::object::Object;
use ebpf_model::EbpfRelocationError;
use ebpf_reloc::LinkMap;

impl Object {
    /// Links each program with every function that its references reach.
    ///
    /// It does what `relocate_calls` does with the sections that hold the object's functions.
    ///
    /// # Errors
    ///
    /// The errors of `relocate_calls`. On error the object is unchanged.
    pub fn relocate_own_calls(&mut self) -> Result<(), EbpfRelocationError>
        ensures functions { OnOk result
            (ProgramsAreLinked (linkable_of self.old (has_function_in self.old.functions))
            (programs_in_order self.old.programs) self.new.functions) }
        ensures fault { IfErr result (λ e.
            MatchBool (is_memory_at e) ⊤
            (IsFirstRefusal (linkable_of self.old (has_function_in self.old.functions))
            (programs_in_order self.old.programs) e)) }
        ensures memory { IfErr result NamesNoneForMemory }
        ensures others_stay { self.new ≡ record self.old { functions = self.new.functions } }
        ensures unchanged { OnErr result (self.new ≡ self.old) }
    {
        let alloc = self.allocator();
        let Ok(sections) = self.text_sections(alloc) else {
            return Err(EbpfRelocationError::memory(alloc));
        };
        self.relocate_calls(&sections)
    }

    /// Returns the link map of the program with this name.
    ///
    /// It does what `link_map` does with the sections that hold the object's functions. The result is `None` exactly
    /// where no program has the name.
    ///
    /// # Errors
    ///
    /// The errors of `link_map`.
    pub fn own_link_map(&self, name: &str) -> Result<Option<LinkMap>, EbpfRelocationError>
        ensures program { MatchOption (map.get self.now.programs name.now) (result ≡ Ok None) (λ p.
            MapsProgram (linkable_of self.now (has_function_in self.now.functions))
            (program_value name.now p) result) }
        ensures memory { IfErr result NamesNoneForMemory }
    {
        if !self.programs.contains_key(name) {
            return Ok(None);
        }
        let alloc = self.allocator();
        let Ok(sections) = self.text_sections(alloc) else {
            return Err(EbpfRelocationError::memory(alloc));
        };
        self.link_map(name, &sections)
    }
}
