//! The functions that programs are linked with.

ghost use Rattle.std.specs.Prelude.{◌<◌, length, IfOk, IfErr, ⊤, MatchBool};
ghost use Rattle.ebpf_model.specs.Memory.{is_slot_memory, is_memory_at, NamesNoneForMemory};
ghost use Rattle.ebpf_reloc.specs.Linking.{key_of, IsProgramFault, IsProgramRefusal};
ghost use Rattle.ebpf_reloc.specs.Numbers.{function_keys, key_of_number};
ghost use Rattle.ebpf_reloc.specs.PrivateContracts.{IsLaidOutAt};
ghost use Rattle.ebpf_reloc.specs.SlotTargets.{read};

use crate::linking::ProgramKey;
use crate::numbered::{NumberedFunctions, with_function_names};
use crate::numbers::number_of_key;
use ebpf_linker::ProgramLayout;
use ebpf_model::{EbpfRelocationError, RelocationError};
use std::alloc::Global;

impl<'a> NumberedFunctions<'a> {
    /// The layout of the program with a number.
    fn layout_by_number(
        &self,
        alloc: Global,
        number: usize,
    ) -> Result<ProgramLayout, RelocationError>
        requires { number < length (function_keys (read self.now.parts).functions) }
        ensures layout { IfOk result (λ l.
            IsLaidOutAt (read self.now.parts) self.now.bodies.items self.now.calls.items
            (key_of_number (read self.now.parts) number) l) }
        ensures fault { IfErr result (λ e.
            MatchBool (is_slot_memory e) ⊤
            (IsProgramFault (read self.now.parts)
            (key_of_number (read self.now.parts) number) e)) }
    {
        let answer = self.linker_functions().lay_out(alloc, number)?;
        let functions = self.functions.as_slice();
        match answer {
            Ok(layout) => Ok(layout),
            Err(fault) => Err(with_function_names(alloc, functions, fault)?),
        }
    }

    /// The layout of the program at a key.
    fn layout_at(
        &self,
        alloc: Global,
        section: usize,
        address: u64,
    ) -> Result<ProgramLayout, RelocationError>
        ensures layout { IfOk result (λ l.
            IsLaidOutAt (read self.now.parts) self.now.bodies.items self.now.calls.items
            (section, address) l) }
        ensures fault { IfErr result (λ e.
            MatchBool (is_slot_memory e) ⊤
            (IsProgramFault (read self.now.parts) (section, address) e)) }
    {
        match number_of_key(self.keys.as_slice(), section, address) {
            Some(number) => self.layout_by_number(alloc, number),
            None => Err(RelocationError::UnknownProgram {
                section_index: section,
                address,
            }),
        }
    }
}

impl NumberedFunctions<'_> {
    /// The layout of a program.
    #[tactic(auto, using(crate::proofs::SoFar::with_name))]
    pub(crate) fn layout(
        &self,
        alloc: Global,
        program: &ProgramKey<'_>,
    ) -> Result<ProgramLayout, EbpfRelocationError>
        ensures layout { IfOk result (λ l.
            IsLaidOutAt (read self.now.parts) self.now.bodies.items self.now.calls.items
            (key_of program.now) l) }
        ensures fault { IfErr result (λ e.
            MatchBool (is_memory_at e) ⊤
            (IsProgramRefusal (read self.now.parts) program.now e)) }
        ensures memory { IfErr result NamesNoneForMemory }
    {
        match self.layout_at(alloc, program.section_index, program.address) {
            Ok(layout) => Ok(layout),
            Err(error) => Err(EbpfRelocationError::with_name(alloc, program.name, error)),
        }
    }
}
