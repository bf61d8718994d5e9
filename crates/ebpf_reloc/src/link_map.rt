//! What the linked program of a program is made of.

ghost use Rattle.std.specs.Prelude.{◌≡◌, ◌<◌, length, map, IfOk, IfErr, ⊤, MatchBool};
ghost use Rattle.ebpf_linker.specs.Copies.{IsLaidOut};
ghost use Rattle.ebpf_reloc.specs.Linking.{IsLinkMapAt, key_of, IsProgramRefusal};
ghost use Rattle.ebpf_reloc.specs.PrivateContracts.{named_copy};
ghost use Rattle.ebpf_model.specs.Memory.{is_memory_at, NamesNoneForMemory};
ghost use Rattle.ebpf_reloc.specs.Numbers.{function_keys, key_in, key_of_number};
ghost use Rattle.ebpf_reloc.specs.SlotTargets.{read};

use crate::linking::ProgramKey;
use crate::numbered::{NumberedFunctions, function_name};
use ebpf_base::{Items, Text};
use ebpf_linker::ProgramLayout;
use ebpf_linker::link_map::NumberedCopy;
pub use ebpf_linker::link_map::PlacedReference;
use ebpf_model::{EbpfRelocationError, Function};
use std::alloc::{AllocError, Global};

/// A copy of a function in a linked program.
#[derive(Debug, Drop)]
pub struct CodeCopy {
    /// The function's key: the index of its section, and its address.
    pub key: (usize, u64),
    /// The function's name.
    pub name: Text,
    /// The place at which the copy begins, in slots.
    pub base: usize,
    /// How many slots it has.
    pub slots: usize,
}

/// What a linked program is made of.
#[derive(Debug, Drop)]
pub struct LinkMap {
    /// The program's own function, and then each function that it reaches, in the order of their key paths.
    pub copies: Items<CodeCopy>,
    /// The references of all copies, in the order of their places.
    pub references: Items<PlacedReference>,
}

/// The key with a number; the key (0, 0) where none has it.
fn key_in(keys: &[(usize, u64)], number: usize) -> (usize, u64)
    ensures { result ≡ key_in keys.now number }
{
    match keys.get(number) {
        Some(key) => *key,
        None => (0, 0),
    }
}

/// A copy, with the key and the name of its function.
fn named_copy(
    alloc: Global,
    keys: &[(usize, u64)],
    functions: &[&Function],
    copy: NumberedCopy,
) -> Result<CodeCopy, AllocError>
    ensures { IfOk result (λ named.
        named ≡ named_copy keys.now (map (λ f. f.now) functions.now) copy) }
{
    Ok(CodeCopy {
        key: key_in(keys, copy.function),
        name: function_name(alloc, functions, copy.function)?,
        base: copy.base,
        slots: copy.slots,
    })
}

/// Copies, with the keys and the names of their functions.
fn named_copies(
    alloc: Global,
    keys: &[(usize, u64)],
    functions: &[&Function],
    copies: &[NumberedCopy],
) -> Result<Vec<CodeCopy>, AllocError>
    ensures { IfOk result (λ named.
        named.items ≡ map (named_copy keys.now (map (λ f. f.now) functions.now)) copies.now) }
{
    let mut named = Vec::with_capacity(alloc, copies.len())?;
    for copy in copies {
        named.push(named_copy(alloc, keys, functions, *copy)?)?;
    }
    Ok(named)
}

impl<'a> NumberedFunctions<'a> {
    /// What a layout's program is made of.
    pub(crate) fn layout_link_map(
        &self,
        alloc: Global,
        layout: &ProgramLayout,
    ) -> Result<LinkMap, AllocError>
        requires start { layout.now.start < length (function_keys (read self.now.parts).functions) }
        requires laid_out { IsLaidOut self.now.bodies.items self.now.calls.items layout.now }
        ensures { IfOk result (λ m.
            IsLinkMapAt (read self.now.parts)
            (key_of_number (read self.now.parts) layout.now.start) m) }
    {
        let map = self.linker_functions().link_map(alloc, layout)?;
        let keys = self.keys.as_slice();
        let functions = self.functions.as_slice();
        let copies = named_copies(alloc, keys, functions, map.copies.as_slice())?;
        Ok(LinkMap {
            copies: Items::from_vec(copies),
            references: map.references,
        })
    }
}

impl NumberedFunctions<'_> {
    /// What a program is made of once it is linked, as `relocate_calls` links it: the copies of functions, and the
    /// references with the places that they lead to. Nothing is linked. The functions keep their numbers for further
    /// programs.
    ///
    /// # Errors
    ///
    /// Those of `relocate_calls` for this program alone.
    pub fn program_link_map(
        &self,
        alloc: Global,
        program: &ProgramKey<'_>,
    ) -> Result<LinkMap, EbpfRelocationError>
        ensures mapped { IfOk result (λ m.
            IsLinkMapAt (read self.now.parts) (key_of program.now) m) }
        ensures fault { IfErr result (λ e.
            MatchBool (is_memory_at e) ⊤
            (IsProgramRefusal (read self.now.parts) program.now e)) }
        ensures memory { IfErr result NamesNoneForMemory }
    {
        let layout = self.layout(alloc, program)?;
        match self.layout_link_map(alloc, &layout) {
            Ok(map) => Ok(map),
            Err(_) => Err(EbpfRelocationError::memory(alloc)),
        }
    }
}
