//! The programs of an object, each with every function that it reaches.

ghost use Rattle.std.specs.Prelude.{◌≡◌, ◌<◌, length, true, IfOk, OnOk, IfErr, Some, ⊤, MatchBool, slice_get};
ghost use Rattle.std.specs.FinMap as map;
ghost use Rattle.ebpf_linker.specs.Copies.{IsLaidOut};
ghost use Rattle.ebpf_reloc.specs.Linking.{ProgramValue, key_of, with_linked, IsLinked, IsLinkMapAt, IsProgramRefusal, AreLinked, IsFirstRefusal};
ghost use Rattle.ebpf_model.specs.Memory.{is_memory_at, NamesNoneForMemory};
ghost use Rattle.ebpf_reloc.specs.Numbers.{function_keys, function_list, key_of_number};
ghost use Rattle.ebpf_reloc.specs.SlotTargets.{read};

use crate::link_map::LinkMap;
use crate::linkable::Linkable;
use crate::numbered::NumberedFunctions;
use ebpf_base::ByKey;
use ebpf_btf_ext::{FuncSecInfo, LineSecInfo};
use ebpf_linker::{LinkedProgram, ProgramLayout};
use ebpf_model::{EbpfRelocationError, Function};
use std::alloc::{AllocError, Global};
use std::marker::Model;

/// A program's name, and the key of its function.
#[derive(Debug, Drop)]
pub struct ProgramKey<'a> {
    /// The name of the program.
    pub name: &'a str,
    /// The index of the section of its function.
    pub section_index: usize,
    /// The address of its function.
    pub address: u64,
}

/// A program's function, linked, and what it is made of.
#[derive(Debug, Drop)]
pub struct LinkedFunction {
    /// The function.
    pub function: Function,
    /// The copies of functions that it is made of, and the references between these.
    pub map: LinkMap,
}

impl<'a> Model for ProgramKey<'a> {
    ghost Value = { ProgramValue };

    ghost view = { λ p.
        record { name = p.name.now; section_index = p.section_index; address = p.address } };
}

impl ProgramKey<'_> {
    /// The key of its function: the index of its section, and its address.
    fn key(&self) -> (usize, u64)
        ensures { result ≡ key_of self.now }
    {
        (self.section_index, self.address)
    }
}

/// A function with the slots and the records of a linked program.
fn with_linked(function: &Function, linked: LinkedProgram) -> Result<Function, AllocError>
    ensures { IfOk result (λ f. f ≡ with_linked function.now linked) }
{
    let func_info = &function.func_info;
    let line_info = &function.line_info;
    Ok(Function {
        address: function.address,
        name: function.name.clone()?,
        section_index: function.section_index,
        section_offset: function.section_offset,
        instructions: linked.slots,
        func_info: FuncSecInfo {
            sec_name_offset: func_info.sec_name_offset,
            num_info: linked.func_count.unwrap_or(func_info.num_info),
            func_info: linked.func_info,
        },
        line_info: LineSecInfo {
            sec_name_offset: line_info.sec_name_offset,
            num_info: linked.line_count.unwrap_or(line_info.num_info),
            line_info: linked.line_info,
        },
        func_info_rec_size: function.func_info_rec_size,
        line_info_rec_size: function.line_info_rec_size,
    })
}

impl<'a> NumberedFunctions<'a> {
    /// The function with a number.
    fn function(&self, number: usize) -> &'a Function
        requires { number < length (function_keys (read self.now.parts).functions) }
        ensures { slice_get (function_list (read self.now.parts).functions) number
            ≡ Some result.now }
    {
        self.functions.as_slice()[number]
    }

    /// The function of a layout's program, linked.
    fn linked_function(&self, alloc: Global, layout: &ProgramLayout) -> Result<Function, AllocError>
        requires start { layout.now.start < length (function_keys (read self.now.parts).functions) }
        requires laid_out { IsLaidOut self.now.bodies.items self.now.calls.items layout.now }
        ensures { IfOk result (λ f.
            IsLinked (read self.now.parts)
            (key_of_number (read self.now.parts) layout.now.start) f) }
    {
        let linked = self.linker_functions().link(alloc, layout)?;
        with_linked(self.function(layout.start), linked)
    }

    /// The function of a layout's program, linked, and what it is made of.
    fn linked_function_with_map(
        &self,
        alloc: Global,
        layout: &ProgramLayout,
    ) -> Result<LinkedFunction, AllocError>
        requires start { layout.now.start < length (function_keys (read self.now.parts).functions) }
        requires laid_out { IsLaidOut self.now.bodies.items self.now.calls.items layout.now }
        ensures linked { IfOk result (λ l.
            IsLinked (read self.now.parts)
            (key_of_number (read self.now.parts) layout.now.start) l.function) }
        ensures mapped { IfOk result (λ l.
            IsLinkMapAt (read self.now.parts)
            (key_of_number (read self.now.parts) layout.now.start) l.map) }
    {
        Ok(LinkedFunction {
            function: self.linked_function(alloc, layout)?,
            map: self.layout_link_map(alloc, layout)?,
        })
    }
}

impl NumberedFunctions<'_> {
    /// A program's function, linked.
    fn linked_program(
        &self,
        alloc: Global,
        program: &ProgramKey<'_>,
    ) -> Result<Function, EbpfRelocationError>
        ensures linked { IfOk result (λ f. IsLinked (read self.now.parts) (key_of program.now) f) }
        ensures fault { IfErr result (λ e.
            MatchBool (is_memory_at e) ⊤
            (IsProgramRefusal (read self.now.parts) program.now e)) }
        ensures memory { IfErr result NamesNoneForMemory }
    {
        let layout = self.layout(alloc, program)?;
        match self.linked_function(alloc, &layout) {
            Ok(function) => Ok(function),
            Err(_) => Err(EbpfRelocationError::memory(alloc)),
        }
    }

    /// A program's function, linked as `relocate_calls` links it, and what it is made of, from one search. The functions
    /// keep their numbers for further programs.
    ///
    /// # Errors
    ///
    /// Those of `relocate_calls` for this program alone.
    pub fn linked_with_map(
        &self,
        alloc: Global,
        program: &ProgramKey<'_>,
    ) -> Result<LinkedFunction, EbpfRelocationError>
        ensures linked { IfOk result (λ l.
            IsLinked (read self.now.parts) (key_of program.now) l.function) }
        ensures mapped { IfOk result (λ l.
            IsLinkMapAt (read self.now.parts) (key_of program.now) l.map) }
        ensures fault { IfErr result (λ e.
            MatchBool (is_memory_at e) ⊤
            (IsProgramRefusal (read self.now.parts) program.now e)) }
        ensures memory { IfErr result NamesNoneForMemory }
    {
        let layout = self.layout(alloc, program)?;
        match self.linked_function_with_map(alloc, &layout) {
            Ok(linked) => Ok(linked),
            Err(_) => Err(EbpfRelocationError::memory(alloc)),
        }
    }
}

/// The functions by numbers, with their calls.
pub fn number_functions<'a>(
    alloc: Global,
    parts: &Linkable<'a>,
) -> Result<NumberedFunctions<'a>, EbpfRelocationError>
    ensures parts { IfOk result (λ n. read n.parts ≡ read parts.now) }
    ensures memory { IfErr result (λ e. is_memory_at e ≡ true) }
    ensures unnamed { IfErr result NamesNoneForMemory }
{
    match NumberedFunctions::new(alloc, parts) {
        Ok(functions) => Ok(functions),
        Err(_) => Err(EbpfRelocationError::memory(alloc)),
    }
}

/// Puts a function at a key.
fn put(
    alloc: Global,
    functions: &mut ByKey<Function>,
    key: (usize, u64),
    function: Function,
) -> Result<(), EbpfRelocationError>
    ensures ok { OnOk result (functions.new ≡ map.insert functions.old key function) }
    ensures memory { IfErr result (λ e. is_memory_at e ≡ true) }
    ensures unnamed { IfErr result NamesNoneForMemory }
{
    match functions.insert(key, function) {
        Ok(_) => Ok(()),
        Err(_) => Err(EbpfRelocationError::memory(alloc)),
    }
}

/// The functions of programs, each followed by every function that it reaches, by the keys of the programs.
/// Each is linked from the functions as they are, and programs at one key are linked once.
///
/// # Errors
///
/// The least fault of the first program that has one, with that program's name. `UnknownProgram` where no
/// function is at its key; else, at the slot with the least path (depth first): `UnsupportedTextSymbol` if the
/// slot's symbol names no function, `UnknownFunction` if no function is at the address, `FunctionInfoMismatch` if
/// only one of the function and the program has func info, `ProgramTooLong` if with the function there are more
/// than 2,147,483,647 slots, `InvalidLineInfo` if its line info can't be moved. `OutOfMemory`, with the empty
/// name, only if an allocation failed.
pub fn relocate_calls(
    alloc: Global,
    programs: &[ProgramKey<'_>],
    parts: &Linkable<'_>,
) -> Result<ByKey<Function>, EbpfRelocationError>
    ensures linked { IfOk result (λ linked. AreLinked (read parts.now) programs.now linked) }
    ensures fault { IfErr result (λ e.
        MatchBool (is_memory_at e) ⊤ (IsFirstRefusal (read parts.now) programs.now e)) }
    ensures memory { IfErr result NamesNoneForMemory }
{
    let functions = number_functions(alloc, parts)?;
    let mut linked = ByKey::new(alloc);
    for program in programs {
        if linked.contains_key(program.key()) {
            continue;
        }
        let function = match functions.linked_program(alloc, program) {
            Ok(function) => function,
            Err(error) => return Err(error),
        };
        put(alloc, &mut linked, program.key(), function)?;
    }
    Ok(linked)
}
