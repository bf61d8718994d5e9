//! The programs of an object, linked and judged, and the locations of their slots.

use crate::verdict::findings::SourceLocation;
use cli_common::source_lines::{LineSpan, Lines};
use cli_instructions::decode;
use ebpf_base::Text;
use ebpf_object::Object;
use ebpf_object::relocation::CodeCopy;
use ebpf_verdict::{Cause, JudgedProgram, SlotReason};
use std::alloc::{AllocError, Global};

/// A linked program, whose slots are judged.
#[derive(Drop)]
pub struct PrintedProgram<'a> {
    /// The number of the program.
    number: usize,
    /// The copies of functions in the program.
    pub copies: &'a [CodeCopy],
    /// The reasons of its slots.
    pub reasons: &'a [SlotReason],
    lines: Lines<'a>,
}

impl<'a> PrintedProgram<'a> {
    /// The program of a number, linked and judged.
    pub fn new(
        alloc: Global,
        number: usize,
        program: &'a JudgedProgram,
    ) -> Result<PrintedProgram<'a>, AllocError> {
        Ok(PrintedProgram {
            number,
            copies: program.linked.map.copies.as_slice(),
            reasons: program.reasons.as_slice(),
            lines: Lines::new(alloc, &program.linked.function)?,
        })
    }

    /// Whether a slot is poisoned and reached.
    fn is_poisoned(&self, place: usize) -> bool {
        self.reasons.iter().any(|reason| reason.slot == place && reason.cause == Cause::Poisoned)
    }
}

/// The copy that a slot of a program belongs to: the last one that begins at it or before it.
pub fn copy_of_slot(copies: &[CodeCopy], place: usize) -> Option<&CodeCopy> {
    let mut found = None;
    for copy in copies {
        if copy.base <= place {
            found = Some(copy);
        }
    }
    found
}

/// A slot of a copy in a linked program.
#[derive(Clone, Copy)]
pub struct SlotRef<'a> {
    /// The program.
    pub program: &'a PrintedProgram<'a>,
    /// The copy.
    pub copy: &'a CodeCopy,
    /// The slot in the function that is copied.
    pub slot: usize,
    /// Whether the slot loads a number for those behind it.
    pub leads: bool,
}

impl SlotRef<'_> {
    /// The slot in the program.
    fn place(&self) -> usize {
        self.copy.base.saturating_add(self.slot)
    }

    /// Whether the program breaks by the slot, which is poisoned and reached.
    pub fn is_poisoned(&self) -> bool {
        self.program.is_poisoned(self.place())
    }

    /// The instruction of the slot as the object has it, before relocations.
    fn instruction(&self, alloc: Global, object: &Object) -> Result<Option<Text>, AllocError> {
        let Some(function) = object.functions.get(self.copy.key) else {
            return Ok(None);
        };
        let Some(instruction) = function.instructions.get(self.slot).copied() else {
            return Ok(None);
        };
        let second = function
            .instructions
            .get(self.slot.saturating_add(1))
            .copied();
        let operation = decode(instruction, second);
        let text = format!(in alloc; "{operation}")?;
        Ok(Some(Text::from_string(text)))
    }

    /// The location of the slot, with its source line by the object's own types, and its instruction.
    pub fn location(&self, alloc: Global, object: &Object) -> Result<SourceLocation, AllocError> {
        let within = if self.copy.base == 0 {
            None
        } else {
            Some((self.copy.name.clone()?, self.slot))
        };
        let span = LineSpan {
            begin: self.copy.base,
            end: self.copy.base.saturating_add(self.copy.slots),
            slot: self.place(),
            leads: self.leads,
        };
        let line = self.program.lines.of(alloc, object.btf.as_ref(), span)?;
        Ok(SourceLocation {
            program: self.program.number,
            slot: Some(self.place()),
            instruction: self.instruction(alloc, object)?,
            within,
            line,
            kernels: Vec::new(alloc),
        })
    }
}
