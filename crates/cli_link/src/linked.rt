//! Linked programs and their slots, as the output shows them.

use cli_common::source_lines::Lines;
use ebpf_model::Function;
use ebpf_parts::insn::bpf_insn;
use ebpf_reloc::{CodeCopy, LinkMap, PlacedReference};
use std::alloc::{AllocError, Global};
use std::collections::BTreeMap;

/// A linked program.
#[derive(Drop)]
pub struct ShownProgram<'a> {
    /// The function with all slots.
    pub function: &'a Function,
    /// The copies of functions in it.
    pub copies: &'a [CodeCopy],
    /// The source lines, where they are printed.
    pub lines: Option<Lines<'a>>,
    /// The names of the copies, by the slots at which they begin.
    names: BTreeMap<usize, &'a str>,
    /// The slots at which the copies begin that slots refer to.
    targets: BTreeMap<usize, usize>,
}

/// A slot of a copy.
#[derive(Clone, Copy)]
pub struct ShownSlot<'a> {
    /// The copy.
    pub copy: &'a CodeCopy,
    /// The slot in the function that is copied.
    pub slot: usize,
    /// The instruction.
    pub instruction: bpf_insn,
    /// The instruction of the next slot in the copy, where there is one.
    pub second: Option<bpf_insn>,
}

impl ShownSlot<'_> {
    /// The slot in the program.
    pub fn place(&self) -> usize {
        self.copy.base.saturating_add(self.slot)
    }
}

/// The names of copies.
fn names_of(alloc: Global, copies: &[CodeCopy]) -> Result<BTreeMap<usize, &str>, AllocError> {
    let mut names = BTreeMap::new(alloc);
    for copy in copies {
        names.insert(copy.base, copy.name.as_str())?;
    }
    Ok(names)
}

/// The targets of references.
fn targets_of(
    alloc: Global,
    references: &[PlacedReference],
) -> Result<BTreeMap<usize, usize>, AllocError> {
    let mut targets = BTreeMap::new(alloc);
    for reference in references {
        targets.insert(reference.place, reference.base)?;
    }
    Ok(targets)
}

impl<'a> ShownProgram<'a> {
    /// A program of these slots and copies, with source lines where they are wanted.
    pub fn new(
        alloc: Global,
        function: &'a Function,
        map: &'a LinkMap,
        with_lines: bool,
    ) -> Result<ShownProgram<'a>, AllocError> {
        let lines = if with_lines {
            Some(Lines::new(alloc, function)?)
        } else {
            None
        };
        Ok(ShownProgram {
            function,
            copies: map.copies.as_slice(),
            lines,
            names: names_of(alloc, map.copies.as_slice())?,
            targets: targets_of(alloc, map.references.as_slice())?,
        })
    }

    /// A slot of a copy; none past the copy's end.
    pub fn slot(&self, copy: &'a CodeCopy, slot: usize) -> Option<ShownSlot<'a>> {
        let slots = self.function.instructions.as_slice();
        let place = copy.base.checked_add(slot)?;
        let after = slot.checked_add(1)?;
        let second = if after < copy.slots {
            slots.get(place.checked_add(1)?).copied()
        } else {
            None
        };
        Some(ShownSlot {
            copy,
            slot,
            instruction: *slots.get(place)?,
            second,
        })
    }

    /// The name of the function to which a slot refers.
    pub fn referred(&self, place: usize) -> Option<&'a str> {
        let base = self.targets.get(&place)?;
        self.names.get(base).copied()
    }
}
