//! What a linked program is made of.

use crate::chain::{Edge, deepest_chain, edges_of};
use crate::uses::{FunctionUses, ProgramUses};
use cli_common::programs::ObjectProgram;
use ebpf_object::relocation::LinkMap;
use std::alloc::{AllocError, Global};

/// What a linked program is made of.
#[derive(Drop)]
pub struct ProgramParts<'a> {
    /// The program.
    pub program: &'a ObjectProgram,
    /// Its copies of functions, and the references between them.
    pub map: &'a LinkMap,
    /// The references by the numbers of copies, in the same order.
    pub edges: Vec<Edge>,
    /// Its slots.
    pub slots: usize,
    /// How many functions its deepest chain of calls has; none where calls lead back to where they began.
    pub chain: Option<usize>,
    /// What it uses.
    pub uses: ProgramUses<'a>,
}

/// The slots of a linked program.
fn slots_of(map: &LinkMap) -> usize {
    map.copies
        .iter()
        .fold(0_usize, |slots, copy| slots.saturating_add(copy.slots))
}

/// What a program is made of.
fn parts_of<'a>(
    alloc: Global,
    uses: &'a FunctionUses,
    program: &'a ObjectProgram,
    map: &'a LinkMap,
) -> Result<ProgramParts<'a>, AllocError> {
    let edges = edges_of(alloc, map)?;
    let chain = deepest_chain(alloc, map.copies.len(), &edges)?;
    let uses = uses.of_program(alloc, map.copies.as_slice())?;
    Ok(ProgramParts {
        program,
        map,
        edges,
        slots: slots_of(map),
        chain,
        uses,
    })
}

/// What programs are made of, in their order; `maps` has what each is linked of.
pub fn all_parts<'a>(
    alloc: Global,
    uses: &'a FunctionUses,
    programs: &'a [ObjectProgram],
    maps: &'a [LinkMap],
) -> Result<Vec<ProgramParts<'a>>, AllocError> {
    let mut all = Vec::with_capacity(alloc, programs.len())?;
    for (program, map) in programs.iter().zip(maps.iter()) {
        all.push(parts_of(alloc, uses, program, map)?)?;
    }
    Ok(all)
}

/// Slots, where the loader isn't privileged or the kernel is older than 5.2 (BPF_MAXINSNS).
pub const SLOTS: usize = 4096;

/// Functions, the program's own among them (BPF_MAX_SUBPROGS).
pub const FUNCTIONS: usize = 256;

/// Functions that wait for one another, the program's own among them (MAX_CALL_FRAMES).
pub const CHAIN: usize = 8;

/// Maps (MAX_USED_MAPS).
pub const MAPS: usize = 64;
