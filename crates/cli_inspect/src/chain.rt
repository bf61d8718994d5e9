//! The deepest chain of calls of a linked program.

use ebpf_object::relocation::{CodeCopy, LinkMap};
use std::alloc::{AllocError, Global};

/// A reference, by the numbers of copies.
#[derive(Clone, Copy)]
pub struct Edge {
    /// The copy that refers.
    pub from: usize,
    /// The copy that is referred to.
    pub to: usize,
    /// Whether it is a call, or else the load of an address.
    pub is_call: bool,
}

/// The number of the copy that a slot stands in.
fn copy_at(copies: &[CodeCopy], place: usize) -> usize {
    let behind = copies.partition_point(|copy| copy.base <= place);
    behind.saturating_sub(1)
}

/// The references of a linked program, in the order of their places.
pub fn edges_of(alloc: Global, map: &LinkMap) -> Result<Vec<Edge>, AllocError> {
    let copies = map.copies.as_slice();
    let mut edges = Vec::with_capacity(alloc, map.references.len())?;
    for reference in map.references.iter() {
        edges.push(Edge {
            from: copy_at(copies, reference.place),
            to: copy_at(copies, reference.base),
            is_call: reference.is_call,
        })?;
    }
    Ok(edges)
}

/// The calls among references.
fn calls_among(alloc: Global, edges: &[Edge]) -> Result<Vec<Edge>, AllocError> {
    let mut calls = Vec::new(alloc);
    for edge in edges {
        if edge.is_call {
            calls.push(*edge)?;
        }
    }
    Ok(calls)
}

/// A walk over copies, each after all that refer to it.
#[derive(Drop)]
struct ChainWalk {
    /// How many references to each copy are still to come.
    waiting: Vec<usize>,
    /// How many functions the deepest chain to each copy has, its own too.
    depths: Vec<usize>,
    /// Copies that no reference is still to come to.
    ready: Vec<usize>,
}

/// How many references lead to each copy.
fn reference_counts(alloc: Global, count: usize, edges: &[Edge]) -> Result<Vec<usize>, AllocError> {
    let mut counts = vec![in alloc; 0usize; count]?;
    for edge in edges {
        if let Some(number) = counts.get_mut(edge.to) {
            *number = number.saturating_add(1);
        }
    }
    Ok(counts)
}

/// The copies that no reference leads to.
fn unreferenced_copies(alloc: Global, counts: &[usize]) -> Result<Vec<usize>, AllocError> {
    let mut copies = Vec::with_capacity(alloc, counts.len())?;
    for (copy, count) in counts.iter().enumerate() {
        if *count == 0 {
            copies.push(copy)?;
        }
    }
    Ok(copies)
}

/// The references of a copy, among those in the order of the copies that refer.
fn edges_from(edges: &[Edge], copy: usize) -> &[Edge] {
    let start = edges.partition_point(|edge| edge.from < copy);
    let Some(rest) = edges.get(start..) else {
        return &[];
    };
    let length = rest.partition_point(|edge| edge.from <= copy);
    rest.get(..length).unwrap_or(&[])
}

impl ChainWalk {
    fn new(alloc: Global, count: usize, edges: &[Edge]) -> Result<ChainWalk, AllocError> {
        let waiting = reference_counts(alloc, count, edges)?;
        let ready = unreferenced_copies(alloc, &waiting)?;
        let depths = vec![in alloc; 1usize; count]?;
        Ok(ChainWalk {
            waiting,
            depths,
            ready,
        })
    }

    /// Follows a reference to a copy, on a chain of `depth` functions.
    fn arrive(&mut self, copy: usize, depth: usize) -> Result<(), AllocError> {
        if let Some(known) = self.depths.get_mut(copy) {
            *known = depth.max(*known);
        }
        let Some(waiting) = self.waiting.get_mut(copy) else {
            return Ok(());
        };
        *waiting = waiting.saturating_sub(1);
        if *waiting == 0 {
            self.ready.push(copy)?;
        }
        Ok(())
    }

    /// Follows the references of a copy.
    fn leave(&mut self, copy: usize, edges: &[Edge]) -> Result<(), AllocError> {
        let depth = self.depths.get(copy).copied().unwrap_or(0);
        for edge in edges {
            self.arrive(edge.to, depth.saturating_add(1))?;
        }
        Ok(())
    }

    /// The functions of the deepest chain.
    fn deepest(&self) -> usize {
        self.depths.iter().copied().max().unwrap_or(0)
    }
}

/// The number of functions in the deepest chain of these references. `None` if they form a cycle.
fn longest_chain(alloc: Global, count: usize, edges: &[Edge]) -> Result<Option<usize>, AllocError> {
    let mut walk = ChainWalk::new(alloc, count, edges)?;
    for _ in 0..count {
        let Some(copy) = walk.ready.pop() else {
            return Ok(None);
        };
        walk.leave(copy, edges_from(edges, copy))?;
    }
    Ok(Some(walk.deepest()))
}

/// How many functions the deepest chain of calls of a program has, its own among them; `count` is that of its copies. A
/// function counts as called where its address is loaded, unless such loads lead back to where they began: then it begins a
/// chain of its own. None where calls lead back to where they began.
pub fn deepest_chain(
    alloc: Global,
    count: usize,
    edges: &[Edge],
) -> Result<Option<usize>, AllocError> {
    if let Some(chain) = longest_chain(alloc, count, edges)? {
        return Ok(Some(chain));
    }
    let calls = calls_among(alloc, edges)?;
    longest_chain(alloc, count, &calls)
}
