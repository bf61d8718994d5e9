//! The graphs of linked programs.

use crate::chain::Edge;
use crate::parts::ProgramParts;
use crate::uses::FunctionUses;
use cli_formats::graph::{EdgeKind, FunctionEdge, FunctionNode, MapEdge, ProgramGraph};
use ebpf_object::relocation::CodeCopy;
use std::alloc::{AllocError, Global};
use std::collections::BTreeSet;

/// The nodes of copies.
fn nodes_of(alloc: Global, copies: &[CodeCopy]) -> Result<Vec<FunctionNode<'_>>, AllocError> {
    let mut nodes = Vec::with_capacity(alloc, copies.len())?;
    for copy in copies {
        nodes.push(FunctionNode {
            name: copy.name.as_str(),
            slots: copy.slots,
        })?;
    }
    Ok(nodes)
}

/// The edges of references between copies.
fn edges_between(alloc: Global, edges: &[Edge]) -> Result<Vec<FunctionEdge>, AllocError> {
    let mut all = Vec::with_capacity(alloc, edges.len())?;
    for edge in edges {
        let kind = if edge.is_call {
            EdgeKind::Call
        } else {
            EdgeKind::Load
        };
        all.push(FunctionEdge {
            from: edge.from,
            to: edge.to,
            kind,
        })?;
    }
    Ok(all)
}

/// Names, in their order.
fn sorted_names<'a, 'p: 'a>(
    alloc: Global,
    names: &BTreeSet<&'p str>,
) -> Result<Vec<&'a str>, AllocError> {
    let mut all = Vec::with_capacity(alloc, names.len())?;
    for name in names.iter() {
        let name: &'a str = *name;
        all.push(name)?;
    }
    Ok(all)
}

/// Adds an edge from a copy to each map that it uses; `maps` has the names of all in byte order.
fn add_uses(
    edges: &mut Vec<MapEdge>,
    uses: &FunctionUses,
    maps: &[&str],
    from: usize,
    copy: &CodeCopy,
) -> Result<(), AllocError> {
    for used in uses.maps_of(copy.key) {
        let name = used.name.as_str();
        let map = maps.partition_point(|known| *known < name);
        edges.push(MapEdge { from, map })?;
    }
    Ok(())
}

/// The edges from copies to the maps that they use.
fn map_edges(
    alloc: Global,
    uses: &FunctionUses,
    maps: &[&str],
    copies: &[CodeCopy],
) -> Result<Vec<MapEdge>, AllocError> {
    let mut edges = Vec::new(alloc);
    for (from, copy) in copies.iter().enumerate() {
        add_uses(&mut edges, uses, maps, from, copy)?;
    }
    Ok(edges)
}

/// The graph of a program.
fn graph_of<'a, 'p: 'a>(
    alloc: Global,
    uses: &FunctionUses,
    parts: &ProgramParts<'a>,
) -> Result<ProgramGraph<'a>, AllocError> {
    let copies = parts.map.copies.as_slice();
    let maps = sorted_names(alloc, &parts.uses.maps)?;
    let uses = map_edges(alloc, uses, &maps, copies)?;
    let edges = edges_between(alloc, &parts.edges)?;
    Ok(ProgramGraph {
        name: parts.program.name.as_str(),
        slots: parts.slots,
        functions: nodes_of(alloc, copies)?,
        maps,
        edges,
        uses,
    })
}

/// The graphs of programs, in their order.
pub fn graphs_of<'a, 'p: 'a>(
    alloc: Global,
    uses: &FunctionUses,
    programs: &[ProgramParts<'a>],
) -> Result<Vec<ProgramGraph<'a>>, AllocError> {
    let mut graphs = Vec::with_capacity(alloc, programs.len())?;
    for parts in programs {
        graphs.push(graph_of(alloc, uses, parts)?)?;
    }
    Ok(graphs)
}
