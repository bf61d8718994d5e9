//! The graph of a program's functions and maps, in the languages of Graphviz and Mermaid.

use crate::escape::{Escaped, Syntax};
use std::io::{self, Write};

/// A copy of a function in a linked program.
#[derive(Clone, Copy)]
pub struct FunctionNode<'a> {
    /// The function's name.
    pub name: &'a str,
    /// The number of its slots.
    pub slots: usize,
}

/// The kind of an edge between two copies.
#[derive(Clone, Copy, PartialEq, Eq)]
pub enum EdgeKind {
    /// A call.
    Call,
    /// The load of a function's address, as for a callback.
    Load,
}

/// An edge from one copy to another, by their numbers.
#[derive(Clone, Copy)]
pub struct FunctionEdge {
    /// The copy that refers.
    pub from: usize,
    /// The copy that is referred to.
    pub to: usize,
    /// The kind of the reference.
    pub kind: EdgeKind,
}

/// The use of a map by a copy, by their numbers.
#[derive(Clone, Copy)]
pub struct MapEdge {
    /// The copy.
    pub from: usize,
    /// The map.
    pub map: usize,
}

/// The graph of a linked program.
#[derive(Drop)]
pub struct ProgramGraph<'a> {
    /// The program's name.
    pub name: &'a str,
    /// The number of its slots.
    pub slots: usize,
    /// Its copies of functions, its own first.
    pub functions: Vec<FunctionNode<'a>>,
    /// The names of the maps that they use.
    pub maps: Vec<&'a str>,
    /// The calls, and the loads of addresses.
    pub edges: Vec<FunctionEdge>,
    /// The uses of maps.
    pub uses: Vec<MapEdge>,
}

/// The language of a graph.
#[derive(Clone, Copy, PartialEq, Eq)]
pub enum GraphLanguage {
    /// Graphviz.
    Dot,
    /// A flowchart of Mermaid.
    Mermaid,
}

impl EdgeKind {
    /// The word for the kind.
    fn word(self) -> &'static str {
        match self {
            EdgeKind::Call => "call",
            EdgeKind::Load => "load",
        }
    }
}

impl GraphLanguage {
    /// A label in the language.
    fn label(self, text: &str) -> Escaped<'_> {
        let syntax = match self {
            GraphLanguage::Dot => Syntax::Dot,
            GraphLanguage::Mermaid => Syntax::Mermaid,
        };
        Escaped { syntax, text }
    }
}

/// Writes the node of a copy, by the number of the program and its own.
fn write_function<W: Write>(
    out: &mut W,
    language: GraphLanguage,
    number: usize,
    copy: usize,
    function: FunctionNode<'_>,
) -> io::Result<()> {
    let name = language.label(function.name);
    let slots = function.slots;
    write!(out, "    p{number}f{copy}")?;
    match language {
        GraphLanguage::Dot => writeln!(out, " [shape=box label=\"{name}\\n{slots} slots\"];"),
        GraphLanguage::Mermaid => writeln!(out, "[\"{name}<br/>{slots} slots\"]"),
    }
}

/// Writes the node of a map, by the number of the program and its own.
fn write_map<W: Write>(
    out: &mut W,
    language: GraphLanguage,
    number: usize,
    map: usize,
    name: &str,
) -> io::Result<()> {
    let name = language.label(name);
    write!(out, "    p{number}m{map}")?;
    match language {
        GraphLanguage::Dot => writeln!(out, " [shape=cylinder label=\"{name}\\nmap\"];"),
        GraphLanguage::Mermaid => writeln!(out, "[(\"{name}<br/>map\")]"),
    }
}

/// Writes the edge between two copies of a program.
fn write_edge<W: Write>(
    out: &mut W,
    language: GraphLanguage,
    number: usize,
    edge: FunctionEdge,
) -> io::Result<()> {
    let FunctionEdge { from, to, kind } = edge;
    let word = kind.word();
    write!(out, "    p{number}f{from} ")?;
    match language {
        GraphLanguage::Dot => writeln!(out, "-> p{number}f{to} [label={word}];"),
        GraphLanguage::Mermaid => writeln!(out, "-->|{word}| p{number}f{to}"),
    }
}

/// Writes the edge from a copy of a program to a map.
fn write_use<W: Write>(
    out: &mut W,
    language: GraphLanguage,
    number: usize,
    edge: MapEdge,
) -> io::Result<()> {
    let MapEdge { from, map } = edge;
    write!(out, "    p{number}f{from} ")?;
    match language {
        GraphLanguage::Dot => writeln!(out, "-> p{number}m{map} [style=dashed];"),
        GraphLanguage::Mermaid => writeln!(out, "-.-> p{number}m{map}"),
    }
}

/// Writes the start of a program, the one of a number: its title.
fn write_title<W: Write>(
    out: &mut W,
    language: GraphLanguage,
    number: usize,
    graph: &ProgramGraph<'_>,
) -> io::Result<()> {
    let name = language.label(graph.name);
    let slots = graph.slots;
    write!(out, "  subgraph ")?;
    match language {
        GraphLanguage::Dot => {
            writeln!(
                out,
                "cluster_{number} {{\n    label=\"{name}: {slots} slots\";"
            )
        }
        GraphLanguage::Mermaid => writeln!(out, "p{number}[\"{name}: {slots} slots\"]"),
    }
}

/// Writes the nodes of a program, the one of a number.
fn write_nodes<W: Write>(
    out: &mut W,
    language: GraphLanguage,
    number: usize,
    graph: &ProgramGraph<'_>,
) -> io::Result<()> {
    for (copy, function) in graph.functions.iter().copied().enumerate() {
        write_function(out, language, number, copy, function)?;
    }
    for (map, name) in graph.maps.iter().copied().enumerate() {
        write_map(out, language, number, map, name)?;
    }
    Ok(())
}

/// Writes the edges of a program, the one of a number.
fn write_edges<W: Write>(
    out: &mut W,
    language: GraphLanguage,
    number: usize,
    graph: &ProgramGraph<'_>,
) -> io::Result<()> {
    for edge in graph.edges.iter().copied() {
        write_edge(out, language, number, edge)?;
    }
    for edge in graph.uses.iter().copied() {
        write_use(out, language, number, edge)?;
    }
    Ok(())
}

/// Writes programs as one graph: a box for each copy of a function, an edge for each call and for each load of a
/// function's address, and a dashed edge to each map that a copy uses.
pub fn write_graphs<W: Write>(
    out: &mut W,
    language: GraphLanguage,
    graphs: &[ProgramGraph<'_>],
) -> io::Result<()> {
    let (start, program_end, end) = match language {
        GraphLanguage::Dot => ("digraph programs {\n  rankdir=LR;\n", "  }\n", "}\n"),
        GraphLanguage::Mermaid => ("flowchart LR\n", "  end\n", ""),
    };
    write!(out, "{start}")?;
    for (number, graph) in graphs.iter().enumerate() {
        write_title(out, language, number, graph)?;
        write_nodes(out, language, number, graph)?;
        write_edges(out, language, number, graph)?;
        write!(out, "{program_end}")?;
    }
    write!(out, "{end}")
}
