//! The command `ebpf inspect`.

use crate::graphs::graphs_of;
use crate::json::write_json;
use crate::parts::{ProgramParts, all_parts};
use crate::text::write_inspected;
use crate::uses::FunctionUses;
use cli_common::programs::ObjectProgram;
use cli_common::refuse::Stop;
use cli_formats::graph::{GraphLanguage, write_graphs};
use cli_output::palette::{ColorChoice, Palette};
use cli_prepare::{AskedOutcomes, PrepareWords, Prepared, prepare_file};
use ebpf_base::Items;
use ebpf_object::Object;
use ebpf_object::relocation::LinkMap;
use std::io::{BufWriter, Write};

/// The arguments of `ebpf inspect`.
#[derive(Drop)]
pub struct InspectWords {
    /// The object, and what it is prepared with.
    pub prepare: PrepareWords,
    /// The language of the graph, where one is printed.
    pub graph: Option<GraphLanguage>,
    /// The colours of the text.
    pub color: ColorChoice,
}

/// The parts of a prepared object that are printed.
#[derive(Drop)]
struct InspectedObject {
    /// The object as it was parsed.
    parsed: Object,
    /// Its programs.
    programs: Vec<ObjectProgram>,
    /// What each of them is made of.
    link_maps: Items<LinkMap>,
}

impl InspectedObject {
    /// The parts of an object that are printed. The rest is dropped first: to print takes as much memory as the object
    /// after all passes.
    fn of(prepared: Prepared) -> InspectedObject {
        let Prepared {
            parsed,
            object,
            programs,
            link_maps,
            records,
            maps,
        } = prepared;
        drop(object);
        drop(records);
        drop(maps);
        InspectedObject {
            parsed,
            programs,
            link_maps,
        }
    }
}

/// Writes the parts of programs, as text or as JSON.
fn write_parts(
    rt: &HostRuntime,
    words: &InspectWords,
    parsed: &Object,
    programs: &[ProgramParts<'_>],
) -> Result<(), Stop> {
    let alloc = rt.alloc();
    let mut out = BufWriter::new(alloc, rt.stdout())?;
    if words.prepare.json {
        write_json(&mut out, words.prepare.file.as_str(), programs)?;
    } else {
        let palette = Palette::of(rt, words.color);
        write_inspected(alloc, &mut out, palette, parsed, programs)?;
    }
    out.flush()?;
    Ok(())
}

/// Writes programs as a graph; `uses` has what their functions use.
fn write_graph(
    rt: &HostRuntime,
    language: GraphLanguage,
    uses: &FunctionUses,
    programs: &[ProgramParts<'_>],
) -> Result<(), Stop> {
    let alloc = rt.alloc();
    let graphs = graphs_of(alloc, uses, programs)?;
    let mut out = BufWriter::new(alloc, rt.stdout())?;
    write_graphs(&mut out, language, &graphs)?;
    out.flush()?;
    Ok(())
}

/// Writes the parts of an object's programs, or their graph; `uses` has what its functions use.
fn write_programs(
    rt: &HostRuntime,
    words: &InspectWords,
    object: &InspectedObject,
    uses: &FunctionUses,
) -> Result<(), Stop> {
    let maps = object.link_maps.as_slice();
    let programs = all_parts(rt.alloc(), uses, &object.programs, maps)?;
    match words.graph {
        Some(language) => write_graph(rt, language, uses, &programs),
        None => write_parts(rt, words, &object.parsed, &programs),
    }
}

/// Writes the parts of an object's programs, as text, as JSON or as a graph.
fn write_object(
    rt: &HostRuntime,
    words: &InspectWords,
    object: &InspectedObject,
) -> Result<(), Stop> {
    let uses = FunctionUses::of(rt.alloc(), &object.parsed)?;
    write_programs(rt, words, object, &uses)
}

/// Runs `ebpf inspect`, and returns the status.
pub fn inspect(rt: &HostRuntime, words: &InspectWords) -> Result<u8, Stop> {
    let object = InspectedObject::of(prepare_file(rt, &words.prepare, AskedOutcomes::NONE)?);
    let done = write_object(rt, words, &object);
    drop(object);
    done?;
    Ok(0)
}
