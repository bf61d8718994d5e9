//! An object's file, read and prepared.

ghost use Rattle.std.specs.Prelude.{ℕ, List, IfOk, IfErr};
ghost use Rattle.cli_common.specs.DefaultPasses.{default_passes};
ghost use Rattle.ebpf_ksyms.specs.Sources.{Text as TextLines};
ghost use Rattle.ebpf_object.specs.Headline.{Headline};
ghost use Rattle.ebpf_object.specs.Prepared.{IsParsed, IsFirstPrepareFault, RefusesPreparing, Stages};
ghost use Rattle.ebpf_parts.specs.declared.parse_mode.ParseMode.{ParseMode};

use crate::kernel::Kernel;
use crate::opened::{Opened, open_file};
use crate::passes::{chosen_maps, pass_all};
use crate::refusals::refuse_preparing;
use cli_common::programs::ObjectProgram;
use cli_common::refuse::Stop;
use ebpf_base::{Items, Text};
use ebpf_core_relo::RecordOutcome;
use ebpf_object::Object;
use ebpf_object::prepare::{PrepareError, Steps, SymbolText, numbered_descriptors, prepare_copy};
use ebpf_object::relocation::LinkMap;
use ebpf_outcomes::{AskedOutcomes, MapOutcome, PreparedWithOutcomes};
use std::alloc::{AllocError, Global};

/// The arguments of a command that prepares an object.
#[derive(Drop)]
pub struct PrepareWords {
    /// The object's file.
    pub file: Text,
    /// The number of the object in the file, where it holds several.
    pub object: Option<usize>,
    /// The file with the kernel's types: raw ones, or an ELF file with a section `.BTF`.
    pub btf: Option<Text>,
    /// The file with the kernel's symbols, as /proc/kallsyms.
    pub kallsyms: Option<Text>,
    /// The file with the kernel's configuration, as /boot/config-RELEASE.
    pub kconfig: Option<Text>,
    /// The number of the kernel's version, as `version_number` gives it.
    pub kernel: Option<u32>,
    /// The programs that are chosen, where they are named.
    pub programs: Items<Text>,
    /// Whether a refusal is printed as JSON too.
    pub json: bool,
}

/// A prepared object, with its parts before and after the passes.
#[derive(Drop)]
pub struct Prepared {
    /// The object as it was parsed, with the externs defined that the kernel's configuration gives: no pass was made over it.
    pub parsed: Object,
    /// The object after all passes.
    pub object: Object,
    /// The programs that are chosen, or all, in byte order of their names.
    pub programs: Vec<ObjectProgram>,
    /// The link map of each of them, in the same order: copies of functions, and the references between these.
    pub link_maps: Items<LinkMap>,
    /// The outcomes of its CO-RE relocations, section by section and in order; none where the kernel's types aren't given.
    pub records: Items<RecordOutcome>,
    /// The outcomes of its relocations to maps, where they are asked for.
    pub maps: Items<MapOutcome>,
}

/// A copy of an object after all passes: types where the kernel's are known, descriptors of its maps, 1 and on in byte order
/// of their names, externs, calls.
///
/// # Errors
///
/// Those of `prepare_copy`.
pub fn finished_object(
    alloc: Global,
    object: &Object,
    kernel: &Kernel,
) -> Result<Object, PrepareError>
    ensures stages { IfOk result
        (Stages (default_passes kernel.now.types object.now.maps)
        (TextLines kernel.now.symbols.items) object.now) }
    ensures headline { (mode : ParseMode) (file : List ℕ)
        → IsParsed mode file object.now
        → IfOk result
        (Headline (default_passes kernel.now.types object.now.maps)
        (TextLines kernel.now.symbols.items) mode file) }
    ensures refused { (mode : ParseMode) (file : List ℕ)
        → IsParsed mode file object.now
        → IfErr result
        (RefusesPreparing
        (IsFirstPrepareFault (default_passes kernel.now.types object.now.maps)
        (TextLines kernel.now.symbols.items) mode file)) }
{
    let Ok(names) = object.map_names(alloc) else {
        return Err(PrepareError::OutOfMemory);
    };
    let Ok(descriptors) = numbered_descriptors(alloc, names.as_slice()) else {
        return Err(PrepareError::OutOfMemory);
    };
    let types = kernel.types.as_ref();
    prepare_copy(
        alloc,
        object,
        &Steps::all_with(types, &descriptors),
        SymbolText(&kernel.symbols),
    )
}

/// An object after all passes; the refusal of a pass is reported.
fn pass_opened(
    rt: &HostRuntime,
    words: &PrepareWords,
    asked: AskedOutcomes,
    opened: &Opened,
) -> Result<PreparedWithOutcomes, Stop> {
    let parsed = &opened.parsed;
    match pass_all(rt.alloc(), parsed, &opened.kernel, asked) {
        Ok(passed) => Ok(passed),
        Err(error) => {
            let stop = refuse_preparing(rt, words, opened, &error);
            drop(error);
            Err(stop)
        }
    }
}

/// An object before and after the passes, with the link maps of the chosen programs.
fn with_passed(
    alloc: Global,
    opened: Opened,
    passed: PreparedWithOutcomes,
) -> Result<Prepared, AllocError> {
    let Opened {
        file,
        parsed,
        programs,
        kernel,
    } = opened;
    drop(file);
    drop(kernel);
    let PreparedWithOutcomes {
        object,
        records,
        maps,
        externs,
        link_maps,
    } = passed;
    drop(externs);
    let link_maps = chosen_maps(alloc, &object, link_maps, &programs)?;
    Ok(Prepared {
        parsed,
        object,
        programs,
        link_maps,
        records,
        maps,
    })
}

/// Opens the object's file as `open_file` does, and makes all passes over the object: types where they are given, maps,
/// externs, calls. The outcomes that are asked for come with it. The refusal of a pass is reported, with status 1.
pub fn prepare_file(
    rt: &HostRuntime,
    words: &PrepareWords,
    asked: AskedOutcomes,
) -> Result<Prepared, Stop> {
    let opened = open_file(rt, words)?;
    match pass_opened(rt, words, asked, &opened) {
        Ok(passed) => Ok(with_passed(rt.alloc(), opened, passed)?),
        Err(stop) => {
            drop(opened);
            Err(stop)
        }
    }
}
