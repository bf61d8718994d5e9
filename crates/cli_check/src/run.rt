//! The run of `ebpf check` over the kernels of a command line.

use crate::json::write_json;
use crate::kernel_files::{KernelFile, kernel_files};
use crate::matrix_files::{write_files, write_lines};
use crate::printing::{write_findings, write_kernel};
use crate::session::{Judgement, Session};
use crate::verdict::loaded::{Loaded, Needs, externs_with_values};
use cli_common::object_file::{parsed_object, read_object};
use cli_common::programs::ObjectProgram;
use cli_common::refusal::{FileRefusal, READING};
use cli_common::refuse::{Stop, chosen_programs, tell};
use cli_common::vmlinux_btf::read_kernel;
use cli_output::files::first_failure;
use cli_output::palette::{ColorChoice, Palette};
use cli_output::progress::{KernelProgress, ProgressLine};
use ebpf_base::{ByName, Items, Text};
use ebpf_model::ExternDesc;
use ebpf_object::Object;
use std::alloc::{AllocError, Global};
use std::io::{self, BufWriter, Stdout, Write};

/// The arguments of `ebpf check`.
#[derive(Drop)]
pub struct CheckWords {
    /// The version of the program.
    pub version: &'static str,
    /// The object's file.
    pub file: Text,
    /// The number of the object in the file, where it holds several.
    pub object: Option<usize>,
    /// The kernels: files and folders.
    pub kernels: Items<Text>,
    /// The programs that count, where they are named.
    pub programs: Items<Text>,
    /// Whether every kernel and each changed value is listed.
    pub all: bool,
    /// Whether a program without a target makes the status 1.
    pub strict: bool,
    /// Whether the output is JSON.
    pub json: bool,
    /// The colours of the text.
    pub color: ColorChoice,
    /// Whether the progress is shown without a terminal too.
    pub progress: bool,
    /// Whether the output is annotations of GitHub's workflows alone.
    pub annotations: bool,
    /// The file of the page, where one is written.
    pub html: Option<Text>,
    /// The file of the log for code scanning, where one is written.
    pub sarif: Option<Text>,
}

impl CheckWords {
    /// Whether the output is text.
    fn prints_text(&self) -> bool {
        !self.json && !self.annotations
    }

    /// Whether files are written.
    pub fn has_files(&self) -> bool {
        self.html.is_some() || self.sarif.is_some()
    }
}

/// Programs without the optional ones.
fn without_optional(
    alloc: Global,
    programs: Vec<ObjectProgram>,
) -> Result<Vec<ObjectProgram>, AllocError> {
    let mut counted = Vec::new(alloc);
    for program in programs {
        if program.is_optional() {
            continue;
        }
        counted.push(program)?;
    }
    Ok(counted)
}

/// The programs of an object that count: those of the names or, without a name, those that aren't optional. A name that no
/// program has is reported.
fn programs_that_count(
    rt: &HostRuntime,
    words: &CheckWords,
    file: &[u8],
    object: &Object,
) -> Result<Vec<ObjectProgram>, Stop> {
    let (path, names) = (words.file.as_str(), words.programs.as_slice());
    let programs = chosen_programs(rt, words.json, path, file, object, names)?;
    if names.is_empty() {
        return Ok(without_optional(rt.alloc(), programs)?);
    }
    Ok(programs)
}

/// The needs of an object, and its externs as they are judged.
#[derive(Drop)]
struct Asked {
    needs: Needs,
    externs: ByName<ExternDesc>,
}

/// The needs of the object of a file's bytes, with the programs that count.
fn needs_of(
    rt: &HostRuntime,
    words: &CheckWords,
    file: &[u8],
    object: &Object,
) -> Result<Asked, Stop> {
    let alloc = rt.alloc();
    let programs = programs_that_count(rt, words, file, object)?;
    let needs = Needs::of(alloc, object, programs, words.all)?;
    let externs = externs_with_values(alloc, object, needs.settings.as_slice())?;
    Ok(Asked { needs, externs })
}

/// An object with its needs.
fn with_needs(object: Object, asked: Result<Asked, Stop>) -> Result<Loaded, Stop> {
    match asked {
        Ok(asked) => {
            let mut object = object;
            object.externs = asked.externs;
            Ok(Loaded {
                object,
                needs: asked.needs,
            })
        }
        Err(stop) => {
            drop(object);
            Err(stop)
        }
    }
}

/// Reads the object's file, with the programs that count.
fn load(rt: &HostRuntime, words: &CheckWords) -> Result<Loaded, Stop> {
    let path = words.file.as_str();
    let file = read_object(rt, words.json, path, words.object)?;
    let object = parsed_object(rt, words.json, path, &file)?;
    let asked = needs_of(rt, words, &file, &object);
    with_needs(object, asked)
}

/// Judges the programs over the kernel of a file.
fn judge_file(rt: &HostRuntime, session: &mut Session, name: Text) -> Result<(), Stop> {
    let order = session.loaded.object.endianness;
    match read_kernel(rt, name.as_str(), order)? {
        Ok(kernel) => Ok(session.judge(rt.alloc(), name, &kernel)?),
        Err(refusal) => Ok(session.note_unread(name, refusal)?),
    }
}

/// The refusal of a folder without files.
fn folder_refusal(alloc: Global, fault: &Text) -> Result<FileRefusal, AllocError> {
    Ok(FileRefusal {
        stage: READING,
        variant: "CannotRead",
        text: String::from_str(alloc, fault.as_str())?,
        help: None,
    })
}

/// Judges the programs over a kernel; notes a folder without files.
fn judge_kernel_file(
    rt: &HostRuntime,
    session: &mut Session,
    kernel: &KernelFile,
) -> Result<(), Stop> {
    let name = kernel.path.clone()?;
    match &kernel.fault {
        Some(fault) => Ok(session.note_unread(name, folder_refusal(rt.alloc(), fault)?)?),
        None => judge_file(rt, session, name),
    }
}

/// Reports the last kernel where its types can't be read. Annotations have their own lines for it, since a name within a
/// line of standard error can be a command for a workflow.
fn report_unread(rt: &HostRuntime, words: &CheckWords, session: &Session) {
    if words.annotations {
        return;
    }
    let Some(kernel) = session.kernels.last() else {
        return;
    };
    if let Judgement::Unread(refusal) = &kernel.answer {
        tell(rt, kernel.name.as_str(), refusal);
    }
}

/// Writes the line of the last kernel.
fn write_last_kernel(out: &mut BufWriter<Stdout>, session: &Session) -> io::Result<()> {
    let programs = session.loaded.needs.programs.len();
    match session.kernels.last() {
        Some(kernel) => {
            write_kernel(out, session.palette, kernel, programs)?;
            out.flush()
        }
        None => Ok(()),
    }
}

/// The progress over kernels, before one of them is judged.
fn progress_of<'a>(
    session: &Session,
    kernels: &[KernelFile],
    current: &'a KernelFile,
) -> KernelProgress<'a> {
    KernelProgress {
        done: session.kernels.len(),
        all: kernels.len(),
        broken: session.broken(),
        current: current.path.as_str(),
    }
}

/// Judges the programs over a kernel. Shows the progress before, where it is due.
fn judge_next(
    rt: &HostRuntime,
    words: &CheckWords,
    session: &mut Session,
    kernels: &[KernelFile],
    kernel: &KernelFile,
    line: &mut ProgressLine,
) -> Result<(), Stop> {
    if line.is_due(rt) {
        line.show(rt, progress_of(session, kernels, kernel));
    }
    let judged = judge_kernel_file(rt, session, kernel);
    line.clear(rt);
    judged?;
    report_unread(rt, words, session);
    Ok(())
}

/// Judges the programs over each kernel and, of text, writes its line when it is done.
fn judge_kernels(
    rt: &HostRuntime,
    words: &CheckWords,
    session: &mut Session,
    kernels: &[KernelFile],
    out: &mut BufWriter<Stdout>,
) -> Result<(), Stop> {
    let mut line = ProgressLine::new(rt, words.progress && !words.annotations);
    for kernel in kernels {
        judge_next(rt, words, session, kernels, kernel, &mut line)?;
        if words.prints_text() {
            write_last_kernel(out, session)?;
        }
    }
    Ok(())
}

/// Writes the findings over all kernels: text, JSON or annotations.
fn write_output(
    rt: &HostRuntime,
    words: &CheckWords,
    session: &Session,
    out: &mut BufWriter<Stdout>,
) -> Result<(), Stop> {
    if words.json {
        write_json(out, session)?;
    } else if words.annotations {
        write_lines(rt, words, session, out)?;
    } else {
        write_findings(out, session)?;
    }
    out.flush()?;
    Ok(())
}

/// Writes the files that are named and the output; each is tried. Returns the first failure.
fn write_all(
    rt: &HostRuntime,
    words: &CheckWords,
    session: &Session,
    out: &mut BufWriter<Stdout>,
) -> Result<(), Stop> {
    let files = write_files(rt, words, session);
    let output = write_output(rt, words, session, out);
    first_failure(files, output)
}

/// Judges the programs over kernels without a line for each, and writes the files that are named.
fn write_files_alone(
    rt: &HostRuntime,
    words: &CheckWords,
    session: &mut Session,
    kernels: &[KernelFile],
) -> Result<(), Stop> {
    for kernel in kernels {
        judge_kernel_file(rt, session, kernel)?;
        report_unread(rt, words, session);
    }
    write_files(rt, words, session)
}

/// Writes the files that are named where the output can't be written: the remaining kernels are judged first.
fn write_without_output(
    rt: &HostRuntime,
    words: &CheckWords,
    session: &mut Session,
    kernels: &[KernelFile],
) -> Result<(), Stop> {
    if !words.has_files() {
        return Ok(());
    }
    let rest = kernels.get(session.kernels.len()..).unwrap_or(&[]);
    write_files_alone(rt, words, session, rest)
}

/// Judges the programs over these kernels, writes the findings, and gives the status.
fn check_files(
    rt: &HostRuntime,
    words: &CheckWords,
    session: &mut Session,
    kernels: &[KernelFile],
) -> Result<u8, Stop> {
    let mut out = BufWriter::new(rt.alloc(), rt.stdout())?;
    match judge_kernels(rt, words, session, kernels, &mut out) {
        Ok(()) => write_all(rt, words, session, &mut out)?,
        Err(Stop::Output(error)) => {
            write_without_output(rt, words, session, kernels)?;
            return Err(Stop::Output(error));
        }
        Err(stop) => return Err(stop),
    }
    Ok(session.status())
}

/// Judges the programs over the kernels of the command line, writes the findings, and gives the status.
fn check_kernels(rt: &HostRuntime, words: &CheckWords, session: &mut Session) -> Result<u8, Stop> {
    let kernels = kernel_files(rt, words.kernels.as_slice())?;
    check_files(rt, words, session, kernels.as_slice())
}

/// Runs `ebpf check`, and gives the status. It alone holds the object, and has no early return while it does: each way out of
/// a function is proved to drop what it holds.
pub fn check(rt: &HostRuntime, words: &CheckWords) -> Result<u8, Stop> {
    let name = words.file.clone()?;
    let loaded = load(rt, words)?;
    let palette = Palette::of(rt, words.color);
    let mut session = Session::new(rt.alloc(), name, loaded, palette, words.all, words.strict);
    check_kernels(rt, words, &mut session)
}
