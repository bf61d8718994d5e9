//! An object's file, read, with the kernel of a command line.

ghost use Rattle.std.specs.Prelude.{◌≡◌, IfOk, OnOk};
ghost use Rattle.cli_prepare.specs.KernelValues.{with_kconfig};
ghost use Rattle.cli_prepare.specs.Opened.{IsOpened};

use crate::kconfig_help::refuse_settings;
use crate::kconfig_values::define_settings;
use crate::kernel::{Kernel, given_kernel};
use crate::prepared::PrepareWords;
use cli_common::object_file::{parsed_object, read_object};
use cli_common::programs::ObjectProgram;
use cli_common::refuse::{Stop, chosen_programs};
use ebpf_object::Object;

/// A parsed object, with the chosen programs and the kernel. No pass was made over the object.
#[derive(Drop)]
pub struct Opened {
    /// The bytes of its file.
    pub file: Vec<u8>,
    /// The object as it was parsed, with the externs defined that the kernel's configuration gives.
    pub parsed: Object,
    /// The programs that are chosen, or all, in byte order of their names.
    pub programs: Vec<ObjectProgram>,
    /// The kernel.
    pub kernel: Kernel,
}

/// The programs and the kernel of the arguments.
#[derive(Drop)]
struct Chosen {
    programs: Vec<ObjectProgram>,
    kernel: Kernel,
}

/// Defines the kconfig externs of an object; a refusal is reported.
fn define(
    rt: &HostRuntime,
    words: &PrepareWords,
    parsed: &mut Object,
    kernel: &Kernel,
) -> Result<(), Stop>
    ensures { OnOk result (parsed.new ≡ with_kconfig kernel.now parsed.old) }
{
    match define_settings(rt.alloc(), parsed, kernel) {
        Ok(()) => Ok(()),
        Err(error) => {
            let stop = refuse_settings(rt, words, &error);
            drop(error);
            Err(stop)
        }
    }
}

/// The programs and the kernel that the arguments choose for a parsed object, whose kconfig externs are defined.
fn chosen_of(
    rt: &HostRuntime,
    words: &PrepareWords,
    file: &[u8],
    parsed: &mut Object,
) -> Result<Chosen, Stop>
    ensures { IfOk result (λ chosen. parsed.new ≡ with_kconfig chosen.kernel parsed.old) }
{
    let (path, names) = (words.file.as_str(), words.programs.as_slice());
    let programs = chosen_programs(rt, words.json, path, file, parsed, names)?;
    let kernel = given_kernel(rt, words, parsed.endianness)?;
    define(rt, words, parsed, &kernel)?;
    Ok(Chosen { programs, kernel })
}

/// A parsed object with the programs and the kernel of the arguments.
fn with_chosen(file: Vec<u8>, parsed: Object, chosen: Chosen) -> Opened
    ensures file { result.file ≡ file }
    ensures parsed { result.parsed ≡ parsed }
    ensures kernel { result.kernel ≡ chosen.kernel }
{
    let Chosen { programs, kernel } = chosen;
    Opened {
        file,
        parsed,
        programs,
        kernel,
    }
}

/// Reads the object's file, leniently, then the kernel's types, symbols and configuration that are given, and defines the
/// kconfig externs. Refusals are reported: with status 2 where a file can't be read or a name is no program's, with status 1
/// where the object is refused.
pub fn open_file(rt: &HostRuntime, words: &PrepareWords) -> Result<Opened, Stop>
    ensures { IfOk result IsOpened }
{
    let file = read_object(rt, words.json, words.file.as_str(), words.object)?;
    let mut parsed = parsed_object(rt, words.json, words.file.as_str(), &file)?;
    match chosen_of(rt, words, &file, &mut parsed) {
        Ok(chosen) => Ok(with_chosen(file, parsed, chosen)),
        Err(stop) => {
            drop(parsed);
            Err(stop)
        }
    }
}
