//! The failures of `ebpf-link` and `ebpf-inspect`.

ghost use Rattle.std.specs.Prelude.{◌≡◌};

use cli_common::pass_names::pass_and_variant;
use cli_common::variants::variant_of_types;
use ebpf_btf::BtfError;
use ebpf_object::prepare::PrepareError;
use std::fmt;
use std::io::Write;

/// The reason why nothing, or not all, was printed.
#[derive(Debug, Drop)]
pub enum Failure<'a> {
    /// A file can't be read.
    CannotRead(&'a str),
    /// The kernel's types can't be read.
    Btf(BtfError),
    /// The object can't be prepared.
    Preparing(PrepareError),
    /// No program has the name.
    NoProgram(&'a str),
    /// A writer failed.
    CannotWrite,
    /// An allocation failed.
    Memory,
}

/// Writes the pass that refuses an object, and the name of its error's variant.
fn write_refusal<W: fmt::Write>(error: &PrepareError, f: &mut fmt::Formatter<W>) -> fmt::Result {
    if matches!(error, PrepareError::OutOfMemory) {
        return write!(f, "memory");
    }
    let (pass, variant) = pass_and_variant(error);
    write!(f, "{pass}: {variant}")
}

/// The text behind the program's name.
impl fmt::Display for Failure<'_> {
    fn fmt<W: fmt::Write>(&self, f: &mut fmt::Formatter<W>) -> fmt::Result {
        match self {
            Failure::CannotRead(path) => write!(f, "cannot read {path}"),
            Failure::Btf(error) => {
                let variant = variant_of_types(error);
                write!(f, "btf: {variant}")
            }
            Failure::Preparing(error) => write_refusal(error, f),
            Failure::NoProgram(name) => write!(f, "no program {name}"),
            Failure::CannotWrite => write!(f, "cannot write"),
            Failure::Memory => write!(f, "memory"),
        }
    }
}

/// Writes the one line of a failure of the program with this name, and gives its status.
pub fn report<W: Write>(program: &str, failure: Failure<'_>, err: &mut W) -> u8
    ensures { result ≡ 1 }
{
    let _ = writeln!(err, "{program}: {failure}");
    drop(failure);
    1
}

/// Reports that a file can't be read, in one line of the program with this name, and gives the status 1.
pub fn cannot_read<W: Write>(program: &str, path: &str, err: &mut W) -> u8
    ensures { result ≡ 1 }
{
    report(program, Failure::CannotRead(path), err)
}
