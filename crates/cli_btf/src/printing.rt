//! The text output of `ebpf btf`.

use crate::kernel_ids::NeededId;
use crate::objects::NamedObjects;
use crate::run::{Cut, CutKernel};
use cli_common::names::EscapedName;
use std::io::{self, Write};

/// Writes the line of a kernel that is done.
pub fn write_kernel<W: Write>(out: &mut W, kernel: &CutKernel) -> io::Result<()> {
    let name = EscapedName(kernel.name.as_str());
    match &kernel.answer {
        Cut::Written(sizes) => {
            write!(out, "{} of {} types, ", sizes.least_types, sizes.types)?;
            writeln!(
                out,
                "{} of {} bytes  {name}",
                sizes.least_bytes, sizes.bytes
            )
        }
        Cut::Refused(_) => writeln!(out, "not written  {name}"),
    }
}

/// Writes the object of a use, by its file and its number where the file holds several.
fn write_object<W: Write>(out: &mut W, all: &NamedObjects, object: usize) -> io::Result<()> {
    let Some(name) = all.names.get(object) else {
        return Ok(());
    };
    let path = EscapedName(name.path.as_str());
    write!(out, "  {path}")?;
    match name.number {
        Some(number) => write!(out, " object {number}"),
        None => Ok(()),
    }
}

/// Writes the line of a use of the kernel's ids.
fn write_needed<W: Write>(out: &mut W, all: &NamedObjects, needed: &NeededId) -> io::Result<()> {
    let name = EscapedName(needed.name.as_str());
    let kind = needed.kind.word();
    write!(out, "  {name}  <{kind}>")?;
    write_object(out, all, needed.object)?;
    if let Some(location) = &needed.location {
        let location = EscapedName(location.as_str());
        write!(out, " {location}")?;
    }
    if let Some(number) = needed.number {
        write!(out, " relocation {number}")?;
    }
    writeln!(out, "")
}

/// Writes what the files lack: the kernel's ids that objects need. Nothing where no object needs one.
pub fn write_lacking<W: Write>(
    out: &mut W,
    all: &NamedObjects,
    needed: &[NeededId],
) -> io::Result<()> {
    if needed.is_empty() {
        return Ok(());
    }
    writeln!(out, "")?;
    writeln!(out, "NOT KEPT (ids of the kernel's types)")?;
    for one in needed {
        write_needed(out, all, one)?;
    }
    Ok(())
}
