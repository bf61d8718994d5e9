//! What `ebpf btf --json` prints.

use crate::kernel_ids::NeededId;
use crate::objects::NamedObjects;
use crate::run::{Cut, CutKernel};
use cli_common::json::{JsonWriter, write_document};
use ebpf_base::Text;
use std::io::{self, Write};

/// Writes a kernel: its sizes and those of its least types, or why they aren't written.
fn write_kernel<W: Write>(json: &mut JsonWriter<'_, W>, kernel: &CutKernel) -> io::Result<()> {
    json.member("name", kernel.name.as_str())?;
    match &kernel.answer {
        Cut::Written(sizes) => {
            json.member("output", kernel.output.as_str())?;
            json.member("types", sizes.types)?;
            json.member("bytes", sizes.bytes)?;
            json.member("least_types", sizes.least_types)?;
            json.member("least_bytes", sizes.least_bytes)
        }
        Cut::Refused(refusal) => json.member("error", refusal.text.as_str()),
    }
}

/// Writes a use of the kernel's ids.
fn write_needed<W: Write>(
    json: &mut JsonWriter<'_, W>,
    all: &NamedObjects,
    needed: &NeededId,
) -> io::Result<()> {
    json.member("name", needed.name.as_str())?;
    json.member("kind", needed.kind.word())?;
    if let Some(name) = all.names.get(needed.object) {
        json.member("file", name.path.as_str())?;
        json.member("object", name.number)?;
    }
    json.member(
        "location",
        needed.location.as_ref().map(|text| text.as_str()),
    )?;
    json.member("relocation", needed.number)
}

/// Writes what was done as one JSON object, on one line.
pub fn write_json<W: Write>(
    out: &mut W,
    files: &[Text],
    status: u8,
    kernels: &[CutKernel],
    all: &NamedObjects,
    needed: &[NeededId],
) -> io::Result<()> {
    write_document(out, |json| {
        json.values("files", files.iter().map(|file| file.as_str()))?;
        json.objects("kernels", kernels.iter(), |json, kernel| {
            write_kernel(json, kernel)
        })?;
        json.objects("not_kept", needed.iter(), |json, needed| {
            write_needed(json, all, needed)
        })?;
        json.member("status", u32::from(status))
    })
}
