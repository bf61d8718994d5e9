//! Refusals, and what one does about them.

use ebpf_object::Object;
use ebpf_object::obj::{ExplainedParse, ParseError};
use ebpf_object::prepare::PrepareError;
use std::io;

/// What one does about a refusal, by the stage that refused.
fn advice(error: &PrepareError) -> &'static str {
    match error {
        PrepareError::Parse(_) => "compile again, or take another file",
        PrepareError::Types(_) => "take the file that fits the kernel, or its own types",
        PrepareError::Maps(_) => "make the map, and give its descriptor by its name",
        PrepareError::Ksyms(_) => "declare the extern weak, or give the kernel's types",
        PrepareError::Externs(_) => "resolve the externs before they are written",
        PrepareError::Calls(_) =>
            "resolve the externs that are called, and link the files that have the functions",
        PrepareError::OutOfMemory => "try again with more memory",
        PrepareError::MissingDescriptor { .. } =>
            "make the map, and give its descriptor by its name",
        PrepareError::UnknownMap { .. } => "take the names that the object has",
        PrepareError::UnwrittenExtern { .. } => "compile with types, and choose externs",
    }
}

/// Prints why a file can't be parsed.
pub fn print_unparsed(rt: &HostRuntime, file: &[u8], error: &ParseError) -> io::Result<()> {
    let explained = ExplainedParse::new(file, error);
    println!(rt; "refused: {explained}")
}

/// Prints why the passes over an object were refused, with the names that the object has, and what one does about it.
pub fn print_refused(rt: &HostRuntime, object: &Object, error: &PrepareError) -> io::Result<()> {
    let explained = object.explain(error);
    println!(rt; "refused: {explained}")?;
    let advice = advice(error);
    println!(rt; "  {advice}")
}
