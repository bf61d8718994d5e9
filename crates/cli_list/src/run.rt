//! The command `ebpf list`.

use crate::json::write_json;
use crate::layout::ListedLayout;
use crate::listing::{ObjectContents, ObjectListing, layouts_of, listing_of, wanted_by};
use crate::page::write_page;
use crate::struct_ops::struct_ops_fault;
use crate::text::write_listing;
use cli_common::object_file::{parsed_object, read_object};
use cli_common::refuse::Stop;
use cli_output::files::first_failure;
use cli_output::palette::{ColorChoice, Palette};
use ebpf_base::{Items, Text};
use ebpf_object::Object;
use std::io::{BufWriter, Write};

/// The arguments of `ebpf list`.
#[derive(Drop)]
pub struct ListWords {
    /// The object's file.
    pub file: Text,
    /// Which of the objects in the file, where it holds several.
    pub object: Option<usize>,
    /// Whether the output is JSON.
    pub json: bool,
    /// The colours of the text.
    pub color: ColorChoice,
    /// The file of the page, where one is written.
    pub html: Option<Text>,
}

/// Prints the contents of an object, as text or as JSON.
fn write_output(
    rt: &HostRuntime,
    words: &ListWords,
    listing: &ObjectListing<'_>,
) -> Result<(), Stop> {
    let alloc = rt.alloc();
    let mut out = BufWriter::new(alloc, rt.stdout())?;
    if words.json {
        let fault = struct_ops_fault(alloc, listing)?;
        let fault = fault.as_ref().map(|fault| fault.as_str());
        write_json(&mut out, words.file.as_str(), listing, fault)?;
    } else {
        let palette = Palette::of(rt, words.color);
        write_listing(alloc, &mut out, palette, words.file.as_str(), listing)?;
    }
    out.flush()?;
    Ok(())
}

/// Writes the page of an object, where a file for it is named.
fn write_page_file(
    rt: &HostRuntime,
    words: &ListWords,
    listing: &ObjectListing<'_>,
) -> Result<(), Stop> {
    match &words.html {
        Some(path) => write_page(rt, path.as_str(), words.file.as_str(), listing),
        None => Ok(()),
    }
}

/// Writes the page of an object and prints its contents; each is tried. Returns the first failure.
fn write_contents(
    rt: &HostRuntime,
    words: &ListWords,
    object: &Object,
    wanted: &ObjectContents,
    layouts: &Items<ListedLayout>,
) -> Result<(), Stop> {
    let listing = listing_of(rt.alloc(), object, wanted, layouts)?;
    let page = write_page_file(rt, words, &listing);
    let output = write_output(rt, words, &listing);
    first_failure(page, output)
}

/// Prints the contents of an object, and writes its externs meanwhile.
fn list_object(
    rt: &HostRuntime,
    words: &ListWords,
    file: &[u8],
    object: &mut Object,
) -> Result<(), Stop> {
    let alloc = rt.alloc();
    let wanted = wanted_by(alloc, file, object)?;
    let layouts = layouts_of(alloc, object, &wanted)?;
    write_contents(rt, words, object, &wanted, &layouts)
}

/// Prints the contents of the object in a file's bytes.
fn list_bytes(rt: &HostRuntime, words: &ListWords, file: &[u8]) -> Result<(), Stop> {
    let mut object = parsed_object(rt, words.json, words.file.as_str(), file)?;
    let done = list_object(rt, words, file, &mut object);
    drop(object);
    done
}

/// Runs `ebpf list`, and returns the status.
pub fn list(rt: &HostRuntime, words: &ListWords) -> Result<u8, Stop> {
    let file = read_object(rt, words.json, words.file.as_str(), words.object)?;
    list_bytes(rt, words, &file)?;
    Ok(0)
}
