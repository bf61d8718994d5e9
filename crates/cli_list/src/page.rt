//! The page of `ebpf list`.

use crate::arena::arena_table;
use crate::listing::ObjectListing;
use crate::struct_ops::{struct_ops_fault, struct_ops_table, struct_ops_texts};
use crate::tables::{
    externs_table, helpers_table, maps_table, order_word, programs_table, records_table,
    settings_table, unreached_table,
};
use cli_common::refuse::Stop;
use cli_output::files::write_file;
use cli_pages::list_page::{ListPage, PageFact, write_list_page};
use cli_pages::tables::{PageCell, PageTable};
use std::alloc::{AllocError, Global};

/// Parts of an object that aren't texts in it, as texts.
#[derive(Drop)]
struct PageTexts {
    /// The license, where the file states one. Bytes that aren't UTF-8 are U+FFFD.
    license: Option<String>,
    /// The version of the kernel that the object is for, where it states one.
    version: Option<String>,
    /// The programs of each map of struct_ops.
    struct_ops: Vec<String>,
    /// The reason why the maps of struct_ops can't be read, if there is one.
    struct_ops_fault: Option<String>,
}

/// The license as a text.
fn license_text(alloc: Global, license: Option<&[u8]>) -> Result<Option<String>, AllocError> {
    match license {
        Some(license) => Ok(Some(String::from_utf8_lossy(alloc, license)?)),
        None => Ok(None),
    }
}

/// The version of a kernel as a text.
fn version_text(alloc: Global, version: Option<u32>) -> Result<Option<String>, AllocError> {
    let Some(version) = version else {
        return Ok(None);
    };
    let (first, second, third) = (version >> 16, version >> 8 & 255, version & 255);
    Ok(Some(format!(in alloc; "{first}.{second}.{third}")?))
}

/// The parts of an object that aren't texts in it.
fn page_texts(alloc: Global, listing: &ObjectListing<'_>) -> Result<PageTexts, AllocError> {
    let license = license_text(alloc, listing.license())?;
    let version = version_text(alloc, listing.object.kernel_version)?;
    let struct_ops = struct_ops_texts(alloc, listing)?;
    let struct_ops_fault = struct_ops_fault(alloc, listing)?;
    Ok(PageTexts {
        license,
        version,
        struct_ops,
        struct_ops_fault,
    })
}

/// A text that may be absent.
fn text_or_none(text: &Option<String>) -> PageCell<'_> {
    match text {
        Some(text) => PageCell::Text(text.as_str()),
        None => PageCell::Text("none"),
    }
}

/// A number that may be absent.
fn number_or_none(number: Option<usize>) -> PageCell<'static> {
    match number {
        Some(number) => PageCell::Number(number),
        None => PageCell::Text("none"),
    }
}

/// The facts on an object.
fn facts_of<'a>(
    alloc: Global,
    listing: &ObjectListing<'_>,
    texts: &'a PageTexts,
) -> Result<Vec<PageFact<'a>>, AllocError> {
    let mut facts: Vec<PageFact<'a>> = Vec::new(alloc);
    facts.push(PageFact {
        name: "byte order",
        value: PageCell::Text(order_word(listing.object.endianness)),
    })?;
    facts.push(PageFact {
        name: "license",
        value: text_or_none(&texts.license),
    })?;
    facts.push(PageFact {
        name: "version",
        value: text_or_none(&texts.version),
    })?;
    facts.push(PageFact {
        name: "types",
        value: number_or_none(listing.wanted.types),
    })?;
    if let Some(fault) = &texts.struct_ops_fault {
        facts.push(PageFact {
            name: "struct_ops not read",
            value: PageCell::Text(fault.as_str()),
        })?;
    }
    Ok(facts)
}

/// The tables of an object.
fn tables_of<'a>(
    alloc: Global,
    listing: &'a ObjectListing<'_>,
    texts: &'a PageTexts,
) -> Result<Vec<PageTable<'a>>, AllocError> {
    let mut tables = Vec::new(alloc);
    tables.push(programs_table(alloc, listing)?)?;
    tables.push(maps_table(alloc, listing)?)?;
    tables.push(arena_table(alloc, listing)?)?;
    tables.push(struct_ops_table(alloc, listing, &texts.struct_ops)?)?;
    tables.push(helpers_table(alloc, listing)?)?;
    tables.push(externs_table(alloc, listing)?)?;
    tables.push(settings_table(alloc, listing)?)?;
    tables.push(records_table(alloc, listing)?)?;
    tables.push(unreached_table(alloc, listing)?)?;
    Ok(tables)
}

/// The page of an object; `texts` has the parts that aren't texts in it.
fn page_of<'a>(
    alloc: Global,
    file: &'a str,
    listing: &'a ObjectListing<'_>,
    texts: &'a PageTexts,
) -> Result<ListPage<'a>, AllocError> {
    let facts = facts_of(alloc, listing, texts)?;
    let tables = tables_of(alloc, listing, texts)?;
    Ok(ListPage {
        file,
        facts,
        tables,
    })
}

/// Writes the contents of an object to a file, as a page.
pub fn write_page(
    rt: &HostRuntime,
    path: &str,
    file: &str,
    listing: &ObjectListing<'_>,
) -> Result<(), Stop> {
    let alloc = rt.alloc();
    let texts = page_texts(alloc, listing)?;
    let page = page_of(alloc, file, listing, &texts)?;
    write_file(rt, path, |out| write_list_page(out, &page))
}
