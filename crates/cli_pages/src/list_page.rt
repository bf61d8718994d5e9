//! The page of `ebpf list`: one file of HTML with tables, which loads nothing and has no script.

use crate::head::{write_head, write_text};
use crate::tables::{ColumnKind, PageCell, PageColumn, PageTable};
use std::io::{self, Write};

/// A fact on the object, above the tables.
#[derive(Drop)]
pub struct PageFact<'a> {
    /// Its name.
    pub name: &'static str,
    /// Its value.
    pub value: PageCell<'a>,
}

/// The contents of an object, as the page shows them.
#[derive(Drop)]
pub struct ListPage<'a> {
    /// The name of the object's file.
    pub file: &'a str,
    /// The facts on the object.
    pub facts: Vec<PageFact<'a>>,
    /// The tables.
    pub tables: Vec<PageTable<'a>>,
}

/// Writes names, with a comma between two.
fn write_names<W: Write>(out: &mut W, names: &[&str]) -> io::Result<()> {
    let mut between = "";
    for name in names {
        write!(out, "{between}")?;
        write_text(out, name)?;
        between = ", ";
    }
    Ok(())
}

/// Writes the value of a cell.
fn write_value<W: Write>(out: &mut W, cell: &PageCell<'_>) -> io::Result<()> {
    match cell {
        PageCell::Text(text) => write_text(out, text),
        PageCell::Number(number) => write!(out, "{number}"),
        PageCell::Hex(number) => write!(out, "{number:#x}"),
        PageCell::Share(number, all) => write!(out, "{number}/{all}"),
        PageCell::Helper(name) => {
            write!(out, "bpf_")?;
            write_text(out, name)
        }
        PageCell::Names(names) => write_names(out, names),
    }
}

/// The tag before a cell of a column, and the one behind it.
fn cell_tags(kind: ColumnKind) -> (&'static str, &'static str) {
    match kind {
        ColumnKind::Number => ("<td class='number'>", "</td>"),
        ColumnKind::Word => ("<td>", "</td>"),
        ColumnKind::Name => ("<th scope='row'>", "</th>"),
    }
}

/// Writes a row, whose cells are in these columns.
fn write_row<W: Write>(
    out: &mut W,
    columns: &[PageColumn],
    cells: &[PageCell<'_>],
) -> io::Result<()> {
    write!(out, "<tr>")?;
    for (column, cell) in columns.iter().zip(cells.iter()) {
        let (start, end) = cell_tags(column.kind);
        write!(out, "{start}")?;
        write_value(out, cell)?;
        write!(out, "{end}")?;
    }
    writeln!(out, "</tr>")
}

/// The tag before the head of a column.
fn head_tag(kind: ColumnKind) -> &'static str {
    match kind {
        ColumnKind::Number => "<th scope='col' class='number'>",
        ColumnKind::Word | ColumnKind::Name => "<th scope='col'>",
    }
}

/// Writes the heads of columns.
fn write_heads<W: Write>(out: &mut W, columns: &[PageColumn]) -> io::Result<()> {
    write!(out, "<thead><tr>")?;
    for column in columns {
        let tag = head_tag(column.kind);
        write!(out, "{tag}")?;
        write_text(out, column.head)?;
        write!(out, "</th>")?;
    }
    writeln!(out, "</tr></thead>\n<tbody>")
}

/// Writes the title of the table of a number.
fn write_title<W: Write>(out: &mut W, number: usize, table: &PageTable<'_>) -> io::Result<()> {
    let count = table.count;
    write!(out, "<section aria-labelledby='table{number}'>")?;
    write!(out, "<h2 id='table{number}'>")?;
    write_text(out, table.title)?;
    writeln!(out, " {count}</h2>")
}

/// Writes the table of a number: its title, the heads of its columns and its rows.
fn write_table<W: Write>(out: &mut W, number: usize, table: &PageTable<'_>) -> io::Result<()> {
    write_title(out, number, table)?;
    writeln!(out, "<table aria-labelledby='table{number}'>")?;
    write_heads(out, &table.columns)?;
    for cells in table.cells.chunks(table.columns.len().max(1)) {
        write_row(out, &table.columns, cells)?;
    }
    writeln!(out, "</tbody>\n</table></section>")
}

/// Writes the facts on an object.
fn write_facts<W: Write>(out: &mut W, facts: &[PageFact<'_>]) -> io::Result<()> {
    writeln!(out, "<dl>")?;
    for fact in facts {
        let name = fact.name;
        write!(out, "<dt>{name}</dt><dd>")?;
        write_value(out, &fact.value)?;
        writeln!(out, "</dd>")?;
    }
    writeln!(out, "</dl>")
}

/// Writes the page: the object's file, the facts on it, and the tables that aren't empty.
pub fn write_list_page<W: Write>(out: &mut W, page: &ListPage<'_>) -> io::Result<()> {
    write_head(out, "ebpf list", page.file, false)?;
    write!(out, "<h1>")?;
    write_text(out, page.file)?;
    writeln!(out, "</h1>")?;
    write_facts(out, &page.facts)?;
    for (number, table) in page.tables.iter().enumerate() {
        if table.count == 0 {
            continue;
        }
        write_table(out, number, table)?;
    }
    writeln!(out, "</main>\n</body>\n</html>")
}
