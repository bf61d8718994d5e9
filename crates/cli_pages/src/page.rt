//! The page of `ebpf check`: one file of HTML with a matrix, which loads nothing.

use crate::data::write_data;
use crate::head::{write_head, write_text};
use crate::matrix::{CellVerdict, Matrix};
use crate::page_script::{CELLS, TABLE};
use std::io::{self, Write};

/// The body of the page, between its heading and its data.
const BODY: &str = "
<noscript><p>The matrix needs JavaScript.</p></noscript>
<form id='filters' role='search' aria-label='Filters'>
<label>Program <select id='program'><option value=''>all</option></select></label>
<label>Reason <select id='reason'><option value=''>any</option></select></label>
<label>Kernel <input id='kernel' type='search' placeholder='part of a name'></label>
<label>Only not ok <input id='failing' type='checkbox'></label>
<output id='shown' aria-live='polite'></output>
</form>
<p id='keys'>Arrow keys, Page Up, Page Down, Home and End move in the table. Enter shows the reasons of a cell.</p>
<div id='frame'>
<table id='matrix' role='grid' aria-label='Programs by kernels'>
<thead id='head'></thead>
<tbody id='body'></tbody>
</table>
</div>
<section id='cell' aria-live='polite' aria-label='Chosen cell'><p>Choose a cell.</p></section>
<section id='reasons' aria-label='Reasons'><h2>Reasons</h2><ol id='list'></ol></section>
</main>
<script id='data' type='application/json'>
";

/// The number of kernels on which some program has a verdict.
fn kernels_with(matrix: &Matrix<'_>, verdict: CellVerdict) -> usize {
    matrix
        .kernels
        .iter()
        .filter(|kernel| kernel.verdicts.contains(&verdict))
        .count()
}

/// The number of kernels whose types can't be read.
fn unread(matrix: &Matrix<'_>) -> usize {
    matrix
        .kernels
        .iter()
        .filter(|kernel| kernel.fault.is_some())
        .count()
}

/// Writes the heading: the object's file, and on how many kernels programs break.
fn write_heading<W: Write>(out: &mut W, matrix: &Matrix<'_>) -> io::Result<()> {
    let programs = matrix.programs.len();
    let kernels = matrix.kernels.len();
    let broken = kernels_with(matrix, CellVerdict::Breaks);
    let unread = unread(matrix);
    write!(out, "<h1>")?;
    write_text(out, matrix.file)?;
    write!(
        out,
        "</h1>\n<p id='summary'>Programs: {programs}. Kernels: {kernels}. "
    )?;
    writeln!(
        out,
        "Kernels on which a program breaks: {broken}. Unread kernels: {unread}.</p>"
    )
}

/// Writes the script.
fn write_script<W: Write>(out: &mut W) -> io::Result<()> {
    write!(out, "\n</script>\n<script>")?;
    out.write_all(CELLS.as_bytes())?;
    out.write_all(TABLE.as_bytes())?;
    writeln!(out, "</script>\n</body>\n</html>")
}

/// Writes the page: programs by kernels as a table with filters, the reasons of a cell, and all reasons.
pub fn write_page<W: Write>(out: &mut W, matrix: &Matrix<'_>) -> io::Result<()> {
    write_head(out, "ebpf check", matrix.file, true)?;
    write_heading(out, matrix)?;
    out.write_all(BODY.as_bytes())?;
    write_data(out, matrix)?;
    write_script(out)
}
