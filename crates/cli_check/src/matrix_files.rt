//! The files and lines of `ebpf check` that show its verdicts as a matrix.

use crate::matrix::matrix_of;
use crate::run::CheckWords;
use crate::session::Session;
use cli_common::refuse::Stop;
use cli_output::files::{first_failure, write_file};
use cli_pages::annotations::write_annotations;
use cli_pages::matrix::Matrix;
use cli_pages::page::write_page;
use cli_pages::sarif::write_sarif;
use std::io::{BufWriter, Stdout};

/// Writes the page of a matrix, where a file for it is named.
fn write_page_file(rt: &HostRuntime, words: &CheckWords, matrix: &Matrix<'_>) -> Result<(), Stop> {
    match &words.html {
        Some(path) => write_file(rt, path.as_str(), |out| write_page(out, matrix)),
        None => Ok(()),
    }
}

/// Writes the log of a matrix, where a file for it is named.
fn write_log_file(rt: &HostRuntime, words: &CheckWords, matrix: &Matrix<'_>) -> Result<(), Stop> {
    match &words.sarif {
        Some(path) => write_file(rt, path.as_str(), |out| write_sarif(out, matrix)),
        None => Ok(()),
    }
}

/// Writes a matrix to the files that are named; each is tried. Returns the first failure.
fn write_forms(rt: &HostRuntime, words: &CheckWords, matrix: &Matrix<'_>) -> Result<(), Stop> {
    let page = write_page_file(rt, words, matrix);
    let log = write_log_file(rt, words, matrix);
    first_failure(page, log)
}

/// Writes the verdicts over all kernels to the files that are named; each is tried. Returns the first failure.
pub fn write_files(rt: &HostRuntime, words: &CheckWords, session: &Session) -> Result<(), Stop> {
    if !words.has_files() {
        return Ok(());
    }
    let matrix = matrix_of(rt.alloc(), words.version, session)?;
    write_forms(rt, words, &matrix)
}

/// Writes the verdicts over all kernels as annotations.
pub fn write_lines(
    rt: &HostRuntime,
    words: &CheckWords,
    session: &Session,
    out: &mut BufWriter<Stdout>,
) -> Result<(), Stop> {
    let matrix = matrix_of(rt.alloc(), words.version, session)?;
    write_annotations(out, &matrix)?;
    Ok(())
}
