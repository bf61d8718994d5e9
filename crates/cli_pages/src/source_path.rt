//! The paths of source files, as reports name them.

use cli_formats::escape::{Escaped, Syntax};
use std::io::{self, Write};

/// Writes a path in a syntax, without empty segments and segments `.`; `root` is written for the slash of an absolute one.
pub fn write_source_path<W: Write>(
    out: &mut W,
    syntax: Syntax,
    root: &str,
    path: &str,
) -> io::Result<()> {
    let root = if path.starts_with('/') { root } else { "" };
    let mut is_first = true;
    for text in path.split('/') {
        if text.is_empty() || text == "." {
            continue;
        }
        let before = if is_first { root } else { "/" };
        let segment = Escaped { syntax, text };
        write!(out, "{before}{segment}")?;
        is_first = false;
    }
    Ok(())
}
