//! The head of a page, which loads nothing.

ghost use Rattle.std.specs.Prelude.{OnOk};
ghost use Rattle.std.specs.Io.KnownBytes.{Appends};
ghost use Rattle.cli_formats.specs.Escapes.{text_in};
ghost use Rattle.cli_formats.specs.declared.escape.Syntax.TheVariants.{Html};

use crate::page_style::STYLE;
use cli_formats::escape::{Escaped, Syntax};
use std::io::{self, Write};

/// The head of a page, up to its policy.
const HEAD: &str = "<!DOCTYPE html>
<html lang='en'>
<head>
<meta charset='utf-8'>
<meta name='viewport' content='width=device-width, initial-scale=1'>
<meta http-equiv='Content-Security-Policy' content='default-src &#39;none&#39;; style-src &#39;unsafe-inline&#39;; base-uri &#39;none&#39;; form-action &#39;none&#39;";

/// The policy of a page with a script of its own.
const SCRIPT_POLICY: &str = "; script-src &#39;unsafe-inline&#39;";

/// Writes a text.
pub fn write_text<W: Write>(out: &mut W, text: &str) -> io::Result<()>
    ensures { OnOk result
        (Appends (W.contents out.old) (W.contents out.new) (text_in Html text.now)) }
{
    let text = Escaped {
        syntax: Syntax::Html,
        text,
    };
    write!(out, "{text}")
}

/// Writes the head of the page of a command on a file, up to its main part. The policy lets it load nothing.
pub fn write_head<W: Write>(
    out: &mut W,
    command: &str,
    file: &str,
    has_script: bool,
) -> io::Result<()> {
    out.write_all(HEAD.as_bytes())?;
    if has_script {
        out.write_all(SCRIPT_POLICY.as_bytes())?;
    }
    write!(out, "'>\n<title>{command}: ")?;
    write_text(out, file)?;
    write!(out, "</title>\n<style>")?;
    out.write_all(STYLE.as_bytes())?;
    writeln!(out, "</style>\n</head>\n<body>\n<main>")
}
