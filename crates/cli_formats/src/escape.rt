//! Texts from files in the syntax of each format.

ghost use Rattle.std.specs.Prelude.{◌≡◌, ◌<◌};
ghost use Rattle.std.specs.Fmt.{WritesOnOk};
ghost use Rattle.std.specs.List.{flat_map};
ghost use Rattle.cli_formats.specs.Escapes.{char_in, dot_char, html_char, is_plain_in_paths};
ghost use Rattle.cli_formats.specs.Escapes.{is_read_by_mermaid, json_char, mermaid_char};
ghost use Rattle.cli_formats.specs.Escapes.{message_char, path_char, percent_byte, percent_bytes};
ghost use Rattle.cli_formats.specs.Escapes.{property_char, sarif_char, source_char, text_in};
ghost use Rattle.cli_formats.specs.Escapes.{upper_digit};

use cli_common::visible::{speaks, write_coded, write_visible};
use std::fmt;

/// The syntax of what is around a text.
#[derive(Clone, Copy)]
pub enum Syntax {
    /// HTML: between tags, or the value of an attribute in quotes.
    Html,
    /// A string of JSON, also within `<script>`.
    Json,
    /// A message of SARIF, in a string of JSON.
    Sarif,
    /// A line of a program's source, in a string of JSON.
    Source,
    /// A label in quotes of Graphviz.
    Dot,
    /// A label in quotes of Mermaid.
    Mermaid,
    /// The message of an annotation of GitHub.
    Message,
    /// The value of a property of such an annotation.
    Property,
    /// A path of a URI.
    Path,
}

/// A text as it is written in a syntax. A control character, a backslash and a character that turns the direction of a
/// line are written as the bytes of their UTF-8, `\xNN` each (in a path `%NN`), and so is a colon in a label of Mermaid. In
/// a line of source a backslash and a tab are themselves.
#[derive(Clone, Copy)]
pub struct Escaped<'a> {
    /// The syntax.
    pub syntax: Syntax,
    /// The text.
    pub text: &'a str,
}

/// Whether Mermaid, Markdown or mathematics in a label may read a character as more than itself.
fn is_read_by_mermaid(c: char) -> bool
    ensures { result ≡ is_read_by_mermaid c }
{
    matches!(
        c,
        '!'..='/' | ':'..='@' | '[' | ']'..='`' | '{'..='~'
    )
}

/// Whether a path of a URI has a character as it is.
fn is_plain_in_paths(c: char) -> bool
    ensures { result ≡ is_plain_in_paths c }
{
    matches!(c, '-'..='9' | 'A'..='Z' | '_' | 'a'..='z' | '~')
}

/// The character of a digit below 16, with upper-case letters.
fn upper_digit(value: u8) -> char
    requires { value < 16 }
    ensures { result ≡ upper_digit value }
{
    if value < 10 {
        char::from(b'0' + value)
    } else {
        char::from(b'A' + (value - 10))
    }
}

/// Writes a byte as `%NN`.
fn write_percent_byte<W: fmt::Write>(f: &mut fmt::Formatter<W>, byte: u8) -> fmt::Result
    ensures { WritesOnOk W.write_str_gives f.old result (percent_byte byte) f.new }
{
    f.write_str("%")?;
    f.write_char(upper_digit(byte / 16))?;
    f.write_char(upper_digit(byte % 16))
}

/// Writes bytes as `%NN` each.
fn write_percent_bytes<W: fmt::Write>(f: &mut fmt::Formatter<W>, bytes: &[u8]) -> fmt::Result
    ensures { WritesOnOk W.write_str_gives f.old result (flat_map percent_byte bytes.now) f.new }
{
    for byte in bytes {
        write_percent_byte(f, *byte)?;
    }
    Ok(())
}

/// Writes the bytes of a character's UTF-8, `%NN` each.
fn write_percent_coded<W: fmt::Write>(f: &mut fmt::Formatter<W>, c: char) -> fmt::Result
    ensures { WritesOnOk W.write_str_gives f.old result (percent_bytes c) f.new }
{
    let mut bytes = [0; 4];
    write_percent_bytes(f, c.encode_utf8(&mut bytes).as_bytes())
}

/// Writes a character in HTML.
fn write_html<W: fmt::Write>(f: &mut fmt::Formatter<W>, c: char) -> fmt::Result
    ensures { WritesOnOk W.write_str_gives f.old result (html_char c) f.new }
{
    match c {
        '&' => f.write_str("&amp;"),
        '<' => f.write_str("&lt;"),
        '>' => f.write_str("&gt;"),
        '"' => f.write_str("&quot;"),
        '\'' => f.write_str("&#39;"),
        _ => write_visible(f, "\\x", c),
    }
}

/// Writes a character in a string of JSON.
fn write_json<W: fmt::Write>(f: &mut fmt::Formatter<W>, c: char) -> fmt::Result
    ensures { WritesOnOk W.write_str_gives f.old result (json_char c) f.new }
{
    match c {
        '"' => f.write_str("\\\""),
        '<' => f.write_str("\\u003c"),
        '>' => f.write_str("\\u003e"),
        '&' => f.write_str("\\u0026"),
        _ => write_visible(f, "\\\\x", c),
    }
}

/// Writes a character in a message of SARIF.
fn write_sarif<W: fmt::Write>(f: &mut fmt::Formatter<W>, c: char) -> fmt::Result
    ensures { WritesOnOk W.write_str_gives f.old result (sarif_char c) f.new }
{
    match c {
        '{' => f.write_str("{{"),
        '}' => f.write_str("}}"),
        '[' => f.write_str("\\\\["),
        ']' => f.write_str("\\\\]"),
        _ if c == '\\' || speaks(c) => write_coded(f, "\\\\\\\\x", c),
        _ => write_json(f, c),
    }
}

/// Writes a character of a line of source.
fn write_source<W: fmt::Write>(f: &mut fmt::Formatter<W>, c: char) -> fmt::Result
    ensures { WritesOnOk W.write_str_gives f.old result (source_char c) f.new }
{
    match c {
        '\\' => f.write_str("\\\\"),
        '\t' => f.write_str("\\t"),
        _ => write_json(f, c),
    }
}

/// Writes a character in a label of Graphviz.
fn write_dot<W: fmt::Write>(f: &mut fmt::Formatter<W>, c: char) -> fmt::Result
    ensures { WritesOnOk W.write_str_gives f.old result (dot_char c) f.new }
{
    match c {
        '&' => f.write_str("&amp;"),
        '<' => f.write_str("&lt;"),
        '>' => f.write_str("&gt;"),
        '"' => f.write_str("&quot;"),
        _ => write_visible(f, "\\\\x", c),
    }
}

/// Writes a character in a label of Mermaid. A colon is a byte: `fa:fa-bug` is an icon also where it is an entity.
fn write_mermaid<W: fmt::Write>(f: &mut fmt::Formatter<W>, c: char) -> fmt::Result
    ensures { WritesOnOk W.write_str_gives f.old result (mermaid_char c) f.new }
{
    if c == ':' {
        return write_coded(f, "#92;x", c);
    }
    if is_read_by_mermaid(c) {
        let code = u32::from(c);
        return write!(f, "#{code};");
    }
    write_visible(f, "#92;x", c)
}

/// Writes a character in the message of an annotation.
fn write_message<W: fmt::Write>(f: &mut fmt::Formatter<W>, c: char) -> fmt::Result
    ensures { WritesOnOk W.write_str_gives f.old result (message_char c) f.new }
{
    match c {
        '%' => f.write_str("%25"),
        _ => write_visible(f, "\\x", c),
    }
}

/// Writes a character in a property of an annotation.
fn write_property<W: fmt::Write>(f: &mut fmt::Formatter<W>, c: char) -> fmt::Result
    ensures { WritesOnOk W.write_str_gives f.old result (property_char c) f.new }
{
    match c {
        ':' => f.write_str("%3A"),
        ',' => f.write_str("%2C"),
        _ => write_message(f, c),
    }
}

/// Writes a character in a path of a URI.
fn write_path<W: fmt::Write>(f: &mut fmt::Formatter<W>, c: char) -> fmt::Result
    ensures { WritesOnOk W.write_str_gives f.old result (path_char c) f.new }
{
    if is_plain_in_paths(c) {
        return f.write_char(c);
    }
    write_percent_coded(f, c)
}

/// Writes a character in a syntax.
fn write_char_in<W: fmt::Write>(f: &mut fmt::Formatter<W>, syntax: Syntax, c: char) -> fmt::Result
    ensures { WritesOnOk W.write_str_gives f.old result (char_in syntax c) f.new }
{
    match syntax {
        Syntax::Html => write_html(f, c),
        Syntax::Json => write_json(f, c),
        Syntax::Sarif => write_sarif(f, c),
        Syntax::Source => write_source(f, c),
        Syntax::Dot => write_dot(f, c),
        Syntax::Mermaid => write_mermaid(f, c),
        Syntax::Message => write_message(f, c),
        Syntax::Property => write_property(f, c),
        Syntax::Path => write_path(f, c),
    }
}

/// Writes a text in a syntax.
fn write_text_in<W: fmt::Write>(
    f: &mut fmt::Formatter<W>,
    syntax: Syntax,
    text: &str,
) -> fmt::Result
    ensures { WritesOnOk W.write_str_gives f.old result (text_in syntax text.now) f.new }
{
    for c in text.chars() {
        write_char_in(f, syntax, c)?;
    }
    Ok(())
}

impl fmt::Display for Escaped<'_> {
    ghost use Rattle.std.specs.Prelude.{Some};
    ghost use Rattle.cli_formats.specs.Escapes.{text_in};

    ghost output = { λ e. Some (text_in e.syntax e.text.now) };

    fn fmt<W: fmt::Write>(&self, f: &mut fmt::Formatter<W>) -> fmt::Result {
        write_text_in(f, self.syntax, self.text)
    }
}
