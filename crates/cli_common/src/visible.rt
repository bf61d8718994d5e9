//! Characters that are seen: those that a terminal obeys, and backslashes, are written as their bytes.

ghost use Rattle.std.specs.Prelude.{◌≡◌, ◌<◌};
ghost use Rattle.std.specs.Char.{digit_char};
ghost use Rattle.std.specs.Fmt.{WritesOnOk};
ghost use Rattle.std.specs.List.{flat_map};
ghost use Rattle.cli_common.specs.Shown.{byte_behind, bytes_behind, speaks, visible_char};

use std::fmt;

/// Whether a character speaks to a terminal: the controls, the marks and overrides of a line's direction, and the two
/// separators of lines.
pub fn speaks(c: char) -> bool
    ensures { result ≡ speaks c }
{
    matches!(
        c,
        '\u{0}'..='\u{1f}'
            | '\u{7f}'..='\u{9f}'
            | '\u{61c}'
            | '\u{200e}'..='\u{200f}'
            | '\u{2028}'..='\u{202e}'
            | '\u{2066}'..='\u{2069}'
    )
}

/// The character of a digit below 16.
fn hex_digit(value: u8) -> char
    requires { value < 16 }
    ensures { result ≡ digit_char value }
{
    if value < 10 {
        char::from(b'0' + value)
    } else {
        char::from(b'a' + (value - 10))
    }
}

/// Writes a byte as two digits behind a sign.
fn write_byte<W: fmt::Write>(f: &mut fmt::Formatter<W>, sign: &str, byte: u8) -> fmt::Result
    ensures { WritesOnOk W.write_str_gives f.old result (byte_behind sign.now byte) f.new }
{
    f.write_str(sign)?;
    f.write_char(hex_digit(byte / 16))?;
    f.write_char(hex_digit(byte % 16))
}

/// Writes bytes as two digits each, behind a sign.
fn write_bytes<W: fmt::Write>(f: &mut fmt::Formatter<W>, sign: &str, bytes: &[u8]) -> fmt::Result
    ensures { WritesOnOk W.write_str_gives f.old result (flat_map (byte_behind sign.now) bytes.now)
        f.new }
{
    for byte in bytes {
        write_byte(f, sign, *byte)?;
    }
    Ok(())
}

/// Writes the bytes of a character's UTF-8 as two digits each, behind a sign.
pub fn write_coded<W: fmt::Write>(f: &mut fmt::Formatter<W>, sign: &str, c: char) -> fmt::Result
    ensures { WritesOnOk W.write_str_gives f.old result (bytes_behind sign.now c) f.new }
{
    let mut bytes = [0; 4];
    write_bytes(f, sign, c.encode_utf8(&mut bytes).as_bytes())
}

/// Writes a character, or its bytes behind a sign where a terminal obeys it or it is a backslash.
pub fn write_visible<W: fmt::Write>(f: &mut fmt::Formatter<W>, sign: &str, c: char) -> fmt::Result
    ensures { WritesOnOk W.write_str_gives f.old result (visible_char sign.now c) f.new }
{
    if c != '\\' && !speaks(c) {
        return f.write_char(c);
    }
    write_coded(f, sign, c)
}
