//! Names from files, written so that none of them says anything to a terminal; and values, and what stands between two of
//! a list.

ghost use Rattle.std.specs.Prelude.{◌≡◌};
ghost use Rattle.std.specs.Fmt.{WritesOnOk};
ghost use Rattle.cli_common.specs.Shown.{shown};

use crate::visible::write_visible;
use std::fmt;
use std::io::{self, Write};

/// A name as text shows it: a control character, a backslash and a character that turns the direction of a line are
/// written as their bytes, `\xNN` each.
#[derive(Clone, Copy)]
pub struct EscapedName<'a>(pub &'a str);

/// Writes a name as it is shown.
fn write_name<W: fmt::Write>(f: &mut fmt::Formatter<W>, name: &str) -> fmt::Result
    ensures { WritesOnOk W.write_str_gives f.old result (shown name.now) f.new }
{
    for c in name.chars() {
        write_visible(f, "\\x", c)?;
    }
    Ok(())
}

impl fmt::Display for EscapedName<'_> {
    ghost use Rattle.std.specs.Prelude.{Some};
    ghost use Rattle.cli_common.specs.Shown.{shown};

    ghost output = { λ name. Some (shown name.0.now) };

    fn fmt<W: fmt::Write>(&self, f: &mut fmt::Formatter<W>) -> fmt::Result {
        write_name(f, self.0)
    }
}

/// What stands behind the last slash of a path.
pub fn last_part(path: &str) -> &str {
    match path.rsplit_once('/') {
        Some((_, last)) => last,
        None => path,
    }
}

/// Writes a value, which may have a sign.
pub fn write_value<W: Write>(out: &mut W, is_signed: bool, value: u64) -> io::Result<()> {
    if is_signed {
        let value = value.cast_signed();
        return write!(out, "{value}");
    }
    write!(out, "{value}")
}
