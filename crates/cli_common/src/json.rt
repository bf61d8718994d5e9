//! A writer of JSON.

ghost use Rattle.std.specs.Iterator.{IsFinite};

use crate::visible::speaks;
use std::io::{self, Write};
use std::{fmt, str};

/// A string as JSON has it, between quotes; what speaks to a terminal is escaped.
#[derive(Clone, Copy)]
struct Quoted<'a>(&'a str);

/// Bytes as JSON has them, between quotes. Of bytes that aren't UTF-8, each beyond ASCII becomes U+FFFD.
#[derive(Clone, Copy)]
struct QuotedBytes<'a>(&'a [u8]);

/// Writes a character of a JSON string.
fn write_quoted<W: fmt::Write>(f: &mut fmt::Formatter<W>, c: char) -> fmt::Result {
    if c == '"' || c == '\\' {
        f.write_char('\\')?;
        return f.write_char(c);
    }
    if speaks(c) {
        let code = u32::from(c);
        return write!(f, "\\u{code:04x}");
    }
    f.write_char(c)
}

impl fmt::Display for Quoted<'_> {
    fn fmt<W: fmt::Write>(&self, f: &mut fmt::Formatter<W>) -> fmt::Result {
        f.write_char('"')?;
        for c in self.0.chars() {
            write_quoted(f, c)?;
        }
        f.write_char('"')
    }
}

impl fmt::Display for QuotedBytes<'_> {
    fn fmt<W: fmt::Write>(&self, f: &mut fmt::Formatter<W>) -> fmt::Result {
        if let Ok(text) = str::from_utf8(self.0) {
            let text = Quoted(text);
            return write!(f, "{text}");
        }
        f.write_char('"')?;
        for byte in self.0 {
            write_quoted(
                f,
                if byte.is_ascii() {
                    char::from(*byte)
                } else {
                    '\u{fffd}'
                },
            )?;
        }
        f.write_char('"')
    }
}

/// A value without members or elements.
pub trait JsonValue {
    /// Writes the value.
    fn write_json<W: Write>(&self, out: &mut W) -> io::Result<()>;
}

impl JsonValue for &str {
    fn write_json<W: Write>(&self, out: &mut W) -> io::Result<()> {
        let text = Quoted(self);
        write!(out, "{text}")
    }
}

impl JsonValue for &[u8] {
    fn write_json<W: Write>(&self, out: &mut W) -> io::Result<()> {
        let text = QuotedBytes(self);
        write!(out, "{text}")
    }
}

impl JsonValue for usize {
    fn write_json<W: Write>(&self, out: &mut W) -> io::Result<()> {
        write!(out, "{self}")
    }
}

impl JsonValue for u64 {
    fn write_json<W: Write>(&self, out: &mut W) -> io::Result<()> {
        write!(out, "{self}")
    }
}

impl JsonValue for i64 {
    fn write_json<W: Write>(&self, out: &mut W) -> io::Result<()> {
        write!(out, "{self}")
    }
}

impl JsonValue for u32 {
    fn write_json<W: Write>(&self, out: &mut W) -> io::Result<()> {
        write!(out, "{self}")
    }
}

impl JsonValue for bool {
    fn write_json<W: Write>(&self, out: &mut W) -> io::Result<()> {
        write!(out, "{self}")
    }
}

impl<T: JsonValue> JsonValue for Option<T> {
    fn write_json<W: Write>(&self, out: &mut W) -> io::Result<()> {
        match self {
            Some(value) => value.write_json(out),
            None => write!(out, "null"),
        }
    }
}

/// A writer of JSON: it closes each object and array that it opens, and writes the commas.
#[derive(Drop)]
pub struct JsonWriter<'a, W> {
    out: &'a mut W,
    /// Whether the next value is behind another one in the same object or array.
    is_behind_value: bool,
}

impl<'a, W: Write> JsonWriter<'a, W> {
    /// Writes a comma, unless the next value is the first.
    fn separate(&mut self) -> io::Result<()> {
        if self.is_behind_value {
            write!(self.out, ",")?;
        }
        self.is_behind_value = true;
        Ok(())
    }

    /// Opens an object or an array.
    fn open(&mut self, bracket: &str) -> io::Result<()> {
        self.separate()?;
        self.is_behind_value = false;
        write!(self.out, "{bracket}")
    }

    /// Closes an object or an array.
    fn close(&mut self, bracket: &str) -> io::Result<()> {
        self.is_behind_value = true;
        write!(self.out, "{bracket}")
    }

    /// Writes a value without members: an element of an array, or the value of a key.
    pub fn value<V: JsonValue + Copy>(&mut self, value: V) -> io::Result<()> {
        self.separate()?;
        value.write_json(self.out)
    }

    /// Writes the key of a member, whose value is written next.
    pub fn key(&mut self, key: &str) -> io::Result<()> {
        self.value(key)?;
        self.is_behind_value = false;
        write!(self.out, ":")
    }

    /// Writes a member of an object.
    pub fn member<V: JsonValue + Copy>(&mut self, key: &str, value: V) -> io::Result<()> {
        self.key(key)?;
        self.value(value)
    }

    /// Writes an object, whose members the closure writes.
    pub fn object<F>(&mut self, members: F) -> io::Result<()>
    where
        F: FnOnce(&mut JsonWriter<'a, W>) -> io::Result<()> + Drop,
        requires { F.IsAlwaysCallable members }
    {
        self.open("{")?;
        members(self)?;
        self.close("}")
    }

    /// Writes a member whose value is an array, whose elements the closure writes.
    pub fn array<F>(&mut self, key: &str, elements: F) -> io::Result<()>
    where
        F: FnOnce(&mut JsonWriter<'a, W>) -> io::Result<()> + Drop,
        requires { F.IsAlwaysCallable elements }
    {
        self.key(key)?;
        self.open("[")?;
        elements(self)?;
        self.close("]")
    }

    /// Writes a member whose value is an array of objects: the closure writes the members of each item's object.
    pub fn objects<I, F>(&mut self, key: &str, items: I, mut members: F) -> io::Result<()>
    where
        I: Iterator + Drop,
        I::Item: Drop,
        F: FnMut(&mut JsonWriter<'a, W>, I::Item) -> io::Result<()> + Drop,
        requires can_next { I.can_next items × IsFinite (I.remaining items) }
        requires callable { F.IsAlwaysCallable members }
    {
        self.key(key)?;
        self.open("[")?;
        for item in items {
            self.open("{")?;
            members(self, item)?;
            self.close("}")?;
        }
        self.close("]")
    }

    /// Writes a member whose value is an array of values.
    pub fn values<V, I>(&mut self, key: &str, items: I) -> io::Result<()>
    where
        V: JsonValue + Copy + Drop,
        I: Iterator<Item = V> + Drop,
        requires can_next { I.can_next items × IsFinite (I.remaining items) }
    {
        self.key(key)?;
        self.open("[")?;
        for item in items {
            self.value(item)?;
        }
        self.close("]")
    }
}

/// Writes a document on a line of its own: an object with the version of its form, and the members that the closure writes.
pub fn write_document<'a, W: Write, F>(out: &'a mut W, members: F) -> io::Result<()>
where
    F: FnOnce(&mut JsonWriter<'a, W>) -> io::Result<()> + Drop,
    requires { F.IsAlwaysCallable members }
{
    let mut json = JsonWriter {
        out,
        is_behind_value: false,
    };
    json.open("{")?;
    json.member("version", 2_u32)?;
    members(&mut json)?;
    json.close("}")?;
    writeln!(json.out, "")
}
