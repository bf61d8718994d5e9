//! CO-RE relocations in words.

use crate::notes::{Note, Written};
use cli_common::kinds::Kind;
use cli_common::names::{EscapedName, write_value};
use cli_common::record_names::{RecordSubject, absence_words, has_sign};
use cli_common::refuse::Stop;
use ebpf_btf::Btf;
use ebpf_btf_ext::{Relocation, RelocationKind};
use std::alloc::{AllocError, Global};
use std::io::{self, Write};

/// The question of a CO-RE relocation: its type, its access string and its kind.
#[derive(Clone, Copy, PartialEq, Eq)]
struct RecordQuestion {
    type_id: u32,
    access_str_off: u32,
    kind: RelocationKind,
}

/// A CO-RE relocation in words.
#[derive(Drop)]
struct RecordWords {
    question: RecordQuestion,
    /// The name of the type, field or enumerator, as text shows it.
    name: String,
    /// The value by the object's own types, where they give one.
    own: Option<u64>,
    /// Whether the values have a sign.
    is_signed: bool,
}

/// The writer of CO-RE relocations in words, which keeps the last words for relocations with the same question.
#[derive(Drop)]
pub struct RecordTeller<'a> {
    alloc: Global,
    local: Option<&'a Btf>,
    last: Option<RecordWords>,
}

impl RecordQuestion {
    fn of(relocation: &Relocation) -> RecordQuestion {
        RecordQuestion {
            type_id: relocation.type_id,
            access_str_off: relocation.access_str_off,
            kind: relocation.kind,
        }
    }
}

impl RecordWords {
    /// The words of a CO-RE relocation.
    fn of(alloc: Global, local: &Btf, relocation: &Relocation) -> Result<RecordWords, AllocError> {
        let asked = RecordSubject::of(alloc, local, relocation)?;
        let name = EscapedName(asked.name.as_str());
        Ok(RecordWords {
            question: RecordQuestion::of(relocation),
            name: format!(in alloc; "{name}")?,
            own: asked.own,
            is_signed: has_sign(local, relocation),
        })
    }

    /// Writes a value behind that of the object's own types, where they give one.
    fn write_values<W: Write>(&self, out: &mut W, value: u64) -> io::Result<()> {
        if let Some(own) = self.own {
            write_value(out, self.is_signed, own)?;
            out.write_all(b" -> ")?;
        }
        write_value(out, self.is_signed, value)
    }

    /// Writes an outcome.
    fn write_written<W: Write>(&self, out: &mut W, written: Written) -> io::Result<()> {
        match written {
            Written::Value(value) => self.write_values(out, value),
            Written::NoValue => out.write_all(b"no value"),
            Written::Absent(absence) => out.write_all(absence_words(absence).as_bytes()),
        }
    }

    /// Writes the question and an outcome.
    fn write<W: Write>(&self, out: &mut W, written: Written) -> io::Result<()> {
        let kind = Kind::of(self.question.kind).word();
        write!(out, "CO-RE <{kind}> ")?;
        out.write_all(self.name.as_bytes())?;
        out.write_all(b": ")?;
        self.write_written(out, written)
    }
}

impl<'a> RecordTeller<'a> {
    /// The writer for an object's own types.
    pub fn new(alloc: Global, local: Option<&'a Btf>) -> RecordTeller<'a> {
        RecordTeller {
            alloc,
            local,
            last: None,
        }
    }

    /// Reads the words of a CO-RE relocation, unless they are the last ones.
    fn read(&mut self, relocation: &Relocation) -> Result<(), AllocError> {
        let (Some(local), question) = (self.local, RecordQuestion::of(relocation)) else {
            return Ok(());
        };
        if matches!(&self.last, Some(last) if last.question == question) {
            return Ok(());
        }
        self.last = Some(RecordWords::of(self.alloc, local, relocation)?);
        Ok(())
    }

    /// Writes the question of a CO-RE relocation and its outcome.
    pub fn write<W: Write>(&mut self, out: &mut W, note: &Note) -> Result<(), Stop> {
        self.read(&note.relocation)?;
        match &self.last {
            Some(words) => Ok(words.write(out, note.written)?),
            None => Ok(()),
        }
    }
}
