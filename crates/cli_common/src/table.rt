//! Tables of text.

use crate::helper_calls::helper_name;
use crate::names::EscapedName;
use crate::types::map_type_name;
use std::alloc::{AllocError, Global};
use std::fmt::Write as _;
use std::io::{self, Write};

/// A column of a table, by its head.
#[derive(Clone, Copy)]
pub enum Column {
    /// Its cells stand at its right edge.
    Number(&'static str),
    /// Its cells stand at its left edge.
    Word(&'static str),
}

impl Column {
    /// Its head.
    fn head(self) -> &'static str {
        match self {
            Column::Number(head) | Column::Word(head) => head,
        }
    }
}

/// A table: cells row by row, as they are shown.
#[derive(Drop)]
pub struct Table<'a> {
    columns: &'a [Column],
    widths: Vec<usize>,
    /// The cells' texts, one behind the other.
    text: String,
    /// Where each of them ends.
    ends: Vec<usize>,
}

/// The width of a text, in characters.
fn width_of(text: &str) -> usize {
    text.chars().count()
}

/// The width of what stands in a text from an offset on.
fn width_from(text: &str, start: usize) -> usize {
    match text.get(start..) {
        Some(cell) => width_of(cell),
        None => 0,
    }
}

/// Writes spaces.
fn write_spaces<W: Write>(out: &mut W, count: usize) -> io::Result<()> {
    for _ in 0..count {
        out.write_all(b" ")?;
    }
    Ok(())
}

/// Writes a cell in a column of a width. Behind the last one of a row no spaces stand.
fn write_cell<W: Write>(
    out: &mut W,
    column: Column,
    width: usize,
    cell: &str,
    is_last: bool,
) -> io::Result<()> {
    let spaces = width.saturating_sub(width_of(cell));
    write!(out, "  ")?;
    if matches!(column, Column::Number(_)) {
        write_spaces(out, spaces)?;
        return write!(out, "{cell}");
    }
    write!(out, "{cell}")?;
    if is_last {
        return Ok(());
    }
    write_spaces(out, spaces)
}

impl<'a> Table<'a> {
    /// An empty table of these columns.
    pub fn new(alloc: Global, columns: &'a [Column]) -> Result<Table<'a>, AllocError> {
        let mut widths = Vec::with_capacity(alloc, columns.len())?;
        for column in columns {
            widths.push(width_of(column.head()))?;
        }
        Ok(Table {
            columns,
            widths,
            text: String::new(alloc),
            ends: Vec::new(alloc),
        })
    }

    /// Ends the next cell of a row, or the first of the next row, whose text stands from an offset on.
    fn end(&mut self, start: usize) -> Result<(), AllocError> {
        let width = width_from(self.text.as_str(), start);
        let number = self.ends.len().checked_rem(self.columns.len());
        if let Some(widest) = self.widths.get_mut(number.unwrap_or(0)) {
            *widest = width.max(*widest);
        }
        self.ends.push(self.text.len())?;
        Ok(())
    }

    /// Adds a cell of a text, as text shows names.
    pub fn push_text(&mut self, text: &str) -> Result<(), AllocError> {
        let start = self.text.len();
        let text = EscapedName(text);
        write!(self.text, "{text}")?;
        self.end(start)
    }

    /// Adds a cell of a number.
    pub fn push_number(&mut self, number: usize) -> Result<(), AllocError> {
        let start = self.text.len();
        write!(self.text, "{number}")?;
        self.end(start)
    }

    /// Adds a cell of a number in base 16.
    pub fn push_hex(&mut self, number: u64) -> Result<(), AllocError> {
        let start = self.text.len();
        write!(self.text, "{number:#x}")?;
        self.end(start)
    }

    /// Adds a cell of a number beside the one that is the most.
    pub fn push_share(&mut self, number: usize, most: usize) -> Result<(), AllocError> {
        let start = self.text.len();
        write!(self.text, "{number}/{most}")?;
        self.end(start)
    }

    /// Adds a cell of the name of a helper function.
    pub fn push_helper(&mut self, number: u32) -> Result<(), AllocError> {
        let Some(name) = helper_name(number) else {
            return self.push_text("-");
        };
        let start = self.text.len();
        write!(self.text, "bpf_{name}")?;
        self.end(start)
    }

    /// Adds a cell of the name of a type of maps, or of its number.
    pub fn push_map_type(&mut self, number: u32) -> Result<(), AllocError> {
        match map_type_name(number) {
            Some(name) => self.push_text(name),
            None => self.push_number(number as usize),
        }
    }

    /// Writes a cell of a column, by the column's number.
    fn write_at<W: Write>(&self, out: &mut W, number: usize, cell: &str) -> io::Result<()> {
        let (Some(column), Some(width)) = (self.columns.get(number), self.widths.get(number)) else {
            return Ok(());
        };
        let is_last = number.saturating_add(1) == self.columns.len();
        write_cell(out, *column, *width, cell, is_last)
    }

    /// Writes the heads of the columns.
    fn write_heads<W: Write>(&self, out: &mut W) -> io::Result<()> {
        for (number, column) in self.columns.iter().enumerate() {
            self.write_at(out, number, column.head())?;
        }
        writeln!(out, "")
    }

    /// Writes a row, whose cells begin at an offset, and end at these.
    fn write_row<W: Write>(&self, out: &mut W, start: usize, ends: &[usize]) -> io::Result<()> {
        let mut start = start;
        for (number, end) in ends.iter().enumerate() {
            let cell = self.text.get(start..*end).unwrap_or("");
            self.write_at(out, number, cell)?;
            start = *end;
        }
        writeln!(out, "")
    }

    /// Writes the heads of the columns and the rows below them.
    pub fn write<W: Write>(&self, out: &mut W) -> io::Result<()> {
        self.write_heads(out)?;
        let mut start = 0;
        for row in self.ends.chunks(self.columns.len().max(1)) {
            self.write_row(out, start, row)?;
            start = row.last().copied().unwrap_or(start);
        }
        Ok(())
    }
    /// Writes them under a name and a number, that of the rows or of what these count; nothing where it is 0.
    pub fn write_under<W: Write>(&self, out: &mut W, name: &str, number: usize) -> io::Result<()> {
        if number == 0 {
            return Ok(());
        }
        writeln!(out, "{name} {number}")?;
        self.write(out)
    }
}
