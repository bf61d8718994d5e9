//! Tables of a page: what their columns and cells have.

/// The kind of a column.
#[derive(Clone, Copy, PartialEq, Eq)]
pub enum ColumnKind {
    /// Numbers, at the right edge.
    Number,
    /// Words.
    Word,
    /// The names of the rows.
    Name,
}

/// A column of a table.
#[derive(Clone, Copy)]
pub struct PageColumn {
    /// Its head.
    pub head: &'static str,
    /// Its kind.
    pub kind: ColumnKind,
}

/// A cell of a table.
#[derive(Drop)]
pub enum PageCell<'a> {
    /// A text.
    Text(&'a str),
    /// A number.
    Number(usize),
    /// A number in base 16.
    Hex(u64),
    /// A number, and the number of all.
    Share(usize, usize),
    /// The name of a helper function, without its `bpf_`.
    Helper(&'a str),
    /// Names.
    Names(Vec<&'a str>),
}

/// A table.
#[derive(Drop)]
pub struct PageTable<'a> {
    /// Its title.
    pub title: &'static str,
    /// The number beside its title: that of the rows, or of what they count.
    pub count: usize,
    /// Its columns.
    pub columns: Vec<PageColumn>,
    /// Its cells, row by row.
    pub cells: Vec<PageCell<'a>>,
}

/// Returns a column of numbers.
pub fn number_column(head: &'static str) -> PageColumn {
    PageColumn {
        head,
        kind: ColumnKind::Number,
    }
}

/// Returns a column of words.
pub fn word_column(head: &'static str) -> PageColumn {
    PageColumn {
        head,
        kind: ColumnKind::Word,
    }
}

/// Returns a column of the rows' names.
pub fn name_column(head: &'static str) -> PageColumn {
    PageColumn {
        head,
        kind: ColumnKind::Name,
    }
}
