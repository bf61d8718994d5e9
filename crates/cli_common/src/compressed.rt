//! Files that are compressed.

use std::alloc::{AllocError, Global};
use std::fmt;

/// How a file is compressed, by the program that does it.
#[derive(Clone, Copy)]
pub enum Compression {
    /// By gzip.
    Gzip,
    /// By xz.
    Xz,
    /// By zstd.
    Zstd,
}

/// A word of a shell's command line, in quotes where it has other characters than those of most names.
#[derive(Clone, Copy)]
struct ShellWord<'a>(&'a str);

/// Whether a character stands for itself in a word of a shell.
fn is_plain(c: char) -> bool {
    matches!(c, 'a'..='z' | 'A'..='Z' | '0'..='9' | '_' | '.' | '/' | '+' | '-' | ':' | '@' | ',')
}

/// Writes a character between single quotes.
fn write_between<W: fmt::Write>(f: &mut fmt::Formatter<W>, c: char) -> fmt::Result {
    if c == '\'' {
        write!(f, "'\"'\"'")
    } else {
        f.write_char(c)
    }
}

impl fmt::Display for ShellWord<'_> {
    fn fmt<W: fmt::Write>(&self, f: &mut fmt::Formatter<W>) -> fmt::Result {
        let front = if self.0.starts_with('-') { "./" } else { "" };
        if self.0.chars().all(is_plain) {
            return write!(f, "{front}{}", self.0);
        }
        write!(f, "'{front}")?;
        for c in self.0.chars() {
            write_between(f, c)?;
        }
        f.write_char('\'')
    }
}

impl Compression {
    /// How bytes are compressed, as the first of them say.
    pub fn of(bytes: &[u8]) -> Option<Compression> {
        match bytes {
            [0x1f, 0x8b, ..] => Some(Compression::Gzip),
            [0xfd, 0x37, 0x7a, 0x58, 0x5a, 0, ..] => Some(Compression::Xz),
            [0x28, 0xb5, 0x2f, 0xfd, ..] => Some(Compression::Zstd),
            _ => None,
        }
    }

    /// The name of the program.
    pub fn program(self) -> &'static str {
        match self {
            Compression::Gzip => "gzip",
            Compression::Xz => "xz",
            Compression::Zstd => "zstd",
        }
    }

    /// What the names of such files end in.
    fn suffix(self) -> &'static str {
        match self {
            Compression::Gzip => ".gz",
            Compression::Xz => ".xz",
            Compression::Zstd => ".zst",
        }
    }

    /// The command that unpacks a file so compressed.
    pub fn command(self, alloc: Global, path: &str) -> Result<String, AllocError> {
        let program = self.program();
        let packed = ShellWord(path);
        let Some(bare) = path.strip_suffix(self.suffix()) else {
            let unpacked = format!(in alloc; "{path}.unpacked")?;
            let unpacked = ShellWord(unpacked.as_str());
            return format!(in alloc; "{program} -dc {packed} >{unpacked}");
        };
        if bare.ends_with(".tar") {
            return format!(in alloc; "tar -xf {packed}");
        }
        let unpacked = ShellWord(bare);
        format!(in alloc; "{program} -dc {packed} >{unpacked}")
    }
}
