//! The arguments of the command line.

ghost use Rattle.std.specs.Prelude.{◌≡◌, IfOk, IfErr, Some, None, true, map, string_bytes};
ghost use Rattle.std.specs.Option.{option_copied};
ghost use Rattle.ebpf_base.specs.Faults.{Refuses};
ghost use Rattle.cli_plain.specs.Arguments.{FoundValue, nothing, option_of, has_dashes, put, texts_in, parsed_words, words_fault, is_words_memory};

use ebpf_base::Text;
use std::alloc::{AllocError, Global};
use std::marker::Model;
use thiserror::Error;

/// The arguments of a command line.
#[derive(Debug, Drop)]
pub struct Words {
    /// The object's file.
    pub file: Text,
    /// The file with the kernel's types.
    pub btf: Option<Text>,
    /// The file with the kernel's symbols.
    pub kallsyms: Option<Text>,
    /// The one program that is printed.
    pub program: Option<Text>,
}

impl Words {
    /// The name of the one program that is printed.
    pub fn program(&self) -> Option<&str>
        ensures { option_copied result ≡ self.now.program }
    {
        match &self.program {
            Some(name) => Some(name.as_str()),
            None => None,
        }
    }
}

/// The reason why arguments can't be read.
#[derive(Clone, Copy, Debug, Error, PartialEq, Eq)]
pub enum WordsError {
    /// The arguments are not as the usage line says.
    #[error("usage: FILE [--btf FILE] [--kallsyms FILE] [--program NAME]")]
    Usage,
    /// An allocation failed.
    #[error("memory")]
    OutOfMemory,
}

impl From<AllocError> for WordsError {
    ghost use Rattle.cli_plain.specs.declared.arguments.WordsError.TheVariants.{OutOfMemory};

    ghost from_gives = { λ _ e. e ≡ OutOfMemory };

    fn from(_error: AllocError) -> WordsError {
        WordsError::OutOfMemory
    }
}

/// The kinds of argument.
#[derive(Clone, Copy)]
enum ArgumentKind {
    File,
    Btf,
    Kallsyms,
    Program,
}

/// The option that a word is.
fn option_of(word: &str) -> Option<ArgumentKind>
    ensures { result ≡ option_of word.now }
{
    match word {
        "--btf" => Some(ArgumentKind::Btf),
        "--kallsyms" => Some(ArgumentKind::Kallsyms),
        "--program" => Some(ArgumentKind::Program),
        _ => None,
    }
}

fn has_dashes(word: &str) -> bool
    ensures { result ≡ has_dashes word.now }
{
    word.as_bytes().starts_with(b"--")
}

/// The texts of the arguments, lent.
#[derive(Drop)]
struct FoundWords<'a> {
    file: Option<&'a str>,
    btf: Option<&'a str>,
    kallsyms: Option<&'a str>,
    program: Option<&'a str>,
}

impl<'a> Model for FoundWords<'a> {
    ghost Value = { FoundValue };

    ghost view = { λ f.
        record {
          file = option_copied f.file;
          btf = option_copied f.btf;
          kallsyms = option_copied f.kallsyms;
          program = option_copied f.program;
        } };
}

impl<'a> FoundWords<'a> {
    fn nothing() -> FoundWords<'a>
        ensures { result ≡ nothing }
    {
        FoundWords {
            file: None,
            btf: None,
            kallsyms: None,
            program: None,
        }
    }

    /// Puts a text of a kind that has none yet.
    #[tactic(auto, unfolding(crate::specs::Arguments::put))]
    fn put(self, kind: ArgumentKind, text: &'a str) -> Option<FoundWords<'a>>
        ensures { result ≡ put self.entry (kind, text.entry.now) }
    {
        let text = Some(text);
        match kind {
            ArgumentKind::File if self.file.is_none() => Some(FoundWords { file: text, ..self }),
            ArgumentKind::Btf if self.btf.is_none() => Some(FoundWords { btf: text, ..self }),
            ArgumentKind::Kallsyms if self.kallsyms.is_none() => Some(FoundWords {
                kallsyms: text,
                ..self
            }),
            ArgumentKind::Program if self.program.is_none() => Some(FoundWords {
                program: text,
                ..self
            }),
            _ => None,
        }
    }
}

/// The texts of the arguments.
fn find_texts(words: &[String]) -> Option<FoundWords<'_>>
    ensures { result ≡ texts_in (map string_bytes words.now) }
{
    let mut found = FoundWords::nothing();
    let mut waits = None;
    for word in words {
        let text = word.as_str();
        if let Some(kind) = waits {
            found = found.put(kind, text)?;
            waits = None;
            continue;
        }
        waits = option_of(text);
        if waits.is_some() {
            continue;
        }
        if has_dashes(text) {
            return None;
        }
        found = found.put(ArgumentKind::File, text)?;
    }
    if waits.is_some() {
        return None;
    }
    Some(found)
}

/// A copy of a text that may be absent.
fn copied(alloc: Global, text: Option<&str>) -> Result<Option<Text>, WordsError>
    ensures text { IfOk result (λ copy. copy ≡ option_copied text.entry) }
    ensures memory { IfErr result (λ e. is_words_memory e ≡ true) }
{
    match text {
        Some(text) => Ok(Some(Text::from_str(alloc, text)?)),
        None => Ok(None),
    }
}

/// Reads the arguments of a command line: one file, and each option at most once, in any order.
///
/// # Errors
///
/// - `Usage`: there is no file or a second one, an option twice or without its value, or another word that begins with `--`.
/// - `OutOfMemory`: an allocation failed.
pub fn read_words(alloc: Global, words: &[String]) -> Result<Words, WordsError>
    ensures words { IfOk result (λ default_passes.
        parsed_words (map string_bytes words.now) ≡ Some default_passes) }
    ensures fault { Refuses is_words_memory result (words_fault (map string_bytes words.now)) }
{
    let Some(found) = find_texts(words) else {
        return Err(WordsError::Usage);
    };
    let Some(file) = found.file else {
        return Err(WordsError::Usage);
    };
    Ok(Words {
        file: Text::from_str(alloc, file)?,
        btf: copied(alloc, found.btf)?,
        kallsyms: copied(alloc, found.kallsyms)?,
        program: copied(alloc, found.program)?,
    })
}
