//! The words of a command line of `ebpf`.

use crate::choices::{Choice, choice_of, has_value};
use crate::help::VERSION;
use crate::invocation_error::InvocationError;
use cli_btf::BtfWords;
use cli_check::CheckWords;
use cli_formats::graph::GraphLanguage;
use cli_inspect::InspectWords;
use cli_link::LinkWords;
use cli_list::ListWords;
use cli_output::palette::ColorChoice;
use cli_prepare::{PrepareWords, version_number};
use ebpf_base::{Items, Text};
use std::alloc::{AllocError, Global};

/// A command that reads an object.
#[derive(Clone, Copy, PartialEq, Eq)]
pub enum Verb {
    Btf,
    Check,
    List,
    Inspect,
    Link,
}

impl Verb {
    /// The command of a name.
    pub fn named(name: &str) -> Option<Verb> {
        match name {
            "btf" => Some(Verb::Btf),
            "check" => Some(Verb::Check),
            "list" => Some(Verb::List),
            "inspect" => Some(Verb::Inspect),
            "link" => Some(Verb::Link),
            _ => None,
        }
    }

    /// Whether options may select programs.
    pub fn selects_programs(self) -> bool {
        matches!(self, Verb::Check | Verb::Inspect | Verb::Link)
    }

    /// Whether it links programs, for a kernel that options may name.
    pub fn links(self) -> bool {
        matches!(self, Verb::Inspect | Verb::Link)
    }
}

/// What a command line asks for.
#[derive(Drop)]
pub enum Invocation {
    /// What `ebpf` does, in general.
    Help,
    /// The options of a command.
    VerbHelp(Verb),
    /// The program's version.
    Version,
    /// The least types that objects need of kernels.
    Btf(BtfWords),
    /// An object's programs over kernels.
    Check(CheckWords),
    /// What an object has.
    List(ListWords),
    /// What an object's linked programs are made of.
    Inspect(InspectWords),
    /// An object's linked programs.
    Link(LinkWords),
}

/// Whether a word is an option where options may stand. A single dash is a file's name.
fn is_option(word: &str) -> bool {
    word.starts_with('-') && word != "-"
}

/// An option's name, and what stands behind the first `=` of a word that begins with two dashes.
fn split_option(word: &str) -> (&str, Option<&str>) {
    if !word.starts_with("--") {
        return (word, None);
    }
    match word.split_once('=') {
        Some((name, value)) => (name, Some(value)),
        None => (word, None),
    }
}

/// The form of what `ebpf check` prints.
#[derive(Clone, Copy, PartialEq, Eq)]
enum Form {
    Text,
    Json,
    GitHub,
}

/// What words have said so far: options without a value, and the values of those that are given once, as they are or as
/// the numbers that they say.
#[derive(Drop)]
struct Options<'a> {
    files: Vec<&'a str>,
    programs: Vec<&'a str>,
    chosen: Vec<Choice>,
    values: Vec<(Choice, &'a str)>,
    object: Option<usize>,
    kernel: Option<u32>,
    form: Option<Form>,
    color: ColorChoice,
}

/// Copies of words.
fn texts_of(alloc: Global, words: &[&str]) -> Result<Items<Text>, AllocError> {
    let mut texts = Items::new(alloc);
    for word in words {
        texts.push(Text::from_str(alloc, word)?)?;
    }
    Ok(texts)
}

/// A copy of a word that may be absent.
fn text_of(alloc: Global, word: Option<&str>) -> Result<Option<Text>, AllocError> {
    match word {
        Some(word) => Ok(Some(Text::from_str(alloc, word)?)),
        None => Ok(None),
    }
}

/// The number that is an option's value.
fn number_of<'a>(name: &'a str, value: &'a str) -> Result<usize, InvocationError<'a>> {
    match value.parse() {
        Ok(number) => Ok(number),
        Err(_) => Err(InvocationError::NoNumber { name, value }),
    }
}

/// The version that is an option's value.
fn version_of<'a>(name: &'a str, value: &'a str) -> Result<u32, InvocationError<'a>> {
    match version_number(value) {
        Some(version) => Ok(version),
        None => Err(InvocationError::NoVersion { name, value }),
    }
}

/// The form that is an option's value.
fn form_of<'a>(name: &'a str, value: &'a str) -> Result<Form, InvocationError<'a>> {
    match value {
        "text" => Ok(Form::Text),
        "json" => Ok(Form::Json),
        "github" => Ok(Form::GitHub),
        _ => Err(InvocationError::NoChoice {
            name,
            values: "text, json or github",
            value,
        }),
    }
}

/// The choice of colours that is an option's value.
fn color_of<'a>(name: &'a str, value: &'a str) -> Result<ColorChoice, InvocationError<'a>> {
    match value {
        "auto" => Ok(ColorChoice::Auto),
        "always" => Ok(ColorChoice::Always),
        "never" => Ok(ColorChoice::Never),
        _ => Err(InvocationError::NoChoice {
            name,
            values: "auto, always or never",
            value,
        }),
    }
}

impl<'a> Options<'a> {
    fn new(alloc: Global) -> Options<'a> {
        Options {
            files: Vec::new(alloc),
            programs: Vec::new(alloc),
            chosen: Vec::new(alloc),
            values: Vec::new(alloc),
            object: None,
            kernel: None,
            form: None,
            color: ColorChoice::Auto,
        }
    }

    /// Whether an option without a value was given.
    fn has(&self, choice: Choice) -> bool {
        self.chosen.contains(&choice)
    }

    /// The value of an option that is given once.
    fn value(&self, choice: Choice) -> Option<&'a str> {
        let (_, value) = self.values.iter().find(|(of, _)| *of == choice)?;
        Some(*value)
    }

    /// Notes the value of an option of a name.
    fn take(
        &mut self,
        choice: Choice,
        name: &'a str,
        value: &'a str,
    ) -> Result<(), InvocationError<'a>> {
        match choice {
            Choice::Program => return Ok(self.programs.push(value)?),
            _ if self.value(choice).is_some() => return Err(InvocationError::SecondValue(name)),
            Choice::Object => self.object = Some(number_of(name, value)?),
            Choice::Kernel => self.kernel = Some(version_of(name, value)?),
            Choice::Format => self.form = Some(form_of(name, value)?),
            Choice::Color => self.color = color_of(name, value)?,
            _ => {}
        }
        self.values.push((choice, value))?;
        Ok(())
    }

    /// The one file that is named.
    fn one_file(&self) -> Result<&'a str, InvocationError<'a>> {
        let Some((file, others)) = self.files.split_first() else {
            return Err(InvocationError::NoFile);
        };
        match others.first() {
            Some(other) => Err(InvocationError::SecondFile(other)),
            None => Ok(file),
        }
    }

    /// The form of what `ebpf check` prints.
    fn form(&self) -> Result<Form, InvocationError<'a>> {
        match (self.form, self.has(Choice::Json)) {
            (Some(_), true) => Err(InvocationError::SecondForm("--format and --json")),
            (Some(form), false) => Ok(form),
            (None, true) => Ok(Form::Json),
            (None, false) => Ok(Form::Text),
        }
    }

    /// A copy of the value of an option that has to be given.
    fn needed_text(
        &self,
        alloc: Global,
        choice: Choice,
        name: &'a str,
    ) -> Result<Text, InvocationError<'a>> {
        match self.value(choice) {
            Some(value) => Ok(Text::from_str(alloc, value)?),
            None => Err(InvocationError::MissingOption(name)),
        }
    }

    /// Refuses a file to be written that is to be read or written otherwise, by its path.
    fn expect_written_apart(&self) -> Result<(), InvocationError<'a>> {
        let html = self.value(Choice::Html);
        let sarif = self.value(Choice::Sarif);
        for path in self.files.iter().copied().chain(sarif) {
            if html == Some(path) {
                return Err(InvocationError::SecondUse(path));
            }
        }
        match sarif {
            Some(path) if self.files.contains(&path) => Err(InvocationError::SecondUse(path)),
            _ => Ok(()),
        }
    }

    /// What `ebpf btf` is asked for.
    fn btf(&self, alloc: Global) -> Result<Invocation, InvocationError<'a>> {
        if self.files.is_empty() {
            return Err(InvocationError::NoFile);
        }
        Ok(Invocation::Btf(BtfWords {
            files: texts_of(alloc, &self.files)?,
            object: self.object,
            btf: self.needed_text(alloc, Choice::Btf, "--btf")?,
            output: self.needed_text(alloc, Choice::Output, "--output")?,
            allow_ids: self.has(Choice::AllowIds),
            json: self.has(Choice::Json),
        }))
    }

    /// What `ebpf check` is asked for.
    fn check(&self, alloc: Global) -> Result<Invocation, InvocationError<'a>> {
        let Some((file, kernels)) = self.files.split_first() else {
            return Err(InvocationError::NoFile);
        };
        let form = self.form()?;
        self.expect_written_apart()?;
        Ok(Invocation::Check(CheckWords {
            version: VERSION.strip_prefix("ebpf ").unwrap_or(VERSION),
            file: Text::from_str(alloc, file)?,
            object: self.object,
            kernels: texts_of(alloc, kernels)?,
            programs: texts_of(alloc, &self.programs)?,
            all: self.has(Choice::All),
            strict: self.has(Choice::Strict),
            json: form == Form::Json,
            color: self.color,
            progress: self.has(Choice::Progress),
            annotations: form == Form::GitHub,
            html: text_of(alloc, self.value(Choice::Html))?,
            sarif: text_of(alloc, self.value(Choice::Sarif))?,
        }))
    }

    /// What `ebpf list` is asked for.
    fn list(&self, alloc: Global) -> Result<Invocation, InvocationError<'a>> {
        let file = self.one_file()?;
        self.expect_written_apart()?;
        Ok(Invocation::List(ListWords {
            file: Text::from_str(alloc, file)?,
            object: self.object,
            json: self.has(Choice::Json),
            color: self.color,
            html: text_of(alloc, self.value(Choice::Html))?,
        }))
    }

    /// What is to be prepared.
    fn prepare(&self, alloc: Global) -> Result<PrepareWords, InvocationError<'a>> {
        let file = self.one_file()?;
        Ok(PrepareWords {
            file: Text::from_str(alloc, file)?,
            object: self.object,
            btf: text_of(alloc, self.value(Choice::Btf))?,
            kallsyms: text_of(alloc, self.value(Choice::Kallsyms))?,
            kconfig: text_of(alloc, self.value(Choice::Kconfig))?,
            kernel: self.kernel,
            programs: texts_of(alloc, &self.programs)?,
            json: self.has(Choice::Json),
        })
    }

    /// The language of the graph that is asked for.
    fn graph(&self) -> Result<Option<GraphLanguage>, InvocationError<'a>> {
        match (
            self.has(Choice::Dot),
            self.has(Choice::Mermaid),
            self.has(Choice::Json),
        ) {
            (true, false, false) => Ok(Some(GraphLanguage::Dot)),
            (false, true, false) => Ok(Some(GraphLanguage::Mermaid)),
            (false, false, _) => Ok(None),
            _ => Err(InvocationError::SecondForm("--dot, --json and --mermaid")),
        }
    }

    /// What `ebpf inspect` is asked for.
    fn inspect(&self, alloc: Global) -> Result<Invocation, InvocationError<'a>> {
        let graph = self.graph()?;
        Ok(Invocation::Inspect(InspectWords {
            prepare: self.prepare(alloc)?,
            graph,
            color: self.color,
        }))
    }

    /// What `ebpf link` is asked for.
    fn link(&self, alloc: Global) -> Result<Invocation, InvocationError<'a>> {
        Ok(Invocation::Link(LinkWords {
            prepare: self.prepare(alloc)?,
            bytes: self.has(Choice::Bytes),
            lines: self.has(Choice::Lines),
            color: self.color,
        }))
    }

    /// What a command is asked for.
    fn command(&self, alloc: Global, verb: Verb) -> Result<Invocation, InvocationError<'a>> {
        if self.has(Choice::Version) && !self.has(Choice::Help) {
            return Ok(Invocation::Version);
        }
        match verb {
            _ if self.has(Choice::Help) => Ok(Invocation::VerbHelp(verb)),
            Verb::Btf => self.btf(alloc),
            Verb::Check => self.check(alloc),
            Verb::List => self.list(alloc),
            Verb::Inspect => self.inspect(alloc),
            Verb::Link => self.link(alloc),
        }
    }
}

/// Reads an option; itself with its name, where the next word is its value.
fn read_option<'a>(
    verb: Verb,
    options: &mut Options<'a>,
    word: &'a str,
) -> Result<Option<(Choice, &'a str)>, InvocationError<'a>> {
    let (name, value) = split_option(word);
    let Some(choice) = choice_of(verb, name) else {
        return Err(InvocationError::UnknownOption(word));
    };
    match value {
        Some(value) if has_value(choice) => {
            options.take(choice, name, value)?;
            Ok(None)
        }
        Some(_) => Err(InvocationError::NeedlessValue(name)),
        None if has_value(choice) => Ok(Some((choice, name))),
        None => {
            options.chosen.push(choice)?;
            Ok(None)
        }
    }
}

/// Reads the words behind a command.
fn read_options<'a>(
    alloc: Global,
    verb: Verb,
    words: &'a [String],
) -> Result<Invocation, InvocationError<'a>> {
    let mut options = Options::new(alloc);
    let mut waits = None;
    let mut only_files = false;
    for word in words {
        let word = word.as_str();
        if let Some((choice, name)) = waits {
            options.take(choice, name, word)?;
            waits = None;
        } else if only_files || !is_option(word) {
            options.files.push(word)?;
        } else if word == "--" {
            only_files = true;
        } else {
            waits = read_option(verb, &mut options, word)?;
        }
    }
    match waits {
        Some((_, name)) => Err(InvocationError::NoValue(name)),
        None => options.command(alloc, verb),
    }
}

/// What the words of a command line ask for: a command with its words, `--help` or `--version`. An option may stand
/// anywhere before `--`, with `=` and its value or with its value as the next word.
///
/// # Errors
///
/// `NoCommand`, `UnknownCommand`, and of a command the first word that can't be read, in their order, also a second value; `NoValue`
/// where the last option lacks its value; `NoFile`, `SecondFile`, `SecondForm`, `SecondUse`, `MissingOption`. `OutOfMemory` where memory is refused.
pub fn read_words<'a>(
    alloc: Global,
    words: &'a [String],
) -> Result<Invocation, InvocationError<'a>> {
    let Some((first, rest)) = words.split_first() else {
        return Err(InvocationError::NoCommand);
    };
    match first.as_str() {
        "-h" | "--help" | "help" => Ok(Invocation::Help),
        "-V" | "--version" => Ok(Invocation::Version),
        word if is_option(word) => Err(InvocationError::UnknownOption(word)),
        word => match Verb::named(word) {
            Some(verb) => read_options(alloc, verb, rest),
            None => Err(InvocationError::UnknownCommand(word)),
        },
    }
}
