//! The options of the commands.

use crate::words::Verb;

/// An option of a command.
#[derive(Clone, Copy, PartialEq, Eq)]
pub enum Choice {
    Program,
    Object,
    Btf,
    Output,
    AllowIds,
    Kallsyms,
    Kconfig,
    Kernel,
    Html,
    Sarif,
    Format,
    Color,
    Progress,
    All,
    Strict,
    Bytes,
    Lines,
    Dot,
    Mermaid,
    Json,
    Help,
    Version,
}

/// The option of a name that a command has.
pub fn choice_of(verb: Verb, name: &str) -> Option<Choice> {
    match name {
        "--program" if verb.selects_programs() => Some(Choice::Program),
        "--object" => Some(Choice::Object),
        "--btf" if verb.links() || verb == Verb::Btf => Some(Choice::Btf),
        "--output" if verb == Verb::Btf => Some(Choice::Output),
        "--allow-ids" if verb == Verb::Btf => Some(Choice::AllowIds),
        "--kallsyms" if verb.links() => Some(Choice::Kallsyms),
        "--kconfig" if verb.links() => Some(Choice::Kconfig),
        "--kernel" if verb.links() => Some(Choice::Kernel),
        "--html" if matches!(verb, Verb::Check | Verb::List) => Some(Choice::Html),
        "--sarif" if verb == Verb::Check => Some(Choice::Sarif),
        "--format" if verb == Verb::Check => Some(Choice::Format),
        "--color" if verb != Verb::Btf => Some(Choice::Color),
        "--progress" if verb == Verb::Check => Some(Choice::Progress),
        "--all" if verb == Verb::Check => Some(Choice::All),
        "--strict" if verb == Verb::Check => Some(Choice::Strict),
        "--bytes" if verb == Verb::Link => Some(Choice::Bytes),
        "--lines" if verb == Verb::Link => Some(Choice::Lines),
        "--dot" if verb == Verb::Inspect => Some(Choice::Dot),
        "--mermaid" if verb == Verb::Inspect => Some(Choice::Mermaid),
        "-j" | "--json" if verb != Verb::Link => Some(Choice::Json),
        "-h" | "--help" => Some(Choice::Help),
        "-V" | "--version" => Some(Choice::Version),
        _ => None,
    }
}

/// Whether an option has a value.
pub fn has_value(choice: Choice) -> bool {
    matches!(
        choice,
        Choice::Program
            | Choice::Object
            | Choice::Btf
            | Choice::Output
            | Choice::Kallsyms
            | Choice::Kconfig
            | Choice::Kernel
            | Choice::Html
            | Choice::Sarif
            | Choice::Format
            | Choice::Color
    )
}
