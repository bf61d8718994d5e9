//! From the words of a command line to a status.

use crate::help::{
    BTF_HELP, BTF_USAGE, CHECK_HELP, CHECK_USAGE, HELP, INSPECT_HELP, INSPECT_USAGE, LINK_HELP,
    LINK_USAGE, LIST_HELP, LIST_USAGE, USAGE, VERSION,
};
use crate::invocation_error::InvocationError;
use crate::words::{Invocation, Verb, read_words};
use cli_btf::btf;
use cli_check::check;
use cli_common::names::EscapedName;
use cli_common::object_file::gather_words;
use cli_common::refuse::{Stop, stopped};
use cli_inspect::inspect;
use cli_link::link;
use cli_list::list;
use std::io::ErrorKind;
use std::process::ExitCode;

/// The usage line of a command.
fn usage_of(verb: Verb) -> &'static str {
    match verb {
        Verb::Btf => BTF_USAGE,
        Verb::Check => CHECK_USAGE,
        Verb::List => LIST_USAGE,
        Verb::Inspect => INSPECT_USAGE,
        Verb::Link => LINK_USAGE,
    }
}

/// The text that `--help` of a command prints below the usage line.
fn help_of(verb: Verb) -> &'static str {
    match verb {
        Verb::Btf => BTF_HELP,
        Verb::Check => CHECK_HELP,
        Verb::List => LIST_HELP,
        Verb::Inspect => INSPECT_HELP,
        Verb::Link => LINK_HELP,
    }
}

/// Says why words can't be read, with the usage line, and gives the status.
fn usage(rt: &HostRuntime, words: &[String], error: &InvocationError<'_>) -> Result<u8, Stop> {
    let alloc = rt.alloc();
    let sentence = format!(in alloc; "{error}")?;
    let sentence = EscapedName(sentence.as_str());
    let _ = eprintln!(rt; "ebpf: {sentence}");
    let usage = match words.first().and_then(|word| Verb::named(word.as_str())) {
        Some(verb) => usage_of(verb),
        None => USAGE,
    };
    let _ = eprintln!(rt; "{usage}");
    Ok(2)
}

/// Prints a text.
fn tell(rt: &HostRuntime, text: &str) -> Result<u8, Stop> {
    println!(rt; "{text}")?;
    Ok(0)
}

/// Does what a command line asks.
fn obey(rt: &HostRuntime, command: &Invocation) -> Result<u8, Stop> {
    match command {
        Invocation::Help => tell(rt, HELP),
        Invocation::VerbHelp(verb) => {
            tell(rt, usage_of(*verb))?;
            tell(rt, help_of(*verb))
        }
        Invocation::Version => tell(rt, VERSION),
        Invocation::Btf(words) => btf(rt, words),
        Invocation::Check(words) => check(rt, words),
        Invocation::List(words) => list(rt, words),
        Invocation::Inspect(words) => inspect(rt, words),
        Invocation::Link(words) => link(rt, words),
    }
}

/// Why the work ends: an output without memory for what is written is out of memory too.
fn of_memory(stop: Stop) -> Stop {
    match stop {
        Stop::Output(error) if matches!(error.kind(), ErrorKind::OutOfMemory) => Stop::Memory,
        other => other,
    }
}

/// Runs `ebpf`: reads the words of its command line, does what they ask and gives the status.
pub fn start(rt: &HostRuntime) -> ExitCode {
    let words = match gather_words(rt) {
        Ok(words) => words,
        Err(error) => {
            let _ = eprintln!(rt; "ebpf: {error}");
            return ExitCode::from(2);
        }
    };
    let done = match read_words(rt.alloc(), &words) {
        Ok(command) => obey(rt, &command),
        Err(InvocationError::OutOfMemory) => Err(Stop::Memory),
        Err(error) => usage(rt, &words, &error),
    };
    match done {
        Ok(status) => ExitCode::from(status),
        Err(stop) => ExitCode::from(stopped(rt, of_memory(stop))),
    }
}
