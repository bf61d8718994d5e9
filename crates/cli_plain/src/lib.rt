//! Arguments, output and exit status of the programs `ebpf-link` and `ebpf-inspect`.
#![tactic(auto)]

mod arguments;
mod failure;
mod inspect;
mod link;
mod opened;
mod preparation;
mod printed_text;

pub use arguments::{Words, WordsError, read_words};
pub use failure::{Failure, cannot_read, report};
pub use inspect::{print_reports, run_inspect};
pub use link::{prepare_all, print_programs, run_link};
pub use opened::{OpenFiles, PlainCommand, start};
